// The machine of events.
ghost use Rattle.std.specs.Prelude.{◌≡◌, ◌<◌, ◌≤◌, IfOk, length};
ghost use Rattle.rdf_values.specs.{claim_step, opening};
ghost use Rattle.merge_core.specs.Slots.{IsStep};

use crate::refusal::StepRefusal;
use crate::slot::{Front, Slot, slot_of};
use rdf_values::{Event, Memory, StepCause};
use std::alloc::Global;
use std::marker::Model;

/// Slots that claim clusters, finish them, fault, pass them over or end. No loop runs it; it tells of a loop's slots as a list of events.
#[derive(Drop)]
pub struct Core {
    clusters: u32,
    front: Front,
    slots: Vec<Slot>,
}

impl Model for Core {
    ghost use Rattle.std.specs.Prelude.{◌≤◌, ◌<◌, ◌^◌, length};
    ghost use Rattle.merge_core.specs.Slots.{CoreView, seen_machine};

    ghost Value = { CoreView };

    ghost view = { λ c. record { clusters = c.clusters; machine = seen_machine c.front c.slots.items } };

    ghost invariant = { λ c. (c.front.next ≤ c.clusters) × (length c.slots.items < 2 ^ 32) };
}

impl Core {
    /// The opening: no cluster is drawn, and each slot runs and holds nothing.
    pub fn new(alloc: Global, clusters: u32, slots: u32) -> Result<Core, Memory>
        requires { 0 < slots }
        ensures { IfOk result (λ core. (core.clusters ≡ clusters) × (core.machine ≡ opening clusters slots)) }
    {
        let mut all = Vec::new(alloc);
        for _ in 0..slots {
            all.push(Slot::new(alloc))?;
        }
        Ok(Core {
            clusters,
            front: Front {
                next: 0,
                bar: clusters,
            },
            slots: all,
        })
    }

    /// One event. After a refusal nothing has changed.
    #[tactic(auto, using(crate::proofs::Stepped::among))]
    pub fn step(&mut self, event: Event) -> Result<(), StepRefusal>
        ensures { IsStep (claim_step self.old.clusters self.old.machine event) self.old self.new result }
    {
        let number = slot_of(event);
        if number as usize >= self.slots.len() {
            let slots = self.slots.len() as u32;
            return Err(StepRefusal::Cause(StepCause::NoSlot { slots }));
        }
        self.front = self.slots[number as usize].step(number, self.clusters, self.front, event)?;
        Ok(())
    }
}
