// One slot of the machine.
ghost use Rattle.std.specs.Prelude.{◌≡◌, ◌≤◌, min};
ghost use Rattle.rdf_values.specs.{claim_next, end_slot, give_up, if_running, running_step, slot_of};
ghost use Rattle.merge_core.specs.{fresh_slot, seen_phase, seen_slot, Steps};

use crate::refusal::StepRefusal;
use rdf_values::{Event, Fault, ListOf, StepCause};
use std::alloc::Global;

/// The next cluster to be drawn, and the bar, at and above which a slot passes its cluster over.
#[derive(Clone, Copy)]
pub struct Front {
    pub next: u32,
    pub bar: u32,
}

/// A slot runs until it ends or faults.
#[derive(Clone, Copy)]
pub enum Phase {
    Running,
    Ended,
    Faulted(Fault),
}

/// The clusters that a slot drew, the one that it holds, and whether it goes on.
#[derive(Drop)]
pub struct Slot {
    pub drawn: ListOf<u32>,
    pub held: Option<u32>,
    pub phase: Phase,
}

impl Slot {
    /// It runs and holds nothing.
    pub fn new(alloc: Global) -> Slot
        ensures { seen_slot result ≡ fresh_slot }
    {
        Slot {
            drawn: ListOf::new(alloc),
            held: None,
            phase: Phase::Running,
        }
    }

    // Claims the next cluster.
    fn claim(&mut self, clusters: u32, front: Front, cluster: u32) -> Result<Front, StepRefusal>
        requires { front.next ≤ clusters }
        ensures { Steps (claim_next clusters front.next front.bar cluster (seen_slot self.old) self.old.held) self.old self.new result }
    {
        if let Some(held) = self.held {
            return Err(StepRefusal::Cause(StepCause::Busy { cluster: held }));
        }
        let Front { next, bar } = front;
        if cluster != next || next >= clusters {
            return Err(StepRefusal::Cause(StepCause::NotNext { next }));
        }
        self.drawn.push(next)?;
        self.held = Some(next);
        self.phase = Phase::Running;
        Ok(Front {
            next: next + 1,
            bar,
        })
    }

    // Gives up the cluster that it holds.
    fn give_up(&mut self, after: Front, cluster: u32, phase: Phase) -> Result<Front, StepRefusal>
        ensures { Steps (give_up after.next after.bar cluster (seen_slot self.old) self.old.held (seen_phase phase)) self.old self.new result }
    {
        let Some(held) = self.held else {
            return Err(StepRefusal::Cause(StepCause::NotHeld { held: None }));
        };
        if held != cluster {
            return Err(StepRefusal::Cause(StepCause::NotHeld { held: Some(held) }));
        }
        self.held = None;
        self.phase = phase;
        Ok(after)
    }

    // Ends, once every cluster is claimed.
    fn end(&mut self, clusters: u32, front: Front) -> Result<Front, StepRefusal>
        ensures { Steps (end_slot clusters front.next front.bar (seen_slot self.old) self.old.held) self.old self.new result }
    {
        if let Some(held) = self.held {
            return Err(StepRefusal::Cause(StepCause::Busy { cluster: held }));
        }
        if front.next < clusters {
            return Err(StepRefusal::Cause(StepCause::NotOver { next: front.next }));
        }
        self.phase = Phase::Ended;
        Ok(front)
    }

    // An event of a slot that runs.
    fn running_step(
        &mut self,
        clusters: u32,
        front: Front,
        event: Event,
    ) -> Result<Front, StepRefusal>
        requires { front.next ≤ clusters }
        ensures { Steps (running_step clusters front.next front.bar (seen_slot self.old) event) self.old self.new result }
    {
        match event {
            Event::Claim { cluster, .. } => self.claim(clusters, front, cluster),
            Event::Finish { cluster, .. } => self.give_up(front, cluster, Phase::Running),
            Event::Fault { cluster, fault, .. } => {
                let lowered = Front {
                    next: front.next,
                    bar: front.bar.min(cluster),
                };
                self.give_up(lowered, cluster, Phase::Faulted(fault))
            }
            Event::Skip { cluster, .. } => match self.held {
                Some(held) if held == cluster && held < front.bar => {
                    Err(StepRefusal::Cause(StepCause::NotBarred { bar: front.bar }))
                }
                _ => self.give_up(front, cluster, Phase::Ended),
            },
            Event::End { .. } => self.end(clusters, front),
        }
    }

    /// An event of this slot, which has that number: how far the slots have come then.
    pub fn step(
        &mut self,
        number: u32,
        clusters: u32,
        front: Front,
        event: Event,
    ) -> Result<Front, StepRefusal>
        requires { front.next ≤ clusters }
        ensures { Steps (if_running number (seen_slot self.old).phase (running_step clusters front.next front.bar (seen_slot self.old) event)) self.old self.new result }
    {
        match self.phase {
            Phase::Running => self.running_step(clusters, front, event),
            _ => Err(StepRefusal::Cause(StepCause::Stopped { slot: number })),
        }
    }
}

/// The slot of an event.
pub fn slot_of(event: Event) -> u32
    ensures { result ≡ slot_of event }
{
    match event {
        Event::Claim { slot, .. }
        | Event::Finish { slot, .. }
        | Event::Fault { slot, .. }
        | Event::Skip { slot, .. }
        | Event::End { slot } => slot,
    }
}
