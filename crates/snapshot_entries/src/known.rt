// What is known of a site.
ghost use Rattle.std.specs.Prelude.{◌≡◌, ◌<◌, length, IfOk};
ghost use Rattle.snapshot_plan.specs.{PlanView};
ghost use Rattle.rdf_model.specs.{Dataset};
ghost use Rattle.snapshot_entries.specs.{AreKnown, site_total};

use rdf_values::{EntryFault, Memory, Value};
use std::alloc::Global;

/// What a site came to in the entry in which it was evaluated last.
#[derive(Drop)]
pub struct Known {
    pub(crate) entry: u32,
    pub(crate) outcome: Result<Value, EntryFault>,
}

// No table has such an entry.
const NO_ENTRY: u32 = 4294967295;

/// So many sites, of which none was evaluated.
pub(crate) fn none_known(alloc: Global, sites: u32) -> Result<Vec<Known>, Memory>
    ensures { (p : PlanView) (d : Dataset) → site_total p d ≡ sites → length d.rows < 4294967296 → IfOk result (λ cells. AreKnown p d cells.items) }
{
    let mut cells = Vec::with_capacity(alloc, sites as usize)?;
    for _ in 0..sites {
        let outcome = Ok(Value::Int(0));
        cells.push(Known {
            entry: NO_ENTRY,
            outcome,
        })?;
    }
    Ok(cells)
}
