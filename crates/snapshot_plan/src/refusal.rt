// Refusals of a plan.
ghost use Rattle.std.specs.Prelude.{◌≡◌};
ghost use Rattle.snapshot_plan.specs.declared.refusal.SnapRefusal.TheVariants as refusal;

use crate::cause::SnapCause;
use rdf_values::Memory as NoMemory;

/// Why there is no plan: the first cause that applies, or want of memory.
#[derive(Clone, Copy, Debug, PartialEq, Eq)]
pub enum SnapRefusal {
    At(SnapCause),
    Memory,
}

impl From<NoMemory> for SnapRefusal {
    ghost from_gives = { λ _ e. e ≡ refusal.Memory };

    fn from(_: NoMemory) -> SnapRefusal {
        SnapRefusal::Memory
    }
}
