// Why a snapshot has no text.
ghost use Rattle.std.specs.Prelude.{◌≡◌};
ghost use Rattle.snapshot_run.specs.declared.stop.SnapStop.TheVariants as stop;

use rdf_values::{EntryFault, Memory as NoMemory};

/// The first fault of the entries; a text that is too long, with the bytes that it would have; or want of memory.
#[derive(Clone, Copy, Debug, PartialEq, Eq)]
pub enum SnapStop {
    Fault { entry: u32, kind: EntryFault },
    TooLong { bytes: usize },
    Memory,
}

impl From<NoMemory> for SnapStop {
    ghost from_gives = { λ _ e. e ≡ stop.Memory };

    fn from(_: NoMemory) -> SnapStop {
        SnapStop::Memory
    }
}
