// Why an entry or a cluster gives no records.
ghost use Rattle.std.specs.Prelude.{◌≡◌};
ghost use Rattle.snapshot_entries.specs.declared.stop.EntryStop.TheVariants as stop;

use rdf_values::{EntryFault, Memory as NoMemory};

/// The entry's fault, or want of memory.
#[derive(Clone, Copy, Debug, PartialEq, Eq)]
pub enum EntryStop {
    Fault(EntryFault),
    Memory,
}

impl From<NoMemory> for EntryStop {
    ghost from_gives = { λ _ e. e ≡ stop.Memory };

    fn from(_: NoMemory) -> EntryStop {
        EntryStop::Memory
    }
}

/// The first fault of a cluster's entries, or want of memory.
#[derive(Clone, Copy, Debug, PartialEq, Eq)]
pub enum SkimStop {
    Fault { entry: u32, kind: EntryFault },
    Memory,
}
