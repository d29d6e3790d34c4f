// Refusals of a table's bytes.
ghost use Rattle.std.specs.Prelude.{◌≡◌};
ghost use Rattle.table_csv.specs.declared.refusal.TableRefusal.TheVariants as refusal;

use rdf_values::{Memory, TableCause};
use thiserror::Error;

/// Why bytes give no table: the first place at which they are none, or want of memory.
#[derive(Clone, Copy, Debug, PartialEq, Eq, Error)]
pub enum TableRefusal {
    #[error("the bytes are no table: {0:?}")]
    At(TableCause),
    #[error("out of memory")]
    Memory,
}

impl From<Memory> for TableRefusal {
    ghost from_gives = { λ _ e. e ≡ refusal.Memory };

    fn from(_: Memory) -> TableRefusal {
        TableRefusal::Memory
    }
}
