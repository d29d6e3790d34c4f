// Refusals of a part file.
ghost use Rattle.std.specs.Prelude.{◌≡◌};
ghost use Rattle.chain_files.specs.declared.refusal.PartRefusal.TheVariants as refusal;

use rdf_values::Memory;

/// Why bytes are no part: the first line, from 1, that can't follow those before it, or want of memory.
#[derive(Clone, Copy, Debug, PartialEq, Eq)]
pub enum PartRefusal {
    Syntax { line: u32 },
    Memory,
}

impl From<Memory> for PartRefusal {
    ghost from_gives = { λ _ e. e ≡ refusal.Memory };

    fn from(_: Memory) -> PartRefusal {
        PartRefusal::Memory
    }
}
