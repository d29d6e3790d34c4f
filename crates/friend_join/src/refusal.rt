// Refusals of a join.
ghost use Rattle.std.specs.Prelude.{◌≡◌};
ghost use Rattle.friend_join.specs.declared.refusal.JoinRefusal.TheVariants as refusal;

use crate::cause::JoinCause;
use rdf_values::Memory;

/// Why a friend isn't joined: the first cause that applies, or want of memory.
#[derive(Clone, Copy, Debug, PartialEq, Eq)]
pub enum JoinRefusal {
    At(JoinCause),
    Memory,
}

impl From<Memory> for JoinRefusal {
    ghost from_gives = { λ _ e. e ≡ refusal.Memory };

    fn from(_: Memory) -> JoinRefusal {
        JoinRefusal::Memory
    }
}
