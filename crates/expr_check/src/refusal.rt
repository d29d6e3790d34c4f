// Why an expression has no kind.
ghost use Rattle.std.specs.Prelude.{◌≡◌};
ghost use Rattle.expr_check.specs.declared.refusal.CheckRefusal.TheVariants as refusal;

use rdf_values::Memory as NoMemory;
use std::alloc::AllocFailed;

/// Why an expression has no kind, printed as S4, S5, S7 and S8, or want of memory.
#[derive(Clone, Copy, Debug, PartialEq, Eq)]
pub enum CheckRefusal {
    UnknownColumn,
    UnknownFunction,
    WrongType,
    WrongCount,
    Memory,
}

impl From<NoMemory> for CheckRefusal {
    ghost from_gives = { λ _ outcome. outcome ≡ refusal.Memory };

    fn from(_: NoMemory) -> CheckRefusal {
        CheckRefusal::Memory
    }
}

impl<T: Drop> From<AllocFailed<T>> for CheckRefusal {
    ghost from_gives = { λ _ outcome. outcome ≡ refusal.Memory };

    fn from(_: AllocFailed<T>) -> CheckRefusal {
        CheckRefusal::Memory
    }
}
