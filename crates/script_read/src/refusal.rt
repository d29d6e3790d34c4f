// Why a script or one of its lines isn't read.
ghost use Rattle.std.specs.Prelude.{◌≡◌};
ghost use Rattle.script_read.specs.declared.refusal.LineStop.TheVariants.{Memory as OutOfMemory};
ghost use Rattle.script_read.specs.declared.refusal.ScriptRefusal.TheVariants as refusal;

use rdf_values::{ExprCause, Memory, ScriptCause};
use std::alloc::AllocFailed;
use thiserror::Error;

/// Why a text is no script: the first bad line, with its place and cause, or want of memory.
#[derive(Clone, Copy, Debug, PartialEq, Eq, Error)]
pub enum ScriptRefusal {
    #[error("the text is no script: {0:?}")]
    At(ScriptCause),
    #[error("out of memory")]
    Memory,
}

impl From<Memory> for ScriptRefusal {
    ghost from_gives = { λ _ e. e ≡ refusal.Memory };

    fn from(_: Memory) -> ScriptRefusal {
        ScriptRefusal::Memory
    }
}

/// A fault at a place in the line, or want of memory.
#[derive(Clone, Copy, Debug, PartialEq, Eq)]
pub(crate) enum LineStop {
    Syntax(u32),
    Expression(u32, ExprCause),
    Memory,
}

impl From<Memory> for LineStop {
    ghost from_gives = { λ _ stop. stop ≡ OutOfMemory };

    fn from(_: Memory) -> LineStop {
        LineStop::Memory
    }
}

impl<T: Drop> From<AllocFailed<T>> for LineStop {
    ghost from_gives = { λ _ stop. stop ≡ OutOfMemory };

    fn from(_: AllocFailed<T>) -> LineStop {
        LineStop::Memory
    }
}
