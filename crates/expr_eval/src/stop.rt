// Why an expression has no value, and what a part without vectors comes to.
ghost use Rattle.std.specs.Prelude.{◌≡◌};
ghost use Rattle.expr_eval.specs.declared.stop.EvalStop.TheVariants.{Memory};
ghost use Rattle.expr_eval.specs.{answered, scalar_outcome};

use rdf_values::{EntryFault, Scalar};
use std::alloc::{AllocError, AllocFailed};

/// A fault, or the number of a column that is missing: whichever an evaluation from left to right meets first.
#[derive(Clone, Copy, Debug, PartialEq, Eq)]
pub enum ScalarStop {
    Fault(EntryFault),
    Need(u32),
}

/// The same, or want of memory.
#[derive(Clone, Copy, Debug, PartialEq, Eq)]
pub enum EvalStop {
    Fault(EntryFault),
    Need(u32),
    Memory,
}

impl From<AllocError> for EvalStop {
    ghost from_gives = { λ _ stop. stop ≡ Memory };

    fn from(_: AllocError) -> EvalStop {
        EvalStop::Memory
    }
}

impl<T: Drop> From<AllocFailed<T>> for EvalStop {
    ghost from_gives = { λ _ stop. stop ≡ Memory };

    fn from(_: AllocFailed<T>) -> EvalStop {
        EvalStop::Memory
    }
}

/// A value or a stop, in 16 bytes: evaluations hand it on faster than a `Result<Scalar, ScalarStop>`, which has 24.
#[derive(Clone, Copy)]
pub(crate) enum ScalarAnswer {
    Int(i64),
    Bool(bool),
    Fault(EntryFault),
    Need(u32),
}

impl ScalarAnswer {
    /// The value or the stop, as the callers of an evaluation take it.
    pub(crate) fn into_result(self) -> Result<Scalar, ScalarStop>
        ensures { scalar_outcome result ≡ answered self }
    {
        match self {
            ScalarAnswer::Int(z) => Ok(Scalar::Int(z)),
            ScalarAnswer::Bool(b) => Ok(Scalar::Bool(b)),
            ScalarAnswer::Fault(kind) => Err(ScalarStop::Fault(kind)),
            ScalarAnswer::Need(number) => Err(ScalarStop::Need(number)),
        }
    }
}
