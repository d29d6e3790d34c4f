// The first refusal of several checks in order.
ghost use Rattle.std.specs.Prelude.{◌≡◌};
ghost use Rattle.rdf_values.specs.{first_refusal, refuse_if, refuse_unless};
ghost use Rattle.graph.specs.{Decides};
ghost use Rattle.graph.specs.declared.refusals.Stop.TheVariants.{Memory as OutOfMemory};
ghost use Rattle.graph.specs.declared.refusals.GraphRefusal.TheVariants as refusal;

use rdf_values::{GraphCause, Memory};
use std::alloc::AllocFailed;

pub(crate) fn refuse_if(refused: bool, cause: GraphCause) -> Option<GraphCause>
    ensures { result ≡ refuse_if refused cause }
{
    if refused { Some(cause) } else { None }
}

pub(crate) fn refuse_unless(holds: bool, cause: GraphCause) -> Option<GraphCause>
    ensures { result ≡ refuse_unless holds cause }
{
    if holds { None } else { Some(cause) }
}

#[tactic(auto, using(crate::proofs::Walking::or_refusal))]
pub(crate) fn first_of(refusals: &[Option<GraphCause>]) -> Option<GraphCause>
    ensures { result ≡ first_refusal refusals.now }
{
    let (first, rest) = refusals.split_first()?;
    (*first).or(first_of(rest))
}

pub(crate) fn stop_if(refusal: Option<GraphCause>) -> Result<(), Stop>
    ensures { Decides refusal result }
{
    match refusal {
        Some(cause) => Err(Stop::Cause(cause)),
        None => Ok(()),
    }
}

/// The cause, or want of memory.
#[derive(Clone, Copy, Debug, PartialEq, Eq)]
pub enum Stop {
    Cause(GraphCause),
    Memory,
}

impl From<Memory> for Stop {
    ghost from_gives = { λ _ stop. stop ≡ OutOfMemory };

    fn from(_: Memory) -> Stop {
        Stop::Memory
    }
}

impl<T: Drop> From<AllocFailed<T>> for Stop {
    ghost from_gives = { λ _ stop. stop ≡ OutOfMemory };

    fn from(_: AllocFailed<T>) -> Stop {
        Stop::Memory
    }
}

/// Why a script can't be booked: the first line that is refused, with its cause, or want of memory.
#[derive(Clone, Copy, Debug, PartialEq, Eq)]
pub enum GraphRefusal {
    At { line: u32, cause: GraphCause },
    Memory,
}

impl From<Memory> for GraphRefusal {
    ghost from_gives = { λ _ e. e ≡ refusal.Memory };

    fn from(_: Memory) -> GraphRefusal {
        GraphRefusal::Memory
    }
}
