// Pieces of a watched result, and their joining.
ghost use Rattle.std.specs.Prelude.{◌≡◌};
ghost use Rattle.loop_pieces.specs.Trails.{CanAdd, added};

use actions::numbers::{greatest_of, least_of};
use merge_core::Piece;
use rdf_model::LoopFacts;
use rdf_values::Memory;

/// What a watched result comes to over some clusters: of a Count, a Sum, a Min or a Max.
#[derive(Clone, Copy, Debug, PartialEq, Eq)]
pub enum WatchPiece {
    Count(u64),
    Sum(i128),
    Least(Option<i64>),
    Greatest(Option<i64>),
}

/// The facts of a loop, and the place among its action passes of the one that is watched. Contracts alone name its values.
#[derive(Drop)]
pub struct WatchFacts {
    pub facts: LoopFacts,
    pub watched: u32,
}

// What both come to together.
fn add(mine: WatchPiece, theirs: WatchPiece) -> WatchPiece
    requires { CanAdd mine theirs }
    ensures { result ≡ added mine theirs }
{
    match (mine, theirs) {
        (WatchPiece::Count(n), WatchPiece::Count(m)) => WatchPiece::Count(n + m),
        (WatchPiece::Sum(y), WatchPiece::Sum(z)) => WatchPiece::Sum(y + z),
        (WatchPiece::Least(y), WatchPiece::Least(z)) => WatchPiece::Least(least_of(y, z)),
        (WatchPiece::Greatest(y), WatchPiece::Greatest(z)) => {
            WatchPiece::Greatest(greatest_of(y, z))
        }
        _ => unreachable!(),
    }
}

impl Piece for WatchPiece {
    ghost use Rattle.loop_pieces.specs.Trails.{WatchStandsFor};

    type Job = WatchFacts;

    ghost stands = { WatchStandsFor };

    fn join(&mut self, other: WatchPiece) -> Result<(), Memory> {
        *self = add(*self, other);
        Ok(())
    }
}
