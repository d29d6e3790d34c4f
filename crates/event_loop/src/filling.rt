// What a loop without a fault is filled with.
ghost use Rattle.std.specs.Prelude.{◌<◌, ◌≤◌, IfOk};
ghost use Rattle.event_loop.specs.EventLoops.{JobFacts, IsFilled};
ghost use Rattle.event_loop.specs.Gathered.{CanFill, HaveNoted};

use crate::gather::Made;
use crate::one_loop::FilledLoop;
use loop_pieces::{LoopPiece, PartialLine};
use merge_core::merge_all;
use rdf_values::{ListOf, Memory};
use slot_words::{Book, ShareList, partial_lines};
use std::alloc::Global;

/// So many results are watched, over so many clusters, and noted after every `watch`-th one.
#[derive(Clone, Copy)]
pub struct Noting {
    pub watched: u32,
    pub clusters: u32,
    pub watch: u32,
    pub ghost few: { clusters ≤ 1000000 },
    pub ghost some: { 0 < watch },
}

// The partial results of the watched results, whose trails stand in the pieces.
fn lines_in(
    alloc: Global,
    book: Option<Book>,
    shares: ShareList,
    pieces: &ListOf<LoopPiece>,
    noting: Noting,
) -> Result<ListOf<ListOf<PartialLine>>, Memory>
    requires { (job : JobFacts) × CanFill book noting.watched noting.clusters job (record { pieces = pieces.now; shares = shares }) }
    ensures { (job : JobFacts) (can : CanFill book noting.watched noting.clusters job (record { pieces = pieces.now; shares = shares }))
        → IfOk result (HaveNoted job noting.watch can.finished.dones) }
{
    let Some(book) = book else {
        return Ok(ListOf::new(alloc));
    };
    let orders = book.close(alloc, shares)?;
    let Noting {
        watched,
        clusters,
        watch,
    } = noting;
    partial_lines(alloc, &orders, pieces.as_slice(), watched, clusters, watch)
}

/// The piece of all clusters, and the partial results of the watched results, where there are any.
#[tactic(auto, using(crate::proofs::Ended::as_many_pieces))]
pub fn filled(
    alloc: Global,
    book: Option<Book>,
    made: Made,
    noting: Noting,
) -> Result<FilledLoop, Memory>
    requires { (job : JobFacts) × CanFill book noting.watched noting.clusters job made }
    ensures { (job : JobFacts) → CanFill book noting.watched noting.clusters job made → IfOk result (IsFilled job noting.watch) }
{
    let Made { pieces, shares } = made;
    let partials = lines_in(alloc, book, shares, &pieces, noting)?;
    let piece = merge_all(pieces)?;
    Ok(FilledLoop { piece, partials })
}
