// What the slots tell together.
ghost use Rattle.std.specs.Prelude.{◌≡◌, ◌<◌, ◌++◌, All, flat_map, map, IfOk, OnOk, vec_len};
ghost use Rattle.rdf_values.specs.{least_fault, lesser_fault};
ghost use Rattle.slot_words.specs.Seats.{IsOf};
ghost use Rattle.snapshot_pieces.specs.{AreFacts, end_faults, HasMemory, HasStopped, IsOutcome, pieces_in, pieces_of, seat_in, SnapFacts};

use crate::finished::{End, Finished};
use crate::piece::TextPiece;
use rdf_values::{Fault, ListOf, Memory};
use slot_words::{Claims, SeatList};
use std::alloc::Global;

// The fault at the lower entry.
fn lesser(fault: Fault, least: Option<Fault>) -> Fault
    ensures { result ≡ lesser_fault fault least }
{
    match least {
        Some(other) if other.entry < fault.entry => other,
        _ => fault,
    }
}

/// The fault at the least entry among those with which slots stopped, or want of memory where a slot met it.
fn least_of(finished: &[Finished]) -> Result<Option<Fault>, Memory>
    ensures least { IfOk result (λ least. least ≡ least_fault (end_faults finished.now)) }
    ensures memory { IfOk result (λ _. All HasMemory finished.now) }
{
    let mut least = None;
    let mut i = finished.len();
    while i > 0 {
        i -= 1;
        match finished[i].end {
            End::Over(_) => {}
            End::Faulted(fault) => least = Some(lesser(fault, least)),
            End::NoMemory => return Err(Memory),
        }
    }
    Ok(least)
}

// Appends the pieces of the slot that stopped so, where it is over.
fn keep_pieces(pieces: &mut ListOf<TextPiece>, end: End) -> Result<(), Memory>
    ensures { OnOk result (pieces.new ≡ pieces.old ++ pieces_of end) }
{
    match end {
        End::Over(mut own) => pieces.append(&mut own),
        End::Faulted(_) | End::NoMemory => Ok(()),
    }
}

// The seats of all slots, and the pieces of those that are over, in their order.
fn taken_apart(
    alloc: Global,
    finished: Vec<Finished>,
) -> Result<(SeatList, ListOf<TextPiece>), Memory>
    ensures seats { IfOk result (λ r. r.0 ≡ map seat_in finished.items) }
    ensures pieces { IfOk result (λ r. r.1 ≡ flat_map pieces_in finished.items) }
{
    let mut left = finished;
    let mut seats = SeatList::new(alloc);
    let mut pieces = ListOf::new(alloc);
    while !left.is_empty() {
        let Finished { end, seat } = left.remove(0);
        seats.push(seat)?;
        keep_pieces(&mut pieces, end)?;
    }
    Ok((seats, pieces))
}

/// What the slots came to: the pieces of all clusters, in the order of the slots, or the first fault.
#[derive(Drop)]
pub enum SnapshotOutcome {
    Made(ListOf<TextPiece>),
    Faulted(Fault),
}

/// The outcome of slots that all stopped.
pub fn gathered(
    alloc: Global,
    claims: Claims,
    finished: Vec<Finished>,
) -> Result<SnapshotOutcome, Memory>
    requires some { 0 < vec_len finished }
    requires many { vec_len finished ≡ claims.slots }
    requires of { All (λ f. IsOf claims f.seat) finished.items }
    ensures { (facts : SnapFacts) → AreFacts claims.clusters facts → All (HasStopped claims facts) finished.items → IfOk result (IsOutcome facts) }
{
    let least = least_of(finished.as_slice())?;
    let (seats, pieces) = taken_apart(alloc, finished)?;
    claims.finish(seats);
    match least {
        Some(fault) => Ok(SnapshotOutcome::Faulted(fault)),
        None => Ok(SnapshotOutcome::Made(pieces)),
    }
}
