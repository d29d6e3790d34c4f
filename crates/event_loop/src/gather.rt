// What the slots of a loop give back.
ghost use Rattle.std.specs.Prelude.{◌≡◌, ◌<◌, ◌++◌, All, map, IfOk, OnOk, vec_len, Option, option_to_list};
ghost use Rattle.rdf_values.specs.{least_fault, lesser_fault};
ghost use Rattle.slot_words.specs.Seats.{IsOf};
ghost use Rattle.slot_words.specs.{BookSeen};
ghost use Rattle.event_loop.specs.{AreFacts, end_faults, HasMemory, HasStopped, IsOutcome, JobFacts, piece_of, pieces_in, seat_in, shares_in};

use crate::workers::{FinishedSlot, SlotEnd, SlotRights};
use loop_pieces::LoopPiece;
use rdf_values::{Fault, ListOf, Memory};
use slot_words::{Claims, SeatList, Share, ShareList};
use std::alloc::Global;

/// What slots made of their clusters, and their rights to note, where a result is watched; in the order of the slots.
#[derive(Drop)]
pub struct Made {
    pub pieces: ListOf<LoopPiece>,
    pub shares: ShareList,
}

// The fault at the lower entry.
fn lesser(fault: Fault, least: Option<Fault>) -> Fault
    ensures { result ≡ lesser_fault fault least }
{
    match least {
        Some(other) if other.entry < fault.entry => other,
        _ => fault,
    }
}

/// The fault at the least entry among those with which slots stopped, or want of memory where a slot met it.
#[tactic(auto, using(crate::proofs::Ended::next_slot))]
pub fn least_of(finished: &[FinishedSlot]) -> Result<Option<Fault>, Memory>
    ensures least { IfOk result (λ least. least ≡ least_fault (end_faults finished.now)) }
    ensures memory { IfOk result (λ _. All HasMemory finished.now) }
{
    let mut least = None;
    let mut i = finished.len();
    while i > 0 {
        i -= 1;
        match finished[i].end {
            SlotEnd::Over(_) => {}
            SlotEnd::Faulted(fault) => least = Some(lesser(fault, least)),
            SlotEnd::NoMemory => return Err(Memory),
        }
    }
    Ok(least)
}

// Appends the piece of a slot that is over.
fn keep_piece(pieces: &mut ListOf<LoopPiece>, end: SlotEnd) -> Result<(), Memory>
    ensures { OnOk result (pieces.new ≡ pieces.old ++ piece_of end) }
{
    if let SlotEnd::Over(piece) = end {
        pieces.push(piece)?;
    }
    Ok(())
}

// Appends a share, where there is one.
fn keep_share(shares: &mut ShareList, share: Option<Share>) -> Result<(), Memory>
    ensures { OnOk result (shares.new ≡ shares.old ++ option_to_list share) }
{
    if let Some(share) = share {
        shares.push(share)?;
    }
    Ok(())
}

/// The seats of all slots, the pieces of those that are over, and the shares, in their order.
pub fn taken_apart(alloc: Global, finished: Vec<FinishedSlot>) -> Result<(SeatList, Made), Memory>
    ensures seats { IfOk result (λ r. r.0 ≡ map seat_in finished.items) }
    ensures pieces { IfOk result (λ r. r.1.pieces ≡ pieces_in finished.items) }
    ensures shares { IfOk result (λ r. r.1.shares ≡ shares_in finished.items) }
{
    let mut left = finished;
    let mut seats = SeatList::new(alloc);
    let mut pieces = ListOf::new(alloc);
    let mut shares = ShareList::new(alloc);
    while !left.is_empty() {
        let FinishedSlot { end, slot } = left.remove(0);
        let SlotRights { seat, share } = slot;
        seats.push(seat)?;
        keep_piece(&mut pieces, end)?;
        keep_share(&mut shares, share)?;
    }
    Ok((seats, Made { pieces, shares }))
}

/// What the slots of a loop came to: all clusters are processed, or there is a first fault.
#[derive(Drop)]
pub enum LoopOutcome {
    Processed(Made),
    Faulted(Fault),
}

/// The outcome of a loop of which all slots stopped.
pub fn gathered(
    alloc: Global,
    claims: Claims,
    finished: Vec<FinishedSlot>,
) -> Result<LoopOutcome, Memory>
    requires some { 0 < vec_len finished }
    requires many { vec_len finished ≡ claims.slots }
    requires of { All (λ f. IsOf claims f.slot.seat) finished.items }
    ensures { (b : Option BookSeen) (job : JobFacts) → AreFacts claims.clusters job → All (HasStopped (record { claims = claims; book = b }) job) finished.items → IfOk result (IsOutcome b job claims.slots) }
{
    let least = least_of(finished.as_slice())?;
    let (seats, made) = taken_apart(alloc, finished)?;
    claims.finish(seats);
    match least {
        Some(fault) => Ok(LoopOutcome::Faulted(fault)),
        None => Ok(LoopOutcome::Processed(made)),
    }
}
