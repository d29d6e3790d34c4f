// How a slot stopped.
use crate::piece::TextPiece;
use rdf_values::{Fault, ListOf};
use slot_words::ClaimSeat;

/// Why a slot stopped: no cluster is left for it, and it made these pieces; it met its first fault; or it had no memory.
#[derive(Drop)]
pub enum End {
    Over(ListOf<TextPiece>),
    Faulted(Fault),
    NoMemory,
}

/// A slot that stopped, with its right to draw.
#[derive(Drop)]
pub struct Finished {
    pub end: End,
    pub seat: ClaimSeat,
}
