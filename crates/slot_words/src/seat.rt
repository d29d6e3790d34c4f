// The rights of a slot to draw and to note, and what the holders of a word know of their steps.
ghost use Rattle.std.specs.Prelude.{◌≡◌};

use atomic_table::Seat;
use rdf_values::ListOf;
use std::collections::LinkedList;
use std::marker::Model;

/// It draws clusters. Contracts see its table, its number, and what it did.
#[derive(Drop)]
pub struct ClaimSeat {
    pub(crate) slot: u32,
    pub(crate) seat: Seat<u8, ClaimHands>,
}

/// Seats in order.
pub type SeatList = ListOf<ClaimSeat>;

impl Model for ClaimSeat {
    ghost use Rattle.std.specs.Prelude.{◌≡◌, [], ◌∷◌};
    ghost use Rattle.std.specs.List.Sorted.{IsStrictlyIncreasing};
    ghost use Rattle.slot_words.specs.Seats.{SeatSeen, seat_seen, hand_of};

    ghost Value = { SeatSeen };

    ghost view = { λ s. seat_seen s.seat.table_id s.slot (hand_of s.seat.me.0) };

    ghost invariant = { λ s. (s.seat.me ≡ (hand_of s.seat.me.0 ∷ [], [])) × IsStrictlyIncreasing (hand_of s.seat.me.0).drawn };
}

impl ClaimSeat {
    /// The number of its slot.
    pub fn slot(&self) -> u32
        ensures { result ≡ self.now.slot }
    {
        self.slot
    }
}

/// It notes clusters. Contracts see its table, its number, and the numbers that it drew.
#[derive(Drop)]
pub struct Share {
    pub(crate) slot: u32,
    pub(crate) clusters: u32,
    pub(crate) numbers: Vec<u64>,
    pub(crate) seat: Seat<u8, NoteHands>,
}

/// Shares in order.
pub type ShareList = ListOf<Share>;

impl Model for Share {
    ghost use Rattle.std.specs.Prelude.{◌≡◌, ◌≤◌, [], ◌∷◌, vec_capacity};
    ghost use Rattle.std.specs.List.Sorted.{IsStrictlyIncreasing};
    ghost use Rattle.slot_words.specs.Shares.{ShareSeen, hand_with};

    ghost Value = { ShareSeen };

    ghost view = { λ s. record { table = s.seat.table_id; slot = s.slot; clusters = s.clusters; numbers = s.numbers.items } };

    ghost invariant = { λ s. (s.seat.me ≡ (hand_with s.numbers.items ∷ [], [])) × (s.clusters ≤ vec_capacity s.numbers) × IsStrictlyIncreasing s.numbers.items };
}

/// What one seat did: the clusters that it drew, in order, the number past them that it drew last, the bar that it looked at
/// since its last draw, the cluster that it passed over, and the one that it lowered the bar to, where it did so. No value of it is made.
pub struct ClaimHand {
    pub clusters: u32,
    pub drawn: LinkedList<u64>,
    pub kept: Option<u64>,
    pub looked: Option<u64>,
    pub passed: Option<u64>,
    pub lowered: Option<u64>,
}

/// The numbers that a share drew, in order. No value of it is made.
pub struct NoteHand {
    pub drawn: LinkedList<u64>,
}

/// What one seat at the table of claims knows: a hand, and after a join several.
pub type ClaimHands = LinkedList<ClaimHand>;

/// What one share at the book's table knows.
pub type NoteHands = LinkedList<NoteHand>;
