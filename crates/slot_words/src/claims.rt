// The claim word and the bar, which all slots share.
ghost use Rattle.std.specs.Prelude.{◌≡◌, ◌<◌, ◌≤◌, ◌++◌, ◌∷◌, [], ◌⊎◌, map, length, min, None, IfOk, IfSome, IfNone};
ghost use Rattle.std.specs.Option.{IsSomeAnd};
ghost use Rattle.std.specs.List.{All};
ghost use Rattle.std.specs.List.Sorted.{IsStrictlyIncreasing};
ghost use Rattle.rdf_values.specs.{DrawnBy};
ghost use Rattle.slot_words.specs.Seats.{IsOf, fresh_seats, last_of, with_lowered, IsPast, IsPassedOver, IsCounted, IsLeast, IsPassed};

use crate::rule::{ClaimRule, Deal, Draw, Enter, Gather, Look, Lower};
use crate::seat::{ClaimHands, ClaimSeat, SeatList};
use atomic_table::Table;
use rdf_values::{ListOf, Memory};
use std::alloc::Global;
use std::marker::Model;

/// From it slots draw the clusters, each once. Contracts see which table it is, and how many clusters and seats it has.
#[derive(Drop)]
pub struct Claims {
    table: Table<u8, ClaimHands, (u32, u32), ClaimRule, Global>,
    clusters: u32,
    slots: u32,
}

impl Model for Claims {
    ghost use Rattle.std.specs.Prelude.{◌≡◌};
    ghost use Rattle.slot_words.specs.Seats.{ClaimsSeen};

    ghost Value = { ClaimsSeen };

    ghost view = { λ c. record { table = c.table.shared.table_id; clusters = c.clusters; slots = c.slots } };

    ghost invariant = { λ c. (c.table.shared.key ≡ (c.clusters, c.slots)) × (c.table.shared.table_id.words ≡ 2) × (c.table.shared.table_id.slots ≡ 0) };
}

/// The last values of the claim word and of the bar.
#[derive(Clone, Copy, Debug, PartialEq, Eq)]
pub struct Drawn {
    /// How many numbers were drawn, those past the clusters included.
    pub word: u64,
    pub bar: u32,
}

impl Claims {
    /// No cluster is drawn, and the bar is at the number of clusters. The seat at place i has the number i.
    pub fn new(alloc: Global, clusters: u32, slots: u32) -> Result<(Claims, SeatList), Memory>
        ensures { IfOk result (λ r. (r.0.clusters ≡ clusters) × (r.0.slots ≡ slots) × (r.1 ≡ fresh_seats r.0 slots)) }
    {
        let (table, mut first) = Table::of_words(alloc, &[0, clusters as u64], &(clusters, slots))?;
        let mut seats = ListOf::new(alloc);
        for slot in 0..slots {
            let seat = table.shared.split_seat::<Deal>(&mut first);
            seats.push(ClaimSeat { slot, seat })?;
        }
        let claims = Claims {
            table,
            clusters,
            slots,
        };
        Ok((claims, seats))
    }

    /// Draws the next number, and looks at the bar where it is a cluster.
    /// `None` where it is no cluster, or isn't below the bar that was read; the seat then has drawn for the last time.
    pub fn claim(&self, seat: &mut ClaimSeat) -> Option<u32>
        requires of { IsOf self.now seat.old }
        requires open { (seat.old.kept ≡ None) × (seat.old.passed ≡ None) × (seat.old.lowered ≡ None) }
        ensures of { IsOf self.now seat.new × (seat.new.slot ≡ seat.old.slot) × (seat.new.lowered ≡ None) }
        ensures some { IfSome result (λ c. (c < self.now.clusters) × (seat.new.drawn ≡ seat.old.drawn ++ c ∷ []) × (seat.new.kept ≡ None) × (seat.new.passed ≡ None) × IsSomeAnd seat.new.looked (λ b. c < b)) }
        ensures none { IfNone result (IsPast self.now seat.old seat.new ⊎ IsPassedOver self.now seat.old seat.new) }
        ensures rises { IsStrictlyIncreasing seat.new.drawn }
        ensures fewer { IfSome result (λ _. length seat.old.drawn < self.now.clusters) }
    {
        let number = self.table.shared.fetch_add::<Draw>(&mut seat.seat, 0, 1);
        if number >= self.clusters as u64 {
            return None;
        }
        let bar = self.table.shared.load::<Look>(&mut seat.seat, 1);
        if number < bar {
            Some(number as u32)
        } else {
            None
        }
    }

    /// Lowers the bar to the cluster that was answered to the seat last, where that is less.
    pub fn lower(&self, seat: &mut ClaimSeat, cluster: u32)
        requires of { IsOf self.now seat.old }
        requires last { (0 < length seat.old.drawn) × (last_of seat.old.drawn ≡ cluster) × (seat.old.kept ≡ None) × (seat.old.passed ≡ None) }
        requires once { seat.old.lowered ≡ None }
        ensures { seat.new ≡ with_lowered seat.old cluster }
    {
        self.table
            .shared
            .fetch_min::<Lower>(&mut seat.seat, 1, cluster as u64);
    }

    /// The last values of the two words. The seats are all that `new` gave, in any order.
    pub fn finish(self, seats: SeatList) -> Drawn
        requires all { length seats ≡ self.slots }
        requires of { All (IsOf self) seats }
        ensures drawn { DrawnBy (map (λ s. s.drawn) seats) (min result.word self.clusters) }
        ensures word { IsCounted self.clusters seats result.word }
        ensures bar { IsLeast self.clusters seats result.bar }
        ensures passed { All (IsPassed result.bar) seats }
        ensures kept { All (λ s. IfSome s.kept (λ k. (self.clusters ≤ k) × (k < result.word))) seats }
    {
        let Claims { table, .. } = self;
        let (_, mut all) = table.shared.load_new_seat::<Enter>(0);
        let mut left = seats.into_vec();
        while let Some(next) = left.pop() {
            let ClaimSeat { seat, .. } = next;
            table.shared.join_seat::<Gather>(&mut all, seat);
        }
        let closed = table.close_with(all);
        let word = closed.word(0);
        let bar = closed.word(1) as u32;
        closed.free();
        Drawn { word, bar }
    }
}
