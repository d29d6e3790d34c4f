// The word that all slots note on.
ghost use Rattle.std.specs.Prelude.{◌≡◌, ℕ, ◌<◌, ◌≤◌, [], ◌∷◌, map, reverse, length, IfOk, OnOk};
ghost use Rattle.std.specs.List.{All};
ghost use Rattle.std.specs.List.Sorted.{IsStrictlyIncreasing};
ghost use Rattle.rdf_values.specs.{DrawnBy};
ghost use Rattle.slot_words.specs.Shares.{IsOf, fresh_shares, hand_with, with_number, many_in};

use crate::rule::{Deal, Enter, Gather, Note, NoteRule};
use crate::seat::{NoteHands, Share, ShareList};
use atomic_table::{Seat, Table};
use rdf_values::{ListOf, Memory};
use std::alloc::Global;
use std::marker::Model;

/// In it slots note the clusters that they finish, in one order. Contracts see which table it is, and how many clusters and shares it has.
#[derive(Drop)]
pub struct Book {
    table: Table<u8, NoteHands, (u32, u32), NoteRule, Global>,
    clusters: u32,
    slots: u32,
}

impl Model for Book {
    ghost use Rattle.std.specs.Prelude.{◌≡◌};
    ghost use Rattle.slot_words.specs.Shares.{BookSeen};

    ghost Value = { BookSeen };

    ghost view = { λ b. record { table = b.table.shared.table_id; clusters = b.clusters; slots = b.slots } };

    ghost invariant = { λ b. (b.table.shared.key ≡ (b.clusters, b.slots)) × (b.table.shared.table_id.words ≡ 1) × (b.table.shared.table_id.slots ≡ 0) };
}

/// The numbers that each slot's share drew, in the order of the slots.
#[derive(Drop)]
pub struct Orders {
    pub slots: ListOf<ListOf<u64>>,
}

// A share with room for all numbers.
fn fresh(
    alloc: Global,
    slot: u32,
    clusters: u32,
    seat: Seat<u8, NoteHands>,
) -> Result<Share, Memory>
    requires { seat.me ≡ (hand_with [] ∷ [], []) }
    ensures { IfOk result (λ share. share ≡ record { table = seat.table_id; slot = slot; clusters = clusters; numbers = [] }) }
{
    let numbers = Vec::with_capacity(alloc, clusters as usize)?;
    Ok(Share {
        slot,
        clusters,
        numbers,
        seat,
    })
}

impl Book {
    /// Nothing is noted. The share at place i has the number i. It takes the memory for all numbers at once.
    #[tactic(auto, using(crate::proofs::Hands::one_dealt))]
    pub fn new(alloc: Global, slots: u32, clusters: u32) -> Result<(Book, ShareList), Memory>
        requires slots { slots ≤ 16 }
        requires clusters { clusters ≤ 1000000 }
        ensures { IfOk result (λ r. (r.0.clusters ≡ clusters) × (r.0.slots ≡ slots) × (r.1 ≡ fresh_shares r.0 slots)) }
    {
        let (table, mut first) = Table::of_words(alloc, &[0], &(clusters, slots))?;
        let mut shares = ListOf::new(alloc);
        for slot in 0..slots {
            let seat = table.shared.split_seat::<Deal>(&mut first);
            shares.push(fresh(alloc, slot, clusters, seat)?)?;
        }
        let book = Book {
            table,
            clusters,
            slots,
        };
        Ok((book, shares))
    }

    /// Notes one cluster: draws the next number and appends it to the share's.
    pub fn note(&self, share: &mut Share)
        requires of { IsOf self.now share.old }
        requires room { length share.old.numbers < self.now.clusters }
        ensures { (n : ℕ) × (share.new ≡ with_number share.old n) × IsStrictlyIncreasing share.new.numbers }
    {
        let number = self.table.shared.fetch_add::<Note>(&mut share.seat, 0, 1);
        match share.numbers.push(number) {
            Ok(()) => {}
            Err(_) => unreachable!(),
        }
    }

    /// The numbers of the shares, which are all that `new` gave, in the order in which they are handed in.
    #[tactic(auto, using(crate::proofs::Hands::enters, crate::proofs::Notes::again, crate::proofs::Hands::none_gathered))]
    pub fn close(self, alloc: Global, shares: ShareList) -> Result<Orders, Memory>
        requires all { length shares ≡ self.slots }
        requires of { All (IsOf self) shares }
        ensures orders { IfOk result (λ orders. orders.slots ≡ map (λ s. s.numbers) shares) }
        ensures drawn { OnOk result (DrawnBy (map (λ s. s.numbers) shares) (many_in (map (λ s. s.numbers) shares))) }
    {
        let Book { table, .. } = self;
        let (_, mut all) = table.shared.load_new_seat::<Enter>(0);
        let mut lists = Vec::new(alloc);
        let mut left = shares.into_vec();
        while let Some(next) = left.pop() {
            let Share { numbers, seat, .. } = next;
            lists.push(ListOf::from_vec(numbers))?;
            table.shared.join_seat::<Gather>(&mut all, seat);
        }
        let closed = table.close_with(all);
        closed.free();
        lists.reverse();
        Ok(Orders {
            slots: ListOf::from_vec(lists),
        })
    }
}
