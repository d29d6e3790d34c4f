// The rules of the words, and the steps on them.
use crate::seat::{ClaimHands, NoteHands};
use atomic_table::{Join, Play, Split, TableRule};
use std::collections::LinkedList;

/// The rule of the claim word and the bar, over the numbers of clusters and of seats.
pub struct ClaimRule;

impl TableRule<u8, ClaimHands, (u32, u32)> for ClaimRule {
    ghost use Rattle.slot_words.specs.Claiming.{Claimed, opening_hands};

    ghost holds = { Claimed };

    ghost first = { opening_hands };
}

/// A draw of the next number.
pub struct Draw;

impl Play<u8, ClaimHands> for Draw {
    ghost use Rattle.slot_words.specs.Claiming.{Drew};

    ghost then = { Drew };
}

/// A look at the bar.
pub struct Look;

impl Play<u8, ClaimHands> for Look {
    ghost use Rattle.slot_words.specs.Claiming.{Looked};

    ghost then = { Looked };
}

/// The bar goes down.
pub struct Lower;

impl Play<u8, ClaimHands> for Lower {
    ghost use Rattle.slot_words.specs.Claiming.{Lowered};

    ghost then = { Lowered };
}

/// The rule of the book's word, over the numbers of clusters and of shares.
pub struct NoteRule;

impl TableRule<u8, NoteHands, (u32, u32)> for NoteRule {
    ghost use Rattle.slot_words.specs.Noting.{Noted, opening_hands};

    ghost holds = { Noted };

    ghost first = { opening_hands };
}

/// A draw of the next number in the book.
pub struct Note;

impl Play<u8, NoteHands> for Note {
    ghost use Rattle.slot_words.specs.Noting.{Drew};

    ghost then = { Drew };
}

/// The first hand goes to a new holder.
pub struct Deal;

impl<H> Split<LinkedList<H>> for Deal {
    ghost use Rattle.slot_words.specs.Seats.{others, first_alone};

    ghost left = { others };

    ghost right = { first_alone };
}

/// A new holder comes, which has no hand.
pub struct Enter;

impl<H> Play<u8, LinkedList<H>> for Enter {
    ghost use Rattle.std.specs.Prelude.{◌≡◌, []};

    ghost then = { λ s v n w. w ≡ ([], []) };
}

/// One holder has the hands of both.
pub struct Gather;

impl<H> Join<LinkedList<H>> for Gather {
    ghost use Rattle.std.specs.Prelude.{[], ◌++◌};

    ghost both = { λ v w. w ++ v };

    ghost spent = { [] };
}
