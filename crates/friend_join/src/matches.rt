// The friend's entries that match.
ghost use Rattle.std.specs.Prelude.{◌≡◌, ◌≤◌, ◌<◌, ◌⊎◌, ◌++◌, ℕ, None, Some, length, map, IfOk, OnOk, MatchResult};
ghost use Rattle.rdf_values.specs.{count};
ghost use Rattle.columns.specs.{joined, whole};
ghost use Rattle.friend_join.specs.{AreInts, entry_of, first_repeat, ints_in};

use crate::cause::JoinCause;
use crate::friend_entry::FriendEntry;
use crate::refusal::JoinRefusal;
use columns::ColumnPieces;
use indexmap::IndexSet;
use rdf_values::{Cells, Memory, Numbers};
use std::alloc::Global;

// The keys in a set, in which each has its entry as its place; or the first one that stood before.
fn numbered_keys(alloc: Global, keys: &Numbers) -> Result<IndexSet<i64>, JoinRefusal>
    requires { length keys.now ≤ 1000000 }
    ensures { MatchResult result (λ set. (set.keys ≡ keys.now) × (first_repeat keys.now ≡ None))
        (λ e. (e ≡ JoinRefusal.Memory) ⊎ ((n : ℕ) × (e ≡ JoinRefusal.At (JoinCause.Duplicate n)) × (first_repeat keys.now ≡ Some n))) }
{
    let Ok(mut numbered) = IndexSet::with_capacity(alloc, keys.len()) else {
        return Err(JoinRefusal::Memory);
    };
    for entry in 0..keys.len() {
        match numbered.insert(keys.at(entry)) {
            Err(_) => return Err(JoinRefusal::Memory),
            Ok(true) => {}
            Ok(false) => {
                let entry = entry as u32;
                return Err(JoinRefusal::At(JoinCause::Duplicate { entry }));
            }
        }
    }
    Ok(numbered)
}

// Puts the entries at which these numbers stand among the keys behind those before.
fn match_numbers(
    keys: &IndexSet<i64>,
    numbers: &Numbers,
    matches: &mut Vec<FriendEntry>,
) -> Result<(), Memory>
    requires { length keys.now.keys ≤ 1000000 }
    ensures { OnOk result (matches.new.items ≡ matches.old.items ++ map (entry_of keys.now.keys) numbers.now) }
{
    for place in 0..numbers.len() {
        let number = numbers.at(place);
        matches.push(FriendEntry::new(keys.get_index_of(&number)))?;
    }
    Ok(())
}

// For each number of the pieces the entry at which it stands among the keys, if it does.
fn matches_in(
    alloc: Global,
    keys: &IndexSet<i64>,
    pieces: &[Numbers],
) -> Result<Vec<FriendEntry>, Memory>
    requires { length keys.now.keys ≤ 1000000 }
    ensures { IfOk result (λ matches. matches.items ≡ map (entry_of keys.now.keys) (joined pieces.now)) }
{
    let mut matches = Vec::new(alloc);
    for piece in pieces {
        match_numbers(keys, piece, &mut matches)?;
    }
    Ok(matches)
}

/// For each number of a column the entry at which it stands among the keys of another column, if it does; or the first
/// key that stood before.
pub(crate) fn matches_of(
    alloc: Global,
    column: &ColumnPieces,
    keys: Cells,
) -> Result<Vec<FriendEntry>, JoinRefusal>
    requires column { AreInts (whole column.now) }
    requires keys { AreInts keys }
    requires few { count keys ≤ 1000000 }
    ensures { MatchResult result (λ matches. (first_repeat (ints_in keys) ≡ None) × (matches.items ≡ map (entry_of (ints_in keys)) (ints_in (whole column.now))))
        (λ e. (e ≡ JoinRefusal.Memory) ⊎ ((n : ℕ) × (e ≡ JoinRefusal.At (JoinCause.Duplicate n)) × (first_repeat (ints_in keys) ≡ Some n))) }
{
    match (column, keys) {
        (ColumnPieces::Ints(pieces), Cells::Ints(keys)) => {
            let keys = numbered_keys(alloc, &keys)?;
            Ok(matches_in(alloc, &keys, pieces.as_slice())?)
        }
        _ => unreachable!(),
    }
}
