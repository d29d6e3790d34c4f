// Columns at the entries that match.
ghost use Rattle.std.specs.Prelude.{◌≡◌, ◌<◌, ◌++◌, ⊤, IfOk, MatchOption, length, map};
ghost use Rattle.rdf_values.specs.{count};
ghost use Rattle.columns.specs.{whole};
ghost use Rattle.friend_join.specs.{AreBelow, AreEntries, matched_cells, number_for, vector_for};

use crate::friend_entry::FriendEntry;
use columns::ColumnPieces;
use rdf_values::{Cells, Memory, Numbers, Vects};
use std::alloc::Global;

// The number at an entry that matches, and this one where none does.
fn number_for(numbers: &Numbers, entry: &FriendEntry, missing: i64) -> i64
    requires { MatchOption entry.now ⊤ (λ e. e < length numbers.now) }
    ensures { result ≡ number_for missing numbers.now entry.now }
{
    match entry.get() {
        Some(entry) => numbers.at(entry as usize),
        None => missing,
    }
}

// The numbers of an int column, and this one where no entry matches.
fn ints_at(
    alloc: Global,
    numbers: &Numbers,
    matches: &[FriendEntry],
    missing: i64,
) -> Result<Numbers, Memory>
    requires { AreBelow (length numbers.now) matches.now }
    ensures { IfOk result (λ list. list ≡ map (number_for missing numbers.now) matches.now) }
{
    let mut gathered = Numbers::new(alloc);
    for entry in matches {
        gathered.push(number_for(numbers, entry, missing))?;
    }
    Ok(gathered)
}

/// The vector at an entry that matches, and the empty one where none does.
pub(crate) fn vector_for<'a>(vectors: &'a Vects, entry: &FriendEntry) -> &'a [i64]
    requires { MatchOption entry.now ⊤ (λ e. e < length vectors.now) }
    ensures { result.now ≡ vector_for vectors.now entry.now }
{
    match entry.get() {
        Some(entry) => vectors.at(entry as usize),
        None => &[],
    }
}

// The vectors of a vec column, and the empty one where no entry matches.
fn vectors_at(alloc: Global, vectors: &Vects, matches: &[FriendEntry]) -> Result<Vects, Memory>
    requires { AreBelow (length vectors.now) matches.now }
    ensures { IfOk result (λ list. list ≡ map (vector_for vectors.now) matches.now) }
{
    let mut gathered = Vects::new(alloc);
    for entry in matches {
        gathered.push(vector_for(vectors, entry))?;
    }
    Ok(gathered)
}

fn column_at(
    alloc: Global,
    cells: &Cells,
    matches: &[FriendEntry],
    missing: i64,
) -> Result<Cells, Memory>
    requires { AreBelow (count cells.now) matches.now }
    ensures { IfOk result (λ gathered. gathered ≡ matched_cells missing matches.now cells.now) }
{
    match cells {
        Cells::Ints(numbers) => {
            let gathered = ints_at(alloc, numbers, matches, missing)?;
            Ok(Cells::Ints(gathered))
        }
        Cells::Vects(vectors) => {
            let gathered = vectors_at(alloc, vectors, matches)?;
            Ok(Cells::Vects(gathered))
        }
    }
}

/// Puts other columns, laid out anew at the entries that match, behind the columns. Each goes as soon as it is laid out.
pub(crate) fn put_behind(
    alloc: Global,
    mut columns: Vec<ColumnPieces>,
    others: Vec<Cells>,
    matches: &[FriendEntry],
    missing: i64,
) -> Result<Vec<ColumnPieces>, Memory>
    requires { AreEntries matches.now others.items }
    ensures { IfOk result (λ all. map whole all.items ≡ map whole columns.items ++ map (matched_cells missing matches.now) others.items) }
{
    for cells in others {
        let gathered = column_at(alloc, &cells, matches, missing)?;
        columns.push(ColumnPieces::of(alloc, gathered)?)?;
    }
    Ok(columns)
}
