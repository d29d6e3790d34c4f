// How many elements the vectors of columns have.
ghost use Rattle.std.specs.Prelude.{◌≡◌, ◌≤◌, ◌*◌, All, List, ℤ, length, map};
ghost use Rattle.std.specs.List.{sum_by};
ghost use Rattle.rdf_values.specs.{count};
ghost use Rattle.columns.specs.{joined, whole};
ghost use Rattle.friend_join.specs.{AreBelow, AreEntries, AreSmall, column_elements, IsSmall, length_for, matched_elements};

use crate::friend_entry::FriendEntry;
use crate::gathered::vector_for;
use columns::ColumnPieces;
use rdf_values::{Cells, Vects};

// Those of one piece.
fn piece_elements(vectors: &Vects) -> u64
    requires few { length vectors.now ≤ 1000000 }
    requires small { All (λ (v : List ℤ). length v ≤ 4096) vectors.now }
    ensures value { result ≡ sum_by length vectors.now }
    ensures few { result ≤ 4096 * length vectors.now }
{
    let mut elements = 0;
    for i in 0..vectors.len() {
        elements += vectors.at(i).len() as u64;
    }
    elements
}

// Those of all pieces of a column.
fn vector_elements(pieces: &[Vects]) -> u64
    requires few { length (joined pieces.now) ≤ 1000000 }
    requires small { All (λ (v : List ℤ). length v ≤ 4096) (joined pieces.now) }
    ensures value { result ≡ sum_by length (joined pieces.now) }
    ensures few { result ≤ 4096 * length (joined pieces.now) }
{
    let mut elements = 0;
    for vectors in pieces {
        elements += piece_elements(vectors);
    }
    elements
}

fn column_elements(column: &ColumnPieces) -> u64
    requires { IsSmall (whole column.now) }
    ensures value { result ≡ column_elements (whole column.now) }
    ensures few { result ≤ 4096000000 }
{
    match column {
        ColumnPieces::Ints(_) => 0,
        ColumnPieces::Vects(pieces) => vector_elements(pieces.as_slice()),
    }
}

/// Those of all columns.
pub(crate) fn elements(columns: &[ColumnPieces]) -> u64
    requires few { length columns.now ≤ 64 }
    requires small { AreSmall (map whole columns.now) }
    ensures value { result ≡ sum_by column_elements (map whole columns.now) }
    ensures few { result ≤ 4096000000 * length columns.now }
{
    let mut elements = 0;
    for column in columns {
        elements += column_elements(column);
    }
    elements
}

// Those of a column's vectors at the entries that match.
fn matched_vectors(vectors: &Vects, matches: &[FriendEntry]) -> u64
    requires below { AreBelow (length vectors.now) matches.now }
    requires few { length matches.now ≤ 1000000 }
    requires small { All (λ (v : List ℤ). length v ≤ 4096) vectors.now }
    ensures value { result ≡ sum_by (length_for vectors.now) matches.now }
    ensures few { result ≤ 4096 * length matches.now }
{
    let mut elements = 0;
    for entry in matches {
        elements += vector_for(vectors, entry).len() as u64;
    }
    elements
}

fn matched_column(cells: &Cells, matches: &[FriendEntry]) -> u64
    requires below { AreBelow (count cells.now) matches.now }
    requires few { length matches.now ≤ 1000000 }
    requires small { IsSmall cells.now }
    ensures value { result ≡ matched_elements matches.now cells.now }
    ensures few { result ≤ 4096000000 }
{
    match cells {
        Cells::Ints(_) => 0,
        Cells::Vects(vectors) => matched_vectors(vectors, matches),
    }
}

/// Those of all columns at the entries that match.
pub(crate) fn matched_elements(columns: &[Cells], matches: &[FriendEntry]) -> u64
    requires entries { AreEntries matches.now columns.now }
    requires columns { length columns.now ≤ 64 }
    requires few { length matches.now ≤ 1000000 }
    requires small { AreSmall columns.now }
    ensures value { result ≡ sum_by (matched_elements matches.now) columns.now }
    ensures few { result ≤ 4096000000 * length columns.now }
{
    let mut elements = 0;
    for cells in columns {
        elements += matched_column(cells, matches);
    }
    elements
}
