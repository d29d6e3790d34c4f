// Joining a friend's columns.
ghost use Rattle.std.specs.Prelude.{◌≡◌, ◌++◌, Some, IfOk, map};
ghost use Rattle.std.specs.List.{remove};
ghost use Rattle.rdf_values.specs.{Answers, HoldsTable, IsHeader, kind_at, rows_kept};
ghost use Rattle.rdf_values.specs.declared.tables.value.ColType.TheVariants as k;
ghost use Rattle.columns.specs.{whole};
ghost use Rattle.friend_join.specs.{AreEntries, join_entries, join_of, keyed_in, matched_cells};

use crate::cause::JoinCause;
use crate::column_names::{first_taken, key_place};
use crate::elements::{elements, matched_elements};
use crate::friend_entry::FriendEntry;
use crate::gathered::put_behind;
use crate::matches::matches_of;
use crate::one_piece::in_one_piece;
use crate::refusal::JoinRefusal;
use columns::{PiecesParts, TablePieces};
use rdf_values::{Cells, Column, ListOf, Memory, Name};
use std::alloc::Global;

const MOST_COLUMNS: usize = 64;

const MOST_ELEMENTS: u64 = 33554432;

// The table with other columns behind its own, laid out anew at the entries that match.
fn put_together(
    alloc: Global,
    main: PiecesParts,
    columns: Vec<Column>,
    others: Vec<Cells>,
    matches: &[FriendEntry],
    missing: i64,
) -> Result<TablePieces, Memory>
    requires entries { AreEntries matches.now others.items }
    requires holds { HoldsTable (main.columns ++ columns.items) (map whole main.pieces.items ++ map (matched_cells missing matches.now) others.items) main.entries }
    ensures { IfOk result (λ t. t ≡ record { columns = main.columns ++ columns.items; rows = rows_kept main.entries (map whole main.pieces.items ++ map (matched_cells missing matches.now) others.items) }) }
{
    let mut all = main.columns;
    all.append(&mut ListOf::from_vec(columns))?;
    Ok(TablePieces::from_parts(PiecesParts {
        columns: all,
        pieces: put_behind(alloc, main.pieces, others, matches, missing)?,
        entries: main.entries,
    }))
}

// Joins a friend by the keys at these places, where the columns of both make a header.
fn join_entries(
    alloc: Global,
    main: PiecesParts,
    own: usize,
    friend: PiecesParts,
    other: usize,
    missing: i64,
) -> Result<TablePieces, JoinRefusal>
    requires main { HoldsTable main.columns (map whole main.pieces.items) main.entries }
    requires friend { HoldsTable friend.columns (map whole friend.pieces.items) friend.entries }
    requires own { kind_at main.columns own ≡ Some k.Int }
    requires other { kind_at friend.columns other ≡ Some k.Int }
    requires header { IsHeader (main.columns ++ remove friend.columns other) }
    ensures { Answers JoinRefusal.At JoinRefusal.Memory (join_entries (keyed_in main own) (keyed_in friend other) missing) result }
{
    let mut others = in_one_piece(alloc, friend.pieces)?;
    let matches = matches_of(alloc, &main.pieces[own], others.remove(other))?;
    let elements = elements(main.pieces.as_slice())
        + matched_elements(others.as_slice(), matches.as_slice());
    if elements > MOST_ELEMENTS {
        return Err(JoinRefusal::At(JoinCause::TooLarge { elements }));
    }
    let mut columns = friend.columns.into_vec();
    columns.remove(other);
    let table = put_together(alloc, main, columns, others, matches.as_slice(), missing)?;
    Ok(table)
}

/// Joins a friend's columns other than the key to a table, entry by entry, where the key is equal. An entry without a
/// friend has the number `missing` in each int column and the empty vector in each vec column. No column of the table is
/// copied, and each of the friend's goes as soon as it is laid out anew.
pub fn join(
    alloc: Global,
    table: TablePieces,
    friend: TablePieces,
    key: &Name,
    missing: i64,
) -> Result<TablePieces, JoinRefusal>
    ensures { Answers JoinRefusal.At JoinRefusal.Memory (join_of table friend key.now missing) result }
{
    let main = table.into_parts();
    let friend = friend.into_parts();
    let columns = main.columns.as_slice();
    let others = friend.columns.as_slice();
    let own = match key_place(key, columns) {
        Some(own) => own,
        None => return Err(JoinRefusal::At(JoinCause::NoKey { friend: false })),
    };
    let other = match key_place(key, others) {
        Some(other) => other,
        None => return Err(JoinRefusal::At(JoinCause::NoKey { friend: true })),
    };
    match first_taken(columns, key, others) {
        Some(column) => {
            let column = column as u32;
            return Err(JoinRefusal::At(JoinCause::NameTaken { column }));
        }
        None => {}
    }
    let count = columns.len() + others.len() - 1;
    if count > MOST_COLUMNS {
        let count = count as u32;
        return Err(JoinRefusal::At(JoinCause::TooManyColumns { count }));
    }
    join_entries(alloc, main, own, friend, other, missing)
}
