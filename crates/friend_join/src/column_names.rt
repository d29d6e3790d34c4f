// The columns of two tables: the key, and the names.
ghost use Rattle.std.specs.Prelude.{◌≡◌};
ghost use Rattle.friend_join.specs.{first_taken, has_column, is_key, is_taken, key_place};

use rdf_values::{ColType, Column, Name};

fn is_key(key: &Name, column: &Column) -> bool
    ensures { result ≡ is_key key.now column.now }
{
    column.name.is(key) && matches!(column.kind, ColType::Int)
}

/// The place of the int column of that name.
pub(crate) fn key_place(key: &Name, columns: &[Column]) -> Option<usize>
    ensures { result ≡ key_place key.now columns.now }
{
    columns.iter().position(|c| is_key(key, c))
}

fn has_column(columns: &[Column], name: &Name) -> bool
    ensures { result ≡ has_column columns.now name.now }
{
    columns.iter().any(|c| c.name.is(name))
}

// Whether the column isn't the key, and its name is among the columns.
fn is_taken(columns: &[Column], key: &Name, column: &Column) -> bool
    ensures { result ≡ is_taken columns.now key.now column.now }
{
    !column.name.is(key) && has_column(columns, &column.name)
}

/// The first of the other columns, but the key, whose name is among the columns.
pub(crate) fn first_taken(columns: &[Column], key: &Name, others: &[Column]) -> Option<usize>
    ensures { result ≡ first_taken columns.now key.now others.now }
{
    others.iter().position(|c| is_taken(columns, key, c))
}
