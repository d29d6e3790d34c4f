// The header.
ghost use Rattle.std.specs.Prelude.{◌≡◌, ◌++◌, ◌∷◌, OnOk, flat_map, map};
ghost use Rattle.std.specs.List.{join_with_byte};
ghost use Rattle.snapshot_text.specs.{column_field, header_text, kind_word};

use rdf_values::{ColType, Column, Memory, Text};

fn kind_word(kind: ColType) -> &'static [u8]
    ensures { result.now ≡ kind_word kind }
{
    match kind {
        ColType::Int => b"int",
        ColType::Bool => b"bool",
        ColType::Vect => b"vec",
    }
}

fn put_column(text: &mut Text, column: &Column) -> Result<(), Memory>
    ensures { OnOk result (text.new ≡ text.old ++ column_field column.now) }
{
    text.extend(column.name.bytes())?;
    text.push(b':')?;
    text.extend(kind_word(column.kind))
}

// Columns, each behind a comma.
fn put_more_columns(text: &mut Text, columns: &[Column]) -> Result<(), Memory>
    ensures { OnOk result (text.new ≡ text.old ++ flat_map (λ c. 44 ∷ column_field c) columns.now) }
{
    for column in columns {
        text.push(b',')?;
        put_column(text, column)?;
    }
    Ok(())
}

// Columns with commas between them.
#[tactic(auto, using(crate::proofs::Joined::joined_columns))]
fn put_columns(text: &mut Text, columns: &[Column]) -> Result<(), Memory>
    ensures { OnOk result (text.new ≡ text.old ++ join_with_byte 44 (map column_field columns.now)) }
{
    match columns.split_first() {
        None => Ok(()),
        Some((first, rest)) => {
            put_column(text, first)?;
            put_more_columns(text, rest)
        }
    }
}

/// Appends the header of the columns; at want of memory a part of it may stand there.
pub fn put_header(text: &mut Text, columns: &[Column]) -> Result<(), Memory>
    ensures { OnOk result (text.new ≡ text.old ++ header_text columns.now) }
{
    put_columns(text, columns)?;
    text.push(b'\n')
}
