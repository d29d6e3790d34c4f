// The words of lines.
ghost use Rattle.std.specs.Prelude.{◌≡◌, ◌++◌, [], ◌∷◌, OnOk, decimal, flat_map, map};
ghost use Rattle.std.specs.Fmt.{signed_decimal};
ghost use Rattle.shard_lines.specs.Lines.{
  cell_words,
  count_words,
  extreme_word,
  joined_words,
  line_words,
  scalar_word,
};
ghost use Rattle.shard_lines.specs.{spaced};

use crate::shard_line::ShardLine;
use histograms::CellSum;
use loop_pieces::Counts;
use rdf_values::{Memory, Scalar, Text};
use std::alloc::Global;

/// A space, and a number.
pub fn put_count(alloc: Global, text: &mut Text, n: u64) -> Result<(), Memory>
    ensures { OnOk result (text.new ≡ text.old ++ spaced (decimal n ∷ [])) }
{
    let digits = format!(in alloc; " {n}")?;
    text.extend(digits.as_bytes())
}

// A space, and a number with its sign.
fn put_number(alloc: Global, text: &mut Text, z: i64) -> Result<(), Memory>
    ensures { OnOk result (text.new ≡ text.old ++ spaced (signed_decimal z ∷ [])) }
{
    let digits = format!(in alloc; " {z}")?;
    text.extend(digits.as_bytes())
}

// A space, and a sum with its sign.
fn put_sum(alloc: Global, text: &mut Text, z: i128) -> Result<(), Memory>
    ensures { OnOk result (text.new ≡ text.old ++ spaced (signed_decimal z ∷ [])) }
{
    let digits = format!(in alloc; " {z}")?;
    text.extend(digits.as_bytes())
}

// A space, and a number or a truth value.
fn put_scalar(alloc: Global, text: &mut Text, value: Scalar) -> Result<(), Memory>
    ensures { OnOk result (text.new ≡ text.old ++ spaced (scalar_word value ∷ [])) }
{
    match value {
        Scalar::Int(z) => put_number(alloc, text, z),
        Scalar::Bool(true) => text.extend(b" true"),
        Scalar::Bool(false) => text.extend(b" false"),
    }
}

// A space, and a number or `none`.
fn put_extreme(alloc: Global, text: &mut Text, z: Option<i64>) -> Result<(), Memory>
    ensures { OnOk result (text.new ≡ text.old ++ spaced (extreme_word z ∷ [])) }
{
    match z {
        Some(z) => put_number(alloc, text, z),
        None => text.extend(b" none"),
    }
}

fn put_scalars(alloc: Global, text: &mut Text, values: &[Scalar]) -> Result<(), Memory>
    ensures { OnOk result (text.new ≡ text.old ++ spaced (map scalar_word values.now)) }
{
    for value in values {
        put_scalar(alloc, text, *value)?;
    }
    Ok(())
}

fn put_cells(alloc: Global, text: &mut Text, cells: &[CellSum]) -> Result<(), Memory>
    ensures { OnOk result (text.new ≡ text.old ++ spaced (flat_map cell_words cells.now)) }
{
    for cell in cells {
        put_sum(alloc, text, cell.sum)?;
        put_sum(alloc, text, cell.squares)?;
    }
    Ok(())
}

fn put_counts(alloc: Global, text: &mut Text, counts: &[Counts]) -> Result<(), Memory>
    ensures { OnOk result (text.new ≡ text.old ++ spaced (flat_map count_words counts.now)) }
{
    for count in counts {
        put_count(alloc, text, count.all)?;
        put_count(alloc, text, count.pass)?;
    }
    Ok(())
}

/// The words of a line, without its end.
pub fn put_line(alloc: Global, text: &mut Text, line: &ShardLine) -> Result<(), Memory>
    ensures { OnOk result (text.new ≡ text.old ++ joined_words (line_words line.now)) }
{
    match line {
        ShardLine::Count(n) => {
            text.extend(b"count")?;
            put_count(alloc, text, *n)
        }
        ShardLine::Sum(z) => {
            text.extend(b"sum")?;
            put_sum(alloc, text, *z)
        }
        ShardLine::Number(z) => {
            text.extend(b"number")?;
            put_number(alloc, text, *z)
        }
        ShardLine::Extreme(z) => {
            text.extend(b"extreme")?;
            put_extreme(alloc, text, *z)
        }
        ShardLine::Take(values) => {
            text.extend(b"take")?;
            put_count(alloc, text, values.len() as u64)?;
            put_scalars(alloc, text, values.as_slice())
        }
        ShardLine::Cells(cells) => {
            text.extend(b"cells")?;
            put_count(alloc, text, cells.len() as u64)?;
            put_cells(alloc, text, cells.as_slice())
        }
        ShardLine::Report(counts) => {
            text.extend(b"report")?;
            put_count(alloc, text, counts.len() as u64)?;
            put_counts(alloc, text, counts.as_slice())
        }
    }
}
