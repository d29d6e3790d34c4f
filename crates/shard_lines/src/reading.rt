// Reading the line of a pass.
ghost use Rattle.std.specs.Prelude.{◌≡◌, IfOk, bytes_eq, decimal};
ghost use Rattle.std.specs.List.{list_all};
ghost use Rattle.shard_lines.specs.{are_alike, AreLimits, is_number, is_truth};
ghost use Rattle.shard_lines.specs.Reading.{
  cell_of,
  counts_of_words,
  each_of,
  extreme_of_word,
  is_short,
  kind_of_word,
  line_behind,
  line_of_words,
  pairs_of,
  scalar_of,
  words_behind,
  words_in,
};

use crate::limits::LineLimits;
use crate::line_kind::LineKind;
use crate::numbers::read_sum;
use crate::shard_line::ShardLine;
use crate::words::{first_word, lone_word, next_word};
use histograms::CellSum;
use loop_pieces::Counts;
use rdf_values::{ListOf, Memory, Scalar, read_integer, read_magnitude};
use std::alloc::Global;

// ---- items

fn read_scalar(word: &[u8]) -> Option<Scalar>
    ensures { result ≡ scalar_of word.now }
{
    if word == b"true".as_slice() {
        return Some(Scalar::Bool(true));
    }
    if word == b"false".as_slice() {
        return Some(Scalar::Bool(false));
    }
    match read_integer(word) {
        Some(z) => Some(Scalar::Int(z)),
        None => None,
    }
}

// The number that the word is, or no number where it says `none`.
fn read_extreme(word: &[u8]) -> Option<Option<i64>>
    ensures { result ≡ extreme_of_word word.now }
{
    if word == b"none".as_slice() {
        return Some(None);
    }
    match read_integer(word) {
        Some(z) => Some(Some(z)),
        None => None,
    }
}

fn read_cell(limits: &LineLimits, sum: &[u8], squares: &[u8]) -> Option<CellSum>
    requires { AreLimits limits.now }
    ensures { result ≡ cell_of limits.now sum.now squares.now }
{
    let sum = read_sum(sum, limits.cell_sum)?;
    let squares = read_sum(squares, limits.cell_squares)?;
    Some(CellSum { sum, squares })
}

fn read_counts(limits: &LineLimits, all: &[u8], pass: &[u8]) -> Option<Counts>
    requires { AreLimits limits.now }
    ensures { result ≡ counts_of_words limits.now all.now pass.now }
{
    let all = read_magnitude(all, limits.count)?;
    let pass = read_magnitude(pass, limits.count)?;
    Some(Counts { all, pass })
}

// ---- lists

// The values behind a word, where each word is one.
fn read_scalars(alloc: Global, rest: &[u8]) -> Result<Option<ListOf<Scalar>>, Memory>
    ensures { IfOk result (λ values. values ≡ each_of scalar_of (words_behind rest.now)) }
{
    let mut values = ListOf::new(alloc);
    let mut left = rest;
    while let Some((word, more)) = next_word(left) {
        let Some(value) = read_scalar(word) else {
            return Ok(None);
        };
        values.push(value)?;
        left = more;
    }
    Ok(Some(values))
}

// The cells behind a word, where each two words are one.
fn read_cells(
    alloc: Global,
    limits: &LineLimits,
    rest: &[u8],
) -> Result<Option<ListOf<CellSum>>, Memory>
    requires { AreLimits limits.now }
    ensures { IfOk result (λ cells. cells ≡ pairs_of (cell_of limits.now) (words_behind rest.now)) }
{
    let mut cells = ListOf::new(alloc);
    let mut left = rest;
    while let Some((sum, more)) = next_word(left) {
        let Some((squares, behind)) = next_word(more) else {
            return Ok(None);
        };
        let Some(cell) = read_cell(limits, sum, squares) else {
            return Ok(None);
        };
        cells.push(cell)?;
        left = behind;
    }
    Ok(Some(cells))
}

// The counts behind a word, where each two words are those of a filter.
fn read_filters(
    alloc: Global,
    limits: &LineLimits,
    rest: &[u8],
) -> Result<Option<ListOf<Counts>>, Memory>
    requires { AreLimits limits.now }
    ensures { IfOk result (λ counts. counts ≡ pairs_of (counts_of_words limits.now) (words_behind rest.now)) }
{
    let mut filters = ListOf::new(alloc);
    let mut left = rest;
    while let Some((all, more)) = next_word(left) {
        let Some((pass, behind)) = next_word(more) else {
            return Ok(None);
        };
        let Some(counts) = read_counts(limits, all, pass) else {
            return Ok(None);
        };
        filters.push(counts)?;
        left = behind;
    }
    Ok(Some(filters))
}

// Whether the word is that number.
fn is_number_of(alloc: Global, word: &[u8], count: usize) -> Result<bool, Memory>
    ensures { IfOk result (λ same. same ≡ bytes_eq word.now (decimal count)) }
{
    let digits = format!(in alloc; "{count}")?;
    Ok(word == digits.as_bytes())
}

fn is_number(value: Scalar) -> bool
    ensures { result ≡ is_number value }
{
    match value {
        Scalar::Int(_) => true,
        Scalar::Bool(_) => false,
    }
}

fn is_truth(value: Scalar) -> bool
    ensures { result ≡ is_truth value }
{
    match value {
        Scalar::Int(_) => false,
        Scalar::Bool(_) => true,
    }
}

fn are_numbers(values: &[Scalar]) -> bool
    ensures { result ≡ list_all is_number values.now }
{
    values.iter().all(|value| is_number(*value))
}

fn are_truths(values: &[Scalar]) -> bool
    ensures { result ≡ list_all is_truth values.now }
{
    values.iter().all(|value| is_truth(*value))
}

// Whether all are numbers, or all are truth values.
fn are_alike(values: &[Scalar]) -> bool
    ensures { result ≡ are_alike values.now }
{
    are_numbers(values) || are_truths(values)
}

fn is_short(most: Option<u64>, count: usize) -> bool
    ensures { result ≡ is_short most count }
{
    match most {
        Some(most) => count as u64 <= most,
        None => true,
    }
}

// ---- lines

fn read_count_line(limits: &LineLimits, rest: &[u8]) -> Option<ShardLine>
    requires { AreLimits limits.now }
    ensures { result ≡ line_behind limits.now LineKind.Count (words_behind rest.now) }
{
    let count = read_magnitude(lone_word(rest)?, limits.count)?;
    Some(ShardLine::Count(count))
}

fn read_sum_line(limits: &LineLimits, rest: &[u8]) -> Option<ShardLine>
    requires { AreLimits limits.now }
    ensures { result ≡ line_behind limits.now LineKind.Sum (words_behind rest.now) }
{
    let sum = read_sum(lone_word(rest)?, limits.sum)?;
    Some(ShardLine::Sum(sum))
}

fn read_number_line(limits: &LineLimits, rest: &[u8]) -> Option<ShardLine>
    ensures { result ≡ line_behind limits.now LineKind.Number (words_behind rest.now) }
{
    let number = read_integer(lone_word(rest)?)?;
    Some(ShardLine::Number(number))
}

fn read_extreme_line(limits: &LineLimits, rest: &[u8]) -> Option<ShardLine>
    ensures { result ≡ line_behind limits.now LineKind.Extreme (words_behind rest.now) }
{
    let extreme = read_extreme(lone_word(rest)?)?;
    Some(ShardLine::Extreme(extreme))
}

fn read_take_line(
    alloc: Global,
    limits: &LineLimits,
    rest: &[u8],
) -> Result<Option<ShardLine>, Memory>
    ensures { IfOk result (λ line. line ≡ line_behind limits.now LineKind.Take (words_behind rest.now)) }
{
    let Some((count, behind)) = next_word(rest) else {
        return Ok(None);
    };
    let Some(values) = read_scalars(alloc, behind)? else {
        return Ok(None);
    };
    if !is_number_of(alloc, count, values.len())? {
        return Ok(None);
    }
    if !are_alike(values.as_slice()) || !is_short(limits.values, values.len()) {
        return Ok(None);
    }
    Ok(Some(ShardLine::Take(values)))
}

fn read_cells_line(
    alloc: Global,
    limits: &LineLimits,
    rest: &[u8],
) -> Result<Option<ShardLine>, Memory>
    requires { AreLimits limits.now }
    ensures { IfOk result (λ line. line ≡ line_behind limits.now LineKind.Cells (words_behind rest.now)) }
{
    let Some((count, behind)) = next_word(rest) else {
        return Ok(None);
    };
    let Some(cells) = read_cells(alloc, limits, behind)? else {
        return Ok(None);
    };
    if !is_number_of(alloc, count, cells.len())? {
        return Ok(None);
    }
    Ok(Some(ShardLine::Cells(cells)))
}

fn read_report_line(
    alloc: Global,
    limits: &LineLimits,
    rest: &[u8],
) -> Result<Option<ShardLine>, Memory>
    requires { AreLimits limits.now }
    ensures { IfOk result (λ line. line ≡ line_behind limits.now LineKind.Report (words_behind rest.now)) }
{
    let Some((count, behind)) = next_word(rest) else {
        return Ok(None);
    };
    let Some(filters) = read_filters(alloc, limits, behind)? else {
        return Ok(None);
    };
    if !is_number_of(alloc, count, filters.len())? {
        return Ok(None);
    }
    Ok(Some(ShardLine::Report(filters)))
}

// The kind of a line, by its first word.
fn kind_of_word(word: &[u8]) -> Option<LineKind>
    ensures { result ≡ kind_of_word word.now }
{
    if word == b"count".as_slice() {
        Some(LineKind::Count)
    } else if word == b"sum".as_slice() {
        Some(LineKind::Sum)
    } else if word == b"number".as_slice() {
        Some(LineKind::Number)
    } else if word == b"extreme".as_slice() {
        Some(LineKind::Extreme)
    } else if word == b"take".as_slice() {
        Some(LineKind::Take)
    } else if word == b"cells".as_slice() {
        Some(LineKind::Cells)
    } else if word == b"report".as_slice() {
        Some(LineKind::Report)
    } else {
        None
    }
}

// The line of that kind, by the words behind its first one.
fn read_behind(
    alloc: Global,
    limits: &LineLimits,
    kind: LineKind,
    rest: &[u8],
) -> Result<Option<ShardLine>, Memory>
    requires { AreLimits limits.now }
    ensures { IfOk result (λ line. line ≡ line_behind limits.now kind (words_behind rest.now)) }
{
    match kind {
        LineKind::Count => Ok(read_count_line(limits, rest)),
        LineKind::Sum => Ok(read_sum_line(limits, rest)),
        LineKind::Number => Ok(read_number_line(limits, rest)),
        LineKind::Extreme => Ok(read_extreme_line(limits, rest)),
        LineKind::Take => read_take_line(alloc, limits, rest),
        LineKind::Cells => read_cells_line(alloc, limits, rest),
        LineKind::Report => read_report_line(alloc, limits, rest),
    }
}

/// The line that the bytes are the text of, without its end, where it is within the limits.
pub fn read_line(
    alloc: Global,
    limits: &LineLimits,
    text: &[u8],
) -> Result<Option<ShardLine>, Memory>
    requires { AreLimits limits.now }
    ensures { IfOk result (λ line. line ≡ line_of_words limits.now (words_in text.now)) }
{
    let (word, rest) = first_word(text);
    match kind_of_word(word) {
        Some(kind) => read_behind(alloc, limits, kind, rest),
        None => Ok(None),
    }
}
