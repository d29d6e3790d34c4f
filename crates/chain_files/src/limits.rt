// The limits of a part file's lines.
ghost use Rattle.std.specs.Prelude.{◌≡◌, ◌*◌};
ghost use Rattle.std.specs.List.{list_all};
ghost use Rattle.chain_files.specs.{is_cell_within, is_count_within, is_digest, is_hex, is_small, is_within, widest};
ghost use Rattle.shard_lines.specs.{AreLimits};

use histograms::CellSum;
use loop_pieces::Counts;
use shard_lines::{LineLimits, ShardLine};

/// How many entries the longest chain has.
pub(crate) const MOST_ENTRIES: u64 = 16_777_216_000_000;

// What an entry adds to a sum at most: 2 to the 75th power.
const ENTRY_SUM: u128 = 37_778_931_862_957_161_709_568;

// What it adds to a cell's sum: 2 to the 43rd power.
const ENTRY_CELL: u128 = 8_796_093_022_208;

// And to its squares: 2 to the 74th power.
const ENTRY_SQUARES: u128 = 18_889_465_931_478_580_854_784;

/// The limits of the lines of any part.
pub(crate) fn widest() -> LineLimits
    ensures value { result ≡ widest }
    ensures limits { AreLimits result }
{
    LineLimits {
        count: MOST_ENTRIES,
        values: Some(MOST_ENTRIES),
        sum: MOST_ENTRIES as u128 * ENTRY_SUM,
        cell_sum: MOST_ENTRIES as u128 * ENTRY_CELL,
        cell_squares: MOST_ENTRIES as u128 * ENTRY_SQUARES,
    }
}

// Whether so many entries can come to that, each adding so much at most.
fn is_small(entries: u64, each: u128, z: i128) -> bool
    ensures { result ≡ is_small (entries * each) z }
{
    match (entries as u128).checked_mul(each) {
        Some(most) => z.unsigned_abs() <= most,
        None => true,
    }
}

fn is_cell_within(entries: u64, cell: CellSum) -> bool
    ensures { result ≡ is_cell_within entries cell }
{
    is_small(entries, ENTRY_CELL, cell.sum) && is_small(entries, ENTRY_SQUARES, cell.squares)
}

fn are_cells_within(entries: u64, cells: &[CellSum]) -> bool
    ensures { result ≡ list_all (is_cell_within entries) cells.now }
{
    cells.iter().all(|cell| is_cell_within(entries, *cell))
}

fn is_count_within(entries: u64, counts: Counts) -> bool
    ensures { result ≡ is_count_within entries counts }
{
    counts.all <= entries && counts.pass <= entries
}

fn are_counts_within(entries: u64, counts: &[Counts]) -> bool
    ensures { result ≡ list_all (is_count_within entries) counts.now }
{
    counts.iter().all(|one| is_count_within(entries, *one))
}

/// Whether so many entries can come to the line.
pub(crate) fn is_within(entries: u64, line: &ShardLine) -> bool
    ensures { result ≡ is_within entries line.now }
{
    match line {
        ShardLine::Count(count) => *count <= entries,
        ShardLine::Sum(sum) => is_small(entries, ENTRY_SUM, *sum),
        ShardLine::Number(_) => true,
        ShardLine::Extreme(_) => true,
        ShardLine::Take(values) => values.len() as u64 <= entries,
        ShardLine::Cells(cells) => are_cells_within(entries, cells.as_slice()),
        ShardLine::Report(counts) => are_counts_within(entries, counts.as_slice()),
    }
}

fn is_hex(byte: u8) -> bool
    ensures { result ≡ is_hex byte }
{
    (48 <= byte && byte <= 57) || (97 <= byte && byte <= 102)
}

fn are_hex(word: &[u8]) -> bool
    ensures { result ≡ list_all is_hex word.now }
{
    word.iter().all(|byte| is_hex(*byte))
}

/// Whether the word is 16 digits from 0 to f.
pub(crate) fn is_digest(word: &[u8]) -> bool
    ensures { result ≡ is_digest word.now }
{
    word.len() == 16 && are_hex(word)
}
