// Tables that several threads read and pack.
ghost use Rattle.std.specs.Prelude.{◌≡◌, ◌≤◌, ◌<◌, ◌++◌, All, IfOk, IfSome, MatchResult, Ok, length};
ghost use Rattle.std.specs.Thread.{IsSync};
ghost use Rattle.rdf_values.specs.Answered.{Refuses};
ghost use Rattle.rdf_values.specs.{table_of};
ghost use Rattle.columns.specs.{joined};
ghost use Rattle.table_csv.specs.{columns_over, csv_records, EndsLine, IsCut, IsHead, IsPiece, marked_in};

use crate::entries::read_table;
use crate::pieces::{MarkedPieces, append_pieces, is_head, read_piece};
use crate::refusal::TableRefusal;
use crate::texts::{Parts, Text, Texts, cut_lines, halved, has_quote, together, whole_lines};
use columns::{Columns, halves};
use rdf_values::Bytes;
use std::alloc::Global;
use std::thread::{Threads, join};

// A piece of fewer bytes is read sooner than a thread is made for it.
const LEAST_PIECE: usize = 16_384;

// The table of a header line and of the lines behind it, read by one.
fn read_texts(alloc: Global, head: &[u8], texts: Texts<'_>) -> Option<MarkedPieces>
    requires { IsHead head.now }
    ensures { IfSome result (λ m. IsPiece head.now (joined texts.entry.lines.now ++ texts.entry.last.now) m) }
{
    if texts.lines.is_empty() {
        return read_piece(alloc, head, texts.last);
    }
    let whole = together(alloc, texts).ok()?;
    read_piece(alloc, head, whole.as_slice())
}

// The table of a header line and of lines behind it, where these can be read without the others: the first lines by
// half of the slots, and side by side with them the others by the other half.
fn read_pieces<R: Threads + Sync>(
    rt: &R,
    alloc: Global,
    head: &[u8],
    lines: &[Text],
    last: &[u8],
    slots: u32,
) -> Option<MarkedPieces>
    requires head { IsHead head.now }
    requires lines { All EndsLine lines.now }
    ensures { IfSome result (λ m. IsPiece head.now (joined lines.now ++ last.now) m) }
{
    let texts = Texts { lines, last };
    if slots < 2 {
        return read_texts(alloc, head, texts);
    }
    let (half, others) = halves(slots);
    let (front, back) = halved(texts, half, slots);
    let Texts {
        lines: front,
        last: middle,
    } = front;
    let Texts { lines: back, last } = back;
    let (first, second) = join(
        rt,
        || -> Option<MarkedPieces>
            requires { IsSync R.row × IsHead head.now × All EndsLine front.now }
            ensures { IfSome result (λ m. IsPiece head.entry.now (joined front.entry.now ++ middle.entry.now) m) }
        { read_pieces(rt, alloc, head, front, middle, half) },
        || -> Option<MarkedPieces>
            requires { IsSync R.row × IsHead head.now × All EndsLine back.now }
            ensures { IfSome result (λ m. IsPiece head.entry.now (joined back.entry.now ++ last.entry.now) m) }
        { read_pieces(rt, alloc, head, back, last, others) },
    );
    append_pieces(first?, second?)
}

// The table of a first line and of the texts behind it, where they can be read in pieces.
fn read_behind<R: Threads + Sync>(
    rt: &R,
    alloc: Global,
    head: &[u8],
    texts: Texts<'_>,
    slots: u32,
) -> Option<MarkedPieces>
    requires cut { IsCut head.now (joined texts.lines.now ++ texts.last.now) }
    requires lines { All EndsLine texts.lines.now }
    ensures value { IfSome result (λ m. table_of (csv_records (head.now ++ (joined texts.entry.lines.now ++ texts.entry.last.now))) ≡ Ok (record { table = m.table; marks = m.marks })) }
    ensures within { IfSome result (λ m. All (λ e. e < length m.table.rows) m.marks) }
{
    if has_quote(head) || is_head(alloc, head) != Ok(true) {
        return None;
    }
    read_pieces(rt, alloc, head, texts.lines, texts.last, slots)
}

/// The table that CSV bytes spell, with its marks, as `read_table` gives it, but kept in the pieces in which it is read:
/// as many as there are slots, side by side where threads can be made. Bytes that can't be cut, and those that spell no
/// table, are read whole.
pub fn read_table_in_slots<R: Threads + Sync>(
    rt: &R,
    alloc: Global,
    bytes: &[u8],
    slots: u32,
) -> Result<MarkedPieces, TableRefusal>
    ensures value { MatchResult result (λ m. table_of (csv_records bytes.now) ≡ Ok (record { table = m.table; marks = m.marks }))
        (Refuses TableRefusal.At TableRefusal.Memory (table_of (csv_records bytes.now))) }
    ensures within { IfOk result (λ m. All (λ e. e < length m.table.rows) m.marks) }
{
    let pieces = (bytes.len() / LEAST_PIECE).min(slots as usize) as u32;
    if pieces > 1 {
        let (head, last) = cut_lines(bytes, 0);
        if let Some(marked) = read_behind(rt, alloc, head, Texts { lines: &[], last }, pieces) {
            return Ok(marked);
        }
    }
    read_table(alloc, bytes)
}

/// The table that the parts spell, kept in the pieces in which it is read. Where it can't be read in pieces, the parts are
/// put together and read whole.
pub(crate) fn read_parts<R: Threads + Sync>(
    rt: &R,
    alloc: Global,
    parts: &Parts,
    slots: u32,
) -> Result<MarkedPieces, TableRefusal>
    requires { All EndsLine parts.now.lines.items }
    ensures value { MatchResult result (λ m. table_of (csv_records (joined parts.now.lines.items ++ parts.now.last)) ≡ Ok (record { table = m.table; marks = m.marks }))
        (Refuses TableRefusal.At TableRefusal.Memory (table_of (csv_records (joined parts.now.lines.items ++ parts.now.last)))) }
    ensures within { IfOk result (λ m. All (λ e. e < length m.table.rows) m.marks) }
{
    let texts = Texts {
        lines: parts.lines.as_slice(),
        last: parts.last.as_slice(),
    };
    if let Some((head, lines)) = texts.lines.split_first() {
        let last = texts.last;
        let behind = Texts { lines, last };
        if let Some(marked) = read_behind(rt, alloc, head.as_slice(), behind, slots) {
            return Ok(marked);
        }
    }
    let whole = together(alloc, texts)?;
    read_table(alloc, whole.as_slice())
}

// Gives texts' bytes back, by at most so many threads.
fn give_back<R: Threads + Sync>(rt: &R, mut texts: Vec<Text>, slots: u32) {
    if slots < 2 {
        return;
    }
    let Some(last) = texts.pop() else {
        return;
    };
    let others = slots - 1;
    join(
        rt,
        move ||
            requires { IsSync R.row }
        { give_back(rt, texts, others) },
        move || drop(last),
    );
}

/// The columns of the table that CSV bytes spell, given in parts that are cut anywhere. The table is cut at its marks into
/// clusters of at most that size: one part is read as `read_table_in_slots` reads it, several are read side by side,
/// and the columns are packed by so many slots.
pub fn read_columns<R: Threads + Sync>(
    rt: &R,
    alloc: Global,
    mut parts: Vec<Bytes>,
    size: u32,
    slots: u32,
) -> Result<Columns, TableRefusal>
    requires size { 1 ≤ size }
    ensures value { MatchResult result (λ columns. table_of (csv_records (joined parts.items)) ≡ Ok (marked_in columns))
        (Refuses TableRefusal.At TableRefusal.Memory (table_of (csv_records (joined parts.items)))) }
    ensures over { IfOk result (λ columns. columns ≡ columns_over (marked_in columns) size) }
    ensures within { IfOk result (λ columns. All (λ e. e < length columns.table.rows) columns.cuts.marks) }
{
    if parts.len() > 1 {
        let parts = whole_lines(alloc, parts)?;
        let marked = read_parts(rt, alloc, &parts, slots)?;
        give_back(rt, parts.lines, slots);
        drop(parts.last);
        return Ok(marked.into_columns(rt, alloc, size, slots)?);
    }
    let bytes = match parts.pop() {
        Some(bytes) => bytes,
        None => Bytes::new(alloc),
    };
    let marked = read_table_in_slots(rt, alloc, bytes.as_slice(), slots)?;
    drop(bytes);
    Ok(marked.into_columns(rt, alloc, size, slots)?)
}
