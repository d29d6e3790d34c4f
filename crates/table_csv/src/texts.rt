// A table's bytes in several texts, of which each but the last ends where a line does, and in parts, cut anywhere.
ghost use Rattle.std.specs.List.{list_any};
ghost use Rattle.std.specs.Prelude.{◌≡◌, ◌≤◌, ◌++◌, All, IfOk, OnOk, drop, length, position};
ghost use Rattle.columns.specs.{joined};
ghost use Rattle.table_csv.specs.Pieces.{EndsLine, is_line_end, is_quote, is_special, IsCut};

use memchr::{memchr, memchr2};
use rdf_values::{Bytes, Memory};
use std::alloc::Global;
use std::marker::Model;

/// Whether a double quote stands in the bytes.
#[tactic(auto, using(crate::proofs::RecordSteps::found_any))]
pub(crate) fn has_quote(bytes: &[u8]) -> bool
    ensures { result ≡ list_any is_quote bytes.now }
{
    memchr(b'"', bytes).is_some()
}

/// Whether a double quote stands in the bytes, or the byte with which a byte order mark begins.
#[tactic(auto, using(crate::proofs::RecordSteps::found_any))]
pub(crate) fn has_special(bytes: &[u8]) -> bool
    ensures { result ≡ list_any is_special bytes.now }
{
    memchr2(b'"', 0xEF, bytes).is_some()
}

fn find_line_end(bytes: &[u8]) -> Option<usize>
    ensures { result ≡ position is_line_end bytes.now }
{
    bytes.iter().position(|b| *b == b'\n')
}

/// The bytes up to the first line's end from a place on, and those behind it.
#[tactic(auto, using(crate::proofs::RecordSteps::lines_to, rdf_values::proofs::Fronts::rest_of))]
pub(crate) fn cut_lines(bytes: &[u8], from: usize) -> (&[u8], &[u8])
    requires { from ≤ length bytes.now }
    ensures whole { result.0.now ++ result.1.now ≡ bytes.now }
    ensures cut { IsCut result.0.now result.1.now }
{
    match find_line_end(&bytes[from..]) {
        Some(i) => bytes.split_at(from + i + 1),
        None => bytes.split_at(bytes.len()),
    }
}

/// The bytes from a place on.
#[derive(Drop)]
pub(crate) struct Text {
    bytes: Bytes,
    from: usize,
}

impl Model for Text {
    ghost use Rattle.std.specs.Prelude.{◌≤◌, ℕ, List, drop, length};

    ghost Value = { List ℕ };

    ghost view = { λ t. drop t.from t.bytes };

    ghost invariant = { λ t. t.from ≤ length t.bytes };
}

impl Text {
    /// The bytes from that place on.
    pub(crate) fn new(bytes: Bytes, from: usize) -> Text
        requires { from ≤ length bytes }
        ensures { result ≡ drop from bytes }
    {
        Text { bytes, from }
    }

    /// The bytes in order.
    pub(crate) fn as_slice(&self) -> &[u8]
        ensures { result.now ≡ self.now }
    {
        &self.bytes.as_slice()[self.from..]
    }

    /// Appends several bytes.
    pub(crate) fn extend(&mut self, more: &[u8]) -> Result<(), Memory>
        ensures { OnOk result (self.new ≡ self.old ++ more.now) }
    {
        self.bytes.extend(more)
    }
}

/// Texts that end where a line does, and the text behind them.
#[derive(Clone, Copy)]
pub(crate) struct Texts<'a> {
    pub(crate) lines: &'a [Text],
    pub(crate) last: &'a [u8],
}

/// The texts put together.
pub(crate) fn together(alloc: Global, texts: Texts<'_>) -> Result<Bytes, Memory>
    ensures { IfOk result (λ whole. whole ≡ joined texts.entry.lines.now ++ texts.entry.last.now) }
{
    let mut whole = Bytes::new(alloc);
    for text in texts.lines {
        whole.extend(text.as_slice())?;
    }
    whole.extend(texts.last)?;
    Ok(whole)
}

// So many of the bytes as belong to some of the slots.
fn share(bytes: usize, some: u32, all: u32) -> usize
    requires { some ≤ all }
    ensures { result ≤ bytes }
{
    if all == 0 {
        return bytes;
    }
    bytes / all as usize * some as usize
}

/// The first half of the texts and the other half. A single text is cut behind a line, by the slots of either half.
#[tactic(auto, using(crate::proofs::RecordSteps::halves_whole, crate::proofs::RecordSteps::behind_ends))]
pub(crate) fn halved(texts: Texts<'_>, some: u32, all: u32) -> (Texts<'_>, Texts<'_>)
    requires some { some ≤ all }
    requires lines { All EndsLine texts.lines.now }
    ensures whole { (joined result.0.lines.now ++ result.0.last.now) ++ (joined result.1.lines.now ++ result.1.last.now) ≡ joined texts.entry.lines.now ++ texts.entry.last.now }
    ensures cut { IsCut (joined result.0.lines.now ++ result.0.last.now) (joined result.1.lines.now ++ result.1.last.now) }
    ensures front { All EndsLine result.0.lines.now }
    ensures back { All EndsLine result.1.lines.now }
{
    let lines = texts.lines;
    let Some(others) = lines.len().checked_sub(1) else {
        let (front, back) = cut_lines(texts.last, share(texts.last.len(), some, all));
        return (Texts { lines, last: front }, Texts { lines, last: back });
    };
    let half = others / 2;
    let front = Texts {
        lines: &lines[..half],
        last: lines[half].as_slice(),
    };
    let back = Texts {
        lines: &lines[half + 1..],
        last: texts.last,
    };
    (front, back)
}

/// Parts that end where a line does, and the part behind them.
#[derive(Drop)]
pub(crate) struct Parts {
    pub(crate) lines: Vec<Text>,
    pub(crate) last: Text,
}

/// The parts, each with what was missing of its last line: that stands at the beginning of the next part. The first of
/// them is the first line alone.
pub(crate) fn whole_lines(alloc: Global, parts: Vec<Bytes>) -> Result<Parts, Memory>
    ensures whole { IfOk result (λ p. joined p.lines.items ++ p.last ≡ joined parts.items) }
    ensures lines { IfOk result (λ p. All EndsLine p.lines.items) }
{
    let mut lines = Vec::new(alloc);
    let mut last = Text::new(Bytes::new(alloc), 0);
    for part in parts {
        let (beginning, rest) = cut_lines(part.as_slice(), 0);
        last.extend(beginning)?;
        if !rest.is_empty() {
            let from = beginning.len();
            lines.push(last)?;
            last = Text::new(part, from);
        }
    }
    Ok(Parts { lines, last })
}
