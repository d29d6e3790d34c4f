// Reading a line of a shard file.
ghost use Rattle.std.specs.Prelude.{◌≡◌, IfOk, option_map};
ghost use Rattle.rdf_values.specs.{magnitude_of};
ghost use Rattle.shard_lines.specs.{line_of_words, words_behind, words_in};
ghost use Rattle.shard_files.specs.{shard_limits};
ghost use Rattle.shard_files.specs.Reading.{column_of_words, fault_kind_of, fault_of_number, fault_of_words, file_line_behind, file_line_of, file_word_of, span_of_words, stored_kind_of, table_of_words};

use crate::file_line::FileLine;
use crate::file_word::FileWord;
use crate::limits::shard_limits;
use rdf_values::{ColType, Column, EntryFault, Fault, Memory, Name, read_magnitude};
use shard_lines::{first_word, lone_word, next_word, read_line};
use std::alloc::Global;

const MOST_ENTRIES: u32 = 1_000_000;

const LAST_ENTRY: u32 = 999_999;

const LAST_PASS: u32 = 8_255;

// ---- words

fn read_small(word: &[u8], most: u32) -> Option<u32>
    ensures { result ≡ magnitude_of most word.now }
{
    match read_magnitude(word, most as u64) {
        Some(n) => Some(n as u32),
        None => None,
    }
}

/// The kind of a column of a table.
pub fn read_kind(word: &[u8]) -> Option<ColType>
    ensures { result ≡ stored_kind_of word.now }
{
    if word == b"int".as_slice() {
        Some(ColType::Int)
    } else if word == b"vec".as_slice() {
        Some(ColType::Vect)
    } else {
        None
    }
}

fn fault_of_number(number: u32) -> Option<EntryFault>
    ensures { result ≡ fault_of_number number }
{
    match number {
        1 => Some(EntryFault::Overflow),
        2 => Some(EntryFault::ZeroDivisor),
        3 => Some(EntryFault::Index),
        4 => Some(EntryFault::EmptyVector),
        5 => Some(EntryFault::Lengths),
        6 => Some(EntryFault::VaryCount),
        7 => Some(EntryFault::Weight),
        8 => Some(EntryFault::Function),
        _ => None,
    }
}

/// The kind of a fault, by its number.
pub fn read_fault_kind(word: &[u8]) -> Option<EntryFault>
    ensures { result ≡ fault_kind_of word.now }
{
    fault_of_number(read_small(word, 8)?)
}

fn read_table(entries: &[u8], clusters: &[u8]) -> Option<FileLine>
    ensures { result ≡ table_of_words entries.now clusters.now }
{
    let entries = read_small(entries, MOST_ENTRIES)?;
    let clusters = read_small(clusters, MOST_ENTRIES)?;
    Some(FileLine::Table { entries, clusters })
}

fn read_span(lo: &[u8], hi: &[u8]) -> Option<FileLine>
    ensures { result ≡ span_of_words lo.now hi.now }
{
    let lo = read_small(lo, MOST_ENTRIES)?;
    let hi = read_small(hi, MOST_ENTRIES)?;
    Some(FileLine::Span { lo, hi })
}

fn read_column(alloc: Global, name: &[u8], kind: &[u8]) -> Result<Option<FileLine>, Memory>
    ensures { IfOk result (λ line. line ≡ column_of_words name.now kind.now) }
{
    let Some(name) = Name::read(alloc, name)? else {
        return Ok(None);
    };
    match read_kind(kind) {
        Some(kind) => Ok(Some(FileLine::Column(Column { name, kind }))),
        None => Ok(None),
    }
}

fn read_fault(entry: &[u8], pass: &[u8], kind: &[u8]) -> Option<FileLine>
    ensures { result ≡ fault_of_words entry.now pass.now kind.now }
{
    let entry = read_small(entry, LAST_ENTRY)?;
    let pass = read_small(pass, LAST_PASS)?;
    let kind = read_fault_kind(kind)?;
    Some(FileLine::Fault(Fault { entry, pass, kind }))
}

// ---- lines

fn read_version_line(rest: &[u8]) -> Option<FileLine>
    ensures { result ≡ file_line_behind FileWord.Version (words_behind rest.now) }
{
    let version = lone_word(rest)?;
    if version == b"1".as_slice() {
        Some(FileLine::Version)
    } else {
        None
    }
}

fn read_table_line(rest: &[u8]) -> Option<FileLine>
    ensures { result ≡ file_line_behind FileWord.Table (words_behind rest.now) }
{
    let (entries, more) = next_word(rest)?;
    let clusters = lone_word(more)?;
    read_table(entries, clusters)
}

fn read_span_line(rest: &[u8]) -> Option<FileLine>
    ensures { result ≡ file_line_behind FileWord.Span (words_behind rest.now) }
{
    let (lo, more) = next_word(rest)?;
    let hi = lone_word(more)?;
    read_span(lo, hi)
}

fn read_column_line(alloc: Global, rest: &[u8]) -> Result<Option<FileLine>, Memory>
    ensures { IfOk result (λ line. line ≡ file_line_behind FileWord.Column (words_behind rest.now)) }
{
    let Some((name, more)) = next_word(rest) else {
        return Ok(None);
    };
    match lone_word(more) {
        Some(kind) => read_column(alloc, name, kind),
        None => Ok(None),
    }
}

fn read_fault_line(rest: &[u8]) -> Option<FileLine>
    ensures { result ≡ file_line_behind FileWord.Fault (words_behind rest.now) }
{
    let (entry, more) = next_word(rest)?;
    let (pass, last) = next_word(more)?;
    let kind = lone_word(last)?;
    read_fault(entry, pass, kind)
}

fn read_loop_line(rest: &[u8]) -> Option<FileLine>
    ensures { result ≡ file_line_behind FileWord.Loop (words_behind rest.now) }
{
    match next_word(rest) {
        Some(_) => None,
        None => Some(FileLine::Loop),
    }
}

fn read_end_line(rest: &[u8]) -> Option<FileLine>
    ensures { result ≡ file_line_behind FileWord.End (words_behind rest.now) }
{
    match next_word(rest) {
        Some(_) => None,
        None => Some(FileLine::End),
    }
}

fn file_word_of(word: &[u8]) -> Option<FileWord>
    ensures { result ≡ file_word_of word.now }
{
    if word == b"rdfshard".as_slice() {
        Some(FileWord::Version)
    } else if word == b"table".as_slice() {
        Some(FileWord::Table)
    } else if word == b"column".as_slice() {
        Some(FileWord::Column)
    } else if word == b"span".as_slice() {
        Some(FileWord::Span)
    } else if word == b"loop".as_slice() {
        Some(FileWord::Loop)
    } else if word == b"fault".as_slice() {
        Some(FileWord::Fault)
    } else if word == b"end".as_slice() {
        Some(FileWord::End)
    } else {
        None
    }
}

// The line with that first word, by the words behind it.
fn read_behind(alloc: Global, word: FileWord, rest: &[u8]) -> Result<Option<FileLine>, Memory>
    ensures { IfOk result (λ line. line ≡ file_line_behind word (words_behind rest.now)) }
{
    match word {
        FileWord::Version => Ok(read_version_line(rest)),
        FileWord::Table => Ok(read_table_line(rest)),
        FileWord::Column => read_column_line(alloc, rest),
        FileWord::Span => Ok(read_span_line(rest)),
        FileWord::Loop => Ok(read_loop_line(rest)),
        FileWord::Fault => Ok(read_fault_line(rest)),
        FileWord::End => Ok(read_end_line(rest)),
    }
}

// The line of a pass.
fn read_pass_line(alloc: Global, text: &[u8]) -> Result<Option<FileLine>, Memory>
    ensures { IfOk result (λ line. line ≡ option_map FileLine.Pass (line_of_words shard_limits (words_in text.now))) }
{
    match read_line(alloc, &shard_limits(), text)? {
        Some(line) => Ok(Some(FileLine::Pass(line))),
        None => Ok(None),
    }
}

/// The line that the bytes are the text of, without its end.
pub(crate) fn read_file_line(alloc: Global, text: &[u8]) -> Result<Option<FileLine>, Memory>
    ensures { IfOk result (λ line. line ≡ file_line_of (words_in text.now)) }
{
    let (word, rest) = first_word(text);
    match file_word_of(word) {
        Some(word) => read_behind(alloc, word, rest),
        None => read_pass_line(alloc, text),
    }
}
