// Reading a line of a part file.
ghost use Rattle.std.specs.Prelude.{◌≡◌, ◌∷◌, IfOk, option_map};
ghost use Rattle.rdf_values.specs.{magnitude_of};
ghost use Rattle.shard_lines.specs.{line_of_words, words_behind, words_in};
ghost use Rattle.chain_files.specs.{widest};
ghost use Rattle.chain_files.specs.Reading.{
  column_of_words,
  entries_of_word,
  fault_of_words,
  files_of_words,
  four_of,
  part_line_behind,
  part_line_of,
  part_word_of,
  script_of_word,
};

use crate::chain_fault::ChainFault;
use crate::limits::{MOST_ENTRIES, is_digest, widest};
use crate::part_line::PartLine;
use crate::part_word::PartWord;
use rdf_values::{Column, Memory, Name, Text, read_magnitude};
use shard_files::{read_fault_kind, read_kind};
use shard_lines::{first_word, lone_word, next_word, read_line};
use std::alloc::Global;

const MOST_FILES: u32 = 16_777_216;

const LAST_FILE: u32 = 16_777_215;

const LAST_ENTRY: u32 = 999_999;

const LAST_PASS: u32 = 8_255;

// ---- words

fn read_small(word: &[u8], most: u32) -> Option<u32>
    ensures { result ≡ magnitude_of most word.now }
{
    match read_magnitude(word, most as u64) {
        Some(n) => Some(n as u32),
        None => None,
    }
}

fn read_files(first: &[u8], end: &[u8]) -> Option<PartLine>
    ensures { result ≡ files_of_words first.now end.now }
{
    let first = read_small(first, MOST_FILES)?;
    let end = read_small(end, MOST_FILES)?;
    Some(PartLine::Files { first, end })
}

fn read_entries(word: &[u8]) -> Option<PartLine>
    ensures { result ≡ entries_of_word word.now }
{
    match read_magnitude(word, MOST_ENTRIES) {
        Some(entries) => Some(PartLine::Entries(entries)),
        None => None,
    }
}

fn read_script(alloc: Global, word: &[u8]) -> Result<Option<PartLine>, Memory>
    ensures { IfOk result (λ line. line ≡ script_of_word word.now) }
{
    if !is_digest(word) {
        return Ok(None);
    }
    let mut script = Text::new(alloc);
    script.extend(word)?;
    Ok(Some(PartLine::Script(script)))
}

fn read_column(alloc: Global, name: &[u8], kind: &[u8]) -> Result<Option<PartLine>, Memory>
    ensures { IfOk result (λ line. line ≡ column_of_words name.now kind.now) }
{
    let Some(name) = Name::read(alloc, name)? else {
        return Ok(None);
    };
    match read_kind(kind) {
        Some(kind) => Ok(Some(PartLine::Column(Column { name, kind }))),
        None => Ok(None),
    }
}

fn read_fault(file: &[u8], entry: &[u8], pass: &[u8], kind: &[u8]) -> Option<PartLine>
    ensures { result ≡ fault_of_words file.now entry.now pass.now kind.now }
{
    let file = read_small(file, LAST_FILE)?;
    let entry = read_small(entry, LAST_ENTRY)?;
    let pass = read_small(pass, LAST_PASS)?;
    let kind = read_fault_kind(kind)?;
    Some(PartLine::Fault(ChainFault {
        file,
        entry,
        pass,
        kind,
    }))
}

// ---- lines

fn read_version_line(rest: &[u8]) -> Option<PartLine>
    ensures { result ≡ part_line_behind PartWord.Version (words_behind rest.now) }
{
    let version = lone_word(rest)?;
    if version == b"1".as_slice() {
        Some(PartLine::Version)
    } else {
        None
    }
}

fn read_files_line(rest: &[u8]) -> Option<PartLine>
    ensures { result ≡ part_line_behind PartWord.Files (words_behind rest.now) }
{
    let (first, more) = next_word(rest)?;
    let end = lone_word(more)?;
    read_files(first, end)
}

fn read_entries_line(rest: &[u8]) -> Option<PartLine>
    ensures { result ≡ part_line_behind PartWord.Entries (words_behind rest.now) }
{
    let entries = lone_word(rest)?;
    read_entries(entries)
}

fn read_script_line(alloc: Global, rest: &[u8]) -> Result<Option<PartLine>, Memory>
    ensures { IfOk result (λ line. line ≡ part_line_behind PartWord.Script (words_behind rest.now)) }
{
    match lone_word(rest) {
        Some(script) => read_script(alloc, script),
        None => Ok(None),
    }
}

fn read_column_line(alloc: Global, rest: &[u8]) -> Result<Option<PartLine>, Memory>
    ensures { IfOk result (λ line. line ≡ part_line_behind PartWord.Column (words_behind rest.now)) }
{
    let Some((name, more)) = next_word(rest) else {
        return Ok(None);
    };
    match lone_word(more) {
        Some(kind) => read_column(alloc, name, kind),
        None => Ok(None),
    }
}

// A fault's line by its first two words, and what is behind them.
fn read_fault_behind(file: &[u8], entry: &[u8], rest: &[u8]) -> Option<PartLine>
    ensures { result ≡ four_of fault_of_words (file.now ∷ entry.now ∷ words_behind rest.now) }
{
    let (pass, last) = next_word(rest)?;
    let kind = lone_word(last)?;
    read_fault(file, entry, pass, kind)
}

fn read_fault_line(rest: &[u8]) -> Option<PartLine>
    ensures { result ≡ part_line_behind PartWord.Fault (words_behind rest.now) }
{
    let (file, more) = next_word(rest)?;
    let (entry, others) = next_word(more)?;
    read_fault_behind(file, entry, others)
}

fn read_loop_line(rest: &[u8]) -> Option<PartLine>
    ensures { result ≡ part_line_behind PartWord.Loop (words_behind rest.now) }
{
    match next_word(rest) {
        Some(_) => None,
        None => Some(PartLine::Loop),
    }
}

fn read_end_line(rest: &[u8]) -> Option<PartLine>
    ensures { result ≡ part_line_behind PartWord.End (words_behind rest.now) }
{
    match next_word(rest) {
        Some(_) => None,
        None => Some(PartLine::End),
    }
}

fn part_word_of(word: &[u8]) -> Option<PartWord>
    ensures { result ≡ part_word_of word.now }
{
    if word == b"rdfpart".as_slice() {
        Some(PartWord::Version)
    } else if word == b"files".as_slice() {
        Some(PartWord::Files)
    } else if word == b"entries".as_slice() {
        Some(PartWord::Entries)
    } else if word == b"script".as_slice() {
        Some(PartWord::Script)
    } else if word == b"column".as_slice() {
        Some(PartWord::Column)
    } else if word == b"loop".as_slice() {
        Some(PartWord::Loop)
    } else if word == b"fault".as_slice() {
        Some(PartWord::Fault)
    } else if word == b"end".as_slice() {
        Some(PartWord::End)
    } else {
        None
    }
}

// The line with that first word, by the words behind it.
fn read_behind(alloc: Global, word: PartWord, rest: &[u8]) -> Result<Option<PartLine>, Memory>
    ensures { IfOk result (λ line. line ≡ part_line_behind word (words_behind rest.now)) }
{
    match word {
        PartWord::Version => Ok(read_version_line(rest)),
        PartWord::Files => Ok(read_files_line(rest)),
        PartWord::Entries => Ok(read_entries_line(rest)),
        PartWord::Script => read_script_line(alloc, rest),
        PartWord::Column => read_column_line(alloc, rest),
        PartWord::Loop => Ok(read_loop_line(rest)),
        PartWord::Fault => Ok(read_fault_line(rest)),
        PartWord::End => Ok(read_end_line(rest)),
    }
}

// The line of a pass.
fn read_pass_line(alloc: Global, text: &[u8]) -> Result<Option<PartLine>, Memory>
    ensures { IfOk result (λ line. line ≡ option_map PartLine.Pass (line_of_words widest (words_in text.now))) }
{
    match read_line(alloc, &widest(), text)? {
        Some(line) => Ok(Some(PartLine::Pass(line))),
        None => Ok(None),
    }
}

/// The line that the bytes are the text of, without its end.
pub(crate) fn read_part_line(alloc: Global, text: &[u8]) -> Result<Option<PartLine>, Memory>
    ensures { IfOk result (λ line. line ≡ part_line_of (words_in text.now)) }
{
    let (word, rest) = first_word(text);
    match part_word_of(word) {
        Some(word) => read_behind(alloc, word, rest),
        None => read_pass_line(alloc, text),
    }
}
