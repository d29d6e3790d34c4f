// Reading the command's words.
ghost use Rattle.std.specs.Prelude.{◌≡◌, ◌≤◌, ◌<◌, IfOk, drop, length};
ghost use Rattle.shard_words.specs.{asked_for, asked_of, merge_of, merge_with, run_of, run_with};

use crate::command::{Merging, ShardCommand, SpanRun};
use command_words::{FileName, number};
use rdf_outside::WordList;
use rdf_values::{ListOf, Memory, Span};
use std::alloc::Global;

const MAX_SIZE: u32 = 1_000_000;

const MAX_FILES: usize = 64;

// A run, where its numbers are there.
fn run_with(
    alloc: Global,
    script: &str,
    table: &str,
    size: Option<u32>,
    lo: Option<u32>,
    hi: Option<u32>,
) -> Result<Option<ShardCommand>, Memory>
    ensures { IfOk result (λ command. command ≡ run_with script.now table.now size lo hi) }
{
    let Some(size) = size else {
        return Ok(None);
    };
    let Some(lo) = lo else {
        return Ok(None);
    };
    let Some(hi) = hi else {
        return Ok(None);
    };
    Ok(Some(ShardCommand::Run(SpanRun {
        script: FileName::of(alloc, script)?,
        table: FileName::of(alloc, table)?,
        size,
        clusters: Span { lo, hi },
    })))
}

// A run, by the words behind the first one.
fn read_run(alloc: Global, words: &WordList) -> Result<Option<ShardCommand>, Memory>
    requires { 1 ≤ length words.now }
    ensures { IfOk result (λ command. command ≡ run_of (drop 1 words.now)) }
{
    if words.len() != 6 {
        return Ok(None);
    }
    run_with(
        alloc,
        words.word(1),
        words.word(2),
        number(words.word(3), 1, MAX_SIZE),
        number(words.word(4), 0, MAX_SIZE),
        number(words.word(5), 0, MAX_SIZE),
    )
}

// The words from the third one on, as names of files.
fn file_names(alloc: Global, words: &WordList) -> Result<ListOf<FileName>, Memory>
    requires { 2 ≤ length words.now }
    ensures { IfOk result (λ files. files ≡ drop 2 words.now) }
{
    let mut files = ListOf::new(alloc);
    for i in 2..words.len() {
        let name = FileName::of(alloc, words.word(i))?;
        files.push(name)?;
    }
    Ok(files)
}

// The merging of 1 to 64 files.
fn merge_with(script: FileName, files: ListOf<FileName>) -> Option<ShardCommand>
    ensures { result ≡ merge_with script files }
{
    if files.len() > 0 && files.len() <= MAX_FILES {
        Some(ShardCommand::Merge(Merging { script, files }))
    } else {
        None
    }
}

// A merging, by the words behind the first one.
fn read_merge(alloc: Global, words: &WordList) -> Result<Option<ShardCommand>, Memory>
    requires { 1 ≤ length words.now }
    ensures { IfOk result (λ command. command ≡ merge_of (drop 1 words.now)) }
{
    if words.len() < 2 {
        return Ok(None);
    }
    let script = FileName::of(alloc, words.word(1))?;
    let files = file_names(alloc, words)?;
    Ok(merge_with(script, files))
}

// What the words ask for, by the first of them.
fn asked_for(alloc: Global, word: &str, words: &WordList) -> Result<Option<ShardCommand>, Memory>
    requires { 1 ≤ length words.now }
    ensures { IfOk result (λ command. command ≡ asked_for word.now (drop 1 words.now)) }
{
    if word == "run" {
        read_run(alloc, words)
    } else if word == "merge" {
        read_merge(alloc, words)
    } else {
        Ok(None)
    }
}

/// What the words ask for. There is none where there are too few or too many, or a number isn't canonical or not within its
/// limits.
pub fn read_command(alloc: Global, words: &WordList) -> Result<Option<ShardCommand>, Memory>
    ensures { IfOk result (λ command. command ≡ asked_of words.now) }
{
    if words.len() == 0 {
        return Ok(None);
    }
    asked_for(alloc, words.word(0), words)
}
