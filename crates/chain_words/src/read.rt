// Reading the command's words.
ghost use Rattle.std.specs.Prelude.{◌≡◌, ◌≤◌, ◌<◌, IfOk, drop, length};
ghost use Rattle.chain_words.specs.{asked_of, command_by, has_options, is_over, join_of, map_of, no_words, print_of, run_of, settings_of, words_read};

use crate::command::{ChainCommand, Joining, Mapping, Printing, Running, Settings};
use crate::reading::{Awaits, WordsRead, number, word_read};
use command_words::FileName;
use rdf_outside::WordList;
use rdf_values::{ListOf, Memory};
use std::alloc::Global;

const USUAL_CLUSTER: u32 = 10_000;

const MAX_TABLES: usize = 16_384;

const MAX_PARTS: usize = 4_096;

const MAX_FILES: u32 = 16_777_216;

// The words behind the first one.
fn words_read(alloc: Global, words: &WordList) -> Result<Option<WordsRead>, Memory>
    requires { 1 ≤ length words.now }
    ensures { IfOk result (λ r. r ≡ words_read no_words (drop 1 words.now)) }
{
    let mut reading = WordsRead {
        awaits: Awaits::Any,
        names: ListOf::new(alloc),
        slots: None,
        cluster: None,
    };
    for i in 1..words.len() {
        match word_read(alloc, reading, words.word(i))? {
            Some(next) => reading = next,
            None => return Ok(None),
        }
    }
    Ok(Some(reading))
}

fn settings_of(reading: &WordsRead) -> Settings
    ensures { result ≡ settings_of reading.now }
{
    Settings {
        slots: reading.slots.unwrap_or(1),
        cluster: reading.cluster.unwrap_or(USUAL_CLUSTER),
    }
}

fn has_options(reading: &WordsRead) -> bool
    ensures { result ≡ has_options reading.now }
{
    reading.slots.is_some() || reading.cluster.is_some()
}

// A run, by the names behind the word.
fn run_of(names: ListOf<FileName>, settings: Settings) -> Option<ChainCommand>
    ensures { result ≡ run_of names settings }
{
    let mut names = names.into_vec();
    if names.len() < 2 || names.len() > MAX_TABLES + 1 {
        return None;
    }
    let script = names.remove(0);
    Some(ChainCommand::Run(Running {
        script,
        tables: ListOf::from_vec(names),
        settings,
    }))
}

// A run over one table.
fn map_of(names: ListOf<FileName>, settings: Settings) -> Option<ChainCommand>
    ensures { result ≡ map_of names settings }
{
    let mut names = names.into_vec();
    if names.len() != 3 {
        return None;
    }
    let script = names.remove(0);
    let number = number(names[0].as_str().as_bytes(), 0, MAX_FILES - 1)?;
    let table = names.remove(1);
    Some(ChainCommand::Map(Mapping {
        script,
        number,
        table,
        settings,
    }))
}

// A joining.
fn join_of(names: ListOf<FileName>) -> Option<ChainCommand>
    ensures { result ≡ join_of names }
{
    let mut names = names.into_vec();
    if names.len() < 2 || names.len() > MAX_PARTS + 1 {
        return None;
    }
    let script = names.remove(0);
    Some(ChainCommand::Join(Joining {
        script,
        parts: ListOf::from_vec(names),
    }))
}

// A printing.
fn print_of(names: ListOf<FileName>) -> Option<ChainCommand>
    ensures { result ≡ print_of names }
{
    let mut names = names.into_vec();
    if names.len() != 3 {
        return None;
    }
    let script = names.remove(0);
    let count = number(names[0].as_str().as_bytes(), 1, MAX_FILES)?;
    let part = names.remove(1);
    Some(ChainCommand::Print(Printing {
        script,
        count,
        part,
    }))
}

// The command of the word, by what was read behind it.
fn command_by(word: &str, reading: WordsRead) -> Option<ChainCommand>
    ensures { result ≡ command_by word.now reading }
{
    let settings = settings_of(&reading);
    let options = has_options(&reading);
    if word == "run" {
        run_of(reading.names, settings)
    } else if word == "map" {
        map_of(reading.names, settings)
    } else if options {
        None
    } else if word == "join" {
        join_of(reading.names)
    } else if word == "print" {
        print_of(reading.names)
    } else {
        None
    }
}

// Whether no option lacks its value.
fn is_over(awaits: Awaits) -> bool
    ensures { result ≡ is_over awaits }
{
    matches!(awaits, Awaits::Any | Awaits::Name)
}

/// What the words ask for; none where they aren't taken.
pub fn read_command(alloc: Global, words: &WordList) -> Result<Option<ChainCommand>, Memory>
    ensures { IfOk result (λ command. command ≡ asked_of words.now) }
{
    if words.len() == 0 {
        return Ok(None);
    }
    let Some(reading) = words_read(alloc, words)? else {
        return Ok(None);
    };
    if is_over(reading.awaits) {
        Ok(command_by(words.word(0), reading))
    } else {
        Ok(None)
    }
}
