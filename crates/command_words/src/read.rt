// Reading the command's words.
ghost use Rattle.std.specs.Prelude.{◌≡◌, IfOk, option_map, map};
ghost use Rattle.clap.specs.Words.{found_of, rows_of};
ghost use Rattle.command_words.specs.{asked_in, asked_of, friend_from, input_from, number_of, setting_of};

use crate::arguments::arguments;
use crate::command::{Command, Friend, Input};
use crate::file_name::FileName;
use clap::ArgMatches;
use clap::error::ErrorKind;
use rdf_outside::WordList;
use rdf_values::{Memory, Name, read_integer};
use std::alloc::Global;

const MAX_SLOTS: u32 = 16;

const MAX_SIZE: u32 = 1_000_000;

const MAX_ENTRIES: u32 = 1_000_000;

// The words, borrowed one by one.
#[tactic(auto, using(crate::proofs::Taken::map_more))]
fn borrowed<'a>(alloc: Global, words: &'a WordList) -> Result<Vec<&'a str>, Memory>
    ensures { IfOk result (λ list. map (λ w. w.now) list.items ≡ words.entry.now) }
{
    let mut list = Vec::new(alloc);
    for i in 0..words.len() {
        list.push(words.word(i))?;
    }
    Ok(list)
}

#[tactic(auto, unfolding(crate::specs::Asked::number_of))]
/// The number that a text is canonical for, within the limits.
pub fn number(text: &str, least: u32, most: u32) -> Option<u32>
    ensures { result ≡ number_of least most text.now }
{
    let n = read_integer(text.as_bytes())?;
    if n >= least as i64 && n <= most as i64 {
        Some(n as u32)
    } else {
        None
    }
}

// The number of an option, which may be left out.
fn setting(text: Option<&str>, usual: u32, most: u32) -> Option<u32>
    ensures { result ≡ setting_of usual most (option_map (λ s. s.now) text.entry) }
{
    text.map_or(Some(usual), |text| number(text, 1, most))
}

// The friend that is asked for, if one is. There is no answer where the file and the key don't come together, the number
// comes without them, or one of them isn't taken.
fn friend_asked(
    alloc: Global,
    file: Option<&str>,
    key: Option<&str>,
    number: Option<&str>,
) -> Result<Option<Option<Friend>>, Memory>
    ensures { IfOk result (λ friend. friend ≡ friend_from (option_map (λ s. s.now) file.entry) (option_map (λ s. s.now) key.entry) (option_map (λ s. s.now) number.entry)) }
{
    let Some(file) = file else {
        let none_asked = key.is_none() && number.is_none();
        return Ok(none_asked.then_some(None));
    };
    let missing = number.map_or(Some(0), |text| read_integer(text.as_bytes()));
    let (Some(key), Some(missing)) = (key, missing) else {
        return Ok(None);
    };
    let Some(key) = Name::read(alloc, key.as_bytes())? else {
        return Ok(None);
    };
    let file = FileName::of(alloc, file)?;
    Ok(Some(Some(Friend { file, key, missing })))
}

fn input(
    alloc: Global,
    is_made: bool,
    first: Option<&str>,
    second: Option<&str>,
    friend: Option<Friend>,
) -> Result<Option<Input>, Memory>
    ensures { IfOk result (λ input. input ≡ input_from is_made (option_map (λ s. s.now) first.entry) (option_map (λ s. s.now) second.entry) friend) }
{
    let (Some(first), Some(second)) = (first, second) else {
        return Ok(None);
    };
    if !is_made {
        return Ok(Some(Input::Files {
            script: FileName::of(alloc, first)?,
            table: FileName::of(alloc, second)?,
            friend,
        }));
    }
    if friend.is_some() {
        return Ok(None);
    }
    let entries = number(first, 1, MAX_ENTRIES);
    let (Some(entries), Some(seed)) = (entries, number(second, 0, u32::MAX)) else {
        return Ok(None);
    };
    Ok(Some(Input::Generated { entries, seed }))
}

// What is asked by the values of a parse.
#[tactic(auto, using(crate::proofs::Taken::values), unfolding(crate::specs::Asked::asked_in, crate::specs::Asked::input_of))]
fn asked(alloc: Global, matches: &ArgMatches<'_>) -> Result<Option<Command>, Memory>
    ensures { IfOk result (λ command. command ≡ asked_in (rows_of (found_of matches.now))) }
{
    let slots = setting(matches.get_str("slots"), 1, MAX_SLOTS);
    let cluster = setting(matches.get_str("cluster"), 10_000, MAX_SIZE);
    let watch = setting(matches.get_str("watch"), 1, MAX_SIZE);
    let (Some(slots), Some(cluster), Some(watch)) = (slots, cluster, watch) else {
        return Ok(None);
    };
    let is_made = matches.get_str("make").is_some_and(|text| text == "true");
    let Some(friend) = friend_asked(
        alloc,
        matches.get_str("friend"),
        matches.get_str("key"),
        matches.get_str("missing"),
    )?
    else {
        return Ok(None);
    };
    let Some(input) = input(
        alloc,
        is_made,
        matches.get_str("SCRIPT"),
        matches.get_str("TABLE"),
        friend,
    )?
    else {
        return Ok(None);
    };
    Ok(Some(Command {
        slots,
        cluster,
        watch,
        input,
    }))
}

/// What the words ask for. There is none where the command doesn't take the words, a number isn't canonical or not
/// within its limits, or a rule on the words of a friend is broken.
pub fn read_command(alloc: Global, words: &WordList) -> Result<Option<Command>, Memory>
    ensures { IfOk result (λ command. command ≡ asked_of words.now) }
{
    let list = borrowed(alloc, words)?;
    match arguments(alloc)?.try_get_matches_from(list.as_slice()) {
        Ok(matches) => asked(alloc, &matches),
        Err(error) => match error.kind() {
            ErrorKind::OutOfMemory => Err(Memory),
            _ => Ok(None),
        },
    }
}
