// Reading the command's words.
ghost use Rattle.std.specs.Prelude.{◌≡◌, IfOk, option_map, map};
ghost use Rattle.clap.specs.Words.{first_of, found_of, rows_of};
ghost use Rattle.command_words.specs.{setting_of};
ghost use Rattle.snapshot_words.specs.{asked_in, asked_of, command_of, files_of, shown_of};

use crate::arguments::arguments;
use crate::command::SnapCommand;
use crate::lists::{names_of, under_of};
use clap::ArgMatches;
use clap::error::ErrorKind;
use command_words::{FileName, number};
use rdf_outside::WordList;
use rdf_values::{ListOf, Memory, Name};
use snapshot_plan::Under;
use std::alloc::Global;

const MAX_SLOTS: u32 = 16;

const MAX_CLUSTER: u32 = 1_000_000;

const USUAL_CLUSTER: u32 = 10_000;

/// The two files.
#[derive(Drop)]
pub(crate) struct Files {
    script: FileName,
    table: FileName,
}

/// The node, the columns there, and nominal or a variation.
#[derive(Drop)]
pub(crate) struct Shown {
    node: Name,
    columns: ListOf<Name>,
    under: Under,
}

// The words, borrowed one by one.
fn borrowed<'a>(alloc: Global, words: &'a WordList) -> Result<Vec<&'a str>, Memory>
    ensures { IfOk result (λ list. map (λ w. w.now) list.items ≡ words.entry.now) }
{
    let mut list = Vec::new(alloc);
    for i in 0..words.len() {
        list.push(words.word(i))?;
    }
    Ok(list)
}

// The number of an option, which may be left out.
fn setting(text: Option<&str>, usual: u32, most: u32) -> Option<u32>
    ensures { result ≡ setting_of usual most (option_map (λ s. s.now) text.entry) }
{
    match text {
        Some(text) => number(text, 1, most),
        None => Some(usual),
    }
}

// The first value of an argument.
fn value<'a>(matches: &ArgMatches<'a>, id: &str) -> Option<&'a str>
    ensures { option_map (λ s. s.now) result ≡ first_of id.now (rows_of (found_of matches.now)) }
{
    matches.get_str(id)
}

// The files of these names.
fn files_of(
    alloc: Global,
    script: Option<&str>,
    table: Option<&str>,
) -> Result<Option<Files>, Memory>
    ensures { IfOk result (λ files. files ≡ files_of (option_map (λ s. s.now) script.entry) (option_map (λ s. s.now) table.entry)) }
{
    let Some(script) = script else {
        return Ok(None);
    };
    let Some(table) = table else {
        return Ok(None);
    };
    Ok(Some(Files {
        script: FileName::of(alloc, script)?,
        table: FileName::of(alloc, table)?,
    }))
}

// What is shown, where the words have the forms of its parts.
fn shown_of(
    alloc: Global,
    node: Option<&str>,
    columns: Option<&str>,
    under: Option<&str>,
) -> Result<Option<Shown>, Memory>
    ensures { IfOk result (λ shown. shown ≡ shown_of (option_map (λ s. s.now) node.entry) (option_map (λ s. s.now) columns.entry) (option_map (λ s. s.now) under.entry)) }
{
    let (Some(node), Some(columns), Some(under)) = (node, columns, under) else {
        return Ok(None);
    };
    let Some(node) = Name::read(alloc, node.as_bytes())? else {
        return Ok(None);
    };
    let Some(columns) = names_of(alloc, columns.as_bytes())? else {
        return Ok(None);
    };
    let Some(under) = under_of(alloc, under.as_bytes())? else {
        return Ok(None);
    };
    Ok(Some(Shown {
        node,
        columns,
        under,
    }))
}

// What is asked by the values of a parse.
#[tactic(auto, unfolding(crate::specs::Asked::asked_in))]
fn asked(alloc: Global, matches: &ArgMatches<'_>) -> Result<Option<SnapCommand>, Memory>
    ensures { IfOk result (λ command. command ≡ asked_in (rows_of (found_of matches.now))) }
{
    let Some(files) = files_of(alloc, value(matches, "SCRIPT"), value(matches, "TABLE"))? else {
        return Ok(None);
    };
    let Some(shown) = shown_of(
        alloc,
        value(matches, "NODE"),
        value(matches, "COLUMNS"),
        value(matches, "UNDER"),
    )?
    else {
        return Ok(None);
    };
    let Some(slots) = setting(value(matches, "slots"), 1, MAX_SLOTS) else {
        return Ok(None);
    };
    let Some(cluster) = setting(value(matches, "cluster"), USUAL_CLUSTER, MAX_CLUSTER) else {
        return Ok(None);
    };
    Ok(Some(command_of(files, shown, slots, cluster)))
}

fn command_of(files: Files, shown: Shown, slots: u32, cluster: u32) -> SnapCommand
    ensures { result ≡ command_of files shown slots cluster }
{
    SnapCommand {
        script: files.script,
        table: files.table,
        node: shown.node,
        columns: shown.columns,
        under: shown.under,
        slots,
        cluster,
    }
}

/// What the words ask for. There is none where the command doesn't take the words, the node, the columns or nominal and
/// variation aren't of their form, or a number isn't canonical or not within its limits.
pub fn read_command(alloc: Global, words: &WordList) -> Result<Option<SnapCommand>, Memory>
    ensures { IfOk result (λ command. command ≡ asked_of words.now) }
{
    let Ok(arguments) = arguments(alloc) else {
        return Err(Memory);
    };
    let list = borrowed(alloc, words)?;
    match arguments.try_get_matches_from(list.as_slice()) {
        Ok(matches) => asked(alloc, &matches),
        Err(error) => match error.kind() {
            ErrorKind::OutOfMemory => Err(Memory),
            _ => Ok(None),
        },
    }
}
