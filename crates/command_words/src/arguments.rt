// The arguments that the command takes.
ghost use Rattle.std.specs.Prelude.{◌≡◌, IfOk, false};
ghost use Rattle.clap.specs.Words.{app_of, rule_of};
ghost use Rattle.command_words.specs.{flag, option, positional, rdf_command};

use clap::{Arg, ArgAction, Command};
use std::alloc::{AllocError, Global};

fn positional<'a>(alloc: Global, id: &'a str) -> Arg<'a>
    ensures rule { rule_of result ≡ positional id.entry.now }
    ensures local { result.global ≡ false }
{
    Arg::new(alloc, id).required(true)
}

fn option<'a>(alloc: Global, id: &'a str) -> Arg<'a>
    ensures rule { rule_of result ≡ option id.entry.now }
    ensures local { result.global ≡ false }
{
    Arg::new(alloc, id).long(id).action(ArgAction::Set)
}

fn flag<'a>(alloc: Global, id: &'a str) -> Arg<'a>
    ensures rule { rule_of result ≡ flag id.entry.now }
    ensures local { result.global ≡ false }
{
    Arg::new(alloc, id).long(id).action(ArgAction::SetTrue)
}

/// The command, over the words after the program's name.
// Values stay texts: clap's own integers would take a sign and leading zeros.
pub(crate) fn arguments<'a>(alloc: Global) -> Result<Command<'a>, AllocError>
    ensures { IfOk result (λ c. app_of c ≡ rdf_command) }
{
    Command::new(alloc, "rdf")
        .no_binary_name(true)
        .arg(positional(alloc, "SCRIPT"))?
        .arg(positional(alloc, "TABLE"))?
        .arg(option(alloc, "slots"))?
        .arg(option(alloc, "cluster"))?
        .arg(option(alloc, "watch"))?
        .arg(flag(alloc, "make"))?
        .arg(option(alloc, "friend"))?
        .arg(option(alloc, "key"))?
        .arg(option(alloc, "missing"))
}
