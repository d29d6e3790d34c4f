// The lines of refusals.
ghost use Rattle.std.specs.Prelude.{◌≡◌, ◌++◌, IfOk};
ghost use Rattle.std.specs.String.{string_bytes};
ghost use Rattle.rdf_values.specs.{expr_cause_text, graph_cause_line, graph_cause_text, line, script_cause_line};
ghost use Rattle.result_text.specs.{join_cause_line, refusal_text, refused_for};

use friend_join::JoinCause;
use rdf_values::{ExprCause, GraphCause, Memory, ScriptCause, TableCause, Text};
use std::alloc::Global;

/// The words are none of the command, a file can't be read or isn't there, or a script, a table or a friend is
/// refused.
#[derive(Drop)]
pub enum Refusal {
    Words,
    Read { name: Text },
    NoFile { name: Text },
    ScriptLong,
    Script(ScriptCause),
    Graph { line: u32, cause: GraphCause },
    TableLong,
    Table(TableCause),
    FriendLong,
    Friend(TableCause),
    Join(JoinCause),
}

/// A text of these bytes.
pub fn text_of(alloc: Global, bytes: &[u8]) -> Result<Text, Memory>
    ensures { IfOk result (λ text. text ≡ bytes.now) }
{
    let mut text = Text::new(alloc);
    text.extend(bytes)?;
    Ok(text)
}

// A line that ends in the name of a file.
fn named(alloc: Global, label: &[u8], name: &Text) -> Result<Text, Memory>
    ensures { IfOk result (λ text. text ≡ line (label.now ++ name.now)) }
{
    let mut text = text_of(alloc, label)?;
    text.extend(name.as_bytes())?;
    text.push(b'\n')?;
    Ok(text)
}

fn expr_cause_text(cause: ExprCause) -> &'static str
    ensures { result.now ≡ expr_cause_text cause }
{
    match cause {
        ExprCause::BadByte => "E1 BadByte",
        ExprCause::BadNumber => "E2 BadNumber",
        ExprCause::Unexpected => "E3 Unexpected",
        ExprCause::TooLong => "E4 TooLong",
    }
}

fn graph_cause_text(cause: GraphCause) -> &'static str
    ensures { result.now ≡ graph_cause_text cause }
{
    match cause {
        GraphCause::NameTaken => "S2 NameTaken",
        GraphCause::UnknownName => "S3 UnknownName",
        GraphCause::UnknownColumn => "S4 UnknownColumn",
        GraphCause::UnknownFunction => "S5 UnknownFunction",
        GraphCause::WrongType => "S7 WrongType",
        GraphCause::WrongCount => "S8 WrongCount",
        GraphCause::AliasTarget => "S10 AliasTarget",
        GraphCause::Late => "S11 Late",
        GraphCause::BadEdges => "S12 BadEdges",
        GraphCause::TooMany => "S13 TooMany",
        GraphCause::WrongKind => "S14 WrongKind",
    }
}

fn script_cause_line(alloc: Global, cause: ScriptCause) -> Result<String, Memory>
    ensures { IfOk result (λ l. string_bytes l ≡ script_cause_line cause) }
{
    match cause {
        ScriptCause::Syntax { line, place } => Ok(format!(in alloc;
            "script refused at line {line} place {place}: S1 Syntax\n"
        )?),
        ScriptCause::Expression { line, place, cause } => {
            let text = expr_cause_text(cause);
            Ok(format!(in alloc; "script refused at line {line} place {place}: {text}\n")?)
        }
        ScriptCause::TooMany { line } => Ok(format!(in alloc;
            "script refused at line {line}: S13 TooMany\n"
        )?),
    }
}

fn graph_cause_line(alloc: Global, line: u32, cause: GraphCause) -> Result<String, Memory>
    ensures { IfOk result (λ l. string_bytes l ≡ graph_cause_line line cause) }
{
    let text = graph_cause_text(cause);
    Ok(format!(in alloc; "script refused at line {line}: {text}\n")?)
}

// What stands behind the name of a refused table.
fn refused_for(alloc: Global, cause: TableCause) -> Result<String, Memory>
    ensures { IfOk result (λ l. string_bytes l ≡ refused_for cause) }
{
    match cause {
        TableCause::Header { field } => Ok(format!(in alloc;
            " refused at header field {field}: B1 Header\n"
        )?),
        TableCause::FieldCount { entry } => Ok(format!(in alloc;
            " refused at entry {entry}: B2 FieldCount\n"
        )?),
        TableCause::BadInt { entry, field } => Ok(format!(in alloc;
            " refused at entry {entry} field {field}: B3 BadInt\n"
        )?),
        TableCause::BadVec { entry, field } => Ok(format!(in alloc;
            " refused at entry {entry} field {field}: B4 BadVec\n"
        )?),
        TableCause::TooMany { entry } => Ok(format!(in alloc;
            " refused at entry {entry}: B5 TooMany\n"
        )?),
        TableCause::BadCut { entry, field } => Ok(format!(in alloc;
            " refused at entry {entry} field {field}: B6 BadCut\n"
        )?),
    }
}

// The line of a refused table of that name.
fn refused(alloc: Global, name: &[u8], cause: TableCause) -> Result<Text, Memory>
    ensures { IfOk result (λ text. text ≡ name.now ++ refused_for cause) }
{
    let mut text = text_of(alloc, name)?;
    text.extend(refused_for(alloc, cause)?.as_bytes())?;
    Ok(text)
}

fn join_cause_line(alloc: Global, cause: JoinCause) -> Result<String, Memory>
    ensures { IfOk result (λ l. string_bytes l ≡ join_cause_line cause) }
{
    match cause {
        JoinCause::NoKey { .. } => Ok(format!(in alloc; "friend refused: J1 NoKey\n")?),
        JoinCause::NameTaken { .. } => Ok(format!(in alloc; "friend refused: J2 NameTaken\n")?),
        JoinCause::TooManyColumns { .. } => {
            Ok(format!(in alloc; "friend refused: J3 TooManyColumns\n")?)
        }
        JoinCause::Duplicate { entry } => {
            Ok(format!(in alloc; "friend refused at entry {entry}: J4 Duplicate\n")?)
        }
        JoinCause::TooLarge { .. } => Ok(format!(in alloc; "friend refused: J5 TooLarge\n")?),
    }
}

/// The line of a refusal.
pub fn refusal_line(alloc: Global, refusal: &Refusal) -> Result<Text, Memory>
    ensures { IfOk result (λ text. text ≡ refusal_text refusal.now) }
{
    match refusal {
        Refusal::Words => text_of(
            alloc,
            b"usage: rdf SCRIPT TABLE [--slots N] [--cluster N] [--watch K] [--make] [--friend FILE] [--key NAME] [--missing N]\n",
        ),
        Refusal::Read { name } => named(alloc, b"read failed: ", name),
        Refusal::NoFile { name } => named(alloc, b"no file ", name),
        Refusal::ScriptLong => text_of(alloc, b"script refused: longer than 65536 bytes\n"),
        Refusal::Script(cause) => text_of(alloc, script_cause_line(alloc, *cause)?.as_bytes()),
        Refusal::Graph { line, cause } => {
            text_of(alloc, graph_cause_line(alloc, *line, *cause)?.as_bytes())
        }
        Refusal::TableLong => text_of(alloc, b"table refused: longer than 67108864 bytes\n"),
        Refusal::Table(cause) => refused(alloc, b"table", *cause),
        Refusal::FriendLong => text_of(alloc, b"friend refused: longer than 67108864 bytes\n"),
        Refusal::Friend(cause) => refused(alloc, b"friend", *cause),
        Refusal::Join(cause) => text_of(alloc, join_cause_line(alloc, *cause)?.as_bytes()),
    }
}
