// The lines that are this program's own, with their statuses.
ghost use Rattle.std.specs.Prelude.{◌≡◌, ◌⊎◌, ◌++◌, IfOk, decimal, if◌then◌else◌};
ghost use Rattle.rdf_values.specs.{graph_cause_line, line, long_script_line, long_table_line};
ghost use Rattle.chain_due.specs.{differs_line, file_refused_line, IsText, long_files_line, printed_status, table_line, uncovered_line, usage_line};
ghost use Rattle.input_files.specs.{due_of};

use crate::answer::Answer;
use chain_due::ChainStatus;
use rdf_values::{GraphCause, Memory, Text};
use result_text::numbers::put_count;
use result_text::{Refusal, refusal_line};
use std::alloc::Global;

/// The most bytes of a text that is written.
const MAX_PART: usize = 134_217_728;

// How long `table` is.
const FIRST_WORD: usize = 5;

// Three pieces as one line.
fn line_of(alloc: Global, head: &[u8], middle: &[u8], tail: &[u8]) -> Result<Text, Memory>
    ensures { IfOk result (λ text. text ≡ line (head.now ++ middle.now ++ tail.now)) }
{
    let mut text = Text::new(alloc);
    text.extend(head)?;
    text.extend(middle)?;
    text.extend(tail)?;
    text.push(b'\n')?;
    Ok(text)
}

// A text with a number behind it.
fn numbered(alloc: Global, head: &[u8], number: u32) -> Result<Text, Memory>
    ensures { IfOk result (λ text. text ≡ head.now ++ decimal number) }
{
    let mut text = Text::new(alloc);
    text.extend(head)?;
    put_count(alloc, &mut text, u64::from(number))?;
    Ok(text)
}

// A text as a line.
fn whole_line(alloc: Global, bytes: &[u8]) -> Result<Text, Memory>
    ensures { IfOk result (λ text. text ≡ line bytes.now) }
{
    let mut text = Text::new(alloc);
    text.extend(bytes)?;
    text.push(b'\n')?;
    Ok(text)
}

/// The words aren't taken.
pub(crate) fn untaken(alloc: Global) -> Result<Answer, Memory>
    ensures { IfOk result (λ a. (a.status ≡ ChainStatus.Words) × (a.text ≡ usage_line)) }
{
    let text = whole_line(
        alloc,
        b"usage: rdf_chain run SCRIPT TABLE.. [--slots N] [--cluster N] | map SCRIPT NUMBER TABLE [--slots N] [--cluster N] | join SCRIPT PART.. | print SCRIPT COUNT PART",
    )?;
    Ok(Answer::new(ChainStatus::Words, text))
}

/// The script has too many bytes.
pub(crate) fn long_script(alloc: Global) -> Result<Answer, Memory>
    ensures { IfOk result (λ a. (a.status ≡ ChainStatus.ScriptRefused) × (a.text ≡ long_script_line)) }
{
    let text = refusal_line(alloc, &Refusal::ScriptLong)?;
    Ok(Answer::new(ChainStatus::ScriptRefused, text))
}

/// A line of the script is refused over the columns.
pub(crate) fn refused_script(alloc: Global, line: u32, cause: GraphCause) -> Result<Answer, Memory>
    ensures { IfOk result (λ a. (a.status ≡ ChainStatus.ScriptRefused) × (a.text ≡ graph_cause_line line cause)) }
{
    let text = refusal_line(alloc, &Refusal::Graph { line, cause })?;
    Ok(Answer::new(ChainStatus::ScriptRefused, text))
}

/// A table is refused with that line, which doesn't name it.
pub(crate) fn refused_table(alloc: Global, name: &str, line: &[u8]) -> Result<Answer, Memory>
    ensures { IfOk result (λ a. (a.status ≡ ChainStatus.TableRefused) × (a.text ≡ table_line name.now line.now)) }
{
    let mut text = Text::new(alloc);
    text.extend(b"table ")?;
    text.extend(name.as_bytes())?;
    if line.len() > FIRST_WORD {
        text.extend(&line[FIRST_WORD..])?;
    }
    Ok(Answer::new(ChainStatus::TableRefused, text))
}

/// A table has too many bytes.
pub(crate) fn long_table(alloc: Global, name: &str) -> Result<Answer, Memory>
    ensures { IfOk result (λ a. (a.status ≡ ChainStatus.TableRefused) × (a.text ≡ table_line name.now long_table_line)) }
{
    let line = refusal_line(alloc, &Refusal::TableLong)?;
    refused_table(alloc, name, line.as_bytes())
}

/// The file isn't like the first one, or not of the script.
pub(crate) fn differs(alloc: Global, name: &str) -> Result<Answer, Memory>
    ensures { IfOk result (λ a. (a.status ≡ ChainStatus.FilesDiffer) × (a.text ≡ differs_line name.now)) }
{
    let text = line_of(alloc, b"file ", name.as_bytes(), b" differs")?;
    Ok(Answer::new(ChainStatus::FilesDiffer, text))
}

/// A line of the file is none of a part.
pub(crate) fn refused_file(alloc: Global, name: &str, number: u32) -> Result<Answer, Memory>
    ensures { IfOk result (λ a. (a.status ≡ ChainStatus.FileRefused) × (a.text ≡ file_refused_line name.now number)) }
{
    let tail = numbered(alloc, b" refused at line ", number)?;
    let text = line_of(alloc, b"file ", name.as_bytes(), tail.as_bytes())?;
    Ok(Answer::new(ChainStatus::FileRefused, text))
}

/// A file of the chain isn't in just one part.
pub(crate) fn uncovered(alloc: Global, file: u32) -> Result<Answer, Memory>
    ensures { IfOk result (λ a. (a.status ≡ ChainStatus.NotCovered) × (a.text ≡ uncovered_line file)) }
{
    let mut number = Text::new(alloc);
    put_count(alloc, &mut number, u64::from(file))?;
    let text = line_of(alloc, b"file ", number.as_bytes(), b" isn't covered once")?;
    Ok(Answer::new(ChainStatus::NotCovered, text))
}

/// The parts have too many bytes together.
pub(crate) fn long_files(alloc: Global) -> Result<Answer, Memory>
    ensures { IfOk result (λ a. (a.status ≡ ChainStatus.TooLong) × (a.text ≡ long_files_line)) }
{
    let text = whole_line(alloc, b"files longer than 1073741824 bytes")?;
    Ok(Answer::new(ChainStatus::TooLong, text))
}

/// The text with its status, unless it is too long.
pub(crate) fn bounded(alloc: Global, status: ChainStatus, text: Text) -> Result<Answer, Memory>
    ensures { IfOk result (λ a. IsText status text (due_of a.status a.text) × ((a.status ≡ status) ⊎ (a.status ≡ ChainStatus.TooLong))) }
{
    if text.as_bytes().len() <= MAX_PART {
        return Ok(Answer::new(status, text));
    }
    let line = whole_line(alloc, b"part longer than 134217728 bytes")?;
    Ok(Answer::new(ChainStatus::TooLong, line))
}

/// The status of what was printed.
pub(crate) fn printed_status(faulted: bool) -> ChainStatus
    ensures { result ≡ printed_status (if faulted then 8 else 0) }
{
    if faulted {
        ChainStatus::LoopFault
    } else {
        ChainStatus::Done
    }
}
