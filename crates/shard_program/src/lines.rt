// The lines that are this program's own.
ghost use Rattle.std.specs.Prelude.{◌≡◌, IfOk};
ghost use Rattle.shard_due.specs.{differs_line, file_refused_line, long_files_line, span_line, uncovered_line, usage_line};

use rdf_values::{Memory, Text};
use result_text::numbers::put_count;
use std::alloc::Global;

// A whole line.
fn whole(alloc: Global, bytes: &[u8]) -> Result<Text, Memory>
    ensures { IfOk result (λ text. text ≡ bytes.now) }
{
    let mut text = Text::new(alloc);
    text.extend(bytes)?;
    Ok(text)
}

/// How the command is called.
pub(crate) fn usage_line(alloc: Global) -> Result<Text, Memory>
    ensures { IfOk result (λ text. text ≡ usage_line) }
{
    whole(
        alloc,
        b"usage: rdf_shard run SCRIPT TABLE SIZE LO HI | merge SCRIPT FILE\n",
    )
}

/// The span isn't one of the table's clusters.
pub(crate) fn span_line(alloc: Global) -> Result<Text, Memory>
    ensures { IfOk result (λ text. text ≡ span_line) }
{
    whole(alloc, b"span refused\n")
}

/// The files that are merged, or the one that is written, have too many bytes.
pub(crate) fn long_files_line(alloc: Global) -> Result<Text, Memory>
    ensures { IfOk result (λ text. text ≡ long_files_line) }
{
    whole(alloc, b"files longer than 134217728 bytes\n")
}

/// The file isn't the text of a shard, from a line on.
pub(crate) fn file_refused_line(alloc: Global, name: &[u8], number: u32) -> Result<Text, Memory>
    ensures { IfOk result (λ text. text ≡ file_refused_line name.now number) }
{
    let mut text = whole(alloc, b"file ")?;
    text.extend(name)?;
    text.extend(b" refused at line ")?;
    put_count(alloc, &mut text, number as u64)?;
    text.push(b'\n')?;
    Ok(text)
}

/// The file is of another table than the first one, or of another script.
pub(crate) fn differs_line(alloc: Global, name: &[u8]) -> Result<Text, Memory>
    ensures { IfOk result (λ text. text ≡ differs_line name.now) }
{
    let mut text = whole(alloc, b"file ")?;
    text.extend(name)?;
    text.extend(b" differs\n")?;
    Ok(text)
}

/// The cluster isn't in just one of the spans.
pub(crate) fn uncovered_line(alloc: Global, cluster: u32) -> Result<Text, Memory>
    ensures { IfOk result (λ text. text ≡ uncovered_line cluster) }
{
    let mut text = whole(alloc, b"cluster ")?;
    put_count(alloc, &mut text, cluster as u64)?;
    text.extend(b" isn't covered once\n")?;
    Ok(text)
}
