// The text of a part.
ghost use Rattle.std.specs.Prelude.{◌≡◌, ◌++◌, IfOk, OnOk, flat_map, map};
ghost use Rattle.chain_files.specs.{line_text, lines_text, loop_lines, part_text};

use crate::chain_fault::ChainFault;
use crate::part::Part;
use crate::part_line::PartLine;
use crate::part_loop::PartLoop;
use rdf_values::{Column, Memory, Text};
use shard_files::{fault_number, kind_word, put_word};
use shard_lines::{ShardLine, put_count, put_line};
use std::alloc::Global;

// The line of a fault.
fn put_fault(alloc: Global, text: &mut Text, fault: ChainFault) -> Result<(), Memory>
    ensures { OnOk result (text.new ≡ text.old ++ line_text (PartLine.Fault fault)) }
{
    text.extend(b"fault")?;
    put_count(alloc, text, fault.file as u64)?;
    put_count(alloc, text, fault.entry as u64)?;
    put_count(alloc, text, fault.pass as u64)?;
    put_count(alloc, text, fault_number(fault.kind))?;
    text.push(b'\n')
}

// The line of what a pass came to.
fn put_pass(alloc: Global, text: &mut Text, pass: &ShardLine) -> Result<(), Memory>
    ensures { OnOk result (text.new ≡ text.old ++ line_text (PartLine.Pass pass.now)) }
{
    put_line(alloc, text, pass)?;
    text.push(b'\n')
}

// The lines of passes.
fn put_passes(alloc: Global, text: &mut Text, lines: &[ShardLine]) -> Result<(), Memory>
    ensures { OnOk result (text.new ≡ text.old ++ lines_text (map PartLine.Pass lines.now)) }
{
    for line in lines {
        put_pass(alloc, text, line)?;
    }
    Ok(())
}

// The lines of a loop.
fn put_loop(alloc: Global, text: &mut Text, one: &PartLoop) -> Result<(), Memory>
    ensures { OnOk result (text.new ≡ text.old ++ lines_text (loop_lines one.now)) }
{
    text.extend(b"loop\n")?;
    match one {
        PartLoop::Whole(lines) => put_passes(alloc, text, lines.as_slice()),
        PartLoop::Faulted(fault) => put_fault(alloc, text, *fault),
    }
}

// The lines of loops.
fn put_loops(alloc: Global, text: &mut Text, loops: &[PartLoop]) -> Result<(), Memory>
    ensures { OnOk result (text.new ≡ text.old ++ lines_text (flat_map loop_lines loops.now)) }
{
    for one in loops {
        put_loop(alloc, text, one)?;
    }
    Ok(())
}

// The line of a column.
fn put_column(text: &mut Text, column: &Column) -> Result<(), Memory>
    ensures { OnOk result (text.new ≡ text.old ++ line_text (PartLine.Column column.now)) }
{
    text.extend(b"column")?;
    put_word(text, column.name.bytes())?;
    put_word(text, kind_word(column.kind).as_bytes())?;
    text.push(b'\n')
}

// The lines of columns.
fn put_columns(text: &mut Text, columns: &[Column]) -> Result<(), Memory>
    ensures { OnOk result (text.new ≡ text.old ++ lines_text (map PartLine.Column columns.now)) }
{
    for column in columns {
        put_column(text, column)?;
    }
    Ok(())
}

// The line of the files.
fn put_files(alloc: Global, text: &mut Text, first: u32, end: u32) -> Result<(), Memory>
    ensures { OnOk result (text.new ≡ text.old ++ line_text (PartLine.Files first end)) }
{
    text.extend(b"files")?;
    put_count(alloc, text, first as u64)?;
    put_count(alloc, text, end as u64)?;
    text.push(b'\n')
}

// The line of the number of entries.
fn put_entries(alloc: Global, text: &mut Text, entries: u64) -> Result<(), Memory>
    ensures { OnOk result (text.new ≡ text.old ++ line_text (PartLine.Entries entries)) }
{
    text.extend(b"entries")?;
    put_count(alloc, text, entries)?;
    text.push(b'\n')
}

// The line of the script's digest.
fn put_script(text: &mut Text, script: &[u8]) -> Result<(), Memory>
    ensures { OnOk result (text.new ≡ text.old ++ line_text (PartLine.Script script.now)) }
{
    text.extend(b"script")?;
    put_word(text, script)?;
    text.push(b'\n')
}

/// The text of a part.
pub fn print_part(alloc: Global, part: &Part) -> Result<Text, Memory>
    ensures { IfOk result (λ text. text ≡ part_text part.now) }
{
    let mut text = Text::new(alloc);
    text.extend(b"rdfpart 1\n")?;
    put_files(alloc, &mut text, part.first_file(), part.end_file())?;
    put_entries(alloc, &mut text, part.entries())?;
    put_script(&mut text, part.script())?;
    put_columns(&mut text, part.columns())?;
    put_loops(alloc, &mut text, part.loops())?;
    text.extend(b"end\n")?;
    Ok(text)
}
