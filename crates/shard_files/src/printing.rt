// The text of a shard.
ghost use Rattle.std.specs.Prelude.{◌≡◌, ◌++◌, [], ◌∷◌, IfOk, OnOk, decimal, flat_map, map};
ghost use Rattle.rdf_values.specs.{line};
ghost use Rattle.shard_lines.specs.{joined_words, spaced};
ghost use Rattle.shard_files.specs.Shards.{
  fault_number,
  kind_word,
  line_text,
  lines_text,
  loop_lines,
  shard_text,
};

use crate::file_line::FileLine;
use crate::shard::Shard;
use crate::shard_loop::ShardLoop;
use rdf_values::{ColType, Column, EntryFault, Fault, Memory, Text};
use shard_lines::{ShardLine, put_count, put_line};
use std::alloc::Global;

/// The number of a fault, as in F1 to F8.
pub fn fault_number(kind: EntryFault) -> u64
    ensures { result ≡ fault_number kind }
{
    match kind {
        EntryFault::Overflow => 1,
        EntryFault::ZeroDivisor => 2,
        EntryFault::Index => 3,
        EntryFault::EmptyVector => 4,
        EntryFault::Lengths => 5,
        EntryFault::VaryCount => 6,
        EntryFault::Weight => 7,
        EntryFault::Function => 8,
    }
}

// The line of a fault.
fn put_fault(alloc: Global, text: &mut Text, fault: Fault) -> Result<(), Memory>
    ensures { OnOk result (text.new ≡ text.old ++ line_text (FileLine.Fault fault)) }
{
    text.extend(b"fault")?;
    put_count(alloc, text, fault.entry as u64)?;
    put_count(alloc, text, fault.pass as u64)?;
    put_count(alloc, text, fault_number(fault.kind))?;
    text.push(b'\n')
}

// The line of what a pass came to.
fn put_pass(alloc: Global, text: &mut Text, pass: &ShardLine) -> Result<(), Memory>
    ensures { OnOk result (text.new ≡ text.old ++ line_text (FileLine.Pass pass.now)) }
{
    put_line(alloc, text, pass)?;
    text.push(b'\n')
}

// The lines of passes.
fn put_passes(alloc: Global, text: &mut Text, lines: &[ShardLine]) -> Result<(), Memory>
    ensures { OnOk result (text.new ≡ text.old ++ lines_text (map FileLine.Pass lines.now)) }
{
    for line in lines {
        put_pass(alloc, text, line)?;
    }
    Ok(())
}

// The lines of a loop.
fn put_loop(alloc: Global, text: &mut Text, one: &ShardLoop) -> Result<(), Memory>
    ensures { OnOk result (text.new ≡ text.old ++ lines_text (loop_lines one.now)) }
{
    text.extend(b"loop\n")?;
    match one {
        ShardLoop::Whole(lines) => put_passes(alloc, text, lines.as_slice()),
        ShardLoop::Faulted(fault) => put_fault(alloc, text, *fault),
    }
}

// The lines of loops.
fn put_loops(alloc: Global, text: &mut Text, loops: &[ShardLoop]) -> Result<(), Memory>
    ensures { OnOk result (text.new ≡ text.old ++ lines_text (flat_map loop_lines loops.now)) }
{
    for one in loops {
        put_loop(alloc, text, one)?;
    }
    Ok(())
}

/// The type of a column, as a header writes it.
pub fn kind_word(kind: ColType) -> &'static str
    ensures { result.now ≡ kind_word kind }
{
    match kind {
        ColType::Int => "int",
        ColType::Bool => "bool",
        ColType::Vect => "vec",
    }
}

/// A space, and a word.
pub fn put_word(text: &mut Text, word: &[u8]) -> Result<(), Memory>
    ensures { OnOk result (text.new ≡ text.old ++ spaced (word.now ∷ [])) }
{
    text.push(b' ')?;
    text.extend(word)
}

// The line of a column.
fn put_column(text: &mut Text, column: &Column) -> Result<(), Memory>
    ensures { OnOk result (text.new ≡ text.old ++ line_text (FileLine.Column column.now)) }
{
    text.extend(b"column")?;
    put_word(text, column.name.bytes())?;
    put_word(text, kind_word(column.kind).as_bytes())?;
    text.push(b'\n')
}

// The lines of columns.
fn put_columns(text: &mut Text, columns: &[Column]) -> Result<(), Memory>
    ensures { OnOk result (text.new ≡ text.old ++ lines_text (map FileLine.Column columns.now)) }
{
    for column in columns {
        put_column(text, column)?;
    }
    Ok(())
}

// A line of a word and two numbers.
fn put_pair(
    alloc: Global,
    text: &mut Text,
    word: &[u8],
    first: u32,
    second: u32,
) -> Result<(), Memory>
    ensures { OnOk result (text.new ≡ text.old ++ line (joined_words (word.now ∷ decimal first ∷ decimal second ∷ []))) }
{
    text.extend(word)?;
    put_count(alloc, text, first as u64)?;
    put_count(alloc, text, second as u64)?;
    text.push(b'\n')
}

/// The text of a shard.
pub fn print_shard(alloc: Global, shard: &Shard) -> Result<Text, Memory>
    ensures { IfOk result (λ text. text ≡ shard_text shard.now) }
{
    let mut text = Text::new(alloc);
    text.extend(b"rdfshard 1\n")?;
    put_pair(
        alloc,
        &mut text,
        b"table",
        shard.entries(),
        shard.clusters(),
    )?;
    put_columns(&mut text, shard.columns())?;
    put_pair(alloc, &mut text, b"span", shard.lo(), shard.hi())?;
    put_loops(alloc, &mut text, shard.loops())?;
    text.extend(b"end\n")?;
    Ok(text)
}
