// Whole runs over files in memory: what no case of `cases/` can show.
ghost use Rattle.std.specs.Prelude.{◌≡◌, IfOk};
ghost use Rattle.rdf_outside.specs.{shelf_made};

use super::*;
use entry_fns::FnList;
use rdf_outside::{Gate, Host, MemoryShelf, MemorySink, OpenGate, WordList};
use std::alloc::Global;
use std::test::Fail;
use std::thread::Threads;

mod faults;
mod functions;
mod side_by_side;

// 56 bytes.
const TABLE: &str = "pt:int,w:int,jets:vec\n10,1,3;4\n25,2,\n40,1,50\n5,-3,1;1;1\n";

const COUNT: &str = "n = df.Count()\nPrint(n)\n";

const TWO_FILES: &[&str] = &["s.txt", "a.csv"];

// The room of an output.
const ROOM: usize = 4_000;

// A script over a table, with the words after the names of the files.
#[derive(Clone, Copy)]
struct Case {
    script: &'static str,
    table: &'static str,
    options: &'static [&'static str],
}

fn words_of(alloc: Global, words: &[&str], options: &[&str]) -> Result<WordList, Fail> {
    let mut list = WordList::new(alloc);
    for word in words {
        list.push(word)?;
    }
    for word in options {
        list.push(word)?;
    }
    Ok(list)
}

fn shelf_of(alloc: Global, script: &[u8], table: &[u8]) -> Result<MemoryShelf, Fail>
    ensures { IfOk result (λ shelf. shelf_made shelf ≡ 0) }
{
    let mut shelf = MemoryShelf::new(alloc);
    shelf.add("s.txt", script)?;
    shelf.add("a.csv", table)?;
    Ok(shelf)
}

// The status of a run over two files in memory, and what it wrote.
fn run<R: Threads + Sync, G: Gate>(
    rt: &R,
    alloc: Global,
    case: &Case,
    functions: &FnList,
    gate: &G,
) -> Result<(Status, MemorySink), Fail> {
    let words = words_of(alloc, TWO_FILES, case.options)?;
    let mut shelf = shelf_of(alloc, case.script.as_bytes(), case.table.as_bytes())?;
    let mut sink = MemorySink::new(alloc, ROOM)?;
    let host = Host { rt, gate };
    let status = rdf_top(&host, alloc, &words, &mut shelf, &mut sink, functions);
    Ok((status, sink))
}
