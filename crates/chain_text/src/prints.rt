// The Prints of a script, in order, over the loops of a part.
ghost use Rattle.std.specs.Prelude.{◌≡◌, ◌<◌, ◌++◌, List, IfOk, OnOk, Ok, Some, false, if◌then◌else◌, length, slice_get, true};
ghost use Rattle.graph_numbers.specs.{booked_statements, graph_loops, graph_prints, Pass};
ghost use Rattle.rdf_model.specs.{Access, accesses, in_front_of, Printed};
ghost use Rattle.result_text.specs.{passes_at};
ghost use Rattle.chain_text.specs.{access_printed, chain_fault_line, chain_text, FitGraph};

use chain_files::{ChainFault, PartLoop};
use graph::Graph;
use merged_text::{MergedText, put_result};
use rdf_values::{Fault, Memory, Text};
use result_text::fault_line;
use result_text::numbers::put_count;
use std::alloc::Global;

// How long `fault` is.
const FIRST_WORD: usize = 5;

// Appends the line of a fault: the line of a fault in one table, with the file behind its first word.
fn put_fault(
    alloc: Global,
    text: &mut Text,
    graph: &Graph,
    l: u32,
    fault: &ChainFault,
) -> Result<(), Memory>
    requires its_loop { l < length (graph_loops graph.now) }
    requires its_pass { (ps : List Pass) → slice_get (graph_loops graph.now) l ≡ Some ps → fault.now.pass < length ps }
    ensures { OnOk result (text.new ≡ text.old ++ chain_fault_line (passes_at graph.now l) fault.now) }
{
    let in_table = Fault {
        entry: fault.entry,
        pass: fault.pass,
        kind: fault.kind,
    };
    let line = fault_line(alloc, graph, l, &in_table)?;
    text.extend(b"fault in file ")?;
    put_count(alloc, text, u64::from(fault.file))?;
    text.extend(&line.as_bytes()[FIRST_WORD..])
}

// Appends what a Print gives: the lines of its result, or the line of the fault of its loop. Answers whether others follow.
fn put_print(
    alloc: Global,
    text: &mut Text,
    graph: &Graph,
    loops: &[PartLoop],
    print: u32,
) -> Result<bool, Memory>
    requires fit { FitGraph graph.now loops.now }
    requires print { print < length (graph_prints graph.now) }
    ensures more { result ≡ Ok true → (a : Access) (rest : Printed) → slice_get (accesses (booked_statements graph.now)) print ≡ Some a
        → in_front_of text.old (access_printed graph.now loops.now a rest) ≡ in_front_of text.new rest }
    ensures end { result ≡ Ok false → (a : Access) (rest : Printed) → slice_get (accesses (booked_statements graph.now)) print ≡ Some a
        → in_front_of text.old (access_printed graph.now loops.now a rest) ≡ record { bytes = text.new; status = 8 } }
{
    let l = graph.filling(print);
    if l as usize >= loops.len() {
        return Ok(true);
    }
    match &loops[l as usize] {
        PartLoop::Whole(lines) => {
            let name = graph.result_name(graph.print_result(print));
            put_result(alloc, text, graph, l, name, lines.as_slice())?;
            Ok(true)
        }
        PartLoop::Faulted(fault) => {
            put_fault(alloc, text, graph, l, fault)?;
            Ok(false)
        }
    }
}

/// What the Prints give over the loops of a part, up to the first one whose loop is faulty.
pub fn chain_text(alloc: Global, graph: &Graph, loops: &[PartLoop]) -> Result<MergedText, Memory>
    requires { FitGraph graph.now loops.now }
    ensures bytes { IfOk result (λ m. m.text ≡ (chain_text graph.now loops.now).bytes) }
    ensures status { IfOk result (λ m. (if m.faulted then 8 else 0) ≡ (chain_text graph.now loops.now).status) }
{
    let mut text = Text::new(alloc);
    for print in 0..graph.prints() {
        if !put_print(alloc, &mut text, graph, loops, print)? {
            return Ok(MergedText {
                text,
                faulted: true,
            });
        }
    }
    Ok(MergedText {
        text,
        faulted: false,
    })
}
