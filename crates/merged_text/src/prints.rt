// The Prints of a script, in order, over merged loops.
ghost use Rattle.std.specs.Prelude.{◌≡◌, ◌<◌, IfOk, Ok, Some, false, if◌then◌else◌, length, slice_get, true};
ghost use Rattle.graph_numbers.specs.{booked_statements, graph_prints};
ghost use Rattle.rdf_model.specs.{Access, accesses, in_front_of, Printed};
ghost use Rattle.merged_text.specs.{access_printed, FitGraph, merged_text};

use crate::told::put_result;
use graph::Graph;
use rdf_values::{Memory, Text};
use result_text::fault_line;
use shard_files::ShardLoop;
use std::alloc::Global;

/// What merged loops print, and whether one of them is faulty.
#[derive(Drop)]
pub struct MergedText {
    pub text: Text,
    pub faulted: bool,
}

// Appends what a Print gives: the lines of its result, or the line of the fault of its loop. Answers whether others follow.
fn put_print(
    alloc: Global,
    text: &mut Text,
    graph: &Graph,
    loops: &[ShardLoop],
    print: u32,
) -> Result<bool, Memory>
    requires fit { FitGraph graph.now loops.now }
    requires print { print < length (graph_prints graph.now) }
    ensures more { result ≡ Ok true → (a : Access) (rest : Printed) → slice_get (accesses (booked_statements graph.now)) print ≡ Some a
        → in_front_of text.old (access_printed graph.now loops.now a rest) ≡ in_front_of text.new rest }
    ensures end { result ≡ Ok false → (a : Access) (rest : Printed) → slice_get (accesses (booked_statements graph.now)) print ≡ Some a
        → in_front_of text.old (access_printed graph.now loops.now a rest) ≡ record { bytes = text.new; status = 8 } }
{
    let l = graph.filling(print);
    if l as usize >= loops.len() {
        return Ok(true);
    }
    match &loops[l as usize] {
        ShardLoop::Whole(lines) => {
            let name = graph.result_name(graph.print_result(print));
            put_result(alloc, text, graph, l, name, lines.as_slice())?;
            Ok(true)
        }
        ShardLoop::Faulted(fault) => {
            let line = fault_line(alloc, graph, l, fault)?;
            text.extend(line.as_bytes())?;
            Ok(false)
        }
    }
}

/// What the Prints give over the loops of merged shards, up to the first one whose loop is faulty.
pub fn merged_text(alloc: Global, graph: &Graph, loops: &[ShardLoop]) -> Result<MergedText, Memory>
    requires { FitGraph graph.now loops.now }
    ensures bytes { IfOk result (λ m. m.text ≡ (merged_text graph.now loops.now).bytes) }
    ensures status { IfOk result (λ m. (if m.faulted then 8 else 0) ≡ (merged_text graph.now loops.now).status) }
{
    let mut text = Text::new(alloc);
    for print in 0..graph.prints() {
        if !put_print(alloc, &mut text, graph, loops, print)? {
            return Ok(MergedText {
                text,
                faulted: true,
            });
        }
    }
    Ok(MergedText {
        text,
        faulted: false,
    })
}
