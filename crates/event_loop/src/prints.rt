// The Prints of a script, in order.
ghost use Rattle.std.specs.Prelude.{◌≡◌, ◌<◌, ◌≤◌, ◌++◌, IfOk, None, Ok, OnOk, Some, false, length, slice_get, true};
ghost use Rattle.entry_fns.specs.{functions_in};
ghost use Rattle.rdf_values.specs.{fn_names, history, StatementsHaveWords};
ghost use Rattle.rdf_model.specs.{accesses, Course, result_lines};
ghost use Rattle.graph_numbers.specs.{graph_results, ResultAt};
ghost use Rattle.event_loop.specs.{dataset_of, EndsAt, FitsCourse, GoesOn, HasSameParts, IsFilledIn, IsSession, IsTranscript, session_of};

use crate::session::{BookedGraph, LoopRefusal, Session};
use rdf_outside::Gate;
use rdf_values::{Memory, Text};
use result_text::{fault_line, partial_lines, result_lines};
use std::alloc::Global;
use std::thread::Threads;

/// The lines of the Prints up to the first loop that faults, with its fault line; and whether one did.
#[derive(Drop)]
pub struct Transcript {
    pub text: Text,
    pub faulted: bool,
}

// Appends the lines of a result that a completed loop fills: its partial lines where it is watched, and then those of its passes.
fn put_result(
    alloc: Global,
    text: &mut Text,
    session: &Session<'_>,
    r: u32,
    loop_index: u32,
) -> Result<(), Memory>
    requires session { IsSession (session_of session.now) }
    requires result { r < length (graph_results (session_of session.now).graph) }
    requires filled { (x : ResultAt) → slice_get (graph_results (session_of session.now).graph) r ≡ Some x → IsFilledIn (session_of session.now) x.booked.name loop_index }
    ensures { (x : ResultAt) (course : Course) → slice_get (graph_results (session_of session.now).graph) r ≡ Some x → FitsCourse (session_of session.now) course
        → OnOk result (text.new ≡ text.old ++ result_lines (history (session_of session.now).graph.script) (session_of session.now).dataset course x.booked) }
{
    let (filled, partials) = session.filled(r, loop_index);
    let front = partial_lines(alloc, session.graph(), r, &partials)?;
    text.extend(front.as_bytes())?;
    let lines = result_lines(alloc, session.graph(), r, &filled)?;
    text.extend(lines.as_bytes())
}

// Appends what a Print gives: the lines of its result, or the line of the fault of its loop. Answers whether the run goes on.
fn put_print<R: Threads + Sync, G: Gate>(
    rt: &R,
    alloc: Global,
    session: &mut Session<'_>,
    text: &mut Text,
    print: u32,
    gate: &G,
) -> Result<bool, Memory>
    requires print { (print ≡ (session_of session.old).next) × (print < length (accesses (history (session_of session.old).graph.script))) }
    requires session { IsSession (session_of session.old) }
    requires sound { (session_of session.old).fault ≡ None }
    ensures session { IsSession (session_of session.new) }
    ensures parts { HasSameParts (session_of session.old) (session_of session.new) }
    ensures more { result ≡ Ok true → GoesOn (session_of session.old) (session_of session.new) text.old text.new print }
    ensures end { result ≡ Ok false → EndsAt (session_of session.old) text.old text.new print }
{
    match session.access(rt, alloc, print, gate) {
        Ok(loop_index) => {
            let graph = session.graph();
            let r = graph.print_result(print);
            put_result(alloc, text, session, r, loop_index)?;
            Ok(true)
        }
        Err(LoopRefusal::Fault(kept)) => {
            let line = fault_line(alloc, session.graph(), kept.loop_index, &kept.fault)?;
            text.extend(line.as_bytes())?;
            Ok(false)
        }
        Err(LoopRefusal::Memory) => Err(Memory),
    }
}

/// Runs the Prints of a booked graph in order. Loops share their clusters out to so many slots.
/// Watched results are noted after every `watch`-th cluster.
pub fn run_prints<R: Threads + Sync, G: Gate>(
    rt: &R,
    alloc: Global,
    booked: BookedGraph<'_>,
    slots: u32,
    watch: u32,
    gate: &G,
) -> Result<Transcript, Memory>
    requires graph { (booked.graph.header ≡ booked.columns.table.columns) × (booked.graph.names ≡ fn_names (functions_in booked.functions.now)) }
    requires words { StatementsHaveWords (history booked.graph.script) }
    requires slots { (0 < slots) × (slots ≤ 16) }
    requires watch { 0 < watch }
    ensures { IfOk result (λ t. IsTranscript booked.entry.graph.script (dataset_of booked.entry.columns (functions_in booked.entry.functions.now)) booked.entry.columns.cuts watch t) }
{
    let mut session = Session::new(alloc, booked, slots, watch);
    let mut text = Text::new(alloc);
    let prints = session.graph().prints();
    for print in 0..prints {
        if !put_print(rt, alloc, &mut session, &mut text, print, gate)? {
            return Ok(Transcript {
                text,
                faulted: true,
            });
        }
    }
    Ok(Transcript {
        text,
        faulted: false,
    })
}
