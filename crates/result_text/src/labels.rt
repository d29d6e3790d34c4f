// The labels of passes, and the line of a fault.
ghost use Rattle.std.specs.Prelude.{◌≡◌, ◌<◌, ◌++◌, List, IfOk, OnOk, Some, length, slice_get};
ghost use Rattle.std.specs.Option.{ForSome};
ghost use Rattle.graph_numbers.specs.{graph_loops, Pass};
ghost use Rattle.rdf_model.specs.{fault_line, fault_name, label};
ghost use Rattle.result_text.specs.{passes_at, under_in};

use crate::numbers::put_count;
use graph::{Graph, Variations};
use rdf_values::{EntryFault, Fault, Memory, Name, Text};
use std::alloc::Global;

/// Appends the name of a result, and behind it the variation in brackets, by its number.
pub fn put_label(
    text: &mut Text,
    name: &Name,
    variations: &Variations,
    variation: Option<u32>,
) -> Result<(), Memory>
    requires { ForSome variation (λ v. v < length variations.now) }
    ensures { OnOk result (text.new ≡ text.old ++ label name.now (under_in variations.now variation)) }
{
    text.extend(name.bytes())?;
    let Some(v) = variation else {
        return Ok(());
    };
    text.push(b'[')?;
    text.extend(variations.name(v).bytes())?;
    text.push(b':')?;
    text.extend(variations.tag(v).bytes())?;
    text.push(b']')
}

fn fault_name(kind: EntryFault) -> &'static str
    ensures { result.now ≡ fault_name kind }
{
    match kind {
        EntryFault::Overflow => "F1 Overflow",
        EntryFault::ZeroDivisor => "F2 ZeroDivisor",
        EntryFault::Index => "F3 Index",
        EntryFault::EmptyVector => "F4 EmptyVector",
        EntryFault::Lengths => "F5 Lengths",
        EntryFault::VaryCount => "F6 VaryCount",
        EntryFault::Weight => "F7 Weight",
        EntryFault::Function => "F8 Function",
    }
}

/// The line of a fault in a loop of the graph.
#[tactic(auto, using(crate::proofs::PassLines::pass_there, crate::proofs::Within::is_in_for, crate::proofs::Within::variation_within, crate::proofs::PassLines::fault_put, crate::proofs::PassLines::label_is, crate::proofs::PassLines::is_pass_at))]
pub fn fault_line(
    alloc: Global,
    graph: &Graph,
    loop_index: u32,
    fault: &Fault,
) -> Result<Text, Memory>
    requires its_loop { loop_index < length (graph_loops graph.now) }
    requires its_pass { (ps : List Pass) → slice_get (graph_loops graph.now) loop_index ≡ Some ps → fault.now.pass < length ps }
    ensures { IfOk result (λ text. text ≡ fault_line (passes_at graph.now loop_index) fault.now) }
{
    let pass = graph.passes(loop_index)[fault.pass as usize];
    let name = graph.result_name(pass.result);
    let mut text = Text::new(alloc);
    text.extend(b"fault at entry ")?;
    put_count(alloc, &mut text, u64::from(fault.entry))?;
    text.extend(b" in ")?;
    put_label(&mut text, name, graph.variations(), pass.variation)?;
    text.extend(b": ")?;
    text.extend(fault_name(fault.kind).as_bytes())?;
    text.push(b'\n')?;
    Ok(text)
}
