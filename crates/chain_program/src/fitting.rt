// Parts of a script.
ghost use Rattle.std.specs.Prelude.{◌≡◌, ◌<◌, IfOk, IfSome, length, not, position};
ghost use Rattle.entry_fns.specs.{functions_in};
ghost use Rattle.rdf_values.specs.{IsBookable};
ghost use Rattle.std.specs.List.{AllByRecursion};
ghost use Rattle.chain_files.specs.{first_misshapen, is_of, IsPart};
ghost use Rattle.chain_program.specs.{FitsScript};

use crate::answer::Read;
use crate::lines::{differs, refused_script};
use crate::scripts::ScriptText;
use chain_files::{Part, are_loops, script_digest};
use command_words::FileName;
use entry_fns::FnList;
use graph::{Graph, GraphRefusal};
use graph_shapes::graph_shapes;
use rdf_values::{Column, ListOf, Memory};
use shard_files::same_columns;
use shard_lines::PassShape;
use std::alloc::Global;

/// The graph of a script over the columns of parts, and the shapes of its passes.
#[derive(Drop)]
pub(crate) struct Fitting {
    pub(crate) graph: Graph,
    pub(crate) shapes: ListOf<ListOf<PassShape>>,
}

fn is_of(script: &[u8], columns: &[Column], part: &Part) -> bool
    ensures { result ≡ is_of script.now columns.now part.now }
{
    part.script() == script && same_columns(part.columns(), columns)
}

// The place of the first part that is of another script, or has other columns.
fn first_other(script: &[u8], columns: &[Column], parts: &[Part]) -> Option<usize>
    ensures value { result ≡ position (λ t. not (is_of script.now columns.now t)) parts.now }
    ensures within { IfSome result (λ place. place < length parts.now) }
{
    parts.iter().position(|part| !is_of(script, columns, part))
}

// The place of the first part without the loops of the script.
fn first_misshapen(loops: &[ListOf<PassShape>], parts: &[Part]) -> Option<usize>
    ensures value { result ≡ first_misshapen loops.now parts.now }
    ensures within { IfSome result (λ place. place < length parts.now) }
{
    parts
        .iter()
        .position(|part| !are_loops(loops, part.loops()))
}

/// The graph of the script over the parts' columns, where all parts are of it.
pub(crate) fn fit_script(
    alloc: Global,
    text: ScriptText,
    names: &[FileName],
    parts: &[Part],
    functions: &FnList,
) -> Result<Read<Fitting>, Memory>
    requires bookable { IsBookable text.script }
    requires some { 0 < length parts.now }
    requires each { length parts.now ≡ length names.now }
    requires valid { AllByRecursion IsPart parts.now }
    ensures { IfOk result (FitsScript (functions_in functions.now) text.bytes text.script names.now parts.now) }
{
    let digest = script_digest(alloc, text.bytes.as_slice())?;
    let columns = parts[0].columns();
    if let Some(place) = first_other(digest.as_bytes(), columns, parts) {
        return Ok(Read::Refused(differs(alloc, names[place].as_str())?));
    }
    match Graph::book(alloc, text.script, columns, functions.names()) {
        Ok(graph) => {
            let shapes = graph_shapes(alloc, &graph)?;
            match first_misshapen(shapes.as_slice(), parts) {
                Some(place) => Ok(Read::Refused(differs(alloc, names[place].as_str())?)),
                None => Ok(Read::Whole(Fitting { graph, shapes })),
            }
        }
        Err(GraphRefusal::Memory) => Err(Memory),
        Err(GraphRefusal::At { line, cause }) => {
            Ok(Read::Refused(refused_script(alloc, line, cause)?))
        }
    }
}
