// The joining of parts.
ghost use Rattle.std.specs.Prelude.{◌≡◌, ◌≤◌, ◌<◌, IfOk, OnOk, length};
ghost use Rattle.entry_fns.specs.{functions_in};
ghost use Rattle.rdf_values.specs.{IsBookable};
ghost use Rattle.chain_due.specs.{IsJoinDue};
ghost use Rattle.chain_files.specs.{in_order};
ghost use Rattle.chain_program.specs.{AreJoinable, AreTurned, IsAnswer, IsJoinedBy, IsPartFile};
ghost use Rattle.chain_program.specs.Answers.{Answers};

use crate::answer::{Answer, Read};
use crate::fitting::{Fitting, fit_script};
use crate::lines::{bounded, uncovered};
use crate::parts::read_parts;
use crate::scripts::ScriptText;
use chain_due::ChainStatus;
use chain_files::{Part, accepted_can_join, first_uncovered, in_order, join_all, print_part};
use chain_words::Joining;
use entry_fns::FnList;
use rdf_outside::Shelf;
use rdf_values::{ListOf, Memory};
use std::alloc::Global;

// The answer to parts of a script.
fn join_fitting(alloc: Global, fitting: &Fitting, parts: ListOf<Part>) -> Result<Answer, Memory>
    requires { AreJoinable fitting.now parts }
    ensures { IfOk result (Answers (IsJoinedBy fitting.now.shapes (in_order parts))) }
{
    let sorted = in_order(alloc, parts)?;
    if let Some(file) = first_uncovered(sorted.as_slice()) {
        return uncovered(alloc, file);
    }
    accepted_can_join();
    let mut others = sorted.into_vec();
    let first = others.remove(0);
    let shapes = fitting.shapes.as_slice();
    let all = join_all(alloc, shapes, first, ListOf::from_vec(others))?;
    let text = print_part(alloc, &all)?;
    bounded(alloc, ChainStatus::Done, text)
}

/// The answer to a joining: one part of the files of all parts.
pub(crate) fn join_files<S: Shelf>(
    alloc: Global,
    shelf: &mut S,
    text: ScriptText,
    joining: &Joining,
    functions: &FnList,
) -> Result<Answer, Memory>
    requires bookable { IsBookable text.script }
    requires some { 0 < length joining.now.parts }
    ensures same { S.files shelf.new ≡ S.files shelf.old }
    ensures turns { OnOk result (AreTurned (IsPartFile (S.files shelf.old)) joining.now.parts (S.turns shelf.old) (S.turns shelf.new)) }
    ensures later { S.faults shelf.old ≤ S.faults shelf.new }
    ensures answer { IfOk result (IsAnswer (IsJoinDue (functions_in functions.now) text.bytes text.script joining.now.parts) (S.files shelf.old) (S.turns shelf.new) (S.faults shelf.old) (S.faults shelf.new)) }
{
    let names = joining.parts.as_slice();
    let parts = match read_parts(alloc, shelf, names)? {
        Read::Whole(parts) => parts,
        Read::Refused(answer) => return Ok(answer),
    };
    match fit_script(alloc, text, names, parts.as_slice(), functions)? {
        Read::Whole(fitting) => join_fitting(alloc, &fitting, parts),
        Read::Refused(answer) => Ok(answer),
    }
}
