// The printing of a part.
ghost use Rattle.std.specs.Prelude.{◌≡◌, ◌≤◌, ◌<◌, ◌∷◌, [], IfOk, OnOk};
ghost use Rattle.entry_fns.specs.{functions_in};
ghost use Rattle.rdf_values.specs.{IsBookable};
ghost use Rattle.chain_due.specs.{IsPrintDue};
ghost use Rattle.chain_program.specs.{AreTurned, CanPrint, IsAnswer, IsPartFile, IsPrintedBy};
ghost use Rattle.chain_program.specs.Answers.{Answers};

use crate::answer::{Answer, Read};
use crate::fitting::{Fitting, fit_script};
use crate::lines::{bounded, printed_status, uncovered};
use crate::parts::read_parts;
use crate::scripts::ScriptText;
use chain_files::{Part, first_other};
use chain_text::chain_text;
use chain_words::Printing;
use entry_fns::FnList;
use rdf_outside::Shelf;
use rdf_values::Memory;
use std::alloc::Global;
use std::slice;

// The answer to a part of a script.
fn print_fitting(
    alloc: Global,
    fitting: &Fitting,
    part: &Part,
    count: u32,
) -> Result<Answer, Memory>
    requires count { 0 < count }
    requires part { CanPrint fitting.now.graph part.now }
    ensures { IfOk result (Answers (IsPrintedBy fitting.now.graph count part.now)) }
{
    if let Some(file) = first_other(part, count) {
        return uncovered(alloc, file);
    }
    let printed = chain_text(alloc, &fitting.graph, part.loops())?;
    bounded(alloc, printed_status(printed.faulted), printed.text)
}

/// The answer to a printing: the transcript of the part of so many files.
pub(crate) fn print_file<S: Shelf>(
    alloc: Global,
    shelf: &mut S,
    text: ScriptText,
    printing: &Printing,
    functions: &FnList,
) -> Result<Answer, Memory>
    requires bookable { IsBookable text.script }
    requires count { 0 < printing.now.count }
    ensures same { S.files shelf.new ≡ S.files shelf.old }
    ensures turns { OnOk result (AreTurned (IsPartFile (S.files shelf.old)) (printing.now.part ∷ []) (S.turns shelf.old) (S.turns shelf.new)) }
    ensures later { S.faults shelf.old ≤ S.faults shelf.new }
    ensures answer { IfOk result (IsAnswer (IsPrintDue (functions_in functions.now) text.bytes text.script printing.now.count printing.now.part) (S.files shelf.old) (S.turns shelf.new) (S.faults shelf.old) (S.faults shelf.new)) }
{
    let names = slice::from_ref(&printing.part);
    let parts = match read_parts(alloc, shelf, names)? {
        Read::Whole(parts) => parts,
        Read::Refused(answer) => return Ok(answer),
    };
    match fit_script(alloc, text, names, parts.as_slice(), functions)? {
        Read::Whole(fitting) => print_fitting(alloc, &fitting, parts.at(0), printing.count),
        Read::Refused(answer) => Ok(answer),
    }
}
