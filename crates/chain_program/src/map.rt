// A run over one table of a chain.
ghost use Rattle.std.specs.Prelude.{◌≡◌, ◌≤◌, ◌<◌, ◌∷◌, [], IfOk, OnOk};
ghost use Rattle.entry_fns.specs.{functions_in};
ghost use Rattle.rdf_values.specs.{history, IsBookable, StatementsHaveWords};
ghost use Rattle.chain_due.specs.{IsMapDue};
ghost use Rattle.chain_program.specs.{AreTurned, IsAnswer, IsTableFile};
ghost use Rattle.chain_words.specs.{AreSettings};

use crate::answer::{Answer, Read};
use crate::first_table::first_table;
use crate::lines::bounded;
use crate::means::Means;
use crate::scripts::ScriptText;
use chain_due::ChainStatus;
use chain_files::{Part, PartFields, print_part, script_digest};
use chain_words::Mapping;
use rdf_outside::{Gate, Shelf};
use rdf_values::Memory;
use std::thread::Threads;

/// The answer to a run over the table that is that file of a chain: a part.
pub(crate) fn map_table<R: Threads + Sync, S: Shelf, G: Gate>(
    means: &Means<'_, R, G>,
    shelf: &mut S,
    text: ScriptText,
    mapping: &Mapping,
) -> Result<Answer, Memory>
    requires bookable { IsBookable text.script }
    requires words { StatementsHaveWords (history text.script) }
    requires number { mapping.now.number < 16777216 }
    requires settings { AreSettings mapping.now.settings }
    ensures same { S.files shelf.new ≡ S.files shelf.old }
    ensures turns { OnOk result (AreTurned (IsTableFile (S.files shelf.old)) (mapping.now.table ∷ []) (S.turns shelf.old) (S.turns shelf.new)) }
    ensures later { S.faults shelf.old ≤ S.faults shelf.new }
    ensures answer { IfOk result (IsAnswer (IsMapDue (functions_in means.now.functions.now) text.bytes text.script mapping.now.number mapping.now.table) (S.files shelf.old) (S.turns shelf.new) (S.faults shelf.old) (S.faults shelf.new)) }
{
    let name = mapping.table.as_str();
    let file = mapping.number;
    let first = match first_table(means, shelf, text.script, name, file, mapping.settings)? {
        Read::Whole(first) => first,
        Read::Refused(answer) => return Ok(answer),
    };
    means.functions.answers_have_64_bits();
    let part = Part::new(PartFields {
        first_file: file,
        end_file: file + 1,
        entries: u64::from(first.entries),
        script: script_digest(means.alloc, text.bytes.as_slice())?,
        columns: first.columns,
        loops: first.loops,
    });
    let printed = print_part(means.alloc, &part)?;
    bounded(means.alloc, ChainStatus::Done, printed)
}
