// The script of a command.
ghost use Rattle.std.specs.Prelude.{◌≡◌, ◌≤◌, ◌++◌, ◌∷◌, [], IfOk};
ghost use Rattle.chain_program.specs.{ReadsText};

use crate::answer::{Answer, Read};
use crate::lines::long_script;
use input_files::{Fetched, MAX_SCRIPT, ReadFile, absent, fetch, script_of, unread};
use rdf_outside::Shelf;
use rdf_values::{Bytes, Memory, Script};
use std::alloc::Global;

/// A script with its bytes.
#[derive(Drop)]
pub(crate) struct ScriptText {
    pub(crate) bytes: Bytes,
    pub(crate) script: Script,
}

/// Reads the script of the file of that name.
pub(crate) fn read_script<S: Shelf>(
    alloc: Global,
    shelf: &mut S,
    name: &str,
) -> Result<Read<ScriptText>, Memory>
    ensures same { S.files shelf.new ≡ S.files shelf.old }
    ensures turns { S.turns shelf.new ≡ S.turns shelf.old ++ name.now ∷ [] }
    ensures later { S.faults shelf.old ≤ S.faults shelf.new }
    ensures read { IfOk result (ReadsText (S.files shelf.old) name.now (S.turns shelf.new) (S.faults shelf.old) (S.faults shelf.new)) }
{
    let bytes = match fetch(alloc, shelf, name, MAX_SCRIPT)? {
        Fetched::Whole(bytes) => bytes,
        Fetched::Absent => return Ok(Read::Refused(Answer::of(absent(alloc, name)?))),
        Fetched::TooLong => return Ok(Read::Refused(long_script(alloc)?)),
        Fetched::Failed => return Ok(Read::Refused(Answer::of(unread(alloc, name)?))),
    };
    match script_of(alloc, bytes.as_slice())? {
        ReadFile::Whole(script) => Ok(Read::Whole(ScriptText { bytes, script })),
        ReadFile::Refused(refusal) => Ok(Read::Refused(Answer::of(refusal))),
    }
}
