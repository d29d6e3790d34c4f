// Scripts in files.
ghost use Rattle.std.specs.Prelude.{◌≡◌, ◌≤◌, ◌++◌, ◌∷◌, [], IfOk, length};
ghost use Rattle.input_files.specs.{ReadsScriptFile, ReadsScriptText};

use crate::refuse::{FileCause, ReadFile, absent, refused, unread};
use crate::whole_file::{Fetched, fetch};
use rdf_model::laws::{scripts_are_bookable, scripts_have_words};
use rdf_outside::Shelf;
use rdf_values::{Memory, Script};
use result_text::Refusal;
use script_read::{ScriptRefusal, read_script};
use std::alloc::Global;

/// The most bytes of a script.
pub const MAX_SCRIPT: usize = 65_536;

/// The script that a text of at most `MAX_SCRIPT` bytes is, or its refusal.
pub fn script_of(alloc: Global, bytes: &[u8]) -> Result<ReadFile<Script>, Memory>
    requires { length bytes.now ≤ 65536 }
    ensures { IfOk result (ReadsScriptText bytes.now) }
{
    match read_script(alloc, bytes) {
        Ok(script) => {
            scripts_have_words();
            scripts_are_bookable();
            Ok(ReadFile::Whole(script))
        }
        Err(ScriptRefusal::Memory) => Err(Memory),
        Err(ScriptRefusal::At(cause)) => {
            let refusal = refused(alloc, FileCause::ScriptRefused, &Refusal::Script(cause))?;
            Ok(ReadFile::Refused(refusal))
        }
    }
}

/// Reads the script of the file that a shelf has under a name.
pub fn read_script_file<S: Shelf>(
    alloc: Global,
    shelf: &mut S,
    name: &str,
) -> Result<ReadFile<Script>, Memory>
    ensures same { S.files shelf.new ≡ S.files shelf.old }
    ensures turns { S.turns shelf.new ≡ S.turns shelf.old ++ name.now ∷ [] }
    ensures later { S.faults shelf.old ≤ S.faults shelf.new }
    ensures read { IfOk result (ReadsScriptFile (S.files shelf.old) name.now (S.faults shelf.old) (S.faults shelf.new)) }
{
    match fetch(alloc, shelf, name, MAX_SCRIPT)? {
        Fetched::Whole(bytes) => script_of(alloc, bytes.as_slice()),
        Fetched::Absent => Ok(ReadFile::Refused(absent(alloc, name)?)),
        Fetched::TooLong => Ok(ReadFile::Refused(refused(
            alloc,
            FileCause::ScriptRefused,
            &Refusal::ScriptLong,
        )?)),
        Fetched::Failed => Ok(ReadFile::Refused(unread(alloc, name)?)),
    }
}
