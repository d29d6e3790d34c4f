// Part files.
ghost use Rattle.std.specs.Prelude.{◌≡◌, ◌≤◌, ◌++◌, ◌∷◌, [], IfOk, OnOk};
ghost use Rattle.chain_program.specs.{AreTurned, IsPartFile, ReadsParts, ReadsThePart};

use crate::answer::{Answer, Read};
use crate::lines::{long_files, refused_file};
use chain_files::{Part, PartRefusal, read_part};
use command_words::FileName;
use input_files::{Fetched, absent, fetch, unread};
use rdf_outside::Shelf;
use rdf_values::{ListOf, Memory};
use std::alloc::Global;

/// The most bytes of all parts together.
const MAX_PARTS: usize = 1_073_741_824;

/// A part with the size of its file.
#[derive(Drop)]
pub(crate) struct PartFile {
    pub(crate) part: Part,
    pub(crate) size: usize,
}

// Reads the part of the file of that name, behind so many bytes of other parts.
fn read_part_file<S: Shelf>(
    alloc: Global,
    shelf: &mut S,
    name: &str,
    before: usize,
) -> Result<Read<PartFile>, Memory>
    requires few { before ≤ 1073741824 }
    ensures same { S.files shelf.new ≡ S.files shelf.old }
    ensures turns { S.turns shelf.new ≡ S.turns shelf.old ++ name.now ∷ [] }
    ensures later { S.faults shelf.old ≤ S.faults shelf.new }
    ensures read { IfOk result (ReadsThePart (S.files shelf.old) name.now before (S.turns shelf.new) (S.faults shelf.old) (S.faults shelf.new)) }
{
    let bytes = match fetch(alloc, shelf, name, MAX_PARTS - before)? {
        Fetched::Whole(bytes) => bytes,
        Fetched::Absent => return Ok(Read::Refused(Answer::of(absent(alloc, name)?))),
        Fetched::TooLong => return Ok(Read::Refused(long_files(alloc)?)),
        Fetched::Failed => return Ok(Read::Refused(Answer::of(unread(alloc, name)?))),
    };
    match read_part(alloc, bytes.as_slice()) {
        Ok(part) => {
            let size = bytes.len();
            Ok(Read::Whole(PartFile { part, size }))
        }
        Err(PartRefusal::Syntax { line }) => Ok(Read::Refused(refused_file(alloc, name, line)?)),
        Err(PartRefusal::Memory) => Err(Memory),
    }
}

/// Reads the parts of the files of these names, in order.
pub(crate) fn read_parts<S: Shelf>(
    alloc: Global,
    shelf: &mut S,
    names: &[FileName],
) -> Result<Read<ListOf<Part>>, Memory>
    ensures same { S.files shelf.new ≡ S.files shelf.old }
    ensures turns { OnOk result (AreTurned (IsPartFile (S.files shelf.old)) names.now (S.turns shelf.old) (S.turns shelf.new)) }
    ensures later { S.faults shelf.old ≤ S.faults shelf.new }
    ensures read { IfOk result (ReadsParts (S.files shelf.old) names.now (S.turns shelf.new) (S.faults shelf.old) (S.faults shelf.new)) }
{
    let mut parts = ListOf::new(alloc);
    let mut size = 0;
    for i in 0..names.len() {
        match read_part_file(alloc, shelf, names[i].as_str(), size)? {
            Read::Whole(one) => {
                size += one.size;
                parts.push(one.part)?;
            }
            Read::Refused(answer) => return Ok(Read::Refused(answer)),
        }
    }
    Ok(Read::Whole(parts))
}
