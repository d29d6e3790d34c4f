// The friend of a table, and what is due to a script over both.
ghost use Rattle.std.specs.Prelude.{◌≡◌, ◌≤◌, ◌<◌, ◌++◌, ◌∷◌, [], All, IfOk, Some, length};
ghost use Rattle.entry_fns.specs.{functions_in};
ghost use Rattle.input_files.specs.{marked_table};
ghost use Rattle.rdf_values.specs.{history, IsBookable, StatementsHaveWords};
ghost use Rattle.rdf_program.specs.{AreSettings, IsAnswer, IsDueOver, ReadsFriendFile, ReadsFriendText, WithFriend};

use crate::answer::{Answer, Read};
use crate::means::Means;
use crate::over_table::answer_script;
use crate::status::Status;
use command_words::Friend;
use friend_join::{JoinRefusal, join};
use input_files::{Fetched, MAX_TABLE, absent, fetch, unread};
use rdf_outside::{Gate, Shelf};
use rdf_values::{Memory, Script};
use result_text::Refusal;
use std::thread::Threads;
use table_csv::{MarkedPieces, TableRefusal, read_table_in_slots};

// The table that the friend's bytes spell.
fn friend_of<R: Threads + Sync, G>(
    means: &Means<'_, R, G>,
    bytes: &[u8],
) -> Result<Read<MarkedPieces>, Memory>
    requires few { length bytes.now ≤ 67108864 }
    ensures { IfOk result (ReadsFriendText bytes.now) }
{
    let alloc = means.alloc;
    match read_table_in_slots(means.rt, alloc, bytes, means.settings.slots) {
        Ok(marked) => Ok(Read::Whole(marked)),
        Err(TableRefusal::Memory) => Err(Memory),
        Err(TableRefusal::At(cause)) => {
            let answer = Answer::refused(alloc, Status::FriendRefused, &Refusal::Friend(cause))?;
            Ok(Read::Refused(answer))
        }
    }
}

// Reads the friend's file, whose bytes go before it is joined.
fn read_friend<R: Threads + Sync, S: Shelf, G>(
    means: &Means<'_, R, G>,
    shelf: &mut S,
    name: &str,
) -> Result<Read<MarkedPieces>, Memory>
    ensures turns { S.turns shelf.new ≡ S.turns shelf.old ++ name.now ∷ [] }
    ensures read { IfOk result (ReadsFriendFile (S.files shelf.old) name.now (S.faults shelf.old) (S.faults shelf.new)) }
{
    let alloc = means.alloc;
    match fetch(alloc, shelf, name, MAX_TABLE)? {
        Fetched::Whole(bytes) => friend_of(means, bytes.as_slice()),
        Fetched::Absent => Ok(Read::Refused(Answer::of_file(absent(alloc, name)?))),
        Fetched::TooLong => {
            let answer = Answer::refused(alloc, Status::FriendRefused, &Refusal::FriendLong)?;
            Ok(Read::Refused(answer))
        }
        Fetched::Failed => Ok(Read::Refused(Answer::of_file(unread(alloc, name)?))),
    }
}

/// The answer to a script over a table that a friend joins. The friend's marks aren't used.
pub(crate) fn answer_with_friend<R: Threads + Sync, S: Shelf, G: Gate>(
    means: &Means<'_, R, G>,
    shelf: &mut S,
    script: Script,
    marked: MarkedPieces,
    friend: &Friend,
) -> Result<Answer, Memory>
    requires bookable { IsBookable script }
    requires words { StatementsHaveWords (history script) }
    requires within { All (λ e. e < length marked.table.rows) marked.marks }
    requires settings { AreSettings means.now.settings }
    ensures turns { S.turns shelf.new ≡ S.turns shelf.old ++ friend.now.file ∷ [] }
    ensures answer { IfOk result (IsAnswer (λ files d. WithFriend (Some friend.now) files (marked_table marked) (λ table e. IsDueOver (functions_in means.now.functions.now) means.now.settings.cluster means.now.settings.watch script table e) d)
        (λ unread. unread ≡ friend.now.file) (S.files shelf.old) (S.faults shelf.old) (S.faults shelf.new)) }
{
    let other = match read_friend(means, shelf, friend.file.as_str())? {
        Read::Whole(other) => other,
        Read::Refused(answer) => return Ok(answer),
    };
    let alloc = means.alloc;
    match join(
        alloc,
        marked.table,
        other.table,
        &friend.key,
        friend.missing,
    ) {
        Ok(table) => {
            let marks = marked.marks;
            let (size, slots) = (means.settings.cluster, means.settings.slots);
            let columns = MarkedPieces { table, marks }.into_columns(means.rt, alloc, size, slots)?;
            answer_script(means, script, columns)
        }
        Err(JoinRefusal::Memory) => Err(Memory),
        Err(JoinRefusal::At(cause)) => {
            Answer::refused(alloc, Status::FriendRefused, &Refusal::Join(cause))
        }
    }
}
