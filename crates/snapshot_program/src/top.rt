// The top call.
ghost use Rattle.std.specs.Prelude.{◌≡◌, ◌⊎◌, [], None, IfSome};
ghost use Rattle.entry_fns.specs.{functions_in};
ghost use Rattle.rdf_outside.specs.{Appends, Rose};
ghost use Rattle.input_files.specs.{WritesDue, WritesPart, WritesReadFailed};
ghost use Rattle.snapshot_due.specs.{IsDue, IsFinal, usage_line};
ghost use Rattle.snapshot_words.specs.{asked_of};
ghost use Rattle.snapshot_program.specs.{TurnsBesides};

use crate::words::answer_words;
use entry_fns::FnList;
use rdf_outside::{Failed, Gate, Host, Shelf, Sink, WordList, write_whole};
use snapshot_due::SnapshotStatus;
use std::alloc::Global;
use std::thread::Threads;

/// Reads the script and the table that the words name and writes the snapshot that they ask for, or the line that is due in its
/// place. Nothing is written before all is known. The gate is called before each cluster.
pub fn snapshot_top<R: Threads + Sync, S: Shelf, K: Sink, G: Gate>(
    host: &Host<'_, R, G>,
    alloc: Global,
    words: &WordList,
    shelf: &mut S,
    sink: &mut K,
    functions: &FnList,
) -> SnapshotStatus
    // What is due to the words, the files and the functions is answered and written, and nothing else.
    ensures due { IsFinal result → IfSome (S.files shelf.old) (WritesDue (IsDue (functions_in functions.now) words.now) result (K.written sink.old) (K.written sink.new)) }

    // The usage line comes exactly where the words aren't taken.
    ensures words { result ≡ SnapshotStatus.Words → (asked_of words.now ≡ None) × Appends (K.written sink.old) (K.written sink.new) usage_line }
    ensures not_taken { asked_of words.now ≡ None → (result ≡ SnapshotStatus.Words) ⊎ (result ≡ SnapshotStatus.Memory) ⊎ (result ≡ SnapshotStatus.WriteFault) }

    // Each other answer has its cause.
    ensures memory { result ≡ SnapshotStatus.Memory → Appends (K.written sink.old) (K.written sink.new) [] }
    ensures read { result ≡ SnapshotStatus.ReadFault → Rose (S.faults shelf.old) (S.faults shelf.new) }
    ensures read_line { result ≡ SnapshotStatus.ReadFault → WritesReadFailed (S.turns shelf.new) (K.written sink.old) (K.written sink.new) }
    ensures write { result ≡ SnapshotStatus.WriteFault → Rose (K.faults sink.old) (K.faults sink.new) }
    ensures part { result ≡ SnapshotStatus.WriteFault → WritesPart (IsDue (functions_in functions.now) words.now) (S.files shelf.old) (S.turns shelf.new) (S.faults shelf.old) (S.faults shelf.new) (K.written sink.old) (K.written sink.new) }

    // Each file is turned to at most once, the script first, and the table only once a script was read.
    ensures turns { result ≡ SnapshotStatus.Memory ⊎ TurnsBesides words.now (S.files shelf.old) (S.turns shelf.old) (S.turns shelf.new) }
{
    let Ok(answer) = answer_words(host, alloc, words, shelf, functions) else {
        return SnapshotStatus::Memory;
    };
    match write_whole(sink, answer.text.as_bytes()) {
        Ok(()) => answer.status,
        Err(Failed) => SnapshotStatus::WriteFault,
    }
}
