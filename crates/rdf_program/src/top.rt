// The top call.
ghost use Rattle.std.specs.Prelude.{◌≡◌, ◌⊎◌, []};
ghost use Rattle.entry_fns.specs.{functions_in};
ghost use Rattle.result_text.specs.{usage_line};
ghost use Rattle.rdf_outside.specs.{Appends, Rose};
ghost use Rattle.input_files.specs.{WritesDue};
ghost use Rattle.rdf_program.specs.{AreTaken, IsDue, IsFinal, OfFiles, TurnsBesides, WritesPart, WritesReadFailed};

use crate::status::Status;
use crate::words::answer_words;
use entry_fns::FnList;
use rdf_outside::{Failed, Gate, Host, Shelf, Sink, WordList, write_whole};
use std::alloc::Global;
use std::thread::Threads;

/// Reads the script and the table that the words name, or makes them, runs the event loops and writes what is due.
/// Nothing is written before all is known. The gate is called before each cluster of a loop.
pub fn rdf_top<R: Threads + Sync, S: Shelf, K: Sink, G: Gate>(
    host: &Host<'_, R, G>,
    alloc: Global,
    words: &WordList,
    shelf: &mut S,
    sink: &mut K,
    functions: &FnList,
) -> Status
    // What is due to the words, the files and the functions is answered and written, and nothing else.
    ensures due { IsFinal result → OfFiles words.now (S.files shelf.old) (WritesDue (IsDue (functions_in functions.now) words.now) result (K.written sink.old) (K.written sink.new)) }

    // The usage line comes exactly where the words aren't taken.
    ensures words { result ≡ Status.Words → (AreTaken words.now → ⊥) × Appends (K.written sink.old) (K.written sink.new) usage_line }
    ensures not_taken { (AreTaken words.now → ⊥) → (result ≡ Status.Words) ⊎ (result ≡ Status.Memory) ⊎ (result ≡ Status.WriteFault) }

    // Each other answer has its cause.
    ensures memory { result ≡ Status.Memory → Appends (K.written sink.old) (K.written sink.new) [] }
    ensures read { result ≡ Status.ReadFault → Rose (S.faults shelf.old) (S.faults shelf.new) }
    ensures read_line { result ≡ Status.ReadFault → WritesReadFailed words.now (S.files shelf.old) (S.turns shelf.new) (K.written sink.old) (K.written sink.new) }
    ensures write { result ≡ Status.WriteFault → Rose (K.faults sink.old) (K.faults sink.new) }
    ensures part { result ≡ Status.WriteFault → WritesPart (functions_in functions.now) words.now (S.files shelf.old) (S.turns shelf.new) (S.faults shelf.old) (S.faults shelf.new) (K.written sink.old) (K.written sink.new) }

    // The script is turned to once, and the table at most once, after a script was read.
    ensures turns { result ≡ Status.Memory ⊎ TurnsBesides words.now (S.files shelf.old) (S.turns shelf.old) (S.turns shelf.new) }
{
    let Ok(answer) = answer_words(host, alloc, words, shelf, functions) else {
        return Status::Memory;
    };
    match write_whole(sink, answer.text.as_bytes()) {
        Ok(()) => answer.status,
        Err(Failed) => Status::WriteFault,
    }
}
