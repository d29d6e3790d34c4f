// The top call.
ghost use Rattle.std.specs.Prelude.{◌≡◌, ◌⊎◌, [], IfSome, None};
ghost use Rattle.entry_fns.specs.{functions_in};
ghost use Rattle.input_files.specs.{WritesDue, WritesPart, WritesReadFailed};
ghost use Rattle.rdf_outside.specs.{Appends, Rose};
ghost use Rattle.shard_words.specs.{asked_of};
ghost use Rattle.shard_due.specs.{IsDue, IsFinal, usage_line};
ghost use Rattle.shard_program.specs.{AreTurns};

use crate::words::answer_words;
use entry_fns::FnList;
use rdf_outside::{Failed, Shelf, Sink, WordList, write_whole};
use shard_due::ShardStatus;
use std::alloc::Global;
use std::thread::Threads;

/// Runs the script that the words name over a span of the clusters of the table that they name, or merges the files of such runs,
/// and writes what is due. Nothing is written before all is known.
pub fn shard_top<R: Threads + Sync, S: Shelf, K: Sink>(
    rt: &R,
    alloc: Global,
    words: &WordList,
    shelf: &mut S,
    sink: &mut K,
    functions: &FnList,
) -> ShardStatus
    // What is due to the words, the files and the functions is answered and written, and nothing else.
    ensures due { IsFinal result → IfSome (S.files shelf.old) (WritesDue (IsDue (functions_in functions.now) words.now) result (K.written sink.old) (K.written sink.new)) }

    // The usage line comes exactly where the words aren't taken.
    ensures words { result ≡ ShardStatus.Words → (asked_of words.now ≡ None) × Appends (K.written sink.old) (K.written sink.new) usage_line }
    ensures not_taken { asked_of words.now ≡ None → (result ≡ ShardStatus.Words) ⊎ (result ≡ ShardStatus.Memory) ⊎ (result ≡ ShardStatus.WriteFault) }

    // Each other answer has its cause.
    ensures memory { result ≡ ShardStatus.Memory → Appends (K.written sink.old) (K.written sink.new) [] }
    ensures read { result ≡ ShardStatus.ReadFault → Rose (S.faults shelf.old) (S.faults shelf.new) }
    ensures read_line { result ≡ ShardStatus.ReadFault → WritesReadFailed (S.turns shelf.new) (K.written sink.old) (K.written sink.new) }
    ensures write { result ≡ ShardStatus.WriteFault → Rose (K.faults sink.old) (K.faults sink.new) }
    ensures part { result ≡ ShardStatus.WriteFault → WritesPart (IsDue (functions_in functions.now) words.now) (S.files shelf.old) (S.turns shelf.new) (S.faults shelf.old) (S.faults shelf.new) (K.written sink.old) (K.written sink.new) }

    // Each file is turned to once, in the order of the words, and only after what stands before it was read.
    ensures turns { result ≡ ShardStatus.Memory ⊎ AreTurns words.now (S.files shelf.old) (S.turns shelf.old) (S.turns shelf.new) }
{
    let Ok(answer) = answer_words(rt, alloc, words, shelf, functions) else {
        return ShardStatus::Memory;
    };
    match write_whole(sink, answer.text.as_bytes()) {
        Ok(()) => answer.status,
        Err(Failed) => ShardStatus::WriteFault,
    }
}
