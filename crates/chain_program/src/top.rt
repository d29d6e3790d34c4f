// The top call.
ghost use Rattle.std.specs.Prelude.{◌≡◌, ◌⊎◌, [], IfSome, None};
ghost use Rattle.entry_fns.specs.{functions_in};
ghost use Rattle.rdf_outside.specs.{Appends, Rose};
ghost use Rattle.input_files.specs.{WritesDue, WritesPart, WritesReadFailed};
ghost use Rattle.chain_due.specs.{IsDue, IsFinal, usage_line};
ghost use Rattle.chain_words.specs.{asked_of};
ghost use Rattle.chain_program.specs.{TurnsBesides};

use crate::means::Means;
use crate::words::answer_words;
use chain_due::ChainStatus;
use entry_fns::FnList;
use rdf_outside::{Failed, Gate, Host, Shelf, Sink, WordList, write_whole};
use std::alloc::Global;
use std::thread::Threads;

/// Reads the script and the tables or parts that the words name, runs the event loops of a table after the other, joins what
/// they came to, and writes what is due. Nothing is written before all is known. The gate is called before each cluster.
pub fn chain_top<R: Threads + Sync, S: Shelf, K: Sink, G: Gate>(
    host: &Host<'_, R, G>,
    alloc: Global,
    words: &WordList,
    shelf: &mut S,
    sink: &mut K,
    functions: &FnList,
) -> ChainStatus
    // What is due to the words, the files and the functions is answered and written, and nothing else.
    ensures due { IsFinal result → IfSome (S.files shelf.old) (WritesDue (IsDue (functions_in functions.now) words.now) result (K.written sink.old) (K.written sink.new)) }

    // The usage line comes exactly where the words aren't taken.
    ensures words { result ≡ ChainStatus.Words → (asked_of words.now ≡ None) × Appends (K.written sink.old) (K.written sink.new) usage_line }
    ensures not_taken { asked_of words.now ≡ None → (result ≡ ChainStatus.Words) ⊎ (result ≡ ChainStatus.Memory) ⊎ (result ≡ ChainStatus.WriteFault) }

    // Each other answer has its cause. No table is read twice, so none is found changed.
    ensures memory { result ≡ ChainStatus.Memory → Appends (K.written sink.old) (K.written sink.new) [] }
    ensures read { result ≡ ChainStatus.ReadFault → Rose (S.faults shelf.old) (S.faults shelf.new) }
    ensures read_line { result ≡ ChainStatus.ReadFault → WritesReadFailed (S.turns shelf.new) (K.written sink.old) (K.written sink.new) }
    ensures changed { result ≡ ChainStatus.FileChanged → ⊥ }
    ensures write { result ≡ ChainStatus.WriteFault → Rose (K.faults sink.old) (K.faults sink.new) }
    ensures part { result ≡ ChainStatus.WriteFault → WritesPart (IsDue (functions_in functions.now) words.now) (S.files shelf.old) (S.turns shelf.new) (S.faults shelf.old) (S.faults shelf.new) (K.written sink.old) (K.written sink.new) }

    // The script is turned to first, then the other files in the order of the words, each once and after those before it were read.
    ensures turns { (result ≡ ChainStatus.Memory) ⊎ TurnsBesides words.now (S.files shelf.old) (S.turns shelf.old) (S.turns shelf.new) }
{
    let means = Means {
        rt: host.rt,
        alloc,
        functions,
        gate: host.gate,
    };
    let Ok(answer) = answer_words(&means, words, shelf) else {
        return ChainStatus::Memory;
    };
    match write_whole(sink, answer.text.as_bytes()) {
        Ok(()) => answer.status,
        Err(Failed) => ChainStatus::WriteFault,
    }
}
