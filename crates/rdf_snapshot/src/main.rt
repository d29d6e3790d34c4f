//! The program of snapshots: the entries of a table that pass a script's filters, as a table to standard output.
#![tactic(auto)]

ghost use Rattle.std.specs.Prelude.{◌≡◌, length};
ghost use Rattle.entry_fns.specs.{clampto_of, hyp2_of, square_of};

use entry_fns::shipped::{Clampto, Hyp2, Square};
use entry_fns::{FnList, StoredFn};
use rdf_outside::{DirShelf, FileParts, Host, OpenGate, StdSink, WordList};
use rdf_values::{Memory, Name};
use snapshot_due::SnapshotStatus;
use snapshot_program::snapshot_top;
use std::process::ExitCode;
use std::rt::{Env, Files};
use std::thread::Threads;

// Runs the program on the command's words. The functions are made here, since a function can't hand out a boxed closure; their
// names are names of the language, each another, so nothing but memory can be wanting for them.
fn run<R: Threads + Sync + Files + Print + Env + AllocGlobal>(
    rt: &R,
) -> Result<SnapshotStatus, Memory>
where
    R::File: FileParts,
{
    let alloc = rt.alloc();
    let words = WordList::of_command(rt)?;
    let square = Box::new(
        alloc,
        |args: &[i64]| -> Option<i64>
            requires { length args.now ≡ 1 }
            ensures { result ≡ square_of args.now }
        { Square::answer(args) },
    )?;
    let hyp2 = Box::new(
        alloc,
        |args: &[i64]| -> Option<i64>
            requires { length args.now ≡ 2 }
            ensures { result ≡ hyp2_of args.now }
        { Hyp2::answer(args) },
    )?;
    let clampto = Box::new(
        alloc,
        |args: &[i64]| -> Option<i64>
            requires { length args.now ≡ 3 }
            ensures { result ≡ clampto_of args.now }
        { Clampto::answer(args) },
    )?;
    let mut functions = FnList::new(alloc);
    for (name, function) in [
        (b"square".as_slice(), StoredFn::new::<Square>(square)),
        (b"hyp2".as_slice(), StoredFn::new::<Hyp2>(hyp2)),
        (b"clampto".as_slice(), StoredFn::new::<Clampto>(clampto)),
    ] {
        let name = Name::read(alloc, name)?.ok_or(Memory)?;
        functions.add(name, function).map_err(|_| Memory)?;
    }
    let mut shelf = DirShelf::new(rt);
    let mut sink = StdSink::new(rt);
    let host = Host {
        rt,
        gate: &OpenGate,
    };
    Ok(snapshot_top(&host, alloc, &words, &mut shelf, &mut sink, &functions))
}

fn main(rt: HostRuntime) -> ExitCode {
    ExitCode::from(run(&rt).unwrap_or(SnapshotStatus::Memory).code())
}
