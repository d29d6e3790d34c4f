// Slots that wait for one another.
ghost use Rattle.std.specs.Prelude.{◌≡◌, length, slice_get};
ghost use Rattle.entry_fns.specs.{square_of};

use super::*;
use crate::tests::functions::add;
use entry_fns::shipped::Square;
use entry_fns::{Closure, Rule, StoredFn};
use std::sync::Arc;
use std::sync::atomic::{AtomicBool, AtomicU64, Ordering};

// How often a hold looks again before it gives up: seconds, for a busy machine.
const TURNS: u32 = 1_000_000_000;

// How often it looks after the fault was met: some milliseconds.
const LATER_TURNS: u32 = 10_000_000;

// Whether the flag was set before it gave up.
fn was_set(flag: &AtomicBool) -> bool {
    for _ in 0..TURNS {
        if flag.load(Ordering::SeqCst) {
            return true;
        }
    }
    false
}

// A function that answers its argument.
struct ItsArgument;

impl Rule for ItsArgument {
    ghost ARITY = { 1 };

    const ARITY: u32 = 1;

    ghost answers = { λ args. slice_get args 0 };
}

// It holds the first call until a second one has begun.
#[derive(Drop)]
struct Meeting {
    first_came: AtomicBool,
    second_came: AtomicBool,
    released: AtomicBool,
}

impl Meeting {
    fn call(&self) {
        if self.first_came.swap(true, Ordering::SeqCst) {
            self.second_came.store(true, Ordering::SeqCst);
            return;
        }
        self.released
            .store(was_set(&self.second_came), Ordering::SeqCst);
    }
}

// Not only the gate's turns stand side by side, but also what comes of the entries.
#[test]
fn two_slots_evaluate_at_once(rt: HostRuntime) -> Result<(), Fail> {
    let alloc = rt.alloc();
    let meeting = Arc::new(
        alloc,
        Meeting {
            first_came: AtomicBool::new(false),
            second_came: AtomicBool::new(false),
            released: AtomicBool::new(false),
        },
    )?;
    let own = meeting.clone()?;
    let meet: Closure = Box::new(
        alloc,
        move |args: &[i64]| -> Option<i64>
            requires { length args.now ≡ 1 }
            ensures { result ≡ slice_get args.now 0 }
        {
            own.call();
            Some(args[0])
        },
    )?;
    let stored = StoredFn::new::<ItsArgument>(meet);
    let mut functions = FnList::new(alloc);
    add(alloc, &mut functions, b"meet", stored)?;
    let case = Case {
        script: "d = df.Define(\"z\", \"meet(w)\")\ns = d.Sum(\"z\")\nPrint(s)\n",
        table: TABLE,
        options: &["--slots", "2", "--cluster", "1"],
    };
    let (status, sink) = run(&rt, alloc, &case, &functions, &OpenGate)?;
    assert!(rt; status == Status::Done);
    assert_eq!(rt; sink.bytes(), b"s = 1\n".as_slice());
    assert!(rt; meeting.released.load(Ordering::SeqCst));
    Ok(())
}

// It holds the slot with cluster 0 until a slot comes with cluster 3.
#[derive(Drop)]
struct FirstClusterWaits {
    last_came: AtomicBool,
    released: AtomicBool,
}

impl Gate for FirstClusterWaits {
    fn turn(&self, _slot: u32, cluster: u32) {
        if cluster == 3 {
            self.last_came.store(true, Ordering::SeqCst);
        }
        if cluster == 0 {
            self.released
                .store(was_set(&self.last_came), Ordering::SeqCst);
        }
    }
}

#[test]
fn held_cluster_comes_late(rt: HostRuntime) -> Result<(), Fail> {
    let case = Case {
        script: "n = df.Count()\nWatch(n)\nPrint(n)\n",
        table: TABLE,
        options: &["--slots", "2", "--cluster", "1", "--watch", "1"],
    };
    let gate = FirstClusterWaits {
        last_came: AtomicBool::new(false),
        released: AtomicBool::new(false),
    };
    let functions = FnList::new(rt.alloc());
    let (status, sink) = run(&rt, rt.alloc(), &case, &functions, &gate)?;
    assert!(rt; status == Status::Done);
    assert!(rt;
        sink.bytes()
            .starts_with(b"partial n over 1 = 1\npartial n over 1-2 = 2\n")
    );
    assert!(rt; gate.released.load(Ordering::SeqCst));
    Ok(())
}

// It holds each turn with a cluster above 0 until the fault was met, and a little longer.
#[derive(Drop)]
struct FaultIsMet {
    met: Arc<AtomicBool>,
    turns: AtomicU64,
}

impl Gate for FaultIsMet {
    fn turn(&self, _slot: u32, cluster: u32) {
        self.turns.fetch_add(1, Ordering::SeqCst);
        if cluster == 0 {
            return;
        }
        was_set(&self.met);
        let mut met = 0_u64;
        for _ in 0..LATER_TURNS {
            if self.met.load(Ordering::SeqCst) {
                met = met.wrapping_add(1);
            }
        }
        self.turns.fetch_add(met / u64::MAX, Ordering::SeqCst);
    }
}

// The square of the first entry is no number of 64 bits.
const OVERFLOWING: i64 = 4_000_000_000;

const THIRTY_ENTRIES: &str =
    "x:int\n4000000000\n1\n1\n1\n1\n1\n1\n1\n1\n1\n1\n1\n1\n1\n1\n1\n1\n1\n1\n1\n1\n1\n1\n1\n1\n1\n1\n1\n1\n1\n";

#[test]
fn bar_is_lowered(rt: HostRuntime) -> Result<(), Fail> {
    let alloc = rt.alloc();
    let met = Arc::new(alloc, AtomicBool::new(false))?;
    let flag = met.clone()?;
    let square: Closure = Box::new(
        alloc,
        move |args: &[i64]| -> Option<i64>
            requires { length args.now ≡ 1 }
            ensures { result ≡ square_of args.now }
        {
            if args[0] == OVERFLOWING {
                flag.store(true, Ordering::SeqCst);
            }
            Square::answer(args)
        },
    )?;
    let mut functions = FnList::new(alloc);
    add(
        alloc,
        &mut functions,
        b"square",
        StoredFn::new::<Square>(square),
    )?;
    let gate = FaultIsMet {
        met,
        turns: AtomicU64::new(0),
    };
    let case = Case {
        script: "f = df.Filter(\"square(x) > 0\")\nn = f.Count()\nPrint(n)\n",
        table: THIRTY_ENTRIES,
        options: &["--slots", "2", "--cluster", "1"],
    };
    let (status, sink) = run(&rt, alloc, &case, &functions, &gate)?;
    assert!(rt; status == Status::LoopFault);
    assert_eq!(rt;
        sink.bytes(),
        b"fault at entry 0 in n: F8 Function\n".as_slice()
    );
    assert!(rt; gate.turns.load(Ordering::SeqCst) <= 10);
    Ok(())
}
