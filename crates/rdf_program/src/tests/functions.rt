// Functions that the caller hands in.
ghost use Rattle.std.specs.Prelude.{◌≡◌, length};
ghost use Rattle.entry_fns.specs.{square_of};

use super::*;
use entry_fns::shipped::Square;
use entry_fns::{Closure, StoredFn};
use rdf_values::Name;
use std::sync::Arc;
use std::sync::atomic::{AtomicU64, Ordering};

// Adds the function under that name.
pub(super) fn add(
    alloc: Global,
    functions: &mut FnList,
    name: &[u8],
    function: StoredFn,
) -> Result<(), Fail> {
    let name = Name::read(alloc, name)?.ok_or("no name")?;
    match functions.add(name, function) {
        Ok(()) => Ok(()),
        Err(_) => Err(Fail::from("not added")),
    }
}

const NUMBERS: &str = "x:int,w:int\n1,10\n2,20\n3,30\n-1,40\n";

const SHARED: &str =
    "d = df.Define(\"z\", \"square(w)\")\ns = d.Sum(\"z\")\nt = d.Sum(\"z\")\nm = d.Max(\"z\")\nf = d.Filter(\"z > 1\")\nn = f.Count()\nPrint(s)\nPrint(t)\nPrint(m)\nPrint(n)\n";

// Each expression calls the function once, before all else that it reads.
const VARIED: &str =
    "v = df.Vary(\"x\", \"{square(1) + x, square(1) + x + x}\", [\"down\", \"up\"])\nf = v.Filter(\"square(1) + x > 0\")\nd = f.Define(\"y\", \"square(1) + w\")\ne = d.Define(\"z\", \"square(1) + x * y\")\ns = e.Sum(\"z\")\nt = e.Max(\"z\")\nVariationsFor(s)\nPrint(s)\n";

// Only the column on which the variations don't act calls it.
const UNVARIED: &str =
    "v = df.Vary(\"x\", \"{1 + x, 1 + x + x}\", [\"down\", \"up\"])\nf = v.Filter(\"1 + x > 0\")\nd = f.Define(\"y\", \"square(1) + w\")\ne = d.Define(\"z\", \"1 + x * y\")\ns = e.Sum(\"z\")\nVariationsFor(s)\nPrint(s)\n";

const UNDER_VARIATIONS: &str = "s = 149\ns[x:down] = 213\ns[x:up] = 358\n";

// How often passes that share columns call the function: each pair of a site and a variation that an entry demands is evaluated,
// and none more than twice. In `VARIED` an entry demands 2 values of the Vary, the filter 3 times, y once and z 3 times; the last
// entry passes under one variation alone.
#[test]
fn counted_closure(rt: HostRuntime) -> Result<(), Fail> {
    let alloc = rt.alloc();
    let calls = Arc::new(alloc, AtomicU64::new(0))?;
    let counter = calls.clone()?;
    let mut functions = FnList::new(alloc);
    let square: Closure = Box::new(
        alloc,
        move |args: &[i64]| -> Option<i64>
            requires { length args.now ≡ 1 }
            ensures { result ≡ square_of args.now }
        {
            counter.fetch_add(1, Ordering::SeqCst);
            Square::answer(args)
        },
    )?;
    add(
        alloc,
        &mut functions,
        b"square",
        StoredFn::new::<Square>(square),
    )?;
    for (script, table, output, demanded, most) in [
        (SHARED, TABLE, "s = 15\nt = 15\nm = 9\nn = 2\n", 4, 4),
        (VARIED, NUMBERS, UNDER_VARIATIONS, 34, 68),
        (UNVARIED, NUMBERS, UNDER_VARIATIONS, 4, 8),
    ] {
        let case = Case {
            script,
            table,
            options: &["--slots", "1"],
        };
        let before = calls.load(Ordering::SeqCst);
        let (status, sink) = run(&rt, alloc, &case, &functions, &OpenGate)?;
        let called = calls.load(Ordering::SeqCst).wrapping_sub(before);
        assert!(rt; status == Status::Done);
        assert_eq!(rt; sink.bytes(), output.as_bytes());
        assert!(rt; demanded <= called && called <= most, "{called} calls");
    }
    Ok(())
}
