// What an evaluation asks for: functions that the caller hands in, and columns that aren't known where it comes to them. Values and
// faults are told by the cases of expressions (`cases/expression_values.case`).
ghost use Rattle.std.specs.Prelude.{◌≡◌, length};
ghost use Rattle.entry_fns.specs.{hyp2_of, square_of};

use crate::answer::{scalar_answer, value_answer};
use crate::cells::{faulted, int, missing, truth, vect};
use entry_fns::shipped::{Hyp2, Square};
use entry_fns::{Closure, FnList, StoredFn};
use rdf_values::{ColType, EntryFault, Name};
use std::alloc::Global;
use std::sync::Arc;
use std::sync::atomic::{AtomicU64, Ordering};
use std::test::Fail;

// A text, what it comes to, and how often it calls functions: by `eval`, and by `eval_int` where no part is a vector.
const ROWS: [(&str, &str, u64); 29] = [
    ("square(w) + square(w)", "18", 2),
    ("square(square(w))", "81", 2),
    ("no && square(w) > 0", "false", 0),
    ("!no || square(w) > 0", "true", 0),
    ("no ? square(w) : 5", "5", 0),
    ("!no ? square(w) : square(2)", "9", 1),
    ("square(w) + 1 / 0", "ZeroDivisor", 1),
    ("1 / 0 + square(w)", "ZeroDivisor", 0),
    ("square(x)", "need x", 0),
    ("square(w) + x", "need x", 1),
    ("v * square(w)", "[9 18 27]", 1),
    ("hyp2(square(w), square(2))", "97", 3),
    ("hyp2(1 / 0, square(w))", "ZeroDivisor", 0),
    ("hyp2(square(w), 1 / 0)", "ZeroDivisor", 1),
    ("hyp2(x, square(w))", "need x", 0),
    ("(v / 0)[square(w)]", "ZeroDivisor", 0),
    ("v[square(w)]", "Index", 1),
    ("!no && x > 0", "need x", 0),
    ("no && x > 0", "false", 0),
    ("no || x > 0", "need x", 0),
    ("!no || x > 0", "true", 0),
    ("!no ? 7 : x", "7", 0),
    ("!no ? x : 7", "need x", 0),
    ("unknown ? 7 : x", "need unknown", 0),
    ("x + 1 / 0", "need x", 0),
    ("1 / 0 + x", "ZeroDivisor", 0),
    ("broken + 1 / 0", "Index", 0),
    ("v && gone", "need gone", 0),
    ("v || gone", "need gone", 0),
];

// Adds the function under that name.
fn add(alloc: Global, functions: &mut FnList, name: &[u8], function: StoredFn) -> Result<(), Fail> {
    let name = Name::read(alloc, name)?.ok_or("no name")?;
    match functions.add(name, function) {
        Ok(()) => Ok(()),
        Err(_) => Err(Fail::from("not added")),
    }
}

#[test]
fn what_is_met_is_called_once_or_needed(rt: HostRuntime) -> Result<(), Fail> {
    let alloc = rt.alloc();
    let calls = Arc::new(alloc, AtomicU64::new(0))?;
    let (counter, pairs) = (calls.clone()?, calls.clone()?);
    let mut functions = FnList::new(alloc);
    let square: Closure = Box::new(
        alloc,
        move |args: &[i64]| -> Option<i64>
            requires { length args.now ≡ 1 }
            ensures { result ≡ square_of args.now }
        {
            counter.fetch_add(1, Ordering::SeqCst);
            Square::answer(args)
        },
    )?;
    add(
        alloc,
        &mut functions,
        b"square",
        StoredFn::new::<Square>(square),
    )?;
    let hyp2: Closure = Box::new(
        alloc,
        move |args: &[i64]| -> Option<i64>
            requires { length args.now ≡ 2 }
            ensures { result ≡ hyp2_of args.now }
        {
            pairs.fetch_add(1, Ordering::SeqCst);
            Hyp2::answer(args)
        },
    )?;
    add(alloc, &mut functions, b"hyp2", StoredFn::new::<Hyp2>(hyp2))?;
    let cells = [
        int("w", 3),
        truth("no", false),
        vect("v", &[1, 2, 3]),
        missing("x", ColType::Int),
        missing("unknown", ColType::Bool),
        missing("gone", ColType::Vect),
        faulted("broken", ColType::Int, EntryFault::Index),
    ];
    for (text, want, times) in &ROWS {
        let before = calls.load(Ordering::SeqCst);
        let value = value_answer(alloc, text, &cells, &functions)?;
        let between = calls.load(Ordering::SeqCst);
        assert_eq!(rt; value.as_str(), *want, "of {text}");
        assert_eq!(rt; between.wrapping_sub(before), *times, "calls of {text}");
        if let Some(scalar) = scalar_answer(alloc, text, &cells, &functions)? {
            let after = calls.load(Ordering::SeqCst);
            assert_eq!(rt; scalar.as_str(), *want, "without vectors of {text}");
            assert_eq!(rt; after.wrapping_sub(between), *times, "calls of {text}");
        }
    }
    Ok(())
}
