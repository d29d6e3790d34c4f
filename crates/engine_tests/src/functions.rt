// Functions that a list refuses.
ghost use Rattle.std.specs.Prelude.{◌≡◌, None, length};
ghost use Rattle.entry_fns.specs.{square_of};

use entry_fns::shipped::Square;
use entry_fns::{Closure, FnCause, FnList, Rule, StoredFn};
use rdf_values::Name;
use std::test::Fail;

/// A rule of too many arguments.
struct Nine;

impl Rule for Nine {
    ghost ARITY = { 9 };

    const ARITY: u32 = 9;

    ghost answers = { λ _. None };
}

#[test]
fn nine_arguments_are_too_many(rt: HostRuntime) -> Result<(), Fail> {
    let alloc = rt.alloc();
    let nine: Closure = Box::new(
        alloc,
        |args: &[i64]| -> Option<i64>
            requires { length args.now ≡ 9 }
            ensures { result ≡ None }
        {
            let _ = args;
            None
        },
    )?;
    let name = Name::read(alloc, b"nine")?.ok_or("no name")?;
    match FnList::new(alloc).add(name, StoredFn::new::<Nine>(nine)) {
        Ok(()) => assert!(rt; false),
        Err(refusal) => assert_eq!(rt; refusal.cause, FnCause::Arity),
    }
    Ok(())
}

#[test]
fn taken_names_and_a_65th_function_are_refused(rt: HostRuntime) -> Result<(), Fail> {
    let alloc = rt.alloc();
    let mut functions = FnList::new(alloc);
    for i in 0..67_u8 {
        let numbered = [b'f', b'a' + i / 26, b'a' + i % 26];
        let (bytes, wanted) = match i {
            0 => (b"square".as_slice(), None),
            1 => (b"square".as_slice(), Some(FnCause::Taken)),
            2 => (b"Sum".as_slice(), Some(FnCause::Taken)),
            66 => (numbered.as_slice(), Some(FnCause::TooMany)),
            _ => (numbered.as_slice(), None),
        };
        let square: Closure = Box::new(
            alloc,
            |args: &[i64]| -> Option<i64>
                requires { length args.now ≡ 1 }
                ensures { result ≡ square_of args.now }
            { Square::answer(args) },
        )?;
        let name = Name::read(alloc, bytes)?.ok_or("no name")?;
        match functions.add(name, StoredFn::new::<Square>(square)) {
            Ok(()) => assert_eq!(rt; wanted, None, "at {i}"),
            Err(refusal) => assert_eq!(rt; Some(refusal.cause), wanted, "at {i}"),
        }
    }
    Ok(())
}
