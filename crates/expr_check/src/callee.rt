// What a call calls, what that takes and what it gives.
ghost use Rattle.std.specs.Prelude.{◌≡◌, ◌<◌, ◌≤◌, length, replicate, slice_get, Ok, Err, MatchOption, IfSome, unwrap_or};
ghost use Rattle.rdf_values.specs.{built_in, callee, callee_in, shape, shape_of};
ghost use Rattle.rdf_values.specs.declared.scripts.script_cause.GraphCause.TheVariants.{UnknownFunction};
ghost use Rattle.expr_check.specs.{callee_shape, given_shape, IsCallable};
ghost use Rattle.rdf_values.specs.declared.tables.value.ColType.TheVariants as kind;

use rdf_values::{Callee, ColType, FnNames, Name};

const VECTOR: &[ColType] = &[ColType::Vect];

const PLACE: &[ColType] = &[ColType::Vect, ColType::Int];

const NUMBERS: &[ColType] = &[ColType::Int; 8];

/// The built-in function of that name.
fn built_in(name: &[u8]) -> Option<Callee>
    ensures named { (other : _) → unwrap_or result other ≡ callee_in built_in name.now other }
    ensures callable { IfSome result (λ f. (names : _) → IsCallable names f) }
{
    match name {
        b"Sum" => Some(Callee::Sum),
        b"Min" => Some(Callee::Min),
        b"Max" => Some(Callee::Max),
        b"Size" => Some(Callee::Size),
        b"Any" => Some(Callee::Any),
        b"All" => Some(Callee::All),
        b"At" => Some(Callee::At),
        b"abs" => Some(Callee::Abs),
        _ => None,
    }
}

/// What a call of that name calls.
pub(crate) fn find_callee(name: &Name, names: &FnNames) -> Option<Callee>
    ensures { MatchOption result (shape_of names.now name.now ≡ Err UnknownFunction)
        (λ f. (callee names.now name.now ≡ f) × IsCallable names.now f) }
{
    match built_in(name.bytes()) {
        Some(callee) => Some(callee),
        None => match names.find(name) {
            None => None,
            Some(i) => {
                prove!((i as usize) < names.len());
                Some(Callee::Given(i))
            }
        },
    }
}

/// How many numbers a function of the list takes.
fn arity(names: &FnNames, i: u32) -> usize
    requires { i < length names.now }
    ensures few { result ≤ 8 }
    ensures value { given_shape (slice_get names.now i) ≡ Ok (shape (replicate result kind.Int) kind.Int) }
{
    let i = i as usize;
    prove!(i < names.len());
    names.as_slice()[i].arity as usize
}

/// What a function takes, a kind for each argument, and what it gives.
pub(crate) fn signature_of(callee: Callee, names: &FnNames) -> (&'static [ColType], ColType)
    requires { IsCallable names.now callee }
    ensures { callee_shape names.now callee ≡ Ok (shape result.0.now result.1) }
{
    match callee {
        Callee::Sum | Callee::Min | Callee::Max | Callee::Size => (VECTOR, ColType::Int),
        Callee::Any | Callee::All => (VECTOR, ColType::Bool),
        Callee::At => (PLACE, ColType::Int),
        Callee::Abs => (&NUMBERS[..1], ColType::Int),
        Callee::Given(i) => (&NUMBERS[..arity(names, i)], ColType::Int),
    }
}
