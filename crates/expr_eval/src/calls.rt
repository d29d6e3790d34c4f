// What an evaluation needs of a list of functions.
ghost use Rattle.std.specs.Prelude.{◌≡◌, ◌<◌, List, Option, length, HoldsAt, slice_get};
ghost use Rattle.rdf_values.specs.{fn_names, Function, num_tree};
ghost use Rattle.rdf_model.specs.{given_call};
ghost use Rattle.entry_fns.specs.{functions_in};
ghost use Rattle.expr_check.specs.{CallsFit, IsTyped};
ghost use Rattle.expr_eval.specs.Answers.{number_value, CallFits, CanCall};

use entry_fns::FnList;
use expr_check::Checked;
use rdf_values::{Callee, EntryFault, NumNode};

/// Functions that can be called by their places.
pub trait Calls {
    ghost functions: { Self → List Function };

    fn call_at(&self, number: u32, args: &[i64]) -> Option<i64>
        requires number { number < length (functions self.now) }
        requires arity { HoldsAt (λ f. length args.now ≡ f.arity) (functions self.now) number }
        ensures { HoldsAt (λ f. result ≡ f.answer args.now) (functions self.now) number };
}

impl Calls for FnList {
    ghost functions = { functions_in };

    fn call_at(&self, number: u32, args: &[i64]) -> Option<i64> {
        self.call(number, args)
    }
}

/// What the function of that number answers, or the fault where it has no answer.
pub(crate) fn answer<C: Calls>(calls: &C, number: u32, args: &[i64]) -> Result<i64, EntryFault>
    requires { CallFits (C.functions calls.now) (Callee.Given number) (length args.now) }
    ensures { number_value result ≡ given_call (slice_get (C.functions calls.now) number) args.now }
{
    calls.call_at(number, args).ok_or(EntryFault::Function)
}

/// The expression's node, of which each call can be made.
pub fn callable<'e>(expr: &'e Checked, functions: &FnList) -> &'e NumNode
    requires { CallsFit (fn_names (functions_in functions.now)) expr.now.tree }
    ensures node { num_tree result.now ≡ expr.now.tree }
    ensures typed { IsTyped expr.now }
    ensures calls { CanCall (functions_in functions.now) expr.now.tree }
{
    // Such a list says that none of its functions takes more than 8 arguments.
    let _count = functions.names().len();
    &expr.tree().node
}
