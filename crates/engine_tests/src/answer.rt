// What an expression comes to.
ghost use Rattle.std.specs.Prelude.{◌≡◌, ◌<◌, true, IfOk};
ghost use Rattle.rdf_values.specs.{fn_names};
ghost use Rattle.entry_fns.specs.{functions_in};
ghost use Rattle.expr_check.specs.{CallsFit, is_plain};
ghost use Rattle.engine_tests.specs.{AllFit};

use crate::cells::{TestCell, TestCells, scope_of};
use crate::words::{scalar_words, value_words};
use entry_fns::FnList;
use expr_check::{Checked, check};
use expr_eval::{EvalStop, ScalarStop, Steps, eval, eval_int};
use expr_read::read_expr;
use rdf_values::{Scalar, Value};
use std::alloc::Global;
use std::marker::Brand;
use std::sync::ledger::{Blank, Ledger};
use std::test::Fail;

const LONGEST_TEXT: usize = 65_536;

fn counted_value<L: Ledger>(
    blank: Blank,
    alloc: Global,
    expr: &Checked,
    cells: &[TestCell<'_>],
    functions: &FnList,
) -> Result<Value, EvalStop>
    requires name { blank.name ≡ L.name }
    requires parts { blank.parts ≡ L.parts }
    requires some { 0 < L.parts }
    requires fit { AllFit cells.now expr.now.kinds }
    requires calls { CallsFit (fn_names (functions_in functions.now)) expr.now.tree }
{
    let mut steps: Steps<L> = Steps::open(blank);
    eval(alloc, expr, &TestCells { cells }, functions, &mut steps)
}

fn counted_scalar<L: Ledger>(
    blank: Blank,
    expr: &Checked,
    cells: &[TestCell<'_>],
    functions: &FnList,
) -> Result<Scalar, ScalarStop>
    requires name { blank.name ≡ L.name }
    requires parts { blank.parts ≡ L.parts }
    requires some { 0 < L.parts }
    requires plain { is_plain expr.now.kinds expr.now.tree ≡ true }
    requires fit { AllFit cells.now expr.now.kinds }
    requires calls { CallsFit (fn_names (functions_in functions.now)) expr.now.tree }
{
    let mut steps: Steps<L> = Steps::open(blank);
    eval_int(expr, &TestCells { cells }, functions, &mut steps)
}

/// The expression that a text is, checked over the columns and functions.
pub fn checked(
    alloc: Global,
    text: &str,
    cells: &[TestCell<'_>],
    functions: &FnList,
) -> Result<Checked, Fail>
    ensures fit { IfOk result (λ e. AllFit cells.now e.kinds) }
    ensures calls { IfOk result (λ e. CallsFit (fn_names (functions_in functions.now)) e.tree) }
{
    if text.len() > LONGEST_TEXT {
        return Err(Fail::from("too long"));
    }
    let expr = read_expr(alloc, text.as_bytes())?;
    let scope = scope_of(alloc, cells)?;
    Ok(check(alloc, &expr, &scope, functions.names())?)
}

/// What `eval` answers for a text, in words.
pub fn value_answer(
    alloc: Global,
    text: &str,
    cells: &[TestCell<'_>],
    functions: &FnList,
) -> Result<String, Fail> {
    let expr = checked(alloc, text, cells, functions)?;
    let answer = counted_value::<Brand>(Blank::new(1), alloc, &expr, cells, functions);
    Ok(value_words(alloc, answer, cells)?)
}

/// What `eval_int` answers for a text that is no vector in any part, in words.
pub fn scalar_answer(
    alloc: Global,
    text: &str,
    cells: &[TestCell<'_>],
    functions: &FnList,
) -> Result<Option<String>, Fail> {
    let expr = checked(alloc, text, cells, functions)?;
    if !expr.plain() {
        return Ok(None);
    }
    let answer = counted_scalar::<Brand>(Blank::new(1), &expr, cells, functions);
    Ok(Some(scalar_words(alloc, answer, cells)?))
}
