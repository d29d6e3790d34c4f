// Evaluating a site, after those that it reads.
ghost use Rattle.std.specs.Prelude.{◌≡◌, ◌<◌, IfOk, IfSome, Contains, length, map};
ghost use Rattle.rdf_values.specs.{Value};
ghost use Rattle.expr_check.specs.{CheckedExpr};
ghost use Rattle.graph_numbers.specs.{IsSiteExpr};
ghost use Rattle.expr_eval.specs.{scalar_value};
ghost use Rattle.snapshot_entries.specs.{AreHeld, AreKnown, data_of, Grows, IsHeld, IsWork, outcome_of, plan_graph, plan_of, site_behind, site_in, site_total, source_of as source_in};

use crate::known::Known;
use crate::reading::{EntryReading, expression, source_of};
use crate::view::View;
use expr_check::Checked;
use expr_eval::{EvalStop, ScalarStop, Steps, eval, eval_int};
use graph_numbers::Source;
use rdf_values::{EntryFault, Memory, Scalar, Value};
use std::alloc::Global;
use std::sync::ledger::Ledger;

fn value_of(scalar: Scalar) -> Value
    ensures { result ≡ scalar_value scalar }
{
    match scalar {
        Scalar::Int(z) => Value::Int(z),
        Scalar::Bool(b) => Value::Bool(b),
    }
}

/// What a site comes to, where all that it reads is known.
fn evaluate<L: Ledger>(
    alloc: Global,
    expr: &Checked,
    view: &View<'_>,
    _site: u32,
    steps: &mut Steps<L>,
) -> Result<Result<Value, EntryFault>, Memory>
    requires work { IsWork (plan_of view.now.at.now.job.now) (data_of view.now.at.now.job.now) }
    requires entry { view.now.at.now.entry < length (data_of view.now.at.now.job.now).rows }
    requires known { AreKnown (plan_of view.now.at.now.job.now) (data_of view.now.at.now.job.now) view.now.cells.now }
    requires expr { IsSiteExpr (plan_graph (plan_of view.now.at.now.job.now) (data_of view.now.at.now.job.now)) _site expr.now }
    requires held { AreHeld (plan_of view.now.at.now.job.now) (data_of view.now.at.now.job.now) view.now.cells.now view.now.at.now.entry (map (λ c. c.0) expr.now.kinds) }
    ensures { IfOk result (λ r. outcome_of r ≡ site_in (plan_of view.now.at.now.job.now) (data_of view.now.at.now.job.now) view.now.at.now.entry _site) }
{
    if expr.plain() {
        match eval_int(expr, view, view.at.job.functions, steps) {
            Ok(value) => Ok(Ok(value_of(value))),
            Err(ScalarStop::Fault(kind)) => Ok(Err(kind)),
            Err(ScalarStop::Need(_)) => unreachable!(),
        }
    } else {
        match eval(alloc, expr, view, view.at.job.functions, steps) {
            Ok(value) => Ok(Ok(value)),
            Err(EvalStop::Fault(kind)) => Ok(Err(kind)),
            Err(EvalStop::Need(_)) => unreachable!(),
            Err(EvalStop::Memory) => Err(Memory),
        }
    }
}

/// What a site comes to in the entry, where all that it reads is known.
fn try_site<L: Ledger>(
    alloc: Global,
    at: &EntryReading<'_>,
    cells: &[Known],
    site: u32,
    steps: &mut Steps<L>,
) -> Result<Result<Value, EntryFault>, Memory>
    requires work { IsWork (plan_of at.now.job.now) (data_of at.now.job.now) }
    requires entry { at.now.entry < length (data_of at.now.job.now).rows }
    requires known { AreKnown (plan_of at.now.job.now) (data_of at.now.job.now) cells.now }
    requires site { site < site_total (plan_of at.now.job.now) (data_of at.now.job.now) }
    requires held { (expr : CheckedExpr) → IsSiteExpr (plan_graph (plan_of at.now.job.now) (data_of at.now.job.now)) site expr → AreHeld (plan_of at.now.job.now) (data_of at.now.job.now) cells.now at.now.entry (map (λ c. c.0) expr.kinds) }
    ensures { IfOk result (λ r. outcome_of r ≡ site_in (plan_of at.now.job.now) (data_of at.now.job.now) at.now.entry site) }
{
    let expr = expression(at, site);
    evaluate(alloc, expr, &View { at, cells }, site, steps)
}

/// The site behind a source, where there is one.
pub(crate) fn site_behind(source: Source) -> Option<u32>
    ensures { result ≡ site_behind source }
{
    match source {
        Source::Cell { .. } => None,
        Source::Site { site } | Source::Element { site, .. } => Some(site),
    }
}

/// The site that gives a version, where one does: it has a lower number than the site that reads it.
fn site_below(at: &EntryReading<'_>, _expr: &Checked, _site: u32, version: u32) -> Option<u32>
    requires work { IsWork (plan_of at.now.job.now) (data_of at.now.job.now) }
    requires expr { IsSiteExpr (plan_graph (plan_of at.now.job.now) (data_of at.now.job.now)) _site _expr.now }
    requires read { Contains (map (λ c. c.0) _expr.now.kinds) version }
    ensures value { result ≡ site_behind (source_in (plan_of at.now.job.now) (data_of at.now.job.now) version) }
    ensures below { IfSome result (λ s. s < _site) }
{
    site_behind(source_of(at, version))
}

/// Evaluates a site in the entry, unless it was, and before it the sites that it reads.
pub(crate) fn serve<L: Ledger>(
    alloc: Global,
    at: &EntryReading<'_>,
    cells: &mut [Known],
    site: u32,
    steps: &mut Steps<L>,
) -> Result<(), Memory>
    requires work { IsWork (plan_of at.now.job.now) (data_of at.now.job.now) }
    requires entry { at.now.entry < length (data_of at.now.job.now).rows }
    requires known { AreKnown (plan_of at.now.job.now) (data_of at.now.job.now) cells.old }
    requires site { site < site_total (plan_of at.now.job.now) (data_of at.now.job.now) }
    ensures known { AreKnown (plan_of at.now.job.now) (data_of at.now.job.now) cells.new }
    ensures grows { Grows at.now.entry cells.old cells.new }
    ensures held { IfOk result (λ _. IsHeld cells.new at.now.entry site) }
{
    if cells[site as usize].entry == at.entry {
        return Ok(());
    }
    let expr = expression(at, site);
    for version in expr.reads() {
        if let Some(below) = site_below(at, expr, site, *version) {
            serve(alloc, at, cells, below, steps)?;
        }
    }
    let outcome = try_site(alloc, at, cells, site, steps)?;
    let entry = at.entry;
    cells[site as usize] = Known { entry, outcome };
    Ok(())
}
