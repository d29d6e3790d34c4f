// The booking of a script's lines: each is checked after those before it, and then added.
#![tactic(auto, using(crate::proofs::Walking::no_memory, crate::proofs::Walking::handed_on, crate::proofs::Walking::stopped_before, crate::proofs::Walking::stopped_last, crate::proofs::Walking::passed_before, crate::proofs::Walking::alone))]

ghost use Rattle.std.specs.Prelude.{◌≡◌, ◌≤◌, ◌∷◌, [], length, Ok, Option, Result, IfOk, IfErr};
ghost use Rattle.std.specs.List.{AllByRecursion};
ghost use Rattle.rdf_values.specs.{check_node, first_refusal, GraphCause, IsShort, kind_of, refusal_in, scope_of};
ghost use Rattle.graph.specs.{AreTables, IsRefusal, refused, statements, Decides, IsGainAfter, verdict_after, history, IsEmptyGain, IsMadeGain, IsRowGain, named_rows, scope_before};
ghost use Rattle.rdf_values.specs.declared.scripts.statement.Statement.TheVariants.{Alias, Filter, Vary};
ghost use Rattle.graph.specs.declared.tables.ResultRow.{ResultRow};

use crate::before::Before;
use crate::checks::{
    check_action, check_print, check_report, check_variations_for, check_vary, check_watch,
};
use crate::refusals::{GraphRefusal, Stop, first_of, refuse_if, refuse_unless, stop_if};
use crate::sets::{changed_sets, kinds_at, sets_of};
use crate::tables::{Change, ResultRow, Tables};
use crate::variations::full_names;
use crate::versions::varied_versions;
use graph_numbers::Version;
use rdf_values::{
    ColType, Column, Expr, FnNames, GraphCause, Label, Line, ListOf, Memory, Name, Statement,
};
use std::alloc::Global;

pub(crate) fn book_lines(
    alloc: Global,
    lines: &[Line],
    header: &[Column],
    names: &FnNames,
) -> Result<Tables, GraphRefusal>
    requires columns { length header.now ≤ 64 }
    requires short { AllByRecursion IsShort (statements lines.now) }
    requires few { length lines.now ≤ 256 }
    ensures booked { IfOk result (λ t. AreTables header.now names.now (statements lines.now) t) }
    ensures refused { IfErr result (IsRefusal (refused names.now (scope_of header.now) lines.now)) }
{
    let Some((last, before)) = lines.split_first() else {
        return Ok(Tables::start(alloc, header)?);
    };
    let mut tables = book_lines(alloc, before, header, names)?;
    let at = Before {
        alloc,
        header,
        names,
        lines: before,
        tables: &tables,
    };
    match check_statement(&at, &last.statement) {
        Err(Stop::Memory) => Err(GraphRefusal::Memory),
        Err(Stop::Cause(cause)) => Err(GraphRefusal::At {
            line: last.number,
            cause,
        }),
        Ok(gain) => {
            tables.add(gain)?;
            Ok(tables)
        }
    }
}

/// Checks a statement after what stands before it: what it adds, or why it is refused.
fn check_statement(before: &Before<'_>, statement: &Statement) -> Result<Tables, Stop>
    requires { IsShort statement.now }
    ensures gained { IfOk result (IsGainAfter before.now statement.now) }
    ensures decided { Decides (verdict_after before.now statement.now) result }
{
    match statement {
        Statement::Define {
            node,
            parent,
            column,
            expr,
        } => {
            let taken = refuse_if(before.sees(parent, column), GraphCause::NameTaken);
            made_gain(before, node, parent, taken, expr)
        }
        Statement::Redefine {
            node,
            parent,
            column,
            expr,
        } => {
            let wrong = before.check_target(parent, column);
            made_gain(before, node, parent, wrong, expr)
        }
        Statement::Filter {
            node,
            parent,
            expr,
            label,
        } => filter_gain(before, node, parent, expr, label),
        Statement::Vary {
            node,
            parent,
            columns,
            values,
            tags,
            name,
        } => {
            let change = Change {
                parent,
                columns: columns.as_slice(),
                values,
                tags: tags.as_slice(),
                name,
            };
            vary_gain(before, node, &change)
        }
        Statement::Action {
            result,
            parent,
            kind,
        } => row_gain(before.alloc, check_action(before, result, parent, kind)),
        Statement::Report { result, parent } => {
            row_gain(before.alloc, check_report(before, result, parent))
        }
        Statement::Alias {
            node,
            parent,
            column,
            target,
        } => nothing(before, check_alias(before, node, parent, column, target)),
        Statement::VariationsFor { result } => {
            nothing(before, check_variations_for(before, result)?)
        }
        Statement::Watch { result } => nothing(before, check_watch(before, result)),
        Statement::Print { result } => nothing(before, check_print(before, result)?),
    }
}

fn nothing(before: &Before<'_>, refusal: Option<GraphCause>) -> Result<Tables, Stop>
    ensures empty { IfOk result IsEmptyGain }
    ensures decided { Decides refusal result }
{
    stop_if(refusal)?;
    Ok(Tables::empty(before.alloc))
}

/// The sites of a named Filter: of those above it, and its own.
fn named_filter(
    before: &Before<'_>,
    parent: &Name,
    label: &Option<Label>,
) -> Result<Vec<ListOf<u32>>, Memory>
    ensures { IfOk result (λ rows. rows.items ≡ named_rows before.now.header.now before.now.names.now (history before.now) parent.now label.now) }
{
    let Some(_) = label else {
        return Ok(Vec::new(before.alloc));
    };
    let mut sites = before.filters_above(parent)?;
    sites.push(before.sites())?;
    Ok(vec![in before.alloc; sites]?)
}

fn filter_gain(
    before: &Before<'_>,
    node: &Name,
    parent: &Name,
    expr: &Expr,
    label: &Option<Label>,
) -> Result<Tables, Stop>
    ensures gained { IfOk result (IsGainAfter before.now (Filter node.now parent.now expr.now label.now)) }
    ensures decided { Decides (verdict_after before.now (Filter node.now parent.now expr.now label.now)) result }
{
    stop_if(before.check_node(node, parent))?;
    let site = before.expected(parent, ColType::Bool, expr)?;
    let filters = named_filter(before, parent, label)?;
    let sites = vec![in before.alloc; site]?;
    let site_sets = sets_of(before, sites.as_slice())?;
    Ok(Tables {
        sites,
        site_sets,
        filters,
        ..Tables::empty(before.alloc)
    })
}

/// What a statement adds that makes a column by an expression, where there may be something wrong with the column.
fn made_gain(
    before: &Before<'_>,
    node: &Name,
    parent: &Name,
    wrong: Option<GraphCause>,
    expr: &Expr,
) -> Result<Tables, Stop>
    ensures made { IfOk result (IsMadeGain before.now.header.now before.now.names.now (history before.now) before.now.tables.now.version_sets.items parent.now expr.now) }
    ensures decided { Decides (first_refusal (check_node (history before.now) node.now parent.now ∷ wrong ∷ refusal_in (kind_of (scope_before before.now parent.now) before.now.names.now expr.now) ∷ [])) result }
{
    stop_if(first_of(&[before.check_node(node, parent), wrong]))?;
    let site = before.expression(parent, expr)?;
    let site_number = before.sites();
    let versions = vec![in before.alloc; Version::Computed { site: site_number }]?;
    let kinds = vec![in before.alloc; site.kind()]?;
    let sites = vec![in before.alloc; site]?;
    let site_sets = sets_of(before, sites.as_slice())?;
    let version_sets = sets_of(before, sites.as_slice())?;
    Ok(Tables {
        versions,
        kinds,
        version_sets,
        sites,
        site_sets,
        ..Tables::empty(before.alloc)
    })
}

fn row_gain(alloc: Global, row: Result<ResultRow, Stop>) -> Result<Tables, Stop>
    ensures gained { (r : ResultRow) → row ≡ Ok r → IfOk result (IsRowGain r) }
    ensures decided { (wanted : Option GraphCause) → Decides wanted row → Decides wanted result }
{
    let results = vec![in alloc; row?]?;
    Ok(Tables {
        results,
        ..Tables::empty(alloc)
    })
}

#[tactic(auto, using(crate::proofs::Walking::no_memory, crate::proofs::Walking::handed_on, crate::proofs::Finished::few_with))]
fn vary_gain(before: &Before<'_>, node: &Name, change: &Change<'_>) -> Result<Tables, Stop>
    ensures gained { IfOk result (IsGainAfter before.now (Vary node.now change.now.parent.now change.now.columns.now change.now.values.now change.now.tags.now change.now.name.now)) }
    ensures decided { Decides (verdict_after before.now (Vary node.now change.now.parent.now change.now.columns.now change.now.values.now change.now.tags.now change.now.name.now)) result }
{
    let sites = check_vary(before, node, change)?;
    let versions = varied_versions(before, change)?;
    let kinds = kinds_at(before, change)?;
    let version_sets = changed_sets(before, change)?;
    let site_sets = sets_of(before, sites.as_slice())?;
    let variations = full_names(before.alloc, change.name, change.tags)?;
    Ok(Tables {
        versions,
        kinds,
        version_sets,
        sites,
        site_sets,
        variations,
        ..Tables::empty(before.alloc)
    })
}

fn check_alias(
    before: &Before<'_>,
    node: &Name,
    parent: &Name,
    column: &Name,
    target: &Name,
) -> Option<GraphCause>
    ensures { result ≡ verdict_after before.now (Alias node.now parent.now column.now target.now) }
{
    first_of(&[
        before.check_node(node, parent),
        refuse_if(before.sees(parent, column), GraphCause::NameTaken),
        refuse_unless(before.sees(parent, target), GraphCause::UnknownColumn),
    ])
}
