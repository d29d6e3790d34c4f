// The checks of a Vary, of what books a result, and of what asks for one.
#![tactic(auto, using(crate::proofs::Walking::targets_more, crate::proofs::Walking::handed_on, crate::proofs::Walking::no_memory, crate::proofs::Walking::stops_for, crate::proofs::Walking::stopped_before, crate::proofs::Walking::passed_before, crate::proofs::Walking::alone, crate::proofs::Finished::filters_are))]

ghost use Rattle.std.specs.Prelude.{◌≡◌, ◌∷◌, [], ℕ, List, length, nat_lt, IfOk, OnOk};
ghost use Rattle.rdf_values.specs.{ActionKind, among, are_edges, begins, check_columns, check_edges, check_list, check_lists, check_results, check_tags, check_values, check_vector_column, columns_of, first_refusal, is_result, may_begin, permitted_kinds, refuse_if, refuse_unless, repeats, rises, scope_of, Statement, variations, watched_results};
ghost use Rattle.rdf_values.specs.declared.scripts.script_cause.GraphCause.TheVariants as cause_of;
ghost use Rattle.rdf_values.specs.declared.scripts.statement.Statement.TheVariants.{Action, Print, Report, VariationsFor, Vary, Watch};
ghost use Rattle.rdf_values.specs.declared.tables.value.ColType.TheVariants as a_kind;
ghost use Rattle.rdf_values.specs.declared.scripts.statement.VaryValues.TheVariants.{Vector};
ghost use Rattle.graph.specs.{all_expressions, AppendsChecked, AreCheckedBefore, Decides, history, IsRowAfter, scope_before, statements, targets_at, value_expressions, verdict_after};

use crate::amounts::{
    amounts_of, amounts_printed, both, cells_of, row_amounts, takes_of, too_many,
};
use crate::before::{Before, same_kind};
use crate::lookup::{
    covered, is_filled, is_report, is_result, is_watchable, is_watched, result_count, watched_count,
};
use crate::refusals::{Stop, first_of, refuse_if, refuse_unless, stop_if};
use crate::sets::{VarSet, set_of};
use crate::tables::{Change, ResultPath, ResultRow};
use crate::variations::Variations;
use expr_check::Checked;
use graph_numbers::ResultKind;
use rdf_values::{
    ActionKind, ColType, Expr, GraphCause, IntList, Line, ListOf, Memory, Name, VaryValues,
};
use std::alloc::Global;

const MOST_TAGS: usize = 16;

const MOST_VARIATIONS: usize = 128;

fn is_among(names: &[Name], name: &Name) -> bool
    ensures { result ≡ among name.now names.now }
{
    names.iter().any(|n| name.is(n))
}

fn repeats(names: &[Name]) -> bool
    ensures { result ≡ repeats names.now }
{
    let Some((first, rest)) = names.split_first() else {
        return false;
    };
    is_among(rest, first) || repeats(rest)
}

fn check_tags(known: &Variations, tags: &[Name], name: &Name) -> Option<GraphCause>
    ensures { (before : List Statement) → known.now ≡ variations before → result ≡ check_tags before tags.now name.now }
{
    let many = tags.len() > MOST_TAGS || known.len() as usize + tags.len() > MOST_VARIATIONS;
    first_of(&[
        refuse_if(repeats(tags), GraphCause::NameTaken),
        refuse_if(known.has(name), GraphCause::NameTaken),
        refuse_if(many, GraphCause::TooMany),
    ])
}

fn check_targets(before: &Before<'_>, parent: &Name, columns: &[Name]) -> Option<GraphCause>
    ensures { result ≡ targets_at before.now.names.now (scope_of before.now.header.now) (history before.now) parent.now columns.now }
{
    let (first, rest) = columns.split_first()?;
    let target = before.check_target(parent, first);
    target.or(check_targets(before, parent, rest))
}

/// Appends the list of a column: an expression of the column's kind for each tag.
fn check_list(
    before: &Before<'_>,
    change: &Change<'_>,
    column: &Name,
    exprs: &[Expr],
    found: &mut Vec<Checked>,
) -> Result<(), Stop>
    ensures checked { OnOk result (AppendsChecked before.now change.now.parent.now exprs.now found.old.items found.new.items) }
    ensures decided { Decides (check_list before.now.names.now (scope_before before.now change.now.parent.now) (length change.now.tags.now) column.now exprs.now) result }
{
    let paired = exprs.len() == change.tags.len();
    stop_if(refuse_unless(paired, GraphCause::WrongCount))?;
    let kind = before.kind_at(change.parent, column);
    for expr in exprs {
        found.push(before.expected(change.parent, kind, expr)?)?;
    }
    Ok(())
}

fn check_lists(
    before: &Before<'_>,
    change: &Change<'_>,
    columns: &[Name],
    lists: &[ListOf<Expr>],
    found: &mut Vec<Checked>,
) -> Result<(), Stop>
    requires paired { length lists.now ≡ length columns.now }
    ensures checked { OnOk result (AppendsChecked before.now change.now.parent.now (all_expressions lists.now) found.old.items found.new.items) }
    ensures decided { Decides (first_refusal (check_lists before.now.names.now (scope_before before.now change.now.parent.now)
        (length change.now.tags.now) columns.now lists.now)) result }
{
    let Some((exprs, lists)) = lists.split_first() else {
        return Ok(());
    };
    let Some((column, columns)) = columns.split_first() else {
        return Ok(());
    };
    check_list(before, change, column, exprs.as_slice(), found)?;
    check_lists(before, change, columns, lists, found)
}

fn check_vector_column(before: &Before<'_>, node: &Name, columns: &[Name]) -> Option<GraphCause>
    ensures { result ≡ check_vector_column (scope_before before.now node.now) columns.now }
{
    let [column] = columns else {
        return Some(GraphCause::WrongCount);
    };
    match before.find_column(node, column) {
        None => Some(GraphCause::UnknownColumn),
        Some((kind, _)) => refuse_unless(same_kind(kind, ColType::Int), GraphCause::WrongType),
    }
}

fn vector_value(before: &Before<'_>, change: &Change<'_>, expr: &Expr) -> Result<Vec<Checked>, Stop>
    ensures checked { IfOk result (λ found. AreCheckedBefore before.now change.now.parent.now (expr.now ∷ []) found.items) }
    ensures decided { (tags : ℕ) → Decides (check_values before.now.names.now (scope_before before.now change.now.parent.now)
        tags change.now.columns.now (Vector expr.now)) result }
{
    let alone = change.columns.len() == 1;
    stop_if(refuse_unless(alone, GraphCause::WrongCount))?;
    let checked = before.expected(change.parent, ColType::Vect, expr)?;
    stop_if(check_vector_column(before, change.parent, change.columns))?;
    Ok(vec![in before.alloc; checked]?)
}

fn check_values(before: &Before<'_>, change: &Change<'_>) -> Result<Vec<Checked>, Stop>
    ensures checked { IfOk result (λ found. AreCheckedBefore before.now change.now.parent.now (value_expressions change.now.values.now) found.items) }
    ensures decided { Decides (check_values before.now.names.now (scope_before before.now change.now.parent.now)
        (length change.now.tags.now) change.now.columns.now change.now.values.now) result }
{
    match change.values {
        VaryValues::Lists(lists) => {
            let paired = lists.len() == change.columns.len();
            stop_if(refuse_unless(paired, GraphCause::WrongCount))?;
            let mut found = Vec::new(before.alloc);
            check_lists(before, change, change.columns, lists.as_slice(), &mut found)?;
            Ok(found)
        }
        VaryValues::Vector(expr) => vector_value(before, change, expr),
    }
}

pub(crate) fn check_vary(
    before: &Before<'_>,
    node: &Name,
    change: &Change<'_>,
) -> Result<Vec<Checked>, Stop>
    ensures checked { IfOk result (λ found. AreCheckedBefore before.now change.now.parent.now (value_expressions change.now.values.now) found.items) }
    ensures decided { Decides (verdict_after before.now (Vary node.now change.now.parent.now change.now.columns.now change.now.values.now change.now.tags.now change.now.name.now)) result }
{
    stop_if(first_of(&[
        before.check_node(node, change.parent),
        refuse_if(repeats(change.columns), GraphCause::NameTaken),
        check_targets(before, change.parent, change.columns),
        check_tags(&before.tables.variations, change.tags, change.name),
    ]))?;
    check_values(before, change)
}

fn one_result_more(before: &[Line]) -> Option<GraphCause>
    ensures report { (name parent : List ℕ) → result ≡ check_results (Report name parent ∷ statements before.now) }
    ensures action { (name parent : List ℕ) (k : ActionKind) → result ≡ check_results (Action name parent k ∷ statements before.now) }
{
    refuse_if(result_count(before) >= 64, GraphCause::TooMany)
}

pub(crate) fn check_report(
    before: &Before<'_>,
    name: &Name,
    parent: &Name,
) -> Result<ResultRow, Stop>
    ensures row { IfOk result (IsRowAfter before.now (Report name.now parent.now)) }
    ensures decided { Decides (verdict_after before.now (Report name.now parent.now)) result }
{
    let many = one_result_more(before.lines);
    stop_if(first_of(&[before.check_node(name, parent), many]))?;
    let named = before.tables.filters.as_slice().len() as u32;
    let path = ResultPath {
        kind: ResultKind::Report,
        filters: before.filters_above(parent)?,
        inputs: ListOf::new(before.alloc),
        covers: covered(before.alloc, before.lines, named, parent)?,
    };
    Ok(ResultRow {
        name: name.copy()?,
        cells: 0,
        takes: 0,
        set: VarSet::empty(),
        path,
    })
}

fn action_row(
    before: &Before<'_>,
    name: &Name,
    parent: &Name,
    action: &ActionKind,
) -> Result<ResultRow, Memory>
    ensures { IfOk result (IsRowAfter before.now (Action name.now parent.now action.now)) }
{
    let columns = columns_of(before.alloc, action)?;
    let path = ResultPath {
        kind: ResultKind::Action(action.copy()?),
        filters: before.filters_above(parent)?,
        inputs: before.versions_of(parent, columns.as_slice())?,
        covers: ListOf::new(before.alloc),
    };
    let tables = before.tables;
    let filters = set_of(tables.site_sets.as_slice(), path.filters.as_slice());
    let inputs = set_of(tables.version_sets.as_slice(), path.inputs.as_slice());
    Ok(ResultRow {
        name: name.copy()?,
        cells: cells_of(action)?,
        takes: takes_of(action),
        set: filters.union(inputs),
        path,
    })
}

pub(crate) fn check_action(
    before: &Before<'_>,
    name: &Name,
    parent: &Name,
    action: &ActionKind,
) -> Result<ResultRow, Stop>
    ensures row { IfOk result (IsRowAfter before.now (Action name.now parent.now action.now)) }
    ensures decided { Decides (verdict_after before.now (Action name.now parent.now action.now)) result }
{
    let columns = columns_of(before.alloc, action)?;
    let mut kinds = Vec::new(before.alloc);
    let wrong = check_columns(before, parent, action, &mut kinds, columns.as_slice())?;
    let row = action_row(before, name, parent, action)?;
    let rows = before.tables.results.as_slice();
    let others = amounts_of(before.lines, None, None, rows)?;
    let own = row_amounts(before.lines, None, &row)?;
    stop_if(first_of(&[
        before.check_node(name, parent),
        wrong,
        check_edges(action),
        one_result_more(before.lines),
        too_many(both(others, own)?),
    ]))?;
    Ok(row)
}

#[tactic(auto, using(crate::proofs::Walking::watched_among))]
fn one_watch_more(before: &[Line], name: &Name) -> Option<GraphCause>
    ensures { result ≡ refuse_if (nat_lt 8 (length (watched_results (Watch name.now ∷ statements before.now)))) cause_of.TooMany }
{
    let count = watched_count(before);
    let limit = if is_watched(before, name) { 9 } else { 8 };
    refuse_if(count >= limit, GraphCause::TooMany)
}

pub(crate) fn check_watch(before: &Before<'_>, name: &Name) -> Option<GraphCause>
    ensures { result ≡ verdict_after before.now (Watch name.now) }
{
    first_of(&[
        refuse_unless(is_result(before.lines, name), GraphCause::UnknownName),
        refuse_unless(is_watchable(before.lines, name), GraphCause::WrongKind),
        refuse_if(is_filled(before.lines, name), GraphCause::Late),
        one_watch_more(before.lines, name),
    ])
}

pub(crate) fn check_variations_for(
    before: &Before<'_>,
    name: &Name,
) -> Result<Option<GraphCause>, Memory>
    ensures { IfOk result (λ o. o ≡ verdict_after before.now (VariationsFor name.now)) }
{
    let rows = before.tables.results.as_slice();
    let amounts = amounts_of(before.lines, Some(name), None, rows)?;
    Ok(first_of(&[
        refuse_unless(is_result(before.lines, name), GraphCause::UnknownName),
        refuse_if(is_report(before.lines, name), GraphCause::WrongKind),
        refuse_if(is_filled(before.lines, name), GraphCause::Late),
        too_many(amounts),
    ]))
}

pub(crate) fn check_print(before: &Before<'_>, name: &Name) -> Result<Option<GraphCause>, Memory>
    ensures { IfOk result (λ o. o ≡ verdict_after before.now (Print name.now)) }
{
    let rows = before.tables.results.as_slice();
    let own = amounts_of(before.lines, None, Some(name), rows)?;
    let others = amounts_printed(before.lines, before.lines, rows)?;
    let amounts = both(own, others)?;
    Ok(first_of(&[
        refuse_unless(is_result(before.lines, name), GraphCause::UnknownName),
        too_many(amounts),
    ]))
}

#[tactic(auto, using(crate::proofs::Walking::begins_is))]
fn begins(kinds: &[ColType], permitted: &[ColType]) -> bool
    ensures { result ≡ begins kinds.now permitted.now }
{
    permitted.starts_with(kinds)
}

fn may_begin(action: &ActionKind, kinds: &[ColType]) -> bool
    ensures { result ≡ may_begin (permitted_kinds action.now) kinds.now }
{
    match action {
        ActionKind::Count => begins(kinds, &[]),
        ActionKind::Reduce(_, _) => begins(kinds, &[ColType::Int]),
        ActionKind::Take(_) => begins(kinds, &[ColType::Int]) || begins(kinds, &[ColType::Bool]),
        ActionKind::Sum(_)
        | ActionKind::Min(_)
        | ActionKind::Max(_)
        | ActionKind::Histo1D { weight: None, .. } => {
            begins(kinds, &[ColType::Int]) || begins(kinds, &[ColType::Vect])
        }
        ActionKind::Histo1D { .. } => begins(kinds, &[ColType::Int, ColType::Int])
            || begins(kinds, &[ColType::Vect, ColType::Int])
            || begins(kinds, &[ColType::Vect, ColType::Vect]),
        ActionKind::Histo2D { weight: None, .. } => begins(kinds, &[ColType::Int, ColType::Int])
            || begins(kinds, &[ColType::Vect, ColType::Vect]),
        ActionKind::Histo2D { .. } => begins(kinds, &[ColType::Int, ColType::Int, ColType::Int])
            || begins(kinds, &[ColType::Vect, ColType::Vect, ColType::Int])
            || begins(kinds, &[ColType::Vect, ColType::Vect, ColType::Vect]),
    }
}

/// The columns of an action, whose kinds so far are these.
fn check_columns(
    before: &Before<'_>,
    node: &Name,
    action: &ActionKind,
    kinds: &mut Vec<ColType>,
    columns: &[Name],
) -> Result<Option<GraphCause>, Memory>
    ensures { IfOk result (λ o. o ≡ check_columns (scope_before before.now node.now) (permitted_kinds action.now) kinds.old.items columns.now) }
{
    let Some((first, rest)) = columns.split_first() else {
        return Ok(None);
    };
    let Some((kind, _)) = before.find_column(node, first) else {
        return Ok(Some(GraphCause::UnknownColumn));
    };
    kinds.push(kind)?;
    if !may_begin(action, kinds.as_slice()) {
        return Ok(Some(GraphCause::WrongType));
    }
    check_columns(before, node, action, kinds, rest)
}

fn columns_of(alloc: Global, action: &ActionKind) -> Result<Vec<Name>, Memory>
    ensures { IfOk result (λ v. v.items ≡ columns_of action.now) }
{
    let mut names = Vec::new(alloc);
    match action {
        ActionKind::Count => {}
        ActionKind::Sum(x)
        | ActionKind::Min(x)
        | ActionKind::Max(x)
        | ActionKind::Take(x)
        | ActionKind::Reduce(_, x)
        | ActionKind::Histo1D { x, .. } => names.push(x.copy()?)?,
        ActionKind::Histo2D { x, y, .. } => {
            names.push(x.copy()?)?;
            names.push(y.copy()?)?;
        }
    }
    if let ActionKind::Histo1D { weight, .. } | ActionKind::Histo2D { weight, .. } = action
        && let Some(weight) = weight
    {
        names.push(weight.copy()?)?;
    }
    Ok(names)
}

fn rises(edges: &[i64]) -> bool
    ensures { result ≡ rises edges.now }
{
    let Some((first, rest)) = edges.split_first() else {
        return true;
    };
    rest.first().is_none_or(|next| *first < *next) && rises(rest)
}

fn are_edges(edges: &IntList) -> bool
    ensures { result ≡ are_edges edges.now }
{
    edges.len() >= 2 && rises(edges.as_slice())
}

fn check_edges(action: &ActionKind) -> Option<GraphCause>
    ensures { result ≡ check_edges action.now }
{
    let fit = match action {
        ActionKind::Histo1D { x_edges, .. } => are_edges(x_edges),
        ActionKind::Histo2D {
            x_edges,
            y_edges,
            ..
        } => are_edges(x_edges) && are_edges(y_edges),
        _ => true,
    };
    refuse_unless(fit, GraphCause::BadEdges)
}
