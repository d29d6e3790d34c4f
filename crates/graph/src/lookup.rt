// Look-ups in the statements so far, the latest first: each walks them as its definition does.
ghost use Rattle.std.specs.Prelude.{◌^◌, ◌≡◌, ◌<◌, ◌≤◌, ◌+◌, true, false, length, MatchOption, IfSome, Some, slice_get, IfOk};
ghost use Rattle.std.specs.List.{list_any, position};
ghost use Rattle.rdf_values.specs.{FunctionNames, is_alias, is_node, is_result, is_visible, makes, parent_of, path, same, scope_at, scope_of, target_of, expression_count, named_before, ActionAt, among, bookings, can_watch, filled, is_report, is_watched, names_of, Path, result_is, Statement, watched_results};
ghost use Rattle.graph.specs.{own_target, own_visible, statements, count_from, filter_numbers, labels, site_total, own_site_total};
ghost use Rattle.graph_numbers.specs.{column_place, covered_at, filters_on, named_version, own_columns, own_version, version_count, list_start};
ghost use Rattle.rdf_values.specs.declared.scripts.statement.Statement.TheVariants.{Watch};

use rdf_values::{
    ActionKind, Column, Expr, Label, Line, ListOf, Memory, Name, Statement, VaryValues,
};
use std::alloc::Global;

pub(crate) fn at<T>(items: &[T], n: u32) -> &T
    requires { n < length items.now }
    ensures { slice_get items.now n ≡ Some result.now }
{
    &items[n as usize]
}

/// The parent, where the statement makes the node.
pub fn made_from<'a>(statement: &'a Statement, sought: &Name) -> Option<&'a Name>
    ensures { MatchOption result (makes statement.now sought.now ≡ false) (λ parent. (makes statement.now sought.now ≡ true) × (parent_of statement.now ≡ parent.now)) }
{
    match statement {
        Statement::Define { node, parent, .. }
        | Statement::Redefine { node, parent, .. }
        | Statement::Alias { node, parent, .. }
        | Statement::Filter { node, parent, .. }
        | Statement::Vary { node, parent, .. } => {
            if node.is(sought) { Some(parent) } else { None }
        }
        _ => None,
    }
}

fn is_made_node(before: &[Line], node: &Name) -> bool
    ensures { result ≡ list_any (λ l. makes l.statement node.now) before.now }
{
    before
        .iter()
        .any(|line| made_from(&line.statement, node).is_some())
}

fn own_target<'a>(statement: &'a Statement, name: &'a Name) -> &'a Name
    ensures { result.now ≡ own_target statement.now name.now }
{
    match statement {
        Statement::Alias { column, target, .. } => { if column.is(name) { target } else { name } }
        _ => name,
    }
}

/// The column that a name stands for at a node.
pub fn target_of<'a>(before: &'a [Line], node: &Name, name: &'a Name) -> &'a Name
    ensures { result.now ≡ target_of (path (statements before.now) node.now) name.now }
{
    let Some((last, rest)) = before.split_first() else {
        return name;
    };
    match made_from(&last.statement, node) {
        None => target_of(rest, node, name),
        Some(parent) => target_of(rest, parent, own_target(&last.statement, name)),
    }
}

/// Whether the name is a node's.
#[tactic(auto, using(crate::proofs::Listing::any_map))]
pub fn is_node(before: &[Line], node: &Name) -> bool
    ensures { result ≡ is_node (statements before.now) node.now }
{
    node.bytes() == b"df".as_slice() || is_made_node(before, node)
}

/// Whether the name is a result's.
#[tactic(auto, using(crate::proofs::Walking::result_step))]
pub fn is_result(before: &[Line], name: &Name) -> bool
    ensures { result ≡ is_result (statements before.now) name.now }
{
    let Some((last, rest)) = before.split_first() else {
        return false;
    };
    let own = matches!(
        &last.statement,
        Statement::Action { result, .. } | Statement::Report { result, .. } if name.is(result)
    );
    own || is_result(rest, name)
}

/// Whether the name is an alias at a node.
pub fn is_alias(before: &[Line], node: &Name, name: &Name) -> bool
    ensures { result ≡ is_alias (path (statements before.now) node.now) name.now }
{
    let Some((last, rest)) = before.split_first() else {
        return false;
    };
    match made_from(&last.statement, node) {
        None => is_alias(rest, node, name),
        Some(parent) => {
            let own = matches!(&last.statement, Statement::Alias { column, .. } if name.is(column));
            own || is_alias(rest, parent, name)
        }
    }
}

fn is_cell(header: &[Column], name: &Name) -> bool
    ensures { result ≡ list_any (λ c. same c.name name.now) header.now }
{
    header.iter().any(|column| column.name.is(name))
}

fn own_visible(statement: &Statement, name: &Name) -> bool
    ensures { result ≡ own_visible statement.now name.now }
{
    match statement {
        Statement::Define { column, .. } | Statement::Redefine { column, .. } => column.is(name),
        Statement::Alias { column, .. } => name.is(column),
        _ => false,
    }
}

/// Whether the column is visible at a node.
#[tactic(auto, using(crate::proofs::Walking::visible_step, crate::proofs::Walking::column_seen))]
pub fn is_visible(before: &[Line], header: &[Column], node: &Name, name: &Name) -> bool
    ensures { (names : FunctionNames) → result ≡ is_visible (scope_at names (scope_of header.now) (statements before.now) node.now) name.now }
{
    let Some((last, rest)) = before.split_first() else {
        return is_cell(header, name);
    };
    match made_from(&last.statement, node) {
        None => is_visible(rest, header, node, name),
        Some(parent) => {
            own_visible(&last.statement, name) || is_visible(rest, header, parent, name)
        }
    }
}

#[tactic(auto, using(crate::proofs::Walking::position_within))]
fn place_of(columns: &[Name], name: &Name) -> Option<usize>
    ensures value { result ≡ position (same name.now) columns.now }
    ensures within { IfSome result (λ i. i < length columns.now) }
{
    columns.iter().position(|column| name.is(column))
}

fn column_place(header: &[Column], name: &Name) -> usize
    ensures value { result ≡ column_place header.now name.now }
    ensures within { result ≤ length header.now }
{
    let Some((first, rest)) = header.split_first() else {
        return 0;
    };
    if first.name.is(name) {
        0
    } else {
        column_place(rest, name) + 1
    }
}

fn own_count(statement: &Statement) -> usize
    ensures { result ≡ length (own_columns statement.now) }
{
    match statement {
        Statement::Define { .. } | Statement::Redefine { .. } => 1,
        Statement::Vary { columns, .. } => columns.len(),
        _ => 0,
    }
}

/// The version of a column at the node of a statement, before which there are so many.
#[tactic(auto, using(crate::proofs::Walking::place_is))]
fn own_version(statement: &Statement, first: usize, name: &Name, over: usize) -> usize
    requires { first + length (own_columns statement.now) < 2 ^ 64 }
    ensures { result ≡ own_version statement.now first name.now over }
{
    match statement {
        Statement::Define { column, .. } | Statement::Redefine { column, .. } => {
            if column.is(name) { first } else { over }
        }
        Statement::Vary { columns, .. } => match place_of(columns.as_slice(), name) {
            None => over,
            Some(i) => first + i,
        },
        _ => over,
    }
}

/// The version of a column that is no alias at a node, of so many.
pub fn named_version(
    before: &[Line],
    header: &[Column],
    count: usize,
    node: &Name,
    name: &Name,
) -> usize
    requires { count ≡ version_count header.now (statements before.now) }
    ensures { result ≡ named_version header.now (statements before.now) node.now name.now }
{
    let Some((last, rest)) = before.split_first() else {
        return column_place(header, name);
    };
    let first = count - own_count(&last.statement);
    match made_from(&last.statement, node) {
        None => named_version(rest, header, first, node, name),
        Some(parent) => {
            let over = named_version(rest, header, first, parent, name);
            own_version(&last.statement, first, name, over)
        }
    }
}

#[tactic(auto, using(crate::proofs::Walking::count_more))]
pub(crate) fn numbers(alloc: Global, first: u32, count: u32) -> Result<ListOf<u32>, Memory>
    requires { first + count < 4294967296 }
    ensures { IfOk result (λ l. l ≡ count_from first count) }
{
    let mut list = ListOf::new(alloc);
    for i in 0..count {
        list.push(first + i)?;
    }
    Ok(list)
}

/// Where a list's first expression is among those of all lists.
pub(crate) fn list_start(lists: &[ListOf<Expr>], i: usize) -> usize
    requires { expression_count lists.now < 2 ^ 64 }
    ensures value { result ≡ list_start lists.now i }
    ensures few { result ≤ expression_count lists.now }
{
    if i == 0 {
        return 0;
    }
    let Some((first, rest)) = lists.split_first() else {
        return 0;
    };
    first.len() + list_start(rest, i - 1)
}

/// How many sites a statement has.
#[tactic(auto, using(crate::proofs::Walking::all_lists))]
fn own_site_total(statement: &Statement) -> usize
    requires { own_site_total statement.now < 2 ^ 64 }
    ensures { result ≡ own_site_total statement.now }
{
    match statement {
        Statement::Define { .. } | Statement::Redefine { .. } | Statement::Filter { .. } => 1,
        Statement::Vary { values, .. } => match values {
            VaryValues::Lists(lists) => list_start(lists.as_slice(), lists.len()),
            VaryValues::Vector(_) => 1,
        },
        _ => 0,
    }
}

/// The sites of the filters above a node, head first, where there are so many sites.
pub fn filter_sites(
    alloc: Global,
    before: &[Line],
    count: u32,
    node: &Name,
) -> Result<ListOf<u32>, Memory>
    requires { count ≡ site_total (statements before.now) }
    ensures { IfOk result (λ l. l ≡ filter_numbers (statements before.now) node.now) }
{
    let Some((last, rest)) = before.split_first() else {
        return Ok(ListOf::new(alloc));
    };
    let first = count - own_site_total(&last.statement) as u32;
    match made_from(&last.statement, node) {
        None => filter_sites(alloc, rest, first, node),
        Some(parent) => {
            let mut above = filter_sites(alloc, rest, first, parent)?;
            if matches!(&last.statement, Statement::Filter { .. }) {
                above.push(first)?;
            }
            Ok(above)
        }
    }
}

pub(crate) fn label_of(lines: &[Line], f: usize, count: usize) -> &Label
    requires all { count ≡ length (named_before (statements lines.now)) }
    requires within { f < count }
    ensures { slice_get (labels (statements lines.now)) f ≡ Some result.now }
{
    let Some((last, rest)) = lines.split_first() else {
        unreachable!()
    };
    match &last.statement {
        Statement::Filter {
            label: Some(label),
            ..
        } => {
            if f == count - 1 {
                label
            } else {
                label_of(rest, f, count - 1)
            }
        }
        _ => label_of(rest, f, count),
    }
}

/// The named filters of the path of a node, head first, where there are so many named filters.
#[tactic(auto, using(crate::proofs::Walking::named_more, crate::proofs::Walking::named_is))]
fn named_on(alloc: Global, before: &[Line], count: u32, node: &Name) -> Result<ListOf<u32>, Memory>
    requires { count ≡ length (named_before (statements before.now)) }
    ensures { IfOk result (λ l. l ≡ filters_on (statements before.now) node.now) }
{
    let Some((last, rest)) = before.split_first() else {
        return Ok(ListOf::new(alloc));
    };
    let own = matches!(&last.statement, Statement::Filter { label: Some(_), .. });
    let first = if own { count - 1 } else { count };
    match made_from(&last.statement, node) {
        None => named_on(alloc, rest, first, node),
        Some(parent) => {
            let mut above = named_on(alloc, rest, first, parent)?;
            if own {
                above.push(first)?;
            }
            Ok(above)
        }
    }
}

/// The named filters that a Report on a node covers, where there are so many named filters.
#[tactic(auto, using(crate::proofs::Walking::covers_are, crate::proofs::Listing::any_map))]
pub(crate) fn covered(
    alloc: Global,
    before: &[Line],
    count: u32,
    node: &Name,
) -> Result<ListOf<u32>, Memory>
    requires { count ≡ length (named_before (statements before.now)) }
    ensures { IfOk result (λ l. l ≡ covered_at (statements before.now) node.now) }
{
    if is_made_node(before, node) {
        named_on(alloc, before, count, node)
    } else {
        numbers(alloc, 0, count)
    }
}

/// The lines before the last Print that filled any results: the results that they book are filled.
fn filled_lines(before: &[Line]) -> &[Line]
    ensures { names_of (bookings (statements result.now)) ≡ filled (statements before.now) }
{
    let Some((last, rest)) = before.split_first() else {
        return before;
    };
    let filled = filled_lines(rest);
    match &last.statement {
        Statement::Print { result } if !is_result(filled, result) => rest,
        _ => filled,
    }
}

pub(crate) fn is_filled(before: &[Line], name: &Name) -> bool
    ensures { result ≡ among name.now (filled (statements before.now)) }
{
    is_result(filled_lines(before), name)
}

pub(crate) fn is_watched(lines: &[Line], name: &Name) -> bool
    ensures { result ≡ is_watched (statements lines.now) name.now }
{
    let Some((last, rest)) = lines.split_first() else {
        return false;
    };
    let own = matches!(&last.statement, Statement::Watch { result } if result.is(name));
    own || is_watched(rest, name)
}

#[tactic(auto, using(crate::proofs::Walking::watched_among))]
pub(crate) fn watched_count(before: &[Line]) -> usize
    ensures value { result ≡ length (watched_results (statements before.now)) }
    ensures few { result ≤ length before.now }
{
    let Some((last, rest)) = before.split_first() else {
        return 0;
    };
    let count = watched_count(rest);
    match &last.statement {
        Statement::Watch { result } if !is_watched(rest, result) => count + 1,
        _ => count,
    }
}

fn can_watch(kind: &ActionKind) -> bool
    ensures { (at : Path) → result ≡ can_watch (ActionAt kind.now at) }
{
    matches!(
        kind,
        ActionKind::Count | ActionKind::Sum(_) | ActionKind::Min(_) | ActionKind::Max(_)
    )
}

#[tactic(auto, using(crate::proofs::Walking::result_is_step))]
pub(crate) fn is_watchable(before: &[Line], name: &Name) -> bool
    ensures { result ≡ result_is can_watch (statements before.now) name.now }
{
    let Some((last, rest)) = before.split_first() else {
        return false;
    };
    let own = matches!(
        &last.statement,
        Statement::Action { result, kind, .. } if result.is(name) && can_watch(kind)
    );
    own || is_watchable(rest, name)
}

#[tactic(auto, using(crate::proofs::Walking::result_is_step))]
pub(crate) fn is_report(before: &[Line], name: &Name) -> bool
    ensures { result ≡ result_is is_report (statements before.now) name.now }
{
    let Some((last, rest)) = before.split_first() else {
        return false;
    };
    let own = matches!(&last.statement, Statement::Report { result, .. } if result.is(name));
    own || is_report(rest, name)
}

#[tactic(auto, using(crate::proofs::Walking::count_step))]
pub(crate) fn result_count(before: &[Line]) -> usize
    ensures value { result ≡ length (bookings (statements before.now)) }
    ensures few { result ≤ length before.now }
{
    let Some((last, rest)) = before.split_first() else {
        return 0;
    };
    match &last.statement {
        Statement::Action { .. } | Statement::Report { .. } => result_count(rest) + 1,
        _ => result_count(rest),
    }
}
