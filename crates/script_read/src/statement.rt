// What a form says.
#![tactic(auto, using(crate::proofs::FirstBads::refusals, crate::proofs::FirstBads::sayings))]

ghost use Rattle.std.specs.Prelude.{◌≡◌, option_map, IfOk, IfErr};
ghost use Rattle.rdf_values.specs.scripts.LineForms as line;
ghost use Rattle.rdf_values.specs.{all_edges, AName, FirstBad, form_strings, IsAction, maybe_wanted, method_strings, Says};
ghost use Rattle.script_read.specs.{action_of, edges_of, form_of, IsNamed, method_of, quoted_of, RefusedFor, strings_of};

use crate::form::{Action, Form, Method, OneOrMore, Quoted, Word};
use crate::refusal::LineStop;
use crate::strings;
use rdf_values::{ActionKind, IntList, ListOf, Name, Statement};
use std::alloc::Global;

// The name that a word is.
fn name_of(alloc: Global, word: &Word<'_>) -> Result<Name, LineStop>
    ensures ok { IfOk result (λ n. n ≡ word.now.bytes.now) }
    ensures err { IfErr result (λ e. e ≡ LineStop.Memory) }
{
    match Name::read(alloc, word.bytes)? {
        Some(name) => Ok(name),
        None => unreachable!(),
    }
}

// The name of a Vary of one column: its own, or the column's.
fn variation(alloc: Global, column: &Name, name: &Option<Quoted<'_>>) -> Result<Name, LineStop>
    ensures ok { IfOk result (λ n. IsNamed column.now (option_map quoted_of name.now) n) }
    ensures err { IfErr result (λ e. RefusedFor (FirstBad (maybe_wanted (option_map quoted_of name.now) AName)) e) }
{
    match name {
        Some(name) => strings::name(alloc, name),
        None => Ok(column.copy()?),
    }
}

// The node that a line makes, and the one from which it makes it.
#[derive(Drop)]
struct NewNode {
    node: Name,
    parent: Name,
}

fn vary_one(
    alloc: Global,
    at: NewNode,
    column: &Quoted<'_>,
    values: &Quoted<'_>,
    tags: &OneOrMore<Quoted<'_>>,
    name: &Option<Quoted<'_>>,
) -> Result<Statement, LineStop>
    ensures ok { IfOk result (λ s. Says (line.Books at.node at.parent (line.VaryOne (quoted_of column.now) (quoted_of values.now) (strings_of tags.now) (option_map quoted_of name.now))) s) }
    ensures err { IfErr result (λ e. RefusedFor (FirstBad (method_strings (line.VaryOne (quoted_of column.now) (quoted_of values.now) (strings_of tags.now) (option_map quoted_of name.now)))) e) }
{
    let column = strings::name(alloc, column)?;
    let values = strings::values(alloc, values)?;
    let tags = strings::names(alloc, tags)?;
    let name = variation(alloc, &column, name)?;
    let mut columns = ListOf::new(alloc);
    columns.push(column)?;
    let NewNode { node, parent } = at;
    Ok(Statement::Vary {
        node,
        parent,
        columns,
        values,
        tags,
        name,
    })
}

fn vary_all(
    alloc: Global,
    at: NewNode,
    columns: &OneOrMore<Quoted<'_>>,
    values: &Quoted<'_>,
    tags: &OneOrMore<Quoted<'_>>,
    name: &Quoted<'_>,
) -> Result<Statement, LineStop>
    ensures ok { IfOk result (λ s. Says (line.Books at.node at.parent (line.VaryAll (strings_of columns.now) (quoted_of values.now) (strings_of tags.now) (quoted_of name.now))) s) }
    ensures err { IfErr result (λ e. RefusedFor (FirstBad (method_strings (line.VaryAll (strings_of columns.now) (quoted_of values.now) (strings_of tags.now) (quoted_of name.now)))) e) }
{
    let NewNode { node, parent } = at;
    Ok(Statement::Vary {
        node,
        parent,
        columns: strings::names(alloc, columns)?,
        values: strings::values(alloc, values)?,
        tags: strings::names(alloc, tags)?,
        name: strings::name(alloc, name)?,
    })
}

// The edges of an axis.
fn edges(alloc: Global, numbers: &OneOrMore<i64>) -> Result<IntList, LineStop>
    ensures ok { IfOk result (λ es. es ≡ all_edges (edges_of numbers.now)) }
    ensures err { IfErr result (λ e. e ≡ LineStop.Memory) }
{
    let mut edges = IntList::new(alloc);
    edges.push(numbers.first)?;
    edges.extend(numbers.rest.as_slice())?;
    Ok(edges)
}

// What an action computes.
fn action_kind(alloc: Global, action: &Action<'_>) -> Result<ActionKind, LineStop>
    ensures ok { IfOk result (λ k. IsAction (action_of action.now) k) }
    ensures err { IfErr result (λ e. RefusedFor (FirstBad (method_strings (action_of action.now))) e) }
{
    match action {
        Action::Count => Ok(ActionKind::Count),
        Action::Sum(column) => Ok(ActionKind::Sum(strings::name(alloc, column)?)),
        Action::Min(column) => Ok(ActionKind::Min(strings::name(alloc, column)?)),
        Action::Max(column) => Ok(ActionKind::Max(strings::name(alloc, column)?)),
        Action::Take(column) => Ok(ActionKind::Take(strings::name(alloc, column)?)),
        Action::Reduce((operation, column)) => {
            let operation = strings::operation(operation)?;
            Ok(ActionKind::Reduce(operation, strings::name(alloc, column)?))
        }
        Action::Histo1D(x_edges, x, weight) => {
            let x_edges = edges(alloc, x_edges)?;
            let x = strings::name(alloc, x)?;
            let weight = strings::maybe_name(alloc, weight)?;
            Ok(ActionKind::Histo1D { x_edges, x, weight })
        }
        Action::Histo2D(x_edges, y_edges, x, y, weight) => Ok(ActionKind::Histo2D {
            x_edges: edges(alloc, x_edges)?,
            y_edges: edges(alloc, y_edges)?,
            x: strings::name(alloc, x)?,
            y: strings::name(alloc, y)?,
            weight: strings::maybe_name(alloc, weight)?,
        }),
    }
}

// What is booked on the parent.
fn booking(
    alloc: Global,
    node: Name,
    parent: Name,
    method: &Method<'_>,
) -> Result<Statement, LineStop>
    ensures ok { IfOk result (λ s. Says (line.Books node parent (method_of method.now)) s) }
    ensures err { IfErr result (λ e. RefusedFor (FirstBad (method_strings (method_of method.now))) e) }
{
    match method {
        Method::Define((column, expr)) => Ok(Statement::Define {
            node,
            parent,
            column: strings::name(alloc, column)?,
            expr: strings::expression(alloc, expr)?,
        }),
        Method::Redefine((column, expr)) => Ok(Statement::Redefine {
            node,
            parent,
            column: strings::name(alloc, column)?,
            expr: strings::expression(alloc, expr)?,
        }),
        Method::Alias((column, target)) => Ok(Statement::Alias {
            node,
            parent,
            column: strings::name(alloc, column)?,
            target: strings::name(alloc, target)?,
        }),
        Method::Filter(expr, label) => Ok(Statement::Filter {
            node,
            parent,
            expr: strings::expression(alloc, expr)?,
            label: strings::maybe_label(alloc, label)?,
        }),
        Method::VaryOne(column, values, tags, name) => {
            vary_one(alloc, NewNode { node, parent }, column, values, tags, name)
        }
        Method::VaryAll(columns, values, tags, name) => {
            vary_all(alloc, NewNode { node, parent }, columns, values, tags, name)
        }
        Method::Report => Ok(Statement::Report {
            result: node,
            parent,
        }),
        Method::Action(action) => Ok(Statement::Action {
            result: node,
            parent,
            kind: action_kind(alloc, action)?,
        }),
    }
}

/// The statement that the form is, if its strings are what they must be; else the first that isn't refuses it.
pub(crate) fn read_statement(alloc: Global, form: &Form<'_>) -> Result<Statement, LineStop>
    ensures ok { IfOk result (λ s. Says (form_of form.now) s) }
    ensures err { IfErr result (λ e. RefusedFor (FirstBad (form_strings (form_of form.now))) e) }
{
    match form {
        Form::Books {
            name,
            parent,
            method,
        } => {
            let node = name_of(alloc, name)?;
            let parent = name_of(alloc, parent)?;
            booking(alloc, node, parent, method)
        }
        Form::Print(name) => Ok(Statement::Print {
            result: name_of(alloc, name)?,
        }),
        Form::VariationsFor(name) => Ok(Statement::VariationsFor {
            result: name_of(alloc, name)?,
        }),
        Form::Watch(name) => Ok(Statement::Watch {
            result: name_of(alloc, name)?,
        }),
    }
}
