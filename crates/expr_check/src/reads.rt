// The columns that a numbered expression names.
ghost use Rattle.std.specs.Prelude.{◌≡◌, ◌++◌, nat_eq, OnOk, IfOk};
ghost use Rattle.std.specs.List.{list_any};
ghost use Rattle.rdf_values.specs.{columns_in, columns_in_all, num_tree, num_trees};
ghost use Rattle.expr_check.specs.{distinct, with_new};

use rdf_values::{Memory, NumArgs, NumNode};
use std::alloc::Global;

#[cycle(columns)]
fn push_columns(columns: &mut Vec<u32>, node: &NumNode) -> Result<(), Memory>
    ensures { OnOk result (columns.new.items ≡ columns.old.items ++ columns_in (num_tree node.now)) }
{
    match node {
        NumNode::Lit(_) | NumNode::Truth(_) => Ok(()),
        NumNode::Col(number) => Ok(columns.push(*number)?),
        NumNode::Neg(a) | NumNode::Not(a) => push_columns(columns, a),
        NumNode::Bin(_, a, b) | NumNode::Pick(a, b) => {
            push_columns(columns, a)?;
            push_columns(columns, b)
        }
        NumNode::Cond(condition, first, second) => {
            push_columns(columns, condition)?;
            push_columns(columns, first)?;
            push_columns(columns, second)
        }
        NumNode::Call(_, args) => push_columns_of_all(columns, args),
    }
}

#[cycle(columns)]
fn push_columns_of_all(columns: &mut Vec<u32>, args: &NumArgs) -> Result<(), Memory>
    ensures { OnOk result (columns.new.items ≡ columns.old.items ++ columns_in_all (num_trees args.now)) }
{
    match args {
        NumArgs::End => Ok(()),
        NumArgs::More(first, rest) => {
            push_columns(columns, first)?;
            push_columns_of_all(columns, rest)
        }
    }
}

fn contains(numbers: &[u32], number: u32) -> bool
    ensures { result ≡ list_any (nat_eq number) numbers.now }
{
    numbers.iter().any(|n| number == *n)
}

fn push_new(seen: &mut Vec<u32>, number: u32) -> Result<(), Memory>
    ensures { OnOk result (seen.new.items ≡ with_new seen.old.items number) }
{
    if contains(seen.as_slice(), number) {
        return Ok(());
    }
    Ok(seen.push(number)?)
}

#[tactic(auto, using(crate::proofs::Typed::distinct_more))]
fn distinct(alloc: Global, numbers: &[u32]) -> Result<Vec<u32>, Memory>
    ensures { IfOk result (λ v. v.items ≡ distinct numbers.now) }
{
    let mut seen = Vec::new(alloc);
    for number in numbers {
        push_new(&mut seen, *number)?;
    }
    Ok(seen)
}

/// The numbers of the columns that an expression names, each once, where it stands first.
pub(crate) fn reads(alloc: Global, node: &NumNode) -> Result<Vec<u32>, Memory>
    ensures { IfOk result (λ v. v.items ≡ distinct (columns_in (num_tree node.now))) }
{
    let mut columns = Vec::new(alloc);
    push_columns(&mut columns, node)?;
    distinct(alloc, columns.as_slice())
}
