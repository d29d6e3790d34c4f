// The lines of what an action holds.
ghost use Rattle.std.specs.Prelude.{◌≡◌, ◌<◌, ◌++◌, OnOk, length};
ghost use Rattle.std.specs.Option.{ForSome};
ghost use Rattle.actions.specs.{filled_seen};
ghost use Rattle.rdf_model.specs.{filled_lines, label, scalar_text, taken_text, x_edges_of, y_edges_of};
ghost use Rattle.result_text.specs.{under_in, value_lines};

use crate::cells::{put_flat, put_square};
use crate::labels::put_label;
use crate::numbers::{put_count, put_number, put_option, put_sum, put_wide};
use actions::{Acc, Filled, Taken};
use graph::Variations;
use rdf_values::{ActionKind, Memory, Name, Scalar, Text};
use std::alloc::Global;

/// An action whose passes are printed: its result's name, what it is, and the variations in the order of their numbers.
#[derive(Clone, Copy)]
pub struct PrintedAction<'a> {
    pub name: &'a Name,
    pub kind: &'a ActionKind,
    pub variations: &'a Variations,
}

fn put_scalar(alloc: Global, text: &mut Text, value: Scalar) -> Result<(), Memory>
    ensures { OnOk result (text.new ≡ text.old ++ scalar_text value) }
{
    match value {
        Scalar::Int(z) => put_number(alloc, text, z),
        Scalar::Bool(true) => text.extend(b"true"),
        Scalar::Bool(false) => text.extend(b"false"),
    }
}

// Appends the values with one space between, or `none`.
fn put_taken(alloc: Global, text: &mut Text, taken: &Taken<'_>) -> Result<(), Memory>
    ensures { OnOk result (text.new ≡ text.old ++ taken_text taken.now) }
{
    if taken.len() == 0 {
        return text.extend(b"none");
    }
    put_scalar(alloc, text, taken.at(0))?;
    for i in 1..taken.len() {
        text.push(b' ')?;
        put_scalar(alloc, text, taken.at(i))?;
    }
    Ok(())
}

fn x_edges(kind: &ActionKind) -> &[i64]
    ensures { result.now ≡ x_edges_of kind.now }
{
    match kind {
        ActionKind::Histo1D { x_edges, .. } => x_edges.as_slice(),
        ActionKind::Histo2D { x_edges, .. } => x_edges.as_slice(),
        _ => &[],
    }
}

fn y_edges(kind: &ActionKind) -> &[i64]
    ensures { result.now ≡ y_edges_of kind.now }
{
    match kind {
        ActionKind::Histo2D { y_edges, .. } => y_edges.as_slice(),
        _ => &[],
    }
}

// Appends what an action holds, behind the label.
fn put_filled(
    alloc: Global,
    text: &mut Text,
    kind: &ActionKind,
    filled: &Filled<'_>,
) -> Result<(), Memory>
    ensures { OnOk result (text.new ≡ text.old ++ value_lines kind.now (filled_seen filled.now)) }
{
    match filled {
        Filled::Count(n) => put_count(alloc, text, *n)?,
        Filled::Sum(z) => put_sum(alloc, text, *z)?,
        Filled::Extreme(z) => put_option(alloc, text, *z)?,
        Filled::Taken(taken) => put_taken(alloc, text, taken)?,
        Filled::Number(z) => put_number(alloc, text, *z)?,
        Filled::Flat(hist) => {
            text.extend(b"histo1d ")?;
            put_wide(alloc, text, x_edges(kind).len() as u128 + 1)?;
            text.push(b'\n')?;
            return put_flat(alloc, text, x_edges(kind), hist);
        }
        Filled::Square(hist) => {
            text.extend(b"histo2d ")?;
            put_wide(alloc, text, x_edges(kind).len() as u128 + 1)?;
            text.push(b' ')?;
            put_wide(alloc, text, y_edges(kind).len() as u128 + 1)?;
            text.push(b'\n')?;
            return put_square(alloc, text, x_edges(kind), y_edges(kind), hist);
        }
    }
    text.push(b'\n')
}

/// Appends the lines of a pass of an action: what an accumulator holds, under the result's name and the variation of that number.
pub fn put_pass(
    alloc: Global,
    text: &mut Text,
    action: &PrintedAction<'_>,
    variation: Option<u32>,
    acc: &Acc,
) -> Result<(), Memory>
    requires { ForSome variation (λ v. v < length action.now.variations.now) }
    ensures { OnOk result (text.new ≡ text.old ++ filled_lines action.now.kind.now (label action.now.name.now (under_in action.now.variations.now variation)) acc.now.filled) }
{
    put_label(text, action.name, action.variations, variation)?;
    text.extend(b" = ")?;
    put_filled(alloc, text, action.kind, &acc.filled())
}
