// How many histogram cells and Takes the passes of results have.
ghost use Rattle.std.specs.Prelude.{◌≡◌, ◌∷◌, ◌+◌, ◌≤◌, [], length, nat_lt, IfOk};
ghost use Rattle.std.specs.Option.{option_copied};
ghost use Rattle.rdf_values.specs.{ActionAt, bookings, cells_of, first_refusal, has_variations, Path, refuse_if, takes_of};
ghost use Rattle.rdf_values.specs.declared.scripts.script_cause.GraphCause.TheVariants as cause_of;
ghost use Rattle.graph.specs.{asked_after, IsAmount, printed_rows, rows_of, statements};

use crate::lookup::result_count;
use crate::refusals::refuse_if;
use crate::tables::ResultRow;
use rdf_values::{ActionKind, GraphCause, Line, Memory, Name, Statement};

const MOST_CELLS: usize = 1048576;

const MOST_TAKES: usize = 16;

/// Histogram cells and Takes, each counted over passes.
#[derive(Clone, Copy)]
pub struct Amounts {
    pub cells: usize,
    pub takes: usize,
}

pub(crate) fn cells_of(action: &ActionKind) -> Result<usize, Memory>
    ensures { IfOk result (λ n. (at : Path) → n ≡ cells_of (ActionAt action.now at)) }
{
    match action {
        ActionKind::Histo1D { x_edges, .. } => x_edges.len().checked_add(1).ok_or(Memory),
        ActionKind::Histo2D {
            x_edges,
            y_edges,
            ..
        } => {
            let across = x_edges.len().checked_add(1).ok_or(Memory)?;
            let up = y_edges.len().checked_add(1).ok_or(Memory)?;
            across.checked_mul(up).ok_or(Memory)
        }
        _ => Ok(0),
    }
}

pub(crate) fn takes_of(action: &ActionKind) -> usize
    ensures { (at : Path) → result ≡ takes_of (ActionAt action.now at) }
{
    usize::from(matches!(action, ActionKind::Take(_)))
}

pub(crate) fn has_variations(before: &[Line], name: &Name) -> bool
    ensures { result ≡ has_variations (statements before.now) name.now }
{
    let Some((last, rest)) = before.split_first() else {
        return false;
    };
    let own = matches!(&last.statement, Statement::VariationsFor { result } if result.is(name));
    own || has_variations(rest, name)
}

pub(crate) fn row_amounts(
    before: &[Line],
    more: Option<&Name>,
    row: &ResultRow,
) -> Result<Amounts, Memory>
    ensures { IfOk result (IsAmount (asked_after (option_copied more.entry) (statements before.now)) (row.now ∷ [])) }
{
    let own = more.is_some_and(|name| name.is(&row.name));
    let asked = own || has_variations(before, &row.name);
    let count = row.set.count() as usize;
    let passes = if asked { count + 1 } else { 1 };
    Ok(Amounts {
        cells: passes.checked_mul(row.cells).ok_or(Memory)?,
        takes: passes.checked_mul(row.takes).ok_or(Memory)?,
    })
}

pub(crate) fn both(first: Amounts, second: Amounts) -> Result<Amounts, Memory>
    ensures { IfOk result (λ a. (a.cells ≡ first.cells + second.cells) × (a.takes ≡ first.takes + second.takes)) }
{
    Ok(Amounts {
        cells: first.cells.checked_add(second.cells).ok_or(Memory)?,
        takes: first.takes.checked_add(second.takes).ok_or(Memory)?,
    })
}

/// Those of all the results or of those of a name, after lines and where a result is given one more that asks for its variations.
pub(crate) fn amounts_of(
    before: &[Line],
    more: Option<&Name>,
    only: Option<&Name>,
    rows: &[ResultRow],
) -> Result<Amounts, Memory>
    ensures { IfOk result (IsAmount (asked_after (option_copied more.entry) (statements before.now)) (rows_of (option_copied only.entry) rows.now)) }
{
    let Some((first, rest)) = rows.split_first() else {
        return Ok(Amounts { cells: 0, takes: 0 });
    };
    let others = amounts_of(before, more, only, rest)?;
    if only.is_some_and(|name| !first.name.is(name)) {
        return Ok(others);
    }
    both(row_amounts(before, more, first)?, others)
}

/// Those of the results that lines print, each of which was booked before.
#[tactic(auto, using(crate::proofs::Walking::count_step))]
pub(crate) fn amounts_printed(
    before: &[Line],
    lines: &[Line],
    rows: &[ResultRow],
) -> Result<Amounts, Memory>
    requires { length (bookings (statements lines.now)) ≤ length rows.now }
    ensures { IfOk result (IsAmount (statements before.now) (printed_rows (statements lines.now) rows.now)) }
{
    let Some((last, rest)) = lines.split_first() else {
        return Ok(Amounts { cells: 0, takes: 0 });
    };
    let others = amounts_printed(before, rest, rows)?;
    match &last.statement {
        Statement::Print { result } => {
            let rows = &rows[..result_count(rest)];
            let own = amounts_of(before, None, Some(result), rows)?;
            both(own, others)
        }
        _ => Ok(others),
    }
}

pub(crate) fn too_many(a: Amounts) -> Option<GraphCause>
    ensures { result ≡ first_refusal (refuse_if (nat_lt 1048576 a.cells) cause_of.TooMany ∷ refuse_if (nat_lt 16 a.takes) cause_of.TooMany ∷ []) }
{
    let many = a.cells > MOST_CELLS || a.takes > MOST_TAKES;
    refuse_if(many, GraphCause::TooMany)
}
