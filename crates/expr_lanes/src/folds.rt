// Built-in functions of a vector that give a number.
ghost use Rattle.std.specs.Prelude.{◌≡◌, ◌+◌, ◌<◌};
ghost use Rattle.rdf_values.specs.{End, num_trees};
ghost use Rattle.rdf_values.specs.declared.tables.value.Value.TheVariants as val;
ghost use Rattle.expr_eval.specs.{input_outcome};
ghost use Rattle.expr_lanes.specs.Folds.{fold_named, fold_outcome, fold_read, fold_told, only_column};
ghost use Rattle.expr_lanes.specs.Able.{IsVectorAt};
ghost use Rattle.expr_lanes.specs.Marks.{lane_outcome};
ghost use Rattle.expr_lanes.specs.Places.{answered_at, EachPlace, Evaluated, IsReady};

use crate::MAX_PLACES;
use crate::kernel::{Kernel, run};
use crate::kernels::stop_at_fault;
use crate::lane_inputs::{LaneInputs, LaneVectors};
use crate::parting::Stopped;
use crate::selection::Selection;
use arrayvec::ArrayVec;
use expr_eval::elements::{greatest, least, sum};
use expr_eval::{ColumnInput, ScalarStop};
use rdf_values::{Callee, NumArgs, NumNode};

/// A function of the elements of a vector.
#[derive(Clone, Copy, Debug)]
pub enum Fold {
    Sum,
    Size,
    Least,
    Greatest,
}

/// A call of one with a column.
#[derive(Clone, Copy, Debug)]
pub struct FoldCall {
    pub fold: Fold,
    pub column: u32,
}

/// The call of such a function with a column that a call is, if it is one.
pub fn fold_call(callee: Callee, args: &NumArgs) -> Option<FoldCall>
    ensures { result ≡ fold_read callee (num_trees args.now) }
{
    let fold = fold_of(callee)?;
    let column = only_argument(args)?;
    Some(FoldCall { fold, column })
}

fn fold_of(callee: Callee) -> Option<Fold>
    ensures { result ≡ fold_named callee }
{
    match callee {
        Callee::Sum => Some(Fold::Sum),
        Callee::Size => Some(Fold::Size),
        Callee::Min => Some(Fold::Least),
        Callee::Max => Some(Fold::Greatest),
        Callee::Any | Callee::All | Callee::At | Callee::Abs | Callee::Given(_) => None,
    }
}

/// The column that is the only argument.
fn only_argument(args: &NumArgs) -> Option<u32>
    ensures { result ≡ only_column (num_trees args.now) }
{
    match args {
        NumArgs::End => None,
        NumArgs::More(first, rest) => match (&**first, &**rest) {
            (NumNode::Col(column), NumArgs::End) => Some(*column),
            _ => None,
        },
    }
}

/// A call of one at each place.
#[derive(Drop)]
struct Folded<'a, S: LaneInputs> {
    scope: &'a S,
    call: FoldCall,
}

impl<'a, S: LaneInputs> Kernel for Folded<'a, S> {
    ghost can = { λ s p. (p < S.size s.scope.now) × S.can_tell s.scope.now s.call.column };

    ghost gives = { λ s p. lane_outcome (fold_told s.call.fold (S.look s.scope.now p s.call.column)) };

    fn at(&self, place: u32) -> Result<i64, ScalarStop> {
        let column = self.call.column;
        let input = self.scope.tell(column, place);
        fold_input(self.call.fold, input, column)
    }
}

/// A column whose vectors stand in one list.
#[derive_where(Clone, Copy)]
struct ListedColumn<'a, S> {
    number: u32,
    scope: &'a S,
    list: LaneVectors<'a>,
}

/// A function of its vectors at each place.
#[derive(Drop)]
struct FoldedList<'a, S: LaneInputs>(Fold, ListedColumn<'a, S>);

impl<'a, S: LaneInputs> Kernel for FoldedList<'a, S> {
    ghost can = { λ s p. IsVectorAt s.1.list.vectors.now (s.1.list.first + p) (S.look s.1.scope.now p s.1.number) };

    ghost gives = { λ s p. lane_outcome (fold_told s.0 (S.look s.1.scope.now p s.1.number)) };

    #[inline(always)]
    fn at(&self, place: u32) -> Result<i64, ScalarStop> {
        let LaneVectors { vectors, first } = self.1.list;
        fold_elements(self.0, vectors.at(first as usize + place as usize))
    }
}

/// Writes what the function comes to at each selected place into the lane: each is a constant of a loop of its own.
fn fold_list<S: LaneInputs>(
    fold: Fold,
    column: ListedColumn<'_, S>,
    selection: &mut Selection,
    lane: &mut [i64],
    stops: &mut ArrayVec<Stopped, MAX_PLACES>,
)
    requires can { EachPlace selection.old (λ p. IsVectorAt column.list.vectors.now (column.list.first + p) (S.look column.scope.now p column.number)) }
    requires ready { IsReady (S.size column.scope.now) selection.old lane.old stops.old.items }
    ensures { Evaluated (λ p. lane_outcome (fold_told fold (S.look column.entry.scope.now p column.entry.number))) selection.old selection.new lane.old lane.new stops.old.items stops.new.items }
{
    match fold {
        Fold::Sum => run(&FoldedList(Fold::Sum, column), selection, lane, stops),
        Fold::Size => run(&FoldedList(Fold::Size, column), selection, lane, stops),
        Fold::Least => run(&FoldedList(Fold::Least, column), selection, lane, stops),
        Fold::Greatest => run(&FoldedList(Fold::Greatest, column), selection, lane, stops),
    }
}

/// Writes what the call comes to at each selected place into the lane.
pub(crate) fn fold_column<S: LaneInputs>(
    call: FoldCall,
    scope: &S,
    selection: &mut Selection,
    lane: &mut [i64],
    stops: &mut ArrayVec<Stopped, MAX_PLACES>,
)
    requires can { S.can_tell scope.now call.column }
    requires ready { IsReady (S.size scope.now) selection.old lane.old stops.old.items }
    ensures { Evaluated (λ p. lane_outcome (fold_told call.fold (S.look scope.now p call.column))) selection.old selection.new lane.old lane.new stops.old.items stops.new.items }
{
    match scope.vectors(call.column) {
        Some(list) => {
            let column = ListedColumn {
                number: call.column,
                scope,
                list,
            };
            fold_list(call.fold, column, selection, lane, stops)
        }
        None => run(&Folded { scope, call }, selection, lane, stops),
    }
}

/// What the function comes to with what is known of a column.
fn fold_input(fold: Fold, input: ColumnInput<'_>, column: u32) -> Result<i64, ScalarStop>
    ensures { answered_at result ≡ lane_outcome (fold_told fold (input_outcome column input.entry)) }
{
    match input {
        ColumnInput::Vect(xs) => fold_elements(fold, xs),
        // What no checked expression comes to is 0, as the definition of evaluation says.
        ColumnInput::Int(_) | ColumnInput::Bool(_) => Ok(0),
        ColumnInput::Faulted(kind) => Err(ScalarStop::Fault(kind)),
        ColumnInput::Missing => Err(ScalarStop::Need(column)),
    }
}

/// What the function comes to with a vector.
#[inline(always)]
fn fold_elements(fold: Fold, xs: &[i64]) -> Result<i64, ScalarStop>
    ensures { answered_at result ≡ lane_outcome (fold_outcome fold (val.Vect xs.now)) }
{
    match fold {
        Fold::Sum => stop_at_fault(sum(xs)),
        Fold::Size => Ok(xs.len() as i64),
        Fold::Least => stop_at_fault(least(xs)),
        Fold::Greatest => stop_at_fault(greatest(xs)),
    }
}
