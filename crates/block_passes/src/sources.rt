// The lanes that an action reads.
ghost use Rattle.std.specs.Prelude.{◌≡◌, ◌<◌, ◌+◌, ℕ, IfSome, List, None, Some, length, slice_get, true};
ghost use Rattle.rdf_values.specs.{kind_at};
ghost use Rattle.rdf_model.specs.{for_all};
ghost use Rattle.graph_numbers.specs.{cell_value};
ghost use Rattle.block_cache.specs.{HasColumn, kinds_of, LaneView};
ghost use Rattle.expr_lanes.specs.{is_in};
ghost use Rattle.loop_keys.specs.{row_of, version_in};
ghost use Rattle.block_passes.specs.{AreCopiedInTurn, AreHeldInTurn, AreLanesOf, CanGatherInTurn, CanServeWith, HasHeld, IsAtHand, IsCopyInTurn, IsLaneOf, IsOver, IsTurn, IsWhole, source_in_turn, turn_job, AreInPlaceInTurn};
ghost use Rattle.rdf_values.specs.declared.tables.value.ColType.TheVariants as kind;

use crate::copies::{CopiedVersion, Copies};
use crate::turn::{ActionRead, Turn};
use actions::{FedLane, Sources};
use block_cache::Lane;
use loop_keys::reading::{Reading, place};
use loop_keys::rows::ValuePlace;
use rdf_values::{ActionKind, ColType};

/// The lane of a key, unless it has vectors.
#[tactic(auto, using(crate::proofs::Serving::key_laws))]
fn key_lane(lanes: &[Lane], key: usize) -> Option<FedLane<'_>>
    requires { key < length lanes.now }
    ensures given { IfSome result (λ fed. (l : LaneView) → slice_get lanes.now key ≡ Some l → HasHeld l fed) }
    ensures none { result ≡ None → slice_get (kinds_of lanes.now) key ≡ Some kind.Vect }
{
    let lane = &lanes[key];
    match lane.kind() {
        ColType::Int => Some(FedLane::Int(lane.column().numbers)),
        ColType::Bool => Some(FedLane::Bool(lane.column().numbers)),
        ColType::Vect => None,
    }
}

/// The lane of a version, by what was copied of it over a selection.
fn version_lane<'a: 's, 's>(
    at: &Turn<'a>,
    lanes: &'s [Lane],
    copied: &'s CopiedVersion,
    version: u32,
    under: Option<u32>,
) -> FedLane<'s>
    requires over { IsOver at.now lanes.now }
    requires can { (scratch levels : ℕ) × CanServeWith at.now under lanes.now scratch levels version }
    requires copied { (selection : List ℕ) × IsCopyInTurn at.now under lanes.now selection version copied.now }
    ensures { (selection : List ℕ) → IsCopyInTurn at.now under lanes.now selection version copied.now → (p : ℕ) → p < at.now.count → is_in p selection ≡ true → IsAtHand (turn_job at.now) at.now.first lanes.now under p (source_in_turn at.now under version)
        → IsLaneOf (version_in {M = ⊥} (turn_job at.now) (at.now.first + p) under version) result p }
{
    match copied {
        CopiedVersion::Whole => match lane_in_place(at, lanes, version, under) {
            Some(lane) => lane,
            None => unreachable!(),
        },
        CopiedVersion::Numbers(numbers) => FedLane::Int(numbers.as_slice()),
        CopiedVersion::Vectors(vectors) => FedLane::Vects {
            elements: vectors.elements.as_slice(),
            spans: vectors.spans.as_slice(),
        },
    }
}

/// The lane of a column of the table.
#[tactic(auto, using(loop_keys::proofs::ActionLaws::not_stored, crate::proofs::Serving::column_laws))]
fn cell_lane<'a>(at: &Turn<'a>, col: u32) -> FedLane<'a>
    requires there { col < length at.now.job.now.columns.now.table.columns }
    requires numbers { kind_at at.now.job.now.columns.now.table.columns col ≡ Some kind.Int → HasColumn (turn_job at.now) at.now.first at.now.count at.now.cells.now col }
    requires turn { IsTurn at.now }
    ensures { (p : ℕ) → p < at.now.count → IsLaneOf (cell_value {M = ⊥} (slice_get (row_of (turn_job at.now) (at.now.first + p)) col)) result p }
{
    let columns = at.job.columns;
    match columns.columns()[col as usize].kind {
        ColType::Int => FedLane::Int(at.cells[col as usize].as_slice()),
        ColType::Vect => FedLane::Column {
            vectors: columns.vects(col),
            first: at.first,
        },
        ColType::Bool => unreachable!(),
    }
}

/// The lane of a version, unless it is a site's vectors or an element of these.
#[tactic(auto, using(crate::proofs::Serving::place_laws, crate::proofs::Serving::key_inside, crate::proofs::Serving::no_vectors))]
pub(crate) fn lane_in_place<'a: 's, 's>(
    at: &Turn<'a>,
    lanes: &'s [Lane],
    version: u32,
    under: Option<u32>,
) -> Option<FedLane<'s>>
    requires over { IsOver at.now lanes.now }
    requires can { (scratch levels : ℕ) × CanServeWith at.now under lanes.now scratch levels version }
    ensures given { IfSome result (λ lane. (p : ℕ) → p < at.now.count → IsAtHand (turn_job at.now) at.now.first lanes.now under p (source_in_turn at.now under version)
        → IsLaneOf (version_in {M = ⊥} (turn_job at.now) (at.now.first + p) under version) lane p) }
    ensures whole { IsWhole (turn_job at.now) under (kinds_of lanes.now) (source_in_turn at.now under version) → result ≡ None → ⊥ }
{
    let reading = Reading {
        job: at.job,
        row: at.row(under),
        entry: at.first,
        under,
    };
    match place(&reading, version) {
        ValuePlace::Cell { col } => Some(cell_lane(at, col)),
        ValuePlace::Key { key } => key_lane(lanes, key),
        ValuePlace::Element { .. } => None,
    }
}

/// The lanes of all versions that an action reads, over a selection at whose places they are at hand, by what was copied of them there.
pub(crate) fn gather<'a: 's, 's>(
    at: &Turn<'a>,
    lanes: &'s [Lane],
    copies: &'s Copies,
    own: &ActionRead<'_>,
) -> Sources<'s>
    requires over { IsOver at.now lanes.now }
    requires can { CanGatherInTurn at.now own.now lanes.now }
    requires copied { (selection : List ℕ) × AreCopiedInTurn at.now own.now lanes.now selection copies.now }
    ensures { (selection : List ℕ) → AreCopiedInTurn at.now own.now lanes.now selection copies.now → (p : ℕ) → p < at.now.count → is_in p selection ≡ true → AreHeldInTurn at.now own.now lanes.now p
        → AreLanesOf (for_all (version_in {M = ⊥} (turn_job at.now) (at.now.first + p) own.now.under) own.now.inputs.now) own.now.kind.now result p }
{
    let inputs = own.inputs;
    let under = own.under;
    match own.kind {
        ActionKind::Count => Sources::Entry,
        ActionKind::Sum(_)
        | ActionKind::Min(_)
        | ActionKind::Max(_)
        | ActionKind::Take(_)
        | ActionKind::Reduce(..)
        | ActionKind::Histo1D { weight: None, .. } => {
            let x = version_lane(at, lanes, &copies.first, inputs[0], under);
            Sources::One { x }
        }
        ActionKind::Histo1D {
            weight: Some(_),
            ..
        } => {
            let x = version_lane(at, lanes, &copies.first, inputs[0], under);
            let w = version_lane(at, lanes, &copies.second, inputs[1], under);
            Sources::Weighted { x, w }
        }
        ActionKind::Histo2D { weight: None, .. } => {
            let x = version_lane(at, lanes, &copies.first, inputs[0], under);
            let y = version_lane(at, lanes, &copies.second, inputs[1], under);
            Sources::Pair { x, y }
        }
        ActionKind::Histo2D {
            weight: Some(_),
            ..
        } => {
            let x = version_lane(at, lanes, &copies.first, inputs[0], under);
            let y = version_lane(at, lanes, &copies.second, inputs[1], under);
            let w = version_lane(at, lanes, &copies.third, inputs[2], under);
            Sources::WeightedPair { x, y, w }
        }
    }
}

/// Takes the lane of the only version that an action reads; none where it has to be copied.
#[inline(never)]
fn one_in_place<'a: 's, 's>(
    at: &Turn<'a>,
    lanes: &'s [Lane],
    own: &ActionRead<'_>,
    to: &mut Sources<'s>,
) -> Option<()>
    requires over { IsOver at.now lanes.now }
    requires can { CanGatherInTurn at.now own.now lanes.now }
    requires one { length own.now.inputs.now ≡ 1 }
    ensures { IfSome result (λ _. AreInPlaceInTurn at.now own.now lanes.now to.new) }
{
    let x = lane_in_place(at, lanes, own.inputs[0], own.under)?;
    *to = Sources::One { x };
    Some(())
}

/// Takes the lanes of the coordinates of a histogram and of its weight, if it has one, likewise.
#[inline(never)]
fn several_in_place<'a: 's, 's>(
    at: &Turn<'a>,
    lanes: &'s [Lane],
    own: &ActionRead<'_>,
    to: &mut Sources<'s>,
) -> Option<()>
    requires over { IsOver at.now lanes.now }
    requires can { CanGatherInTurn at.now own.now lanes.now }
    requires several { 1 < length own.now.inputs.now }
    ensures { IfSome result (λ _. AreInPlaceInTurn at.now own.now lanes.now to.new) }
{
    let x = lane_in_place(at, lanes, own.inputs[0], own.under)?;
    let y = lane_in_place(at, lanes, own.inputs[1], own.under)?;
    match own.kind {
        ActionKind::Histo1D {
            weight: Some(_),
            ..
        } => {
            *to = Sources::Weighted { x, w: y };
            Some(())
        }
        ActionKind::Histo2D { weight: None, .. } => {
            *to = Sources::Pair { x, y };
            Some(())
        }
        ActionKind::Histo2D {
            weight: Some(_),
            ..
        } => {
            let w = lane_in_place(at, lanes, own.inputs[2], own.under)?;
            *to = Sources::WeightedPair { x, y, w };
            Some(())
        }
        _ => None,
    }
}

/// Takes the lanes of all versions that an action reads, at places at which they are at hand; none where one of them has to be copied.
/// They are put where they are fed from, since to move them costs as much as to feed an entry.
#[inline(always)]
pub(crate) fn lanes_in_place<'a: 's, 's>(
    at: &Turn<'a>,
    lanes: &'s [Lane],
    own: &ActionRead<'_>,
    to: &mut Sources<'s>,
) -> Option<()>
    requires over { IsOver at.now lanes.now }
    requires can { CanGatherInTurn at.now own.now lanes.now }
    ensures { IfSome result (λ _. AreInPlaceInTurn at.now own.now lanes.now to.new) }
{
    match own.kind {
        ActionKind::Count => {
            *to = Sources::Entry;
            Some(())
        }
        ActionKind::Sum(_)
        | ActionKind::Min(_)
        | ActionKind::Max(_)
        | ActionKind::Take(_)
        | ActionKind::Reduce(..)
        | ActionKind::Histo1D { weight: None, .. } => one_in_place(at, lanes, own, to),
        ActionKind::Histo1D {
            weight: Some(_),
            ..
        }
        | ActionKind::Histo2D { .. } => several_in_place(at, lanes, own, to),
    }
}
