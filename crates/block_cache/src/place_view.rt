// The columns of an evaluation at one place of a block, by what is held.
ghost use Rattle.std.specs.Prelude.{◌≡◌, ◌<◌, ◌+◌, ℕ, Some, length, slice_get};
ghost use Rattle.rdf_values.specs.{kind_at};
ghost use Rattle.rdf_model.specs.{◌>>=◌ as ◌>>>◌, tag_element};
ghost use Rattle.rdf_values.specs.declared.tables.value.ColType.TheVariants as kind;
ghost use Rattle.expr_eval.specs.{input_outcome};
ghost use Rattle.block_cache.specs.Lanes.{LaneView};
ghost use Rattle.loop_keys.specs.{held_in, held_or_need};
ghost use Rattle.block_cache.specs.Blocks.{cells_at};
ghost use Rattle.block_cache.specs.ForSites.{HasNumbersOver, IsReadOver, cell_over, columns_over, look_over};

use crate::Lane;
use crate::block::Block;
use expr_eval::{ColumnInput, Inputs};
use loop_keys::reading::place as place_of;
use loop_keys::rows::ValuePlace;
use rdf_values::{ColType, EntryFault};

/// What is read of one place of a block, by the lanes of the first keys.
#[derive(Drop)]
pub(crate) struct PlaceView<'a> {
    pub(crate) block: &'a Block<'a>,
    pub(crate) lanes: &'a [Lane],
    pub(crate) place: u32,
}

impl<'a> Inputs for PlaceView<'a> {
    ghost can = { λ v c. (v.place < v.block.now.count) × IsReadOver v.block.now v.lanes.now c };

    ghost look = { λ v c. look_over v.block.now v.lanes.now v.place c };

    fn at(&self, col: u32) -> ColumnInput<'_> {
        look(self.block, self.lanes, self.place, col)
    }
}

/// What is known of a version.
pub(crate) fn look<'a: 's, 's>(
    block: &Block<'a>,
    lanes: &'s [Lane],
    place: u32,
    version: u32,
) -> ColumnInput<'s>
    requires place { place < block.now.count }
    requires version { IsReadOver block.now lanes.now version }
    ensures { input_outcome version result ≡ look_over block.now lanes.now place version }
{
    match place_of(block.at, version) {
        ValuePlace::Cell { col } => cell(block, place, col),
        ValuePlace::Key { key } => known(lanes, key, place),
        ValuePlace::Element {
            key,
            place: nth,
            tags,
        } => element(known(lanes, key, place), nth, tags),
    }
}

/// The value of a column at a place: a number as it was loaded, or the elements where the table has them.
#[tactic(auto, using(loop_keys::proofs::ActionLaws::not_stored))]
fn cell<'a>(block: &Block<'a>, place: u32, col: u32) -> ColumnInput<'a>
    requires place { place < block.now.count }
    requires column { col < length (columns_over block.now) }
    requires loaded { kind_at (columns_over block.now) col ≡ Some kind.Int → HasNumbersOver block.now col }
    ensures { (c : ℕ) → input_outcome c result ≡ cell_over block.now place col }
{
    let columns = block.at.job.columns;
    match columns.columns()[col as usize].kind {
        ColType::Int => ColumnInput::Int(block.cells[col as usize].as_slice()[place as usize]),
        ColType::Vect => ColumnInput::Vect(columns.vec_at(block.at.entry + place, col)),
        ColType::Bool => unreachable!(),
    }
}

/// What is held of a key at a place.
fn known(lanes: &[Lane], key: usize, place: u32) -> ColumnInput<'_>
    requires key { key < length lanes.now }
    requires place { (l : LaneView) → slice_get lanes.now key ≡ Some l → place < l.count }
    ensures { (n c : ℕ) → input_outcome c result ≡ held_or_need c (held_in (cells_at n lanes.now place) key) }
{
    lanes[key].input(place)
}

/// What is known of the element of a vector at the place of a tag among so many.
fn element<'s>(vector: ColumnInput<'s>, place: u32, tags: u32) -> ColumnInput<'s>
    ensures { (c : ℕ) → input_outcome c result ≡ (input_outcome c vector.entry >>> tag_element tags place) }
{
    match vector {
        ColumnInput::Vect(zs) if zs.len() != tags as usize => ColumnInput::Faulted(
            EntryFault::VaryCount,
        ),
        ColumnInput::Vect(zs) => match zs.get(place as usize) {
            Some(z) => ColumnInput::Int(*z),
            None => ColumnInput::Faulted(EntryFault::Index),
        },
        ColumnInput::Int(_) | ColumnInput::Bool(_) => ColumnInput::Int(0),
        ColumnInput::Faulted(kind) => ColumnInput::Faulted(kind),
        ColumnInput::Missing => ColumnInput::Missing,
    }
}
