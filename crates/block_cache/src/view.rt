// The columns of an evaluation over a block, by what is held.
ghost use Rattle.std.specs.Prelude.{◌<◌};
ghost use Rattle.block_cache.specs.ForSites.{IsReadOver, IsWholeOver, look_over};

use crate::Lane;
use crate::block::Block;
use crate::place_view::look;
use expr_eval::{ColumnInput, ScalarStop};
use expr_lanes::{KnownPlaces, LaneColumn, LaneInputs, LaneVectors};
use loop_keys::reading::place;
use loop_keys::rows::ValuePlace;
use rdf_values::ColType;

/// What is read of a block: the lanes of the first keys, and the table's columns.
#[derive(Drop)]
pub(crate) struct BlockView<'a> {
    pub(crate) block: &'a Block<'a>,
    pub(crate) lanes: &'a [Lane],
}

impl<'a> LaneInputs for BlockView<'a> {
    ghost size = { λ v. v.block.now.count };

    ghost can = { λ v c. IsWholeOver v.block.now v.lanes.now c };

    ghost can_tell = { λ v c. IsReadOver v.block.now v.lanes.now c };

    ghost look = { λ v p c. look_over v.block.now v.lanes.now p c };

    fn column(&self, col: u32) -> LaneColumn<'_> {
        match place(self.block.at, col) {
            ValuePlace::Cell { col } => LaneColumn {
                numbers: self.block.cells[col as usize].as_slice(),
                known: KnownPlaces::Everywhere,
            },
            ValuePlace::Key { key } => self.lanes[key].column(),
            ValuePlace::Element { .. } => unreachable!(),
        }
    }

    fn stop(&self, col: u32, _place: u32) -> ScalarStop {
        ScalarStop::Need(col)
    }

    fn tell(&self, col: u32, place: u32) -> ColumnInput<'_> {
        look(self.block, self.lanes, place, col)
    }

    fn vectors(&self, col: u32) -> Option<LaneVectors<'_>> {
        let ValuePlace::Cell { col } = place(self.block.at, col) else {
            return None;
        };
        let columns = self.block.at.job.columns;
        match columns.columns()[col as usize].kind {
            ColType::Vect => Some(LaneVectors {
                vectors: columns.vects(col),
                first: self.block.at.entry,
            }),
            ColType::Int | ColType::Bool => None,
        }
    }

    fn has_numbers(&self, col: u32) -> bool {
        match place(self.block.at, col) {
            ValuePlace::Cell { col } => matches!(
                self.block.at.job.columns.columns()[col as usize].kind,
                ColType::Int
            ),
            ValuePlace::Key { key } => !matches!(self.lanes[key].kind(), ColType::Vect),
            ValuePlace::Element { .. } => false,
        }
    }
}
