// The numbers of a table's columns over a block.
ghost use Rattle.std.specs.Prelude.{◌≡◌, ◌≤◌, ◌-◌, IfOk, Some, length};
ghost use Rattle.rdf_values.specs.{kind_at};
ghost use Rattle.rdf_values.specs.declared.tables.value.ColType.TheVariants as kind;
ghost use Rattle.block_cache.specs.Blocks.{IsColumn};

use columns::Over;
use rdf_values::{Memory, Span};
use std::alloc::Global;
use std::marker::Model;

/// The numbers of a column at the entries of a block.
#[derive(Drop)]
pub struct CellLane {
    numbers: Vec<i64>,
}

impl Model for CellLane {
    ghost use Rattle.std.specs.Prelude.{ℤ, List};

    ghost Value = { List ℤ };

    ghost view = { λ l. l.numbers.items };
}

impl CellLane {
    /// All the memory that the numbers take for blocks of so many entries.
    pub fn new(alloc: Global, room: usize) -> Result<CellLane, Memory>
        ensures { IfOk result (λ l. length l ≡ room) }
    {
        let numbers = vec![in alloc; 0; room]?;
        Ok(CellLane { numbers })
    }

    /// Reads the numbers of a column at some entries of a cluster.
    pub fn load(&mut self, over: &Over<'_>, entries: Span, col: u32)
        requires from { over.now.span.lo ≤ entries.lo }
        requires within { entries.hi ≤ over.now.span.hi }
        requires room { entries.hi - entries.lo ≤ length self.old }
        requires column { kind_at over.now.columns.now.table.columns col ≡ Some kind.Int }
        ensures column { IsColumn over.now.columns.now.table.rows entries.lo (entries.hi - entries.lo) col self.new }
        ensures room { length self.new ≡ length self.old }
    {
        over.read(entries, col, self.numbers.as_mut_slice());
    }

    /// The numbers by their places.
    pub fn as_slice(&self) -> &[i64]
        ensures { result.now ≡ self.now }
    {
        self.numbers.as_slice()
    }
}
