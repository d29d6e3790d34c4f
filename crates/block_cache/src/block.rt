// A block of entries, and a site over it.
ghost use Rattle.std.specs.Prelude.{◌≤◌, ◌+◌, length, ◌<◌};
ghost use Rattle.loop_keys.specs.{Fits, IsRow, job_graph, job_of};
ghost use Rattle.block_cache.specs.OneProof.{fits-prop, row-prop};
ghost use Rattle.graph_numbers.specs.{graph_sites};

use crate::cells::CellLane;
use loop_keys::reading::Reading;

/// The entries of a block from that of the reading on, with the numbers of the table's columns.
#[derive(Clone, Copy)]
pub struct Block<'a> {
    pub at: &'a Reading<'a>,
    pub count: usize,
    pub cells: &'a [CellLane],
    pub ghost fits: { Fits at.now.job.now } by { fits-prop at.now.job.now },
    pub ghost row: { IsRow (job_graph (job_of at.now.job.now)) at.now.under at.now.row.now } by { row-prop (job_graph (job_of at.now.job.now)) at.now.under at.now.row.now },
    pub ghost within: { at.now.entry + count ≤ length at.now.job.now.columns.now.table.rows },
}

/// A site whose values are wanted over a block.
#[derive(Clone, Copy)]
pub struct Wanted<'a> {
    pub block: &'a Block<'a>,
    pub site: u32,
    pub ghost there: { site < length (graph_sites (job_graph (job_of block.now.at.now.job.now))) },
}
