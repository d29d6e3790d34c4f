// The state of one slot, and the blocks of a cluster, one after the other.
ghost use Rattle.std.specs.Prelude.{◌≡◌, ◌<◌, ◌≤◌, ◌-◌, IfOk, length, ◌≢◌, ◌+◌, ◌*◌, ℕ, All, Err, List, OnOk, Some, slice_get};
ghost use Rattle.loop_keys.specs.{Fits, job_of, facts_in, IsNoTake, IsPlainLoop, job_spans, passes_in};
ghost use Rattle.rdf_model.specs.{kinds_in};
ghost use Rattle.cluster_tally.specs.{at_begin, Holds, Stage};
ghost use Rattle.block_passes.specs.{at_end, IsBefore, IsBegunBlock, IsBlockTried, IsClusterAnswer, IsStateOf, span_demands};

use crate::block_ends::block_end;
use crate::ending::try_begun;
use crate::plan::LoopPlan;
use crate::reserve::{
    deepest, forget, key_kinds, load_columns, new_cells, new_kept, new_levels, new_scratch,
};
use crate::turn::{BlockStop, Found, KeptPlaces, Turn, Work};
use block_cache::cells::CellLane;
use block_cache::{begin_block, block_size, new_lanes};
use cluster_tally::Tally;
use columns::Over;
use expr_eval::Steps;
use loop_keys::Job;
use loop_keys::rows::{Row, rows_of};
use rdf_values::{ListOf, Memory, Span};
use std::alloc::Global;
use std::marker::Model;
use std::sync::ledger::Ledger;

/// All that a slot of a loop takes for its blocks but vectors: it is reserved once, and each block begins with it.
#[derive(Drop)]
pub struct BlockState {
    pub(crate) size: u32,
    pub(crate) plan: LoopPlan,
    pub(crate) rows: ListOf<Row>,
    pub(crate) cells: Vec<CellLane>,
    pub(crate) work: Work,
    pub(crate) kept: Vec<KeptPlaces>,
}

impl Model for BlockState {
    ghost use Rattle.std.specs.Prelude.{length};
    ghost use Rattle.block_passes.specs.States.{StateView};

    ghost Value = { StateView };

    ghost view = { λ s. record {
      size = s.size;
      plan = s.plan;
      rows = s.rows;
      cells = s.cells.items;
      lanes = s.work.lanes.items;
      scratch = length s.work.scratch.items;
      levels = length s.work.levels.items;
      found = s.work.found;
      kept = s.kept.items;
    } };
}

/// The entries of a cluster.
fn span_of(job: &Job<'_>, cluster: u32) -> Span
    requires { cluster < length (job_spans (job_of job.now)) }
    ensures { slice_get (job_spans (job_of job.now)) cluster ≡ Some result }
{
    job.columns.cuts().range(cluster)
}

impl BlockState {
    /// What a slot of the job's loop takes. No block has begun.
    pub fn new(alloc: Global, job: &Job<'_>) -> Result<BlockState, Memory>
        requires { Fits job.now }
        ensures { IfOk result (IsStateOf (job_of job.now)) }
    {
        let plan = LoopPlan::new(alloc, job)?;
        let (rows, keys) = rows_of(alloc, job.graph)?;
        let size = block_size(keys);
        let kinds = key_kinds(alloc, job.graph)?;
        let cells = new_cells(alloc, job.columns.columns().len(), size)?;
        let work = Work {
            lanes: new_lanes(alloc, kinds.as_slice(), size)?,
            scratch: new_scratch(alloc, deepest(job.graph)?)?,
            levels: new_levels(alloc, job.graph.sites() as usize)?,
            found: Found::begin(0),
        };
        let kept = new_kept(alloc, plan.steps())?;
        Ok(BlockState {
            size: size as u32,
            plan,
            rows,
            cells,
            work,
            kept,
        })
    }

    /// Begins a block of these entries of a cluster.
    pub fn begin(&mut self, job: &Job<'_>, over: &Over<'_>, entries: Span)
        requires job { Fits job.now }
        requires state { IsStateOf (job_of job.now) self.old }
        requires columns { over.now.columns.now ≡ job.now.columns.now }
        requires from { over.now.span.lo ≤ entries.lo }
        requires within { entries.hi ≤ over.now.span.hi }
        requires inside { entries.hi ≤ length (job_of job.now).dataset.rows }
        requires some { entries.lo < entries.hi }
        requires small { entries.hi - entries.lo ≤ self.old.size }
        ensures state { IsStateOf (job_of job.now) self.new }
        ensures begun { IsBegunBlock (job_of job.now) entries.lo (entries.hi - entries.lo) self.new }
    {
        let count = entries.hi - entries.lo;
        load_columns(&mut self.cells, job, over, entries, self.size);
        begin_block(&mut self.work.lanes, count as usize);
        forget(&mut self.kept);
        self.work.found = Found::begin(count);
    }

    /// Tries all passes over the next block of a cluster, and takes it in where none faults.
    pub(crate) fn try_block<L: Ledger>(
        &mut self,
        job: &Job<'_>,
        cluster: u32,
        entries: Span,
        tally: &mut Tally,
        steps: &mut Steps<L>,
    ) -> Result<(), BlockStop>
        requires job { Fits job.now }
        requires state { IsStateOf (job_of job.now) self.old }
        requires small { entries.hi - entries.lo ≤ self.old.size }
        requires before { (watched : List ℕ) × (s : Stage) × IsBefore (job_of job.now) watched s cluster entries tally.old }
        ensures state { IsStateOf (job_of job.now) self.new }
        ensures tried { IsBlockTried (job_of job.now) cluster entries tally.old tally.new steps.old steps.new result }
        ensures plain { IsPlainLoop (job_of job.now) → All IsNoTake (kinds_in (passes_in (job_of job.now))) → result ≢ Err BlockStop.Memory }
    {
        let over = job.columns.over(cluster);
        self.begin(job, &over, entries);
        let turn = Turn {
            job,
            plan: &self.plan,
            rows: self.rows.as_slice(),
            cells: &self.cells,
            first: entries.lo,
            count: entries.hi - entries.lo,
            pass: 0,
        };
        try_begun(&turn, &mut self.work, &mut self.kept, tally, cluster, steps)
    }

    // How many entries a block has at most.
    fn size(&self) -> u32
        ensures { result ≡ self.now.size }
    {
        self.size
    }

    /// Takes the blocks of a cluster into the tally, in order, up to the first in which a pass faults, in a loop with so many keys of
    /// vectors.
    pub fn try_cluster<L: Ledger>(
        &mut self,
        job: &Job<'_>,
        cluster: u32,
        keys: u64,
        tally: &mut Tally,
        steps: &mut Steps<L>,
    ) -> Result<(), BlockStop>
        requires job { Fits job.now }
        requires state { IsStateOf (job_of job.now) self.old }
        requires cluster { cluster < length (job_spans (job_of job.now)) }
        requires keys { keys < 1099511627776 }
        requires begin { (watched : List ℕ) × (done : List ℕ) × Holds (facts_in (job_of job.now)) watched (at_begin done cluster) tally.old }
        ensures answer { IsClusterAnswer (job_of job.now) cluster result }
        ensures holds { (watched done : List ℕ) → Holds (facts_in (job_of job.now)) watched (at_begin done cluster) tally.old
            → OnOk result (Holds (facts_in (job_of job.now)) watched (at_end (facts_in (job_of job.now)) done cluster) tally.new) }
        ensures state { IsStateOf (job_of job.now) self.new }
        ensures bound { steps.new ≤ steps.old + 2 * span_demands (job_of job.now) self.old.size keys cluster }
        ensures plain { IsPlainLoop (job_of job.now) → All IsNoTake (kinds_in (passes_in (job_of job.now))) → result ≢ Err BlockStop.Memory }
    {
        let span = span_of(job, cluster);
        let mut lo = span.lo;
        while lo < span.hi {
            let left = Span { lo, hi: span.hi };
            let hi = block_end(job.columns, left, self.size(), keys);
            match self.try_block(job, cluster, Span { lo, hi }, tally, steps) {
                Ok(()) => lo = hi,
                Err(stop) => return Err(stop),
            }
        }
        Ok(())
    }
}
