// The block whose turn it is, and the search for its first fault.
ghost use Rattle.std.specs.Prelude.{◌≡◌, ◌<◌, ◌+◌, ◌^◌, IfSome, None, Some, ◌≤◌, ℕ, false, true};
ghost use Rattle.block_cache.specs.{PlaceFault as FaultAt};
ghost use Rattle.loop_keys.specs.{Fits, IsReportPass, IsRow, job_graph, numbered_in};
ghost use Rattle.block_passes.specs.{noted, IsNarrowed, IsReadOf, IsTurn, turn_job};
ghost use Rattle.std.specs.List.{range_with_len};
ghost use Rattle.expr_lanes.specs.declared.TheConstants.{MAX_PLACES};

use crate::plan::LoopPlan;
use block_cache::Lane;
use block_cache::cells::CellLane;
use block_cache::faults::PlaceFault;
use block_cache::level::Level;
use expr_lanes::{Scratch, Selection};
use graph_numbers::{Pass, ResultKind};
use loop_keys::Job;
use loop_keys::rows::Row;
use rdf_values::{ActionKind, Fault};

/// The first fault so far of the passes of a loop over a block, if one faults, and the places that are still tried: those below the limit.
#[derive(Clone, Copy, Debug)]
pub struct Found {
    pub limit: u32,
    pub best: Option<Fault>,
}

impl Found {
    /// Where nothing was tried of so many entries.
    pub fn begin(count: u32) -> Found
        ensures { result ≡ record { limit = count; best = None } }
    {
        Found {
            limit: count,
            best: None,
        }
    }

    /// A fault that was found at a place, if one was, lowers the limit. The block begins at entry `first`.
    pub fn note(&mut self, first: u32, pass: u32, fault: Option<PlaceFault>)
        requires { (f : FaultAt) → fault ≡ Some f → first + f.place < 2 ^ 32 }
        ensures { self.new ≡ noted first pass self.old fault }
    {
        let Some(found) = fault else {
            return;
        };
        let place = found.place;
        self.limit = place;
        self.best = Some(Fault {
            entry: first + place,
            pass,
            kind: found.kind,
        });
    }
}

/// The places of a step, as they were selected below a limit; none are yet where there is no limit.
#[derive(Drop)]
pub struct KeptPlaces {
    pub(crate) limit: Option<u32>,
    pub(crate) places: Selection,
}

impl KeptPlaces {
    /// Whether a selection was made; only the places below the limit are left of it.
    pub(crate) fn narrow(&mut self, limit: u32) -> bool
        ensures made { result ≡ true → (made : ℕ) × (self.old.limit ≡ Some made) × IsNarrowed limit made self.old self.new }
        ensures none { result ≡ false → self.new ≡ self.old }
        ensures some { (made : ℕ) → self.old.limit ≡ Some made → IsNarrowed limit made self.old self.new }
    {
        let Some(made) = self.limit else {
            return false;
        };
        if limit < made {
            self.places.keep_below(limit);
            self.limit = Some(limit);
            return true;
        }
        true
    }

    /// Whether a selection was made, of which only places below the limit are left.
    pub(crate) fn is_made(&self, limit: u32) -> bool
        ensures { result ≡ true → (made : ℕ) × (self.now.limit ≡ Some made) × (made ≤ limit) }
    {
        match self.limit {
            Some(made) => made <= limit,
            None => false,
        }
    }

    /// Selects the first places of a block.
    pub(crate) fn select_first(&mut self, limit: u32)
        requires { limit ≤ MAX_PLACES }
        ensures limit { self.new.limit ≡ Some limit }
        ensures places { self.new.places ≡ range_with_len 0 limit }
    {
        self.places.select_first(limit as usize);
        self.limit = Some(limit);
    }
}

/// The first fault of a block, or want of memory.
#[derive(Clone, Copy, Debug, PartialEq, Eq)]
pub enum BlockStop {
    Fault(Fault),
    Memory,
}

/// A pass of a loop, and the entries of a block over which it is tried.
#[derive(Clone, Copy)]
pub(crate) struct Turn<'a> {
    pub(crate) job: &'a Job<'a>,
    pub(crate) plan: &'a LoopPlan,
    pub(crate) rows: &'a [Row],
    pub(crate) cells: &'a [CellLane],
    pub(crate) first: u32,
    pub(crate) count: u32,
    pub(crate) pass: u32,
}

impl<'a> Turn<'a> {
    /// Goes on to another pass over the same block.
    pub(crate) fn go_to(&mut self, pass: u32)
        ensures { self.new ≡ record self.old { pass = pass } }
    {
        self.pass = pass;
    }

    /// The row of nominal or a variation. Under a variation that isn't there all is as under nominal.
    pub(crate) fn row(&self, under: Option<u32>) -> &'a Row
        requires { IsTurn self.now }
        ensures { IsRow (job_graph (turn_job self.now)) under result.now }
    {
        let rows = self.rows;
        let Some(v) = under else {
            return &rows[0];
        };
        let place = v as usize + 1;
        let count = rows.len();
        if place < count {
            &rows[place]
        } else {
            &rows[0]
        }
    }

    /// What the action of a pass reads; a report has none.
    #[tactic(auto, using(loop_keys::proofs::PassNumbers::found_report))]
    pub(crate) fn action_read(&self, own: Pass) -> Option<ActionRead<'a>>
        requires job { Fits self.now.job.now }
        requires own { numbered_in (turn_job self.now) self.now.pass ≡ Some own }
        ensures action { IfSome result (λ a. IsReadOf (turn_job self.now) self.now.pass a.kind.now a.inputs.now a.under) }
        ensures report { result ≡ None → IsReportPass (turn_job self.now) self.now.pass own.result }
    {
        match self.job.graph.kind(own.result) {
            ResultKind::Action(kind) => Some(ActionRead {
                kind,
                inputs: self.job.graph.inputs(own.result),
                under: own.variation,
            }),
            ResultKind::Report => None,
        }
    }
}

/// What was evaluated of the block, with room for evaluations and for sites within one another, and the search for its first fault.
#[derive(Drop)]
pub struct Work {
    pub(crate) lanes: Vec<Lane>,
    pub(crate) scratch: Vec<Scratch>,
    pub(crate) levels: Vec<Level>,
    pub(crate) found: Found,
}

/// The filter of a site under nominal or a variation.
#[derive(Clone, Copy, Debug)]
pub(crate) struct SiteFilter {
    pub(crate) site: u32,
    pub(crate) under: Option<u32>,
}

/// A step of the plan with one more filter than the step of its parent.
#[derive(Clone, Copy, Debug)]
pub(crate) struct NextStep {
    pub(crate) step: u32,
    pub(crate) parent: u32,
    pub(crate) filter: SiteFilter,
}

/// What an action reads, under nominal or a variation.
#[derive(Clone, Copy)]
pub(crate) struct ActionRead<'a> {
    pub(crate) kind: &'a ActionKind,
    pub(crate) inputs: &'a [u32],
    pub(crate) under: Option<u32>,
}
