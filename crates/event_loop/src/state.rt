// The state of one slot.
ghost use Rattle.std.specs.Prelude.{◌≡◌, ◌≢◌, ◌<◌, ◌≤◌, ◌+◌, ◌*◌, ◌++◌, ◌∷◌, [], All, IfOk, None, Some, Ok, Err, length, slice_get};
ghost use Rattle.rdf_values.specs.{Fault, history, StatementsHaveWords};
ghost use Rattle.loop_keys.specs.{Fits, job_graph, job_of, key_count};
ghost use Rattle.block_cache.specs.{size_for};
ghost use Rattle.block_passes.specs.{span_demands};
ghost use Rattle.loop_pieces.specs.{HaveTrails, StandsFor};
ghost use Rattle.event_loop.specs.EventLoops.{JobFacts, job_facts};
ghost use Rattle.event_loop.specs.Workers.{IsFreshSlot, IsPlainSlot, IsSlotOf};

use crate::passes::tally_of;
use block_passes::{BlockState, BlockStop, vector_keys};
use cluster_tally::Tally;
use expr_eval::Steps;
use loop_keys::Job;
use loop_pieces::LoopPiece;
use rdf_values::{Fault, Memory};
use std::alloc::Global;
use std::marker::Model;
use std::snapshot::Snapshot;
use std::sync::ledger::Ledger;

/// A cluster was processed to its end, or up to its first fault.
#[derive(Clone, Copy, Debug, PartialEq, Eq)]
pub enum ClusterProgress {
    Done,
    Faulted(Fault),
}

/// Why a cluster was not processed.
#[derive(Clone, Copy, Debug, PartialEq, Eq)]
pub enum SlotStop {
    Memory,
}

/// Whether a slot goes on: not after a fault, nor after want of memory.
#[derive(Clone, Copy, Debug, PartialEq, Eq)]
pub enum SlotPhase {
    Going,
    Faulted,
    NoMemory,
}

/// One slot of a loop.
#[derive(Drop)]
pub struct SlotState {
    blocks: BlockState,
    vectors: u64,
    tally: Tally,
    // contracts alone read the finished clusters: a snapshot takes no bytes
    done: Vec<Snapshot<u32>>,
    phase: SlotPhase,
}

impl Model for SlotState {
    ghost use Rattle.std.specs.Prelude.{map, vec_capacity};
    ghost use Rattle.event_loop.specs.Workers.{SlotView};

    ghost Value = { SlotView };

    ghost view = { λ s. record { blocks = s.blocks; vectors = s.vectors; tally = s.tally; room = vec_capacity s.done; done = map (λ c. c.value) s.done.items; phase = s.phase } };
}

impl SlotState {
    /// A slot that finished no cluster.
    pub fn new(alloc: Global, job: &Job<'_>) -> Result<SlotState, Memory>
        requires job { Fits job.now }
        requires words { StatementsHaveWords (history (job_of job.now).script) }
        ensures { IfOk result (λ s. IsFreshSlot (job_facts (job_of job.now)) s) }
    {
        job.functions.answers_have_64_bits();
        let blocks = BlockState::new(alloc, job)?;
        let vectors = vector_keys(alloc, job.graph)?;
        let tally = tally_of(alloc, job)?;
        let done = Vec::with_capacity(alloc, job.columns.cuts().count() as usize)?;
        Ok(SlotState {
            blocks,
            vectors,
            tally,
            done,
            phase: SlotPhase::Going,
        })
    }

    /// Processes a cluster above all that the slot finished.
    pub fn process<L: Ledger>(
        &mut self,
        job: &Job<'_>,
        cluster: u32,
        steps: &mut Steps<L>,
    ) -> Result<ClusterProgress, SlotStop>
        requires job { Fits job.now }
        requires slot { IsSlotOf (job_facts (job_of job.now)) self.old }
        requires cluster { cluster < length (job_facts (job_of job.now)).faults }
        requires above { All (λ c. c < cluster) self.old.done }
        requires open { self.old.phase ≢ SlotPhase.Faulted }
        ensures slot { IsSlotOf (job_facts (job_of job.now)) self.new }
        ensures done { result ≡ Ok ClusterProgress.Done → (self.old.phase ≡ SlotPhase.Going) × (slice_get (job_facts (job_of job.now)).faults cluster ≡ Some None)
            × (self.new.done ≡ self.old.done ++ cluster ∷ []) × (self.new.phase ≡ SlotPhase.Going) }
        ensures faulted { (f : Fault) → result ≡ Ok (ClusterProgress.Faulted f) → (self.old.phase ≡ SlotPhase.Going) × (slice_get (job_facts (job_of job.now)).faults cluster ≡ Some (Some f))
            × (self.new.done ≡ self.old.done) × (self.new.phase ≡ SlotPhase.Faulted) }
        ensures memory { result ≡ Err SlotStop.Memory → (self.new.done ≡ self.old.done) × (self.new.phase ≡ SlotPhase.NoMemory) }
        ensures kept { self.old.phase ≡ SlotPhase.NoMemory → result ≡ Err SlotStop.Memory }
        ensures plain { IsPlainSlot (job_of job.now) → self.old.phase ≡ SlotPhase.Going → result ≢ Err SlotStop.Memory }
        ensures bound { steps.new ≤ steps.old + 2 * span_demands (job_of job.now) (size_for (key_count (job_graph (job_of job.now)))) self.old.vectors cluster }
    {
        if let SlotPhase::NoMemory = self.phase {
            return Err(SlotStop::Memory);
        }
        match self
            .blocks
            .try_cluster(job, cluster, self.vectors, &mut self.tally, steps)
        {
            Ok(()) => match self.tally.close(cluster) {
                Ok(()) => {
                    self.done.push_reserved(Snapshot::of(&cluster));
                    Ok(ClusterProgress::Done)
                }
                Err(Memory) => {
                    self.phase = SlotPhase::NoMemory;
                    Err(SlotStop::Memory)
                }
            },
            Err(BlockStop::Fault(fault)) => {
                self.phase = SlotPhase::Faulted;
                Ok(ClusterProgress::Faulted(fault))
            }
            Err(BlockStop::Memory) => {
                self.phase = SlotPhase::NoMemory;
                Err(SlotStop::Memory)
            }
        }
    }

    /// What the clusters that the slot finished come to, with a trail for each watched result.
    pub fn into_piece(self) -> LoopPiece
        requires { self.phase ≡ SlotPhase.Going }
        ensures stands { (job : JobFacts) → IsSlotOf job self → StandsFor job.facts self.done result }
        ensures trails { (job : JobFacts) → IsSlotOf job self → HaveTrails job.facts job.watched self.done result.trails.items }
    {
        self.tally.into_piece()
    }
}
