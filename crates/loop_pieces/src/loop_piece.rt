// Pieces of a loop, their joining, and what is printed of them.
ghost use Rattle.std.specs.Prelude.{◌≡◌, ◌<◌, ℕ, List, [], ◌∷◌, OnOk, Some, slice_get, vec_len};
ghost use Rattle.rdf_values.specs.{IsUnion};
ghost use Rattle.rdf_model.specs.declared.loop_facts.LoopFacts.{LoopFacts};
ghost use Rattle.loop_pieces.specs.LoopPieces.{AreMerged, CanMerge, StandsFor};

use crate::flow::Flow;
use crate::watch_piece::WatchPiece;
use actions::Acc;
use merge_core::{Piece, Trail};
use rdf_model::LoopFacts;
use rdf_values::{ListOf, Memory, Span};

/// The accumulators of the action passes, the counts of the named filters, and a trail for each watched result.
#[derive(Drop)]
pub struct LoopPiece {
    pub accs: Vec<Acc>,
    pub flow: Flow,
    pub trails: Vec<Trail<WatchPiece>>,
}

impl LoopPiece {
    /// The accumulator of an action pass, by its place among the loop's action passes.
    pub fn acc(&self, pass: u32) -> &Acc
        requires { pass < vec_len self.now.accs }
        ensures { slice_get self.now.accs.items pass ≡ Some result.now }
    {
        &self.accs[pass as usize]
    }

    /// The counts of the named filters.
    pub fn flow(&self) -> &Flow
        ensures { result.now ≡ self.now.flow }
    {
        &self.flow
    }
}

// Takes into each accumulator what the other one of its place was fed.
fn merge_accs(mine: &mut [Acc], theirs: &[Acc]) -> Result<(), Memory>
    requires { CanMerge mine.old theirs.now }
    ensures { OnOk result (AreMerged mine.old theirs.now mine.new) }
{
    for i in 0..mine.len() {
        mine[i].merge(&theirs[i])?;
    }
    Ok(())
}

impl Piece for LoopPiece {
    type Job = LoopFacts;

    ghost stands = { StandsFor };

    /// The trails are dropped.
    fn join(&mut self, other: LoopPiece) -> Result<(), Memory>
        requires { (job : LoopFacts) × (mine theirs all : List ℕ) × StandsFor job mine self.old × StandsFor job theirs other × IsUnion (mine ∷ theirs ∷ []) all }
        ensures stands { (job : LoopFacts) (mine theirs all : List ℕ) → StandsFor job mine self.old → StandsFor job theirs other → IsUnion (mine ∷ theirs ∷ []) all → OnOk result (StandsFor job all self.new) }
        ensures trails { self.new.trails.items ≡ [] }
    {
        let LoopPiece {
            accs,
            flow,
            trails: _,
        } = other;
        self.trails.clear();
        self.flow.merge(&flow);
        merge_accs(self.accs.as_mut_slice(), accs.as_slice())
    }
}

/// A filled result: its pass i is the piece's accumulator `first + i`. A report has the piece's counts, and no passes.
#[derive(Clone, Copy)]
pub struct FilledResult<'a> {
    pub piece: &'a LoopPiece,
    pub first: u32,
    pub passes: u32,
}

/// The partial results of a watched result, in order.
#[derive(Clone, Copy)]
pub struct PartialLines<'a> {
    pub lines: &'a [PartialLine],
}

/// What a watched result comes to over the clusters of maximal runs, which rise.
#[derive(Drop)]
pub struct PartialLine {
    pub runs: ListOf<Span>,
    pub value: WatchPiece,
}
