// What is known of one key over a block.
ghost use Rattle.std.specs.Prelude.{◌≡◌, ◌<◌, ◌≤◌, ◌+◌, ℕ, true, false, not, length, All, IfOk, OnOk, OnErr, if◌then◌else◌};
ghost use Rattle.std.specs.List.{filter};
ghost use Rattle.rdf_values.specs.{fn_names};
ghost use Rattle.rdf_model.specs.{call_outcome, evaluate as evaluate_at, FitsOutcome, Gives, Needs};
ghost use Rattle.entry_fns.specs.{functions_in};
ghost use Rattle.expr_check.specs.{CallsFit, is_plain, is_vector};
ghost use Rattle.expr_eval.specs.{input_outcome};
ghost use Rattle.expr_lanes.specs.{CanLane, depth, EachPlace, HasMarks, is_known, IsSelected};
ghost use Rattle.block_cache.specs.ForSites.{AreReadOver, CallsFitOver, FitAt, outcome_over};
ghost use Rattle.block_cache.specs.Lanes.{is_held, room_of, value_of, AreNumbers, IsBegun, IsEvaluated, IsSameLane, IsUnknown, LaneView};

use crate::block_marks::BlockMarks;
use crate::each_place::each_place;
use crate::site_values::SiteValues;
use crate::values::Values;
use crate::vectors::Vectors;
use arrayvec::ArrayVec;
use expr_eval::{ColumnInput, Steps};
use expr_lanes::{
    Evaluation, LaneColumn, LaneInputs, MAX_PLACES, Scratch, Selection, Stopped, eval_lane,
};
use rdf_values::{ColType, Memory};
use std::alloc::Global;
use std::marker::Model;
use std::sync::ledger::Ledger;

/// A key over a block: at each place its value, whether its evaluation was begun, and whether it came to that value.
#[derive(Drop)]
pub struct Lane {
    alloc: Global,
    kind: ColType,
    values: Values,
    tried: BlockMarks,
    held: BlockMarks,
}

impl Model for Lane {
    ghost use Rattle.std.specs.Prelude.{◌≡◌};
    ghost use Rattle.block_cache.specs.Lanes.{LaneView, IsLane};

    ghost Value = { LaneView };

    ghost view = { λ l. record { kind = l.kind; count = l.held.count; numbers = l.values.numbers.items; vectors = l.values.vectors; tried = l.tried.marks; held = l.held.marks } };

    ghost invariant = { λ l. (l.tried.count ≡ l.held.count) × IsLane (record { kind = l.kind; count = l.held.count; numbers = l.values.numbers.items; vectors = l.values.vectors; tried = l.tried.marks; held = l.held.marks }) };
}

impl Lane {
    /// The lane of a key, with all the memory that it takes for blocks of so many places, but for vectors.
    #[tactic(auto, using(crate::proofs::LaneSteps::count_none))]
    pub fn new(alloc: Global, kind: ColType, room: usize) -> Result<Lane, Memory>
        requires { room ≤ MAX_PLACES }
        ensures kind { IfOk result (λ l. l.kind ≡ kind) }
        ensures room { IfOk result (λ l. room_of l ≡ room) }
        ensures unknown { IfOk result (IsUnknown 0) }
    {
        let numbers = vec![in alloc; 0; room]?;
        let tried = BlockMarks::new(alloc, room)?;
        let held = BlockMarks::new(alloc, room)?;
        Ok(Lane {
            alloc,
            kind,
            values: Values {
                numbers,
                vectors: Vectors::new(alloc),
            },
            tried,
            held,
        })
    }

    /// Begins a block of so many places, of which nothing is known yet.
    #[tactic(auto, using(crate::proofs::LaneSteps::count_none, crate::proofs::LaneSteps::unknown_lane))]
    pub fn begin(&mut self, count: usize)
        requires { count ≤ room_of self.old }
        ensures same { IsSameLane self.old self.new }
        ensures unknown { IsUnknown count self.new }
    {
        self.tried.begin(count);
        self.held.begin(count);
        self.values.vectors.clear();
    }

    /// Leaves the places selected at which no value is held.
    pub fn keep_unknown(&self, selection: &mut Selection)
        requires { EachPlace selection.old (λ p. p < self.now.count) }
        ensures { selection.new ≡ filter (λ p. not (is_held self.now p)) selection.old }
    {
        self.held.keep_unmarked(selection);
    }

    /// Of which kind the key's values are.
    pub fn kind(&self) -> ColType
        ensures { result ≡ self.now.kind }
    {
        self.kind
    }

    /// What the key's vectors take memory from.
    pub fn alloc(&self) -> Global {
        self.alloc
    }

    /// Whether each selected place holds a value.
    pub fn holds_all(&self, selection: &Selection) -> bool
        requires { EachPlace selection.now (λ p. p < self.now.count) }
        ensures held { result ≡ true → EachPlace selection.now (λ p. is_held self.now p ≡ true) }
        ensures exact { EachPlace selection.now (λ p. is_held self.now p ≡ true) → result ≡ true }
    {
        self.held.has_all(selection)
    }

    /// What is known of the key at a place.
    pub fn input(&self, place: u32) -> ColumnInput<'_>
        requires { place < self.now.count }
        ensures { (c : ℕ) → input_outcome c result ≡ (if is_held self.now place then Gives (value_of self.now place) else Needs c) }
    {
        if self.held.has(place) {
            self.values.input(self.kind, place)
        } else {
            ColumnInput::Missing
        }
    }

    /// What is known of the key, as an evaluation without vectors reads it.
    pub fn column(&self) -> LaneColumn<'_>
        requires { is_vector self.now.kind ≡ false }
        ensures numbers { result.numbers.now ≡ self.now.numbers }
        ensures exact { AreNumbers self.now }
        ensures long { self.now.count ≤ length result.numbers.now }
        ensures marks { HasMarks self.now.count result.known }
        ensures known { (p : ℕ) → p < self.now.count → is_known result.known p ≡ is_held self.now p }
    {
        LaneColumn {
            numbers: self.values.numbers.as_slice(),
            known: self.held.known(),
        }
    }

    /// Evaluates the key's expression at the selected places at once, in a step each.
    #[tactic(auto, using(crate::proofs::LaneSteps::given_among, crate::proofs::LaneSteps::written, crate::proofs::LaneSteps::lane_after, crate::proofs::LaneSteps::scalar_written, crate::proofs::LaneSteps::scalar_values, crate::proofs::LaneSteps::evaluated_after))]
    pub fn evaluate<I: LaneInputs, L: Ledger>(
        &mut self,
        evaluation: &Evaluation<'_, I>,
        selection: &mut Selection,
        stops: &mut ArrayVec<Stopped, MAX_PLACES>,
        scratch: &mut [Scratch],
        steps: &mut Steps<L>,
    )
        requires kind { evaluation.now.expr.now.kind ≡ self.old.kind }
        requires scalar { is_vector self.old.kind ≡ false }
        requires can { CanLane (I.can evaluation.now.inputs.now) (I.can_tell evaluation.now.inputs.now) evaluation.now.expr.now.tree }
        requires fit { (p : ℕ) → p < I.size evaluation.now.inputs.now → All (λ c. FitsOutcome c.1 (I.look evaluation.now.inputs.now p c.0)) evaluation.now.expr.now.kinds }
        requires calls { CallsFit (fn_names (functions_in evaluation.now.functions.now)) evaluation.now.expr.now.tree }
        requires deep { depth evaluation.now.expr.now.tree ≤ length scratch.old }
        requires block { I.size evaluation.now.inputs.now ≡ self.old.count }
        requires selected { IsSelected self.old.count selection.old stops.old.items }
        requires unknown { EachPlace selection.old (λ p. is_held self.old p ≡ false) }
        ensures evaluated { IsEvaluated (λ p. evaluate_at (I.look evaluation.now.inputs.now p) (call_outcome (functions_in evaluation.now.functions.now)) evaluation.now.expr.now.tree) selection.old selection.new self.old self.new stops.old.items stops.new.items }
        ensures steps { steps.new ≡ steps.old + length selection.old }
    {
        self.tried.mark(selection);
        eval_lane(
            evaluation,
            selection,
            &mut self.values.numbers,
            stops,
            scratch,
            steps,
        );
        self.held.mark(selection);
    }

    /// Evaluates the key at one selected place after another, in a step each. Where memory is wanted, what is held stays.
    #[inline(never)]
    #[tactic(auto, using(expr_lanes::proofs::Composed::filtered_in))]
    pub(crate) fn evaluate_each<L: Ledger>(
        &mut self,
        evaluation: &SiteValues<'_>,
        selection: &mut Selection,
        stops: &mut ArrayVec<Stopped, MAX_PLACES>,
        steps: &mut Steps<L>,
    ) -> Result<(), Memory>
        requires can { AreReadOver evaluation.now.view.block.now evaluation.now.view.lanes.now evaluation.now.expr.now }
        requires fit { (p : ℕ) → p < evaluation.now.view.block.now.count → FitAt evaluation.now.view.block.now evaluation.now.view.lanes.now evaluation.now.expr.now p }
        requires calls { CallsFitOver evaluation.now.view.block.now evaluation.now.expr.now.tree }
        requires block { evaluation.now.view.block.now.count ≡ self.old.count }
        requires kind { evaluation.now.expr.now.kind ≡ self.old.kind }
        requires selected { IsSelected self.old.count selection.old stops.old.items }
        requires unknown { EachPlace selection.old (λ p. is_held self.old p ≡ false) }
        ensures evaluated { OnOk result (IsEvaluated (outcome_over evaluation.now.view.block.now evaluation.now.view.lanes.now evaluation.now.expr.now.tree) selection.old selection.new self.old self.new stops.old.items stops.new.items) }
        ensures begun { OnErr result (IsBegun selection.old self.old self.new) }
        ensures steps { OnOk result (steps.new ≡ steps.old + length selection.old) }
        ensures few { steps.new ≤ steps.old + length selection.old }
        ensures plain { is_plain evaluation.now.expr.now.kinds evaluation.now.expr.now.tree ≡ true → OnErr result ⊥ }
    {
        let mut stopped = [false; MAX_PLACES];
        self.tried.mark(selection);
        each_place(
            evaluation,
            selection.as_slice(),
            &mut self.values,
            &mut stopped,
            stops,
            steps,
        )?;
        selection.keep_unmarked(&stopped);
        self.held.mark(selection);
        Ok(())
    }
}
