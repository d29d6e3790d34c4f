// The selections that the passes of a loop share: what is the same for each of its blocks.
ghost use Rattle.std.specs.Prelude.{◌≡◌, ◌⊎◌, ◌<◌, ◌^◌, [], ◌++◌, ◌∷◌, ℕ, List, IfOk, IfSome, Some, length, slice_get, true, nat_eq};
ghost use Rattle.std.specs.List.{list_any};
ghost use Rattle.graph_numbers.specs.{graph_filters};
ghost use Rattle.loop_keys.specs.{covered_in, Fits, job_graph, job_of, numbered_in, numbered_passes, passes_in};
ghost use Rattle.block_passes.specs.Plans.{AreSteps, ArePlanned, Chain, IsFilterPlanned, IsLed, IsPassLast, IsPlan, IsPlanned, IsStepped};

use graph_numbers::{Pass, ResultKind};
use loop_keys::Job;
use rdf_values::{ListOf, Memory};
use std::alloc::Global;
use std::marker::Model;

/// Places of a block: all of them, or those of a step before that pass the filter of a site, under nominal or a variation.
#[derive(Clone, Copy, Debug, PartialEq, Eq)]
pub enum Step {
    Block,
    Filter {
        parent: u32,
        site: u32,
        under: Option<u32>,
    },
}

// The number of a step behind that of its parent, if it is there.
fn find(steps: &[Step], parent: u32, wanted: Step) -> Option<u32>
    requires parent { parent < length steps.now }
    requires few { length steps.now < 2 ^ 32 }
    ensures { IfSome result (λ k. slice_get steps.now k ≡ Some wanted) }
{
    for k in parent + 1..steps.len() as u32 {
        if steps[k as usize] == wanted {
            return Some(k);
        }
    }
    None
}

/// The step with one more filter after that of the parent; it is added unless it is there.
#[tactic(auto, using(crate::proofs::PlanSteps::step_found, crate::proofs::PlanSteps::added))]
pub(crate) fn next_step(
    steps: &mut ListOf<Step>,
    parent: u32,
    site: u32,
    under: Option<u32>,
) -> Result<u32, Memory>
    requires { parent < length steps.old }
    ensures { (chains : List Chain) (up : Chain) → AreSteps chains steps.old → slice_get chains parent ≡ Some up → (up.sites ≡ []) ⊎ (up.under ≡ under)
        → IfOk result (IsStepped chains (record { sites = up.sites ++ site ∷ []; under = under }) steps.new) }
{
    let count = steps.len();
    if count >= 4294967295 {
        return Err(Memory);
    }
    let wanted = Step::Filter {
        parent,
        site,
        under,
    };
    if let Some(step) = find(steps.as_slice(), parent, wanted) {
        return Ok(step);
    }
    steps.push(wanted)?;
    Ok(count as u32)
}

/// The last of the steps with the filters of these sites, head first, which are added unless they are there.
#[tactic(auto, using(crate::proofs::PlanSteps::path_begins, crate::proofs::PlanSteps::led_there, std::proofs::lemmas::List::take_all))]
pub(crate) fn path_steps(
    steps: &mut ListOf<Step>,
    path: &[u32],
    under: Option<u32>,
) -> Result<u32, Memory>
    requires { (chains : List Chain) × AreSteps chains steps.old }
    ensures { (chains : List Chain) → AreSteps chains steps.old → IfOk result (IsLed chains path.now under steps.new) }
{
    let mut last = 0;
    for site in path {
        last = next_step(steps, last, *site, under)?;
    }
    Ok(last)
}

/// The steps of a named filter: the last of the filters above it, and its own.
#[derive(Clone, Copy, Debug)]
pub struct NamedSteps {
    pub above: u32,
    pub own: u32,
}

/// Which selections the passes of a loop share, and which each of them takes.
#[derive(Drop)]
pub struct LoopPlan {
    alloc: Global,
    steps: ListOf<Step>,
    passes: ListOf<u32>,
    filters: ListOf<Option<NamedSteps>>,
}

impl Model for LoopPlan {
    ghost use Rattle.block_passes.specs.Plans.{PlanView};

    ghost Value = { PlanView };

    ghost view = { λ p. record { steps = p.steps; passes = p.passes; filters = p.filters } };
}

/// The passes of a job's loop.
pub(crate) fn loop_passes<'a>(job: &Job<'a>) -> &'a [Pass]
    requires { Fits job.now }
    ensures passes { result.now ≡ numbered_passes (job_of job.now) }
    ensures count { length result.now ≡ length (passes_in (job_of job.now)) }
    ensures few { length result.now < 2 ^ 32 }
{
    job.graph.is_booked();
    let _few = job.graph.variations().len();
    job.graph.passes(job.loop_index)
}

// Whether the number is among them.
fn is_among(number: u32, numbers: &[u32]) -> bool
    ensures { result ≡ list_any (nat_eq number) numbers.now }
{
    numbers.iter().any(|other| number == *other)
}

// Whether a report of the loop covers the filter of that number.
#[tactic(auto, using(loop_keys::proofs::ActionLaws::cover_next, loop_keys::proofs::ActionLaws::covering_is))]
fn is_covered(job: &Job<'_>, filter: u32) -> bool
    requires job { Fits job.now }
    requires filter { filter < length (graph_filters (job_graph (job_of job.now))) }
    ensures { slice_get (covered_in (job_of job.now)) filter ≡ Some result }
{
    let passes = loop_passes(job);
    for pass in passes {
        if is_among(filter, job.graph.covered(pass.result)) {
            return true;
        }
    }
    false
}

// The last step of a pass: that of its action's filters, and of a report none.
#[tactic(auto, using(crate::proofs::PlanSteps::report_led))]
fn pass_step(job: &Job<'_>, own: Pass, steps: &mut ListOf<Step>) -> Result<u32, Memory>
    requires job { Fits job.now }
    requires own { (pass : ℕ) × (numbered_in (job_of job.now) pass ≡ Some own) }
    requires steps { (chains : List Chain) × AreSteps chains steps.old }
    ensures { (chains : List Chain) (pass : ℕ) → AreSteps chains steps.old → numbered_in (job_of job.now) pass ≡ Some own → IfOk result (IsPlanned (job_of job.now) (λ cs. IsPassLast (job_of job.now) cs pass) chains steps.new) }
{
    match job.graph.kind(own.result) {
        ResultKind::Action(_) => path_steps(steps, job.graph.path(own.result), own.variation),
        ResultKind::Report => Ok(0),
    }
}

// The last step of each pass.
#[tactic(auto, using(crate::proofs::PlanSteps::planned_none, loop_keys::proofs::PassNumbers::read_pass))]
fn pass_steps(alloc: Global, job: &Job<'_>, steps: &mut ListOf<Step>) -> Result<ListOf<u32>, Memory>
    requires job { Fits job.now }
    requires steps { (chains : List Chain) × AreSteps chains steps.old }
    ensures { (chains : List Chain) → AreSteps chains steps.old → IfOk result (ArePlanned (job_of job.now) (IsPassLast (job_of job.now)) chains steps.new (length (passes_in (job_of job.now)))) }
{
    let mut last_steps = ListOf::new(alloc);
    let passes = loop_passes(job);
    for own in passes {
        let last = pass_step(job, *own, steps)?;
        last_steps.push(last)?;
    }
    Ok(last_steps)
}

// The steps of a named filter that a report covers.
#[tactic(auto, using(crate::proofs::PlanSteps::led_there))]
fn named_steps(job: &Job<'_>, filter: u32, steps: &mut ListOf<Step>) -> Result<NamedSteps, Memory>
    requires job { Fits job.now }
    requires filter { filter < length (graph_filters (job_graph (job_of job.now))) }
    requires covered { slice_get (covered_in (job_of job.now)) filter ≡ Some true }
    requires steps { (chains : List Chain) × AreSteps chains steps.old }
    ensures { (chains : List Chain) → AreSteps chains steps.old → IfOk result (λ s. IsPlanned (job_of job.now) (λ cs. IsFilterPlanned (job_of job.now) cs filter) chains steps.new (Some s)) }
{
    let Some((site, up)) = job.graph.filter_path(filter).split_last() else {
        return Err(Memory);
    };
    let above = path_steps(steps, up, None)?;
    let own = next_step(steps, above, *site, None)?;
    Ok(NamedSteps { above, own })
}

// The steps of a named filter, where a report covers it.
#[tactic(auto, using(crate::proofs::PlanSteps::uncovered_step))]
fn filter_step(
    job: &Job<'_>,
    filter: u32,
    steps: &mut ListOf<Step>,
) -> Result<Option<NamedSteps>, Memory>
    requires job { Fits job.now }
    requires filter { filter < length (graph_filters (job_graph (job_of job.now))) }
    requires steps { (chains : List Chain) × AreSteps chains steps.old }
    ensures { (chains : List Chain) → AreSteps chains steps.old → IfOk result (IsPlanned (job_of job.now) (λ cs. IsFilterPlanned (job_of job.now) cs filter) chains steps.new) }
{
    if is_covered(job, filter) {
        return Ok(Some(named_steps(job, filter, steps)?));
    }
    Ok(None)
}

// The steps of each named filter.
#[tactic(auto, using(crate::proofs::PlanSteps::planned_none, crate::proofs::PlanSteps::filter_in))]
fn filter_steps(
    alloc: Global,
    job: &Job<'_>,
    steps: &mut ListOf<Step>,
) -> Result<ListOf<Option<NamedSteps>>, Memory>
    requires job { Fits job.now }
    requires steps { (chains : List Chain) × AreSteps chains steps.old }
    ensures { (chains : List Chain) → AreSteps chains steps.old → IfOk result (ArePlanned (job_of job.now) (IsFilterPlanned (job_of job.now)) chains steps.new (length (graph_filters (job_graph (job_of job.now))))) }
{
    let mut named = ListOf::new(alloc);
    for filter in 0..job.graph.filters() {
        let own = filter_step(job, filter, steps)?;
        named.push(own)?;
    }
    Ok(named)
}

impl LoopPlan {
    /// The plan of a job's loop.
    pub fn new(alloc: Global, job: &Job<'_>) -> Result<LoopPlan, Memory>
        requires { Fits job.now }
        ensures { IfOk result (IsPlan (job_of job.now)) }
    {
        let mut steps = ListOf::new(alloc);
        steps.push(Step::Block)?;
        let passes = pass_steps(alloc, job, &mut steps)?;
        let filters = filter_steps(alloc, job, &mut steps)?;
        Ok(LoopPlan {
            alloc,
            steps,
            passes,
            filters,
        })
    }

    /// How many steps there are.
    pub(crate) fn steps(&self) -> usize
        ensures { result ≡ length self.now.steps }
    {
        self.steps.len()
    }

    /// What copies for a pass take memory from.
    pub(crate) fn alloc(&self) -> Global {
        self.alloc
    }

    /// The step of that number.
    pub(crate) fn step(&self, step: u32) -> Step
        requires { step < length self.now.steps }
        ensures { slice_get self.now.steps step ≡ Some result }
    {
        *self.steps.at(step as usize)
    }

    /// The last step of a pass.
    pub(crate) fn last_step(&self, pass: u32) -> u32
        requires { pass < length self.now.passes }
        ensures { slice_get self.now.passes pass ≡ Some result }
    {
        *self.passes.at(pass as usize)
    }

    /// The steps of a named filter, where a report covers it.
    pub(crate) fn named(&self, filter: u32) -> Option<NamedSteps>
        requires { filter < length self.now.filters }
        ensures { slice_get self.now.filters filter ≡ Some result }
    {
        *self.filters.at(filter as usize)
    }
}
