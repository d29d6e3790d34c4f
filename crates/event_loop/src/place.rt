// Where the passes of a result stand in a loop.
ghost use Rattle.std.specs.Prelude.{◌≡◌, ◌<◌, ◌≤◌, ◌^◌, ◌∷◌, [], ℕ, List, None, Some, if◌then◌else◌, count_by, length, map, nat_eq, option_map, slice_get, true};
ghost use Rattle.std.specs.List.{position};
ghost use Rattle.rdf_values.specs.{Booked, Pass as NamedPass};
ghost use Rattle.rdf_model.specs.{kind_in, kinds_in, loop_passes, loop_results};
ghost use Rattle.graph_numbers.specs.{booked_statements, graph_loops, graph_results, Pass as NumberedPass, pass_at, ResultAt};
ghost use Rattle.loop_pieces.specs.{place_if_watched, watched_places};
ghost use Rattle.event_loop.specs.{fills, IsPassOf, IsPlaced};

use graph::Graph;
use graph_numbers::{Pass, ResultKind};

/// How many action passes of the loop come before those of the result, how many are its own, and how many
/// watched ones come before them.
#[derive(Clone, Copy, Debug)]
pub struct PassSpan {
    pub first: u32,
    pub passes: u32,
    pub watched: u32,
}

/// How many action passes there are among some passes, and how many of them are watched.
#[derive(Clone, Copy)]
pub struct PassCounts {
    pub actions: u32,
    pub watched: u32,
}

// How many accumulators each pass of a result has: of an action one, and of a report none.
fn accumulators(graph: &Graph, r: u32) -> u32
    requires { r < length (graph_results graph.now) }
    ensures value { option_map (λ (x : ResultAt). length (kind_in x.booked.booking)) (slice_get (graph_results graph.now) r) ≡ Some result }
    ensures few { result ≤ 1 }
{
    match graph.kind(r) {
        ResultKind::Action(_) => 1,
        ResultKind::Report => 0,
    }
}

/// Whether a result's partial results are noted: it is a watched action.
pub fn is_noted(graph: &Graph, r: u32) -> bool
    requires { r < length (graph_results graph.now) }
    ensures { (x : ResultAt) (n : ℕ) → slice_get (graph_results graph.now) r ≡ Some x
        → place_if_watched (booked_statements graph.now) n (record { result = x.booked; under = None }) ≡ (if result then n ∷ [] else []) }
{
    match graph.kind(r) {
        ResultKind::Action(_) => graph.watched(r),
        ResultKind::Report => false,
    }
}

/// Whether a pass is watched: it is the nominal one of such a result.
pub fn is_watched(graph: &Graph, pass: Pass) -> bool
    requires { IsPassOf graph.now pass }
    ensures { (n : ℕ) (q : NamedPass) → pass_at (booked_statements graph.now) pass ≡ Some q → place_if_watched (booked_statements graph.now) n q ≡ (if result then n ∷ [] else []) }
{
    match pass.variation {
        None => is_noted(graph, pass.result),
        Some(_) => false,
    }
}

/// The counts of some passes.
pub fn counts_of(graph: &Graph, passes: &[Pass]) -> PassCounts
    requires passes { (i : ℕ) (p : NumberedPass) → slice_get passes.now i ≡ Some p → IsPassOf graph.now p }
    requires few { length passes.now < 2 ^ 32 }
    ensures { (qs : List NamedPass) → map (pass_at (booked_statements graph.now)) passes.now ≡ map (λ q. Some q) qs
        → (result.actions ≡ length (kinds_in qs)) × (result.watched ≡ length (watched_places (booked_statements graph.now) qs)) }
{
    let mut actions = 0;
    let mut watched = 0;
    for pass in passes {
        actions += accumulators(graph, pass.result);
        watched += u32::from(is_watched(graph, *pass));
    }
    PassCounts { actions, watched }
}

// The place of the first pass of a result.
fn first_pass(passes: &[Pass], r: u32) -> Option<usize>
    ensures { result ≡ position (λ (p : NumberedPass). nat_eq p.result r) passes.now }
{
    passes.iter().position(|p| p.result == r)
}

// How many passes a result has.
fn pass_count(passes: &[Pass], r: u32) -> usize
    ensures count { result ≡ count_by (λ (p : NumberedPass). nat_eq p.result r) passes.now }
    ensures few { result ≤ length passes.now }
{
    passes.iter().filter(|p| p.result == r).count()
}

/// The place of a result's passes in a loop that fills it.
#[tactic(auto, using(crate::proofs::Found::pass_of, crate::proofs::Found::taken_at))]
pub fn place_in(graph: &Graph, loop_index: u32, r: u32) -> PassSpan
    requires its_loop { loop_index < length (graph_loops graph.now) }
    requires result { r < length (graph_results graph.now) }
    requires filled { (x : ResultAt) × (results : List Booked) × (slice_get (graph_results graph.now) r ≡ Some x) × (slice_get (loop_results (booked_statements graph.now)) loop_index ≡ Some results) × (fills x.booked.name results ≡ true) }
    ensures { (x : ResultAt) (results : List Booked) → slice_get (graph_results graph.now) r ≡ Some x → slice_get (loop_results (booked_statements graph.now)) loop_index ≡ Some results
        → IsPlaced (booked_statements graph.now) (loop_passes (booked_statements graph.now) results) x.booked result }
{
    graph.is_booked();
    let _variations = graph.variations().len();
    let passes = graph.passes(loop_index);
    let Some(start) = first_pass(passes, r) else {
        unreachable!()
    };
    let before = counts_of(graph, &passes[..start]);
    let own = pass_count(passes, r) as u32;
    PassSpan {
        first: before.actions,
        passes: own * accumulators(graph, r),
        watched: before.watched,
    }
}
