// Filling what an action reads.
ghost use Rattle.std.specs.Prelude.{◌≡◌, ◌<◌, ◌+◌, length, slice_index_or, true, Some, ℕ, Bool, None, OnOk, OnErr};
ghost use Rattle.rdf_model.specs.{tag_element};
ghost use Rattle.graph_numbers.specs.{graph_sites, source_value, graph_versions};
ghost use Rattle.expr_lanes.specs.{EachPlace, is_in};
ghost use Rattle.loop_keys.specs.{job_graph, key as key_of, row_of, site_in, ArePlain, ArePlainVersions, HasAllDemands, IsSourceIn};
ghost use Rattle.block_cache.specs.{fault_over, holds_at, CanFill, kinds_of, site_fault};
ghost use Rattle.block_passes.specs.{IsKnown, IsNumberOf, IsOver, IsSelected, IsServedInTurn, KeepsRoom, turn_job, AreAtHand, CanServeInTurn, CanServeWith, DemandsInputs, DemandsSource, IsAtHand, IsSpentInTurn, IsTurn, Leaves, source_in_turn, inputs_fault, source_fault};
ghost use Rattle.std.specs.List.{AllByRecursion};
ghost use Rattle.rdf_values.specs.declared.tables.value.Value.TheVariants as val;
ghost use Rattle.graph_numbers.specs.declared.version.Source.TheVariants as source;

use crate::turn::{KeptPlaces, Turn, Work};
use block_cache::Lane;
use block_cache::block::{Block, Wanted};
use block_cache::faults::PlaceFault;
use block_cache::leads::{fill_led, is_held};
use expr_eval::{ColumnInput, Steps};
use expr_lanes::Selection;
use graph_numbers::Source;
use loop_keys::reading::{Reading, key, place};
use loop_keys::rows::ValuePlace;
use rdf_values::{EntryFault, Memory};
use std::sync::ledger::Ledger;

/// The element of a site's vector at the place of a tag among so many, under nominal or a variation.
#[derive(Clone, Copy, Debug)]
pub(crate) struct SiteElement {
    pub(crate) site: u32,
    pub(crate) under: Option<u32>,
    pub(crate) nth: u32,
    pub(crate) tags: u32,
}

/// The element of a vector at the place of a tag among so many.
fn tagged(zs: &[i64], nth: u32, tags: u32) -> Result<i64, EntryFault>
    ensures { IsNumberOf (tag_element {M = ⊥} tags nth (val.Vect zs.now)) result }
{
    if zs.len() != tags as usize {
        return Err(EntryFault::VaryCount);
    }
    zs.get(nth as usize).copied().ok_or(EntryFault::Index)
}

/// The element at a place of the block where the site's value is held.
pub(crate) fn element_at(
    at: &Turn<'_>,
    lanes: &[Lane],
    of: &SiteElement,
    place: u32,
) -> Result<i64, EntryFault>
    requires over { IsOver at.now lanes.now }
    requires site { of.now.site < length (graph_sites (job_graph (turn_job at.now))) }
    requires inside { place < at.now.count }
    requires held { holds_at lanes.now (key_of (job_graph (turn_job at.now)) of.now.site of.now.under) place ≡ true }
    ensures { IsNumberOf (source_value {M = ⊥} (row_of (turn_job at.now) (at.now.first + place)) (site_in (turn_job at.now) (at.now.first + place) of.now.under) (source.Element of.now.site of.now.nth of.now.tags)) result }
{
    let reading = Reading {
        job: at.job,
        row: at.row(of.under),
        entry: at.first,
        under: of.under,
    };
    match lanes[key(&reading, of.site)].input(place) {
        ColumnInput::Vect(zs) => tagged(zs, of.nth, of.tags),
        ColumnInput::Int(_) | ColumnInput::Bool(_) => Ok(0),
        ColumnInput::Faulted(_) | ColumnInput::Missing => unreachable!(),
    }
}

/// The place of that number among those that are selected.
#[tactic(auto, using(expr_lanes::proofs::Composed::is_in_at))]
pub(crate) fn place_at(selection: &Selection, nth: usize) -> u32
    requires { nth < length selection.now }
    ensures among { is_in result selection.now ≡ true }
    ensures value { result ≡ slice_index_or selection.now nth 0 }
{
    selection.as_slice()[nth]
}

/// The first of the selected places at which there isn't an element for each tag.
fn first_without(
    at: &Turn<'_>,
    lanes: &[Lane],
    selection: &Selection,
    of: &SiteElement,
) -> Option<PlaceFault>
    requires over { IsOver at.now lanes.now }
    requires site { of.now.site < length (graph_sites (job_graph (turn_job at.now))) }
    requires inside { EachPlace selection.now (λ p. p < at.now.count) }
    requires held { EachPlace selection.now (λ p. holds_at lanes.now (key_of (job_graph (turn_job at.now)) of.now.site of.now.under) p ≡ true) }
    ensures { result ≡ fault_over (source_fault (turn_job at.now) at.now.first of.now.under (source.Element of.now.site of.now.nth of.now.tags)) selection.now }
{
    for i in 0..selection.len() {
        let place = place_at(selection, i);
        match element_at(at, lanes, of, place) {
            Ok(_) => {}
            Err(kind) => return Some(PlaceFault { place, kind }),
        }
    }
    None
}

/// Tests whether there is an element for each tag at the selected places, where the site's value is held: the first at which there isn't
/// lowers the limit, below which the places are left.
pub(crate) fn test_elements(at: &Turn<'_>, work: &mut Work, to: &mut KeptPlaces, of: &SiteElement)
    requires site { of.now.site < length (graph_sites (job_graph (turn_job at.now))) }
    requires known { IsKnown at.now work.old }
    requires selected { IsSelected work.old.found.limit to.old }
    requires held { EachPlace to.old.places (λ p. holds_at work.old.lanes.items (key_of (job_graph (turn_job at.now)) of.now.site of.now.under) p ≡ true) }
    ensures tested { IsServedInTurn at.now (source_fault (turn_job at.now) at.now.first of.now.under (source.Element of.now.site of.now.nth of.now.tags)) to.old.places to.new work.new.lanes.items work.old.found work.new.found }
    ensures lanes { work.new.lanes.items ≡ work.old.lanes.items }
    ensures room { KeepsRoom work.old work.new }
{
    let _rising = to.places.as_slice();
    let fault = first_without(at, &work.lanes, &to.places, of);
    work.found.note(at.first, at.pass, fault);
    let _made = to.narrow(work.found.limit);
}

/// Whether a version is seen to be at hand at each selected place, and to fault at none.
#[tactic(auto, using(block_cache::proofs::OverLaws::selected_inside, crate::proofs::Serving::place_laws, crate::proofs::Serving::key_inside, crate::proofs::Serving::hand_held, crate::proofs::Serving::hand_clear))]
fn is_at_hand(
    at: &Turn<'_>,
    lanes: &[Lane],
    selection: &Selection,
    version: u32,
    under: Option<u32>,
) -> bool
    requires over { IsOver at.now lanes.now }
    requires can { (scratch levels : ℕ) × CanServeWith at.now under lanes.now scratch levels version }
    requires inside { EachPlace selection.now (λ p. p < at.now.count) }
    ensures held { result ≡ true → EachPlace selection.now (λ p. IsAtHand (turn_job at.now) at.now.first lanes.now under p (source_in_turn at.now under version)) }
    ensures clear { result ≡ true → EachPlace selection.now (λ p. source_fault (turn_job at.now) at.now.first under (source_in_turn at.now under version) p ≡ None) }
{
    let reading = Reading {
        job: at.job,
        row: at.row(under),
        entry: at.first,
        under,
    };
    match place(&reading, version) {
        ValuePlace::Cell { .. } => true,
        ValuePlace::Key { key } => is_held(lanes, key, selection),
        ValuePlace::Element { .. } => false,
    }
}

/// Fills a site at the places of a selection, up to the first at which it faults, which lowers the limit; the places below it are left.
#[inline(never)]
fn serve_site<L: Ledger>(
    at: &Turn<'_>,
    work: &mut Work,
    to: &mut KeptPlaces,
    site: u32,
    under: Option<u32>,
    steps: &mut Steps<L>,
) -> Result<(), Memory>
    requires site { site < length (graph_sites (job_graph (turn_job at.now))) }
    requires known { IsKnown at.now work.old }
    requires can { CanFill (turn_job at.now) at.now.first under at.now.count (kinds_of work.old.lanes.items) at.now.cells.now (length work.old.scratch.items) (length work.old.levels.items) site }
    requires inside { EachPlace to.old.places (λ p. p < work.old.found.limit) }
    ensures spent { IsSpentInTurn at.now under site to.old.places work.old work.new steps.old steps.new }
    ensures served { OnOk result (IsServedInTurn at.now (site_fault (turn_job at.now) at.now.first under site) to.old.places to.new work.new.lanes.items work.old.found work.new.found) }
    ensures held { OnOk result (EachPlace to.new.places (λ p. holds_at work.new.lanes.items (key_of (job_graph (turn_job at.now)) site under) p ≡ true)) }
    ensures room { KeepsRoom work.old work.new }
    ensures plain { (used : ℕ → Bool) → ArePlain (turn_job at.now) used → used site ≡ true → OnErr result ⊥ }
{
    let _rising = to.places.as_slice();
    let _few = to.places.len();
    let reading = Reading {
        job: at.job,
        row: at.row(under),
        entry: at.first,
        under,
    };
    let block = Block {
        at: &reading,
        count: at.count as usize,
        cells: at.cells,
    };
    let wanted = Wanted {
        block: &block,
        site,
    };
    let fault = fill_led(
        &wanted,
        &mut work.lanes,
        &mut to.places,
        &mut work.levels,
        &mut work.scratch,
        steps,
    )?;
    work.found.note(at.first, at.pass, fault);
    to.limit = Some(work.found.limit);
    Ok(())
}

/// What gives a version its value, under nominal or a variation.
pub(crate) fn source_under(at: &Turn<'_>, version: u32, under: Option<u32>) -> Source
    requires turn { IsTurn at.now }
    requires version { version < length (graph_versions (job_graph (turn_job at.now))) }
    ensures { source_in_turn at.now under version ≡ result }
{
    at.job.graph.source(version, under)
}

/// Fills the site of an element likewise, and tests whether there is one for each tag.
#[inline(never)]
fn serve_element<L: Ledger>(
    at: &Turn<'_>,
    work: &mut Work,
    to: &mut KeptPlaces,
    of: &SiteElement,
    steps: &mut Steps<L>,
) -> Result<(), Memory>
    requires site { of.now.site < length (graph_sites (job_graph (turn_job at.now))) }
    requires known { IsKnown at.now work.old }
    requires can { CanFill (turn_job at.now) at.now.first of.now.under at.now.count (kinds_of work.old.lanes.items) at.now.cells.now (length work.old.scratch.items) (length work.old.levels.items) of.now.site }
    requires inside { EachPlace to.old.places (λ p. p < work.old.found.limit) }
    ensures spent { IsSpentInTurn at.now of.now.under of.now.site to.old.places work.old work.new steps.old steps.new }
    ensures served { OnOk result (IsServedInTurn at.now (source_fault (turn_job at.now) at.now.first of.now.under (source.Element of.now.site of.now.nth of.now.tags)) to.old.places to.new work.new.lanes.items work.old.found work.new.found) }
    ensures held { OnOk result (EachPlace to.new.places (λ p. IsAtHand (turn_job at.now) at.now.first work.new.lanes.items of.now.under p (source.Element of.now.site of.now.nth of.now.tags))) }
    ensures room { KeepsRoom work.old work.new }
    ensures plain { (used : ℕ → Bool) → ArePlain (turn_job at.now) used → used of.now.site ≡ true → OnErr result ⊥ }
{
    serve_site(at, work, to, of.site, of.under, steps)?;
    test_elements(at, work, to, of);
    Ok(())
}

/// Fills what gives a version its value, likewise.
#[inline(never)]
fn serve_version<L: Ledger>(
    at: &Turn<'_>,
    work: &mut Work,
    to: &mut KeptPlaces,
    version: u32,
    under: Option<u32>,
    steps: &mut Steps<L>,
) -> Result<(), Memory>
    requires known { IsKnown at.now work.old }
    requires can { CanServeInTurn at.now under work.old version }
    requires selected { IsSelected work.old.found.limit to.old }
    requires demanded { (p : ℕ) (T : ℕ → Bool) → is_in p to.old.places ≡ true → HasAllDemands (turn_job at.now) (at.now.first + p) T
        → DemandsSource (turn_job at.now) (at.now.first + p) under T (source_in_turn at.now under version) }
    ensures leaves { Leaves at.now work.old work.new steps.old steps.new }
    ensures served { OnOk result (IsServedInTurn at.now (source_fault (turn_job at.now) at.now.first under (source_in_turn at.now under version)) to.old.places to.new work.new.lanes.items work.old.found work.new.found) }
    ensures held { OnOk result (EachPlace to.new.places (λ p. IsAtHand (turn_job at.now) at.now.first work.new.lanes.items under p (source_in_turn at.now under version))) }
    ensures plain { (used : ℕ → Bool) → ArePlain (turn_job at.now) used → IsSourceIn used (source_in_turn at.now under version) → OnErr result ⊥ }
{
    match source_under(at, version, under) {
        Source::Cell { .. } => Ok(()),
        Source::Site { site } => serve_site(at, work, to, site, under, steps),
        Source::Element { site, place, tags } => {
            let of = SiteElement {
                site,
                under,
                nth: place,
                tags,
            };
            serve_element(at, work, to, &of, steps)
        }
    }
}

/// Fills what gives these versions their values, one after another: nearly always they are at hand.
#[inline(always)]
pub(crate) fn serve_inputs<L: Ledger>(
    at: &Turn<'_>,
    work: &mut Work,
    to: &mut KeptPlaces,
    inputs: &[u32],
    under: Option<u32>,
    steps: &mut Steps<L>,
) -> Result<(), Memory>
    requires known { IsKnown at.now work.old }
    requires can { AllByRecursion (CanServeInTurn at.now under work.old) inputs.now }
    requires selected { IsSelected work.old.found.limit to.old }
    requires demanded { (p : ℕ) (T : ℕ → Bool) → is_in p to.old.places ≡ true → HasAllDemands (turn_job at.now) (at.now.first + p) T
        → DemandsInputs (turn_job at.now) (at.now.first + p) under T inputs.now }
    ensures leaves { Leaves at.now work.old work.new steps.old steps.new }
    ensures served { OnOk result (IsServedInTurn at.now (inputs_fault (turn_job at.now) at.now.first under inputs.now) to.old.places to.new work.new.lanes.items work.old.found work.new.found) }
    ensures held { OnOk result (EachPlace to.new.places (AreAtHand (turn_job at.now) at.now.first work.new.lanes.items under inputs.now)) }
    ensures plain { (used : ℕ → Bool) → ArePlain (turn_job at.now) used → ArePlainVersions (turn_job at.now) used under inputs.now → OnErr result ⊥ }
{
    for version in inputs {
        if is_at_hand(at, &work.lanes, &to.places, *version, under) {
            continue;
        }
        serve_version(at, work, to, *version, under, steps)?;
    }
    Ok(())
}
