// What is copied of the versions that an action reads, where it can't read them in place.
ghost use Rattle.std.specs.Prelude.{◌≡◌, ◌<◌, ◌+◌, ℕ, Bool, ℤ, List, IfOk, OnErr, OnOk, Some, length, slice_get, slice_index_or, slice_set, true};
ghost use Rattle.std.specs.List.{AllByRecursion};
ghost use Rattle.rdf_values.specs.declared.tables.value.ColType.TheVariants as kind;
ghost use Rattle.rdf_values.specs.declared.tables.value.Value.TheVariants as val;
ghost use Rattle.rdf_model.specs.{Gives};
ghost use Rattle.expr_check.specs.{CheckedExpr};
ghost use Rattle.graph_numbers.specs.{graph_sites, IsSiteExpr, source_value};
ghost use Rattle.expr_lanes.specs.{EachPlace};
ghost use Rattle.block_cache.specs.{holds_at, kinds_of};
ghost use Rattle.loop_keys.specs.{ArePlain, IsSourceIn, job_graph, key as key_of, row_of, site_in};
ghost use Rattle.graph_numbers.specs.declared.version.Source.TheVariants as source;
ghost use Rattle.block_passes.specs.{AreCopiedInTurn, AreHeldInTurn, IsPlainRead, CanServeWith, GivesNumber, GivesVector, HasVector, IsAtHand, IsCopyInTurn, IsOver, IsTurn, source_in_turn, turn_job};

use crate::inputs::{SiteElement, element_at, place_at, source_under};
use crate::turn::{ActionRead, Turn};
use block_cache::Lane;
use expr_eval::ColumnInput;
use expr_lanes::Selection;
use graph_numbers::Source;
use loop_keys::reading::{Reading, key};
use rdf_values::{ColType, Memory, Span};
use std::alloc::Global;

/// Vectors by their places: the elements of all, and where those of each place stand among them.
#[derive(Drop)]
pub(crate) struct CopiedVectors {
    pub(crate) elements: Vec<i64>,
    pub(crate) spans: Vec<Span>,
}

impl CopiedVectors {
    /// So many places without elements.
    fn new(alloc: Global, count: u32) -> Result<CopiedVectors, Memory>
        ensures { IfOk result (λ v. length v.spans.items ≡ count) }
    {
        let spans = vec![in alloc; Span { lo: 0, hi: 0 }; count as usize]?;
        Ok(CopiedVectors {
            elements: Vec::new(alloc),
            spans,
        })
    }

    /// Copies the vector of a place.
    fn put(&mut self, place: u32, vector: &[i64]) -> Result<(), Memory>
        requires { place < length self.old.spans.items }
        ensures room { OnOk result (length self.new.spans.items ≡ length self.old.spans.items) }
        ensures own { OnOk result (HasVector self.new.elements.items self.new.spans.items place vector.now) }
        ensures others { OnOk result ((p : ℕ) (zs : List ℤ) → (p ≡ place → ⊥) → HasVector self.old.elements.items self.old.spans.items p zs → HasVector self.new.elements.items self.new.spans.items p zs) }
    {
        let lo = self.elements.len();
        self.elements.extend_from_slice(vector)?;
        let hi = self.elements.len();
        if hi > u32::MAX as usize {
            return Err(Memory);
        }
        self.spans[place as usize] = Span {
            lo: lo as u32,
            hi: hi as u32,
        };
        Ok(())
    }
}

/// What is copied of a version over a selection: nothing where it is read in place, or numbers or vectors by their places.
#[derive(Drop)]
pub(crate) enum CopiedVersion {
    Whole,
    Numbers(Vec<i64>),
    Vectors(CopiedVectors),
}

/// What is copied of the versions that an action reads, in their order.
#[derive(Drop)]
pub(crate) struct Copies {
    pub(crate) first: CopiedVersion,
    pub(crate) second: CopiedVersion,
    pub(crate) third: CopiedVersion,
}

/// The vector of a site at a place where it is held.
fn site_vector<'s>(
    at: &Turn<'_>,
    lanes: &'s [Lane],
    site: u32,
    under: Option<u32>,
    place: u32,
) -> &'s [i64]
    requires over { IsOver at.now lanes.now }
    requires site { site < length (graph_sites (job_graph (turn_job at.now))) }
    requires vectors { slice_get (kinds_of lanes.now) (key_of (job_graph (turn_job at.now)) site under) ≡ Some kind.Vect }
    requires inside { place < at.now.count }
    requires held { holds_at lanes.now (key_of (job_graph (turn_job at.now)) site under) place ≡ true }
    ensures { site_in {M = ⊥} (turn_job at.now) (at.now.first + place) under site ≡ Gives (val.Vect result.now) }
{
    let reading = Reading {
        job: at.job,
        row: at.row(under),
        entry: at.first,
        under,
    };
    match lanes[key(&reading, site)].input(place) {
        ColumnInput::Vect(zs) => zs,
        ColumnInput::Int(_)
        | ColumnInput::Bool(_)
        | ColumnInput::Faulted(_)
        | ColumnInput::Missing => unreachable!(),
    }
}

/// Copies the vectors of a site at the selected places.
fn copy_vectors(
    at: &Turn<'_>,
    lanes: &[Lane],
    selection: &Selection,
    site: u32,
    under: Option<u32>,
) -> Result<CopiedVectors, Memory>
    requires over { IsOver at.now lanes.now }
    requires site { site < length (graph_sites (job_graph (turn_job at.now))) }
    requires vectors { slice_get (kinds_of lanes.now) (key_of (job_graph (turn_job at.now)) site under) ≡ Some kind.Vect }
    requires inside { EachPlace selection.now (λ p. p < at.now.count) }
    requires held { EachPlace selection.now (λ p. holds_at lanes.now (key_of (job_graph (turn_job at.now)) site under) p ≡ true) }
    ensures { IfOk result (λ v. EachPlace selection.now (λ p. GivesVector v.elements.items v.spans.items p (site_in {M = ⊥} (turn_job at.now) (at.now.first + p) under site))) }
{
    let mut vectors = CopiedVectors::new(at.plan.alloc(), at.count)?;
    for i in 0..selection.len() {
        let place = place_at(selection, i);
        vectors.put(place, site_vector(at, lanes, site, under, place))?;
    }
    Ok(vectors)
}

/// The element of a site's vector at a place where it is at hand.
#[tactic(auto, using(crate::proofs::Serving::no_number))]
fn given_at(at: &Turn<'_>, lanes: &[Lane], of: &SiteElement, place: u32) -> i64
    requires over { IsOver at.now lanes.now }
    requires site { of.now.site < length (graph_sites (job_graph (turn_job at.now))) }
    requires inside { place < at.now.count }
    requires hand { IsAtHand (turn_job at.now) at.now.first lanes.now of.now.under place (source.Element of.now.site of.now.nth of.now.tags) }
    ensures { source_value {M = ⊥} (row_of (turn_job at.now) (at.now.first + place)) (site_in (turn_job at.now) (at.now.first + place) of.now.under) (source.Element of.now.site of.now.nth of.now.tags) ≡ Gives (val.Int result) }
{
    match element_at(at, lanes, of, place) {
        Ok(number) => number,
        Err(_) => unreachable!(),
    }
}

/// Writes the number of a place.
fn write_number(numbers: &mut Vec<i64>, place: u32, number: i64)
    requires { place < length numbers.old.items }
    ensures { numbers.new.items ≡ slice_set numbers.old.items place number }
{
    numbers[place as usize] = number;
}

/// Copies the elements of a site's vector at the selected places, where they are at hand.
fn copy_elements(
    at: &Turn<'_>,
    lanes: &[Lane],
    selection: &Selection,
    of: &SiteElement,
) -> Result<Vec<i64>, Memory>
    requires over { IsOver at.now lanes.now }
    requires site { of.now.site < length (graph_sites (job_graph (turn_job at.now))) }
    requires inside { EachPlace selection.now (λ p. p < at.now.count) }
    requires hand { EachPlace selection.now (λ p. IsAtHand (turn_job at.now) at.now.first lanes.now of.now.under p (source.Element of.now.site of.now.nth of.now.tags)) }
    ensures { IfOk result (λ v. EachPlace selection.now (λ p. GivesNumber v.items p (source_value {M = ⊥} (row_of (turn_job at.now) (at.now.first + p)) (site_in (turn_job at.now) (at.now.first + p) of.now.under) (source.Element of.now.site of.now.nth of.now.tags)))) }
{
    let mut numbers = vec![in at.plan.alloc(); 0; at.count as usize]?;
    for i in 0..selection.len() {
        let place = place_at(selection, i);
        write_number(&mut numbers, place, given_at(at, lanes, of, place));
    }
    Ok(numbers)
}

/// Of which kind a site's values are.
fn site_kind(at: &Turn<'_>, site: u32) -> ColType
    requires turn { IsTurn at.now }
    requires site { site < length (graph_sites (job_graph (turn_job at.now))) }
    ensures expr { (e : CheckedExpr) × IsSiteExpr (job_graph (turn_job at.now)) site e × (result ≡ e.kind) }
    ensures plain { (used : ℕ → Bool) → ArePlain (turn_job at.now) used → used site ≡ true → result ≡ kind.Vect → ⊥ }
{
    at.job.graph.site(site).kind()
}

/// Copies a version at the selected places, where it is at hand, unless it is read in place.
#[tactic(auto, using(crate::proofs::Serving::no_vector))]
fn copy_version(
    at: &Turn<'_>,
    lanes: &[Lane],
    selection: &Selection,
    version: u32,
    under: Option<u32>,
) -> Result<CopiedVersion, Memory>
    requires over { IsOver at.now lanes.now }
    requires can { (scratch levels : ℕ) × CanServeWith at.now under lanes.now scratch levels version }
    requires inside { EachPlace selection.now (λ p. p < at.now.count) }
    requires hand { EachPlace selection.now (λ p. IsAtHand (turn_job at.now) at.now.first lanes.now under p (source_in_turn at.now under version)) }
    ensures copied { IfOk result (IsCopyInTurn at.now under lanes.now selection.now version) }
    ensures plain { (used : ℕ → Bool) → ArePlain (turn_job at.now) used → IsSourceIn used (source_in_turn at.now under version) → OnErr result ⊥ }
{
    match source_under(at, version, under) {
        Source::Cell { .. } => Ok(CopiedVersion::Whole),
        Source::Site { site } => match site_kind(at, site) {
            ColType::Int | ColType::Bool => Ok(CopiedVersion::Whole),
            ColType::Vect => Ok(CopiedVersion::Vectors(copy_vectors(
                at, lanes, selection, site, under,
            )?)),
        },
        Source::Element { site, place, tags } => {
            let of = SiteElement {
                site,
                under,
                nth: place,
                tags,
            };
            let _kind = site_kind(at, site);
            Ok(CopiedVersion::Numbers(copy_elements(at, lanes, selection, &of)?))
        }
    }
}

/// Copies one of the versions that an action reads, likewise; none where there are no more.
fn copy_input(
    at: &Turn<'_>,
    lanes: &[Lane],
    selection: &Selection,
    own: &ActionRead<'_>,
    nth: usize,
) -> Result<CopiedVersion, Memory>
    requires over { IsOver at.now lanes.now }
    requires can { (scratch levels : ℕ) × AllByRecursion (CanServeWith at.now own.now.under lanes.now scratch levels) own.now.inputs.now }
    requires inside { EachPlace selection.now (λ p. p < at.now.count) }
    requires hand { EachPlace selection.now (AreHeldInTurn at.now own.now lanes.now) }
    ensures copied { nth < length own.now.inputs.now → IfOk result (IsCopyInTurn at.now own.now.under lanes.now selection.now (slice_index_or own.now.inputs.now nth 0)) }
    ensures plain { IsPlainRead at.now own.now → OnErr result ⊥ }
{
    match own.inputs.get(nth) {
        Some(version) => copy_version(at, lanes, selection, *version, own.under),
        None => Ok(CopiedVersion::Whole),
    }
}

/// Copies the versions that an action reads at the selected places, where they are at hand; nothing of those that it reads in place.
pub(crate) fn copy_inputs(
    at: &Turn<'_>,
    lanes: &[Lane],
    selection: &Selection,
    own: &ActionRead<'_>,
) -> Result<Copies, Memory>
    requires over { IsOver at.now lanes.now }
    requires can { (scratch levels : ℕ) × AllByRecursion (CanServeWith at.now own.now.under lanes.now scratch levels) own.now.inputs.now }
    requires inside { EachPlace selection.now (λ p. p < at.now.count) }
    requires hand { EachPlace selection.now (AreHeldInTurn at.now own.now lanes.now) }
    ensures copied { IfOk result (AreCopiedInTurn at.now own.now lanes.now selection.now) }
    ensures plain { IsPlainRead at.now own.now → OnErr result ⊥ }
{
    Ok(Copies {
        first: copy_input(at, lanes, selection, own, 0)?,
        second: copy_input(at, lanes, selection, own, 1)?,
        third: copy_input(at, lanes, selection, own, 2)?,
    })
}
