// The memory that a slot reserves for its blocks: how many levels its evaluations take, and of which kinds its keys' values are.
ghost use Rattle.std.specs.Prelude.{◌≤◌, IfOk, IfSome, ◌≡◌, ◌<◌, ◌++◌, OnOk, length, replicate, ◌-◌, All, None, count_by};
ghost use Rattle.expr_check.specs.{is_vector};
ghost use Rattle.expr_lanes.specs.{depth};
ghost use Rattle.block_passes.specs.{AreDeepEnough, AreLoaded, CountsVectors, HaveCells, HaveKinds, KeptPlaces};
ghost use Rattle.graph_numbers.specs.{graph_sites};
ghost use Rattle.loop_keys.specs.{key_count, Fits, job_of};

use crate::turn::KeptPlaces;
use block_cache::cells::CellLane;
use block_cache::level::Level;
use columns::Over;
use expr_check::Checked;
use expr_lanes::{Scratch, Selection, is_deep_enough};
use graph::Graph;
use loop_keys::Job;
use rdf_values::{ColType, ListOf, Memory, Span};
use std::alloc::Global;

// How many levels are enough for an expression, from so many on.
fn levels_from(expr: &Checked, least: usize) -> Option<usize>
    ensures enough { IfSome result (λ levels. depth expr.now.tree ≤ levels) }
    ensures least { IfSome result (λ levels. least ≤ levels) }
{
    for levels in least..usize::MAX {
        if is_deep_enough(expr, levels) {
            return Some(levels);
        }
    }
    None
}

/// How many levels are enough for each site's expression.
pub(crate) fn deepest(graph: &Graph) -> Result<usize, Memory>
    ensures { IfOk result (AreDeepEnough graph.now) }
{
    let mut deepest = 0;
    for site in 0..graph.sites() {
        deepest = levels_from(graph.site(site), deepest).ok_or(Memory)?;
    }
    Ok(deepest)
}

// Appends a kind so many times.
fn push_kind(kinds: &mut ListOf<ColType>, kind: ColType, count: usize) -> Result<(), Memory>
    ensures { OnOk result (kinds.new ≡ kinds.old ++ replicate count kind) }
{
    for _ in 0..count {
        kinds.push(kind)?;
    }
    Ok(())
}

/// The kind of each key: that of its site.
#[tactic(auto, using(loop_keys::proofs::KeyLaws::no_keys, crate::proofs::Demanding::no_kinds))]
pub(crate) fn key_kinds(alloc: Global, graph: &Graph) -> Result<ListOf<ColType>, Memory>
    ensures many { IfOk result (λ kinds. length kinds ≡ key_count graph.now) }
    ensures kinds { IfOk result (HaveKinds graph.now (length (graph_sites graph.now))) }
    ensures few { IfOk result (λ kinds. length kinds < 1099511627776) }
{
    let mut kinds = ListOf::new(alloc);
    for site in 0..graph.sites() {
        let depends = graph.site_depends(site);
        let kind = graph.site(site).kind();
        push_kind(&mut kinds, kind, 1 + depends.count() as usize)?;
    }
    Ok(kinds)
}

// How many of these kinds are of vectors.
fn vector_count(kinds: &[ColType]) -> usize
    ensures count { result ≡ count_by is_vector kinds.now }
    ensures few { result ≤ length kinds.now }
{
    kinds.iter().filter(|kind| **kind == ColType::Vect).count()
}

/// How many of a graph's keys have vectors for values.
pub fn vector_keys(alloc: Global, graph: &Graph) -> Result<u64, Memory>
    ensures count { IfOk result (CountsVectors graph.now) }
    ensures few { IfOk result (λ keys. keys < 1099511627776) }
{
    let kinds = key_kinds(alloc, graph)?;
    Ok(vector_count(kinds.as_slice()) as u64)
}

/// A list of numbers for each of so many columns, with room for so many entries.
pub(crate) fn new_cells(alloc: Global, columns: usize, size: usize) -> Result<Vec<CellLane>, Memory>
    ensures many { IfOk result (λ cells. length cells.items ≡ columns) }
    ensures room { IfOk result (λ cells. HaveCells size cells.items) }
{
    let mut cells = Vec::with_capacity(alloc, columns)?;
    for _ in 0..columns {
        cells.push(CellLane::new(alloc, size)?)?;
    }
    Ok(cells)
}

/// So many levels for evaluations.
pub(crate) fn new_scratch(alloc: Global, count: usize) -> Result<Vec<Scratch>, Memory>
    ensures { IfOk result (λ scratch. length scratch.items ≡ count) }
{
    Ok((0..count).map(|_| Scratch::new()).collect(alloc)?)
}

/// So many levels for sites within one another.
pub(crate) fn new_levels(alloc: Global, count: usize) -> Result<Vec<Level>, Memory>
    ensures { IfOk result (λ levels. length levels.items ≡ count) }
{
    Ok((0..count).map(|_| Level::new()).collect(alloc)?)
}

/// Room for the selections of so many steps, of which none was made.
pub(crate) fn new_kept(alloc: Global, count: usize) -> Result<Vec<KeptPlaces>, Memory>
    ensures { IfOk result (λ kept. length kept.items ≡ count) }
{
    let none = (0..count).map(|_| KeptPlaces {
        limit: None,
        places: Selection::new(),
    });
    Ok(none.collect(alloc)?)
}

/// No selection is made any more.
pub(crate) fn forget(kept: &mut [KeptPlaces])
    ensures many { length kept.new ≡ length kept.old }
    ensures none { All (λ (k : KeptPlaces). k.limit ≡ None) kept.new }
{
    for i in 0..kept.len() {
        kept[i].limit = None;
    }
}

/// Reads the columns of numbers at some entries of a cluster.
pub(crate) fn load_columns(
    cells: &mut [CellLane],
    job: &Job<'_>,
    over: &Over<'_>,
    entries: Span,
    _size: u32,
)
    requires job { Fits job.now }
    requires columns { over.now.columns.now ≡ job.now.columns.now }
    requires from { over.now.span.lo ≤ entries.lo }
    requires within { entries.hi ≤ over.now.span.hi }
    requires small { entries.hi - entries.lo ≤ _size }
    requires many { length cells.old ≡ length (job_of job.now).dataset.columns }
    requires room { HaveCells _size cells.old }
    ensures many { length cells.new ≡ length cells.old }
    ensures room { HaveCells _size cells.new }
    ensures loaded { AreLoaded (job_of job.now) entries.lo (entries.hi - entries.lo) cells.new }
{
    let columns = job.columns.columns();
    for col in 0..columns.len() {
        if let ColType::Int = columns[col].kind {
            cells[col].load(over, entries, col as u32);
        }
    }
}
