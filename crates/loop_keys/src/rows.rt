// Where what is read of an entry stands, under nominal and each variation.
ghost use Rattle.std.specs.Prelude.{◌≡◌, ◌≤◌, IfOk};
ghost use Rattle.loop_keys.specs.{AreKeys, ArePlaces, AreUnder, IsRow, key_count, key_or_count, place_of as place_in, slot_in};

use graph::{Graph, VarSet};
use graph_numbers::Source;
use rdf_values::{ListOf, Memory};
use std::alloc::Global;

/// Where the value of a version stands: in a column of the table, at a key, or at a key in a vector, as the element at the
/// place of a tag among so many.
#[derive(Clone, Copy, Debug)]
pub enum ValuePlace {
    Cell { col: u32 },
    Key { key: usize },
    Element { key: usize, place: u32, tags: u32 },
}

/// The key of each site and the place of each version, under nominal or one variation.
#[derive(Drop)]
pub struct Row {
    pub(crate) keys: ListOf<usize>,
    pub(crate) places: ListOf<ValuePlace>,
}

/// The key of a site, or how many keys there are where there is no such site.
fn key_of(keys: &[usize], count: usize, site: u32) -> usize
    ensures { result ≡ key_or_count keys.now count site }
{
    keys.get(site as usize).copied().unwrap_or(count)
}

/// Where a version stands that this source gives its value.
fn place_of(keys: &[usize], count: usize, source: Source) -> ValuePlace
    ensures { result ≡ place_in (key_or_count keys.now count) source }
{
    match source {
        Source::Cell { col } => ValuePlace::Cell { col },
        Source::Site { site } => ValuePlace::Key {
            key: key_of(keys, count, site),
        },
        Source::Element { site, place, tags } => ValuePlace::Element {
            key: key_of(keys, count, site),
            place,
            tags,
        },
    }
}

/// The place of nominal or a variation among the keys of a site: that of nominal where the site doesn't depend on the variation.
#[tactic(auto, using(graph::proofs::Listing::none_above))]
fn slot(depends: VarSet, under: Option<u32>) -> usize
    ensures value { result ≡ slot_in depends under }
    ensures bound { result ≤ 128 }
{
    match under {
        Some(v) if v < 128 && depends.contains(v) => 1 + depends.count_below(v) as usize,
        _ => 0,
    }
}

/// The key of each site under nominal or a variation, and how many keys there are: the first key of a site is that of nominal,
/// and each variation on which it depends has one of the next.
fn keys_under(
    alloc: Global,
    graph: &Graph,
    under: Option<u32>,
) -> Result<(ListOf<usize>, usize), Memory>
    ensures { IfOk result (λ r. AreUnder graph.now under r.0 × (r.1 ≡ key_count graph.now)) }
{
    let mut keys = ListOf::new(alloc);
    let mut first = 0;
    for site in 0..graph.sites() {
        let depends = graph.site_depends(site);
        keys.push(first + slot(depends, under))?;
        first += 1 + depends.count() as usize;
    }
    Ok((keys, first))
}

/// The places of the versions under nominal or a variation.
#[tactic(auto, using(crate::proofs::KeyLaws::more_places))]
fn places_under(
    alloc: Global,
    graph: &Graph,
    keys: &[usize],
    count: usize,
    under: Option<u32>,
) -> Result<ListOf<ValuePlace>, Memory>
    requires keys { AreUnder graph.now under keys.now }
    requires count { count ≡ key_count graph.now }
    ensures { IfOk result (λ ps. ArePlaces graph.now under ps) }
{
    let mut places = ListOf::new(alloc);
    for version in 0..graph.versions() {
        places.push(place_of(keys, count, graph.source(version, under)))?;
    }
    Ok(places)
}

/// The row of nominal or a variation, and how many keys there are.
fn row_under(alloc: Global, graph: &Graph, under: Option<u32>) -> Result<(Row, usize), Memory>
    ensures { IfOk result (λ r. IsRow graph.now under r.0 × (r.1 ≡ key_count graph.now)) }
{
    let (keys, count) = keys_under(alloc, graph, under)?;
    let places = places_under(alloc, graph, keys.as_slice(), count, under)?;
    Ok((Row { keys, places }, count))
}

/// The row of nominal, and then that of each variation; and how many keys there are.
pub fn rows_of(alloc: Global, graph: &Graph) -> Result<(ListOf<Row>, usize), Memory>
    ensures { IfOk result (λ r. AreKeys graph.now r.0 × (r.1 ≡ key_count graph.now)) }
{
    let (nominal, count) = row_under(alloc, graph, None)?;
    let mut rows = ListOf::new(alloc);
    rows.push(nominal)?;
    for v in 0..graph.variations().len() {
        let (row, _) = row_under(alloc, graph, Some(v))?;
        rows.push(row)?;
    }
    Ok((rows, count))
}
