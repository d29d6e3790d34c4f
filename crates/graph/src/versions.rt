// The versions that the table and a Vary make.
ghost use Rattle.std.specs.Prelude.{◌≡◌, length, IfOk, ◌<◌, List, Some, slice_get};
ghost use Rattle.graph.specs.{named_version_before, sites_so_far, variation_count, versions_changed, AreAbove, AreSourcesOf, HasSites};
ghost use Rattle.graph_numbers.specs.{Source, tag_source, varied_version};

use crate::before::Before;
use crate::lookup::{at, list_start, numbers};
use crate::tables::Change;
use graph_numbers::{Source, Version};
use rdf_values::{Memory, Name, VaryValues};

/// The column at a place of a Vary, over the version below it.
#[tactic(auto, using(crate::proofs::Walking::counted_are))]
fn varied_version(
    before: &Before<'_>,
    change: &Change<'_>,
    i: usize,
    column: &Name,
) -> Result<Version, Memory>
    ensures { IfOk result (λ v. v ≡ varied_version before.now.header.now before.now.names.now change.now.values.now (named_version_before before.now change.now.parent.now column.now) (variation_count before.now) (sites_so_far before.now) change.now.tags.now i) }
{
    let below = before.named_version(change.parent, column);
    let first = before.tables.variations.len();
    let site = before.sites();
    let tags = change.tags.len() as u32;
    let (vector, sites) = match change.values {
        VaryValues::Lists(lists) => {
            let start = site + list_start(lists.as_slice(), i) as u32;
            (false, numbers(before.alloc, start, tags)?)
        }
        VaryValues::Vector(_) => (true, numbers(before.alloc, site, 1)?),
    };
    Ok(Version::Varied {
        below,
        first,
        tags,
        sites,
        vector,
    })
}

/// The versions that a Vary makes, one for each column.
pub(crate) fn varied_versions(
    before: &Before<'_>,
    change: &Change<'_>,
) -> Result<Vec<Version>, Memory>
    ensures { IfOk result (λ versions. versions.items ≡ versions_changed before.now change.now 0 change.now.columns.now) }
{
    let mut versions = Vec::new(before.alloc);
    for (i, column) in change.columns.iter().enumerate() {
        versions.push(varied_version(before, change, i, column)?)?;
    }
    Ok(versions)
}

fn tag_source(sites: &[u32], vector: bool, tags: u32, k: u32) -> Source
    requires sites { HasSites vector (length sites.now) tags }
    requires tag { k < tags }
    ensures { tag_source sites.now tags vector k ≡ Some result }
{
    if vector {
        Source::Element {
            site: sites[0],
            place: k,
            tags,
        }
    } else {
        Source::Site {
            site: sites[k as usize],
        }
    }
}

/// The source of a version under nominal or a variation: at most one step for each Vary of its column.
pub(crate) fn source_of(versions: &[Version], c: u32, under: Option<u32>) -> Source
    requires within { c < length versions.now }
    requires above { AreAbove versions.now }
    ensures { (sources : List Source) → AreSourcesOf versions.now under sources → slice_get sources c ≡ Some result }
{
    match at(versions, c) {
        Version::Cell { col } => Source::Cell { col: *col },
        Version::Computed { site } => Source::Site { site: *site },
        Version::Varied {
            below,
            first,
            tags,
            sites,
            vector,
        } => match under {
            Some(v) if *first <= v && v - *first < *tags => {
                tag_source(sites.as_slice(), *vector, *tags, v - *first)
            }
            _ => source_of(versions, *below, under),
        },
    }
}
