// The tables that are kept while statements are booked.
ghost use Rattle.std.specs.Prelude.{◌≤◌, length, ◌≡◌, ◌+◌, [], map, IfOk, OnOk};
ghost use Rattle.rdf_values.specs.{AreShortValues, FunctionNames};
ghost use Rattle.graph.specs.ShortProof.{short-prop};

use crate::sets::VarSet;
use crate::variations::Variations;
use expr_check::Checked;
use graph_numbers::{ResultKind, Version};
use rdf_values::{ColType, Column, ListOf, Memory, Name, VaryValues};
use std::alloc::Global;

/// What a result is, the sites of the filters above it, the versions that it reads, and the named filters that it covers.
#[derive(Drop)]
pub struct ResultPath {
    pub kind: ResultKind,
    pub filters: ListOf<u32>,
    pub inputs: ListOf<u32>,
    pub covers: ListOf<u32>,
}

/// A result's name, how many histogram cells and Takes each of its passes has, the variations on which it depends, and what
/// the loop reads of it.
#[derive(Drop)]
pub struct ResultRow {
    pub name: Name,
    pub cells: usize,
    pub takes: usize,
    pub set: VarSet,
    pub path: ResultPath,
}

/// What a Vary changes at a node, how, and by which tags under which name.
#[derive(Clone, Copy)]
pub(crate) struct Change<'a> {
    pub(crate) parent: &'a Name,
    pub(crate) columns: &'a [Name],
    pub(crate) values: &'a VaryValues,
    pub(crate) tags: &'a [Name],
    pub(crate) name: &'a Name,
    ghost few_columns: { length columns.now ≤ 65536 },
    ghost few_tags: { length tags.now ≤ 65536 },
    ghost short: { AreShortValues values.now } by { short-prop values.now },
}

const MOST_VERSIONS: usize = 4294967295;

/// Versions with their kinds, the expressions of the sites, the sites of each named filter, the results, and the variations; and for
/// each version and site the variations on which it depends. They are those of the statements so far, or what one statement adds.
#[derive(Drop)]
pub struct Tables {
    pub versions: Vec<Version>,
    pub kinds: Vec<ColType>,
    pub version_sets: Vec<VarSet>,
    pub sites: Vec<Checked>,
    pub site_sets: Vec<VarSet>,
    pub filters: Vec<ListOf<u32>>,
    pub results: Vec<ResultRow>,
    pub variations: Variations,
}

fn kinds_of(alloc: Global, header: &[Column]) -> Result<Vec<ColType>, Memory>
    ensures { IfOk result (λ kinds. kinds.items ≡ map (λ c. c.kind) header.now) }
{
    Ok(header.iter().map(|column| column.kind).collect(alloc)?)
}

impl Tables {
    ghost use Rattle.graph.specs.{AreTables, GrowBy, IsEmptyGain};

    /// The tables before the first statement.
    #[tactic(auto, using(crate::proofs::Listing::no_sets, crate::proofs::Listing::cells_more))]
    pub fn start(alloc: Global, header: &[Column]) -> Result<Tables, Memory>
        requires few { length header.now ≤ 64 }
        ensures { IfOk result (λ t. (names : FunctionNames) → AreTables header.now names [] t) }
    {
        let mut versions = Vec::new(alloc);
        for col in 0..header.len() as u32 {
            versions.push(Version::Cell { col })?;
        }
        Ok(Tables {
            versions,
            kinds: kinds_of(alloc, header)?,
            version_sets: vec![in alloc; VarSet::empty(); header.len()]?,
            ..Tables::empty(alloc)
        })
    }

    pub(crate) fn empty(alloc: Global) -> Tables
        ensures { IsEmptyGain result }
    {
        Tables {
            versions: Vec::new(alloc),
            kinds: Vec::new(alloc),
            version_sets: Vec::new(alloc),
            sites: Vec::new(alloc),
            site_sets: Vec::new(alloc),
            filters: Vec::new(alloc),
            results: Vec::new(alloc),
            variations: Variations::new(alloc),
        }
    }

    /// Adds what an accepted statement adds. After want of memory the tables say nothing any more.
    pub(crate) fn add(&mut self, mut gain: Tables) -> Result<(), Memory>
        requires { length self.old.variations + length gain.variations ≤ 128 }
        ensures { OnOk result (GrowBy self.old gain self.new) }
    {
        if self.kinds.len().saturating_add(gain.kinds.len()) > MOST_VERSIONS {
            return Err(Memory);
        }
        self.versions.append(&mut gain.versions)?;
        self.kinds.append(&mut gain.kinds)?;
        self.version_sets.append(&mut gain.version_sets)?;
        self.sites.append(&mut gain.sites)?;
        self.site_sets.append(&mut gain.site_sets)?;
        self.filters.append(&mut gain.filters)?;
        self.results.append(&mut gain.results)?;
        self.variations.append(gain.variations)
    }
}
