// The booked graph.
#![tactic(auto, using(crate::proofs::Finished::row_count, crate::proofs::Finished::name_is, crate::proofs::Finished::set_is, crate::proofs::Finished::kind_is, crate::proofs::Finished::path_filters, crate::proofs::Finished::path_inputs, crate::proofs::Finished::path_covers, crate::proofs::Finished::site_count, crate::proofs::Finished::site_set_count, crate::proofs::Finished::site_set_is))]

ghost use Rattle.std.specs.Prelude.{◌≡◌, ◌<◌, ◌≤◌, ℕ, length, Some, option_map, slice_get};
ghost use Rattle.rdf_values.specs.{Answers, is_watched, IsBookable, IsHeader};
ghost use Rattle.rdf_model.specs.{accesses, loop_of};
ghost use Rattle.graph_numbers.specs.{booked, booked_statements, graph_filters, graph_loops, graph_prints, graph_results, graph_sites, graph_sources, graph_variations, graph_versions, IsGraph, IsSiteExpr, kind_of_booking, result_depends_at, site_depends_at};

use crate::before::Before;
use crate::book::book_lines;
use crate::lookup::{at, is_watched, label_of};
use crate::loops::{LoopTables, loop_tables};
use crate::refusals::GraphRefusal;
use crate::sets::VarSet;
use crate::tables::Tables;
use crate::variations::Variations;
use crate::versions::source_of;
use expr_check::Checked;
use graph_numbers::{Pass, ResultKind, Source};
use rdf_values::{ColType, Column, FnName, FnNames, Label, Line, ListOf, Memory, Name, Script};
use std::alloc::Global;
use std::marker::Model;

/// A script that was accepted over a table's columns, by numbers. Contracts see what it was booked from.
#[derive(Drop)]
pub struct Graph {
    lines: Vec<Line>,
    header: ListOf<Column>,
    names: ListOf<FnName>,
    tables: Tables,
    loops: LoopTables,
}

impl Model for Graph {
    ghost use Rattle.std.specs.Coded.{codes};
    ghost use Rattle.rdf_values.specs.{named_code};
    ghost use Rattle.graph_numbers.specs.{GraphView};
    ghost use Rattle.graph.specs.Gains.{view_of, IsBooked};

    ghost Value = { GraphView };

    ghost coded = { Prim.hlevel (codes, named_code) };

    ghost view = { λ g. view_of g.lines.items g.header g.names };

    ghost invariant = { λ g. IsBooked (view_of g.lines.items g.header g.names) g.tables g.loops };
}

impl Graph {
    ghost use Rattle.graph.specs.{AreKinds, has, refused_at, statements};

    /// Books a script over a table's columns: each line is checked after those before it, and the first that is refused is
    /// named with its cause.
    pub fn book(
        alloc: Global,
        script: Script,
        header: &[Column],
        names: &FnNames,
    ) -> Result<Graph, GraphRefusal>
        requires script { IsBookable script }
        requires header { IsHeader header.now }
        ensures { Answers refused_at GraphRefusal.Memory (booked script header.now names.now) result }
    {
        let mut lines = script.lines.into_vec();
        lines.reverse();
        let all = lines.as_slice();
        let tables = book_lines(alloc, all, header, names)?;
        let script = Before {
            alloc,
            header,
            names,
            lines: all,
            tables: &tables,
        };
        let loops = loop_tables(&script, all)?;
        Ok(Graph {
            header: ListOf::from_clones(alloc, header)?,
            names: ListOf::from_clones(alloc, names.as_slice())?,
            lines,
            tables,
            loops,
        })
    }

    /// What holds of each graph, as a fact: its script is accepted.
    pub fn is_booked(&self)
        ensures { IsGraph self.now }
    {
        let _lines = self.lines.is_empty();
    }

    /// The lines that were booked, the latest first, as look-ups in them walk.
    pub fn lines(&self) -> &[Line]
        ensures value { statements result.now ≡ booked_statements self.now }
        ensures few { length result.now ≤ 256 }
    {
        self.lines.as_slice()
    }

    /// The table's columns.
    pub fn header(&self) -> &[Column]
        ensures { result.now ≡ self.now.header }
    {
        self.header.as_slice()
    }

    /// The kinds of the versions, as look-ups of columns ask for them.
    #[tactic(auto, using(crate::proofs::Finished::booked_now))]
    pub fn kinds(&self) -> &[ColType]
        ensures { AreKinds self.now.header self.now.names (booked_statements self.now) result.now }
    {
        self.tables.kinds.as_slice()
    }

    /// The name of a result.
    pub fn result_name(&self, r: u32) -> &Name
        requires { r < length (graph_results self.now) }
        ensures { option_map (λ x. x.booked.name) (slice_get (graph_results self.now) r) ≡ Some result.now }
    {
        &at(self.tables.results.as_slice(), r).name
    }

    /// What a result is.
    pub fn kind(&self, r: u32) -> &ResultKind
        requires { r < length (graph_results self.now) }
        ensures { option_map (λ x. kind_of_booking x.booked.booking) (slice_get (graph_results self.now) r) ≡ Some result.now }
    {
        &at(self.tables.results.as_slice(), r).path.kind
    }

    /// The variations on which a result depends.
    pub fn depends(&self, r: u32) -> VarSet
        requires { r < length (graph_results self.now) }
        ensures { (v : ℕ) → has result v ≡ result_depends_at self.now r v }
    {
        at(self.tables.results.as_slice(), r).set
    }

    /// Whether partial results of a result are asked for.
    pub fn watched(&self, r: u32) -> bool
        requires { r < length (graph_results self.now) }
        ensures { option_map (λ x. is_watched (booked_statements self.now) x.booked.name) (slice_get (graph_results self.now) r) ≡ Some result }
    {
        is_watched(self.lines(), self.result_name(r))
    }

    /// The sites of the filters above a result, head first.
    pub fn path(&self, r: u32) -> &[u32]
        requires { r < length (graph_results self.now) }
        ensures { option_map (λ x. x.filters) (slice_get (graph_results self.now) r) ≡ Some result.now }
    {
        let results = self.tables.results.as_slice();
        at(results, r).path.filters.as_slice()
    }

    /// The versions that an action reads, in written order.
    pub fn inputs(&self, r: u32) -> &[u32]
        requires { r < length (graph_results self.now) }
        ensures { option_map (λ x. x.inputs) (slice_get (graph_results self.now) r) ≡ Some result.now }
    {
        at(self.tables.results.as_slice(), r).path.inputs.as_slice()
    }

    /// The named filters that a report covers.
    pub fn covered(&self, r: u32) -> &[u32]
        requires { r < length (graph_results self.now) }
        ensures { option_map (λ x. x.covers) (slice_get (graph_results self.now) r) ≡ Some result.now }
    {
        at(self.tables.results.as_slice(), r).path.covers.as_slice()
    }

    /// How many Prints there are.
    pub fn prints(&self) -> u32
        ensures { result ≡ length (graph_prints self.now) }
    {
        self.loops.prints.as_slice().len() as u32
    }

    /// The result of a Print.
    pub fn print_result(&self, p: u32) -> u32
        requires { p < length (graph_prints self.now) }
        ensures { slice_get (graph_prints self.now) p ≡ Some (Some result) }
    {
        *at(self.loops.prints.as_slice(), p)
    }

    /// How many event loops there are.
    pub fn loops(&self) -> u32
        ensures { result ≡ length (graph_loops self.now) }
    {
        self.loops.loops.as_slice().len() as u32
    }

    /// The loop that fills the result of a Print.
    pub fn filling(&self, p: u32) -> u32
        requires { p < length (graph_prints self.now) }
        ensures { option_map (λ a. loop_of (booked_statements self.now) a.result) (slice_get (accesses (booked_statements self.now)) p) ≡ Some result }
    {
        *at(self.loops.filling.as_slice(), p)
    }

    /// The passes of a loop, in the order of booking, nominal first, then the variations in their order.
    pub fn passes(&self, l: u32) -> &[Pass]
        requires { l < length (graph_loops self.now) }
        ensures { slice_get (graph_loops self.now) l ≡ Some result.now }
    {
        at(self.loops.loops.as_slice(), l).as_slice()
    }

    /// How many named filters there are.
    pub fn filters(&self) -> u32
        ensures { result ≡ length (graph_filters self.now) }
    {
        self.tables.filters.as_slice().len() as u32
    }

    /// The label of a named filter.
    pub fn label(&self, f: u32) -> &Label
        requires { f < length (graph_filters self.now) }
        ensures { option_map (λ x. x.label) (slice_get (graph_filters self.now) f) ≡ Some result.now }
    {
        let count = self.tables.filters.as_slice().len();
        label_of(self.lines.as_slice(), f as usize, count)
    }

    /// The sites of the filters above a named filter, head first, and then its own.
    pub fn filter_path(&self, f: u32) -> &[u32]
        requires { f < length (graph_filters self.now) }
        ensures { option_map (λ x. x.sites) (slice_get (graph_filters self.now) f) ≡ Some result.now }
    {
        at(self.tables.filters.as_slice(), f).as_slice()
    }

    /// How many sites there are.
    pub fn sites(&self) -> u32
        ensures { result ≡ length (graph_sites self.now) }
    {
        self.tables.sites.as_slice().len() as u32
    }

    /// A site's expression over versions.
    pub fn site(&self, s: u32) -> &Checked
        requires { s < length (graph_sites self.now) }
        ensures { IsSiteExpr self.now s result.now }
    {
        at(self.tables.sites.as_slice(), s)
    }

    /// The variations on which a site depends.
    pub fn site_depends(&self, s: u32) -> VarSet
        requires { s < length (graph_sites self.now) }
        ensures { (v : ℕ) → has result v ≡ site_depends_at self.now s v }
    {
        *at(self.tables.site_sets.as_slice(), s)
    }

    /// How many versions there are.
    pub fn versions(&self) -> u32
        ensures { result ≡ length (graph_versions self.now) }
    {
        self.tables.versions.as_slice().len() as u32
    }

    /// What gives a version its value under nominal or a variation; it takes at most one step for each Vary of the column.
    pub fn source(&self, c: u32, under: Option<u32>) -> Source
        requires { c < length (graph_versions self.now) }
        ensures { slice_get (graph_sources self.now under) c ≡ Some result }
    {
        source_of(self.tables.versions.as_slice(), c, under)
    }

    /// The variations in the order of their numbers.
    pub fn variations(&self) -> &Variations
        ensures { result.now ≡ graph_variations self.now }
    {
        &self.tables.variations
    }
}
