// Plans.
ghost use Rattle.std.specs.Prelude.{◌≡◌, ◌<◌, ◌≤◌, None, Some, length, IfOk, MatchResult};
ghost use Rattle.rdf_values.specs.{Answers};
ghost use Rattle.graph_numbers.specs.{graph_under, graph_variations};
ghost use Rattle.snapshot_plan.specs.Views.{IsNumber, IsPlan, IsWithin, cause_in, plan_columns, plan_of, planned, under_of};

use crate::amounts::node_count;
use crate::cause::SnapCause;
use crate::columns::{first_bad, kind_or_int};
use crate::refusal::SnapRefusal;
use crate::under::{Under, number_under};
use graph::Graph;
use graph::lookup::is_node;
use rdf_values::{Column, ListOf, Memory, Name};
use std::alloc::Global;
use std::marker::Model;

const MOST_STATEMENTS: u32 = 256;

/// A node of a graph, columns there, and nominal or one variation. Contracts see what it was made for.
#[derive(Drop)]
pub struct SnapPlan {
    graph: Graph,
    node: Name,
    columns: ListOf<Name>,
    variation: Option<u32>,
}

impl Model for SnapPlan {
    ghost use Rattle.std.specs.Coded.{codes};
    ghost use Rattle.rdf_values.specs.{named_code};
    ghost use Rattle.snapshot_plan.specs.Views.{IsPlan, IsWithin, PlanView, plan_of};

    ghost Value = { PlanView };

    ghost coded = { Prim.hlevel (codes, named_code) };

    ghost view = { λ p. plan_of p.graph p.node p.columns p.variation };

    ghost invariant = { λ p. IsPlan (plan_of p.graph p.node p.columns p.variation) × IsWithin p.graph p.variation };
}

fn copy_names(alloc: Global, names: &[Name]) -> Result<ListOf<Name>, Memory>
    ensures { IfOk result (λ copied. copied ≡ names.now) }
{
    ListOf::from_clones(alloc, names)
}

// The number of the variation, and none for nominal; or the first cause for which there is no plan.
fn variation_in(
    graph: &Graph,
    node: &Name,
    columns: &[Name],
    under: &Under,
) -> Result<Option<u32>, SnapCause>
    requires few { length columns.now ≤ 64 }
    ensures { MatchResult result (λ n. (cause_in graph.now node.now columns.now (under_of under.now) ≡ None) × IsNumber (graph_variations graph.now) n (under_of under.now))
        (λ cause. cause_in graph.now node.now columns.now (under_of under.now) ≡ Some cause) }
{
    let lines = graph.lines();
    if !is_node(lines, node) {
        return Err(SnapCause::BadNode);
    }
    if let Some(column) = first_bad(graph, node, columns) {
        return Err(SnapCause::BadColumn { column });
    }
    let Some(variation) = number_under(graph.variations(), under) else {
        return Err(SnapCause::BadVariation);
    };
    let count = (node_count(lines) + 2 * columns.len() + 1) as u32;
    if count > MOST_STATEMENTS {
        return Err(SnapCause::TooMany { count });
    }
    Ok(variation)
}

/// The plan for some columns at a node of a graph, under nominal or a variation, or the first cause for which there is none.
pub fn plan(
    alloc: Global,
    graph: Graph,
    node: &Name,
    columns: &[Name],
    under: &Under,
) -> Result<SnapPlan, SnapRefusal>
    requires some { 0 < length columns.now }
    requires few { length columns.now ≤ 64 }
    ensures { Answers SnapRefusal.At SnapRefusal.Memory (planned graph node.now columns.now (under_of under.now)) result }
{
    let variation = match variation_in(&graph, node, columns, under) {
        Ok(variation) => variation,
        Err(cause) => return Err(SnapRefusal::At(cause)),
    };
    let node = node.copy()?;
    let columns = copy_names(alloc, columns)?;
    Ok(SnapPlan {
        graph,
        node,
        columns,
        variation,
    })
}

impl SnapPlan {
    /// The booked graph.
    pub fn graph(&self) -> &Graph
        ensures { result.now ≡ self.now.graph }
    {
        &self.graph
    }

    /// The node.
    pub fn node(&self) -> &Name
        ensures { result.now ≡ self.now.node }
    {
        &self.node
    }

    /// The columns, in the order in which they are written.
    pub fn columns(&self) -> &[Name]
        ensures { result.now ≡ self.now.columns }
    {
        self.columns.as_slice()
    }

    /// The columns with their kinds, as a table has them.
    pub fn header(&self, alloc: Global) -> Result<ListOf<Column>, Memory>
        ensures { IfOk result (λ header. header ≡ plan_columns self.now) }
    {
        let mut header = ListOf::new(alloc);
        for column in self.columns.as_slice() {
            let kind = kind_or_int(&self.graph, &self.node, column);
            let name = column.copy()?;
            header.push(Column { name, kind })?;
        }
        Ok(header)
    }

    /// What `plan` found of it.
    pub fn is_planned(&self)
        ensures { IsPlan self.now }
    {
        let _variation = self.variation;
    }

    /// The number of the variation; none for nominal.
    pub fn variation(&self) -> Option<u32>
        ensures under { graph_under self.now.graph result ≡ self.now.under }
        ensures within { IsWithin self.now.graph result }
    {
        self.variation
    }
}
