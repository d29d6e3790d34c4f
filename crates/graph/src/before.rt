// What stands before a statement, the columns and expressions at its nodes, and the checks that several statements share.
ghost use Rattle.std.specs.Prelude.{◌≡◌, ◌≤◌, length, map, slice_get, Ok, Err, Result, MatchOption, IfOk};
ghost use Rattle.std.specs.List.{AllByRecursion};
ghost use Rattle.std.specs.Option.{ok_or};
ghost use Rattle.rdf_values.specs.{check_node, check_target, ColType, column_kind, expect_kind, GraphCause, is_visible, IsShort, kind_of, kind_or_int, path, refusal_in, same_kind};
ghost use Rattle.rdf_values.specs.declared.scripts.script_cause.GraphCause.TheVariants.{UnknownColumn};
ghost use Rattle.expr_check.specs.{RefusedAs};
ghost use Rattle.graph_numbers.specs.{filter_sites, version_at};
ghost use Rattle.graph.specs.Checks.{IsStop};
ghost use Rattle.graph.specs.Gains.{AreTables, statements};
ghost use Rattle.graph.specs.OneProof.{tables-prop};
ghost use Rattle.graph.specs.ShortProof.{short_all-prop};

use crate::lookup::{
    at, filter_sites, is_alias, is_node, is_result, is_visible, named_version, target_of,
};
use crate::refusals::{Stop, first_of, refuse_if, refuse_unless};
use crate::tables::Tables;
use expr_check::{CheckRefusal, Checked, ReadableColumns, check};
use rdf_values::{ColType, Column, Expr, FnNames, GraphCause, Line, ListOf, Memory, Name};
use std::alloc::Global;

#[tactic(auto, using(crate::proofs::Walking::cause_refused))]
fn stop_of(refusal: CheckRefusal) -> Stop
    ensures { (wanted : Result ColType GraphCause) → RefusedAs refusal wanted → IsStop (refusal_in wanted) result }
{
    match refusal {
        CheckRefusal::UnknownColumn => Stop::Cause(GraphCause::UnknownColumn),
        CheckRefusal::UnknownFunction => Stop::Cause(GraphCause::UnknownFunction),
        CheckRefusal::WrongType => Stop::Cause(GraphCause::WrongType),
        CheckRefusal::WrongCount => Stop::Cause(GraphCause::WrongCount),
        CheckRefusal::Memory => Stop::Memory,
    }
}

pub(crate) fn same_kind(a: ColType, b: ColType) -> bool
    ensures { result ≡ same_kind a b }
{
    a == b
}

/// What stands before a statement: the table's header, the functions' names, the lines so far, the latest first, and what is
/// known of these, with what allocates.
#[derive(Clone, Copy)]
pub(crate) struct Before<'a> {
    pub(crate) alloc: Global,
    pub(crate) header: &'a [Column],
    pub(crate) names: &'a FnNames,
    pub(crate) lines: &'a [Line],
    pub(crate) tables: &'a Tables,
    ghost are: { AreTables header.now names.now (statements lines.now) tables.now } by { tables-prop header.now names.now (statements lines.now) tables.now },
    ghost short: { AllByRecursion IsShort (statements lines.now) } by { short_all-prop (statements lines.now) },
    ghost few: { length lines.now ≤ 256 },
}

impl Before<'_> {
    ghost use Rattle.graph.specs.{Decides, history, IsCheckedBefore, named_version_before, scope_before, sites_so_far};

    #[tactic(auto, using(crate::proofs::Finished::sites_are))]
    pub(crate) fn sites(&self) -> u32
        ensures value { result ≡ sites_so_far self.now }
        ensures few { result ≤ 16777216 }
    {
        self.tables.sites.as_slice().len() as u32
    }

    #[tactic(auto, using(crate::proofs::Finished::numbers_are, crate::proofs::Finished::total_is))]
    pub(crate) fn filters_above(&self, node: &Name) -> Result<ListOf<u32>, Memory>
        ensures { IfOk result (λ l. l ≡ filter_sites self.now.header.now self.now.names.now (history self.now) node.now) }
    {
        filter_sites(self.alloc, self.lines, self.sites(), node)
    }

    pub(crate) fn versions_of(&self, node: &Name, columns: &[Name]) -> Result<ListOf<u32>, Memory>
        ensures { IfOk result (λ l. l ≡ map (version_at self.now.header.now (history self.now) node.now) columns.now) }
    {
        let versions = columns.iter().map(|column| self.named_version(
            node,
            target_of(self.lines, node, column),
        ));
        Ok(ListOf::from_vec(versions.collect(self.alloc)?))
    }

    #[tactic(auto, using(crate::proofs::Walking::kinds_counted, crate::proofs::Walking::named_few, crate::proofs::Finished::versions_are))]
    pub(crate) fn named_version(&self, node: &Name, name: &Name) -> u32
        ensures { result ≡ named_version_before self.now node.now name.now }
    {
        let count = self.tables.kinds.len();
        named_version(self.lines, self.header, count, node, name) as u32
    }

    pub(crate) fn find_column(&self, node: &Name, name: &Name) -> Option<(ColType, u32)>
        ensures { MatchOption result (column_kind (scope_before self.now node.now) name.now ≡ Err UnknownColumn)
            (λ c. (column_kind (scope_before self.now node.now) name.now ≡ Ok c.0) × (version_at self.now.header.now (history self.now) node.now name.now ≡ c.1)) }
    {
        if !is_visible(self.lines, self.header, node, name) {
            return None;
        }
        let target = target_of(self.lines, node, name);
        let version = self.named_version(node, target);
        Some((*at(self.tables.kinds.as_slice(), version), version))
    }

    /// The kind of a column, and that of a number where there is none.
    pub(crate) fn kind_at(&self, node: &Name, column: &Name) -> ColType
        ensures { result ≡ kind_or_int (column_kind (scope_before self.now node.now) column.now) }
    {
        let found = self.find_column(node, column);
        found.map_or(ColType::Int, |(kind, _)| kind)
    }

    pub(crate) fn check_node(&self, node: &Name, parent: &Name) -> Option<GraphCause>
        ensures { result ≡ check_node (history self.now) node.now parent.now }
    {
        let taken = is_node(self.lines, node) || is_result(self.lines, node);
        first_of(&[
            refuse_if(taken, GraphCause::NameTaken),
            refuse_unless(is_node(self.lines, parent), GraphCause::UnknownName),
        ])
    }

    pub(crate) fn sees(&self, node: &Name, column: &Name) -> bool
        ensures { result ≡ is_visible (scope_before self.now node.now) column.now }
    {
        is_visible(self.lines, self.header, node, column)
    }

    pub(crate) fn check_target(&self, parent: &Name, column: &Name) -> Option<GraphCause>
        ensures { result ≡ check_target (scope_before self.now parent.now) (path (history self.now) parent.now) column.now }
    {
        first_of(&[
            refuse_unless(self.sees(parent, column), GraphCause::UnknownColumn),
            refuse_if(
                is_alias(self.lines, parent, column),
                GraphCause::AliasTarget,
            ),
        ])
    }

    /// An expression over the versions that its columns have at a node.
    #[tactic(auto, using(crate::proofs::Walking::no_memory, crate::proofs::Walking::checked_at))]
    pub(crate) fn expression(&self, node: &Name, expr: &Expr) -> Result<Checked, Stop>
        ensures checked { IfOk result (IsCheckedBefore self.now node.now expr.now) }
        ensures decided { Decides (refusal_in (kind_of (scope_before self.now node.now) self.now.names.now expr.now)) result }
    {
        let columns = At { before: self, node };
        match check(self.alloc, expr, &columns, self.names) {
            Ok(checked) => Ok(checked),
            Err(refusal) => Err(stop_of(refusal)),
        }
    }

    #[tactic(auto, using(crate::proofs::Walking::kind_is, crate::proofs::Walking::kind_isnt, crate::proofs::Walking::kind_stopped, crate::proofs::Walking::handed_on))]
    pub(crate) fn expected(&self, node: &Name, kind: ColType, expr: &Expr) -> Result<Checked, Stop>
        ensures checked { IfOk result (IsCheckedBefore self.now node.now expr.now) }
        ensures decided { Decides (expect_kind kind (kind_of (scope_before self.now node.now) self.now.names.now expr.now)) result }
    {
        let checked = self.expression(node, expr)?;
        if same_kind(checked.kind(), kind) {
            Ok(checked)
        } else {
            Err(Stop::Cause(GraphCause::WrongType))
        }
    }
}

/// The columns that an expression may read at a node.
#[derive(Clone, Copy)]
struct At<'a> {
    before: &'a Before<'a>,
    node: &'a Name,
}

impl ReadableColumns for At<'_> {
    ghost use Rattle.graph.specs.{history, scope_before};

    ghost kind_named = { λ at name. column_kind (scope_before at.before.now at.node.now) name };

    ghost number_named = { λ at name. version_at at.before.now.header.now (history at.before.now) at.node.now name };

    ghost kind_numbered = { λ at number. ok_or (slice_get at.before.now.tables.now.kinds.items number) UnknownColumn };

    fn column(&self, name: &Name) -> Option<(ColType, u32)> {
        self.before.find_column(self.node, name)
    }

    #[tactic(auto, using(crate::proofs::Walking::one_kind, crate::proofs::Walking::kind_within))]
    fn kinds_of(&self, numbers: &[u32]) -> Result<Vec<ColType>, Memory> {
        let kinds = self.before.tables.kinds.as_slice();
        let mut found = Vec::new(self.before.alloc);
        for number in numbers {
            found.push(*at(kinds, *number))?;
        }
        Ok(found)
    }
}
