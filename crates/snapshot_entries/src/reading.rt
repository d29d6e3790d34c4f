// An entry that is read.
ghost use Rattle.std.specs.Prelude.{◌≡◌, ◌<◌, length};
ghost use Rattle.graph_numbers.specs.{graph_versions, IsSiteExpr};
ghost use Rattle.snapshot_entries.specs.{data_of, IsWork, plan_graph, plan_of, site_total, source_of as source_in};

use crate::job::SnapJob;
use expr_check::Checked;
use graph_numbers::Source;

/// An entry of a snapshot's table.
#[derive(Clone, Copy)]
pub(crate) struct EntryReading<'a> {
    pub(crate) job: &'a SnapJob<'a>,
    pub(crate) entry: u32,
}

/// A site's expression.
pub(crate) fn expression<'a>(at: &EntryReading<'a>, site: u32) -> &'a Checked
    requires work { IsWork (plan_of at.now.job.now) (data_of at.now.job.now) }
    requires site { site < site_total (plan_of at.now.job.now) (data_of at.now.job.now) }
    ensures { IsSiteExpr (plan_graph (plan_of at.now.job.now) (data_of at.now.job.now)) site result.now }
{
    at.job.plan.graph().site(site)
}

/// What gives a version its value.
pub(crate) fn source_of(at: &EntryReading<'_>, version: u32) -> Source
    requires work { IsWork (plan_of at.now.job.now) (data_of at.now.job.now) }
    requires version { version < length (graph_versions (plan_graph (plan_of at.now.job.now) (data_of at.now.job.now))) }
    ensures { result ≡ source_in (plan_of at.now.job.now) (data_of at.now.job.now) version }
{
    let plan = at.job.plan;
    plan.graph().source(version, plan.variation())
}
