// What a snapshot reads of each entry.
ghost use Rattle.std.specs.Prelude.{◌≡◌, IfOk};
ghost use Rattle.graph_numbers.specs.{booked_statements, version_at};
ghost use Rattle.snapshot_entries.specs.{AreVersions, data_of, IsWanted, IsWork, plan_of};

use crate::job::SnapJob;
use graph::lookup::{filter_sites, named_version, target_of};
use rdf_values::{ListOf, Memory, Name};
use std::alloc::Global;

/// The sites of the filters above the plan's node, head first, and the versions of its columns.
#[derive(Drop)]
pub struct WantedSites {
    pub(crate) filters: ListOf<u32>,
    pub(crate) columns: ListOf<u32>,
}

/// The version of a column at the plan's node.
fn version_at(job: &SnapJob<'_>, name: &Name) -> u32
    requires work { IsWork (plan_of job.now) (data_of job.now) }
    ensures { result ≡ version_at (data_of job.now).columns (booked_statements (plan_of job.now).graph) (plan_of job.now).node name.now }
{
    let graph = job.plan.graph();
    let lines = graph.lines();
    let node = job.plan.node();
    let count = graph.versions() as usize;
    let target = target_of(lines, node, name);
    named_version(lines, graph.header(), count, node, target) as u32
}

/// The versions of the plan's columns.
fn versions(alloc: Global, job: &SnapJob<'_>) -> Result<ListOf<u32>, Memory>
    requires work { IsWork (plan_of job.now) (data_of job.now) }
    ensures { IfOk result (AreVersions (plan_of job.now) (data_of job.now)) }
{
    let mut versions = ListOf::new(alloc);
    for name in job.plan.columns() {
        versions.push(version_at(job, name))?;
    }
    Ok(versions)
}

impl WantedSites {
    /// What the job's plan reads.
    pub(crate) fn of(alloc: Global, job: &SnapJob<'_>) -> Result<WantedSites, Memory>
        requires work { IsWork (plan_of job.now) (data_of job.now) }
        ensures { IfOk result (IsWanted (plan_of job.now) (data_of job.now)) }
    {
        let graph = job.plan.graph();
        let filters = filter_sites(alloc, graph.lines(), graph.sites(), job.plan.node())?;
        let columns = versions(alloc, job)?;
        Ok(WantedSites { filters, columns })
    }
}
