// The run of a snapshot.
ghost use Rattle.std.specs.Prelude.{◌≡◌, ◌<◌, ◌≤◌};
ghost use Rattle.rdf_values.specs.{fn_names};
ghost use Rattle.snapshot_entries.specs.{data_of, plan_of};
ghost use Rattle.snapshot_run.specs.{IsRun};

use crate::joining::put_together;
use crate::records::make_records;
use crate::stop::SnapStop;
use rdf_outside::Gate;
use rdf_values::Text;
use snapshot_entries::SnapJob;
use std::alloc::Global;
use std::thread::Threads;

/// The text of a plan's snapshot of a table, which so many slots make side by side. A text of more than 67,108,864 bytes is too
/// long; a fault is found even then.
pub fn run<R: Threads + Sync, G: Gate>(
    rt: &R,
    alloc: Global,
    job: &SnapJob<'_>,
    slots: u32,
    gate: &G,
) -> Result<Text, SnapStop>
    requires columns { (plan_of job.now).graph.header ≡ (data_of job.now).columns }
    requires functions { (plan_of job.now).graph.names ≡ fn_names (data_of job.now).fns }
    requires slots { (0 < slots) × (slots ≤ 16) }
    ensures { IsRun (plan_of job.now) (data_of job.now) result }
{
    job.plan.is_planned();
    job.plan.graph().is_booked();
    let _columns = job.columns.columns();
    let records = make_records(rt, alloc, job, slots, gate)?;
    put_together(alloc, job.plan, records.as_slice())
}
