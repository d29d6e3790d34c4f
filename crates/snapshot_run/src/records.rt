// The records of all clusters.
ghost use Rattle.std.specs.Prelude.{◌<◌, ◌≤◌};
ghost use Rattle.snapshot_entries.specs.{data_of, IsWork, plan_of};
ghost use Rattle.snapshot_run.specs.{AreRecords};

use crate::stop::SnapStop;
use crate::workers::run_slots;
use rdf_outside::Gate;
use rdf_values::{ListOf, Text};
use slot_words::Claims;
use snapshot_entries::SnapJob;
use snapshot_pieces::{SnapshotOutcome, gathered, placed};
use std::alloc::Global;
use std::thread::Threads;

/// Makes the records of all clusters, of which so many slots share the work.
pub(crate) fn make_records<R: Threads + Sync, G: Gate>(
    rt: &R,
    alloc: Global,
    job: &SnapJob<'_>,
    slots: u32,
    gate: &G,
) -> Result<ListOf<Text>, SnapStop>
    requires work { IsWork (plan_of job.now) (data_of job.now) }
    requires slots { (0 < slots) × (slots ≤ 16) }
    ensures { AreRecords (plan_of job.now) (data_of job.now) result }
{
    let clusters = job.columns.cuts().count();
    let (claims, seats) = Claims::new(alloc, clusters, slots)?;
    let ready = seats.into_vec();
    let finished = run_slots(rt, alloc, job, &claims, ready, gate)?;
    match gathered(alloc, claims, finished)? {
        SnapshotOutcome::Faulted(fault) => Err(SnapStop::Fault {
            entry: fault.entry,
            kind: fault.kind,
        }),
        SnapshotOutcome::Made(pieces) => {
            let texts = placed(alloc, clusters, pieces)?;
            Ok(texts)
        }
    }
}
