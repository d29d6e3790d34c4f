// Clusters of a snapshot.
ghost use Rattle.std.specs.Prelude.{◌≡◌, ◌<◌, IfOk, length};
ghost use Rattle.snapshot_entries.specs.{data_of, IsEntryAnswer, IsRange, IsSkimAnswer, IsSkimOf, IsWork, plan_of, stop_from};

use crate::entry::try_entry;
use crate::job::SnapJob;
use crate::known::{Known, none_known};
use crate::reading::EntryReading;
use crate::stop::{EntryStop, SkimStop};
use crate::wanted::WantedSites;
use expr_eval::Steps;
use rdf_values::{Memory, Span, Text};
use std::alloc::Global;
use std::sync::ledger::Ledger;

/// What one slot keeps from entry to entry.
#[derive(Drop)]
pub struct Skim {
    pub(crate) wanted: WantedSites,
    pub(crate) cells: Vec<Known>,
}

// What stops a cluster at an entry.
fn stop_at(entry: u32, stop: EntryStop) -> SkimStop
    ensures { result ≡ stop_from entry stop }
{
    match stop {
        EntryStop::Fault(kind) => SkimStop::Fault { entry, kind },
        EntryStop::Memory => SkimStop::Memory,
    }
}

impl Skim {
    /// For a job, of which no entry was tried.
    pub fn new(alloc: Global, job: &SnapJob<'_>) -> Result<Skim, Memory>
        requires work { IsWork (plan_of job.now) (data_of job.now) }
        ensures { IfOk result (IsSkimOf (plan_of job.now) (data_of job.now)) }
    {
        let wanted = WantedSites::of(alloc, job)?;
        let cells = none_known(alloc, job.plan.graph().sites())?;
        Ok(Skim { wanted, cells })
    }

    /// Appends the record of an entry that passes.
    fn entry<L: Ledger>(
        &mut self,
        alloc: Global,
        job: &SnapJob<'_>,
        entry: u32,
        text: &mut Text,
        steps: &mut Steps<L>,
    ) -> Result<(), EntryStop>
        requires work { IsWork (plan_of job.now) (data_of job.now) }
        requires of { IsSkimOf (plan_of job.now) (data_of job.now) self.old }
        requires entry { entry < length (data_of job.now).rows }
        ensures of { IsSkimOf (plan_of job.now) (data_of job.now) self.new }
        ensures answer { IsEntryAnswer (plan_of job.now) (data_of job.now) entry text.old text.new result }
    {
        let at = EntryReading { job, entry };
        try_entry(alloc, &at, &self.wanted, &mut self.cells, text, steps)
    }

    /// Appends the records of a cluster's entries that pass, in order; at a fault, and at want of memory, a part of them may stand there.
    pub fn cluster<L: Ledger>(
        &mut self,
        alloc: Global,
        job: &SnapJob<'_>,
        span: Span,
        text: &mut Text,
        steps: &mut Steps<L>,
    ) -> Result<(), SkimStop>
        requires work { IsWork (plan_of job.now) (data_of job.now) }
        requires of { IsSkimOf (plan_of job.now) (data_of job.now) self.old }
        requires span { IsRange (data_of job.now) span }
        ensures of { IsSkimOf (plan_of job.now) (data_of job.now) self.new }
        ensures answer { IsSkimAnswer (plan_of job.now) (data_of job.now) span text.old text.new result }
    {
        for entry in span.lo..span.hi {
            match self.entry(alloc, job, entry, text, steps) {
                Ok(()) => {}
                Err(stop) => return Err(stop_at(entry, stop)),
            }
        }
        Ok(())
    }
}
