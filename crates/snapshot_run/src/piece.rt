// The records of one cluster.
ghost use Rattle.std.specs.Prelude.{◌<◌, length};
ghost use Rattle.snapshot_entries.specs.{data_of, IsSkimOf, IsWork, plan_of};
ghost use Rattle.snapshot_run.specs.{facts_of, IsMade, spans_of};

use expr_eval::Steps;
use rdf_values::Text;
use snapshot_entries::{Skim, SkimStop, SnapJob};
use snapshot_pieces::TextPiece;
use std::alloc::Global;
use std::sync::ledger::Ledger;

/// Makes the records of a cluster, or finds its first fault.
pub(crate) fn make_piece<L: Ledger>(
    alloc: Global,
    job: &SnapJob<'_>,
    skim: &mut Skim,
    cluster: u32,
    steps: &mut Steps<L>,
) -> Result<TextPiece, SkimStop>
    requires work { IsWork (plan_of job.now) (data_of job.now) }
    requires of { IsSkimOf (plan_of job.now) (data_of job.now) skim.old }
    requires cluster { cluster < length (spans_of job.now.columns.now.cuts) }
    ensures of { IsSkimOf (plan_of job.now) (data_of job.now) skim.new }
    ensures made { IsMade (facts_of (plan_of job.now) (data_of job.now) (spans_of job.now.columns.now.cuts)) cluster result }
{
    let span = job.columns.cuts().range(cluster);
    let mut text = Text::new(alloc);
    match skim.cluster(alloc, job, span, &mut text, steps) {
        Ok(()) => Ok(TextPiece { cluster, text }),
        Err(stop) => Err(stop),
    }
}
