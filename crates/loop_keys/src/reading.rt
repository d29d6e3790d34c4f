// An entry that is read, and what is known of its sites.
ghost use Rattle.std.specs.Prelude.{◌≡◌, ◌<◌, length};
ghost use Rattle.graph_numbers.specs.{graph_sites, graph_versions, IsSiteExpr};
ghost use Rattle.loop_keys.specs.{Fits, IsRow, job_graph, job_of, key as key_of, key_count, key_under, place_of, source_at};

use crate::job::Job;
use crate::rows::{Row, ValuePlace};
use expr_check::Checked;
use graph_numbers::Source;
use rdf_values::{EntryFault, IntList};

/// An entry of a job, under nominal or a variation, and where what is read of it stands.
#[derive(Clone, Copy)]
pub struct Reading<'a> {
    pub job: &'a Job<'a>,
    pub row: &'a Row,
    pub entry: u32,
    pub under: Option<u32>,
}

/// The key of a site.
pub fn key(at: &Reading<'_>, site: u32) -> usize
    requires row { IsRow (job_graph (job_of at.now.job.now)) at.now.under at.now.row.now }
    requires site { site < length (graph_sites (job_graph (job_of at.now.job.now))) }
    ensures key { result ≡ key_of (job_graph (job_of at.now.job.now)) site at.now.under }
    ensures small { result < key_count (job_graph (job_of at.now.job.now)) }
{
    at.row.keys.as_slice()[site as usize]
}

/// A site's expression.
pub fn expression<'a>(at: &Reading<'a>, site: u32) -> &'a Checked
    requires job { Fits at.now.job.now }
    requires site { site < length (graph_sites (job_graph (job_of at.now.job.now))) }
    ensures { IsSiteExpr (job_graph (job_of at.now.job.now)) site result.now }
{
    at.job.graph.site(site)
}

/// What gives a version its value.
pub fn source_of(at: &Reading<'_>, version: u32) -> Source
    requires job { Fits at.now.job.now }
    requires version { version < length (graph_versions (job_graph (job_of at.now.job.now))) }
    ensures { source_at (job_of at.now.job.now) at.now.under version ≡ result }
{
    at.job.graph.source(version, at.under)
}

/// Where the value of a version stands.
pub fn place(at: &Reading<'_>, version: u32) -> ValuePlace
    requires row { IsRow (job_graph (job_of at.now.job.now)) at.now.under at.now.row.now }
    requires version { version < length (graph_versions (job_graph (job_of at.now.job.now))) }
    ensures { place_of (key_under (job_graph (job_of at.now.job.now)) at.now.under) (source_at (job_of at.now.job.now) at.now.under version) ≡ result }
{
    at.row.places.as_slice()[version as usize]
}

/// What is known of a site under nominal or a variation: nothing yet, its value, or its fault.
#[derive(Debug, Drop)]
pub enum Held {
    Nothing,
    Int(i64),
    Bool(bool),
    Vect(IntList),
    Faulted(EntryFault),
}
