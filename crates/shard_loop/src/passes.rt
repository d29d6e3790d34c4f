// The lines of a loop's passes over a span.
ghost use Rattle.std.specs.Prelude.{◌≡◌, ◌<◌, ◌≤◌, ◌+◌, ℕ, IfOk, Some, length, map, slice_get, take};
ghost use Rattle.rdf_values.specs.scripts.Bookings as bookings;
ghost use Rattle.rdf_model.specs.{kinds_in};
ghost use Rattle.loop_keys.specs.{Fits, job_of, numbered_in, passes_in};
ghost use Rattle.shard_spans.specs.{pass_line};
ghost use Rattle.shard_loop.specs.{IsSpanPiece, span_rows_of};

use crate::filled_lines::{counts_at, filled_line};
use graph_numbers::{Pass, ResultKind};
use loop_keys::Job;
use loop_pieces::LoopPiece;
use rdf_values::{ListOf, Memory};
use shard_lines::ShardLine;
use std::alloc::Global;

// How many passes the loop has.
fn pass_count(job: &Job<'_>) -> u32
    requires { Fits job.now }
    ensures { result ≡ length (passes_in (job_of job.now)) }
{
    job.graph.is_booked();
    let _few = job.graph.variations().len();
    job.graph.passes(job.loop_index).len() as u32
}

// The pass of that number in the loop.
fn pass_at(job: &Job<'_>, number: u32) -> Pass
    requires job { Fits job.now }
    requires number { number < length (passes_in (job_of job.now)) }
    ensures { numbered_in (job_of job.now) number ≡ Some result }
{
    job.graph.passes(job.loop_index)[number as usize]
}

// How many accumulators the pass of that number has: of an action one, of a report none.
fn accumulators(job: &Job<'_>, number: u32) -> u32
    requires job { Fits job.now }
    requires number { number < length (passes_in (job_of job.now)) }
    ensures count { length (kinds_in (take (number + 1) (passes_in (job_of job.now)))) ≡ length (kinds_in (take number (passes_in (job_of job.now)))) + result }
    ensures few { result ≤ 1 }
{
    let pass = pass_at(job, number);
    match job.graph.kind(pass.result) {
        ResultKind::Action(_) => 1,
        ResultKind::Report => 0,
    }
}

// The line of the pass of that number; an action's accumulator has that place.
fn pass_line(
    alloc: Global,
    job: &Job<'_>,
    piece: &LoopPiece,
    number: u32,
    place: u32,
) -> Result<ShardLine, Memory>
    requires job { Fits job.now }
    requires number { number < length (passes_in (job_of job.now)) }
    requires place { place ≡ length (kinds_in (take number (passes_in (job_of job.now)))) }
    requires piece { (lo hi : ℕ) × IsSpanPiece (job_of job.now) lo hi piece.now }
    ensures { (lo hi : ℕ) (p : bookings.Pass) → IsSpanPiece (job_of job.now) lo hi piece.now → slice_get (passes_in (job_of job.now)) number ≡ Some p
        → IfOk result (λ line. line ≡ pass_line (span_rows_of (job_of job.now) lo hi) p) }
{
    let pass = pass_at(job, number);
    match job.graph.kind(pass.result) {
        ResultKind::Action(_) => filled_line(alloc, &piece.acc(place).filled()),
        ResultKind::Report => {
            let covered = job.graph.covered(pass.result);
            Ok(ShardLine::Report(counts_at(alloc, covered, piece.flow())?))
        }
    }
}

/// The lines of the loop's passes, in their order, over the span that the piece is of.
pub fn span_lines(
    alloc: Global,
    job: &Job<'_>,
    piece: &LoopPiece,
) -> Result<ListOf<ShardLine>, Memory>
    requires job { Fits job.now }
    requires piece { (lo hi : ℕ) × IsSpanPiece (job_of job.now) lo hi piece.now }
    ensures { (lo hi : ℕ) → IsSpanPiece (job_of job.now) lo hi piece.now → IfOk result (λ lines. lines ≡ map (pass_line (span_rows_of (job_of job.now) lo hi)) (passes_in (job_of job.now))) }
{
    let mut lines = ListOf::new(alloc);
    let mut place = 0;
    for number in 0..pass_count(job) {
        lines.push(pass_line(alloc, job, piece, number, place)?)?;
        place += accumulators(job, number);
    }
    Ok(lines)
}
