// The work of one slot.
ghost use Rattle.std.specs.Prelude.{◌≡◌, ℕ, ◌<◌, All, IfOk, length, slice_index_or, vec_len};
ghost use Rattle.entry_fns.specs.{functions_in};
ghost use Rattle.snapshot_entries.specs.{data_of, IsWork, plan_of};
ghost use Rattle.snapshot_pieces.specs.{Finished, HasStopped, Stopped};
ghost use Rattle.slot_words.specs.Seats.{IsOf};
ghost use Rattle.slot_words.specs.{IsReady};
ghost use Rattle.snapshot_run.specs.{data_with, facts_of, spans_of};

use crate::piece::make_piece;
use expr_eval::Steps;
use rdf_outside::Gate;
use rdf_values::{Fault, ListOf, Memory};
use slot_words::{ClaimSeat, Claims};
use snapshot_entries::{Skim, SkimStop, SnapJob};
use snapshot_pieces::{End, Finished};
use std::alloc::Global;
use std::marker::Brand;
use std::sync::ledger::{Blank, Ledger};
use std::thread::{Threads, map_vec};

// Makes the records of each cluster that the slot draws, up to the slot's first fault.
fn work<L: Ledger, G: Gate>(
    blank: Blank,
    alloc: Global,
    job: &SnapJob<'_>,
    claims: &Claims,
    seat: &mut ClaimSeat,
    gate: &G,
) -> End
    requires name { blank.name ≡ L.name }
    requires parts { blank.parts ≡ L.parts }
    requires some { 0 < L.parts }
    requires work { IsWork (plan_of job.now) (data_of job.now) }
    requires ready { IsReady claims.now seat.old }
    requires clusters { claims.now.clusters ≡ length (spans_of job.now.columns.now.cuts) }
    ensures of { IsOf claims.now seat.new }
    ensures stopped { Stopped claims.now (facts_of (plan_of job.now) (data_of job.now) (spans_of job.now.columns.now.cuts)) result seat.new }
{
    let Ok(mut skim) = Skim::new(alloc, job) else {
        return End::NoMemory;
    };
    let mut steps: Steps<L> = Steps::open(blank);
    let mut pieces = ListOf::new(alloc);
    while let Some(cluster) = claims.claim(seat) {
        gate.turn(seat.slot(), cluster);
        match make_piece(alloc, job, &mut skim, cluster, &mut steps) {
            Ok(piece) => match pieces.push(piece) {
                Ok(()) => {}
                Err(Memory) => return End::NoMemory,
            },
            Err(SkimStop::Fault { entry, kind }) => {
                claims.lower(seat, cluster);
                return End::Faulted(Fault {
                    entry,
                    pass: 0,
                    kind,
                });
            }
            Err(SkimStop::Memory) => return End::NoMemory,
        }
    }
    End::Over(pieces)
}

// Runs one slot. Its evaluations are counted in a ledger of its own.
fn run_slot<G: Gate>(
    alloc: Global,
    job: &SnapJob<'_>,
    claims: &Claims,
    seat: ClaimSeat,
    gate: &G,
) -> Finished
    requires work { IsWork (plan_of job.now) (data_of job.now) }
    requires ready { IsReady claims.now seat }
    requires clusters { claims.now.clusters ≡ length (spans_of job.now.columns.now.cuts) }
    ensures { HasStopped claims.now (facts_of (plan_of job.now) (data_of job.now) (spans_of job.now.columns.now.cuts)) result }
{
    let mut seat = seat;
    let end = work::<Brand, G>(Blank::new(1), alloc, job, claims, &mut seat, gate);
    Finished { end, seat }
}

/// Runs each slot. Where threads can be made, each has one of its own; no clause says so.
pub(crate) fn run_slots<R: Threads + Sync, G: Gate>(
    rt: &R,
    alloc: Global,
    job: &SnapJob<'_>,
    claims: &Claims,
    seats: Vec<ClaimSeat>,
    gate: &G,
) -> Result<Vec<Finished>, Memory>
    requires work { IsWork (plan_of job.now) (data_of job.now) }
    requires ready { All (IsReady claims.now) seats.items }
    requires clusters { claims.now.clusters ≡ length (spans_of job.now.columns.now.cuts) }
    ensures len { IfOk result (λ v. vec_len v ≡ vec_len seats) }
    ensures each { IfOk result (λ v. (i : ℕ) (f : Finished) → i < vec_len seats → HasStopped claims.now (facts_of (plan_of job.now) (data_of job.now) (spans_of job.now.columns.now.cuts)) (slice_index_or v.items i f)) }
{
    let SnapJob {
        plan,
        columns,
        functions,
    } = *job;
    let finished = map_vec(
        rt,
        seats,
        &|seat: ClaimSeat| -> Finished
            requires { IsWork plan.now (data_with columns.now (functions_in functions.now))
                × IsReady claims.now seat
                × (claims.now.clusters ≡ length (spans_of columns.now.cuts)) }
            ensures { HasStopped claims.entry.now (facts_of plan.entry.now (data_with columns.entry.now (functions_in functions.entry.now)) (spans_of columns.entry.now.cuts)) result }
        {
            let job = SnapJob {
                plan,
                columns,
                functions,
            };
            run_slot(alloc, &job, claims, seat, gate)
        },
    )?;
    Ok(finished)
}
