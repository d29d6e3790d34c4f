// Filters over a block.
ghost use Rattle.std.specs.Prelude.{◌≡◌, Bool, true, [], Some, length, slice_get, IfOk, OnErr};
ghost use Rattle.rdf_values.specs.declared.tables.value.ColType.TheVariants as kind;
ghost use Rattle.expr_lanes.specs.{IsSelected};
ghost use Rattle.block_cache.specs.{AreReadyOver, CanFillFor, IfPlain, IsPassedFor, IsSettled, IsSpentFor, kinds_of, own_key};

use crate::Lane;
use crate::block::Wanted;
use crate::faults::PlaceFault;
use crate::leads::fill_led;
use crate::level::Level;
use expr_eval::Steps;
use expr_lanes::{Scratch, Selection};
use loop_keys::reading::key;
use rdf_values::Memory;
use std::sync::ledger::Ledger;

/// Fills a filter's site at the selected places of a block, up to the first fault, and leaves those at which the filter is true.
pub fn pass_filter<L: Ledger>(
    wanted: &Wanted<'_>,
    lanes: &mut [Lane],
    selection: &mut Selection,
    levels: &mut [Level],
    scratch: &mut [Scratch],
    steps: &mut Steps<L>,
) -> Result<Option<PlaceFault>, Memory>
    requires truth { slice_get (kinds_of lanes.old) (own_key wanted.now) ≡ Some kind.Bool }
    requires ready { AreReadyOver wanted.now.block.now lanes.old }
    requires can { CanFillFor wanted.now (kinds_of lanes.old) (length scratch.old) (length levels.old) }
    requires selected { IsSelected wanted.now.block.now.count selection.old [] }
    requires settled { IsSettled lanes.old selection.old }
    ensures spent { IsSpentFor wanted.now selection.old lanes.old lanes.new steps.old steps.new }
    ensures passed { IfOk result (IsPassedFor wanted.now selection.old selection.new lanes.new) }
    ensures plain { IfPlain wanted.now (OnErr result ⊥) }
{
    let fault = fill_led(wanted, lanes, selection, levels, scratch, steps)?;
    selection.keep_set(lanes[key(wanted.block.at, wanted.site)].column().numbers);
    Ok(fault)
}
