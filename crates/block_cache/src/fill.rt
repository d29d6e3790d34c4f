// Filling sites over a block, one with those that its evaluation meets.
ghost use Rattle.std.specs.Prelude.{◌≡◌, ◌+◌, ◌<◌, ℕ, true, false, not, [], length, IfOk, OnOk, OnErr};
ghost use Rattle.std.specs.List.{filter};
ghost use Rattle.graph_numbers.specs.{graph_versions};
ghost use Rattle.expr_lanes.specs.{AreRising, EachPlace, IsSelected};
ghost use Rattle.block_cache.specs.{AreReadyOver, begun_at, below_fault, block_graph, CanFillFor, CanTryFor, found_or, holds_at, IfPlain, IsAttemptedFor, IsBrokenOffFor, IsPaidFor, IsResumedFor, IsSettled, IsSettledFor, IsSpentFor, IsUnderwayFor, kinds_of, own_key, source_over};
ghost use Rattle.loop_keys.specs.{IsSiteOf};

use crate::Lane;
use crate::attempt::try_lane;
use crate::block::{Block, Wanted};
use crate::faults::{PlaceFault, least_fault};
use crate::level::{Level, note_needs};
use expr_eval::Steps;
use expr_lanes::{Scratch, Selection};
use graph_numbers::Source;
use loop_keys::reading::{key, source_of};
use rdf_values::Memory;
use std::sync::ledger::Ledger;

/// The site of a version that is missing.
fn needed_site(block: &Block<'_>, version: u32) -> u32
    requires version { version < length (graph_versions (block_graph block.now)) }
    requires site { (t : ℕ) × IsSiteOf t (source_over block.now version) }
    ensures { IsSiteOf result (source_over block.now version) }
{
    match source_of(block.at, version) {
        Source::Cell { .. } => unreachable!(),
        Source::Site { site } | Source::Element { site, .. } => site,
    }
}

/// The fault that was found, or the one before.
pub(crate) fn lowered(fault: Option<PlaceFault>, found: Option<PlaceFault>) -> Option<PlaceFault>
    ensures { result ≡ found_or found fault }
{
    found.or(fault)
}

/// Leaves the places below a fault selected.
fn keep_below(selection: &mut Selection, fault: Option<PlaceFault>)
    ensures { selection.new ≡ below_fault fault selection.old }
{
    match fault {
        Some(found) => selection.keep_below(found.place),
        None => {}
    }
}

/// Leaves the places selected at which the site isn't held.
fn keep_lacking(wanted: &Wanted<'_>, lanes: &[Lane], selection: &mut Selection)
    requires ready { AreReadyOver wanted.now.block.now lanes.now }
    requires inside { EachPlace selection.old (λ p. p < wanted.now.block.now.count) }
    ensures { selection.new ≡ filter (λ p. not (holds_at lanes.now (own_key wanted.now) p)) selection.old }
{
    lanes[key(wanted.block.at, wanted.site)].keep_unknown(selection);
}

/// Evaluates a site once at the places of the level's group, and notes for each that stops at a version which one it waits for.
#[inline(always)]
fn attempt<L: Ledger>(
    wanted: &Wanted<'_>,
    lanes: &mut [Lane],
    level: &mut Level,
    scratch: &mut [Scratch],
    steps: &mut Steps<L>,
) -> Result<Option<PlaceFault>, Memory>
    requires ready { AreReadyOver wanted.now.block.now lanes.old }
    requires can { CanTryFor wanted.now lanes.old (length scratch.old) }
    requires selected { IsSelected wanted.now.block.now.count level.old.group [] }
    requires lacks { EachPlace level.old.group (λ p. holds_at lanes.old (own_key wanted.now) p ≡ false) }
    ensures attempted { IfOk result (λ found. IsAttemptedFor wanted.now level.old.group lanes.old lanes.new level.old.needs level.new.needs found) }
    ensures broken { OnErr result (IsBrokenOffFor wanted.now level.old.group lanes.old lanes.new steps.old steps.new) }
    ensures whole { level.new.stops.items ≡ [] → OnOk result (EachPlace level.old.group (λ p. holds_at lanes.new (own_key wanted.now) p ≡ true)) }
    ensures lacking { level.new.lacking ≡ level.old.lacking }
    ensures steps { OnOk result (steps.new ≡ steps.old + length level.old.group) }
    ensures plain { OnErr result (IfPlain wanted.now ⊥) }
{
    level.stops.clear();
    try_lane(wanted, lanes, level, scratch, steps)?;
    note_needs(level.stops.as_slice(), &mut level.needs);
    Ok(least_fault(level.stops.as_slice()))
}

/// Leaves the places open below the fault at which the site isn't held.
fn narrow(wanted: &Wanted<'_>, lanes: &[Lane], fault: Option<PlaceFault>, level: &mut Level)
    requires ready { AreReadyOver wanted.now.block.now lanes.now }
    requires inside { EachPlace level.old.lacking (λ p. p < wanted.now.block.now.count) }
    ensures narrowed { level.new.lacking ≡ below_fault fault (filter (λ p. not (holds_at lanes.now (own_key wanted.now) p)) level.old.lacking) }
    ensures needs { level.new.needs ≡ level.old.needs }
{
    keep_lacking(wanted, lanes, &mut level.lacking);
    keep_below(&mut level.lacking, fault);
}

/// Evaluates a site at the places of the level's group, and leaves the places open that still lack its value below the least fault.
#[inline(never)]
fn resume<L: Ledger>(
    wanted: &Wanted<'_>,
    lanes: &mut [Lane],
    fault: Option<PlaceFault>,
    level: &mut Level,
    scratch: &mut [Scratch],
    steps: &mut Steps<L>,
) -> Result<Option<PlaceFault>, Memory>
    requires ready { AreReadyOver wanted.now.block.now lanes.old }
    requires can { CanTryFor wanted.now lanes.old (length scratch.old) }
    requires selected { IsSelected wanted.now.block.now.count level.old.group [] }
    requires inside { EachPlace level.old.lacking (λ p. p < wanted.now.block.now.count) }
    requires lacks { EachPlace level.old.group (λ p. holds_at lanes.old (own_key wanted.now) p ≡ false) }
    ensures resumed { IfOk result (λ least. IsResumedFor wanted.now fault level.old.group level.old.lacking lanes.old lanes.new level.old.needs level.new.needs level.new.lacking least) }
    ensures broken { OnErr result (IsBrokenOffFor wanted.now level.old.group lanes.old lanes.new steps.old steps.new) }
    ensures steps { OnOk result (steps.new ≡ steps.old + length level.old.group) }
    ensures plain { OnErr result (IfPlain wanted.now ⊥) }
{
    let found = attempt(wanted, lanes, level, scratch, steps)?;
    let least = lowered(fault, found);
    narrow(wanted, lanes, least, level);
    Ok(least)
}

/// Evaluates a site at the places of the selection at which it isn't held.
#[inline(always)]
fn begin<L: Ledger>(
    wanted: &Wanted<'_>,
    lanes: &mut [Lane],
    selection: &Selection,
    level: &mut Level,
    scratch: &mut [Scratch],
    steps: &mut Steps<L>,
) -> Result<Option<PlaceFault>, Memory>
    requires ready { AreReadyOver wanted.now.block.now lanes.old }
    requires can { CanTryFor wanted.now lanes.old (length scratch.old) }
    requires selected { IsSelected wanted.now.block.now.count selection.now [] }
    requires settled { IsSettledFor wanted.now lanes.old selection.now }
    ensures underway { IfOk result (λ fault. IsUnderwayFor wanted.now selection.now lanes.old steps.old lanes.new fault level.new.lacking level.new.needs steps.new) }
    ensures spent { OnErr result (IsSpentFor wanted.now selection.now lanes.old lanes.new steps.old steps.new) }
    ensures plain { OnErr result (IfPlain wanted.now ⊥) }
    ensures rising { AreRising selection.now }
{
    let _places = selection.as_slice();
    level.group.copy_from(selection);
    keep_lacking(wanted, lanes, &mut level.group);
    let found = attempt(wanted, lanes, level, scratch, steps)?;
    // Nearly always no place stops.
    if level.stops.is_empty() {
        level.lacking.select_first(0);
        return Ok(found);
    }
    level.lacking.copy_from(selection);
    narrow(wanted, lanes, found, level);
    Ok(found)
}

/// Fills a site: it is evaluated anew at all places that wait for the same version as the first one, as soon as the site of that version is filled there.
fn fill_site<L: Ledger>(
    wanted: &Wanted<'_>,
    lanes: &mut [Lane],
    selection: &mut Selection,
    levels: (&mut Level, &mut [Level]),
    scratch: &mut [Scratch],
    steps: &mut Steps<L>,
) -> Result<Option<PlaceFault>, Memory>
    requires ready { AreReadyOver wanted.now.block.now lanes.old }
    requires can { CanFillFor wanted.now (kinds_of lanes.old) (length scratch.old) (length levels.1.now + 1) }
    requires selected { IsSelected wanted.now.block.now.count selection.old [] }
    requires settled { IsSettledFor wanted.now lanes.old selection.old }
    ensures spent { IsSpentFor wanted.now selection.old lanes.old lanes.new steps.old steps.new }
    ensures filled { IfOk result (λ fault. IsPaidFor wanted.now selection.old selection.new lanes.old lanes.new fault steps.old steps.new) }
    ensures settled { OnOk result (IsSettledFor wanted.now lanes.new selection.new) }
    ensures begun { OnOk result (EachPlace selection.old (λ p. holds_at lanes.old (own_key wanted.now) p ≡ false → begun_at lanes.new (own_key wanted.now) p ≡ true)) }
    ensures plain { OnErr result (IfPlain wanted.now ⊥) }
{
    let (level, deeper) = levels;
    let mut fault = begin(wanted, lanes, selection, level, scratch, steps)?;
    while level.lacking.len() > 0 {
        let site = needed_site(wanted.block, level.next_group());
        let needed = Wanted {
            block: wanted.block,
            site,
        };
        let below = match deeper.split_first_mut() {
            Some(next) => fill_site(&needed, lanes, &mut level.group, next, scratch, steps)?,
            None => unreachable!(),
        };
        fault = resume(wanted, lanes, lowered(fault, below), level, scratch, steps)?;
    }
    keep_below(selection, fault);
    Ok(fault)
}

/// Fills a site at the selected places of a block, up to the first at which it faults, with the sites that its evaluation meets.
pub fn fill<L: Ledger>(
    wanted: &Wanted<'_>,
    lanes: &mut [Lane],
    selection: &mut Selection,
    levels: &mut [Level],
    scratch: &mut [Scratch],
    steps: &mut Steps<L>,
) -> Result<Option<PlaceFault>, Memory>
    requires ready { AreReadyOver wanted.now.block.now lanes.old }
    requires can { CanFillFor wanted.now (kinds_of lanes.old) (length scratch.old) (length levels.old) }
    requires selected { IsSelected wanted.now.block.now.count selection.old [] }
    requires settled { IsSettled lanes.old selection.old }
    ensures spent { IsSpentFor wanted.now selection.old lanes.old lanes.new steps.old steps.new }
    ensures filled { IfOk result (λ fault. IsPaidFor wanted.now selection.old selection.new lanes.old lanes.new fault steps.old steps.new) }
    ensures settled { OnOk result (IsSettled lanes.new selection.new) }
    ensures plain { IfPlain wanted.now (OnErr result ⊥) }
{
    match levels.split_first_mut() {
        Some(first) => fill_site(wanted, lanes, selection, first, scratch, steps),
        None => unreachable!(),
    }
}
