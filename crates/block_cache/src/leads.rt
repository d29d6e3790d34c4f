// Filling a site behind what its evaluation reads first.
ghost use Rattle.std.specs.Prelude.{◌≡◌, ◌<◌, ℕ, true, [], All, length, IfOk, IfSome, OnErr, OnOk};
ghost use Rattle.rdf_values.specs.{num_tree, num_trees};
ghost use Rattle.graph_numbers.specs.{graph_versions};
ghost use Rattle.expr_lanes.specs.{EachPlace, IsSelected};
ghost use Rattle.block_cache.specs.{AreReadyOver, block_graph, CanFillFor, first_read, first_read_in, holds_at, IfPlain, IsFilledFor, IsLeadFor, IsSettled, IsSpentFor, key_over, kinds_of, source_over};
ghost use Rattle.loop_keys.specs.{IsSiteOf};

use crate::Lane;
use crate::block::{Block, Wanted};
use crate::faults::PlaceFault;
use crate::fill::{fill, lowered};
use crate::level::Level;
use expr_eval::Steps;
use expr_lanes::{Scratch, Selection};
use graph_numbers::Source;
use loop_keys::reading::{expression, key, place, source_of};
use loop_keys::rows::ValuePlace;
use rdf_values::{Memory, NumArgs, NumNode};
use std::sync::ledger::Ledger;

/// The column that an evaluation reads before anything can fault.
#[cycle(first_read)]
fn first_read(node: &NumNode) -> Option<u32>
    ensures { result ≡ first_read (num_tree node.now) }
{
    match node {
        NumNode::Lit(_) | NumNode::Truth(_) => None,
        NumNode::Col(col) => Some(*col),
        NumNode::Neg(a) | NumNode::Not(a) => first_read(a),
        NumNode::Bin(_, a, b) => match &**a {
            NumNode::Lit(_) => first_read(b),
            left => first_read(left),
        },
        NumNode::Cond(c, _, _) => first_read(c),
        NumNode::Pick(v, _) => first_read(v),
        NumNode::Call(_, args) => first_argument(args),
    }
}

/// The same of a call's arguments.
#[cycle(first_read)]
fn first_argument(args: &NumArgs) -> Option<u32>
    ensures { result ≡ first_read_in (num_trees args.now) }
{
    match args {
        NumArgs::End => None,
        NumArgs::More(a, rest) => match &**a {
            NumNode::Lit(_) => first_argument(rest),
            first => first_read(first),
        },
    }
}

/// The site that gives a version its value, if one does.
fn site_of(block: &Block<'_>, version: u32) -> Option<u32>
    requires { version < length (graph_versions (block_graph block.now)) }
    ensures { IfSome result (λ t. IsSiteOf t (source_over block.now version)) }
{
    match source_of(block.at, version) {
        Source::Cell { .. } => None,
        Source::Site { site } | Source::Element { site, .. } => Some(site),
    }
}

/// The key of that site.
#[tactic(auto, using(crate::proofs::UnderwayLaws::key_site, crate::proofs::UnderwayLaws::element_site))]
fn key_read(block: &Block<'_>, version: u32) -> Option<usize>
    requires { version < length (graph_versions (block_graph block.now)) }
    ensures { IfSome result (λ k. (t : ℕ) × IsSiteOf t (source_over block.now version) × (k ≡ key_over block.now t)) }
{
    match place(block.at, version) {
        ValuePlace::Cell { .. } => None,
        ValuePlace::Key { key } => Some(key),
        ValuePlace::Element { key, .. } => Some(key),
    }
}

/// Whether a key's value is held at each selected place.
pub fn is_held(lanes: &[Lane], key: usize, selection: &Selection) -> bool
    requires key { key < length lanes.now }
    requires inside { All (λ lane. EachPlace selection.now (λ p. p < lane.count)) lanes.now }
    ensures held { result ≡ true → EachPlace selection.now (λ p. holds_at lanes.now key p ≡ true) }
    ensures exact { EachPlace selection.now (λ p. holds_at lanes.now key p ≡ true) → result ≡ true }
{
    lanes[key].holds_all(selection)
}

/// The site of what a site's evaluation reads first, unless its value is held at each selected place.
#[tactic(auto, using(crate::proofs::OverLaws::selected_inside))]
fn lead_of(wanted: &Wanted<'_>, lanes: &[Lane], selection: &Selection) -> Option<u32>
    requires ready { AreReadyOver wanted.now.block.now lanes.now }
    requires inside { EachPlace selection.now (λ p. p < wanted.now.block.now.count) }
    ensures { IfSome result (IsLeadFor wanted.now) }
{
    let version = first_read(&expression(wanted.block.at, wanted.site).tree().node)?;
    let key = key_read(wanted.block, version)?;
    if is_held(lanes, key, selection) {
        return None;
    }
    site_of(wanted.block, version)
}

/// Fills a site as `fill` does, and before it the site of what its evaluation reads first, so that this isn't begun anew for that.
#[tactic(auto, using(crate::proofs::OverLaws::selected_inside))]
pub fn fill_led<L: Ledger>(
    wanted: &Wanted<'_>,
    lanes: &mut [Lane],
    selection: &mut Selection,
    levels: &mut [Level],
    scratch: &mut [Scratch],
    steps: &mut Steps<L>,
) -> Result<Option<PlaceFault>, Memory>
    requires ready { AreReadyOver wanted.now.block.now lanes.old }
    requires can { CanFillFor wanted.now (kinds_of lanes.old) (length scratch.old) (length levels.old) }
    requires selected { IsSelected wanted.now.block.now.count selection.old [] }
    requires settled { IsSettled lanes.old selection.old }
    ensures spent { IsSpentFor wanted.now selection.old lanes.old lanes.new steps.old steps.new }
    ensures filled { IfOk result (IsFilledFor wanted.now selection.old selection.new lanes.new) }
    ensures settled { OnOk result (IsSettled lanes.new selection.new) }
    ensures plain { IfPlain wanted.now (OnErr result ⊥) }
{
    let _rising = selection.as_slice();
    let own = key(wanted.block.at, wanted.site);
    if is_held(lanes, own, selection) {
        return Ok(None);
    }
    let Some(site) = lead_of(wanted, lanes, selection) else {
        return fill(wanted, lanes, selection, levels, scratch, steps);
    };
    let lead = Wanted {
        block: wanted.block,
        site,
    };
    let under = fill_led(&lead, lanes, selection, levels, scratch, steps)?;
    let found = fill(wanted, lanes, selection, levels, scratch, steps)?;
    Ok(lowered(under, found))
}
