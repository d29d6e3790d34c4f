// The first fault among places that came to no value.
ghost use Rattle.std.specs.Prelude.{◌≡◌};
ghost use Rattle.block_cache.specs.{IsLeastFault, lesser_fault};

use expr_eval::ScalarStop;
use expr_lanes::Stopped;
use rdf_values::EntryFault;

/// A place of a block with its fault.
#[derive(Clone, Copy, Debug)]
pub struct PlaceFault {
    pub place: u32,
    pub kind: EntryFault,
}

/// The fault of the least place that has one.
#[tactic(auto, using(crate::proofs::LaneSteps::least_next, std::proofs::lemmas::List::take_all))]
pub fn least_fault(stops: &[Stopped]) -> Option<PlaceFault>
    ensures { IsLeastFault stops.now result }
{
    let mut least: Option<PlaceFault> = None;
    for i in 0..stops.len() {
        least = lesser(least, stops[i]);
    }
    least
}

/// The fault of a stop, where it is at a lower place than the least so far.
fn lesser(least: Option<PlaceFault>, stop: Stopped) -> Option<PlaceFault>
    ensures { result ≡ lesser_fault least stop.place stop.stop }
{
    let ScalarStop::Fault(kind) = stop.stop else {
        return least;
    };
    let found = PlaceFault {
        place: stop.place,
        kind,
    };
    match least {
        Some(fault) if fault.place <= found.place => least,
        _ => Some(found),
    }
}
