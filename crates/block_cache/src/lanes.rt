// What is known of all keys over a block.
ghost use Rattle.std.specs.Prelude.{◌≡◌, ◌≤◌, All, IfOk};
ghost use Rattle.block_cache.specs.{AreUnknown, HaveRoom, kinds_of, room_of, rooms_of};

use crate::lane::Lane;
use expr_lanes::MAX_PLACES;
use rdf_values::{ColType, Memory};
use std::alloc::Global;

/// A lane for each key with values of these kinds, with all the memory that they take for blocks of so many places, but for vectors.
pub fn new_lanes(alloc: Global, kinds: &[ColType], room: usize) -> Result<Vec<Lane>, Memory>
    requires { room ≤ MAX_PLACES }
    ensures kinds { IfOk result (λ ls. kinds_of ls.items ≡ kinds.now) }
    ensures rooms { IfOk result (λ ls. HaveRoom room ls.items) }
    ensures unknown { IfOk result (λ ls. AreUnknown 0 ls.items) }
{
    let mut lanes = Vec::with_capacity(alloc, kinds.len())?;
    for i in 0..kinds.len() {
        lanes.push(Lane::new(alloc, kinds[i], room)?)?;
    }
    Ok(lanes)
}

/// Begins a block of so many places, of which nothing is known yet.
pub fn begin_block(lanes: &mut [Lane], count: usize)
    requires { All (λ l. count ≤ room_of l) lanes.old }
    ensures kinds { kinds_of lanes.new ≡ kinds_of lanes.old }
    ensures rooms { rooms_of lanes.new ≡ rooms_of lanes.old }
    ensures unknown { AreUnknown count lanes.new }
{
    for i in 0..lanes.len() {
        lanes[i].begin(count);
    }
}
