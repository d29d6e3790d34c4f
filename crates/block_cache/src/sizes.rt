// How many places a block has.
ghost use Rattle.std.specs.Prelude.{◌≡◌, ◌<◌, ◌≤◌, ◌+◌, ◌*◌};
ghost use Rattle.block_cache.specs.{size_for};

use expr_lanes::MAX_PLACES;

/// How many places all lanes of a slot have together at most, unless each has but one: a number and two marks each, that is 32 MiB.
pub const MAX_LANE_PLACES: usize = 32 * 1024 * 1024 / 10;

/// How many places a block has where there are so many keys, each with a lane.
pub fn block_size(keys: usize) -> usize
    ensures value { result ≡ size_for keys }
    ensures least { 1 ≤ result }
    ensures most { result ≤ MAX_PLACES }
    ensures fits { 1 < result → result * keys ≤ MAX_LANE_PLACES }
    ensures no_larger { 0 < keys → result < MAX_PLACES → MAX_LANE_PLACES < (result + 1) * keys }
{
    if keys == 0 {
        return MAX_PLACES;
    }
    (MAX_LANE_PLACES / keys).clamp(1, MAX_PLACES)
}
