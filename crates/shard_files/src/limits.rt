// The limits of a shard file's lines.
ghost use Rattle.std.specs.Prelude.{◌≡◌};
ghost use Rattle.shard_files.specs.{shard_limits};
ghost use Rattle.shard_lines.specs.{AreLimits};

use shard_lines::LineLimits;

const MOST_COUNTED: u64 = 4_294_967_295;

// 2 to the 96th power, less 1.
const LARGEST_SUM: u128 = 79_228_162_514_264_337_593_543_950_335;

/// The limits of the lines of a shard.
pub(crate) fn shard_limits() -> LineLimits
    ensures value { result ≡ shard_limits }
    ensures limits { AreLimits result }
{
    LineLimits {
        count: MOST_COUNTED,
        values: None,
        sum: LARGEST_SUM,
        cell_sum: LARGEST_SUM,
        cell_squares: LARGEST_SUM,
    }
}
