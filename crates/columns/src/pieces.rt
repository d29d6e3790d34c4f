// The numbers of an int column in pieces.
ghost use Rattle.std.specs.Prelude.{◌≡◌, ◌≤◌, ◌+◌, OnOk, drop, length, slice_range, take};
ghost use Rattle.columns.specs.{joined};

use rdf_values::{Memory, Numbers};

// Reads the numbers from a place on, as many as there is room for.
#[tactic(auto, using(crate::proofs::InPieces::end_within, crate::proofs::InPieces::none_read, crate::proofs::InPieces::read_whole, crate::proofs::InPieces::read_to_the_end))]
fn read_from(pieces: &[Numbers], lo: usize, numbers: &mut [i64])
    requires within { lo + length numbers.old ≤ length (joined pieces.now) }
    requires few { length (joined pieces.now) ≤ 1000000 }
    ensures { numbers.new ≡ take (length numbers.old) (drop lo (joined pieces.now)) }
{
    let hi = lo + numbers.len();
    let mut before = 0;
    for piece in pieces {
        if hi <= before {
            return;
        }
        let end = before + piece.len();
        if lo < end {
            let from = lo.max(before);
            let to = hi.min(end);
            piece.read(from - before, &mut numbers[from - lo..to - lo]);
        }
        before = end;
    }
}

/// Puts the numbers of a range into `gathered`, in place of what it held. Where it held as many, no room is made or filled.
pub(crate) fn gather(
    pieces: &[Numbers],
    lo: usize,
    hi: usize,
    gathered: &mut Vec<i64>,
) -> Result<(), Memory>
    requires range { lo ≤ hi }
    requires within { hi ≤ length (joined pieces.now) }
    requires few { length (joined pieces.now) ≤ 1000000 }
    ensures { OnOk result (gathered.new.items ≡ slice_range (joined pieces.now) lo hi) }
{
    gathered.resize(hi - lo, 0)?;
    read_from(pieces, lo, gathered.as_mut_slice());
    Ok(())
}
