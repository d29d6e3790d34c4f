// How the numbers of a cluster are packed.
ghost use Rattle.std.specs.Prelude.{◌≡◌, ◌<◌, All, FitsSigned, List, ℤ, length};
ghost use Rattle.std.specs.Int.{w64};
ghost use Rattle.columns.specs.{IsTight, packing_of, width_of};

/// The least of some numbers, and the fewest bytes (0, 1, 2, 4 or 8) in which each one's difference to it fits.
#[derive(Clone, Copy, Debug, PartialEq, Eq)]
pub struct Packing {
    pub least: i64,
    pub width: u32,
}

// The fewest bytes in which a number fits.
fn width_of(difference: u64) -> u32
    ensures { result ≡ width_of difference }
{
    match difference {
        0 => 0,
        1..=0xff => 1,
        0x100..=0xffff => 2,
        0x1_0000..=0xffff_ffff => 4,
        _ => 8,
    }
}

/// A law: a packing has the least number, and no fewer bytes hold every difference to it.
#[tactic(auto, using(crate::proofs::BlockSteps::packings_are_tight))]
pub fn packings_are_tight()
    ensures { (values : List ℤ) → 0 < length values → All (FitsSigned w64) values → IsTight values (packing_of values) }
{}

impl Packing {
    ghost use Rattle.columns.specs.{packing_of};

    /// How numbers are packed.
    pub fn of(values: &[i64]) -> Packing
        requires { 0 < length values.now }
        ensures { result ≡ packing_of values.now }
    {
        let mut least = values[0];
        let mut greatest = values[0];
        for value in values {
            least = least.min(*value);
            greatest = greatest.max(*value);
        }
        Packing {
            least,
            width: width_of(greatest.abs_diff(least)),
        }
    }
}
