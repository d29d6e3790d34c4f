// What is computed at each place.
ghost use Rattle.std.specs.Prelude.{◌≡◌, ◌<◌, ℕ, ℤ, length, pos, nat_abs};
ghost use Rattle.rdf_model.specs.{checked, Gives, number_operation};
ghost use Rattle.expr_eval.specs.{number_outcome, number_value};
ghost use Rattle.expr_lanes.specs.Marks.{lane_outcome};
ghost use Rattle.expr_lanes.specs.Places.{answered_at, at_place};

use crate::kernel::Kernel;
use expr_eval::ScalarStop;
use expr_eval::number::{absolute, operate};
use rdf_values::{BinOp, EntryFault};

/// A number at each place.
pub(crate) trait PlaceNumbers: Copy {
    ghost has: { Self → ℕ → Type 0 };

    ghost number: { Self → ℕ → ℤ };

    fn at(&self, place: u32) -> i64
        requires { has self.now place }
        ensures { result ≡ number self.now place };
}

/// The same number everywhere.
#[derive(Clone, Copy)]
pub(crate) struct Same(pub(crate) i64);

impl PlaceNumbers for Same {
    ghost has = { λ s p. Unit {0} };

    ghost number = { λ s p. s.0 };

    #[inline(always)]
    fn at(&self, _place: u32) -> i64 {
        self.0
    }
}

/// What a lane holds.
#[derive(Clone, Copy)]
pub(crate) struct LaneNumbers<'a>(pub(crate) &'a [i64]);

impl<'a> PlaceNumbers for LaneNumbers<'a> {
    ghost has = { λ s p. p < length s.0.now };

    ghost number = { λ s p. at_place s.0.now p };

    #[inline(always)]
    fn at(&self, place: u32) -> i64 {
        self.0[place as usize]
    }
}

/// A side of an operator: a number, or a lane.
#[derive(Clone, Copy)]
pub(crate) enum Side<'a> {
    Number(i64),
    Lane(&'a [i64]),
}

/// The number, or the stop that the fault is.
#[inline(always)]
pub(crate) fn stop_at_fault(answer: Result<i64, EntryFault>) -> Result<i64, ScalarStop>
    ensures number { answered_at result ≡ number_outcome answer }
    ensures value { answered_at result ≡ lane_outcome (number_value answer) }
{
    match answer {
        Ok(number) => Ok(number),
        Err(kind) => Err(ScalarStop::Fault(kind)),
    }
}

/// The numbers themselves.
#[derive(Clone, Copy)]
pub(crate) struct Copied<N: PlaceNumbers>(pub(crate) N);

impl<N: PlaceNumbers> Kernel for Copied<N> {
    ghost can = { λ s p. N.has s.0 p };

    ghost gives = { λ s p. Gives (N.number s.0 p) };

    #[inline(always)]
    fn at(&self, place: u32) -> Result<i64, ScalarStop> {
        Ok(self.0.at(place))
    }
}

/// The numbers without their signs.
#[derive(Clone, Copy)]
pub(crate) struct Magnitude<N: PlaceNumbers>(pub(crate) N);

impl<N: PlaceNumbers> Kernel for Magnitude<N> {
    ghost can = { λ s p. N.has s.0 p };

    ghost gives = { λ s p. checked (pos (nat_abs (N.number s.0 p))) };

    #[inline(always)]
    fn at(&self, place: u32) -> Result<i64, ScalarStop> {
        stop_at_fault(absolute(self.0.at(place)))
    }
}

/// An operator between two numbers of each place.
#[derive(Clone, Copy)]
pub(crate) struct Combined<A: PlaceNumbers, B: PlaceNumbers>(
    pub(crate) BinOp,
    pub(crate) A,
    pub(crate) B,
);

impl<A: PlaceNumbers, B: PlaceNumbers> Kernel for Combined<A, B> {
    ghost can = { λ s p. A.has s.1 p × B.has s.2 p };

    ghost gives = { λ s p. number_operation s.0 (A.number s.1 p) (B.number s.2 p) };

    #[inline(always)]
    fn at(&self, place: u32) -> Result<i64, ScalarStop> {
        stop_at_fault(operate(self.0, self.1.at(place), self.2.at(place)))
    }
}
