// What an entry feeds to an action.
ghost use Rattle.std.specs.Prelude.{◌≡◌, if◌then◌else◌, Some};
ghost use Rattle.rdf_values.specs.declared.results.EntryFault.TheVariants.{Lengths};
ghost use Rattle.std.specs.Option.{option_to_list};
ghost use Rattle.rdf_values.specs.{ActionKind, as_long_as, feed_fault, is_weight, numbers, scalar_value, weight_fault};
ghost use Rattle.actions.specs.{first_numbers, first_scalar, part_value, second_part, Suits, values_of, weight_part};

use rdf_values::{EntryFault, Scalar};
use std::slice;

/// A value of one column: a vector is borrowed.
#[derive(Clone, Copy, Debug)]
pub enum ColumnValue<'a> {
    Int(i64),
    Bool(bool),
    Vect(&'a [i64]),
}

/// The values of an action's columns at one entry: none for a Count, then the coordinates, then the weight.
#[derive(Clone, Copy, Debug)]
pub enum Items<'a> {
    Entry,
    One {
        x: ColumnValue<'a>,
    },
    Weighted {
        x: ColumnValue<'a>,
        w: ColumnValue<'a>,
    },
    Pair {
        x: ColumnValue<'a>,
        y: ColumnValue<'a>,
    },
    WeightedPair {
        x: ColumnValue<'a>,
        y: ColumnValue<'a>,
        w: ColumnValue<'a>,
    },
}

impl ColumnValue<'_> {
    /// The numbers of the value: one, or the elements of the vector, or none for a truth value.
    pub fn numbers(&self) -> &[i64]
        ensures { result.now ≡ numbers (part_value self.now) }
    {
        match self {
            ColumnValue::Int(number) => slice::from_ref(number),
            ColumnValue::Bool(_) => &[],
            ColumnValue::Vect(numbers) => numbers,
        }
    }

    /// Whether both are vectors of one length, or one of them is no vector.
    pub fn is_as_long_as(&self, other: &ColumnValue<'_>) -> bool
        ensures { result ≡ as_long_as (part_value self.now) (part_value other.now) }
    {
        match (self, other) {
            (ColumnValue::Vect(xs), ColumnValue::Vect(ys)) => xs.len() == ys.len(),
            _ => true,
        }
    }

    /// Whether all its numbers are weights that a histogram takes.
    pub fn is_weight(&self) -> bool
        ensures { result ≡ is_weight (part_value self.now) }
    {
        self.numbers().iter().all(|w| w.unsigned_abs() < 1 << 31)
    }

    /// The value, if it is no vector.
    pub fn scalar(&self) -> Option<Scalar>
        ensures { option_to_list result ≡ scalar_value (part_value self.now) }
    {
        match self {
            ColumnValue::Int(number) => Some(Scalar::Int(*number)),
            ColumnValue::Bool(truth) => Some(Scalar::Bool(*truth)),
            ColumnValue::Vect(_) => None,
        }
    }
}

impl<'a> Items<'a> {
    /// The numbers of the first value.
    pub fn first(&self) -> &[i64]
        ensures { result.now ≡ first_numbers (values_of self.now) }
    {
        match self {
            Items::Entry => &[],
            Items::One { x }
            | Items::Weighted { x, .. }
            | Items::Pair { x, .. }
            | Items::WeightedPair { x, .. } => x.numbers(),
        }
    }

    /// The numbers of the second coordinate.
    pub fn second(&self) -> &[i64]
        ensures { result.now ≡ second_part self.now }
    {
        match self {
            Items::Pair { y, .. } | Items::WeightedPair { y, .. } => y.numbers(),
            _ => &[],
        }
    }

    /// The first value, if it is no vector.
    pub fn scalar(&self) -> Option<Scalar>
        ensures { option_to_list result ≡ first_scalar (values_of self.now) }
    {
        match self {
            Items::Entry => None,
            Items::One { x }
            | Items::Weighted { x, .. }
            | Items::Pair { x, .. }
            | Items::WeightedPair { x, .. } => x.scalar(),
        }
    }

    /// The weight, if one is given.
    pub fn weight(&self) -> Option<ColumnValue<'a>>
        ensures { result ≡ weight_part self.now }
    {
        match self {
            Items::Weighted { w, .. } | Items::WeightedPair { w, .. } => Some(*w),
            _ => None,
        }
    }

    /// Why an action can't be fed with the values: vectors of different lengths, and then a weight out of range.
    #[tactic(auto, using(crate::proofs::States::fault_weighted, crate::proofs::States::fault_pair))]
    pub fn fault(&self) -> Option<EntryFault>
        ensures { (kind : ActionKind) → Suits kind self.now → result ≡ feed_fault kind (values_of self.now) }
    {
        match self {
            Items::Entry | Items::One { .. } => None,
            Items::Weighted { x, w } => fault_of(x.is_as_long_as(w), w),
            Items::Pair { x, y } => (!x.is_as_long_as(y)).then_some(EntryFault::Lengths),
            Items::WeightedPair { x, y, w } => {
                fault_of(x.is_as_long_as(y) && x.is_as_long_as(w), w)
            }
        }
    }
}

// The fault of values of one length or not, and of a weight.
fn fault_of(one_length: bool, weight: &ColumnValue<'_>) -> Option<EntryFault>
    ensures { result ≡ (if one_length then weight_fault (is_weight (part_value weight.now)) else Some Lengths) }
{
    if !one_length {
        return Some(EntryFault::Lengths);
    }
    (!weight.is_weight()).then_some(EntryFault::Weight)
}
