// Numbers in few bytes.
ghost use Rattle.std.specs.Prelude.{◌≡◌, ◌<◌, ◌≤◌, ◌+◌, [], ◌∷◌, ◌++◌, Some, IfOk, OnOk, OnErr, drop, length, map, slice_get, take};

use crate::memory::Memory;
use crate::tables::narrow::Narrow;
use std::alloc::Global;
use std::marker::Model;

/// Numbers by how many bytes each of them takes.
#[derive(Drop)]
enum Stored {
    TwoBytes(Vec<i16>),
    FourBytes(Vec<i32>),
    EightBytes(Vec<i64>),
}

/// Numbers of 64 bits in order, in 2, 4 or 8 bytes each: as many as the widest of them has needed.
#[derive(Drop)]
pub struct Numbers {
    alloc: Global,
    stored: Stored,
}

impl Model for Numbers {
    ghost use Rattle.std.specs.Prelude.{List, ℤ};
    ghost use Rattle.rdf_values.specs.tables.Pieces.{numbers_in};

    ghost Value = { List ℤ };

    ghost view = { λ n. numbers_in n.stored };
}

// The numbers in 4 bytes each.
fn in_four_bytes(alloc: Global, items: &[i16]) -> Result<Vec<i32>, Memory>
    ensures { IfOk result (λ wide. wide.items ≡ items.now) }
{
    let mut wide = Vec::with_capacity(alloc, items.len())?;
    for item in items {
        wide.push(i32::from(*item))?;
    }
    Ok(wide)
}

// Reads numbers from their bytes.
fn read_each<T: Narrow>(items: &[T], numbers: &mut [i64])
    requires { length numbers.old ≤ length items.now }
    ensures { numbers.new ≡ map T.number (take (length numbers.old) items.now) }
{
    for place in 0..numbers.len() {
        numbers[place] = items[place].widen();
    }
}

// Appends a number to those of as many bytes.
fn push_as_wide<T: Drop>(items: &mut Vec<T>, number: T) -> Result<(), Memory>
    ensures ok { OnOk result (items.new.items ≡ items.old.items ++ number ∷ []) }
    ensures err { OnErr result (items.new.items ≡ items.old.items) }
{
    items.push(number)?;
    Ok(())
}

impl Numbers {
    ghost use Rattle.rdf_values.specs.tables.Pieces.{numbers_in};

    /// No numbers.
    pub fn new(alloc: Global) -> Numbers
        ensures { result ≡ [] }
    {
        Numbers {
            alloc,
            stored: Stored::TwoBytes(Vec::new(alloc)),
        }
    }

    /// How many numbers there are.
    pub fn len(&self) -> usize
        ensures { result ≡ length self.now }
    {
        match &self.stored {
            Stored::TwoBytes(items) => items.len(),
            Stored::FourBytes(items) => items.len(),
            Stored::EightBytes(items) => items.len(),
        }
    }

    /// Appends a number.
    #[inline(always)]
    pub fn push(&mut self, number: i64) -> Result<(), Memory>
        ensures ok { OnOk result (self.new ≡ self.old ++ number ∷ []) }
        ensures err { OnErr result (self.new ≡ self.old) }
    {
        if let Stored::TwoBytes(items) = &mut self.stored
            && let Ok(number) = i16::try_from(number)
        {
            return push_as_wide(items, number);
        }
        self.push_wide(number)
    }

    // Appends a number that takes more than 2 bytes here.
    #[inline(never)]
    fn push_wide(&mut self, number: i64) -> Result<(), Memory>
        ensures ok { OnOk result (self.new ≡ self.old ++ number ∷ []) }
        ensures err { OnErr result (self.new ≡ self.old) }
    {
        match &mut self.stored {
            Stored::EightBytes(items) => return push_as_wide(items, number),
            Stored::FourBytes(items) => {
                if let Ok(number) = i32::try_from(number) {
                    return push_as_wide(items, number);
                }
            }
            Stored::TwoBytes(_) => {}
        }
        self.push_widened(number)
    }

    // Appends a number to all others in as many bytes as it needs; for want of memory they stay as they are.
    #[cold]
    #[inline(never)]
    fn push_widened(&mut self, number: i64) -> Result<(), Memory>
        ensures ok { OnOk result (self.new ≡ self.old ++ number ∷ []) }
        ensures err { OnErr result (self.new ≡ self.old) }
    {
        self.stored = self.widened(number)?;
        Ok(())
    }

    // The numbers and one more, in as many bytes as that one needs.
    fn widened(&self, number: i64) -> Result<Stored, Memory>
        ensures { IfOk result (λ all. numbers_in all ≡ self.now ++ number ∷ []) }
    {
        if let Ok(number) = i32::try_from(number) {
            if let Stored::TwoBytes(items) = &self.stored {
                let mut wide = in_four_bytes(self.alloc, items.as_slice())?;
                wide.push(number)?;
                return Ok(Stored::FourBytes(wide));
            }
        }
        let mut wide = self.in_eight_bytes()?;
        wide.push(number)?;
        Ok(Stored::EightBytes(wide))
    }

    // The numbers in 8 bytes each.
    fn in_eight_bytes(&self) -> Result<Vec<i64>, Memory>
        ensures { IfOk result (λ wide. wide.items ≡ self.now) }
    {
        let mut wide = Vec::from_elem(self.alloc, 0, self.len())?;
        self.read(0, wide.as_mut_slice());
        Ok(wide)
    }

    /// Appends the numbers of another column.
    pub fn extend_from(&mut self, more: &Numbers) -> Result<(), Memory>
        ensures ok { OnOk result (self.new ≡ self.old ++ more.now) }
        ensures err { OnErr result (self.new ≡ self.old) }
    {
        match (&mut self.stored, &more.stored) {
            (Stored::TwoBytes(items), Stored::TwoBytes(more)) => {
                items.extend_from_slice(more.as_slice())?;
                Ok(())
            }
            (Stored::FourBytes(items), Stored::FourBytes(more)) => {
                items.extend_from_slice(more.as_slice())?;
                Ok(())
            }
            (Stored::EightBytes(items), Stored::EightBytes(more)) => {
                items.extend_from_slice(more.as_slice())?;
                Ok(())
            }
            _ => self.push_each(more),
        }
    }

    // Appends the numbers of another column one by one.
    #[tactic(auto, using(crate::proofs::Fronts::front_more))]
    fn push_each(&mut self, more: &Numbers) -> Result<(), Memory>
        ensures ok { OnOk result (self.new ≡ self.old ++ more.now) }
        ensures err { OnErr result (self.new ≡ self.old) }
    {
        let before = self.len();
        for place in 0..more.len() {
            if let Err(memory) = self.push(more.at(place)) {
                self.truncate(before);
                return Err(memory);
            }
        }
        Ok(())
    }

    /// Drops all but the first `n` numbers.
    pub fn truncate(&mut self, n: usize)
        ensures { self.new ≡ take n self.old }
    {
        match &mut self.stored {
            Stored::TwoBytes(items) => items.truncate(n),
            Stored::FourBytes(items) => items.truncate(n),
            Stored::EightBytes(items) => items.truncate(n),
        }
    }

    /// The number at a place, counted from 0.
    pub fn at(&self, place: usize) -> i64
        requires { place < length self.now }
        ensures { slice_get self.now place ≡ Some result }
    {
        match &self.stored {
            Stored::TwoBytes(items) => i64::from(items[place]),
            Stored::FourBytes(items) => i64::from(items[place]),
            Stored::EightBytes(items) => items[place],
        }
    }

    /// Reads numbers from a place on, as many as there is room for. Each width has a loop of its own, without a call or a test
    /// for each number.
    pub fn read(&self, from: usize, numbers: &mut [i64])
        requires { from + length numbers.old ≤ length self.now }
        ensures { numbers.new ≡ take (length numbers.old) (drop from self.now) }
    {
        match &self.stored {
            Stored::TwoBytes(items) => read_each(&items[from..], numbers),
            Stored::FourBytes(items) => read_each(&items[from..], numbers),
            Stored::EightBytes(items) => read_each(&items[from..], numbers),
        }
    }
}
