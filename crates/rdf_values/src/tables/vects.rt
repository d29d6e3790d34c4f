// The vectors of a column.
ghost use Rattle.std.specs.Prelude.{◌≡◌, ◌<◌, ◌≤◌, ◌+◌, ◌^◌, [], ◌∷◌, ◌++◌, All, length, map, take, IfOk, OnOk, OnErr, slice_get, slice_index, vec_capacity, vec_len};
ghost use Rattle.rdf_values.specs.tables.Kept.{IsVectorPushed};
ghost use Rattle.rdf_values.specs.tables.Pieces.{Ascend, pieces};
ghost use Rattle.rdf_values.specs.tables.TableText.{vector_of};

use crate::memory::Memory;
use crate::tables::vector_text::read_elements;
use std::alloc::Global;
use std::marker::Model;

const MOST_ELEMENTS: usize = u32::MAX as usize;

/// Vectors in order, with all their elements in one list; they have at most 4,294,967,295 together.
#[derive(Drop)]
pub struct Vects {
    elements: Vec<i64>,
    ends: Vec<u32>,
}

impl Model for Vects {
    ghost use Rattle.std.specs.Prelude.{List, ℤ, length};
    ghost use Rattle.rdf_values.specs.tables.Pieces.{Ascend, pieces};

    ghost Value = { List (List ℤ) };

    ghost view = { λ v. pieces 0 v.elements.items v.ends.items };

    ghost invariant = { λ v. Ascend 0 v.ends.items (length v.elements.items) };
}

// Where the piece at a place begins.
fn begin_of(ends: &[u32], i: usize) -> usize
    requires { i < length ends.now }
    ensures { result ≡ slice_index (0 ∷ ends.now) i }
{
    if i == 0 { 0 } else { ends[i - 1] as usize }
}

// The piece at a place of a list that is cut at these ends.
#[tactic(auto, using(crate::proofs::PieceLemmas::piece_within))]
fn piece_at<'a>(elements: &'a [i64], ends: &[u32], i: usize) -> &'a [i64]
    requires there { i < length ends.now }
    requires ascend { Ascend 0 ends.now (length elements.now) }
    ensures { slice_get (pieces 0 elements.now ends.now) i ≡ Some result.now }
{
    let begin = begin_of(ends, i);
    let end = ends[i] as usize;
    &elements[begin..end]
}

// Ends one more vector at a place; one that 4 bytes don't hold is answered as want of memory.
fn push_end(ends: &mut Vec<u32>, end: usize) -> Result<(), Memory>
    ensures ok { OnOk result (ends.new.items ≡ ends.old.items ++ end ∷ []) }
    ensures err { OnErr result (ends.new.items ≡ ends.old.items) }
{
    let Ok(end) = u32::try_from(end) else {
        return Err(Memory);
    };
    ends.push(end)?;
    Ok(())
}

// Appends places, each so many further on, for which there is room.
fn push_further(ends: &mut Vec<u32>, more: &[u32], by: usize)
    requires room { vec_len ends.old + length more.now ≤ vec_capacity ends.old }
    requires few { All (λ end. by + end < 2 ^ 32) more.now }
    ensures { ends.new.items ≡ ends.old.items ++ map (λ end. by + end) more.now }
{
    for end in more {
        ends.push_reserved((by + *end as usize) as u32);
    }
}

impl Vects {
    /// No vectors.
    pub fn new(alloc: Global) -> Vects
        ensures { result ≡ [] }
    {
        Vects {
            elements: Vec::new(alloc),
            ends: Vec::new(alloc),
        }
    }

    /// How many vectors there are.
    pub fn len(&self) -> usize
        ensures { result ≡ length self.now }
    {
        self.ends.len()
    }

    /// Appends a vector.
    #[tactic(auto, using(crate::proofs::PieceLemmas::ascend_after, crate::proofs::PieceLemmas::pieces_after))]
    pub fn push(&mut self, vector: &[i64]) -> Result<(), Memory>
        ensures ok { OnOk result (self.new ≡ self.old ++ vector.now ∷ []) }
        ensures err { OnErr result (self.new ≡ self.old) }
    {
        let begin = self.elements.len();
        self.elements.extend_from_slice(vector)?;
        let end = self.elements.len();
        match push_end(&mut self.ends, end) {
            Ok(()) => Ok(()),
            Err(_) => {
                self.elements.truncate(begin);
                Err(Memory)
            }
        }
    }

    /// Appends the vector that a text spells; `false` where it spells none.
    #[tactic(auto, using(crate::proofs::PieceLemmas::read_good, crate::proofs::PieceLemmas::ascend_after, crate::proofs::PieceLemmas::pieces_after))]
    pub fn push_text(&mut self, text: &[u8]) -> Result<bool, Memory>
        ensures ok { IfOk result (λ is_vector. IsVectorPushed (vector_of text.now) is_vector self.old self.new) }
        ensures err { OnErr result (self.new ≡ self.old) }
    {
        let begin = self.elements.len();
        let read = read_elements(text, &mut self.elements);
        if read == Ok(true) {
            let end = self.elements.len();
            if push_end(&mut self.ends, end).is_ok() {
                return Ok(true);
            }
        }
        self.elements.truncate(begin);
        match read {
            Ok(false) => Ok(false),
            _ => Err(Memory),
        }
    }

    /// Appends the vectors of another column.
    pub fn extend_from(&mut self, more: &Vects) -> Result<(), Memory>
        ensures ok { OnOk result (self.new ≡ self.old ++ more.now) }
        ensures err { OnErr result (self.new ≡ self.old) }
    {
        let begin = self.elements.len();
        if begin + more.elements.len() > MOST_ELEMENTS {
            return Err(Memory);
        }
        self.ends.reserve(more.ends.len())?;
        self.elements.extend_from_slice(more.elements.as_slice())?;
        push_further(&mut self.ends, more.ends.as_slice(), begin);
        Ok(())
    }

    /// Drops all but the first `n` vectors.
    #[tactic(auto, using(crate::proofs::PieceLemmas::ascend_cut, crate::proofs::PieceLemmas::pieces_after_cut, crate::proofs::PieceLemmas::no_more))]
    pub fn truncate(&mut self, n: usize)
        ensures { self.new ≡ take n self.old }
    {
        if n < self.ends.len() {
            let end = begin_of(self.ends.as_slice(), n);
            self.ends.truncate(n);
            self.elements.truncate(end);
        }
    }

    /// The vector at a place.
    pub fn at(&self, i: usize) -> &[i64]
        requires { i < length self.now }
        ensures { slice_get self.now i ≡ Some result.now }
    {
        piece_at(self.elements.as_slice(), self.ends.as_slice(), i)
    }
}
