// The maximal runs of rising numbers.
ghost use Rattle.std.specs.Prelude.{◌≡◌, ◌+◌, ◌-◌, ◌<◌, ◌≤◌, ℕ, All, IfOk, IsTrue, List, OnOk, [], ◌∷◌, false, length, map, reverse, slice_get, slice_index};
ghost use Rattle.rdf_values.specs.{IsUnion, Span};
ghost use Rattle.rdf_model.specs.{maximal_runs, Run};
ghost use Rattle.loop_pieces.specs.{span_of};
ghost use Rattle.slot_words.specs.{run_in_front};

use rdf_values::{ListOf, Memory, Span};
use std::alloc::Global;

// Puts a run in front of runs, which stand last first: it joins the first of them where that follows it.
fn put_in_front(runs: &mut Vec<Span>, run: Span) -> Result<(), Memory>
    ensures { (r : Run) (rs : List Run) → run ≡ span_of r → reverse runs.old.items ≡ map span_of rs → OnOk result (reverse runs.new.items ≡ map span_of (run_in_front r rs)) }
{
    if let Some(first) = runs.pop() {
        if run.hi == first.lo {
            runs.push(Span {
                lo: run.lo,
                hi: first.hi,
            })?;
            return Ok(());
        }
        runs.push(first)?;
    }
    runs.push(run)?;
    Ok(())
}

// Whether the last of the first k numbers is greater than the first i runs, which it is in none of.
fn number_is_last(runs: &[Span], numbers: &[u32], i: usize, k: usize) -> bool
    requires { (i ≤ length runs.now) × (k ≤ length numbers.now) }
    ensures yes { IsTrue result → (0 < k) × ((s : Span) → 0 < i → slice_get runs.now (i - 1) ≡ Some s → s.lo ≤ slice_index numbers.now (k - 1)) }
    ensures no { result ≡ false → 0 < k → (0 < i) × ((s : Span) → slice_get runs.now (i - 1) ≡ Some s → slice_index numbers.now (k - 1) < s.lo) }
{
    if k == 0 {
        return false;
    }
    if i == 0 {
        return true;
    }
    runs[i - 1].lo <= numbers[k - 1]
}

/// The maximal runs of the numbers in maximal runs and of further numbers, which rise.
pub fn runs_with(alloc: Global, runs: &[Span], numbers: &[u32]) -> Result<ListOf<Span>, Memory>
    requires { All (λ x. x < 4294967295) numbers.now }
    ensures { (xs all : List ℕ) → runs.now ≡ map span_of (maximal_runs xs) → IsUnion (xs ∷ numbers.now ∷ []) all → IfOk result (λ now. now ≡ map span_of (maximal_runs all)) }
{
    let mut joined = Vec::new(alloc);
    let mut i = runs.len();
    let mut k = numbers.len();
    while i > 0 || k > 0 {
        if number_is_last(runs, numbers, i, k) {
            k -= 1;
            let x = numbers[k];
            put_in_front(&mut joined, Span { lo: x, hi: x + 1 })?;
        } else {
            i -= 1;
            put_in_front(&mut joined, runs[i])?;
        }
    }
    joined.reverse();
    Ok(ListOf::from_vec(joined))
}
