// Elements from the text of a vector.
ghost use Rattle.std.specs.Prelude.{◌≡◌, ◌<◌, [], ◌∷◌, IfOk, length, position, take, MatchOption};
ghost use Rattle.std.specs.List.{slice_split};
ghost use Rattle.rdf_values.specs.{AreRead, HasNoElement, is_semicolon, IsElement, vector_of};

use crate::memory::Memory;
use crate::tables::integer::{leading_integer, read_any_integer};

const MAX_ELEMENTS: usize = 4096;

fn find_semicolon(text: &[u8]) -> Option<usize>
    ensures { result ≡ position is_semicolon text.now }
{
    text.iter().position(|b| *b == b';')
}

// The part before the first `;`, and what stands after it.
#[tactic(auto, using(crate::proofs::Fronts::cut_at, crate::proofs::Fronts::rest_of))]
fn first_part(text: &[u8]) -> (&[u8], Option<&[u8]>)
    ensures { MatchOption result.1 (slice_split is_semicolon text.now ≡ result.0.now ∷ [])
        (λ rest. (slice_split is_semicolon text.now ≡ result.0.now ∷ slice_split is_semicolon rest.now) × (length rest.now < length text.now)) }
{
    match find_semicolon(text) {
        None => (text, None),
        Some(i) => (&text[..i], Some(&text[i + 1..])),
    }
}

// The first element of a vector's text, and what stands after the `;` behind it, by a search for the `;`. It is no call
// of its own, since the place for such an answer would be cleared before each element.
#[inline(always)]
fn any_element(text: &[u8]) -> Option<(i64, Option<&[u8]>)>
    ensures { MatchOption result (HasNoElement text.now) (λ found. IsElement text.now found.0 found.1) }
{
    let (part, after) = first_part(text);
    match read_any_integer(part) {
        Some(element) => Some((element, after)),
        None => None,
    }
}

// The first element of a vector's text, and what stands after the `;` behind it.
#[inline(always)]
fn first_element(text: &[u8]) -> Option<(i64, Option<&[u8]>)>
    ensures { MatchOption result (HasNoElement text.now) (λ found. IsElement text.now found.0 found.1) }
{
    let Some((element, end)) = leading_integer(text) else {
        return any_element(text);
    };
    if end == text.len() {
        return Some((element, None));
    }
    if text[end] == b';' {
        return Some((element, Some(&text[end + 1..])));
    }
    any_element(text)
}

/// Appends the elements of the vector that a text spells; `false` where it spells none. Then, and after want of memory,
/// some of them may be appended.
pub(crate) fn read_elements(text: &[u8], elements: &mut Vec<i64>) -> Result<bool, Memory>
    ensures read { IfOk result (λ is_vector. AreRead (vector_of text.now) is_vector elements.old.items elements.new.items) }
    ensures before { take (length elements.old.items) elements.new.items ≡ elements.old.items }
{
    if text.is_empty() {
        return Ok(true);
    }
    let most = elements.len() + MAX_ELEMENTS;
    let mut rest = Some(text);
    while let Some(left) = rest {
        let Some((element, after)) = first_element(left) else {
            return Ok(false);
        };
        if elements.len() >= most {
            return Ok(false);
        }
        elements.push(element)?;
        rest = after;
    }
    Ok(true)
}
