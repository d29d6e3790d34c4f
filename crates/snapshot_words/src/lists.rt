// Names in one word.
ghost use Rattle.std.specs.Prelude.{◌≡◌, ◌<◌, [], ◌∷◌, IfOk, MatchOption, length, position};
ghost use Rattle.std.specs.List.{slice_split};
ghost use Rattle.rdf_values.specs.{is_colon};
ghost use Rattle.snapshot_words.specs.{is_comma, names_of, under_in};

use rdf_values::{ListOf, Memory, Name};
use snapshot_plan::Under;
use std::alloc::Global;

const MAX_COLUMNS: usize = 64;

fn find_comma(text: &[u8]) -> Option<usize>
    ensures { result ≡ position is_comma text.now }
{
    text.iter().position(|b| *b == b',')
}

fn find_colon(text: &[u8]) -> Option<usize>
    ensures { result ≡ position is_colon text.now }
{
    text.iter().position(|b| *b == b':')
}

// The part before the first comma, and what stands after it.
fn first_part(text: &[u8]) -> (&[u8], Option<&[u8]>)
    ensures { MatchOption result.1 (slice_split is_comma text.now ≡ result.0.now ∷ [])
        (λ rest. (slice_split is_comma text.now ≡ result.0.now ∷ slice_split is_comma rest.now) × (length rest.now < length text.now)) }
{
    match find_comma(text) {
        None => (text, None),
        Some(i) => (&text[..i], Some(&text[i + 1..])),
    }
}

/// The names between commas; none where one of them isn't a name, or there are more than 64.
pub(crate) fn names_of(alloc: Global, text: &[u8]) -> Result<Option<ListOf<Name>>, Memory>
    ensures { IfOk result (λ names. names ≡ names_of text.now) }
{
    let mut names = ListOf::new(alloc);
    let mut rest = Some(text);
    while let Some(left) = rest {
        let (part, after) = first_part(left);
        let Some(name) = Name::read(alloc, part)? else {
            return Ok(None);
        };
        if names.len() >= MAX_COLUMNS {
            return Ok(None);
        }
        names.push(name)?;
        rest = after;
    }
    Ok(Some(names))
}

/// Nominal, or the variation of the name and the tag around a colon.
#[tactic(auto, using(crate::proofs::Parts::no_colon), unfolding(crate::specs::Asked::under_in))]
pub(crate) fn under_of(alloc: Global, text: &[u8]) -> Result<Option<Under>, Memory>
    ensures { IfOk result (λ under. under ≡ under_in text.now) }
{
    if text == b"nominal".as_slice() {
        return Ok(Some(Under::Nominal));
    }
    let Some(colon) = find_colon(text) else {
        return Ok(None);
    };
    let Some(name) = Name::read(alloc, &text[..colon])? else {
        return Ok(None);
    };
    match Name::read(alloc, &text[colon + 1..])? {
        Some(tag) => Ok(Some(Under::Varied { name, tag })),
        None => Ok(None),
    }
}
