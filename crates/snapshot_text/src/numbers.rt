// Numbers in decimal.
ghost use Rattle.std.specs.Prelude.{◌≡◌, ◌++◌, ◌∷◌, OnOk, flat_map, map};
ghost use Rattle.std.specs.Fmt.{signed_decimal};
ghost use Rattle.std.specs.List.{join_with_byte};

use itoa::Buffer;
use rdf_values::{Memory, Text};

pub(crate) fn put_number(text: &mut Text, z: i64) -> Result<(), Memory>
    ensures { OnOk result (text.new ≡ text.old ++ signed_decimal z) }
{
    let mut digits = Buffer::new();
    text.extend(digits.format(z).as_bytes())
}

// Numbers, each behind a semicolon.
fn put_more_numbers(text: &mut Text, numbers: &[i64]) -> Result<(), Memory>
    ensures { OnOk result (text.new ≡ text.old ++ flat_map (λ z. 59 ∷ signed_decimal z) numbers.now) }
{
    for number in numbers {
        text.push(b';')?;
        put_number(text, *number)?;
    }
    Ok(())
}

// Numbers with semicolons between them.
#[tactic(auto, using(crate::proofs::Joined::joined_numbers))]
pub(crate) fn put_numbers(text: &mut Text, numbers: &[i64]) -> Result<(), Memory>
    ensures { OnOk result (text.new ≡ text.old ++ join_with_byte 59 (map signed_decimal numbers.now)) }
{
    match numbers.split_first() {
        None => Ok(()),
        Some((first, rest)) => {
            put_number(text, *first)?;
            put_more_numbers(text, rest)
        }
    }
}
