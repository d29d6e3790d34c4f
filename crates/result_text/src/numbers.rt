// Numbers in decimal.
ghost use Rattle.std.specs.Prelude.{◌≡◌, ◌++◌, OnOk, decimal};
ghost use Rattle.std.specs.Fmt.{signed_decimal};
ghost use Rattle.rdf_model.specs.{option_text};

use rdf_values::{Memory, Text};
use std::alloc::Global;

/// Appends a number.
pub fn put_count(alloc: Global, text: &mut Text, n: u64) -> Result<(), Memory>
    ensures { OnOk result (text.new ≡ text.old ++ decimal n) }
{
    let digits = format!(in alloc; "{n}")?;
    text.extend(digits.as_bytes())
}

/// Appends a number with its sign.
pub fn put_number(alloc: Global, text: &mut Text, z: i64) -> Result<(), Memory>
    ensures { OnOk result (text.new ≡ text.old ++ signed_decimal z) }
{
    let digits = format!(in alloc; "{z}")?;
    text.extend(digits.as_bytes())
}

/// Appends a sum with its sign.
pub fn put_sum(alloc: Global, text: &mut Text, z: i128) -> Result<(), Memory>
    ensures { OnOk result (text.new ≡ text.old ++ signed_decimal z) }
{
    let digits = format!(in alloc; "{z}")?;
    text.extend(digits.as_bytes())
}

/// Appends a number, or `none`.
pub fn put_option(alloc: Global, text: &mut Text, z: Option<i64>) -> Result<(), Memory>
    ensures { OnOk result (text.new ≡ text.old ++ option_text z) }
{
    match z {
        Some(z) => put_number(alloc, text, z),
        None => text.extend(b"none"),
    }
}

/// Appends a number of up to 128 bits.
pub fn put_wide(alloc: Global, text: &mut Text, n: u128) -> Result<(), Memory>
    ensures { OnOk result (text.new ≡ text.old ++ decimal n) }
{
    let digits = format!(in alloc; "{n}")?;
    text.extend(digits.as_bytes())
}
