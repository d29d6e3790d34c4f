// The digest of a script.
ghost use Rattle.std.specs.Prelude.{◌≡◌, ◌<◌, ◌++◌, true, IfOk, OnOk};
ghost use Rattle.chain_files.specs.{digest_of, hash_of, hex_digit, hex_digits, is_digest};

use rdf_values::{Memory, Text};
use std::alloc::Global;

// The hash of no bytes.
const FIRST_HASH: u64 = 14_695_981_039_346_656_037;

const HASH_FACTOR: u64 = 1_099_511_628_211;

fn hash_of(bytes: &[u8]) -> u64
    ensures { result ≡ hash_of bytes.now }
{
    let mut hash = FIRST_HASH;
    for byte in bytes {
        hash = (hash ^ (*byte as u64)).wrapping_mul(HASH_FACTOR);
    }
    hash
}

fn hex_digit(value: u8) -> u8
    requires { value < 16 }
    ensures { result ≡ hex_digit value }
{
    if value < 10 { 48 + value } else { 87 + value }
}

// The last digits of a number, so many.
fn put_digits(text: &mut Text, count: u32, number: u64) -> Result<(), Memory>
    ensures { OnOk result (text.new ≡ text.old ++ hex_digits count number) }
{
    if count == 0 {
        return Ok(());
    }
    put_digits(text, count - 1, number / 16)?;
    text.push(hex_digit((number % 16) as u8))
}

/// The digest of a script by its bytes: a hash of 64 bits, as 16 digits from 0 to f.
pub fn script_digest(alloc: Global, script: &[u8]) -> Result<Text, Memory>
    ensures digest { IfOk result (λ text. text ≡ digest_of script.now) }
    ensures digits { IfOk result (λ text. is_digest text ≡ true) }
{
    let mut text = Text::new(alloc);
    put_digits(&mut text, 16, hash_of(script))?;
    Ok(text)
}
