// Canonical integers of 128 bits.
ghost use Rattle.std.specs.Prelude.{◌≡◌, ◌≤◌, ◌<◌, ◌^◌, IfSome};
ghost use Rattle.rdf_values.specs.{begins_badly, digits_up_to, magnitude_of};
ghost use Rattle.shard_lines.specs.{sum_of_word};

// No bytes, or a first digit 0 before other bytes.
fn begins_badly(digits: &[u8]) -> bool
    ensures { result ≡ begins_badly digits.now }
{
    let Some((first, rest)) = digits.split_first() else {
        return true;
    };
    *first == b'0' && !rest.is_empty()
}

// The number that the digits write, where it is at most `most`.
fn read_digits(digits: &[u8], most: u128) -> Option<u128>
    requires { most < 2 ^ 127 }
    ensures value { result ≡ digits_up_to most 0 digits.now }
    ensures bound { IfSome result (λ n. n ≤ most) }
{
    let mut value: u128 = 0;
    for b in digits {
        if !b.is_ascii_digit() {
            return None;
        }
        if value > most / 10 {
            return None;
        }
        let next = value * 10 + u128::from(*b - b'0');
        if next > most {
            return None;
        }
        value = next;
    }
    Some(value)
}

// The number that the digits write canonically, where it is at most `most`.
fn read_magnitude(digits: &[u8], most: u128) -> Option<u128>
    requires { most < 2 ^ 127 }
    ensures value { result ≡ magnitude_of most digits.now }
    ensures bound { IfSome result (λ n. n ≤ most) }
{
    if begins_badly(digits) {
        return None;
    }
    read_digits(digits, most)
}

/// The number that the word is the canonical text of, where its absolute value is at most `most`.
pub fn read_sum(word: &[u8], most: u128) -> Option<i128>
    requires { most < 2 ^ 127 }
    ensures { result ≡ sum_of_word most word.now }
{
    let (first, rest) = word.split_first()?;
    if *first == b'-' {
        return match read_magnitude(rest, most) {
            Some(n) if n > 0 => Some(-1 - (n - 1) as i128),
            _ => None,
        };
    }
    match read_magnitude(word, most) {
        Some(n) => Some(n as i128),
        None => None,
    }
}
