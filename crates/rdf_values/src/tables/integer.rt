// Canonical integers.
ghost use Rattle.std.specs.Prelude.{◌≡◌, ◌≤◌, ◌<◌, ◌^◌, List, IfSome};
ghost use Rattle.std.specs.Fmt.{signed_decimal};
ghost use Rattle.rdf_values.specs.{AreLeading, begins_badly, digits_up_to, integer_of, IsDigit, IsLeading, magnitude_of};

const NEGATIVE_LIMIT: u64 = 9_223_372_036_854_775_808;

const POSITIVE_LIMIT: u64 = 9_223_372_036_854_775_807;

// So many digits write no number that is out of range.
const FEW_DIGITS: usize = 18;

// No bytes, or a first digit 0 before other bytes.
fn begins_badly(digits: &[u8]) -> bool
    ensures { result ≡ begins_badly digits.now }
{
    let Some((first, rest)) = digits.split_first() else {
        return true;
    };
    *first == b'0' && !rest.is_empty()
}

// The number that the digits write, where it is at most `most`.
fn read_digits(digits: &[u8], most: u64) -> Option<u64>
    requires { most ≤ 2 ^ 63 }
    ensures value { result ≡ digits_up_to most 0 digits.now }
    ensures bound { IfSome result (λ n. n ≤ most) }
{
    let mut value = 0;
    for b in digits {
        if !b.is_ascii_digit() {
            return None;
        }
        if value > most / 10 {
            return None;
        }
        let next = value * 10 + u64::from(*b - b'0');
        if next > most {
            return None;
        }
        value = next;
    }
    Some(value)
}

/// The number that the digits write canonically, where it is at most `most`.
#[tactic(auto, unfolding(crate::specs::tables::Integers::magnitude_of))]
pub fn read_magnitude(digits: &[u8], most: u64) -> Option<u64>
    requires { most ≤ 2 ^ 63 }
    ensures value { result ≡ magnitude_of most digits.now }
    ensures bound { IfSome result (λ n. n ≤ most) }
{
    if begins_badly(digits) {
        return None;
    }
    read_digits(digits, most)
}

// The number that a byte writes as a digit.
#[inline(always)]
fn digit_of(byte: u8) -> Option<u64>
    ensures { IsDigit byte result }
{
    let digit = u64::from(byte).wrapping_sub(48);
    if digit < 10 { Some(digit) } else { None }
}

// The number that the digits at the front of a text write, and how many they are: at most 18, and a single one where
// the first is 0.
#[inline(always)]
fn leading_digits(text: &[u8]) -> Option<(u64, usize)>
    ensures { IfSome result (λ found. AreLeading text.now found.0 found.1) }
{
    let (first, rest) = text.split_first()?;
    let mut value = digit_of(*first)?;
    if value == 0 {
        return Some((0, 1));
    }
    let more = rest.len().min(FEW_DIGITS - 1);
    for i in 0..more {
        let Some(digit) = digit_of(rest[i]) else {
            return Some((value, i + 1));
        };
        value = value * 10 + digit;
    }
    Some((value, more + 1))
}

/// The number at the front of a text, and where it ends. Not each text that begins with a number has one here: none has
/// that begins with more than 18 digits.
#[inline(always)]
pub(crate) fn leading_integer(text: &[u8]) -> Option<(i64, usize)>
    ensures { IfSome result (λ found. IsLeading text.now found.0 found.1) }
{
    if let Some((n, count)) = leading_digits(text) {
        return Some((n as i64, count));
    }
    let (first, rest) = text.split_first()?;
    if *first != b'-' {
        return None;
    }
    match leading_digits(rest)? {
        (n, count) if n > 0 => Some((-1 - (n - 1) as i64, count + 1)),
        _ => None,
    }
}

/// The number that the bytes are the canonical text of, by a test for each digit whether it is in range. Most texts are
/// read without it.
#[cold]
#[inline(never)]
#[tactic(auto, unfolding(crate::specs::tables::Integers::integer_of))]
pub(crate) fn read_any_integer(text: &[u8]) -> Option<i64>
    ensures { result ≡ integer_of text.now }
{
    let (first, rest) = text.split_first()?;
    if *first == b'-' {
        return match read_magnitude(rest, NEGATIVE_LIMIT) {
            Some(n) if n > 0 => Some(-1 - (n - 1) as i64),
            _ => None,
        };
    }
    match read_magnitude(text, POSITIVE_LIMIT) {
        Some(n) => Some(n as i64),
        None => None,
    }
}

/// The number that the bytes are the canonical text of.
#[inline(always)]
#[tactic(auto, using(std::proofs::lemmas::List::take_all, crate::proofs::OneText::text_of_integer))]
pub fn read_integer(text: &[u8]) -> Option<i64>
    ensures value { result ≡ integer_of text.now }
    ensures text { IfSome result (λ n. text.now ≡ signed_decimal n) }
{
    match leading_integer(text) {
        Some((n, end)) if end == text.len() => Some(n),
        _ => read_any_integer(text),
    }
}

/// A law: the decimal text of each number of 64 bits reads as that number.
#[tactic(auto, using(crate::proofs::OneText::integer_of_text))]
pub fn reads_own_text(n: i64)
    ensures { integer_of (signed_decimal n) ≡ Some n }
{}
