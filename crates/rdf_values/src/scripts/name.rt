// Words of a text, and names of columns, nodes, results, variations, tags and functions.
ghost use Rattle.std.specs.Prelude.{◌≡◌, List, ℕ, true, false, IfOk, MatchOption, length, take_while};
ghost use Rattle.std.specs.List.{list_all};
ghost use Rattle.rdf_values.specs.scripts.Names.{is_digit, is_name, is_word, is_word_byte, is_word_start, same, among};

use crate::list::ListOf;
use crate::memory::Memory;
use std::alloc::{AllocError, Global};
use std::marker::Model;

const LONGEST_NAME: usize = 64;

/// A name: 1 to 64 letters, digits and `_`, of which the first is no digit, and neither `true` nor `false`.
#[derive(Debug, Drop)]
pub struct Name {
    bytes: Vec<u8>,
}

impl Model for Name {
    ghost Value = { List ℕ };

    ghost view = { λ n. n.bytes.items };

    ghost invariant = { λ n. is_name n.bytes.items ≡ true };
}

impl Clone for Name {
    ghost is_clone = { λ n copy. copy ≡ n };

    fn clone(&self) -> Result<Name, AllocError> {
        let bytes = Vec::from_slice(*self.bytes.allocator(), self.bytes.as_slice())?;
        Ok(Name { bytes })
    }
}

/// Whether a word may begin with the byte: a letter or `_`.
pub fn is_word_start(byte: u8) -> bool
    ensures { result ≡ is_word_start byte }
{
    byte.is_ascii_alphabetic() || byte == b'_'
}

/// Whether a word may go on with the byte: a letter, a digit or `_`.
pub fn is_word_byte(byte: u8) -> bool
    ensures { result ≡ is_word_byte byte }
{
    is_word_start(byte) || byte.is_ascii_digit()
}

fn are_word_bytes(bytes: &[u8]) -> bool
    ensures { result ≡ list_all is_word_byte bytes.now }
{
    bytes.iter().all(|b| is_word_byte(*b))
}

fn is_word(bytes: &[u8]) -> bool
    ensures { result ≡ is_word bytes.now }
{
    match bytes.split_first() {
        None => false,
        Some((first, rest)) => is_word_start(*first) && are_word_bytes(rest),
    }
}

#[tactic(auto, unfolding(crate::specs::scripts::Names::is_name))]
fn is_name(bytes: &[u8]) -> bool
    ensures { result ≡ is_name bytes.now }
{
    is_word(bytes)
        && bytes.len() <= LONGEST_NAME
        && bytes != b"true".as_slice()
        && bytes != b"false".as_slice()
}

impl Name {
    /// The name that the bytes are, if they are one.
    pub fn read(alloc: Global, bytes: &[u8]) -> Result<Option<Name>, Memory>
        ensures { IfOk result (λ o. MatchOption o (is_name bytes.now ≡ false) (λ n. (is_name bytes.now ≡ true) × (n ≡ bytes.now))) }
    {
        if !is_name(bytes) {
            return Ok(None);
        }
        let bytes = Vec::from_slice(alloc, bytes)?;
        Ok(Some(Name { bytes }))
    }

    /// The name's bytes.
    pub fn bytes(&self) -> &[u8]
        ensures { result.now ≡ self.now }
    {
        self.bytes.as_slice()
    }

    /// A copy of the name.
    pub fn copy(&self) -> Result<Name, Memory>
        ensures { IfOk result (λ n. n ≡ self.now) }
    {
        Ok(self.clone()?)
    }

    /// Whether it is the same name.
    pub fn is(&self, other: &Name) -> bool
        ensures { result ≡ same self.now other.now }
    {
        self.bytes.as_slice() == other.bytes.as_slice()
    }
}

/// Whether the name is one of the names.
pub fn contains(names: &ListOf<Name>, name: &Name) -> bool
    ensures { result ≡ among name.now names.now }
{
    names.as_slice().iter().any(|n| name.is(n))
}

/// Whether the byte is a digit.
pub fn is_digit(byte: u8) -> bool
    ensures { result ≡ is_digit byte }
{
    byte.is_ascii_digit()
}

/// How many bytes of a word the text begins with.
pub fn word_size(text: &[u8]) -> usize
    ensures { result ≡ length (take_while is_word_byte text.now) }
{
    text.iter().take_while(|byte| is_word_byte(**byte)).count()
}

/// How many digits the text begins with.
pub fn digits_size(text: &[u8]) -> usize
    ensures { result ≡ length (take_while is_digit text.now) }
{
    text.iter().take_while(|byte| is_digit(**byte)).count()
}
