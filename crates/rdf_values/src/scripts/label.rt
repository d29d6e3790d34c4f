// Labels of filters.
ghost use Rattle.std.specs.Prelude.{◌≡◌, List, ℕ, true, false, IfOk, MatchOption};
ghost use Rattle.std.specs.List.{list_all};
ghost use Rattle.rdf_values.specs.scripts.Names.{is_label, is_label_byte};

use crate::memory::Memory;
use std::alloc::Global;
use std::marker::Model;

const LONGEST_LABEL: usize = 64;

/// A filter's name in a report: 1 to 64 bytes from 0x20 to 0x7E without `"`.
#[derive(Debug, Drop)]
pub struct Label {
    bytes: Vec<u8>,
}

impl Model for Label {
    ghost Value = { List ℕ };

    ghost view = { λ n. n.bytes.items };

    ghost invariant = { λ n. is_label n.bytes.items ≡ true };
}

fn is_label_byte(byte: u8) -> bool
    ensures { result ≡ is_label_byte byte }
{
    byte >= 0x20 && byte <= 0x7E && byte != b'"'
}

fn are_label_bytes(bytes: &[u8]) -> bool
    ensures { result ≡ list_all is_label_byte bytes.now }
{
    bytes.iter().all(|b| is_label_byte(*b))
}

fn is_label(bytes: &[u8]) -> bool
    ensures { result ≡ is_label bytes.now }
{
    !bytes.is_empty() && bytes.len() <= LONGEST_LABEL && are_label_bytes(bytes)
}

impl Label {
    /// The label that the bytes are, if they are one.
    pub fn read(alloc: Global, bytes: &[u8]) -> Result<Option<Label>, Memory>
        ensures { IfOk result (λ o. MatchOption o (is_label bytes.now ≡ false) (λ n. (is_label bytes.now ≡ true) × (n ≡ bytes.now))) }
    {
        if !is_label(bytes) {
            return Ok(None);
        }
        let bytes = Vec::from_slice(alloc, bytes)?;
        Ok(Some(Label { bytes }))
    }

    /// The label's bytes.
    pub fn bytes(&self) -> &[u8]
        ensures { result.now ≡ self.now }
    {
        self.bytes.as_slice()
    }
}
