// Reading the words behind the command, one after another.
ghost use Rattle.std.specs.Prelude.{◌≡◌, ◌≤◌, IfOk, drop, length};
ghost use Rattle.chain_words.specs.{any_word, awaiting, begins, cluster_by, is_plain, joined_word, named, number_in, option_word, slots_by, word_read};

use command_words::FileName;
use rdf_values::{ListOf, Memory, read_integer};
use std::alloc::Global;

const MAX_SLOTS: u32 = 16;

const MAX_CLUSTER: u32 = 1_000_000;

/// What the next word is: anything, the value of an option, or a name, whatever it is.
#[derive(Clone, Copy, Debug, PartialEq, Eq)]
pub(crate) enum Awaits {
    Any,
    Slots,
    Cluster,
    Name,
}

/// What was read so far: what the next word is, the names, and the options that are set.
#[derive(Drop)]
pub(crate) struct WordsRead {
    pub(crate) awaits: Awaits,
    pub(crate) names: ListOf<FileName>,
    pub(crate) slots: Option<u32>,
    pub(crate) cluster: Option<u32>,
}

/// The number that a text is canonical for, within the limits.
pub(crate) fn number(text: &[u8], least: u32, most: u32) -> Option<u32>
    ensures { result ≡ number_in least most text.now }
{
    let n = read_integer(text)?;
    if n >= least as i64 && n <= most as i64 {
        Some(n as u32)
    } else {
        None
    }
}

// Whether the word is a name or a value.
fn is_plain(word: &[u8]) -> bool
    ensures { result ≡ is_plain word.now }
{
    word.len() < 2 || word[0] != b'-'
}

fn begins(text: &[u8], word: &[u8]) -> bool
    ensures { result ≡ begins text.now word.now }
{
    word.len() >= text.len() && &word[..text.len()] == text
}

fn named(alloc: Global, reading: WordsRead, word: &str) -> Result<WordsRead, Memory>
    ensures { IfOk result (λ r. r ≡ named reading word.now) }
{
    let name = FileName::of(alloc, word)?;
    let mut names = reading.names;
    names.push(name)?;
    Ok(WordsRead {
        awaits: reading.awaits,
        names,
        slots: reading.slots,
        cluster: reading.cluster,
    })
}

fn awaiting(awaits: Awaits, reading: WordsRead) -> WordsRead
    ensures { result ≡ awaiting awaits reading }
{
    WordsRead {
        awaits,
        names: reading.names,
        slots: reading.slots,
        cluster: reading.cluster,
    }
}

fn slots_by(reading: WordsRead, text: &[u8]) -> Option<WordsRead>
    ensures { result ≡ slots_by reading text.now }
{
    match number(text, 1, MAX_SLOTS) {
        Some(n) => Some(WordsRead {
            awaits: Awaits::Any,
            names: reading.names,
            slots: Some(n),
            cluster: reading.cluster,
        }),
        None => None,
    }
}

fn cluster_by(reading: WordsRead, text: &[u8]) -> Option<WordsRead>
    ensures { result ≡ cluster_by reading text.now }
{
    match number(text, 1, MAX_CLUSTER) {
        Some(n) => Some(WordsRead {
            awaits: Awaits::Any,
            names: reading.names,
            slots: reading.slots,
            cluster: Some(n),
        }),
        None => None,
    }
}

// What stands behind so many bytes.
fn behind(word: &[u8], n: usize) -> &[u8]
    requires { n ≤ length word.now }
    ensures { result.now ≡ drop n word.now }
{
    &word[n..]
}

// An option with its value behind '='.
fn joined_word(reading: WordsRead, word: &[u8]) -> Option<WordsRead>
    ensures { result ≡ joined_word reading word.now }
{
    let slots_set = reading.slots.is_some();
    let cluster_set = reading.cluster.is_some();
    if begins(b"--slots=", word) {
        if slots_set {
            None
        } else {
            slots_by(reading, behind(word, 8))
        }
    } else if begins(b"--cluster=", word) {
        if cluster_set {
            None
        } else {
            cluster_by(reading, behind(word, 10))
        }
    } else {
        None
    }
}

// An option: its value is the next word, or stands behind '='.
fn option_word(reading: WordsRead, word: &[u8]) -> Option<WordsRead>
    ensures { result ≡ option_word reading word.now }
{
    let slots_set = reading.slots.is_some();
    let cluster_set = reading.cluster.is_some();
    if word == b"--slots".as_slice() {
        if slots_set {
            None
        } else {
            Some(awaiting(Awaits::Slots, reading))
        }
    } else if word == b"--cluster".as_slice() {
        if cluster_set {
            None
        } else {
            Some(awaiting(Awaits::Cluster, reading))
        }
    } else {
        joined_word(reading, word)
    }
}

fn any_word(alloc: Global, reading: WordsRead, word: &str) -> Result<Option<WordsRead>, Memory>
    ensures { IfOk result (λ r. r ≡ any_word reading word.now) }
{
    if word == "--" {
        Ok(Some(awaiting(Awaits::Name, reading)))
    } else if is_plain(word.as_bytes()) {
        Ok(Some(named(alloc, reading, word)?))
    } else {
        Ok(option_word(reading, word.as_bytes()))
    }
}

/// What was read with one word more.
pub(crate) fn word_read(
    alloc: Global,
    reading: WordsRead,
    word: &str,
) -> Result<Option<WordsRead>, Memory>
    ensures { IfOk result (λ r. r ≡ word_read reading.awaits reading word.now) }
{
    match reading.awaits {
        Awaits::Any => any_word(alloc, reading, word),
        Awaits::Name => Ok(Some(named(alloc, reading, word)?)),
        Awaits::Slots => {
            if is_plain(word.as_bytes()) {
                Ok(slots_by(reading, word.as_bytes()))
            } else {
                Ok(None)
            }
        }
        Awaits::Cluster => {
            if is_plain(word.as_bytes()) {
                Ok(cluster_by(reading, word.as_bytes()))
            } else {
                Ok(None)
            }
        }
    }
}
