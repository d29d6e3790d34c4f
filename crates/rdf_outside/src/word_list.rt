// The words of a command.
ghost use Rattle.std.specs.Prelude.{◌≡◌, ◌<◌, ◌∷◌, ◌++◌, [], List, ℕ, length, map, HoldsAt, OnErr, OnOk};

use rdf_values::Memory;
use std::alloc::Global;
use std::env;
use std::io::ErrorKind;
use std::marker::Model;
use std::rt::Env;

/// The words of a command, without the program's name.
#[derive(Drop)]
pub struct WordList {
    alloc: Global,
    words: Vec<String>,
}

impl Model for WordList {
    ghost use Rattle.std.specs.Prelude.{List, ℕ, map};
    ghost use Rattle.std.specs.String.{string_bytes};

    ghost Value = { List (List ℕ) };

    ghost view = { λ w. map string_bytes w.words.items };
}

impl WordList {
    /// No words.
    pub fn new(alloc: Global) -> WordList
        ensures { result ≡ [] }
    {
        WordList {
            alloc,
            words: Vec::new(alloc),
        }
    }

    /// The words after the program's name. Where one isn't UTF-8 there are none, which is a faulty command line too.
    pub fn of_command<R: Env + AllocGlobal>(rt: &R) -> Result<WordList, Memory> {
        let mut words = WordList::new(rt.alloc());
        match env::args(rt) {
            Ok(args) => {
                for word in args.skip(1) {
                    words.push(word.as_str())?;
                }
                Ok(words)
            }
            Err(error) => match error.kind() {
                ErrorKind::OutOfMemory => Err(Memory),
                _ => Ok(words),
            },
        }
    }

    /// Appends a word.
    pub fn push(&mut self, word: &str) -> Result<(), Memory>
        ensures ok { OnOk result (self.new ≡ self.old ++ word.now ∷ []) }
        ensures err { OnErr result (self.new ≡ self.old) }
    {
        let text = String::from_str(self.alloc, word)?;
        Ok(self.words.push(text)?)
    }

    /// How many words there are.
    pub fn len(&self) -> usize
        ensures { result ≡ length self.now }
    {
        self.words.len()
    }

    /// The word at a place, counted from 0.
    pub fn word(&self, i: usize) -> &str
        requires { i < length self.now }
        ensures { HoldsAt (λ w. result.now ≡ w) self.now i }
    {
        self.words[i].as_str()
    }
}
