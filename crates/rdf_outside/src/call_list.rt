// The calls of an object that are to fail.
ghost use Rattle.std.specs.Prelude.{◌≡◌, ◌∷◌, ◌++◌, [], OnErr, OnOk};
ghost use Rattle.rdf_outside.specs.{Counts, is_listed};

use rdf_values::Memory;
use std::alloc::Global;

/// How many calls were made, and the numbers of those that are to fail, counted from 0.
#[derive(Drop)]
pub(crate) struct CallList {
    made: u64,
    listed: Vec<u32>,
}

impl CallList {
    /// No call was made, and none is to fail.
    pub(crate) fn new(alloc: Global) -> CallList
        ensures made { result.made ≡ 0 }
        ensures listed { result.listed.items ≡ [] }
    {
        CallList {
            made: 0,
            listed: Vec::new(alloc),
        }
    }

    /// The call of this number is to fail.
    pub(crate) fn list(&mut self, call: u32) -> Result<(), Memory>
        ensures made { self.new.made ≡ self.old.made }
        ensures ok { OnOk result (self.new.listed.items ≡ self.old.listed.items ++ call ∷ []) }
        ensures err { OnErr result (self.new.listed.items ≡ self.old.listed.items) }
    {
        Ok(self.listed.push(call)?)
    }

    /// Counts a call and answers whether it is to fail.
    pub(crate) fn count(&mut self) -> bool
        ensures listed { result ≡ is_listed self.old }
        ensures counted { Counts self.old self.new }
    {
        let made = self.made;
        self.made = made.saturating_add(1);
        self.listed.iter().any(|call| u64::from(*call) == made)
    }
}
