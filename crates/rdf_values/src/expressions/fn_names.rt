// Names of the functions that a caller hands in, each with its number of arguments.
ghost use Rattle.std.specs.Prelude.{◌≡◌, ◌↔◌, ◌<◌, ◌≤◌, List, [], ◌∷◌, ◌++◌, length, IsTrue, MatchOption, MatchResult, HoldsAt};
ghost use Rattle.rdf_values.specs.expressions.Functions.{IsBuiltIn};

use crate::scripts::name::Name;
use std::alloc::Global;
use std::marker::Model;

/// A function's name and its number of arguments.
#[derive(Clone, Debug, Drop)]
pub struct FnName {
    pub name: Name,
    pub arity: u32,
}

/// At most 64 functions of at most 8 arguments, no two of one name and none of a built-in one.
#[derive(Debug, Drop)]
pub struct FnNames {
    items: Vec<FnName>,
}

impl Model for FnNames {
    ghost use Rattle.std.specs.Prelude.{List};
    ghost use Rattle.rdf_values.specs.declared.expressions.fn_names.FnName.{FnName};
    ghost use Rattle.rdf_values.specs.expressions.Functions.{AreFnNames};

    ghost Value = { List FnName };

    ghost view = { λ f. f.items.items };

    ghost invariant = { λ f. AreFnNames f.items.items };
}

/// Whether expressions have a built-in function of that name.
pub fn is_built_in(name: &[u8]) -> bool
    ensures { IsTrue result ↔ IsBuiltIn name.now }
{
    name == b"Sum".as_slice()
        || name == b"Min".as_slice()
        || name == b"Max".as_slice()
        || name == b"Size".as_slice()
        || name == b"Any".as_slice()
        || name == b"All".as_slice()
        || name == b"At".as_slice()
        || name == b"abs".as_slice()
}

impl FnNames {
    ghost use Rattle.rdf_values.specs.expressions.Functions.{AreFnNames, IsBuiltIn, LacksName};

    /// No functions.
    pub fn new(alloc: Global) -> FnNames
        ensures { result ≡ [] }
    {
        FnNames {
            items: Vec::new(alloc),
        }
    }

    /// How many functions there are.
    pub fn len(&self) -> usize
        ensures value { result ≡ length self.now }
        ensures valid { AreFnNames self.now }
    {
        self.items.len()
    }

    /// The functions in order.
    pub fn as_slice(&self) -> &[FnName]
        ensures value { result.now ≡ self.now }
        ensures valid { AreFnNames self.now }
    {
        self.items.as_slice()
    }

    /// The number of the function of that name.
    pub fn find(&self, name: &Name) -> Option<u32>
        ensures { MatchOption result (LacksName name.now self.now)
            (λ i. (i < length self.now) × HoldsAt (λ f. f.name ≡ name.now) self.now i) }
    {
        for i in 0..self.items.len() {
            if self.items[i].name.is(name) {
                return Some(i as u32);
            }
        }
        None
    }

    /// Adds a function, or hands its name back for want of memory.
    pub fn push(&mut self, name: Name, arity: u32) -> Result<(), Name>
        requires room { length self.old < 64 }
        requires arity { arity ≤ 8 }
        requires new { LacksName name self.old }
        requires not_built_in { IsBuiltIn name → ⊥ }
        ensures { MatchResult result (λ _. self.new ≡ self.old ++ record { name = name; arity = arity } ∷ [])
            (λ back. (self.new ≡ self.old) × (back ≡ name)) }
    {
        match self.items.push(FnName { name, arity }) {
            Ok(()) => Ok(()),
            Err(failed) => Err(failed.value.name),
        }
    }
}
