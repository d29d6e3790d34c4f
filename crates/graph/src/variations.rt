// Variations in the order of their numbers.
ghost use Rattle.std.specs.Prelude.{◌≡◌, ◌<◌, ◌≤◌, ◌+◌, ◌++◌, List, length, Some, option_map, slice_get, IfOk, OnOk, OnErr};
ghost use Rattle.graph.specs.Rows.{is_taken, named};

use rdf_values::{Memory, Name};
use std::alloc::Global;
use std::marker::Model;

/// The name of a Vary and one of its tags.
#[derive(Drop)]
pub struct FullName {
    name: Name,
    tag: Name,
}

impl Model for FullName {
    ghost use Rattle.rdf_values.specs.{Variation};

    ghost Value = { Variation };

    ghost view = { λ f. record { name = f.name; tag = f.tag } };
}

/// Variations, numbered from 0: full names in the order of their adding.
#[derive(Drop)]
pub struct Variations {
    items: Vec<FullName>,
}

impl Model for Variations {
    ghost use Rattle.std.specs.Prelude.{◌≤◌, List, length};
    ghost use Rattle.rdf_values.specs.{Variation};

    ghost Value = { List Variation };

    ghost view = { λ v. v.items.items };

    ghost invariant = { λ v. length v.items.items ≤ 128 };
}

impl Variations {
    pub(crate) fn new(alloc: Global) -> Variations
        ensures { length result ≡ 0 }
    {
        Variations {
            items: Vec::new(alloc),
        }
    }

    /// How many there are.
    pub fn len(&self) -> u32
        ensures count { result ≡ length self.now }
        ensures few { result ≤ 128 }
    {
        self.items.len() as u32
    }

    pub(crate) fn has(&self, name: &Name) -> bool
        ensures { result ≡ is_taken self.now name.now }
    {
        // At most 128 are searched, and while booking alone.
        self.items.iter().any(|item| item.name.is(name))
    }

    /// The name of a variation's Vary.
    pub fn name(&self, v: u32) -> &Name
        requires { v < length self.now }
        ensures { option_map (λ x. x.name) (slice_get self.now v) ≡ Some result.now }
    {
        &self.items[v as usize].name
    }

    /// A variation's tag.
    pub fn tag(&self, v: u32) -> &Name
        requires { v < length self.now }
        ensures { option_map (λ x. x.tag) (slice_get self.now v) ≡ Some result.now }
    {
        &self.items[v as usize].tag
    }

    pub(crate) fn append(&mut self, mut more: Variations) -> Result<(), Memory>
        requires { length self.old + length more ≤ 128 }
        ensures added { OnOk result (self.new ≡ self.old ++ more) }
        ensures unchanged { OnErr result (self.new ≡ self.old) }
    {
        self.items.append(&mut more.items)?;
        Ok(())
    }
}

pub(crate) fn full_names(alloc: Global, name: &Name, tags: &[Name]) -> Result<Variations, Memory>
    requires { length tags.now ≤ 128 }
    ensures { IfOk result (λ v. v ≡ named name.now tags.now) }
{
    let mut items = Vec::new(alloc);
    for tag in tags {
        items.push(FullName {
            name: name.copy()?,
            tag: tag.copy()?,
        })?;
    }
    Ok(Variations { items })
}
