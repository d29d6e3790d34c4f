// Nominal, or a variation by its name.
ghost use Rattle.std.specs.Prelude.{◌≡◌, ◌<◌, false, true, get_or, length, MatchOption};
ghost use Rattle.std.specs.List.{list_any};
ghost use Rattle.rdf_values.specs.{same_variation};
ghost use Rattle.snapshot_plan.specs.{is_under, IsNumber, no_variation, under_of};

use graph::Variations;
use rdf_values::Name;

/// The entries as they are, or under the variation of a Vary's name and a tag.
#[derive(Debug, Drop)]
pub enum Under {
    Nominal,
    Varied { name: Name, tag: Name },
}

// Whether the variation at that place has the name and the tag.
fn is_at(all: &Variations, v: u32, name: &Name, tag: &Name) -> bool
    requires { v < length all.now }
    ensures { result ≡ same_variation (record { name = name.now; tag = tag.now }) (get_or all.now v no_variation) }
{
    name.is(all.name(v)) && tag.is(all.tag(v))
}

// The place of the variation of that name and tag.
fn place_of(all: &Variations, name: &Name, tag: &Name) -> Option<u32>
    ensures { MatchOption result (list_any (same_variation (record { name = name.now; tag = tag.now })) all.now ≡ false)
        (λ v. (v < length all.now) × (same_variation (record { name = name.now; tag = tag.now }) (get_or all.now v no_variation) ≡ true)) }
{
    for v in 0..all.len() {
        if is_at(all, v, name, tag) {
            return Some(v);
        }
    }
    None
}

/// The number of the variation, and none for nominal; nothing where there is no such variation.
pub(crate) fn number_under(all: &Variations, under: &Under) -> Option<Option<u32>>
    ensures { MatchOption result (is_under all.now (under_of under.now) ≡ false) (λ n. IsNumber all.now n (under_of under.now)) }
{
    match under {
        Under::Nominal => Some(None),
        Under::Varied { name, tag } => match place_of(all, name, tag) {
            Some(v) => Some(Some(v)),
            None => None,
        },
    }
}
