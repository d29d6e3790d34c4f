// Sets of variations of versions, sites and filters.
ghost use Rattle.std.specs.Prelude.{◌≡◌, ◌<◌, ◌≤◌, ◌||◌, ℕ, false, nat_eq, ◌+◌, map, length, IfOk};
ghost use Rattle.graph.specs.{has, members_below, any_has, has_at, is_among_own, AreSets, read_sets, scope_before, set_changed, variation_count};
ghost use Rattle.rdf_values.specs.{column_kind, kind_or_int};

use crate::before::Before;
use crate::tables::Change;
use expr_check::Checked;
use rdf_values::{ColType, Memory};

/// A set of numbers below 128.
#[derive(Clone, Copy, Debug, PartialEq, Eq)]
pub struct VarSet {
    bits: u128,
}

impl VarSet {
    /// No numbers.
    #[tactic(auto, using(crate::proofs::Listing::none_in))]
    pub fn empty() -> VarSet
        ensures { (v : ℕ) → has result v ≡ false }
    {
        VarSet { bits: 0 }
    }

    #[tactic(auto, using(crate::proofs::Listing::more_in))]
    fn with(self, v: u32) -> VarSet
        requires { v < 128 }
        ensures { (u : ℕ) → has result u ≡ (nat_eq u v || has self u) }
    {
        VarSet {
            bits: self.bits | (1 << v),
        }
    }

    /// The numbers of either set.
    #[tactic(auto, using(crate::proofs::Listing::either_in))]
    pub fn union(self, other: VarSet) -> VarSet
        ensures { (v : ℕ) → has result v ≡ (has self v || has other v) }
    {
        VarSet {
            bits: self.bits | other.bits,
        }
    }

    /// Whether the number is in the set.
    pub fn contains(self, v: u32) -> bool
        requires { v < 128 }
        ensures { result ≡ has self v }
    {
        (self.bits >> v) & 1 == 1
    }

    /// How many numbers are in the set.
    #[tactic(auto, using(crate::proofs::Listing::counted_all))]
    pub fn count(self) -> u32
        ensures members { result ≡ members_below self 128 }
        ensures bound { result ≤ 128 }
        ensures above { (v : ℕ) → 128 ≤ v → has self v ≡ false }
    {
        self.bits.count_ones()
    }

    /// How many numbers of the set are below a number.
    #[tactic(auto, using(crate::proofs::Listing::below_few, crate::proofs::Listing::counted, crate::proofs::Listing::one_at_least))]
    pub fn count_below(self, v: u32) -> u32
        requires { v < 128 }
        ensures value { result ≡ members_below self v }
        ensures bound { result ≤ v }
    {
        (self.bits & ((1 << v) - 1)).count_ones()
    }
}

pub(crate) fn set_at(sets: &[VarSet], place: usize) -> VarSet
    ensures { (v : ℕ) → has result v ≡ has_at sets.now place v }
{
    sets.get(place).copied().unwrap_or(VarSet::empty())
}

pub(crate) fn set_of(sets: &[VarSet], places: &[u32]) -> VarSet
    ensures { (v : ℕ) → has result v ≡ any_has sets.now places.now v }
{
    let Some((first, rest)) = places.split_first() else {
        return VarSet::empty();
    };
    set_at(sets, *first as usize).union(set_of(sets, rest))
}

fn own_set(first: u32, count: u32) -> VarSet
    requires { first + count ≤ 128 }
    ensures { (v : ℕ) → has result v ≡ is_among_own first count v }
{
    let mut set = VarSet::empty();
    for v in first..first + count {
        set = set.with(v);
    }
    set
}

/// The variations on which expressions depend, by the sets of the versions so far.
#[tactic(auto, using(crate::proofs::Listing::set_more, crate::proofs::Listing::any_distinct))]
pub(crate) fn sets_of(before: &Before<'_>, sites: &[Checked]) -> Result<Vec<VarSet>, Memory>
    ensures { IfOk result (λ sets. AreSets (read_sets before.now.tables.now.version_sets.items sites.now) sets.items) }
{
    let versions = before.tables.version_sets.as_slice();
    let mut sets = Vec::new(before.alloc);
    for site in sites {
        sets.push(set_of(versions, site.reads()))?;
    }
    Ok(sets)
}

/// What the columns that a Vary changes depend on: the Vary's own variations, and what the versions below do.
#[tactic(auto, using(crate::proofs::Listing::set_more))]
pub(crate) fn changed_sets(before: &Before<'_>, change: &Change<'_>) -> Result<Vec<VarSet>, Memory>
    requires { variation_count before.now + length change.now.tags.now ≤ 128 }
    ensures { IfOk result (λ sets. AreSets (map (set_changed before.now change.now.parent.now (length change.now.tags.now)) change.now.columns.now) sets.items) }
{
    let own = own_set(before.tables.variations.len(), change.tags.len() as u32);
    let versions = before.tables.version_sets.as_slice();
    let mut sets = Vec::new(before.alloc);
    for column in change.columns {
        let below = before.named_version(change.parent, column);
        sets.push(own.union(set_at(versions, below as usize)))?;
    }
    Ok(sets)
}

pub(crate) fn kinds_at(before: &Before<'_>, change: &Change<'_>) -> Result<Vec<ColType>, Memory>
    ensures { IfOk result (λ found. found.items ≡ map (λ c. kind_or_int (column_kind (scope_before before.now change.now.parent.now) c)) change.now.columns.now) }
{
    let columns = change.columns.iter();
    let kinds = columns.map(|column| before.kind_at(change.parent, column));
    Ok(kinds.collect(before.alloc)?)
}
