// Columns that an expression may read.
ghost use Rattle.std.specs.Prelude.{◌≡◌, ℕ, List, [], ◌∷◌, ◌++◌, All, Ok, Err, IsOk, IfOk, IfNone, map, OnOk, OnErr, MatchOption, Result, find, nat_eq};
ghost use Rattle.std.specs.Option.{option_copied};
ghost use Rattle.rdf_values.specs.{ColType, column_kind, GraphCause, kinds_in, number_in, same, ScopeColumn};
ghost use Rattle.rdf_values.specs.declared.scripts.script_cause.GraphCause.TheVariants.{UnknownColumn};
ghost use Rattle.expr_check.specs.NumKinds.{number_kind};
ghost use Rattle.expr_check.specs.Scopes.{HaveOneKind, LacksColumn, NumberHasKind, NumbersHaveKinds, numbers_in};

use rdf_values::{ColType, Memory, Name};
use std::alloc::Global;
use std::marker::Model;

/// Columns that an expression may read, by their names and by their numbers.
pub trait ReadableColumns {
    ghost kind_named: { Self → List ℕ → Result ColType GraphCause };

    ghost number_named: { Self → List ℕ → ℕ };

    ghost kind_numbered: { Self → ℕ → Result ColType GraphCause };

    /// The kind and the number of the column of that name.
    fn column(&self, name: &Name) -> Option<(ColType, u32)>
        ensures { MatchOption result (kind_named self.now name.now ≡ Err UnknownColumn)
            (λ c. (kind_named self.now name.now ≡ Ok c.0) × (number_named self.now name.now ≡ c.1)) };

    /// The kinds of columns by their numbers, each of which a column has.
    fn kinds_of(&self, numbers: &[u32]) -> Result<Vec<ColType>, Memory>
        requires known { HaveOneKind (kind_named self.now) (number_named self.now) (kind_numbered self.now) → All (λ i. IsOk (kind_numbered self.now i)) numbers.now }
        ensures kinds { IfOk result (λ kinds. map (λ k. Ok k) kinds.items ≡ map (kind_numbered self.now) numbers.now) }
        ensures one_kind { HaveOneKind (kind_named self.now) (number_named self.now) (kind_numbered self.now) };
}

#[derive(Drop)]
struct ScopedColumn {
    name: Name,
    kind: ColType,
    number: u32,
}

impl Model for ScopedColumn {
    ghost use Rattle.rdf_values.specs.{ScopeColumn};

    ghost Value = { ScopeColumn };

    ghost view = { λ c. record { name = c.name; kind = c.kind; number = c.number } };
}

/// Columns by their names, each with its kind and a number. Columns of one number have one kind.
#[derive(Drop)]
pub struct Scope {
    alloc: Global,
    columns: Vec<ScopedColumn>,
}

impl Model for Scope {
    ghost use Rattle.std.specs.Prelude.{List};
    ghost use Rattle.rdf_values.specs.{ScopeColumn};
    ghost use Rattle.expr_check.specs.Scopes.{NumbersHaveKinds};

    ghost Value = { List ScopeColumn };

    ghost view = { λ s. s.columns.items };

    ghost invariant = { λ s. NumbersHaveKinds s.columns.items };
}

impl Scope {
    /// No columns.
    pub fn new(alloc: Global) -> Scope
        ensures { result ≡ [] }
    {
        Scope {
            alloc,
            columns: Vec::new(alloc),
        }
    }

    /// Adds a column. After want of memory the scope is as before.
    pub fn add(&mut self, name: &Name, kind: ColType, number: u32) -> Result<(), Memory>
        requires new { LacksColumn name.now self.old }
        requires one_kind { NumberHasKind number kind self.old }
        ensures ok { OnOk result (self.new ≡ self.old ++ record { name = name.now; kind = kind; number = number } ∷ []) }
        ensures err { OnErr result (self.new ≡ self.old) }
    {
        let name = name.copy()?;
        Ok(self.columns.push(ScopedColumn { name, kind, number })?)
    }

    fn named(&self, name: &Name) -> Option<&ScopedColumn>
        ensures { option_copied result ≡ find (λ c. same c.name name.now) self.now }
    {
        self.columns.iter().find(|c| c.name.is(name))
    }

    fn numbered(&self, number: u32) -> Option<&ScopedColumn>
        ensures { option_copied result ≡ find (λ c. nat_eq c.number number) self.now }
    {
        self.columns.iter().find(|c| c.number == number)
    }

    fn number_kind(&self, number: u32) -> Option<ColType>
        ensures { MatchOption result (number_kind (numbers_in self.now) number ≡ Err UnknownColumn)
            (λ kind. number_kind (numbers_in self.now) number ≡ Ok kind) }
    {
        match self.numbered(number) {
            None => None,
            Some(column) => Some(column.kind),
        }
    }

    /// The kind and the number of the column of that name.
    pub fn find(&self, name: &Name) -> Option<(ColType, u32)>
        ensures found { MatchOption result (column_kind (kinds_in self.now) name.now ≡ Err UnknownColumn)
            (λ c. (column_kind (kinds_in self.now) name.now ≡ Ok c.0) × (number_in self.now name.now ≡ c.1)) }
        ensures absent { IfNone result (LacksColumn name.now self.now) }
    {
        match self.named(name) {
            None => None,
            Some(column) => Some((column.kind, column.number)),
        }
    }
}

impl ReadableColumns for Scope {
    ghost kind_named = { λ s name. column_kind (kinds_in s) name };

    ghost number_named = { λ s name. number_in s name };

    ghost kind_numbered = { λ s number. number_kind (numbers_in s) number };

    fn column(&self, name: &Name) -> Option<(ColType, u32)> {
        self.find(name)
    }

    #[tactic(auto, using(crate::proofs::WellTyped::named_kind))]
    fn kinds_of(&self, numbers: &[u32]) -> Result<Vec<ColType>, Memory> {
        let mut kinds = Vec::new(self.alloc);
        for number in numbers {
            let Some(kind) = self.number_kind(*number) else {
                unreachable!();
            };
            kinds.push(kind)?;
        }
        Ok(kinds)
    }
}
