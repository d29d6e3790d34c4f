// Expressions that have a kind.
ghost use Rattle.std.specs.Prelude.{◌≡◌, ◌↔◌, IsTrue, All, Ok, map, IfOk, IfErr};
ghost use Rattle.std.specs.List.{list_any};
ghost use Rattle.rdf_values.specs.{callee, columns_in, kind_by, renamed, shape_of};
ghost use Rattle.expr_check.specs.NumKinds.{distinct, IsTyped, IsWellTyped, CallsFit, HasNoVector, is_vector, is_plain};
ghost use Rattle.expr_check.specs.Scopes.{RefusedAs};

use crate::part::check_part;
use crate::reads::reads;
use crate::refusal::CheckRefusal;
use crate::scope::ReadableColumns;
use rdf_values::{ColType, Expr, FnNames, NumExpr};
use std::alloc::Global;
use std::marker::Model;

/// A numbered expression that is well typed. Contracts see it with the kinds of its columns and its own.
#[derive(Drop)]
pub struct Checked {
    expr: NumExpr,
    kind: ColType,
    reads: Vec<u32>,
    kinds: Vec<ColType>,
}

impl Model for Checked {
    ghost use Rattle.std.specs.Prelude.{◌≡◌, length};
    ghost use Rattle.std.specs.List.{zip};
    ghost use Rattle.std.specs.Coded.{codes};
    ghost use Rattle.rdf_values.specs.{num_code};
    ghost use Rattle.expr_check.specs.NumKinds.{CheckedExpr, checked_expr, IsTyped};

    ghost Value = { CheckedExpr };

    ghost coded = { Prim.hlevel (codes, num_code) };

    ghost view = { λ c. checked_expr c.expr (zip c.reads.items c.kinds.items) c.kind };

    ghost invariant = { λ c. (length c.kinds.items ≡ length c.reads.items) × IsTyped (checked_expr c.expr (zip c.reads.items c.kinds.items) c.kind) };
}

impl Checked {
    /// The numbered expression.
    pub fn tree(&self) -> &NumExpr
        ensures tree { result.now ≡ self.now.tree }
        ensures typed { IsTyped self.now }
    {
        &self.expr
    }

    /// The expression's kind.
    pub fn kind(&self) -> ColType
        ensures { result ≡ self.now.kind }
    {
        self.kind
    }

    /// Whether no part of the expression is a vector.
    pub fn plain(&self) -> bool
        ensures value { result ≡ is_plain self.now.kinds self.now.tree }
        ensures parts { (names : _) → IsWellTyped names self.now → (IsTrue result ↔ HasNoVector self.now.kinds names self.now.tree) }
    {
        !has_vector(self.kinds.as_slice())
    }

    /// The numbers of the columns that the expression names, each once, where it stands first.
    pub fn reads(&self) -> &[u32]
        ensures columns { result.now ≡ map (λ c. c.0) self.now.kinds }
        ensures order { result.now ≡ distinct (columns_in self.now.tree) }
    {
        self.reads.as_slice()
    }
}

fn has_vector(kinds: &[ColType]) -> bool
    ensures { result ≡ list_any is_vector kinds.now }
{
    kinds.iter().any(|kind| *kind == ColType::Vect)
}

/// The expression with its columns and functions numbered, or the first refusal: the parts of a node come from
/// left to right before the node itself, and a call's function and the number of its arguments before these.
pub fn check<C: ReadableColumns>(
    alloc: Global,
    expr: &Expr,
    columns: &C,
    names: &FnNames,
) -> Result<Checked, CheckRefusal>
    ensures kind { IfOk result (λ c. kind_by (C.kind_named columns.now) (shape_of names.now) expr.now ≡ Ok c.kind) }
    ensures tree { IfOk result (λ c. c.tree ≡ renamed (C.number_named columns.now) (callee names.now) expr.now) }
    ensures kinds { IfOk result (λ c. All (λ k. C.kind_numbered columns.now k.0 ≡ Ok k.1) c.kinds) }
    ensures typed { IfOk result (IsWellTyped names.now) }
    ensures calls { IfOk result (λ c. CallsFit names.now c.tree) }
    ensures refused { IfErr result (λ e. RefusedAs e (kind_by (C.kind_named columns.now) (shape_of names.now) expr.now)) }
{
    let part = check_part(alloc, &expr.node, columns, names)?;
    let reads = reads(alloc, &part.node)?;
    let kinds = columns.kinds_of(reads.as_slice())?;
    Ok(Checked {
        expr: NumExpr { node: part.node },
        kind: part.kind,
        reads,
        kinds,
    })
}
