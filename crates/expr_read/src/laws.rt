// What holds of the grammar of expressions and of its scan; the functions do nothing, and their contracts are the laws.
ghost use Rattle.std.specs.Prelude.{◌≡◌, ◌⊎◌, ℕ, List};
ghost use Rattle.rdf_values.specs.{bare, begin_expr, begin_values, NamedTree, Placed, Reads, ReadsText, ReadsValues, ReadsValuesText, Refusal, RefusesText, RefusesValuesText, scan, VaryValues, Whole};

/// A text reads as one expression at most, and as one value at most.
#[tactic(auto, using(crate::proofs::Decided::read_once))]
pub fn one_tree()
    ensures expr { (text : List ℕ) (a b : NamedTree) → ReadsText text a → ReadsText text b → a ≡ b }
    ensures values { (text : List ℕ) (v w : VaryValues) → ReadsValuesText text v → ReadsValuesText text w → v ≡ w }
{}

/// Tokens read exactly where the scan refuses none of them and ends with nothing wanted but an operator and nothing open.
#[tactic(auto, using(crate::proofs::WholeReads::whole, crate::proofs::WholeReads::reads_expr, crate::proofs::WholeReads::whole_values, crate::proofs::WholeReads::reads_values))]
pub fn scan_decides()
    ensures taken { (ts : List Placed) (a : NamedTree) → Reads 0 (bare ts) a → scan begin_expr ts ≡ Whole }
    ensures reads { (ts : List Placed) → scan begin_expr ts ≡ Whole → (a : NamedTree) × Reads 0 (bare ts) a }
    ensures values_taken { (ts : List Placed) (v : VaryValues) → ReadsValues (bare ts) v → scan begin_values ts ≡ Whole }
    ensures values_read { (ts : List Placed) → scan begin_values ts ≡ Whole → (v : VaryValues) × ReadsValues (bare ts) v }
{}

/// Each text reads as an expression or has one refusal, and not both; so it is with values.
pub fn one_answer()
    ensures answered { (text : List ℕ) → ((a : NamedTree) × ReadsText text a) ⊎ ((r : Refusal) × RefusesText text r) }
    ensures not_both { (text : List ℕ) (a : NamedTree) (r : Refusal) → ReadsText text a → RefusesText text r → ⊥ }
    ensures one_refusal { (text : List ℕ) (r s : Refusal) → RefusesText text r → RefusesText text s → r ≡ s }
    ensures values_answered { (text : List ℕ) → ((v : VaryValues) × ReadsValuesText text v) ⊎ ((r : Refusal) × RefusesValuesText text r) }
    ensures values_not_both { (text : List ℕ) (v : VaryValues) (r : Refusal) → ReadsValuesText text v → RefusesValuesText text r → ⊥ }
    ensures values_one_refusal { (text : List ℕ) (r s : Refusal) → RefusesValuesText text r → RefusesValuesText text s → r ≡ s }
{}
