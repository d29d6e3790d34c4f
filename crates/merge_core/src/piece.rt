// Pieces that slots make, and their joining.
ghost use Rattle.std.specs.Prelude.{ℕ, List, ◌∷◌, [], OnOk, ◌<◌, IfOk, length};
ghost use Rattle.rdf_values.specs.{IsUnion};
ghost use Rattle.merge_core.specs.{Stand};

use rdf_values::{ListOf, Memory};

/// What some of the clusters of a job came to.
pub trait Piece: Drop {
    /// Contracts alone name its values.
    type Job;

    /// The piece is what that set of clusters of the job comes to.
    ghost stands: { Self.Job → List ℕ → Self → Type 0 };

    /// Takes in a piece of other clusters of the same job; after `Memory` it is only dropped.
    fn join(&mut self, other: Self) -> Result<(), Memory>
        requires { (job : Self.Job) × (mine theirs all : List ℕ) × stands job mine self.old × stands job theirs other × IsUnion (mine ∷ theirs ∷ []) all }
        ensures { (job : Self.Job) (mine theirs all : List ℕ) → stands job mine self.old → stands job theirs other → IsUnion (mine ∷ theirs ∷ []) all → OnOk result (stands job all self.new) };
}

/// A cluster, and the piece that stands for it alone.
#[derive(Drop)]
pub struct Noted<P> {
    pub cluster: u32,
    pub piece: P,
}

/// The clusters of a slot in the order in which it finished them.
pub type Trail<P> = ListOf<Noted<P>>;

/// The trails of the slots, by their numbers.
pub type TrailList<P> = ListOf<Trail<P>>;

/// The piece of all clusters of the pieces, whatever their order.
#[tactic(auto, using(crate::proofs::Merging::merged_first))]
pub fn merge_all<P: Piece>(pieces: ListOf<P>) -> Result<P, Memory>
    requires some { 0 < length pieces }
    requires apart { (job : P.Job) × (sets : List (List ℕ)) × (all : List ℕ) × Stand (P.stands job) sets pieces × IsUnion sets all }
    ensures { (job : P.Job) (sets : List (List ℕ)) (all : List ℕ) → Stand (P.stands job) sets pieces → IsUnion sets all → IfOk result (λ piece. P.stands job all piece) }
{
    let mut left = pieces.into_vec();
    left.reverse();
    let Some(mut merged) = left.pop() else {
        unreachable!()
    };
    while let Some(piece) = left.pop() {
        merged.join(piece)?;
    }
    Ok(merged)
}
