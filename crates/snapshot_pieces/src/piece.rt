// The records of a cluster.
use rdf_values::Text;

/// A cluster's number, and the records of those of its entries that passed.
#[derive(Drop)]
pub struct TextPiece {
    pub cluster: u32,
    pub text: Text,
}
