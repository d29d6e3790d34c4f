// Faults in a chain.
use rdf_values::EntryFault;

/// A fault, by the number of its file in the chain and that of its entry in the file.
#[derive(Clone, Copy, Debug, PartialEq, Eq)]
pub struct ChainFault {
    pub file: u32,
    pub entry: u32,
    pub pass: u32,
    pub kind: EntryFault,
}
