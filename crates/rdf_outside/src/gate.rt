// What a worker calls before each cluster.

/// A worker calls it before each cluster. It changes nothing that a contract sees. It may wait.
pub trait Gate: Send + Sync {
    /// The turn of a slot with a cluster.
    fn turn(&self, slot: u32, cluster: u32);
}

/// A gate that returns at once.
#[derive(Clone, Copy, Debug)]
pub struct OpenGate;

impl Gate for OpenGate {
    fn turn(&self, _slot: u32, _cluster: u32) {}
}

/// The threads on which slots run, and the gate that a slot calls before each cluster.
#[derive(Drop)]
pub struct Host<'a, R, G> {
    pub rt: &'a R,
    pub gate: &'a G,
}
