// What a run stands on besides its files.
use entry_fns::FnList;
use std::alloc::Global;

/// Threads, memory, the caller's functions, how the loops are done, and the gate before each cluster.
#[derive(Drop)]
pub(crate) struct Means<'a, R, G> {
    pub(crate) rt: &'a R,
    pub(crate) alloc: Global,
    pub(crate) functions: &'a FnList,
    pub(crate) settings: LoopSettings,
    pub(crate) gate: &'a G,
}

/// So many slots over clusters of at most `cluster` entries; watched results are noted after every `watch`-th cluster.
#[derive(Clone, Copy)]
pub(crate) struct LoopSettings {
    pub(crate) slots: u32,
    pub(crate) cluster: u32,
    pub(crate) watch: u32,
}
