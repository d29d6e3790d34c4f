// What an event loop works on.
use columns::Columns;
use entry_fns::FnList;
use graph::Graph;

/// A loop of a graph, over the columns of a table, with the caller's functions.
#[derive(Clone, Copy)]
pub struct Job<'a> {
    pub graph: &'a Graph,
    pub loop_index: u32,
    pub columns: &'a Columns,
    pub functions: &'a FnList,
}
