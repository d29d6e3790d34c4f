// One table of a chain.
use columns::Columns;
use entry_fns::FnList;
use graph::Graph;

/// A graph over the columns of one table, which is that file of the chain; so many slots share its clusters out.
#[derive(Clone, Copy)]
pub struct TableRun<'a> {
    pub graph: &'a Graph,
    pub columns: &'a Columns,
    pub functions: &'a FnList,
    pub file: u32,
    pub slots: u32,
}
