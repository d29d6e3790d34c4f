// What a snapshot is made of.
use columns::Columns;
use entry_fns::FnList;
use snapshot_plan::SnapPlan;

/// A plan, over the columns of a table, with the caller's functions.
#[derive(Clone, Copy)]
pub struct SnapJob<'a> {
    pub plan: &'a SnapPlan,
    pub columns: &'a Columns,
    pub functions: &'a FnList,
}
