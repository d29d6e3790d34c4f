// The columns over one cluster.
ghost use Rattle.std.specs.Prelude.{◌≡◌, ◌≤◌, ◌<◌, ◌-◌, Some, length, slice_get};
ghost use Rattle.columns.specs.Packings.{AreInts};
ghost use Rattle.rdf_values.specs.{cut, kind_at};
ghost use Rattle.rdf_values.specs.declared.tables.value.ColType.TheVariants as k;

use crate::columns::Columns;
use rdf_values::Span;

/// A reader of the entries of one cluster, which looks the cluster up once.
#[derive(Clone, Copy)]
pub struct Over<'a> {
    columns: &'a Columns,
    cluster: u32,
    span: Span,
    ghost there: { slice_get (cut columns.now.cuts.entries columns.now.cuts.size columns.now.cuts.marks) cluster ≡ Some span },
    ghost whole: { columns.now.cuts.entries ≡ length columns.now.table.rows },
}

impl Columns {
    /// The columns over a cluster.
    pub fn over(&self, cluster: u32) -> Over<'_>
        requires { cluster < length (cut self.now.cuts.entries self.now.cuts.size self.now.cuts.marks) }
        ensures columns { result.columns.now ≡ self.now }
        ensures span { slice_get (cut self.now.cuts.entries self.now.cuts.size self.now.cuts.marks) cluster ≡ Some result.span }
    {
        Over {
            columns: self,
            cluster,
            span: self.cuts().range(cluster),
        }
    }
}

impl Over<'_> {
    /// The cluster's entries.
    pub fn span(&self) -> Span
        ensures { result ≡ self.now.span }
    {
        self.span
    }

    /// Reads the numbers of entries of the cluster in an int column.
    pub fn read(&self, entries: Span, col: u32, numbers: &mut [i64])
        requires from { self.now.span.lo ≤ entries.lo }
        requires within { entries.hi ≤ self.now.span.hi }
        requires room { entries.hi - entries.lo ≤ length numbers.old }
        requires column { kind_at self.now.columns.now.table.columns col ≡ Some k.Int }
        ensures { AreInts self.now.columns.now.table entries.lo (entries.hi - entries.lo) col numbers.new }
    {
        if entries.lo < entries.hi {
            let from = entries.lo - self.span.lo;
            let count = entries.hi - entries.lo;
            self.columns.ints(col).read(
                self.cluster as usize,
                from as usize,
                &mut numbers[..count as usize],
            );
        }
    }
}
