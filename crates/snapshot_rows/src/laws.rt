// Laws of snapshots. Each function does nothing; its contract is the law, and its proof the law's.
ghost use Rattle.snapshot_rows.specs.{SnapshotFaultIsLeast, SnapshotHoldsWhatPassed, SnapshotIsATable, SnapshotReadsBack};

/// A snapshot of a booked graph over a table is a table itself, of no more entries.
pub fn snapshot_is_a_table()
    ensures { SnapshotIsATable }
{}

/// The text of a snapshot reads as that snapshot: what `table_of` says of the text's records.
pub fn snapshot_reads_back()
    ensures { SnapshotReadsBack }
{}

/// The entries of a snapshot are those that pass, in file order, each with what the columns come to.
pub fn snapshot_holds_what_passed()
    ensures { SnapshotHoldsWhatPassed }
{}

/// There is no snapshot exactly where an entry faults, and then the fault is that of the least such entry.
pub fn snapshot_fault_is_least()
    ensures { SnapshotFaultIsLeast }
{}
