// Laws of what is due. Each function does nothing; its contract is the law, and its proof the law's.
ghost use Rattle.snapshot_due.specs.{SnapshotReadsBack, UntakenWordsAreDueUsage};

/// Words that aren't taken are due the usage line.
pub fn untaken_words_are_due_usage()
    ensures { UntakenWordsAreDueUsage }
{}

/// A text that is due as done reads back as the table of the entries that pass, with the columns that were asked for.
pub fn snapshot_reads_back()
    ensures { SnapshotReadsBack }
{}
