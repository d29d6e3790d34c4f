// Laws of a table's text. Each function does nothing; its contract is the law, and its proof the law's.
ghost use Rattle.snapshot_text.specs.{PartsJoin, TextReadsBack};

/// The text of a table reads as that table: what `table_of` says of the text's records.
pub fn text_reads_back()
    ensures { TextReadsBack }
{}

/// Texts of entries that are put together in order are the text of all of them, so slots may write cluster by cluster.
pub fn parts_join()
    ensures { PartsJoin }
{}
