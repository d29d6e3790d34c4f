// Laws of chains and transcripts. Each function does nothing; its contract is the law, and its proof the law's.
ghost use Rattle.chain_transcripts.specs.{ChainPrintsTheTranscript, OneTablePrintsTheTranscript, PartsPrintTheTranscript};

/// The loops of a run over a chain print the transcript over the rows of all tables.
pub fn chain_prints_the_transcript()
    ensures { ChainPrintsTheTranscript }
{}

/// The loops of one table print its own transcript.
pub fn one_table_prints_the_transcript()
    ensures { OneTablePrintsTheTranscript }
{}

/// The joined loops of parts that hold each file once print the transcript over the rows of all tables.
pub fn parts_print_the_transcript()
    ensures { PartsPrintTheTranscript }
{}
