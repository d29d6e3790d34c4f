// Laws of what is due. Each function does nothing; its contract is the law, and its proof the law's.
ghost use Rattle.chain_laws.specs.{PrintIsDueTheTranscript, RunIsDueTheTranscript};

/// A run over tables is due the transcript over the rows of all of them, up to the place in a fault's line.
pub fn run_is_due_the_transcript()
    ensures { RunIsDueTheTranscript }
{}

/// Printing parts of a run, joined in whatever groups, is due the same transcript.
pub fn print_is_due_the_transcript()
    ensures { PrintIsDueTheTranscript }
{}
