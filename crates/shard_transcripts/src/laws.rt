// Laws of shards and transcripts. Each function does nothing; its contract is the law, and its proof the law's.
ghost use Rattle.shard_transcripts.specs.{MergedRunPrintsNoPartials, MergedRunPrintsTheTranscript, ShardsMergeToTheTranscript};

/// The loops of one run over all clusters print the transcript of separate passes.
pub fn merged_run_prints_the_transcript()
    ensures { MergedRunPrintsTheTranscript }
{}

/// And so without partial lines, whatever partial results the script asks for.
pub fn merged_run_prints_no_partials()
    ensures { MergedRunPrintsNoPartials }
{}

/// The joined loops of shards whose spans hold each cluster once print the transcript of separate passes.
pub fn shards_merge_to_the_transcript()
    ensures { ShardsMergeToTheTranscript }
{}
