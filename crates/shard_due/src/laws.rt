// Laws of what is due. Each function does nothing; its contract is the law, and its proof the law's.
ghost use Rattle.shard_due.specs.{MergingIsDueTheTranscript, UntakenWordsAreDueUsage};

/// Words that aren't taken are due the usage line.
pub fn untaken_words_are_due_usage()
    ensures { UntakenWordsAreDueUsage }
{}

/// Merging the files that runs over the spans of a table are due is due the transcript of one run over it.
pub fn merging_is_due_the_transcript()
    ensures { MergingIsDueTheTranscript }
{}
