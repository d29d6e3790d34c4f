// Laws of what is due. Each function does nothing; its contract is the law, and its proof the law's.
ghost use Rattle.chain_due.specs.{UntakenWordsAreDueUsage};

/// Words that aren't taken are due the usage line.
pub fn untaken_words_are_due_usage()
    ensures { UntakenWordsAreDueUsage }
{}
