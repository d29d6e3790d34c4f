// Laws of lines. Each function does nothing; its contract is the law, and its proof the law's.
ghost use Rattle.shard_lines.specs.{LinesReadBack, ReadLinesFit};

/// The words of a line within the limits are read as that line.
pub fn lines_read_back()
    ensures { LinesReadBack }
{}

/// Words that are read as a line are its words, and it is within the limits.
pub fn read_lines_fit()
    ensures { ReadLinesFit }
{}
