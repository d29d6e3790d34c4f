// A law of the words. The function does nothing; its contract is the law.
ghost use Rattle.command_words.specs.{NumbersAreWithinLimits};

/// The numbers of each command that is asked for are within their limits.
pub fn numbers_are_within_limits()
    ensures { NumbersAreWithinLimits }
{}
