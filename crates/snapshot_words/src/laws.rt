// A law of the words. The function does nothing; its contract is the law.
ghost use Rattle.snapshot_words.specs.{CommandsArePlans};

/// What is asked for is 1 to 64 columns by their names, and numbers within their limits.
pub fn commands_are_plans()
    ensures { CommandsArePlans }
{}
