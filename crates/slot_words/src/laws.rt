// Laws of the first entries noted. The function does nothing; each clause is a law.
ghost use Rattle.slot_words.specs.{AsManyAsTheBound, HigherBoundKeeps};

/// As many clusters have a number less than a bound as the bound says, and those of a lower bound are among those of a higher one.
pub fn laws_hold<P>()
    ensures many { AsManyAsTheBound P }
    ensures higher { HigherBoundKeeps P }
{}
