// Laws of stages. The function does nothing; each clause is a law.
ghost use Rattle.cluster_tally.specs.{BeginsBlock, EndsBlock, FreshHolds};

/// A fresh tally holds what no cluster gives; a block begins between two entries, and ends with so many more taken in.
pub fn laws_hold()
    ensures fresh { FreshHolds }
    ensures begins { BeginsBlock }
    ensures ends { EndsBlock }
{}
