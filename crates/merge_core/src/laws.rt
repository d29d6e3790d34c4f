// Laws of the machine. The function does nothing; each clause is a law.
ghost use Rattle.merge_core.specs.{EachIsDrawnOnce, FirstFaultIsTold};

/// The clusters that were claimed are drawn, each once. Once every slot is over, the fault at the least entry is the first; without
/// one, every cluster is finished.
pub fn laws_hold()
    ensures drawn { EachIsDrawnOnce }
    ensures first { FirstFaultIsTold }
{}
