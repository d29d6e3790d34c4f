// Laws of spans. Each function does nothing; its contract is the law, and its proof the law's.
ghost use Rattle.shard_spans.specs.{FirstFaultyClusterHasTheFault, JoinedLinesAreOfBoth, ShardsJoinToOneRun};

/// The first fault of a span is that of the first of its clusters with a fault.
pub fn first_faulty_cluster_has_the_fault_of_its_span()
    ensures { FirstFaultyClusterHasTheFault }
{}

/// The joined line of two runs is that of one run over the rows of both.
pub fn joined_lines_are_of_both()
    ensures { JoinedLinesAreOfBoth }
{}

/// The loops of shards whose spans hold each cluster once are joined to those of one run over all clusters.
pub fn shards_join_to_one_run()
    ensures { ShardsJoinToOneRun }
{}
