// A law of shapes. The function does nothing; its contract is the law, and its proof the law's.
ghost use Rattle.graph_shapes.specs.{JoinedLoopsFit};

/// Shards that are merged by a graph's shapes can be printed for the graph.
pub fn joined_loops_fit()
    ensures { JoinedLoopsFit }
{}
