// A law of what is printed. The function does nothing; its contract is the law, and its proof the law's.
ghost use Rattle.chain_text.specs.{ShapedLoopsFit};

/// The loops of a part that have the shapes of a graph's passes can be printed for the graph.
pub fn shaped_loops_fit()
    ensures { ShapedLoopsFit }
{}
