// A law of the sets of variations: the function does nothing; its contract is the law, and its proof the law's.
ghost use Rattle.graph.specs.{VersionsDependAsColumns};

/// A visible column depends on the variations on which its version does.
#[tactic(auto, using(crate::proofs::Depending::versions_depend))]
pub fn versions_depend_as_columns()
    ensures { VersionsDependAsColumns }
{}
