// Laws of runs. Each function does nothing; its contract is the law, and its proof the law's.
ghost use Rattle.shard_runs.specs.{OnlyCoverIsRefused, RunsAreShards, RunsHaveShapes, RunsMergeToOneRun, WrittenRunsMergeToOneRun, WrittenRunsReadBack};

/// What a run of an accepted script over a span of clusters finds keeps each rule and limit of a shard.
pub fn runs_are_shards()
    ensures { RunsAreShards }
{}

/// The text of such a run is read as what the run found, and no line of it is refused.
pub fn written_runs_read_back()
    ensures { WrittenRunsReadBack }
{}

/// The loops of a run have the shapes of the script's passes.
pub fn runs_have_shapes()
    ensures { RunsHaveShapes }
{}

/// Runs of one script over spans of one cutting are merged, unless a cluster isn't covered once.
pub fn only_cover_is_refused()
    ensures { OnlyCoverIsRefused }
{}

/// Runs over spans that hold each cluster once are merged to one run over all clusters.
pub fn runs_merge_to_one_run()
    ensures { RunsMergeToOneRun }
{}

/// And so are the shards that are read of the texts of such runs.
pub fn written_runs_merge_to_one_run()
    ensures { WrittenRunsMergeToOneRun }
{}
