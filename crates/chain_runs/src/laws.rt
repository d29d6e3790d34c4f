// Laws of chains. Each function does nothing; its contract is the law, and its proof the law's.
ghost use Rattle.chain_runs.specs.Laws.{
  AllFilesAreTheChain,
  ChainsArePart,
  ChainsHaveShapes,
  ChainsJoin,
  FaultIsOfTheRows,
  LoopsJoin,
  OnlyFilesAreRefused,
  PartsJoinToOneRun,
  WrittenPartsReadBack,
};

/// The first fault of a chain, by file and entry, is the first fault of its rows.
pub fn fault_is_of_the_rows()
    ensures { FaultIsOfTheRows }
{}

/// What a run of an accepted script over a chain finds keeps each rule and limit of a part.
pub fn chains_are_part()
    ensures { ChainsArePart }
{}

/// The text of such a run is read as what the run found, and no line of it is refused.
pub fn written_parts_read_back()
    ensures { WrittenPartsReadBack }
{}

/// The loops of a run have the shapes of the script's passes.
pub fn chains_have_shapes()
    ensures { ChainsHaveShapes }
{}

/// The parts of two chains, one behind the other, join to the part of both.
pub fn chains_join()
    ensures { ChainsJoin }
{}

/// And so does each loop by itself.
pub fn loops_join()
    ensures { LoopsJoin }
{}

/// Parts of one script over files of one chain are joined, unless a file isn't covered once.
pub fn only_files_are_refused()
    ensures { OnlyFilesAreRefused }
{}

/// Parts whose files are covered once join to the part of one run over these files.
pub fn parts_join_to_one_run()
    ensures { PartsJoinToOneRun }
{}

/// The part over all files is the part of the chain.
pub fn all_files_are_the_chain()
    ensures { AllFilesAreTheChain }
{}
