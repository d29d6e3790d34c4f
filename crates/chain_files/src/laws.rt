// Laws of part files. Each function does nothing; its contract is the law, and its proof the law's.
ghost use Rattle.chain_files.specs.Laws.{
  AcceptedCanJoin,
  CoveredAreNext,
  GroupsAreFree,
  JoinedIsPart,
  JoinedKeepsShape,
  JoiningIsAssociative,
  LeastIsUncovered,
  OrderIsKept,
  OrderKeepsFiles,
  TextBreaksNowhere,
  TextIsOfOnePart,
};

/// A text is of one part at most: what was printed reads as what it was printed from.
pub fn a_text_is_of_one_part()
    ensures { TextIsOfOnePart }
{}

/// No line of a part's text is refused.
pub fn a_text_breaks_nowhere()
    ensures { TextBreaksNowhere }
{}

/// Of three parts the first two may be joined first, or the last two.
pub fn joining_is_associative()
    ensures { JoiningIsAssociative }
{}

/// Parts in two groups come to the same as one after the other.
pub fn groups_are_free()
    ensures { GroupsAreFree }
{}

/// Two parts of the script's shape, of which the second begins where the first ends, come to a part.
pub fn joined_is_part()
    ensures { JoinedIsPart }
{}

/// Loops of the script's shape come to loops of that shape.
pub fn joined_keeps_shape()
    ensures { JoinedKeepsShape }
{}

/// Parts that were put in order are in order.
pub fn order_is_kept()
    ensures { OrderIsKept }
{}

/// A file is in as many parts in order as before.
pub fn order_keeps_files()
    ensures { OrderKeepsFiles }
{}

/// `first_uncovered` is the least file that isn't in just one of the parts.
pub fn least_is_uncovered()
    ensures { LeastIsUncovered }
{}

/// Where there is no such file, each part begins where the one before it ends.
pub fn covered_are_next()
    ensures { CoveredAreNext }
{}

/// Parts that nothing refuses can be joined in the order of their files.
pub fn accepted_can_join()
    ensures { AcceptedCanJoin }
{}
