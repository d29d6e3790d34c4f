// The laws: how a cluster is cut into blocks, where its first fault is, and how much is evaluated.
ghost use Rattle.block_laws.specs.{BlocksGoOn, BlockThenRest, CountGoesOn, FirstBlockIsWhole, MarkedAreWithin, PlainBlocksAreEven};

/// It does nothing: its contract is the laws, which the modules of `specs` state and explain, and its proof theirs.
pub fn laws_hold()
    ensures blocks_go_on { BlocksGoOn }
    ensures first_block_is_whole { FirstBlockIsWhole }
    ensures plain_blocks_are_even { PlainBlocksAreEven }
    ensures block_then_rest { BlockThenRest }
    ensures count_goes_on { CountGoesOn }
    ensures marked_are_within { MarkedAreWithin }
{}
