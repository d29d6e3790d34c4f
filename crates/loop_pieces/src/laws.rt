// Laws of pieces. The functions do nothing; each clause is a law.
ghost use Rattle.loop_pieces.specs.{AllClustersAreTheTable, FirstClusterHasFirstFault, JoinsFromEitherSide, JoinsInEitherOrder, LowerClustersFaultFirst, NoClusterIsNeutral, PieceHoldsCounts, PieceHoldsResults, PiecesOfOneSetAgree, WatchPieceIsPartialResult, WatchPiecesOfOneSetAgree};

use merge_core::Piece;

/// Pieces are joined in any order, and a piece of no cluster changes none.
pub fn joins_hold<P: Piece>()
    ensures neutral { (job : P.Job) → NoClusterIsNeutral (P.stands job) }
    ensures either_order { (job : P.Job) → JoinsInEitherOrder (P.stands job) }
    ensures either_side { (job : P.Job) → JoinsFromEitherSide (P.stands job) }
{}

/// What a piece of a loop shows is told by its clusters, the first cluster with a fault has the first fault of the table, and a piece
/// holds by itself what each pass comes to.
pub fn laws_hold()
    ensures one_set { PiecesOfOneSetAgree }
    ensures one_watched_set { WatchPiecesOfOneSetAgree }
    ensures first_fault { FirstClusterHasFirstFault }
    ensures lower_fault { LowerClustersFaultFirst }
    ensures table { AllClustersAreTheTable }
    ensures results { PieceHoldsResults }
    ensures counts { PieceHoldsCounts }
    ensures partial_result { WatchPieceIsPartialResult }
{}
