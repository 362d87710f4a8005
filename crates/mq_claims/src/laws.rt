//! Laws of the claim machine. The functions do nothing: what they ensure is the law.

ghost use Rattle.mq_claims.specs.MachineLaws.{EachIsClaimedOnce, AllIsDone, PiecesAreCounted, ClaimsAreBounded};

/// In each state of each run, a piece with a number below `next` was claimed by one worker, once, and each other piece
/// waits (docs/MEANING.md, "The claim board").
pub fn each_is_claimed_once<P>()
    ensures { EachIsClaimedOnce P }
{}

/// Where a run leaves worker 0 alone, and it was told none, `next` has passed the last piece, each piece is done, and
/// its content is that of its one put (docs/MEANING.md, "The claim board").
pub fn all_is_done_at_the_end<P>()
    ensures { AllIsDone P }
{}

/// The pieces done and the pieces in hand are together as many as were claimed
/// (docs/MEANING.md, "The claim board").
pub fn pieces_are_counted<P>()
    ensures { PiecesAreCounted P }
{}

/// In each state of each run, the claim word passes the last piece once for each worker that was told that nothing is left, and there
/// are no more workers than seats (docs/MEANING.md, "The claim board").
pub fn claims_are_bounded<P>()
    ensures { ClaimsAreBounded P }
{}
