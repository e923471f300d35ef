//! Laws of extents and of chains, each as a function with nothing to do.
ghost use Rattle.log_extents.specs.Laws.{OneExtent, ExtentLength, PiecesJoined, PiecesCounted, CountJoined, ChainHoldsPieces, OneChain};

/// Bytes are at most one extent, and these have 8,192.
pub fn one_extent()
    ensures one { OneExtent }
    ensures len { ExtentLength }
{}

/// The parts of a content are as many as are counted, and joined they are the content.
pub fn pieces_joined()
    ensures joined { PiecesJoined }
    ensures counted { PiecesCounted }
{}

/// Contents joined take no more extents than each of them alone.
pub fn count_joined()
    ensures { CountJoined }
{}

/// Extents are at most one chain, and its extents hold the parts of its content.
pub fn one_chain()
    ensures pieces { ChainHoldsPieces }
    ensures one { OneChain }
{}
