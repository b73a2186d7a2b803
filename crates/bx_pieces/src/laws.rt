ghost use Rattle.bx_pieces.specs.Laws.{PiecesJoin};

/// Proves that the frames of a body join to its text, if it was read to its end without errors.
#[tactic(auto, using(crate::proofs::Joined::pieces_join))]
pub fn pieces_join()
    ensures { PiecesJoin }
{}
