//! Bodies of responses, written piece by piece.
#![tactic(auto)]

mod element;
mod laws;
mod pieces;
mod tail;

pub use laws::pieces_join;
pub use pieces::Pieces;
