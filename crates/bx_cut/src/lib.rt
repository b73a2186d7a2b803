//! Splits the documents of requests into messages, and messages into members, without copying.
#![tactic(auto)]

mod bodies;
mod document;
mod error;
mod scan;
mod split;
mod string;

pub use bodies::Bodies;
pub use document::{Document, MAX_MESSAGES, Piece};
pub use error::CutError;
pub use split::{Elements, elements_of, member_of};
pub use string::{plain_text_of, spells, text_of};
