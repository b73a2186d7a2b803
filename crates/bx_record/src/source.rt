ghost use Rattle.std.specs.Prelude.{◌≡◌, []};

use crate::chunk::{Chunk, TextPosition};

/// The text taken from a [`Source`], and whether the text may grow further.
#[derive(Drop)]
pub struct TakenText<F: TextPosition, E> {
    pub chunk: Chunk<F>,
    /// Why the text ends after `chunk`, unless it may grow.
    pub fault: Option<E>,
}

/// A growing text that waits to be written, and lines of answers, which are not part of it.
pub trait Source {
    /// A position in the text.
    type TextPosition: TextPosition;

    /// Why the text ends.
    type Fault: Drop;

    /// Returns how many bytes of text wait.
    fn waiting(&self) -> usize;

    /// Takes all waiting text, unless the text has ended, and leaves `empty` in its place.
    fn take(&mut self, empty: Vec<u8>) -> Option<TakenText<Self::TextPosition, Self::Fault>>
        requires empty { empty.items ≡ [] };

    /// Takes all waiting lines of answers, and leaves `empty` in their place.
    ///
    /// The request of each answer is in text that was taken before, or that the next call of
    /// [`take`](Self::take) takes. If the text ends, it may lack the requests of some answers.
    fn take_answers(&mut self, empty: Vec<u8>) -> Vec<u8>
        requires empty { empty.items ≡ [] };

    /// Ends the text and the answers, and drops everything that waits to be written.
    fn stop(&mut self);
}
