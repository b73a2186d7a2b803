ghost use Rattle.std.specs.Prelude.{◌≡◌, ◌<◌, ◌==◌, ℕ, List, [], length, get_or};
ghost use Rattle.bx_cut.specs.Bodies.{texts_of};

/// The documents of one request, before they are parsed.
#[derive(Drop)]
pub enum Bodies {
    /// The whole body.
    Whole(Vec<u8>),
    /// Those of a form or a query, percent-decoded.
    Decoded(Vec<String>),
}

impl Bodies {
    /// Returns the number of documents.
    pub fn len(&self) -> usize
        ensures { result ≡ length (texts_of self.now) }
    {
        match self {
            Bodies::Whole(_) => 1,
            Bodies::Decoded(texts) => texts.len(),
        }
    }

    /// Returns `true` if there are no documents.
    pub fn is_empty(&self) -> bool
        ensures { result ≡ (length (texts_of self.now) == 0) }
    {
        self.len() == 0
    }

    /// Returns the bytes of document `index`, counted from 0.
    pub fn get(&self, index: usize) -> &[u8]
        requires { index < length (texts_of self.now) }
        ensures { result.now ≡ get_or (texts_of self.now) index [] }
    {
        match self {
            Bodies::Whole(body) => body.as_slice(),
            Bodies::Decoded(texts) => texts[index].as_bytes(),
        }
    }
}
