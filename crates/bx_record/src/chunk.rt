ghost use Rattle.std.specs.Prelude.{◌≡◌, ◌++◌, [], IsTrue};

/// A position in a text that grows at its end.
pub trait TextPosition: Drop {
    ghost use Rattle.std.specs.Prelude.{ℕ, List};

    /// Ghost: the text up to this position.
    ghost text: { Self → List ℕ };

    /// Ghost: whether the second position is a copy of the first.
    ghost is_copy: { Self → Self → Type 0 };

    /// Returns a copy of `self`.
    fn again(&self) -> Self
        ensures text { text result ≡ text self.now }
        ensures copy { is_copy self.now result };

    /// Returns `true` only if the texts up to `self` and up to `other` are the same.
    ///
    /// It is `true` if `other` is a copy of `self`.
    fn is_same(&self, other: &Self) -> bool
        ensures text { IsTrue result → text self.now ≡ text other.now }
        ensures copy { is_copy self.now other.now → IsTrue result };
}

/// The bytes of a text between two positions.
#[derive(Drop)]
pub struct Chunk<F: TextPosition> {
    pub(crate) from: F,
    pub(crate) to: F,
    pub(crate) bytes: Vec<u8>,
    ghost lines: { F.text to ≡ F.text from ++ bytes.items },
}

impl<F: TextPosition> Chunk<F> {
    /// Creates a chunk from `bytes`, the text between `from` and `to`.
    pub fn new(from: F, to: F, bytes: Vec<u8>) -> Chunk<F>
        requires { F.text to ≡ F.text from ++ bytes.items }
        ensures { (result.from ≡ from) × (result.to ≡ to) × (result.bytes ≡ bytes) }
    {
        Chunk { from, to, bytes }
    }

    /// Returns the position at its end.
    pub fn upto(&self) -> &F
        ensures { result.now ≡ self.now.to }
    {
        &self.to
    }

    /// Returns the bytes.
    pub fn bytes(&self) -> &[u8]
        ensures { result.now ≡ self.now.bytes.items }
    {
        self.bytes.as_slice()
    }

    /// Returns the buffer, which is then empty.
    pub(crate) fn into_empty(self) -> Vec<u8>
        ensures { result.items ≡ [] }
    {
        let Chunk { mut bytes, .. } = self;
        bytes.clear();
        bytes
    }
}
