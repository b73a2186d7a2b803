ghost use Rattle.std.specs.Prelude.{◌≡◌};
ghost use Rattle.bx_names.specs.declared.error.NameError.TheVariants.{Memory};

use std::alloc::AllocError;
use thiserror::Error;

/// Why a text is not a channel name or a pattern.
///
/// The variants are in the order in which they are tested.
#[derive(Clone, Copy, Debug, PartialEq, Eq, Hash, Error)]
pub enum NameError {
    /// The text does not begin with a slash.
    #[error("the name does not begin with a slash")]
    NoSlash,
    /// Two slashes follow each other, or the text ends with one.
    #[error("the name has an empty segment")]
    EmptySegment,
    /// A control byte, a space or DEL. Policy of this server.
    #[error("the name has a control byte or a space")]
    BadByte,
    /// A star that is not a wildcard: `*` or `**` as the last segment of a pattern.
    #[error("the name has a star out of place")]
    Wild,
    /// More than `MAX_NAME_BYTES` bytes.
    #[error("the name has too many bytes")]
    TooLong,
    /// More than `MAX_NAME_SEGMENTS` segments.
    #[error("the name has too many segments")]
    TooDeep,
    #[error("out of memory")]
    Memory,
}

impl From<AllocError> for NameError {
    ghost from_gives = { λ _ e. e ≡ Memory };

    fn from(_refused: AllocError) -> NameError {
        NameError::Memory
    }
}
