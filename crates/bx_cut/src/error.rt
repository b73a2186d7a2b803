ghost use Rattle.std.specs.Prelude.{◌≡◌};
ghost use Rattle.bx_cut.specs.declared.error.CutError.TheVariants.{Memory};

use std::alloc::{AllocError, AllocFailed};
use thiserror::Error;

/// Why a document cannot be split into messages.
///
/// The variants are in the order in which they are tested, except `Memory`.
#[derive(Clone, Copy, Debug, PartialEq, Eq, Error)]
pub enum CutError {
    /// Not UTF-8, or not JSON that `serde_json` accepts.
    ///
    /// It also rejects more than 127 levels of arrays and objects, and numbers beyond 64-bit
    /// floats.
    #[error("the body is not JSON")]
    NotJson,
    /// Neither an object nor an array of objects. Bayeux 1.0, messages.
    #[error("a message is not an object")]
    NotObject,
    /// More than `MAX_MESSAGES` objects. Policy of this server.
    #[error("too many messages")]
    TooMany,
    #[error("out of memory")]
    Memory,
}

impl From<AllocError> for CutError {
    ghost from_gives = { λ _ e. e ≡ Memory };

    fn from(_refused: AllocError) -> CutError {
        CutError::Memory
    }
}

impl<T: Drop> From<AllocFailed<T>> for CutError {
    ghost from_gives = { λ _ e. e ≡ Memory };

    fn from(_refused: AllocFailed<T>) -> CutError {
        CutError::Memory
    }
}
