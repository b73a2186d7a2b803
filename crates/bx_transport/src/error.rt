ghost use Rattle.std.specs.Prelude.{◌≡◌};
ghost use Rattle.bx_transport.specs.Statuses.{transport_reason, transport_status};
ghost use Rattle.bx_transport.specs.declared.error.TransportError.TheVariants.{Memory};

use bx_message::Status;
use std::alloc::{AllocError, AllocFailed};

/// Why the body of a POST or the query of a GET is rejected.
///
/// The variants are in the order in which they are tested, but memory can run out after any test.
#[derive(Clone, Copy, Debug, PartialEq, Eq)]
pub enum TransportError {
    /// More than [`bx_advice::BODY_LIMIT`] bytes.
    TooLarge,
    /// The name of a query's callback is not valid.
    BadName,
    /// There is no parameter `message`.
    NoMessage,
    Memory,
}

impl TransportError {
    /// Returns the reason in words. Policy of this server.
    pub fn reason(self) -> &'static str
        ensures { result.now ≡ transport_reason self }
    {
        match self {
            TransportError::TooLarge => "the request is too large",
            TransportError::BadName => "the name of the callback is not valid",
            TransportError::NoMessage => "the parameter message is missing",
            TransportError::Memory => "out of memory",
        }
    }

    /// Returns the HTTP status of the response. Policy of this server.
    pub fn status(self) -> Status
        ensures { result ≡ transport_status self }
    {
        match self {
            TransportError::TooLarge => Status::TooLarge,
            TransportError::BadName | TransportError::NoMessage => Status::BadRequest,
            TransportError::Memory => Status::Unavailable,
        }
    }
}

impl From<AllocError> for TransportError {
    ghost from_gives = { λ _ e. e ≡ Memory };

    fn from(_refused: AllocError) -> TransportError {
        TransportError::Memory
    }
}

impl<T: Drop> From<AllocFailed<T>> for TransportError {
    ghost from_gives = { λ _ e. e ≡ Memory };

    fn from(_refused: AllocFailed<T>) -> TransportError {
        TransportError::Memory
    }
}
