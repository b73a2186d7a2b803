ghost use Rattle.std.specs.Prelude.{◌≡◌};
ghost use Rattle.bx_entry.specs.Refusals.{refusal_reason, refusal_status};
ghost use Rattle.bx_entry.specs.declared.input.AdmitFault.TheVariants.{Memory};

use crate::access::Access;
use bx_cut::Bodies;
use bx_message::Status;
use std::alloc::{AllocError, AllocFailed};

/// A request as it arrived, with its documents still to be read.
#[derive(Drop)]
pub struct Arrival {
    /// In milliseconds since the server started.
    pub moment: u64,
    /// 128 random bits, for the client id of a session that the request opens.
    pub nonce: u128,
    pub access: Access,
    /// Still to be parsed as JSON.
    pub bodies: Bodies,
}

/// A request or a tick of the clock.
#[derive(Drop)]
pub enum Input {
    Post(Arrival),
    /// At this moment, in milliseconds since the server started.
    Tick(u64),
}

/// Why a request or a tick is rejected.
///
/// The variants are in the order of the tests, the first four each over all documents.
#[derive(Clone, Copy, Debug, PartialEq, Eq)]
pub enum Refusal {
    NotJson,
    /// Neither an object nor an array of objects.
    NotObject,
    /// The documents together have more than `MAX_MESSAGES` (256) messages.
    TooMany,
    /// A message has no `channel`, or one that is not a string.
    NoChannel,
    /// A message is to a broadcast channel that the read-only listener does not allow.
    Forbidden,
    /// The moment exceeds `MAX_MOMENT`, 2^62 milliseconds.
    BadMoment,
    /// The list would have more than `MAX_ENTRIES` (2^62) entries.
    Ended,
}

/// Why a request or a tick is not admitted. Nothing has changed.
#[derive(Clone, Copy, Debug, PartialEq, Eq)]
pub enum AdmitFault {
    Refused(Refusal),
    Memory,
}

impl From<AllocError> for AdmitFault {
    ghost from_gives = { λ _ fault. fault ≡ Memory };

    fn from(_error: AllocError) -> AdmitFault {
        AdmitFault::Memory
    }
}

impl<T: Drop> From<AllocFailed<T>> for AdmitFault {
    ghost from_gives = { λ _ fault. fault ≡ Memory };

    fn from(_error: AllocFailed<T>) -> AdmitFault {
        AdmitFault::Memory
    }
}

impl Refusal {
    /// Returns the reason in words. Policy of this server.
    pub fn reason(self) -> &'static str
        ensures { result.now ≡ refusal_reason self }
    {
        match self {
            Refusal::NotJson => "the messages are not JSON",
            Refusal::NotObject => "a message is not a JSON object",
            Refusal::TooMany => "too many messages in one request",
            Refusal::NoChannel => "a message has no channel",
            Refusal::Forbidden => "the listener is read-only",
            Refusal::BadMoment => "the clock is out of range",
            Refusal::Ended => "the list is full",
        }
    }

    /// Returns the HTTP status of the response. Policy of this server.
    pub fn status(self) -> Status
        ensures { result ≡ refusal_status self }
    {
        match self {
            Refusal::Forbidden => Status::Forbidden,
            Refusal::Ended => Status::Unavailable,
            Refusal::NotJson
            | Refusal::NotObject
            | Refusal::TooMany
            | Refusal::NoChannel
            | Refusal::BadMoment => Status::BadRequest,
        }
    }
}
