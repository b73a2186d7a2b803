ghost use Rattle.std.specs.Prelude.{◌≡◌};
ghost use Rattle.bx_message.specs.Statuses.{code_of};
ghost use Rattle.bx_service.specs.Errors.{error_reason, error_status, of_collect};

use crate::collect::CollectError;
use bx_hub::PostFault;
use bx_message::Status;
use bx_transport::TransportError;
use http::StatusCode;

/// Why the response to a request has no items. Policy of this server.
#[derive(Clone, Copy, Debug, PartialEq, Eq)]
pub enum RequestError {
    /// The path is neither `/cometd` nor below it.
    NotFound,
    /// The method is neither POST nor GET.
    MethodNotAllowed,
    /// The request has a `Transfer-Encoding` other than one `chunked`.
    TransferCoding,
    /// A GET, although the service accepts only [`Transports::JsonPosts`].
    CallbackPolling,
    /// A POST of another media type than `application/json`, with the same setting.
    MediaType,
    /// The body of a POST ended early, for example with its connection.
    BodyFailed,
    /// The body or the query cannot be read.
    Unreadable(TransportError),
    /// The request was not admitted.
    NotAdmitted(PostFault),
    /// The request was admitted, but the server gives no answer.
    Unanswered,
    /// The request was admitted, but memory ran out for its response.
    Memory,
}

impl RequestError {
    /// Returns the reason in words. Policy of this server.
    pub fn reason(self) -> &'static str
        ensures { result.now ≡ error_reason self }
    {
        match self {
            RequestError::NotFound => "Bayeux is at /cometd",
            RequestError::MethodNotAllowed => "the method is neither GET nor POST",
            RequestError::TransferCoding => "the transfer coding is not chunked",
            RequestError::CallbackPolling => "callback-polling is off",
            RequestError::MediaType => "the content type is not application/json",
            RequestError::BodyFailed => "the body ended early",
            RequestError::Unreadable(error) => error.reason(),
            RequestError::NotAdmitted(fault) => fault.reason(),
            RequestError::Unanswered => "the answer is unavailable",
            RequestError::Memory => "out of memory",
        }
    }

    /// Returns the HTTP status of the response. Policy of this server.
    pub fn status(self) -> Status
        ensures { result ≡ error_status self }
    {
        match self {
            RequestError::NotFound => Status::NotFound,
            RequestError::MethodNotAllowed => Status::MethodNotAllowed,
            RequestError::TransferCoding => Status::NotImplemented,
            RequestError::CallbackPolling => Status::Forbidden,
            RequestError::MediaType => Status::UnsupportedMediaType,
            RequestError::BodyFailed => Status::BadRequest,
            RequestError::Unreadable(error) => error.status(),
            RequestError::NotAdmitted(fault) => fault.status(),
            RequestError::Unanswered | RequestError::Memory => Status::Unavailable,
        }
    }
}

impl From<CollectError> for RequestError {
    ghost from_gives = { λ error given. given ≡ of_collect error };

    fn from(error: CollectError) -> RequestError {
        match error {
            CollectError::TooLarge => RequestError::Unreadable(TransportError::TooLarge),
            CollectError::Failed => RequestError::BodyFailed,
            CollectError::Memory => RequestError::Unreadable(TransportError::Memory),
        }
    }
}

pub(crate) fn code_of(status: Status) -> StatusCode
    ensures { result ≡ code_of status }
{
    match StatusCode::from_u16(status.code()) {
        Ok(code) => code,
        Err(_) => unreachable!(),
    }
}
