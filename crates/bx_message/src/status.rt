ghost use Rattle.std.specs.Prelude.{◌≡◌};
ghost use Rattle.bx_message.specs.Statuses.{code_of};

/// An HTTP status that this server responds with.
///
/// The choice of statuses is a policy of this server.
#[derive(Clone, Copy, Debug, PartialEq, Eq)]
pub enum Status {
    Ok,
    BadRequest,
    Forbidden,
    NotFound,
    MethodNotAllowed,
    TooLarge,
    UnsupportedMediaType,
    NotImplemented,
    Unavailable,
}

impl Status {
    /// Returns the code, such as 404.
    pub fn code(self) -> u16
        ensures { result ≡ code_of self }
    {
        match self {
            Status::Ok => 200,
            Status::BadRequest => 400,
            Status::Forbidden => 403,
            Status::NotFound => 404,
            Status::MethodNotAllowed => 405,
            Status::TooLarge => 413,
            Status::UnsupportedMediaType => 415,
            Status::NotImplemented => 501,
            Status::Unavailable => 503,
        }
    }
}
