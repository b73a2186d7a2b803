ghost use Rattle.std.specs.Prelude.{◌≡◌};
ghost use Rattle.bx_advice.specs.Errors.{error_text};

use std::fmt;

/// Why a message was rejected, or a connect failed.
///
/// The variants through `MissingData` are in the order in which a message is tested; the last two
/// are results of accepted connects.
///
/// Bayeux 1.0 leaves codes and texts of `error` open: they are a policy of this server.
#[derive(Clone, Copy, Debug, PartialEq, Eq, Hash)]
pub enum Error {
    /// The channel begins with `/meta/` and is not one of Bayeux's five meta channels.
    UnknownMetaChannel,
    /// A handshake after another one in the same request.
    SecondHandshake,
    /// The `version` of a handshake is not a string that equals `1` or begins with `1.`.
    UnsupportedVersion,
    /// `supportedConnectionTypes` is not an array with `long-polling` or `callback-polling`.
    NoSupportedConnectionType,
    /// The server already has its maximum number of live sessions.
    TooManySessions,
    /// `clientId` is not a string, or is absent although the message needs it.
    NoClientId,
    /// `clientId` is not the id of a live session.
    UnknownClient,
    /// `connectionType` is neither absent nor `long-polling` nor `callback-polling`.
    UnknownConnectionType,
    /// The channel of a publish is not a channel name.
    InvalidChannel,
    /// A string in `subscription` is not a pattern.
    InvalidPattern,
    /// `subscription` has more strings than `Limits::texts`.
    TooManyPatterns,
    /// A pattern in `subscription` begins with `/meta/`.
    SubscriptionDenied,
    /// `subscription` is absent, or neither a string nor an array of strings.
    MissingSubscription,
    /// A publish has no `data`.
    MissingData,
    /// A newer connect of the session ended a held connect.
    SupersededConnect,
    QueueOverflow,
}

impl Error {
    /// Returns the value of `error` in a reply: a three-digit code, two colons and a message.
    pub fn text(self) -> &'static str
        ensures { result.now ≡ error_text self }
    {
        match self {
            Error::UnknownMetaChannel => "404::Unknown meta channel",
            Error::SecondHandshake => "400::Second handshake",
            Error::UnsupportedVersion => "400::Unsupported version",
            Error::NoSupportedConnectionType => "400::No supported connection type",
            Error::TooManySessions => "503::Too many sessions",
            Error::NoClientId => "401::No client id",
            Error::UnknownClient => "402::Unknown client",
            Error::UnknownConnectionType => "400::Unknown connection type",
            Error::InvalidChannel => "400::Invalid channel",
            Error::InvalidPattern => "400::Invalid pattern",
            Error::TooManyPatterns => "400::Too many patterns",
            Error::SubscriptionDenied => "403::Subscription denied",
            Error::MissingSubscription => "400::Missing subscription",
            Error::MissingData => "400::Missing data",
            Error::SupersededConnect => "408::Superseded connect",
            Error::QueueOverflow => "413::Queue overflow",
        }
    }
}

impl fmt::Display for Error {
    ghost output = { λ e. Rattle.std.specs.Prelude.Some (error_text e) };

    fn fmt<W: fmt::Write>(&self, f: &mut fmt::Formatter<W>) -> fmt::Result {
        write!(f, "{}", self.text())
    }
}
