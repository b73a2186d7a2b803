ghost use Rattle.std.specs.Prelude.{◌≡◌};
ghost use Rattle.bx_advice.specs.Advice.{advice_of, reconnect_of};

use crate::config::Config;
use crate::error::Error;

/// The outcome of a message, as its reply reports it.
#[derive(Clone, Copy, Debug, PartialEq, Eq)]
pub enum Outcome {
    Opened,
    /// Answered at once, by an event, or by a tick that ended the hold.
    Connected,
    /// A held connect ended without events, because its session disconnected.
    Disconnected,
    /// Any other message succeeded.
    Done,
    /// A message was rejected, or a connect failed.
    Failed(Error),
}

/// What a client should do next. Bayeux 1.0, the advice field `reconnect`.
#[derive(Clone, Copy, Debug, PartialEq, Eq)]
pub enum Reconnect {
    Retry,
    Handshake,
    /// Neither connect nor handshake again. In JSON this is `none`.
    Never,
}

/// The advice in a reply: what the client should do next, and after how long.
///
/// Bayeux 1.0, the field `advice`. Sending `timeout` with `Retry` only is a policy of this server.
#[derive(Clone, Copy, Debug, PartialEq, Eq)]
pub struct Advice {
    /// How long the client should wait first, in milliseconds.
    pub interval: u32,
    pub reconnect: Reconnect,
    /// The maximum hold of a connect, in milliseconds; only with `Retry`.
    pub timeout: Option<u32>,
}

/// Returns the advice for `outcome`, if any.
///
/// - `Retry`: a handshake or a connect succeeded.
/// - `Handshake`: the client id is missing or unknown, the session overflowed, or too many sessions
///   are live.
/// - `Never`: the version or the connection types are not supported, or the session disconnected.
///
/// Other outcomes have no advice.
///
/// Bayeux 1.0, the field `advice`. The advice for each outcome is a policy of this server.
pub fn advice_for(outcome: Outcome, config: &Config) -> Option<Advice>
    ensures { result ≡ advice_of config.now outcome }
{
    let (reconnect, timeout) = match outcome {
        Outcome::Opened | Outcome::Connected => (Reconnect::Retry, Some(config.timeout)),
        Outcome::Disconnected => (Reconnect::Never, None),
        Outcome::Done => return None,
        Outcome::Failed(error) => (reconnect_after(error)?, None),
    };
    Some(Advice {
        interval: config.interval,
        reconnect,
        timeout,
    })
}

fn reconnect_after(error: Error) -> Option<Reconnect>
    ensures { result ≡ reconnect_of error }
{
    match error {
        Error::NoClientId | Error::UnknownClient | Error::QueueOverflow | Error::TooManySessions =>
            Some(Reconnect::Handshake),
        Error::UnsupportedVersion | Error::NoSupportedConnectionType => Some(Reconnect::Never),
        _ => None,
    }
}
