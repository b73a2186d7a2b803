ghost use Rattle.std.specs.Prelude.{◌<◌, IfOk, IfSome};

use std::alloc::{AllocError, Global};
use std::fmt::{self, Display, Formatter, Write};
use std::io;

/// The URL of the server.
#[derive(Drop)]
pub struct Target {
    /// With the port, if the URL has one.
    pub host: String,
    /// With its leading `/`.
    pub path: String,
}

impl Target {
    fn new(alloc: Global, host: &str, path: &str) -> Result<Target, AllocError> {
        Ok(Target {
            host: String::from_str(alloc, host)?,
            path: format!(in alloc; "/{path}")?,
        })
    }
}

/// How to load a server.
#[derive(Drop)]
pub struct LoadSettings {
    pub target: Target,
    /// Number of sessions that receive events.
    pub sessions: u32,
    /// Number of channels among which sessions and publishers are divided.
    pub channels: u32,
    /// Number of clients that publish.
    pub publishers: u32,
    /// Number of events that all publishers together publish.
    pub events: u32,
    /// Events per second of all publishers together. With 0, each publisher sends its next event as
    /// soon as the previous one is answered.
    pub rate: u32,
    pub is_acknowledging: bool,
    ghost some_channel: { 0 < channels },
    ghost some_publisher: { 0 < publishers },
}

/// Why arguments are rejected.
#[derive(Clone, Copy, Debug, PartialEq, Eq)]
pub enum SettingsFault {
    Memory,
    NotText,
    /// Fewer than five, or more than seven.
    Count,
    /// Not of the form `http://HOST/PATH`, or with characters that are not visible ASCII.
    Url,
    /// Not a number below 2^32.
    Sessions,
    /// Not a number from 1 to 2^32 - 1.
    Channels,
    /// Not a number from 1 to 2^32 - 1.
    Publishers,
    /// Not a number from 1 to 2^32 - 1.
    Events,
    /// Not a number from 1 to 2^32 - 1.
    Rate,
    /// The last of seven arguments is not `ack`.
    Ack,
}

impl From<AllocError> for SettingsFault {
    fn from(_error: AllocError) -> SettingsFault {
        SettingsFault::Memory
    }
}

impl From<io::Error> for SettingsFault {
    fn from(error: io::Error) -> SettingsFault {
        match error.kind() {
            io::ErrorKind::OutOfMemory => SettingsFault::Memory,
            _ => SettingsFault::NotText,
        }
    }
}

impl Display for SettingsFault {
    /// Writes the name of the argument and what it must be.
    fn fmt<W: Write>(&self, f: &mut Formatter<W>) -> fmt::Result {
        f.write_str(match self {
            SettingsFault::Memory => "out of memory",
            SettingsFault::NotText => "expected arguments in UTF-8",
            SettingsFault::Count => "expected 5 to 7 arguments",
            SettingsFault::Url => "url: expected a URL such as http://127.0.0.1:8087/cometd",
            SettingsFault::Sessions => "sessions: expected a number from 0 to 4294967295",
            SettingsFault::Channels => "channels: expected a number from 1 to 4294967295",
            SettingsFault::Publishers => "publishers: expected a number from 1 to 4294967295",
            SettingsFault::Events => "events: expected a number from 1 to 4294967295",
            SettingsFault::Rate => "rate: expected a number from 1 to 4294967295, or ack",
            SettingsFault::Ack => "ack: expected ack as the seventh argument",
        })
    }
}

impl LoadSettings {
    /// Parses the arguments: URL, sessions, channels, publishers, events, optional rate and `ack`.
    ///
    /// # Errors
    ///
    /// `Count` for fewer than five arguments, then the first wrong argument, with `Ack` before
    /// `Rate`, then `Count` for more than seven, or `Memory`.
    pub fn read(alloc: Global, args: &[String]) -> Result<LoadSettings, SettingsFault> {
        let [url, sessions, channels, publishers, events, options @ ..] = args else {
            return Err(SettingsFault::Count);
        };
        let (host, path) = place_of(url.as_str()).ok_or(SettingsFault::Url)?;
        let Ok(sessions) = sessions.as_str().parse() else {
            return Err(SettingsFault::Sessions);
        };
        let channels = count_of(channels.as_str()).ok_or(SettingsFault::Channels)?;
        let publishers = count_of(publishers.as_str()).ok_or(SettingsFault::Publishers)?;
        let events = count_of(events.as_str()).ok_or(SettingsFault::Events)?;
        let (rate, is_acknowledging) = options_of(options)?;
        Ok(LoadSettings {
            target: Target::new(alloc, host, path)?,
            sessions,
            channels,
            publishers,
            events,
            rate,
            is_acknowledging,
        })
    }

    /// Returns the number of sessions and publishers together.
    pub fn clients(&self) -> u64 {
        self.sessions as u64 + self.publishers as u64
    }
}

// Parses the rate, or 0 without one, and whether the sessions acknowledge.
fn options_of(args: &[String]) -> Result<(u32, bool), SettingsFault> {
    match args {
        [] => Ok((0, false)),
        [arg] if arg.as_str() == "ack" => Ok((0, true)),
        [rate] => Ok((rate_of(rate)?, false)),
        [rate, ack] if ack.as_str() == "ack" => Ok((rate_of(rate)?, true)),
        [_, _] => Err(SettingsFault::Ack),
        _ => Err(SettingsFault::Count),
    }
}

fn rate_of(arg: &String) -> Result<u32, SettingsFault> {
    count_of(arg.as_str()).ok_or(SettingsFault::Rate)
}

fn count_of(digits: &str) -> Option<u32>
    ensures { IfSome result (λ count. 0 < count) }
{
    match digits.parse() {
        Ok(count) if count > 0 => Some(count),
        _ => None,
    }
}

// Splits a URL such as http://127.0.0.1:8087/cometd into its host and its path without the `/`.
fn place_of(url: &str) -> Option<(&str, &str)> {
    if is_plain(url) {
        url.strip_prefix("http://")?.split_once('/')
    } else {
        None
    }
}

// Returns `true` if the head of a request may have `text`: visible ASCII characters only.
fn is_plain(text: &str) -> bool {
    text.as_bytes().iter().all(|byte| byte.is_ascii_graphic())
}
