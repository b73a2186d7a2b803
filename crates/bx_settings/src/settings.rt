use bx_advice::{BodyLimit, Config};
use bx_names::Pattern;

/// The source of the seed of the generator of nonces.
#[derive(Clone, Copy, Debug, PartialEq, Eq)]
pub enum Seed<'a> {
    /// Random bytes from the operating system.
    FromSystem,
    /// The file with this name, which [`read_seed`](crate::read_seed) reads.
    File(&'a str),
    /// A positional argument.
    FromArguments([u8; 32]),
}

/// The format of the log.
#[derive(Clone, Copy, Debug, PartialEq, Eq)]
pub enum LogFormat {
    /// Text: the time, the level, the event, and `key=value` for each value.
    Text,
    /// A JSON object for each line.
    Json,
}

/// The least severe level of the lines in the log.
#[derive(Clone, Copy, Debug, PartialEq, Eq)]
pub enum LogLevel {
    Error,
    Warn,
    Info,
}

/// The settings of `bayeuxd`.
#[derive(Debug, Drop)]
pub struct Settings<'a> {
    /// A host name or IP address, and a port, as in `localhost:8087`.
    pub listen: &'a str,
    /// The address of the read-only listener.
    pub read_only_listen: Option<&'a str>,
    /// Patterns of the broadcast channels to which the read-only listener allows messages.
    pub readers_publish: Vec<Pattern>,
    pub config: Config,
    /// The greatest length in bytes of a request's body or query.
    pub body: BodyLimit,
    /// The greatest number of messages in a request.
    pub messages: usize,
    /// Whether the server accepts GETs, and POSTs of any media type, not only `application/json`.
    pub callback_polling: bool,
    pub seed: Seed<'a>,
    /// After how many connections the server ends, or 0 if it serves any number.
    pub connections: u64,
    /// The address of the listener for metrics.
    pub metrics: Option<&'a str>,
    /// The file that the server creates for its record.
    pub record_file: Option<&'a str>,
    /// Whether the record has the SHA-256 of each answer.
    pub record_answers: bool,
    /// The greatest size of the record in bytes.
    pub record_bytes: usize,
    /// Whether the server ends at the end of standard input.
    pub until_eof: bool,
    pub log: LogFormat,
    pub log_level: LogLevel,
}
