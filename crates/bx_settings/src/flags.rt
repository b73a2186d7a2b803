ghost use Rattle.std.specs.Prelude.{◌≡◌, max, min};

use crate::settings::{LogFormat, LogLevel, Seed, Settings};
use crate::unit::{count_with_unit, milliseconds};
use bx_advice::{BODY_LIMIT, BodyLimit, Config, Limit, MAX_SHARDS, Options};
use bx_cut::MAX_MESSAGES;
use bx_message::{count_in, number_of};
use bx_names::{NameError, Pattern};
use clap::error::ErrorKind;
use clap::{Arg, ArgAction, ArgMatches, Command, Error};
use std::alloc::{AllocError, Global};

/// The version that `--version` prints.
pub const VERSION: &str = "0.3.0";

// What flags accept, in words for an error message.
const ADDRESS: &str = "a host and a port such as 127.0.0.1:8087";

const TIME: &str = "a time such as 500ms or 30s, up to 4294967295ms";

const PATTERN: &str = "a pattern of channels such as /chat/*";

// The greatest size of a record that can be set, in bytes: 2^44.
const MAX_RECORD: usize = 17_592_186_044_416;

// The times that need a unit are below this one, in milliseconds: the user may have meant seconds.
const SECOND: u32 = 1000;

/// Parses the command-line flags of `bayeuxd`.
///
/// `args`: without the program's name. `processors`: their number. Without `--shards`, there is one
/// shard for each of them, from 1 to 64.
///
/// # Errors
///
/// An error with a text for the user if a flag or a value is wrong, or memory runs out. `--help`
/// and `--version` also return an error, with the text to print.
pub fn read_flags<'a>(
    alloc: Global,
    args: &'a [String],
    processors: usize,
) -> Result<Settings<'a>, Error> {
    let mut command = command(alloc)?;
    let matches = command.try_get_matches_from_mut(args)?;
    let mut flags = GivenFlags {
        alloc,
        command,
        matches,
    };
    let config = flags.config(processors)?;
    let body = flags.number("body", BODY_LIMIT, BODY_LIMIT)?;
    let messages = flags.number("messages", MAX_MESSAGES, MAX_MESSAGES)?;
    let listen = flags.address("listen")?;
    let read_only_listen = flags.address("readers")?;
    let metrics = flags.address("metrics")?;
    flags.expect_another("readers", "listen")?;
    flags.expect_another("metrics", "listen")?;
    flags.expect_another("metrics", "readers")?;
    let readers_publish = flags.patterns("readers-publish")?;
    let log = flags.log_format()?;
    let log_level = flags.log_level()?;
    let connections = flags.connections()?;
    let record_bytes = flags.number("record-bytes", MAX_RECORD, usize::MAX)?;
    let matches = flags.matches;
    Ok(Settings {
        listen: listen.unwrap_or(""),
        read_only_listen,
        readers_publish,
        config,
        body: BodyLimit::new(body).unwrap_or(BodyLimit::greatest()),
        messages,
        callback_polling: !matches.get_flag("no-callback-polling"),
        seed: match matches.get_str("seed-file") {
            Some(path) => Seed::File(path),
            None => Seed::FromSystem,
        },
        connections,
        metrics,
        record_file: matches.get_str("record"),
        record_answers: matches.get_flag("record-answers"),
        record_bytes,
        until_eof: matches.get_flag("until-eof"),
        log,
        log_level,
    })
}

// The flags that were given, and the command, which makes the texts of errors.
#[derive(Drop)]
struct GivenFlags<'c, 'a> {
    alloc: Global,
    command: Command<'c>,
    matches: ArgMatches<'a>,
}

impl<'c, 'a> GivenFlags<'c, 'a> {
    fn config(&mut self, processors: usize) -> Result<Config, Error> {
        let timeout = self.time("timeout")?;
        let interval = self.time("interval")?;
        let max_interval = self.time("max-interval")?;
        let shards = self.number("shards", MAX_SHARDS, standard_shards(processors))?;
        let options = Options {
            ride: self.matches.get_flag("ride"),
            anonymous: self.matches.get_flag("anonymous"),
        };
        let config = Config::new(shards, timeout, interval, max_interval);
        let mut config = config.map(|config| config.with(options));
        for limit in &Limit::ALL {
            let n = self.number(limit.name(), limit.greatest(), limit.standard())?;
            config = config.and_then(|config| config.with_maximum(*limit, n));
        }
        match config {
            Some(config) => Ok(config),
            None => Err(self.wrong("shards", "a configuration", self.value("shards"))?),
        }
    }

    // Returns the address that flag `name` gives, if any.
    fn address(&mut self, name: &str) -> Result<Option<&'a str>, Error> {
        match self.matches.get_str(name) {
            Some(address) if !is_address(address) => Err(self.wrong(name, ADDRESS, address)?),
            address => Ok(address),
        }
    }

    // Returns an error if flags `name` and `other` give the same address, with another port than 0.
    fn expect_another(&mut self, name: &str, other: &str) -> Result<(), Error> {
        let taken = self.matches.get_str(other);
        match self.matches.get_str(name) {
            Some(address) if taken == Some(address) && !address.ends_with(":0") => {
                let right = format!(in self.alloc; "an address other than that of --{other}")?;
                Err(self.wrong(name, right.as_str(), address)?)
            }
            _ => Ok(()),
        }
    }

    // Returns the number that flag `name` gives, from 1 to `greatest`, or `standard` without the
    // flag. The value may have a unit: `k` for 1,024 and `m` for 1,048,576.
    fn number(&mut self, name: &str, greatest: usize, standard: usize) -> Result<usize, Error> {
        let Some(text) = self.matches.get_str(name) else {
            return Ok(standard);
        };
        match count_with_unit(greatest, text) {
            Some(number) => Ok(number),
            None => {
                let units = if greatest < 1024 {
                    ""
                } else {
                    " (units: k, m)"
                };
                let right = format!(in self.alloc; "a number from 1 to {greatest}{units}")?;
                Err(self.wrong(name, right.as_str(), text)?)
            }
        }
    }

    // Returns the time that flag `name` gives, in milliseconds.
    fn time(&mut self, name: &str) -> Result<u32, Error> {
        let text = self.value(name);
        match milliseconds(text) {
            Some(time) if needs_unit(text, time) => {
                let right = format!(in self.alloc; "a unit (write {text}s or {text}ms)")?;
                Err(self.wrong(name, right.as_str(), text)?)
            }
            Some(time) => Ok(time),
            None => Err(self.wrong(name, TIME, text)?),
        }
    }

    // Returns the patterns that the uses of flag `name` give, in order.
    fn patterns(&mut self, name: &str) -> Result<Vec<Pattern>, Error> {
        let mut patterns = Vec::new(self.alloc);
        for text in self.matches.get_strs(name).unwrap_or(&[]) {
            match Pattern::read(self.alloc, text) {
                Ok(pattern) => patterns.push(pattern)?,
                Err(NameError::Memory) => return Err(AllocError.into()),
                Err(_) => {
                    let text = *text;
                    return Err(self.wrong(name, PATTERN, text)?);
                }
            }
        }
        Ok(patterns)
    }

    fn connections(&mut self) -> Result<u64, Error> {
        let text = self.value("connections");
        match number_of(text.as_bytes()) {
            Some(connections) => Ok(connections),
            None => Err(self.wrong("connections", "a number without a unit", text)?),
        }
    }

    fn log_format(&mut self) -> Result<LogFormat, Error> {
        match self.value("log") {
            "text" => Ok(LogFormat::Text),
            "json" => Ok(LogFormat::Json),
            text => Err(self.wrong("log", "text or json", text)?),
        }
    }

    fn log_level(&mut self) -> Result<LogLevel, Error> {
        match self.value("log-level") {
            "error" => Ok(LogLevel::Error),
            "warn" => Ok(LogLevel::Warn),
            "info" => Ok(LogLevel::Info),
            text => Err(self.wrong("log-level", "error, warn or info", text)?),
        }
    }

    // Returns the value of flag `name`, which has a default.
    fn value(&self, name: &str) -> &'a str {
        self.matches.get_str(name).unwrap_or("")
    }

    // Creates the error for a wrong `value` of flag `name`. `right`: what is accepted.
    fn wrong(&mut self, name: &str, right: &str, value: &str) -> Result<Error, AllocError> {
        let text = format!(in self.alloc; "--{name}: expected {right}, got {value}")?;
        self.command
            .error(ErrorKind::ValueValidation, text.as_str())
    }
}

// One for each processor, from 1 to 64.
fn standard_shards(processors: usize) -> usize
    ensures { result ≡ min (max processors 1) 64 }
{
    processors.clamp(1, MAX_SHARDS)
}

// Returns `true` if `text` has a host and a port, and is no URL.
fn is_address(text: &str) -> bool {
    match text.rsplit_once(":") {
        Some((host, port)) => !host.is_empty()
            && !host.contains("/")
            && (port == "0" || count_in(u16::MAX as usize, port.as_bytes()).is_some()),
        None => false,
    }
}

// Returns `true` if `text`, the time `time` in milliseconds, has no unit and is below a second.
fn needs_unit(text: &str, time: u32) -> bool {
    time > 0 && time < SECOND && !text.ends_with("s")
}

fn command<'a>(alloc: Global) -> Result<Command<'a>, AllocError> {
    let command = Command::new(alloc, "bayeuxd")
        .about("Serve Bayeux over HTTP")
        .version(VERSION)
        .no_binary_name(true);
    let command = with_times(alloc, with_server(alloc, command)?)?;
    let command = with_options(alloc, with_limits(alloc, command)?)?;
    with_log(alloc, with_running(alloc, command)?)
}

fn with_server<'a>(alloc: Global, command: Command<'a>) -> Result<Command<'a>, AllocError> {
    let allowed = value(
        alloc,
        "readers-publish",
        "PATTERN",
        "Allow publishes at --readers to channels that PATTERN matches; can be repeated",
    )
    .action(ArgAction::Append)
    .requires_arg("readers")?;
    command
        .arg(value(
            alloc,
            "listen",
            "ADDRESS",
            "Listen at ADDRESS, a host name or IP address with a port",
        )
        .default_value("127.0.0.1:8087"))?
        .arg(value(
            alloc,
            "readers",
            "ADDRESS",
            "Also listen at ADDRESS, for clients that may not publish [default: none]",
        ))?
        .arg(allowed)?
        .arg(value(
            alloc,
            "shards",
            "N",
            "Divide the sessions among N shards, 1 to 64 [default: one for each processor]",
        ))?
        .arg(value(
            alloc,
            "seed-file",
            "FILE",
            "Read the seed of client ids, 64 hexadecimal digits, from FILE [default: a random seed]",
        ))
}

fn with_times<'a>(alloc: Global, command: Command<'a>) -> Result<Command<'a>, AllocError> {
    command
        .arg(value(
            alloc,
            "timeout",
            "TIME",
            "Hold a connect for at most TIME, such as 500ms or 30s",
        )
        .default_value("30s"))?
        .arg(value(
            alloc,
            "interval",
            "TIME",
            "Advise clients to wait for TIME between two connects",
        )
        .default_value("0"))?
        .arg(value(
            alloc,
            "max-interval",
            "TIME",
            "End a session TIME after its last accepted message",
        )
        .default_value("10s"))
}

fn with_limits<'a>(alloc: Global, command: Command<'a>) -> Result<Command<'a>, AllocError> {
    let mut command = command;
    for limit in &Limit::ALL {
        command = with_limit(alloc, command, *limit)?;
    }
    command
        .arg(value(
            alloc,
            "body",
            "N",
            "Allow at most N bytes in the body or query of a request, 1 to 1m [default: 1m]",
        ))?
        .arg(value(
            alloc,
            "messages",
            "N",
            "Allow at most N messages in a request, 1 to 256 [default: 256]",
        ))
}

fn with_limit<'a>(
    alloc: Global,
    command: Command<'a>,
    limit: Limit,
) -> Result<Command<'a>, AllocError> {
    command.arg(value(alloc, name_of(limit), "N", help_of(limit)))
}

fn name_of<'a>(limit: Limit) -> &'a str {
    limit.name()
}

fn help_of<'a>(limit: Limit) -> &'a str {
    match limit {
        Limit::Bytes =>
            "Allow at most N bytes of waiting events per session, such as 64k [default: no limit]",
        Limit::Sessions => "Allow at most N live sessions, 1 to 65536 [default: 65536]",
        Limit::Patterns => "Allow at most N active patterns per session, 1 to 1024 [default: 1024]",
        Limit::Events => "Allow at most N waiting events per session, 1 to 65536 [default: 1024]",
    }
}

fn with_options<'a>(alloc: Global, command: Command<'a>) -> Result<Command<'a>, AllocError> {
    command
        .arg(switch(
            alloc,
            "ride",
            "Send a session's waiting events with the replies to its own requests",
        ))?
        .arg(switch(alloc, "anonymous", "Accept publishes without a client id"))?
        .arg(switch(
            alloc,
            "no-callback-polling",
            "Accept only POSTs of application/json, which browsers do not send to other sites",
        ))
}

fn with_running<'a>(alloc: Global, command: Command<'a>) -> Result<Command<'a>, AllocError> {
    let answers = switch(
        alloc,
        "record-answers",
        "With --record, also record the SHA-256 of each answer",
    )
    .requires_arg("record")?;
    let bytes = value(
        alloc,
        "record-bytes",
        "N",
        "With --record, end the record before it has more than N bytes [default: no limit]",
    )
    .requires_arg("record")?;
    // `--figures` is the former name of `--metrics`.
    let metrics = value(
        alloc,
        "metrics",
        "ADDRESS",
        "Serve metrics, and a page that plots them, at ADDRESS [default: none]",
    )
    .alias("figures")?;
    command
        .arg(value(
            alloc,
            "connections",
            "N",
            "Accept N connections, and exit once they have ended; 0 for no limit",
        )
        .default_value("0"))?
        .arg(metrics)?
        .arg(value(
            alloc,
            "record",
            "FILE",
            "Record every request with messages in FILE, which must not exist [default: none]",
        ))?
        .arg(answers)?
        .arg(bytes)?
        .arg(switch(alloc, "until-eof", "Also exit at the end of standard input"))
}

fn with_log<'a>(alloc: Global, command: Command<'a>) -> Result<Command<'a>, AllocError> {
    command
        .arg(value(
            alloc,
            "log",
            "FORMAT",
            "Write the log as text, or as json: an object per line",
        )
        .default_value("text"))?
        .arg(value(
            alloc,
            "log-level",
            "LEVEL",
            "Log only errors (error), errors and warnings (warn), or everything (info)",
        )
        .default_value("info"))
}

// `kind`: the word for the value in the help, such as `FILE`.
fn value<'a>(alloc: Global, name: &'a str, kind: &'a str, help: &'a str) -> Arg<'a> {
    Arg::new(alloc, name).long(name).value_name(kind).help(help)
}

fn switch<'a>(alloc: Global, name: &'a str, help: &'a str) -> Arg<'a> {
    Arg::new(alloc, name)
        .long(name)
        .action(ArgAction::SetTrue)
        .help(help)
}
