//! The log lines at the start of `bayeuxd`: its settings, or why it cannot start.
use bx_advice::Limit;
use bx_names::Pattern;
use bx_settings::Settings;
use log::kv::{Source, ToValue, VisitSource};
use log::{Level, Log, Metadata, Record, error, kv, warn};
use std::fmt::{Display, Formatter};
use std::{fmt, io};

// In milliseconds. If `timeout` or `max_interval` is shorter, the log has a warning, since the user
// may have meant seconds.
const SECOND: u32 = 1000;

/// Logs all settings except the seed, and warns of times that are probably not meant.
///
/// They are a `timeout` or `max_interval` below a second, and a `max_interval` up to `interval`.
pub fn log_settings<R: Log>(rt: &R, settings: &Settings<'_>) {
    let metadata = Metadata::new(Level::Info, "bayeuxd");
    rt.log(&Record::new(metadata, "starting", SettingsPairs(settings), ()));
    let config = settings.config;
    for (name, time) in [
        ("timeout", config.timeout),
        ("max_interval", config.max_interval),
    ] {
        if time > 0 && time < SECOND {
            warn!(rt; target: "bayeuxd", (name):% = Time(time), hint:% = SecondsHint(time); "time is below one second");
        }
    }
    let (interval, max_interval) = (config.interval, config.max_interval);
    if interval > 0 && max_interval <= interval {
        warn!(rt; target: "bayeuxd", interval:% = Time(interval), max_interval:% = Time(max_interval), hint = "raise --max-interval"; "sessions end between two connects");
    }
}

/// Logs that the server cannot listen at `address`, because of `error`.
pub fn log_cannot_listen<R: Log>(rt: &R, address: &str, error: &io::Error) {
    error!(rt; target: "bayeuxd", address, error:% = error; "cannot listen");
}

/// Logs that `what` failed at `name`, an address or a file, because of `error`.
pub fn log_failure<R: Log>(rt: &R, what: &str, name: &str, error: &io::Error) {
    error!(rt; target: "bayeuxd", at = name, error:% = error; "{what}");
}

/// Logs that the server cannot serve, because of `error`.
pub fn log_cannot_serve<R: Log>(rt: &R, error: &io::Error) {
    error!(rt; target: "bayeuxd", error:% = error; "cannot serve");
}

// The settings except the seed.
#[derive(Clone, Copy)]
struct SettingsPairs<'s, 'a>(&'s Settings<'a>);

impl<'s, 'a> Source for SettingsPairs<'s, 'a> {
    fn visit<V: VisitSource>(&self, to: &mut V) -> Result<(), kv::Error> {
        let (settings, config) = (self.0, self.0.config);
        pair(to, "listen", settings.listen)?;
        pair(to, "readers", settings.read_only_listen.unwrap_or("-"))?;
        pair(to, "shards", config.shards)?;
        if !settings.readers_publish.is_empty() {
            pair(
                to,
                "readers_publish",
                kv::display(Patterns(settings.readers_publish.as_slice())),
            )?;
        }
        pair(to, "timeout", kv::display(Time(config.timeout)))?;
        pair(to, "interval", kv::display(Time(config.interval)))?;
        pair(to, "max_interval", kv::display(Time(config.max_interval)))?;
        for limit in &Limit::ALL {
            match config.limits.get(*limit) {
                n if n <= limit.greatest() => pair(to, limit.name(), n)?,
                _ => pair(to, limit.name(), "no-limit")?,
            }
        }
        pair(to, "body", settings.body.get())?;
        pair(to, "messages", settings.messages)?;
        pair(to, "ride", config.ride)?;
        pair(to, "anonymous", config.anonymous)?;
        pair(to, "callback_polling", settings.callback_polling)?;
        pair(to, "connections", settings.connections)?;
        pair(to, "metrics", settings.metrics.unwrap_or("-"))?;
        pair(to, "record", settings.record_file.unwrap_or("-"))?;
        pair(to, "record_answers", settings.record_answers)?;
        match settings.record_bytes {
            usize::MAX => pair(to, "record_bytes", "no-limit")?,
            n => pair(to, "record_bytes", n)?,
        }
        pair(to, "until_eof", settings.until_eof)
    }
}

fn pair<V: VisitSource, T: ToValue + Drop>(
    to: &mut V,
    name: &str,
    value: T,
) -> Result<(), kv::Error> {
    to.visit_pair(name, value.to_value())
}

// Shown with a unit: `30s`, `1500ms`, or `0`.
#[derive(Clone, Copy)]
struct Time(u32);

impl Display for Time {
    fn fmt<W: fmt::Write>(&self, f: &mut Formatter<W>) -> fmt::Result {
        match self.0 {
            0 => f.write_str("0"),
            time if time % SECOND == 0 => write!(f, "{}s", time / SECOND),
            time => write!(f, "{time}ms"),
        }
    }
}

#[derive(Clone, Copy)]
struct SecondsHint(u32);

impl Display for SecondsHint {
    fn fmt<W: fmt::Write>(&self, f: &mut Formatter<W>) -> fmt::Result {
        write!(f, "for seconds, write {}s", self.0)
    }
}

// Shown with a comma between two. No pattern has a comma.
#[derive(Clone, Copy)]
struct Patterns<'a>(&'a [Pattern]);

impl<'a> Display for Patterns<'a> {
    fn fmt<W: fmt::Write>(&self, f: &mut Formatter<W>) -> fmt::Result {
        let mut comma = "";
        for pattern in self.0 {
            write!(f, "{comma}{}", pattern.as_str())?;
            comma = ",";
        }
        Ok(())
    }
}
