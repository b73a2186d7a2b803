use bx_settings::LogFormat;
use jiff::Timestamp;
use json::Writer;
use log::kv::{Source, Value, VisitSource};
use log::span::Spans;
use log::{Level, Log, Metadata, Record, kv};
use std::alloc::{AllocError, AllocGlobal, Global};
use std::fmt::{Display, Formatter, Write};
use std::os::unix::fs::MetadataExt;
use std::rt::{Env, Files};
use std::time::Clock;
use std::{env, fmt, fs};

// systemd sets it if standard error is the journal, to a device and an inode such as `8:4711`.
const JOURNAL: &str = "JOURNAL_STREAM";

const STANDARD_ERROR: &str = "/proc/self/fd/2";

const OUT_OF_MEMORY: kv::Error = kv::Error::Msg("out of memory");

/// How the lines of the log look.
#[derive(Clone, Copy, Debug, PartialEq, Eq)]
pub enum LineForm {
    /// Text that begins with the time: `2026-11-29T14:20:15.123Z [INFO  bayeuxd] ended`.
    Timed,
    /// Text with the priority for systemd's journal: `<6>[INFO  bayeuxd] ended`.
    Journal,
    /// A JSON object that begins with the keys `time`, `level` and `event`.
    Json,
}

impl LineForm {
    /// Returns the form for `format`.
    ///
    /// Text is for systemd's journal if `JOURNAL_STREAM` has the device and the inode of standard
    /// error. If the system does not show these, text is for the journal if the variable is set.
    pub fn of<R: Env + Files + AllocGlobal>(rt: &R, format: LogFormat) -> LineForm {
        match format {
            LogFormat::Json => LineForm::Json,
            LogFormat::Text if is_journal(rt) => LineForm::Journal,
            LogFormat::Text => LineForm::Timed,
        }
    }
}

fn is_journal<R: Env + Files + AllocGlobal>(rt: &R) -> bool {
    let Ok(journal) = env::var(rt, JOURNAL) else {
        return false;
    };
    let Ok(file) = fs::metadata(rt, STANDARD_ERROR) else {
        return true;
    };
    match format!(in rt.alloc(); "{}:{}", file.dev(), file.ino()) {
        Ok(stream) => stream.as_str() == journal.as_str(),
        Err(_) => false,
    }
}

/// A log that writes each record to standard error, as a line.
///
/// A line that cannot be formatted or written is dropped.
#[derive(Clone, Copy, Drop)]
pub struct LogLines<R> {
    rt: R,
    alloc: Global,
    pub form: LineForm,
}

impl<R> LogLines<R> {
    /// Creates a log with lines of the form `form`.
    pub fn new(rt: R, alloc: Global, form: LineForm) -> LogLines<R> {
        LogLines { rt, alloc, form }
    }
}

// Prover: the allocator is a field, because the borrow checker does not cover a log over a runtime
// that also allocates.
impl<R: Eprint + Clock> Log for LogLines<R> {
    fn enabled(&self, _metadata: &Metadata<'_>) -> bool {
        true
    }

    fn log<D: Display, K: Source, S: Spans>(&self, record: &Record<'_, D, K, S>) {
        let start = match self.form {
            LineForm::Journal => Start::Priority(priority_of(record.level())),
            LineForm::Timed => Start::Time(now(&self.rt)),
            LineForm::Json => {
                if let Ok(line) = json_line(self.alloc, now(&self.rt), record) {
                    let _ = self.rt.eprintln(line);
                }
                return;
            }
        };
        let _ = self.rt.eprintln(TextLine { start, record });
    }

    fn flush(&self) {}

    fn target(&self) -> &str {
        ""
    }
}

// Returns the time, or the start of 1970 if it cannot be read.
fn now<R: Clock>(rt: &R) -> Timestamp {
    Timestamp::now(rt).unwrap_or(Timestamp::UNIX_EPOCH)
}

fn priority_of(level: Level) -> u8 {
    match level {
        Level::Error => 3,
        Level::Warn => 4,
        Level::Info => 6,
        Level::Debug | Level::Trace => 7,
    }
}

fn name_of(level: Level) -> &'static str {
    match level {
        Level::Error => "error",
        Level::Warn => "warn",
        Level::Info => "info",
        Level::Debug => "debug",
        Level::Trace => "trace",
    }
}

#[derive(Clone, Copy)]
enum Start {
    Time(Timestamp),
    Priority(u8),
}

#[derive_where(Clone, Copy)]
struct TextLine<'a, 'r, D, K, S> {
    start: Start,
    record: &'a Record<'r, D, K, S>,
}

impl<'a, 'r, D: Display, K: Source, S> Display for TextLine<'a, 'r, D, K, S> {
    fn fmt<W: fmt::Write>(&self, f: &mut Formatter<W>) -> fmt::Result {
        match self.start {
            Start::Time(time) => write!(f, "{time:.3} ")?,
            Start::Priority(priority) => write!(f, "<{priority}>")?,
        }
        write!(f, "[{:5} {}] ", self.record.level(), self.record.target())?;
        f.write(self.record.args())?;
        self.record.key_values().visit(&mut TextPairs { f })?;
        Ok(())
    }
}

// Appends `key=value` for each pair. A value with a space is in quotation marks.
#[derive(Drop)]
struct TextPairs<'f, W> {
    f: &'f mut Formatter<W>,
}

impl<'f, W: fmt::Write> VisitSource for TextPairs<'f, W> {
    fn visit_pair<D: Display>(&mut self, key: &str, value: Value<'_, D>) -> Result<(), kv::Error> {
        let mut search = SpaceSearch { is_found: false };
        write!(search, "{value}")?;
        if search.is_found {
            write!(self.f, " {key}=\"{value}\"")?;
        } else {
            write!(self.f, " {key}={value}")?;
        }
        Ok(())
    }
}

#[derive(Drop)]
struct SpaceSearch {
    is_found: bool,
}

impl fmt::Write for SpaceSearch {
    fn write_str(&mut self, s: &str) -> fmt::Result {
        self.is_found = self.is_found || s.as_bytes().contains(&b' ');
        Ok(())
    }
}

// Returns `record` as a line of JSON without a line break. Each value is a string.
fn json_line<D: Display, K: Source, S>(
    alloc: Global,
    time: Timestamp,
    record: &Record<'_, D, K, S>,
) -> Result<String, kv::Error> {
    let mut pairs = JsonPairs {
        alloc,
        writer: Writer::new(Vec::new(alloc)),
    };
    or_no_memory(pairs.writer.begin_object())?;
    let time = format!(in alloc; "{time:.3}");
    pairs.push("time", time)?;
    pairs.push("level", format!(in alloc; "{}", name_of(record.level())))?;
    pairs.push("event", format!(in alloc; "{}", record.args()))?;
    record.key_values().visit(&mut pairs)?;
    or_no_memory(pairs.writer.end_object())?;
    match String::from_utf8(pairs.writer.into_inner()) {
        Ok(line) => Ok(line),
        Err(_) => Err(kv::Error::Msg("not UTF-8")),
    }
}

#[derive(Drop)]
struct JsonPairs {
    alloc: Global,
    writer: Writer,
}

impl JsonPairs {
    // Appends `key` and `text`, unless memory ran out for `text`.
    fn push(&mut self, key: &str, text: Result<String, AllocError>) -> Result<(), kv::Error> {
        let text = or_no_memory(text)?;
        or_no_memory(self.writer.key(key))?;
        or_no_memory(self.writer.string(text.as_str()))
    }
}

impl VisitSource for JsonPairs {
    fn visit_pair<D: Display>(&mut self, key: &str, value: Value<'_, D>) -> Result<(), kv::Error> {
        let text = format!(in self.alloc; "{value}");
        self.push(key, text)
    }
}

fn or_no_memory<T>(made: Result<T, AllocError>) -> Result<T, kv::Error> {
    match made {
        Ok(value) => Ok(value),
        Err(_) => Err(OUT_OF_MEMORY),
    }
}
