//! The daemon `bayeuxd`, which serves Bayeux over HTTP.
#![tactic(auto)]

mod clock;
mod end;
mod lists;
mod log_lines;
mod metrics;
mod recorder;
mod refusals;
mod replies;
mod serve;
mod starting;
mod ticker;
mod timed;

use bx_metrics::Counts;
use bx_service::Transports;
use bx_settings::{LogLevel, Seed, Settings, draw_seed, parse_args, read_flags, read_seed};
use end::signal_at_eof;
use futures::channel::oneshot;
use futures::channel::oneshot::{Receiver, Sender};
use log::{LevelFilter, Logged, error, info};
use log_lines::{LineForm, LogLines};
use metrics::{MetricsListener, process_values};
use recorder::{NewRecordFile, make_record};
use serve::{ListenAddress, ServeFault, ServeSettings, Server, listen};
use starting::{log_cannot_listen, log_cannot_serve, log_failure, log_settings};
use std::alloc::Global;
use std::fs::File;
use std::net::{SocketAddr, ToSocketAddrs};
use std::process::ExitCode;
use std::sync::Arc;
use std::{env, io, thread};

/// Printed if the arguments do not begin with a flag and are not valid by position.
const USAGE: &str =
    "usage: bayeuxd address shards timeout interval max_interval seed connections [options [limit]]";

/// Printed if the server cannot listen. The log has the reason.
const CANNOT_LISTEN: &str = "bayeuxd: cannot listen";

/// Printed if the server cannot serve. The log has the reason.
const CANNOT_SERVE: &str = "bayeuxd: cannot serve";

const NO_METRICS: &str = "cannot listen for metrics";

const CANNOT_RECORD: &str = "cannot create the record";

const RECORD_EXISTS: &str =
    "bayeuxd: a record needs a new file: name another one, or move this one away";

const NO_READER: &str = "bayeuxd: cannot read standard input";

const NO_SEED: &str = "cannot read the seed";

const SEED_FORM: &str = "bayeuxd: a seed has 64 hexadecimal digits";

const OUT_OF_MEMORY: &str = "bayeuxd: out of memory";

type Host = Logged<HostRuntime, LogLines<HostRuntime>>;

fn main(host: HostRuntime) -> ExitCode {
    let args = match read_args(&host) {
        Ok(args) => args,
        Err(status) => return status,
    };
    let processors = thread::available_parallelism(&host).map_or(1, |it| it.get());
    let settings = match settings_of(&host, args.as_slice(), processors) {
        Ok(settings) => settings,
        Err(status) => return status,
    };
    let rt = with_log(host, &settings);
    let parts = match parts_of(&rt, &settings) {
        Ok(parts) => parts,
        Err(status) => return status,
    };
    let listening = match listen(&rt, parts.listen_address, parts.readers) {
        Ok(listening) => listening,
        Err(fault) => return not_served(&rt, fault),
    };
    let (metrics, record_file) = match outputs_of(&rt, &settings, &parts.counts) {
        Ok(outputs) => outputs,
        Err(status) => return status,
    };
    // The thread is spawned here, because only `main` can pass the right to read standard input to
    // a thread. Without `--until-eof`, `shutdown` is kept: dropping it would end the server.
    let _kept = if settings.until_eof {
        let shutdown = parts.shutdown;
        let Ok(_reading) = thread::spawn(&host, move || signal_at_eof(&host, shutdown)) else {
            return failed(&rt, NO_READER);
        };
        None
    } else {
        Some(parts.shutdown)
    };
    let server = Server {
        rt,
        listening,
        metrics,
        process: move || process_values(&host),
        max_files: process_values(&host).max_files,
        readers_publish: settings.readers_publish,
        arguments: parts.arguments,
        record_file,
        shutdown: parts.end,
    };
    ended(&rt, server.serve(&parts.counts, &mut io::writer(&rt)))
}

fn with_log(host: HostRuntime, settings: &Settings<'_>) -> Host {
    let level = match settings.log_level {
        LogLevel::Error => LevelFilter::Error,
        LogLevel::Warn => LevelFilter::Warn,
        LogLevel::Info => LevelFilter::Info,
    };
    let form = LineForm::of(&host, settings.log);
    Logged::new(host, level, LogLines::new(host, host.alloc(), form))
}

#[derive(Drop)]
struct Parts<'a> {
    arguments: ServeSettings,
    listen_address: ListenAddress<'a>,
    readers: Option<ListenAddress<'a>>,
    counts: Arc<Counts, Global>,
    shutdown: Sender<()>,
    end: Receiver<()>,
}

// Creates the server's parts, and logs its settings. Reports errors and returns their exit status.
fn parts_of<'a>(rt: &Host, settings: &Settings<'a>) -> Result<Parts<'a>, ExitCode> {
    let seed = match seed_of(rt, settings.seed) {
        Ok(seed) => seed,
        Err(error) => {
            let exit = refused_at(rt, NO_SEED, seed_name(settings.seed), &error);
            if error.kind() == io::ErrorKind::InvalidData {
                print(rt, SEED_FORM);
            }
            return Err(exit);
        }
    };
    let listen_address = listen_address_of(rt, settings.listen)?;
    let readers = match settings.read_only_listen {
        Some(name) => Some(listen_address_of(rt, name)?),
        None => None,
    };
    let (Ok(counts), Ok((shutdown, end))) = (
        counts_of(rt, settings.config.shards),
        oneshot::channel(rt.alloc()),
    ) else {
        return Err(failed(rt, OUT_OF_MEMORY));
    };
    log_settings(rt, settings);
    Ok(Parts {
        arguments: arguments_of(settings, seed),
        listen_address,
        readers,
        counts,
        shutdown,
        end,
    })
}

fn arguments_of(settings: &Settings<'_>, seed: [u8; 32]) -> ServeSettings {
    ServeSettings {
        config: settings.config,
        body: settings.body,
        messages: settings.messages,
        transports: if settings.callback_polling {
            Transports::All
        } else {
            Transports::JsonPosts
        },
        seed,
        connections: settings.connections,
        until_eof: settings.until_eof,
    }
}

type Outputs = (Option<MetricsListener>, Option<NewRecordFile<File>>);

// Listens for metrics and creates the record file. Reports errors and returns their exit status.
fn outputs_of(
    rt: &Host,
    settings: &Settings<'_>,
    counts: &Arc<Counts, Global>,
) -> Result<Outputs, ExitCode> {
    let metrics = metrics_of(rt, settings)?;
    // The record file is created last, so that a failed listener leaves no file.
    Ok((metrics, record_of(rt, settings, counts)?))
}

fn metrics_of(rt: &Host, settings: &Settings<'_>) -> Result<Option<MetricsListener>, ExitCode> {
    let Some(name) = settings.metrics else {
        return Ok(None);
    };
    let bound = match addresses_of(rt, name) {
        Ok(addresses) => MetricsListener::bind(rt, addresses.as_slice()),
        Err(error) => Err(error),
    };
    match bound {
        Ok(listener) => Ok(Some(listener)),
        Err(error) => Err(refused_at(rt, NO_METRICS, name, &error)),
    }
}

fn record_of(
    rt: &Host,
    settings: &Settings<'_>,
    counts: &Arc<Counts, Global>,
) -> Result<Option<NewRecordFile<File>>, ExitCode> {
    let Some(path) = settings.record_file else {
        return Ok(None);
    };
    match make_record(rt, path, settings, counts) {
        Ok(file) => Ok(Some(file)),
        Err(error) => {
            let exit = refused_at(rt, CANNOT_RECORD, path, &error);
            if error.kind() == io::ErrorKind::AlreadyExists {
                print(rt, RECORD_EXISTS);
            }
            Err(exit)
        }
    }
}

// Logs the end of the server, or reports why serving failed.
fn ended(rt: &Host, served: io::Result<()>) -> ExitCode {
    match served {
        Ok(()) => {
            info!(rt; target: "bayeuxd", "ended");
            ExitCode::SUCCESS
        }
        Err(error) => not_served(rt, ServeFault::CannotServe(error)),
    }
}

fn not_served(rt: &Host, fault: ServeFault<'_>) -> ExitCode {
    match fault {
        ServeFault::CannotListen(name, error) => cannot_listen(rt, name, &error),
        ServeFault::CannotServe(error) => {
            log_cannot_serve(rt, &error);
            failed_by(rt, &error, CANNOT_SERVE)
        }
    }
}

fn counts_of(rt: &Host, shards: usize) -> io::Result<Arc<Counts, Global>> {
    let alloc = rt.alloc();
    Ok(Arc::new(alloc, Counts::new(alloc, shards)?)?)
}

fn args(rt: &HostRuntime) -> io::Result<Vec<String>> {
    let mut args = Vec::new(rt.alloc());
    for arg in env::args(rt)?.skip(1) {
        args.push(arg)?;
    }
    Ok(args)
}

// Returns the arguments. If one is not UTF-8, prints the usage line and returns its exit status.
fn read_args(rt: &HostRuntime) -> Result<Vec<String>, ExitCode> {
    match args(rt) {
        Ok(args) => Ok(args),
        Err(error) => {
            let is_full = error.kind() == io::ErrorKind::OutOfMemory;
            let (text, status) = if is_full {
                (OUT_OF_MEMORY, 1)
            } else {
                (USAGE, 2)
            };
            let _ = rt.eprintln(text);
            Err(ExitCode::from(status))
        }
    }
}

// Parses the arguments, as flags or by position. For `--help`, `--version` and errors it prints the
// text and returns the exit status.
fn settings_of<'a>(
    rt: &HostRuntime,
    args: &'a [String],
    processors: usize,
) -> Result<Settings<'a>, ExitCode> {
    if !are_flags(args) {
        let Some(settings) = parse_args(rt.alloc(), args) else {
            let _ = rt.eprintln(USAGE);
            return Err(ExitCode::from(2));
        };
        return Ok(settings);
    }
    match read_flags(rt.alloc(), args, processors) {
        Ok(settings) => Ok(settings),
        Err(error) => {
            let _ = error.print(rt);
            Err(ExitCode::from(u8::try_from(error.exit_code()).unwrap_or(2)))
        }
    }
}

// Returns `true` unless the first argument can be an address, which has a colon.
fn are_flags(args: &[String]) -> bool {
    match args.first() {
        Some(first) => first.as_bytes().starts_with(b"-") || !first.contains(":"),
        None => false,
    }
}

fn seed_of(rt: &Host, seed: Seed<'_>) -> io::Result<[u8; 32]> {
    match seed {
        Seed::FromArguments(seed) => Ok(seed),
        Seed::File(path) => read_seed(rt, path),
        Seed::FromSystem => draw_seed(rt),
    }
}

fn seed_name<'a>(seed: Seed<'a>) -> &'a str {
    match seed {
        Seed::File(path) => path,
        Seed::FromSystem | Seed::FromArguments(_) => "the operating system",
    }
}

// Resolves `name`, an address to listen at. On error, reports it and returns the exit status.
fn listen_address_of<'a>(rt: &Host, name: &'a str) -> Result<ListenAddress<'a>, ExitCode> {
    match addresses_of(rt, name) {
        Ok(addresses) => Ok(ListenAddress { name, addresses }),
        Err(error) => Err(cannot_listen(rt, name, &error)),
    }
}

// Returns the addresses of `name`, in the order in which they are tried.
fn addresses_of(rt: &Host, name: &str) -> io::Result<Vec<SocketAddr>> {
    let mut addresses = Vec::new(rt.alloc());
    // A runtime with a log, such as `rt`, does not look up names of hosts.
    for address in name.to_socket_addrs(rt.inner())? {
        addresses.push(address)?;
    }
    Ok(addresses)
}

fn cannot_listen(rt: &Host, listen: &str, error: &io::Error) -> ExitCode {
    log_cannot_listen(rt, listen, error);
    failed_by(rt, error, CANNOT_LISTEN)
}

// Logs and prints what failed, its address or file, and the error.
fn refused_at(rt: &Host, what: &str, name: &str, error: &io::Error) -> ExitCode {
    log_failure(rt, what, name, error);
    match format!(in rt.alloc(); "bayeuxd: {what} at {name}: {error}") {
        Ok(why) => failed_by(rt, error, why.as_str()),
        Err(_) => failed(rt, OUT_OF_MEMORY),
    }
}

// Prints `why`, or that memory ran out if this is `error`.
fn failed_by(rt: &Host, error: &io::Error, why: &str) -> ExitCode {
    if error.kind() == io::ErrorKind::OutOfMemory {
        failed(rt, OUT_OF_MEMORY)
    } else {
        failed(rt, why)
    }
}

fn failed(rt: &Host, why: &str) -> ExitCode {
    print(rt, why);
    ExitCode::FAILURE
}

// Prints `text` to standard error, as an object if the log has objects. The line `CANNOT_LISTEN` is
// always the same.
fn print(rt: &Host, text: &str) {
    if rt.sink().form == LineForm::Json && text != CANNOT_LISTEN {
        error!(rt; target: "bayeuxd", "{text}");
    } else {
        let _ = rt.eprintln(text);
    }
}
