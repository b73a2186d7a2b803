//! The metrics listener.
ghost use Rattle.std.specs.Prelude.{◌≤◌, length, IfOk};

use crate::clock::SinceStart;
use crate::lists::{channels_text, sessions_text};
use bx_hub::{Hub, HubKind};
use bx_metrics::{
    Counts, Metric, MetricsRequest, PageSettings, ProcessTexts, ProcessValues, STATUS_PAGE,
    page_text, response_text,
};
use bx_service::Clock;
use log::{Log, info};
use std::alloc::{AllocGlobal, Global};
use std::io::{Read, Write};
use std::net::{IpAddr, Net, SocketAddr, TcpListener, TcpStream};
use std::rt::Files;
use std::sync::{Arc, Wait};
use std::time::{Duration, Instant};
use std::{fs, io, thread, time};

// Milliseconds for a request's head, and for a write to make progress. Policy of this server.
const PATIENCE: u64 = 2000;

// The fewest milliseconds for the first byte of a request. Policy of this server.
const LEAST_PATIENCE: u64 = 125;

// Milliseconds after a failed accept, for example without a free file descriptor. Policy of this
// server.
const PAUSE: u64 = 20;

// The most bytes that are read of one request. Policy of this server.
const HEAD: usize = 4096;

// The most calls that read data of one request. Policy of this server.
const READS: usize = 16;

/// A listener for metrics, before it accepts connections.
#[derive(Drop)]
pub struct MetricsListener {
    listener: TcpListener,
}

impl MetricsListener {
    /// Listens at the first of `addresses` that works, and logs the address.
    ///
    /// # Errors
    ///
    /// The error of the last address, or of a system call.
    pub fn bind<R>(rt: &R, addresses: &[SocketAddr]) -> io::Result<MetricsListener>
    where
        R: Net<Listener = TcpListener, Stream = TcpStream> + Log,
    {
        let listener = TcpListener::bind(rt, addresses)?;
        let at = listener.local_addr()?;
        info!(rt; target: "bayeuxd", address = at; "metrics listening");
        Ok(MetricsListener { listener })
    }
}

/// What the thread that answers at the metrics listener uses.
#[derive(Drop)]
pub struct MetricsParts<L: HubKind, R: Wait + Drop, P> {
    pub rt: R,
    pub hub: Arc<Hub<L, R>, Global>,
    /// The clock of the hub's moments.
    pub clock: SinceStart<R>,
    pub counts: Arc<Counts, Global>,
    pub settings: PageSettings,
    /// Returns what the page of metrics shows of the process.
    pub process: P,
}

impl<L, R, P> MetricsParts<L, R, P>
where
    L: HubKind,
    R: Wait + time::Clock + AllocGlobal + Drop,
    P: Fn() -> ProcessValues,
{
    /// Answers requests at `listener` until the program ends.
    ///
    /// Answers one request on each connection, one connection at a time. A request gets no response
    /// if its head takes too long, a system call fails or memory runs out. After each connection
    /// that sends nothing, the next one has half the time for its first byte.
    ///
    /// # Blocking
    ///
    /// Waits for connections and requests. Locks a shard while it copies one of its sessions.
    pub fn answer_all(&self, listener: &MetricsListener)
        requires { P.IsAlwaysCallable self.now.process }
    {
        let mut patience = PATIENCE;
        for stream in listener.listener.incoming() {
            let Ok(stream) = stream else {
                thread::sleep(&self.rt, Duration::from_millis(PAUSE));
                continue;
            };
            if let Ok(passed) = self.clock.start.elapsed(&self.rt) {
                self.counts.set(Metric::Uptime, passed.as_secs());
            }
            patience = if is_silent(&stream, patience) {
                LEAST_PATIENCE.max(patience / 2)
            } else {
                let _ = self.answer(stream);
                PATIENCE
            };
        }
    }

    fn answer(&self, mut stream: TcpStream) -> io::Result<()>
        requires { P.IsAlwaysCallable self.now.process }
    {
        stream.set_write_timeout(Some(Duration::from_millis(PATIENCE)))?;
        let mut head = [0; HEAD];
        let rt = &self.rt;
        let length = read_head(rt, &mut stream, &mut head)?;
        let (alloc, shards) = (rt.alloc(), self.settings.config.shards);
        let asked = asked_of(&head[..length]);
        let page = match asked {
            MetricsRequest::StatusPage => Vec::from_slice(alloc, STATUS_PAGE.as_bytes())?,
            MetricsRequest::Metrics => {
                let metrics = self.counts.read(alloc)?;
                page_text(alloc, &metrics, &self.settings, &(self.process)())?.into_bytes()
            }
            MetricsRequest::Sessions => {
                sessions_text(rt, alloc, &*self.hub, shards, self.clock.now())?
            }
            MetricsRequest::Channels => channels_text(rt, alloc, &*self.hub, shards)?,
            MetricsRequest::Health
            | MetricsRequest::Misdirected
            | MetricsRequest::Other
            | MetricsRequest::NoGet => Vec::new(alloc),
        };
        let health = self.counts.health(self.clock.now());
        let text = response_text(alloc, asked, health, page.as_slice())?;
        stream.write_all(text.as_slice())
    }
}

/// Reads what Linux reports of this process. What cannot be read is unknown.
pub fn process_values<R: Files + AllocGlobal + Copy + Drop>(rt: &R) -> ProcessValues {
    let process = text_of(rt, "/proc/self/stat");
    let limits = text_of(rt, "/proc/self/limits");
    let system = text_of(rt, "/proc/stat");
    let texts = ProcessTexts {
        process: process.as_str(),
        limits: limits.as_str(),
        system: system.as_str(),
    };
    ProcessValues::of(texts, open_files(rt).ok())
}

// Returns an empty text if the file cannot be read.
fn text_of<R: Files + AllocGlobal>(rt: &R, path: &str) -> String {
    match fs::read_to_string(rt, path) {
        Ok(text) => text,
        Err(_) => String::new(rt.alloc()),
    }
}

fn open_files<R: Files + AllocGlobal + Copy + Drop>(rt: &R) -> io::Result<u64> {
    let mut count: u64 = 0;
    for entry in fs::read_dir(rt, "/proc/self/fd")? {
        let _ = entry?;
        count = count.saturating_add(1);
    }
    // The list also has the descriptor from which it is read.
    Ok(count.saturating_sub(1))
}

// Reads a request's head up to its empty line, the end of the data, or the limits `HEAD` and
// `READS`.
fn read_head<R: time::Clock>(rt: &R, stream: &mut TcpStream, head: &mut [u8]) -> io::Result<usize>
    ensures { IfOk result (λ n. n ≤ length head.new) }
{
    let begun = Instant::now(rt)?;
    let mut length = 0;
    for _ in 0..READS {
        let Some(room) = head.get_mut(length..) else {
            break;
        };
        let left = Duration::from_millis(PATIENCE).saturating_sub(begun.elapsed(rt)?);
        // The system rejects a timeout of zero.
        stream.set_read_timeout(Some(left))?;
        let read = stream.read(room)?;
        length += read;
        if read == 0 || is_whole(&head[..length]) {
            break;
        }
    }
    Ok(length)
}

// Returns what a request asks for. Its page or list is `Misdirected` if the field `Host` is no
// address: a page of another site whose name leads to this server could read it in a browser.
fn asked_of(head: &[u8]) -> MetricsRequest {
    let asked = MetricsRequest::of(head);
    let has_secrets = matches!(
        asked,
        MetricsRequest::StatusPage | MetricsRequest::Sessions | MetricsRequest::Channels
    );
    let mut lines = str::from_utf8(head).unwrap_or("").split("\r\n");
    match lines.find_map(host_in) {
        Some(host) if has_secrets && !is_address(host) => MetricsRequest::Misdirected,
        _ => asked,
    }
}

// Returns the value of a line of a head if this is the field `Host`.
fn host_in(line: &str) -> Option<&str> {
    let (name, value) = line.split_once(":")?;
    name.eq_ignore_ascii_case("host").then_some(value.trim())
}

// Returns `true` if `host` is an IP address or `localhost`, with or without a port.
fn is_address(host: &str) -> bool {
    let name = host.rsplit_once(":").map_or(host, |(name, _)| name);
    name == "localhost" || host.parse::<IpAddr>().is_ok() || host.parse::<SocketAddr>().is_ok()
}

// Returns `true` if no byte arrives within `patience` milliseconds.
fn is_silent(stream: &TcpStream, patience: u64) -> bool {
    let wait = stream.set_read_timeout(Some(Duration::from_millis(patience)));
    wait.is_ok() && stream.peek(&mut [0]).is_err()
}

fn is_whole(head: &[u8]) -> bool {
    head.windows(4).any(|it| it == b"\r\n\r\n".as_slice())
}
