//! Runs the server: the hub, the thread that posts ticks, the record, and the listeners.
ghost use Rattle.std.specs.Prelude.{◌≡◌, IfOk};
ghost use Rattle.bx_entry.specs.Placings.{by_remainder};

use crate::clock::{RandomNonces, SinceStart};
use crate::end::CloseOnShutdown;
use crate::metrics::{MetricsListener, MetricsParts};
use crate::recorder::{NewRecordFile, Recorder};
use crate::refusals::{ListenerRefusals, RefusalLogger};
use crate::ticker::{Ticker, TickerParts};
use crate::timed::TimedBackend;
use bx_advice::{BodyLimit, Config};
use bx_entry::{Access, ByRemainder, SharedPatterns};
use bx_hub::{Hub, HubKind, Kind, OpenGate};
use bx_metrics::{Counts, PageSettings, ProcessValues};
use bx_names::Pattern;
use bx_record::WaitingAnswerLines;
use bx_serve::{Endpoint, serve_until};
use bx_service::{
    AnswerLogger, Answered, Backend, BayeuxService, HubBackend, Observer, Transports, Unanswered,
};
use bx_settings::VERSION;
use bx_window::{EmptyWindow, LogId};
use futures::Future;
use futures::channel::oneshot::Receiver;
use log::{Log, info};
use rand_chacha::ChaCha20Rng;
use rand_core::SeedableRng;
use std::alloc::{AllocError, AllocGlobal, Global};
use std::io::Write;
use std::marker::Brand;
use std::net::{Net, SocketAddr};
use std::random::RandomSource;
use std::sync::{Arc, Mutex, Wait};
use std::thread::Threads;
use std::time::{Clock, Duration, Instant};
use std::{io, thread};
use tokio::net::TcpListener;
use tokio::runtime::Runtime;

/// How the server runs.
#[derive(Clone, Copy)]
pub struct ServeSettings {
    pub config: Config,
    pub body: BodyLimit,
    /// The greatest number of messages in a request.
    pub messages: usize,
    pub transports: Transports,
    /// The seed for nonces.
    pub seed: [u8; 32],
    /// The number of connections after which the server ends, or 0 for no limit.
    pub connections: u64,
    /// Whether the server also ends when standard input ends.
    pub until_eof: bool,
}

impl ServeSettings {
    fn page_settings(&self) -> PageSettings {
        PageSettings {
            version: VERSION,
            config: self.config,
            body: self.body,
            messages: self.messages,
        }
    }

    // With a limit of connections, the accepted ones may last for any time.
    fn limit_shutdown(&self, runtime: &mut Runtime) {
        if self.until_eof && self.connections == 0 {
            runtime.set_shutdown_timeout(Some(Duration::from_millis(LEAVE)));
        }
    }
}

/// The kind of the server's hub. `L`: the window of its list.
pub type ServerKind<L> = Kind<L, ByRemainder, OpenGate>;

// How long open connections are served at the end, with `until_eof` and no limit of connections, in
// milliseconds. Policy of this server.
const LEAVE: u64 = 1000;

/// Why the server cannot start, or stopped.
#[derive(Debug, Drop)]
pub enum ServeFault<'a> {
    /// At any address of this name. The error is that of the last address.
    CannotListen(&'a str, io::Error),
    /// For example, a thread cannot be started, or memory ran out.
    CannotServe(io::Error),
}

impl From<io::Error> for ServeFault<'_> {
    fn from(error: io::Error) -> Self {
        ServeFault::CannotServe(error)
    }
}

/// A name to listen at.
#[derive(Drop)]
pub struct ListenAddress<'a> {
    /// The host and the port, as they were given.
    pub name: &'a str,
    /// In the order in which they are tried.
    pub addresses: Vec<SocketAddr>,
}

/// A runtime, with the listeners that are open on it.
#[derive(Drop)]
pub struct Listening {
    runtime: Runtime,
    listener: TcpListener,
    readers: Option<TcpListener>,
}

/// Listens at `listen_address` and, for the read-only listener, at `readers`.
///
/// Uses the first address of each name that works.
///
/// # Errors
///
/// `CannotServe` or `CannotListen`.
pub fn listen<'a, R>(
    rt: &R,
    listen_address: ListenAddress<'a>,
    readers: Option<ListenAddress<'a>>,
) -> Result<Listening, ServeFault<'a>>
where
    R: Threads + Clock + RandomSource + AllocGlobal + Net,
{
    let runtime = Runtime::new(rt)?;
    let listener = bind(rt, &runtime, listen_address)?;
    let readers = match readers {
        Some(listen_address) => Some(bind(rt, &runtime, listen_address)?),
        None => None,
    };
    Ok(Listening {
        runtime,
        listener,
        readers,
    })
}

/// A server before it serves connections.
#[derive(Drop)]
pub struct Server<R, F, P> {
    pub rt: R,
    pub listening: Listening,
    pub metrics: Option<MetricsListener>,
    /// Returns what the metrics show of this process.
    pub process: P,
    /// The limit of file descriptors, if it is known.
    pub max_files: Option<u64>,
    /// The patterns of the broadcast channels that the read-only listener allows.
    pub readers_publish: Vec<Pattern>,
    pub arguments: ServeSettings,
    pub record_file: Option<NewRecordFile<F>>,
    /// Ready when the server is to end.
    pub shutdown: Receiver<()>,
}

impl<R, F, P> Server<R, F, P>
where
    R: Wait
        + Threads
        + Clock
        + RandomSource
        + AllocGlobal
        + Net
        + Log
        + Sync
        + Send
        + Copy
        + Drop
        + 'static,
    F: Write + Send + Drop + 'static,
    P: Fn() -> ProcessValues + Send + Drop + 'static,
{
    /// Serves until `arguments.connections`, if not 0, were accepted or `shutdown` is ready.
    ///
    /// Prints the listeners' addresses to `writer`, and records the list in `record_file`, if
    /// given. Once `shutdown` is ready, it closes the hub, which ends held connects. Then it waits
    /// for the open connections to end. With `until_eof` and no limit of connections, it closes
    /// those that are still open after a second.
    ///
    /// # Errors
    ///
    /// The error of a system call.
    ///
    /// # Blocking
    ///
    /// Blocks until all connections have ended.
    pub fn serve<W: Write>(self, counts: &Arc<Counts, Global>, writer: &mut W) -> io::Result<()>
        requires process { (f : _) → P.pre f }
    {
        let start = Instant::now(&self.rt)?;
        let placing = Arc::new(self.rt.alloc(), ByRemainder)?;
        self.run::<Brand, W>(EmptyWindow::new(), start, placing, counts, writer)
    }

    // Serves connections over a new hub, while a thread posts ticks.
    fn run<L: LogId + Send + Sync + 'static, W: Write>(
        self,
        opened: EmptyWindow,
        start: Instant,
        placing: Arc<ByRemainder, Global>,
        counts: &Arc<Counts, Global>,
        writer: &mut W,
    ) -> io::Result<()>
    where
        requires book { opened.seen.book ≡ L.book }
        requires config { self.arguments.config ≡ L.config }
        requires placing { by_remainder ≡ L.placing }
        requires process { (f : _) → P.pre f }
    {
        let Server {
            rt,
            listening,
            metrics,
            process,
            max_files,
            readers_publish,
            arguments,
            record_file,
            shutdown,
        } = self;
        let Listening {
            mut runtime,
            listener,
            readers,
        } = listening;
        let ServeSettings { config, seed, .. } = arguments;
        let hub = Hub::<ServerKind<L>, R>::new(rt.alloc(), rt, opened, config, placing, OpenGate)?;
        let hub = hub.with_most_messages(arguments.messages);
        let shared = SharedParts::new(rt, hub, SinceStart { rt, start }, seed, counts)?;
        if let Some(listener) = metrics {
            shared.start_metrics(arguments, process, listener)?;
        }
        // The recorder starts before anything is appended to the list, such as the first tick.
        let recorder = Recorder::start(rt, &shared.hub, record_file)?;
        let (first, other) = shared.endpoints(listener, readers, readers_publish, &recorder)?;
        let ticker = shared.start_ticker(max_files)?;
        arguments.limit_shutdown(&mut runtime);
        let end = shared.close_on(shutdown)?;
        counts.set_listens(true);
        tell_all(&rt, &first, other.as_ref(), writer)?;
        let served = serve_hub(rt, &mut runtime, first, other, arguments, end);
        counts.set_listens(false);
        ticker.end(&rt);
        shared.hub.close(&rt);
        recorder.end(&rt);
        served
    }
}

// Logs and prints the addresses of the listeners.
fn tell_all<R: Log, W: Write, S, O>(
    rt: &R,
    first: &EndpointParts<S, O>,
    other: Option<&EndpointParts<S, O>>,
    writer: &mut W,
) -> io::Result<()> {
    tell(rt, "listening", &first.listener, writer)?;
    if let Some(other) = other {
        tell(rt, "readers listening", &other.listener, writer)?;
    }
    Ok(())
}

fn tell<R: Log, W: Write>(
    rt: &R,
    what: &str,
    listener: &TcpListener,
    writer: &mut W,
) -> io::Result<()> {
    let address = listener.local_addr()?;
    info!(rt; target: "bayeuxd", address; "{what}");
    writeln!(writer, "{what} {address}")?;
    writer.flush()
}

// Listens at the first address that works. If none does, returns the last error.
fn bind<'a, R: Net>(
    rt: &R,
    runtime: &Runtime,
    listen_address: ListenAddress<'a>,
) -> Result<TcpListener, ServeFault<'a>> {
    let mut refused = io::ErrorKind::AddrNotAvailable.into();
    for address in listen_address.addresses {
        match TcpListener::bind(rt, address, runtime.handle().reactor()) {
            Ok(listener) => return Ok(listener),
            Err(error) => refused = error,
        }
    }
    Err(ServeFault::CannotListen(listen_address.name, refused))
}

// What the listeners and threads of a server share.
#[derive(Drop)]
struct SharedParts<L: HubKind, R: Wait + Drop> {
    rt: R,
    hub: Arc<Hub<L, R>, Global>,
    clock: SinceStart<R>,
    generator: Arc<Mutex<ChaCha20Rng>, Global>,
    counts: Arc<Counts, Global>,
    refusals: ListenerRefusals<R>,
}

#[derive(Drop)]
struct EndpointParts<S, O> {
    listener: TcpListener,
    backend: S,
    observer: O,
}

// Metrics, the log of answers, and the log of refusals.
type EndpointObserver<R> = (
    (Arc<Counts, Global>, AnswerLogger<R>),
    Arc<RefusalLogger<R>, Global>,
);

type HubEndpoint<L, R> = EndpointParts<
    TimedBackend<HubBackend<L, R, SinceStart<R>, RandomNonces<R>>, R>,
    EndpointObserver<R>,
>;

impl<L: HubKind, R: Wait + Clock + AllocGlobal + Log + Copy + Drop> SharedParts<L, R> {
    fn new(
        rt: R,
        hub: Hub<L, R>,
        clock: SinceStart<R>,
        seed: [u8; 32],
        counts: &Arc<Counts, Global>,
    ) -> Result<SharedParts<L, R>, AllocError> {
        let alloc = rt.alloc();
        Ok(SharedParts {
            rt,
            hub: Arc::new(alloc, hub)?,
            clock,
            generator: Arc::new(alloc, Mutex::new(ChaCha20Rng::from_seed(seed)))?,
            counts: Arc::try_clone(counts)?,
            refusals: ListenerRefusals::new(rt, alloc)?,
        })
    }

    // Creates the backends and observers. `publish`: patterns of the channels that `readers`
    // allows.
    fn endpoints(
        &self,
        listener: TcpListener,
        readers: Option<TcpListener>,
        publish: Vec<Pattern>,
        recorder: &Recorder,
    ) -> io::Result<(HubEndpoint<L, R>, Option<HubEndpoint<L, R>>)> {
        let alloc = self.rt.alloc();
        let ListenerRefusals { main, read_only } = self.refusals.try_clone()?;
        let first = self.parts_for(listener, Access::ReadWrite, main, recorder.answers()?)?;
        let Some(listener) = readers else {
            return Ok((first, None));
        };
        let access = Access::ReadOnly(SharedPatterns::new(alloc, publish)?);
        let other = self.parts_for(listener, access, read_only, recorder.answers()?)?;
        Ok((first, Some(other)))
    }

    fn parts_for(
        &self,
        listener: TcpListener,
        access: Access,
        refusals: Arc<RefusalLogger<R>, Global>,
        answers: Option<Arc<WaitingAnswerLines, Global>>,
    ) -> io::Result<HubEndpoint<L, R>> {
        let (rt, alloc) = (self.rt, self.rt.alloc());
        let nonces = RandomNonces {
            rt,
            generator: Arc::try_clone(&self.generator)?,
        };
        let hub = Arc::try_clone(&self.hub)?;
        Ok(EndpointParts {
            listener,
            backend: TimedBackend {
                rt,
                backend: HubBackend::new(rt, alloc, hub, access, self.clock, nonces),
                counts: Arc::try_clone(&self.counts)?,
            },
            observer: (
                (
                    Arc::try_clone(&self.counts)?,
                    AnswerLogger::new(rt, alloc, answers),
                ),
                refusals,
            ),
        })
    }

    fn close_on<A: Drop>(&self, shutdown: A) -> Result<CloseOnShutdown<L, R, A>, AllocError>
        ensures { IfOk result (λ c. c.shutdown ≡ shutdown) }
    {
        Ok(CloseOnShutdown {
            rt: self.rt,
            hub: Arc::try_clone(&self.hub)?,
            counts: Arc::try_clone(&self.counts)?,
            shutdown,
        })
    }
}

impl<L, R> SharedParts<ServerKind<L>, R>
where
    L: LogId + Send + Sync + 'static,
    R: Wait + Threads + Clock + AllocGlobal + Log + Sync + Send + Copy + Drop + 'static,
{
    fn start_ticker(&self, max_files: Option<u64>) -> io::Result<Ticker> {
        Ticker::start(TickerParts {
            rt: self.rt,
            hub: Arc::try_clone(&self.hub)?,
            clock: self.clock,
            counts: Arc::try_clone(&self.counts)?,
            refusals: self.refusals.try_clone()?,
            max_files,
        })
    }

    fn start_metrics<P: Fn() -> ProcessValues + Send + Drop + 'static>(
        &self,
        arguments: ServeSettings,
        process: P,
        listener: MetricsListener,
    ) -> io::Result<()>
        requires process { (f : _) → P.pre f }
    {
        let parts = MetricsParts {
            rt: self.rt,
            hub: Arc::try_clone(&self.hub)?,
            clock: self.clock,
            counts: Arc::try_clone(&self.counts)?,
            settings: arguments.page_settings(),
            process,
        };
        let _answering = thread::spawn(
            &self.rt,
            move ||
                requires { (f : _) → P.pre f }
            {
                parts.answer_all(&listener);
            },
        )?;
        Ok(())
    }
}

// Serves the connections of a hub's listeners until `end` is ready.
//
// Prover: a function of its own, because `run` has too many bounds to compare the full types.
fn serve_hub<L, R, A>(
    rt: R,
    runtime: &mut Runtime,
    first: HubEndpoint<ServerKind<L>, R>,
    other: Option<HubEndpoint<ServerKind<L>, R>>,
    arguments: ServeSettings,
    end: A,
) -> io::Result<()>
where
    L: LogId + Send + Sync + 'static,
    R: Wait + Threads + Clock + RandomSource + AllocGlobal + Log + Sync + Send + Copy + Drop,
    A: Future<Output = ()>,
    requires { A.can_poll end }
{
    serve_endpoints(rt, runtime, first, other, arguments, end)
}

// Accepts up to `arguments.connections` connections (0: any number) of `first` and, if given, of
// `other`, until `end` is ready, and serves them.
//
// Prover: generic, because comparing the full types in the connections' tasks takes too long.
fn serve_endpoints<S, I, O, R, A>(
    rt: R,
    runtime: &mut Runtime,
    first: EndpointParts<S, O>,
    other: Option<EndpointParts<S, O>>,
    arguments: ServeSettings,
    end: A,
) -> io::Result<()>
where
    S: Backend<Items = I, Witness: Send> + Send + Sync + Drop,
    I: Future<Output = Result<Answered<S::Witness>, Unanswered<S::Witness>>> + Send + Drop,
    O: Observer + Send + Sync,
    R: Wait + Threads + Clock + RandomSource + AllocGlobal + Sync + Send + Copy + Drop,
    A: Future<Output = ()>,
    requires { A.can_poll end }
{
    let alloc = rt.alloc();
    let first = endpoint_of(alloc, arguments, first)?;
    let other = match other {
        Some(parts) => Some(endpoint_of(alloc, arguments, parts)?),
        None => None,
    };
    serve_until(rt, runtime, first, other, arguments.connections, end)
}

fn endpoint_of<S: Backend, O: Observer>(
    alloc: Global,
    arguments: ServeSettings,
    parts: EndpointParts<S, O>,
) -> io::Result<Endpoint<BayeuxService<S, O>>> {
    let service = BayeuxService::with_observer(alloc, parts.backend, parts.observer)?;
    let service = service
        .with_limit(arguments.body)
        .with_transports(arguments.transports);
    Ok((parts.listener, service))
}
