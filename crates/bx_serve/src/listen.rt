use crate::connections::{Connections, accept_limit};
use crate::make_task::{RequestBody, Server};
use crate::spawn_each::run_until;
use crate::timeouts::TimeLimits;
use bx_pieces::Pieces;
use bytes::Bytes;
use futures::Future;
use http::{Request, Response};
use hyper::rt::TokioTimer;
use hyper::server::conn::http1;
use hyper::service::Service;
use std::alloc::AllocGlobal;
use std::hash::RandomState;
use std::io;
use std::random::RandomSource;
use std::sync::Wait;
use std::thread::Threads;
use std::time::Clock;
use tokio::net::TcpListener;
use tokio::runtime::Runtime;

/// A listener and the service for its connections.
pub type Endpoint<S> = (TcpListener, S);

/// Serves up to `count` connections over HTTP, each as a task, until `end` is ready.
///
/// The connections come from `first` and, if given, `other`. A `count` of 0 is no limit. After the
/// last accept, the open connections are served up to the runtime's shutdown timeout.
///
/// A connection ends if the head of a request takes more than 30 seconds, or if the peer takes no
/// data for 30 seconds. A body fails if no data arrives for 30 seconds, or if it is not complete in
/// five minutes. If memory runs out for a connection, it is dropped.
///
/// # Errors
///
/// The error of a system call, or of an allocation that fails before any connection is served.
///
/// # Blocking
///
/// Blocks until all connections have ended.
pub fn serve_until<R, S, E, A, T>(
    rt: R,
    runtime: &mut Runtime,
    first: Endpoint<S>,
    other: Option<Endpoint<S>>,
    count: u64,
    end: A,
) -> io::Result<()>
where
    R: Wait + Threads + Clock + RandomSource + AllocGlobal + Sync + Send + Copy + Drop,
    S: Service<Request<RequestBody<R>>, Response = Response<Pieces<Bytes>>, Error = E>
        + Clone
        + Send,
    S::Future: Send,
    E: Into<anyhow::Error> + Drop + Send,
    A: Future<Output = T>,
    T: Drop,
    requires service { (each : S) → S.can_call each }
    requires end { A.can_poll end }
{
    let first = connections_of(&rt, runtime, first)?;
    let other = match other {
        Some(other) => Some(connections_of(&rt, runtime, other)?),
        None => None,
    };
    run_until(&rt, runtime, first, other, accept_limit(count), end)
}

fn connections_of<R, S, E>(
    rt: &R,
    runtime: &Runtime,
    (listener, service): Endpoint<S>,
) -> io::Result<Connections<R, Server<R, S>>>
where
    R: Clock + RandomSource + AllocGlobal + Copy + Drop,
    S: Service<Request<RequestBody<R>>, Response = Response<Pieces<Bytes>>, Error = E>
        + Clone
        + Drop,
    E: Into<anyhow::Error> + Drop,
{
    let limits = TimeLimits::standard();
    let timers = runtime.handle().time().clone()?;
    let pause = timers.interval(rt, limits.pause)?;
    let keys = RandomState::new(rt)?;
    let timer = TokioTimer::new(*rt, timers);
    let http = http1::Builder::new(rt.alloc(), keys).timer(timer.clone()?);
    let maker = Server {
        http,
        service,
        timer,
        limits,
    };
    Ok(Connections::new(*rt, listener.incoming(), maker, pause))
}
