ghost use Rattle.std.specs.Prelude.{⊤, IfSome};

use crate::timeout_body::{TimeoutBody, TimeoutService};
use crate::timeout_io::TimeoutIo;
use crate::timeouts::TimeLimits;
use bx_pieces::Pieces;
use bytes::Bytes;
use futures::Future;
use futures::task::{Context, Poll};
use http::{Request, Response};
use hyper::body::Incoming;
use hyper::rt::TokioTimer;
use hyper::server::conn::http1;
use hyper::server::conn::http1::Connection;
use hyper::service::Service;
use std::time::Clock;
use tokio::net::TcpStream;

/// A future that runs another future and drops its output.
#[derive(Drop)]
pub struct IgnoreOutput<F> {
    pub inner: F,
}

impl<F: Future<Output = T>, T: Drop> Future for IgnoreOutput<F> {
    type Output = ();

    ghost can_poll = { λ q. F.can_poll q.inner };

    ghost needs = { λ q. F.needs q.inner };

    fn poll(&mut self, cx: &mut Context<'_>) -> Poll<()> {
        match self.inner.poll(cx) {
            Poll::Ready(_) => Poll::Ready(()),
            Poll::Pending => Poll::Pending,
        }
    }
}

/// A factory for the tasks of connections.
pub trait MakeTask: Drop {
    type Task: Future<Output = ()>;

    // Ghost: what must be true for `make` to be called.
    ghost can_make: { Self → Type 0 } = { λ _. ⊤ };

    /// Creates the task that serves `socket`, if memory suffices.
    fn make(&self, socket: TcpStream) -> Option<Self::Task>
        requires { can_make self.now }
        ensures { IfSome result Self.Task.can_poll };
}

/// A TCP connection with a limit on each wait for the peer to take data.
pub type Served<R> = TimeoutIo<TcpStream, TokioTimer<R>>;

/// The body of a request, as the service gets it, with time limits.
///
/// The timer is `None` if memory ran out for it. The body then fails as soon as it would wait.
pub type RequestBody<R> = TimeoutBody<Incoming<Served<R>>, Option<TokioTimer<R>>>;

/// A [`MakeTask`] that serves each connection over HTTP with a clone of a service.
#[derive(Drop)]
pub struct Server<R, S> {
    /// With a timer for the heads of requests.
    pub http: http1::Builder<TokioTimer<R>>,
    /// Cloned for each connection.
    pub service: S,
    /// For the limits on bodies and on writes to peers.
    pub timer: TokioTimer<R>,
    pub limits: TimeLimits,
}

impl<R, S, E> MakeTask for Server<R, S>
where
    R: Clock + Copy + Drop,
    S: Service<Request<RequestBody<R>>, Response = Response<Pieces<Bytes>>, Error = E> + Clone,
    E: Into<anyhow::Error> + Drop,
{
    type Task = IgnoreOutput<
        Connection<Served<R>, TimeoutService<S, TokioTimer<R>>, Pieces<Bytes>, TokioTimer<R>>,
    >;

    ghost can_make = { λ _. (service : S) → S.can_call service };

    fn make(&self, socket: TcpStream) -> Option<Self::Task> {
        let _ = socket.set_nodelay(true);
        let service = TimeoutService {
            service: self.service.clone().ok()?,
            timer: self.timer.clone().ok()?,
            limits: self.limits,
        };
        let timer = self.timer.clone().ok()?;
        let io = TimeoutIo::new(socket, timer, self.limits);
        Some(IgnoreOutput {
            inner: self.http.serve_connection(io, service),
        })
    }
}
