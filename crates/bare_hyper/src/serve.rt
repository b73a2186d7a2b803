use crate::answer::Bare;
use bx_serve::{Connections, IgnoreOutput, MakeTask, accept_limit};
use bytes::Bytes;
use futures::StreamExt;
use http_body_util::Full;
use hyper::server::conn::http1::{Builder, Connection};
use std::alloc::AllocGlobal;
use std::hash::RandomState;
use std::io;
use std::io::Write;
use std::net::{Net, SocketAddr};
use std::random::RandomSource;
use std::sync::Wait;
use std::thread::Threads;
use std::time::{Clock, Duration};
use tokio::net::{TcpListener, TcpStream};
use tokio::runtime::Runtime;

// After a failed accept, in milliseconds.
const PAUSE: u64 = 20;

/// A [`MakeTask`] that serves each connection over HTTP, without time limits.
#[derive(Drop)]
pub struct BareServer {
    http: Builder,
    service: Bare,
}

impl MakeTask for BareServer {
    type Task = IgnoreOutput<Connection<TcpStream, Bare, Full<Bytes>>>;

    fn make(&self, socket: TcpStream) -> Option<Self::Task> {
        let _ = socket.set_nodelay(true);
        Some(IgnoreOutput {
            inner: self.http.serve_connection(socket, self.service),
        })
    }
}

/// Serves with the arguments `args`: an address and a number of connections, or 0 for no limit.
///
/// Prints the address to `writer` once the server listens. Returns `false`, without serving, if
/// `args` are not valid.
///
/// # Errors
///
/// The error of a system call, or of an allocation that fails.
///
/// # Blocking
///
/// Blocks until all connections have ended.
pub fn serve<R, W>(rt: R, args: &[String], writer: &mut W) -> io::Result<bool>
where
    R: Wait + Threads + Clock + RandomSource + AllocGlobal + Net + Sync + Send + Copy + Drop,
    W: Write,
{
    let [address, connections] = args else {
        return Ok(false);
    };
    let (Ok(address), Ok(count)) = (address.as_str().parse(), connections.as_str().parse()) else {
        return Ok(false);
    };
    run(rt, address, count, writer)?;
    Ok(true)
}

// Listens on `address`, prints it, and serves `count` connections, or any number if `count` is 0.
fn run<R, W>(rt: R, address: SocketAddr, count: u64, writer: &mut W) -> io::Result<()>
where
    R: Wait + Threads + Clock + RandomSource + AllocGlobal + Net + Sync + Send + Copy + Drop,
    W: Write,
{
    let mut runtime = Runtime::new(&rt)?;
    let listener = TcpListener::bind(&rt, address, runtime.handle().reactor())?;
    told(&listener, writer)?;
    serve_connections(rt, &mut runtime, listener, count)
}

// Writes `listening ADDRESS` to `writer`.
fn told<W: Write>(listener: &TcpListener, writer: &mut W) -> io::Result<()> {
    writeln!(writer, "listening {}", listener.local_addr()?)?;
    writer.flush()
}

fn serve_connections<R>(
    rt: R,
    runtime: &mut Runtime,
    listener: TcpListener,
    count: u64,
) -> io::Result<()>
where
    R: Wait + Threads + Clock + RandomSource + AllocGlobal + Sync + Send + Copy + Drop,
{
    let pause = runtime
        .handle()
        .time()
        .interval(&rt, Duration::from_millis(PAUSE))?;
    let keys = RandomState::new(&rt)?;
    let server = BareServer {
        http: Builder::new(rt.alloc(), keys),
        service: Bare(rt.alloc()),
    };
    let connections = Connections::new(rt, listener.incoming(), server, pause);
    runtime.run_all(&rt, connections.take(accept_limit(count)))
}
