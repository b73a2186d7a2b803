//! A service, and the connections in memory that it serves.
ghost use Rattle.std.specs.Prelude.{◌≡◌, false};

use crate::wire::Wire;
use anyhow::{Result, anyhow};
use bx_pieces::Pieces;
use bytes::Bytes;
use futures::Future;
use futures::task::Poll;
use futures::test::MockTask;
use http::{Request, Response};
use hyper::body::Incoming;
use hyper::server::conn::http1;
use hyper::service::Service;
use std::alloc::{AllocError, Global};

// The greatest number of polls of a task that wakes itself.
const POLLS: u32 = 100;

/// The HTTP settings of all connections, and the tasks that serve them.
#[derive(Drop)]
pub struct Tools {
    pub http: http1::Builder,
    /// The task that serves connections which must end without a wait.
    pub task: MockTask,
    /// The task that serves a connection which must first wait.
    pub waiting: MockTask,
}

/// A service, and what serves its connections.
#[derive(Drop)]
pub struct Host<'a, S> {
    /// The allocator of all connections.
    pub alloc: Global,
    /// The service, which each connection clones.
    pub service: &'a S,
    pub tools: &'a Tools,
}

impl<S, E> Host<'_, S>
where
    S: Service<Request<Incoming<Wire>>, Response = Response<Pieces<Bytes>>, Error = E> + Clone,
    E: Into<anyhow::Error> + Drop,
{
    /// Serves `wire` until it ends or fails, and returns what was written to it.
    ///
    /// # Errors
    ///
    /// If memory runs out or the connection does not end.
    pub fn serve(&self, wire: Wire) -> Result<Vec<u8>>
        requires { (each : S) → S.can_call each }
    {
        let service = self.service.clone()?;
        let mut connection = self.tools.http.serve_connection(wire, service);
        let is_over = ends(&self.tools.task, &mut connection);
        let written = connection.into_parts().io.into_written();
        is_over.then_some(written).ok_or(anyhow!("it waits"))
    }

    /// Serves `wire` until it ends, and posts `body` on another connection while `wire` waits.
    ///
    /// Returns what was written to `wire`. Appends what was written to the other connection to
    /// `text`.
    ///
    /// # Errors
    ///
    /// If memory runs out, `wire` does not wait, or a connection does not end.
    pub fn serve_around(&self, wire: Wire, body: &str, text: &mut String) -> Result<Vec<u8>>
        requires { (each : S) → S.can_call each }
    {
        let service = self.service.clone()?;
        let mut connection = self.tools.http.serve_connection(wire, service);
        let done = self.post_while(&mut connection, body, text);
        let written = connection.into_parts().io.into_written();
        done?;
        Ok(written)
    }

    fn post_while<F>(&self, held: &mut F, body: &str, text: &mut String) -> Result<()>
    where
        F: Future,
        F::Output: Drop,
        requires service { (each : S) → S.can_call each }
        requires held { F.can_poll held.old }
    {
        if ends(&self.tools.waiting, held) {
            return Err(anyhow!("it does not wait"));
        }
        self.post(body, text)?;
        let is_over = ends(&self.tools.waiting, held);
        is_over.then_some(()).ok_or(anyhow!("it waits"))
    }

    /// Posts `body` on its own connection, and appends what the server wrote to `text`.
    ///
    /// # Errors
    ///
    /// If memory runs out or the connection does not end.
    pub fn post(&self, body: &str, text: &mut String) -> Result<()>
        requires { (each : S) → S.can_call each }
    {
        let bytes = post(self.alloc, body)?;
        let wire = Wire::new(self.alloc, bytes.as_bytes(), b"")?;
        add_written(text, self.alloc, self.serve(wire)?.as_slice())?;
        Ok(())
    }
}

// Polls `future` as long as it wakes `task`, at most `POLLS` times. Returns `true` if it completes.
fn ends<F>(task: &MockTask, future: &mut F) -> bool
where
    F: Future,
    F::Output: Drop,
    requires { F.can_poll future.old }
    ensures { result ≡ false → F.can_poll future.new }
{
    for _ in 0..POLLS {
        match task.poll(future) {
            Poll::Ready(_) => return true,
            Poll::Pending => {
                if !task.is_woken() {
                    return false;
                }
            }
        }
    }
    false
}

/// Formats a POST request with the JSON body `body`.
///
/// # Errors
///
/// `AllocError` if memory runs out.
pub fn post(alloc: Global, body: &str) -> Result<String, AllocError> {
    let length = body.len();
    format!(in alloc;
        "POST /cometd HTTP/1.1\r\nhost: localhost\r\ncontent-type: application/json\r\ncontent-length: {length}\r\n\r\n{body}"
    )
}

/// Appends the lines of `written` to `text`, each followed by only a line feed.
///
/// # Errors
///
/// `AllocError` if memory runs out. Some of the lines may then be appended.
pub fn add_written(text: &mut String, alloc: Global, written: &[u8]) -> Result<(), AllocError> {
    let written = String::from_utf8_lossy(alloc, written)?;
    for line in written.as_str().lines() {
        text.push_str(line)?;
        text.push_str("\n")?;
    }
    Ok(())
}
