//! A client that retries an exchange if memory runs out.
ghost use Rattle.std.specs.Prelude.{IfOk};
ghost use Rattle.futures.specs.Poll.{OnPending};

use crate::requests::string;
use crate::services::asked::{Asked, request};
use crate::unlike::{Unlike, check};
use bx_calls::post;
use bx_hub::{Hub, HubKind};
use bx_pieces::Pieces;
use bx_service::{Backend, BayeuxService, Collect, ServiceFault};
use bytes::Bytes;
use futures::Future;
use futures::task::Poll;
use futures::test::MockTask;
use http::Response;
use hyper::service::Service;
use std::alloc::Global;
use std::sync::{Arc, Wait};

/// The result of an exchange: an HTTP response, or the fault of the service.
pub type Given = Result<Response<Pieces<Bytes>>, ServiceFault>;

/// What a request adds to the hub's list.
#[derive(Clone, Copy)]
pub enum Adds {
    /// The request adds no entry to the list: it is rejected, or its entry is already counted.
    Nothing,
    /// The request adds one entry to the list, and opens no session.
    Entry,
    /// The request adds one entry to the list, which opens a session.
    Session,
}

/// A client of a service over a hub, and the lines of the responses.
#[derive(Drop)]
pub struct Client<S: Drop, L: HubKind, R: Wait + Drop> {
    /// The right to wait for the hub's locks.
    pub rt: R,
    /// The allocator for requests and lines.
    pub alloc: Global,
    /// The hub of the service.
    pub hub: Arc<Hub<L, R>, Global>,
    /// The service that answers the requests.
    pub service: BayeuxService<S>,
    /// The task that polls the exchanges.
    pub task: MockTask,
    /// The lines so far, separated by newlines.
    pub text: String,
    /// The expected number of entries in the hub's list.
    pub entries: u64,
    /// The expected number of sessions that the entries of the hub's list opened.
    pub sessions: u64,
}

impl<S: Backend<Items: Drop>, L: HubKind, R: Wait + Drop> Client<S, L, R> {
    /// Adds what a request added to the list to the expected numbers of entries and sessions.
    pub fn count(&mut self, adds: Adds) {
        let (entries, sessions) = match adds {
            Adds::Nothing => (0, 0),
            Adds::Entry => (1, 0),
            Adds::Session => (1, 1),
        };
        self.entries = self.entries.saturating_add(entries);
        self.sessions = self.sessions.saturating_add(sessions);
    }

    /// Checks that a failed request added nothing, or just `adds`, and counts what it added.
    ///
    /// To learn the number of entries in the hub's list, posts a request without messages, which
    /// adds no entry.
    ///
    /// # Errors
    ///
    /// `Wrong` if the hub fails, or if the request added something else.
    pub fn check_list(&mut self, adds: Adds) -> Result<(), Unlike> {
        let mut pass = self.hub.pass();
        let counted = post(&self.rt, self.alloc, &self.hub, &mut pass, "[]");
        let Ok((entries, _)) = counted else {
            return Err(Unlike::Wrong("not counted"));
        };
        if entries != self.entries {
            self.count(adds);
        }
        check(
            entries == self.entries,
            "a refused request changes the list",
        )
    }

    /// Makes an exchange that must not wait, and returns the line of its response.
    ///
    /// Retries once if memory runs out. `adds`: what the request adds to the list.
    ///
    /// # Errors
    ///
    /// `Memory` if memory runs out outside of the exchange; `Wrong` if the exchange waits, fails
    /// again, or adds something other than `adds` to the list when it fails.
    pub fn ask(&mut self, asked: Asked<'_>, adds: Adds) -> Result<String, Unlike> {
        let mut line = self.ask_once(asked)?;
        if line.is_none() {
            self.check_list(adds)?;
            line = self.ask_once(asked)?;
        }
        self.count(adds);
        line.ok_or(Unlike::Wrong("refused once more"))
    }

    // Makes an exchange that must not wait. Returns the line of its response, or `None` if memory
    // ran out.
    fn ask_once(&self, asked: Asked<'_>) -> Result<Option<String>, Unlike> {
        let mut exchange = self.service.call(request(self.alloc, asked)?);
        ended(self.poll(&mut exchange))
    }

    /// Polls an exchange once. Returns the line of its response, or `None` if memory ran out.
    ///
    /// While the exchange waits, returns `Pending`.
    ///
    /// # Errors
    ///
    /// `Memory` if memory runs out for the line of the response; `Wrong` if the response's body
    /// waits or is not UTF-8.
    pub fn poll<E: Future<Output = Given>>(
        &self,
        exchange: &mut E,
    ) -> Result<Poll<Option<String>>, Unlike>
        requires { E.can_poll exchange.old }
        ensures { IfOk result (λ polled. OnPending polled (E.can_poll exchange.new)) }
    {
        match self.task.poll(exchange) {
            Poll::Pending => Ok(Poll::Pending),
            Poll::Ready(given) => Ok(Poll::Ready(line_of(self.alloc, &self.task, given)?)),
        }
    }
}

/// Returns the line of a poll that must be ready, or `None` if memory ran out in the poll.
///
/// # Errors
///
/// The error in `polled`, if there is one; `Wrong` if `polled` is pending.
pub fn ended(polled: Result<Poll<Option<String>>, Unlike>) -> Result<Option<String>, Unlike> {
    match polled? {
        Poll::Ready(line) => Ok(line),
        Poll::Pending => Err(Unlike::Wrong("an exchange waits")),
    }
}

// Returns the line of a response, or `None` if memory ran out: the exchange failed or has status
// 503.
fn line_of(alloc: Global, task: &MockTask, given: Given) -> Result<Option<String>, Unlike> {
    let Ok(response) = given else {
        return Ok(None);
    };
    let status = response.status().as_u16();
    if status == 503 {
        return Ok(None);
    }
    let mut body = Collect::new(alloc, response.into_body(), usize::MAX);
    match task.poll(&mut body) {
        Poll::Ready(Ok(body)) => Ok(Some(line(alloc, status, body)?)),
        Poll::Ready(Err(_)) => Err(Unlike::Memory),
        Poll::Pending => Err(Unlike::Wrong("a body waits")),
    }
}

// Returns a line: `status`, followed by `body` unless it is empty.
fn line(alloc: Global, status: u16, body: Vec<u8>) -> Result<String, Unlike> {
    let body = string(body)?;
    if body.is_empty() {
        return Ok(format!(in alloc; "{status}")?);
    }
    Ok(format!(in alloc; "{status} {body}")?)
}
