//! The exchanges of the part `service`.
use crate::requests::add_line;
use crate::services::asked::{
    Asked, BROKEN, CONNECT, PUBLISH, QUERY_CONNECT, SUBSCRIBE, replaced, request,
};
use crate::services::client::{Adds, Client, Given, ended};
use crate::unlike::Unlike;
use bx_calls::texts::{ACK_HANDSHAKE, HANDSHAKE};
use bx_hub::HubKind;
use bx_service::Backend;
use futures::Future;
use futures::task::Poll;
use hyper::service::Service;
use std::alloc::{AllocError, Global};
use std::sync::Wait;

// The client id of a session, and the name that the lines have in its place.
#[derive(Drop)]
struct Session {
    id: String,
    name: &'static str,
}

impl Session {
    // Returns `text` with the client id in place of `ID`.
    fn fill_in(&self, alloc: Global, text: &str) -> Result<String, AllocError> {
        replaced(alloc, text, "ID", self.id.as_str())
    }
}

impl<S: Backend<Items: Drop>, L: HubKind, R: Wait + Drop> Client<S, L, R> {
    /// Makes all exchanges and appends a line for each, with names in place of client ids.
    ///
    /// An acknowledging session opens, a body is rejected, and a second session opens. The first
    /// one subscribes, and its connect waits until the second one publishes. The second session
    /// connects by a query, and a third session opens.
    ///
    /// Sessions are numbered by their handshakes in the list. A handshake that fails before it is
    /// admitted gets no number.
    pub fn make_all(&mut self) -> Result<(), Unlike> {
        let first = self.open(ACK_HANDSHAKE, "first")?;
        let refused = self.ask(Asked::Post(BROKEN), Adds::Nothing)?;
        add_line(&mut self.text, refused.as_str())?;
        let second = self.open(HANDSHAKE, "second")?;
        self.talk(&first, &second)?;
        self.open(HANDSHAKE, "third")?;
        Ok(())
    }

    // Opens a session by `handshake`, and returns it.
    fn open(&mut self, handshake: &str, name: &'static str) -> Result<Session, Unlike> {
        let line = self.ask(Asked::Post(handshake), Adds::Session)?;
        let id = format!(in self.alloc; "{:048x}", self.sessions)?;
        let session = Session { id, name };
        self.add_named(line.as_str(), &session)?;
        Ok(session)
    }

    // Subscribes and connects `first`, publishes from `second`, and connects `second` by a query.
    fn talk(&mut self, first: &Session, second: &Session) -> Result<(), Unlike> {
        let subscribe = first.fill_in(self.alloc, SUBSCRIBE)?;
        let line = self.ask(Asked::Post(subscribe.as_str()), Adds::Entry)?;
        self.add_named(line.as_str(), first)?;
        let connect = first.fill_in(self.alloc, CONNECT)?;
        let publish = second.fill_in(self.alloc, PUBLISH)?;
        let line = self.held(connect.as_str(), publish.as_str())?;
        self.add_named(line.as_str(), first)?;
        let query = second.fill_in(self.alloc, QUERY_CONNECT)?;
        let line = self.ask(Asked::Get(query.as_str()), Adds::Entry)?;
        self.add_named(line.as_str(), second)
    }

    // Makes a connect that waits for a publish, and returns the line of its response. Retries once
    // if memory runs out before the connect waits.
    fn held(&mut self, connect: &str, publish: &str) -> Result<String, Unlike> {
        for _ in 0..2 {
            let asked = request(self.alloc, Asked::Post(connect))?;
            let mut exchange = self.service.call(asked);
            if let Some(line) = self.wait(&mut exchange, connect, publish)? {
                return Ok(line);
            }
        }
        Err(Unlike::Wrong("refused once more"))
    }

    // Polls a connect that must wait, publishes, and polls the connect again. Returns the line of
    // the connect's response, or `None` if memory ran out before the connect waited.
    fn wait<E: Future<Output = Given>>(
        &mut self,
        exchange: &mut E,
        connect: &str,
        publish: &str,
    ) -> Result<Option<String>, Unlike>
        requires { E.can_poll exchange.old }
    {
        match self.poll(exchange)? {
            Poll::Pending => {
                self.count(Adds::Entry);
                let published = self.ask(Asked::Post(publish), Adds::Entry)?;
                add_line(&mut self.text, published.as_str())?;
                let line = ended(self.poll(exchange))?;
                Ok(Some(self.answered(connect, line)?))
            }
            Poll::Ready(None) => {
                self.check_list(Adds::Entry)?;
                Ok(None)
            }
            Poll::Ready(Some(_)) => Err(Unlike::Wrong("a connect does not wait")),
        }
    }

    // Returns `line`, the response to a connect that waited. If `line` is `None`, since memory ran
    // out, sends `connect` again and returns its response: it acknowledges nothing new, so it gets
    // the same events.
    fn answered(&mut self, connect: &str, line: Option<String>) -> Result<String, Unlike> {
        match line {
            Some(line) => Ok(line),
            None => {
                self.check_list(Adds::Nothing)?;
                self.ask(Asked::Post(connect), Adds::Entry)
            }
        }
    }

    // Appends `line`, with the name of `session` in place of its client id.
    fn add_named(&mut self, line: &str, session: &Session) -> Result<(), Unlike> {
        let line = replaced(self.alloc, line, session.id.as_str(), session.name)?;
        add_line(&mut self.text, line.as_str())
    }
}
