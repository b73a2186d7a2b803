use crate::context::SharedContext;
use crate::fault::Fault;
use crate::link::Link;
use crate::role::Role;
use crate::tally::Tally;
use bx_load::{Received, Requests, client_of, item_of};
use serde_json::Value;
use std::alloc::{AllocError, Global};
use std::sync::Arc;
use std::sync::atomic::Ordering;

// Nanoseconds without a request after which a publisher sends a connect to keep its session.
const QUIET: u64 = 5_000_000_000;

/// The response that a client waits for.
#[derive(Clone, Copy)]
enum Awaited {
    Handshake,
    Subscription,
    Connect,
    Publish,
    Touch,
    Nothing,
}

/// A client, with at most one request at a time.
#[derive(Drop)]
pub struct Client {
    context: SharedContext,
    link: Link,
    role: Role,
    id: String,
    state: Awaited,
    // When the client last sent a request or became ready, in nanoseconds since the load started.
    asked: u64,
}

impl Client {
    /// Creates a client that has sent no request.
    pub fn new(context: &SharedContext, link: Link, role: Role) -> Result<Client, AllocError> {
        Ok(Client {
            context: Arc::try_clone(context)?,
            link,
            role,
            id: String::new(context.alloc),
            state: Awaited::Nothing,
            asked: 0,
        })
    }

    /// Sends a handshake.
    ///
    /// # Errors
    ///
    /// `Memory`, or as [`Link::send`].
    pub fn begin(&mut self) -> Result<(), Fault> {
        let acknowledges = self.context.settings.is_acknowledging
            && matches!(&self.role, Role::Subscriber(_));
        let request = self.requests().format_handshake(acknowledges)?;
        self.ask(Awaited::Handshake, request, 0)
    }

    fn requests(&self) -> Requests<'_> {
        Requests {
            alloc: self.context.alloc,
            target: &self.context.settings.target,
            client: self.id.as_str(),
        }
    }

    /// Returns the number of events that did not arrive.
    pub fn lost(&self) -> u64 {
        match &self.role {
            Role::Subscriber(session) => session.lost(),
            Role::Publisher(_) => 0,
        }
    }

    /// Writes and reads without waiting, and returns `true` if the response is complete.
    ///
    /// `buffer`: scratch space for reading.
    ///
    /// # Errors
    ///
    /// As [`Link::flush`], [`Link::fill`] and [`Link::body`].
    pub fn is_answered(&mut self, buffer: &mut [u8]) -> Result<bool, Fault> {
        self.link.flush()?;
        self.link.fill(buffer)?;
        Ok(self.link.body()?.is_some())
    }

    /// Handles the response, if it is complete, and sends the next request, except a publish.
    ///
    /// `now`: nanoseconds since the load started.
    ///
    /// # Errors
    ///
    /// `BadResponse` if the response is not the expected one, `Refused` if the server rejected a
    /// message, `Memory`, or as [`Link::send`].
    pub fn take(&mut self, tally: &mut Tally, now: u64) -> Result<(), Fault> {
        let alloc = self.context.alloc;
        let Some(body) = self.link.body()? else {
            return Ok(());
        };
        let Ok(value) = Value::from_slice(alloc, body) else {
            return Err(Fault::BadResponse);
        };
        let items = value.as_array().ok_or(Fault::BadResponse)?;
        self.link.forget(alloc);
        self.take_items(tally, items.as_slice(), now)?;
        self.go_on(tally, items.as_slice(), now)
    }

    // Records the events in a response, and checks that the request was answered with success.
    fn take_items(&mut self, tally: &mut Tally, items: &[Value], now: u64) -> Result<(), Fault> {
        let before = tally.delivered;
        let mut answered = Err(Fault::BadResponse);
        for item in items {
            match (item_of(item), &mut self.role) {
                (Received::Event(stamp), Role::Subscriber(session)) => {
                    let arrival = session.take(&self.context.settings, stamp);
                    tally.arrived(arrival, stamp.moment, now);
                }
                (Received::Success(acknowledged), Role::Subscriber(session)) => {
                    session.acknowledged = acknowledged;
                    answered = Ok(());
                }
                (Received::Success(_), Role::Publisher(_)) => answered = Ok(()),
                (Received::Refusal, _) => return Err(Fault::Refused),
                _ => return Err(Fault::BadResponse),
            }
        }
        let arrived = tally.delivered.saturating_sub(before);
        if arrived > 0 {
            self.context.delivered.fetch_add(arrived, Ordering::SeqCst);
        }
        answered
    }

    // Sends the request that follows the response. Counts a client that becomes ready, and a
    // publish that is answered.
    fn go_on(&mut self, tally: &mut Tally, items: &[Value], now: u64) -> Result<(), Fault> {
        let awaited = self.state;
        self.state = Awaited::Nothing;
        match awaited {
            Awaited::Handshake => {
                self.id = id_of(self.context.alloc, items)?;
                self.subscribe(tally, now)
            }
            Awaited::Subscription => {
                self.count_ready(tally);
                self.poll(now)
            }
            Awaited::Connect => self.poll(now),
            Awaited::Publish => {
                tally.published = tally.published.saturating_add(1);
                tally.last_published = now;
                self.context.unpublished.fetch_sub(1, Ordering::SeqCst);
                Ok(())
            }
            Awaited::Touch => Ok(()),
            Awaited::Nothing => Err(Fault::BadResponse),
        }
    }

    // Subscribes after the handshake. A publisher does not subscribe and is ready.
    fn subscribe(&mut self, tally: &mut Tally, now: u64) -> Result<(), Fault> {
        match &self.role {
            Role::Subscriber(session) => {
                let request = self.requests().format_subscribe(session.channel)?;
                self.ask(Awaited::Subscription, request, now)
            }
            Role::Publisher(_) => {
                self.count_ready(tally);
                self.asked = now;
                Ok(())
            }
        }
    }

    fn count_ready(&self, tally: &mut Tally) {
        tally.ready = tally.ready.saturating_add(1);
        self.context.unready.fetch_sub(1, Ordering::SeqCst);
    }

    // Sends a connect, which acknowledges the last batch that a subscriber received.
    fn poll(&mut self, now: u64) -> Result<(), Fault> {
        let acknowledged = match &self.role {
            Role::Subscriber(session) => session.acknowledged,
            Role::Publisher(_) => None,
        };
        let request = self.requests().format_connect(acknowledged)?;
        self.ask(Awaited::Connect, request, now)
    }

    /// Sends the next event if it is due, and this is a publisher that waits for no response.
    ///
    /// If none is due, it sends a connect after 5 seconds without a request. `begun`, `now`:
    /// nanoseconds since the load started. `begun` is `None` until the publishers start.
    ///
    /// # Errors
    ///
    /// `Memory`, or as [`Link::send`].
    pub fn send_due(&mut self, begun: Option<u64>, now: u64) -> Result<(), Fault> {
        let (Awaited::Nothing, Role::Publisher(publisher)) = (self.state, &mut self.role) else {
            return Ok(());
        };
        let (settings, channel) = (&self.context.settings, publisher.channel);
        if let Some(begun) = begun
            && let Some(stamp) = publisher.next(settings, now.saturating_sub(begun), now)
        {
            let request = self.requests().format_publish(channel, stamp)?;
            return self.ask(Awaited::Publish, request, now);
        }
        if now.saturating_sub(self.asked) > QUIET {
            let request = self.requests().format_touch()?;
            return self.ask(Awaited::Touch, request, now);
        }
        Ok(())
    }

    // Sends `request`, and sets what the client waits for.
    fn ask(&mut self, state: Awaited, request: String, now: u64) -> Result<(), Fault> {
        self.state = state;
        self.asked = now;
        self.link.send(request)
    }
}

fn id_of(alloc: Global, items: &[Value]) -> Result<String, Fault> {
    let reply = items.first().ok_or(Fault::BadResponse)?;
    let id = client_of(reply).ok_or(Fault::BadResponse)?;
    Ok(String::from_str(alloc, id)?)
}
