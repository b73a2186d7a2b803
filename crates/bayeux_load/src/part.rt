use crate::client::Client;
use crate::context::SharedContext;
use crate::fault::Fault;
use crate::link::Link;
use crate::role::{Publisher, Role, Subscriber};
use crate::tally::Tally;
use mio::Registry;
use std::alloc::AllocError;
use std::net::Net;
use std::sync::Arc;
use std::sync::atomic::Ordering;
use std::time::{Clock, Duration};

// The greatest number of clients that one thread opens at a time.
const AT_ONCE: usize = 32;

// Nanoseconds without progress after which a load ends, once all publishes are answered.
const PATIENCE: u64 = 5_000_000_000;

// Nanoseconds without progress after which a load fails, while publishes are unanswered.
const SILENCE: u64 = 30_000_000_000;

/// One thread's part of a load: its clients and their results.
#[derive(Drop)]
pub struct LoadPart {
    pub context: SharedContext,
    clients: Vec<Client>,
    // The sessions precede the publishers.
    sessions: usize,
    // The number of the next client to open, among those of all threads.
    next: u64,
    // Number of events to receive.
    expected: u64,
    tally: Tally,
    // The last result of `Context::progress`, and the nanosecond of the load at which it changed.
    progress: (u64, u64, u64),
    changed: u64,
    has_ended: bool,
}

impl LoadPart {
    /// Creates part `index` of the load, counted from 0, without clients.
    pub fn new(context: &SharedContext, index: u64) -> Result<LoadPart, AllocError> {
        let alloc = context.alloc;
        Ok(LoadPart {
            context: Arc::try_clone(context)?,
            clients: Vec::new(alloc),
            sessions: 0,
            next: index,
            expected: 0,
            tally: Tally::new(alloc)?,
            progress: (0, 0, 0),
            changed: 0,
            has_ended: false,
        })
    }

    /// Opens more clients, so that at most 32 are opening a session or subscribing at a time.
    ///
    /// # Errors
    ///
    /// `Memory`, or as [`Link::open`] and [`Client::begin`].
    pub fn open(&mut self, net: &impl Net, registry: &Registry) -> Result<(), Fault> {
        let all = self.context.settings.clients();
        for _ in 0..AT_ONCE {
            if self.next >= all || self.clients.len().saturating_sub(self.tally.ready) >= AT_ONCE {
                break;
            }
            let token = self.clients.len();
            let role = self.next_role()?;
            let link = Link::open(net, &*self.context, registry, token)?;
            let mut client = Client::new(&self.context, link, role)?;
            client.begin()?;
            self.clients.push(client)?;
        }
        Ok(())
    }

    fn next_role(&mut self) -> Result<Role, AllocError> {
        let (settings, number) = (&self.context.settings, self.next);
        self.next = number.saturating_add(self.context.threads);
        match number.checked_sub(settings.sessions as u64) {
            Some(publisher) => Ok(Role::Publisher(Publisher::new(settings, publisher))),
            None => {
                let session = Subscriber::new(self.context.alloc, settings, number)?;
                self.sessions = self.sessions.saturating_add(1);
                self.expected = self.expected.saturating_add(session.expected());
                Ok(Role::Subscriber(session))
            }
        }
    }

    /// Returns how long the thread may wait for its connections.
    pub fn poll_timeout(&self) -> Duration {
        let (unready, unpublished, _) = self.progress;
        let is_paced = unready == 0 && unpublished > 0 && self.context.settings.rate > 0;
        Duration::from_millis(if is_paced { 1 } else { 10 })
    }

    /// Writes and reads for client `token`, and handles its response if it is complete.
    ///
    /// `buffer`: scratch space for reading.
    ///
    /// # Errors
    ///
    /// As [`Client::is_answered`], [`Context::now`] and [`Client::take`].
    pub fn serve(&mut self, rt: &impl Clock, token: usize, buffer: &mut [u8]) -> Result<(), Fault> {
        if let Some(client) = self.clients.get_mut(token)
            && client.is_answered(buffer)?
        {
            let now = self.context.now(rt)?;
            client.take(&mut self.tally, now)?;
        }
        Ok(())
    }

    /// Records when the publishers started, and calls [`Client::send_due`] for each publisher.
    ///
    /// `now`: nanoseconds since the load started.
    ///
    /// # Errors
    ///
    /// As [`Client::send_due`].
    pub fn send_due(&mut self, now: u64) -> Result<(), Fault> {
        let begun = self.context.begun(now);
        if let Some(begun) = begun {
            self.tally.begun = begun;
        }
        let sessions = self.sessions.min(self.clients.len());
        let (_, publishers) = self.clients.as_mut_slice().split_at_mut(sessions);
        for publisher in publishers.iter_mut() {
            publisher.send_due(begun, now)?;
        }
        Ok(())
    }

    /// Returns `true` if every thread has all its events, or after 5 seconds without progress.
    ///
    /// Returns `false` while publishes are unanswered. `now`: nanoseconds since the load started.
    ///
    /// # Errors
    ///
    /// `Other` if another thread failed; `Silent` if publishes are unanswered and there was no
    /// progress for 30 seconds.
    pub fn is_over(&mut self, now: u64) -> Result<bool, Fault> {
        if self.context.has_failed.load(Ordering::SeqCst) {
            return Err(Fault::Other);
        }
        let progress = self.context.progress();
        if progress != self.progress {
            self.progress = progress;
            self.changed = now;
        }
        let quiet = now.saturating_sub(self.changed);
        if progress.1 > 0 {
            return if quiet > SILENCE {
                Err(Fault::Silent)
            } else {
                Ok(false)
            };
        }
        if !self.has_ended && self.tally.arrivals() >= self.expected {
            self.has_ended = true;
            self.context.working.fetch_sub(1, Ordering::SeqCst);
        }
        Ok(self.context.working.load(Ordering::SeqCst) == 0 || quiet > PATIENCE)
    }

    /// Returns its results, which include the lost events.
    pub fn end(self) -> Tally {
        let mut tally = self.tally;
        for client in self.clients.iter() {
            tally.lost = tally.lost.saturating_add(client.lost());
        }
        tally
    }
}
