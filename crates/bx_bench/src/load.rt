//! How many publishes and connects each thread makes.
use crate::bodies::{connect, handshake, publish, subscription};
use anyhow::Result;
use std::alloc::Global;

/// A server that answers requests.
pub trait Server {
    /// Serves a request with `body`, and returns the number of events in the answers.
    ///
    /// # Errors
    ///
    /// If the request is not admitted or not answered, or memory runs out.
    fn serve(&mut self, alloc: Global, body: String) -> Result<u64>;
}

/// Connects the sessions from `first` to `last`, and returns the number of events that they get.
///
/// # Errors
///
/// If a request is not served, or memory runs out.
pub fn connect_all<S: Server>(alloc: Global, server: &mut S, first: u64, last: u64) -> Result<u64> {
    let mut events = 0u64;
    for number in first..=last {
        events = events.saturating_add(server.serve(alloc, connect(alloc, number)?)?);
    }
    Ok(events)
}

/// The load of one thread, in turns.
///
/// In each of `rounds` turns, a thread makes `publishes` publishes, a request each. Then each of
/// `sessions` sessions connects.
#[derive(Clone, Copy, Debug)]
pub struct Load {
    /// The number of turns of a thread. In each, it publishes and then connects its sessions.
    pub rounds: u64,
    /// The number of publishes that a thread makes in each of its turns.
    pub publishes: u64,
    /// The number of sessions of a thread that connect in each of its turns.
    pub sessions: u64,
}

impl Load {
    /// A load of 100,000 publishes that reach no session.
    pub const NONE: Load = Load {
        rounds: 500,
        publishes: 200,
        sessions: 0,
    };

    /// A load of 100,000 publishes that reach ten sessions each.
    pub const TEN: Load = Load {
        rounds: 500,
        publishes: 200,
        sessions: 10,
    };

    /// A load of 10,000 publishes that reach a thousand sessions each.
    pub const THOUSAND: Load = Load {
        rounds: 50,
        publishes: 200,
        sessions: 1_000,
    };

    // Returns the numbers of the first and the last session of `thread`, counted from 1. The first
    // one publishes, and the others receive.
    fn sessions_of(self, thread: u64) -> (u64, u64) {
        let count = self.sessions.saturating_add(1);
        let first = thread.saturating_mul(count).saturating_add(1);
        (first, first.saturating_add(self.sessions))
    }

    /// Opens the sessions of `thread`, and subscribes those that receive.
    ///
    /// # Errors
    ///
    /// If a request is not served, or memory runs out.
    pub fn open<S: Server>(self, alloc: Global, server: &mut S, thread: u64) -> Result<()> {
        let (first, last) = self.sessions_of(thread);
        for number in first..=last {
            server.serve(alloc, handshake(alloc)?)?;
            if number > first {
                server.serve(alloc, subscription(alloc, number, thread)?)?;
            }
        }
        Ok(())
    }

    /// Runs the load of `thread`, and returns the number of events that its connects get.
    ///
    /// # Errors
    ///
    /// If a request is not served, or memory runs out.
    pub fn run<S: Server>(self, alloc: Global, server: &mut S, thread: u64) -> Result<u64> {
        let (first, last) = self.sessions_of(thread);
        let mut events = 0u64;
        for _ in 0..self.rounds {
            for _ in 0..self.publishes {
                server.serve(alloc, publish(alloc, first, thread)?)?;
            }
            let given = connect_all(alloc, server, first.saturating_add(1), last)?;
            events = events.saturating_add(given);
        }
        Ok(events)
    }
}
