//! A caller of a hub, with a pass of its own, and its waits for flags of other threads.
use bx_calls::{Found, Refused, Stage, find, hold, post, post_all, tick};
use bx_entry::Ticket;
use bx_hub::{HubKind, Pass, PostFault};
use std::sync::Wait;
use std::sync::atomic::{AtomicBool, Ordering};
use std::thread;
use std::time::{Clock, Duration};

// How often a thread looks at a flag before it gives up, one millisecond apart.
const LOOKS: u32 = 10_000;

/// A caller of a hub, with a pass of its own.
#[derive(Drop)]
pub struct Caller<'a, L: HubKind, R: Wait + Drop> {
    pub stage: &'a Stage<L, R>,
    pub pass: Pass<L>,
}

impl<'a, L: HubKind, R: Wait + Drop> Caller<'a, L, R> {
    /// Creates a caller that has seen no entries.
    pub fn of(stage: &'a Stage<L, R>) -> Caller<'a, L, R> {
        Caller {
            stage,
            pass: stage.hub.pass(),
        }
    }

    /// Posts `body`, and returns the ticket of its first pending answer, if there is one.
    ///
    /// # Errors
    ///
    /// [`Refused`] if memory runs out or the hub does not admit the request.
    pub fn post(&mut self, body: &str) -> Result<Option<Ticket>, Refused> {
        let Stage { rt, alloc, hub } = self.stage;
        let (_, ticket) = post(rt, *alloc, hub, &mut self.pass, body)?;
        Ok(ticket)
    }

    /// Posts each of `bodies`.
    pub fn post_all(&mut self, bodies: &[&str]) -> Result<(), Refused> {
        let Stage { rt, alloc, hub } = self.stage;
        post_all(rt, *alloc, hub, &mut self.pass, bodies)
    }

    /// Opens and subscribes the first session, and returns the ticket of its held connect.
    ///
    /// # Errors
    ///
    /// [`Refused`] if a post fails or the connect is answered at once.
    pub fn hold(&mut self) -> Result<Ticket, Refused> {
        let Stage { rt, alloc, hub } = self.stage;
        hold(rt, *alloc, hub, &mut self.pass)
    }

    /// Appends a tick at `moment`, and returns its place.
    pub fn tick(&mut self, moment: u64) -> Result<u64, PostFault> {
        let Stage { rt, alloc, hub } = self.stage;
        tick(rt, *alloc, hub, &mut self.pass, moment)
    }

    /// Appends `count` ticks at moment 0.
    pub fn ticks(&mut self, count: usize) -> Result<(), PostFault> {
        for _ in 0..count {
            self.tick(0)?;
        }
        Ok(())
    }

    /// Polls for the answer under `ticket`, and returns whether it was found and its text is
    /// `wanted`.
    pub fn find(&mut self, ticket: Ticket, wanted: &str) -> Result<Found, Refused> {
        let Stage { rt, alloc, hub } = self.stage;
        find(rt, *alloc, hub, &mut self.pass, ticket, wanted)
    }
}

/// Waits until `flag` is set, and returns `true`.
///
/// Returns `false` if the flag is not set within about 10 seconds.
pub fn wait_for<C: Clock>(clock: &C, flag: &AtomicBool) -> bool {
    for _ in 0..LOOKS {
        if flag.load(Ordering::SeqCst) {
            return true;
        }
        thread::sleep(clock, Duration::from_millis(1));
    }
    false
}
