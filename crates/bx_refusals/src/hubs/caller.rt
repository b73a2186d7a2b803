//! Calls of a hub, each retried once if memory runs out, and the lines of their results.
use crate::requests::{add_line, reply, text_of};
use crate::unlike::{Unlike, check};
use bx_calls::arrival;
use bx_calls::texts::{CONNECT, HANDSHAKE, PUBLISH, SUBSCRIBE};
use bx_entry::{Arrival, Slot, Ticket};
use bx_hub::{Hub, HubFault, HubKind, Lagging, Pass, PostFault, PostReceipt, Tick};
use bx_message::Answer;
use std::alloc::Global;
use std::sync::Wait;

// Returns `true` if only a lack of memory kept shards from the end.
// Prover: a comparison with a whole `Lagging` is proved much more slowly.
fn is_by_memory(behind: Lagging) -> bool {
    behind.overrun == 0 && behind.paused == 0 && behind.closed == 0 && behind.misplaced == 0
}

/// A caller that retries each call of a hub once if memory runs out.
///
/// # Errors
///
/// Each call fails with `Memory` if memory runs out outside of the hub's call, and with `Wrong` for
/// another result than expected, or if the second attempt fails.
#[derive(Drop)]
pub struct Caller<'a, L: HubKind, H: Wait + Drop, R: Wait> {
    /// The right to wait for the hub's locks.
    pub rt: &'a R,
    /// The allocator for requests and lines.
    pub alloc: Global,
    /// The hub that is called.
    pub hub: &'a Hub<L, H>,
    // The lines so far, separated by newlines.
    text: String,
    // The expected place of the next message or tick.
    place: u64,
    // The number of shards that were not advanced for lack of memory.
    behind: usize,
}

impl<'a, L: HubKind, H: Wait + Drop, R: Wait> Caller<'a, L, H, R> {
    /// Creates a caller of `hub` without lines. The hub's list is empty.
    pub fn new(rt: &'a R, alloc: Global, hub: &'a Hub<L, H>) -> Caller<'a, L, H, R> {
        Caller {
            rt,
            alloc,
            hub,
            text: String::new(alloc),
            place: 0,
            behind: 0,
        }
    }

    /// Returns the lines, separated by newlines.
    pub fn into_text(self) -> String {
        let Caller { text, .. } = self;
        text
    }

    /// Appends a line with the events and the reply of `answer`.
    pub fn add_answer(&mut self, answer: Answer) -> Result<(), Unlike> {
        add_line(&mut self.text, text_of(self.alloc, answer)?.as_str())
    }

    // Appends a line with the next place and `what`, which describes the message or tick there.
    fn add(&mut self, what: &str) -> Result<(), Unlike> {
        let line = format!(in self.alloc; "{} {what}", self.place)?;
        self.place = self.place.saturating_add(1);
        add_line(&mut self.text, line.as_str())
    }

    // Returns `true` if a call did not advance a shard to the end because memory ran out. Fails if
    // another reason kept a shard from the end. Fails also at a second such shard, because only one
    // allocation fails in a run.
    fn is_behind(&mut self, behind: Lagging) -> Result<bool, Unlike> {
        self.behind = self.behind.saturating_add(behind.memory);
        check(is_by_memory(behind), "a shard stays behind")?;
        check(self.behind <= 1, "more stays behind than is refused")?;
        Ok(behind.memory == 1)
    }

    /// Posts `body` and appends a line for each message: its reply, or `waits`.
    ///
    /// Returns the ticket of the last message that waits, or `None` if every message has its reply.
    /// Returns also whether the post did not advance a shard to the end because memory ran out.
    pub fn post(
        &mut self,
        pass: &mut Pass<L>,
        body: &str,
    ) -> Result<(Option<Ticket>, bool), Unlike> {
        let arrival = arrival(self.alloc, body)?;
        match self.hub.post(self.rt, self.alloc, pass, arrival) {
            Ok(posted) => self.end_of(&posted),
            Err((back, why)) => {
                check(why.fault() == PostFault::Memory, "not posted")?;
                self.post_again(pass, back)
            }
        }
    }

    fn post_again(
        &mut self,
        pass: &mut Pass<L>,
        back: Arrival,
    ) -> Result<(Option<Ticket>, bool), Unlike> {
        match self.hub.post(self.rt, self.alloc, pass, back) {
            Ok(posted) => self.end_of(&posted),
            Err(_) => Err(Unlike::Wrong("refused once more")),
        }
    }

    fn end_of(&mut self, posted: &PostReceipt<L>) -> Result<(Option<Ticket>, bool), Unlike> {
        check(posted.first == self.place, "posted elsewhere")?;
        let is_behind = self.is_behind(posted.advanced.behind())?;
        let ticket = self.add_all(posted.slots.as_slice())?;
        Ok((ticket, is_behind))
    }

    // Appends a line for each of `slots`, and returns the last ticket in them.
    fn add_all(&mut self, slots: &[Slot]) -> Result<Option<Ticket>, Unlike> {
        let mut ticket = None;
        for slot in slots {
            match slot {
                Slot::Ready(told) => self.add(reply(self.alloc, told)?.as_str())?,
                Slot::Waiting(waiting) => {
                    self.add("waits")?;
                    ticket = Some(*waiting);
                }
            }
        }
        Ok(ticket)
    }

    /// Opens and subscribes the first session, and posts its connect.
    ///
    /// Returns the ticket of the connect, and whether its post did not advance a shard to the end
    /// because memory ran out.
    pub fn connect(&mut self, pass: &mut Pass<L>) -> Result<(Ticket, bool), Unlike> {
        for body in [HANDSHAKE, SUBSCRIBE] {
            self.post(pass, body)?;
        }
        let (ticket, is_behind) = self.post(pass, CONNECT)?;
        let ticket = ticket.ok_or(Unlike::Wrong("no connect"))?;
        Ok((ticket, is_behind))
    }

    /// Opens the second session, and publishes from it.
    ///
    /// Returns whether the publish did not advance a shard to the end because memory ran out.
    pub fn publish(&mut self, pass: &mut Pass<L>) -> Result<bool, Unlike> {
        self.post(pass, HANDSHAKE)?;
        let (_, is_behind) = self.post(pass, PUBLISH)?;
        Ok(is_behind)
    }

    /// Posts a tick at moment 0 and appends its line.
    pub fn tick(&mut self, pass: &mut Pass<L>) -> Result<(), Unlike> {
        match self.hub.tick(self.rt, self.alloc, pass, Tick::new(0)) {
            Ok(ticked) => self.end_of_tick(ticked.place, ticked.advanced.behind()),
            Err((back, why)) => {
                check(why.fault() == PostFault::Memory, "no tick")?;
                match self.hub.tick(self.rt, self.alloc, pass, back) {
                    Ok(ticked) => self.end_of_tick(ticked.place, ticked.advanced.behind()),
                    Err(_) => Err(Unlike::Wrong("refused once more")),
                }
            }
        }
    }

    fn end_of_tick(&mut self, place: u64, behind: Lagging) -> Result<(), Unlike> {
        check(place == self.place, "ticks elsewhere")?;
        self.is_behind(behind)?;
        self.add("ticks")
    }

    /// Takes the answer under `ticket`, or returns `None` if it is not filed.
    pub fn poll(&self, pass: &mut Pass<L>, ticket: Ticket) -> Result<Option<Answer>, Unlike> {
        for _ in 0..2 {
            match self.poll_once(pass, ticket) {
                Ok(answer) => return Ok(answer),
                Err(fault) => check(fault == HubFault::Memory, "no telling")?,
            }
        }
        Err(Unlike::Wrong("refused once more"))
    }

    fn poll_once(&self, pass: &mut Pass<L>, ticket: Ticket) -> Result<Option<Answer>, HubFault> {
        let (polled, _unfiled) = self.hub.poll_answer(self.rt, self.alloc, pass, ticket);
        match polled {
            Ok(answer) => Ok(answer),
            Err(stopped) => Err(stopped.fault()),
        }
    }
}
