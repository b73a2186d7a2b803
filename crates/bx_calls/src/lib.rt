//! Calls of a hub for tests, and a window writer that publishes only ticks.
//!
//! # Blocking
//!
//! Functions with `rt` take locks and wake tasks as [`Hub::post`] and [`Hub::poll_answer`] do.
#![tactic(auto)]

mod hubs;
mod tasks;
pub mod texts;
mod ticker;

use bx_cut::Bodies;
use bx_entry::{Access, Arrival, ByTable, Slot, Ticket};
use bx_hub::{Hub, HubFault, HubKind, Pass, PostFault, Tick};
use bx_message::{Answer, Event, Item, RawJson, SharedEvent, Text, body_text};
use bx_names::ChannelName;
pub use hubs::{HubWork, Stage, config_of, work_in_hub, work_in_open_hub};
use std::alloc::{AllocError, Global};
use std::sync::Wait;
pub use tasks::{Task, Tasks, waker_of};
use texts::{CONNECT, HANDSHAKE, PING, SUBSCRIBE};
pub use ticker::{Taken, Ticker};

/// What a poll finds for a ticket.
#[derive(Clone, Copy, Debug, PartialEq, Eq)]
pub enum Found {
    /// The poll found no filed answer.
    Nothing,
    /// The poll took an answer with the expected text.
    Wanted,
    /// The poll took an answer with another text than expected.
    Other,
    /// The poll failed, with this fault of the hub.
    Stopped(HubFault),
}

/// Evidence that a call failed, or that memory ran out.
#[derive(Clone, Copy, Debug)]
pub struct Refused;

impl From<AllocError> for Refused {
    fn from(_error: AllocError) -> Refused {
        Refused
    }
}

// Creates a request with `body`, moment 0 and nonce 0, from the publishers' listener.
fn arrival_of(body: Vec<u8>) -> Arrival {
    Arrival {
        moment: 0,
        nonce: 0,
        access: Access::ReadWrite,
        bodies: Bodies::Whole(body),
    }
}

/// Creates a request with `body`, at moment 0 and with nonce 0.
///
/// # Errors
///
/// `AllocError` if memory runs out.
pub fn arrival(alloc: Global, body: &str) -> Result<Arrival, AllocError> {
    Ok(arrival_of(body.as_bytes().to_vec(alloc)?))
}

/// Creates a ping at moment 0, with a body padded with spaces to at least `length` bytes.
///
/// # Errors
///
/// `AllocError` if memory runs out.
pub fn long_ping(alloc: Global, length: usize) -> Result<Arrival, AllocError> {
    let mut body = vec![in alloc; b' '; length.saturating_sub(PING.len())]?;
    body.extend_from_slice(PING.as_bytes())?;
    Ok(arrival_of(body))
}

/// Returns `true` if `arrival` has `body` as its whole body, moment 0 and nonce 0.
pub fn is_of(arrival: &Arrival, body: &str) -> bool {
    match &arrival.bodies {
        Bodies::Whole(text) => {
            text.as_slice() == body.as_bytes() && arrival.moment == 0 && arrival.nonce == 0
        }
        Bodies::Decoded(_) => false,
    }
}

// Returns the ticket of the first connect or rider with a pending answer, if there is one.
fn ticket_of(slots: &[Slot]) -> Option<Ticket> {
    for slot in slots {
        if let Slot::Waiting(ticket) = slot {
            return Some(*ticket);
        }
    }
    None
}

/// Posts `body`, and returns the place of its first message and the first pending ticket, if any.
///
/// # Errors
///
/// [`Refused`] if memory runs out or the hub does not admit the request.
pub fn post<L: HubKind, H: Wait + Drop, R: Wait>(
    rt: &R,
    alloc: Global,
    hub: &Hub<L, H>,
    pass: &mut Pass<L>,
    body: &str,
) -> Result<(u64, Option<Ticket>), Refused> {
    let arrival = arrival(alloc, body)?;
    match hub.post(rt, alloc, pass, arrival) {
        Ok(posted) => Ok((posted.first, ticket_of(posted.slots.as_slice()))),
        Err(_) => Err(Refused),
    }
}

/// Appends a tick at `moment`, in milliseconds since the server started, and returns its place.
///
/// # Errors
///
/// The hub's fault.
pub fn tick<L: HubKind, H: Wait + Drop, R: Wait>(
    rt: &R,
    alloc: Global,
    hub: &Hub<L, H>,
    pass: &mut Pass<L>,
    moment: u64,
) -> Result<u64, PostFault> {
    match hub.tick(rt, alloc, pass, Tick::new(moment)) {
        Ok(ticked) => Ok(ticked.place),
        Err((_, refused)) => Err(refused.fault()),
    }
}

/// Creates an event on `channel` with `data`, a JSON text.
///
/// # Errors
///
/// [`Refused`] if `channel` is not the name of a channel, or memory runs out.
pub fn event(alloc: Global, channel: &str, data: &str) -> Result<SharedEvent, Refused> {
    let event = Event {
        channel: Text::new(alloc, channel)?,
        payload: RawJson::new(alloc, data)?,
        id: None,
    };
    let name = ChannelName::read(alloc, channel).map_err(|_| Refused)?;
    Ok(SharedEvent::new(alloc, event, name)?)
}

/// Creates a JSON string of `count` times `sign`.
///
/// # Errors
///
/// `AllocError` if memory runs out.
pub fn json_string(alloc: Global, sign: &str, count: usize) -> Result<String, AllocError> {
    let signs = sign.repeat(alloc, count)?;
    format!(in alloc; "\"{signs}\"")
}

/// Returns the text of a response with the events of `answer` and then its reply.
///
/// # Errors
///
/// `AllocError` if memory runs out.
pub fn text_of(alloc: Global, answer: Answer) -> Result<Vec<u8>, AllocError> {
    let Answer { events, reply } = answer;
    let mut items = Vec::new(alloc);
    for event in events.into_vec() {
        items.push(Item::EventItem(event))?;
    }
    items.push(Item::ReplyItem(reply))?;
    body_text(alloc, items.as_slice())
}

// Returns `Wanted` if the text of `answer` is `wanted`, and `Other` if not.
fn found_in(alloc: Global, answer: Answer, wanted: &str) -> Result<Found, AllocError> {
    if text_of(alloc, answer)?.as_slice() == wanted.as_bytes() {
        Ok(Found::Wanted)
    } else {
        Ok(Found::Other)
    }
}

/// Polls for the answer under `ticket`, and returns whether it was found and its text is `wanted`.
///
/// # Errors
///
/// [`Refused`] if memory runs out for the answer's text. The answer was then taken all the same.
pub fn find<L: HubKind, H: Wait + Drop, R: Wait>(
    rt: &R,
    alloc: Global,
    hub: &Hub<L, H>,
    pass: &mut Pass<L>,
    ticket: Ticket,
    wanted: &str,
) -> Result<Found, Refused> {
    let (polled, _unfiled) = hub.poll_answer(rt, alloc, pass, ticket);
    match polled {
        Ok(Some(answer)) => Ok(found_in(alloc, answer, wanted)?),
        Ok(None) => Ok(Found::Nothing),
        Err(stopped) => Ok(Found::Stopped(stopped.fault())),
    }
}

/// Returns the number of shards for [`in_turn`]: 2 if `home` is below 2, otherwise 5.
pub fn shards_for(home: usize) -> usize {
    if home < 2 { 2 } else { 5 }
}

/// Creates a placing with the first session in shard `home`: 0, 1 or 4.
///
/// For 0 and 1, sessions alternate between two shards. Otherwise all are in shard 4.
///
/// # Errors
///
/// `AllocError` if memory runs out.
pub fn in_turn(alloc: Global, home: usize) -> Result<ByTable, AllocError> {
    match home {
        0 => ByTable::new(alloc, &[1, 0]),
        1 => ByTable::new(alloc, &[0, 1]),
        _ => ByTable::new(alloc, &[4]),
    }
}

/// Posts each of `bodies`.
///
/// # Errors
///
/// [`Refused`] if a post fails.
pub fn post_all<L: HubKind, H: Wait + Drop, R: Wait>(
    rt: &R,
    alloc: Global,
    hub: &Hub<L, H>,
    pass: &mut Pass<L>,
    bodies: &[&str],
) -> Result<(), Refused> {
    for body in bodies {
        post(rt, alloc, hub, pass, *body)?;
    }
    Ok(())
}

/// Opens and subscribes the first session, and returns the ticket of its held connect.
///
/// # Errors
///
/// [`Refused`] if a post fails or the connect is answered at once.
pub fn hold<L: HubKind, H: Wait + Drop, R: Wait>(
    rt: &R,
    alloc: Global,
    hub: &Hub<L, H>,
    pass: &mut Pass<L>,
) -> Result<Ticket, Refused> {
    post_all(rt, alloc, hub, pass, &[HANDSHAKE, SUBSCRIBE])?;
    let (_, ticket) = post(rt, alloc, hub, pass, CONNECT)?;
    ticket.ok_or(Refused)
}
