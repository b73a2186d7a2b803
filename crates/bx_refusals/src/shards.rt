//! The part `shard`: the only shard of a server, to which entries are applied one by one.
use crate::requests::{add_line, config, reply, text_of};
use crate::unlike::Unlike;
use bx_calls::event;
use bx_entry::{ByRemainder, Entry, EntryKind, Ticket};
use bx_message::{Answer, Sequence, Text};
use bx_names::Pattern;
use bx_shard::{Shard, Wakers};
use std::alloc::Global;
use std::sync::Arc;

// An upper bound on the entries of a run.
const MOST_ENTRIES: u64 = 10_000;

// The most events that may wait for a session.
const MOST_EVENTS: usize = 1_024;

// What an entry does. Sessions are given by their numbers.
#[derive(Clone, Copy)]
enum Deed {
    // Opens a session, which acknowledges batches if the flag is set.
    Open(u64, bool),
    Subscribe(u64, &'static str),
    Unsubscribe(u64, &'static str),
    // Posts a connect of a session, with the batch that it acknowledges, to be held for at most
    // this number of milliseconds.
    Connect(u64, Option<u64>, u64),
    // Publishes data to a channel.
    Publish(&'static str, &'static str),
}

// A connect of the first session that may be held.
const CONNECT: Deed = Deed::Connect(1, None, 30_000);

// A connect of the first session that is never held.
const CONNECT_AT_ONCE: Deed = Deed::Connect(1, None, 0);

// The three entries `ACKNOWLEDGE_..` are connects of the first session that are never held. The
// name of each has the batch that it acknowledges.

const ACKNOWLEDGE_NONE: Deed = Deed::Connect(1, Some(0), 0);

const ACKNOWLEDGE_FIRST: Deed = Deed::Connect(1, Some(1), 0);

const ACKNOWLEDGE_SECOND: Deed = Deed::Connect(1, Some(2), 0);

// Entries that open a session and subscribe it to `/a/b`.
const HEARS: &[Deed] = &[Deed::Open(1, false), Deed::Subscribe(1, "/a/b")];

const EVENT: Deed = Deed::Publish("/a/b", "1");

// A run over a new shard: the first entries, then publishes that fill a queue if the flag is set,
// and at last the other entries.
type Worked = (&'static [Deed], bool, &'static [Deed]);

const WORKED: [Worked; 4] = [
    // A publish answers a held connect.
    (
        &[
            Deed::Open(1, false),
            Deed::Open(2, false),
            Deed::Subscribe(1, "/a/*"),
            CONNECT,
            Deed::Publish("/a/b", "7"),
        ],
        false,
        &[],
    ),
    // Batches are sent again until they are acknowledged, even after new events and an
    // unsubscription.
    (
        &[
            Deed::Open(1, true),
            Deed::Subscribe(1, "/a/*"),
            Deed::Publish("/a/x", "1"),
            ACKNOWLEDGE_NONE,
            Deed::Publish("/a/y", "2"),
            Deed::Publish("/a/z", "3"),
            ACKNOWLEDGE_NONE,
            Deed::Unsubscribe(1, "/a/*"),
            ACKNOWLEDGE_NONE,
            ACKNOWLEDGE_FIRST,
            ACKNOWLEDGE_SECOND,
        ],
        false,
        &[],
    ),
    // The queue is full: an event at which the session overflows, a connect that fails, and another
    // event.
    (HEARS, true, &[EVENT, CONNECT_AT_ONCE, EVENT]),
    // The queue is full: four connects, which get all events.
    (HEARS, true, &[CONNECT_AT_ONCE; 4]),
];

/// Applies the entries of each run to a new shard, and returns a line for each answered connect.
///
/// The runs are a held connect, batches that are acknowledged, a full queue that overflows, and a
/// full queue from which connects fetch all events.
///
/// # Errors
///
/// `Memory` if memory runs out outside of `Shard::apply`; `Wrong` if an entry is not applied by a
/// second attempt, or if the first attempt changed the place of the shard.
pub fn run(alloc: Global) -> Result<String, Unlike> {
    let mut text = String::new(alloc);
    for worked in WORKED {
        make(alloc, worked, &mut text)?;
    }
    Ok(text)
}

// Applies the entries of `worked` to a new shard, and appends a line for each answered connect.
fn make(alloc: Global, worked: Worked, text: &mut String) -> Result<(), Unlike> {
    let (first, is_filled, then) = worked;
    let placing = Arc::new(alloc, ByRemainder)?;
    let mut shard = Shard::new(alloc, 0, config(1)?, placing);
    apply_all(alloc, &mut shard, first, text)?;
    if is_filled {
        fill(alloc, &mut shard)?;
    }
    apply_all(alloc, &mut shard, then, text)
}

// Applies the entries of `deeds`. When the last connect so far is answered, appends the line of the
// answer to `text`.
fn apply_all(
    alloc: Global,
    shard: &mut Shard<ByRemainder>,
    deeds: &[Deed],
    text: &mut String,
) -> Result<(), Unlike> {
    let mut connect = 0;
    for deed in deeds {
        if let Deed::Connect(..) = deed {
            connect = shard.place();
        }
        apply(alloc, shard, kind(alloc, *deed)?)?;
        add_answer(alloc, shard, connect, text)?;
    }
    Ok(())
}

// Appends the line of the answer to the connect at `place`, if it is answered.
fn add_answer(
    alloc: Global,
    shard: &mut Shard<ByRemainder>,
    place: u64,
    text: &mut String,
) -> Result<(), Unlike> {
    match shard.take(Ticket { place, shard: 0 }) {
        Some(answer) => add_line(text, told(alloc, answer)?.as_str()),
        None => Ok(()),
    }
}

// Publishes `MOST_EVENTS` events, which fills the queue of the session. All entries share one
// event.
fn fill(alloc: Global, shard: &mut Shard<ByRemainder>) -> Result<(), Unlike> {
    let event = event(alloc, "/a/b", "1")?;
    for _ in 0..MOST_EVENTS {
        apply(alloc, shard, EntryKind::Publish(event.clone()?))?;
    }
    Ok(())
}

// Applies an entry. If memory runs out, checks that the shard is at the same place, and retries.
fn apply(alloc: Global, shard: &mut Shard<ByRemainder>, kind: EntryKind) -> Result<(), Unlike> {
    let place = shard.place();
    if place > MOST_ENTRIES {
        return Err(Unlike::Wrong("too many entries"));
    }
    let entry = Entry {
        place,
        moment: 0,
        kind,
        rides: None,
    };
    let mut wakers = Wakers::new(alloc);
    if shard.apply(alloc, &entry, &mut wakers).is_ok() {
        return Ok(());
    }
    if shard.place() != place {
        return Err(Unlike::Wrong("a refused entry moves its shard"));
    }
    match shard.apply(alloc, &entry, &mut wakers) {
        Ok(()) => Ok(()),
        Err(_) => Err(Unlike::Wrong("not applied")),
    }
}

// Returns the text of `answer`. For four or more events, the text has their count and the reply.
fn told(alloc: Global, answer: Answer) -> Result<String, Unlike> {
    let count = answer.events.len();
    if count < 4 {
        return text_of(alloc, answer);
    }
    let reply = reply(alloc, &answer.reply)?;
    Ok(format!(in alloc; "{count} events, {reply}")?)
}

fn kind(alloc: Global, deed: Deed) -> Result<EntryKind, Unlike> {
    match deed {
        Deed::Open(session, ack) => Ok(EntryKind::Opened { session, ack }),
        Deed::Subscribe(session, pattern) => Ok(EntryKind::Subscribe {
            session,
            patterns: patterns(alloc, pattern)?,
        }),
        Deed::Unsubscribe(session, pattern) => Ok(EntryKind::Unsubscribe {
            session,
            patterns: patterns(alloc, pattern)?,
        }),
        Deed::Connect(session, acked, hold) => Ok(EntryKind::Connect {
            session,
            client: client(alloc, session)?,
            id: None,
            acked,
            hold,
        }),
        Deed::Publish(channel, data) => Ok(EntryKind::Publish(event(alloc, channel, data)?)),
    }
}

fn patterns(alloc: Global, text: &str) -> Result<Sequence<Pattern>, Unlike> {
    let Ok(pattern) = Pattern::read(alloc, text) else {
        return Err(Unlike::Memory);
    };
    let mut patterns = Sequence::new(alloc);
    patterns.push(pattern)?;
    Ok(patterns)
}

// Returns a client id of `session`: its number as 48 hexadecimal digits.
fn client(alloc: Global, session: u64) -> Result<Text, Unlike> {
    Ok(Text::from_string(format!(in alloc; "{session:048x}")?)?)
}
