//! The part `plans`: a registry that plans requests and ticks.
ghost use Rattle.std.specs.Prelude.{IfOk};
ghost use Rattle.bx_registry.specs.Standings.{LeadsTo};

use crate::requests::{add_line, config, reply};
use crate::unlike::Unlike;
use bx_calls::arrival;
use bx_calls::texts::{HANDSHAKE, SUBSCRIBE_OTHER};
use bx_entry::{AdmitFault, AllFirst, Entry, EntryKind, Slot};
use bx_message::Message;
use bx_registry::{Plan, Registry};
use std::alloc::{AllocError, Global};

// A publish of the first session to `/a/b`.
const PUBLISH: &str =
    r#"[{"channel":"/a/b","clientId":"000000000000000000000000000000000000000000000001","data":1}]"#;

// The requests and ticks of the run. Each has its moment in milliseconds, and a request has its
// body. The second session sends its last message later than the first, so the second tick closes
// only the first session.
const DEEDS: [(u64, Option<&str>); 6] = [
    (0, Some(HANDSHAKE)),
    (5, Some(HANDSHAKE)),
    (5, Some(SUBSCRIBE_OTHER)),
    (10_000, None),
    (10_001, None),
    (10_001, Some(PUBLISH)),
];

// Returns how many entries and live sessions a registry has, and whether sessions 1 and 2 are live.
fn counts_of(registry: &Registry) -> (u64, usize, bool, bool) {
    (
        registry.entries(),
        registry.sessions(),
        registry.live(1),
        registry.live(2),
    )
}

/// Admits requests and ticks, in order, and returns a line for each.
///
/// The line of a request has its reply. The line of a tick has the numbers of the sessions that it
/// closes.
///
/// # Errors
///
/// `Memory` if memory runs out outside of `plan` and `plan_tick`; `Wrong` if a second attempt fails
/// or the first attempt changed the registry.
pub fn run(alloc: Global) -> Result<String, Unlike> {
    let mut registry = Registry::new(alloc, config(1)?)?;
    let mut text = String::new(alloc);
    for (moment, body) in DEEDS {
        let line = match body {
            Some(body) => request(alloc, &mut registry, moment, body)?,
            None => tick(alloc, &mut registry, moment)?,
        };
        add_line(&mut text, line.as_str())?;
    }
    Ok(text)
}

// Admits a request of one message, and returns the text of its reply.
fn request(
    alloc: Global,
    registry: &mut Registry,
    moment: u64,
    body: &str,
) -> Result<String, Unlike> {
    let messages = messages_of(alloc, body)?;
    let Plan {
        slots,
        elements,
        change,
        ..
    } = planned(alloc, registry, moment, Some(messages.as_slice()))?;
    registry.commit(change, &elements);
    match slots.as_slice().first() {
        Some(Slot::Ready(ready)) => reply(alloc, ready),
        _ => Err(Unlike::Wrong("not answered at once")),
    }
}

fn messages_of(alloc: Global, body: &str) -> Result<Vec<Message>, Unlike> {
    let arrival = arrival(alloc, body)?;
    match arrival.read(alloc) {
        Ok(messages) => Ok(messages),
        Err(_) => Err(Unlike::Memory),
    }
}

// Admits a tick, and returns a line with the numbers of the sessions that it closes.
fn tick(alloc: Global, registry: &mut Registry, moment: u64) -> Result<String, Unlike> {
    let Plan {
        batch,
        elements,
        change,
        ..
    } = planned(alloc, registry, moment, None)?;
    registry.commit(change, &elements);
    match batch.entries.as_slice().first() {
        Some(entry) => closed_by(alloc, entry),
        None => Err(Unlike::Wrong("a tick has no entry")),
    }
}

// Returns a line with the numbers of the sessions that `entry`, a tick, closes.
fn closed_by(alloc: Global, entry: &Entry) -> Result<String, Unlike> {
    match &entry.kind {
        EntryKind::Tick(numbers) => Ok(line_of(alloc, numbers.as_slice())?),
        _ => Err(Unlike::Wrong("a tick has another entry")),
    }
}

fn line_of(alloc: Global, numbers: &[u64]) -> Result<String, AllocError> {
    let mut text = String::from_str(alloc, "closed:")?;
    for number in numbers {
        write!(text, " {number}")?;
    }
    Ok(text)
}

// Returns the plan of a request with `messages`, or of a tick if there are none. Retries once if
// memory runs out and the registry is unchanged.
fn planned(
    alloc: Global,
    registry: &mut Registry,
    moment: u64,
    messages: Option<&[Message]>,
) -> Result<Plan, Unlike>
    ensures { IfOk result (λ plan. LeadsTo registry.new plan.change plan.elements) }
{
    let before = counts_of(registry);
    for _ in 0..2 {
        let plan = match messages {
            Some(messages) => registry.plan(alloc, &AllFirst, moment, 0, messages),
            None => registry.plan_tick(alloc, moment),
        };
        match plan {
            Ok(plan) => return Ok(plan),
            Err(AdmitFault::Memory) if counts_of(registry) == before => (),
            Err(_) => return Err(Unlike::Wrong("not planned")),
        }
    }
    Err(Unlike::Wrong("refused once more"))
}
