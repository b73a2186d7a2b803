//! Workloads of a registry, which plan and commit requests and ticks.
ghost use Rattle.std.specs.Prelude.{◌≤◌};

use crate::bodies;
use crate::bodies::handshake;
use anyhow::{Result, anyhow};
use bx_advice::Config;
use bx_cut::Document;
use bx_entry::{AllFirst, Entry, EntryKind};
use bx_message::Message;
use bx_registry::{Plan, Registry};
use std::alloc::Global;

const PUBLISHERS: u64 = 10_000;

const PUBLISHES: u64 = 1_000_000;

// Number of live sessions while `tick` makes its ticks, which is also the limit of sessions.
const SESSIONS: u64 = 65_536;

const TICKS: u64 = 100_000;

// Appends the messages of `body` to `messages`.
fn read(alloc: Global, body: String, messages: &mut Vec<Message>) -> Result<()> {
    let document = Document::read(alloc, body.as_bytes()).map_err(|_| anyhow!("not cut"))?;
    for piece in document.pieces() {
        let message = Message::read(alloc, piece);
        messages.push(message.map_err(|_| anyhow!("no message"))?)?;
    }
    Ok(())
}

// Creates a registry, and opens `sessions` sessions, a request each.
fn opened(alloc: Global, sessions: u64) -> Result<Registry> {
    let config = Config::new(1, 30_000, 0, 10_000).ok_or(anyhow!("no configuration"))?;
    let mut registry = Registry::new(alloc, config)?;
    open_all(alloc, &mut registry, sessions)?;
    Ok(registry)
}

fn open_all(alloc: Global, registry: &mut Registry, sessions: u64) -> Result<()> {
    let mut request = Vec::new(alloc);
    read(alloc, handshake(alloc)?, &mut request)?;
    for _ in 0..sessions {
        admit(alloc, registry, &request)?;
    }
    Ok(())
}

// Creates a publish by each of `sessions` sessions.
fn publishes(alloc: Global, sessions: u64) -> Result<Vec<Message>> {
    let mut publishes = Vec::new(alloc);
    for number in 1..=sessions {
        read(alloc, bodies::publish(alloc, number, 0)?, &mut publishes)?;
    }
    Ok(publishes)
}

// Plans and commits a request with `messages`.
fn admit(alloc: Global, registry: &mut Registry, messages: &[Message]) -> Result<()> {
    let planned = registry.plan(alloc, &AllFirst, 0, 0, messages);
    let Plan {
        elements,
        change,
        ..
    } = planned.map_err(|_| anyhow!("not planned"))?;
    registry.commit(change, &elements);
    Ok(())
}

/// Opens 10,000 sessions, a request each.
///
/// Returns the length of the list.
///
/// # Errors
///
/// If memory runs out.
pub fn open(alloc: Global) -> Result<usize> {
    Ok(opened(alloc, PUBLISHERS)?.entries() as usize)
}

/// Makes 1,000,000 publishes by 10,000 sessions in turn, at most `at_once` in a request.
///
/// Returns the length of the list.
///
/// # Errors
///
/// If memory runs out.
pub fn publish(alloc: Global, at_once: usize) -> Result<usize>
    requires { 1 ≤ at_once }
{
    let mut registry = opened(alloc, PUBLISHERS)?;
    let publishes = publishes(alloc, PUBLISHERS)?;
    for _ in 0..PUBLISHES / PUBLISHERS {
        for part in publishes.chunks(at_once) {
            admit(alloc, &mut registry, part)?;
        }
    }
    Ok(registry.entries() as usize)
}

/// Makes 100,000 ticks with 65,536 live sessions, none of them due.
///
/// Returns the length of the list, plus the number of sessions closed.
///
/// # Errors
///
/// If memory runs out.
pub fn tick(alloc: Global) -> Result<usize> {
    let mut registry = opened(alloc, SESSIONS)?;
    let mut closed = 0u64;
    for _ in 0..TICKS {
        closed = closed.wrapping_add(admit_tick(alloc, &mut registry)?);
    }
    Ok(registry.entries().wrapping_add(closed) as usize)
}

// Plans and commits a tick, and returns how many sessions it closes.
fn admit_tick(alloc: Global, registry: &mut Registry) -> Result<u64> {
    let planned = registry.plan_tick(alloc, 100);
    let Plan {
        batch,
        elements,
        change,
        ..
    } = planned.map_err(|_| anyhow!("not planned"))?;
    registry.commit(change, &elements);
    match batch.entries.as_slice() {
        [
            Entry {
                kind: EntryKind::Tick(numbers),
                ..
            },
            ..
        ] => Ok(numbers.len() as u64),
        _ => Ok(0),
    }
}
