//! Workloads of cutting bodies and of writing responses.
use anyhow::{Result, anyhow};
use bx_advice::{Config, Outcome};
use bx_cut::Document;
use bx_message::{AckReply, Event, Item, RawJson, Reply, SharedEvent, Text, body_text};
use bx_names::ChannelName;
use serde_json::Value;
use std::alloc::Global;
use std::str;

const CUT_RUNS: usize = 20;

// Number of runs, each with 1,000 replies and 1,000 events.
const TEXT_RUNS: usize = 100;

const MEMBERS: [&str; 10] = [
    "channel",
    "id",
    "clientId",
    "version",
    "supportedConnectionTypes",
    "connectionType",
    "subscription",
    "data",
    "ext",
    "advice",
];

/// Reads `body` as a `serde_json` value, 20 times.
///
/// Returns the number of values in the array that `body` is, summed over all runs.
///
/// # Errors
///
/// If `body` is not UTF-8 or not JSON, or memory runs out.
pub fn check(alloc: Global, body: &[u8]) -> Result<usize> {
    let mut total = 0usize;
    for _ in 0..CUT_RUNS {
        let text = str::from_utf8(body)?;
        let value = Value::from_str(alloc, text)?;
        total = total.saturating_add(value.as_array().map_or(0, |items| items.len()));
    }
    Ok(total)
}

/// Cuts `body` into messages and looks up ten members of each, 20 times.
///
/// Returns the length in bytes of all members found, summed over all runs.
///
/// # Errors
///
/// If `body` cannot be cut, or memory runs out.
pub fn cut(alloc: Global, body: &[u8]) -> Result<usize> {
    let mut total = 0usize;
    for _ in 0..CUT_RUNS {
        let document = Document::read(alloc, body).map_err(|_| anyhow!("not cut"))?;
        for piece in document.pieces() {
            for name in MEMBERS {
                total = total.saturating_add(piece.member(name).map_or(0, |text| text.len()));
            }
        }
    }
    Ok(total)
}

/// Writes 1,000 events and 1,000 replies from a `serde_json` value, 100 times.
///
/// Returns the number of bytes written in all runs.
///
/// # Errors
///
/// If memory runs out.
pub fn value_texts(alloc: Global) -> Result<usize> {
    let text = body_text(alloc, items(alloc)?.as_slice())?;
    let value = Value::from_str(alloc, str::from_utf8(text.as_slice())?)?;
    let mut total = 0usize;
    for _ in 0..TEXT_RUNS {
        total = total.saturating_add(value.to_string(alloc)?.len());
    }
    Ok(total)
}

/// Writes 1,000 events and 1,000 replies from `Item` values, 100 times.
///
/// Returns the number of bytes written in all runs.
///
/// # Errors
///
/// If memory runs out.
pub fn item_texts(alloc: Global) -> Result<usize> {
    let items = items(alloc)?;
    let mut total = 0usize;
    for _ in 0..TEXT_RUNS {
        total = total.saturating_add(body_text(alloc, items.as_slice())?.len());
    }
    Ok(total)
}

/// Creates an event with a stock's price, as an application publishes it.
///
/// # Errors
///
/// If memory runs out.
pub fn stock_event(alloc: Global) -> Result<SharedEvent> {
    let event = Event {
        channel: Text::new(alloc, "/stock/GOOG")?,
        payload: RawJson::new(alloc, "{\"symbol\":\"GOOG\",\"price\":1234.5}")?,
        id: None,
    };
    let name = ChannelName::read(alloc, "/stock/GOOG")?;
    Ok(SharedEvent::new(alloc, event, name)?)
}

// Creates 1,000 events, each followed by the reply to the connect that gets it.
fn items(alloc: Global) -> Result<Vec<Item>> {
    let config = Config::new(1, 30_000, 0, 10_000).ok_or(anyhow!("no configuration"))?;
    let client = Text::new(alloc, "000000000000000000000000000000000000000000000001")?;
    let event = stock_event(alloc)?;
    let mut items = Vec::with_capacity(alloc, 2_000)?;
    for _ in 0..1_000 {
        items.push(Item::EventItem(event.clone()?))?;
        let ack = AckReply::AckNumber(7);
        let reply = Reply::to_connect(&config, client.clone()?, None, Outcome::Connected, ack);
        items.push(Item::ReplyItem(reply))?;
    }
    Ok(items)
}
