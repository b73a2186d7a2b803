//! The JSON text of replies, events and responses.
//!
//! The text has no whitespace. The members of objects are in ascending byte order of their names.
ghost use Rattle.std.specs.Prelude.{◌≡◌, ◌++◌, IfOk, OnOk, Some, true};
ghost use Rattle.std.specs.List.{list_all};
ghost use Rattle.json.specs.Run.{is_plain};
ghost use Rattle.bx_message.specs.Objects.{with_members, name_text};
ghost use Rattle.bx_message.specs.Texts.{reply_text, event_text, body_text, item_text, reconnect_text, success_text, raw_member, text_member, number_member, advice_member, error_member, ack_member, handshake_members};

use crate::event::Event;
use crate::message_kind::MessageKind;
use crate::object::{Name, ObjectWriter};
use crate::reply::{AckReply, Item, Reply};
use crate::text::{RawJson, Text};
use bx_advice::{Advice, Outcome, Reconnect};
use std::alloc::{AllocError, Global};

// In every reply to a handshake. Bayeux 1.0, handshake response.
const SUPPORTED_TYPES: &str = "[\"long-polling\",\"callback-polling\"]";

const VERSION: &str = "1.0";

// Room in bytes for a reply or an event without the texts that they repeat: for all member names,
// and the longest advice, error and numbers.
const REPLY_ROOM: usize = 384;

const EVENT_ROOM: usize = 64;

/// Formats a reply as a JSON object.
///
/// Its members are, if present: `advice`, `channel`, `clientId`, `error`, `ext`, `id`,
/// `subscription`, `successful`, `supportedConnectionTypes` and `version`.
pub fn reply_text(alloc: Global, reply: &Reply) -> Result<Vec<u8>, AllocError>
    ensures { IfOk result (λ out. out.items ≡ reply_text reply.now) }
{
    write_reply(Vec::with_capacity(alloc, reply_room(reply))?, reply)
}

/// Formats an event as a JSON object with `channel`, `data` and, if present, `id`.
pub fn event_text(alloc: Global, event: &Event) -> Result<Vec<u8>, AllocError>
    ensures { IfOk result (λ out. out.items ≡ event_text event.now) }
{
    write_event(Vec::with_capacity(alloc, event_room(event))?, event)
}

/// Formats a response: the JSON array of `items` in order.
pub fn body_text(alloc: Global, items: &[Item]) -> Result<Vec<u8>, AllocError>
    ensures { IfOk result (λ out. out.items ≡ body_text items.now) }
{
    let mut out = Vec::with_capacity(alloc, body_room(items))?;
    out.push(b'[')?;
    for (i, item) in items.iter().enumerate() {
        if i > 0 {
            out.push(b',')?;
        }
        out = write_item(out, item)?;
    }
    out.push(b']')?;
    Ok(out)
}

// Returns the room to allocate for a response. Escapes may need more.
fn body_room(items: &[Item]) -> usize {
    let mut room = 2usize;
    for item in items {
        room = room.saturating_add(item_room(item)).saturating_add(1);
    }
    room
}

/// Returns the room to reserve for an item's JSON text, in bytes.
///
/// This is the exact size of an event. For a reply it suffices unless a text needs escapes.
pub fn item_room(item: &Item) -> usize {
    match item {
        Item::EventItem(event) => event.size(),
        Item::ReplyItem(reply) => reply_room(reply),
    }
}

fn event_room(event: &Event) -> usize {
    EVENT_ROOM
        .saturating_add(event.channel.as_str().len())
        .saturating_add(event.payload.as_str().len())
        .saturating_add(raw_len(&event.id))
}

fn reply_room(reply: &Reply) -> usize {
    let client_len = match &reply.client {
        Some(client) => client.as_str().len(),
        None => 0,
    };
    REPLY_ROOM
        .saturating_add(reply.channel.as_str().len())
        .saturating_add(client_len)
        .saturating_add(raw_len(&reply.id))
        .saturating_add(raw_len(&reply.subscription))
}

fn raw_len(json: &Option<RawJson>) -> usize {
    match json {
        Some(json) => json.as_str().len(),
        None => 0,
    }
}

/// Appends the JSON text of `item` to `out`, which is dropped if memory runs out.
pub fn write_item(out: Vec<u8>, item: &Item) -> Result<Vec<u8>, AllocError>
    ensures { IfOk result (λ text. text.items ≡ out.items ++ item_text item.now) }
{
    match item {
        Item::EventItem(event) => write_event(out, event.event()),
        Item::ReplyItem(reply) => write_reply(out, reply),
    }
}

fn write_event(out: Vec<u8>, event: &Event) -> Result<Vec<u8>, AllocError>
    ensures { IfOk result (λ text. text.items ≡ out.items ++ event_text event.now) }
{
    let mut object = ObjectWriter::begin(out)?;
    object.text(Name::Channel, &event.channel)?;
    object.raw(Name::Data, event.payload.as_str())?;
    write_raw(&mut object, Name::Id, &event.id)?;
    object.end()
}

fn write_reply(out: Vec<u8>, reply: &Reply) -> Result<Vec<u8>, AllocError>
    ensures { IfOk result (λ text. text.items ≡ out.items ++ reply_text reply.now) }
{
    let mut object = ObjectWriter::begin(out)?;
    write_advice(&mut object, reply.advice)?;
    object.text(Name::Channel, &reply.channel)?;
    write_text(&mut object, Name::ClientId, &reply.client)?;
    write_error(&mut object, reply.outcome)?;
    write_ack(&mut object, reply.ack)?;
    write_raw(&mut object, Name::Id, &reply.id)?;
    write_raw(&mut object, Name::Subscription, &reply.subscription)?;
    object.raw(Name::Successful, success_text(reply.outcome))?;
    write_handshake(&mut object, reply.message_kind)?;
    object.end()
}

fn write_raw(
    object: &mut ObjectWriter,
    name: Name,
    json: &Option<RawJson>,
) -> Result<(), AllocError>
    ensures { OnOk result (object.new
        ≡ with_members object.old (raw_member (name_text name) json.now)) }
{
    match json {
        Some(json) => object.raw(name, json.as_str()),
        None => Ok(()),
    }
}

fn write_text(object: &mut ObjectWriter, name: Name, text: &Option<Text>) -> Result<(), AllocError>
    ensures { OnOk result (object.new
        ≡ with_members object.old (text_member (name_text name) text.now)) }
{
    match text {
        Some(text) => object.text(name, text),
        None => Ok(()),
    }
}

fn write_advice(object: &mut ObjectWriter, advice: Option<Advice>) -> Result<(), AllocError>
    ensures { OnOk result (object.new ≡ with_members object.old (advice_member advice)) }
{
    let Some(advice) = advice else {
        return Ok(());
    };
    object.open(Name::Advice)?;
    object.number(Name::Interval, u64::from(advice.interval))?;
    object.word(Name::Reconnect, reconnect_text(advice.reconnect))?;
    write_number(object, Name::Timeout, advice.timeout)?;
    object.close()
}

fn write_number(
    object: &mut ObjectWriter,
    name: Name,
    number: Option<u32>,
) -> Result<(), AllocError>
    ensures { OnOk result (object.new
        ≡ with_members object.old (number_member (name_text name) number)) }
{
    match number {
        Some(number) => object.number(name, u64::from(number)),
        None => Ok(()),
    }
}

// Bayeux 1.0, the advice field `reconnect`.
fn reconnect_text(reconnect: Reconnect) -> &'static str
    ensures text { result.now ≡ reconnect_text reconnect }
    ensures plain { list_all is_plain result.now ≡ true }
{
    match reconnect {
        Reconnect::Retry => "retry",
        Reconnect::Handshake => "handshake",
        Reconnect::Never => "none",
    }
}

#[tactic(auto, using(crate::proofs::ObjectLemmas::error_plain))]
fn write_error(object: &mut ObjectWriter, outcome: Outcome) -> Result<(), AllocError>
    ensures { OnOk result (object.new ≡ with_members object.old (error_member outcome)) }
{
    match outcome {
        Outcome::Failed(error) => object.word(Name::Error, error.text()),
        _ => Ok(()),
    }
}

fn success_text(outcome: Outcome) -> &'static str
    ensures { result.now ≡ success_text outcome }
{
    match outcome {
        Outcome::Failed(_) => "false",
        _ => "true",
    }
}

// CometD's acknowledgement extension.
fn write_ack(object: &mut ObjectWriter, ack: AckReply) -> Result<(), AllocError>
    ensures { OnOk result (object.new ≡ with_members object.old (ack_member ack)) }
{
    match ack {
        AckReply::NoAck => Ok(()),
        AckReply::AckTrue => object.raw(Name::Ext, "{\"ack\":true}"),
        AckReply::AckNumber(number) => {
            object.open(Name::Ext)?;
            object.number(Name::Ack, number)?;
            object.close()
        }
    }
}

// Appends the members that replies to handshakes carry, even on failure.
fn write_handshake(object: &mut ObjectWriter, message_kind: MessageKind) -> Result<(), AllocError>
    ensures { OnOk result (object.new ≡ with_members object.old (handshake_members message_kind)) }
{
    match message_kind {
        MessageKind::Handshake => {
            object.raw(Name::SupportedConnectionTypes, SUPPORTED_TYPES)?;
            object.word(Name::Version, VERSION)
        }
        _ => Ok(()),
    }
}
