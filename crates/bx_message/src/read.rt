ghost use Rattle.std.specs.Prelude.{◌≡◌, IfOk, IfErr, Some, None, codes, option_map, option_and_then};
ghost use Rattle.std.specs.List.{list_all};
ghost use Rattle.bx_cut.specs.Pieces.{last_member, elements};
ghost use Rattle.bx_message.specs.declared.read.MessageError.TheVariants.{Memory};
ghost use Rattle.bx_message.specs.Fields.{message_in, fields_of, text_field, id_field, listed_texts, subscribed_texts, is_listed, texts_among, is_text, nested_in, ack_field, number_of, begins, begins_text_or_number, is_array};

use crate::message::{AckMember, Message, TextMember};
use crate::number::number_of;
use crate::sequence::Sequence;
use crate::text::{RawJson, Text};
use bx_cut::{Piece, elements_of, member_of, plain_text_of, text_of};
use std::alloc::{AllocError, AllocFailed, Global};

/// Why a message cannot be parsed.
#[derive(Clone, Copy, Debug, PartialEq, Eq)]
pub enum MessageError {
    /// There is no `channel`, or it is not a string.
    NoChannel,
    Memory,
}

impl Message {
    /// Parses a message from the object `piece`, and copies its texts.
    ///
    /// # Errors
    ///
    /// `NoChannel`, or `Memory` if memory runs out.
    pub fn read(alloc: Global, piece: &Piece<'_>) -> Result<Message, MessageError>
        ensures fields { IfOk result (λ m. message_in piece.now.1 ≡ Some m) }
        ensures no_channel { IfErr result
            (λ e. e ≡ MessageError.NoChannel → message_in piece.now.1 ≡ None) }
    {
        match text_member(alloc, piece, "channel")? {
            TextMember::Text(channel) => Ok(read_fields(alloc, piece, channel)?),
            _ => Err(MessageError::NoChannel),
        }
    }
}

fn read_fields(alloc: Global, piece: &Piece<'_>, channel: Text) -> Result<Message, AllocError>
    ensures { IfOk result (λ m. m ≡ fields_of piece.now.1 channel) }
{
    let subscription = piece.member("subscription");
    let (texts, listed) = subscription_texts(alloc, subscription)?;
    Ok(Message {
        channel,
        id: id_member(alloc, piece)?,
        client: text_member(alloc, piece, "clientId")?,
        version: text_member(alloc, piece, "version")?,
        supported: listed_texts(alloc, piece.member("supportedConnectionTypes"))?,
        connection: text_member(alloc, piece, "connectionType")?,
        subscription: copy_of(alloc, subscription)?,
        texts,
        listed,
        payload: copy_of(alloc, piece.member("data"))?,
        ack: ack_member(piece),
        timeout: timeout_member(piece),
    })
}

fn copy_of(alloc: Global, json: Option<&str>) -> Result<Option<RawJson>, AllocError>
    ensures { IfOk result (λ copy. copy ≡ option_map (λ t. t.now) json.entry) }
{
    match json {
        Some(json) => Ok(Some(RawJson::new(alloc, json)?)),
        None => Ok(None),
    }
}

fn text_member(alloc: Global, piece: &Piece<'_>, name: &str) -> Result<TextMember, AllocError>
    ensures { IfOk result (λ m. m ≡ text_field (last_member name.now piece.now.1)) }
{
    let Some(json) = piece.member(name) else {
        return Ok(TextMember::Absent);
    };
    if let Some(text) = plain_text_of(json) {
        return Ok(TextMember::Text(Text::plain(alloc, text)?));
    }
    match text_of(alloc, json)? {
        Some(text) => Ok(TextMember::Text(Text::from_string(text)?)),
        None => Ok(TextMember::NotText),
    }
}

fn id_member(alloc: Global, piece: &Piece<'_>) -> Result<Option<RawJson>, AllocError>
    ensures { IfOk result (λ id. id ≡ id_field (last_member (codes "id") piece.now.1)) }
{
    match piece.member("id") {
        Some(json) if is_text_or_number(json) => Ok(Some(RawJson::new(alloc, json)?)),
        _ => Ok(None),
    }
}

// Such a value begins with a quote, a minus or a digit.
fn is_text_or_number(json: &str) -> bool
    ensures { result ≡ begins begins_text_or_number json.now }
{
    match json.as_bytes().first() {
        Some(byte) => *byte == b'"' || *byte == b'-' || byte.is_ascii_digit(),
        None => false,
    }
}

fn is_array(json: &str) -> bool
    ensures { result ≡ is_array json.now }
{
    match json.as_bytes().first() {
        Some(byte) => *byte == b'[',
        None => false,
    }
}

// Parses the strings among the elements of `array`, if it is one.
fn listed_texts(alloc: Global, array: Option<&str>) -> Result<Sequence<Text>, AllocError>
    ensures { IfOk result (λ texts. texts ≡ listed_texts (option_map (λ t. t.now) array.entry)) }
{
    match array {
        Some(array) => Ok(texts_among(alloc, array)?.0),
        None => Ok(Sequence::new(alloc)),
    }
}

// Parses the strings among the elements of `array`, and returns whether all elements are strings.
//
// A value that is not an array has no elements.
fn texts_among(alloc: Global, array: &str) -> Result<(Sequence<Text>, bool), AllocError>
    ensures texts { IfOk result (λ r. r.0 ≡ texts_among (elements array.now)) }
    ensures all { IfOk result (λ r. r.1 ≡ list_all is_text (elements array.now)) }
{
    let mut texts = Sequence::new(alloc);
    let mut all_texts = true;
    for element in elements_of(array) {
        match text_of(alloc, element)? {
            Some(text) => texts.push(Text::from_string(text)?)?,
            None => all_texts = false,
        }
    }
    Ok((texts, all_texts))
}

// Returns the strings of a subscription, and whether it is a string or an array of strings only.
//
// The strings are the subscription itself, or the strings among the elements if it is an array.
fn subscription_texts(
    alloc: Global,
    subscription: Option<&str>,
) -> Result<(Sequence<Text>, bool), AllocError>
    ensures texts { IfOk result
        (λ r. r.0 ≡ subscribed_texts (option_map (λ t. t.now) subscription.entry)) }
    ensures listed { IfOk result
        (λ r. r.1 ≡ is_listed (option_map (λ t. t.now) subscription.entry)) }
{
    let mut texts = Sequence::new(alloc);
    let Some(json) = subscription else {
        return Ok((texts, false));
    };
    if let Some(text) = text_of(alloc, json)? {
        texts.push(Text::from_string(text)?)?;
        return Ok((texts, true));
    }
    let (texts, all_texts) = texts_among(alloc, json)?;
    Ok((texts, is_array(json) && all_texts))
}

fn nested_member<'a>(piece: &Piece<'a>, outer: &str, inner: &str) -> Option<&'a str>
    ensures { option_map (λ t. t.now) result ≡ nested_in outer.now inner.now piece.now.1 }
{
    member_of(piece.member(outer)?, inner)
}

// CometD's acknowledgement extension.
fn ack_member(piece: &Piece<'_>) -> AckMember
    ensures { result ≡ ack_field (nested_in (codes "ext") (codes "ack") piece.now.1) }
{
    match nested_member(piece, "ext", "ack") {
        Some("true") => AckMember::AckTrue,
        Some(json) => match number_of(json.as_bytes()) {
            Some(number) => AckMember::AckNumber(number),
            None => AckMember::NoAck,
        },
        None => AckMember::NoAck,
    }
}

// Parses `timeout` in the member `advice` of `piece`, if it is a number in digits only.
fn timeout_member(piece: &Piece<'_>) -> Option<u64>
    ensures { result ≡ option_and_then number_of
        (nested_in (codes "advice") (codes "timeout") piece.now.1) }
{
    number_of(nested_member(piece, "advice", "timeout")?.as_bytes())
}

impl From<AllocError> for MessageError {
    ghost from_gives = { λ _ e. e ≡ Memory };

    fn from(_error: AllocError) -> MessageError {
        MessageError::Memory
    }
}

impl<T: Drop> From<AllocFailed<T>> for MessageError {
    ghost from_gives = { λ _ e. e ≡ Memory };

    fn from(_error: AllocFailed<T>) -> MessageError {
        MessageError::Memory
    }
}
