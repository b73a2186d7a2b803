ghost use Rattle.std.specs.Prelude.{◌≡◌, List, None, length, nat_lt, nat_le, not, is_some, is_none};
ghost use Rattle.std.specs.List.{list_any};
ghost use Rattle.bx_names.specs.Faults.{name_fault, pattern_fault};
ghost use Rattle.bx_names.specs.Kinds.{is_meta};
ghost use Rattle.bx_entry.specs.Registry.{Registered, count_live, is_connection, is_polling, is_text, is_version, named_by, refusal};
ghost use Rattle.bx_registry.specs.MessageOutcomes.{AreReadable, is_needed};
ghost use Rattle.bx_registry.specs.Postings.{posted_of};

use crate::posted::Posted;
use bx_advice::{Config, Error};
use bx_message::{Message, MessageKind, Text, TextMember};
use bx_names::{ChannelKind, is_meta, kind_of, name_fault, pattern_fault};

/// Returns the error of a rejected message, or `None` if the message is accepted.
///
/// If several errors apply, returns the first in the order of [`Error`].
///
/// `live`: how many sessions are live. `known`: whether the message names one of them.
#[tactic(auto, using(crate::proofs::Judging::accepted))]
pub(crate) fn refusal(
    config: &Config,
    live: usize,
    known: bool,
    posted: Posted<'_>,
) -> Option<Error>
    ensures table { (sessions : List Registered) → live ≡ count_live sessions
        → known ≡ is_some (named_by sessions posted.entry.message_kind posted.entry.message.now)
        → result ≡ refusal config.now sessions (posted_of posted.entry) }
    ensures readable { result ≡ None → AreReadable posted.entry.message_kind posted.entry.message.now }
{
    let message = posted.message;
    let needed = is_needed(config, posted.message_kind, &message.client);
    match posted.message_kind {
        MessageKind::UnknownMeta => Some(Error::UnknownMetaChannel),
        MessageKind::Handshake if posted.second => Some(Error::SecondHandshake),
        MessageKind::Handshake if !is_version(&message.version) => Some(Error::UnsupportedVersion),
        MessageKind::Handshake if !has_polling(message) => Some(Error::NoSupportedConnectionType),
        MessageKind::Handshake if live >= config.limits.sessions => Some(Error::TooManySessions),
        MessageKind::Handshake => None,
        _ if needed & !is_text(&message.client) => Some(Error::NoClientId),
        _ if needed & !known => Some(Error::UnknownClient),
        MessageKind::Connect if !is_connection(&message.connection) => Some(
            Error::UnknownConnectionType,
        ),
        MessageKind::Publish if !is_name(message) => Some(Error::InvalidChannel),
        MessageKind::Subscribe | MessageKind::Unsubscribe if has_no_pattern(message) => Some(
            Error::InvalidPattern,
        ),
        MessageKind::Subscribe | MessageKind::Unsubscribe
            if message.texts.len() > config.limits.texts => Some(Error::TooManyPatterns),
        MessageKind::Subscribe | MessageKind::Unsubscribe if has_meta(message) => Some(
            Error::SubscriptionDenied,
        ),
        MessageKind::Subscribe | MessageKind::Unsubscribe if !message.listed => Some(
            Error::MissingSubscription,
        ),
        MessageKind::Publish if message.payload.is_none() => Some(Error::MissingData),
        _ => None,
    }
}

// Returns `true` if a message, other than a handshake, must name a live session. A publish need not
// if `config.anonymous` is set.
fn is_needed(config: &Config, message_kind: MessageKind, client: &TextMember) -> bool
    ensures { result ≡ is_needed config.now message_kind client.now }
{
    match message_kind {
        MessageKind::Publish => match client {
            TextMember::Absent => !config.anonymous,
            _ => true,
        },
        _ => true,
    }
}

// Bayeux 1.0, version.
fn is_version(version: &TextMember) -> bool
    ensures { result ≡ is_version version.now }
{
    match version {
        TextMember::Text(text) => (text.as_str() == "1") | text.as_str().starts_with("1."),
        _ => false,
    }
}

// Returns `true` if a handshake offers `long-polling` or `callback-polling`.
//
// Bayeux 1.0, connection types.
fn has_polling(message: &Message) -> bool
    ensures { result ≡ list_any is_polling message.now.supported }
{
    message
        .supported
        .as_slice()
        .iter()
        .any(|text| is_polling(text.as_str()))
}

fn is_polling(text: &str) -> bool
    ensures { result ≡ is_polling text.now }
{
    (text == "long-polling") | (text == "callback-polling")
}

fn is_text(member: &TextMember) -> bool
    ensures { result ≡ is_text member.now }
{
    match member {
        TextMember::Text(_) => true,
        _ => false,
    }
}

// Returns `true` if a connect's connection type is absent, `long-polling` or `callback-polling`.
fn is_connection(member: &TextMember) -> bool
    ensures { result ≡ is_connection member.now }
{
    match member {
        TextMember::Absent => true,
        TextMember::NotText => false,
        TextMember::Text(text) => is_polling(text.as_str()),
    }
}

fn is_name(message: &Message) -> bool
    ensures { result ≡ not (is_some (name_fault message.now.channel)) }
{
    name_fault(message.channel.as_str()).is_none()
}

fn has_no_pattern(message: &Message) -> bool
    ensures { result ≡ list_any (λ text. is_some (pattern_fault text)) message.now.texts }
{
    message
        .texts
        .as_slice()
        .iter()
        .any(|text| pattern_fault(text.as_str()).is_some())
}

fn has_meta(message: &Message) -> bool
    ensures { result ≡ list_any is_meta message.now.texts }
{
    message
        .texts
        .as_slice()
        .iter()
        .any(|text| is_meta(text.as_str()))
}
