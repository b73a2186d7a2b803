ghost use Rattle.std.specs.Prelude.{◌≡◌, IfOk};
ghost use Rattle.std.specs.Option.{option_copied};
ghost use Rattle.bx_message.specs.Replies.{reply_to, connect_reply, client_for, subscription_for};

use crate::event::SharedEvent;
use crate::message::Message;
use crate::message_kind::MessageKind;
use crate::sequence::Sequence;
use crate::text::{RawJson, Text};
use bx_advice::{Advice, Config, Outcome, advice_for};
use std::alloc::AllocError;

/// The member `ack` of a reply's `ext`. CometD's acknowledgement extension.
#[derive(Clone, Copy, Debug, PartialEq, Eq)]
pub enum AckReply {
    NoAck,
    /// In the reply to a handshake that turned acknowledgement on.
    AckTrue,
    /// The number of the last batch, in the reply to a connect.
    AckNumber(u64),
}

/// The reply to one message.
#[derive(Clone, Drop)]
pub struct Reply {
    /// The kind of the answered message. Replies to handshakes have more members.
    pub message_kind: MessageKind,
    pub channel: Text,
    /// The client id, if the reply carries it.
    pub client: Option<Text>,
    /// The answered message's `id`, as its sender wrote it.
    pub id: Option<RawJson>,
    /// As the sender wrote it, if the reply repeats it.
    pub subscription: Option<RawJson>,
    pub outcome: Outcome,
    pub advice: Option<Advice>,
    pub ack: AckReply,
}

impl Reply {
    /// Creates the reply to `message`.
    ///
    /// For an accepted connect, use [`to_connect`](Self::to_connect), which does not allocate.
    ///
    /// `client`: the client id of the message's session. Only replies to the five meta messages
    /// carry it. Replies to subscriptions and unsubscriptions always repeat `subscription`.
    ///
    /// Bayeux 1.0, the responses of meta messages and of publish.
    pub fn to_message(
        config: &Config,
        message_kind: MessageKind,
        message: &Message,
        client: Option<&Text>,
        outcome: Outcome,
        ack: AckReply,
    ) -> Result<Reply, AllocError>
        ensures { IfOk result (λ r.
            r ≡ reply_to config.now message_kind message.now (option_copied client.entry) outcome ack) }
    {
        Ok(Reply {
            message_kind,
            channel: message.channel.clone()?,
            client: client_of(message_kind, client)?,
            id: share_json(message.id.as_ref())?,
            subscription: subscription_of(message_kind, message.subscription.as_ref())?,
            outcome,
            advice: advice_for(outcome, config),
            ack,
        })
    }

    /// Creates the reply to an accepted connect. Does not allocate.
    ///
    /// `client`: the session's client id. `id`: that of the connect.
    ///
    /// Bayeux 1.0, connect response.
    pub fn to_connect(
        config: &Config,
        client: Text,
        id: Option<RawJson>,
        outcome: Outcome,
        ack: AckReply,
    ) -> Reply
        ensures { result ≡ connect_reply config.now client id outcome ack }
    {
        Reply {
            message_kind: MessageKind::Connect,
            channel: Text::connect_channel(),
            client: Some(client),
            id,
            subscription: None,
            outcome,
            advice: advice_for(outcome, config),
            ack,
        }
    }
}

fn client_of(message_kind: MessageKind, client: Option<&Text>) -> Result<Option<Text>, AllocError>
    ensures { IfOk result (λ c. c ≡ client_for message_kind (option_copied client.entry)) }
{
    match message_kind {
        MessageKind::Publish | MessageKind::UnknownMeta => Ok(None),
        _ => share_text(client),
    }
}

fn subscription_of(
    message_kind: MessageKind,
    subscription: Option<&RawJson>,
) -> Result<Option<RawJson>, AllocError>
    ensures { IfOk result (λ s. s ≡ subscription_for message_kind (option_copied subscription.entry)) }
{
    match message_kind {
        MessageKind::Subscribe | MessageKind::Unsubscribe => share_json(subscription),
        _ => Ok(None),
    }
}

fn share_text(text: Option<&Text>) -> Result<Option<Text>, AllocError>
    ensures { IfOk result (λ shared. shared ≡ option_copied text.entry) }
{
    match text {
        Some(text) => Ok(Some(text.clone()?)),
        None => Ok(None),
    }
}

/// Clones `json`. The clone shares its bytes.
pub fn share_json(json: Option<&RawJson>) -> Result<Option<RawJson>, AllocError>
    ensures { IfOk result (λ shared. shared ≡ option_copied json.entry) }
{
    match json {
        Some(json) => Ok(Some(json.clone()?)),
        None => Ok(None),
    }
}

/// The answer to a connect or a rider.
#[derive(Drop)]
pub struct Answer {
    /// Oldest first. They precede the reply in the response.
    pub events: Sequence<SharedEvent>,
    pub reply: Reply,
}

/// An element of a response.
#[derive(Drop)]
pub enum Item {
    EventItem(SharedEvent),
    ReplyItem(Reply),
}
