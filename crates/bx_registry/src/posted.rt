ghost use Rattle.std.specs.Prelude.{◌≡◌};
ghost use Rattle.bx_message.specs.MessageKinds.{is_handshake, message_kind_of};
ghost use Rattle.bx_message.specs.declared.message.Message.{Message};

use bx_message::{Message, MessageKind};

/// A message, with its request's moment and nonce.
#[derive(Clone, Copy)]
pub(crate) struct Posted<'a> {
    pub(crate) message: &'a Message,
    pub(crate) message_kind: MessageKind,
    /// In milliseconds since the server started.
    pub(crate) moment: u64,
    pub(crate) nonce: u128,
    pub(crate) sole: bool,
    pub(crate) last: bool,
    /// Whether it is a handshake after another one in its request.
    pub(crate) second: bool,
    pub(crate) ghost by_channel: { message_kind ≡ message_kind_of message.now.channel },
}

pub(crate) fn is_handshake(message_kind: MessageKind) -> bool
    ensures { (message : Message) → message_kind ≡ message_kind_of message.channel
        → result ≡ is_handshake message }
{
    matches!(message_kind, MessageKind::Handshake)
}
