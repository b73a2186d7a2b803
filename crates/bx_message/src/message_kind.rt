ghost use Rattle.std.specs.Prelude.{◌≡◌};
ghost use Rattle.bx_message.specs.MessageKinds.{message_kind_of};

use bx_names::{ChannelKind, kind_of};

/// The kind of a message, by its channel.
///
/// The first five are the meta messages of Bayeux 1.0, named after their channels, such as
/// `/meta/handshake`. The page MODEL lists the members of the reply to each kind.
#[derive(Clone, Copy, Debug, PartialEq, Eq)]
pub enum MessageKind {
    Handshake,
    Connect,
    Subscribe,
    Unsubscribe,
    Disconnect,
    /// To a channel outside `/meta/`.
    Publish,
    /// To a channel that begins with `/meta/`, except Bayeux's five meta channels.
    UnknownMeta,
}

impl MessageKind {
    /// Returns the kind of a message to `channel`, which may be an invalid channel name.
    pub fn of(channel: &str) -> MessageKind
        ensures { result ≡ message_kind_of channel.now }
    {
        match channel {
            "/meta/handshake" => MessageKind::Handshake,
            "/meta/connect" => MessageKind::Connect,
            "/meta/subscribe" => MessageKind::Subscribe,
            "/meta/unsubscribe" => MessageKind::Unsubscribe,
            "/meta/disconnect" => MessageKind::Disconnect,
            _ => match kind_of(channel) {
                ChannelKind::Meta => MessageKind::UnknownMeta,
                _ => MessageKind::Publish,
            },
        }
    }
}
