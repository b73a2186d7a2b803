ghost use Rattle.std.specs.Prelude.{◌≡◌};
ghost use Rattle.bx_names.specs.Kinds.{is_broadcast, is_meta, is_service, kind_of};

/// The kind of a channel, by the beginning of its name. Bayeux 1.0, channel names.
#[derive(Clone, Copy, Debug, PartialEq, Eq, Hash)]
pub enum ChannelKind {
    /// `/meta/..`, for messages of the protocol.
    Meta,
    /// `/service/..`, for messages to the server, which no other client receives.
    Service,
    /// Any other channel, including `/meta` and `/service`, by a policy of this server.
    Broadcast,
}

/// Returns the kind of channel `text`, which may be an invalid name.
pub fn kind_of(text: &str) -> ChannelKind
    ensures { result ≡ kind_of text.now }
{
    if is_meta(text) {
        ChannelKind::Meta
    } else if is_service(text) {
        ChannelKind::Service
    } else {
        ChannelKind::Broadcast
    }
}

/// Returns `true` if `text` begins with `/meta/`.
pub fn is_meta(text: &str) -> bool
    ensures { result ≡ is_meta text.now }
{
    text.starts_with("/meta/")
}

/// Returns `true` if `text` begins with `/service/`.
pub fn is_service(text: &str) -> bool
    ensures { result ≡ is_service text.now }
{
    text.starts_with("/service/")
}

/// Returns `true` if messages to `text` are delivered to subscribers.
///
/// It begins with neither `/meta/` nor `/service/`.
pub fn is_broadcast(text: &str) -> bool
    ensures { result ≡ is_broadcast text.now }
{
    !is_meta(text) && !is_service(text)
}
