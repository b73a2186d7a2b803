use serde_json::Value;

/// The data of an event that a load publishes.
#[derive(Clone, Copy)]
pub struct Stamp {
    /// Counted from 0.
    pub publisher: u64,
    /// Number of the same publisher's earlier events.
    pub number: u64,
    /// When the event was sent, in nanoseconds since the load started.
    pub moment: u64,
}

/// What an item of a response means to a load.
#[derive(Clone, Copy)]
pub enum Received {
    Event(Stamp),
    /// A reply to an accepted message, with the number of the batch to acknowledge, if any.
    Success(Option<u64>),
    /// A reply to a rejected message.
    Refusal,
    /// Neither an event that a load published nor a reply.
    Unknown,
}

/// Returns what `item` means.
pub fn item_of(item: &Value) -> Received {
    if let Some(data) = item.get("data") {
        return match stamp_of(data) {
            Some(stamp) => Received::Event(stamp),
            None => Received::Unknown,
        };
    }
    let Some(reply) = item.get("successful") else {
        return Received::Unknown;
    };
    match reply.as_bool() {
        Some(true) => Received::Success(acknowledgement_of(item)),
        Some(false) => Received::Refusal,
        None => Received::Unknown,
    }
}

fn stamp_of(data: &Value) -> Option<Stamp> {
    Some(Stamp {
        publisher: data.get("publisher")?.as_u64()?,
        number: data.get("number")?.as_u64()?,
        moment: data.get("moment")?.as_u64()?,
    })
}

fn acknowledgement_of(reply: &Value) -> Option<u64> {
    reply.get("ext")?.get("ack")?.as_u64()
}

/// Returns the client id in the reply to a handshake, if it has only ASCII letters and digits.
pub fn client_of(reply: &Value) -> Option<&str> {
    let client = reply.get("clientId")?.as_str()?;
    if is_plain(client) { Some(client) } else { None }
}

fn is_plain(text: &str) -> bool {
    text.as_bytes()
        .iter()
        .all(|byte| byte.is_ascii_alphanumeric())
}
