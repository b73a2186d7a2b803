use crate::sequence::Sequence;
use crate::text::{RawJson, Text};

/// A member of a message that should be a JSON string.
#[derive(Drop)]
pub enum TextMember {
    Absent,
    NotText,
    /// With escapes decoded.
    Text(Text),
}

/// The member `ack` of a message's `ext`. CometD's acknowledgement extension.
#[derive(Clone, Copy, Debug, PartialEq, Eq)]
pub enum AckMember {
    /// Absent, or neither of the following.
    NoAck,
    /// The literal `true`.
    AckTrue,
    /// A number that is written in digits only and at most 2^64-1.
    AckNumber(u64),
}

/// A message's fields.
///
/// If a member occurs more than once, the last one counts. Members without a field are ignored.
///
/// Bayeux 1.0, message fields, and CometD's acknowledgement extension.
#[derive(Drop)]
pub struct Message {
    /// With escapes decoded; possibly an invalid channel name.
    pub channel: Text,
    /// As the sender wrote it, if it is a JSON string or number.
    pub id: Option<RawJson>,
    /// The member `clientId`.
    pub client: TextMember,
    pub version: TextMember,
    /// The strings in `supportedConnectionTypes`, if that is an array.
    pub supported: Sequence<Text>,
    /// The member `connectionType`.
    pub connection: TextMember,
    /// As the sender wrote it.
    pub subscription: Option<RawJson>,
    /// The `subscription` if it is a string, or the strings in it if it is an array.
    pub texts: Sequence<Text>,
    /// Whether `subscription` is a string or an array of strings only.
    pub listed: bool,
    /// The member `data`, as the sender wrote it.
    pub payload: Option<RawJson>,
    pub ack: AckMember,
    /// The `timeout` of `advice` in milliseconds, if written in digits only and at most 2^64-1.
    pub timeout: Option<u64>,
}
