//! Messages as clients send them, and the JSON text of replies and events.
#![tactic(auto)]

mod event;
mod message;
mod message_kind;
mod number;
mod object;
mod read;
mod reply;
mod sequence;
mod status;
mod text;
mod write;

pub use event::{Event, SharedEvent};
pub use message::{AckMember, Message, TextMember};
pub use message_kind::MessageKind;
pub use number::{count_in, limit_in, number_of, time_in};
pub use read::MessageError;
pub use reply::{AckReply, Answer, Item, Reply, share_json};
pub use sequence::Sequence;
pub use status::Status;
pub use text::{RawJson, Text};
pub use write::{body_text, event_text, item_room, reply_text, write_item};
