//! Requests and ticks, the entries that they become, and the placing of sessions in shards.
#![tactic(auto)]

mod access;
mod entry;
mod input;
mod listing;
mod placing;
mod read;
mod senders;

pub use access::{Access, SharedPatterns};
pub use entry::{Admitted, Batch, Entry, EntryKind, Rider, Slot, Ticket};
pub use input::{AdmitFault, Arrival, Input, Refusal};
pub use listing::{Element, Listing};
pub use placing::{AllFirst, ByRemainder, ByTable, Placing};
pub use read::read_messages;
pub use senders::Senders;
