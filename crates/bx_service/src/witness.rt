//! What shows that a response is the hub's.
use bx_entry::Ticket;
use bx_hub::{NoAnswer, Rejection, WatchEvidence};
use bx_window::{Front, LogId};

/// What a request was posted with.
#[derive(Clone, Copy, Debug, PartialEq, Eq)]
pub struct Stamp {
    /// From the backend's clock.
    pub moment: u64,
    /// From the backend's source.
    pub nonce: u128,
}

/// Why the hub gave no answer under a ticket.
#[derive(Drop)]
pub enum Lack<L: LogId> {
    /// A fault stopped the ticket's shard.
    Stopped(NoAnswer<L>),
    /// No connect or rider is known under the ticket. Without evidence, it names no shard.
    Unknown(Option<WatchEvidence<L>>),
}

/// What shows that an answer or a rejection is the hub's.
///
/// A pass is always a front of the hub's own list, since only the hub creates passes. So a response
/// whose witness has a pass speaks of entries that are in this list.
#[derive(Drop)]
pub enum HubWitness<L: LogId> {
    /// The request was admitted and answered.
    Answering {
        stamp: Stamp,
        /// The place of the first message, or the list's length if there are no messages.
        first: u64,
        /// The pass after the post, which ends with the last message of the request.
        posted: Front<L>,
        /// A pass that extends `posted`, and has seen all that the answers depend on.
        seen: Front<L>,
    },
    /// The hub gave no answer to a message of the admitted request.
    Lacking {
        stamp: Stamp,
        /// The place of the first message.
        first: u64,
        /// As in `Answering`.
        posted: Front<L>,
        /// The pass after the poll for the answer.
        seen: Front<L>,
        /// That of the message, a connect or rider.
        ticket: Ticket,
        lack: Lack<L>,
    },
    /// The request was not admitted.
    Rejecting {
        stamp: Stamp,
        /// The pass after the post.
        seen: Front<L>,
        rejection: Rejection<L>,
    },
}
