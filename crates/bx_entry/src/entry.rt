use bx_message::{RawJson, Reply, Sequence, SharedEvent, Text};
use bx_names::Pattern;

/// What an entry does: the result of judging its message or tick.
#[derive(Drop)]
pub enum EntryKind {
    /// An accepted handshake opens a session.
    Opened {
        session: u64,
        ack: bool,
    },
    /// An accepted connect, with all that its reply needs.
    Connect {
        session: u64,
        client: Text,
        /// As the sender wrote it.
        id: Option<RawJson>,
        /// The number of the acknowledged batch.
        acked: Option<u64>,
        /// How long the connect may be held, in milliseconds; 0 to answer it at once.
        hold: u64,
    },
    /// An accepted subscription.
    Subscribe {
        session: u64,
        /// In the message's order, except those of service channels.
        patterns: Sequence<Pattern>,
    },
    /// An accepted unsubscription.
    Unsubscribe {
        session: u64,
        /// In the message's order, except those of service channels.
        patterns: Sequence<Pattern>,
    },
    /// An accepted publish, to a broadcast or a service channel.
    Publish(SharedEvent),
    /// An accepted disconnect, which closes the session.
    Disconnect {
        session: u64,
    },
    /// A rejected message, which changes no session.
    Refused,
    /// A tick, with the numbers of the sessions that it closes, in ascending order.
    Tick(Sequence<u64>),
}

/// A message with a reply that carries the waiting events of its session.
///
/// It is a subscription, an unsubscription or a publish, and the last message of its request. All
/// messages of the request are accepted and come from one session, which does not acknowledge. Only
/// a server with `--ride` has riders.
#[derive(Drop)]
pub struct Rider {
    pub session: u64,
    /// Sent after the events that the rider gets.
    pub reply: Reply,
}

/// An entry of the list: an admitted message or tick.
#[derive(Drop)]
pub struct Entry {
    /// Counted from 0.
    pub place: u64,
    /// The greatest moment in the list so far, in milliseconds since the server started.
    pub moment: u64,
    pub kind: EntryKind,
    /// The message as a rider, which gets its events after `kind` has taken effect.
    pub rides: Option<Rider>,
}

/// The entries of one request or tick.
#[derive(Drop)]
pub struct Batch {
    /// Without entries, the length of the list.
    pub first: u64,
    /// At consecutive places from `first` on: one for each message, in order, or one for the tick.
    pub entries: Sequence<Entry>,
}

/// The place and the shard under which the answer to a connect or a rider is filed.
///
/// If the sessions are redistributed, the ticket may name the wrong shard.
#[derive(Clone, Copy, Debug, PartialEq, Eq)]
pub struct Ticket {
    /// The place of the connect or rider.
    pub place: u64,
    /// The session's shard when the message was admitted.
    pub shard: usize,
}

/// How a message is answered.
#[derive(Drop)]
pub enum Slot {
    /// At once, by this reply.
    Ready(Reply),
    /// Later: the answer to a connect or a rider is filed under this ticket.
    Waiting(Ticket),
}

/// An admitted request or tick.
#[derive(Drop)]
pub struct Admitted {
    /// The place of the tick or the first message; without messages, the list's length.
    pub first: u64,
    /// How each message is answered, in order.
    pub slots: Sequence<Slot>,
}
