ghost use Rattle.std.specs.Prelude.{◌≡◌, ◌+◌, ◌<◌, ◌^◌};
ghost use Rattle.bx_hub.specs.declared.fault.PostFault.TheVariants as faults;
ghost use Rattle.bx_hub.specs.Faults.{count_of, fault_reason, fault_status, of_admission, one_more};

use crate::walk::AdvanceReport;
use bx_entry::{AdmitFault, Refusal, Slot};
use bx_message::{Sequence, Status};
use bx_window::LogId;
use std::alloc::AllocError;

/// The result of a post.
#[derive(Drop)]
pub struct PostReceipt<L: LogId> {
    /// The place of its first message or, without messages, the list's length.
    pub first: u64,
    /// For each message in order: its reply, or a ticket if it is a connect or a rider.
    pub slots: Sequence<Slot>,
    /// How many shards have not applied the whole request, and why.
    pub advanced: AdvanceReport<L>,
}

/// The result of a tick.
#[derive(Drop)]
pub struct TickReceipt<L: LogId> {
    pub place: u64,
    /// How many shards have not applied the tick, and why.
    pub advanced: AdvanceReport<L>,
}

/// How many shards did not reach the end of a front, by what stopped them.
#[derive(Clone, Copy, Debug, PartialEq, Eq)]
pub struct Lagging {
    /// Because memory ran out.
    pub memory: usize,
    /// Because the window begins after their position.
    pub overrun: usize,
    /// Because they are paused.
    pub paused: usize,
    /// Because the hub is closed.
    pub closed: usize,
    /// Because their lock guards another shard.
    pub misplaced: usize,
}

impl Lagging {
    /// Creates counts of 0.
    pub fn none() -> Lagging
        ensures { result ≡ record { memory = 0; overrun = 0; paused = 0; closed = 0; misplaced = 0 } }
    {
        Lagging {
            memory: 0,
            overrun: 0,
            paused: 0,
            closed: 0,
            misplaced: 0,
        }
    }

    pub(crate) fn with(self, fault: HubFault) -> Lagging
        requires { count_of self + 1 < 2 ^ 64 }
        ensures which { result ≡ one_more fault self }
        ensures count { count_of result ≡ count_of self + 1 }
    {
        match fault {
            HubFault::Memory => Lagging {
                memory: self.memory + 1,
                ..self
            },
            HubFault::Overrun { .. } => Lagging {
                overrun: self.overrun + 1,
                ..self
            },
            HubFault::Paused => Lagging {
                paused: self.paused + 1,
                ..self
            },
            HubFault::Closed => Lagging {
                closed: self.closed + 1,
                ..self
            },
            HubFault::WrongShard { .. } => Lagging {
                misplaced: self.misplaced + 1,
                ..self
            },
        }
    }
}

/// Why a post or a tick was not admitted.
#[derive(Clone, Copy, Debug, PartialEq, Eq)]
pub enum PostFault {
    /// A rule rejects it. `Ended` also means that the window's log has no room for another step.
    Refused(Refusal),
    /// The request has more messages than the hub accepts.
    TooManyMessages,
    /// The hub is closed.
    Closed,
    /// The window is full, and some shard has not applied all of its oldest batch, which begins at
    /// `first`.
    Behind { first: u64 },
    /// The window was full, and begins after `place`, the position of `shard`.
    Overrun { shard: usize, place: u64 },
    /// The window was full, and the lock of `shard` guards another shard, `found`.
    WrongShard { shard: usize, found: usize },
    Memory,
}

impl PostFault {
    /// Returns the reason in words. Policy of this server.
    pub fn reason(self) -> &'static str
        ensures { result.now ≡ fault_reason self }
    {
        match self {
            PostFault::Refused(refusal) => refusal.reason(),
            PostFault::TooManyMessages => "more messages in one request than the server accepts",
            PostFault::Closed => "the server is shutting down",
            PostFault::Behind { .. } => "the window is full because a shard lags",
            PostFault::Overrun { .. } =>
                "internal error: the window lacks entries that a shard needs",
            PostFault::WrongShard { .. } =>
                "internal error: the lock of a shard guards another shard",
            PostFault::Memory => "out of memory",
        }
    }

    /// Returns the HTTP status of the response. Policy of this server.
    pub fn status(self) -> Status
        ensures { result ≡ fault_status self }
    {
        match self {
            PostFault::Refused(refusal) => refusal.status(),
            PostFault::TooManyMessages => Status::BadRequest,
            PostFault::Closed
            | PostFault::Behind { .. }
            | PostFault::Overrun { .. }
            | PostFault::WrongShard { .. }
            | PostFault::Memory => Status::Unavailable,
        }
    }
}

/// Why a shard did not advance, or why a poll found no answer.
#[derive(Clone, Copy, Debug, PartialEq, Eq)]
pub enum HubFault {
    /// The hub is closed.
    Closed,
    /// The shard is paused.
    Paused,
    /// The window begins after `place`, the position of `shard`.
    Overrun { shard: usize, place: u64 },
    Memory,
    /// The lock guards shard `found`.
    ///
    /// This does not happen: each shard stays under its lock. But no contract can state it.
    WrongShard { found: usize },
}

impl From<AllocError> for PostFault {
    ghost from_gives = { λ _ fault. fault ≡ faults.Memory };

    fn from(_error: AllocError) -> PostFault {
        PostFault::Memory
    }
}

impl From<AdmitFault> for PostFault {
    ghost from_gives = { λ fault given. given ≡ of_admission fault };

    fn from(fault: AdmitFault) -> PostFault {
        match fault {
            AdmitFault::Refused(refusal) => PostFault::Refused(refusal),
            AdmitFault::Memory => PostFault::Memory,
        }
    }
}
