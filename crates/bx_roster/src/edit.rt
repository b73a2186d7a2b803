use crate::session::LiveSession;
use bx_message::Sequence;

/// One change to the live sessions.
#[derive(Drop)]
pub enum Edit {
    /// The session must have the next number.
    Open(LiveSession),
    /// Moves the due moment of session `number` to `due`, in milliseconds, but never back.
    Extend { number: u64, due: u64 },
    /// Session `number` must be live.
    Close { number: u64 },
}

/// All changes that a request or a tick makes.
#[derive(Drop)]
pub enum Edits {
    /// Those of a request, in order.
    Each(Sequence<Edit>),
    /// Closes every session that is due before this moment, in milliseconds.
    Expire(u64),
}
