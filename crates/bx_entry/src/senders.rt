ghost use Rattle.std.specs.Prelude.{◌≡◌};
ghost use Rattle.bx_entry.specs.Registry.{is_one, joined};

/// Whether the messages of a request so far all come from one session.
#[derive(Clone, Copy, Debug, PartialEq, Eq)]
pub enum Senders {
    NoneYet,
    /// All are accepted and come from the session with this number.
    Only(u64),
    /// Some are not accepted messages of one session, or one is a handshake.
    Mixed,
}

impl Senders {
    /// Returns the senders after one more accepted message, from `session`.
    pub fn joined(self, session: u64) -> Senders
        ensures { result ≡ joined self session }
    {
        match self {
            Senders::NoneYet => Senders::Only(session),
            Senders::Only(other) if other == session => self,
            _ => Senders::Mixed,
        }
    }

    /// Returns `true` for [`Only`](Self::Only).
    pub fn is_one(self) -> bool
        ensures { result ≡ is_one self }
    {
        matches!(self, Senders::Only(_))
    }
}
