ghost use Rattle.std.specs.Prelude.{◌≤◌};

/// The maximum length of a request's body or query, in bytes.
pub const BODY_LIMIT: usize = 1_048_576;

/// The maximum number of shards of a server.
pub const MAX_SHARDS: usize = 64;

/// The maximum number of workers of a round.
pub const MAX_WORKERS: usize = 16;

/// The greatest moment: 2^62 milliseconds after the server started.
pub const MAX_MOMENT: u64 = 4_611_686_018_427_387_904;

/// The maximum number of entries in the list: 2^62.
pub const MAX_ENTRIES: u64 = 4_611_686_018_427_387_904;

/// The limits of a server.
#[derive(Clone, Copy, Debug)]
pub struct Limits {
    /// The most events of a session that wait, or are sent and not acknowledged.
    pub events: usize,
    /// The most bytes of their texts.
    pub bytes: usize,
    /// The most active patterns of a session.
    pub patterns: usize,
    /// The most events in one answer.
    pub batch: usize,
    /// The most live sessions.
    pub sessions: usize,
    /// The most strings in the `subscription` of one message.
    pub texts: usize,
    pub ghost some_batch: { 1 ≤ batch },
}

/// The default limits. That of [`Limits::bytes`], 2^62, is more than any session reaches.
pub const STANDARD_LIMITS: Limits = Limits {
    events: 1024,
    bytes: 4_611_686_018_427_387_904,
    patterns: 1024,
    batch: 256,
    sessions: 65_536,
    texts: 64,
};

/// A limit that can be configured.
#[derive(Clone, Copy, Debug, PartialEq, Eq)]
pub enum Limit {
    Bytes,
    Sessions,
    Patterns,
    Events,
}

impl Limit {
    ghost use Rattle.std.specs.Prelude.{◌≡◌};
    ghost use Rattle.bx_advice.specs.Limits.{accepts, greatest, limit_name, standard};

    /// All of them, in the order in which a record names them.
    pub const ALL: [Limit; 4] = [
        Limit::Bytes,
        Limit::Sessions,
        Limit::Patterns,
        Limit::Events,
    ];

    /// Returns the limit's name in arguments and in records.
    pub fn name(self) -> &'static str
        ensures { result.now ≡ limit_name self }
    {
        match self {
            Limit::Bytes => "bytes",
            Limit::Sessions => "sessions",
            Limit::Patterns => "patterns",
            Limit::Events => "limit",
        }
    }

    /// Returns the greatest value that can be configured.
    pub fn greatest(self) -> usize
        ensures { result ≡ greatest self }
    {
        match self {
            Limit::Bytes => 4_294_967_295,
            Limit::Sessions => 65_536,
            Limit::Patterns => 1024,
            Limit::Events => 65_536,
        }
    }

    /// Returns the default value.
    pub fn standard(self) -> usize
        ensures { result ≡ standard self }
    {
        STANDARD_LIMITS.get(self)
    }

    /// Returns `true` if `n` is the default, or from 1 to the greatest value.
    pub fn accepts(self, n: usize) -> bool
        ensures { result ≡ accepts self n }
    {
        1 <= n && n <= self.greatest() || n == self.standard()
    }
}

impl Limits {
    ghost use Rattle.std.specs.Prelude.{◌≡◌};
    ghost use Rattle.bx_advice.specs.Limits.{limit_of, with_limit};

    /// Returns the value of `limit`.
    pub fn get(&self, limit: Limit) -> usize
        ensures { result ≡ limit_of limit self.now }
    {
        match limit {
            Limit::Bytes => self.bytes,
            Limit::Sessions => self.sessions,
            Limit::Patterns => self.patterns,
            Limit::Events => self.events,
        }
    }

    /// Sets the value of `limit` to `n`.
    pub fn set(&mut self, limit: Limit, n: usize)
        ensures { self.new ≡ with_limit limit n self.old }
    {
        match limit {
            Limit::Bytes => self.bytes = n,
            Limit::Sessions => self.sessions = n,
            Limit::Patterns => self.patterns = n,
            Limit::Events => self.events = n,
        }
    }
}
