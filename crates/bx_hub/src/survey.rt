/// The state of the list and the sessions at one time.
#[derive(Clone, Copy, Debug, PartialEq, Eq)]
pub struct Survey {
    pub entries: u64,
    pub live: usize,
    pub opened: u64,
    pub batches: usize,
}

/// The state of a shard at one time.
#[derive(Clone, Copy, Debug, PartialEq, Eq)]
pub struct ShardSurvey {
    pub place: u64,
    pub held: usize,
    /// Number of filed answers that were not taken or swept.
    pub filed: usize,
}
