/// Whether a shard applies entries.
#[derive(Clone, Copy)]
pub(crate) enum Activity {
    Active,
    /// It applies nothing until it is resumed.
    Paused,
    /// The hub is closed: it applies nothing any more.
    Closed,
}
