/// The wildcard at the end of a pattern, or its absence. Bayeux 1.0, channel globbing.
#[derive(Clone, Copy, Debug, PartialEq, Eq, Hash)]
pub enum Tail {
    /// No wildcard: the pattern is a channel name.
    Exact,
    /// `*`, which matches exactly one segment.
    One,
    /// `**`, which matches one or more segments.
    Many,
}
