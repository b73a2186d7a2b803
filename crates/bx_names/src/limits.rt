/// The maximum length of a channel name or a pattern, in bytes. Policy of this server.
pub const MAX_NAME_BYTES: usize = 256;

/// The maximum number of segments, including a wildcard. Policy of this server.
pub const MAX_NAME_SEGMENTS: usize = 32;
