//! Channel names and patterns of Bayeux 1.0: parsing, kinds of channels and matching.
#![tactic(auto)]

mod error;
mod fault;
mod kind;
mod laws;
mod limits;
mod matching;
mod name;
mod pattern;
mod segments;
mod tail;

pub use error::NameError;
pub use fault::{name_fault, pattern_fault};
pub use kind::{ChannelKind, is_broadcast, is_meta, is_service, kind_of};
pub use laws::{
    double_star_matches_any_longer_name, exact_pattern_matches_one_name, name_reads_as_pattern,
    name_reads_back, pattern_reads_back, star_matches_one_more_segment, stars_differ_on_depth,
};
pub use limits::{MAX_NAME_BYTES, MAX_NAME_SEGMENTS};
pub use matching::matches;
pub use name::ChannelName;
pub use pattern::Pattern;
pub use segments::Segments;
pub use tail::Tail;
