//! Laws of shards, for every configuration, placing and list.
//!
//! A shard agrees with its definition if it has the sessions and filed answers that `shard_at` of
//! `specs/Shards.antt` gives. The laws about entries and calls assume that the shard agreed before.
ghost use Rattle.bx_shard.specs.Refining.{FiledIsGiven, RefinesAtFirst, RefinesBeside, RefinesBesideSwept, RefinesLonger, RefinesOnwards, RefinesShut, RefinesStill, RefinesSwept, RefinesTaken, RefinesWatched};
ghost use Rattle.bx_shard.specs.Holdings.{SessionsReached, NumbersAscend, OpenedIsFresh};
ghost use Rattle.bx_shard.specs.Steps.{ShardsFile, ShardsStep};

/// Proves that a shard's sessions after an entry depend only on those before and on the entry.
pub fn entry_determines_sessions()
    ensures { ShardsStep }
{}

/// Proves which answers are filed after an entry.
///
/// An answer that was filed before and is not taken stays filed. Without one, the answer that a
/// live session of the shard gives at the entry is filed.
pub fn entry_determines_filed_answers()
    ensures { ShardsFile }
{}

/// Proves that a shard's sessions are live.
///
/// None has formed more batches than the shard has applied entries.
pub fn sessions_are_live()
    ensures { SessionsReached }
{}

/// Proves that a shard's sessions are in ascending order of number, without duplicates.
pub fn sessions_ascend()
    ensures { NumbersAscend }
{}

/// Proves that a new session's number exceeds those of all sessions then in any shard.
pub fn new_session_is_newest()
    ensures { OpenedIsFresh }
{}

/// Proves that a shard that has applied no entry agrees with its definition.
pub fn refines_when_new()
    ensures { RefinesAtFirst }
{}

/// Proves that a shard still agrees with its definition after a call without effect.
pub fn refines_unchanged()
    ensures { RefinesStill }
{}

/// Proves that a shard still agrees with its definition when the list grows.
pub fn refines_longer_list()
    ensures { RefinesLonger }
{}

/// Proves that a shard still agrees with its definition after it applies the next entry.
pub fn refines_applied()
    ensures { RefinesOnwards }
{}

/// Proves that a shard still agrees with its definition after an answer is taken.
pub fn refines_taken()
    ensures { RefinesTaken }
{}

/// Proves that the other shards still agree with their definitions after an answer is taken.
pub fn refines_other_taken()
    ensures { RefinesBeside }
{}

/// Proves that a shard still agrees with its definition after a call of `watch`.
pub fn refines_watched()
    ensures { RefinesWatched }
{}

/// Proves that a shard still agrees with its definition after it is shut.
pub fn refines_shut()
    ensures { RefinesShut }
{}

/// Proves that a shard still agrees with its definition after a sweep.
///
/// The answers that a sweep drops count as taken.
pub fn refines_swept()
    ensures { RefinesSwept }
{}

/// Proves that a shard still agrees with its definition after another shard is swept.
pub fn refines_other_swept()
    ensures { RefinesBesideSwept }
{}

/// Proves that each filed answer is the one that the definition `answer` gives for its message.
///
/// That describes a server that handles one message at a time.
pub fn filed_answers_match_definitions()
    ensures { FiledIsGiven }
{}
