ghost use Rattle.std.specs.Prelude.{◌≡◌, ◌≤◌, length, IfOk, IfSome, IfNone};
ghost use Rattle.bx_entry.specs.Keeping.{Kept};
ghost use Rattle.bx_shard.specs.Surveys.{IsSurveyAt, IsSurveyOf};

use crate::sessions::Sessions;
use bx_names::Pattern;
use bx_session::Session;
use std::alloc::{AllocError, Global};

/// What an operator sees of a session.
#[derive(Drop)]
pub struct SessionSurvey {
    /// Later sessions have greater numbers.
    pub number: u64,
    /// In milliseconds since the server started.
    pub opened: u64,
    pub ack: bool,
    pub has_overflowed: bool,
    pub is_held: bool,
    /// Active patterns, in the order in which they were added.
    pub patterns: Vec<Pattern>,
    /// Number of outstanding and waiting events.
    pub events: usize,
    /// Length of their JSON texts.
    pub bytes: usize,
    /// Number of events that were sent but not acknowledged.
    pub outstanding: usize,
    /// Number of the last batch, or 0 before the first.
    pub batch: u64,
}

impl SessionSurvey {
    fn of(number: u64, session: &Session, patterns: Vec<Pattern>) -> SessionSurvey
        ensures number { result.number ≡ number }
        ensures opened { result.opened ≡ session.now.opened }
        ensures patterns { result.patterns ≡ patterns }
        ensures shown { IsSurveyOf session.now.kept result }
    {
        SessionSurvey {
            number,
            opened: session.opened(),
            ack: session.acknowledges(),
            has_overflowed: session.is_overflowed(),
            is_held: session.is_held(),
            patterns,
            events: session.queued_events(),
            bytes: session.queued_bytes(),
            outstanding: session.outstanding(),
            batch: session.last_batch(),
        }
    }
}

impl Sessions {
    /// Returns the survey of the session at `index` of [`numbers`](Self::numbers), if there is one.
    pub fn survey(&self, alloc: Global, index: usize) -> Result<Option<SessionSurvey>, AllocError>
        ensures shown { IfOk result (λ survey. IfSome survey (λ shown. (k : Kept) × IsSurveyAt self.now index k shown)) }
        ensures none { IfOk result (λ survey. IfNone survey (length self.now.by_number.entries ≤ index)) }
    {
        let Some((number, session)) = self.by_number.get_index(index) else {
            return Ok(None);
        };
        let patterns = self.tree.patterns(alloc, *number)?;
        Ok(Some(SessionSurvey::of(*number, session, patterns)))
    }
}
