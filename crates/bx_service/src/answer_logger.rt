ghost use Rattle.std.specs.Prelude.{◌≡◌};

use crate::observer::{Observer, ServiceEvent};
use bx_record::WaitingAnswerLines;
use std::alloc::Global;
use std::sync::{Arc, Wait};

/// An observer that logs a line for each answered request that has messages.
///
/// Without a log it does nothing.
#[derive(Drop)]
pub struct AnswerLogger<R> {
    rt: R,
    alloc: Global,
    log: Option<Arc<WaitingAnswerLines, Global>>,
}

impl<R> AnswerLogger<R> {
    /// Creates an observer that appends to `log`, if given.
    pub fn new(
        rt: R,
        alloc: Global,
        log: Option<Arc<WaitingAnswerLines, Global>>,
    ) -> AnswerLogger<R>
        ensures { result.log ≡ log }
    {
        AnswerLogger { rt, alloc, log }
    }
}

impl<R: Wait + Drop> Observer for AnswerLogger<R> {
    fn see(&self, event: ServiceEvent<'_>) {
        if let (
            Some(log),
            ServiceEvent::Answered {
                place: Some(place),
                items,
            },
        ) = (&self.log, event)
        {
            log.log_answer(&self.rt, self.alloc, place, items);
        }
    }
}
