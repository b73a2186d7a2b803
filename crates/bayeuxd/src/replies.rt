//! Log lines for replies with an error.
use bx_advice::Error;
use bx_metrics::{Counts, Metric};
use log::{Log, warn};

/// A logger of the replies with one error.
#[derive(Clone, Copy)]
pub struct ReplyLogger {
    error: Error,
    message: &'static str,
    logged: u64,
}

impl ReplyLogger {
    /// Creates a logger of the replies with `error`. `message`: the text of the log line.
    pub fn new(error: Error, message: &'static str) -> ReplyLogger {
        ReplyLogger {
            error,
            message,
            logged: 0,
        }
    }

    /// Logs how many such replies `counts` has more than at the last call, if any.
    pub fn log_new<R: Log>(&mut self, rt: &R, counts: &Counts) {
        let replies = counts.get(Metric::ErrorReplies(self.error));
        let count = replies.saturating_sub(self.logged);
        let message = self.message;
        if count > 0 {
            warn!(rt; target: "bayeuxd", count; "{message}");
        }
        self.logged = replies;
    }
}
