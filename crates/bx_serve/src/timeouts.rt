ghost use Rattle.std.specs.Prelude.{◌≡◌, ◌≤◌, IfSome, Some, false};
ghost use Rattle.std.specs.Duration.{as_nanos};
ghost use Rattle.std.specs.Time.{instant_nanos};
ghost use Rattle.futures.specs.Poll.{OnPending};
ghost use Rattle.futures.specs.Task.{Covers, Keeps};
ghost use Rattle.bx_serve.specs.Timeouts.{TimerNeeds};

use futures::task::{Context, Poll};
use futures::{Future, ready};
use hyper::rt::Timer;
use std::time::{Duration, Instant};
use tokio::time::Sleep;

/// Times of the HTTP server: two limits, and the pause after a failed accept.
#[derive(Clone, Copy)]
pub struct TimeLimits {
    pub pause: Duration,
    /// The longest wait for more of a body, or for the peer to take more data.
    pub idle: Duration,
    /// The longest time for a complete body, from the first wait for more of it.
    pub whole: Duration,
}

impl TimeLimits {
    /// Returns a pause of 20 milliseconds, and limits of 30 seconds and five minutes.
    ///
    /// Policy of this server.
    pub fn standard() -> TimeLimits
        ensures pause { as_nanos result.pause ≡ 20_000_000 }
        ensures idle { as_nanos result.idle ≡ 30_000_000_000 }
        ensures whole { as_nanos result.whole ≡ 300_000_000_000 }
    {
        TimeLimits {
            pause: Duration::from_millis(20),
            idle: Duration::from_secs(30),
            whole: Duration::from_secs(300),
        }
    }
}

/// A limit on each wait for progress, and optionally on the time from the first wait.
///
/// Progress restarts the first limit, but not the second.
#[derive(Drop)]
pub struct ProgressTimeout<T> {
    timer: T,
    limit: Duration,
    // The longest time from the first wait.
    whole: Option<Duration>,
    // When `whole` is over, once the first wait began.
    end: Option<Instant>,
    sleep: Option<Sleep>,
    // Whether `sleep` runs for the current wait.
    is_timed: bool,
}

impl<T> ProgressTimeout<T> {
    /// Creates limits that start with the first wait.
    ///
    /// `limit`: the longest wait for progress. `whole`: the longest time from the first wait.
    pub fn new(timer: T, limit: Duration, whole: Option<Duration>) -> ProgressTimeout<T>
        ensures limit { result.limit ≡ limit }
        ensures whole { result.whole ≡ whole }
    {
        ProgressTimeout {
            timer,
            limit,
            whole,
            end: None,
            sleep: None,
            is_timed: false,
        }
    }

    /// Records progress, so that the next wait may again last for the full `limit`.
    pub fn renew(&mut self)
        ensures renewed { self.new.is_timed ≡ false }
        ensures limit { self.new.limit ≡ self.old.limit }
        ensures whole { self.new.whole ≡ self.old.whole }
        ensures sleep { self.new.sleep ≡ self.old.sleep }
        ensures end { self.new.end ≡ self.old.end }
    {
        self.is_timed = false;
    }
}

impl<T: Timer> ProgressTimeout<T> {
    // Returns when a wait that begins now must end, unless the clock cannot be read or the instant
    // is too large. The first wait sets `end`.
    fn deadline(&mut self) -> Option<Instant>
        ensures in_time { IfSome result (λ d. IfSome self.new.end (λ e. instant_nanos d ≤ instant_nanos e)) }
        ensures sleep { self.new.sleep ≡ self.old.sleep }
        ensures end { IfSome self.old.end (λ e. self.new.end ≡ Some e) }
    {
        let now = self.timer.now()?;
        let end = match (self.end, self.whole) {
            (None, Some(whole)) => Some(now.checked_add(whole)?),
            (end, _) => end,
        };
        self.end = end;
        let deadline = now.checked_add(self.limit)?;
        match end {
            Some(end) if end.checked_duration_since(deadline).is_none() => Some(end),
            _ => Some(deadline),
        }
    }

    // Starts the timer unless it runs. Returns `false` if there is no deadline or no timer.
    fn is_begun(&mut self) -> bool
        ensures { IfSome self.old.end (λ e. self.new.end ≡ Some e) }
    {
        if self.is_timed {
            return true;
        }
        let Some(deadline) = self.deadline() else {
            return false;
        };
        match &mut self.sleep {
            Some(sleep) => sleep.reset(deadline),
            None => match self.timer.sleep_until(deadline) {
                Ok(Some(sleep)) => self.sleep = Some(sleep),
                _ => return false,
            },
        }
        self.is_timed = true;
        true
    }

    /// Waits until the current wait has reached one of the limits.
    ///
    /// Does not wait if the clock cannot be read, or if memory runs out for a timer.
    pub fn poll_expired(&mut self, cx: &mut Context<'_>) -> Poll<()>
        ensures waits { OnPending result (Covers cx.new (TimerNeeds self.new.sleep)) }
        ensures kept { Keeps cx.old cx.new }
        ensures end { IfSome self.old.end (λ e. self.new.end ≡ Some e) }
    {
        if !self.is_begun() {
            return Poll::Ready(());
        }
        match &mut self.sleep {
            Some(sleep) => {
                let _ = ready!(sleep.poll_elapsed(cx));
                Poll::Ready(())
            }
            None => Poll::Ready(()),
        }
    }
}
