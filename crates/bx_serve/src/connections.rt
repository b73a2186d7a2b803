ghost use Rattle.std.specs.Prelude.{◌≡◌, ◌==◌, if◌then◌else◌, IfSome, false};
ghost use Rattle.futures.specs.Poll.{IfReady, OnPending};
ghost use Rattle.futures.specs.Task.{Covers, Keeps};
ghost use Rattle.tokio.specs.Net.{listener_readable};
ghost use Rattle.tokio.specs.Timers.{interval_delay, sleep_source};
ghost use Rattle.bx_serve.specs.Waits.{Awaits};

use crate::make_task::MakeTask;
use futures::task::{Context, Poll};
use futures::{Stream, ready};
use std::time::Clock;
use tokio::net::Incoming;
use tokio::time::Interval;

/// A stream of the tasks that serve accepted connections.
///
/// After a failed accept, for example if no file descriptor is free, the stream pauses before the
/// next one. A connection is dropped if memory runs out for its task.
#[derive(Drop)]
pub struct Connections<R, M> {
    clock: R,
    incoming: Incoming,
    maker: M,
    pause: Interval,
    is_paused: bool,
}

/// Returns `count` as a limit on connections; 0 is no limit.
pub fn accept_limit(count: u64) -> usize
    ensures { result ≡ (if count == 0 then 18446744073709551615 else count) }
{
    if count == 0 {
        usize::MAX
    } else {
        count as usize
    }
}

impl<R, M> Connections<R, M> {
    /// Creates the stream of the tasks that `maker` makes for `incoming`.
    ///
    /// A pause lasts one period of `pause`.
    pub fn new(clock: R, incoming: Incoming, maker: M, pause: Interval) -> Connections<R, M>
        ensures { result.maker ≡ maker }
    {
        Connections {
            clock,
            incoming,
            maker,
            pause,
            is_paused: false,
        }
    }
}

impl<R: Clock, M> Connections<R, M> {
    // Waits until the pause, if any, is over. Returns `false` if the timers have been shut down.
    fn poll_pause(&mut self, cx: &mut Context<'_>) -> Poll<bool>
        ensures maker { self.new.maker ≡ self.old.maker }
        ensures over { IfReady result (λ _. self.new.is_paused ≡ false) }
        ensures waits { OnPending result (Covers cx.new (Awaits self.new.is_paused (sleep_source (interval_delay self.new.pause)) (listener_readable self.new.incoming.listener))) }
        ensures kept { Keeps cx.old cx.new }
    {
        if !self.is_paused {
            return Poll::Ready(true);
        }
        let tick = ready!(self.pause.poll_tick(cx));
        self.is_paused = false;
        Poll::Ready(tick.is_ok())
    }
}

impl<R: Clock + Drop, M: MakeTask> Stream for Connections<R, M> {
    type Item = M::Task;

    ghost can_poll = { λ c. M.can_make c.maker };

    ghost needs = { λ c. Awaits c.is_paused (sleep_source (interval_delay c.pause)) (listener_readable c.incoming.listener) };

    ghost yields = { λ _ _ last. IfSome last M.Task.can_poll };

    fn poll_next(&mut self, cx: &mut Context<'_>) -> Poll<Option<M::Task>> {
        if !ready!(self.poll_pause(cx)) {
            return Poll::Ready(None);
        }
        match self.incoming.poll_next(cx) {
            Poll::Pending => Poll::Pending,
            Poll::Ready(Some(Ok(socket))) => match self.maker.make(socket) {
                Some(task) => Poll::Ready(Some(task)),
                None => cx.yield_now(),
            },
            Poll::Ready(Some(Err(_))) => {
                self.is_paused = true;
                // If the clock cannot be read, the pause ends at the interval's next tick.
                let _ = self.pause.reset(&self.clock);
                cx.yield_now()
            }
            Poll::Ready(None) => Poll::Ready(None),
        }
    }
}
