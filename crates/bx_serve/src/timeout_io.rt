ghost use Rattle.std.specs.Prelude.{◌≡◌, None, false};
ghost use Rattle.futures.specs.Poll.{IfReady, OnPending};
ghost use Rattle.futures.specs.Task.{Covers, Keeps};
ghost use Rattle.bx_serve.specs.Timeouts.{InTime, OrLate, OrTimer};

use crate::timeouts::{ProgressTimeout, TimeLimits};
use futures::ready;
use futures::task::{Context, Poll};
use hyper::rt::Timer;
use std::io;
use std::io::ErrorKind;
use tokio::io::{AsyncRead, AsyncWrite};

/// A connection on which a write, flush or shutdown fails with `TimedOut` if it takes too long.
///
/// Each write, flush or shutdown that ends, even with an error, restarts the limit. If the clock
/// cannot be read, or memory runs out for a timer, they fail as soon as they would wait.
#[derive(Drop)]
pub struct TimeoutIo<I, T> {
    io: I,
    timeouts: ProgressTimeout<T>,
}

impl<I, T> TimeoutIo<I, T> {
    /// Creates a connection on which a write, flush or shutdown may wait for `limits.idle`.
    pub fn new(io: I, timer: T, limits: TimeLimits) -> TimeoutIo<I, T>
        ensures io { result.io ≡ io }
        ensures limit { result.timeouts.limit ≡ limits.idle }
        ensures whole { result.timeouts.whole ≡ None }
    {
        TimeoutIo {
            io,
            timeouts: ProgressTimeout::new(timer, limits.idle, None),
        }
    }
}

impl<I: AsyncWrite, T: Timer> TimeoutIo<I, T> {
    // Returns `written`, or the error `TimedOut` if it is pending for too long.
    fn poll_taken<O>(
        &mut self,
        cx: &mut Context<'_>,
        written: Poll<io::Result<O>>,
    ) -> Poll<io::Result<O>>
        requires waits { OnPending written (Covers cx.old (I.AsyncWrite.needs self.old.io)) }
        ensures given { InTime written result }
        ensures renewed { IfReady written (λ _. self.new.timeouts.is_timed ≡ false) }
        ensures io { self.new.io ≡ self.old.io }
        ensures waits { OnPending result (Covers cx.new (OrTimer (I.AsyncWrite.needs self.new.io) self.new.timeouts.sleep)) }
        ensures kept { Keeps cx.old cx.new }
    {
        match written {
            Poll::Ready(written) => {
                self.timeouts.renew();
                Poll::Ready(written)
            }
            Poll::Pending => {
                ready!(self.timeouts.poll_expired(cx));
                Poll::Ready(Err(io::Error::from(ErrorKind::TimedOut)))
            }
        }
    }
}

impl<I: AsyncRead, T: Drop> AsyncRead for TimeoutIo<I, T> {
    ghost needs = { λ p. I.AsyncRead.needs p.io };

    ghost reads = { λ p bytes q. I.AsyncRead.reads p.io bytes q.io };

    ghost is_at_end = { λ p. I.AsyncRead.is_at_end p.io };

    ghost fails = { λ p. I.AsyncRead.fails p.io };

    ghost reads_nothing = { λ p. I.AsyncRead.reads_nothing p.io };

    ghost reads_in_order = { λ p xs q ys r. I.AsyncRead.reads_in_order p.io xs q.io ys r.io };

    fn poll_read(&mut self, cx: &mut Context<'_>, buf: &mut [u8]) -> Poll<io::Result<usize>> {
        self.io.poll_read(cx, buf)
    }
}

impl<I: AsyncWrite, T: Timer> AsyncWrite for TimeoutIo<I, T> {
    ghost needs = { λ p. OrTimer (I.AsyncWrite.needs p.io) p.timeouts.sleep };

    ghost writes = { λ p bytes q. I.AsyncWrite.writes p.io bytes q.io };

    ghost is_flushed = { λ p. I.AsyncWrite.is_flushed p.io };

    ghost is_shut_down = { λ p. I.AsyncWrite.is_shut_down p.io };

    ghost is_full = { λ p. I.AsyncWrite.is_full p.io };

    ghost fails = { λ p. OrLate (I.AsyncWrite.fails p.io) };

    ghost writes_nothing = { λ p. I.AsyncWrite.writes_nothing p.io };

    ghost writes_in_order = { λ p xs q ys r. I.AsyncWrite.writes_in_order p.io xs q.io ys r.io };

    fn poll_write(&mut self, cx: &mut Context<'_>, buf: &[u8]) -> Poll<io::Result<usize>> {
        let written = self.io.poll_write(cx, buf);
        self.poll_taken(cx, written)
    }

    fn poll_flush(&mut self, cx: &mut Context<'_>) -> Poll<io::Result<()>> {
        let flushed = self.io.poll_flush(cx);
        self.poll_taken(cx, flushed)
    }

    fn poll_shutdown(&mut self, cx: &mut Context<'_>) -> Poll<io::Result<()>> {
        let shut = self.io.poll_shutdown(cx);
        self.poll_taken(cx, shut)
    }
}
