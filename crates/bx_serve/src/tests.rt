use crate::timeout_body::{TimeoutBody, TimeoutBodyFault};
use crate::timeouts::{ProgressTimeout, TimeLimits};
use bytes::Bytes;
use futures::task::{Context, Poll};
use futures::test::MockTask;
use http_body::{Body, Frame};
use hyper::rt::TokioTimer;
use std::alloc::AllocGlobal;
use std::io;
use std::random::RandomSource;
use std::sync::atomic::AtomicU64;
use std::sync::atomic::Ordering::SeqCst;
use std::test::Fail;
use std::time::{Clock, Duration, Instant};
use tokio::time::Driver;

// The most seconds for which a body is polled.
const SECONDS: u64 = 400;

// A clock that returns the stored number of seconds.
#[derive(Clone, Copy)]
struct Told<'a>(&'a AtomicU64);

impl Clock for Told<'_> {
    fn monotonic(&self) -> io::Result<Duration> {
        Ok(Duration::from_secs(self.0.load(SeqCst)))
    }

    fn since_1970(&self) -> io::Result<Duration> {
        self.monotonic()
    }
}

// A body with a frame every `step` seconds. `left`: how many frames remain. `next`: the second in
// which the next frame is ready.
#[derive(Drop)]
struct Drips<'a> {
    seconds: &'a AtomicU64,
    next: u64,
    step: u64,
    left: u64,
}

impl Body for Drips<'_> {
    type Data = Bytes;

    type Error = io::Error;

    fn poll_frame(&mut self, cx: &mut Context<'_>) -> Poll<Option<io::Result<Frame<Bytes>>>> {
        if self.left == 0 {
            return Poll::Ready(None);
        }
        if self.seconds.load(SeqCst) < self.next {
            return cx.yield_now();
        }
        self.next = self.next.saturating_add(self.step);
        self.left = self.left.saturating_sub(1);
        Poll::Ready(Some(Ok(Frame::data(Bytes::new()))))
    }
}

// How a body ended, and in which second: `Whole` if it was complete, `Late` if it failed with this
// error. `Open`: it did not end.
#[derive(Clone, Copy, Debug, PartialEq, Eq)]
enum End {
    Whole(u64),
    Late(u64),
    Open,
}

// Polls a body of `count` frames, one every `step` seconds, for at most 400 seconds. Returns how it
// ended, or `Open`. The limits are the standard one for a frame and, if given, `whole` in all.
fn end_of<R: RandomSource + AllocGlobal>(
    rt: &R,
    step: u64,
    count: u64,
    whole: Option<Duration>,
) -> Result<End, Fail> {
    let (task, seconds) = (MockTask::new(rt)?, AtomicU64::new(0));
    let clock = Told(&seconds);
    let mut driver = Driver::new(rt.alloc(), Instant::now(&clock)?)?;
    let timer = TokioTimer::new(clock, driver.handle().clone()?);
    let timeouts = ProgressTimeout::new(timer, TimeLimits::standard().idle, whole);
    let drips = Drips {
        seconds: &seconds,
        next: step,
        step,
        left: count,
    };
    let mut body = TimeoutBody::new(drips, timeouts);
    for second in 0..SECONDS {
        seconds.store(second, SeqCst);
        let now = Instant::now(&clock)?;
        task.enter(|cx| driver.turn(cx, now));
        for _ in 0..2 {
            match task.enter(|cx| body.poll_frame(cx)) {
                Poll::Ready(None) => return Ok(End::Whole(second)),
                Poll::Ready(Some(Err(TimeoutBodyFault::Late))) => return Ok(End::Late(second)),
                Poll::Ready(Some(Err(TimeoutBodyFault::Body(error)))) => return Err(error.into()),
                Poll::Ready(Some(Ok(_))) | Poll::Pending => {}
            }
        }
    }
    Ok(End::Open)
}

#[test]
fn bodies_are_waited_for_a_time(rt: HostRuntime) -> Result<(), Fail> {
    let TimeLimits { pause, whole, .. } = TimeLimits::standard();
    assert_eq!(rt; pause, Duration::from_millis(20));
    for (step, count, whole, end) in [
        (29, 10, Some(whole), End::Whole(290)),
        (29, 11, Some(whole), End::Late(300)),
        (29, 1_000, Some(whole), End::Late(300)),
        (29, 1_000, Some(Duration::from_secs(10)), End::Late(10)),
        (1, 1_000, Some(whole), End::Late(300)),
        (31, 1, Some(whole), End::Late(30)),
        (29, 1_000, None, End::Open),
        (31, 1, None, End::Late(30)),
    ] {
        assert_eq!(rt; end_of(&rt, step, count, whole)?, end, "{step} {count}");
    }
    Ok(())
}
