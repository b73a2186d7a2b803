ghost use Rattle.std.specs.Prelude.{◌≡◌, Option};
ghost use Rattle.http.specs.declared.request.Request.{Request};
ghost use Rattle.bx_serve.specs.Handing.{IsWithTimeouts};
ghost use Rattle.bx_serve.specs.declared.timeout_body.TimeoutBody.{TimeoutBody};
ghost use Rattle.bx_serve.specs.Timeouts.{Outlasts, OrTimer};

use crate::timeouts::{ProgressTimeout, TimeLimits};
use futures::ready;
use futures::task::{Context, Poll};
use http::Request;
use http_body::{Body, Frame, SizeHint};
use hyper::rt::Timer;
use hyper::service::Service;

/// Why a body failed.
#[derive(Drop)]
pub enum TimeoutBodyFault<E> {
    Body(E),
    /// No frame arrived in time, or the body was not complete in time.
    Late,
}

/// A body that fails if no frame arrives in time, or if it is not complete in time.
///
/// Each frame restarts the limit on the wait for the next. If the clock cannot be read, or memory
/// runs out for a timer, the body fails as soon as it would wait.
#[derive(Drop)]
pub struct TimeoutBody<B, T> {
    body: B,
    timeouts: ProgressTimeout<T>,
}

impl<B, T> TimeoutBody<B, T> {
    /// Creates a body with the limits of `timeouts`, which start with the first wait.
    pub fn new(body: B, timeouts: ProgressTimeout<T>) -> TimeoutBody<B, T>
        ensures body { result.body ≡ body }
        ensures timeouts { result.timeouts ≡ timeouts }
    {
        TimeoutBody { body, timeouts }
    }
}

impl<B: Body, T: Timer> Body for TimeoutBody<B, T> {
    type Data = B::Data;

    type Error = TimeoutBodyFault<B::Error>;

    ghost can_poll = { λ p. B.can_poll p.body };

    ghost needs = { λ p. OrTimer (B.needs p.body) p.timeouts.sleep };

    ghost yields = { λ p. Outlasts (B.yields p.body) };

    fn poll_frame(
        &mut self,
        cx: &mut Context<'_>,
    ) -> Poll<Option<Result<Frame<B::Data>, TimeoutBodyFault<B::Error>>>> {
        match self.body.poll_frame(cx) {
            Poll::Ready(Some(Ok(frame))) => {
                self.timeouts.renew();
                Poll::Ready(Some(Ok(frame)))
            }
            Poll::Ready(Some(Err(error))) => Poll::Ready(Some(Err(TimeoutBodyFault::Body(error)))),
            Poll::Ready(None) => Poll::Ready(None),
            Poll::Pending => {
                ready!(self.timeouts.poll_expired(cx));
                Poll::Ready(Some(Err(TimeoutBodyFault::Late)))
            }
        }
    }

    fn size_hint(&self) -> SizeHint {
        self.body.size_hint()
    }
}

/// A service that calls another, with time limits on each request's body.
#[derive(Drop)]
pub struct TimeoutService<S, T> {
    pub service: S,
    pub timer: T,
    /// The limits on the wait for each frame, and for a complete body.
    pub limits: TimeLimits,
}

impl<S, T, B> Service<Request<B>> for TimeoutService<S, T>
where
    S: Service<Request<TimeoutBody<B, Option<T>>>>,
    T: Timer,
    B: Body,
{
    type Response = S::Response;

    type Error = S::Error;

    type Future = S::Future;

    ghost can_call = { λ p. S.can_call p.service };

    // Ghost: a future that the inner service may return for a request whose body has time limits.
    ghost calls = { λ p came future. (handed : Request (TimeoutBody B (Option T))) × (IsWithTimeouts p.limits came handed × S.calls p.service handed future) };

    fn call(&self, request: Request<B>) -> S::Future {
        let (parts, body) = request.into_parts();
        let timeouts = ProgressTimeout::new(
            self.timer.clone().ok(),
            self.limits.idle,
            Some(self.limits.whole),
        );
        self.service.call(Request::from_parts(parts, TimeoutBody::new(body, timeouts)))
    }
}
