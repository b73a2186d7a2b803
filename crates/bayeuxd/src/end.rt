//! Ends the server when standard input ends.
use bx_hub::{Hub, HubKind};
use bx_metrics::Counts;
use futures::channel::oneshot::Sender;
use futures::task::{Context, Poll};
use futures::{Future, ready};
use std::alloc::Global;
use std::io::Read;
use std::sync::{Arc, Wait};

// The most bytes that one read of standard input takes.
const BUFFER: usize = 512;

/// Reads standard input until it ends or fails, and then signals `shutdown`.
pub fn signal_at_eof<R: Input>(rt: &R, shutdown: Sender<()>) {
    let mut bytes = [0; BUFFER];
    let mut input = rt.reader();
    for _ in 0..u64::MAX {
        match input.read(&mut bytes) {
            Ok(0) | Err(_) => break,
            Ok(_) => {}
        }
    }
    let _ = shutdown.send(());
}

/// A future that waits for `shutdown` and then closes the hub, which ends held connects.
///
/// # Blocking
///
/// Polling it locks as [`Hub::close`] does.
#[derive(Drop)]
pub struct CloseOnShutdown<L: HubKind, R: Wait + Drop, A> {
    pub rt: R,
    pub hub: Arc<Hub<L, R>, Global>,
    /// Once `shutdown` is ready, they show that the server no longer listens.
    pub counts: Arc<Counts, Global>,
    /// Ready when the server is to end.
    pub shutdown: A,
}

impl<L, R, A, T> Future for CloseOnShutdown<L, R, A>
where
    L: HubKind,
    R: Wait + Drop,
    A: Future<Output = T>,
    T: Drop,
{
    type Output = ();

    ghost can_poll = { λ c. A.can_poll c.shutdown };

    ghost needs = { λ c. A.needs c.shutdown };

    fn poll(&mut self, cx: &mut Context<'_>) -> Poll<()> {
        let _ = ready!(self.shutdown.poll(cx));
        self.counts.set_listens(false);
        self.hub.close(&self.rt);
        Poll::Ready(())
    }
}
