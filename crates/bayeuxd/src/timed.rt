use bx_cut::Bodies;
use bx_metrics::Counts;
use bx_service::{Backend, Declined};
use std::alloc::Global;
use std::sync::Arc;
use std::time::{Clock, Instant};

/// A backend that measures how long another backend takes to admit each request.
///
/// The time includes the publishes of the request, in all shards. It does not include waiting for
/// events, or for the network.
#[derive(Drop)]
pub struct TimedBackend<B, R> {
    pub rt: R,
    pub backend: B,
    pub counts: Arc<Counts, Global>,
}

impl<B: Backend, R: Clock + Drop> Backend for TimedBackend<B, R> {
    type Witness = B::Witness;

    type Items = B::Items;

    ghost answers = { λ timed documents output. B.answers timed.backend documents output };

    ghost rejects = { λ timed documents fault witness. B.rejects timed.backend documents fault witness };

    ghost stands = { B.stands };

    fn admit(&self, bodies: Bodies) -> Result<B::Items, Declined<B::Witness>> {
        let started = Instant::now(&self.rt);
        let outcome = self.backend.admit(bodies);
        if let Ok(started) = started
            && let Ok(passed) = started.elapsed(&self.rt)
        {
            self.counts.add_time(passed);
        }
        outcome
    }

    fn place(&self, items: &B::Items) -> Option<u64> {
        self.backend.place(items)
    }
}
