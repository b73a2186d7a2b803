use crate::error::RequestError;
use bx_message::{Item, Status};
use std::alloc::Global;
use std::sync::Arc;

/// Something that happens at a service, as its observer sees it.
///
/// This is not an event of Bayeux, which subscribers get for a publish.
#[derive(Clone, Copy)]
pub enum ServiceEvent<'a> {
    ConnectionOpened,
    ConnectionClosed,
    RequestArrived,
    /// The number is the place of the request's first message, if any.
    Admitted(Option<u64>),
    /// A request gets a response without items.
    Refused(RequestError),
    /// The items of a response are complete.
    ///
    /// `place`: that of the request's first message, if any.
    Answered {
        place: Option<u64>,
        items: &'a [Item],
    },
    /// A response with this status was created; `None` if memory ran out for it.
    Responded(Option<Status>),
    /// The future of a response was dropped, which ends the request.
    RequestEnded {
        was_admitted: bool,
    },
}

/// A receiver of a service's events.
///
/// An observer is called for each connection and request, and cannot change a response.
pub trait Observer: Drop {
    fn see(&self, event: ServiceEvent<'_>);
}

impl Observer for () {
    fn see(&self, _event: ServiceEvent<'_>) {}
}

impl<A: Observer, B: Observer> Observer for (A, B) {
    fn see(&self, event: ServiceEvent<'_>) {
        self.0.see(event);
        self.1.see(event);
    }
}

impl<O: Observer> Observer for Arc<O, Global> {
    fn see(&self, event: ServiceEvent<'_>) {
        (**self).see(event);
    }
}
