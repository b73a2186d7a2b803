ghost use Rattle.std.specs.Prelude.{◌≡◌};
ghost use Rattle.bx_service.specs.declared.service.ServiceFault.TheVariants.{Memory};

use crate::error::RequestError;
use crate::observer::{Observer, ServiceEvent};
use crate::service::ServiceFault;
use bx_message::{Item, Status};
use std::alloc::{AllocError, Global};
use std::sync::Arc;

/// A service's handle on its observer.
///
/// Dropping the handle of a connection reports that the connection was closed.
pub(crate) struct ConnectionProbe<O: Observer> {
    observer: Arc<O, Global>,
    is_connection: bool,
}

impl<O: Observer> ConnectionProbe<O> {
    /// Creates a handle that belongs to no connection.
    pub(crate) fn new(alloc: Global, observer: O) -> Result<ConnectionProbe<O>, AllocError> {
        Ok(ConnectionProbe {
            observer: Arc::new(alloc, observer)?,
            is_connection: false,
        })
    }

    /// Reports a new connection and returns its handle.
    pub(crate) fn open(&self) -> Result<ConnectionProbe<O>, AllocError> {
        let observer = Arc::try_clone(&self.observer)?;
        observer.see(ServiceEvent::ConnectionOpened);
        Ok(ConnectionProbe {
            observer,
            is_connection: true,
        })
    }

    /// Reports a new request and returns its handle.
    ///
    /// If memory runs out, reports that the request ended. The caller then must not answer it.
    pub(crate) fn ask(&self) -> RequestProbe<O> {
        self.observer.see(ServiceEvent::RequestArrived);
        let observer = Arc::try_clone(&self.observer).ok();
        if observer.is_none() {
            self.observer.see(ServiceEvent::Responded(None));
            self.observer.see(ServiceEvent::RequestEnded {
                was_admitted: false,
            });
        }
        RequestProbe {
            observer,
            is_admitted: false,
            place: None,
        }
    }
}

impl<O: Observer> Drop for ConnectionProbe<O> {
    fn drop(self) {
        let ConnectionProbe {
            observer,
            is_connection,
        } = self;
        if is_connection {
            observer.see(ServiceEvent::ConnectionClosed);
        }
    }
}

/// A request's handle on the observer.
///
/// Dropping the handle reports the request's end.
pub(crate) struct RequestProbe<O: Observer> {
    // `None` if memory ran out for the handle.
    observer: Option<Arc<O, Global>>,
    is_admitted: bool,
    // The place of the request's first message, if it was admitted and has one.
    place: Option<u64>,
}

impl<O: Observer> RequestProbe<O> {
    pub(crate) fn is_told(&self) -> bool {
        self.observer.is_some()
    }

    fn tell(&self, event: ServiceEvent<'_>) {
        if let Some(observer) = &self.observer {
            observer.see(event);
        }
    }

    /// Reports that the request was admitted. `place`: that of its first message, if any.
    pub(crate) fn admit(&mut self, place: Option<u64>)
        ensures { self.new.place ≡ place }
    {
        self.is_admitted = true;
        self.place = place;
        self.tell(ServiceEvent::Admitted(place));
    }

    pub(crate) fn refuse(&self, error: RequestError) {
        self.tell(ServiceEvent::Refused(error));
    }

    pub(crate) fn answer(&self, items: &[Item]) {
        let place = self.place;
        self.tell(ServiceEvent::Answered { place, items });
    }

    pub(crate) fn respond(&self, status: Status) {
        self.tell(ServiceEvent::Responded(Some(status)));
    }

    /// Reports that memory ran out for a response.
    pub(crate) fn give_up(&self) -> ServiceFault
        ensures { result ≡ Memory }
    {
        self.tell(ServiceEvent::Responded(None));
        ServiceFault::Memory
    }
}

impl<O: Observer> Drop for RequestProbe<O> {
    fn drop(self) {
        let RequestProbe {
            observer,
            is_admitted,
            place: _,
        } = self;
        if let Some(observer) = observer {
            observer.see(ServiceEvent::RequestEnded {
                was_admitted: is_admitted,
            });
        }
    }
}
