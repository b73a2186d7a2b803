ghost use Rattle.std.specs.Prelude.{◌≡◌, IfOk, IfSome};
ghost use Rattle.http.specs.Request.{head_of, body_of};
ghost use Rattle.bx_advice.specs.declared.limit.TheConstants.{BODY_LIMIT};
ghost use Rattle.bx_service.specs.Beginnings.{Begins};
ghost use Rattle.bx_service.specs.declared.route.Transports.TheVariants.{All};
ghost use Rattle.std.specs.Arc.{arc_value};

use crate::backend::{Answered, Backend, Unanswered};
use crate::exchange::{Exchange, State};
use crate::observer::Observer;
use crate::probe::ConnectionProbe;
use crate::route::Transports;
use bx_advice::BodyLimit;
use bx_pieces::Pieces;
use bytes::{Buf, Bytes};
use futures::Future;
use http::{Request, Response};
use http_body::Body;
use hyper::service::Service;
use std::alloc::{AllocError, Global};
use std::sync::Arc;
use thiserror::Error;

/// Why a connection ends without a response.
#[derive(Clone, Copy, Debug, PartialEq, Eq, Error)]
pub enum ServiceFault {
    /// Memory ran out even for a response without a body.
    #[error("out of memory")]
    Memory,
}

/// A service of Bayeux over HTTP, which creates an [`Exchange`] for each request.
#[derive(Drop)]
pub struct BayeuxService<S, O: Observer = ()> {
    alloc: Global,
    backend: Arc<S, Global>,
    limit: BodyLimit,
    transports: Transports,
    probe: ConnectionProbe<O>,
}

impl<S: Drop> BayeuxService<S, ()> {
    /// Creates a service over `backend`.
    ///
    /// It accepts all transports, and bodies and queries of up to [`bx_advice::BODY_LIMIT`] bytes.
    ///
    /// # Examples
    ///
    /// ```
    /// let backend = HubBackend::new(
    ///  rt,
    ///  alloc,
    ///  Arc::try_clone(hub)?,
    ///  Access::ReadWrite,
    ///  Still,
    ///  Zeros,
    /// );
    /// let service = BayeuxService::new(alloc, backend)?;
    /// ```
    pub fn new(alloc: Global, backend: S) -> Result<BayeuxService<S>, AllocError>
        ensures backend { IfOk result (λ service. arc_value service.backend ≡ backend) }
        ensures limit { IfOk result (λ service. service.limit ≡ BODY_LIMIT) }
        ensures transports { IfOk result (λ service. service.transports ≡ All) }
    {
        BayeuxService::with_observer(alloc, backend, ())
    }
}

impl<S: Drop, O: Observer> BayeuxService<S, O> {
    /// Creates a service as [`new`](Self::new) does, with an observer.
    ///
    /// The observer sees each clone of the service as a connection, which closes when it is
    /// dropped.
    pub fn with_observer(
        alloc: Global,
        backend: S,
        observer: O,
    ) -> Result<BayeuxService<S, O>, AllocError>
        ensures backend { IfOk result (λ service. arc_value service.backend ≡ backend) }
        ensures limit { IfOk result (λ service. service.limit ≡ BODY_LIMIT) }
        ensures transports { IfOk result (λ service. service.transports ≡ All) }
    {
        Ok(BayeuxService {
            alloc,
            backend: Arc::new(alloc, backend)?,
            limit: BodyLimit::greatest(),
            transports: Transports::All,
            probe: ConnectionProbe::new(alloc, observer)?,
        })
    }

    /// Returns the service with another size limit of bodies and queries.
    pub fn with_limit(self, limit: BodyLimit) -> BayeuxService<S, O>
        ensures { result ≡ record self { limit = limit } }
    {
        let mut service = self;
        service.limit = limit;
        service
    }

    /// Returns the service with other transports.
    pub fn with_transports(self, transports: Transports) -> BayeuxService<S, O>
        ensures { result ≡ record self { transports = transports } }
    {
        let mut service = self;
        service.transports = transports;
        service
    }
}

impl<S: Drop, O: Observer> Clone for BayeuxService<S, O> {
    ghost is_clone = { λ service copy. (arc_value copy.backend ≡ arc_value service.backend) × (copy.limit ≡ service.limit) × (copy.transports ≡ service.transports) };

    fn clone(&self) -> Result<BayeuxService<S, O>, AllocError> {
        Ok(BayeuxService {
            alloc: self.alloc,
            backend: Arc::try_clone(&self.backend)?,
            limit: self.limit,
            transports: self.transports,
            probe: self.probe.open()?,
        })
    }
}

impl<S, I, B, D, O> Service<Request<B>> for BayeuxService<S, O>
where
    S: Backend<Items = I> + Drop,
    I: Future<Output = Result<Answered<S::Witness>, Unanswered<S::Witness>>> + Drop,
    B: Body<Data = D>,
    D: Buf + Drop,
    O: Observer,
{
    type Response = Response<Pieces<Bytes>>;

    type Error = ServiceFault;

    type Future = Exchange<S, I, B, S::Witness, O>;

    // Ghost: every body of this type can be polled.
    ghost can_call = { λ _. (body : B) → B.can_poll body };

    // Ghost: the request, the limit and the transports determine the exchange's first state. Its
    // backend, if any, is the service's.
    ghost calls = { λ service request exchange. Begins service.limit service.transports (head_of request) (body_of request) exchange.state
        × IfSome exchange.backend (λ handle. arc_value handle ≡ arc_value service.backend) };

    fn call(&self, request: Request<B>) -> Self::Future {
        let (parts, body) = request.into_parts();
        let probe = self.probe.ask();
        let backend = if probe.is_told() {
            Arc::try_clone(&self.backend).ok()
        } else {
            None
        };
        Exchange {
            alloc: self.alloc,
            backend,
            state: State::new(self.alloc, self.limit, self.transports, parts, body),
            probe,
        }
    }
}
