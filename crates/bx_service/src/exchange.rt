ghost use Rattle.std.specs.Prelude.{◌≡◌, [], Err, IfOk, None, Option, option_copied, option_map, string_bytes, unwrap_or};
ghost use Rattle.futures.specs.Poll.{IfReady, OnPending};
ghost use Rattle.futures.specs.declared.task.Poll.TheVariants.{Ready};
ghost use Rattle.futures.specs.Task.{IsArmed, Keeps};
ghost use Rattle.bx_service.specs.Places.{IsPlaced};
ghost use Rattle.bx_service.specs.Polling.{CanPoll};
ghost use Rattle.bx_cut.specs.Bodies.{texts_of};
ghost use Rattle.bx_service.specs.Beginnings.{Begins, query_of, says_more};
ghost use Rattle.bx_service.specs.declared.exchange.State.TheVariants.{Refused};
ghost use Rattle.bx_service.specs.declared.error.RequestError.TheVariants.{Unreadable};
ghost use Rattle.bx_transport.specs.declared.error.TransportError.TheVariants.{TooLarge};
ghost use Rattle.bx_service.specs.Responses.{IsRefusal};
ghost use Rattle.bx_service.specs.declared.service.ServiceFault.TheVariants.{Memory};
ghost use Rattle.bx_service.specs.Exchanges.{AnswersBy, AnswersNoMore, ForAsked, ForCollected, ForDocuments, ForItems, GivesBy, GivesNoMore, MayAnswer, Sent, kept_in};

use crate::backend::{Answered, Backend, Unanswered};
use crate::collect::{Collect, CollectError};
use crate::error::RequestError;
use crate::observer::Observer;
use crate::probe::RequestProbe;
use crate::response::{answer, refusal};
use crate::route::{Route, Transports};
use crate::service::ServiceFault;
use bx_advice::BodyLimit;
use bx_cut::Bodies;
use bx_hub::PostFault;
use bx_message::{Status, number_of};
use bx_pieces::Pieces;
use bx_transport::{TransportError, read_get, read_post};
use bytes::{Buf, Bytes};
use futures::Future;
use futures::task::{Context, Poll};
use http::header::{CONTENT_LENGTH, CONTENT_TYPE, HeaderValue};
use http::request::Parts;
use http::{Response, Uri};
use http_body::Body;
use std::alloc::Global;
use std::mem;
use std::sync::Arc;

/// The future of a request's response.
#[derive(Drop)]
pub struct Exchange<S, I, B, W, O: Observer> {
    pub(crate) alloc: Global,
    // `None` once the response or an error was returned, or if memory ran out for a handle.
    pub(crate) backend: Option<Arc<S, Global>>,
    pub(crate) state: State<I, B, W>,
    pub(crate) probe: RequestProbe<O>,
}

/// The progress of a request.
#[derive(Drop)]
pub(crate) enum State<I, B, W> {
    /// The body of a POST is being collected.
    Collecting {
        content_type: Option<HeaderValue>,
        body: Collect<B>,
    },
    /// A GET that is not read yet. The query of this target has its messages.
    Asked(Uri),
    /// The request was admitted, and waits for the items of its response.
    ///
    /// With a `callback` the response is a script that calls it.
    Held {
        callback: Option<String>,
        items: I,
    },
    /// The request was not admitted.
    Declined {
        fault: PostFault,
        witness: Option<W>,
    },
    Refused(RequestError),
    /// The response was given, with its witness, if it depends on the backend.
    Done(Option<W>),
}

impl<I: Future, B: Body, W> State<I, B, W> {
    /// Creates the state of a new request, from its body and the parts of its head.
    ///
    /// It is `Refused` if the path, the method, the transport or `Transfer-Encoding` is not served,
    /// or if the query of a GET or the `Content-Length` of a POST exceeds `limit`.
    pub(crate) fn new(
        alloc: Global,
        limit: BodyLimit,
        transports: Transports,
        parts: Parts,
        body: B,
    ) -> State<I, B, W>
        requires { B.can_poll body }
        ensures again { CanPoll I.can_poll B.can_poll result }
        ensures begins { Begins limit transports parts body result }
    {
        let Parts {
            method,
            uri,
            mut headers,
            ..
        } = parts;
        match Route::of(transports, &method, uri.path(), &headers) {
            Route::Refused(error) => State::Refused(error),
            Route::Get if query_of(&uri).len() > limit.get() => State::too_large(),
            Route::Get => State::Asked(uri),
            Route::Post if says_more(limit, headers.get(CONTENT_LENGTH)) => State::too_large(),
            Route::Post => State::Collecting {
                content_type: headers.remove(CONTENT_TYPE),
                body: Collect::new(alloc, body, limit.get()),
            },
        }
    }

    fn too_large() -> State<I, B, W>
        ensures again { CanPoll I.can_poll B.can_poll result }
        ensures refused { result ≡ Refused (Unreadable TooLarge) }
    {
        State::Refused(RequestError::Unreadable(TransportError::TooLarge))
    }
}

fn query_of(uri: &Uri) -> &str
    ensures { result.now ≡ query_of uri.now }
{
    uri.query().unwrap_or("")
}

// Returns `true` if the `Content-Length` is a number that exceeds `limit`.
fn says_more(limit: BodyLimit, length: Option<&HeaderValue>) -> bool
    ensures { result ≡ says_more limit (option_map (λ value. value.bytes) (option_copied length.entry)) }
{
    match length {
        Some(length) => match number_of(length.as_bytes()) {
            Some(count) => count > limit.get() as u64,
            None => false,
        },
        None => false,
    }
}

// Creates a response with `error` and no body, and reports both, or that memory runs out.
fn refused<O: Observer>(
    alloc: Global,
    probe: &RequestProbe<O>,
    error: RequestError,
) -> Result<Response<Pieces<Bytes>>, ServiceFault>
    ensures { IfOk result (IsRefusal error) }
{
    probe.refuse(error);
    match refusal(alloc, error) {
        Ok(response) => {
            probe.respond(error.status());
            Ok(response)
        }
        Err(_) => Err(probe.give_up()),
    }
}

// Creates the response to an admitted request, and reports it to the observer. It is an error if
// there are no items or memory runs out. The second value is the witness, if any.
fn answered<W: Drop, O: Observer>(
    alloc: Global,
    probe: &RequestProbe<O>,
    callback: Option<&str>,
    gathered: Result<Answered<W>, Unanswered<W>>,
) -> (Result<Response<Pieces<Bytes>>, ServiceFault>, Option<W>)
    ensures { IfOk result.0 (ForItems (option_map (λ name. name.now) callback.entry) gathered result.1) }
{
    let Answered { items, witness } = match gathered {
        Ok(answered) => answered,
        Err(Unanswered::Unavailable(witness)) => {
            return (
                refused(alloc, probe, RequestError::Unanswered),
                Some(witness),
            );
        }
        Err(Unanswered::Memory) => return (refused(alloc, probe, RequestError::Memory), None),
    };
    probe.answer(items.as_slice());
    let response = match answer(alloc, callback, items.as_slice()) {
        Ok(response) => {
            probe.respond(Status::Ok);
            Ok(response)
        }
        Err(_) => refused(alloc, probe, RequestError::Memory),
    };
    (response, Some(witness))
}

impl<S, I, B, D, O> Exchange<S, I, B, S::Witness, O>
where
    S: Backend<Items = I>,
    I: Future<Output = Result<Answered<S::Witness>, Unanswered<S::Witness>>> + Drop,
    B: Body<Data = D>,
    D: Buf + Drop,
    O: Observer,
{
    // Posts the messages in `bodies`, and reports an admission to `probe`.
    fn admitted(
        backend: &S,
        probe: &mut RequestProbe<O>,
        callback: Option<String>,
        bodies: Bodies,
    ) -> State<I, B, S::Witness>
        ensures again { CanPoll I.can_poll B.can_poll result }
        ensures place { IsPlaced S.stands probe.new.place result }
        ensures value { (kept : Option S.Witness) (sent : Sent) → MayAnswer (S.answers backend.now) (S.rejects backend.now) I.gives D.unread B.yields result kept sent
            → ForDocuments (S.answers backend.now) (S.rejects backend.now) (option_map string_bytes callback) (texts_of bodies) kept sent }
    {
        match backend.admit(bodies) {
            Ok(items) => {
                probe.admit(backend.place(&items));
                State::Held { callback, items }
            }
            Err(declined) => State::Declined {
                fault: declined.fault,
                witness: declined.witness,
            },
        }
    }

    // Posts the messages of a POST if its body was collected and can be read.
    fn posted(
        alloc: Global,
        backend: &S,
        probe: &mut RequestProbe<O>,
        content_type: Option<&HeaderValue>,
        collected: Result<Vec<u8>, CollectError>,
    ) -> State<I, B, S::Witness>
        ensures again { CanPoll I.can_poll B.can_poll result }
        ensures value { (kept : Option S.Witness) (sent : Sent) → MayAnswer (S.answers backend.now) (S.rejects backend.now) I.gives D.unread B.yields result kept sent
            → ForCollected (S.answers backend.now) (S.rejects backend.now) (option_map (λ value. value.now.bytes) content_type.entry) collected kept sent }
    {
        let body = match collected {
            Ok(body) => body,
            Err(error) => return State::Refused(error.into()),
        };
        let content_type = content_type.map(|value| value.as_bytes());
        match read_post(alloc, content_type, body) {
            Ok(bodies) => Self::admitted(backend, probe, None, bodies),
            Err(error) => State::Refused(RequestError::Unreadable(error)),
        }
    }

    // Posts the messages of a GET if its query can be read.
    fn asked(
        alloc: Global,
        backend: &S,
        probe: &mut RequestProbe<O>,
        uri: &Uri,
    ) -> State<I, B, S::Witness>
        ensures again { CanPoll I.can_poll B.can_poll result }
        ensures value { (kept : Option S.Witness) (sent : Sent) → MayAnswer (S.answers backend.now) (S.rejects backend.now) I.gives D.unread B.yields result kept sent
            → ForAsked (S.answers backend.now) (S.rejects backend.now) (query_of uri.now) kept sent }
    {
        match read_get(alloc, query_of(uri).as_bytes()) {
            Ok((name, bodies)) => Self::admitted(backend, probe, Some(name), bodies),
            Err(error) => State::Refused(RequestError::Unreadable(error)),
        }
    }

    // Takes the request from `Collecting` or `Asked` to its next state. Ready in other states.
    fn poll_admitted(&mut self, backend: &S, cx: &mut Context<'_>) -> Poll<()>
        requires { CanPoll I.can_poll B.can_poll self.old.state }
        ensures again { CanPoll I.can_poll B.can_poll self.new.state }
        ensures same { (kept : Option S.Witness) (sent : Sent) → MayAnswer (S.answers backend.now) (S.rejects backend.now) I.gives D.unread B.yields self.new.state kept sent
            → MayAnswer (S.answers backend.now) (S.rejects backend.now) I.gives D.unread B.yields self.old.state kept sent }
        ensures registered { OnPending result (IsArmed cx.new) }
        ensures kept { Keeps cx.old cx.new }
        ensures backend { self.new.backend ≡ self.old.backend }
    {
        let alloc = self.alloc;
        match &mut self.state {
            State::Collecting { content_type, body } => {
                let collected = match body.poll(cx) {
                    Poll::Pending => return Poll::Pending,
                    Poll::Ready(collected) => collected,
                };
                let content_type = content_type.as_ref();
                let state = Self::posted(alloc, backend, &mut self.probe, content_type, collected);
                drop(mem::replace(&mut self.state, state));
                Poll::Ready(())
            }
            State::Asked(uri) => {
                let state = Self::asked(alloc, backend, &mut self.probe, uri);
                drop(mem::replace(&mut self.state, state));
                Poll::Ready(())
            }
            _ => Poll::Ready(()),
        }
    }

    // Polls for the response, after which the state is `Done`, with the response's witness. While
    // the request is being collected, and once it is `Done`, reports that memory ran out.
    fn poll_answered(
        &mut self,
        cx: &mut Context<'_>,
    ) -> Poll<Result<Response<Pieces<Bytes>>, ServiceFault>>
        requires { CanPoll I.can_poll B.can_poll self.old.state }
        ensures value { IfReady result (λ given. IfOk given (λ sent. (backend : S)
            → MayAnswer (S.answers backend) (S.rejects backend) I.gives D.unread B.yields self.old.state (kept_in self.new.state) sent)) }
        ensures again { OnPending result (CanPoll I.can_poll B.can_poll self.new.state) }
        ensures same { OnPending result ((backend : S) (kept : Option S.Witness) (sent : Sent) → MayAnswer (S.answers backend) (S.rejects backend) I.gives D.unread B.yields self.new.state kept sent
            → MayAnswer (S.answers backend) (S.rejects backend) I.gives D.unread B.yields self.old.state kept sent) }
        ensures registered { OnPending result (IsArmed cx.new) }
        ensures kept { Keeps cx.old cx.new }
        ensures backend { self.new.backend ≡ self.old.backend }
    {
        let alloc = self.alloc;
        let (response, witness) = match &mut self.state {
            State::Held { callback, items } => match items.poll(cx) {
                Poll::Pending => return Poll::Pending,
                Poll::Ready(gathered) => {
                    let callback = callback.as_ref().map(|it| it.as_str());
                    answered(alloc, &self.probe, callback, gathered)
                }
            },
            State::Declined { fault, witness } => {
                let error = RequestError::NotAdmitted(*fault);
                (refused(alloc, &self.probe, error), witness.take())
            }
            State::Refused(error) => (refused(alloc, &self.probe, *error), None),
            _ => (Err(self.probe.give_up()), None),
        };
        drop(mem::replace(&mut self.state, State::Done(witness)));
        Poll::Ready(response)
    }
}

impl<S, I, B, D, O> Future for Exchange<S, I, B, S::Witness, O>
where
    S: Backend<Items = I> + Drop,
    I: Future<Output = Result<Answered<S::Witness>, Unanswered<S::Witness>>> + Drop,
    B: Body<Data = D>,
    D: Buf + Drop,
    O: Observer,
{
    type Output = Result<Response<Pieces<Bytes>>, ServiceFault>;

    ghost can_poll = { λ e. CanPoll I.can_poll B.can_poll e.state };

    // Ghost: a response is one that the exchange may give, with some witness. The clause `shown` of
    // `poll` names the witness.
    ghost gives = { λ e given. GivesBy S.answers S.rejects I.gives D.unread B.yields e given };

    // Drops the backend when the response is ready. A later poll posts no messages, and reports
    // that memory ran out.
    fn poll(&mut self, cx: &mut Context<'_>) -> Poll<Self::Output>
        requires { CanPoll I.can_poll B.can_poll self.old.state }
        ensures shown { IfReady result (λ given. IfOk given (AnswersBy S.answers S.rejects I.gives D.unread B.yields self.old (kept_in self.new.state))) }
        ensures carries { OnPending result (AnswersNoMore S.answers S.rejects I.gives D.unread B.yields self.old self.new) }
        ensures value { IfReady result (GivesBy S.answers S.rejects I.gives D.unread B.yields self.old) }
        ensures again { OnPending result (CanPoll I.can_poll B.can_poll self.new.state) }
        ensures same { OnPending result (GivesNoMore S.answers S.rejects I.gives D.unread B.yields self.old self.new) }
        ensures registered { OnPending result (IsArmed cx.new) }
        ensures kept { Keeps cx.old cx.new }
        ensures waits { OnPending result (self.new.backend ≡ self.old.backend) }
        ensures over { IfReady result (λ _. self.new.backend ≡ None) }
        ensures after { self.old.backend ≡ None → (result ≡ Ready (Err Memory)) × (self.new ≡ self.old) }
    {
        let Some(backend) = self.backend.take() else {
            return Poll::Ready(Err(self.probe.give_up()));
        };
        let polled = match self.poll_admitted(&*backend, cx) {
            Poll::Pending => Poll::Pending,
            Poll::Ready(()) => self.poll_answered(cx),
        };
        if polled.is_pending() {
            self.backend = Some(backend);
        }
        polled
    }
}
