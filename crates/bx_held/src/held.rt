ghost use Rattle.std.specs.Prelude.{◌≡◌, ◌≢◌, ◌<◌, true, false, length, Option, None, Result, Ok, IfErr, IfSome, IfNone};
ghost use mathlib.Core.List.{IsPrefix};
ghost use Rattle.futures.specs.Poll.{IfReady, OnPending};
ghost use Rattle.futures.specs.Task.{Covers, Keeps};
ghost use Rattle.futures.specs.declared.task.Poll.TheVariants as polls;
ghost use Rattle.bx_window.specs.Steps.{list_of, setup_of};
ghost use Rattle.bx_held.specs.Outputs.{IsGiven, output_of};
ghost use Rattle.bx_held.specs.Waiting.{IsUnknown, IsWaitedFor};

use bx_entry::Ticket;
use bx_hub::{Hub, HubKind, NoAnswer, Pass, Watch, WatchEvidence};
use bx_message::Answer;
use bx_window::LogId;
use futures::task::{Context, Poll, Source, Waker};
use std::alloc::Global;
use std::sync::Wait;

/// The pending answer to a connect or a rider.
///
/// While no answer is filed, each poll registers a waker of its task with the connect or, if memory
/// runs out for it, has the task polled again. When the connect is answered, the task that polled
/// last is woken.
#[derive(Drop)]
pub struct PendingAnswer<L: LogId> {
    pass: Pass<L>,
    ticket: Ticket,
    source: Source,
    // Not registered. It is kept because dropping a waker wakes its task.
    own: Option<Waker>,
    // Whether a poll has returned an answer, a fault or `None`. Later polls return `None`.
    is_done: bool,
    ghost reached: { ticket.place < length (list_of pass) },
}

impl<L: HubKind> PendingAnswer<L> {
    /// Creates a pending answer for `ticket`.
    ///
    /// `pass` must have seen the connect or rider of `ticket`.
    pub fn new(pass: Pass<L>, ticket: Ticket) -> PendingAnswer<L>
        requires { ticket.place < length (list_of pass) }
        ensures { (result.pass ≡ pass) × (result.ticket ≡ ticket) × (result.is_done ≡ false) }
    {
        PendingAnswer {
            pass,
            ticket,
            source: Source::new(),
            own: None,
            is_done: false,
        }
    }

    /// Returns the pass, which the polls extend.
    pub fn pass(&self) -> &Pass<L>
        ensures { result.now ≡ self.now.pass }
    {
        &self.pass
    }

    /// Returns the ticket.
    pub fn ticket(&self) -> Ticket
        ensures { result ≡ self.now.ticket }
    {
        self.ticket
    }

    // Polls the hub once for an answer or a fault, and then sets `is_done`.
    fn ask<H: Wait + Drop, R: Wait>(
        &mut self,
        rt: &R,
        alloc: Global,
        hub: &Hub<L, H>,
    ) -> Option<Result<Option<Answer>, NoAnswer<L>>>
        ensures seen { IsPrefix self.old.pass self.new.pass }
        ensures same { (self.new.ticket ≡ self.old.ticket) × (self.new.source ≡ self.old.source) }
        ensures given { IfSome result (λ o. IsGiven (setup_of L.config L.placing) self.new.ticket self.new.pass (output_of o)) }
        ensures own { IfSome result (λ o. IfErr o (λ s. s.ticket.value ≡ self.new.ticket)) }
        ensures done { IfSome result (λ o. (self.new.is_done ≡ true) × (o ≢ Ok None)) }
        ensures pending { IfNone result (self.new.is_done ≡ self.old.is_done) }
    {
        let (polled, _unfiled) = hub.poll_answer(rt, alloc, &mut self.pass, self.ticket);
        match polled {
            Ok(None) => None,
            Ok(Some(answer)) => {
                self.is_done = true;
                Some(Ok(Some(answer)))
            }
            Err(stopped) => {
                self.is_done = true;
                Some(Err(stopped))
            }
        }
    }

    /// Polls for the answer to the connect or rider.
    ///
    /// The output is `None` if no connect is known under the ticket, or if the output was returned
    /// before. While pending, a waker of the task is registered with the connect, or the task is
    /// polled again in any case.
    ///
    /// The second value is evidence that the waker is registered, or that no connect is known, if
    /// one of these is so and the ticket names a shard.
    ///
    /// # Errors
    ///
    /// [`NoAnswer`] with the fault, as in [`Hub::poll_answer`]. Later polls return `None`.
    ///
    /// # Blocking
    ///
    /// Locks the ticket's shard, up to three times. Tasks are woken as in [`Hub::poll_answer`].
    pub fn poll<H: Wait + Drop, R: Wait>(
        &mut self,
        rt: &R,
        alloc: Global,
        hub: &Hub<L, H>,
        cx: &mut Context<'_>,
    ) -> (
        Poll<Result<Option<Answer>, NoAnswer<L>>>,
        Option<WatchEvidence<L>>,
    )
        ensures own { IfReady result.0 (λ o. IfErr o (λ s. s.ticket.value ≡ self.old.ticket)) }
        ensures unknown { self.old.is_done ≡ false → IfReady result.0
            (λ o. o ≡ Ok None → IsUnknown L.config.shards self.old.ticket result.1) }
        ensures ticket { self.new.ticket ≡ self.old.ticket }
        ensures registered { OnPending result.0 (Covers cx.new (λ s. s ≡ self.new.source.id)) }
        ensures left { OnPending result.0 (IsWaitedFor self.new.ticket result.1 cx.old cx.new) }
        ensures kept { Keeps cx.old cx.new }
        ensures seen { IsPrefix self.old.pass self.new.pass }
        ensures given { IfReady result.0 (λ o. IsGiven (setup_of L.config L.placing) self.new.ticket self.new.pass (output_of o)) }
        ensures done { IfReady result.0 (λ _. self.new.is_done ≡ true) }
        ensures pending { OnPending result.0 (self.new.is_done ≡ false) }
        ensures after { self.old.is_done ≡ true → result.0 ≡ polls.Ready (Ok None) }
    {
        if self.is_done {
            return (Poll::Ready(Ok(None)), None);
        }
        if let Some(output) = self.ask(rt, alloc, hub) {
            return (Poll::Ready(output), None);
        }
        let pending = cx.register(&self.source, &mut self.own);
        let Some(waker) = self.own.take() else {
            return (pending, None);
        };
        let (said, evidence) = hub.watch(rt, self.ticket, waker);
        match said {
            Watch::Stored(older) => {
                self.own = older;
                return (pending, evidence);
            }
            Watch::Ready(_) => {}
            Watch::Unknown(_) => {
                self.is_done = true;
                return (Poll::Ready(Ok(None)), evidence);
            }
            Watch::Shut(_) => {
                let Some(shut) = evidence else { unreachable!() };
                self.is_done = true;
                return (Poll::Ready(Err(shut.no_answer(&self.ticket))), None);
            }
        }
        // The answer was filed after the first look.
        if let Some(output) = self.ask(rt, alloc, hub) {
            return (Poll::Ready(output), None);
        }
        // The answer was already taken or swept.
        (cx.yield_now(), None)
    }
}
