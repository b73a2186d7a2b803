//! A task that waits for the answer to a connect, in a hub of one shard.
use crate::hubs::caller::Caller;
use crate::unlike::{Unlike, check};
use bx_calls::waker_of;
use bx_entry::Ticket;
use bx_held::PendingAnswer;
use bx_hub::{HubFault, HubKind, Pass, Watch};
use bx_message::Answer;
use futures::task::Poll;
use futures::test::MockTask;
use std::sync::Wait;

// Returns a future of the answer under `ticket`. Fails if `pass` ends before the ticket's place.
fn waiting<L: HubKind>(pass: &Pass<L>, ticket: Ticket) -> Result<PendingAnswer<L>, Unlike> {
    let pass = pass.again();
    if ticket.place >= pass.len() {
        return Err(Unlike::Wrong("a ticket beyond the list"));
    }
    Ok(PendingAnswer::new(pass, ticket))
}

impl<L: HubKind, H: Wait + Drop, R: Wait> Caller<'_, L, H, R> {
    /// Connects a session, and lets `task` wait for the answer until another session publishes.
    ///
    /// Posts a tick, and returns the answer. The poll that takes the answer does not allocate, so
    /// it is not retried.
    pub fn awaited_answer(&mut self, task: &MockTask) -> Result<Answer, Unlike> {
        let mut held = self.connect_and_wait(task)?;
        self.publish_and_wake(task)?;
        match self.poll_held(task, &mut held) {
            Poll::Ready(Ok(Some(answer))) => Ok(answer),
            Poll::Ready(_) | Poll::Pending => Err(Unlike::Wrong("no answer")),
        }
    }

    // Connects a session, and returns a future of the answer, for which `task` waits.
    fn connect_and_wait(&mut self, task: &MockTask) -> Result<PendingAnswer<L>, Unlike> {
        let mut pass = self.hub.pass();
        let (ticket, is_behind) = self.connect(&mut pass)?;
        let is_held = self.is_held(ticket, task)?;
        check(is_held != is_behind, "behind and not behind")?;
        self.wait(&pass, ticket, task)
    }

    // Returns `true` if the shard holds the connect, and `false` if it has not applied the connect
    // yet. Fails if the connect is answered, or if the hub is closed.
    fn is_held(&self, ticket: Ticket, task: &MockTask) -> Result<bool, Unlike> {
        let waker = waker_of(task).ok_or(Unlike::Memory)?;
        let (said, _evidence) = self.hub.watch(self.rt, ticket, waker);
        match said {
            Watch::Stored(_) => Ok(true),
            Watch::Unknown(_) => Ok(false),
            Watch::Ready(_) | Watch::Shut(_) => Err(Unlike::Wrong("no connect is held")),
        }
    }

    // Polls `held` once for `task`. Returns the answer or the fault if it is ready, and `Pending`
    // if not.
    fn poll_held(
        &self,
        task: &MockTask,
        held: &mut PendingAnswer<L>,
    ) -> Poll<Result<Option<Answer>, HubFault>> {
        let (polled, _left) = task.enter(|cx| held.poll(self.rt, self.alloc, self.hub, cx));
        match polled {
            Poll::Ready(Ok(answer)) => Poll::Ready(Ok(answer)),
            Poll::Ready(Err(stopped)) => Poll::Ready(Err(stopped.fault())),
            Poll::Pending => Poll::Pending,
        }
    }

    // Returns a future of the answer under `ticket`, for which `task` waits. If memory runs out in
    // the first poll, polls a new future.
    fn wait(
        &self,
        pass: &Pass<L>,
        ticket: Ticket,
        task: &MockTask,
    ) -> Result<PendingAnswer<L>, Unlike> {
        for _ in 0..2 {
            let mut held = waiting(pass, ticket)?;
            match self.poll_held(task, &mut held) {
                Poll::Pending if !task.is_woken() => return Ok(held),
                Poll::Ready(Err(HubFault::Memory)) => (),
                _ => return Err(Unlike::Wrong("an answer too soon")),
            }
        }
        Err(Unlike::Wrong("refused once more"))
    }

    // Publishes and posts a tick. Checks that the publish wakes the task or, if memory ran out when
    // the shard was to apply the publish, that the tick does.
    fn publish_and_wake(&mut self, task: &MockTask) -> Result<(), Unlike> {
        let mut pass = self.hub.pass();
        let is_behind = self.publish(&mut pass)?;
        check(task.is_woken() != is_behind, "behind and not behind")?;
        self.tick(&mut pass)?;
        check(task.is_woken(), "not woken")
    }
}
