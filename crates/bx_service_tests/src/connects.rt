//! Tests of held connects: what they return, and which tasks they wake.
use crate::same::same;
use bx_calls::{
    HubWork, Stage, Task, Tasks, config_of, hold, post_all, text_of, texts, tick, work_in_open_hub,
};
use bx_entry::Ticket;
use bx_held::PendingAnswer;
use bx_hub::{HubFault, HubKind, Pass};
use futures::task::Poll;
use std::process::Abort;
use std::sync::Wait;
use std::test::*;

// The ticket of the connect that each run holds.
const TICKET: Ticket = Ticket { place: 2, shard: 1 };

// What a poll of a held connect must return.
#[derive(Clone, Copy)]
enum Want {
    // A poll must be pending: there is no answer yet.
    Pending,
    // A poll must return an answer. The field is the JSON array of the answer's events, followed
    // by its reply.
    Answer(&'static str),
    // A poll must return that there is no answer, now or later.
    None,
    // A poll must return this fault.
    Fault(HubFault),
}

// A hub, a caller's pass, and two tasks that can poll a held connect.
#[derive(Drop)]
struct Bench<'a, L: HubKind, R: Wait + Drop> {
    stage: &'a Stage<L, R>,
    pass: Pass<L>,
    tasks: Tasks,
}

// A step of a run, and what it checks.
#[derive(Clone, Copy)]
enum Step {
    // Checks that a poll of the held connect in this task is pending and does not wake the task.
    Waits(Task),
    // Checks that a poll of the held connect in this task returns `Want`, and that two more polls
    // return no answer.
    Gives(Task, Want),
    // Checks that a poll of a new future of this ticket, in the first task, returns `Want`.
    Other(Ticket, Want),
    // Checks that this task was woken since its last poll if the flag is `true`, and not otherwise.
    Woken(Task, bool),
    // Posts each of these bodies.
    Post(&'static [&'static str]),
    Tick(u64),
    Close,
    // Pauses the shard of the held connect.
    Pause,
    // Sweeps the answers filed by entries before place 1,000, and checks that one was dropped.
    Sweep,
}

const WAITS: Step = Step::Waits(Task::First);

const IS_WOKEN: Step = Step::Woken(Task::First, true);

// A step in which the second session is opened, and publishes an event that the first one gets.
const PUBLISH: Step = Step::Post(&[texts::HANDSHAKE, texts::PUBLISH]);

const EVENT: Want = Want::Answer(texts::ANSWER);

const GIVES_EVENT: Step = Step::Gives(Task::First, EVENT);

const GIVES_NOTHING: Step = Step::Gives(Task::First, Want::None);

// The steps with another answer or fault for the first task.
const CONNECTED: Step = Step::Gives(Task::First, Want::Answer(texts::CONNECTED));

const SUPERSEDED: Step = Step::Gives(Task::First, Want::Answer(texts::SUPERSEDED));

const ENDED: Step = Step::Gives(Task::First, Want::Answer(texts::SESSION_ENDED));

const CLOSED: Step = Step::Gives(Task::First, Want::Fault(HubFault::Closed));

const PAUSED: Step = Step::Gives(Task::First, Want::Fault(HubFault::Paused));

// A tick at the deadline of the held connect.
const DEADLINE: Step = Step::Tick(30_000);

// All runs, each over its own hub, with the first session's connect held.
const RUNS: [&[Step]; 12] = [
    // A publish answers the held connect with the published event.
    &[WAITS, PUBLISH, IS_WOKEN, GIVES_EVENT],
    // A newer connect answers the held one.
    &[WAITS, Step::Post(&[texts::CONNECT]), IS_WOKEN, SUPERSEDED],
    // The session's disconnect answers its held connect.
    &[WAITS, Step::Post(&[texts::DISCONNECT]), IS_WOKEN, ENDED],
    // A tick at the deadline answers the held connect. An earlier tick does not.
    &[Step::Tick(29_999), WAITS, DEADLINE, IS_WOKEN, CONNECTED],
    // Closing the hub wakes the task of the held connect, and a poll then returns a fault.
    &[WAITS, Step::Close, IS_WOKEN, CLOSED],
    // An answer filed before the hub closed can still be taken.
    &[PUBLISH, Step::Close, GIVES_EVENT],
    // A ticket gives no answer if its answer was taken, if its place is that of another message, or
    // if its shard is unknown.
    &[
        PUBLISH,
        Step::Other(TICKET, EVENT),
        GIVES_NOTHING,
        Step::Other(Ticket { place: 1, shard: 1 }, Want::None),
        Step::Other(Ticket { place: 2, shard: 2 }, Want::None),
    ],
    // A swept answer cannot be taken.
    &[WAITS, DEADLINE, Step::Sweep, GIVES_NOTHING],
    // The held connect moves to the second task. Only the task that polled last is woken.
    &[
        WAITS,
        Step::Waits(Task::Second),
        PUBLISH,
        Step::Woken(Task::Second, true),
        Step::Woken(Task::First, false),
        Step::Gives(Task::Second, EVENT),
    ],
    // The held connect moves to the second task and back to the first, which is woken.
    &[
        WAITS,
        Step::Waits(Task::Second),
        WAITS,
        PUBLISH,
        IS_WOKEN,
        Step::Woken(Task::Second, false),
        GIVES_EVENT,
    ],
    // Repeated polls do not wake the task, and a later event does.
    &[WAITS, WAITS, WAITS, WAITS, PUBLISH, IS_WOKEN, GIVES_EVENT],
    // A paused shard does not answer a held connect, and a poll returns a fault.
    &[
        WAITS,
        Step::Pause,
        PUBLISH,
        Step::Woken(Task::First, false),
        PAUSED,
    ],
];

impl<L: HubKind, R: Wait + Abort + Drop> Bench<'_, L, R> {
    // Returns a future of the answer under `ticket`. Fails if the pass has not seen its entry.
    fn wait(&self, ticket: Ticket) -> Result<PendingAnswer<L>, Fail> {
        let pass = self.pass.again();
        if ticket.place >= pass.len() {
            return Err(Fail::from("the ticket is beyond the list"));
        }
        Ok(PendingAnswer::new(pass, ticket))
    }

    // Polls `held` once, in `task`, and checks that the output is what `want` describes.
    fn check_poll(&self, task: Task, held: &mut PendingAnswer<L>, want: Want) -> Result<(), Fail> {
        let Stage { rt, alloc, hub } = self.stage;
        let task = self.tasks.task(task);
        let (polled, _left) = task.enter(|cx| held.poll(rt, *alloc, hub, cx));
        match (polled, want) {
            (Poll::Pending, Want::Pending) | (Poll::Ready(Ok(None)), Want::None) => Ok(()),
            (Poll::Ready(Ok(Some(answer))), Want::Answer(text)) => {
                let found = text_of(*alloc, answer)?;
                same(rt, found.as_slice(), text.as_bytes(), text);
                Ok(())
            }
            (Poll::Ready(Err(stopped)), Want::Fault(fault)) => {
                same(rt, stopped.fault(), fault, "a fault");
                Ok(())
            }
            _ => Err(Fail::from("a poll gave something else")),
        }
    }

    // Checks that a poll of `held` returns `want`, and that two more return no answer.
    fn gives(&self, task: Task, held: &mut PendingAnswer<L>, want: Want) -> Result<(), Fail> {
        for want in [want, Want::None, Want::None] {
            self.check_poll(task, held, want)?;
        }
        Ok(())
    }

    fn take(&mut self, held: &mut PendingAnswer<L>, step: Step) -> Result<(), Fail> {
        let Stage { rt, alloc, hub } = self.stage;
        match step {
            Step::Waits(task) => {
                self.check_poll(task, held, Want::Pending)?;
                same(rt, self.tasks.task(task).is_woken(), false, task);
            }
            Step::Gives(task, want) => self.gives(task, held, want)?,
            Step::Other(ticket, want) => {
                self.check_poll(Task::First, &mut self.wait(ticket)?, want)?;
            }
            Step::Woken(task, want) => same(rt, self.tasks.task(task).is_woken(), want, task),
            Step::Post(bodies) => post_all(rt, *alloc, hub, &mut self.pass, bodies)?,
            Step::Tick(moment) => {
                tick(rt, *alloc, hub, &mut self.pass, moment)?;
            }
            Step::Close => drop(hub.close(rt)),
            Step::Pause => {
                let paused = hub.pause(rt, TICKET.shard);
                same(rt, paused.is_some(), true, "a pause");
            }
            Step::Sweep => same(rt, hub.sweep(rt, 1_000).dropped(), 1, "a sweep"),
        }
        Ok(())
    }

    fn run(&mut self, steps: &[Step]) -> Result<(), Fail> {
        let Stage { rt, alloc, hub } = self.stage;
        hold(rt, *alloc, hub, &mut self.pass)?;
        let mut held = self.wait(TICKET)?;
        for step in steps {
            self.take(&mut held, *step)?;
        }
        Ok(())
    }
}

// A run, and the tasks that poll its held connect.
#[derive(Drop)]
struct HeldConnect {
    tasks: Tasks,
    steps: &'static [Step],
}

impl<R: Wait + Abort + Drop> HubWork<R> for HeldConnect {
    type Value = ();

    type Fault = Fail;

    fn work<L: HubKind>(self, stage: &Stage<L, R>) -> Result<(), Fail> {
        let mut bench = Bench {
            stage,
            pass: stage.hub.pass(),
            tasks: self.tasks,
        };
        bench.run(self.steps)
    }
}

// Checks that held connects return their answers or faults, and wake the task that polled last.
#[test]
fn held_connects(rt: HostRuntime) -> Result<(), Fail> {
    let config = config_of(2).ok_or("no configuration")?;
    for steps in RUNS {
        let tasks = Tasks::new(&rt)?;
        work_in_open_hub(&rt, rt.alloc(), config, HeldConnect { tasks, steps })?;
    }
    Ok(())
}
