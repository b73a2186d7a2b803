//! Two tasks of a test, and their wakers.
use crate::Refused;
use futures::task::{Poll, Source, Waker};
use futures::test::MockTask;
use std::alloc::AllocGlobal;
use std::random::RandomSource;

/// One of two tasks.
#[derive(Clone, Copy, Debug)]
pub enum Task {
    First,
    Second,
}

/// Two tasks that can wait for answers.
#[derive(Drop)]
pub struct Tasks {
    pub first: MockTask,
    pub second: MockTask,
}

impl Tasks {
    /// Creates two tasks that are not woken.
    ///
    /// # Errors
    ///
    /// [`Refused`] if memory runs out.
    pub fn new<R: AllocGlobal + RandomSource>(rt: &R) -> Result<Tasks, Refused> {
        let first = MockTask::new(rt).map_err(|_| Refused)?;
        let second = MockTask::new(rt).map_err(|_| Refused)?;
        // A new task counts as woken until it is polled.
        first.enter(|_cx| ());
        second.enter(|_cx| ());
        Ok(Tasks { first, second })
    }

    /// Returns the task that `task` names.
    pub fn task(&self, task: Task) -> &MockTask {
        match task {
            Task::First => &self.first,
            Task::Second => &self.second,
        }
    }
}

/// Creates a waker of `task`, or returns `None` if memory runs out.
pub fn waker_of(task: &MockTask) -> Option<Waker> {
    let mut slot = None;
    let source = Source::new();
    task.enter(|cx| {
        let _: Poll<()> = cx.register(&source, &mut slot);
    });
    slot
}
