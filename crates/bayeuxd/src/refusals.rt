//! Log lines for requests that are not answered.
use bx_service::{Observer, ServiceEvent};
use log::{Log, warn};
use std::alloc::{AllocError, Global};
use std::mem;
use std::sync::{Arc, Mutex, Wait};

const NO_RESPONSE: &str = "out of memory for a response";

type Refusals = (&'static str, u64);

/// An observer that counts and logs a listener's unanswered requests, by reason.
#[derive(Drop)]
pub struct RefusalLogger<R> {
    rt: R,
    alloc: Global,
    // The listener's name in the log.
    listener: &'static str,
    // The requests since the last log, by reason.
    refusals: Mutex<Vec<Refusals>>,
}

impl<R: Wait + Log> RefusalLogger<R> {
    /// Creates an observer that has not seen a request. `listener`: its name in the log.
    pub fn new(rt: R, alloc: Global, listener: &'static str) -> RefusalLogger<R> {
        RefusalLogger {
            rt,
            alloc,
            listener,
            refusals: Mutex::new(Vec::new(alloc)),
        }
    }

    /// Logs each reason that has occurred since the last call, with its count since then.
    ///
    /// # Blocking
    ///
    /// Waits until no request is being counted.
    pub fn log_new(&self) {
        let none = Vec::new(self.alloc);
        let refusals = mem::replace(&mut *self.refusals.lock(&self.rt), none);
        let listener = self.listener;
        for (reason, count) in refusals {
            warn!(&self.rt; target: "bayeuxd", reason, listener, count; "requests failed");
        }
    }

    // Counts a request that was not answered, unless memory runs out.
    fn count(&self, reason: &'static str) {
        let mut refusals = self.refusals.lock(&self.rt);
        match refusals.iter_mut().find(|it| it.0 == reason) {
            Some(counted) => counted.1 = counted.1.saturating_add(1),
            None => {
                let _ = refusals.push((reason, 1));
            }
        }
    }
}

/// The loggers of both listeners.
#[derive(Drop)]
pub struct ListenerRefusals<R> {
    pub main: Arc<RefusalLogger<R>, Global>,
    pub read_only: Arc<RefusalLogger<R>, Global>,
}

impl<R: Wait + Log + Copy> ListenerRefusals<R> {
    /// Creates loggers that have not seen a request.
    pub fn new(rt: R, alloc: Global) -> Result<ListenerRefusals<R>, AllocError> {
        Ok(ListenerRefusals {
            main: Arc::new(alloc, RefusalLogger::new(rt, alloc, "main"))?,
            read_only: Arc::new(alloc, RefusalLogger::new(rt, alloc, "read-only"))?,
        })
    }

    /// Returns handles to the same loggers.
    pub fn try_clone(&self) -> Result<ListenerRefusals<R>, AllocError> {
        Ok(ListenerRefusals {
            main: Arc::try_clone(&self.main)?,
            read_only: Arc::try_clone(&self.read_only)?,
        })
    }
}

impl<R: Wait + Log> ListenerRefusals<R> {
    /// Logs what has occurred since the last call at both listeners.
    ///
    /// # Blocking
    ///
    /// As [`RefusalLogger::log_new`].
    pub fn log_new(&self) {
        self.main.log_new();
        self.read_only.log_new();
    }
}

impl<R: Wait + Log + Drop> Observer for RefusalLogger<R> {
    fn see(&self, event: ServiceEvent<'_>) {
        match event {
            ServiceEvent::Refused(error) => self.count(error.reason()),
            ServiceEvent::Responded(None) => self.count(NO_RESPONSE),
            _ => {}
        }
    }
}
