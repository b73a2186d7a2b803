ghost use Rattle.std.specs.Prelude.{◌≡◌};

use crate::admission::Admission;
use bx_window::{Front, LogId};
use std::sync::{Mutex, MutexGuard, Wait};

/// The lock that guards admission, and the front of the list when it was created.
#[derive(Drop)]
pub(crate) struct AdmissionLock<L: LogId, R: Wait + Drop> {
    admission: Mutex<Admission<L, R>>,
    start: Front<L>,
}

impl<L: LogId, R: Wait + Drop> AdmissionLock<L, R> {
    pub(crate) fn new(admission: Admission<L, R>) -> AdmissionLock<L, R>
        ensures { result.start ≡ admission.writer }
    {
        let start = admission.writer.tell();
        AdmissionLock {
            admission: Mutex::new(admission),
            start,
        }
    }

    pub(crate) fn lock<W: Wait>(&self, rt: &W) -> MutexGuard<'_, Admission<L, R>> {
        self.admission.lock(rt)
    }

    pub(crate) fn start(&self) -> Front<L>
        ensures { result ≡ self.now.start }
    {
        self.start.again()
    }
}
