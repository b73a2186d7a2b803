//! The record of a hub's list.
ghost use Rattle.std.specs.Prelude.{◌≡◌, ◌<◌, [], length, IfOk, IfErr};

use crate::hub::Hub;
use crate::kind::HubKind;
use crate::recording::{NotRecording, RecordFront};
use bx_record::{RecordFault, TakenText};
use bx_window::Front;
use std::alloc::Global;
use std::sync::Wait;

impl<L: HubKind, R: Wait + Drop> Hub<L, R> {
    /// Starts to record what is appended to the list, which must be empty.
    ///
    /// Returns the front at which the record begins.
    ///
    /// # Errors
    ///
    /// The front of the list, if it is not empty.
    ///
    /// # Blocking
    ///
    /// Locks admission.
    pub fn start_record<W: Wait>(&self, rt: &W, alloc: Global) -> Result<RecordFront<L>, Front<L>>
        ensures started { IfOk result (λ it. it.front ≡ []) }
        ensures refused { IfErr result (λ front. 0 < length front) }
    {
        self.admission.lock(rt).start_record(alloc)
    }

    /// Returns how many bytes of the record wait to be written; 0 without a record.
    ///
    /// # Blocking
    ///
    /// Locks admission.
    pub fn waiting_record_bytes<W: Wait>(&self, rt: &W) -> usize {
        self.admission.lock(rt).waiting_record_bytes()
    }

    /// Takes what waits to be written to the record, and leaves `empty` in its place.
    ///
    /// If a fault ended the record, returns its rest once, with the fault.
    ///
    /// # Errors
    ///
    /// `NotRecording` if nothing is recorded, or if the rest of an ended record was already taken.
    ///
    /// # Blocking
    ///
    /// Locks admission.
    pub fn take_record<W: Wait>(
        &self,
        rt: &W,
        empty: Vec<u8>,
    ) -> Result<TakenText<RecordFront<L>, RecordFault>, NotRecording<L>>
        requires { empty.items ≡ [] }
    {
        let mut admission = self.admission.lock(rt);
        match admission.take_record(empty) {
            Some(taken) => Ok(taken),
            None => Err(NotRecording::new(&*admission)),
        }
    }

    /// Stops recording, drops what waits to be written, and returns evidence of that.
    ///
    /// # Blocking
    ///
    /// Locks admission.
    pub fn stop_record<W: Wait>(&self, rt: &W) -> NotRecording<L> {
        let mut admission = self.admission.lock(rt);
        admission.stop_record();
        NotRecording::new(&*admission)
    }
}
