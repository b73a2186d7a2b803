ghost use Rattle.std.specs.Prelude.{◌≡◌, ◌≢◌, ◌+◌, ◌<◌, ◌≤◌, ◌++◌, [], length, IfErr, OnErr, OnOk};
ghost use Rattle.bx_record.specs.declared.waiting.RecordFault.TheVariants.{Full, Memory, Unrecordable};
ghost use Rattle.bx_record.specs.declared.waiting.TheConstants.{MAX_WAITING_BYTES};
ghost use Rattle.bx_record.specs.Faults.{fault_reason};

use std::alloc::{AllocError, Global};
use std::marker::Model;
use std::mem;

/// The most bytes that may wait to be written: 64 MiB. Policy of this server.
pub const MAX_WAITING_BYTES: usize = 64 << 20;

/// Why a record, or its lines of answers, ended.
#[derive(Clone, Copy, Debug, PartialEq, Eq)]
pub enum RecordFault {
    /// More than 64 MiB would wait.
    Full,
    /// No line can express a request, since its documents need a body that is too large.
    Unrecordable,
    Memory,
}

impl RecordFault {
    /// Returns the reason in words. Policy of this server.
    pub fn reason(self) -> &'static str
        ensures { result.now ≡ fault_reason self }
    {
        match self {
            RecordFault::Full => "more than 64 MiB waiting to be written",
            RecordFault::Unrecordable => "a request is too large for a record line",
            RecordFault::Memory => "out of memory",
        }
    }
}

impl From<AllocError> for RecordFault {
    ghost from_gives = { λ _ fault. fault ≡ Memory };

    fn from(_error: AllocError) -> RecordFault {
        RecordFault::Memory
    }
}

/// A buffer of at most [`MAX_WAITING_BYTES`] bytes that wait to be written.
#[derive(Drop)]
pub struct WaitingBytes {
    bytes: Vec<u8>,
}

impl Model for WaitingBytes {
    ghost use Rattle.std.specs.Prelude.{◌≤◌, List, ℕ, length};
    ghost use Rattle.bx_record.specs.declared.waiting.TheConstants.{MAX_WAITING_BYTES};

    ghost Value = { List ℕ };

    ghost view = { λ w. w.bytes.items };

    ghost invariant = { λ w. length w.bytes.items ≤ MAX_WAITING_BYTES };
}

impl WaitingBytes {
    /// Creates an empty buffer.
    pub fn new(alloc: Global) -> WaitingBytes
        ensures { result ≡ [] }
    {
        WaitingBytes {
            bytes: Vec::new(alloc),
        }
    }

    /// Returns the number of bytes.
    pub fn len(&self) -> usize
        ensures count { result ≡ length self.now }
        ensures bound { result ≤ MAX_WAITING_BYTES }
    {
        self.bytes.len()
    }

    /// Appends all of `bytes`, or no bytes on error.
    ///
    /// # Errors
    ///
    /// `Full` if more than [`MAX_WAITING_BYTES`] bytes would wait, or `Memory`.
    pub fn push(&mut self, bytes: &[u8]) -> Result<(), RecordFault>
        ensures added { OnOk result (self.new ≡ self.old ++ bytes.now) }
        ensures same { OnErr result (self.new ≡ self.old) }
        ensures full { IfErr result (λ fault. fault ≡ Full → MAX_WAITING_BYTES < length self.old + length bytes.now) }
        ensures sayable { IfErr result (λ fault. fault ≢ Unrecordable) }
    {
        if bytes.len() > MAX_WAITING_BYTES - self.bytes.len() {
            return Err(RecordFault::Full);
        }
        self.bytes.extend_from_slice(bytes)?;
        Ok(())
    }

    /// Takes all bytes, and leaves the empty buffer `empty`. Does not allocate or copy.
    pub fn take(&mut self, empty: Vec<u8>) -> Vec<u8>
        requires { empty.items ≡ [] }
        ensures taken { result.items ≡ self.old }
        ensures emptied { self.new ≡ [] }
        ensures bound { length result.items ≤ MAX_WAITING_BYTES }
    {
        mem::replace(&mut self.bytes, empty)
    }
}
