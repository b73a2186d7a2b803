ghost use Rattle.std.specs.Prelude.{◌≡◌, ◌≢◌};
ghost use Rattle.std.specs.IoError.{error_kind};
ghost use Rattle.bx_script.specs.declared.error.ScriptFault.TheVariants.{Memory};

use std::alloc::{AllocError, AllocFailed};
use std::io;
use std::io::ErrorKind;
use thiserror::Error;

/// Why a script cannot be read, or its results cannot be written.
#[derive(Clone, Copy, Debug, PartialEq, Eq, Error)]
pub enum ScriptFault {
    #[error("out of memory")]
    Memory,
    /// A read failed, or there were [`MAX_READS`](crate::MAX_READS) reads.
    #[error("read fault")]
    Read,
    /// A write failed, wrote nothing, or was interrupted more than
    /// [`MAX_INTERRUPTIONS`](crate::MAX_INTERRUPTIONS) times.
    #[error("write fault")]
    Write,
}

impl ScriptFault {
    /// Converts `OutOfMemory` to `Memory`, and any other error to `Read`.
    pub fn of_read(error: &io::Error) -> ScriptFault
        ensures memory { error_kind error.now ≡ ErrorKind.OutOfMemory → result ≡ ScriptFault.Memory }
        ensures other { error_kind error.now ≢ ErrorKind.OutOfMemory → result ≡ ScriptFault.Read }
    {
        match error.kind() {
            ErrorKind::OutOfMemory => ScriptFault::Memory,
            _ => ScriptFault::Read,
        }
    }

    /// Converts `OutOfMemory` to `Memory`, and any other error to `Write`.
    pub fn of_write(error: &io::Error) -> ScriptFault
        ensures memory { error_kind error.now ≡ ErrorKind.OutOfMemory → result ≡ ScriptFault.Memory }
        ensures other { error_kind error.now ≢ ErrorKind.OutOfMemory → result ≡ ScriptFault.Write }
    {
        match error.kind() {
            ErrorKind::OutOfMemory => ScriptFault::Memory,
            _ => ScriptFault::Write,
        }
    }
}

impl From<AllocError> for ScriptFault {
    ghost from_gives = { λ _ e. e ≡ Memory };

    fn from(_refused: AllocError) -> ScriptFault {
        ScriptFault::Memory
    }
}

impl<T: Drop> From<AllocFailed<T>> for ScriptFault {
    ghost from_gives = { λ _ e. e ≡ Memory };

    fn from(_refused: AllocFailed<T>) -> ScriptFault {
        ScriptFault::Memory
    }
}
