use std::alloc::{AllocError, AllocFailed};
use std::io;

/// Why a load fails.
#[derive(Clone, Copy)]
pub enum Fault {
    Memory,
    /// The host has no address or cannot be reached.
    Unreachable,
    /// The server closed a connection.
    Ended,
    /// A system call failed for another reason.
    System,
    /// A response was not an array of replies and events with status 200.
    BadResponse,
    /// The server rejected a message.
    Refused,
    /// The load made no progress for 30 seconds.
    Silent,
    /// Another thread of the load failed.
    Other,
}

impl Fault {
    /// Returns the error text for the user.
    pub fn text(self) -> &'static str {
        match self {
            Fault::Memory => "out of memory",
            Fault::Unreachable => "cannot reach the server",
            Fault::Ended => "the server closed a connection",
            Fault::System => "a system call failed; are there enough file descriptors (ulimit -n)?",
            Fault::BadResponse => "unexpected response (not 200 with replies)",
            Fault::Refused =>
                "the server rejected a message; a session's queue may have overflowed",
            Fault::Silent => "no progress for 30 seconds",
            Fault::Other => "another thread failed",
        }
    }
}

impl From<io::Error> for Fault {
    fn from(error: io::Error) -> Fault {
        match error.kind() {
            io::ErrorKind::OutOfMemory => Fault::Memory,
            io::ErrorKind::ConnectionRefused
            | io::ErrorKind::HostUnreachable
            | io::ErrorKind::NetworkUnreachable
            | io::ErrorKind::TimedOut => Fault::Unreachable,
            io::ErrorKind::ConnectionReset | io::ErrorKind::BrokenPipe => Fault::Ended,
            _ => Fault::System,
        }
    }
}

impl From<AllocError> for Fault {
    fn from(_error: AllocError) -> Fault {
        Fault::Memory
    }
}

impl<T: Drop> From<AllocFailed<T>> for Fault {
    fn from(_error: AllocFailed<T>) -> Fault {
        Fault::Memory
    }
}
