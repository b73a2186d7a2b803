//! The error of a test run in which an allocation fails: why the run did not end as expected.
use bx_calls::Refused;
use std::alloc::{AllocError, AllocFailed};

/// Why a run does not end as expected.
#[derive(Clone, Copy, Debug)]
pub enum Unlike {
    /// Memory ran out in a call that is not retried, for example one that prepares another.
    Memory,
    /// A call, or its second attempt, had another result than expected.
    Wrong(&'static str),
}

impl From<AllocError> for Unlike {
    fn from(_error: AllocError) -> Unlike {
        Unlike::Memory
    }
}

impl<T: Drop> From<AllocFailed<T>> for Unlike {
    fn from(_refused: AllocFailed<T>) -> Unlike {
        Unlike::Memory
    }
}

impl From<Refused> for Unlike {
    fn from(_refused: Refused) -> Unlike {
        Unlike::Memory
    }
}

/// Checks that `is_right` is `true`.
///
/// # Errors
///
/// `Wrong` with `what` if it is `false`.
pub fn check(is_right: bool, what: &'static str) -> Result<(), Unlike> {
    if is_right {
        Ok(())
    } else {
        Err(Unlike::Wrong(what))
    }
}
