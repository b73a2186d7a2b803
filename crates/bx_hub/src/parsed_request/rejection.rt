ghost use Rattle.std.specs.Prelude.{◌≡◌, ◌≢◌, None, true, false};
ghost use Rattle.bx_hub.specs.declared.fault.PostFault.TheVariants as faults;

use crate::admission::Admission;
use crate::fault::PostFault;
use crate::shard_state::ShardAdvance;
use bx_window::LogId;
use std::fmt;
use std::snapshot::Snapshot;
use std::sync::Wait;

/// Evidence of why a request or a tick was not admitted.
///
/// It is created while admission is locked, and records whether the hub was closed. With `Behind`
/// or `Overrun`, it also records the position of a shard that made the post or tick fail.
///
/// If the request cannot be read or has too many messages, it is created before, and only the fault
/// has a meaning.
#[derive(Drop)]
pub struct Rejection<L: LogId> {
    fault: PostFault,
    closed: Snapshot<bool>,
    lag: Option<ShardAdvance<L>>,
    ghost shut: { fault ≡ faults.Closed → closed.value ≡ true },
    ghost told: { closed.value ≡ true → fault ≡ faults.Closed },
}

impl<L: LogId> Rejection<L> {
    ghost use Rattle.bx_hub.specs.Lags.{IsLagging};

    /// Creates evidence that `admission` failed with `fault`.
    ///
    /// `lag`: with `Behind`, the position of a shard that had not applied the whole oldest batch;
    /// with `Overrun`, that of the overrun shard.
    pub(crate) fn new<R: Wait + Drop>(
        admission: &Admission<L, R>,
        fault: PostFault,
        lag: Option<ShardAdvance<L>>,
    ) -> Rejection<L>
        requires shut { fault ≡ faults.Closed → admission.now.closed ≡ true }
        requires told { admission.now.closed ≡ true → fault ≡ faults.Closed }
        requires lags { IsLagging fault lag admission.now.writer }
        ensures { (result.fault ≡ fault) × (result.lag ≡ lag) × (result.closed.value ≡ admission.now.closed) }
    {
        Rejection {
            fault,
            closed: Snapshot::of(&admission.is_closed()),
            lag,
        }
    }

    /// Creates evidence of a fault that was found before admission was locked.
    pub(super) fn unlocked(fault: PostFault) -> Rejection<L>
        requires { fault ≢ faults.Closed }
        ensures { (result.fault ≡ fault) × (result.lag ≡ None) × (result.closed.value ≡ false) }
    {
        Rejection {
            fault,
            closed: Snapshot::of(&false),
            lag: None,
        }
    }

    /// Returns why the request or tick was not admitted.
    pub fn fault(&self) -> PostFault
        ensures { result ≡ self.now.fault }
    {
        self.fault
    }
}

impl<L: LogId> fmt::Debug for Rejection<L> {
    fn fmt<W: fmt::Write>(&self, f: &mut fmt::Formatter<W>) -> fmt::Result {
        fmt::Debug::fmt(&self.fault, f)
    }
}
