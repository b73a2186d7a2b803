ghost use Rattle.std.specs.Prelude.{◌≡◌, ◌≤◌, ◌<◌, ℕ, true, false, None, if◌then◌else◌, OnOk, OnErr, IfSome, IfNone};
ghost use Rattle.bx_connects.specs.Deadlines.{is_noted, same_hold};

use std::alloc::{AllocError, Global};
use std::collections::BTreeSet;

/// A hold: its deadline in milliseconds since the server started, its connect's place, its session.
pub(crate) type Hold = (u64, u64, u64);

/// The holds of a shard, by deadline.
///
/// A tick examines only the holds that it ends, and at most one more.
#[derive(Drop)]
pub(crate) struct Deadlines {
    holds: BTreeSet<Hold>,
}

impl Deadlines {
    pub(crate) fn new(alloc: Global) -> Deadlines
        ensures { (q : ℕ × ℕ × ℕ) → is_noted result q ≡ false }
    {
        Deadlines {
            holds: BTreeSet::new(alloc),
        }
    }

    /// Adds `hold`, unless it is there already.
    pub(crate) fn note(&mut self, hold: Hold) -> Result<(), AllocError>
        ensures ok { OnOk result ((q : ℕ × ℕ × ℕ) → is_noted self.new q
            ≡ (if same_hold hold q then true else is_noted self.old q)) }
        ensures err { OnErr result ((q : ℕ × ℕ × ℕ) → is_noted self.new q ≡ is_noted self.old q) }
    {
        self.holds.insert(hold)?;
        Ok(())
    }

    pub(crate) fn forget(&mut self, hold: Hold)
        ensures { (q : ℕ × ℕ × ℕ) → is_noted self.new q
            ≡ (if same_hold hold q then false else is_noted self.old q) }
    {
        self.holds.remove(&hold);
    }

    /// Returns the first hold, if its deadline is at or before `moment`.
    pub(crate) fn first_due(&self, moment: u64) -> Option<Hold>
        ensures due { IfSome result (λ hold. hold.0 ≤ moment) }
        ensures noted { IfSome result (λ hold. is_noted self.now hold ≡ true) }
        ensures none { IfNone result ((q : ℕ × ℕ × ℕ) → q.0 ≤ moment → is_noted self.now q ≡ false) }
    {
        let hold = *self.holds.first()?;
        let (deadline, _, _) = hold;
        if deadline <= moment { Some(hold) } else { None }
    }
}
