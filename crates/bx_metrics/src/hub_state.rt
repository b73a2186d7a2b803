ghost use Rattle.std.specs.Prelude.{◌≡◌, ◌-◌, ◌^◌, min};
ghost use Rattle.bx_hub.specs.Faults.{count_of};

use crate::counts::Counts;
use crate::metric::Metric;
use bx_hub::{Lagging, Survey};

impl Counts {
    /// Counts the appended tick of `moment`, and records how many shards have not applied it,
    /// `behind`.
    pub fn add_tick(&self, moment: u64, behind: Lagging) {
        self.add(Metric::Ticks, 1);
        self.set_last_tick(moment);
        self.set(Metric::ShardsBehind, shards_in(behind));
    }

    /// Records the state of the list and the sessions.
    pub fn set_survey(&self, survey: Survey) {
        let Survey {
            entries,
            live,
            opened,
            batches,
        } = survey;
        self.set(Metric::Entries, entries);
        self.set(Metric::Sessions, live as u64);
        self.set(Metric::OpenedSessions, opened);
        self.set(Metric::Batches, batches as u64);
    }
}

fn shards_in(behind: Lagging) -> u64
    ensures { result ≡ min (count_of behind) (2 ^ 64 - 1) }
{
    let Lagging {
        memory,
        overrun,
        paused,
        closed,
        misplaced,
    } = behind;
    let mut shards = memory as u64;
    shards = shards.saturating_add(overrun as u64);
    shards = shards.saturating_add(paused as u64);
    shards = shards.saturating_add(closed as u64);
    shards.saturating_add(misplaced as u64)
}
