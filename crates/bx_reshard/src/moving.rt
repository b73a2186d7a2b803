ghost use Rattle.std.specs.Prelude.{◌≡◌, ◌≤◌, ℕ, length, map};
ghost use Rattle.bx_connects.specs.Connects.{filing_at};
ghost use Rattle.bx_reshard.specs.Heirs.{AreMoved, SameConnects, SameSessions, answered_with, connect_of, patterns_at, kept_by, kept_of, settled};

use crate::heirs::Heirs;
use bx_advice::ShardCount;
use bx_connects::{Connects, FiledAnswer};
use bx_entry::Placing;
use bx_session::{Answered, Session};
use bx_shard::{Shard, Wakers};
use indexmap::IndexMap;

/// Moves the sessions of an old shard to the new shards in which they are placed.
///
/// Drops a session that is not reserved there.
pub(crate) fn move_sessions<P: Placing>(
    heirs: &mut Heirs,
    mut by_number: IndexMap<u64, Session>,
    placing: &P,
    count: ShardCount,
)
    requires many { length heirs.old.shards.items ≡ count }
    ensures sessions { (k n : ℕ) → kept_of heirs.new.shards.items k n
        ≡ settled (P.place_of placing.now) count k n (kept_by by_number.entries n) (kept_of heirs.old.shards.items k n) }
    ensures patterns { (k n : ℕ) → patterns_at heirs.new.shards.items k n ≡ patterns_at heirs.old.shards.items k n }
    ensures connects { SameConnects heirs.old.shards.items heirs.new.shards.items }
{
    while let Some((number, session)) = by_number.pop() {
        heirs.settle(placing.place(number, count.get()), number, session);
    }
}

/// Moves the filed answers of an old shard to the new shards of their sessions.
///
/// Drops the wakers in `connects`, which wakes their tasks, and an answer to a connect that is not
/// reserved. Moves the wakers of the reserved connects, if any, to `wakers`.
pub(crate) fn move_answers<P: Placing>(
    heirs: &mut Heirs,
    mut connects: Connects,
    placing: &P,
    count: ShardCount,
    wakers: &mut Wakers,
)
    requires many { length heirs.old.shards.items ≡ count }
    ensures connects { (k p : ℕ) → connect_of heirs.new.shards.items k p
        ≡ answered_with (P.place_of placing.now) count k (filing_at connects.filed p) (connect_of heirs.old.shards.items k p) }
    ensures sessions { SameSessions heirs.old.shards.items heirs.new.shards.items }
{
    while let Some((connect, filed)) = connects.pop_filed() {
        let FiledAnswer {
            session,
            place,
            answer,
        } = filed;
        let answered = Answered {
            place: connect,
            answer,
        };
        heirs.file(placing.place(session, count.get()), place, answered, wakers);
    }
}

/// Moves all sessions and filed answers in `shards` into the room reserved in `heirs`.
///
/// Drops the wakers in `shards`, which wakes their tasks.
pub(crate) fn move_all<P: Placing + Drop>(
    heirs: &mut Heirs,
    shards: Vec<Shard<P>>,
    placing: &P,
    count: ShardCount,
    wakers: &mut Wakers,
)
    requires many { length heirs.old.shards.items ≡ count }
    ensures { AreMoved (P.place_of placing.now) count (map (λ s. s.sessions) shards.items) heirs.old.shards.items heirs.new.shards.items }
{
    for shard in shards {
        let (by_number, connects) = shard.into_parts();
        move_sessions(heirs, by_number, placing, count);
        move_answers(heirs, connects, placing, count, wakers);
    }
}
