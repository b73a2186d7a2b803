ghost use Rattle.std.specs.Prelude.{◌≡◌, ◌≤◌, ℕ, nat_eq, not, ◌&&◌, ◌||◌, length, map, is_some, if◌then◌else◌, OnOk, IfOk};
ghost use Rattle.std.specs.List.{list_any};
ghost use Rattle.std.specs.Option.{option_or};
ghost use Rattle.bx_connects.specs.Connects.{AreApart, connect_at, known_as};
ghost use Rattle.bx_reshard.specs.Heirs.{AreAllClean, AreLent, SameConnects, SameSessions, config_of, connect_of, lent_as, patterns_at, kept_of};
ghost use Rattle.bx_shard.specs.Sessions.{patterns_in, kept_in};

use crate::heirs::Heirs;
use bx_advice::{Config, ShardCount};
use bx_connects::Connects;
use bx_entry::Placing;
use bx_shard::{Sessions, Shard};
use std::alloc::{AllocError, Global};

/// Reserves in `heirs` the sessions `numbers` of the old shard `old`, with their patterns.
pub(crate) fn lend_sessions<P: Placing>(
    alloc: Global,
    heirs: &mut Heirs,
    old: &Sessions,
    numbers: &[u64],
    placing: &P,
    count: ShardCount,
) -> Result<(), AllocError>
    requires many { length heirs.old.shards.items ≡ count }
    requires clean { AreAllClean heirs.old.shards.items }
    ensures sessions { OnOk result ((k n : ℕ) → is_some (kept_of heirs.new.shards.items k n)
        ≡ ((nat_eq (P.place_of placing.now n count) k && list_any (nat_eq n) numbers.now) || is_some (kept_of heirs.old.shards.items k n))) }
    ensures patterns { OnOk result ((k n : ℕ) → patterns_at heirs.new.shards.items k n
        ≡ (if (nat_eq (P.place_of placing.now n count) k && list_any (nat_eq n) numbers.now)
        && not (is_some (kept_of heirs.old.shards.items k n)) then patterns_in old.now n
        else patterns_at heirs.old.shards.items k n)) }
    ensures clean { OnOk result (AreAllClean heirs.new.shards.items) }
    ensures connects { OnOk result (SameConnects heirs.old.shards.items heirs.new.shards.items) }
{
    for number in numbers {
        let slot = placing.place(*number, count.get());
        heirs.reserve_session(alloc, slot, *number, old)?;
    }
    Ok(())
}

/// Reserves in `heirs` the connects of `old`, held or answered, that are at `places`.
pub(crate) fn lend_connects<P: Placing>(
    heirs: &mut Heirs,
    old: &Connects,
    places: &[u64],
    placing: &P,
    count: ShardCount,
) -> Result<(), AllocError>
    requires many { length heirs.old.shards.items ≡ count }
    ensures connects { OnOk result ((k p : ℕ) → connect_of heirs.new.shards.items k p
        ≡ (if list_any (nat_eq p) places.now
        then option_or (connect_of heirs.old.shards.items k p) (lent_as (P.place_of placing.now) count k (known_as (connect_at old.now p)))
        else connect_of heirs.old.shards.items k p)) }
    ensures sessions { OnOk result (SameSessions heirs.old.shards.items heirs.new.shards.items) }
{
    for place in places {
        if let Some((session, deadline)) = old.known(*place) {
            let slot = placing.place(session, count.get());
            heirs.reserve_connect(slot, *place, session, deadline)?;
        }
    }
    Ok(())
}

/// Reserves in `heirs` all sessions and connects of the old shard `old`.
pub(crate) fn lend_from<P: Placing>(
    alloc: Global,
    heirs: &mut Heirs,
    old: &Sessions,
    placing: &P,
    count: ShardCount,
) -> Result<(), AllocError>
    requires many { length heirs.old.shards.items ≡ count }
    requires clean { AreAllClean heirs.old.shards.items }
    ensures sessions { OnOk result ((k n : ℕ) → is_some (kept_of heirs.new.shards.items k n)
        ≡ ((nat_eq (P.place_of placing.now n count) k && is_some (kept_in old.now n)) || is_some (kept_of heirs.old.shards.items k n))) }
    ensures patterns { OnOk result ((k n : ℕ) → patterns_at heirs.new.shards.items k n
        ≡ (if (nat_eq (P.place_of placing.now n count) k && is_some (kept_in old.now n))
        && not (is_some (kept_of heirs.old.shards.items k n)) then patterns_in old.now n
        else patterns_at heirs.old.shards.items k n)) }
    ensures connects { OnOk result ((k p : ℕ) → connect_of heirs.new.shards.items k p
        ≡ option_or (connect_of heirs.old.shards.items k p) (lent_as (P.place_of placing.now) count k (known_as (connect_at old.now.connects p)))) }
    ensures clean { OnOk result (AreAllClean heirs.new.shards.items) }
    ensures many { OnOk result (length heirs.new.shards.items ≡ count) }
    ensures configs { OnOk result ((k : ℕ) → config_of heirs.new.shards.items k ≡ config_of heirs.old.shards.items k) }
    ensures apart { OnOk result (AreApart old.now.connects.held old.now.connects.filed) }
{
    lend_sessions(alloc, heirs, old, old.numbers(), placing, count)?;
    let connects = old.connects();
    lend_connects(heirs, connects, connects.held_places(), placing, count)?;
    lend_connects(heirs, connects, connects.filed_places(), placing, count)
}

/// Reserves all sessions and connects of the old `shards` in `count` new shards.
///
/// Each is reserved in the shard that `placing` chooses for its session.
pub(crate) fn lend_all<P: Placing>(
    alloc: Global,
    config: Config,
    shards: &[Shard<P>],
    placing: &P,
    count: ShardCount,
) -> Result<Heirs, AllocError>
    ensures { IfOk result (λ heirs. AreLent (P.place_of placing.now) count (map (λ s. s.sessions) shards.now) config heirs.shards.items) }
{
    let mut heirs = Heirs::new(alloc, config, count.get())?;
    for shard in shards {
        lend_from(alloc, &mut heirs, shard.sessions(), placing, count)?;
    }
    Ok(heirs)
}
