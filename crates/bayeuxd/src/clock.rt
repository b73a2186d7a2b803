ghost use Rattle.std.specs.Prelude.{◌≡◌, ◌-◌, ◌/◌, ◌^◌, min};
ghost use Rattle.std.specs.Time.{instant_nanos};
ghost use Rattle.bayeuxd.specs.Nonces.{next_nonce};

use bx_service::{Clock, Nonces};
use rand_chacha::ChaCha20Rng;
use rand_core::Rng;
use std::alloc::Global;
use std::sync::{Arc, Mutex, Wait};
use std::time;
use std::time::Instant;

/// A clock that counts milliseconds from `start`, and returns `u64::MAX` if time cannot be read.
#[derive(Clone, Copy)]
pub struct SinceStart<R> {
    pub rt: R,
    /// When serving started.
    pub start: Instant,
}

impl<R: time::Clock> Clock for SinceStart<R> {
    fn now(&self) -> u64 {
        match Instant::now(&self.rt) {
            Ok(now) => millis_between(self.start, now),
            // A moment that the hub rejects.
            Err(_) => u64::MAX,
        }
    }
}

// Returns the milliseconds from `start` to `now`, at most `u64::MAX`, or 0 if `now` is earlier.
fn millis_between(start: Instant, now: Instant) -> u64
    ensures { result ≡ min ((instant_nanos now - instant_nanos start) / 1_000_000) (2 ^ 64 - 1) }
{
    u64::try_from(now.duration_since(start).as_millis()).unwrap_or(u64::MAX)
}

/// A source of nonces: a generator that all connections of both listeners share.
#[derive(Drop)]
pub struct RandomNonces<R> {
    pub rt: R,
    pub generator: Arc<Mutex<ChaCha20Rng>, Global>,
}

impl<R: Wait> Nonces for RandomNonces<R> {
    fn next(&self) -> u128 {
        draw(&mut *self.generator.lock(&self.rt))
    }
}

// The first word is the upper half.
fn draw<G: Rng>(generator: &mut G) -> u128
    ensures { (result, G.stream generator.new) ≡ next_nonce (G.stream generator.old) }
{
    let upper = generator.next_u64();
    let lower = generator.next_u64();
    ((upper as u128) << 64) | lower as u128
}
