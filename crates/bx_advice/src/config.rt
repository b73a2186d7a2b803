ghost use Rattle.std.specs.Prelude.{◌≤◌};
ghost use Rattle.bx_advice.specs.declared.limit.TheConstants.{MAX_SHARDS};

use crate::count::ShardCount;
use crate::limit::{Limit, Limits, STANDARD_LIMITS};
use crate::options::Options;

/// The configuration of a server. Times are in milliseconds.
#[derive(Clone, Copy, Debug)]
pub struct Config {
    /// From 1 to [`MAX_SHARDS`](crate::MAX_SHARDS).
    pub shards: usize,
    /// The maximum hold of a connect, which is also the advised timeout.
    pub timeout: u32,
    /// The advised time between connects.
    pub interval: u32,
    /// How long a session lives after its last accepted message or, if later, its last hold's
    /// deadline.
    pub max_interval: u32,
    pub limits: Limits,
    /// Whether the last reply of a request may also carry the session's waiting events.
    ///
    /// The last message must be a subscription, an unsubscription or a publish. All messages must
    /// be accepted and come from one session, which does not use acknowledgements.
    pub ride: bool,
    /// Whether a publish without a client id, and so without a session, is accepted.
    pub anonymous: bool,
    pub ghost some_shard: { 1 ≤ shards },
    pub ghost shards_in_range: { shards ≤ MAX_SHARDS },
}

impl Config {
    ghost use Rattle.std.specs.Prelude.{◌≡◌, ◌≤◌, ◌↔◌, IsSome, IfSome};
    ghost use Rattle.bx_advice.specs.Configs.{new_config, with_maximum, with_options};

    /// Creates a configuration with the limits [`STANDARD_LIMITS`] and without options.
    ///
    /// Returns `None` if `shards` is not from 1 to [`MAX_SHARDS`](crate::MAX_SHARDS).
    ///
    /// # Examples
    ///
    /// ```
    /// let config = Config::new(4, 30_000, 0, 10_000).ok_or("shards: 1 to 64")?;
    /// assert_eq!(rt; config.shards, 4);
    /// assert_eq!(rt; config.timeout, 30_000);
    /// assert!(rt; Config::new(65, 30_000, 0, 10_000).is_none());
    /// ```
    pub fn new(shards: usize, timeout: u32, interval: u32, max_interval: u32) -> Option<Config>
        ensures { result ≡ new_config shards timeout interval max_interval }
    {
        let shards = ShardCount::new(shards)?;
        Some(Config {
            shards: shards.get(),
            timeout,
            interval,
            max_interval,
            limits: STANDARD_LIMITS,
            ride: false,
            anonymous: false,
        })
    }

    /// Returns the configuration with `ride` and `anonymous` set as in `options`.
    pub fn with(self, options: Options) -> Config
        ensures { result ≡ with_options options self }
    {
        let mut config = self;
        config.ride = options.ride;
        config.anonymous = options.anonymous;
        config
    }

    /// Returns the configuration with `limit` set to `n`.
    ///
    /// Returns `None` if `n` is neither the limit's default nor from 1 to its greatest value.
    pub fn with_maximum(self, limit: Limit, n: usize) -> Option<Config>
        ensures { result ≡ with_maximum limit n self }
    {
        if !limit.accepts(n) {
            return None;
        }
        let mut config = self;
        config.limits.set(limit, n);
        Some(config)
    }

    /// Returns the configuration with [`Limits::events`] set to `events`.
    ///
    /// Returns `None` if `events` is not from 1 to 65,536.
    pub fn with_limit(self, events: u32) -> Option<Config>
        ensures valid { IsSome result ↔ ((1 ≤ events) × (events ≤ 65536)) }
        ensures limit { IfSome result (λ c. c ≡ record self { limits = record self.limits { events = events } }) }
    {
        self.with_maximum(Limit::Events, events as usize)
    }
}

#[cfg(test)]
mod tests {
    use super::*;
    use crate::limit::{BODY_LIMIT, MAX_ENTRIES, MAX_MOMENT, MAX_SHARDS, MAX_WORKERS};
    use std::test::Fail;

    #[test]
    fn shards_are_1_to_64(rt: HostRuntime) -> Result<(), Fail> {
        for (shards, is_valid) in [(0, false), (1, true), (64, true), (65, false)] {
            let config = Config::new(shards, 30_000, 0, 10_000);
            assert_eq!(rt; config.is_some(), is_valid, "{shards} shards");
        }
        Ok(())
    }

    #[test]
    fn limits_are_the_documented_ones(rt: HostRuntime) -> Result<(), Fail> {
        for (limit, name, greatest, standard) in [
            (
                Limit::Bytes,
                "bytes",
                4_294_967_295,
                4_611_686_018_427_387_904,
            ),
            (Limit::Sessions, "sessions", 65_536, 65_536),
            (Limit::Patterns, "patterns", 1_024, 1_024),
            (Limit::Events, "limit", 65_536, 1_024),
        ] {
            assert_eq!(rt; limit.name(), name);
            assert_eq!(rt; limit.greatest(), greatest, "{name}");
            assert_eq!(rt; limit.standard(), standard, "{name}");
        }
        for (name, limit, documented) in [
            ("bytes of a body", BODY_LIMIT as u64, 1_048_576),
            ("shards", MAX_SHARDS as u64, 64),
            ("workers", MAX_WORKERS as u64, 16),
            ("moments", MAX_MOMENT, 4_611_686_018_427_387_904),
            ("places", MAX_ENTRIES, 4_611_686_018_427_387_904),
            ("events of a batch", STANDARD_LIMITS.batch as u64, 256),
            ("texts of a subscription", STANDARD_LIMITS.texts as u64, 64),
        ] {
            assert_eq!(rt; limit, documented, "{name}");
        }
        Ok(())
    }
}
