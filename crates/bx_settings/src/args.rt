ghost use Rattle.std.specs.Prelude.{◌≡◌, ◌↔◌, IfNone, IfSome, IsTrue, map, option_map, string_bytes};
ghost use Rattle.bx_settings.specs.Settings.{config_in, Give, IsAddress, optional_in, plain, PlainSettings, settings_in};

use crate::seed::read_digits;
use crate::settings::{LogFormat, LogLevel, Seed, Settings};
use bx_advice::{BodyLimit, Config, Limit, MAX_SHARDS, Options};
use bx_cut::MAX_MESSAGES;
use bx_message::{count_in, limit_in, number_of, time_in};
use std::alloc::Global;
use std::net::SocketAddr;

/// Parses the positional arguments of `bayeuxd`, in this order:
///
/// - an IP address and a port to listen on
/// - the number of shards: 1 to 64
/// - `timeout`, `interval` and `max_interval`: in milliseconds, up to 32 bits
/// - the seed: 64 hexadecimal digits
/// - the number of connections after which the server ends: 0 for any number
/// - optionally the options: `r` for `ride`, `a` for `anonymous`, `ra` for both, `-` for neither
/// - optionally the number of events that may wait for a session: 1 to 65,536, by default 1,024
///
/// Returns `None` if one is wrong. Numbers are decimal digits only. Other settings are defaults.
pub fn parse_args(alloc: Global, args: &[String]) -> Option<Settings<'_>>
    ensures some { IfSome result (λ s. Give (map string_bytes args.now) (plain s)) }
    ensures none { IfNone result ((s : PlainSettings) → ¬ (Give (map string_bytes args.now) s)) }
{
    match settings_in(alloc, args) {
        Some(settings) => {
            if is_address(settings.listen) {
                Some(settings)
            } else {
                None
            }
        }
        None => None,
    }
}

fn is_address(text: &str) -> bool
    ensures { IsTrue result ↔ IsAddress text.now }
{
    text.parse::<SocketAddr>().is_ok()
}

// Returns the settings that `args` give. The first argument is not checked.
fn settings_in(alloc: Global, args: &[String]) -> Option<Settings<'_>>
    ensures { option_map plain result ≡ settings_in (map string_bytes args.now) }
{
    let [
        listen,
        shards,
        timeout,
        interval,
        max_interval,
        seed,
        connections,
        more @ ..,
    ] = args
    else {
        return None;
    };
    let (options, limit) = optional_in(more)?;
    let config = config_in(
        shards.as_bytes(),
        timeout.as_bytes(),
        interval.as_bytes(),
        max_interval.as_bytes(),
        options,
        limit,
    )?;
    Some(Settings {
        listen: listen.as_str(),
        read_only_listen: None,
        readers_publish: Vec::new(alloc),
        config,
        body: BodyLimit::greatest(),
        messages: MAX_MESSAGES,
        callback_polling: true,
        seed: Seed::FromArguments(read_digits(seed.as_bytes())?),
        connections: number_of(connections.as_bytes())?,
        metrics: None,
        record_file: None,
        record_answers: false,
        record_bytes: usize::MAX,
        until_eof: false,
        log: LogFormat::Text,
        log_level: LogLevel::Info,
    })
}

// Returns the options and the limit of events that `args` give, by default `-` and `1024`.
fn optional_in(args: &[String]) -> Option<(&[u8], &[u8])>
    ensures { option_map (λ o. (o.0.now, o.1.now)) result
        ≡ optional_in (map string_bytes args.now) }
{
    match args {
        [] => Some((b"-", b"1024")),
        [options] => Some((options.as_bytes(), b"1024")),
        [options, limit] => Some((options.as_bytes(), limit.as_bytes())),
        _ => None,
    }
}

// Limits other than `limit` have their default values.
fn config_in(
    shards: &[u8],
    timeout: &[u8],
    interval: &[u8],
    max_interval: &[u8],
    options: &[u8],
    limit: &[u8],
) -> Option<Config>
    ensures { result
        ≡ config_in shards.now timeout.now interval.now max_interval.now options.now limit.now }
{
    let config = Config::new(
        count_in(MAX_SHARDS, shards)?,
        time_in(timeout)?,
        time_in(interval)?,
        time_in(max_interval)?,
    )?;
    config
        .with(Options::read(options)?)
        .with_maximum(Limit::Events, limit_in(Limit::Events, limit)?)
}
