ghost use Rattle.std.specs.Prelude.{◌≡◌, ◌∷◌, ◌++◌, IfOk, OnOk, decimal, map, option_map};
ghost use Rattle.bx_advice.specs.Limits.{limit_name};
ghost use Rattle.bx_record.specs.Configs.{config_in, config_text, first_in, limit_word, limits_in, options_at, options_word, setting, shards_in, time_at, value_in};

use bx_advice::{Config, Limit, Options};
use bx_message::{limit_in, number_of, time_in};
use itoa::Buffer;
use std::alloc::{AllocError, Global};

/// Formats `config` as the first line of a record.
///
/// It has words `name=value`, separated by single spaces, in this order:
///
/// - `shards`: the number of shards
/// - `timeout`, `interval` and `max_interval`: times in milliseconds
/// - `options`: `-`, `r` (ride), `a` (anonymous) or `ra`
/// - each limit of [`Limit::ALL`], or `-` if it is beyond the limit's greatest value
pub fn config_text(alloc: Global, config: &Config) -> Result<Vec<u8>, AllocError>
    ensures { IfOk result (λ text. text.items ≡ config_text config.now) }
{
    let mut text = Vec::with_capacity(alloc, 128)?;
    text.extend_from_slice(b"shards=")?;
    push_number(&mut text, config.shards as u64)?;
    push_time(&mut text, b"timeout", config.timeout)?;
    push_time(&mut text, b"interval", config.interval)?;
    push_time(&mut text, b"max_interval", config.max_interval)?;
    push_setting(
        &mut text,
        b"options",
        options_word(config.ride, config.anonymous),
    )?;
    for limit in &Limit::ALL {
        push_limit(&mut text, *limit, config.limits.get(*limit))?;
    }
    text.push(b'\n')?;
    Ok(text)
}

fn options_word(ride: bool, anonymous: bool) -> &'static [u8]
    ensures { result.now ≡ options_word ride anonymous }
{
    match (ride, anonymous) {
        (false, false) => b"-",
        (true, false) => b"r",
        (false, true) => b"a",
        (true, true) => b"ra",
    }
}

fn push_limit(text: &mut Vec<u8>, limit: Limit, n: usize) -> Result<(), AllocError>
    ensures { OnOk result (text.new.items ≡ text.old.items ++ 32 ∷ setting (limit_name limit) (limit_word limit n)) }
{
    let name = limit.name().as_bytes();
    if n <= limit.greatest() {
        push_setting(text, name, b"")?;
        push_number(text, n as u64)
    } else {
        push_setting(text, name, b"-")
    }
}

fn push_time(text: &mut Vec<u8>, name: &[u8], time: u32) -> Result<(), AllocError>
    ensures { OnOk result (text.new.items ≡ text.old.items ++ 32 ∷ setting name.now (decimal time)) }
{
    push_setting(text, name, b"")?;
    push_number(text, u64::from(time))
}

fn push_setting(text: &mut Vec<u8>, name: &[u8], value: &[u8]) -> Result<(), AllocError>
    ensures { OnOk result (text.new.items ≡ text.old.items ++ 32 ∷ setting name.now value.now) }
{
    text.push(b' ')?;
    text.extend_from_slice(name)?;
    text.push(b'=')?;
    text.extend_from_slice(value)
}

fn push_number(text: &mut Vec<u8>, number: u64) -> Result<(), AllocError>
    ensures { OnOk result (text.new.items ≡ text.old.items ++ decimal number) }
{
    let mut buffer = Buffer::new();
    text.extend_from_slice(buffer.format(number).as_bytes())
}

/// Parses the words of the first line of a record, as [`config_text`] describes them.
pub fn read_config(words: &[&[u8]]) -> Option<Config>
    ensures { result ≡ config_in (map (λ word. word.now) words.now) }
{
    match words {
        [
            shards,
            timeout,
            interval,
            max_interval,
            options,
            limits @ ..,
        ] => {
            let config = read_first(shards, timeout, interval, max_interval, options)?;
            read_limits(config, &Limit::ALL, limits)
        }
        _ => None,
    }
}

fn read_first(
    shards: &[u8],
    timeout: &[u8],
    interval: &[u8],
    max_interval: &[u8],
    options: &[u8],
) -> Option<Config>
    ensures { result ≡ first_in shards.now timeout.now interval.now max_interval.now options.now }
{
    let shards = read_shards(shards)?;
    let timeout = read_time(b"timeout", timeout)?;
    let interval = read_time(b"interval", interval)?;
    let max_interval = read_time(b"max_interval", max_interval)?;
    let options = read_options(options)?;
    Some(Config::new(shards, timeout, interval, max_interval)?.with(options))
}

fn read_shards(word: &[u8]) -> Option<usize>
    ensures { result ≡ shards_in word.now }
{
    usize::try_from(number_of(value_in(b"shards", word)?)?).ok()
}

fn read_time(name: &[u8], word: &[u8]) -> Option<u32>
    ensures { result ≡ time_at name.now word.now }
{
    time_in(value_in(name, word)?)
}

fn read_options(word: &[u8]) -> Option<Options>
    ensures { result ≡ options_at word.now }
{
    Options::read(value_in(b"options", word)?)
}

// Sets `limits` to the values in `words`, one for each.
fn read_limits(config: Config, limits: &[Limit], words: &[&[u8]]) -> Option<Config>
    ensures { result ≡ limits_in limits.now (map (λ word. word.now) words.now) config }
{
    match limits {
        [] if words.is_empty() => Some(config),
        [] => None,
        [limit, limits @ ..] => {
            let [word, words @ ..] = words else {
                return None;
            };
            let value = value_in(limit.name().as_bytes(), word)?;
            let config = config.with_maximum(*limit, limit_in(*limit, value)?)?;
            read_limits(config, limits, words)
        }
    }
}

// Returns the value in `word` if that is `name=value`.
fn value_in<'a>(name: &[u8], word: &'a [u8]) -> Option<&'a [u8]>
    ensures { option_map (λ value. value.now) result ≡ value_in name.now word.now }
{
    word.strip_prefix(name)?.strip_prefix(b"=")
}
