ghost use Rattle.std.specs.Prelude.{◌≡◌, map, option_map};
ghost use Rattle.bx_advice.specs.Limits.{limit_name};
ghost use Rattle.bx_message.specs.Numbers.{count_in};
ghost use Rattle.bx_replay.specs.Arguments.{after_named, arguments_in, given, given_config, is_named, named_in, optional_in, positional_in, seven_in, with_named, with_word};

use crate::argument_error::ArgumentError;
use bx_advice::{Config, Limit, MAX_SHARDS, MAX_WORKERS, Options, WorkerCount};
use bx_message::{count_in, limit_in, time_in};

/// The limits that have a name before the positional arguments, in their order.
pub const NAMED: [Limit; 3] = [Limit::Bytes, Limit::Sessions, Limit::Patterns];

/// The configuration of a replay and its number of workers.
#[derive(Clone, Copy)]
pub struct Arguments {
    pub config: Config,
    pub workers: WorkerCount,
}

impl Arguments {
    /// Parses the arguments of a replay.
    ///
    /// Limits come first, in this order; each may be missing:
    ///
    /// - `--bytes N`: bytes of a session's waiting events, 1 to 4,294,967,295, or `-` for no limit
    /// - `--sessions N`: live sessions, 1 to 65,536
    /// - `--patterns N`: active patterns of a session, 1 to 1,024
    ///
    /// Then come five to seven positional arguments:
    ///
    /// - the number of shards, 1 to 64
    /// - the number of workers, 1 to 16
    /// - the timeout, the interval and the longest interval, in milliseconds, each of 32 bits
    /// - the options, as for [`Options::read`], by default `-`
    /// - the number of events that may wait for a session, 1 to 65,536, by default 1,024
    ///
    /// Numbers are decimal digits only.
    ///
    /// # Errors
    ///
    /// `Count`, then the first wrong positional argument, then the first wrong limit.
    pub fn read(args: &[&[u8]]) -> Result<Arguments, ArgumentError>
        ensures { given result ≡ arguments_in (map (λ arg. arg.now) args.now) }
    {
        let arguments = Arguments::parse_positional(after_named(&NAMED, args))?;
        let config = with_named(arguments.config, &NAMED, args)?;
        Ok(Arguments {
            config,
            workers: arguments.workers,
        })
    }

    // Limits except that of events are the default ones.
    fn parse_positional(args: &[&[u8]]) -> Result<Arguments, ArgumentError>
        ensures { given result ≡ positional_in (map (λ arg. arg.now) args.now) }
    {
        let [shards, workers, timeout, interval, max_interval, more @ ..] = args else {
            return Err(ArgumentError::Count);
        };
        let (options, limit) = optional_in(more).ok_or(ArgumentError::Count)?;
        Arguments::parse_seven(
            shards,
            workers,
            timeout,
            interval,
            max_interval,
            options,
            limit,
        )
    }

    fn parse_seven(
        shards: &[u8],
        workers: &[u8],
        timeout: &[u8],
        interval: &[u8],
        max_interval: &[u8],
        options: &[u8],
        limit: &[u8],
    ) -> Result<Arguments, ArgumentError>
        ensures { given result ≡ seven_in shards.now workers.now timeout.now interval.now max_interval.now options.now limit.now }
    {
        let shards = count_in(MAX_SHARDS, shards).ok_or(ArgumentError::Shards)?;
        let workers = workers_in(workers).ok_or(ArgumentError::Workers)?;
        let timeout = time_in(timeout).ok_or(ArgumentError::Timeout)?;
        let interval = time_in(interval).ok_or(ArgumentError::Interval)?;
        let max_interval = time_in(max_interval).ok_or(ArgumentError::MaxInterval)?;
        let options = Options::read(options).ok_or(ArgumentError::Options)?;
        let config = Config::new(shards, timeout, interval, max_interval).ok_or(
            ArgumentError::Shards,
        )?;
        let config = with_word(config.with(options), Limit::Events, limit)?;
        Ok(Arguments { config, workers })
    }
}

// Returns the options and the limit of events, by default `-` and `1024`, if there are no more.
fn optional_in<'a>(args: &[&'a [u8]]) -> Option<(&'a [u8], &'a [u8])>
    ensures { option_map (λ words. (words.0.now, words.1.now)) result ≡ optional_in (map (λ arg. arg.now) args.now) }
{
    match args {
        [] => Some((b"-", b"1024")),
        [options] => Some((options, b"1024")),
        [options, limit] => Some((options, limit)),
        _ => None,
    }
}

// Returns the arguments after those that name one of `limits`.
fn after_named<'a, 'b>(limits: &[Limit], args: &'a [&'b [u8]]) -> &'a [&'b [u8]]
    ensures { map (λ arg. arg.now) result.now ≡ after_named limits.now (map (λ arg. arg.now) args.now) }
{
    match limits {
        [] => args,
        [limit, limits @ ..] => after_named(limits, named_in(*limit, args).1),
    }
}

fn with_named(config: Config, limits: &[Limit], args: &[&[u8]]) -> Result<Config, ArgumentError>
    ensures { given_config result ≡ with_named limits.now (map (λ arg. arg.now) args.now) config }
{
    match limits {
        [] => Ok(config),
        [limit, limits @ ..] => {
            let (word, args) = named_in(*limit, args);
            let config = match word {
                Some(word) => with_word(config, *limit, word)?,
                None => config,
            };
            with_named(config, limits, args)
        }
    }
}

fn with_word(config: Config, limit: Limit, word: &[u8]) -> Result<Config, ArgumentError>
    ensures { given_config result ≡ with_word limit word.now config }
{
    let wrong = ArgumentError::Limit(limit);
    let n = limit_in(limit, word).ok_or(wrong)?;
    config.with_maximum(limit, n).ok_or(wrong)
}

// Returns the value after the name of `limit`, if `args` begin with it, and the other arguments.
fn named_in<'a, 'b>(limit: Limit, args: &'a [&'b [u8]]) -> (Option<&'b [u8]>, &'a [&'b [u8]])
    ensures { (option_map (λ arg. arg.now) result.0, map (λ arg. arg.now) result.1.now) ≡ named_in limit (map (λ arg. arg.now) args.now) }
{
    match args {
        [arg, word, args @ ..] if is_named(limit, arg) => (Some(*word), args),
        _ => (None, args),
    }
}

fn is_named(limit: Limit, arg: &[u8]) -> bool
    ensures { result ≡ is_named limit arg.now }
{
    match arg.strip_prefix(b"--") {
        Some(name) => name == limit.name().as_bytes(),
        None => false,
    }
}

fn workers_in(digits: &[u8]) -> Option<WorkerCount>
    ensures { result ≡ count_in MAX_WORKERS digits.now }
{
    WorkerCount::new(count_in(MAX_WORKERS, digits)?)
}
