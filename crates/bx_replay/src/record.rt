ghost use Rattle.std.specs.List.{slice_split};
ghost use Rattle.std.specs.Prelude.{◌≡◌, IfOk, IfSome, OnOk, Some, map, option_map, position};
ghost use Rattle.bx_record.specs.Configs.{config_in};
ghost use Rattle.bx_replay.specs.Records.{recorded, recorded_in};
ghost use Rattle.bx_script.specs.Words.{first_of, is_newline, is_space, rest_of};

use crate::argument_error::FirstLineError;
use crate::arguments::Arguments;
use bx_advice::WorkerCount;
use bx_record::read_config;
use bx_script::ScriptFault;
use std::alloc::{AllocError, Global};
use std::io::BufRead;

/// Reads the first line of a record and parses its configuration, which one worker replays.
///
/// The inner result is the error for a wrong line. `reader` is then at the next line.
///
/// # Errors
///
/// `Read` if a read failed, or `Memory`.
pub fn read_settings<R: BufRead>(
    alloc: Global,
    reader: &mut R,
) -> Result<Result<Arguments, FirstLineError>, ScriptFault>
    ensures settings { IfOk result (λ read. IfSome (R.remaining reader.old) (λ text. recorded read ≡ recorded_in text)) }
    ensures left { OnOk result (IfSome (R.remaining reader.old) (λ text. R.remaining reader.new ≡ Some (rest_of text))) }
{
    let line = read_line(alloc, reader)?;
    let words = words_of(alloc, first_line(line.as_slice()))?;
    Ok(parse_words(&words))
}

fn parse_words(words: &[&[u8]]) -> Result<Arguments, FirstLineError>
    ensures { recorded result ≡ option_map (λ c. (c, 1)) (config_in (map (λ word. word.now) words.now)) }
{
    match read_config(words) {
        Some(config) => Ok(Arguments {
            config,
            workers: WorkerCount::one(),
        }),
        None => Err(what_is_wrong(words)),
    }
}

// The line of version 0.1.0 begins with `--bytes`.
fn what_is_wrong(words: &[&[u8]]) -> FirstLineError {
    match words {
        [first, ..] if *first == b"--bytes".as_slice() => FirstLineError::Old,
        _ => FirstLineError::Wrong,
    }
}

fn read_line<R: BufRead>(alloc: Global, reader: &mut R) -> Result<Vec<u8>, ScriptFault>
    ensures line { IfOk result (λ line. IfSome (R.remaining reader.old) (λ text. first_of line.items ≡ first_of text)) }
    ensures left { OnOk result (IfSome (R.remaining reader.old) (λ text. R.remaining reader.new ≡ Some (rest_of text))) }
{
    let mut line = Vec::new(alloc);
    match reader.read_until(b'\n', &mut line) {
        Ok(_) => Ok(line),
        Err(error) => Err(ScriptFault::of_read(&error)),
    }
}

fn first_line(text: &[u8]) -> &[u8]
    ensures { result.now ≡ first_of text.now }
{
    match end_in(text) {
        Some(end) => &text[..end],
        None => text,
    }
}

fn end_in(text: &[u8]) -> Option<usize>
    ensures { result ≡ position is_newline text.now }
{
    text.iter().position(|byte| *byte == b'\n')
}

fn words_of(alloc: Global, line: &[u8]) -> Result<Vec<&[u8]>, AllocError>
    ensures { IfOk result (λ words. map (λ word. word.now) words.items ≡ slice_split is_space line.now) }
{
    line.split(|byte| *byte == b' ').collect(alloc)
}
