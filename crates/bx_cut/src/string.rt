ghost use Rattle.std.specs.Prelude.{◌≡◌, ◌≢◌, ◌↔◌, ℕ, ◌+◌, ◌<◌, ◌≤◌, List, ◌++◌, length, drop, slice_index, Some, None, option_map, string_bytes, IsTrue, IfNone, IfOk, IfSome, SomeIff, MatchOption, true};
ghost use Rattle.std.specs.List.{list_all, prefix_len};
ghost use Rattle.std.specs.Char.{digit_value, encode_utf8};
ghost use Rattle.json.specs.Text.{code_unit, short_escape, content, plain, prepend, after_backslash, after_high};
ghost use Rattle.json.specs.Run.{is_plain};
ghost use Rattle.serde_json.specs.Data.{Data};
ghost use Rattle.serde_json.specs.Find.{as_str};
ghost use Rattle.serde_json.specs.Read.{read};
ghost use Rattle.bx_cut.specs.Laws.{BeginsBare};
ghost use Rattle.bx_cut.specs.Strings.{spelled, quoted, IsPart, Unescapes};

use crate::scan::{after_first, begins_with, plain_len};
use std::alloc::{AllocError, Global};

// How the rest of a JSON string begins.
enum Part<'a> {
    End,
    // With an escape: its decoded character, and the text after it.
    Escape(char, &'a str),
    Fault,
}

// Parses the four hexadecimal digits at index `at`.
#[tactic(auto, unfolding(json::specs::Text::code_unit))]
fn unit_at(text: &[u8], at: usize) -> Option<u32>
    requires { at + 4 ≤ length text.now }
    ensures value { result
        ≡ code_unit (slice_index text.now at) (slice_index text.now (at + 1)) (slice_index text.now (at + 2)) (slice_index text.now (at + 3)) }
    ensures bound { IfSome result (λ unit. unit < 65536) }
    ensures ascii { IfSome result (λ _. slice_index text.now (at + 3) < 128) }
{
    let a = digit(text[at])?;
    let b = digit(text[at + 1])?;
    let c = digit(text[at + 2])?;
    let d = digit(text[at + 3])?;
    Some(a * 4096 + b * 256 + c * 16 + d)
}

fn digit(byte: u8) -> Option<u32>
    ensures value { SomeIff result (digit_value byte < 16) (digit_value byte) }
    ensures ascii { IfSome result (λ _. byte < 128) }
{
    (byte as char).to_digit(16)
}

#[tactic(auto, unfolding(json::specs::Text::short_escape))]
fn short_escape(letter: u8) -> Option<char>
    ensures value { result ≡ short_escape letter }
    ensures ascii { IfSome result (λ c. (c < 128) × (letter < 128)) }
{
    match letter {
        b'"' | b'\\' | b'/' => Some(letter as char),
        b'b' => Some('\u{8}'),
        b'f' => Some('\u{c}'),
        b'n' => Some('\n'),
        b'r' => Some('\r'),
        b't' => Some('\t'),
        _ => None,
    }
}

// Decodes a surrogate pair: its first half is `high`, its second the escape at the start of `text`.
#[tactic(auto, using(crate::proofs::Contents::low_half))]
fn with_low_half(high: u32, text: &[u8]) -> Option<char>
    requires high { (0xd800 ≤ high) × (high < 0xdc00) }
    requires long { 6 ≤ length text.now }
    ensures value { MatchOption result (content (after_high high) text.now ≡ None)
        (λ c. content (after_high high) text.now
        ≡ prepend (encode_utf8 c) (content plain (drop 6 text.now))) }
    ensures ascii { IfSome result (λ _. slice_index text.now 5 < 128) }
{
    if text[0] != b'\\' || text[1] != b'u' {
        return None;
    }
    let low = unit_at(text, 2)?;
    if low < 0xdc00 || low >= 0xe000 {
        return None;
    }
    char::from_u32(0x10000 + (high - 0xd800) * 1024 + (low - 0xdc00))
}

// Decodes the escape after the backslash before `text`. Returns its character and its length.
#[tactic(auto, using(crate::proofs::Contents::escapes))]
fn escape(text: &[u8]) -> Option<(char, usize)>
    ensures { Unescapes after_backslash text.now result }
{
    if text.is_empty() {
        return None;
    }
    if text[0] != b'u' {
        return Some((short_escape(text[0])?, 1));
    }
    if text.len() < 5 {
        return None;
    }
    let unit = unit_at(text, 1)?;
    if unit < 0xd800 || unit >= 0xdc00 {
        return Some((char::from_u32(unit)?, 5));
    }
    if text.len() < 11 {
        return None;
    }
    Some((with_low_half(unit, &text[5..])?, 11))
}

fn next_part(text: &str) -> Part<'_>
    requires { prefix_len is_plain text.now ≡ 0 }
    ensures { IsPart result text.now }
{
    if begins_with(text, b'"') {
        return Part::End;
    }
    let Some(rest) = after_first(text, b'\\') else {
        return Part::Fault;
    };
    match escape(rest.as_bytes()) {
        Some((c, len)) => Part::Escape(c, rest.split_at(len).1),
        None => Part::Fault,
    }
}

fn without<'a>(text: &'a [u8], front: &[u8]) -> Option<&'a [u8]>
    ensures { MatchOption result ((rest : List ℕ) → text.now ≢ front.now ++ rest)
        (λ rest. text.now ≡ front.now ++ rest.now) }
{
    if text.starts_with(front) {
        Some(&text[front.len()..])
    } else {
        None
    }
}

// Returns `true` if the first bytes alone show that `rest` differs from `text` after unescaping.
//
// `rest`: the content of a JSON string and its closing quote.
#[tactic(auto, using(crate::proofs::Contents::differing))]
fn differs_at_once(rest: &str, text: &str) -> bool
    ensures { IsTrue result → content plain rest.now ≢ Some text.now }
{
    match (rest.as_bytes().first(), text.as_bytes().first()) {
        (Some(next), Some(wanted)) => *next != *wanted && *next != b'\\',
        _ => false,
    }
}

/// Returns `true` if `value` is a JSON string that is `text` after unescaping. Does not allocate.
pub fn spells(value: &str, text: &str) -> bool
    ensures value { IsTrue result ↔ (spelled value.now ≡ Some text.now) }
    ensures reads { (d : Data) → read value.now ≡ Some d → BeginsBare value.now
        → IsTrue result ↔ (as_str d ≡ Some text.now) }
{
    let Some(mut rest) = after_first(value, b'"') else {
        return false;
    };
    if differs_at_once(rest, text) {
        return false;
    }
    let mut wanted = text.as_bytes();
    loop {
        let (run, after) = rest.split_at(plain_len(rest));
        let Some(left) = without(wanted, run.as_bytes()) else {
            return false;
        };
        match next_part(after) {
            Part::End => return left.is_empty(),
            Part::Escape(c, next) => {
                let mut buffer = [0; 4];
                let Some(left) = without(left, c.encode_utf8(&mut buffer).as_bytes()) else {
                    return false;
                };
                wanted = left;
                rest = next;
            }
            Part::Fault => return false,
        }
    }
}

/// Returns the content of a JSON string that has no escapes. Does not allocate.
///
/// Returns `None` for any other JSON value.
pub fn plain_text_of(value: &str) -> Option<&str>
    ensures value { IfSome result (λ text. spelled value.now ≡ Some text.now) }
    ensures plain { IfSome result (λ text. list_all is_plain text.now ≡ true) }
    ensures none { IfNone result ((text rest : List ℕ) → list_all is_plain text ≡ true → value.now ≢ quoted text ++ rest) }
{
    let rest = after_first(value, b'"')?;
    let (run, after) = rest.split_at(plain_len(rest));
    if begins_with(after, b'"') {
        Some(run)
    } else {
        None
    }
}

/// Returns the unescaped content of a JSON string, or `None` for any other JSON value.
pub fn text_of(alloc: Global, value: &str) -> Result<Option<String>, AllocError>
    ensures value { IfOk result (λ text. option_map string_bytes text ≡ spelled value.now) }
    ensures reads { IfOk result (λ text. (d : Data) → read value.now ≡ Some d → BeginsBare value.now
        → option_map string_bytes text ≡ as_str d) }
{
    let mut text = String::new(alloc);
    let Some(mut rest) = after_first(value, b'"') else {
        return Ok(None);
    };
    loop {
        let (run, after) = rest.split_at(plain_len(rest));
        text.push_str(run)?;
        match next_part(after) {
            Part::End => return Ok(Some(text)),
            Part::Escape(c, next) => {
                text.push(c)?;
                rest = next;
            }
            Part::Fault => return Ok(None),
        }
    }
}
