//! Responses to a GET: scripts that call a function with the array of replies and events.
//!
//! The response to a POST is the array alone.
ghost use Rattle.std.specs.Prelude.{◌≡◌, ◌<◌, ◌++◌, length, IfOk, OnOk, MatchOption, option_map, ⊤, ◌≤◌};
ghost use Rattle.bx_message.specs.Texts.{callback_text, script_safe};
ghost use Rattle.bx_transport.specs.Scripts.{escape_at};

use bx_message::{Item, body_text};
use std::alloc::{AllocError, Global};

// U+2028 and U+2029, in UTF-8.
const LINE_SEPARATOR: &[u8] = b"\xe2\x80\xa8";

const PARAGRAPH_SEPARATOR: &[u8] = b"\xe2\x80\xa9";

/// Creates the response to a GET: a script that calls function `name` with the array of `items`.
///
/// U+2028 and U+2029 are escaped in the array, since they end lines in scripts.
///
/// Bayeux 1.0, callback-polling.
pub fn callback_of(alloc: Global, name: &str, items: &[Item]) -> Result<Vec<u8>, AllocError>
    ensures { IfOk result (λ out. out.items ≡ callback_text name.now items.now) }
{
    let body = body_text(alloc, items)?;
    let room = name.len().saturating_add(body.len()).saturating_add(2);
    let mut out = Vec::with_capacity(alloc, room)?;
    out.extend_from_slice(name.as_bytes())?;
    out.push(b'(')?;
    push_script_safe(&mut out, body.as_slice())?;
    out.push(b')')?;
    Ok(out)
}

/// Appends the JSON text `text` to `out`, with U+2028 and U+2029 escaped.
///
/// On error, a prefix may be appended.
pub fn push_script_safe(out: &mut Vec<u8>, text: &[u8]) -> Result<(), AllocError>
    ensures { OnOk result (out.new.items ≡ out.old.items ++ script_safe text.now) }
{
    let mut rest = text;
    while let Some((run, escape, after)) = cut_at_separator(rest) {
        out.extend_from_slice(run)?;
        out.extend_from_slice(escape.as_bytes())?;
        rest = after;
    }
    out.extend_from_slice(rest)
}

// Splits the text at its first U+2028 or U+2029: what is before, its escape, and what is after.
fn cut_at_separator(text: &[u8]) -> Option<(&[u8], &'static str, &[u8])>
    ensures value { MatchOption result (script_safe text.now ≡ text.now)
        (λ parts. script_safe text.now ≡ parts.0.now ++ (parts.1.now ++ script_safe parts.2.now)) }
    ensures shorter { MatchOption result ⊤ (λ parts. length parts.2.now < length text.now) }
{
    for at in 0..text.len() {
        if let Some(escape) = escape_at(&text[at..]) {
            return Some((&text[..at], escape, &text[at + LINE_SEPARATOR.len()..]));
        }
    }
    None
}

fn escape_at(text: &[u8]) -> Option<&'static str>
    ensures value { option_map (λ escape. escape.now) result ≡ escape_at text.now }
    ensures long { MatchOption result ⊤ (λ _. 3 ≤ length text.now) }
{
    if text.starts_with(LINE_SEPARATOR) {
        Some("\\u2028")
    } else if text.starts_with(PARAGRAPH_SEPARATOR) {
        Some("\\u2029")
    } else {
        None
    }
}
