ghost use Rattle.std.specs.Prelude.{◌≡◌, ◌≢◌, ◌++◌, IsTrue, length};
ghost use Rattle.std.specs.List.{list_any};
ghost use Rattle.bx_names.specs.Segments.{is_absolute, is_empty, is_path, segments};
ghost use Rattle.bx_names.specs.Globs.{ending_text, glob_of};
ghost use Rattle.bx_names.specs.Faults.{has_bad_byte, has_star, is_bad_byte, name_fault, path_fault, pattern_fault};

use crate::error::NameError;
use crate::limits::{MAX_NAME_BYTES, MAX_NAME_SEGMENTS};
use crate::tail::Tail;

/// Returns the first reason why `text` is not a channel name, if any. Does not allocate.
pub fn name_fault(text: &str) -> Option<NameError>
    ensures fault { result ≡ name_fault text.now }
    ensures never_memory { result ≢ Some NameError.Memory }
{
    path_fault(text, text)
}

/// Returns the first reason why `text` is not a pattern, if any. Does not allocate.
pub fn pattern_fault(text: &str) -> Option<NameError>
    ensures fault { result ≡ pattern_fault text.now }
    ensures never_memory { result ≢ Some NameError.Memory }
{
    let (own, _) = split_tail(text);
    path_fault(text, own)
}

/// Splits the text of a pattern into its segments without the wildcard, and the wildcard.
///
/// The slash before the wildcard is in neither: `/a/*` results in `/a` and `One`.
#[tactic(auto, using(crate::proofs::GlobLemmas::cut))]
pub(crate) fn split_tail(text: &str) -> (&str, Tail)
    ensures parts { text.now ≡ result.0.now ++ ending_text result.1 }
    ensures own { IsTrue (is_absolute text.now) → IsTrue (is_path result.0.now) }
    ensures glob { IsTrue (is_absolute text.now)
        → glob_of (segments text.now) ≡ record { segments = segments result.0.now; tail = result.1 } }
{
    if let Some(own) = text.strip_suffix("/**") {
        return (own, Tail::Many);
    }
    if let Some(own) = text.strip_suffix("/*") {
        return (own, Tail::One);
    }
    (text, Tail::Exact)
}

/// Returns the first error of `path`, if any.
///
/// `own`: the part that must have no stars: all of a name, or all of a pattern except the wildcard.
#[tactic(auto, using(crate::proofs::WalkLemmas::star_segments))]
fn path_fault(path: &str, own: &str) -> Option<NameError>
    requires { IsTrue (is_absolute path.now) → IsTrue (is_path own.now) }
    ensures fault { result ≡ path_fault path.now (segments own.now) }
    ensures never_memory { result ≢ Some NameError.Memory }
{
    if !path.starts_with('/') {
        return Some(NameError::NoSlash);
    }
    let found = findings_of(path);
    if found.has_empty_segment {
        Some(NameError::EmptySegment)
    } else if found.has_bad_byte {
        Some(NameError::BadByte)
    } else if has_star(own) {
        Some(NameError::Wild)
    } else if path.len() > MAX_NAME_BYTES {
        Some(NameError::TooLong)
    } else if found.segments > MAX_NAME_SEGMENTS {
        Some(NameError::TooDeep)
    } else {
        None
    }
}

/// What one pass over a path's bytes finds.
#[derive(Drop)]
struct Findings {
    has_empty_segment: bool,
    has_bad_byte: bool,
    segments: usize,
}

#[tactic(auto, using(crate::proofs::WalkLemmas::walked))]
fn findings_of(path: &str) -> Findings
    requires { IsTrue (is_absolute path.now) }
    ensures empty { result.has_empty_segment ≡ list_any is_empty (segments path.now) }
    ensures bad { result.has_bad_byte ≡ list_any has_bad_byte (segments path.now) }
    ensures segments { result.segments ≡ length (segments path.now) }
{
    let mut has_empty_segment = false;
    let mut has_bad_byte = false;
    let mut segments = 0;
    let mut after_slash = false;
    for &byte in path.as_bytes() {
        if byte == b'/' {
            segments += 1;
            has_empty_segment |= after_slash;
        }
        has_bad_byte |= is_bad_byte(byte);
        after_slash = byte == b'/';
    }
    Findings {
        has_empty_segment: has_empty_segment | after_slash,
        has_bad_byte,
        segments,
    }
}

fn is_bad_byte(byte: u8) -> bool
    ensures { result ≡ is_bad_byte byte }
{
    byte < 0x21 || byte == 0x7F
}

fn has_star(text: &str) -> bool
    ensures { result ≡ has_star text.now }
{
    text.bytes().any(|byte| byte == b'*')
}
