ghost use Rattle.std.specs.Prelude.{◌≡◌, ◌<◌, OnOk, vec_len, if◌then◌else◌};
ghost use Rattle.bx_script.specs.Kept.{is_lone_zero, kept_with, without_zeros};

use bx_advice::BODY_LIMIT;
use std::alloc::AllocError;

/// The most bytes of a line that are kept.
///
/// The body or query of a longer line is too large in any case. Before it, at most a zero, 20
/// digits, a letter and two spaces are kept.
pub(crate) const KEPT_LIMIT: usize = BODY_LIMIT + 32;

// Appends the next part of a line to `kept`, up to `KEPT_LIMIT` bytes in all. Of several zeros at
// the line's beginning, only the first is kept.
pub(crate) fn keep(kept: &mut Vec<u8>, part: &[u8]) -> Result<(), AllocError>
    ensures { OnOk result (kept.new.items ≡ kept_with kept.old.items part.now) }
{
    let Some((first, rest)) = part.split_first() else {
        return Ok(());
    };
    if !kept.is_empty() {
        return keep_on(kept, part);
    }
    kept.push(*first)?;
    keep_on(kept, rest)
}

// Appends `part` to `kept`, which is not empty. Drops leading zeros if `kept` is a single zero.
fn keep_on(kept: &mut Vec<u8>, part: &[u8]) -> Result<(), AllocError>
    requires { 0 < vec_len kept.old }
    ensures { OnOk result (kept.new.items ≡ kept_with kept.old.items part.now) }
{
    let part = significant_part(kept.as_slice(), part);
    let room = KEPT_LIMIT.saturating_sub(kept.len()).min(part.len());
    kept.extend_from_slice(&part[..room])
}

// Leading zeros change no number.
fn significant_part<'a>(kept: &[u8], part: &'a [u8]) -> &'a [u8]
    ensures { result.now ≡ (if is_lone_zero kept.now then without_zeros part.now else part.now) }
{
    if is_lone_zero(kept) {
        without_zeros(part)
    } else {
        part
    }
}

fn without_zeros(part: &[u8]) -> &[u8]
    ensures { result.now ≡ without_zeros part.now }
{
    let mut rest = part;
    while let Some(behind) = rest.strip_prefix(b"0") {
        rest = behind;
    }
    rest
}

fn is_lone_zero(kept: &[u8]) -> bool
    ensures { result ≡ is_lone_zero kept.now }
{
    matches!(kept, [b'0'])
}
