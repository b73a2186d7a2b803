ghost use Rattle.std.specs.Prelude.{◌≡◌, ◌+◌, ◌<◌, ◌≤◌, ◌++◌, MatchOption, OnOk, length};
ghost use Rattle.form_urlencoded.specs.Form.{byte_serialize, is_unchanged, serialize_byte};
ghost use Rattle.bx_advice.specs.declared.limit.TheConstants.{BODY_LIMIT};
ghost use Rattle.bx_cut.specs.Bodies.{texts_of};
ghost use Rattle.bx_record.specs.Record.{form_of, parameter_of};

use bx_advice::BODY_LIMIT;
use bx_cut::Bodies;
use form_urlencoded::byte_serialize;
use std::alloc::AllocError;

// The length of `&message=` in bytes.
const LEAD: usize = 9;

/// Returns the length of the form that carries `bodies`, if it is at most `BODY_LIMIT`.
#[tactic(auto, using(crate::proofs::Forms::all_counted))]
pub(crate) fn form_len(bodies: &Bodies) -> Option<usize>
    requires { 0 < length (texts_of bodies.now) }
    ensures { MatchOption result (BODY_LIMIT < length (form_of (texts_of bodies.now)))
        (λ count. (count ≡ length (form_of (texts_of bodies.now))) × (count ≤ BODY_LIMIT)) }
{
    // The first parameter has no `&`.
    let mut room = BODY_LIMIT + 1;
    for i in 0..bodies.len() {
        room = room_after(room, bodies.get(i))?;
    }
    Some(BODY_LIMIT - room)
}

// Returns `room` less the length of an `&` and the parameter for `document`, if they fit.
#[tactic(auto, using(crate::proofs::Forms::encoded_none, crate::proofs::Forms::encoded_more, crate::proofs::Forms::no_room))]
fn room_after(room: usize, document: &[u8]) -> Option<usize>
    ensures { MatchOption result (room < 1 + length (parameter_of document.now))
        (λ left. left + (1 + length (parameter_of document.now)) ≡ room) }
{
    let mut left = room.checked_sub(LEAD)?;
    for byte in document {
        left = left.checked_sub(encoded_len(*byte))?;
    }
    Some(left)
}

// 1 or 3 bytes.
#[tactic(auto, using(crate::proofs::Forms::serialized_len))]
fn encoded_len(byte: u8) -> usize
    ensures { result ≡ length (serialize_byte byte) }
{
    if is_unchanged(byte) || byte == b' ' {
        1
    } else {
        3
    }
}

fn is_unchanged(byte: u8) -> bool
    ensures { result ≡ is_unchanged byte }
{
    byte.is_ascii_alphanumeric() || matches!(byte, b'*' | b'-' | b'.' | b'_')
}

/// Appends the URL-encoded form that carries each of `bodies` in a parameter `message`.
pub(crate) fn push_form(text: &mut Vec<u8>, bodies: &Bodies) -> Result<(), AllocError>
    ensures { OnOk result (text.new.items ≡ text.old.items ++ form_of (texts_of bodies.now)) }
{
    for i in 0..bodies.len() {
        if i > 0 {
            text.push(b'&')?;
        }
        push_parameter(text, bodies.get(i))?;
    }
    Ok(())
}

// Bayeux 1.0, long-polling.
fn push_parameter(text: &mut Vec<u8>, document: &[u8]) -> Result<(), AllocError>
    ensures { OnOk result (text.new.items ≡ text.old.items ++ parameter_of document.now) }
{
    text.extend_from_slice(b"message=")?;
    push_encoded(text, document)
}

fn push_encoded(text: &mut Vec<u8>, bytes: &[u8]) -> Result<(), AllocError>
    ensures { OnOk result (text.new.items ≡ text.old.items ++ byte_serialize bytes.now) }
{
    for piece in byte_serialize(bytes) {
        text.extend_from_slice(piece.as_bytes())?;
    }
    Ok(())
}
