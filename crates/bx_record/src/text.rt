ghost use Rattle.std.specs.Prelude.{◌≡◌, ◌≤◌, ◌<◌, ◌∷◌, ◌++◌, [], IfOk, IfSome, MatchOption, OnOk, Ok, codes, decimal, is_some, length, option_map};
ghost use Rattle.std.specs.List.{list_any};
ghost use Rattle.bx_advice.specs.declared.limit.TheConstants.{BODY_LIMIT};
ghost use Rattle.bx_cut.specs.Bodies.{texts_of};
ghost use Rattle.bx_entry.specs.Requests.{arrival_messages};
ghost use Rattle.bx_entry.specs.declared.input.Input.TheVariants as inputs;
ghost use Rattle.bx_message.specs.MessageKinds.{is_handshake};
ghost use Rattle.bx_script.specs.Replay.{is_newline, line_text};
ghost use Rattle.bx_record.specs.Laws.{CanRecord};
ghost use Rattle.bx_record.specs.Record.{can_say, command_by, input_text, nonce_digits, plain_document};

use crate::form::{form_len, push_form};
use crate::nonce::push_nonce_digits;
use bx_advice::BODY_LIMIT;
use bx_cut::Bodies;
use bx_entry::Arrival;
use bx_message::Message;
use itoa::Buffer;
use memchr::memchr;
use std::alloc::{AllocError, Global};

// The most bytes in a request's two lines without its documents. Each has a moment of up to 20
// digits, a letter, two spaces and a newline. A nonce has 32 digits.
const BESIDE: usize = 2 * (20 + 4) + 32;

/// Formats the request `arrival` as lines of a record, or returns `None` if no line can express it.
///
/// If one of its `messages` is a handshake, a line with the nonce precedes that of the documents.
///
/// No line can express a request without documents, or one that needs more than [`BODY_LIMIT`].
pub fn request_text(
    alloc: Global,
    arrival: &Arrival,
    messages: &[Message],
) -> Result<Option<Vec<u8>>, AllocError>
    requires { arrival_messages arrival.now ≡ Ok messages.now }
    ensures text { IfOk result (λ lines. IfSome lines (λ text. text.items ≡ input_text (inputs.Post arrival.now))) }
    ensures sayable { IfOk result (λ lines. is_some lines ≡ can_say (texts_of arrival.now.bodies)) }
    ensures recordable { IfOk result (λ lines. IfSome lines (λ text. CanRecord (inputs.Post arrival.now))) }
{
    let (moment, nonce) = (moment_of(arrival), nonce_of(arrival));
    let plain = plain_document(&arrival.bodies);
    let Some(length) = carrier_len(plain, &arrival.bodies) else {
        return Ok(None);
    };
    let mut text = Vec::with_capacity(alloc, BESIDE + length)?;
    if asks_for_session(messages) {
        push_nonce(&mut text, moment, nonce)?;
    }
    push_documents(&mut text, moment, plain, &arrival.bodies)?;
    Ok(Some(text))
}

fn moment_of(arrival: &Arrival) -> u64
    ensures { result ≡ arrival.now.moment }
{
    arrival.moment
}

fn nonce_of(arrival: &Arrival) -> u128
    ensures { result ≡ arrival.now.nonce }
{
    arrival.nonce
}

/// Formats a tick as a line of a record.
///
/// `moment`: milliseconds since the server started.
pub fn tick_text(alloc: Global, moment: u64) -> Result<Vec<u8>, AllocError>
    ensures text { IfOk result (λ text. text.items ≡ input_text (inputs.Tick moment)) }
    ensures recordable { OnOk result (CanRecord (inputs.Tick moment)) }
{
    let mut text = Vec::with_capacity(alloc, 24)?;
    push_head(&mut text, moment, b"T")?;
    text.push(b'\n')?;
    Ok(text)
}

fn asks_for_session(messages: &[Message]) -> bool
    ensures { result ≡ list_any is_handshake messages.now }
{
    messages
        .iter()
        .any(|message| message.channel.as_str() == "/meta/handshake")
}

// Returns the only document, if it has no newline, so that a line can contain it unchanged.
fn plain_document(bodies: &Bodies) -> Option<&[u8]>
    ensures { option_map (λ d. d.now) result ≡ plain_document (texts_of bodies.now) }
{
    if bodies.len() != 1 {
        return None;
    }
    let document = bodies.get(0);
    if has_newline(document) {
        None
    } else {
        Some(document)
    }
}

#[tactic(auto, using(crate::proofs::Newlines::newline_found))]
fn has_newline(document: &[u8]) -> bool
    ensures { result ≡ list_any is_newline document.now }
{
    memchr(b'\n', document).is_some()
}

// Returns how many bytes a line needs for `bodies`, if a line can express them.
//
// `plain`: the document that a line can contain unchanged, if any.
fn carrier_len(plain: Option<&[u8]>, bodies: &Bodies) -> Option<usize>
    requires { option_map (λ d. d.now) plain ≡ plain_document (texts_of bodies.now) }
    ensures sayable { is_some result ≡ can_say (texts_of bodies.now) }
    ensures within { IfSome result (λ count. count ≤ BODY_LIMIT) }
{
    match plain {
        Some(document) if document.len() <= BODY_LIMIT => Some(document.len()),
        Some(_) => None,
        None if bodies.is_empty() => None,
        None => form_len(bodies),
    }
}

// Appends the line that assigns `nonce` to the request in the next line.
fn push_nonce(text: &mut Vec<u8>, moment: u64, nonce: u128) -> Result<(), AllocError>
    ensures { OnOk result (text.new.items ≡ text.old.items ++ line_text moment (codes "N " ++ nonce_digits nonce)) }
{
    push_head(text, moment, b"N ")?;
    push_nonce_digits(text, nonce)?;
    text.push(b'\n')?;
    Ok(())
}

// Appends the line `moment P plain` if `plain` is given, and otherwise `moment F form`.
fn push_documents(
    text: &mut Vec<u8>,
    moment: u64,
    plain: Option<&[u8]>,
    bodies: &Bodies,
) -> Result<(), AllocError>
    ensures { OnOk result (text.new.items
        ≡ text.old.items ++ line_text moment (command_by (option_map (λ d. d.now) plain.entry) (texts_of bodies.now))) }
{
    match plain {
        Some(document) => {
            push_head(text, moment, b"P ")?;
            text.extend_from_slice(document)?;
        }
        None => {
            push_head(text, moment, b"F ")?;
            push_form(text, bodies)?;
        }
    }
    text.push(b'\n')?;
    Ok(())
}

fn push_head(text: &mut Vec<u8>, moment: u64, command: &[u8]) -> Result<(), AllocError>
    ensures { OnOk result (text.new.items ≡ text.old.items ++ decimal moment ++ 32 ∷ command.now) }
{
    let mut buffer = Buffer::new();
    text.extend_from_slice(buffer.format(moment).as_bytes())?;
    text.push(b' ')?;
    text.extend_from_slice(command)
}
