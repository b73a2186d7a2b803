ghost use Rattle.std.specs.Prelude.{◌≡◌, ◌<◌, ◌≤◌, ◌+◌, ◌==◌, ◌++◌, ◌∷◌, [], length, drop, IfOk, IfSome};
ghost use Rattle.bx_pieces.specs.Elements.{element_text};
ghost use Rattle.bx_pieces.specs.Tails.{end_text, led_text, left_text, part_text, rest_text, sent_as};

use crate::element::Element;
use bx_message::{Item, item_room};
use bx_transport::push_script_safe;
use bytes::Bytes;
use std::alloc::{AllocError, Global};

// Up to this length in bytes, before escapes, elements are combined. A larger one is sent alone.
const PIECE: usize = 65_536;

// Escapes a part of the array if the response is a script.
pub(crate) fn sent_as(alloc: Global, is_script: bool, text: Vec<u8>) -> Result<Vec<u8>, AllocError>
    ensures { IfOk result (λ out. out.items ≡ sent_as is_script text.items) }
{
    if !is_script {
        return Ok(text);
    }
    let mut out = Vec::with_capacity(alloc, text.len())?;
    push_script_safe(&mut out, text.as_slice())?;
    Ok(out)
}

// Returns `true` if a response should be written at once.
//
// Its text then fits one piece, or takes no more memory than the list of its elements.
pub(crate) fn are_short(items: &[Item]) -> bool {
    let mut room = 0usize;
    for item in items {
        room = room.saturating_add(item_room(item)).saturating_add(1);
    }
    room <= PIECE || room <= items.len().saturating_mul(size_of::<Element>())
}

// Returns how many of `elements` the next piece takes: those that fit, but at least the first.
pub(crate) fn fitting(elements: &[Element]) -> usize
    ensures within { result ≤ length elements.now }
    ensures some { 0 < length elements.now → 0 < result }
{
    let mut room = 0usize;
    for (i, element) in elements.iter().enumerate() {
        room = room.saturating_add(led_room(element));
        if i > 0 && room > PIECE {
            return i;
        }
    }
    elements.len()
}

// Returns the length of the texts, each with a comma, without escapes for a script.
fn room_of(elements: &[Element]) -> usize {
    let mut room = 0usize;
    for element in elements {
        room = room.saturating_add(led_room(element));
    }
    room
}

fn led_room(element: &Element) -> usize {
    element.size().saturating_add(1)
}

fn push_led(out: Vec<u8>, element: &Element) -> Result<Vec<u8>, AllocError>
    ensures { IfOk result (λ text. text.items ≡ out.items ++ (44 ∷ element_text element.now)) }
{
    let mut out = out;
    out.push(b',')?;
    element.write(out)
}

// Writes the elements, each after a comma, with room for the end of the response.
fn led_text(alloc: Global, elements: &[Element]) -> Result<Vec<u8>, AllocError>
    ensures { IfOk result (λ out. out.items ≡ led_text elements.now) }
{
    let mut out = Vec::with_capacity(alloc, room_of(elements).saturating_add(2))?;
    for element in elements {
        out = push_led(out, element)?;
    }
    Ok(out)
}

// Writes the next piece, and returns it with the number of its elements.
//
// The piece with the last of `elements` includes the end of the response.
pub(crate) fn piece_of(
    alloc: Global,
    elements: &[Element],
    is_script: bool,
) -> Result<(Bytes, usize), AllocError>
    ensures within { IfOk result (λ made. made.1 ≤ length elements.now) }
    ensures some { IfOk result (λ made. 0 < length made.0) }
    ensures text { IfOk result (λ made. rest_text is_script elements.now
        ≡ made.0 ++ left_text (made.1 == length elements.now) is_script (drop made.1 elements.now)) }
{
    let count = fitting(elements);
    let is_last = count == elements.len();
    let text = part_of(alloc, &elements[..count], is_script, is_last)?;
    match Bytes::from_vec(text) {
        Ok(piece) => Ok((piece, count)),
        Err(_) => Err(AllocError),
    }
}

// Writes `elements` as they are sent, each after a comma, and the end of the response if `is_last`.
fn part_of(
    alloc: Global,
    elements: &[Element],
    is_script: bool,
    is_last: bool,
) -> Result<Vec<u8>, AllocError>
    ensures { IfOk result (λ text. text.items ≡ part_text is_last is_script elements.now) }
{
    let array = led_text(alloc, elements)?;
    if is_last {
        ended(alloc, is_script, array)
    } else {
        sent_as(alloc, is_script, array)
    }
}

// Closes the array, and adds the end of the response.
fn ended(alloc: Global, is_script: bool, array: Vec<u8>) -> Result<Vec<u8>, AllocError>
    ensures { IfOk result (λ out. out.items ≡ sent_as is_script (array.items ++ 93 ∷ []) ++ end_text is_script) }
{
    let mut array = array;
    array.push(b']')?;
    let mut text = sent_as(alloc, is_script, array)?;
    if is_script {
        text.push(b')')?;
    }
    Ok(text)
}

// Returns the length of the rest of a response, of which `elements` are not written yet.
pub(crate) fn rest_size(
    alloc: Global,
    elements: &[Element],
    is_script: bool,
) -> Result<u64, AllocError>
    ensures { IfOk result (λ size. size ≡ length (rest_text is_script elements.now)) }
{
    let size = led_size(alloc, elements, is_script)?;
    match with_byte(size, end_size(is_script)) {
        Some(size) => Ok(size),
        None => Err(AllocError),
    }
}

// A script ends with a parenthesis.
fn end_size(is_script: bool) -> u64
    ensures { result ≡ length (end_text is_script) }
{
    if is_script { 1 } else { 0 }
}

// Returns the length of the elements as they are sent, each with a comma.
fn led_size(alloc: Global, elements: &[Element], is_script: bool) -> Result<u64, AllocError>
    ensures { IfOk result (λ size. size ≡ length (sent_as is_script (led_text elements.now))) }
{
    let mut total = 0u64;
    for element in elements {
        let size = sent_size(alloc, element, is_script)?;
        let Some(sum) = with_byte(total, size) else {
            return Err(AllocError);
        };
        total = sum;
    }
    Ok(total)
}

fn with_byte(first: u64, second: u64) -> Option<u64>
    ensures { IfSome result (λ sum. sum ≡ first + (1 + second)) }
{
    first.checked_add(1)?.checked_add(second)
}

// Returns the length of an element as it is sent. For a script, writes it to measure it.
fn sent_size(alloc: Global, element: &Element, is_script: bool) -> Result<u64, AllocError>
    ensures { IfOk result (λ size. size ≡ length (sent_as is_script (element_text element.now))) }
{
    if !is_script {
        return Ok(element.size() as u64);
    }
    let text = element.write(Vec::with_capacity(alloc, element.size())?)?;
    Ok(sent_as(alloc, true, text)?.len() as u64)
}
