ghost use Rattle.std.specs.Prelude.{◌≡◌, ◌<◌, ◌+◌, ◌++◌, [], Some, IfOk, IsTrue, MatchOption, OnErr, drop, length, option_map};
ghost use Rattle.http_body.specs.SizeHint.{exact};
ghost use Rattle.bx_pieces.specs.Givings.{InPieces};
ghost use Rattle.bx_pieces.specs.Tails.{answer_text, beginning_text, is_call, rest_text, whole_text};

use crate::element::{Element, elements_of};
use crate::tail::{are_short, piece_of, rest_size, sent_as};
use bx_message::{Item, body_text};
use bx_transport::callback_of;
use bytes::{Buf, Bytes};
use futures::task::{Context, Poll};
use http_body::{Body, Frame, SizeHint};
use std::alloc::{AllocError, Global};
use std::marker::{Model, PhantomData};

/// The body of a response, written piece by piece as frames are requested.
///
/// It shares its events with their other receivers. A short body is written at once. `D` is the
/// type of the frames' data.
#[derive(Drop)]
pub struct Pieces<D> {
    alloc: Global,
    // A piece that is written but not returned yet.
    made: Option<Bytes>,
    // Unless `is_written`, those from `next` on and the end of the response are not written yet.
    elements: Vec<Element>,
    next: usize,
    is_script: bool,
    is_written: bool,
    left: u64,
    data: PhantomData<D>,
}

impl<D> Model for Pieces<D> {
    ghost use Rattle.std.specs.Prelude.{◌≡◌, ◌<◌, ◌≤◌, ◌++◌, ℕ, List, [], IfSome, drop, length, unwrap_or};
    ghost use Rattle.bx_pieces.specs.Tails.{left_text};

    ghost Value = { List ℕ };

    ghost view = { λ p. unwrap_or p.made [] ++ left_text p.is_written p.is_script (drop p.next p.elements.items) };

    ghost invariant = { λ p. (p.next ≤ length p.elements.items)
        × IfSome p.made (λ piece. 0 < length piece)
        × (p.left ≡ length (unwrap_or p.made [] ++ left_text p.is_written p.is_script (drop p.next p.elements.items))) };
}

impl<D> Pieces<D> {
    /// Creates an empty body. Does not allocate.
    pub fn none(alloc: Global) -> Pieces<D>
        ensures { result ≡ [] }
    {
        Pieces {
            alloc,
            made: None,
            elements: Vec::new(alloc),
            next: 0,
            is_script: false,
            is_written: true,
            left: 0,
            data: PhantomData,
        }
    }

    /// Creates the body of a response with `items`.
    ///
    /// The body is the array of `items` as JSON, or a script that calls `callback` with it.
    pub fn answer(
        alloc: Global,
        callback: Option<&str>,
        items: &[Item],
    ) -> Result<Pieces<D>, AllocError>
        ensures { IfOk result (λ pieces. pieces ≡ answer_text (option_map (λ name. name.now) callback.entry) items.now) }
    {
        if are_short(items) {
            return Pieces::at_once(alloc, callback, items);
        }
        Pieces::begun(alloc, callback, items)
    }

    fn at_once(
        alloc: Global,
        callback: Option<&str>,
        items: &[Item],
    ) -> Result<Pieces<D>, AllocError>
        ensures { IfOk result (λ pieces. pieces ≡ answer_text (option_map (λ name. name.now) callback.entry) items.now) }
    {
        let text = match callback {
            Some(name) => callback_of(alloc, name, items)?,
            None => body_text(alloc, items)?,
        };
        let Ok(text) = Bytes::from_vec(text) else {
            return Err(AllocError);
        };
        let left = text.len() as u64;
        Ok(Pieces {
            alloc,
            made: Some(text),
            elements: Vec::new(alloc),
            next: 0,
            is_script: false,
            is_written: true,
            left,
            data: PhantomData,
        })
    }

    // Writes the beginning of the body, through the first element, or all of an empty one.
    fn begun(alloc: Global, callback: Option<&str>, items: &[Item]) -> Result<Pieces<D>, AllocError>
        ensures { IfOk result (λ pieces. pieces ≡ answer_text (option_map (λ name. name.now) callback.entry) items.now) }
    {
        let elements = elements_of(alloc, items)?;
        if elements.is_empty() {
            return Pieces::at_once(alloc, callback, items);
        }
        let is_script = is_call(callback);
        let (made, left) = first_piece(alloc, callback, elements.as_slice())?;
        Ok(Pieces {
            alloc,
            made: Some(made),
            elements,
            next: 1,
            is_script,
            is_written: false,
            left,
            data: PhantomData,
        })
    }

    // Removes and returns the next piece, which is not empty, if any. On error, no text remains.
    fn take_piece(&mut self) -> Result<Option<Bytes>, AllocError>
        ensures ok { IfOk result (λ given. MatchOption given ((self.old ≡ []) × (self.new ≡ [])) (λ piece. (0 < length piece) × (self.old ≡ piece ++ self.new))) }
        ensures err { OnErr result ((self.new ≡ []) × (0 < length self.old)) }
    {
        if let Some(piece) = self.made.take() {
            self.left -= piece.len() as u64;
            return Ok(Some(piece));
        }
        if self.is_written {
            return Ok(None);
        }
        let made = piece_of(self.alloc, &self.elements[self.next..], self.is_script);
        let Ok((piece, count)) = made else {
            self.break_off();
            return Err(AllocError);
        };
        self.next += count;
        self.is_written = self.next == self.elements.len();
        self.left -= piece.len() as u64;
        Ok(Some(piece))
    }

    fn break_off(&mut self)
        ensures { self.new ≡ [] }
    {
        self.made = None;
        self.next = self.elements.len();
        self.is_written = true;
        self.left = 0;
    }
}

fn is_call(callback: Option<&str>) -> bool
    ensures { result ≡ is_call (option_map (λ name. name.now) callback.entry) }
{
    callback.is_some()
}

// Writes the body through the first of `elements`, and returns this with the body's length.
fn first_piece(
    alloc: Global,
    callback: Option<&str>,
    elements: &[Element],
) -> Result<(Bytes, u64), AllocError>
    requires { 0 < length elements.now }
    ensures some { IfOk result (λ made. 0 < length made.0) }
    ensures text { IfOk result (λ made. made.0 ++ rest_text (is_call (option_map (λ name. name.now) callback.entry)) (drop 1 elements.now)
        ≡ whole_text (option_map (λ name. name.now) callback.entry) elements.now) }
    ensures size { IfOk result (λ made. made.1 ≡ length made.0 + length (rest_text (is_call (option_map (λ name. name.now) callback.entry)) (drop 1 elements.now))) }
{
    let first = beginning(alloc, callback, &elements[0])?;
    let Ok(made) = Bytes::from_vec(first) else {
        return Err(AllocError);
    };
    let rest = rest_size(alloc, &elements[1..], is_call(callback))?;
    match (made.len() as u64).checked_add(rest) {
        Some(size) => Ok((made, size)),
        None => Err(AllocError),
    }
}

fn beginning(
    alloc: Global,
    callback: Option<&str>,
    element: &Element,
) -> Result<Vec<u8>, AllocError>
    ensures { IfOk result (λ out. out.items ≡ beginning_text (option_map (λ name. name.now) callback.entry) element.now) }
{
    let mut array = Vec::with_capacity(alloc, element.size().saturating_add(1))?;
    array.push(b'[')?;
    let array = element.write(array)?;
    let Some(name) = callback else {
        return Ok(array);
    };
    let safe = sent_as(alloc, true, array)?;
    let mut out = Vec::with_capacity(alloc, name.len().saturating_add(1))?;
    out.extend_from_slice(name.as_bytes())?;
    out.push(b'(')?;
    out.extend_from_slice(safe.as_slice())?;
    Ok(out)
}

impl<D: Buf + From<Bytes> + Drop> Body for Pieces<D> {
    type Data = D;

    type Error = AllocError;

    ghost yields = { InPieces D.from_gives };

    fn poll_frame(&mut self, _cx: &mut Context<'_>) -> Poll<Option<Result<Frame<D>, AllocError>>> {
        match self.take_piece() {
            Ok(Some(piece)) => Poll::Ready(Some(Ok(Frame::data(D::from(piece))))),
            Ok(None) => Poll::Ready(None),
            Err(refused) => Poll::Ready(Some(Err(refused))),
        }
    }

    fn is_end_stream(&self) -> bool
        ensures { IsTrue result → self.now ≡ [] }
    {
        self.left == 0
    }

    fn size_hint(&self) -> SizeHint
        ensures { exact result ≡ Some (length self.now) }
    {
        SizeHint::with_exact(self.left)
    }
}
