ghost use Rattle.std.specs.Prelude.{◌≡◌, IfOk};
ghost use Rattle.bx_message.specs.Texts.{body_text};
ghost use Rattle.bx_record.specs.Answers.{answer_text};
ghost use Rattle.sha2.specs.Sha256.{sha256};

use bx_message::{Item, body_text};
use itoa::Buffer;
use sha2::{Digest, Sha256};
use std::alloc::{AllocError, Global};

// A letter, a place of up to 20 digits, 64 digits of the digest, two spaces and a newline.
const ANSWER_LENGTH: usize = 1 + 20 + 64 + 2 + 1;

/// Creates the line for an answered request: its place and the SHA-256 of the array of `items`.
///
/// `place`: that of the request's first message.
pub(crate) fn answer_line(alloc: Global, place: u64, items: &[Item]) -> Result<Vec<u8>, AllocError>
    ensures { IfOk result (λ line. line.items ≡ answer_text place (sha256 (body_text items.now))) }
{
    let text = body_text(alloc, items)?;
    let digest = Sha256::digest(text.as_slice());
    answer_text(alloc, place, &digest)
}

pub(crate) fn answer_text(
    alloc: Global,
    place: u64,
    digest: &[u8; 32],
) -> Result<Vec<u8>, AllocError>
    ensures { IfOk result (λ text. text.items ≡ answer_text place digest.now) }
{
    let mut text = Vec::with_capacity(alloc, ANSWER_LENGTH)?;
    text.extend_from_slice(b"A ")?;
    let mut buffer = Buffer::new();
    text.extend_from_slice(buffer.format(place).as_bytes())?;
    text.push(b' ')?;
    text.extend_from_slice(hex::encode(alloc, digest.as_slice())?.as_bytes())?;
    text.push(b'\n')?;
    Ok(text)
}
