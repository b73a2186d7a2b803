ghost use Rattle.std.specs.Prelude.{◌≡◌, ◌≢◌, IfOk, OnOk, option_map, position, string_bytes};
ghost use Rattle.std.specs.List.{after_first, before_first};
ghost use Rattle.bx_cut.specs.Bodies.{texts_of};
ghost use Rattle.bx_message.specs.Statuses.{code_of};
ghost use Rattle.bx_transport.specs.Statuses.{transport_status};
ghost use Rattle.bx_transport.specs.Transports.{post_taken};
ghost use Rattle.bx_script.specs.Replay.{Documents, Recorded, Rejected, announced_by, body_by, command, handed_by, is_space, line_of, noted_by, query_taken, recorded_command, resharded_by, reshards, timed_line};
ghost use Rattle.bx_script.specs.Lines.{dialect_of, meaning_of};

use crate::dialect::Dialect;
use crate::digest::is_digest;
use crate::nonce::nonce_of;
use bx_advice::{BODY_LIMIT, ShardCount};
use bx_cut::Bodies;
use bx_entry::{Access, Arrival, Input};
use bx_message::{Status, number_of};
use bx_transport::{TransportError, read_get, read_post};
use std::alloc::{AllocError, Global};

const FORM_TYPE: &[u8] = b"application/x-www-form-urlencoded";

/// The meaning of a line.
#[derive(Drop)]
pub enum Line {
    Bad,
    /// A request with a body or query that is rejected.
    Rejected {
        status: Status,
    },
    /// A request or a tick.
    Accepted {
        /// The name of the callback of a GET.
        callback: Option<String>,
        /// A request has the nonce 0.
        input: Input,
    },
    /// A new number of shards.
    Resharded {
        shards: ShardCount,
    },
    /// The nonce of the next request.
    Announced {
        nonce: u128,
    },
    /// A note that an answer was given, which has no effect.
    Noted,
}

impl Line {
    /// Parses a line of a script or a record, without its line feed.
    ///
    /// A line is a moment in milliseconds, in decimal digits, a space, and one of:
    ///
    /// - `T`: a tick
    /// - `P` and a body: a POST
    /// - `G` and a query: a GET
    /// - `S` and a number of shards, from 1 to 64
    ///
    /// In a record, these can follow the moment, too:
    ///
    /// - `F` and a form: a POST
    /// - `N` and 32 hexadecimal digits: a nonce
    ///
    /// A space separates the letter from what follows it.
    ///
    /// The note of an answer has no moment. It is `A`, a space, a place, a space, and the 64
    /// hexadecimal digits of a SHA-256. Only records have notes.
    ///
    /// A line is [`Rejected`](Line::Rejected) if no documents can be read from its body or query,
    /// for example because it is too large. A line that has none of the forms above is
    /// [`Bad`](Line::Bad). Documents are not parsed, and a body is copied once.
    pub fn read(alloc: Global, dialect: Dialect, text: &[u8]) -> Result<Line, AllocError>
        ensures meaning { IfOk result (λ line. meaning_of line ≡ line_of (dialect_of dialect) text.now) }
    {
        match (dialect, text.strip_prefix(b"A ")) {
            (Dialect::Recorded, Some(note)) => Ok(read_note(note)),
            _ => read_timed(alloc, dialect, text),
        }
    }
}

// Parses a line of a moment, a space and a command.
fn read_timed(alloc: Global, dialect: Dialect, text: &[u8]) -> Result<Line, AllocError>
    ensures { IfOk result (λ line. meaning_of line ≡ timed_line (dialect_of dialect) text.now) }
{
    let (digits, rest) = cut_at_space(text);
    match number_of(digits) {
        Some(moment) => read_command(alloc, dialect, moment, rest),
        None => Ok(Line::Bad),
    }
}

// Without a space, the second part is empty.
fn cut_at_space(text: &[u8]) -> (&[u8], &[u8])
    ensures before { result.0.now ≡ before_first is_space text.now }
    ensures rest { result.1.now ≡ after_first is_space text.now }
{
    match space_in(text) {
        Some(space) => (&text[..space], &text[space + 1..]),
        None => (text, &[]),
    }
}

fn space_in(text: &[u8]) -> Option<usize>
    ensures { result ≡ position is_space text.now }
{
    text.iter().position(|byte| *byte == b' ')
}

// A command that `dialect` does not have is `Bad`.
fn read_command(
    alloc: Global,
    dialect: Dialect,
    moment: u64,
    rest: &[u8],
) -> Result<Line, AllocError>
    ensures { IfOk result (λ line. meaning_of line ≡ command (dialect_of dialect) moment rest.now) }
{
    if rest == b"T".as_slice() {
        return Ok(Line::Accepted {
            callback: None,
            input: Input::Tick(moment),
        });
    }
    if let Some(body) = rest.strip_prefix(b"P ") {
        return read_body(alloc, moment, None, body);
    }
    if let Some(query) = rest.strip_prefix(b"G ") {
        return read_query(alloc, moment, query);
    }
    if let Some(digits) = rest.strip_prefix(b"S ") {
        return Ok(read_shards(digits));
    }
    match dialect {
        Dialect::Script => Ok(Line::Bad),
        Dialect::Recorded => read_recorded(alloc, moment, rest),
    }
}

// Parses a command that only a record can have: a form (`F`) or a nonce (`N`).
fn read_recorded(alloc: Global, moment: u64, rest: &[u8]) -> Result<Line, AllocError>
    ensures { IfOk result (λ line. meaning_of line ≡ recorded_command Recorded moment rest.now) }
{
    if let Some(form) = rest.strip_prefix(b"F ") {
        return read_body(alloc, moment, Some(FORM_TYPE), form);
    }
    match rest.strip_prefix(b"N ") {
        Some(digits) => Ok(read_nonce(digits)),
        None => Ok(Line::Bad),
    }
}

fn read_body(
    alloc: Global,
    moment: u64,
    content_type: Option<&[u8]>,
    body: &[u8],
) -> Result<Line, AllocError>
    ensures { IfOk result (λ line.
        meaning_of line ≡ handed_by moment (body_by (post_taken (option_map (λ t. t.now) content_type.entry) body.now))) }
{
    match read_post(alloc, content_type, Vec::from_slice(alloc, body)?) {
        Ok(bodies) => Ok(request(moment, None, bodies)),
        Err(error) => turned(error),
    }
}

fn read_query(alloc: Global, moment: u64, query: &[u8]) -> Result<Line, AllocError>
    ensures { IfOk result (λ line. meaning_of line ≡ handed_by moment (query_taken query.now)) }
{
    match read_get(alloc, query) {
        Ok((name, bodies)) => Ok(request(moment, Some(name), bodies)),
        Err(error) => turned(error),
    }
}

// Converts `error` to a rejected line, unless it is `Memory`.
fn turned(error: TransportError) -> Result<Line, AllocError>
    ensures status { IfOk result (λ line. meaning_of line ≡ Rejected (code_of (transport_status error))) }
    ensures reason { OnOk result (error ≢ TransportError.Memory) }
{
    match error {
        TransportError::Memory => Err(AllocError),
        _ => Ok(Line::Rejected {
            status: error.status(),
        }),
    }
}

fn request(moment: u64, callback: Option<String>, bodies: Bodies) -> Line
    ensures { meaning_of result ≡ handed_by moment (Documents (option_map string_bytes callback) (texts_of bodies)) }
{
    Line::Accepted {
        callback,
        input: Input::Post(Arrival {
            moment,
            nonce: 0,
            access: Access::ReadWrite,
            bodies,
        }),
    }
}

fn read_shards(digits: &[u8]) -> Line
    ensures { meaning_of result ≡ resharded_by digits.now }
{
    if digits.len() > BODY_LIMIT {
        return Line::Bad;
    }
    match number_of(digits) {
        Some(number) => shards_of(number),
        None => Line::Bad,
    }
}

fn shards_of(number: u64) -> Line
    ensures { meaning_of result ≡ reshards (Some number) }
{
    match ShardCount::new(number as usize) {
        Some(shards) => Line::Resharded { shards },
        None => Line::Bad,
    }
}

fn read_nonce(digits: &[u8]) -> Line
    ensures { meaning_of result ≡ announced_by digits.now }
{
    match nonce_of(digits) {
        Some(nonce) => Line::Announced { nonce },
        None => Line::Bad,
    }
}

// Parses what follows `A` and a space: a place and a digest, in at most `BODY_LIMIT` bytes.
fn read_note(note: &[u8]) -> Line
    ensures { meaning_of result ≡ noted_by note.now }
{
    if note.len() > BODY_LIMIT {
        return Line::Bad;
    }
    let (place, digest) = cut_at_space(note);
    if number_of(place).is_some() && is_digest(digest) {
        Line::Noted
    } else {
        Line::Bad
    }
}
