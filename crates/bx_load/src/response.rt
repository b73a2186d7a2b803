ghost use Rattle.std.specs.Prelude.{◌+◌, ◌≤◌, length, IfOk, IfSome};

// The greatest length of an incomplete head, in bytes.
const MAX_HEAD: usize = 16_384;

/// The status of a complete response, and the position of its body in the input.
#[derive(Clone, Copy)]
pub struct Response {
    pub status: u16,
    /// The index of the first byte of the body in the input.
    pub start: usize,
    /// The index after its last byte.
    pub end: usize,
}

/// The input does not begin with an HTTP/1.1 response that has a `content-length`.
#[derive(Clone, Copy)]
pub struct Malformed;

/// Parses the response at the start of `input`, if it is complete.
///
/// # Errors
///
/// `Malformed` if `input` is not such a response, or exceeds 16 KiB and has no end of a head.
pub fn read_response(input: &[u8]) -> Result<Option<Response>, Malformed>
    ensures start { IfOk result (λ found. IfSome found (λ r. r.start ≤ r.end)) }
    ensures end { IfOk result (λ found. IfSome found (λ r. r.end ≤ length input.now)) }
{
    let Some(blank) = end_of_head(input) else {
        return if input.len() > MAX_HEAD {
            Err(Malformed)
        } else {
            Ok(None)
        };
    };
    let Ok(head) = str::from_utf8(&input[..blank]) else {
        return Err(Malformed);
    };
    let (Some(status), Some(size)) = (status_of(head), size_of_body(head)) else {
        return Err(Malformed);
    };
    let start = blank + 4;
    if size > input.len() - start {
        return Ok(None);
    }
    Ok(Some(Response {
        status,
        start,
        end: start + size,
    }))
}

// Returns the index of the line end before the first empty line.
fn end_of_head(input: &[u8]) -> Option<usize>
    ensures { IfSome result (λ at. at + 4 ≤ length input.now) }
{
    for (at, four) in input.windows(4).enumerate() {
        if four == b"\r\n\r\n".as_slice() {
            return Some(at);
        }
    }
    None
}

// Parses the status in the first line of a head, if that is one of HTTP/1.1.
fn status_of(head: &str) -> Option<u16> {
    let (status, _) = head.strip_prefix("HTTP/1.1 ")?.split_once(' ')?;
    status.parse().ok()
}

// Parses the first `content-length` field of a head.
fn size_of_body(head: &str) -> Option<usize> {
    for line in head.lines() {
        if let Some((name, value)) = line.split_once(':')
            && name.eq_ignore_ascii_case("content-length")
        {
            return value.trim_ascii().parse().ok();
        }
    }
    None
}
