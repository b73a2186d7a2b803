use bx_message::{count_in, time_in};

/// Converts a text such as `30s`, `500ms` or `500` to milliseconds of at most 32 bits.
pub(crate) fn milliseconds(text: &str) -> Option<u32> {
    match text.strip_suffix("s") {
        Some(front) => match front.strip_suffix("m") {
            Some(digits) => time_in(digits.as_bytes()),
            None => time_in(front.as_bytes())?.checked_mul(1000),
        },
        None => time_in(text.as_bytes()),
    }
}

/// Converts a text such as `64k`, `1m` or `500` to a number from 1 to `greatest`.
///
/// The unit `k` is 1,024, and `m` is 1,048,576.
pub(crate) fn count_with_unit(greatest: usize, text: &str) -> Option<usize> {
    let (digits, unit) = match (text.strip_suffix("k"), text.strip_suffix("m")) {
        (Some(digits), _) => (digits, 1024),
        (None, Some(digits)) => (digits, 1_048_576),
        (None, None) => (text, 1),
    };
    let count = count_in(greatest, digits.as_bytes())?.checked_mul(unit)?;
    if count <= greatest { Some(count) } else { None }
}
