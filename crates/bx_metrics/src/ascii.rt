use std::alloc::{AllocError, Global};

/// Appends `line`, a value in JSON, with an escape for each character beyond ASCII.
///
/// A terminal may obey some of them, or show what follows in another order.
pub(crate) fn push_ascii(
    alloc: Global,
    text: &mut Vec<u8>,
    line: Vec<u8>,
) -> Result<(), AllocError> {
    let line = String::from_utf8(line).unwrap_or(String::new(alloc));
    for c in line.as_str().chars() {
        if c.is_ascii() {
            text.push(c as u8)?;
            continue;
        }
        let mut units = [0; 2];
        for unit in c.encode_utf16(&mut units) {
            text.extend_from_slice(format!(in alloc; "\\u{unit:04x}")?.as_bytes())?;
        }
    }
    Ok(())
}
