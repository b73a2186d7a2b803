ghost use Rattle.std.specs.Prelude.{◌≡◌, ◌<◌, ◌≤◌, false, length, slice_index, option_map, IsTrue, IfSome};
ghost use Rattle.std.specs.List.{prefix_len};
ghost use Rattle.std.specs.Str.{IsCharBoundary};
ghost use Rattle.json.specs.Word.{is_space};
ghost use Rattle.json.specs.Lex.{in_string};
ghost use Rattle.json.specs.Align.{span};
ghost use Rattle.json.specs.Run.{is_plain};
ghost use Rattle.bx_cut.specs.Cut.{is_word_byte, outside, nest_len, value_len, begins_with, after_first, IsRest};

fn is_space(byte: u8) -> bool
    ensures value { result ≡ is_space byte }
    ensures ascii { IsTrue result → byte < 128 }
{
    matches!(byte, b' ' | b'\t' | b'\n' | b'\r')
}

pub(crate) fn blank_len(text: &str) -> usize
    ensures value { result ≡ prefix_len is_space text.now }
    ensures boundary { IsCharBoundary text.now result }
{
    let bytes = text.as_bytes();
    let mut at = 0;
    while at < bytes.len() && is_space(bytes[at]) {
        at += 1;
    }
    at
}

// Returns the length of `text` before its first quote, backslash or control character.
pub(crate) fn plain_len(text: &str) -> usize
    ensures value { result ≡ prefix_len is_plain text.now }
    ensures boundary { IsCharBoundary text.now result }
{
    let bytes = text.as_bytes();
    let mut at = 0;
    while at < bytes.len() && bytes[at] != b'"' && bytes[at] != b'\\' && bytes[at] >= 0x20 {
        at += 1;
    }
    at
}

// Returns the length of a string through its closing quote, or of all `text` if there is none.
//
// `text` begins after the opening quote.
#[tactic(auto, using(crate::proofs::Reach::string_ends))]
fn string_len(text: &[u8]) -> usize
    ensures value { result ≡ span in_string text.now }
    ensures bound { result ≤ length text.now }
{
    let mut escaped = false;
    for (at, byte) in text.iter().enumerate() {
        if escaped {
            escaped = false;
        } else if *byte == b'"' {
            return at + 1;
        } else {
            escaped = *byte == b'\\';
        }
    }
    text.len()
}

// Returns the length of an array or object through its closing bracket, or of all `text`.
//
// `text` begins after the opening bracket.
#[tactic(auto, using(crate::proofs::Reach::nest_ends))]
fn nested_len(text: &[u8]) -> usize
    ensures value { result ≡ nest_len outside 0 text.now }
    ensures bound { result ≤ length text.now }
{
    let mut open = 0usize;
    let mut at = 0;
    while at < text.len() {
        let byte = text[at];
        at += 1;
        match byte {
            b'"' => at += string_len(&text[at..]),
            b'{' | b'[' => open += 1,
            b'}' | b']' if open == 0 => return at,
            b'}' | b']' => open -= 1,
            _ => {}
        }
    }
    text.len()
}

fn is_word_byte(byte: u8) -> bool
    ensures value { result ≡ is_word_byte byte }
    ensures ascii { result ≡ false → byte < 128 }
{
    !is_space(byte) && !matches!(byte, b'{' | b'}' | b'[' | b']' | b':' | b',')
}

fn word_len(text: &[u8]) -> usize
    ensures value { result ≡ prefix_len is_word_byte text.now }
    ensures bound { result ≤ length text.now }
    ensures ends { result < length text.now → slice_index text.now result < 128 }
{
    let mut at = 0;
    while at < text.len() && is_word_byte(text[at]) {
        at += 1;
    }
    at
}

// Returns the length of the JSON value at the start of `text`, or 0.
#[tactic(auto, using(crate::proofs::Reach::value_ends))]
pub(crate) fn value_len(text: &str) -> usize
    ensures value { result ≡ value_len text.now }
    ensures boundary { IsCharBoundary text.now result }
{
    let bytes = text.as_bytes();
    if bytes.is_empty() {
        return 0;
    }
    let rest = &bytes[1..];
    match bytes[0] {
        b'"' => 1 + string_len(rest),
        b'{' | b'[' => 1 + nested_len(rest),
        _ => word_len(bytes),
    }
}

pub(crate) fn begins_with(text: &str, byte: u8) -> bool
    ensures { result ≡ begins_with byte text.now }
{
    match text.as_bytes().first() {
        Some(first) => *first == byte,
        None => false,
    }
}

#[tactic(auto, unfolding(crate::specs::Cut::after_first))]
pub(crate) fn after_first(text: &str, byte: u8) -> Option<&str>
    requires { byte < 128 }
    ensures value { option_map (λ rest. rest.now) result ≡ after_first byte text.now }
    ensures rest { IfSome result (λ rest. IsRest rest.now text.now) }
    ensures shorter { IfSome result (λ rest. length rest.now < length text.now) }
{
    if begins_with(text, byte) {
        Some(text.split_at(1).1)
    } else {
        None
    }
}
