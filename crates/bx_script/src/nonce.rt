ghost use Rattle.std.specs.Prelude.{◌≡◌};
ghost use Rattle.std.specs.Char.{is_ascii_hexdigit};
ghost use Rattle.std.specs.List.{list_all};
ghost use Rattle.bx_script.specs.Replay.{nonce_of};

const NONCE_DIGITS: usize = 32;

// Parses 32 hexadecimal digits of either case.
pub(crate) fn nonce_of(digits: &[u8]) -> Option<u128>
    ensures { result ≡ nonce_of digits.now }
{
    if digits.len() != NONCE_DIGITS || !are_hexadecimal(digits) {
        return None;
    }
    match str::from_utf8(digits) {
        Ok(text) => u128::from_str_radix(text, 16).ok(),
        Err(_) => None,
    }
}

pub(crate) fn are_hexadecimal(bytes: &[u8]) -> bool
    ensures { result ≡ list_all is_ascii_hexdigit bytes.now }
{
    bytes.iter().all(|byte| byte.is_ascii_hexdigit())
}
