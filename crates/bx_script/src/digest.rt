ghost use Rattle.std.specs.Prelude.{◌≡◌};
ghost use Rattle.bx_script.specs.Replay.{is_digest};

use crate::nonce::are_hexadecimal;

const DIGEST_DIGITS: usize = 64;

pub(crate) fn is_digest(digits: &[u8]) -> bool
    ensures { result ≡ is_digest digits.now }
{
    digits.len() == DIGEST_DIGITS && are_hexadecimal(digits)
}
