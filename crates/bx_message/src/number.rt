ghost use Rattle.std.specs.Prelude.{◌≡◌};
ghost use Rattle.std.specs.Char.{is_ascii_digit};
ghost use Rattle.std.specs.List.{list_all};
ghost use Rattle.bx_message.specs.Fields.{number_of};
ghost use Rattle.bx_message.specs.Numbers.{count_in, limit_in, time_in};

use bx_advice::Limit;

/// Parses a number of at most 2^64-1, written in digits only.
///
/// Leading zeros are allowed.
///
/// Policy of this server.
pub fn number_of(digits: &[u8]) -> Option<u64>
    ensures { result ≡ number_of digits.now }
{
    if !are_digits(digits) {
        return None;
    }
    match str::from_utf8(digits) {
        Ok(text) => text.parse().ok(),
        Err(_) => None,
    }
}

/// Parses a number from 1 to `greatest` as [`number_of`] does.
pub fn count_in(greatest: usize, digits: &[u8]) -> Option<usize>
    ensures { result ≡ count_in greatest digits.now }
{
    let number = usize::try_from(number_of(digits)?).ok()?;
    if 1 <= number && number <= greatest {
        Some(number)
    } else {
        None
    }
}

/// Parses a number below 2^32 as [`number_of`] does.
pub fn time_in(digits: &[u8]) -> Option<u32>
    ensures { result ≡ time_in digits.now }
{
    u32::try_from(number_of(digits)?).ok()
}

/// Parses a value of `limit`, from 1 to the limit's greatest value.
///
/// If the limit's default is beyond that value, `-` is the default.
pub fn limit_in(limit: Limit, word: &[u8]) -> Option<usize>
    ensures { result ≡ limit_in limit word.now }
{
    if limit.greatest() < limit.standard() && word == b"-".as_slice() {
        Some(limit.standard())
    } else {
        count_in(limit.greatest(), word)
    }
}

fn are_digits(bytes: &[u8]) -> bool
    ensures { result ≡ list_all is_ascii_digit bytes.now }
{
    bytes.iter().all(|byte| byte.is_ascii_digit())
}
