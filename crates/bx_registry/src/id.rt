ghost use Rattle.std.specs.Prelude.{◌≡◌, ◌++◌, ◌<◌, ◌-◌, string_bytes, IfOk, OnOk, fold, drop};
ghost use Rattle.std.specs.Char.{digit_char};
ghost use Rattle.bx_entry.specs.Registry.{client_id, hex_digits};
ghost use Rattle.bx_registry.specs.Ids.{digit_value, hex_value, number_in, with_digit};

use bx_message::Text;
use std::alloc::{AllocError, Global};

const NONCE_DIGITS: usize = 32;

const NUMBER_DIGITS: usize = 16;

/// Creates a client id: 32 lower-case digits of `nonce`, then 16 of `number`.
pub(crate) fn client_id(alloc: Global, nonce: u128, number: u64) -> Result<Text, AllocError>
    ensures { IfOk result (λ id. id ≡ client_id nonce number) }
{
    let mut id = String::with_capacity(alloc, NONCE_DIGITS + NUMBER_DIGITS)?;
    push_hex(&mut id, nonce, NONCE_DIGITS)?;
    push_hex(&mut id, u128::from(number), NUMBER_DIGITS)?;
    Text::from_string(id)
}

// Appends the last `width` hexadecimal digits of `number`. On error, some of them may be appended.
fn push_hex(text: &mut String, number: u128, width: usize) -> Result<(), AllocError>
    ensures { OnOk result (string_bytes text.new ≡ string_bytes text.old ++ hex_digits width number) }
{
    if width == 0 {
        return Ok(());
    }
    push_hex(text, number / 16, width - 1)?;
    text.push(hex_digit((number % 16) as u8))
}

fn hex_digit(number: u8) -> char
    requires { number < 16 }
    ensures { result ≡ digit_char number }
{
    if number < 10 {
        (48 + number) as char
    } else {
        (87 + number) as char
    }
}

/// Returns the number in a client id: the digits after the nonce, modulo 2^64.
///
/// Of other texts, the result has no meaning.
pub(crate) fn number_in(client: &str) -> u64
    ensures { result ≡ number_in client.now }
{
    let id = client.as_bytes();
    if id.len() < NONCE_DIGITS {
        0
    } else {
        hex_value(&id[NONCE_DIGITS..])
    }
}

fn hex_value(digits: &[u8]) -> u64
    ensures { result ≡ hex_value digits.now }
{
    let mut number = 0;
    for digit in digits {
        number = with_digit(number, *digit);
    }
    number
}

fn with_digit(number: u64, digit: u8) -> u64
    ensures { result ≡ with_digit number digit }
{
    number.wrapping_mul(16).wrapping_add(digit_value(digit))
}

fn digit_value(digit: u8) -> u64
    ensures { result ≡ digit_value digit }
{
    if digit < 58 {
        u64::from(digit.saturating_sub(48))
    } else {
        u64::from(digit.saturating_sub(87))
    }
}
