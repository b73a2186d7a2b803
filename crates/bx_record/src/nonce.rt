ghost use Rattle.std.specs.Prelude.{◌≡◌, ◌<◌, ◌++◌, OnOk};
ghost use Rattle.std.specs.Char.{digit_char};
ghost use Rattle.bx_entry.specs.Registry.{hex_digits};
ghost use Rattle.bx_record.specs.Record.{nonce_digits};

use std::alloc::AllocError;

const NONCE_DIGITS: usize = 32;

/// Appends the 32 hexadecimal digits of `nonce`, in lower case.
#[tactic(auto, unfolding(crate::specs::Record::nonce_digits))]
pub(crate) fn push_nonce_digits(text: &mut Vec<u8>, nonce: u128) -> Result<(), AllocError>
    ensures { OnOk result (text.new.items ≡ text.old.items ++ nonce_digits nonce) }
{
    push_hex(text, nonce, NONCE_DIGITS)
}

fn push_hex(text: &mut Vec<u8>, number: u128, width: usize) -> Result<(), AllocError>
    ensures { OnOk result (text.new.items ≡ text.old.items ++ hex_digits width number) }
{
    if width == 0 {
        return Ok(());
    }
    push_hex(text, number / 16, width - 1)?;
    text.push(hex_digit((number % 16) as u8))?;
    Ok(())
}

fn hex_digit(number: u8) -> u8
    requires { number < 16 }
    ensures { result ≡ digit_char number }
{
    if number < 10 {
        48 + number
    } else {
        87 + number
    }
}
