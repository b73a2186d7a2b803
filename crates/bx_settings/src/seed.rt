ghost use Rattle.std.specs.Prelude.{◌≡◌};
ghost use Rattle.bx_settings.specs.Seed.{seed_in};

use hex::FromHex;
use std::io::{ErrorKind, Read};
use std::random::RandomSource;
use std::rt::Files;
use std::{fs, io};

// The greatest length of a seed file in bytes.
const MAX_FILE_BYTES: u64 = 1024;

/// Parses a seed of 64 hexadecimal digits.
///
/// The first two digits are the first byte, the more significant digit first.
pub fn read_digits(digits: &[u8]) -> Option<[u8; 32]>
    ensures { result ≡ seed_in digits.now }
{
    <[u8; 32] as FromHex>::from_hex(digits).ok()
}

/// Reads the seed from the file at `path`: 64 hexadecimal digits, which white space may follow.
///
/// # Errors
///
/// The error of the file, or `InvalidData` if it has anything else, or more than 1024 bytes.
pub fn read_seed<R: Files + Alloc>(rt: &R, path: &str) -> io::Result<[u8; 32]> {
    let mut text = Vec::new(rt.alloc());
    fs::open(rt, path)?
        .take(MAX_FILE_BYTES + 1)
        .read_to_end(&mut text)?;
    if text.len() as u64 > MAX_FILE_BYTES {
        return Err(ErrorKind::InvalidData.into());
    }
    match read_digits(text.trim_ascii_end()) {
        Some(seed) => Ok(seed),
        None => Err(ErrorKind::InvalidData.into()),
    }
}

/// Returns a seed of random bytes from the operating system.
pub fn draw_seed<R: RandomSource>(rt: &R) -> io::Result<[u8; 32]> {
    let mut seed = [0; 32];
    rt.fill_bytes(&mut seed)?;
    Ok(seed)
}
