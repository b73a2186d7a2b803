// Names of callbacks, the functions that a script of callback-polling calls.
ghost use Rattle.std.specs.Prelude.{◌≡◌};
ghost use Rattle.std.specs.List.{list_all};
ghost use Rattle.bx_transport.specs.Forms.{is_callback, is_callback_byte};

// The name if a query has no `jsonp`. Policy of this server.
pub(crate) const DEFAULT_CALLBACK: &str = "jsonpcallback";

// The maximum length of a callback's name, in bytes. Policy of this server.
const CALLBACK_LIMIT: usize = 256;

// Returns `true` for 1 to 256 ASCII letters, digits, and characters of `_ $ . - [ ]`.
//
// A script contains the name without escapes.
pub(crate) fn is_callback(name: &str) -> bool
    ensures { result ≡ is_callback name.now }
{
    let length = name.len();
    (length > 0) & (length <= CALLBACK_LIMIT) & has_callback_bytes(name)
}

fn has_callback_bytes(name: &str) -> bool
    ensures { result ≡ list_all is_callback_byte name.now }
{
    name.as_bytes().iter().all(|byte| is_callback_byte(*byte))
}

fn is_callback_byte(byte: u8) -> bool
    ensures { result ≡ is_callback_byte byte }
{
    byte.is_ascii_alphanumeric() || matches!(byte, b'_' | b'$' | b'.' | b'-' | b'[' | b']')
}
