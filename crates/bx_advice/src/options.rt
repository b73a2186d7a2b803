ghost use Rattle.std.specs.Prelude.{◌≡◌};
ghost use Rattle.bx_advice.specs.Options.{options_in};

/// Features that are off by default: see the fields with these names in [`Config`](crate::Config).
#[derive(Clone, Copy, Debug, PartialEq, Eq)]
pub struct Options {
    pub ride: bool,
    pub anonymous: bool,
}

impl Options {
    /// Parses `r` as `ride`, `a` as `anonymous`, `ra` as both and `-` as neither.
    pub fn read(word: &[u8]) -> Option<Options>
        ensures { result ≡ options_in word.now }
    {
        let (ride, anonymous) = match word {
            b"-" => (false, false),
            b"r" => (true, false),
            b"a" => (false, true),
            b"ra" => (true, true),
            _ => return None,
        };
        Some(Options { ride, anonymous })
    }
}
