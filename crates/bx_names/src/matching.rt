ghost use Rattle.std.specs.Prelude.{◌≡◌, ◌==◌, ◌&&◌, length};
ghost use Rattle.bx_names.specs.Segments.{is_absolute, segments};
ghost use Rattle.bx_names.specs.Globs.{matches};

use crate::name::ChannelName;
use crate::pattern::Pattern;
use crate::tail::Tail;

/// Returns `true` if `pattern` matches `name`.
///
/// A pattern without a wildcard matches the name that equals it. `*` matches exactly one segment,
/// and `**` matches one or more.
///
/// Bayeux 1.0, channel globbing.
pub fn matches(pattern: &Pattern, name: &ChannelName) -> bool
    ensures { result ≡ matches pattern.now name.now }
{
    let (own, tail) = pattern.split();
    let Some(rest) = name.as_str().strip_prefix(own) else {
        return false;
    };
    match tail {
        Tail::Exact => rest.is_empty(),
        Tail::One => is_one_segment(rest),
        Tail::Many => rest.starts_with('/'),
    }
}

fn is_one_segment(text: &str) -> bool
    ensures { result ≡ (is_absolute text.now && (length (segments text.now) == 1)) }
{
    text.rfind('/') == Some(0)
}
