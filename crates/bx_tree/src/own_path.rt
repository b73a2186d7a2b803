ghost use Rattle.std.specs.Prelude.{◌≡◌};
ghost use Rattle.bx_names.specs.Segments.{path_of};
ghost use Rattle.bx_tree.specs.Whole.{AreWhole};

use bx_names::{Pattern, Tail};

/// Returns the text of `pattern` without a final `/*` or `/**`.
pub(crate) fn own_path(pattern: &Pattern) -> &str
    ensures path { result.now ≡ path_of pattern.now.segments }
    ensures whole { AreWhole pattern.now.segments }
{
    let text = pattern.as_str();
    match pattern.tail() {
        Tail::Exact => text,
        Tail::One => text.strip_suffix("/*").unwrap_or(text),
        Tail::Many => text.strip_suffix("/**").unwrap_or(text),
    }
}
