ghost use Rattle.std.specs.Prelude.{◌≡◌, fold};
ghost use Rattle.bx_names.specs.InForce.{with_pattern, without_pattern};

use bx_history::{History, Lists};
use bx_names::Pattern;

/// Returns `in_force`, followed by those of `patterns` that are new.
pub(crate) fn with_all(in_force: &History<Pattern>, patterns: &[Pattern]) -> History<Pattern>
    ensures { result ≡ fold with_pattern in_force.now patterns.now }
{
    History::of::<(&History<Pattern>, &[Pattern]), Subscribed>(&(in_force, patterns))
}

pub(crate) fn without_all(in_force: &History<Pattern>, patterns: &[Pattern]) -> History<Pattern>
    ensures { result ≡ fold without_pattern in_force.now patterns.now }
{
    History::of::<(&History<Pattern>, &[Pattern]), Unsubscribed>(&(in_force, patterns))
}

struct Subscribed;

impl<'a> Lists<(&'a History<Pattern>, &'a [Pattern]), Pattern> for Subscribed {
    ghost use Rattle.std.specs.Prelude.{fold};
    ghost use Rattle.bx_names.specs.InForce.{with_pattern};

    ghost listed = { λ p. fold with_pattern p.0.now p.1.now };
}

struct Unsubscribed;

impl<'a> Lists<(&'a History<Pattern>, &'a [Pattern]), Pattern> for Unsubscribed {
    ghost use Rattle.std.specs.Prelude.{fold};
    ghost use Rattle.bx_names.specs.InForce.{without_pattern};

    ghost listed = { λ p. fold without_pattern p.0.now p.1.now };
}
