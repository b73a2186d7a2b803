ghost use Rattle.std.specs.Prelude.{◌≡◌, ◌+◌, ◌<◌, ◌↔◌, ◌++◌, List, ℕ, Ok, IsTrue, length, take};
ghost use Rattle.bx_names.specs.Segments.{path_of};
ghost use Rattle.bx_names.specs.Globs.{glob_text, matches};
ghost use Rattle.bx_names.specs.Faults.{read_name, read_pattern};
ghost use Rattle.bx_names.specs.declared.tail.Tail.TheVariants.{Exact, One, Many};

use crate::name::ChannelName;
use crate::pattern::Pattern;

/// Proves that a pattern without a wildcard matches the name with the same segments, and no other.
#[tactic(auto, using(crate::proofs::MatchLemmas::exact_decides))]
pub fn exact_pattern_matches_one_name(pattern: &Pattern, name: &ChannelName)
    requires { pattern.now.tail ≡ Exact }
    ensures { IsTrue (matches pattern.now name.now) ↔ (name.now ≡ pattern.now.segments) }
{}

/// Proves that `/a/*` matches a name if and only if it is `/a` followed by one more segment.
///
/// The same holds with any other segments in place of `/a`, here and in the next two laws.
#[tactic(auto, using(crate::proofs::MatchLemmas::one_decides))]
pub fn star_matches_one_more_segment(pattern: &Pattern, name: &ChannelName)
    requires { pattern.now.tail ≡ One }
    ensures { IsTrue (matches pattern.now name.now)
        ↔ ((length name.now ≡ length pattern.now.segments + 1)
        × (take (length pattern.now.segments) name.now ≡ pattern.now.segments)) }
{}

/// Proves that `/a/**` matches a name if and only if it is `/a` followed by one or more segments.
#[tactic(auto, using(crate::proofs::MatchLemmas::many_decides))]
pub fn double_star_matches_any_longer_name(pattern: &Pattern, name: &ChannelName)
    requires { pattern.now.tail ≡ Many }
    ensures { IsTrue (matches pattern.now name.now)
        ↔ ((rest : List (List ℕ)) × (0 < length rest) × (name.now ≡ pattern.now.segments ++ rest)) }
{}

/// Proves that `/a/*` matches the names that `/a/**` matches and that have one segment after `/a`.
pub fn stars_differ_on_depth(one: &Pattern, many: &Pattern, name: &ChannelName)
    requires one { one.now.tail ≡ One }
    requires many { many.now.tail ≡ Many }
    requires own { one.now.segments ≡ many.now.segments }
    ensures { IsTrue (matches one.now name.now)
        ↔ (IsTrue (matches many.now name.now) × (length name.now ≡ length many.now.segments + 1)) }
{}

/// Proves that the text of a name parses as the pattern with the same segments and no wildcard.
#[tactic(auto, using(crate::proofs::FaultLemmas::name_as_pattern))]
pub fn name_reads_as_pattern(name: &ChannelName)
    ensures { read_pattern (path_of name.now) ≡ Ok (record { segments = name.now; tail = Exact }) }
{
    // Prover: by the contract of `as_str`, the text parses as `name`.
    let _text = name.as_str();
}

/// Proves that parsing the text of a channel name results in the same name.
pub fn name_reads_back(name: &ChannelName)
    ensures { read_name (path_of name.now) ≡ Ok name.now }
{
    // Prover: by the contract of `as_str`, the text parses as `name`.
    let _text = name.as_str();
}

/// Proves that parsing the text of a pattern results in the same pattern.
pub fn pattern_reads_back(pattern: &Pattern)
    ensures { read_pattern (glob_text pattern.now) ≡ Ok pattern.now }
{
    // Prover: by the contract of `as_str`, the text parses as `pattern`.
    let _text = pattern.as_str();
}
