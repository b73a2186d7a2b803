ghost use Rattle.std.specs.Prelude.{◌≡◌, IsTrue};
ghost use Rattle.std.specs.Iterator.{YieldsFirstRef, item_count};
ghost use Rattle.bx_names.specs.Segments.{is_path, segments};

use std::marker::Model;

/// An iterator over the segments of a channel name or a pattern.
#[derive(Debug, Drop)]
pub struct Segments<'a> {
    rest: Option<&'a str>,
}

impl<'a> Model for Segments<'a> {
    ghost use Rattle.std.specs.Prelude.{ℕ, List, []};
    ghost use Rattle.std.specs.Option.{option_map_or};
    ghost use Rattle.bx_names.specs.Segments.{parts};

    ghost Value = { List (List ℕ) };

    ghost view = { λ s. option_map_or (λ rest. parts rest.now) s.rest [] };
}

/// Iterates over the segments of `path`; the empty path has none.
pub(crate) fn segments_of(path: &str) -> Segments<'_>
    requires { IsTrue (is_path path.now) }
    ensures { result ≡ segments path.now }
{
    Segments {
        rest: path.strip_prefix('/'),
    }
}

impl<'a> Iterator for Segments<'a> {
    type Item = &'a str;

    ghost next_gives = { YieldsFirstRef (λ s. s) };

    ghost remaining = { item_count (λ s. s) };

    fn next(&mut self) -> Option<&'a str> {
        let rest = self.rest?;
        match rest.split_once('/') {
            Some((first, others)) => {
                self.rest = Some(others);
                Some(first)
            }
            None => {
                self.rest = None;
                Some(rest)
            }
        }
    }
}
