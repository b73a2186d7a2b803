ghost use Rattle.bx_entry.specs.Windows as windows;

use bx_history::Lists;
use bx_message::SharedEvent;
use std::marker::Model;

/// Ghost: an event with the place of its publish.
pub struct Publication {
    ghost publication: { windows.Publication },
}

impl Model for Publication {
    ghost use Rattle.std.specs.Borrow.{ftrue};
    ghost use Rattle.bx_entry.specs.Windows as windows;

    ghost Value = { windows.Publication };

    ghost view = { λ p. p.publication };

    ghost also_owns = { λ _. ftrue };
}

pub(crate) struct Published;

impl<'a> Lists<(u64, &'a SharedEvent), Publication> for Published {
    ghost use Rattle.std.specs.Prelude.{[], ◌∷◌};

    ghost listed = { λ p. record { place = p.0; event = p.1.now } ∷ [] };
}
