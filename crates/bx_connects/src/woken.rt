ghost use Rattle.std.specs.Prelude.{◌≡◌, [], ◌∷◌, ◌++◌};

use bx_history::History;
use futures::task::Waker;
use std::marker::Model;

/// The wakers whose tasks were woken. Only [`wake`](Self::wake) adds to them.
///
/// Model: these wakers, in order.
#[derive(Drop)]
pub(crate) struct Woken {
    wakers: History<Waker>,
}

impl Model for Woken {
    ghost use Rattle.std.specs.Prelude.{List};
    ghost use Rattle.futures.specs.declared.task.waker.Waker.{Waker};

    ghost Value = { List Waker };

    ghost view = { λ w. w.wakers };
}

impl Woken {
    pub(crate) fn new() -> Woken
        ensures { result ≡ [] }
    {
        Woken {
            wakers: History::new(),
        }
    }

    pub(crate) fn wake(&mut self, waker: Waker)
        ensures { self.new ≡ self.old ++ waker ∷ [] }
    {
        self.wakers.push(&waker);
        waker.wake();
    }
}
