use bx_entry::{Input, Listing};
use bx_history::History;
use logbook::{Gain, Pen, Plain, Play, Rule};
use std::marker::Brand;

/// Ghost: a step, which appends elements to the list or drops the window's oldest batches.
pub struct LogStep {
    pub elements: Listing,
    /// What the elements result from.
    pub inputs: History<Input>,
    pub dropped: u64,
}

/// Ghost: one record in the log of the window's steps.
pub struct LoggedStep {
    /// The first record only opens the log.
    pub step: LogStep,
    /// The key of the cell that the next step spends. Only its pen's holder can append that step.
    pub next: u64,
}

/// Ghost: the rule that the window's log keeps at all times.
///
/// The crate `logbook` keeps the log in a book of cells. A cell has a key, and a pen that can write
/// it until a step spends it. The first cell has the number of records. Each record has the key of
/// one more cell, which is spent, except for the last record's.
pub struct LogRule;

impl Rule<LoggedStep, u64> for LogRule {
    ghost use Rattle.std.specs.Prelude.{[]};
    ghost use base.Fml.{ftrue};
    ghost use Rattle.bx_window.specs.Rules.{IsKept};

    ghost holds = { λ cells log. IsKept cells log };

    ghost first = { [] };

    ghost hinted = { λ n log. Unit {0} };

    ghost shows = { λ log. [] };

    ghost keeps = { λ names log. ftrue };

    ghost moves = { λ ask before after answer. Unit {0} };
}

/// Ghost: the gain that states nothing.
///
/// A gain is what a caller of `logbook` learns from a move, apart from what the move states.
pub struct NoGain;

impl Gain<LoggedStep, u64> for NoGain {
    ghost use base.Fml.{ftrue};

    ghost after = { λ names about answer. ftrue };
}

/// Ghost: the `logbook` move that adds a cell, with whose pen a later step can be appended.
pub struct Spare;

impl Play<LoggedStep, u64> for Spare {
    ghost use Rattle.bx_window.specs.Rules.{Spares};

    ghost then = { Spares };
}

/// Ghost: the `logbook` move that appends the first record of the log.
pub struct Open;

impl Play<LoggedStep, u64> for Open {
    ghost use Rattle.bx_window.specs.Rules.{Opens};

    ghost then = { Opens };
}

/// Ghost: the `logbook` move that appends a step to the log.
pub struct Add;

impl Play<LoggedStep, u64> for Add {
    ghost use Rattle.bx_window.specs.Rules.{Adds};

    ghost then = { Adds };
}

/// Ghost: the `logbook` move that proves that a caller has seen at most the expected records.
pub struct Whole;

impl Play<LoggedStep, u64> for Whole {
    ghost use Rattle.bx_window.specs.Rules.{AreAll};

    ghost then = { AreAll };
}

/// A step to append.
#[derive(Drop)]
pub struct StepRequest<'a> {
    pub elements: &'a Listing,
    /// What the elements result from.
    pub inputs: &'a History<Input>,
    pub dropped: u64,
    /// The pen for the step after it.
    pub next: &'a Pen,
}

impl<'a> Plain<StepRequest<'a>, LoggedStep, u64> for Add {
    ghost use Rattle.std.specs.Prelude.{None};

    ghost ask = { λ a. record { step = record { elements = a.elements.now; inputs = a.inputs.now; dropped = a.dropped }; next = a.next.now.nib.key } };

    ghost state = { λ a. None };
}

// Adding a cell appends no step, so the step in `ask` has no effect.
impl Plain<u64, LoggedStep, u64> for Spare {
    ghost use Rattle.std.specs.Prelude.{None, []};

    ghost ask = { λ n. record { step = record { elements = []; inputs = []; dropped = n }; next = 0 } };

    ghost state = { λ n. None };
}

/// Ghost: constants of a window, chosen by the caller that creates it.
pub trait LogId {
    ghost use Rattle.std.specs.Prelude.{ℕ};
    ghost use Rattle.logbook.specs.Pages.{Book};
    ghost use Rattle.bx_advice.specs.declared.config.Config.{Config};

    /// Ghost: the `logbook` of the window's steps.
    ghost book: { Book };

    /// Ghost: the configuration that determines the entries of the list.
    ghost config: { Config };

    /// Ghost: the shard of a session, by its number and the number of shards.
    ghost placing: { ℕ → ℕ → ℕ };
}

impl LogId for Brand {
    ghost use Rattle.bx_window.specs.Steps.{unnamed};

    ghost book = { record { number = 0; log_name = 0; cells_name = 0 } };

    ghost config = { unnamed };

    ghost placing = { λ _ _. 0 };
}
