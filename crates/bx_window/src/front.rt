ghost use Rattle.std.specs.Prelude.{◌≡◌, ◌+◌, ◌<◌, ◌≤◌, ◌^◌, ◌++◌, ◌∷◌, ◌⊎◌, ◌↔◌, ◌==◌, [], length, IsTrue, IfSome};
ghost use mathlib.Core.List.{IsPrefix};
ghost use Rattle.bx_advice.specs.Limits.{greatest_length};
ghost use Rattle.logbook.specs.Pages.{may_write};
ghost use Rattle.bx_window.specs.Steps.{adding, trimming, stepping, list_of, begin_of, before};
ghost use Rattle.bx_window.specs.Rules.{head_of};

use crate::law::{Add, LogId, LogRule, LoggedStep, NoGain, Open, Spare, StepRequest, Whole};
use bx_entry::{Input, Listing};
use bx_history::History;
use logbook::{Offer, Pen, Seen, Start, Word};
use std::marker::{Model, PhantomData};

/// A new window, whose log has not begun.
pub struct EmptyWindow {
    head: Word<LoggedStep, u64, LogRule>,
    seen: Seen<LoggedStep, u64, LogRule>,
    pub ghost empty: { seen.log ≡ [] },
    pub ghost head_is: { head ≡ head_of seen.book },
}

impl EmptyWindow {
    /// Creates a window that differs from all others. Does not allocate.
    pub fn new() -> EmptyWindow {
        let (seen, mut first, _second) = Seen::open(Start::alone(), 0, 0);
        EmptyWindow {
            head: Word::tracked(0, &mut first),
            seen,
        }
    }

    // Returns the writer's end of the log. `None`: the log has already begun, which does not
    // happen.
    pub(crate) fn begun<L: LogId>(self) -> Option<Book<L>>
        requires { self.seen.book ≡ L.book }
        ensures { IfSome result (λ b. b ≡ []) }
    {
        let EmptyWindow { head, mut seen } = self;
        let pen = spare(&head, &seen);
        let (elements, inputs) = (Listing::new(), History::new());
        let asked = StepRequest {
            elements: &elements,
            inputs: &inputs,
            dropped: 0,
            next: &pen,
        };
        let mut offer: Offer<LoggedStep, u64, LogRule, NoGain> = seen.plain::<
            NoGain,
            StepRequest<'_>,
            Add,
        >(&asked);
        let mut none = seen.no_pen();
        let found = head.compare_exchange::<Open, NoGain>(0, 1, &mut seen, &mut offer, &mut none);
        if found != 0 {
            return None;
        }
        Some(Book {
            head,
            pen,
            steps: 0,
            len: 0,
            begin: 0,
            seen,
            of: PhantomData,
        })
    }
}

// Adds a cell to the log's `logbook`, and returns its pen, the right to write it. Each step names a
// cell. Only the holder of that cell's pen can append the next step.
fn spare(head: &Word<LoggedStep, u64, LogRule>, seen: &Seen<LoggedStep, u64, LogRule>) -> Pen
    requires { head.now ≡ head_of seen.now.book }
    ensures book { result.book ≡ seen.now.book }
    ensures right { result.nib.right ≡ may_write }
{
    let mut pen = seen.no_pen();
    let mut all = seen.again();
    let mut offer: Offer<LoggedStep, u64, LogRule, NoGain> = seen.plain::<NoGain, u64, Spare>(&0);
    let _ = head.compare_exchange::<Spare, NoGain>(0, 0, &mut all, &mut offer, &mut pen);
    let _word: Word<LoggedStep, u64, LogRule> = Word::tracked(0, &mut pen);
    pen
}

/// The writer's end of a window's log of publishes and trims.
///
/// Only its holder can append a step, so its front is the whole log.
#[derive(Drop)]
pub struct Book<L: LogId> {
    head: Word<LoggedStep, u64, LogRule>,
    pen: Pen,
    steps: u64,
    len: u64,
    begin: u64,
    seen: Seen<LoggedStep, u64, LogRule>,
    of: PhantomData<L>,
}

impl<L: LogId> Model for Book<L> {
    ghost use Rattle.std.specs.Prelude.{◌≡◌, ◌≤◌, ◌+◌, ◌^◌, List, length};
    ghost use Rattle.bx_advice.specs.Limits.{greatest_length};
    ghost use Rattle.logbook.specs.Pages.{may_write};
    ghost use Rattle.bx_window.specs.declared.law.LogStep.{LogStep};
    ghost use Rattle.bx_window.specs.Rules.{steps_of, key_of, head_of};
    ghost use Rattle.bx_window.specs.Steps.{list_of, begin_of};

    ghost Value = { List LogStep };

    ghost view = { λ b. steps_of b.seen.log };

    ghost invariant = { λ b. (b.steps + 1 ≡ length b.seen.log) × (b.len ≡ length (list_of (steps_of b.seen.log))) × (b.begin ≡ begin_of (steps_of b.seen.log)) × (b.seen.book ≡ L.book) × (b.len ≤ greatest_length) × (b.head ≡ head_of L.book) × (b.pen.book ≡ L.book) × (b.pen.nib.right ≡ may_write) × (b.pen.nib.key ≡ key_of b.seen.log) × (b.steps ≤ 2 ^ 62) };
}

impl<L: LogId> Book<L> {
    pub(crate) fn front(&self) -> Front<L>
        ensures { result ≡ self.now }
    {
        Front {
            steps: self.steps,
            len: self.len,
            begin: self.begin,
            seen: self.seen.again(),
            of: PhantomData,
        }
    }

    // Returns the front with all steps so far, which covers `other`: only `self` can append steps.
    pub(crate) fn beyond(&mut self, other: &Front<L>) -> Front<L>
        ensures same { self.new ≡ self.old }
        ensures whole { result ≡ self.old }
        ensures begins { IsPrefix other.now self.old }
    {
        let mut both = self.seen.again();
        both.learn(&other.seen);
        let mut offer: Offer<LoggedStep, u64, LogRule, NoGain> = both.plain::<NoGain, u64, Spare>(
            &0,
        );
        let old = self.steps + 1;
        let _ = self
            .head
            .compare_exchange::<Whole, NoGain>(old, old, &mut both, &mut offer, &mut self.pen);
        self.front()
    }

    // Appends a step.
    //
    // `inputs`: what `elements` result from. `len`, `begin`: the end of the list and the beginning
    // of the window after the step. The log must have fewer than 2^62 steps.
    fn step(
        &mut self,
        elements: &Listing,
        inputs: &History<Input>,
        dropped: u64,
        len: u64,
        begin: u64,
    )
        requires room { length self.old < 2 ^ 62 }
        requires len { len ≡ length (list_of (self.old ++ stepping elements.now inputs.now dropped ∷ [])) }
        requires begin { begin ≡ begin_of (self.old ++ stepping elements.now inputs.now dropped ∷ []) }
        requires bounded { len ≤ greatest_length }
        ensures { self.new ≡ self.old ++ stepping elements.now inputs.now dropped ∷ [] }
    {
        let next = spare(&self.head, &self.seen);
        let asked = StepRequest {
            elements,
            inputs,
            dropped,
            next: &next,
        };
        let mut seen = self.seen.again();
        let mut offer: Offer<LoggedStep, u64, LogRule, NoGain> = seen.plain::<
            NoGain,
            StepRequest<'_>,
            Add,
        >(&asked);
        let old = self.steps + 1;
        let _ = self
            .head
            .compare_exchange::<Add, NoGain>(old, old + 1, &mut seen, &mut offer, &mut self.pen);
        self.pen = next;
        self.steps += 1;
        self.len = len;
        self.begin = begin;
        self.seen = seen;
    }

    // Appends the step that adds the `count` elements. The log must have fewer than 2^62 steps.
    pub(crate) fn add(&mut self, elements: &Listing, inputs: &History<Input>, count: u64)
        requires room { length self.old < 2 ^ 62 }
        requires count { length elements.now ≡ count }
        requires places { length (list_of self.old) + count ≤ greatest_length }
        ensures { self.new ≡ self.old ++ adding elements.now inputs.now ∷ [] }
    {
        let front = self.front();
        self.step(elements, inputs, 0, front.len() + count, front.begin());
    }

    // Appends the step that drops the `count` oldest batches, after which the window begins at
    // `begin`. The log must have fewer than 2^62 steps.
    pub(crate) fn trim(&mut self, count: u64, begin: u64)
        requires room { length self.old < 2 ^ 62 }
        requires begin { begin ≡ begin_of (self.old ++ trimming count ∷ []) }
        ensures { self.new ≡ self.old ++ trimming count ∷ [] }
    {
        let len = self.front().len();
        self.step(&Listing::new(), &History::new(), count, len, begin);
    }
}

/// A prefix of the window's log of publishes and trims, and so of the list.
///
/// Of two fronts of one window, the shorter is a prefix of the longer, whatever was trimmed since.
#[derive(Drop)]
pub struct Front<L: LogId> {
    steps: u64,
    len: u64,
    begin: u64,
    seen: Seen<LoggedStep, u64, LogRule>,
    of: PhantomData<L>,
}

impl<L: LogId> Model for Front<L> {
    ghost use Rattle.std.specs.Prelude.{◌≡◌, ◌≤◌, List, length};
    ghost use Rattle.bx_advice.specs.Limits.{greatest_length};
    ghost use Rattle.bx_window.specs.declared.law.LogStep.{LogStep};
    ghost use Rattle.bx_window.specs.Rules.{steps_of};
    ghost use Rattle.bx_window.specs.Steps.{list_of, begin_of};

    ghost Value = { List LogStep };

    ghost view = { λ f. steps_of f.seen.log };

    ghost invariant = { λ f. (f.steps ≡ length (steps_of f.seen.log)) × (f.len ≡ length (list_of (steps_of f.seen.log))) × (f.begin ≡ begin_of (steps_of f.seen.log)) × (f.seen.book ≡ L.book) × (f.len ≤ greatest_length) };
}

impl<L: LogId> Front<L> {
    /// Returns the length of the list, as far as this front shows it.
    pub fn len(&self) -> u64
        ensures end { result ≡ length (list_of self.now) }
        ensures bounded { result ≤ greatest_length }
    {
        self.len
    }

    /// Returns the place where the window begins, as far as this front shows it.
    ///
    /// Without batches, this is the end of the list.
    pub fn begin(&self) -> u64
        ensures { result ≡ begin_of self.now }
    {
        self.begin
    }

    /// Returns the number of steps: publishes of one batch, and trims.
    pub fn steps(&self) -> u64
        ensures { result ≡ length self.now }
    {
        self.steps
    }

    /// Returns a copy of `self`. Does not allocate.
    pub fn again(&self) -> Front<L>
        ensures { result ≡ self.now }
    {
        Front {
            steps: self.steps,
            len: self.len,
            begin: self.begin,
            seen: self.seen.again(),
            of: PhantomData,
        }
    }

    /// Returns a copy of the longer of `self` and `other`. Does not allocate.
    pub fn longer(&self, other: &Front<L>) -> Front<L>
        ensures one { (result ≡ self.now) ⊎ (result ≡ other.now) }
        ensures this { IsPrefix self.now result }
        ensures that { IsPrefix other.now result }
    {
        let mut both = self.seen.again();
        both.learn(&other.seen);
        if self.steps < other.steps {
            other.again()
        } else {
            self.again()
        }
    }

    /// Returns `true` if `other` has no more steps than `self`, so that it is a prefix of `self`.
    pub fn covers(&self, other: &Front<L>) -> bool
        ensures begins { IsTrue result → IsPrefix other.now self.now }
        ensures steps { IsTrue result ↔ length other.now ≤ length self.now }
    {
        let mut both = self.seen.again();
        both.learn(&other.seen);
        other.steps <= self.steps
    }

    #[tactic(auto, using(crate::proofs::Fronts::before_prefix))]
    pub(crate) fn follows(&self, other: &Front<L>) -> bool
        ensures next { IsTrue result → before self.now ≡ other.now }
        ensures steps { result ≡ (length self.now == length other.now + 1) }
    {
        self.covers(other) && self.steps - other.steps == 1
    }
}
