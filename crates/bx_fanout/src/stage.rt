ghost use Rattle.std.specs.Prelude.{◌≡◌, false, IfNone, IfSome};
ghost use Rattle.bx_fanout.specs.Stages.{is_collecting, is_complete};
ghost use Rattle.bx_fanout.specs.declared.stage.Stage.TheVariants.{Collecting, Complete, Idle};

use crate::current_input::CurrentInput;
use std::mem;

/// The progress of a round's last input.
#[derive(Drop)]
pub(crate) enum Stage {
    /// No input is in progress.
    Idle,
    /// Its answers are being collected. Some shard lacks entries.
    Collecting(CurrentInput),
    /// All its answers are collected; its out is not appended yet.
    Complete(CurrentInput),
}

impl Stage {
    pub(crate) fn collecting(&self) -> Option<&CurrentInput>
        ensures some { IfSome result (λ current. self.now ≡ Collecting current.now) }
        ensures none { IfNone result (is_collecting self.now ≡ false) }
    {
        match self {
            Stage::Collecting(current) => Some(current),
            _ => None,
        }
    }

    /// Takes the input in `Collecting`, and sets `self` to `Idle`.
    pub(crate) fn take_collecting(&mut self) -> Option<CurrentInput>
        ensures some { IfSome result (λ current. (self.old ≡ Collecting current) × (self.new ≡ Idle)) }
        ensures none { IfNone result ((is_collecting self.old ≡ false) × (self.new ≡ self.old)) }
    {
        match mem::replace(self, Stage::Idle) {
            Stage::Collecting(current) => Some(current),
            other => {
                *self = other;
                None
            }
        }
    }

    /// Takes the input in `Complete`, and sets `self` to `Idle`.
    pub(crate) fn take_complete(&mut self) -> Option<CurrentInput>
        ensures some { IfSome result (λ current. (self.old ≡ Complete current) × (self.new ≡ Idle)) }
        ensures none { IfNone result ((is_complete self.old ≡ false) × (self.new ≡ self.old)) }
    {
        match mem::replace(self, Stage::Idle) {
            Stage::Complete(current) => Some(current),
            other => {
                *self = other;
                None
            }
        }
    }
}
