//! Laws of a world, for every configuration, placing and schedule.
//!
//! A schedule is a list of steps in any order, which admit, apply entries, and take answers.
ghost use Rattle.bx_world.specs.Schedules.{AnswersAreFiled, AnswersCanBeTaken, ListIsAdmitted, NoneTakenTwice, SchedulesCompose, TakesAreAnswers};
ghost use Rattle.bx_world.specs.Headline.{BatchesRepeat, Headline, NoneGivenAgain, PlainGivenOnce, RepliesAreAnswers};

/// Proves that the list grows by exactly the messages and ticks that are admitted, in order.
pub fn list_grows_as_admitted()
    ensures { ListIsAdmitted }
{}

/// Proves that each taken answer is that of a server that handles one message at a time.
pub fn taken_answers_match_one_thread()
    ensures { TakesAreAnswers }
{}

/// Proves that an answer is filed once its session's shard has applied the entry that gives it.
///
/// The answer stays filed until it is taken.
pub fn answers_are_filed()
    ensures { AnswersAreFiled }
{}

/// Proves that the step `Take` returns the answer filed under its ticket, even without free memory.
pub fn answers_can_be_taken()
    ensures { AnswersCanBeTaken }
{}

/// Proves that no answer is taken twice.
pub fn no_answer_taken_twice()
    ensures { NoneTakenTwice }
{}

/// Proves that two schedules run in sequence have the result of one schedule with all their steps.
pub fn schedules_compose()
    ensures { SchedulesCompose }
{}

/// Proves that each immediate reply is that of a server that handles one message at a time.
pub fn replies_match_one_thread()
    ensures { RepliesAreAnswers }
{}

/// Proves that no answer repeats an event that its session has already acknowledged.
///
/// If the session does not acknowledge batches, no answer repeats an event that was already sent.
pub fn no_event_given_again()
    ensures { NoneGivenAgain }
{}

/// Proves that no event is in two answers of a session that does not acknowledge.
pub fn plain_events_given_once()
    ensures { PlainGivenOnce }
{}

/// Proves that a connect that acknowledges nothing new gets the outstanding batch again.
///
/// This holds for a session that has not overflowed.
pub fn batches_repeat()
    ensures { BatchesRepeat }
{}

/// Proves that a world answers like a server that handles one message at a time:
///
/// - Each immediate reply and each taken answer is that of a server that handles one message at a
///   time.
/// - No answer is taken twice.
/// - A connect that acknowledges nothing new while a batch is outstanding gets that batch again,
///   unless the session has overflowed.
/// - An acknowledged event is never sent again.
/// - No event is in two answers of a session that does not acknowledge.
pub fn headline()
    ensures { Headline }
{}
