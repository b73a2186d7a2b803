//! Laws that hold for every configuration and every list.
//!
//! Some suppose that a batch may have at least one event: `limits.batch` is not 0.
//!
//! - A plain session does not acknowledge.
//! - An event is done if it is acknowledged, or sent by a plain session.
//! - A rider is the last message of a request, if its reply also carries the session's waiting
//!   events.
//! - An input is complete once all its messages are answered.
//! - A front of a log is a prefix of it, and may be all of it.
ghost use Rattle.bx_theory.specs.Laws.{DoneNeverFalls, CountsAgree, EntriesInOrder, AnswersStay, BatchRepeats, NeverGivenAgain, NoEventTwice, GivenOnce, NoRidersUnasked, RidersArePlain};
ghost use Rattle.bx_theory.specs.Readings.{LiveReading, InForceReading, HeldReading, EndingReading, OverflowReading, QueueBounded, DueReading, ClockReading, SameLive, AcceptedWhileLive, PublishesOfNone, ClosedIsOver};
ghost use Rattle.bx_theory.specs.Riding.{RiderReading, NothingRidesBeside, OthersNeverRide, RiderGiven};
ghost use Rattle.bx_theory.specs.Events.{EventsWerePublished, PublishesAreEvents, EventsRise, GivenWasPublished};
ghost use Rattle.bx_theory.specs.Lines.{HeldComeLast, InputsGoOn, LinesGoOn, NoncesGoOn, NoncesStay, ScriptsSayNone};
ghost use Rattle.bx_theory.specs.Outs.{OutsGrow};
ghost use Rattle.bx_theory.specs.Opens.{OpenIsHeld, OpensGoOn, OutsAdd};
ghost use Rattle.bx_theory.specs.Sole.{OpenAreSole, OpensAscend};
ghost use Rattle.bx_entry.specs.Keeping.{KeptSteps, KeptRuns, KeptInBounds};
ghost use Rattle.bx_theory.specs.Fronts.{AcknowledgedEventsAreNotGivenAgain, AnswersShareNoEvent, RepeatedConnectGetsTheSameBatch};
ghost use Rattle.bx_laws.specs.EventOrder.{AnswersInOrder, EventsInOneOrder};
ghost use Rattle.bx_laws.specs.Readers.{ReadOnlyRequestPublishesAsAllowed, ReadersPublishAsAllowed};
ghost use Rattle.bx_laws.specs.ReadBack.{RepliesReadBack, EventsReadBack, BodiesReadBack};

/// Proves that more entries never lower the number of events that a session never sends again.
pub fn done_event_count_never_falls()
    ensures { DoneNeverFalls }
{}

/// Proves that the queue, the batch and the counts of a session always agree.
///
/// The outstanding batch is at the start of the queue. No event waits while a connect is held.
pub fn queue_batch_and_counts_agree()
    ensures { CountsAgree }
{}

/// Proves that the entries of a list are at consecutive places from 0.
pub fn entries_in_order()
    ensures { EntriesInOrder }
{}

/// Proves that an answer depends only on the list up to the entry that gives it.
pub fn answers_ignore_later_entries()
    ensures { AnswersStay }
{}

/// Proves that a connect that acknowledges nothing new gets the outstanding batch again.
///
/// It has the same number and events. The session must not have overflowed.
pub fn batch_repeats()
    ensures { BatchRepeats }
{}

/// Proves that an event is never sent again after it is acknowledged, or sent by a plain session.
pub fn never_given_again()
    ensures { NeverGivenAgain }
{}

/// Proves that each event in an answer was published after all events that were done before it.
///
/// So done events are never sent again.
pub fn no_event_twice()
    ensures { NoEventTwice }
{}

/// Proves that the events sent so far are a session's first ones, in order, each in one answer.
///
/// This is so for a plain session. Events that still wait, or that an overflow drops, are not sent.
pub fn given_once()
    ensures { GivenOnce }
{}

/// Proves that a repeated connect gets the outstanding batch again, over every front of a log.
///
/// The connect acknowledges nothing new, and its session has not overflowed. The number and the
/// events are those of the answer that formed the batch.
pub fn repeated_connect_gets_the_same_batch()
    ensures { RepeatedConnectGetsTheSameBatch }
{}

/// Proves that no event is in two answers of a plain session.
///
/// Each answer may be over its own front of a log.
pub fn answers_share_no_event()
    ensures { AnswersShareNoEvent }
{}

/// Proves that no answer has an event that was acknowledged at the answer's place or before.
///
/// For a plain session, no answer has an event that was sent before the answer's place. The answer
/// may be over any front of a log.
pub fn acknowledged_events_are_not_given_again()
    ensures { AcknowledgedEventsAreNotGivenAgain }
{}

/// Proves that without `--ride` no entry has a rider.
pub fn no_riders_without_option()
    ensures { NoRidersUnasked }
{}

/// Proves that a rider's session is a plain one.
pub fn rider_sessions_do_not_acknowledge()
    ensures { RidersArePlain }
{}

/// Proves when a message is a rider of a session.
///
/// It is one exactly if `--ride` is set, the session is plain, and the message is the last one of
/// its request. All messages of the request must be accepted and come from the session, and none
/// may be a handshake. The last one must be a subscription, an unsubscription or a publish.
pub fn when_a_message_is_a_rider()
    ensures { RiderReading }
{}

/// Proves that a request has no rider if one of its messages is rejected or has no session.
pub fn no_rider_beside_rejected_or_sessionless()
    ensures { NothingRidesBeside }
{}

/// Proves that ticks, rejected messages, handshakes, connects and disconnects are no riders.
pub fn only_subscriptions_and_publishes_ride()
    ensures { OthersNeverRide }
{}

/// Proves that a rider gets the first waiting events in one answer, up to one batch.
///
/// They are taken after the entry has taken effect.
pub fn rider_given()
    ensures { RiderGiven }
{}

/// Proves that a session is live from its opening to the first entry that closes it.
pub fn live_from_opening_to_first_close()
    ensures { LiveReading }
{}

/// Proves that a pattern is active exactly if the last message that names it is a subscription.
///
/// Only accepted messages of the session count. After an overflow, no pattern is active.
pub fn pattern_active_if_last_subscribed()
    ensures { InForceReading }
{}

/// Proves that a held connect stays held until an entry ends the hold.
///
/// An event that the session gets ends the hold, and so does a newer connect or a disconnect of the
/// session. A tick ends it at the deadline or later.
pub fn connect_held_until_entry_ends_hold()
    ensures { HeldReading }
{}

/// Proves that a held connect is answered at the first entry that ends the hold.
///
/// A publish that reaches the session answers it with its event, a newer connect with an error. A
/// disconnect, or a tick from the deadline on, answers it with success and no events.
pub fn held_connect_answered_by_first_ending_entry()
    ensures { EndingReading }
{}

/// Proves that a session has overflowed exactly if some earlier entry found no room.
///
/// It is a publish that the queue has no room for, or a subscription beyond the limit of patterns.
pub fn overflowed_if_entry_found_no_room()
    ensures { OverflowReading }
{}

/// Proves that a queue never exceeds its limits of events and bytes.
pub fn queue_bounded()
    ensures { QueueBounded }
{}

/// Proves that the due moment of a session is the greatest that its accepted messages set.
///
/// Each message sets the sum of the greatest moment so far, its hold, and `config.max_interval`.
pub fn due_is_greatest_set_by_messages()
    ensures { DueReading }
{}

/// Proves that the clock is the greatest moment in the list, or 0 if the list is empty.
pub fn clock_is_greatest_moment()
    ensures { ClockReading }
{}

/// Proves that the registry and the entries agree on which sessions are live.
pub fn registry_and_entries_agree_on_live()
    ensures { SameLive }
{}

/// Proves that each event of a session is an accepted publish that reached it.
///
/// An active pattern of the session matched its broadcast channel. The session was live, had not
/// overflowed, and its queue had room.
pub fn events_were_published()
    ensures { EventsWerePublished }
{}

/// Proves that each publish that reaches a session becomes the next of its events.
///
/// It reaches a live session that has not overflowed, if an active pattern matches its broadcast
/// channel and the queue has room.
pub fn publishes_are_events()
    ensures { PublishesAreEvents }
{}

/// Proves that the events of a session are at ascending places.
///
/// So each publish is at most one event of the session.
pub fn events_have_ascending_places()
    ensures { EventsRise }
{}

/// Proves that all sessions get their events in one order, that of the publishes in the list.
///
/// The events that two sessions both get are one list, also if each session is looked at over its
/// own front of a log. Each answer has consecutive events of its session.
pub fn sessions_get_events_in_one_order()
    ensures events { EventsInOneOrder }
    ensures answers { AnswersInOrder }
{}

/// Proves that each event in an answer is byte for byte that of an accepted publish.
///
/// The publish reached the session of the connect or rider that is answered.
pub fn given_was_published()
    ensures { GivenWasPublished }
{}

/// Proves that a request through the read-only listener publishes only as its patterns allow.
///
/// A pattern matches each broadcast channel to which the request adds a message, and the channel of
/// each event that it adds. Without patterns, it publishes nothing.
pub fn read_only_request_publishes_as_allowed()
    ensures { ReadOnlyRequestPublishesAsAllowed }
{}

/// Proves that requests through the read-only listener alone publish only as its patterns allow.
///
/// A pattern matches the channel of each event. Without patterns, no session has events.
pub fn readers_publish_as_allowed()
    ensures { ReadersPublishAsAllowed }
{}

/// Proves that the outs of a run begin with the outs of its first inputs.
pub fn outs_grow()
    ensures { OutsGrow }
{}

/// Proves that the effect of an entry on a session does not depend on the session's history.
///
/// The history is the earlier events and answers. The rest, which a server keeps, determines what
/// it keeps after the entry, and the answers that the entry gives.
pub fn entry_effect_ignores_history()
    ensures { KeptSteps }
{}

/// Proves that what a server keeps of a session can be computed from entry to entry.
pub fn kept_state_computed_without_history()
    ensures { KeptRuns }
{}

/// Proves that the session of an accepted message, other than a handshake, is live before it.
pub fn accepted_while_live()
    ensures { AcceptedWhileLive }
{}

/// Proves that a publish without a client id has no session, sets no due moment and is no rider.
///
/// It is accepted exactly if `--anonymous` is set, its channel is a name and it has data.
pub fn publish_without_client_has_no_session()
    ensures { PublishesOfNone }
{}

/// Proves that a session's queue and batch are within their limits, and empty during a hold.
pub fn queue_and_batch_within_limits()
    ensures { KeptInBounds }
{}

/// Proves that a closed session holds no connect, and that its events and answers do not change.
pub fn closed_session_never_changes()
    ensures { ClosedIsOver }
{}

/// Proves that the text of a reply is a JSON object with the reply's members, sorted by name.
///
/// The id and the subscription must be JSON texts, and the numbers must fit in 64 bits.
pub fn replies_read_back()
    ensures { RepliesReadBack }
{}

/// Proves that the text of an event is a JSON object with its channel, data and, if any, id.
///
/// The data and the id must be JSON texts.
pub fn events_read_back()
    ensures { EventsReadBack }
{}

/// Proves that the text of a response is the JSON array of the values of its items.
///
/// The texts of the items must be JSON texts.
pub fn bodies_read_back()
    ensures { BodiesReadBack }
{}

/// Proves that an input appends the outs of all inputs that it completes, in order.
pub fn input_appends_outs_it_completes()
    ensures { OutsAdd }
{}

/// Proves that an input stays incomplete until some input completes it.
pub fn input_stays_incomplete_until_completed()
    ensures { OpensGoOn }
{}

/// Proves that the inputs of a run with unanswered messages are those that the run reports as held.
pub fn incomplete_inputs_are_reported_held()
    ensures { OpenIsHeld }
{}

/// Proves that an input with an unanswered message is a request of one message, a held connect.
pub fn incomplete_input_is_one_held_connect()
    ensures { OpenAreSole }
{}

/// Proves that held inputs are in the order of their numbers and of their connects' places.
pub fn held_inputs_are_in_order()
    ensures { OpensAscend }
{}

/// Proves that the next line of a script appends its input, if any, to the earlier inputs.
pub fn next_line_appends_its_input()
    ensures { InputsGoOn }
{}

/// Proves that what the next line of a script prints is appended to what the earlier lines print.
///
/// The lines of held connects are left aside, since a replay prints them at the end.
pub fn next_line_appends_its_output()
    ensures { LinesGoOn }
{}

/// Proves that a replay prints the lines of held connects after everything else.
pub fn replay_prints_held_last()
    ensures { HeldComeLast }
{}

/// Proves which nonce a request of a record gets: the last one announced before its line.
///
/// If an earlier request has used that nonce, or no nonce was announced, the request gets nonce 0.
/// The requests of earlier lines keep their nonces.
pub fn line_gets_nonce_announced_before()
    ensures { NoncesGoOn }
{}

/// Proves that lines keep their nonces if none announces one, as in every script.
pub fn nonces_unchanged_unless_announced()
    ensures lines { NoncesStay }
    ensures scripts { ScriptsSayNone }
{}
