//! Laws of the server's definitions, in a user's terms, and worked runs.
//!
//! Each is the contract of a function with an empty body, so that the prover checks it.
#![tactic(auto)]

mod laws;
mod worked;

pub use laws::{
    accepted_while_live, acknowledged_events_are_not_given_again, answers_ignore_later_entries,
    answers_share_no_event, batch_repeats, bodies_read_back, clock_is_greatest_moment,
    closed_session_never_changes, connect_held_until_entry_ends_hold, done_event_count_never_falls,
    due_is_greatest_set_by_messages, entries_in_order, entry_effect_ignores_history,
    events_have_ascending_places, events_read_back, events_were_published, given_once,
    given_was_published, held_connect_answered_by_first_ending_entry, held_inputs_are_in_order,
    incomplete_input_is_one_held_connect, incomplete_inputs_are_reported_held,
    input_appends_outs_it_completes, input_stays_incomplete_until_completed,
    kept_state_computed_without_history, line_gets_nonce_announced_before,
    live_from_opening_to_first_close, never_given_again, next_line_appends_its_input,
    next_line_appends_its_output, no_event_twice, no_rider_beside_rejected_or_sessionless,
    no_riders_without_option, nonces_unchanged_unless_announced,
    only_subscriptions_and_publishes_ride, outs_grow, overflowed_if_entry_found_no_room,
    pattern_active_if_last_subscribed, publish_without_client_has_no_session, publishes_are_events,
    queue_and_batch_within_limits, queue_batch_and_counts_agree, queue_bounded,
    read_only_request_publishes_as_allowed, readers_publish_as_allowed,
    registry_and_entries_agree_on_live, repeated_connect_gets_the_same_batch,
    replay_prints_held_last, replies_read_back, rider_given, rider_sessions_do_not_acknowledge,
    sessions_get_events_in_one_order, when_a_message_is_a_rider,
};
pub use worked::{
    acknowledgements, channels, deliveries, endings, handshakes, held_connects, overflows,
    refusals, response_texts, riders, scripts,
};
