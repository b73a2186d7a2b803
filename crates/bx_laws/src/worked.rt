//! Worked examples of the definitions, each computed by the prover.
ghost use Rattle.bx_laws.specs.Worked.{EventsRide, RideAfterHold, NothingRides, NothingRidesAfterRefused, NothingRidesAfterSessionless, NothingRidesAfterHandshake, NothingRidesAfterTwo, SessionlessPublish, SessionlessRefused, NamesRead, LengthsRead, PatternsRead, StarsMatch, DoubleStarsMatch, AllMatch, PlainMatch, HandshakeWithId, RefusedHandshake, TwoHandshakes, NothingPosted, Unreadable, HeldThenGiven, MatchedTwice, ServicePublish, SenderBytes, NoNumber, BatchesRepeat, GreatNumber, EventIsBatch, EventIsBatchHeld, HoldRunsOut, NotSole, Superseded, SupersededHeld, HoldEndsWithSession, HoldExtends, MomentsRise, SessionExpires, GoneWithinARequest, EachRefusal, UnknownType, ManyPatterns, FullQueue, QueueWithRoom, FullWithBatch, HeldThroughOverflow, OverflowAt1025, FourFullBatches, HandshakeText, RefusedText, BatchText, DeliveryText, CallbackExample, EmptyCallback, GoneText, SupersededText, OverflowText, SecondText, EndedText, RefusalsText, RefusedMovesClock, EmptyKeepsClock, RefusedKeepsDue, HoldBeforeEnd, EndedWithNumber, SupersededWithoutNumber, MixedArrays, FullServer, OverflowOutlivesPatterns, ServicePatternsAside, ScriptLines, LineForms, NonceForms, NoteForms, NoncesWait, ScriptPrinted, NoncePrinted, NotePrinted};

/// Proves examples of channel names and patterns, valid or not, and of what patterns match.
pub fn channels()
    ensures names_read { NamesRead }
    ensures lengths_read { LengthsRead }
    ensures patterns_read { PatternsRead }
    ensures stars_match { StarsMatch }
    ensures double_stars_match { DoubleStarsMatch }
    ensures all_match { AllMatch }
    ensures plain_match { PlainMatch }
{}

/// Proves examples of handshakes, accepted and rejected, and of empty and unreadable requests.
pub fn handshakes()
    ensures handshake_with_id { HandshakeWithId }
    ensures refused_handshake { RefusedHandshake }
    ensures two_handshakes { TwoHandshakes }
    ensures nothing_posted { NothingPosted }
    ensures unreadable { Unreadable }
{}

/// Proves examples of publishes, and of the events that connects get.
#[tactic(auto, unfolding(json::specs::Print::escape_byte, bx_entry::specs::Windows::has_room, bx_entry::specs::Windows::bytes_of, bx_message::specs::Events::event_size))]
pub fn deliveries()
    ensures held_then_given { HeldThenGiven }
    ensures sessionless_publish { SessionlessPublish }
    ensures sessionless_refused { SessionlessRefused }
    ensures matched_twice { MatchedTwice }
    ensures service_publish { ServicePublish }
    ensures sender_bytes { SenderBytes }
{}

/// Proves examples of requests that have a rider, and of requests that have none.
#[tactic(auto, unfolding(json::specs::Print::escape_byte, bx_entry::specs::Windows::has_room, bx_entry::specs::Windows::bytes_of, bx_message::specs::Events::event_size))]
pub fn riders()
    ensures events_ride { EventsRide }
    ensures ride_after_hold { RideAfterHold }
    ensures nothing_rides { NothingRides }
    ensures nothing_rides_after_refused { NothingRidesAfterRefused }
    ensures nothing_rides_after_sessionless { NothingRidesAfterSessionless }
    ensures nothing_rides_after_handshake { NothingRidesAfterHandshake }
    ensures nothing_rides_after_two { NothingRidesAfterTwo }
{}

/// Proves examples of batches and their acknowledgements.
#[tactic(auto, unfolding(json::specs::Print::escape_byte, bx_entry::specs::Windows::has_room, bx_entry::specs::Windows::bytes_of, bx_message::specs::Events::event_size))]
pub fn acknowledgements()
    ensures no_number { NoNumber }
    ensures batches_repeat { BatchesRepeat }
    ensures great_number { GreatNumber }
    ensures event_is_batch { EventIsBatch }
    ensures event_is_batch_held { EventIsBatchHeld }
{}

/// Proves examples of held connects, and of what ends a hold.
#[tactic(auto, unfolding(json::specs::Print::escape_byte, bx_entry::specs::Windows::has_room, bx_entry::specs::Windows::bytes_of, bx_message::specs::Events::event_size))]
pub fn held_connects()
    ensures hold_runs_out { HoldRunsOut }
    ensures not_sole { NotSole }
    ensures superseded { Superseded }
    ensures superseded_held { SupersededHeld }
    ensures hold_ends_with_session { HoldEndsWithSession }
    ensures hold_extends { HoldExtends }
    ensures moments_rise { MomentsRise }
    ensures ended_with_number { EndedWithNumber }
    ensures superseded_without_number { SupersededWithoutNumber }
{}

/// Proves examples of how sessions end, and of when they do not.
pub fn endings()
    ensures session_expires { SessionExpires }
    ensures gone_within_a_request { GoneWithinARequest }
    ensures refused_moves_clock { RefusedMovesClock }
    ensures empty_keeps_clock { EmptyKeepsClock }
    ensures refused_keeps_due { RefusedKeepsDue }
    ensures hold_before_end { HoldBeforeEnd }
{}

/// Proves examples of rejected messages and their errors.
pub fn refusals()
    ensures each_refusal { EachRefusal }
    ensures unknown_type { UnknownType }
    ensures many_patterns { ManyPatterns }
    ensures mixed_arrays { MixedArrays }
    ensures full_server { FullServer }
{}

/// Proves examples of queues and patterns at their limits.
#[tactic(auto, unfolding(json::specs::Print::escape_byte, bx_entry::specs::Windows::has_room, bx_entry::specs::Windows::bytes_of, bx_message::specs::Events::event_size))]
pub fn overflows()
    ensures full_queue { FullQueue }
    ensures queue_with_room { QueueWithRoom }
    ensures full_with_batch { FullWithBatch }
    ensures held_through_overflow { HeldThroughOverflow }
    ensures overflow_at_1025 { OverflowAt1025 }
    ensures four_full_batches { FourFullBatches }
    ensures overflow_outlives_patterns { OverflowOutlivesPatterns }
    ensures service_patterns_aside { ServicePatternsAside }
{}

/// Proves examples of responses, byte for byte.
pub fn response_texts()
    ensures handshake_text { HandshakeText }
    ensures refused_text { RefusedText }
    ensures batch_text { BatchText }
    ensures delivery_text { DeliveryText }
    ensures callback_example { CallbackExample }
    ensures empty_callback { EmptyCallback }
    ensures gone_text { GoneText }
    ensures superseded_text { SupersededText }
    ensures overflow_text { OverflowText }
    ensures second_text { SecondText }
    ensures ended_text { EndedText }
    ensures refusals_text { RefusalsText }
{}

/// Proves examples of script lines, and of what a replay prints for them.
pub fn scripts()
    ensures script_lines { ScriptLines }
    ensures line_forms { LineForms }
    ensures nonce_forms { NonceForms }
    ensures note_forms { NoteForms }
    ensures nonces_wait { NoncesWait }
    ensures script_printed { ScriptPrinted }
    ensures nonce_printed { NoncePrinted }
    ensures note_printed { NotePrinted }
{}
