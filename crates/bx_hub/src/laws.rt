ghost use Rattle.bx_hub.specs.Consistency.{MomentsDiffer, NoncesDiffer, SequentiallyConsistent};

/// Proves that posts, ticks and polls are sequentially consistent.
///
/// Take any calls by any callers, with what each pass had seen before and after. One thread that
/// executes them in the order of their places in the list returns what each call returned. The
/// calls of each caller are in the order in which it made them. A call is after all calls that its
/// caller had been told of, by a pass or by [`Front::longer`].
///
/// So what a caller has seen is never taken back. If the calls appended as many elements as the
/// list has, they appended the list, each once and in this order.
///
/// Two calls whose callers knew nothing of each other must have appended different elements, and
/// the limit of a batch must be at least one event.
///
/// This is not linearizability, which also orders calls by the clock if their callers have told
/// each other nothing. No pass can show that order.
///
/// [`Front::longer`]: bx_window::Front::longer
pub fn calls_are_sequentially_consistent()
    ensures { SequentiallyConsistent }
{}

/// Proves that different requests and different ticks append different elements to the list.
///
/// Requests differ if their nonces do, and ticks if their moments do.
pub fn appended_elements_differ()
    ensures nonces { NoncesDiffer }
    ensures moments { MomentsDiffer }
{}
