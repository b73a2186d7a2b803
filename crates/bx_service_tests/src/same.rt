//! Comparison of a found value with the expected one.
use std::fmt::Debug;
use std::process::Abort;

/// Aborts the test unless `found` equals `wanted`.
///
/// `at`: what is compared. If the values differ, `at` is printed with both values.
// Prover: a test that calls this is proved faster than one that compares in place.
pub fn same<T: PartialEq + Debug + Copy, A: Debug + Copy>(
    rt: &impl Abort,
    found: T,
    wanted: T,
    at: A,
) {
    assert_eq!(rt; found, wanted, "at {at:?}");
}
