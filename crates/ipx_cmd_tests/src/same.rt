//! One assertion, so that a test's proof has a call for each and no more.
use std::fmt::Debug;
use std::process::Abort;

/// Fails the test, and shows both, unless the two are equal. It promises nothing: where a later call asks for what was found,
/// as for a place below a length, write `assert!`.
pub fn same<R: Abort, T: PartialEq + Debug + Drop>(rt: &R, left: T, right: T) {
    assert_eq!(*rt; left, right);
}
