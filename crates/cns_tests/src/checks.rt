// Ends of tests: an assertion with a text of its own takes a second or two to check wherever it stands, so those stand here.
use std::process::Abort;

// Ends the test, with the words for what was looked at, where something is not so.
pub(crate) fn check(rt: &impl Abort, is_so: bool, of: &str) {
    assert!(rt; is_so, "{of}");
}

// The same with a number.
pub(crate) fn check_at(rt: &impl Abort, is_so: bool, number: u64) {
    assert!(rt; is_so, "{number}");
}
