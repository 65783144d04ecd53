//! What tests expect, checked here once and not at each place; an assertion that later lines rest on is an `assert!`.
ghost use Rattle.std.specs.Prelude.{◌<◌, ◌≡◌, Ok, length};

use std::fmt::Debug;
use std::process::Abort;

/// Stops the test where this isn't so.
pub fn expect(rt: &impl Abort, is_so: bool) {
    assert!(rt; is_so);
}

/// Stops the test, and tells both, where what was found isn't equal to what was expected.
pub fn expect_eq<T: PartialEq + Debug + Copy>(rt: &impl Abort, found: T, expected: T) {
    assert_eq!(rt; found, expected);
}

/// Stops the test where there are as many bytes as this, or more.
pub fn expect_fewer(rt: &impl Abort, bytes: &[u8], limit: usize)
    ensures { length bytes.now < limit }
{
    assert!(rt; bytes.len() < limit);
}

/// Gives the value of an Ok; stops the test where it is an error.
pub fn ok<T, E: Drop>(rt: &impl Abort, found: Result<T, E>) -> T
    ensures { found ≡ Ok result }
{
    match found {
        Ok(value) => value,
        Err(_) => rt.abort(),
    }
}
