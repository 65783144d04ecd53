//! What tests expect, checked here once and not at each place.
ghost use Rattle.std.specs.Prelude.{◌≡◌, Ok};

use std::process::Abort;

/// Fails, by its name, with the first of these that isn't so.
pub fn check_all(rt: &impl Abort, facts: &[(bool, &str)]) {
    for (is_so, name) in facts {
        assert!(rt; *is_so, "{name}");
    }
}

/// Gives the value of an Ok; stops the test where it is an error.
pub fn ok<T, E: Drop>(rt: &impl Abort, found: Result<T, E>) -> T
    ensures { found ≡ Ok result }
{
    match found {
        Ok(value) => value,
        Err(_) => rt.abort(),
    }
}
