//! Some of the ids of sequence sets, 0 to 15: a number that has a bit for each.
ghost use Rattle.std.specs.Prelude.{◌≡◌, ◌<◌, ◌==◌, ◌||◌, ℕ, IfSome};
ghost use Rattle.hevc_kept_sets.specs.Settled.{has_id, is_id, is_among};

/// These ids, and one more.
pub(crate) fn with_id(ids: u16, id: u8) -> u16
    requires { id < 16 }
    ensures { (k : ℕ) → has_id result k ≡ (k == id || has_id ids k) }
{
    ids | 1 << id
}

/// These ids, and one more where there is one.
pub(crate) fn with_named(ids: u16, id: Option<u8>) -> u16
    requires { IfSome id (λ id. id < 16) }
    ensures { (k : ℕ) → has_id result k ≡ (is_id k id || has_id ids k) }
{
    match id {
        Some(id) => with_id(ids, id),
        None => ids,
    }
}

/// Whether there is an id, and it is one of these.
pub(crate) fn is_among(ids: u16, id: Option<u8>) -> bool
    requires { IfSome id (λ id. id < 16) }
    ensures { result ≡ is_among ids id }
{
    match id {
        Some(id) => ids >> id & 1 == 1,
        None => false,
    }
}
