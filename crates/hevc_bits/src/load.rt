//! The next payload byte.

ghost use Rattle.std.specs.Prelude.{◌≡◌, ℕ, ◌+◌, ◌≤◌, ◌<◌, length, Some, None, IfSome, MatchOption};
ghost use Rattle.hevc_spec.specs.Payload.{loading, run_behind};
ghost use Rattle.hevc_bits.specs.Cached.{loaded_place};
ghost use Rattle.hevc_bits.specs.declared.stream_limit.TheConstants.{STREAM_LIMIT};

/// A payload byte and what follows it.
#[derive(Drop)]
pub struct Loaded<'a> {
    pub byte: u8,
    /// The zero bytes directly before the next byte, counted up to 2.
    pub zeros: u8,
    pub behind: &'a [u8],
    /// How many 03 were dropped before it.
    pub dropped: usize,
}

/// The zero bytes directly before the byte after `byte`, counted up to 2.
pub fn zeros_behind(zeros: u8, byte: u8) -> u8
    requires { zeros ≤ 2 }
    ensures value { result ≡ run_behind zeros byte }
    ensures small { result ≤ 2 }
{
    if byte == 0 { (zeros + 1).min(2) } else { 0 }
}

/// The next payload byte after `zeros` zero bytes, with `dropped` 03 bytes dropped before them.
pub fn next_byte(zeros: u8, dropped: usize, bytes: &[u8]) -> Option<Loaded<'_>>
    requires few { zeros ≤ 2 }
    requires short { dropped + length bytes.now < STREAM_LIMIT }
    ensures loads { MatchOption result (loading zeros dropped bytes.now ≡ None)
        (λ l. loading zeros dropped bytes.now ≡ Some (loaded_place l)) }
    ensures small { IfSome result (λ l. l.zeros ≤ 2) }
    ensures short { IfSome result (λ l. l.dropped + length l.behind.now < STREAM_LIMIT) }
{
    let (&byte, behind) = bytes.split_first()?;
    if zeros < 2 || byte != 3 {
        return Some(Loaded {
            byte,
            zeros: zeros_behind(zeros, byte),
            behind,
            dropped,
        });
    }
    let (&byte, behind) = behind.split_first()?;
    Some(Loaded {
        byte,
        zeros: zeros_behind(0, byte),
        behind,
        dropped: dropped + 1,
    })
}
