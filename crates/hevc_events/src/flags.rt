//! Flags of a control.
ghost use Rattle.std.specs.Prelude.{◌≡◌, ◌≤◌, ◌<◌, ◌^◌, length};
ghost use Rattle.hevc_events.specs.Flags.{flags_of};

/// The flags in one number, each at the bit of its place: the first at bit 0.
pub fn flag_bits(flags: &[bool]) -> u64
    requires { length flags.now ≤ 32 }
    ensures value { result ≡ flags_of flags.now }
    ensures bound { result < 2 ^ length flags.now }
{
    match flags {
        [] => 0,
        [first, others @ ..] => u64::from(*first) + 2 * flag_bits(others),
    }
}
