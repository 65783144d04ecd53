//! Groups of eight pictures.
ghost use Rattle.std.specs.Prelude.{◌≡◌, ◌≤◌, IsTrue, length};
ghost use Rattle.hevc_stream_maker.specs.Groups.{are_rising, order_count, picture};

/// A member of a short-term reference picture set: how far its order count is from that of the
/// current picture, and whether that may refer to it.
pub(crate) type Member = (u32, bool);

/// The order count of the picture of this number after the first one.
pub(crate) fn order_count(number: u32) -> u64
    ensures { result ≡ order_count number }
{
    let before = number as u64 / 8 * 8;
    before
        + match number % 8 {
            0 => 8,
            1 => 4,
            2 => 2,
            3 => 1,
            4 => 3,
            5 => 6,
            6 => 5,
            _ => 7,
        }
}

/// The members of its set before it, nearest first.
pub(crate) fn members_before(number: u32) -> &'static [Member]
    ensures members { result.now ≡ (picture number).before }
    ensures rising { IsTrue (are_rising 0 result.now) }
    ensures few { length result.now ≤ 3 }
{
    match number % 8 {
        0 => &[(8, true)],
        1 => &[(4, true)],
        2 | 5 => &[(2, true)],
        _ => &[(1, true)],
    }
}

/// The members of its set after it, nearest first.
pub(crate) fn members_after(number: u32) -> &'static [Member]
    ensures members { result.now ≡ (picture number).after }
    ensures rising { IsTrue (are_rising 0 result.now) }
    ensures few { length result.now ≤ 3 }
{
    match number % 8 {
        0 => &[],
        1 => &[(4, true)],
        2 => &[(2, true), (6, false)],
        3 => &[(1, true), (3, false), (7, false)],
        4 => &[(1, true), (5, false)],
        5 => &[(2, true)],
        6 => &[(1, true), (3, false)],
        _ => &[(1, true)],
    }
}
