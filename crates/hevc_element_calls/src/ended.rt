//! Texts that are ended by a zero.
ghost use Rattle.std.specs.Prelude.{◌≡◌, length};
ghost use Rattle.hevc_element_calls.specs.Ended.{ended};

/// Writes as much of a text as there is room for, a zero after it, and zeros in what is left.
pub(crate) fn write_ended(text: &[u8], room: &mut [u8])
    ensures { room.new ≡ ended text.now (length room.old) }
{
    room.fill(0);
    if let Some(most) = room.len().checked_sub(1) {
        let size = text.len().min(most);
        room[..size].copy_from_slice(&text[..size]);
    }
}
