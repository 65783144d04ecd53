//! The entry points of a slice segment: `V4L2_CID_STATELESS_HEVC_ENTRY_POINT_OFFSETS`.
ghost use Rattle.std.specs.Prelude.{◌≡◌, ◌≤◌, ◌++◌, drop, length, IsTrue, OnErr, OnOk};
ghost use Rattle.std.specs.List.{list_all};
ghost use Rattle.std.specs.Result.{result_err};
ghost use Rattle.hevc_v4l2.specs.EntryPoints.{entry_points, entry_points_error, is_held};

use crate::error::ControlError;

/// Writes the bytes from each entry point of a slice segment to the next one, of which its header
/// has 1 less, to the first of these places. The others stay.
///
/// Errors: `NoRoom`; else `EntryPoint`. All places stay.
pub fn write_entry_points(offsets_minus1: &[u32], offsets: &mut [u32]) -> Result<(), ControlError>
    ensures written { OnOk result (offsets.new
        ≡ entry_points offsets_minus1.now ++ drop (length offsets_minus1.now) offsets.old) }
    ensures refused { result_err result
        ≡ entry_points_error offsets_minus1.now (length offsets.old) }
    ensures unchanged { OnErr result (offsets.new ≡ offsets.old) }
{
    if offsets_minus1.len() > offsets.len() {
        return Err(ControlError::NoRoom);
    }
    if !are_held(offsets_minus1) {
        return Err(ControlError::EntryPoint);
    }
    write_held(offsets_minus1, offsets);
    Ok(())
}

/// Whether each of them takes 32 bits with 1 more.
fn are_held(offsets_minus1: &[u32]) -> bool
    ensures { result ≡ list_all is_held offsets_minus1.now }
{
    offsets_minus1.iter().all(|offset| *offset < u32::MAX)
}

/// Writes those that take 32 bits where there is room.
fn write_held(offsets_minus1: &[u32], offsets: &mut [u32])
    requires room { length offsets_minus1.now ≤ length offsets.old }
    requires held { IsTrue (list_all is_held offsets_minus1.now) }
    ensures { offsets.new
        ≡ entry_points offsets_minus1.now ++ drop (length offsets_minus1.now) offsets.old }
{
    for i in 0..offsets_minus1.len() {
        offsets[i] = offsets_minus1[i] + 1;
    }
}
