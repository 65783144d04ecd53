//! The pictures that a picture may refer to: `ReferenceFrames`.
ghost use Rattle.std.specs.Prelude.{◌≡◌, ◌≤◌, length, map, filter, IfOk};
ghost use Rattle.std.specs.Result.{result_err};
ghost use Rattle.hevc_dpb.specs.Entries.{is_ref};
ghost use Rattle.hevc_dpb.specs.Views.{stored_entries};
ghost use Rattle.hevc_picture_slice.specs.Pps.{plain_pps};
ghost use Rattle.hevc_refs.specs.Sets.{plain_set};
ghost use Rattle.hevc_va.specs.Arrays.{in_places};
ghost use Rattle.hevc_va.specs.References.{current_reference, frame_count, frame_of};
ghost use Rattle.hevc_va.specs.References.{frames_error, frames_of, is_named, names};
ghost use Rattle.hevc_va.specs.References.{reference_flags};
ghost use Rattle.hevc_va.specs.Surfaces.{no_picture};

use crate::error::VaError;
use crate::surfaces::{
    NO_SURFACE, VaPictureHevc, VaSurface, VaSurfaces, have_surfaces, picture_at, surface_of,
};
use arrayvec::ArrayVec;
use hevc_dpb::{Dpb, DpbEntry};
use hevc_events::flag_bits;
use hevc_picture_slice::Pps;
use hevc_pictures::{PictureData, Reference};
use hevc_refs::RefPicSet;

/// Whether a member of a set is the picture of this number.
fn names(member: &Option<u64>, number: u64) -> bool
    ensures { result ≡ names number member.now }
{
    match member {
        Some(named) => *named == number,
        None => false,
    }
}

/// Whether the picture of this number is a member.
fn is_named(members: &[Option<u64>], number: u64) -> bool
    ensures { result ≡ is_named members.now number }
{
    members.iter().any(|member| names(member, number))
}

/// The flags of a reference picture, in the order of their bits.
fn reference_flags(rps: &RefPicSet, entry: &DpbEntry<u64>) -> u32
    ensures { result ≡ reference_flags (plain_set rps.now) entry.now }
{
    flag_bits(&[
        false,
        false,
        false,
        matches!(entry.picture.reference(), Reference::LongTerm),
        is_named(rps.st_curr_before(), entry.number),
        is_named(rps.st_curr_after(), entry.number),
        is_named(rps.lt_curr(), entry.number),
    ]) as u32
}

/// A reference picture.
fn frame_of(rps: &RefPicSet, surfaces: &[VaSurface], entry: &DpbEntry<u64>) -> VaPictureHevc
    ensures { result ≡ frame_of (plain_set rps.now) surfaces.now entry.now }
{
    let surface = surface_of(surfaces, entry.number).unwrap_or(NO_SURFACE);
    picture_at(
        surface,
        entry.picture.pic_order_cnt_val,
        reference_flags(rps, entry),
    )
}

/// The reference pictures of the buffer, in stored order.
fn stored_frames(
    dpb: &Dpb<u64>,
    rps: &RefPicSet,
    surfaces: &[VaSurface],
) -> ArrayVec<VaPictureHevc, 17>
    ensures frames { result.items
        ≡ map (frame_of (plain_set rps.now) surfaces.now) (filter is_ref (stored_entries dpb.now)) }
    ensures few { length result.items ≤ 16 }
{
    let mut frames = ArrayVec::new();
    for entry in dpb.entries() {
        if entry.picture.is_ref() {
            frames.push(frame_of(rps, surfaces, entry));
        }
    }
    frames
}

/// How many places they take, the current picture's among them where it may refer to itself.
pub(crate) fn frame_count(pps: &Pps, dpb: &Dpb<u64>) -> usize
    ensures { result ≡ frame_count (plain_pps pps.now) (stored_entries dpb.now) }
{
    let stored = dpb.get_all_references().len();
    if pps.scc_extension.curr_pic_ref_enabled_flag {
        stored + 1
    } else {
        stored
    }
}

/// The reference pictures, in fifteen places.
///
/// Errors: `References`, there are more; else `NoSurface`, the surface of one wasn't given.
pub(crate) fn reference_frames(
    picture: &PictureData,
    pps: &Pps,
    dpb: &Dpb<u64>,
    rps: &RefPicSet,
    surfaces: VaSurfaces<'_>,
) -> Result<[VaPictureHevc; 15], VaError>
    ensures filled { IfOk result (λ frames. frames
        ≡ in_places 15 no_picture
        (frames_of picture.now (plain_pps pps.now) (stored_entries dpb.now) (plain_set rps.now)
        surfaces.entry.current surfaces.entry.stored.now)) }
    ensures refused { result_err result
        ≡ frames_error (plain_pps pps.now) (stored_entries dpb.now) surfaces.entry.stored.now }
{
    if frame_count(pps, dpb) > 15 {
        return Err(VaError::References);
    }
    let numbers = dpb.get_all_references();
    if !have_surfaces(surfaces.stored, numbers.as_slice()) {
        return Err(VaError::NoSurface);
    }
    let frames = frames_of(picture, pps, dpb, rps, surfaces);
    Ok(frame_places(frames.as_slice()))
}

/// The reference pictures of the buffer, and after them the current picture where it may refer to
/// itself.
fn frames_of(
    picture: &PictureData,
    pps: &Pps,
    dpb: &Dpb<u64>,
    rps: &RefPicSet,
    surfaces: VaSurfaces<'_>,
) -> ArrayVec<VaPictureHevc, 17>
    ensures frames { result.items
        ≡ frames_of picture.now (plain_pps pps.now) (stored_entries dpb.now) (plain_set rps.now)
        surfaces.entry.current surfaces.entry.stored.now }
    ensures count { length result.items ≡ frame_count (plain_pps pps.now) (stored_entries dpb.now) }
{
    let mut frames = stored_frames(dpb, rps, surfaces.stored);
    if pps.scc_extension.curr_pic_ref_enabled_flag {
        frames.push(current_reference(picture, surfaces.current));
    }
    frames
}

/// The current picture as one that it refers to: a long-term reference picture until it is decoded.
fn current_reference(picture: &PictureData, surface: u32) -> VaPictureHevc
    ensures { result ≡ current_reference picture.now surface }
{
    picture_at(surface, picture.pic_order_cnt_val, 8)
}

/// Pictures in fifteen places.
fn frame_places(frames: &[VaPictureHevc]) -> [VaPictureHevc; 15]
    requires { length frames.now ≤ 15 }
    ensures { result ≡ in_places 15 no_picture frames.now }
{
    let none = VaPictureHevc {
        picture_id: NO_SURFACE,
        pic_order_cnt: 0,
        flags: 1,
        va_reserved: [0; 4],
    };
    let mut places = [none; 15];
    places[..frames.len()].copy_from_slice(frames);
    places
}
