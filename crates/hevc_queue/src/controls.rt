//! The structs of Linux's stateless decoders, of the latest calls, where they are wanted.
ghost use Rattle.std.specs.Prelude.{◌≡◌, [], IfOk};
ghost use Rattle.std.specs.Option.{option_map};
ghost use Rattle.hevc_queue.specs.Given.{begun_with, slice_with};
ghost use Rattle.hevc_queue.specs.Controls.{controls_of, picture_controls, wanted, with_begun};
ghost use Rattle.hevc_queue.specs.Controls.{with_slice};

use hevc_dpb::{Dpb, PictureData};
use hevc_picture_slice::{Pps, Slice};
use hevc_refs::{RefPicList, RefPicSet};
use hevc_sequence_set::Sps;
use hevc_set_parts::Items;
use hevc_v4l2::{
    ControlError, SliceControls, V4l2CtrlHevcDecodeParams, V4l2CtrlHevcPps,
    V4l2CtrlHevcScalingMatrix, V4l2CtrlHevcSps, decode_control, pps_control, scaling_control,
    slice_controls, sps_control,
};
use std::alloc::AllocError;

/// The structs of a picture that begins.
#[repr(C)]
#[derive(Clone, Copy)]
pub struct PictureControls {
    pub sps: V4l2CtrlHevcSps,
    pub pps: V4l2CtrlHevcPps,
    pub scaling_matrix: V4l2CtrlHevcScalingMatrix,
    pub decode_params: V4l2CtrlHevcDecodeParams,
}

/// The same, or what they can't hold, with the picture.
#[derive(Clone, Copy)]
pub struct BegunControls {
    pub picture: PictureData,
    pub filled: Result<PictureControls, ControlError>,
}

/// The struct of a slice segment, or what it can't hold, with its entry points.
#[derive(Drop)]
pub struct SegmentControls {
    pub filled: Result<SliceControls, ControlError>,
    /// The bytes from each entry point to the next one, less 1.
    pub offsets_minus1: Items<u32>,
}

/// The structs of the latest picture that began, and of its latest slice segment.
#[derive(Drop)]
pub struct Controls {
    pub begun: Option<BegunControls>,
    pub slice: Option<SegmentControls>,
}

/// Those of no call.
pub(crate) fn no_controls() -> Controls
    ensures { result ≡ controls_of [] }
{
    Controls {
        begun: None,
        slice: None,
    }
}

/// The structs of a picture, where they can hold it.
fn picture_controls(
    picture: &PictureData,
    sps: &Sps,
    pps: &Pps,
    dpb: &Dpb<u64>,
    rps: &RefPicSet,
    slice: &Slice<'_>,
) -> Result<PictureControls, ControlError>
    ensures { result ≡ picture_controls
        (begun_with 0 picture.now sps.now pps.now dpb.now rps.now slice.now) }
{
    let pps_control = pps_control(pps)?;
    let decode_params = decode_control(picture, slice, sps, dpb, rps)?;
    Ok(PictureControls {
        sps: sps_control(sps),
        pps: pps_control,
        scaling_matrix: scaling_control(sps, pps),
        decode_params,
    })
}

/// A picture begins: where structs are wanted, they are filled.
pub(crate) fn fill_picture(
    controls: &mut Option<Box<Controls>>,
    picture: &PictureData,
    sps: &Sps,
    pps: &Pps,
    dpb: &Dpb<u64>,
    rps: &RefPicSet,
    slice: &Slice<'_>,
)
    ensures { wanted controls.new ≡ option_map
        (with_begun (begun_with 0 picture.now sps.now pps.now dpb.now rps.now slice.now))
        (wanted controls.old) }
{
    if let Some(controls) = controls {
        controls.begun = Some(BegunControls {
            picture: *picture,
            filled: picture_controls(picture, sps, pps, dpb, rps, slice),
        });
        controls.slice = None;
    }
}

/// The entry points of a slice segment, where structs are wanted.
pub(crate) fn wanted_offsets(
    controls: &Option<Box<Controls>>,
    slice: &Slice<'_>,
) -> Result<Option<Items<u32>>, AllocError>
    ensures { IfOk result (λ offsets. offsets
        ≡ option_map (λ _. slice.now.header.entry_point_offset_minus1) (wanted controls.now)) }
{
    if controls.is_none() {
        return Ok(None);
    }
    let offsets_minus1 = slice.header.entry_point_offset_minus1.try_copy()?;
    Ok(Some(offsets_minus1))
}

/// A slice segment with these entry points comes: where structs are wanted, and were filled for its
/// picture, its own is filled.
pub(crate) fn fill_slice(
    controls: &mut Option<Box<Controls>>,
    offsets_minus1: Option<Items<u32>>,
    slice: &Slice<'_>,
    sps: &Sps,
    pps: &Pps,
    dpb: &Dpb<u64>,
    list0: &RefPicList,
    list1: &RefPicList,
)
    requires { offsets_minus1
        ≡ option_map (λ _. slice.now.header.entry_point_offset_minus1) (wanted controls.old) }
    ensures { wanted controls.new ≡ option_map
        (with_slice (slice_with 0 slice.now sps.now pps.now dpb.now list0.now list1.now))
        (wanted controls.old) }
{
    if let Some(controls) = controls {
        controls.slice = match (&controls.begun, offsets_minus1) {
            (Some(begun), Some(offsets_minus1)) => Some(SegmentControls {
                filled: slice_controls(&begun.picture, slice, sps, dpb, list0, list1),
                offsets_minus1,
            }),
            _ => None,
        };
    }
}
