//! Reference picture lists: `RefPicList`.
ghost use Rattle.std.specs.Prelude.{◌≡◌, ◌≤◌, ◌<◌, ◌==◌, length, map, position, IfOk, IfSome};
ghost use Rattle.std.specs.Result.{result_err};
ghost use Rattle.hevc_dpb.specs.Entries.{reference_numbers};
ghost use Rattle.hevc_dpb.specs.Views.{stored_entries};
ghost use Rattle.hevc_picture_slice.specs.Pps.{plain_pps};
ghost use Rattle.hevc_refs.specs.Lists.{places_of};
ghost use Rattle.hevc_v4l2.specs.Buffer.{number_index};
ghost use Rattle.hevc_va.specs.Arrays.{in_places};
ghost use Rattle.hevc_va.specs.Lists.{current_index, list_indices, lists_error, place_index};

use crate::error::VaError;
use crate::references::frame_count;
use arrayvec::ArrayVec;
use hevc_dpb::Dpb;
use hevc_picture_slice::Pps;
use hevc_refs::{RefPicList, RefPicListEntry};

/// For each place of both lists, which of `reference_frames` it is.
#[derive(Clone, Copy)]
pub(crate) struct Indices {
    pub(crate) l0: [u8; 15],
    pub(crate) l1: [u8; 15],
}

/// No place of `reference_frames`.
const NO_INDEX: u8 = 255;

/// Where a number is among those of the reference pictures.
fn number_index(numbers: &[u64], number: u64) -> u8
    requires { length numbers.now ≤ 16 }
    ensures { result ≡ number_index numbers.now number }
{
    match place_of(numbers, number) {
        Some(index) => index as u8,
        None => NO_INDEX,
    }
}

fn place_of(numbers: &[u64], number: u64) -> Option<usize>
    ensures value { result ≡ position (λ stored. stored == number) numbers.now }
    ensures within { IfSome result (λ index. index < length numbers.now) }
{
    numbers.iter().position(|stored| *stored == number)
}

/// Where the current picture is, after the others, where it may refer to itself.
fn current_index(pps: &Pps, numbers: &[u64]) -> u8
    requires { length numbers.now ≤ 16 }
    ensures { result ≡ current_index (plain_pps pps.now) numbers.now }
{
    if pps.scc_extension.curr_pic_ref_enabled_flag {
        numbers.len() as u8
    } else {
        NO_INDEX
    }
}

/// Where the picture of a place of a list is.
fn place_index(place: Option<RefPicListEntry>, numbers: &[u64], current: u8) -> u8
    requires { length numbers.now ≤ 16 }
    ensures { result ≡ place_index numbers.now current place }
{
    match place {
        Some(RefPicListEntry::DpbEntry(number)) => number_index(numbers, number),
        Some(RefPicListEntry::CurrentPicture) => current,
        None => NO_INDEX,
    }
}

/// Where the pictures of a list are, in fifteen places.
fn indices_of(places: &[Option<RefPicListEntry>], numbers: &[u64], current: u8) -> [u8; 15]
    requires places { length places.now ≤ 15 }
    requires numbers { length numbers.now ≤ 16 }
    ensures { result ≡ in_places 15 255 (map (place_index numbers.now current) places.now) }
{
    let mut indices: ArrayVec<u8, 15> = ArrayVec::new();
    for place in places {
        indices.push(place_index(*place, numbers, current));
    }
    index_places(indices.as_slice())
}

/// Indices in fifteen places.
fn index_places(indices: &[u8]) -> [u8; 15]
    requires { length indices.now ≤ 15 }
    ensures { result ≡ in_places 15 255 indices.now }
{
    let mut places = [NO_INDEX; 15];
    places[..indices.len()].copy_from_slice(indices);
    places
}

/// The indices of both lists.
///
/// Errors: `References`, there are more than fifteen reference pictures; else `ReferenceList`, a
/// list has more than fifteen places.
pub(crate) fn list_indices(
    pps: &Pps,
    dpb: &Dpb<u64>,
    ref_pic_list0: &RefPicList,
    ref_pic_list1: &RefPicList,
) -> Result<Indices, VaError>
    ensures list0 { IfOk result (λ indices. indices.l0
        ≡ list_indices (plain_pps pps.now) (reference_numbers (stored_entries dpb.now))
        (places_of ref_pic_list0.now)) }
    ensures list1 { IfOk result (λ indices. indices.l1
        ≡ list_indices (plain_pps pps.now) (reference_numbers (stored_entries dpb.now))
        (places_of ref_pic_list1.now)) }
    ensures refused { result_err result
        ≡ lists_error (plain_pps pps.now) (stored_entries dpb.now)
        (places_of ref_pic_list0.now) (places_of ref_pic_list1.now) }
{
    if frame_count(pps, dpb) > 15 {
        return Err(VaError::References);
    }
    let places0 = ref_pic_list0.as_slice();
    let places1 = ref_pic_list1.as_slice();
    if places0.len() > 15 || places1.len() > 15 {
        return Err(VaError::ReferenceList);
    }
    let numbers = dpb.get_all_references();
    let current = current_index(pps, numbers.as_slice());
    Ok(Indices {
        l0: indices_of(places0, numbers.as_slice(), current),
        l1: indices_of(places1, numbers.as_slice(), current),
    })
}
