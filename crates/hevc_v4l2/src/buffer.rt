//! The decoded picture buffer in a control: its reference pictures, and which of them sets and
//! lists name.
ghost use Rattle.std.specs.Prelude.{◌≡◌, ◌≤◌, ◌<◌, ◌==◌, length, map, filter, position, IfSome};
ghost use Rattle.std.specs.List.{list_any};
ghost use Rattle.hevc_dpb.specs.Entries.{is_ref};
ghost use Rattle.hevc_dpb.specs.Views.{stored_entries};
ghost use Rattle.hevc_v4l2.specs.Arrays.{padded};
ghost use Rattle.hevc_v4l2.specs.Buffer.{control_of_entry, no_entry, number_index, member_index};
ghost use Rattle.hevc_v4l2.specs.Buffer.{place_index, is_current, timestamp};

use arrayvec::ArrayVec;
use hevc_dpb::{Dpb, DpbEntry};
use hevc_pictures::Reference;
use hevc_refs::RefPicListEntry;

/// `struct v4l2_hevc_dpb_entry`: a reference picture of the decoded picture buffer.
#[repr(C)]
#[derive(Clone, Copy, Default)]
pub struct V4l2HevcDpbEntry {
    /// The timestamp of the buffer that the picture is decoded into, in nanoseconds: 1000 times the
    /// picture's number, modulo 2^64.
    pub timestamp: u64,
    /// 1 of a long-term reference picture, 0 of a short-term one
    /// (`V4L2_HEVC_DPB_ENTRY_LONG_TERM_REFERENCE`).
    pub flags: u8,
    /// 0, a frame: that a picture is a field is told by SEI messages, which aren't read.
    pub field_pic: u8,
    /// Zero.
    pub reserved: u16,
    /// PicOrderCntVal.
    pub pic_order_cnt_val: i32,
}

const _: () = prove!(size_of::<V4l2HevcDpbEntry>() == 16);

/// No entry of the buffer.
const NO_INDEX: u8 = 255;

/// A number of microseconds as the kernel counts it, in nanoseconds.
fn timestamp(number: u64) -> u64
    ensures { result ≡ timestamp number }
{
    number.wrapping_mul(1000)
}

/// A stored picture, by its handle.
fn control_of_entry(entry: &DpbEntry<u64>) -> V4l2HevcDpbEntry
    ensures { result ≡ control_of_entry entry.now }
{
    let flags = match entry.picture.reference() {
        Reference::LongTerm => 1,
        Reference::ShortTerm | Reference::None => 0,
    };
    V4l2HevcDpbEntry {
        timestamp: timestamp(entry.handle),
        flags,
        field_pic: 0,
        reserved: 0,
        pic_order_cnt_val: entry.picture.pic_order_cnt_val,
    }
}

/// The reference pictures, in stored order.
pub(crate) fn reference_controls(dpb: &Dpb<u64>) -> ArrayVec<V4l2HevcDpbEntry, 16>
    ensures { result.items ≡ map control_of_entry (filter is_ref (stored_entries dpb.now)) }
{
    let mut controls = ArrayVec::new();
    for entry in dpb.entries() {
        if entry.picture.is_ref() {
            controls.push(control_of_entry(entry));
        }
    }
    controls
}

/// Entries in sixteen places.
pub(crate) fn entry_places(entries: &[V4l2HevcDpbEntry]) -> [V4l2HevcDpbEntry; 16]
    requires { length entries.now ≤ 16 }
    ensures { result ≡ padded no_entry entries.now }
{
    let none = V4l2HevcDpbEntry {
        timestamp: 0,
        flags: 0,
        field_pic: 0,
        reserved: 0,
        pic_order_cnt_val: 0,
    };
    let mut places = [none; 16];
    places[..entries.len()].copy_from_slice(entries);
    places
}

/// Where a number is among those of the reference pictures.
fn number_index(numbers: &[u64], number: u64) -> u8
    requires { length numbers.now ≤ 16 }
    ensures { result ≡ number_index numbers.now number }
{
    match place_of(numbers, number) {
        Some(index) => index as u8,
        None => NO_INDEX,
    }
}

fn place_of(numbers: &[u64], number: u64) -> Option<usize>
    ensures value { result ≡ position (λ stored. stored == number) numbers.now }
    ensures within { IfSome result (λ index. index < length numbers.now) }
{
    numbers.iter().position(|stored| *stored == number)
}

/// The indices of a set's members, by the numbers of the reference pictures.
pub(crate) fn member_indices(members: &[Option<u64>], numbers: &[u64]) -> [u8; 16]
    requires members { length members.now ≤ 16 }
    requires numbers { length numbers.now ≤ 16 }
    ensures { result ≡ padded 255 (map (member_index numbers.now) members.now) }
{
    let mut indices: ArrayVec<u8, 16> = ArrayVec::new();
    for member in members {
        indices.push(member_index(*member, numbers));
    }
    index_places(indices.as_slice())
}

fn member_index(member: Option<u64>, numbers: &[u64]) -> u8
    requires { length numbers.now ≤ 16 }
    ensures { result ≡ member_index numbers.now member }
{
    match member {
        Some(number) => number_index(numbers, number),
        None => NO_INDEX,
    }
}

/// The indices of a list's places, by the numbers of the reference pictures.
pub(crate) fn place_indices(places: &[Option<RefPicListEntry>], numbers: &[u64]) -> [u8; 16]
    requires places { length places.now ≤ 16 }
    requires numbers { length numbers.now ≤ 16 }
    ensures { result ≡ padded 255 (map (place_index numbers.now) places.now) }
{
    let mut indices: ArrayVec<u8, 16> = ArrayVec::new();
    for place in places {
        indices.push(place_index(*place, numbers));
    }
    index_places(indices.as_slice())
}

fn place_index(place: Option<RefPicListEntry>, numbers: &[u64]) -> u8
    requires { length numbers.now ≤ 16 }
    ensures { result ≡ place_index numbers.now place }
{
    match place {
        Some(RefPicListEntry::DpbEntry(number)) => number_index(numbers, number),
        Some(RefPicListEntry::CurrentPicture) | None => NO_INDEX,
    }
}

/// Whether the current picture itself is in a list.
pub(crate) fn has_current(places: &[Option<RefPicListEntry>]) -> bool
    ensures { result ≡ list_any is_current places.now }
{
    places.iter().any(|place| is_current(place))
}

fn is_current(place: &Option<RefPicListEntry>) -> bool
    ensures { result ≡ is_current place.now }
{
    matches!(place, Some(RefPicListEntry::CurrentPicture))
}

/// Indices in sixteen places.
fn index_places(indices: &[u8]) -> [u8; 16]
    requires { length indices.now ≤ 16 }
    ensures { result ≡ padded 255 indices.now }
{
    let mut places = [NO_INDEX; 16];
    places[..indices.len()].copy_from_slice(indices);
    places
}
