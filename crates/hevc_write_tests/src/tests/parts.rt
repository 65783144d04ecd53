//! Worked structures of 7.3.3 and Annex E, read, and written again.
use crate::tests::expect::ok;
use crate::tests::written::assert_written;
use hevc_bit_writer::BitWriter;
use hevc_elements::ElementReader;
use hevc_readers::{read_hrd_parameters, read_profile_tier_level, read_vui_parameters};
use hevc_video_set::{HrdParams, VuiParams};
use hevc_write_set_parts::{write_hrd_parameters, write_profile_tier_level, write_vui_parameters};

/// Usability with every group of elements, and a one after its last bit.
const USABILITY: &[u8] = &[
    0xff, 0x88, 0x00, 0x80, 0x81, 0x75, 0x84, 0x88, 0x05, 0x59, 0x15, 0x32, 0x17, 0x00, 0x00, 0x03,
    0x00, 0x02, 0x00, 0x01, 0xd4, 0xc1, 0x11, 0xec, 0x8b, 0x9c, 0xd1, 0x6d, 0x5a, 0x4d, 0x00, 0x7d,
    0x20, 0x07, 0xd1, 0x00, 0x96, 0x80, 0x64, 0x69, 0x90, 0xad, 0x00, 0x08, 0x00, 0x10, 0xa1, 0x11,
    0xf0,
];

/// HRD parameters of two sub-layers, with both kinds of schedules, and a one after their last bit.
const SCHEDULES: &[u8] = &[
    0xec, 0x8b, 0x9c, 0xd1, 0x6d, 0x5a, 0x4c, 0x80, 0x1f, 0x48, 0x01, 0xf4, 0x40, 0x25, 0xa0, 0x19,
    0x18, 0x81, 0x22, 0x85, 0x93, 0x21, 0x46, 0x38, 0x81, 0x32, 0x30, 0x68, 0xe1, 0xf0, 0x80, 0x44,
    0x24, 0x13, 0x40,
];

/// A profile of the range extensions, of which reserved bits are ones.
const PROFILE: &[u8] = &[
    0x24, 0x08, 0x00, 0x00, 0x03, 0x00, 0xbd, 0x2f, 0xff, 0xff, 0xff, 0xff, 0x7b, 0xff, 0xff, 0x82,
    0x60, 0x00, 0x00, 0x03, 0x00, 0x5f, 0xff, 0xff, 0xff, 0xff, 0xff, 0x5d, 0x80,
];

/// The same with zeros for them, and a one after its last bit.
const WRITTEN_PROFILE: &[u8] = &[
    0x24, 0x08, 0x00, 0x00, 0x03, 0x00, 0xbd, 0x28, 0x00, 0x00, 0x03, 0x00, 0x01, 0x7b, 0xc0, 0x00,
    0x82, 0x60, 0x00, 0x00, 0x03, 0x00, 0x50, 0x10, 0x00, 0x00, 0x03, 0x00, 0x01, 0x5d, 0x80,
];

#[test]
fn usability_is_written_as_it_was(rt: HostRuntime) {
    let rt = &rt;
    let mut r = ElementReader::new(USABILITY);
    let mut w = BitWriter::new(rt.alloc());
    let mut vui = VuiParams::new();
    ok(rt, read_vui_parameters(&mut r, 0, &mut vui));
    ok(rt, write_vui_parameters(&mut w, 0, &vui));
    assert_written(rt, rt.alloc(), &mut w, USABILITY);
}

#[test]
fn schedules_are_written_as_they_were(rt: HostRuntime) {
    let rt = &rt;
    let mut r = ElementReader::new(SCHEDULES);
    let mut w = BitWriter::new(rt.alloc());
    let mut hrd = HrdParams::new();
    ok(rt, read_hrd_parameters(&mut r, true, 1, &mut hrd));
    ok(rt, write_hrd_parameters(&mut w, true, 1, &hrd));
    assert_written(rt, rt.alloc(), &mut w, SCHEDULES);
}

#[test]
fn reserved_bits_of_a_profile_are_zeros(rt: HostRuntime) {
    let rt = &rt;
    let mut r = ElementReader::new(PROFILE);
    let mut w = BitWriter::new(rt.alloc());
    let profile = ok(rt, read_profile_tier_level(&mut r, 1));
    ok(rt, write_profile_tier_level(&mut w, 1, &profile));
    assert_written(rt, rt.alloc(), &mut w, WRITTEN_PROFILE);
}
