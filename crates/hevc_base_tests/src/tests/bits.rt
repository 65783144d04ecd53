//! Worked units and payloads.

use crate::tests::expect::{expect, expect_eq};
use hevc_bits::{BitError, Header, Nalu, NaluHeader, NaluReader, NaluType, UnitError};
use std::convert::AsSlice;

#[test]
fn reads_bits_across_bytes(rt: HostRuntime) {
    let rt = &rt;
    let mut r = NaluReader::new(&[0x01, 0x23, 0x45, 0x67, 0x89, 0xA0]);
    for (count, bits, left, has_more) in [
        (1, 0, 47, true),
        (8, 2, 39, true),
        (31, 0x2345_6789, 8, true),
        (1, 1, 7, true),
        (1, 0, 6, false),
    ] {
        expect_eq(rt, r.read_bits(count), Ok(bits));
        expect_eq(rt, r.num_bits_left(), left);
        expect_eq(rt, r.has_more_rsbp_data(), has_more);
    }
    expect_eq(rt, r.read_bits(32), Err(BitError::OutOfRange));
}

#[test]
fn tells_whether_more_stands_before_the_stop_bit(rt: HostRuntime) {
    let rt = &rt;
    let mut short = NaluReader::new(&[0x18]);
    expect_eq(rt, short.num_bits_left(), 8);
    expect(rt, short.has_more_rsbp_data());
    expect_eq(rt, short.read_bits(4), Ok(1));
    expect(rt, !short.has_more_rsbp_data());
    let mut long = NaluReader::new(&[0xAB, 0x80]);
    expect_eq(rt, long.num_bits_left(), 16);
    expect(rt, long.has_more_rsbp_data());
    expect_eq(rt, long.read_bits(8), Ok(0xAB));
    expect_eq(rt, long.num_bits_left(), 8);
    expect(rt, !long.has_more_rsbp_data());
    expect(rt, NaluReader::new(&[0x80, 0, 0, 3]).has_more_rsbp_data());
    expect(rt, !NaluReader::new(&[]).has_more_rsbp_data());
}

#[test]
fn moves_behind_zero_bytes_where_no_more_stands(rt: HostRuntime) {
    let rt = &rt;
    let mut r = NaluReader::new(&[0x80, 0, 0]);
    expect(rt, !r.has_more_rsbp_data());
    expect_eq(rt, r.num_bits_left(), 8);
    expect_eq(rt, r.read_bit(), Ok(true));
}

#[test]
fn drops_a_03_behind_two_zero_bytes(rt: HostRuntime) {
    let rt = &rt;
    let mut kept = NaluReader::new(&[0x03, 0x01]);
    expect_eq(rt, kept.read_bits(16), Ok(769));
    expect_eq(rt, kept.num_epb(), 0);
    let mut dropped = NaluReader::new(&[0, 0, 0x03, 0x01]);
    expect_eq(rt, dropped.num_bits_left(), 32);
    expect_eq(rt, dropped.read_bits(24), Ok(1));
    expect_eq(rt, dropped.num_epb(), 1);
    expect_eq(rt, dropped.num_bits_left(), 0);
}

#[test]
fn counts_a_byte_as_it_is_reached(rt: HostRuntime) {
    let rt = &rt;
    let mut r = NaluReader::new(&[0, 0, 0x03, 0, 0, 0x03, 0, 0, 0x03, 0x01, 0xFF]);
    expect_eq(rt, r.read_bits(31), Ok(0));
    expect_eq(rt, r.num_epb(), 1);
    expect_eq(rt, r.num_bits_left(), 49);
    expect_eq(rt, r.read_bits(31), Ok(127));
    expect_eq(rt, r.num_epb(), 3);
    expect_eq(rt, r.num_bits_left(), 2);
    expect_eq(rt, r.read_bits(3), Err(BitError::OutOfBits));
    expect_eq(rt, r.num_bits_left(), 2);
    expect_eq(rt, r.read_bits(2), Ok(3));
    expect_eq(rt, r.num_bits_left(), 0);
}

#[test]
fn reads_across_the_border_of_the_word(rt: HostRuntime) {
    let rt = &rt;
    let bytes = [
        0x12, 0x34, 0x56, 0x78, 0x9A, 0xBC, 0xDE, 0xF0, 0x12, 0x34, 0x56, 0x78,
    ];
    for lead in 0..32 {
        let mut r = NaluReader::new(&bytes);
        expect_eq(rt, r.skip_bits(lead), Ok(()));
        let mut each = r.fork();
        expect_eq(rt, each.skip_bits(31), Ok(()));
        let straddling = each.read_bits(20);
        expect(rt, r.read_bits(31).is_ok());
        expect_eq(rt, r.num_bits_left(), (65 - lead));
        expect_eq(rt, r.read_bits(20), straddling);
        expect_eq(rt, r.num_epb(), 0);
    }
    let mut far = NaluReader::new(&bytes);
    expect_eq(rt, far.skip_bits(70), Ok(()));
    expect_eq(rt, far.skip_bits(40), Err(BitError::OutOfBits));
    expect_eq(rt, far.num_bits_left(), 26);
}

#[test]
fn reads_short_slices(rt: HostRuntime) {
    let rt = &rt;
    let mut none = NaluReader::new(&[]);
    expect_eq(rt, none.read_bit(), Err(BitError::OutOfBits));
    expect_eq(rt, none.read_ue(), Err(BitError::OutOfBits));
    expect_eq(rt, none.read_bits(0), Ok(0));
    let mut one = NaluReader::new(&[0x80]);
    expect_eq(rt, one.read_bits(9), Err(BitError::OutOfBits));
    expect_eq(rt, one.read_bits(8), Ok(0x80));
    let mut two = NaluReader::new(&[0, 0x01]);
    expect_eq(rt, two.read_ue(), Err(BitError::OutOfBits));
    expect_eq(rt, two.read_bits(16), Ok(1));
}

#[test]
fn reads_no_03_at_the_end(rt: HostRuntime) {
    let rt = &rt;
    let mut last_03 = NaluReader::new(&[0, 0, 0x03]);
    expect_eq(rt, last_03.read_bits(16), Ok(0));
    expect_eq(rt, last_03.num_bits_left(), 8);
    expect_eq(rt, last_03.num_epb(), 0);
    expect_eq(rt, last_03.read_bit(), Err(BitError::OutOfBits));
    expect_eq(rt, last_03.num_bits_left(), 8);
}

#[test]
fn refuses_32_zeros_across_the_border_of_the_word(rt: HostRuntime) {
    let rt = &rt;
    let mut r = NaluReader::new(&[0x12, 0x34, 0x56, 0x78, 0x99, 0, 0, 0x03, 0, 0, 0x80, 0x01]);
    expect_eq(rt, r.skip_bits(39), Ok(()));
    expect_eq(rt, r.read_ue(), Ok(0));
    expect_eq(rt, r.num_bits_left(), 56);
    expect_eq(rt, r.read_ue(), Err(BitError::OutOfRange));
    expect_eq(rt, r.num_bits_left(), 56);
    expect_eq(rt, r.num_epb(), 0);
}

#[test]
fn reads_exp_golomb_numbers(rt: HostRuntime) {
    let rt = &rt;
    let mut r = NaluReader::new(&[0xA6]);
    expect_eq(rt, r.read_ue(), Ok(0));
    expect_eq(rt, r.read_ue(), Ok(1));
    expect_eq(rt, r.read_ue(), Ok(2));
    let left = r.num_bits_left();
    expect_eq(rt, r.read_ue(), Err(BitError::OutOfBits));
    expect_eq(rt, r.num_bits_left(), left);
    let mut signed = NaluReader::new(&[0x4C, 0x80]);
    expect_eq(rt, signed.read_se(), Ok(1));
    expect_eq(rt, signed.read_se(), Ok(-1));
}

#[test]
fn reads_numbers_within_bounds(rt: HostRuntime) {
    let rt = &rt;
    let mut bounded = NaluReader::new(&[0x4C, 0x80]);
    expect_eq(
        rt,
        bounded.read_se_bounded(-1, 0),
        Err(BitError::OutOfRange),
    );
    expect_eq(rt, bounded.read_se_bounded(-1, 1), Ok(1));
    expect_eq(rt, bounded.read_ue_max(1), Err(BitError::OutOfRange));
    expect_eq(rt, bounded.read_ue_bounded(2, 2), Ok(2));
    expect_eq(rt, bounded.skip_bits(6), Ok(()));
    expect_eq(rt, bounded.skip_bits(5), Err(BitError::OutOfBits));
    expect_eq(rt, bounded.num_bits_left(), 4);
    expect_eq(
        rt,
        bounded.read_bits_bounded(3, 1, 7),
        Err(BitError::OutOfRange),
    );
    expect_eq(rt, bounded.read_bits_bounded(3, 0, 0), Ok(0));
    expect_eq(
        rt,
        bounded.read_bits_bounded(3, 0, 7),
        Err(BitError::OutOfBits),
    );
    expect_eq(rt, bounded.num_bits_left(), 1);
}

#[test]
fn reads_the_greatest_exp_golomb_number(rt: HostRuntime) {
    let rt = &rt;
    let mut greatest = NaluReader::new(&[0, 0, 0x03, 0, 0x01, 0, 0, 0x03, 0, 0]);
    expect_eq(rt, greatest.read_ue(), Ok(2_147_483_647));
    expect_eq(rt, greatest.num_epb(), 2);
    expect_eq(rt, greatest.num_bits_left(), 1);
    let mut zeros = NaluReader::new(&[0, 0, 0x03, 0, 0, 0x80]);
    expect_eq(rt, zeros.read_ue(), Err(BitError::OutOfRange));
    expect_eq(rt, zeros.num_bits_left(), 48);
    let mut greater = NaluReader::new(&[0, 0, 0x03, 0, 0x01, 0, 0, 0x03, 0, 0x02]);
    expect_eq(rt, greater.read_ue(), Err(BitError::OutOfRange));
    let mut cut_off = NaluReader::new(&[0, 0, 0x03, 0, 0x01, 0x40]);
    expect_eq(rt, cut_off.read_ue(), Err(BitError::OutOfBits));
    expect_eq(rt, cut_off.num_bits_left(), 48);
}

#[test]
fn cuts_units_out_of_a_stream(rt: HostRuntime) {
    let rt = &rt;
    let stream = [0, 0, 0, 1, 0x46, 0x01, 0x50, 0, 0, 1, 0x48, 0x01, 0x80, 0];
    let mut position = 0;
    let Ok(unit) = Nalu::<NaluHeader>::next(&stream, &mut position) else {
        return expect(rt, false);
    };
    expect(rt, unit.header().nalu_type() == NaluType::AudNut);
    expect_eq(rt, unit.header().layer_id(), 0);
    expect_eq(rt, unit.header().temporal_id_plus1(), 1);
    expect(rt, !unit.header().is_end());
    expect_eq(rt, unit.header().len(), 2);
    expect_eq(rt, unit.sc_offset(), 0);
    expect_eq(rt, unit.offset(), 4);
    expect_eq(rt, unit.size(), 3);
    expect_eq(rt, position, 4);
    expect(rt, unit.as_ref() == [0x46, 0x01, 0x50].as_slice());
    expect(rt, unit.payload() == [0x50].as_slice());
    expect_eq(rt, unit.data().len(), 14);
    position = unit.offset() + unit.size();
    let Ok(end) = Nalu::<NaluHeader>::next(&stream, &mut position) else {
        return expect(rt, false);
    };
    expect(rt, NaluHeader::parse(&[0x48, 0x01]) == Ok(*end.header()));
    expect_eq(rt, end.sc_offset(), 7);
    expect(rt, end.as_slice() == [0x48, 0x01].as_slice());
    position = end.offset() + end.size();
    expect(
        rt,
        Nalu::<NaluHeader>::next(&stream, &mut position).is_err(),
    );
    expect_eq(rt, position, 12);
}

#[test]
fn refuses_units_in_their_order(rt: HostRuntime) {
    let rt = &rt;
    expect(rt, refusal(&[0x42]) == Some(UnitError::NoNal));
    expect(
        rt,
        refusal(&[0, 0, 1, 0x42]) == Some(UnitError::TruncatedNalu),
    );
    expect(
        rt,
        refusal(&[0, 0, 1, 0x48, 0x00]) == Some(UnitError::TruncatedNalu),
    );
    expect(
        rt,
        refusal(&[0, 0, 1, 0x7C, 0x00, 0x80]) == Some(UnitError::InvalidNaluType(62)),
    );
    expect(
        rt,
        refusal(&[0, 0, 1, 0x40, 0x00, 0x80]) == Some(UnitError::TemporalIdZero),
    );
    expect(
        rt,
        refusal(&[0, 0, 1, 0x48, 0x00, 0x05]) == Some(UnitError::TemporalIdZero),
    );
    expect(rt, refusal(&[0, 0, 1, 0x40, 0x01]).is_none());
}

fn refusal(stream: &[u8]) -> Option<UnitError> {
    let mut position = 0;
    Nalu::<NaluHeader>::next(stream, &mut position).err()
}

#[test]
fn names_unit_types(rt: HostRuntime) {
    let rt = &rt;
    expect(rt, NaluType::n(48).is_none());
    expect(rt, NaluType::n(19) == Some(NaluType::IdrWRadl));
    expect(
        rt,
        NaluType::IdrWRadl.is_idr() && NaluType::IdrWRadl.is_irap(),
    );
    expect(rt, NaluType::BlaNLp.is_bla() && !NaluType::CraNut.is_bla());
    expect(rt, NaluType::CraNut.is_cra() && NaluType::RadlN.is_radl());
    expect(rt, NaluType::RaslR.is_rasl() && NaluType::RaslN.is_slnr());
    expect(rt, NaluType::default() == NaluType::TrailN);
    expect(rt, NaluType::TrailR < NaluType::TsaN);
}
