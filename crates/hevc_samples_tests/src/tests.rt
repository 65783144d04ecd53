use hevc_configuration::{ConfigurationError, ConfigurationField, HevcConfiguration};
use hevc_samples::{LengthSize, SampleError, take_unit, units_of};
use std::test::Fail;

/// The hvcC that FFmpeg 5.1 writes of a stream of 64 x 64 by x265.
const RECORD: [u8; 113] = [
    0x01, 0x04, 0x08, 0x00, 0x00, 0x00, 0x9e, 0x08, 0x00, 0x00, 0x00, 0x00, 0x1e, 0xf0, 0x00, 0xfc,
    0xff, 0xf8, 0xf8, 0x00, 0x00, 0x0f, 0x03, 0xa0, 0x00, 0x01, 0x00, 0x17, 0x40, 0x01, 0x0c, 0x01,
    0xff, 0xff, 0x04, 0x08, 0x00, 0x00, 0x03, 0x00, 0x9e, 0x08, 0x00, 0x00, 0x03, 0x00, 0x00, 0x1e,
    0x95, 0x98, 0x09, 0xa1, 0x00, 0x01, 0x00, 0x2c, 0x42, 0x01, 0x01, 0x04, 0x08, 0x00, 0x00, 0x03,
    0x00, 0x9e, 0x08, 0x00, 0x00, 0x03, 0x00, 0x00, 0x1e, 0x90, 0x04, 0x10, 0x20, 0xb2, 0xca, 0xcd,
    0x24, 0x99, 0x5e, 0x02, 0xdc, 0x08, 0x08, 0x00, 0x10, 0x00, 0x00, 0x03, 0x00, 0x10, 0x00, 0x00,
    0x03, 0x01, 0x90, 0x80, 0xa2, 0x00, 0x01, 0x00, 0x08, 0x44, 0x01, 0xc1, 0x72, 0x86, 0x0c, 0x42,
    0x24,
];

#[test]
fn a_record_is_read_and_written(rt: HostRuntime) -> Result<(), Fail> {
    let record = HevcConfiguration::read(rt.alloc(), &RECORD)?;
    assert_eq!(rt; record.general_profile_idc, 4);
    assert_eq!(rt; record.general_profile_compatibility_flags, 0x0800_0000);
    assert_eq!(rt; record.general_constraint_indicator_flags, 0x9e08_0000_0000);
    assert_eq!(rt; record.general_level_idc, 30);
    assert_eq!(rt; record.chroma_format_idc, 3);
    assert_eq!(rt; record.num_temporal_layers, 1);
    assert!(rt; record.temporal_id_nested);
    assert_eq!(rt; record.length_size, LengthSize::Four);
    assert_eq!(rt; record.arrays.len(), 3);
    let written = record.write(rt.alloc())?;
    assert_eq!(rt; written.as_slice(), RECORD.as_slice());
    Ok(())
}

#[test]
fn arrays_have_their_units(rt: HostRuntime) -> Result<(), Fail> {
    let record = HevcConfiguration::read(rt.alloc(), &RECORD)?;
    let mut sizes = Vec::new(rt.alloc());
    for array in &record.arrays {
        assert!(rt; array.array_completeness);
        for unit in &array.units {
            sizes.push((array.nal_unit_type, unit.len()))?;
        }
    }
    assert_eq!(rt;
        sizes.as_slice(),
        [(32u8, 23usize), (33, 44), (34, 8)].as_slice()
    );
    Ok(())
}

/// Why the record isn't read.
fn fault(rt: &HostRuntime, bytes: &[u8]) -> Option<ConfigurationError> {
    match HevcConfiguration::read(rt.alloc(), bytes) {
        Ok(_record) => None,
        Err(error) => Some(error),
    }
}

#[test]
fn the_first_fault_is_named(rt: HostRuntime) {
    let short = |field: ConfigurationField| Some(ConfigurationError::TooShort(field));
    assert_eq!(rt;
        fault(&rt, &[]),
        short(ConfigurationField::ConfigurationVersion)
    );
    assert_eq!(rt;
        fault(&rt, &[0]),
        Some(ConfigurationError::UnsupportedVersion(0))
    );
    assert_eq!(rt;
        fault(&rt, &RECORD[..1]),
        short(ConfigurationField::GeneralProfileSpace)
    );
    assert_eq!(rt;
        fault(&rt, &RECORD[..14]),
        short(ConfigurationField::MinSpatialSegmentationIdc)
    );
    assert_eq!(rt;
        fault(&rt, &RECORD[..22]),
        short(ConfigurationField::NumOfArrays)
    );
    assert_eq!(rt;
        fault(&rt, &RECORD[..23]),
        short(ConfigurationField::ArrayCompleteness)
    );
    assert_eq!(rt;
        fault(&rt, &RECORD[..25]),
        short(ConfigurationField::NumNalus)
    );
    assert_eq!(rt;
        fault(&rt, &RECORD[..27]),
        short(ConfigurationField::NalUnitLength)
    );
    assert_eq!(rt;
        fault(&rt, &RECORD[..112]),
        short(ConfigurationField::NalUnit)
    );
}

#[test]
fn lengths_of_three_bytes_are_refused(rt: HostRuntime) {
    let mut record = RECORD;
    record[21] = 0x0e;
    assert_eq!(rt;
        fault(&rt, &record),
        Some(ConfigurationError::UnsupportedLengthSize)
    );
}

#[test]
fn a_unit_is_not_cut_at_a_start_code(rt: HostRuntime) -> Result<(), Fail> {
    let sample = [0, 0, 0, 5, 0x26, 0x01, 0, 0, 1, 0, 0, 0, 2, 0x28, 0x01];
    let mut sizes = Vec::new(rt.alloc());
    for unit in units_of(&sample, LengthSize::Four) {
        sizes.push(unit?.len())?;
    }
    assert_eq!(rt; sizes.as_slice(), [5usize, 2].as_slice());
    Ok(())
}

#[test]
fn each_refusal_of_a_sample_is_named(rt: HostRuntime) {
    let refusal = |sample: &[u8], size: LengthSize| match take_unit(sample, size) {
        Ok(_taken) => None,
        Err(error) => Some(error),
    };
    assert_eq!(rt;
        refusal(&[0, 0, 1], LengthSize::Four),
        Some(SampleError::LengthCut)
    );
    assert_eq!(rt;
        refusal(&[0, 0, 7], LengthSize::Two),
        Some(SampleError::EmptyUnit)
    );
    assert_eq!(rt;
        refusal(&[2, 7], LengthSize::One),
        Some(SampleError::UnitBeyondSample)
    );
    assert_eq!(rt; refusal(&[1, 7], LengthSize::One), None);
}
