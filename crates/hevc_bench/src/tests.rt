//! Streams of the worked units, from the words of the command line and the bytes to the line.
use crate::program::run;
use hevc_io::{MemorySink, MemorySource, Word};
use std::alloc::Global;
use std::process::Abort;
use std::test::Fail;

/// A sequence set of 16 by 16 luma samples, a picture set, an IDR picture, and a P picture that refers to it, each after
/// 00 00 01.
const STREAM: &[u8] = &[
    0x00, 0x00, 0x01, 0x42, 0x01, 0x01, 0x01, 0x60, 0x00, 0x00, 0x03, 0x00, 0x90, 0x00, 0x00, 0x03,
    0x00, 0x00, 0x03, 0x00, 0x3c, 0xa0, 0x88, 0x45, 0xe5, 0x5a, 0xbc, 0x20, 0x80, 0x00, 0x00, 0x01,
    0x44, 0x01, 0xc0, 0x71, 0x80, 0x12, 0x00, 0x00, 0x01, 0x26, 0x01, 0xaf, 0x80, 0x00, 0x00, 0x01,
    0x02, 0x01, 0xd2, 0x14, 0x97, 0x80,
];

/// A run by these words over these bytes, whose reads and writes with these numbers fail, ends with this status and writes
/// this line.
fn writes(
    rt: &impl Abort,
    alloc: Global,
    words: &[Word],
    bytes: &[u8],
    reads: Vec<u64>,
    writes: Vec<u64>,
    status: u8,
    line: &str,
) -> Result<(), Fail> {
    let mut source = MemorySource::new(Vec::from_slice(alloc, bytes)?, reads);
    let mut sink = MemorySink::new(alloc, writes);
    assert_eq!(rt; run(alloc, words, &mut source, &mut sink), status);
    assert_eq!(rt; sink.written(), line.as_bytes());
    Ok(())
}

/// A run by these words over these bytes, in which nothing fails.
fn finds(
    rt: &impl Abort,
    alloc: Global,
    words: &[Word],
    bytes: &[u8],
    status: u8,
    line: &str,
) -> Result<(), Fail> {
    writes(
        rt,
        alloc,
        words,
        bytes,
        Vec::new(alloc),
        Vec::new(alloc),
        status,
        line,
    )
}

/// One word.
fn word(alloc: Global, text: &str) -> Result<Word, Fail> {
    Ok(Word::new(Vec::from_slice(alloc, text.as_bytes())?))
}

#[test]
fn pictures_are_counted(rt: HostRuntime) -> Result<(), Fail> {
    let alloc = rt.alloc();
    finds(&rt, alloc, &[], STREAM, 0, "pictures 2\n")?;
    finds(&rt, alloc, &[], &[], 0, "pictures 0\n")?;
    finds(&rt, alloc, &[], &STREAM[..46], 0, "pictures 1\n")?;
    finds(&rt, alloc, &[], &STREAM[..50], 1, "refused unit 3\n")
}

#[test]
fn units_are_counted(rt: HostRuntime) -> Result<(), Fail> {
    let alloc = rt.alloc();
    let cut = [word(alloc, "cut")?];
    finds(&rt, alloc, &cut, STREAM, 0, "units 4\n")?;
    finds(&rt, alloc, &cut, &[], 0, "units 0\n")?;
    finds(&rt, alloc, &cut, &STREAM[..50], 0, "units 4\n")?;
    finds(&rt, alloc, &cut, &STREAM[..49], 1, "refused unit 3\n")
}

#[test]
fn bytes_are_counted(rt: HostRuntime) -> Result<(), Fail> {
    let alloc = rt.alloc();
    let read = [word(alloc, "read")?];
    finds(&rt, alloc, &read, STREAM, 0, "bytes 54\n")?;
    finds(&rt, alloc, &read, &STREAM[..50], 0, "bytes 50\n")
}

#[test]
fn other_words_are_refused(rt: HostRuntime) -> Result<(), Fail> {
    let alloc = rt.alloc();
    finds(&rt, alloc, &[word(alloc, "cuts")?], STREAM, 2, "")?;
    finds(&rt, alloc, &[word(alloc, "")?], STREAM, 2, "")?;
    let twice = [word(alloc, "cut")?, word(alloc, "cut")?];
    finds(&rt, alloc, &twice, STREAM, 2, "")
}

#[test]
fn faults_have_their_statuses(rt: HostRuntime) -> Result<(), Fail> {
    let alloc = rt.alloc();
    for call in 1..3u64 {
        let reads = vec![in alloc; call]?;
        writes(&rt, alloc, &[], STREAM, reads, Vec::new(alloc), 3, "")?;
    }
    writes(
        &rt,
        alloc,
        &[],
        STREAM,
        Vec::new(alloc),
        vec![in alloc; 1]?,
        4,
        "",
    )
}
