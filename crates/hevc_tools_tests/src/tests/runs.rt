//! Runs of the programs over streams in memory, from the words of the command line to the status.
use crate::tests::expect::{expect_eq, ok};
use crate::tests::words::words_of;
use hevc_extract::run_extract;
use hevc_index::run_index;
use hevc_io::{MemorySink, MemorySource};
use std::alloc::Global;
use std::process::Abort;

/// The program that is run.
#[derive(Clone, Copy)]
pub(crate) enum Program {
    Extractor,
    Splicer,
}

/// A run by these words over these bytes, whose reads and writes with these numbers fail, ends with
/// this status and writes these bytes.
pub(crate) fn writes(
    rt: &impl Abort,
    alloc: Global,
    program: Program,
    texts: &[&str],
    bytes: &[u8],
    reads: Vec<u64>,
    writes: Vec<u64>,
    status: u8,
    written: &[u8],
) {
    let words = words_of(rt, alloc, texts);
    let mut source = MemorySource::new(ok(rt, Vec::from_slice(alloc, bytes)), reads);
    let mut sink = MemorySink::new(alloc, writes);
    let ended = match program {
        Program::Extractor => run_extract(alloc, &words, &mut source, &mut sink),
        Program::Splicer => run_index(alloc, &words, &mut source, &mut sink),
    };
    expect_eq(rt, ended, status);
    expect_eq(rt, sink.written(), written);
}

/// A run by these words over these bytes, in which nothing fails.
pub(crate) fn gives(
    rt: &impl Abort,
    alloc: Global,
    program: Program,
    texts: &[&str],
    bytes: &[u8],
    status: u8,
    written: &[u8],
) {
    let (reads, fails) = (Vec::new(alloc), Vec::new(alloc));
    writes(
        rt, alloc, program, texts, bytes, reads, fails, status, written,
    );
}
