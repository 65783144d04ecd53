//! Sources and sinks, each once.
use crate::tests::expect::{expect, expect_eq, ok};
use hevc_io::{
    Failed, InputError, LONGEST_WORD, MemorySink, MemorySource, MemoryWords, Sink, SinkError,
    Source, StdSink, StdSource, StdWords, Word, WordsError, command_line, read_all, write_all,
};
use std::alloc::Global;
use std::env::{Env, FillError};
use std::process::Abort;

fn planned(rt: &impl Abort, alloc: Global, number: u64) -> Vec<u64> {
    ok(rt, vec![in alloc; number])
}

#[test]
fn a_source_fails_at_the_planned_call(rt: HostRuntime) {
    let rt = &rt;
    let alloc = rt.alloc();
    let mut source = MemorySource::new(ok(rt, vec![in alloc; 7u8, 8, 9]), planned(rt, alloc, 2));
    let mut buf = [0u8; 2];
    expect_eq(rt, source.read(&mut buf), Ok(2));
    expect_eq(rt, buf, [7, 8]);
    expect_eq(rt, source.read(&mut buf), Err(Failed));
    expect_eq(rt, source.read(&mut buf), Ok(1));
    expect_eq(rt, buf[0], 9);
    expect_eq(rt, source.read(&mut buf), Ok(0));
}

#[test]
fn a_sink_fails_at_the_planned_call(rt: HostRuntime) {
    let rt = &rt;
    let alloc = rt.alloc();
    let mut sink = MemorySink::new(alloc, planned(rt, alloc, 1));
    expect_eq(rt, sink.write(&[1, 2]), Err(SinkError::Failed));
    expect_eq(rt, sink.write(&[3]), Ok(1));
    expect_eq(rt, sink.written(), [3].as_slice());
}

#[test]
fn readers_and_writers_are_passed_on(rt: HostRuntime) {
    let rt = &rt;
    let alloc = rt.alloc();
    let mut source = StdSource::new([5u8, 6].as_slice());
    let mut buf = [0u8; 4];
    expect_eq(rt, source.read(&mut buf), Ok(2));
    expect_eq(rt, source.read(&mut buf), Ok(0));
    let mut sink = StdSink::new(Vec::<u8>::new(alloc));
    expect_eq(rt, sink.write(&buf[..2]), Ok(2));
}

#[test]
fn a_word_has_its_bytes(rt: HostRuntime) {
    let word = Word::new(ok(&rt, vec![in rt.alloc(); 0x78]));
    expect_eq(&rt, word.as_bytes(), [0x78].as_slice());
}

/// A source of so many bytes, the first 0 and each one more than the byte before it, whose call of
/// this number fails.
fn counting(rt: &impl Abort, alloc: Global, size: usize, failing: u64) -> MemorySource {
    let mut bytes = Vec::new(alloc);
    for number in 0..size {
        ok(rt, bytes.push((number % 256) as u8));
    }
    MemorySource::new(bytes, planned(rt, alloc, failing))
}

#[test]
fn a_source_is_read_to_its_end(rt: HostRuntime) {
    let rt = &rt;
    let alloc = rt.alloc();
    for size in [0usize, 1, 65_536, 200_000] {
        let mut source = counting(rt, alloc, size, 9);
        let input = ok(rt, read_all(alloc, &mut source, 200_000));
        expect_eq(rt, input.len(), size);
        for (number, byte) in input.iter().enumerate() {
            expect_eq(rt, *byte, ((number % 256) as u8));
        }
    }
}

#[test]
fn an_input_is_within_its_limit(rt: HostRuntime) {
    let rt = &rt;
    let alloc = rt.alloc();
    let mut source = counting(rt, alloc, 70_000, 9);
    expect_eq(
        rt,
        read_all(alloc, &mut source, 69_999).err(),
        Some(InputError::TooLong),
    );
    let mut source = counting(rt, alloc, 1, 9);
    expect_eq(
        rt,
        read_all(alloc, &mut source, 0).err(),
        Some(InputError::TooLong),
    );
    let mut source = counting(rt, alloc, 0, 9);
    expect(rt, read_all(alloc, &mut source, 0).is_ok());
}

#[test]
fn a_failed_read_is_no_end(rt: HostRuntime) {
    let rt = &rt;
    let alloc = rt.alloc();
    for call in 1..4u64 {
        let mut source = counting(rt, alloc, 70_000, call);
        expect_eq(
            rt,
            read_all(alloc, &mut source, 70_000).err(),
            Some(InputError::Failed),
        );
    }
    let mut source = counting(rt, alloc, 70_000, 4);
    expect(rt, read_all(alloc, &mut source, 70_000).is_ok());
}

#[test]
fn a_text_is_written_whole(rt: HostRuntime) {
    let rt = &rt;
    let alloc = rt.alloc();
    let mut sink = MemorySink::new(alloc, planned(rt, alloc, 2));
    expect_eq(rt, write_all(&mut sink, &[4, 5]), Ok(()));
    expect_eq(rt, write_all(&mut sink, &[6]), Err(SinkError::Failed));
    expect_eq(rt, sink.written(), [4, 5].as_slice());
}

/// A system whose program has two words, of 2 and of 100 bytes, or whose second one has more than
/// may be.
struct TwoWords {
    is_short: bool,
}

impl Env for TwoWords {
    fn arg(&self, i: usize, buf: &mut [u8]) -> Result<usize, FillError> {
        match i {
            1 if buf.len() >= 2 => {
                buf[0] = 5;
                buf[1] = 6;
                Ok(2)
            }
            2 if buf.len() >= 100 && self.is_short => {
                buf[0] = 7;
                buf[99] = 8;
                Ok(100)
            }
            1 | 2 => Err(FillError::TooLong),
            _ => Err(FillError::NotPresent),
        }
    }

    fn var(&self, _name: &str, _buf: &mut [u8]) -> Result<usize, FillError> {
        Err(FillError::NotPresent)
    }

    fn var_at(&self, _i: usize, _buf: &mut [u8]) -> Result<usize, FillError> {
        Err(FillError::NotPresent)
    }
}

#[test]
fn a_command_line_has_its_words(rt: HostRuntime) {
    let rt = &rt;
    let alloc = rt.alloc();
    let words = ok(
        rt,
        command_line(
            &StdWords {
                system: &TwoWords { is_short: true },
            },
            alloc,
        ),
    );
    assert_eq!(rt; words.len(), 2);
    expect_eq(rt, words[0].as_bytes(), [5, 6].as_slice());
    let long = words[1].as_bytes();
    assert_eq!(rt; long.len(), 100);
    expect_eq(rt, (long[0], long[99]), (7, 8));
    let refused = command_line(
        &StdWords {
            system: &TwoWords { is_short: false },
        },
        alloc,
    )
    .err();
    expect_eq(rt, refused, Some(WordsError::Refused));
}

#[test]
fn known_words_are_taken_in_order(rt: HostRuntime) {
    let rt = &rt;
    let alloc = rt.alloc();
    let mut known = Vec::new(alloc);
    let word = Word::new(ok(rt, vec![in alloc; 7u8; 65]));
    ok(rt, known.push(word));
    ok(rt, known.push(Word::new(Vec::new(alloc))));
    let word = Word::new(ok(rt, vec![in alloc; 9u8; 1]));
    ok(rt, known.push(word));
    let words = ok(rt, command_line(&MemoryWords::new(known), alloc));
    expect_eq(rt, words.len(), 3);
    expect_eq(rt, words[0].as_bytes(), [7; 65].as_slice());
    expect_eq(rt, words[1].as_bytes(), [].as_slice());
    expect_eq(rt, words[2].as_bytes(), [9].as_slice());
    let word = Word::new(ok(rt, vec![in alloc; 0u8; LONGEST_WORD + 1]));
    let long = MemoryWords::new(ok(rt, vec![in alloc; word]));
    expect_eq(
        rt,
        command_line(&long, alloc).err(),
        Some(WordsError::Refused),
    );
}
