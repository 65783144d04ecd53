//! The program: tells at which points of an H.265 byte stream from standard input decoding can start,
//! or writes the stream from one of them on.
#![tactic(auto)]

use hevc_index::run_index;
use hevc_io::{Sink, Source, Word};
use hevc_usage::{Runnable, start};
use std::alloc::Global;
use std::process::ExitCode;

/// How the program is called.
const USAGE: &str = "\
usage: hevc_splicer < STREAM\n\
\x20      hevc_splicer splice N < STREAM\n\
\n\
Prints the points of an H.265 byte stream (Annex B) from standard input at which\n\
decoding can start.\n\
\n\
\x20 splice N   write the stream that begins at the point of picture N\n";

/// The program.
struct Splicer;

impl Runnable for Splicer {
    const NAME: &'static str = "hevc_splicer";

    const USAGE: &'static str = USAGE;

    const WRITES_STREAM: bool = true;

    fn run<S: Source, K: Sink>(alloc: Global, words: &[Word], source: &mut S, sink: &mut K) -> u8 {
        run_index(alloc, words, source, sink)
    }
}

fn main(rt: HostRuntime) -> ExitCode {
    ExitCode::from(start::<Splicer>(&rt))
}
