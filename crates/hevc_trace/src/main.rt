//! The program: decodes an H.265 byte stream from standard input, and prints the calls that a backend is asked for and
//! the pictures that are output.
#![tactic(auto)]

use hevc_io::{Sink, Source, Word};
use hevc_report::run;
use hevc_usage::{Runnable, start};
use std::alloc::Global;
use std::process::ExitCode;

/// How the program is called.
const USAGE: &str = "\
usage: hevc_trace [layer T] [base] [cra] < STREAM\n\
\x20      hevc_trace make N\n\
\n\
Decodes an H.265 byte stream (Annex B) from standard input, and prints the calls\n\
that a backend is asked for and the pictures that are output.\n\
\n\
\x20 layer T   decode the temporal sub-layers up to T, 0 to 6\n\
\x20 base      decode the base layer alone\n\
\x20 cra       handle CRA pictures as BLA pictures\n\
\x20 make N    decode a made stream of N pictures, 1 to 100000, and print one line\n";

/// The program.
struct Trace;

impl Runnable for Trace {
    const NAME: &'static str = "hevc_trace";

    const USAGE: &'static str = USAGE;

    const WRITES_STREAM: bool = false;

    fn run<S: Source, K: Sink>(alloc: Global, words: &[Word], source: &mut S, sink: &mut K) -> u8 {
        run(alloc, words, source, sink)
    }
}

fn main(rt: HostRuntime) -> ExitCode {
    ExitCode::from(start::<Trace>(&rt))
}
