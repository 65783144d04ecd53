//! The program: takes the lower temporal sub-layers and layers of an H.265 byte stream from
//! standard input, without decoding it, and writes them.
#![tactic(auto)]

use hevc_extract::run_extract;
use hevc_io::{Sink, Source, Word};
use hevc_usage::{Runnable, start};
use std::alloc::Global;
use std::process::ExitCode;

/// How the program is called.
const USAGE: &str = "\
usage: hevc_extractor T [L] < STREAM\n\
\n\
Writes the units of an H.265 byte stream (Annex B) from standard input whose\n\
temporal id is at most T, 0 to 6, and whose layer id is at most L, 0 to 62.\n";

/// The program.
struct Extractor;

impl Runnable for Extractor {
    const NAME: &'static str = "hevc_extractor";

    const USAGE: &'static str = USAGE;

    const WRITES_STREAM: bool = true;

    fn run<S: Source, K: Sink>(alloc: Global, words: &[Word], source: &mut S, sink: &mut K) -> u8 {
        run_extract(alloc, words, source, sink)
    }
}

fn main(rt: HostRuntime) -> ExitCode {
    ExitCode::from(start::<Extractor>(&rt))
}
