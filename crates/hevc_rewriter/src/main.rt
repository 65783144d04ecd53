//! The program: reads an H.265 byte stream from standard input, and writes it with its parameter
//! sets written anew.
#![tactic(auto)]

use hevc_io::{Sink, Source, Word};
use hevc_usage::{Runnable, start};
use hevc_write::run_write;
use std::alloc::Global;
use std::process::ExitCode;

/// How the program is called.
const USAGE: &str = "\
usage: hevc_rewriter < STREAM\n\
\n\
Writes an H.265 byte stream (Annex B) from standard input with its parameter\n\
sets written anew, each unit after 00 00 01.\n";

/// The program.
struct Rewriter;

impl Runnable for Rewriter {
    const NAME: &'static str = "hevc_rewriter";

    const USAGE: &'static str = USAGE;

    const WRITES_STREAM: bool = true;

    fn run<S: Source, K: Sink>(alloc: Global, words: &[Word], source: &mut S, sink: &mut K) -> u8 {
        run_write(alloc, words, source, sink)
    }
}

fn main(rt: HostRuntime) -> ExitCode {
    ExitCode::from(start::<Rewriter>(&rt))
}
