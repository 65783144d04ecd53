//! The measured program: decodes an H.265 byte stream from standard input over a backend that keeps nothing, or cuts it
//! into units alone, or reads it alone, and prints how many pictures, units or bytes there are.
#![tactic(auto)]

mod count;
mod line;
mod program;
#[cfg(test)]
mod tests;
mod work;

use hevc_io::{Sink, Source, Word};
use hevc_usage::{Runnable, start};
use program::run;
use std::alloc::Global;
use std::process::ExitCode;

/// How the program is called.
const USAGE: &str = "\
usage: hevc_bench [cut | read] < STREAM\n\
\n\
Decodes an H.265 byte stream (Annex B) from standard input over a backend that\n\
keeps nothing, and prints how many pictures it has.\n\
\n\
\x20 cut    cut the stream into units alone, and print how many there are\n\
\x20 read   read the stream alone, and print how many bytes it has\n";

/// The program.
struct Bench;

impl Runnable for Bench {
    const NAME: &'static str = "hevc_bench";

    const USAGE: &'static str = USAGE;

    const WRITES_STREAM: bool = false;

    fn run<S: Source, K: Sink>(alloc: Global, words: &[Word], source: &mut S, sink: &mut K) -> u8 {
        run(alloc, words, source, sink)
    }
}

fn main(rt: HostRuntime) -> ExitCode {
    ExitCode::from(start::<Bench>(&rt))
}
