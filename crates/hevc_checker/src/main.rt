//! The program: tells whether an H.265 byte stream from standard input keeps bounds that are enough
//! for its pictures to be output in order, and if not, at which picture one of them doesn't hold.
#![tactic(auto)]

use hevc_check::run_check;
use hevc_io::{Sink, Source, Word};
use hevc_usage::{Runnable, start};
use std::alloc::Global;
use std::process::ExitCode;

/// How the program is called.
const USAGE: &str = "\
usage: hevc_checker order < STREAM\n\
\x20      hevc_checker < STREAM\n\
\n\
Tells whether an H.265 byte stream (Annex B) from standard input keeps bounds\n\
that are enough for its pictures to be output whole and in order: then one line,\n\
check yes, and status 0; else check no with the first picture at which one\n\
doesn't hold, and status 7.\n\
\n\
\x20 order   what the order of the outputs needs\n\
\n\
Without a word the bounds are plainer: no latency is declared, and the buffer is\n\
never full.\n";

/// The program.
struct Checker;

impl Runnable for Checker {
    const NAME: &'static str = "hevc_checker";

    const USAGE: &'static str = USAGE;

    const WRITES_STREAM: bool = false;

    fn run<S: Source, K: Sink>(alloc: Global, words: &[Word], source: &mut S, sink: &mut K) -> u8 {
        run_check(alloc, words, source, sink)
    }
}

fn main(rt: HostRuntime) -> ExitCode {
    ExitCode::from(start::<Checker>(&rt))
}
