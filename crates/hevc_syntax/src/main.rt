//! The program: tells each syntax element of an H.265 byte stream from standard input.
#![tactic(auto)]

use hevc_io::{Sink, Source, Word};
use hevc_syntax_text::run_syntax;
use hevc_usage::{Runnable, start};
use std::alloc::Global;
use std::process::ExitCode;

/// How the program is called.
const USAGE: &str = "\
usage: hevc_syntax [json] [type N | unit A B] < STREAM\n\
\n\
Tells the units of an H.265 byte stream (Annex B) from standard input, and of\n\
parameter sets and slice segment headers each element: its place in bits, its\n\
name, how it is written, and its value. With json each line is an object, with\n\
type the units of a nal_unit_type alone are told, and with unit those from\n\
number A to B.\n";

/// The program.
struct SyntaxProgram;

impl Runnable for SyntaxProgram {
    const NAME: &'static str = "hevc_syntax";

    const USAGE: &'static str = USAGE;

    const WRITES_STREAM: bool = false;

    fn run<S: Source, K: Sink>(alloc: Global, words: &[Word], source: &mut S, sink: &mut K) -> u8 {
        run_syntax(alloc, words, source, sink)
    }
}

fn main(rt: HostRuntime) -> ExitCode {
    ExitCode::from(start::<SyntaxProgram>(&rt))
}
