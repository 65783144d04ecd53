//! A program over the system's words, input and output.
use crate::explain::{About, explain};
use crate::head::HeadSource;
use crate::progress::{ProgressSource, Telling};
use crate::tail::TailSink;
use hevc_io::{Sink, Source, StdSink, StdSource, StdWords, Word, command_line};
use std::alloc::Global;
use std::io::{self, IsTerminal};

/// A program that reads a source and writes to a sink.
pub trait Runnable {
    const NAME: &'static str;
    /// How it is called.
    const USAGE: &'static str;
    /// Whether what it writes is a stream, where nothing is refused.
    const WRITES_STREAM: bool;

    /// Runs it by the words of the command line after its name. Answers its exit status.
    fn run<S: Source, K: Sink>(alloc: Global, words: &[Word], source: &mut S, sink: &mut K) -> u8;
}

/// Runs a program over the system's words, input and output, and says on standard error what there
/// is to say: how far it is, where that is a terminal or FEZHALUM_PROGRESS is in the environment,
/// and at its end what came of it. Answers its exit status.
pub fn start<P: Runnable>(runtime: &HostRuntime) -> u8 {
    let telling = Telling::by(runtime, runtime.stderr().is_terminal());
    let input = HeadSource::new(StdSource::new(runtime.reader()));
    let mut source = ProgressSource::new(input, runtime, P::NAME, telling);
    let mut sink = TailSink::new(StdSink::new(io::writer(runtime)));
    let status = match command_line(&StdWords { system: runtime }, runtime.alloc()) {
        Ok(words) => P::run(runtime.alloc(), &words, &mut source, &mut sink),
        Err(error) => error.status(),
    };
    let about = About {
        name: P::NAME,
        usage: P::USAGE,
        writes_stream: P::WRITES_STREAM,
    };
    source.finish();
    explain(
        runtime,
        about,
        status,
        source.within().head(),
        sink.last_line(),
    );
    status
}
