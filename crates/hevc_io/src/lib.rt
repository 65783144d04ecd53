//! Where a program has its words, its input and its output: the words of the command line, a source
//! of bytes, which is read to its end, and a sink of bytes, which takes a whole text; over memory
//! and over the system's readers and writers.
#![tactic(auto)]

mod fault_plan;
mod input;
mod memory;
mod output;
mod sink;
mod source;
mod standard;
mod stop;
mod word;
mod words;

pub use input::{INPUT_LIMIT, InputError, inputs_have_a_limit, read_all};
pub use memory::{MemorySink, MemorySource};
pub use output::write_all;
pub use sink::{Sink, SinkError};
pub use source::{Failed, Source};
pub use standard::{StdSink, StdSource};
pub use stop::Stop;
pub use word::Word;
pub use words::{LONGEST_WORD, MemoryWords, StdWords, Words, WordsError, command_line};
