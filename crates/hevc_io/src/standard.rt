//! The system's input and output.
ghost use Rattle.std.specs.Prelude.{◌≡◌, ◌≤◌, IsErrOf, OnOk};
ghost use Rattle.std.specs.Io.{WritesAtMost};
ghost use Rattle.std.specs.Io.KnownBytes.{WriteAppends};
ghost use Rattle.hevc_fault_counts.specs.Faults.{Rose};
ghost use Rattle.hevc_io.specs.Writes.{TakesSome};
ghost use Rattle.hevc_io.specs.Standard.{StandardSource, StandardSink};

use crate::sink::{Sink, SinkError};
use crate::source::{Failed, Source};
use std::io::{Read, Write};
use std::marker::Model;

/// The standard input, or any other reader. It exposes of its bytes what the reader exposes; of
/// those of standard input that is nothing.
#[derive(Drop)]
pub struct StdSource<R: Read> {
    reader: R,
    faults: u64,
}

impl<R: Read> Model for StdSource<R> {
    ghost Value = { StandardSource };

    ghost view = { λ source. record { left = R.remaining source.reader; faults = source.faults } };
}

impl<R: Read> StdSource<R> {
    /// A source over a reader, with no fault counted.
    pub fn new(reader: R) -> StdSource<R>
        ensures left { result.left ≡ R.remaining reader }
        ensures faults { result.faults ≡ 0 }
    {
        StdSource { reader, faults: 0 }
    }
}

impl<R: Read> Source for StdSource<R> {
    ghost left = { λ source. source.left };

    ghost faults = { λ source. source.faults };

    fn read(&mut self, buf: &mut [u8]) -> Result<usize, Failed> {
        match self.reader.read(buf) {
            Ok(count) => Ok(count),
            Err(_) => {
                self.faults = self.faults.saturating_add(1);
                Err(Failed)
            }
        }
    }
}

/// The standard output, or any other writer. It exposes of what was written what the writer
/// exposes; of standard output that is nothing.
#[derive(Drop)]
pub struct StdSink<W: Write> {
    writer: W,
    faults: u64,
}

impl<W: Write> Model for StdSink<W> {
    ghost Value = { StandardSink };

    ghost view = { λ sink. record { written = W.contents sink.writer; faults = sink.faults } };
}

impl<W: Write> StdSink<W> {
    /// A sink over a writer, with no fault counted.
    pub fn new(writer: W) -> StdSink<W>
        ensures written { result.written ≡ W.contents writer }
        ensures faults { result.faults ≡ 0 }
    {
        StdSink { writer, faults: 0 }
    }
}

impl<W: Write> Sink for StdSink<W> {
    ghost written = { λ sink. sink.written };

    ghost faults = { λ sink. sink.faults };

    /// A writer that takes none of some bytes has failed. `NoMemory` never comes.
    fn write(&mut self, bytes: &[u8]) -> Result<usize, SinkError>
        ensures bound { WritesAtMost result bytes.now }
        ensures some { TakesSome result bytes.now }
        ensures bytes { WriteAppends self.old.written self.new.written result bytes.now }
        ensures later { self.old.faults ≤ self.new.faults }
        ensures failed { IsErrOf result SinkError.Failed → Rose self.old.faults self.new.faults }
        ensures no_memory { ¬ (IsErrOf result SinkError.NoMemory) }
        ensures ok { OnOk result (self.new.faults ≡ self.old.faults) }
    {
        match self.writer.write(bytes) {
            Ok(count) if count > 0 || bytes.is_empty() => Ok(count),
            _ => {
                self.faults = self.faults.saturating_add(1);
                Err(SinkError::Failed)
            }
        }
    }
}
