//! The last line of an output.
use arrayvec::ArrayVec;
use hevc_io::{Sink, SinkError};

/// How many of the last bytes of a piece are looked through.
const REACH: usize = 128;

/// The first 96 bytes of a text's last line.
#[derive(Drop)]
struct Tail {
    line: ArrayVec<u8, 96>,
    is_ended: bool,
    is_empty: bool,
}

impl Tail {
    /// The same with one more piece.
    fn take(&mut self, piece: &[u8]) {
        for byte in &piece[piece.len().saturating_sub(REACH)..] {
            self.take_byte(*byte);
        }
    }

    fn take_byte(&mut self, byte: u8) {
        self.is_empty = false;
        if self.is_ended {
            self.line.clear();
        }
        self.is_ended = byte == b'\n';
        if !self.is_ended {
            let _ = self.line.try_push(byte);
        }
    }
}

/// A sink that remembers the first 96 bytes of the last line that passes.
#[derive(Drop)]
pub(crate) struct TailSink<K: Sink> {
    sink: K,
    tail: Tail,
}

impl<K: Sink> TailSink<K> {
    /// A sink over another, to which nothing was written yet.
    pub(crate) fn new(sink: K) -> TailSink<K> {
        TailSink {
            sink,
            tail: Tail {
                line: ArrayVec::new(),
                is_ended: false,
                is_empty: true,
            },
        }
    }

    /// The last line, without its end, or none where nothing was written.
    pub(crate) fn last_line(&self) -> Option<&[u8]> {
        if self.tail.is_empty {
            return None;
        }
        Some(self.tail.line.as_slice())
    }
}

impl<K: Sink> Sink for TailSink<K> {
    ghost written = { λ sink. K.written sink.sink };

    ghost faults = { λ sink. K.faults sink.sink };

    fn write(&mut self, bytes: &[u8]) -> Result<usize, SinkError> {
        let count = self.sink.write(bytes)?;
        self.tail.take(&bytes[..count]);
        Ok(count)
    }
}
