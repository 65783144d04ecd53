//! The text of a stream, written as it is made.
ghost use Rattle.std.specs.Prelude.{◌≡◌, ◌≤◌, ◌<◌, ◌++◌, ◌==◌, length, IfOk, OnOk, OnErr};
ghost use Rattle.std.specs.Prelude.{IsErrOf, if◌then◌else◌};
ghost use Rattle.std.specs.Io.KnownBytes.{Appends};
ghost use Rattle.hevc_fault_counts.specs.Faults.{Rose};
ghost use Rattle.hevc_bits.specs.declared.stream_limit.TheConstants.{STREAM_LIMIT};
ghost use Rattle.hevc_io.specs.Prefix.{AppendsLess};
ghost use Rattle.hevc_syntax_text.specs.Steps.{HasSameStanding, Passes};
ghost use Rattle.hevc_syntax_text.specs.Written.{last_line, status_of, written_of};

use crate::stream::{StreamText, push_last};
use crate::words::Request;
use hevc_io::{Sink, Stop, write_all};
use std::alloc::Global;

/// So many bytes are written at once, or a unit's text where that is longer.
const BLOCK: usize = 65_536;

/// Writes the text of a stream of less than 2^60 bytes to a sink, unit by unit, and gives the
/// status. No more of it is kept than a block and the text of one unit.
///
/// Errors: the sink failed, or there was no memory.
pub(crate) fn write_text<K: Sink>(
    alloc: Global,
    request: Request,
    stream: &[u8],
    sink: &mut K,
) -> Result<u8, Stop>
    requires { length stream.now < STREAM_LIMIT }
    ensures whole { IfOk result (λ status. Appends (K.written sink.old) (K.written sink.new)
        (written_of request stream.now) × (status ≡ status_of request stream.now)) }
    ensures statuses { IfOk result (λ status. status ≤ 1) }
    ensures less { OnErr result (AppendsLess (K.written sink.old) (K.written sink.new)
        (written_of request stream.now)) }
    ensures write { IsErrOf result Stop.Write → Rose (K.faults sink.old) (K.faults sink.new) }
    ensures reads_nothing { (IsErrOf result Stop.Read → ⊥) × (IsErrOf result Stop.TooLong → ⊥) }
{
    let mut text = StreamText::new(alloc, request);
    let mut position = 0;
    while let Some(next) = text.take_next(stream, position)? {
        text.write_block(sink)?;
        position = next;
    }
    text.finish(sink)
}

impl StreamText {
    /// Writes what isn't written yet, where it is a block or more.
    fn write_block<K: Sink>(&mut self, sink: &mut K) -> Result<(), Stop>
        ensures passes { OnOk result (Passes (K.written sink.old) (K.written sink.new)
            self.old.bytes.items self.new.bytes.items) }
        ensures less { OnErr result
            (AppendsLess (K.written sink.old) (K.written sink.new) self.old.bytes.items) }
        ensures same { HasSameStanding self.old self.new }
        ensures later { K.faults sink.old ≤ K.faults sink.new }
        ensures write { IsErrOf result Stop.Write → Rose (K.faults sink.old) (K.faults sink.new) }
        ensures reads_nothing { (IsErrOf result Stop.Read → ⊥)
            × (IsErrOf result Stop.TooLong → ⊥) }
    {
        if self.bytes.len() < BLOCK {
            return Ok(());
        }
        write_all(sink, &self.bytes)?;
        self.bytes.clear();
        Ok(())
    }

    /// Adds the last line, writes what isn't written yet, and gives the status.
    fn finish<K: Sink>(mut self, sink: &mut K) -> Result<u8, Stop>
        ensures all { OnOk result (Appends (K.written sink.old) (K.written sink.new)
            (self.bytes.items ++ last_line self.request.style self.units self.refused)) }
        ensures status { IfOk result (λ status. status ≡ (if self.refused == 0 then 0 else 1)) }
        ensures statuses { IfOk result (λ status. status ≤ 1) }
        ensures less { OnErr result (AppendsLess (K.written sink.old) (K.written sink.new)
            (self.bytes.items ++ last_line self.request.style self.units self.refused)) }
        ensures write { IsErrOf result Stop.Write → Rose (K.faults sink.old) (K.faults sink.new) }
        ensures reads_nothing { (IsErrOf result Stop.Read → ⊥)
            × (IsErrOf result Stop.TooLong → ⊥) }
    {
        let style = self.request.style;
        push_last(&mut self.bytes, style, self.units, self.refused)?;
        write_all(sink, &self.bytes)?;
        Ok(u8::from(self.refused > 0))
    }
}
