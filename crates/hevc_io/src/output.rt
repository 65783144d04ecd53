//! A whole text written to a sink.
ghost use Rattle.std.specs.Prelude.{◌≤◌, OnOk, OnErr, IsErrOf};
ghost use Rattle.std.specs.Io.KnownBytes.{Appends};
ghost use Rattle.hevc_fault_counts.specs.Faults.{Rose};
ghost use Rattle.hevc_io.specs.Prefix.{AppendsLess};

use crate::sink::{Sink, SinkError};

/// Writes a text in as many pieces as the sink takes.
pub fn write_all<K: Sink>(sink: &mut K, text: &[u8]) -> Result<(), SinkError>
    ensures all { OnOk result (Appends (K.written sink.old) (K.written sink.new) text.now) }
    ensures less { OnErr result (AppendsLess (K.written sink.old) (K.written sink.new) text.now) }
    ensures later { K.faults sink.old ≤ K.faults sink.new }
    ensures failed { IsErrOf result SinkError.Failed
        → Rose (K.faults sink.old) (K.faults sink.new) }
{
    let mut done = 0;
    while done < text.len() {
        done += sink.write(&text[done..])?;
    }
    Ok(())
}
