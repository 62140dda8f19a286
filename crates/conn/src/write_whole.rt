ghost use Rattle.std.specs.Prelude.{OnOk, OnErr};
ghost use Rattle.conn.specs.Faults.{FailsOnlyByFault};
ghost use Rattle.conn.specs.Told.{Gained, GainedPart};

use crate::source::{Failed, Sink};

/// Writes all of the bytes: each write is offered all that is left. Where a write fails, the sink has gained a beginning
/// of them.
pub fn write_all<K: Sink>(sink: &mut K, bytes: &[u8]) -> Result<(), Failed>
    ensures ok { OnOk result (Gained (K.held sink.old) (K.held sink.new) bytes.now) }
    ensures err { OnErr result (GainedPart (K.held sink.old) (K.held sink.new) bytes.now) }
    ensures cause { FailsOnlyByFault (K.faults sink.old) (K.faults sink.new) result }
{
    let mut written = 0;
    while written < bytes.len() {
        written += sink.write(&bytes[written..])?;
    }
    Ok(())
}
