ghost use Rattle.std.specs.Prelude.{◌≡◌, OnOk, OnErr};
ghost use Rattle.ld_edge.specs.Faults.{Rose};
ghost use Rattle.ld_edge.specs.Passing.{Goes, GoesInPart};

use crate::outside::{Failed, Sink};

/// Writes all bytes. Where a write fails, a front of them was written, and its count rose.
pub fn write_all<K: Sink>(sink: &mut K, bytes: &[u8]) -> Result<(), Failed>
    ensures all { OnOk result (Goes (K.outgoing sink.old) (K.outgoing sink.new) bytes.now) }
    ensures part { OnErr result (GoesInPart (K.outgoing sink.old) (K.outgoing sink.new) bytes.now) }
    ensures keeps_count { OnOk result ((K.outgoing sink.new).faults ≡ (K.outgoing sink.old).faults) }
    ensures rose { OnErr result (Rose (K.outgoing sink.old).faults (K.outgoing sink.new).faults) }
    ensures keeps_beside { K.beside sink.new ≡ K.beside sink.old }
{
    let mut done = 0;
    while done < bytes.len() {
        done += sink.write(&bytes[done..])?;
    }
    Ok(())
}
