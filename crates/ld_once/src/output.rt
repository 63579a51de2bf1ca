ghost use Rattle.std.specs.Prelude.{◌≡◌, ◌≤◌, length, take, OnOk, OnErr};
ghost use Rattle.ld_once.specs.Runs.{Writes, WritesFront};

use ld_edge::{Failed, Sink};

/// Writes the whole text; where a write fails, a front of it was written.
pub fn write_whole<K: Sink>(output: &mut K, text: &[u8]) -> Result<(), Failed>
    ensures whole { OnOk result (Writes (K.outgoing output.old) (K.outgoing output.new) text.now) }
    ensures front { OnErr result (WritesFront (K.outgoing output.old) (K.outgoing output.new) text.now) }
{
    let mut done = 0;
    while done < text.len() {
        done += output.write(&text[done..])?;
    }
    Ok(())
}
