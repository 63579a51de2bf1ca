//! Calls of std's readers and writers, whose failures are counted.
ghost use Rattle.std.specs.Prelude.{◌≡◌, ◌<◌, ◌≤◌, ◌==◌, true, if◌then◌else◌, length, IfOk, OnOk, OnErr};
ghost use Rattle.std.specs.Io.KnownBytes.{ReadConsumes, WriteAppends};
ghost use Rattle.ld_edge.specs.Faults.{next_count};

use crate::faults::FaultCount;
use crate::interrupted;
use crate::outside::Failed;
use std::io::{Read, Write};

/// Reads, and notes the end where no byte came.
pub fn read<R: Read>(
    reader: &mut R,
    into: &mut [u8],
    is_ended: &mut bool,
    faults: &mut FaultCount,
) -> Result<usize, Failed>
    ensures within { IfOk result (λ n. n ≤ length into.new) }
    ensures ended { IfOk result (λ n. is_ended.new ≡ (if n == 0 then true else is_ended.old)) }
    ensures keeps_ended { OnErr result (is_ended.new ≡ is_ended.old) }
    ensures reader { ReadConsumes (R.remaining reader.old) (R.remaining reader.new) result into.new }
    ensures keeps_count { OnOk result (faults.new.number ≡ faults.old.number) }
    ensures counted { OnErr result (faults.new.number ≡ next_count faults.old.number) }
{
    match interrupted::read(reader, into) {
        Ok(count) => {
            if count == 0 {
                *is_ended = true;
            }
            Ok(count)
        }
        Err(_) => Err(count_failure(faults)),
    }
}

/// Writes. A call that takes no byte failed.
pub fn write<W: Write>(
    writer: &mut W,
    bytes: &[u8],
    faults: &mut FaultCount,
) -> Result<usize, Failed>
    ensures some { IfOk result (λ n. 1 ≤ n) }
    ensures within { IfOk result (λ n. n ≤ length bytes.now) }
    ensures writer { WriteAppends (W.contents writer.old) (W.contents writer.new) result bytes.now }
    ensures keeps_count { OnOk result (faults.new.number ≡ faults.old.number) }
    ensures counted { OnErr result (faults.new.number ≡ next_count faults.old.number) }
{
    match interrupted::write(writer, bytes) {
        Ok(count) if count > 0 => Ok(count),
        _ => Err(count_failure(faults)),
    }
}

fn count_failure(faults: &mut FaultCount) -> Failed
    ensures { faults.new.number ≡ next_count faults.old.number }
{
    faults.rise();
    Failed
}
