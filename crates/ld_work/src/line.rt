//! The line of a server that has ended.
ghost use Rattle.std.specs.Prelude.{◌≡◌, ◌++◌, IfOk, OnOk, decimal};
ghost use Rattle.ld_work.specs.Ends as ends;

use itoa::Buffer;
use ld_tree::NoMemory;
use std::alloc::Global;

/// The line of a server that has ended, with its line feed: how many sessions there were, how many entries the book has, and
/// the number of its current version.
pub fn told_line(
    alloc: Global,
    sessions: u64,
    events: u64,
    version: u64,
) -> Result<Vec<u8>, NoMemory>
    ensures { IfOk result (λ line. line.items ≡ ends.told_line sessions events version) }
{
    let mut line = Vec::new(alloc);
    print_counted(&mut line, b"sessions ", sessions)?;
    print_counted(&mut line, b" events ", events)?;
    print_counted(&mut line, b" version ", version)?;
    line.push(b'\n')?;
    Ok(line)
}

// A word, and a number behind it.
fn print_counted(line: &mut Vec<u8>, word: &[u8], number: u64) -> Result<(), NoMemory>
    ensures { OnOk result (line.new.items ≡ line.old.items ++ (word.now ++ decimal number)) }
{
    let mut buffer = Buffer::new();
    line.extend_from_slice(word)?;
    line.extend_from_slice(buffer.format(number).as_bytes())?;
    Ok(())
}
