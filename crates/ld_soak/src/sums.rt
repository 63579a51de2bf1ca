ghost use Rattle.std.specs.Prelude.{◌≡◌, ◌++◌, OnOk};
ghost use Rattle.ld_soak.specs.Soaks.{counted, told};

use itoa::Buffer;
use ld_tree::NoMemory;

/// What a soak came to.
#[derive(Debug, Drop)]
pub struct Sums {
    /// How many documents were answered.
    pub documents: u16,
    /// How many contexts were loaded.
    pub loads: u32,
    /// The lengths of all expanded documents, printed, in bytes. So many texts as there are documents, each within
    /// memory, have fewer than 2^80.
    pub expanded: u128,
    /// The same of the compacted documents.
    pub compacted: u128,
    /// The same of the flattened documents.
    pub flattened: u128,
    /// How many invocations of the Context Processing Algorithm (JSON-LD 1.1 API, 4.1.2) it took. At 2^64 - 1 it
    /// stands still.
    pub runs: u64,
}

impl Sums {
    /// Appends the line that tells of the numbers, without a line feed:
    /// `documents 7 loads 1 expanded 826 compacted 595 flattened 973 runs 57`.
    pub fn print(&self, out: &mut Vec<u8>) -> Result<(), NoMemory>
        ensures { OnOk result (out.new.items ≡ out.old.items ++ told self.now) }
    {
        print_counted(b"documents", u128::from(self.documents), out)?;
        print_counted(b" loads", u128::from(self.loads), out)?;
        print_counted(b" expanded", self.expanded, out)?;
        print_counted(b" compacted", self.compacted, out)?;
        print_counted(b" flattened", self.flattened, out)?;
        print_counted(b" runs", u128::from(self.runs), out)
    }
}

// A word, and a number behind it.
fn print_counted(word: &[u8], number: u128, out: &mut Vec<u8>) -> Result<(), NoMemory>
    ensures { OnOk result (out.new.items ≡ out.old.items ++ counted word.now number) }
{
    out.extend_from_slice(word)?;
    out.push(b' ')?;
    out.extend_from_slice(Buffer::new().format(number).as_bytes())?;
    Ok(())
}
