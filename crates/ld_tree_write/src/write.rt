ghost use Rattle.std.specs.Prelude.{◌≡◌, ◌++◌, [], OnOk, OnErr};
ghost use Rattle.ld_tree.specs.CompactText.{text, quoted};

use crate::print::{print_text, print_tree};
use ld_tree::{NoMemory, Tree};

/// Appends the compact text of the tree: JSON (RFC 8259) with no white space, the names of a map in the
/// order of code points. Where memory is wanting, nothing is appended.
pub fn write_tree(tree: &Tree, out: &mut Vec<u8>) -> Result<(), NoMemory>
    ensures appended { OnOk result (out.new.items ≡ out.old.items ++ text tree.now) }
    ensures unchanged { OnErr result (out.new.items ≡ out.old.items) }
{
    if out.is_empty() {
        return begin_with_tree(tree, out);
    }
    let mut printed = Vec::new(*out.allocator());
    print_tree(tree, &mut printed)?;
    out.append(&mut printed)?;
    Ok(())
}

// An output that was empty is emptied again where memory is wanting.
fn begin_with_tree(tree: &Tree, out: &mut Vec<u8>) -> Result<(), NoMemory>
    requires { out.old.items ≡ [] }
    ensures appended { OnOk result (out.new.items ≡ out.old.items ++ text tree.now) }
    ensures unchanged { OnErr result (out.new.items ≡ out.old.items) }
{
    match print_tree(tree, out) {
        Ok(()) => Ok(()),
        Err(e) => {
            out.clear();
            Err(e)
        }
    }
}

/// Appends the text as a JSON string (RFC 8259 section 7). Where memory is wanting, nothing is appended.
pub fn write_text(text: &str, out: &mut Vec<u8>) -> Result<(), NoMemory>
    ensures appended { OnOk result (out.new.items ≡ out.old.items ++ quoted text.now) }
    ensures unchanged { OnErr result (out.new.items ≡ out.old.items) }
{
    let mut printed = Vec::new(*out.allocator());
    print_text(text, &mut printed)?;
    out.append(&mut printed)?;
    Ok(())
}
