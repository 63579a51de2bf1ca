ghost use Rattle.std.specs.Prelude.{◌≡◌, ◌<◌, ◌≤◌, ◌++◌, length, IfOk, IfErr};
ghost use Rattle.std.specs.List.{prefix_len};
ghost use Rattle.ld_tree.specs.Reading.{past_space, is_white as white};
ghost use Rattle.ld_tree_read.specs.Cursor.{left, Leads, Stops};
ghost use Rattle.ld_tree_read.specs.State.{Here, done};
ghost use Rattle.ld_tree_read.specs.Steps.{Spaced, NoWhite, word_here};

use crate::cursor::Cursor;
use crate::number::no_text;
use crate::refusal::ReadRefusal;

fn is_white(byte: u8) -> bool
    ensures { result ≡ white byte }
{
    byte == b' ' || byte == b'\t' || byte == b'\n' || byte == b'\r'
}

/// How much white space there is at the front.
fn white_len(bytes: &[u8]) -> usize
    ensures { result ≡ prefix_len white bytes.now }
{
    bytes.iter().take_while(|b| is_white(**b)).count()
}

/// Goes past the white space that is next (RFC 8259 section 2).
pub fn skip_space(cursor: &mut Cursor<'_>)
    ensures space { left cursor.new ≡ past_space (left cursor.old) }
    ensures leads { (here : Here) → Spaced here → Leads cursor.old here cursor.new here }
    ensures ends { NoWhite (left cursor.new) }
    ensures shorter { length (left cursor.new) ≤ length (left cursor.old) }
{
    let count = white_len(cursor.rest());
    cursor.advance(count);
}

/// Goes past the rest of a literal (RFC 8259 section 3).
pub fn skip_word(cursor: &mut Cursor<'_>, rest: &[u8]) -> Result<(), ReadRefusal>
    ensures passed { IfOk result (λ _. left cursor.old ≡ rest.now ++ left cursor.new) }
    ensures leads { IfOk result (λ _. Leads cursor.old (word_here rest.now) cursor.new done) }
    ensures shorter { IfOk result (λ _. length (left cursor.new) ≤ length (left cursor.old)) }
    ensures stops { IfErr result (λ e. Stops cursor.old (word_here rest.now) e) }
{
    for byte in rest {
        if !cursor.eat(*byte) {
            return Err(no_text(cursor));
        }
    }
    Ok(())
}
