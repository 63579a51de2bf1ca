ghost use Rattle.std.specs.Prelude.{◌≡◌, [], Some, IfOk, IfErr};
ghost use Rattle.ld_tree.specs.Reading.{past_mark};
ghost use Rattle.ld_tree_read.specs.Cursor.{left, ahead};
ghost use Rattle.ld_tree_read.specs.Refusals.{mark_refusal};
ghost use Rattle.ld_tree_read.specs.State.{start, value};

use crate::cursor::Cursor;
use crate::refusal::ReadRefusal;

/// The refusal within a byte order mark: UTF-8 may go on where no mark does.
fn no_mark(cursor: &Cursor<'_>) -> ReadRefusal
    ensures { result ≡ mark_refusal cursor.now.at (left cursor.now) }
{
    let at = cursor.at();
    match cursor.peek() {
        Some(byte) if byte >= 128 && byte <= 191 => ReadRefusal::Syntax { at },
        _ => ReadRefusal::NotUtf8 { at },
    }
}

/// Goes past a byte order mark, if one begins the text (RFC 8259 section 8.1).
pub fn skip_mark(cursor: &mut Cursor<'_>) -> Result<(), ReadRefusal>
    ensures passed { IfOk result (λ _. left cursor.new ≡ past_mark (left cursor.old)) }
    ensures leads { IfOk result (λ _. ahead cursor.old [] start ≡ ahead cursor.new [] value) }
    ensures stops { IfErr result (λ e. ahead cursor.old [] start ≡ Some e) }
{
    if !cursor.eat(0xEF) {
        return Ok(());
    }
    if !cursor.eat(0xBB) {
        return Err(no_mark(cursor));
    }
    if !cursor.eat(0xBF) {
        return Err(no_mark(cursor));
    }
    Ok(())
}
