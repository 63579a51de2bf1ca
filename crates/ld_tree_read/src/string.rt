ghost use Rattle.std.specs.Prelude.{◌≡◌, ℕ, ◌<◌, ◌≤◌, ◌++◌, OnOk, Bool, length, List, take, drop, IfOk, IfErr, string_bytes};
ghost use Rattle.std.specs.List.{prefix_len};
ghost use Rattle.ld_tree.specs.Reading.{IsString, is_unescaped as unescaped};
ghost use Rattle.ld_tree_read.specs.Cursor.{left, Leads, Stops};
ghost use Rattle.ld_tree_read.specs.State.{string, plain, string_end};
ghost use Rattle.ld_tree_read.specs.Steps.{Known};
ghost use Rattle.ld_tree_read.specs.Strings.{LeadsIn, StopsIn};

use crate::character::broken;
use crate::cursor::Cursor;
use crate::escape::read_escape;
use crate::number::no_text;
use crate::refusal::ReadRefusal;
use ld_tree::{Text, plain_len};
use std::alloc::Global;

/// Appends the bytes that stand for themselves, up to the first that doesn't.
fn read_run(text: &mut String, cursor: &mut Cursor<'_>) -> Result<(), ReadRefusal>
    ensures text { OnOk result (string_bytes text.new ≡ string_bytes text.old ++ take (prefix_len unescaped (left cursor.old)) (left cursor.old)) }
    ensures left { OnOk result (left cursor.new ≡ drop (prefix_len unescaped (left cursor.old)) (left cursor.old)) }
    ensures leads { IfOk result (λ _. LeadsIn cursor.old plain cursor.new plain) }
    ensures stops { IfErr result (λ e. Known e (StopsIn cursor.old plain e)) }
{
    let rest = cursor.rest();
    let count = plain_len(rest);
    match str::from_utf8(&rest[..count]) {
        Ok(run) => {
            text.push_str(run)?;
            cursor.advance(count);
            Ok(())
        }
        Err(_) => Err(broken(cursor)),
    }
}

/// The text of a string whose opening quotation mark has been passed (RFC 8259 section 7).
pub fn read_string(alloc: Global, cursor: &mut Cursor<'_>) -> Result<Text, ReadRefusal>
    ensures found { IfOk result (λ t. IsString (left cursor.old) t (left cursor.new)) }
    ensures leads { IfOk result (λ _. (is_name : Bool) → Leads cursor.old (string is_name plain) cursor.new (string_end is_name)) }
    ensures shorter { IfOk result (λ _. length (left cursor.new) < length (left cursor.old)) }
    ensures stops { IfErr result (λ e. Known e ((is_name : Bool) → Stops cursor.old (string is_name plain) e)) }
{
    let mut text = String::new(alloc);
    loop {
        read_run(&mut text, cursor)?;
        if cursor.eat(b'"') {
            return Ok(Text::from_string(text));
        }
        if !cursor.eat(b'\\') {
            return Err(no_text(cursor));
        }
        let c = read_escape(cursor)?;
        text.push(c)?;
    }
}
