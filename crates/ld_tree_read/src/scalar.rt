ghost use Rattle.std.specs.Prelude.{◌≡◌, ℕ, ◌<◌, length, List, ◌∷◌, IfOk, IfErr};
ghost use Rattle.ld_tree.specs.Reading.{IsValue};
ghost use Rattle.ld_tree_read.specs.Cursor.{left, Leads, Stops};
ghost use Rattle.ld_tree_read.specs.State.{value, done};
ghost use Rattle.ld_tree_read.specs.Steps.{Known, NoWhite};

use crate::cursor::Cursor;
use crate::number::{begins_number, no_text, read_num};
use crate::refusal::ReadRefusal;
use crate::space::skip_word;
use crate::string::read_string;
use ld_tree::Tree;
use std::alloc::Global;

/// The value that is next and is no list and no map (RFC 8259 section 3).
pub fn read_scalar(alloc: Global, cursor: &mut Cursor<'_>) -> Result<Tree, ReadRefusal>
    requires space { NoWhite (left cursor.old) }
    requires no_list { (r : List ℕ) → left cursor.old ≡ 91 ∷ r → ⊥ }
    requires no_map { (r : List ℕ) → left cursor.old ≡ 123 ∷ r → ⊥ }
    ensures found { IfOk result (λ x. (d : ℕ) → IsValue d (left cursor.old) x (left cursor.new)) }
    ensures leads { IfOk result (λ _. Leads cursor.old value cursor.new done) }
    ensures shorter { IfOk result (λ _. length (left cursor.new) < length (left cursor.old)) }
    ensures stops { IfErr result (λ e. Known e (Stops cursor.old value e)) }
{
    if cursor.eat(b'"') {
        return Ok(Tree::Text(read_string(alloc, cursor)?));
    }
    if cursor.eat(b'n') {
        skip_word(cursor, b"ull")?;
        return Ok(Tree::Null);
    }
    if cursor.eat(b't') {
        skip_word(cursor, b"rue")?;
        return Ok(Tree::Bool(true));
    }
    if cursor.eat(b'f') {
        skip_word(cursor, b"alse")?;
        return Ok(Tree::Bool(false));
    }
    if !begins_number(cursor) {
        return Err(no_text(cursor));
    }
    Ok(Tree::Num(read_num(cursor)?))
}
