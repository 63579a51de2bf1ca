ghost use Rattle.std.specs.Prelude.{◌≡◌, ℕ, ◌<◌, ◌≤◌, ◌++◌, ◌⊎◌, length, List, [], ◌∷◌, Some, None, Ok, Err, IfOk, IfErr};
ghost use Rattle.ld_tree.specs.Reading.{past_space, reads};
ghost use Rattle.ld_tree.specs.declared.tree.Tree.{Tree};
ghost use Rattle.ld_tree_read.specs.Cursor.{left, ahead, Leads, Stops};
ghost use Rattle.ld_tree_read.specs.Refusals.{first_refusal};
ghost use Rattle.ld_tree_read.specs.Stack.{Becomes, Means, IsName, levels, due_here};
ghost use Rattle.ld_tree_read.specs.State.{in_list, in_map, value, item_or_end, name_or_end, name as name_due, done as behind};
ghost use Rattle.ld_tree_read.specs.Steps.{Known, NoWhite};
ghost use Rattle.ld_tree_read.specs.declared.frame.Frame.TheVariants as f;

use crate::cursor::Cursor;
use crate::frame::Frame;
use crate::mark::skip_mark;
use crate::members::entries_of;
use crate::number::no_text;
use crate::refusal::ReadRefusal;
use crate::scalar::read_scalar;
use crate::space::skip_space;
use crate::string::read_string;
use ld_tree::{Entries, Items, Text, Tree};
use std::alloc::Global;

/// How many levels of lists and maps a tree may have.
const LEVELS: usize = 128;

/// The name that is next, with its colon and the white space after it.
fn read_name(alloc: Global, cursor: &mut Cursor<'_>) -> Result<Text, ReadRefusal>
    requires { NoWhite (left cursor.old) }
    ensures found { IfOk result (λ t. IsName (left cursor.old) t (left cursor.new)) }
    ensures leads { IfOk result (λ _. Leads cursor.old name_due cursor.new value) }
    ensures space { IfOk result (λ _. NoWhite (left cursor.new)) }
    ensures shorter { IfOk result (λ _. length (left cursor.new) < length (left cursor.old)) }
    ensures stops { IfErr result (λ e. Known e (Stops cursor.old name_due e)) }
{
    if !cursor.eat(b'"') {
        return Err(no_text(cursor));
    }
    let name = read_string(alloc, cursor)?;
    skip_space(cursor);
    if !cursor.eat(b':') {
        return Err(no_text(cursor));
    }
    skip_space(cursor);
    Ok(name)
}

/// Goes on behind an opening bracket. As in the other steps, an answer of `None` says that a value
/// is due next, and no white space stands before it.
fn open_list(
    alloc: Global,
    stack: &mut Vec<Frame>,
    cursor: &mut Cursor<'_>,
) -> Result<Option<Tree>, ReadRefusal>
    requires { length stack.old.items < 128 }
    ensures found { IfOk result (λ x. Becomes stack.old.items None (91 ∷ left cursor.old) stack.new.items x (left cursor.new)) }
    ensures leads { IfOk result (λ x. ahead cursor.old (in_list ∷ levels stack.old.items) item_or_end ≡ ahead cursor.new (levels stack.new.items) (due_here x)) }
    ensures space { IfOk result (λ x. x ≡ None → NoWhite (left cursor.new)) }
    ensures shorter { IfOk result (λ _. length (left cursor.new) ≤ length (left cursor.old)) }
    ensures room { IfOk result (λ _. length stack.new.items ≤ 128) }
    ensures stops { IfErr result (λ e. Known e (ahead cursor.old (in_list ∷ levels stack.old.items) item_or_end ≡ Some e)) }
{
    skip_space(cursor);
    if cursor.eat(b']') {
        return Ok(Some(Tree::List(Items::new(alloc))));
    }
    stack.push(Frame::List(Items::new(alloc)))?;
    Ok(None)
}

/// Goes on behind an opening brace.
fn open_map(
    alloc: Global,
    stack: &mut Vec<Frame>,
    cursor: &mut Cursor<'_>,
) -> Result<Option<Tree>, ReadRefusal>
    requires { length stack.old.items < 128 }
    ensures found { IfOk result (λ x. Becomes stack.old.items None (123 ∷ left cursor.old) stack.new.items x (left cursor.new)) }
    ensures leads { IfOk result (λ x. ahead cursor.old (in_map ∷ levels stack.old.items) name_or_end ≡ ahead cursor.new (levels stack.new.items) (due_here x)) }
    ensures space { IfOk result (λ x. x ≡ None → NoWhite (left cursor.new)) }
    ensures shorter { IfOk result (λ _. length (left cursor.new) ≤ length (left cursor.old)) }
    ensures room { IfOk result (λ _. length stack.new.items ≤ 128) }
    ensures stops { IfErr result (λ e. Known e (ahead cursor.old (in_map ∷ levels stack.old.items) name_or_end ≡ Some e)) }
{
    skip_space(cursor);
    if cursor.eat(b'}') {
        return Ok(Some(Tree::Map(Entries::new(alloc))));
    }
    let name = read_name(alloc, cursor)?;
    stack.push(Frame::Map(Items::new(alloc), name))?;
    Ok(None)
}

/// Reads a value that is due, or opens it if it is a list or a map.
fn begin(
    alloc: Global,
    stack: &mut Vec<Frame>,
    cursor: &mut Cursor<'_>,
) -> Result<Option<Tree>, ReadRefusal>
    requires room { length stack.old.items ≤ 128 }
    requires space { NoWhite (left cursor.old) }
    ensures found { IfOk result (λ x. Becomes stack.old.items None (left cursor.old) stack.new.items x (left cursor.new)) }
    ensures leads { IfOk result (λ x. ahead cursor.old (levels stack.old.items) value ≡ ahead cursor.new (levels stack.new.items) (due_here x)) }
    ensures space { IfOk result (λ x. x ≡ None → NoWhite (left cursor.new)) }
    ensures shorter { IfOk result (λ _. length (left cursor.new) < length (left cursor.old)) }
    ensures room { IfOk result (λ _. length stack.new.items ≤ 128) }
    ensures stops { IfErr result (λ e. Known e (ahead cursor.old (levels stack.old.items) value ≡ Some e)) }
{
    let at = cursor.at();
    if cursor.eat(b'[') {
        if stack.len() >= LEVELS {
            return Err(ReadRefusal::TooDeep { at });
        }
        return open_list(alloc, stack, cursor);
    }
    if cursor.eat(b'{') {
        if stack.len() >= LEVELS {
            return Err(ReadRefusal::TooDeep { at });
        }
        return open_map(alloc, stack, cursor);
    }
    let tree = read_scalar(alloc, cursor)?;
    Ok(Some(tree))
}

/// Goes on behind an item of a list.
fn after_item(
    stack: &mut Vec<Frame>,
    mut done: Items<Tree>,
    item: Tree,
    cursor: &mut Cursor<'_>,
) -> Result<Option<Tree>, ReadRefusal>
    requires { length stack.old.items < 128 }
    ensures found { IfOk result (λ x. Becomes (stack.old.items ++ f.List done ∷ []) (Some item) (left cursor.old) stack.new.items x (left cursor.new)) }
    ensures leads { IfOk result (λ x. ahead cursor.old (in_list ∷ levels stack.old.items) behind ≡ ahead cursor.new (levels stack.new.items) (due_here x)) }
    ensures space { IfOk result (λ x. x ≡ None → NoWhite (left cursor.new)) }
    ensures shorter { IfOk result (λ _. length (left cursor.new) < length (left cursor.old)) }
    ensures room { IfOk result (λ _. length stack.new.items ≤ 128) }
    ensures stops { IfErr result (λ e. Known e (ahead cursor.old (in_list ∷ levels stack.old.items) behind ≡ Some e)) }
{
    if let Err((_, e)) = done.push(item) {
        return Err(ReadRefusal::from(e));
    }
    skip_space(cursor);
    if cursor.eat(b',') {
        skip_space(cursor);
        stack.push(Frame::List(done))?;
        return Ok(None);
    }
    if !cursor.eat(b']') {
        return Err(no_text(cursor));
    }
    Ok(Some(Tree::List(done)))
}

/// Goes on behind a member of a map.
fn after_member(
    alloc: Global,
    stack: &mut Vec<Frame>,
    mut done: Items<(Text, Tree)>,
    name: Text,
    value: Tree,
    cursor: &mut Cursor<'_>,
) -> Result<Option<Tree>, ReadRefusal>
    requires { length stack.old.items < 128 }
    ensures found { IfOk result (λ x. Becomes (stack.old.items ++ f.Map done name ∷ []) (Some value) (left cursor.old) stack.new.items x (left cursor.new)) }
    ensures leads { IfOk result (λ x. ahead cursor.old (in_map ∷ levels stack.old.items) behind ≡ ahead cursor.new (levels stack.new.items) (due_here x)) }
    ensures space { IfOk result (λ x. x ≡ None → NoWhite (left cursor.new)) }
    ensures shorter { IfOk result (λ _. length (left cursor.new) < length (left cursor.old)) }
    ensures room { IfOk result (λ _. length stack.new.items ≤ 128) }
    ensures stops { IfErr result (λ e. Known e (ahead cursor.old (in_map ∷ levels stack.old.items) behind ≡ Some e)) }
{
    if let Err((_, e)) = done.push((name, value)) {
        return Err(ReadRefusal::from(e));
    }
    skip_space(cursor);
    if cursor.eat(b',') {
        skip_space(cursor);
        let next = read_name(alloc, cursor)?;
        stack.push(Frame::Map(done, next))?;
        return Ok(None);
    }
    if !cursor.eat(b'}') {
        return Err(no_text(cursor));
    }
    let entries = entries_of(alloc, done.into_vec())?;
    Ok(Some(Tree::Map(entries)))
}

/// Ends behind the outermost value: only white space may be left.
fn finish(tree: Tree, end: &mut Cursor<'_>) -> Result<Tree, ReadRefusal>
    ensures found { IfOk result (λ t. (t ≡ tree) × (past_space (left end.old) ≡ [])) }
    ensures ends { IfOk result (λ _. ahead end.old [] behind ≡ None) }
    ensures stops { IfErr result (λ e. ahead end.old [] behind ≡ Some e) }
{
    skip_space(end);
    match end.peek() {
        None => Ok(tree),
        Some(_) => Err(no_text(end)),
    }
}

/// The tree that the rest of the input spells, before which no white space stands.
fn read_rest(alloc: Global, cursor: &mut Cursor<'_>) -> Result<Tree, ReadRefusal>
    requires { NoWhite (left cursor.old) }
    ensures found { IfOk result (λ t. Means [] None (left cursor.old) t) }
    ensures ends { IfOk result (λ _. ahead cursor.old [] value ≡ None) }
    ensures stops { IfErr result (λ e. Known e (ahead cursor.old [] value ≡ Some e)) }
{
    let mut stack = Vec::new(alloc);
    let mut read = None;
    loop {
        read = match read {
            None => begin(alloc, &mut stack, cursor)?,
            Some(value) => match stack.pop() {
                Some(Frame::List(done)) => after_item(&mut stack, done, value, cursor)?,
                Some(Frame::Map(done, name)) => after_member(
                    alloc, &mut stack, done, name, value, cursor,
                )?,
                None => return finish(value, cursor),
            },
        };
    }
}

/// The tree that the bytes spell as a JSON text (RFC 8259), after a byte order mark if there is one.
///
/// A name that a map repeats keeps its last value. Else the refusal with the least place is given, in one
/// pass: `Syntax` and `NotUtf8` at the first byte with which no JSON text and no UTF-8 goes on (at the end,
/// where the bytes end too early), `Fraction` and `TooLarge` at the first byte of a number that isn't read,
/// `TooDeep` at the bracket or brace of a list or a map that lies in 128 others. Half a surrogate pair in
/// escapes is `Syntax`. Where no UTF-8 goes on, no JSON text does either, and it is `NotUtf8`.
pub fn read_tree(alloc: Global, bytes: &[u8]) -> Result<Tree, ReadRefusal>
    ensures found { IfOk result (λ t. reads bytes.now t) }
    ensures unrefused { IfOk result (λ _. first_refusal bytes.now ≡ None) }
    ensures refused { IfErr result (λ e. Known e (first_refusal bytes.now ≡ Some e)) }
    ensures unread { IfErr result (λ e. Known e ((t : Tree) → reads bytes.now t → ⊥)) }
    ensures complete { (t : Tree) → reads bytes.now t → (result ≡ Ok t) ⊎ (result ≡ Err ReadRefusal.NoMemory) }
{
    let mut cursor = Cursor::new(bytes);
    skip_mark(&mut cursor)?;
    skip_space(&mut cursor);
    read_rest(alloc, &mut cursor)
}
