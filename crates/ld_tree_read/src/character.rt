ghost use Rattle.std.specs.Prelude.{◌≡◌, ℕ, ◌<◌, ◌≤◌, ◌∷◌, List, length, take, IfOk, IfErr, IsTrue, Some, true, false};
ghost use Rattle.std.specs.List.{prefix_len};
ghost use Rattle.std.specs.Option.{option_map};
ghost use Rattle.std.specs.Str.{IsUtf8};
ghost use Rattle.ld_tree.specs.Reading.{is_unescaped as unescaped};
ghost use Rattle.ld_tree_read.specs.Cursor.{left};
ghost use Rattle.ld_tree_read.specs.Grammar.{IsRest};
ghost use Rattle.ld_tree_read.specs.State.{plain, begun, tail, lead as leading, is_next, rest_left};
ghost use Rattle.ld_tree_read.specs.Strings.{LeadsIn, StopsIn, NoByte, IsTail, PassesChar};

use crate::cursor::Cursor;
use crate::number::no_text;
use crate::refusal::ReadRefusal;

/// The bytes that may follow the first byte of a character (RFC 3629 section 4): the least and the
/// greatest next one, and how many follow that.
fn lead(byte: u8) -> Option<(u8, u8, u8)>
    ensures { option_map (λ t. tail t.0 t.1 t.2) result ≡ leading byte }
{
    match byte {
        0..=193 => None,
        194..=223 => Some((128, 191, 0)),
        224 => Some((160, 191, 1)),
        237 => Some((128, 159, 1)),
        225..=239 => Some((128, 191, 1)),
        240 => Some((144, 191, 2)),
        241..=243 => Some((128, 191, 2)),
        244 => Some((128, 143, 2)),
        _ => None,
    }
}

fn is_within(cursor: &Cursor<'_>, low: u8, high: u8) -> bool
    ensures yes { IsTrue result → (b : ℕ) × (r : List ℕ) × (left cursor.now ≡ b ∷ r) × (is_next (tail low high 0) b ≡ true) }
    ensures none { result ≡ false → NoByte (left cursor.now) (λ b. is_next (tail low high 0) b) }
{
    match cursor.peek() {
        Some(byte) => byte >= low && byte <= high,
        None => false,
    }
}

/// Goes past the next byte of a character, from `low` to `high`.
fn eat_tail(cursor: &mut Cursor<'_>, low: u8, high: u8) -> Result<(), ReadRefusal>
    ensures passed { IfOk result (λ _. (b : ℕ) × (left cursor.old ≡ b ∷ left cursor.new) × (is_next (tail low high 0) b ≡ true)) }
    ensures leads { IfOk result (λ _. (more : ℕ) → LeadsIn cursor.old (begun (tail low high more)) cursor.new (rest_left more)) }
    ensures shorter { IfOk result (λ _. length (left cursor.new) < length (left cursor.old)) }
    ensures stops { IfErr result (λ e. (more : ℕ) → StopsIn cursor.old (begun (tail low high more)) e) }
{
    let at = cursor.at();
    if !is_within(cursor, low, high) {
        return Err(ReadRefusal::NotUtf8 { at });
    }
    cursor.advance(1);
    Ok(())
}

/// Goes past the rest of a character whose first byte has been passed.
fn skip_tail(cursor: &mut Cursor<'_>, low: u8, high: u8, more: u8) -> Result<(), ReadRefusal>
    ensures passed { IfOk result (λ _. IsTail low high more (left cursor.old) (left cursor.new)) }
    ensures leads { IfOk result (λ _. LeadsIn cursor.old (begun (tail low high more)) cursor.new plain) }
    ensures shorter { IfOk result (λ _. length (left cursor.new) ≤ length (left cursor.old)) }
    ensures stops { IfErr result (λ e. StopsIn cursor.old (begun (tail low high more)) e) }
{
    eat_tail(cursor, low, high)?;
    let mut due = more;
    while due > 0 {
        eat_tail(cursor, 128, 191)?;
        due -= 1;
    }
    Ok(())
}

/// Goes past a character that stands for itself (RFC 8259 section 7, in UTF-8).
fn skip_char(cursor: &mut Cursor<'_>) -> Result<(), ReadRefusal>
    requires no_quote { (r : List ℕ) → left cursor.old ≡ 34 ∷ r → ⊥ }
    requires no_slash { (r : List ℕ) → left cursor.old ≡ 92 ∷ r → ⊥ }
    ensures passed { IfOk result (λ _. PassesChar (left cursor.old) (left cursor.new)) }
    ensures leads { IfOk result (λ _. LeadsIn cursor.old plain cursor.new plain) }
    ensures shorter { IfOk result (λ _. length (left cursor.new) < length (left cursor.old)) }
    ensures stops { IfErr result (λ e. StopsIn cursor.old plain e) }
{
    let Some(byte) = cursor.peek() else {
        return Err(no_text(cursor));
    };
    if byte < 32 {
        return Err(no_text(cursor));
    }
    if byte < 128 {
        cursor.advance(1);
        return Ok(());
    }
    let Some((low, high, more)) = lead(byte) else {
        return Err(no_text(cursor));
    };
    cursor.advance(1);
    skip_tail(cursor, low, high, more)
}

/// The refusal in a run of bytes that stand for themselves and aren't UTF-8.
pub fn broken(cursor: &mut Cursor<'_>) -> ReadRefusal
    requires { IsUtf8 (take (prefix_len unescaped (left cursor.old)) (left cursor.old)) → ⊥ }
    ensures { StopsIn cursor.old plain result }
{
    loop {
        if let Err(e) = skip_char(cursor) {
            return e;
        }
    }
}
