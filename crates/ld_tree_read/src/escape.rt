ghost use Rattle.std.specs.Prelude.{◌≡◌, ℕ, ◌+◌, ◌*◌, ◌^◌, ◌<◌, ◌≤◌, List, ◌∷◌, length, Some, IfOk, IfErr, IfSome, IfNone};
ghost use Rattle.std.specs.Char.{encode_utf8, IsScalar};
ghost use Rattle.ld_tree.specs.Reading.{hex, escaped, of_pair, IsChar};
ghost use Rattle.ld_tree_read.specs.Cursor.{left};
ghost use Rattle.ld_tree_read.specs.State.{Inside, plain, slash, first, digits, high as high_half, low_slash, is_letter};
ghost use Rattle.ld_tree_read.specs.Strings.{LeadsIn, StopsIn, IsHex, NoHex, Follows, NoByte, TakesHex};
ghost use Rattle.ld_tree_read.specs.Tokens.{IsTwo, IsUnit};

use crate::cursor::Cursor;
use crate::number::no_text;
use crate::refusal::ReadRefusal;

/// What a hexadecimal digit stands for.
fn hex_digit(byte: u8) -> Option<u8>
    ensures { result ≡ hex byte }
{
    match byte {
        b'0'..=b'9' => Some(byte - b'0'),
        b'A'..=b'F' => Some(byte - b'A' + 10),
        b'a'..=b'f' => Some(byte - b'a' + 10),
        _ => None,
    }
}

/// The hexadecimal digit that is next, if it is from `low` to `high`.
fn next_hex(cursor: &Cursor<'_>, low: u8, high: u8) -> Option<u8>
    ensures some { IfSome result (λ v. IsHex (left cursor.now) v low high) }
    ensures none { IfNone result (NoHex (left cursor.now) low high) }
{
    let value = hex_digit(cursor.peek()?)?;
    if value < low || value > high {
        return None;
    }
    Some(value)
}

/// Goes past a hexadecimal digit from `low` to `high`.
fn eat_hex(cursor: &mut Cursor<'_>, low: u8, high: u8) -> Result<u8, ReadRefusal>
    ensures leads { IfOk result (λ v. Follows cursor.old cursor.new (λ b. (hex b ≡ Some v) × (low ≤ v) × (v ≤ high))) }
    ensures stops { IfErr result (λ e. (i : Inside) → TakesHex i low high → StopsIn cursor.old i e) }
{
    let Some(value) = next_hex(cursor, low, high) else {
        return Err(no_text(cursor));
    };
    cursor.advance(1);
    Ok(value)
}

/// The last two digits of four.
fn two_digits(cursor: &mut Cursor<'_>) -> Result<u32, ReadRefusal>
    ensures found { IfOk result (λ v. IsTwo (left cursor.old) v (left cursor.new)) }
    ensures low { IfOk result (λ v. v < 256) }
    ensures leads { IfOk result (λ _. LeadsIn cursor.old (digits 1) cursor.new plain) }
    ensures half { IfOk result (λ _. LeadsIn cursor.old (high_half 1) cursor.new low_slash) }
    ensures shorter { IfOk result (λ _. length (left cursor.new) ≤ length (left cursor.old)) }
    ensures stops { IfErr result (λ e. StopsIn cursor.old (digits 1) e) }
    ensures half_stops { IfErr result (λ e. StopsIn cursor.old (high_half 1) e) }
{
    let third = eat_hex(cursor, 0, 15)?;
    let fourth = eat_hex(cursor, 0, 15)?;
    Ok(16 * third as u32 + fourth as u32)
}

/// The second half of a pair of surrogates, with its backslash and `u`.
fn read_low_half(cursor: &mut Cursor<'_>) -> Result<u32, ReadRefusal>
    ensures found { IfOk result (λ v. (bytes : List ℕ) × (left cursor.old ≡ 92 ∷ 117 ∷ bytes) × IsUnit bytes v (left cursor.new)) }
    ensures from { IfOk result (λ v. 56320 ≤ v) }
    ensures below { IfOk result (λ v. v < 57344) }
    ensures leads { IfOk result (λ _. LeadsIn cursor.old low_slash cursor.new plain) }
    ensures shorter { IfOk result (λ _. length (left cursor.new) ≤ length (left cursor.old)) }
    ensures stops { IfErr result (λ e. StopsIn cursor.old low_slash e) }
{
    if !cursor.eat(b'\\') {
        return Err(no_text(cursor));
    }
    if !cursor.eat(b'u') {
        return Err(no_text(cursor));
    }
    let first = eat_hex(cursor, 13, 13)?;
    let second = eat_hex(cursor, 12, 15)?;
    let rest = two_digits(cursor)?;
    Ok(4096 * first as u32 + 256 * second as u32 + rest)
}

/// The character of this number.
fn character(number: u32) -> char
    requires { IsScalar number }
    ensures { result ≡ number }
{
    match char::from_u32(number) {
        Some(c) => c,
        None => '\0',
    }
}

/// The character that four digits behind `\u` stand for, with those of a pair's second half where they
/// are its first (RFC 8259 section 7).
fn read_unit(cursor: &mut Cursor<'_>) -> Result<char, ReadRefusal>
    ensures found { IfOk result (λ c. IsChar (92 ∷ 117 ∷ left cursor.old) (encode_utf8 c) (left cursor.new)) }
    ensures leads { IfOk result (λ _. LeadsIn cursor.old first cursor.new plain) }
    ensures shorter { IfOk result (λ _. length (left cursor.new) ≤ length (left cursor.old)) }
    ensures stops { IfErr result (λ e. StopsIn cursor.old first e) }
{
    let one = eat_hex(cursor, 0, 15)?;
    if one != 13 {
        let two = eat_hex(cursor, 0, 15)?;
        let rest = two_digits(cursor)?;
        return Ok(character(4096 * one as u32 + 256 * two as u32 + rest));
    }
    let two = eat_hex(cursor, 0, 11)?;
    if two < 8 {
        let rest = two_digits(cursor)?;
        return Ok(character(4096 * one as u32 + 256 * two as u32 + rest));
    }
    let rest = two_digits(cursor)?;
    let high = 4096 * one as u32 + 256 * two as u32 + rest;
    let low = read_low_half(cursor)?;
    Ok(character(0x1_0000 + 1024 * (high - 0xD800) + (low - 0xDC00)))
}

/// What one letter after a backslash stands for.
fn escape(letter: u8) -> Option<u8>
    ensures { result ≡ escaped letter }
{
    match letter {
        b'"' => Some(b'"'),
        b'\\' => Some(b'\\'),
        b'/' => Some(b'/'),
        b'b' => Some(8),
        b'f' => Some(12),
        b'n' => Some(10),
        b'r' => Some(13),
        b't' => Some(9),
        _ => None,
    }
}

/// What the letter that is next stands for, if it is one that may follow a backslash by itself.
fn next_letter(cursor: &Cursor<'_>) -> Option<u8>
    ensures some { IfSome result (λ v. (b : ℕ) × (r : List ℕ) × (left cursor.now ≡ b ∷ r) × (escaped b ≡ Some v)) }
    ensures none { IfNone result (NoByte (left cursor.now) is_letter) }
{
    escape(cursor.peek()?)
}

/// The character that a backslash begins, which has been passed (RFC 8259 section 7).
pub fn read_escape(cursor: &mut Cursor<'_>) -> Result<char, ReadRefusal>
    ensures found { IfOk result (λ c. IsChar (92 ∷ left cursor.old) (encode_utf8 c) (left cursor.new)) }
    ensures leads { IfOk result (λ _. LeadsIn cursor.old slash cursor.new plain) }
    ensures shorter { IfOk result (λ _. length (left cursor.new) ≤ length (left cursor.old)) }
    ensures stops { IfErr result (λ e. StopsIn cursor.old slash e) }
{
    if cursor.eat(b'u') {
        return read_unit(cursor);
    }
    let Some(value) = next_letter(cursor) else {
        return Err(no_text(cursor));
    };
    cursor.advance(1);
    Ok(value as char)
}
