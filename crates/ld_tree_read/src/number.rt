ghost use Rattle.std.specs.Prelude.{◌≡◌, ◌+◌, ◌<◌, ◌≤◌, [], length, IfOk, IfErr, Ok, Some, None, true, false, Bool, IsTrue};
ghost use Rattle.std.specs.List.{prefix_len};
ghost use Rattle.ld_tree.specs.Reading.{IsNumber};
ghost use Rattle.ld_tree_read.specs.Cursor.{left, Leads, Stops};
ghost use Rattle.ld_tree_read.specs.Digits.{AreDigits, IsSmall, token};
ghost use Rattle.ld_tree.specs.Numbers.{is_digit as digit, num_of as num, exact, Token};
ghost use Rattle.ld_tree.specs.Numbers.{digits_at, int_at, frac_at, exp_at, power_at, ends_number as ends, unsigned_at, number_at};
ghost use Rattle.ld_tree_read.specs.Refusals.{plain_refusal, is_char_byte};
ghost use Rattle.ld_tree_read.specs.State.{Here, value, minus, zero_digit, fraction as in_fraction, exponent as in_exponent, power, done};
ghost use Rattle.ld_tree_read.specs.Steps.{Digits, NoDigit, BeginsNumber, NoNumber, fault_at};

use crate::cursor::Cursor;
use crate::decimal::{Number, num_of};
use crate::refusal::ReadRefusal;
use ld_tree::{Num, NumFault};

/// Whether some character of UTF-8 begins with this byte (RFC 3629 section 4).
fn begins_char(byte: u8) -> bool
    ensures { result ≡ is_char_byte None byte }
{
    byte < 128 || byte >= 194 && byte <= 244
}

/// The refusal between two characters, where no text goes on.
pub fn no_text(cursor: &Cursor<'_>) -> ReadRefusal
    ensures { result ≡ plain_refusal cursor.now.at (left cursor.now) }
{
    let at = cursor.at();
    match cursor.peek() {
        Some(byte) if !begins_char(byte) => ReadRefusal::NotUtf8 { at },
        _ => ReadRefusal::Syntax { at },
    }
}

fn is_digit(byte: u8) -> bool
    ensures { result ≡ digit byte }
{
    byte >= b'0' && byte <= b'9'
}

/// How many digits there are at the front.
fn digits_len(bytes: &[u8]) -> usize
    ensures { result ≡ prefix_len digit bytes.now }
{
    bytes.iter().take_while(|b| is_digit(**b)).count()
}

/// The digits that are next: one at least.
fn read_digits<'a>(cursor: &mut Cursor<'a>) -> Result<&'a [u8], ReadRefusal>
    ensures found { IfOk result (λ ds. digits_at (left cursor.old) ≡ Some (ds.now, left cursor.new)) }
    ensures each { IfOk result (λ ds. AreDigits ds.now) }
    ensures count { IfOk result (λ ds. cursor.new.at ≡ cursor.old.at + length ds.now) }
    ensures ends { IfOk result (λ _. NoDigit (left cursor.new)) }
    ensures leads { IfOk result (λ _. (here there : Here) → Digits (left cursor.old) here there → Leads cursor.old here cursor.new there) }
    ensures shorter { IfOk result (λ _. length (left cursor.new) < length (left cursor.old)) }
    ensures none { IfErr result (λ _. digits_at (left cursor.old) ≡ None) }
    ensures stops { IfErr result (λ e. (here there : Here) → Digits (left cursor.old) here there → Stops cursor.old here e) }
{
    let rest = cursor.rest();
    let count = digits_len(rest);
    if count == 0 {
        return Err(no_text(cursor));
    }
    cursor.advance(count);
    Ok(&rest[..count])
}

/// int (RFC 8259 section 6).
fn read_int<'a>(cursor: &mut Cursor<'a>) -> Result<&'a [u8], ReadRefusal>
    ensures found { IfOk result (λ ds. int_at (left cursor.old) ≡ Some (ds.now, left cursor.new)) }
    ensures each { IfOk result (λ ds. AreDigits ds.now) }
    ensures count { IfOk result (λ ds. cursor.new.at ≡ cursor.old.at + length ds.now) }
    ensures ends { IfOk result (λ _. NoDigit (left cursor.new)) }
    ensures leads { IfOk result (λ _. Leads cursor.old minus cursor.new zero_digit) }
    ensures shorter { IfOk result (λ _. length (left cursor.new) < length (left cursor.old)) }
    ensures none { IfErr result (λ _. (negative : Bool) → unsigned_at negative (left cursor.old) ≡ None) }
    ensures stops { IfErr result (λ e. Stops cursor.old minus e) }
{
    let rest = cursor.rest();
    if !cursor.eat(b'0') {
        return read_digits(cursor);
    }
    match cursor.peek() {
        Some(byte) if is_digit(byte) => Err(no_text(cursor)),
        _ => Ok(&rest[..1]),
    }
}

/// The digits of frac (RFC 8259 section 6); none, where there is no frac.
fn read_frac<'a>(cursor: &mut Cursor<'a>) -> Result<&'a [u8], ReadRefusal>
    requires { NoDigit (left cursor.old) }
    ensures found { IfOk result (λ ds. frac_at (left cursor.old) ≡ Some (ds.now, left cursor.new)) }
    ensures each { IfOk result (λ ds. AreDigits ds.now) }
    ensures count { IfOk result (λ ds. cursor.old.at + length ds.now ≤ cursor.new.at) }
    ensures ends { IfOk result (λ _. NoDigit (left cursor.new)) }
    ensures leads { IfOk result (λ _. Leads cursor.old zero_digit cursor.new in_fraction) }
    ensures shorter { IfOk result (λ _. length (left cursor.new) ≤ length (left cursor.old)) }
    ensures none { IfErr result (λ _. frac_at (left cursor.old) ≡ None) }
    ensures stops { IfErr result (λ e. Stops cursor.old zero_digit e) }
{
    if !cursor.eat(b'.') {
        return Ok(&[]);
    }
    read_digits(cursor)
}

/// The minus of an exponent and its digits, behind its letter.
fn read_power<'a>(cursor: &mut Cursor<'a>) -> Result<(bool, &'a [u8]), ReadRefusal>
    ensures found { IfOk result (λ e. power_at (left cursor.old) ≡ Some ((e.0, e.1.now), left cursor.new)) }
    ensures each { IfOk result (λ e. AreDigits e.1.now) }
    ensures count { IfOk result (λ _. cursor.old.at ≤ cursor.new.at) }
    ensures ends { IfOk result (λ _. NoDigit (left cursor.new)) }
    ensures leads { IfOk result (λ _. Leads cursor.old in_exponent cursor.new power) }
    ensures shorter { IfOk result (λ _. length (left cursor.new) < length (left cursor.old)) }
    ensures none { IfErr result (λ _. power_at (left cursor.old) ≡ None) }
    ensures stops { IfErr result (λ e. Stops cursor.old in_exponent e) }
{
    if cursor.eat(b'-') {
        return Ok((true, read_digits(cursor)?));
    }
    if cursor.eat(b'+') {
        return Ok((false, read_digits(cursor)?));
    }
    Ok((false, read_digits(cursor)?))
}

/// The minus of exp and its digits (RFC 8259 section 6); neither, where there is no exp.
fn read_exp<'a>(cursor: &mut Cursor<'a>) -> Result<(bool, &'a [u8]), ReadRefusal>
    requires { NoDigit (left cursor.old) }
    ensures found { IfOk result (λ e. exp_at (left cursor.old) ≡ Some ((e.0, e.1.now), left cursor.new)) }
    ensures each { IfOk result (λ e. AreDigits e.1.now) }
    ensures count { IfOk result (λ _. cursor.old.at ≤ cursor.new.at) }
    ensures leads { IfOk result (λ _. Leads cursor.old in_fraction cursor.new done) }
    ensures shorter { IfOk result (λ _. length (left cursor.new) ≤ length (left cursor.old)) }
    ensures none { IfErr result (λ _. exp_at (left cursor.old) ≡ None) }
    ensures stops { IfErr result (λ e. Stops cursor.old in_fraction e) }
{
    if cursor.eat(b'e') {
        return read_power(cursor);
    }
    if cursor.eat(b'E') {
        return read_power(cursor);
    }
    Ok((false, &[]))
}

/// Whether a number may end here.
fn ends_number(cursor: &Cursor<'_>) -> bool
    ensures { result ≡ ends (left cursor.now) }
{
    match cursor.peek() {
        Some(byte) => !(is_digit(byte)
            || byte == b'.'
            || byte == b'e'
            || byte == b'E'
            || byte == b'+'
            || byte == b'-'),
        None => true,
    }
}

/// A number behind its minus, if it has one (RFC 8259 section 6).
fn read_unsigned<'a>(cursor: &mut Cursor<'a>, negative: bool) -> Result<Number<'a>, ReadRefusal>
    ensures found { IfOk result (λ n. unsigned_at negative (left cursor.old) ≡ Some (token n, left cursor.new)) }
    ensures small { IfOk result (λ n. IsSmall n) }
    ensures leads { IfOk result (λ _. Leads cursor.old minus cursor.new done) }
    ensures shorter { IfOk result (λ _. length (left cursor.new) < length (left cursor.old)) }
    ensures none { IfErr result (λ _. unsigned_at negative (left cursor.old) ≡ None) }
    ensures stops { IfErr result (λ e. Stops cursor.old minus e) }
{
    let whole = read_int(cursor)?;
    let fraction = read_frac(cursor)?;
    let (lowers, exponent) = read_exp(cursor)?;
    if !ends_number(cursor) {
        return Err(no_text(cursor));
    }
    Ok(Number {
        negative,
        whole,
        fraction,
        lowers,
        exponent,
    })
}

/// The number that is next (RFC 8259 section 6), where a value is due.
fn read_number<'a>(cursor: &mut Cursor<'a>) -> Result<Number<'a>, ReadRefusal>
    requires { BeginsNumber (left cursor.old) }
    ensures found { IfOk result (λ n. number_at (left cursor.old) ≡ Some (token n, left cursor.new)) }
    ensures small { IfOk result (λ n. IsSmall n) }
    ensures leads { IfOk result (λ _. fault_at cursor.old ≡ None → Leads cursor.old value cursor.new done) }
    ensures shorter { IfOk result (λ _. length (left cursor.new) < length (left cursor.old)) }
    ensures none { IfErr result (λ _. number_at (left cursor.old) ≡ None) }
    ensures stops { IfErr result (λ e. fault_at cursor.old ≡ None → Stops cursor.old value e) }
{
    if cursor.eat(b'-') {
        return read_unsigned(cursor, true);
    }
    read_unsigned(cursor, false)
}

/// What the number that is next reads as (RFC 8259 section 6).
pub fn read_num(cursor: &mut Cursor<'_>) -> Result<Num, ReadRefusal>
    requires { BeginsNumber (left cursor.old) }
    ensures found { IfOk result (λ v. IsNumber (left cursor.old) v (left cursor.new)) }
    ensures leads { IfOk result (λ _. Leads cursor.old value cursor.new done) }
    ensures shorter { IfOk result (λ _. length (left cursor.new) < length (left cursor.old)) }
    ensures stops { IfErr result (λ e. Stops cursor.old value e) }
{
    let at = cursor.at();
    let number = read_number(cursor)?;
    match num_of(&number) {
        Ok(num) => Ok(num),
        Err(NumFault::Fraction) => Err(ReadRefusal::Fraction { at }),
        Err(NumFault::TooLarge) => Err(ReadRefusal::TooLarge { at }),
    }
}

/// Whether a number may begin here.
pub fn begins_number(cursor: &Cursor<'_>) -> bool
    ensures yes { IsTrue result → BeginsNumber (left cursor.now) }
    ensures none { result ≡ false → NoNumber (left cursor.now) }
{
    match cursor.peek() {
        Some(byte) => is_digit(byte) || byte == b'-',
        None => false,
    }
}
