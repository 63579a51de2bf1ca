ghost use Rattle.std.specs.Prelude.{◌≡◌, ℕ, ◌+◌, ◌-◌, ◌*◌, ◌^◌, ◌<◌, ◌≤◌, List, [], ◌∷◌, ◌++◌, length, min, SomeIff, IfSome, IfNone, Some, Ok, Err, if◌then◌else◌};
ghost use Rattle.ld_tree_read.specs.Digits.{Stands, IsHeld, AreDigits, IsScaled, IsSmall, token};
ghost use Rattle.ld_tree.specs.Numbers.{value_of as value_is, num_of as num, whole_num as whole, exact, Decimal};
ghost use Rattle.ld_tree.specs.declared.tree.Num.TheVariants.{Whole, OneOne};
ghost use Rattle.ld_tree.specs.declared.number.NumFault.TheVariants.{Fraction, TooLarge};

use ld_tree::{Num, NumFault};

/// The parts of a number (RFC 8259 section 6).
#[derive(Clone, Copy)]
pub struct Number<'a> {
    pub negative: bool,
    pub whole: &'a [u8],
    pub fraction: &'a [u8],
    /// Whether its exponent has a minus.
    pub lowers: bool,
    pub exponent: &'a [u8],
}

/// A number with so many zeros put behind it, if 64 bits hold it.
fn shifted(value: u64, zeros: u64) -> Option<u64>
    ensures { SomeIff result (value * 10 ^ zeros < 2 ^ 64) (value * 10 ^ zeros) }
{
    let mut shifted = value;
    for _ in 0..zeros {
        shifted = shifted.checked_mul(10)?;
    }
    Some(shifted)
}

/// What digits stand for: the number that is left when the zeros behind it are put off, if 64 bits
/// hold it, and how many these are.
#[derive(Clone, Copy)]
struct Digits {
    significant: Option<u64>,
    zeros: u64,
}

/// The digits with one more behind them.
fn with_digit(digits: Digits, digit: u8) -> Digits
    requires digit { digit < 10 }
    requires room { digits.zeros + 1 < 2 ^ 64 }
    ensures stands { (ds : List ℕ) → Stands digits.significant digits.zeros ds → Stands result.significant result.zeros (ds ++ (digit + 48) ∷ []) }
    ensures few { result.zeros ≤ digits.zeros + 1 }
{
    if digit == 0 {
        return match digits.significant {
            Some(0) => digits,
            _ => Digits {
                significant: digits.significant,
                zeros: digits.zeros + 1,
            },
        };
    }
    let significant = match digits.significant {
        Some(value) => next_significant(value, digits.zeros + 1, digit),
        None => None,
    };
    Digits {
        significant,
        zeros: 0,
    }
}

fn next_significant(value: u64, zeros: u64, digit: u8) -> Option<u64>
    ensures { IsHeld result (value * 10 ^ zeros + digit) }
{
    shifted(value, zeros)?.checked_add(digit as u64)
}

/// The digits with these behind them.
fn with_digits(digits: Digits, more: &[u8]) -> Digits
    requires each { AreDigits more.now }
    requires room { digits.zeros + length more.now < 2 ^ 64 }
    ensures stands { (ds : List ℕ) → Stands digits.significant digits.zeros ds → Stands result.significant result.zeros (ds ++ more.now) }
    ensures few { result.zeros ≤ digits.zeros + length more.now }
{
    let mut all = digits;
    for byte in more {
        all = with_digit(all, *byte - b'0');
    }
    all
}

/// What an exponent's digits stand for, as far as 64 bits go.
fn exponent_of(digits: &[u8]) -> u64
    requires { AreDigits digits.now }
    ensures { result ≡ min (value_is digits.now) (2 ^ 64 - 1) }
{
    let mut value: u64 = 0;
    for byte in digits {
        value = value
            .saturating_mul(10)
            .saturating_add((*byte - b'0') as u64);
    }
    value
}

/// A whole number, if an `i64` holds it.
fn whole_num(negative: bool, size: u64) -> Result<Num, NumFault>
    ensures { result ≡ whole negative size }
{
    if !negative {
        if size < 1 << 63 {
            return Ok(Num::Whole(size as i64));
        }
        return Err(NumFault::TooLarge);
    }
    if size < 1 << 63 {
        return Ok(Num::Whole(-(size as i64)));
    }
    if size == 1 << 63 {
        return Ok(Num::Whole(i64::MIN));
    }
    Err(NumFault::TooLarge)
}

/// The whole number of these significant digits with so many zeros behind them; 20 zeros stand for any
/// more.
fn with_zeros(negative: bool, significant: Option<u64>, zeros: u64) -> Result<Num, NumFault>
    ensures { (top exact : ℕ) → IsHeld significant top → (top ≡ 0 → ⊥) → min exact 20 ≡ min zeros 20 → result ≡ whole negative (top * 10 ^ exact) }
{
    if zeros >= 20 {
        return Err(NumFault::TooLarge);
    }
    let Some(value) = significant else {
        return Err(NumFault::TooLarge);
    };
    match shifted(value, zeros) {
        Some(size) => whole_num(negative, size),
        None => Err(NumFault::TooLarge),
    }
}

/// What digits stand for with so many zeros behind them, and so many places.
fn scaled(
    negative: bool,
    significant: Option<u64>,
    zeros: u64,
    places: u64,
) -> Result<Num, NumFault>
    ensures { (x : Decimal) → x.negative ≡ negative → IsScaled x significant zeros places → result ≡ num x }
{
    if significant == Some(0) {
        return whole_num(negative, 0);
    }
    if zeros >= places {
        return with_zeros(negative, significant, zeros - places);
    }
    if !negative && significant == Some(11) && places - zeros == 1 {
        return Ok(Num::OneOne);
    }
    Err(NumFault::Fraction)
}

/// How many powers of ten an exponent goes up, and how many down.
fn powers(lowers: bool, exponent: u64) -> (u64, u64)
    ensures up { result.0 ≡ (if lowers then 0 else exponent) }
    ensures down { result.1 ≡ (if lowers then exponent else 0) }
{
    if lowers { (0, exponent) } else { (exponent, 0) }
}

/// What the digits stand for, if 64 bits hold it.
fn value_of(digits: &[u8]) -> Option<u64>
    requires { AreDigits digits.now }
    ensures found { IfSome result (λ v. v ≡ value_is digits.now) }
    ensures none { IfNone result (2 ^ 64 ≤ value_is digits.now) }
{
    let mut value: u64 = 0;
    for byte in digits {
        value = value.checked_mul(10)?.checked_add((*byte - b'0') as u64)?;
    }
    Some(value)
}

/// A number without fraction and exponent.
fn plain_num(negative: bool, digits: &[u8]) -> Result<Num, NumFault>
    requires { AreDigits digits.now }
    ensures { result ≡ whole negative (value_is digits.now) }
{
    match value_of(digits) {
        Some(size) => whole_num(negative, size),
        None => Err(NumFault::TooLarge),
    }
}

/// What a number with a fraction or an exponent is read as, or why it isn't.
fn scaled_num(number: &Number<'_>) -> Result<Num, NumFault>
    requires { IsSmall number.now }
    ensures { result ≡ num (exact (token number.now)) }
{
    let none = Digits {
        significant: Some(0),
        zeros: 0,
    };
    let digits = with_digits(with_digits(none, number.whole), number.fraction);
    let exponent = exponent_of(number.exponent);
    let (up, down) = powers(number.lowers, exponent);
    let zeros = digits.zeros.saturating_add(up);
    let places = down.saturating_add(number.fraction.len() as u64);
    scaled(number.negative, digits.significant, zeros, places)
}

/// What a number is read as, or why it isn't: its digits are gone over once, whatever their count.
pub fn num_of(number: &Number<'_>) -> Result<Num, NumFault>
    requires { IsSmall number.now }
    ensures { result ≡ num (exact (token number.now)) }
{
    if number.fraction.is_empty() && number.exponent.is_empty() {
        plain_num(number.negative, number.whole)
    } else {
        scaled_num(number)
    }
}
