//! The length of a body, as the fields tell it.
ghost use Rattle.std.specs.Prelude.{◌≡◌, ◌<◌, ◌≤◌, map, MatchOption, codes, IsTrue};
ghost use Rattle.std.specs.List.{list_all};
ghost use Rattle.std.specs.Char.{is_ascii_digit};
ghost use Rattle.std.specs.Str.Parse.{digits_value};
ghost use Rattle.httparse.specs.Borrowed.{header_parts};
ghost use Rattle.http1.specs.Fields.{values_named};
ghost use Rattle.ld_head.specs.Heads.{is_digits, is_length, body_length};

use crate::field::next_value;
use httparse::Header;

const LONGEST_BODY: u32 = 4_194_304;

/// Whether the value is decimal digits.
fn is_digits(value: &[u8]) -> bool
    ensures { result ≡ is_digits value.now }
{
    let mut left = value;
    while let [byte, rest @ ..] = left {
        left = rest;
        if !byte.is_ascii_digit() {
            return false;
        }
    }
    !value.is_empty()
}

/// Whether there is no `Content-Length`, or one of decimal digits.
pub(crate) fn has_good_length(fields: &[Header<'_>]) -> bool
    ensures { result ≡ is_length (values_named (codes "content-length") (map header_parts fields.now)) }
{
    match next_value(fields, b"content-length") {
        None => true,
        Some((value, rest)) => next_value(rest, b"content-length").is_none() && is_digits(value),
    }
}

/// The number that the digits write, unless a body may not be that long. There may be any number of digits.
fn read_length(digits: &[u8]) -> Option<u32>
    requires { IsTrue (list_all is_ascii_digit digits.now) }
    ensures { MatchOption result (4194304 < digits_value 10 digits.now) (λ n. (n ≡ digits_value 10 digits.now) × (n ≤ 4194304)) }
{
    let mut left = digits;
    let mut length: u32 = 0;
    while let [digit, rest @ ..] = left {
        left = rest;
        length = length * 10 + u32::from(*digit - b'0');
        if length > LONGEST_BODY {
            return None;
        }
    }
    Some(length)
}

/// The length that the fields tell, unless a body may not be that long. It is 0 where none is told.
pub(crate) fn told_length(fields: &[Header<'_>]) -> Option<u32>
    requires { IsTrue (is_length (values_named (codes "content-length") (map header_parts fields.now))) }
    ensures { let told = body_length (values_named (codes "content-length") (map header_parts fields.now)) in
        MatchOption result (4194304 < told) (λ n. (n ≡ told) × (n ≤ 4194304)) }
{
    match next_value(fields, b"content-length") {
        None => Some(0),
        Some((value, _)) => read_length(value),
    }
}
