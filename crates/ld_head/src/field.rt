//! The values of the fields of one name.
ghost use Rattle.std.specs.Prelude.{◌≡◌, ◌∷◌, ◌+◌, ◌<◌, List, [], map, length, IsTrue, MatchOption, codes};
ghost use Rattle.std.specs.List.{list_all};
ghost use Rattle.httparse.specs.Borrowed.{header_parts};
ghost use Rattle.http1.specs.Fields.{values_named, elements_named, has_option, known_fields};
ghost use Rattle.http1.specs.Text.{eq_ignore_case};
ghost use Rattle.ld_head.specs.Heads.{is_none_said, expects_well};

use http1::fields::KnownFields;
use http1::text::eq_ignore_case;
use httparse::Header;

/// The value of the first field of this name, and the fields after it.
pub(crate) fn next_value<'f, 'b>(
    fields: &'f [Header<'b>],
    name: &[u8],
) -> Option<(&'b [u8], &'f [Header<'b>])>
    ensures values { MatchOption result
        (values_named name.now (map header_parts fields.now) ≡ [])
        (λ r. values_named name.now (map header_parts fields.now) ≡ r.0.now ∷ values_named name.now (map header_parts r.1.now)) }
    ensures shorter { MatchOption result (length fields.now ≡ length fields.now) (λ r. length r.1.now < length fields.now) }
{
    let mut left = fields;
    while let [field, rest @ ..] = left {
        left = rest;
        if eq_ignore_case(field.name.as_bytes(), name) {
            return Some((field.value, left));
        }
    }
    None
}

/// Whether there is no field of this name.
pub(crate) fn is_absent(fields: &[Header<'_>], name: &[u8]) -> bool
    ensures { result ≡ is_none_said (values_named name.now (map header_parts fields.now)) }
{
    next_value(fields, name).is_none()
}

/// Whether the field may stand in a head of HTTP/1.1: an `Expect` asks for the interim text.
fn expects_well(field: &Header<'_>) -> bool
    ensures { result ≡ expects_well (header_parts field.now) }
{
    !eq_ignore_case(field.name.as_bytes(), b"expect")
        || eq_ignore_case(field.value, b"100-continue")
}

/// Whether each `Expect` asks for the interim text.
pub(crate) fn all_expect_well(fields: &[Header<'_>]) -> bool
    ensures { result ≡ list_all expects_well (map header_parts fields.now) }
{
    let mut left = fields;
    while let [field, rest @ ..] = left {
        left = rest;
        if !expects_well(field) {
            return false;
        }
    }
    true
}

/// Whether a `Connection` lists `close`.
pub(crate) fn lists_close(fields: &[Header<'_>]) -> bool
    ensures { result ≡ has_option (codes "close") (elements_named (codes "connection") (map header_parts fields.now)) }
{
    let mut known = KnownFields::new();
    for field in fields {
        known.add(field.name.as_bytes(), field.value);
    }
    known.close
}
