ghost use Rattle.std.specs.Prelude.{◌≡◌, ◌<◌, option_copied};
ghost use Rattle.std.specs.List.{list_all};
ghost use Rattle.ld_iri.specs.Components.{parts, cut, is_scheme, is_scheme_byte, scheme_and_rest, authority_and_path};

/// The parts of a reference (RFC 3986, section 3), without the marks between them.
#[derive(Clone, Copy, Debug, PartialEq, Eq)]
pub struct Parts<'a> {
    pub scheme: Option<&'a str>,
    pub authority: Option<&'a str>,
    pub path: &'a str,
    pub query: Option<&'a str>,
    pub fragment: Option<&'a str>,
}

/// The parts of any text. What stands before the first `:` counts as a scheme only where it has the form
/// of one (section 3.1); else it belongs to the path. Takes no memory.
pub fn split(text: &str) -> Parts<'_>
    ensures scheme { option_copied result.scheme ≡ (parts text.now).scheme }
    ensures authority { option_copied result.authority ≡ (parts text.now).authority }
    ensures path { result.path.now ≡ (parts text.now).path }
    ensures query { option_copied result.query ≡ (parts text.now).query }
    ensures fragment { option_copied result.fragment ≡ (parts text.now).fragment }
{
    let (front, fragment) = cut(text, '#');
    let (front, query) = cut(front, '?');
    let (scheme, rest) = scheme_and_rest(front);
    let (authority, path) = authority_and_path(rest);
    Parts {
        scheme,
        authority,
        path,
        query,
        fragment,
    }
}

// The text before the first mark, and what stands behind that mark.
pub(crate) fn cut(text: &str, mark: char) -> (&str, Option<&str>)
    requires { mark < 128 }
    ensures front { result.0.now ≡ (cut mark text.now).0 }
    ensures rest { option_copied result.1 ≡ (cut mark text.now).1 }
{
    match text.split_once(mark) {
        Some((front, rest)) => (front, Some(rest)),
        None => (text, None),
    }
}

fn is_scheme_byte(byte: u8) -> bool
    ensures { result ≡ is_scheme_byte byte }
{
    byte.is_ascii_alphabetic()
        || byte.is_ascii_digit()
        || byte == b'+'
        || byte == b'-'
        || byte == b'.'
}

fn are_scheme_bytes(bytes: &[u8]) -> bool
    ensures { result ≡ list_all is_scheme_byte bytes.now }
{
    bytes.iter().all(|byte| is_scheme_byte(*byte))
}

fn is_scheme(name: &str) -> bool
    ensures { result ≡ is_scheme name.now }
{
    match name.as_bytes() {
        [first, rest @ ..] => first.is_ascii_alphabetic() && are_scheme_bytes(rest),
        [] => false,
    }
}

fn scheme_and_rest(text: &str) -> (Option<&str>, &str)
    ensures scheme { option_copied result.0 ≡ (scheme_and_rest text.now).0 }
    ensures rest { result.1.now ≡ (scheme_and_rest text.now).1 }
{
    match cut(text, ':') {
        (name, Some(rest)) if is_scheme(name) => (Some(name), rest),
        _ => (None, text),
    }
}

fn authority_and_path(text: &str) -> (Option<&str>, &str)
    ensures authority { option_copied result.0 ≡ (authority_and_path text.now).0 }
    ensures path { result.1.now ≡ (authority_and_path text.now).1 }
{
    match text.strip_prefix("//") {
        Some(rest) => {
            let (authority, _) = cut(rest, '/');
            let (authority, path) = rest.split_at(authority.len());
            (Some(authority), path)
        }
        None => (None, text),
    }
}
