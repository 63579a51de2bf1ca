ghost use Rattle.std.specs.Prelude.{◌≡◌, ◌&&◌, not, option_copied};
ghost use Rattle.std.specs.Str.{bytes_eq};
ghost use Rattle.ld_rec.specs.Words.{text_of, is_iri_or_blank, is_keyword};
ghost use Rattle.ld_iri.specs.Words.{is_iri, is_blank, is_keyword_form};
ghost use Rattle.ld_rec.specs.Iris.{has_inner_colon};
ghost use Rattle.ld_rec.specs.Terms as terms;
ghost use Rattle.ld_rec.specs.Terms.{is_type_mapping, ends_in_gen_delim, is_gen_delim, is_prefix_of, without_last, is_compound};

use ld_tree::{Text, Tree};

/// The text that a value is.
pub fn text_of(tree: &Tree) -> Option<&Text>
    ensures { option_copied result ≡ text_of tree.now }
{
    match tree {
        Tree::Text(text) => Some(text),
        _ => None,
    }
}

pub fn is_same(text: &Text, other: &str) -> bool
    ensures { result ≡ bytes_eq text.now other.now }
{
    text.as_str() == other
}

pub fn are_same(text: &Text, other: &Text) -> bool
    ensures { result ≡ bytes_eq text.now other.now }
{
    text.as_str() == other.as_str()
}

pub fn is_keyword(text: &Text) -> bool
    ensures { result ≡ is_keyword text.now }
{
    ld_iri::is_keyword(text.as_str())
}

pub fn is_keyword_form(text: &Text) -> bool
    ensures { result ≡ is_keyword_form text.now }
{
    ld_iri::is_keyword_form(text.as_str())
}

pub fn is_iri(text: &Text) -> bool
    ensures { result ≡ is_iri text.now }
{
    ld_iri::is_iri(text.as_str())
}

/// Whether the text is an IRI or a blank node identifier.
pub fn is_iri_or_blank(text: &Text) -> bool
    ensures { result ≡ is_iri_or_blank text.now }
{
    let text = text.as_str();
    ld_iri::is_iri(text) || ld_iri::is_blank(text)
}

/// Step 12.4: whether the text may be a type mapping.
pub fn is_type_mapping(iri: &Text) -> bool
    ensures { result ≡ is_type_mapping iri.now }
{
    is_same(iri, "@id")
        || is_same(iri, "@json")
        || is_same(iri, "@none")
        || is_same(iri, "@vocab")
        || is_iri(iri)
}

pub fn has_slash(text: &Text) -> bool
    ensures { result ≡ terms.has_slash text.now }
{
    crate::ending::has_slash(text.as_str())
}

pub fn has_colon_or_slash(text: &Text) -> bool
    ensures { result ≡ terms.has_colon_or_slash text.now }
{
    crate::ending::has_colon_or_slash(text.as_str())
}

// RFC 3986, section 2.2.
fn is_gen_delim(byte: u8) -> bool
    ensures { result ≡ is_gen_delim byte }
{
    byte == b':'
        || byte == b'/'
        || byte == b'?'
        || byte == b'#'
        || byte == b'['
        || byte == b']'
        || byte == b'@'
}

fn ends_in_gen_delim(iri: &Text) -> bool
    ensures { result ≡ ends_in_gen_delim iri.now }
{
    match iri.as_str().as_bytes().last() {
        Some(last) => is_gen_delim(*last),
        None => false,
    }
}

fn is_blank(text: &Text) -> bool
    ensures { result ≡ is_blank text.now }
{
    ld_iri::is_blank(text.as_str())
}

/// Step 14.2.5: whether the term gets the prefix flag by its mapping.
pub fn is_prefix_of(simple: bool, term: &Text, iri: &Text) -> bool
    ensures { result ≡ is_prefix_of simple term.now iri.now }
{
    simple && !has_colon_or_slash(term) && (ends_in_gen_delim(iri) || is_blank(iri))
}

fn has_inner(bytes: &[u8]) -> bool
    ensures { result ≡ has_inner_colon bytes.now }
{
    bytes.iter().skip(1).any(|byte| *byte == b':')
}

fn without_last(bytes: &[u8]) -> &[u8]
    ensures { result.now ≡ without_last bytes.now }
{
    if bytes.is_empty() {
        bytes
    } else {
        &bytes[..bytes.len() - 1]
    }
}

fn has_colon_within(text: &Text) -> bool
    ensures { result ≡ has_inner_colon (without_last text.now) }
{
    has_inner(without_last(text.as_str().as_bytes()))
}

/// Step 14.2.2: whether the text has the form of a keyword and is none.
pub fn is_only_form(value: &Text) -> bool
    ensures { result ≡ (is_keyword_form value.now && not (is_keyword value.now)) }
{
    is_keyword_form(value) && !is_keyword(value)
}

/// Step 14.2.4: whether the term has a colon that is neither its first nor its last character, or a slash.
pub fn is_compound(term: &Text) -> bool
    ensures { result ≡ is_compound term.now }
{
    has_colon_within(term) || has_slash(term)
}
