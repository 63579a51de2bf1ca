ghost use Rattle.std.specs.Prelude.{◌≡◌};
ghost use Rattle.std.specs.List.{list_all};
ghost use Rattle.std.specs.Char.{is_ascii_alphabetic};
ghost use Rattle.ld_codes.specs.Keywords.{is_keyword};
ghost use Rattle.ld_iri.specs.Words.{is_forbidden, allows, is_iri, is_blank, is_keyword_form};

use crate::parts::split;
use ld_codes::Keyword;

// U+0000 to U+001F, U+007F to U+009F, the space, and the marks that RFC 3986 leaves out of its grammar.
fn is_forbidden(character: char) -> bool
    ensures { result ≡ is_forbidden character }
{
    character.is_control()
        || matches!(
            character,
            ' ' | '<' | '>' | '"' | '{' | '}' | '|' | '\\' | '^' | '`'
        )
}

fn allows(text: &str) -> bool
    ensures { result ≡ allows text.now }
{
    text.chars().all(|character| !is_forbidden(character))
}

/// Whether the text is of IRI form: a scheme (RFC 3986, section 3.1), `:`, and any rest, which may be
/// empty, with no space, no control character (Unicode's class Cc) and none of
/// `<`, `>`, `"`, `{`, `}`, `|`, `\`, `^` and the backquote. Takes no memory.
pub fn is_iri(text: &str) -> bool
    ensures { result ≡ is_iri text.now }
{
    split(text).scheme.is_some() && allows(text)
}

/// Whether the text is a blank node identifier: it begins with `_:`. Takes no memory.
pub fn is_blank(text: &str) -> bool
    ensures { result ≡ is_blank text.now }
{
    text.starts_with("_:")
}

/// Whether the text is a keyword (JSON-LD 1.1, "Syntax Tokens and Keywords"). Takes no memory.
#[tactic(auto, using(ld_codes::proofs::Known::found_is_keyword))]
pub fn is_keyword(text: &str) -> bool
    ensures { result ≡ is_keyword text.now }
{
    Keyword::from_text(text).is_some()
}

fn are_letters(bytes: &[u8]) -> bool
    ensures { result ≡ list_all is_ascii_alphabetic bytes.now }
{
    bytes.iter().all(|byte| byte.is_ascii_alphabetic())
}

/// Whether the text has the form of a keyword: `@` and one or more ASCII letters. Takes no memory.
pub fn is_keyword_form(text: &str) -> bool
    ensures { result ≡ is_keyword_form text.now }
{
    match text.as_bytes() {
        [b'@', first, rest @ ..] => first.is_ascii_alphabetic() && are_letters(rest),
        _ => false,
    }
}
