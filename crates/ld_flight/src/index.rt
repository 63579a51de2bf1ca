//! The index of a folder of contexts.
ghost use Rattle.std.specs.Prelude.{◌≡◌, ◌<◌, IsTrue, MatchOption};
ghost use Rattle.std.specs.List.{list_all};
ghost use Rattle.ld_flight.specs.Index.{is_file_byte as may_stand, is_file_name as is_name, IsLineOf, IsNamed, IsUnnamed, NamesNone};

/// The name of the file that the index gives to the IRI: that of the first line of its form. A line is the IRI, one space, and
/// the name of a file in the folder: visible ASCII without a slash, and neither `.` nor `..`. Lines end in a line feed.
pub(crate) fn file_of<'a>(index: &'a str, iri: &str) -> Option<&'a str>
    ensures { MatchOption result (IsUnnamed index.now iri.now) (λ name. IsNamed index.now iri.now name.now) }
{
    for line in index.split('\n') {
        if let Some(name) = file_in(line, iri) {
            return Some(name);
        }
    }
    None
}

fn file_in<'a>(line: &'a str, iri: &str) -> Option<&'a str>
    ensures { MatchOption result (NamesNone iri.now line.now) (λ name. IsLineOf iri.now name.now line.now) }
{
    let name = line.strip_prefix(iri)?.strip_prefix(" ")?;
    if is_file_name(name) { Some(name) } else { None }
}

fn is_file_name(name: &str) -> bool
    ensures { result ≡ is_name name.now }
{
    if name.is_empty() || name == "." || name == ".." {
        return false;
    }
    all_may_stand(name)
}

fn all_may_stand(name: &str) -> bool
    ensures { result ≡ list_all may_stand name.now }
{
    name.as_bytes().iter().all(|byte| is_file_byte(*byte))
}

fn is_file_byte(byte: u8) -> bool
    ensures { result ≡ may_stand byte }
{
    32 < byte && byte < 127 && byte != b'/'
}
