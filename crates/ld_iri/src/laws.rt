//! What holds of all texts, as functions that do nothing: the contract of each is a law.
ghost use Rattle.std.specs.Prelude.{◌≡◌, ◌↔◌, IsTrue};
ghost use Rattle.ld_iri.specs.Components.{parts, recomposed};
ghost use Rattle.ld_iri.specs.Words.{allows, is_iri};
ghost use Rattle.ld_iri.specs.Resolution.{remove_dot_segments, resolved};
ghost use Rattle.ld_iri.specs.Relative.{relative};

/// Splitting loses nothing: the parts, joined again (RFC 3986, section 5.3), are the text.
pub fn split_loses_nothing(text: &str)
    ensures { recomposed (parts text.now) ≡ text.now }
{}

/// What a reference with none but allowed characters means under an IRI is an IRI.
pub fn resolved_is_iri(base: &str, reference: &str)
    requires base { IsTrue (is_iri base.now) }
    requires reference { IsTrue (allows reference.now) }
    ensures { IsTrue (is_iri (resolved base.now reference.now)) }
{}

/// A relative reference leads back to its IRI, but where it is the IRI itself and the IRI's path has dot
/// segments, which resolution takes out: `http://z/a/../b` under `http://h/`.
pub fn relative_leads_back(base: &str, iri: &str)
    requires { IsTrue (is_iri iri.now) }
    ensures { (resolved base.now (relative base.now iri.now) ≡ iri.now) ↔ (relative base.now iri.now ≡ iri.now → remove_dot_segments (parts iri.now).path ≡ (parts iri.now).path) }
{}
