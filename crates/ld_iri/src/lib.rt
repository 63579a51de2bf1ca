//! IRIs: their parts, the resolution of references and relative references (RFC 3986, section 5), and the
//! words that JSON-LD tells apart by their form.
//!
//! Call `split` for the parts of a reference, `resolve` for what it means under a base, `relative` for the
//! reference that stands for an IRI under a base, and `is_iri`, `is_blank`, `is_keyword` and `is_keyword_form`
//! for the form of a word. `laws` has what holds of all texts. Of `specs/`, Components and Resolution are RFC
//! 3986's, Words is JSON-LD's but for IRI form, and Relative is the project's own rule; these are to be
//! believed. View and Outputs are the code's own.
#![tactic(auto)]

mod dots;
pub mod laws;
mod parts;
mod resolution;
mod shortening;
mod words;

pub use parts::{Parts, split};
pub use resolution::resolve;
pub use shortening::relative;
pub use words::{is_blank, is_iri, is_keyword, is_keyword_form};
