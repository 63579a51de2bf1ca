use ld_ctx::Names;
use ld_tree::Iri;

/// What context processing hands on to each term's definition (JSON-LD 1.1 API, 4.2.2, its inputs).
#[derive(Debug, Drop)]
pub struct Rest {
    /// The base URL.
    pub base: Option<Iri>,
    /// The local context's `@protected`.
    pub protected: bool,
    /// Override protected.
    pub over: bool,
    /// The remote contexts that are being processed.
    pub remote: Names,
    /// Validate scoped context.
    pub validate: bool,
    /// How deep the invocation of context processing is within others.
    pub depth: u32,
}
