use ld_tree::{Iri, Items, Text, Tree};

/// A list of texts.
pub type Names = Items<Text>;

/// A local context to be processed, with the inputs of the Context Processing Algorithm (JSON-LD 1.1 API,
/// 4.1.2), and how deep the invocation is within others: 1 where it is within none.
#[derive(Debug, Drop)]
pub struct Ask<K> {
    pub active: K,
    pub local: Tree,
    /// The base URL.
    pub base: Option<Iri>,
    /// The remote contexts that are being processed.
    pub remote: Names,
    /// Override protected.
    pub over: bool,
    pub propagate: bool,
    /// Validate scoped context.
    pub validate: bool,
    pub depth: u32,
}
