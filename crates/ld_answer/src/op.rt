/// What is asked for a document.
#[derive(Clone, Copy, Debug, PartialEq, Eq)]
pub enum Op {
    /// Its expanded form (JSON-LD 1.1 API, 9.1, `expand`).
    Expand,
    /// Its form compacted with a context (9.1, `compact`).
    Compact,
    /// Its flattened form (9.1, `flatten`).
    Flatten,
}
