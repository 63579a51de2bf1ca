use ld_tree::{Raw, Tree};

/// What is kept of a document's text.
#[derive(Debug, Drop)]
pub enum Stored {
    /// A JSON text (RFC 8259), and the tree that it reads as.
    Read(Raw, Tree),
    /// A text that is no JSON text of this profile.
    Unreadable(Raw),
    /// A text of more than 1,048,576 bytes, which isn't kept.
    Oversize,
}
