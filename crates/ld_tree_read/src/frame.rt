use ld_tree::{Items, Text, Tree};

/// A list or a map that has been opened.
#[derive(Drop)]
pub enum Frame {
    /// The items so far.
    List(Items<Tree>),
    /// The members so far, and the name of the value that is read next.
    Map(Items<(Text, Tree)>, Text),
}
