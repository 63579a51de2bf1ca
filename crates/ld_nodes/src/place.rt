//! Where the walk stands, and what of a map it looks at.
use ld_tree::Text;

/// Where the value that an element gives belongs.
#[derive(Clone, Copy, Debug)]
pub(crate) enum Place<'a> {
    /// There is no active subject: the element stands right in a graph.
    Nowhere,
    /// The row of the active subject and the active property.
    Row(usize),
    /// The list in hand.
    Hand,
    /// The element is the map of the reverse properties of this subject.
    ReverseMap(&'a Text),
    /// The element has this subject under this reverse property.
    Reverse(&'a Text, &'a Text),
}

/// Which entries of a map are visited.
#[derive(Clone, Copy, Debug)]
pub(crate) enum Pass<'a> {
    /// `@list`, in a graph.
    List(usize),
    /// `@reverse`, in the graph of its node, with the node's identifier.
    Reverse(usize, &'a Text),
    /// Each entry of a map of reverse properties, in a graph, with the subject.
    ReverseProperties(usize, &'a Text),
    /// `@graph`, in the graph that it makes.
    Graph(usize),
    /// `@included`, in the graph of its node.
    Included(usize),
    /// The properties of a node, in a graph.
    Properties(usize, usize),
}
