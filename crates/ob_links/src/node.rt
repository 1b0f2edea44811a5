//! Nodes of lists.

/// A node of a list.
#[derive(Clone, Copy)]
pub struct NodeId(pub u32);

// What is kept of a node.
#[derive(Clone, Copy)]
pub struct Node {
    /// The list in which it is.
    pub list: u32,
    /// The item of the node.
    pub item: u64,
    /// The node before it in the list, if there is one.
    pub previous: Option<NodeId>,
    /// The node after it in the list, if there is one.
    pub next: Option<NodeId>,
}

// The ends of a list.
#[derive(Clone, Copy)]
pub struct Ends {
    /// The first node, if there is one.
    pub first: Option<NodeId>,
    /// The last node, if there is one.
    pub last: Option<NodeId>,
}
