//! Lists in a vector of nodes, each of which has those beside it in its list.
ghost use Rattle.std.specs.Prelude.{◌≡◌, ◌<◌, ◌^◌, suc, length, map, false, [], IfSome, IsTrue, slice_set, slice_index_or, OnOk, OnErr};
ghost use Rattle.ob_links.specs.Lists.{joined, has_node, with_pair, without_node};
ghost use Rattle.ob_links.specs.Chains.{AreChains, chains_of, linked_of, previous_of, with_next, with_previous, with_first, with_last, with_pair_in};

use crate::node::{Ends, Node, NodeId};
use ob_base::Memory;

// Another node follows this one, or is the first of the list.
fn set_after(nodes: &mut [Node], ends: &mut Ends, place: Option<NodeId>, next: Option<NodeId>)
    requires { IfSome place (λ n. n.0 < length nodes.old) }
    ensures nodes { nodes.new ≡ with_next place next nodes.old }
    ensures ends { ends.new ≡ with_first place next ends.old }
{
    match place {
        Some(node) => nodes[node.0 as usize].next = next,
        None => ends.first = next,
    }
}

// Another node stands before this one, or is the last of the list.
fn set_before(nodes: &mut [Node], ends: &mut Ends, place: Option<NodeId>, previous: Option<NodeId>)
    requires { IfSome place (λ n. n.0 < length nodes.old) }
    ensures nodes { nodes.new ≡ with_previous place previous nodes.old }
    ensures ends { ends.new ≡ with_last place previous ends.old }
{
    match place {
        Some(node) => nodes[node.0 as usize].previous = previous,
        None => ends.last = previous,
    }
}

// A node is taken out of its list.
fn unlink(nodes: &mut [Node], ends: &mut [Ends], node: NodeId)
    requires chains { AreChains nodes.old ends.old (chains_of nodes.old ends.old) }
    requires node { IsTrue (has_node node (joined (chains_of nodes.old ends.old))) }
    ensures { AreChains nodes.new ends.new (map (without_node node) (chains_of nodes.old ends.old)) }
{
    let Node {
        list,
        item: _,
        previous,
        next,
    } = nodes[node.0 as usize];
    let mut around = ends[list as usize];
    set_after(nodes, &mut around, previous, next);
    set_before(nodes, &mut around, next, previous);
    ends[list as usize] = around;
}

// The node before another one, or the last of the list with these ends.
fn place_before(nodes: &[Node], ends: Ends, before: Option<NodeId>) -> Option<NodeId>
    requires { IfSome before (λ n. n.0 < length nodes.now) }
    ensures { result ≡ previous_of nodes.now ends before }
{
    match before {
        Some(node) => nodes[node.0 as usize].previous,
        None => ends.last,
    }
}

// A node that is in no list is put into one with an item, before another node or at the end.
fn link(
    nodes: &mut [Node],
    ends: &mut [Ends],
    list: u32,
    before: Option<NodeId>,
    node: NodeId,
    item: u64,
)
    requires chains { AreChains nodes.old ends.old (chains_of nodes.old ends.old) }
    requires list { list < length ends.old }
    requires before { IfSome before (λ n. IsTrue (has_node n (slice_index_or (chains_of nodes.old ends.old) list []))) }
    requires node { node.0 < length nodes.old }
    requires alone { has_node node (joined (chains_of nodes.old ends.old)) ≡ false }
    ensures { AreChains nodes.new ends.new (with_pair_in list before (node, item) (chains_of nodes.old ends.old)) }
{
    let mut around = ends[list as usize];
    let previous = place_before(nodes, around, before);
    nodes[node.0 as usize] = Node {
        list,
        item,
        previous,
        next: before,
    };
    set_after(nodes, &mut around, previous, Some(node));
    set_before(nodes, &mut around, before, Some(node));
    ends[list as usize] = around;
}

// A node goes out of its list into another one with another item, before another node or at the end.
fn move_within(
    nodes: &mut [Node],
    ends: &mut [Ends],
    node: NodeId,
    list: u32,
    before: Option<NodeId>,
    item: u64,
)
    requires chains { AreChains nodes.old ends.old (chains_of nodes.old ends.old) }
    requires all { length (joined (chains_of nodes.old ends.old)) ≡ length nodes.old }
    requires node { IsTrue (has_node node (joined (chains_of nodes.old ends.old))) }
    requires list { list < length ends.old }
    requires before { IfSome before (λ n. IsTrue (has_node n (slice_index_or (map (without_node node) (chains_of nodes.old ends.old)) list []))) }
    ensures chains { AreChains nodes.new ends.new (chains_of nodes.new ends.new) }
    ensures all { length (joined (chains_of nodes.new ends.new)) ≡ length nodes.new }
    ensures lists { chains_of nodes.new ends.new ≡ with_pair_in list before (node, item) (map (without_node node) (chains_of nodes.old ends.old)) }
{
    unlink(nodes, ends, node);
    link(nodes, ends, list, before, node, item);
}

/// A node goes out of its list into another one with another item, before another node or at the end.
pub fn move_node(
    nodes: &mut Vec<Node>,
    ends: &mut Vec<Ends>,
    node: NodeId,
    list: u32,
    before: Option<NodeId>,
    item: u64,
)
    requires chains { AreChains nodes.old.items ends.old.items (chains_of nodes.old.items ends.old.items) }
    requires all { length (joined (chains_of nodes.old.items ends.old.items)) ≡ length nodes.old.items }
    requires node { IsTrue (has_node node (joined (chains_of nodes.old.items ends.old.items))) }
    requires list { list < length ends.old.items }
    requires before { IfSome before (λ n. IsTrue (has_node n (slice_index_or (map (without_node node) (chains_of nodes.old.items ends.old.items)) list []))) }
    ensures chains { AreChains nodes.new.items ends.new.items (chains_of nodes.new.items ends.new.items) }
    ensures all { length (joined (chains_of nodes.new.items ends.new.items)) ≡ length nodes.new.items }
    ensures lists { chains_of nodes.new.items ends.new.items ≡ with_pair_in list before (node, item) (map (without_node node) (chains_of nodes.old.items ends.old.items)) }
    ensures nodes { length nodes.new.items ≡ length nodes.old.items }
    ensures ends { length ends.new.items ≡ length ends.old.items }
{
    move_within(
        nodes.as_mut_slice(),
        ends.as_mut_slice(),
        node,
        list,
        before,
        item,
    );
}

/// A new node is put behind the free ones.
pub fn add_node(nodes: &mut Vec<Node>, ends: &mut Vec<Ends>) -> Result<(), Memory>
    requires chains { AreChains nodes.old.items ends.old.items (chains_of nodes.old.items ends.old.items) }
    requires all { length (joined (chains_of nodes.old.items ends.old.items)) ≡ length nodes.old.items }
    requires free { 0 < length ends.old.items }
    requires few { suc (length nodes.old.items) < 2 ^ 32 }
    ensures chains { AreChains nodes.new.items ends.new.items (chains_of nodes.new.items ends.new.items) }
    ensures all { length (joined (chains_of nodes.new.items ends.new.items)) ≡ length nodes.new.items }
    ensures lists { OnOk result ((linked_of (chains_of nodes.new.items ends.new.items)).lists ≡ (linked_of (chains_of nodes.old.items ends.old.items)).lists) }
    ensures spare { OnOk result ((linked_of (chains_of nodes.new.items ends.new.items)).spare ≡ suc (linked_of (chains_of nodes.old.items ends.old.items)).spare) }
    ensures len { OnOk result (length nodes.new.items ≡ suc (length nodes.old.items)) }
    ensures ends { length ends.new.items ≡ length ends.old.items }
    ensures err { OnErr result ((nodes.new.items ≡ nodes.old.items) × (ends.new.items ≡ ends.old.items)) }
{
    let node = NodeId(nodes.len() as u32);
    nodes.push(Node {
        list: 0,
        item: 0,
        previous: None,
        next: None,
    })?;
    link(nodes.as_mut_slice(), ends.as_mut_slice(), 0, None, node, 0);
    Ok(())
}
