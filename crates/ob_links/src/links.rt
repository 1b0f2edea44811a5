//! Lists of pairs of nodes and items.
ghost use Rattle.std.specs.Prelude.{◌≡◌, ◌<◌, ◌+◌, ◌^◌, ◌≤◌, ◌++◌, suc, length, map, replicate, false, [], Some, IfOk, OnOk, OnErr, IfSome, IsSome, IsTrue, slice_set, slice_index_or};
ghost use Rattle.ob_links.specs.Lists.{joined, AreApart, has_node, list_of, item_of, first_node, node_after, with_pair, without_node};
ghost use Rattle.ob_links.specs.Chains.{first_free, no_ends};

use crate::chains::{add_node, move_node};
use crate::node::{Ends, Node, NodeId};
use crate::steps::Steps;
use ob_base::Memory;
use std::alloc::Global;
use std::marker::Model;
use std::sync::ledger::Ledger;

/// Lists of pairs, each a node and its item, with no node in two pairs. The nodes of all lists stand in one vector, each with
/// those beside it in its list, and a free node is in a list of free ones.
#[derive(Drop)]
pub struct Links {
    nodes: Vec<Node>,
    // The ends of the list of the free nodes, and then those of the lists.
    ends: Vec<Ends>,
    // How many nodes are free.
    spare: u32,
}

impl Model for Links {
    ghost use Rattle.ob_links.specs.Lists.{Linked};

    ghost Value = { Linked };

    ghost use Rattle.ob_links.specs.Chains.{chains_of, linked_of, IsSound};

    ghost view = { λ l. linked_of (chains_of l.nodes.items l.ends.items) };

    ghost invariant = { λ l. IsSound l.nodes.items l.ends.items l.spare };
}

// The ends of a list without nodes.
const NO_ENDS: Ends = Ends {
    first: None,
    last: None,
};

// The first of the free nodes.
fn first_free(ends: &[Ends]) -> NodeId
    requires { IsSome (first_free ends.now) }
    ensures { first_free ends.now ≡ Some result }
{
    match ends {
        [
            Ends {
                first: Some(node),
                last: _,
            },
            ..
        ] => *node,
        _ => unreachable!(),
    }
}

// The ends of so many lists without nodes.
fn empty_ends(alloc: Global, count: usize) -> Result<Vec<Ends>, Memory>
    ensures { IfOk result (λ ends. ends.items ≡ replicate count no_ends) }
{
    let mut ends = Vec::new(alloc);
    ends.resize(count, NO_ENDS)?;
    Ok(ends)
}

impl Links {
    /// So many lists, without pairs.
    ///
    /// # Errors
    ///
    /// `Memory` where memory runs out.
    pub fn new(alloc: Global, lists: u32) -> Result<Links, Memory>
        ensures { IfOk result (λ links. links.lists ≡ replicate lists []) }
    {
        Ok(Links {
            nodes: Vec::new(alloc),
            ends: empty_ends(alloc, lists as usize + 1)?,
            spare: 0,
        })
    }

    /// So many lists more, without pairs, behind the others.
    ///
    /// # Errors
    ///
    /// `Memory` where memory runs out.
    pub fn more(&mut self, lists: u32) -> Result<(), Memory>
        requires { length self.old.lists + lists < 2 ^ 32 }
        ensures ok { OnOk result (self.new.lists ≡ self.old.lists ++ replicate lists []) }
        ensures err { OnErr result (self.new.lists ≡ self.old.lists) }
        ensures spare { self.new.spare ≡ self.old.spare }
    {
        let count = self.ends.len() + lists as usize;
        self.ends.resize(count, NO_ENDS)?;
        Ok(())
    }

    // How many nodes are free.
    fn spare(&self) -> u32
        ensures { result ≡ self.now.spare }
    {
        self.spare
    }

    // Makes room for one pair more.
    fn reserve_one(&mut self) -> Result<(), Memory>
        requires { suc (length (joined self.old.lists) + self.old.spare) < 2 ^ 32 }
        ensures spare { OnOk result (self.new.spare ≡ suc self.old.spare) }
        ensures err { OnErr result (self.new.spare ≡ self.old.spare) }
        ensures lists { self.new.lists ≡ self.old.lists }
    {
        add_node(&mut self.nodes, &mut self.ends)?;
        self.spare += 1;
        Ok(())
    }

    /// Makes room for so many pairs. Where memory runs out, there may be room for a part of them.
    ///
    /// # Errors
    ///
    /// `Memory` where memory runs out.
    pub fn reserve(&mut self, nodes: u32) -> Result<(), Memory>
        requires { length (joined self.old.lists) + nodes < 2 ^ 32 }
        ensures room { OnOk result (nodes ≤ self.new.spare) }
        ensures lists { self.new.lists ≡ self.old.lists }
        ensures spare { self.old.spare ≤ self.new.spare }
    {
        while self.spare() < nodes {
            self.reserve_one()?;
        }
        Ok(())
    }

    /// Puts a pair with a node of its own into a list, before the pair of another node of that list or at the end.
    pub fn insert(&mut self, list: u32, before: Option<NodeId>, item: u64) -> NodeId
        requires list { list < length self.old.lists }
        requires before { IfSome before (λ n. IsTrue (has_node n (slice_index_or self.old.lists list []))) }
        requires room { 0 < self.old.spare }
        ensures lists { self.new.lists ≡ slice_set self.old.lists list (with_pair before (result, item) (slice_index_or self.old.lists list [])) }
        ensures node { has_node result (joined self.old.lists) ≡ false }
        ensures spare { suc self.new.spare ≡ self.old.spare }
        ensures apart { AreApart (joined self.new.lists) }
    {
        let node = first_free(self.ends.as_slice());
        move_node(
            &mut self.nodes,
            &mut self.ends,
            node,
            list + 1,
            before,
            item,
        );
        self.spare -= 1;
        node
    }

    /// Takes the pair of a node out of its list, and answers its item.
    pub fn remove(&mut self, node: NodeId) -> u64
        requires { IsTrue (has_node node (joined self.old.lists)) }
        ensures lists { self.new.lists ≡ map (without_node node) self.old.lists }
        ensures item { item_of node (joined self.old.lists) ≡ Some result }
        ensures spare { self.new.spare ≡ suc self.old.spare }
        ensures apart { AreApart (joined self.new.lists) }
    {
        let item = self.nodes[node.0 as usize].item;
        move_node(&mut self.nodes, &mut self.ends, node, 0, None, 0);
        self.spare += 1;
        item
    }

    /// The first node of a list, if it has one. It takes one step.
    pub fn first<L: Ledger>(&self, list: u32, steps: &mut Steps<L>) -> Option<NodeId>
        requires { list < length self.now.lists }
        ensures node { result ≡ first_node (slice_index_or self.now.lists list []) }
        ensures step { steps.new ≡ suc steps.old }
    {
        steps.raise();
        self.ends[list as usize + 1].first
    }

    /// The node after another one in its list, if there is one. It takes one step.
    pub fn after<L: Ledger>(&self, node: NodeId, steps: &mut Steps<L>) -> Option<NodeId>
        requires { IsTrue (has_node node (joined self.now.lists)) }
        ensures node { result ≡ node_after node (list_of node self.now.lists) }
        ensures step { steps.new ≡ suc steps.old }
    {
        steps.raise();
        self.nodes[node.0 as usize].next
    }

    /// The item of a node.
    pub fn item(&self, node: NodeId) -> u64
        requires { IsTrue (has_node node (joined self.now.lists)) }
        ensures item { item_of node (joined self.now.lists) ≡ Some result }
        ensures apart { AreApart (joined self.now.lists) }
    {
        self.nodes[node.0 as usize].item
    }
}
