//! A body (the expression of a method or the initial value of an attribute), stored as the list of its nodes in postorder.

ghost use Rattle.std.specs.Prelude.{◌≡◌, ◌-◌, ◌<◌, ◌^◌, Some, length};
ghost use Rattle.std.specs.List.{slice_get};
ghost use Rattle.cool_syntax.specs.Tree.{Tree, tree_size};
ghost use Rattle.cool_syntax.specs.NodeLists.{root, nodes as nodes_of, made, all_trees, tree_at, HasPartsBelow, IsPostorder};

use crate::node::{Node, NodeId};
use std::marker::Model;

/// An expression as the list of its nodes: the parts of a node stand before it, and the root is the last. A contract
/// sees the tree.
///
/// A tree has fewer than 2^32 - 1 nodes here, so that each number is one of `u32`.
#[derive(Drop)]
pub struct Body {
    nodes: Vec<Node>,
}

impl Model for Body {
    ghost use Rattle.std.specs.Prelude.{◌≡◌, ◌-◌, ◌<◌, ◌^◌, length};
    ghost use Rattle.cool_syntax.specs.Tree.{Tree};
    ghost use Rattle.cool_syntax.specs.TreeCode.{tree_code};
    ghost use Rattle.cool_syntax.specs.NodeLists.{nodes as nodes_of, tree_of};

    ghost Value = { Tree };

    ghost coded = { tree_code };

    ghost view = { λ b. tree_of b.nodes.items };

    ghost invariant = { λ b. (nodes_of 0 (tree_of b.nodes.items) ≡ b.nodes.items) × (length b.nodes.items < 2 ^ 32 - 1) };
}

impl Body {
    /// The expression of these nodes, which are the list of a tree. It takes no memory.
    pub fn from_nodes(nodes: Vec<Node>) -> Body
        requires few { length nodes.items < 2 ^ 32 - 1 }
        requires postorder { IsPostorder nodes.items }
        ensures tree { (t : Tree) → nodes.items ≡ nodes_of 0 t → result ≡ t }
    {
        Body { nodes }
    }

    /// The number of nodes.
    pub fn len(&self) -> u32
        ensures { result ≡ tree_size self.now }
    {
        self.nodes.len() as u32
    }

    /// The number of the whole expression, which is the last.
    pub fn root(&self) -> NodeId
        ensures last { result ≡ root 0 self.now }
        ensures tree { tree_at self.now result ≡ self.now }
        ensures below { result.0 < tree_size self.now }
    {
        NodeId(self.len() - 1)
    }

    /// The node of this number.
    ///
    /// The tree at the number is made of the trees at the numbers of the node's parts, and those are smaller.
    pub fn node(&self, id: NodeId) -> &Node
        requires below { id.0 < tree_size self.now }
        ensures node { slice_get (nodes_of 0 self.now) id.0 ≡ Some result.now }
        ensures tree { tree_at self.now id ≡ made (all_trees self.now) result.now }
        ensures parts { HasPartsBelow id.0 result.now }
    {
        &self.nodes[id.0 as usize]
    }
}
