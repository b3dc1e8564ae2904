//! The arena of syntax tree nodes: a list to which nodes are appended, each after its parts.

ghost use Rattle.std.specs.Prelude.{◌≡◌, ◌+◌, ◌<◌, ◌≤◌, [], ◌∷◌, ◌++◌, Some, length, IfOk, IfErr, IsOk, OnOk, OnErr, suc};
ghost use Rattle.std.specs.List.{slice_get};
ghost use Rattle.cool_syntax.specs.Tree.{Tree};
ghost use Rattle.cool_syntax.specs.NodeLists.{nodes as nodes_of, at_id, grown, made, HasPartsBelow, IsPostorder};

use cool_syntax::{Body, Node, NodeId};
use std::alloc::{AllocError, Global};
use std::marker::Model;
use std::mem::replace;

/// The nodes of one feature, each after its parts, and room for more. A contract sees the list of the nodes and the number of nodes that can still be
/// placed without taking memory.
///
/// There are fewer than 2^32 - 1 nodes.
#[derive(Drop)]
pub struct Pool {
    alloc: Global,
    nodes: Vec<Node>,
}

impl Model for Pool {
    ghost use Rattle.std.specs.Prelude.{◌-◌, ◌<◌, length, vec_capacity, vec_len};
    ghost use Rattle.cool_syntax.specs.NodeLists.{Ordered};
    ghost use Rattle.cool_pool.specs.Region.{Region};

    ghost Value = { Region };

    ghost view = { λ p. record { nodes = p.nodes.items; spare = vec_capacity p.nodes - vec_len p.nodes } };

    ghost invariant = { λ p. Ordered 0 p.nodes.items × (length p.nodes.items < 4294967295) };
}

impl Pool {
    /// A pool with no node, and no room without taking memory.
    pub fn new(alloc: Global) -> Pool
        ensures nodes { result.nodes ≡ [] }
        ensures room { result.spare ≡ 0 }
    {
        Pool {
            alloc,
            nodes: Vec::new(alloc),
        }
    }

    /// Takes memory so that there is room for this many more nodes. Returns `Err` only if memory runs out. The nodes stay, and the room never shrinks.
    pub fn reserve(&mut self, nodes: u32) -> Result<(), AllocError>
        requires { length self.old.nodes + nodes < 4294967295 }
        ensures room { OnOk result (nodes ≤ self.new.spare) }
        ensures kept { self.new.nodes ≡ self.old.nodes }
        ensures spare { self.old.spare ≤ self.new.spare }
    {
        self.nodes.reserve(nodes as usize)
    }

    /// Places a node, whose parts are here, and returns its number. If there is room it takes no memory, and succeeds. Returns `Err` only if memory runs
    /// out; then the pool stays as it is, and the node is handed back.
    pub fn place(&mut self, node: Node) -> Result<NodeId, (AllocError, Node)>
        requires parts { HasPartsBelow (length self.old.nodes) node }
        requires few { length self.old.nodes < 4294967294 }
        ensures number { IfOk result (λ id. id.0 ≡ length self.old.nodes) }
        ensures placed { OnOk result (self.new.nodes ≡ self.old.nodes ++ node ∷ []) }
        ensures succeeds { 0 < self.old.spare → IsOk result × (suc self.new.spare ≡ self.old.spare) }
        ensures refused { IfErr result (λ e. e.1 ≡ node) }
        ensures kept { OnErr result (self.new ≡ self.old) }
    {
        let id = NodeId(self.nodes.len() as u32);
        if self.nodes.len() < self.nodes.capacity() {
            self.nodes.push_reserved(node);
            return Ok(id);
        }
        match self.nodes.reserve(1) {
            Ok(()) => {
                self.nodes.push_reserved(node);
                Ok(id)
            }
            Err(e) => Err((e, node)),
        }
    }

    /// The number of nodes.
    pub fn len(&self) -> u32
        ensures { result ≡ length self.now.nodes }
    {
        self.nodes.len() as u32
    }

    /// The node of this number.
    ///
    /// The tree at the number is made of the trees at the numbers of the node's parts, and those are smaller.
    pub fn node(&self, id: NodeId) -> &Node
        requires below { id.0 < length self.now.nodes }
        ensures node { slice_get self.now.nodes id.0 ≡ Some result.now }
        ensures tree { at_id (grown [] self.now.nodes) id ≡ made (grown [] self.now.nodes) result.now }
        ensures parts { HasPartsBelow id.0 result.now }
    {
        &self.nodes[id.0 as usize]
    }

    /// The body of all nodes, which are the list of a tree. It takes no memory, and the pool is empty afterwards, with no
    /// room.
    pub fn close(&mut self) -> Body
        requires postorder { IsPostorder self.old.nodes }
        ensures tree { (t : Tree) → self.old.nodes ≡ nodes_of 0 t → result ≡ t }
        ensures emptied { self.new.nodes ≡ [] }
        ensures room { self.new.spare ≡ 0 }
    {
        let empty = Vec::new(self.alloc);
        let mut nodes = replace(&mut self.nodes, empty);
        nodes.shrink_to_fit();
        Body::from_nodes(nodes)
    }

    /// Gives the nodes up, and keeps their room.
    pub fn clear(&mut self)
        ensures emptied { self.new.nodes ≡ [] }
        ensures room { self.new.spare ≡ length self.old.nodes + self.old.spare }
    {
        self.nodes.clear();
    }
}
