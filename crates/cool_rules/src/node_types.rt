//! The type `NodeTypes`: the list of the static types of an expression's nodes, in the order of the nodes' numbers.

ghost use Rattle.std.specs.Prelude.{◌≡◌, ◌<◌, Some, length, slice_get};

use cool_classes::Ty;
use cool_syntax::NodeId;
use std::marker::Model;

/// The types of the first nodes of an expression, in the order of their numbers. A contract sees their list.
#[derive(Drop)]
pub struct NodeTypes {
    types: Vec<Ty>,
}

impl Model for NodeTypes {
    ghost use Rattle.std.specs.Prelude.{List};
    ghost use Rattle.cool_classes.specs.declared.class_id.Ty.{Ty};

    ghost Value = { List Ty };

    ghost view = { λ t. t.types.items };
}

impl NodeTypes {
    /// These types, in the order of the nodes' numbers. It takes no memory.
    pub fn of(types: Vec<Ty>) -> NodeTypes
        ensures { result ≡ types.items }
    {
        NodeTypes { types }
    }

    /// The type of the node of this number.
    pub fn get(&self, id: NodeId) -> Ty
        requires below { id.0 < length self.now }
        ensures { slice_get self.now id.0 ≡ Some result }
    {
        self.types[id.0 as usize]
    }
}
