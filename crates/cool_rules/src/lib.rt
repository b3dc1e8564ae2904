//! The typing rules of Cool: which type conforms to which, which names are in scope, and which programs are well typed (the Cool manual, sections 4 and 12).
//!
//! Input: a class table. Output: answers on types, and the program that the checker has accepted, with the types of the nodes of its expressions.
//! `specs/Conformance.antt`, `specs/Scopes.antt`, `specs/Fits.antt` and `specs/NodeTypes.antt` define their meaning.
#![tactic(auto)]

mod conformance;
mod laws;
mod meant;
mod node_types;
mod scope;
mod typed_program;
mod types;

pub use conformance::{conforms, join_types};
pub use laws::{law_node_types, law_static_type};
pub use meant::{method_meant, type_meant};
pub use node_types::NodeTypes;
pub use scope::{Entry, Scope};
pub use typed_program::TypedProgram;
pub use types::{class_of, type_named};
