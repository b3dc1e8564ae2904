//! The class table of a Cool program: its classes with their parents, methods and attributes (the Cool manual, sections 3 to 8).
//!
//! Input: the trees of source files. Output: a table of classes that is whole, or the faults of the classes. `specs/Chains.antt`, `specs/Features.antt` and
//! `specs/Tables.antt` define the meaning of the answers.
#![tactic(auto)]

mod attributes;
mod basic_classes;
mod basic_methods;
mod bodies;
mod building;
mod class_id;
mod class_phase;
mod class_table;
mod climbing;
mod depths;
mod entry;
mod fault;
mod fault_list;
mod feature_limits;
mod feature_phase;
mod first_names;
mod lineage;
mod lookup;
mod method;
mod own_names;
mod path;
mod self_type;
mod signature;
mod signature_faults;

pub use basic_methods::{NamedMethod, basic_class_methods};
pub use building::table;
pub use class_id::{BOOL, ClassId, INT, IO, OBJECT, STRING, Ty};
pub use class_table::ClassTable;
pub use fault::{ClassFault, ClassKind, TableError};
pub use method::{AttributeRef, BasicMethod, MethodRef};
pub use self_type::is_self_type;

/// The most classes of a program, besides the basic ones.
pub const MOST_CLASSES: usize = 1_000;

/// The most attributes of a class with those that it inherits.
pub const MOST_ATTRIBUTES: usize = 2_000;

/// The most methods of a class with those that it inherits, each name once.
pub const MOST_METHODS: usize = 2_000;
