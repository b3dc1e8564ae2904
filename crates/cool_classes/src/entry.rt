//! The type `Entry`, the entry of one class in a class table: its name, its parent, the number of its ancestors, and its features.

use crate::class_id::ClassId;
use cool_syntax::{Feature, Listed, Name};

/// A class, and the number of classes above it on its chain.
#[derive(Drop)]
pub(crate) struct Entry {
    pub(crate) name: Name,
    pub(crate) parent: Option<ClassId>,
    pub(crate) depth: u32,
    pub(crate) features: Listed<Feature>,
}
