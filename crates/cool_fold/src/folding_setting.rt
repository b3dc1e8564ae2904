//! The constant context of folding an expression, and a test whether a proper subclass of a class redefines a method.

ghost use Rattle.std.specs.Prelude.{◌≡◌, ◌<◌, length};
ghost use Rattle.cool_classes.specs.ClimbedChains.{above};
ghost use Rattle.cool_rules.specs.Rules.{is_among};
ghost use Rattle.cool_fold.specs.Folding.{is_redefined};
ghost use Rattle.cool_fold.specs.FoldingSettings.{IsSound};

use crate::definers::Definers;
use cool_classes::{ClassId, ClassTable};
use cool_rules::NodeTypes;
use cool_syntax::{Body, Name};
use std::alloc::Global;

/// The class table with the classes that define each method, the class whose feature it is, and the expression with the types of its nodes.
#[derive(Clone, Copy)]
pub(crate) struct FoldingSetting<'a, 'b> {
    pub(crate) alloc: Global,
    pub(crate) table: &'a ClassTable,
    pub(crate) definers: &'b Definers<'a>,
    pub(crate) class: ClassId,
    pub(crate) body: &'a Body,
    pub(crate) types: &'a NodeTypes,
}

impl<'a, 'b> FoldingSetting<'a, 'b> {
    /// Whether a class properly below one defines a method of this name.
    pub(crate) fn is_redefined(&self, class: ClassId, name: &Name) -> bool
        requires sound { IsSound self.now }
        requires class { class.0 < length self.now.table.now }
        ensures { result ≡ is_redefined self.now.table.now class name.now }
    {
        for below in self.definers.of(name) {
            if self.is_properly_below(*below, class) {
                return true;
            }
        }
        false
    }

    /// Whether the first class stands properly below the second.
    fn is_properly_below(&self, below: ClassId, class: ClassId) -> bool
        requires sound { IsSound self.now }
        requires below { below.0 < length self.now.table.now }
        ensures { result ≡ is_among (above self.now.table.now below) class }
    {
        match self.table.parent(below) {
            Some(parent) => self.table.is_below(parent, class),
            None => false,
        }
    }
}
