//! The type `TypedProgram`: a program that the type checker has accepted, with the types of the nodes of its expressions.

ghost use Rattle.std.specs.Prelude.{◌≡◌, ◌<◌, Some, length, slice_get};
ghost use Rattle.cool_syntax.specs.declared.TheConstants.{MOST_FILES};
ghost use Rattle.cool_syntax.specs.declared.file_tree.Feature as syntax;
ghost use Rattle.cool_classes.specs.Chains.{features_of};
ghost use Rattle.cool_rules.specs.Fits.{Fits};
ghost use Rattle.cool_rules.specs.NodeTypes.{columns_of, feature_types, table_types};
ghost use Rattle.cool_rules.specs.TypedTables.{IsTypedTable};

use crate::node_types::NodeTypes;
use cool_classes::{ClassId, ClassTable};
use std::marker::Model;

/// A program that the checker has accepted, with the types of the nodes of each expression, as the checker found them. A contract sees its
/// class table, which keeps the limits (`Fits` of `specs/Fits.antt`) and is typed (`IsTypedTable` of `specs/TypedTables.antt`); the types
/// follow from it (`table_types` of `specs/NodeTypes.antt`).
#[derive(Drop)]
pub struct TypedProgram {
    table: ClassTable,
    types: Vec<Vec<NodeTypes>>,
}

impl Model for TypedProgram {
    ghost use Rattle.std.specs.Prelude.{List};
    ghost use Rattle.std.specs.Coded.{codes};
    ghost use Rattle.cool_syntax.specs.TreeCode.{tree_code};
    ghost use Rattle.cool_classes.specs.Chains.{Class};

    ghost Value = { List Class };

    ghost coded = { Prim.hlevel (codes, tree_code) };

    ghost view = { λ p. p.table };

    ghost use Rattle.std.specs.Prelude.{◌≡◌};
    ghost use Rattle.cool_syntax.specs.declared.TheConstants.{MOST_FILES};
    ghost use Rattle.cool_rules.specs.Fits.{Fits};
    ghost use Rattle.cool_rules.specs.NodeTypes.{columns_of, table_types};
    ghost use Rattle.cool_rules.specs.TypedTables.{IsTypedTable};

    ghost invariant = { λ p. Fits p.table MOST_FILES × IsTypedTable p.table × (columns_of p.types.items ≡ table_types p.table) };
}

impl TypedProgram {
    /// The program of this table, with the types of the nodes of each feature's expression, class by class. It takes no memory.
    pub fn new(table: ClassTable, types: Vec<Vec<NodeTypes>>) -> TypedProgram
        requires fits { Fits table MOST_FILES }
        requires typed { IsTypedTable table }
        requires types { columns_of types.items ≡ table_types table }
        ensures { result ≡ table }
    {
        TypedProgram { table, types }
    }

    /// The classes of the program.
    pub fn table(&self) -> &ClassTable
        ensures table { result.now ≡ self.now }
        ensures fits { Fits result.now MOST_FILES }
        ensures typed { IsTypedTable result.now }
    {
        &self.table
    }

    /// The types of the nodes of the expression of a feature of a class, by its number among the features of the class. Where the feature
    /// has no expression, there are none.
    pub fn types(&self, c: ClassId, feature: u32) -> &NodeTypes
        requires class { c.0 < length self.now }
        requires feature { feature < length (features_of self.now c) }
        ensures { (x : syntax.Feature) → slice_get (features_of self.now c) feature ≡ Some x → result.now ≡ feature_types self.now c x }
    {
        &self.types[c.0 as usize][feature as usize]
    }

    /// The classes of the program, given up by it. It takes no memory.
    pub fn into_table(self) -> ClassTable
        ensures table { result ≡ self }
        ensures fits { Fits result MOST_FILES }
        ensures typed { IsTypedTable result }
    {
        let TypedProgram { table, .. } = self;
        table
    }
}
