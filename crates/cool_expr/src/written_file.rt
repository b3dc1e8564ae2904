//! Writes the syntax tree of a source file as a list of tokens.

ghost use Rattle.std.specs.Prelude.{◌≡◌, ◌++◌, IfOk, OnOk};
ghost use Rattle.cool_syntax.specs.declared.file_tree.Feature.TheVariants.{Method as AMethod, Attribute as AnAttribute};
ghost use Rattle.cool_syntax.specs.Grammar.{Parses};
ghost use Rattle.cool_syntax.specs.WrittenTrees.{written, written_formal, written_formals, written_parent, written_value, written_signature, written_feature, written_features, written_class, written_classes, AreClassesWritable};

use crate::token_list::TokenList;
use crate::written::write_expr;
use cool_syntax::{
    AttributeDef, Body, ClassDef, Feature, FileTree, Formal, Key, MethodDef, Place, Sign, Token,
    TypeRef,
};
use std::alloc::{AllocError, Global};

/// Tokens that the grammar reads to the same tree (Cool manual, section 11). Returns `Err` only if memory runs out.
///
/// Every operand that is no atom stands in parentheses, and each token has the place of the tree, the feature or the class that it belongs to. No block and
/// no case may be empty. The call takes stack in proportion to the depth of the trees.
pub fn tokens_of(alloc: Global, tree: &FileTree) -> Result<Vec<Token>, AllocError>
    requires writable { AreClassesWritable tree.now.classes }
    ensures parses { IfOk result (λ tokens. Parses tokens.items tree.now.classes) }
{
    let mut out = TokenList::new(alloc);
    write_classes(tree.classes.as_slice(), &mut out)?;
    Ok(out.into_vec())
}

/// Writes classes in order.
fn write_classes(classes: &[ClassDef], out: &mut TokenList) -> Result<(), AllocError>
    ensures { OnOk result (out.new ≡ out.old ++ written_classes classes.now) }
{
    for class in classes {
        write_class(class, out)?;
    }
    Ok(())
}

/// Writes a class.
fn write_class(class: &ClassDef, out: &mut TokenList) -> Result<(), AllocError>
    ensures { OnOk result (out.new ≡ out.old ++ written_class class.now) }
{
    let at = class.at;
    out.key(Key::Class, at)?;
    out.class_name(&class.name, at)?;
    write_parent(at, &class.parent, out)?;
    out.sign(Sign::LBrace, at)?;
    write_features(class.features.as_slice(), out)?;
    out.sign(Sign::RBrace, at)?;
    out.sign(Sign::Semi, at)
}

/// Writes the parent of a class, where one is named.
fn write_parent(at: Place, parent: &Option<TypeRef>, out: &mut TokenList) -> Result<(), AllocError>
    ensures { OnOk result (out.new ≡ out.old ++ written_parent at parent.now) }
{
    match parent {
        None => Ok(()),
        Some(class) => {
            out.key(Key::Inherits, at)?;
            out.class(class)
        }
    }
}

/// Writes features in order.
fn write_features(features: &[Feature], out: &mut TokenList) -> Result<(), AllocError>
    ensures { OnOk result (out.new ≡ out.old ++ written_features features.now) }
{
    for feature in features {
        write_feature(feature, out)?;
    }
    Ok(())
}

/// Writes a feature.
fn write_feature(feature: &Feature, out: &mut TokenList) -> Result<(), AllocError>
    ensures { OnOk result (out.new ≡ out.old ++ written_feature feature.now) }
{
    match feature {
        Feature::Method(method) => write_method(method, out),
        Feature::Attribute(attribute) => write_attribute(attribute, out),
    }
}

/// Writes a method.
fn write_method(method: &MethodDef, out: &mut TokenList) -> Result<(), AllocError>
    ensures { OnOk result (out.new ≡ out.old ++ written_feature (AMethod method.now)) }
{
    write_signature(method, out)?;
    write_body(&method.body, out)?;
    out.sign(Sign::RBrace, method.at)?;
    out.sign(Sign::Semi, method.at)
}

/// Writes a method up to its body.
fn write_signature(method: &MethodDef, out: &mut TokenList) -> Result<(), AllocError>
    ensures { OnOk result (out.new ≡ out.old ++ written_signature method.now) }
{
    let at = method.at;
    out.object(&method.name, at)?;
    out.sign(Sign::LParen, at)?;
    write_formals(method.formals.as_slice(), out)?;
    out.sign(Sign::RParen, at)?;
    out.sign(Sign::Colon, at)?;
    out.class(&method.result)?;
    out.sign(Sign::LBrace, at)
}

/// Writes the whole expression of a body.
fn write_body(body: &Body, out: &mut TokenList) -> Result<(), AllocError>
    ensures { OnOk result (out.new ≡ out.old ++ written body.now) }
{
    write_expr(body, body.root(), out)
}

/// Writes formals, with commas between.
fn write_formals(formals: &[Formal], out: &mut TokenList) -> Result<(), AllocError>
    ensures { OnOk result (out.new ≡ out.old ++ written_formals formals.now) }
{
    match formals {
        [] => Ok(()),
        [first, rest @ ..] => {
            write_formal(first, out)?;
            for formal in rest {
                out.sign(Sign::Comma, formal.at)?;
                write_formal(formal, out)?;
            }
            Ok(())
        }
    }
}

/// Writes a formal.
fn write_formal(formal: &Formal, out: &mut TokenList) -> Result<(), AllocError>
    ensures { OnOk result (out.new ≡ out.old ++ written_formal formal.now) }
{
    out.object(&formal.name, formal.at)?;
    out.sign(Sign::Colon, formal.at)?;
    out.class(&formal.declared)
}

/// Writes an attribute.
fn write_attribute(attribute: &AttributeDef, out: &mut TokenList) -> Result<(), AllocError>
    ensures { OnOk result (out.new ≡ out.old ++ written_feature (AnAttribute attribute.now)) }
{
    let at = attribute.at;
    out.object(&attribute.name, at)?;
    out.sign(Sign::Colon, at)?;
    out.class(&attribute.declared)?;
    write_value(at, &attribute.init, out)?;
    out.sign(Sign::Semi, at)
}

/// Writes the value of an attribute, where it has one.
fn write_value(at: Place, value: &Option<Body>, out: &mut TokenList) -> Result<(), AllocError>
    ensures { OnOk result (out.new ≡ out.old ++ written_value at value.now) }
{
    match value {
        None => Ok(()),
        Some(body) => {
            out.sign(Sign::Arrow, at)?;
            write_body(body, out)
        }
    }
}
