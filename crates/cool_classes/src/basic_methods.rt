//! The methods of the basic classes: their names and signatures, and functions that look them up (the Cool manual, section 8).

ghost use Rattle.std.specs.Prelude.{◌≡◌, ◌<◌, [], length, get_or};
ghost use Rattle.cool_classes.specs.declared.class_id.Ty.TheVariants.{Class as IsClass};
ghost use Rattle.cool_classes.specs.BasicMethods.{named_methods, IsSignature};
ghost use Rattle.cool_classes.specs.FeatureFaults.{declared_types, same_types};
ghost use Rattle.cool_classes.specs.Features.{basic_methods, method_among, basic_formals, basic_result, Denotes};
ghost use Rattle.cool_classes.specs.MethodNames.{method_names};
ghost use Rattle.cool_classes.specs.Tables.{basic_classes};

use crate::basic_classes::class_name;
use crate::class_id::{ClassId, INT, OBJECT, STRING, Ty};
use crate::method::BasicMethod;
use crate::self_type::self_type;
use cool_syntax::Formal;

/// The name of a method of a basic class, and which method that is.
#[derive(Clone, Copy)]
pub struct NamedMethod(pub &'static [u8], pub BasicMethod);

/// The declaration of a basic method.
#[derive(Clone, Copy)]
struct BasicSignature {
    /// The class of each formal.
    formals: &'static [ClassId],
    /// The type of the result.
    result: Ty,
}

/// The methods that a basic class has of its own, by the number of the class; none for any other number.
pub fn basic_class_methods(class: u32) -> &'static [NamedMethod]
    ensures { named_methods result.now ≡ basic_methods class }
{
    match class {
        0 => &[
            NamedMethod(b"abort", BasicMethod::Abort),
            NamedMethod(b"type_name", BasicMethod::TypeName),
            NamedMethod(b"copy", BasicMethod::Copy),
        ],
        1 => &[
            NamedMethod(b"out_string", BasicMethod::OutString),
            NamedMethod(b"out_int", BasicMethod::OutInt),
            NamedMethod(b"in_string", BasicMethod::InString),
            NamedMethod(b"in_int", BasicMethod::InInt),
        ],
        4 => &[
            NamedMethod(b"length", BasicMethod::Length),
            NamedMethod(b"concat", BasicMethod::Concat),
            NamedMethod(b"substr", BasicMethod::Substr),
        ],
        _ => &[],
    }
}

/// The declaration of a basic method.
fn signature(method: BasicMethod) -> BasicSignature
    ensures { IsSignature method result }
{
    match method {
        BasicMethod::Abort => declares(&[], Ty::Class(OBJECT)),
        BasicMethod::TypeName => declares(&[], Ty::Class(STRING)),
        BasicMethod::Copy => declares(&[], Ty::SelfType),
        BasicMethod::OutString => declares(&[STRING], Ty::SelfType),
        BasicMethod::OutInt => declares(&[INT], Ty::SelfType),
        BasicMethod::InString => declares(&[], Ty::Class(STRING)),
        BasicMethod::InInt => declares(&[], Ty::Class(INT)),
        BasicMethod::Length => declares(&[], Ty::Class(INT)),
        BasicMethod::Concat => declares(&[STRING], Ty::Class(STRING)),
        BasicMethod::Substr => declares(&[INT, INT], Ty::Class(STRING)),
    }
}

/// The signature with formals of these classes and this result.
fn declares(formals: &'static [ClassId], of_result: Ty) -> BasicSignature
    ensures formals { result.formals.now ≡ formals.now }
    ensures result { result.result ≡ of_result }
{
    BasicSignature {
        formals,
        result: of_result,
    }
}

/// The method of this name that a basic class has of its own, by the number of the class.
pub(crate) fn basic_method(class: u32, name: &[u8]) -> Option<BasicMethod>
    ensures { result ≡ method_among (basic_methods class) name.now }
{
    let own = basic_class_methods(class);
    for index in 0..own.len() {
        let NamedMethod(own_name, method) = own[index];
        if own_name == name {
            return Some(method);
        }
    }
    None
}

/// The number of methods of a basic class's own, by the number of the class.
pub(crate) fn basic_method_count(class: u32) -> usize
    ensures { result ≡ length (method_names (basic_methods class)) }
{
    basic_class_methods(class).len()
}

/// The number of formals of a basic method.
pub(crate) fn basic_formal_count(method: BasicMethod) -> u32
    ensures { result ≡ length (basic_formals method) }
{
    signature(method).formals.len() as u32
}

/// The class of a formal of a basic method, counted from 0.
pub(crate) fn basic_formal(method: BasicMethod, i: u32) -> ClassId
    requires within { i < length (basic_formals method) }
    ensures { Denotes basic_classes (get_or (basic_formals method) i []) (IsClass result) }
{
    signature(method).formals[i as usize]
}

/// The type of the result of a basic method.
pub(crate) fn basic_result(method: BasicMethod) -> Ty
    ensures { Denotes basic_classes (basic_result method) result }
{
    signature(method).result
}

/// The name of the type of the result of a basic method.
pub(crate) fn basic_result_name(method: BasicMethod) -> &'static [u8]
    ensures { result.now ≡ basic_result method }
{
    match signature(method).result {
        Ty::Class(class) => class_name(class),
        Ty::SelfType => self_type(),
    }
}

/// Whether formals declare the types of those of a basic method.
pub(crate) fn fit_basic(formals: &[Formal], method: BasicMethod) -> bool
    ensures { result ≡ same_types (declared_types formals.now) (basic_formals method) }
{
    let wanted = signature(method).formals;
    if formals.len() != wanted.len() {
        return false;
    }
    for index in 0..formals.len() {
        if formals[index].declared.name.as_slice() != class_name(wanted[index]) {
            return false;
        }
    }
    true
}
