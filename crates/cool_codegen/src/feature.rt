//! Functions that generate the code of methods, and of the initial values of attributes.

ghost use Rattle.std.specs.Prelude.{◌≡◌, ◌^◌, ◌<◌, ◌+◌, ◌*◌, ◌++◌, [], length, map, slice_get, string_bytes, vec_capacity, Contains, IfOk, OnOk, Some};
ghost use Rattle.mips_isa.specs.Lines.{lines_of};
ghost use Rattle.cool_syntax.specs.declared.file_tree.Feature as syntax;
ghost use Rattle.cool_syntax.specs.Tree.{tree_size};
ghost use Rattle.cool_syntax.specs.TreesWithinLimits.{IsTreeWithin};
ghost use Rattle.cool_classes.specs.Chains.{features_of};
ghost use Rattle.cool_classes.specs.Features.{attribute_type, HasAttribute, HasMethod};
ghost use Rattle.cool_classes.specs.Tables.{IsWholeTable};
ghost use Rattle.cool_classes.specs.declared.method.MethodRef.TheVariants.{User};
ghost use Rattle.cool_consts.specs.Constants.{Constants};
ghost use Rattle.cool_layout.specs.Layouts.{IsLayoutOf};
ghost use Rattle.cool_layout.specs.Members.{attributes};
ghost use Rattle.cool_rules.specs.Conformance.{IsType};
ghost use Rattle.cool_rules.specs.Fits.{Fits};
ghost use Rattle.cool_rules.specs.Rules.{type_meant};
ghost use Rattle.cool_codegen.specs.AddedCode.{HasRoom, IsReady, MakesCode, MakesFeature};
ghost use Rattle.cool_codegen.specs.Asked.{with_integers, with_strings, Extends};
ghost use Rattle.cool_codegen.specs.Code.{code};
ghost use Rattle.cool_codegen.specs.Features.{attributes_in, feature_code, feature_integers, feature_strings, initial_value_code, method_code, with_formals};
ghost use Rattle.cool_codegen.specs.CodeSettings.{attribute_of, context, HasTypesIn, HaveTypes, IsSound};
ghost use Rattle.cool_codegen.specs.Shown.{shown};
ghost use Rattle.cool_codegen.specs.declared.code_setting.Wanted.TheVariants.{Spans};
ghost use Rattle.cool_codegen.specs.Spans.{initial_value_spans, method_spans, spans};
ghost use Rattle.cool_codegen.specs.Variables.{scope_of};

use crate::code::Code;
use crate::code_setting::{CodeSetting, Wanted};
use crate::number::signed;
use crate::piece::{leave, mark, store};
use crate::span::Span;
use crate::variables::{Base, Variable};
use cool_classes::{AttributeRef, ClassId, ClassTable, MethodRef, Ty};
use cool_consts::Consts;
use cool_layout::{Layout, method_label};
use cool_rules::{Scope, TypedProgram, type_meant};
use cool_runtime::draft::write;
use cool_runtime::piece::enter;
use cool_syntax::{Body, Feature, Formal};
use mips_isa::Line;
use mips_isa::register::S0;
use std::alloc::{AllocError, Global};
use std::mem::replace;

/// The code of a feature, the spans of its expressions if they are wanted, and the names in scope in all of it.
#[derive(Drop)]
pub struct FeatureCode<'a> {
    pub lines: Vec<Line>,
    pub spans: Vec<Span<'a>>,
    pub names: Scope<'a, Variable>,
}

/// The lines of a feature of a class, by its number among the features of the class: a method under its label, or the part of an initializer
/// that computes and stores an initial value; nothing for an attribute without one. The constants that the code names are numbered after
/// those before. The names are those of the files.
///
/// Returns `Err` only if memory runs out. The constants are then those before, with perhaps more after them.
pub fn feature_lines(
    alloc: Global,
    p: &TypedProgram,
    layout: &Layout,
    consts: &mut Consts,
    names: &[String],
    c: ClassId,
    feature: u32,
) -> Result<Vec<Line>, AllocError>
    requires layout { IsLayoutOf layout.now p.now }
    requires fits { Fits p.now (length names.now) }
    requires class { c.0 < length p.now }
    requires feature { feature < length (features_of p.now c) }
    requires few_integers { length consts.old.integers < 2 ^ 31 }
    requires few_strings { length consts.old.strings < 2 ^ 31 }
    ensures lines { (x : syntax.Feature) → slice_get (features_of p.now c) feature ≡ Some x → IfOk result (λ lines. (g : Constants) → Extends consts.new g → lines_of lines.items ≡ feature_code (record { table = p.now; class = c; feature = feature; files = map string_bytes names.now }) g x) }
    ensures integers { (x : syntax.Feature) → slice_get (features_of p.now c) feature ≡ Some x → OnOk result (consts.new.integers ≡ with_integers consts.old.integers (feature_integers x)) }
    ensures strings { (x : syntax.Feature) → slice_get (features_of p.now c) feature ≡ Some x → OnOk result (consts.new.strings ≡ with_strings consts.old.strings (feature_strings (map string_bytes names.now) x)) }
    ensures kept { Extends consts.old consts.new }
{
    let wanted = Wanted::Lines;
    let FeatureCode { lines, .. } = wanted_code(
        alloc, p, layout, consts, names, c, feature, wanted,
    )?;
    Ok(lines)
}

/// The code of a feature of a class, whose lines are those of `feature_lines`, with the span of each of its expressions: the whole before
/// its parts, and parts in the order of their code. The names are the formals of a method and the attributes of the class.
///
/// Returns `Err` only if memory runs out. The constants are then those before, with perhaps more after them.
pub fn feature_code<'a>(
    alloc: Global,
    p: &'a TypedProgram,
    layout: &'a Layout,
    consts: &mut Consts,
    names: &'a [String],
    c: ClassId,
    feature: u32,
) -> Result<FeatureCode<'a>, AllocError>
    requires layout { IsLayoutOf layout.now p.now }
    requires fits { Fits p.now (length names.now) }
    requires class { c.0 < length p.now }
    requires feature { feature < length (features_of p.now c) }
    requires few_integers { length consts.old.integers < 2 ^ 31 }
    requires few_strings { length consts.old.strings < 2 ^ 31 }
    ensures made { (x : syntax.Feature) → slice_get (features_of p.now c) feature ≡ Some x → MakesFeature Spans (record { table = p.now; class = c; feature = feature; files = map string_bytes names.now }) x consts.old consts.new result }
    ensures kept { Extends consts.old consts.new }
{
    let wanted = Wanted::Spans;
    wanted_code(alloc, p, layout, consts, names, c, feature, wanted)
}

/// The code of a feature of a class, with the spans of its expressions if they are wanted, and otherwise with none.
///
/// Returns `Err` only if memory runs out. The constants are then those before, with perhaps more after them.
fn wanted_code<'a>(
    alloc: Global,
    p: &'a TypedProgram,
    layout: &'a Layout,
    consts: &mut Consts,
    names: &'a [String],
    c: ClassId,
    feature: u32,
    wanted: Wanted,
) -> Result<FeatureCode<'a>, AllocError>
    requires layout { IsLayoutOf layout.now p.now }
    requires fits { Fits p.now (length names.now) }
    requires class { c.0 < length p.now }
    requires feature { feature < length (features_of p.now c) }
    requires few_integers { length consts.old.integers < 2 ^ 31 }
    requires few_strings { length consts.old.strings < 2 ^ 31 }
    ensures made { (x : syntax.Feature) → slice_get (features_of p.now c) feature ≡ Some x → MakesFeature wanted (record { table = p.now; class = c; feature = feature; files = map string_bytes names.now }) x consts.old consts.new result }
    ensures kept { Extends consts.old consts.new }
{
    let table = p.table();
    let types = p.types(c, feature);
    match &table.features(c)[feature as usize] {
        Feature::Method(method) => {
            let setting = CodeSetting {
                alloc,
                wanted,
                table,
                layout,
                names,
                class: c,
                feature,
                body: &method.body,
                types,
            };
            method_code(&setting, method.formals.as_slice(), consts)
        }
        Feature::Attribute(attribute) => match &attribute.init {
            Some(body) => {
                let setting = CodeSetting {
                    alloc,
                    wanted,
                    table,
                    layout,
                    names,
                    class: c,
                    feature,
                    body,
                    types,
                };
                initial_value_code(&setting, consts)
            }
            None => Ok(FeatureCode {
                lines: Vec::new(alloc),
                spans: Vec::new(alloc),
                names: attribute_variables(alloc, table, layout, c)?,
            }),
        },
    }
}

/// The code of the whole expression of a feature, behind lines. Returns `Err` only if memory runs out.
///
/// The constants stand in the code while it is made, and are put back whether that fails or not.
fn body_code<'a>(
    setting: &CodeSetting<'a>,
    variables: Scope<'a, Variable>,
    consts: &mut Consts,
    lines: Vec<Line>,
) -> Result<FeatureCode<'a>, AllocError>
    requires places { IsTreeWithin (length setting.now.names.now) setting.now.body.now }
    requires types { HasTypesIn setting.now (scope_of variables) }
    requires ready { IsReady setting.now variables }
    requires room { HasRoom consts.old 0 (tree_size setting.now.body.now) }
    ensures made { MakesCode setting.now (λ g. lines_of lines.items ++ code (context setting.now) g variables.entry 0 0 setting.now.body.now) (λ g. map (shown (context setting.now) g) (spans length (context setting.now) g variables.entry 0 0 (length (lines_of lines.items)) setting.now.body.now)) variables.entry consts.old consts.new result }
{
    let root = setting.body.root();
    let mut code = Code {
        setting: *setting,
        variables,
        consts: replace(consts, Consts::new(setting.alloc)),
        lines,
        spans: Vec::new(setting.alloc),
    };
    let made = code.expression(0, root);
    let Code {
        variables: names,
        consts: more,
        lines,
        spans,
        ..
    } = code;
    *consts = more;
    made?;
    Ok(FeatureCode {
        lines,
        spans,
        names,
    })
}

/// The attributes of the objects of a class, as variables.
pub fn attribute_variables<'a>(
    alloc: Global,
    table: &'a ClassTable,
    layout: &Layout,
    class: ClassId,
) -> Result<Scope<'a, Variable>, AllocError>
    requires whole { IsWholeTable table.now }
    requires class { class.0 < length table.now }
    requires layout { IsLayoutOf layout.now table.now }
    ensures variables { IfOk result (λ vs. vs ≡ attributes_in table.now class) }
    ensures types { IfOk result (HaveTypes table.now) }
{
    let mut variables = Scope::new(alloc);
    for attribute in table.attributes(alloc, class)? {
        let variable = Variable {
            base: Base::Object,
            offset: signed(layout.offset(class, attribute)),
            ty: declared_type(table, attribute),
        };
        variables.enter(table.attribute_name(attribute), variable)?;
    }
    Ok(variables)
}

/// The declared type of an attribute.
fn declared_type(table: &ClassTable, attribute: AttributeRef) -> Ty
    requires whole { IsWholeTable table.now }
    requires has { HasAttribute table.now attribute }
    ensures is_type { IsType table.now result }
    ensures attribute { result ≡ type_meant table.now (attribute_type table.now attribute) }
{
    table.attribute_type(attribute)
}

/// Adds the formals of a method to the names in scope: the last one is nearest to the frame.
fn formal_variables<'a>(
    setting: &CodeSetting<'a>,
    variables: &mut Scope<'a, Variable>,
    formals: &'a [Formal],
) -> Result<(), AllocError>
    requires few { length formals.now < 2 ^ 28 }
    requires ready { IsReady setting.now variables.old }
    ensures variables { OnOk result (variables.new ≡ with_formals setting.now.table.now formals.now variables.old) }
    ensures ready { OnOk result (IsReady setting.now variables.new) }
{
    let mut after = formals.len() as u32;
    for formal in formals {
        after -= 1;
        let variable = Variable {
            base: Base::Frame,
            offset: signed(12 + 4 * after),
            ty: type_meant(setting.table, &formal.declared.name),
        };
        variables.enter(&formal.name, variable)?;
    }
    Ok(())
}

/// No lines, with room for those of a feature of this expression: for eight of each node, since most features have some seven, and for the begin and the
/// end. A feature has at most `MOST_TOKENS` nodes, so that is never more than 3.6 MB; one of more lines takes more room as it grows. Returns `Err` only if
/// memory runs out.
fn room_for_lines(alloc: Global, body: &Body) -> Result<Vec<Line>, AllocError>
    ensures none { IfOk result (λ lines. lines.items ≡ []) }
    ensures room { IfOk result (λ lines. vec_capacity lines ≡ 8 * tree_size body.now + 16) }
{
    Vec::with_capacity(alloc, 8 * body.len() as usize + 16)
}

/// The code of the method of these formals, whose body the setting has. Returns `Err` only if memory runs out.
fn method_code<'a>(
    setting: &CodeSetting<'a>,
    formals: &'a [Formal],
    consts: &mut Consts,
) -> Result<FeatureCode<'a>, AllocError>
    requires sound { IsSound setting.now }
    requires has { HasMethod setting.now.table.now (User setting.now.class setting.now.feature) }
    requires few { length formals.now < 2 ^ 28 }
    requires types { HasTypesIn setting.now (scope_of (with_formals setting.now.table.now formals.now (attributes_in setting.now.table.now setting.now.class))) }
    requires places { IsTreeWithin (length setting.now.names.now) setting.now.body.now }
    requires room { HasRoom consts.old 0 (tree_size setting.now.body.now) }
    ensures made { MakesCode setting.now (λ g. method_code (context setting.now) g formals.now setting.now.body.now) (λ g. map (shown (context setting.now) g) (method_spans length (context setting.now) g formals.now 0 setting.now.body.now)) (with_formals setting.now.table.now formals.now (attributes_in setting.now.table.now setting.now.class)) consts.old consts.new result }
{
    let alloc = setting.alloc;
    let method = MethodRef::User {
        owner: setting.class,
        index: setting.feature,
    };
    let label = method_label(alloc, setting.table, method)?;
    let mut variables = attribute_variables(alloc, setting.table, setting.layout, setting.class)?;
    formal_variables(setting, &mut variables, formals)?;
    let mut lines = room_for_lines(alloc, setting.body)?;
    write(alloc, &mut lines, &mark(&label))?;
    write(alloc, &mut lines, &enter())?;
    let mut code = body_code(setting, variables, consts, lines)?;
    let taken = signed(12 + 4 * formals.len() as u32);
    write(alloc, &mut code.lines, &leave(taken))?;
    Ok(code)
}

/// The part of an initializer for the attribute whose initial value the setting has. Returns `Err` only if memory runs out.
fn initial_value_code<'a>(
    setting: &CodeSetting<'a>,
    consts: &mut Consts,
) -> Result<FeatureCode<'a>, AllocError>
    requires sound { IsSound setting.now }
    requires there { Contains (attributes setting.now.table.now setting.now.class) (attribute_of setting.now) }
    requires types { HasTypesIn setting.now (scope_of (attributes_in setting.now.table.now setting.now.class)) }
    requires places { IsTreeWithin (length setting.now.names.now) setting.now.body.now }
    requires room { HasRoom consts.old 0 (tree_size setting.now.body.now) }
    ensures made { MakesCode setting.now (λ g. initial_value_code (context setting.now) g (Some setting.now.body.now)) (λ g. map (shown (context setting.now) g) (initial_value_spans length (context setting.now) g 0 (Some setting.now.body.now))) (attributes_in setting.now.table.now setting.now.class) consts.old consts.new result }
{
    let alloc = setting.alloc;
    let attribute = AttributeRef {
        owner: setting.class,
        index: setting.feature,
    };
    let variables = attribute_variables(alloc, setting.table, setting.layout, setting.class)?;
    let lines = room_for_lines(alloc, setting.body)?;
    let mut code = body_code(setting, variables, consts, lines)?;
    let offset = setting.offset(attribute);
    write(alloc, &mut code.lines, &store(offset, S0))?;
    Ok(code)
}
