//! Writes the debug information of a program: the addresses of its features and expressions, and the names in scope there.

ghost use Rattle.std.specs.Prelude.{◌≡◌, ◌+◌, ◌++◌, ◌<◌, ◌≤◌, ◌^◌, ◌∷◌, [], codes, flat_map, get_or, length, map, slice_get, string_bytes, take, IfOk, List, OnOk, Some};
ghost use Rattle.std.specs.List.{AllByRecursion};
ghost use Rattle.mips_isa.specs.Lines.{line_of, lines_of};
ghost use Rattle.cool_syntax.specs.declared.file_tree.Feature as syntax;
ghost use Rattle.cool_classes.specs.Chains.{features_of};
ghost use Rattle.cool_rules.specs.Fits.{Fits};
ghost use Rattle.cool_runtime.specs.Standing.{size, sizes};
ghost use Rattle.cool_layout.specs.Preorder.{numbers_from};
ghost use Rattle.cool_codegen.specs.Features.{feature_names};
ghost use Rattle.cool_codegen.specs.Shown.{shown_of};
ghost use Rattle.cool_codegen.specs.Variables.{Named};
ghost use Rattle.cool_emit.specs.Additions.{files_of, part_of, IsSound};
ghost use Rattle.cool_emit.specs.CodeTables.{class_rows, code_row, head_rows};
ghost use Rattle.cool_emit.specs.FileNames.{AreShortNames};
ghost use Rattle.cool_emit.specs.Programs.{class_code, initializer_code, placed_code};
ghost use Rattle.cool_emit.specs.SpansOfPrograms.{context_of};
ghost use Rattle.cool_emit.specs.TableLines.{named_text, row_line, table_text};
ghost use Rattle.cool_emit.specs.Tellings.{addresses, constants, TellsClass, TellsFeatures, TellsInitializer};

use crate::emission::{Emission, Part};
use crate::initializer::{BASIC_CLASSES, add_basic, add_begin, add_end};
use crate::row::{class_line, code_line, feature_line, named_line};
use cool_classes::ClassId;
use cool_codegen::{FeatureCode, Span, Variable, attribute_variables, feature_code};
use cool_consts::Consts;
use cool_layout::Layout;
use cool_rules::{Scope, TypedProgram};
use cool_runtime::routines;
use cool_syntax::Feature;
use mips_asm::words_of_statement;
use mips_isa::{Line, TEXT_START};
use std::alloc::{AllocError, Global};

/// The table so far.
#[derive(Drop)]
pub(crate) struct Told {
    /// Its lines.
    pub(crate) text: Vec<u8>,
    /// The address behind the code of which they tell.
    pub(crate) address: u32,
}

/// The table of code of a program whose files have these names: for each feature and each expression between which addresses its code stands, and which
/// names are in scope. Returns `Err` only if memory runs out.
pub fn table(alloc: Global, p: &TypedProgram, names: &[String]) -> Result<Vec<u8>, AllocError>
    requires fits { Fits p.now (length names.now) }
    requires names { AreShortNames (map string_bytes names.now) }
    ensures { IfOk result (λ text. text.items ≡ table_text p.now (map string_bytes names.now)) }
{
    let layout = Layout::new(alloc, p.table())?;
    let emission = Emission {
        alloc,
        program: p,
        layout: &layout,
        names,
    };
    table_of(&emission)
}

/// The table of the code of a program. Returns `Err` only if memory runs out.
fn table_of(emission: &Emission<'_>) -> Result<Vec<u8>, AllocError>
    requires sound { IsSound emission.now }
    ensures { IfOk result (λ text. text.items ≡ table_text emission.now.program.now (files_of emission.now)) }
{
    let mut told = Told {
        text: classes_text(emission)?,
        address: TEXT_START,
    };
    told.pass(&routines(emission.alloc)?);
    for number in 0..emission.table().count() {
        told.add_class(emission, ClassId(number))?;
    }
    Ok(told.text)
}

/// The lines of the classes and the attributes of their objects. Returns `Err` only if memory runs out.
fn classes_text(emission: &Emission<'_>) -> Result<Vec<u8>, AllocError>
    requires sound { IsSound emission.now }
    ensures { IfOk result (λ text. text.items ≡ flat_map (row_line emission.now.program.now) (flat_map (class_rows emission.now.program.now) (numbers_from 0 (length emission.now.program.now)))) }
{
    let mut text = Vec::new(emission.alloc);
    for number in 0..emission.table().count() {
        text.extend_from_slice(&class_text(emission, ClassId(number))?)?;
    }
    Ok(text)
}

/// The lines of a class and the attributes of its objects. Returns `Err` only if memory runs out.
fn class_text(emission: &Emission<'_>, c: ClassId) -> Result<Vec<u8>, AllocError>
    requires sound { IsSound emission.now }
    requires class { c.0 < length emission.now.program.now }
    ensures { IfOk result (λ text. text.items ≡ flat_map (row_line emission.now.program.now) (class_rows emission.now.program.now c)) }
{
    let alloc = emission.alloc;
    let table = emission.table();
    let attributes = attribute_variables(alloc, table, emission.layout, c)?;
    let count = attributes.count();
    let mut text = class_line(alloc, table, c)?;
    text.extend_from_slice(&names_text(emission, b"attribute ", attributes, count)?)?;
    Ok(text)
}

/// The lines of so many names, the latest first, behind these words. Returns `Err` only if memory runs out.
fn names_text(
    emission: &Emission<'_>,
    words: &[u8],
    mut names: Scope<'_, Variable>,
    count: usize,
) -> Result<Vec<u8>, AllocError>
    requires few { count ≤ length names }
    ensures { IfOk result (λ text. text.items ≡ flat_map (λ v. words.now ++ (named_text emission.now.program.now v ++ codes "\n")) (take count names.entry)) }
{
    let mut text = Vec::new(emission.alloc);
    for number in 0..count {
        add_name(emission, words, &mut names, &mut text)?;
    }
    Ok(text)
}

/// Adds the line of the latest of names behind these words, and takes it out. Returns `Err` only if memory runs out.
fn add_name(
    emission: &Emission<'_>,
    words: &[u8],
    names: &mut Scope<'_, Variable>,
    text: &mut Vec<u8>,
) -> Result<(), AllocError>
    ensures { OnOk result ((v : Named) (vs : List Named) → names.old ≡ v ∷ vs
        → (names.new ≡ vs) × (text.new.items ≡ text.old.items ++ (words.now ++ (named_text emission.now.program.now v ++ codes "\n")))) }
{
    match names.latest() {
        Some(entry) => {
            let line = named_line(emission.alloc, emission.table(), words, &entry)?;
            text.extend_from_slice(&line)?;
            names.leave();
            Ok(())
        }
        None => Ok(()),
    }
}

impl Told {
    /// Passes code of which nothing is told.
    fn pass(&mut self, lines: &[Line])
        requires room { self.old.address + sizes (lines_of lines.now) < 2 ^ 32 }
        ensures address { self.new.address ≡ self.old.address + sizes (lines_of lines.now) }
        ensures text { self.new.text ≡ self.old.text }
    {
        for line in lines {
            self.address = behind(self.address, line);
        }
    }

    /// Tells of the code of a class. Returns `Err` only if memory runs out.
    fn add_class(&mut self, emission: &Emission<'_>, c: ClassId) -> Result<(), AllocError>
        requires sound { IsSound emission.now }
        requires class { c.0 < length emission.now.program.now }
        requires room { self.old.address + sizes (class_code emission.now.program.now (files_of emission.now) (constants emission.now) c) < 2 ^ 32 }
        ensures { OnOk result (TellsClass emission.now c self.old self.new) }
    {
        self.add_initializer(emission, c)?;
        self.add_features(emission, c, Part::Methods)
    }

    /// Tells of the initializer of a class. Returns `Err` only if memory runs out.
    fn add_initializer(&mut self, emission: &Emission<'_>, c: ClassId) -> Result<(), AllocError>
        requires sound { IsSound emission.now }
        requires class { c.0 < length emission.now.program.now }
        requires room { self.old.address + sizes (initializer_code emission.now.program.now (files_of emission.now) (constants emission.now) c) < 2 ^ 32 }
        ensures { OnOk result (TellsInitializer emission.now c self.old self.new) }
    {
        let mut lines = Vec::new(emission.alloc);
        if c.0 < BASIC_CLASSES {
            add_basic(emission, c, &mut lines)?;
            self.pass(&lines);
            return Ok(());
        }
        add_begin(emission, c, &mut lines)?;
        self.pass(&lines);
        self.add_features(emission, c, Part::Attributes)?;
        let mut lines = Vec::new(emission.alloc);
        add_end(emission.alloc, &mut lines)?;
        self.pass(&lines);
        Ok(())
    }

    /// Tells of the features of a class that belong to a part. Returns `Err` only if memory runs out.
    fn add_features(
        &mut self,
        emission: &Emission<'_>,
        c: ClassId,
        part: Part,
    ) -> Result<(), AllocError>
        requires sound { IsSound emission.now }
        requires class { c.0 < length emission.now.program.now }
        requires room { self.old.address + sizes (flat_map (placed_code emission.now.program.now (files_of emission.now) (constants emission.now) c) (part_of part emission.now.program.now c)) < 2 ^ 32 }
        ensures { OnOk result (TellsFeatures emission.now c (part_of part emission.now.program.now c) self.old self.new) }
    {
        let features = emission.table().features(c);
        for index in 0..features.len() {
            if part.has(&features[index]) {
                self.add_feature(emission, c, index as u32)?;
            }
        }
        Ok(())
    }

    /// Tells of a feature and its expressions. Returns `Err` only if memory runs out.
    fn add_feature(
        &mut self,
        emission: &Emission<'_>,
        c: ClassId,
        feature: u32,
    ) -> Result<(), AllocError>
        requires sound { IsSound emission.now }
        requires class { c.0 < length emission.now.program.now }
        requires feature { feature < length (features_of emission.now.program.now c) }
        requires room { (x : syntax.Feature) → slice_get (features_of emission.now.program.now c) feature ≡ Some x
            → self.old.address + sizes (placed_code emission.now.program.now (files_of emission.now) (constants emission.now) c (record { place = feature; feature = x })) < 2 ^ 32 }
        ensures { (x : syntax.Feature) → slice_get (features_of emission.now.program.now c) feature ≡ Some x
            → OnOk result (TellsFeatures emission.now c (record { place = feature; feature = x } ∷ []) self.old self.new) }
    {
        let alloc = emission.alloc;
        let mut consts = Consts::new(alloc);
        let code = feature_code(
            alloc,
            emission.program,
            emission.layout,
            &mut consts,
            emission.names,
            c,
            feature,
        )?;
        let FeatureCode {
            lines,
            spans,
            names,
        } = code;
        let addresses = addresses(alloc, self.address, &lines)?;
        let to = address_at(&addresses, lines.len());
        let head = head_text(emission, c, feature, names, self.address, to)?;
        self.text.extend_from_slice(&head)?;
        self.add_spans(emission, &addresses, &spans)?;
        self.address = to;
        Ok(())
    }

    /// Tells of expressions, where these are the addresses of lines. Returns `Err` only if memory runs out.
    fn add_spans(
        &mut self,
        emission: &Emission<'_>,
        addresses: &[u32],
        spans: &[Span<'_>],
    ) -> Result<(), AllocError>
        requires within { AllByRecursion (λ x. (x.from < length addresses.now) × (x.to < length addresses.now)) (map shown_of spans.now) }
        ensures address { self.new.address ≡ self.old.address }
        ensures text { OnOk result (self.new.text.items ≡ self.old.text.items
            ++ flat_map (λ x. row_line emission.now.program.now (code_row (get_or addresses.now x.from 0) (get_or addresses.now x.to 0) x)) (map shown_of spans.now)) }
    {
        for span in spans {
            let from = address_at(addresses, span.from);
            let to = address_at(addresses, span.to);
            let line = code_line(emission.alloc, emission.table(), from, to, span)?;
            self.text.extend_from_slice(&line)?;
        }
        Ok(())
    }
}

/// The lines of a feature whose code stands between these addresses. Returns `Err` only if memory runs out.
fn head_text(
    emission: &Emission<'_>,
    c: ClassId,
    feature: u32,
    names: Scope<'_, Variable>,
    from: u32,
    to: u32,
) -> Result<Vec<u8>, AllocError>
    requires class { c.0 < length emission.now.program.now }
    requires feature { feature < length (features_of emission.now.program.now c) }
    requires names { (x : syntax.Feature) → slice_get (features_of emission.now.program.now c) feature ≡ Some x → names ≡ feature_names (context_of emission.now.program.now (files_of emission.now) c feature) x }
    ensures { (x : syntax.Feature) → slice_get (features_of emission.now.program.now c) feature ≡ Some x
        → IfOk result (λ text. text.items ≡ flat_map (row_line emission.now.program.now) (head_rows emission.now.program.now from to x)) }
{
    let alloc = emission.alloc;
    match &emission.table().features(c)[feature as usize] {
        Feature::Method(method) => {
            let mut text = feature_line(alloc, b"method ", from, to, method.name.as_slice())?;
            text.extend_from_slice(&names_text(
                emission,
                b"formal ",
                names,
                method.formals.as_slice().len(),
            )?)?;
            Ok(text)
        }
        Feature::Attribute(attribute) => {
            if attribute.init.is_some() {
                feature_line(alloc, b"initial ", from, to, attribute.name.as_slice())
            } else {
                Ok(Vec::new(alloc))
            }
        }
    }
}

/// The address of each of these lines, of which the first has this one, and the address behind them. Returns `Err` only if memory runs out.
fn addresses(alloc: Global, first: u32, lines: &[Line]) -> Result<Vec<u32>, AllocError>
    requires room { first + sizes (lines_of lines.now) < 2 ^ 32 }
    ensures { IfOk result (λ all. all.items ≡ addresses first (lines_of lines.now)) }
{
    let mut address = first;
    let mut all = vec![in alloc; first]?;
    for line in lines {
        address = behind(address, line);
        all.push(address)?;
    }
    Ok(all)
}

/// The address of a line, or the one behind the last.
fn address_at(addresses: &[u32], number: usize) -> u32
    requires { number < length addresses.now }
    ensures { result ≡ get_or addresses.now number 0 }
{
    addresses[number]
}

/// The address behind a line.
fn behind(address: u32, line: &Line) -> u32
    requires room { address + size (line_of line.now) < 2 ^ 32 }
    ensures { result ≡ address + size (line_of line.now) }
{
    address + 4 * words_of_statement(&line.statement)
}
