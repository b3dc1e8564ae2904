//! `tree_lines` writes the syntax trees of files: a line for each class, feature, formal parameter and node.

ghost use Rattle.std.specs.Prelude.{◌≡◌, ℕ, List, ◌+◌, ◌++◌, ◌<◌, ◌≤◌, ◌^◌, IfOk, IfSome, OnOk, flat_map, length, Some};
ghost use Rattle.std.specs.Option.{option_map};
ghost use Rattle.cool_syntax.specs.declared.TheConstants.{MOST_FILES, MOST_SOURCE_BYTES};
ghost use Rattle.cool_syntax.specs.declared.file_tree.ClassDef.{ClassDef};
ghost use Rattle.cool_syntax.specs.declared.token.Token.{Token};
ghost use Rattle.cool_syntax.specs.Grammar.{Parses};
ghost use Rattle.cool_syntax.specs.LexicalStructure.{Lexes, place_at};
ghost use Rattle.cool_syntax.specs.NodeLists.{nodes};
ghost use Rattle.cool_syntax.specs.TokenFacts.{AreRising, weights};
ghost use Rattle.cool_syntax.specs.Tree.{tree_size};
ghost use Rattle.cool_extents.specs.FoundExtents.{found_extents};
ghost use Rattle.cool_faults.specs.Files.{bytes_of, total};
ghost use Rattle.cool_listings.specs.Columns.{column_seen, FitsBody, FitsClass, FitsClasses, FitsFeature, FitsInit, IsAdded, IsOfFiles};
ghost use Rattle.cool_listings.specs.NodeTexts.{node_place};
ghost use Rattle.cool_listings.specs.TreeLines.{AreTreesOf, IsTreesText, body_text, class_text, classes_text, feature_text, formal_line, init_text, node_line, parent_text, places_text, static_text};

use crate::node_text::{form_text, head_line, part_text};
use crate::tokens::{fault_line, lex_word};
use cool_classes::{ClassId, ClassTable};
use cool_emit::{place_text, type_text};
use cool_extents::{Extent, extents, law_extents_found};
use cool_faults::{Verdict, accept};
use cool_lexer::{LexError, Lexed, lex};
use cool_parser::{ParseError, parse};
use cool_rules::{NodeTypes, TypedProgram};
use cool_syntax::{Body, ClassDef, Feature, Formal, Node, NodeId, Place, Token, TypeRef};
use std::alloc::{AllocError, Global};

/// The number of the first class that a program defines: the basic ones stand before it.
const FIRST_CLASS: u32 = 5;

/// The types of the nodes of an expression of a program.
#[derive(Clone, Copy)]
pub(crate) struct Column<'a> {
    pub(crate) table: &'a ClassTable,
    pub(crate) types: &'a NodeTypes,
}

/// The lines of trees so far, and the number that the next class has in the program.
#[derive(Drop)]
struct Told {
    text: Vec<u8>,
    number: u32,
}

/// The lines of the trees of files, with types where they are a program: for each file its classes, or the fault because of which it has none. Returns
/// `Err` only if memory runs out.
pub fn tree_lines(alloc: Global, files: &[Vec<u8>]) -> Result<Vec<u8>, AllocError>
    requires few { length files.now ≤ MOST_FILES }
    requires small { total (bytes_of files.now) ≤ MOST_SOURCE_BYTES }
    ensures { IfOk result (λ text. IsTreesText (bytes_of files.now) text.items) }
{
    match accept(alloc, files)? {
        Verdict::Accepted(program) => files_text(alloc, Some(&program), files),
        Verdict::Refused(_) => files_text(alloc, None, files),
    }
}

/// The lines of the trees of files. Returns `Err` only if memory runs out.
fn files_text(
    alloc: Global,
    program: Option<&TypedProgram>,
    files: &[Vec<u8>],
) -> Result<Vec<u8>, AllocError>
    requires few { length files.now ≤ MOST_FILES }
    requires small { total (bytes_of files.now) ≤ MOST_SOURCE_BYTES }
    requires program { IsOfFiles (option_map (λ p. p.now) program) (bytes_of files.now) }
    ensures { IfOk result (λ text. AreTreesOf (option_map (λ p. p.now) program.entry) 0 5 (bytes_of files.now) text.items) }
{
    let mut told = Told {
        text: Vec::new(alloc),
        number: FIRST_CLASS,
    };
    for (index, file) in files.iter().enumerate() {
        told.add_file(alloc, program, index as u32, file.as_slice())?;
    }
    Ok(told.text)
}

impl Told {
    /// Adds the lines of the file of this number. Returns `Err` only if memory runs out.
    fn add_file(
        &mut self,
        alloc: Global,
        program: Option<&TypedProgram>,
        file: u32,
        bytes: &[u8],
    ) -> Result<(), AllocError>
        requires small { length bytes.now ≤ MOST_SOURCE_BYTES }
        requires few { self.old.number + length bytes.now < 2 ^ 32 }
        requires fits { (tokens : List Token) → (classes : List ClassDef) → Lexes file bytes.now tokens → Parses tokens classes → FitsClasses (option_map (λ p. p.now) program) self.old.number classes }
        ensures added { OnOk result (IsAdded (option_map (λ p. p.now) program.entry) file bytes.now self.old.number self.new.number self.old.text.items self.new.text.items) }
        ensures number { (tokens : List Token) → (classes : List ClassDef) → Lexes file bytes.now tokens → Parses tokens classes → OnOk result (self.new.number ≡ self.old.number + length classes) }
        ensures few { OnOk result (self.new.number ≤ self.old.number + length bytes.now) }
    {
        match lex(alloc, file, bytes) {
            Ok(lexed) => self.add_tree(alloc, program, file, &lexed),
            Err(LexError::Fault(fault)) => self.add(&fault_line(
                alloc,
                fault.at,
                lex_word(fault.kind),
            )?),
            Err(LexError::Memory) => Err(AllocError),
        }
    }

    /// Adds the lines of the tree of these tokens. Returns `Err` only if memory runs out.
    fn add_tree(
        &mut self,
        alloc: Global,
        program: Option<&TypedProgram>,
        file: u32,
        lexed: &Lexed,
    ) -> Result<(), AllocError>
        requires small { length lexed.now.tokens.items ≤ MOST_SOURCE_BYTES }
        requires rising { AreRising file 0 lexed.now.tokens.items }
        requires few { self.old.number + weights lexed.now.tokens.items < 2 ^ 32 }
        requires fits { (classes : List ClassDef) → Parses lexed.now.tokens.items classes → FitsClasses (option_map (λ p. p.now) program) self.old.number classes }
        ensures added { (bytes : List ℕ) → Lexes file bytes lexed.now.tokens.items → lexed.now.end ≡ place_at file bytes (length bytes) → OnOk result (IsAdded (option_map (λ p. p.now) program.entry) file bytes self.old.number self.new.number self.old.text.items self.new.text.items) }
        ensures number { (classes : List ClassDef) → Parses lexed.now.tokens.items classes → OnOk result (self.new.number ≡ self.old.number + length classes) }
        ensures few { OnOk result (self.new.number ≤ self.old.number + weights lexed.now.tokens.items) }
    {
        law_extents_found();
        let tokens = lexed.tokens.as_slice();
        match parse(alloc, file, tokens, lexed.end) {
            Ok(tree) => self.add_classes(alloc, program, tokens, tree.classes.as_slice()),
            Err(ParseError::Fault(fault)) => self.add(&fault_line(alloc, fault.at, b"S1")?),
            Err(ParseError::Memory) => Err(AllocError),
        }
    }

    /// Adds the lines of classes of these tokens. Returns `Err` only if memory runs out.
    fn add_classes(
        &mut self,
        alloc: Global,
        program: Option<&TypedProgram>,
        tokens: &[Token],
        classes: &[ClassDef],
    ) -> Result<(), AllocError>
        requires rising { (file : ℕ) × AreRising file 0 tokens.now }
        requires fits { FitsClasses (option_map (λ p. p.now) program) self.old.number classes.now }
        requires few { self.old.number + length classes.now < 2 ^ 32 }
        ensures text { OnOk result (self.new.text.items ≡ self.old.text.items ++ classes_text (option_map (λ p. p.now) program.entry) (found_extents tokens.now) self.old.number classes.now) }
        ensures number { OnOk result (self.new.number ≡ self.old.number + length classes.now) }
    {
        for class in classes {
            self.text
                .extend_from_slice(&class_text(alloc, program, tokens, self.number, class)?)?;
            self.number += 1;
        }
        Ok(())
    }

    /// Adds a text.
    fn add(&mut self, text: &[u8]) -> Result<(), AllocError>
        ensures text { OnOk result (self.new.text.items ≡ self.old.text.items ++ text.now) }
        ensures number { self.new.number ≡ self.old.number }
    {
        self.text.extend_from_slice(text)?;
        Ok(())
    }
}

/// The lines of the class of this number. Returns `Err` only if memory runs out.
fn class_text(
    alloc: Global,
    program: Option<&TypedProgram>,
    tokens: &[Token],
    number: u32,
    class: &ClassDef,
) -> Result<Vec<u8>, AllocError>
    requires rising { (file : ℕ) × AreRising file 0 tokens.now }
    requires fits { FitsClass (option_map (λ p. p.now) program) number class.now }
    ensures { IfOk result (λ text. text.items ≡ class_text (option_map (λ p. p.now) program.entry) (found_extents tokens.now) number class.now) }
{
    let mut text = head_line(
        alloc,
        b"class",
        class.at,
        class.name.as_slice(),
        parent_text(&class.parent),
    )?;
    let features = class.features.as_slice();
    for index in 0..features.len() {
        let column = match program {
            Some(program) => Some(Column {
                table: program.table(),
                types: program.types(ClassId(number), index as u32),
            }),
            None => None,
        };
        text.extend_from_slice(&feature_text(alloc, column, tokens, &features[index])?)?;
    }
    Ok(text)
}

/// The class that a class names as its parent.
fn parent_text(parent: &Option<TypeRef>) -> &[u8]
    ensures { result.now ≡ parent_text parent.now }
{
    match parent {
        Some(parent) => parent.name.as_slice(),
        None => b"-",
    }
}

/// The lines of a feature. Returns `Err` only if memory runs out.
fn feature_text(
    alloc: Global,
    column: Option<Column<'_>>,
    tokens: &[Token],
    feature: &Feature,
) -> Result<Vec<u8>, AllocError>
    requires rising { (file : ℕ) × AreRising file 0 tokens.now }
    requires fits { FitsFeature column feature.now }
    ensures { IfOk result (λ text. text.items ≡ feature_text (column_seen column.entry) (found_extents tokens.now) feature.now) }
{
    match feature {
        Feature::Method(method) => {
            let result = method.result.name.as_slice();
            let mut text = head_line(alloc, b"method", method.at, method.name.as_slice(), result)?;
            text.extend_from_slice(&formals_text(alloc, method.formals.as_slice())?)?;
            text.extend_from_slice(&body_text(alloc, column, tokens, &method.body)?)?;
            Ok(text)
        }
        Feature::Attribute(attribute) => {
            let declared = attribute.declared.name.as_slice();
            let name = attribute.name.as_slice();
            let mut text = head_line(alloc, b"attribute", attribute.at, name, declared)?;
            text.extend_from_slice(&init_text(alloc, column, tokens, &attribute.init)?)?;
            Ok(text)
        }
    }
}

/// The lines of formals. Returns `Err` only if memory runs out.
fn formals_text(alloc: Global, formals: &[Formal]) -> Result<Vec<u8>, AllocError>
    ensures { IfOk result (λ text. text.items ≡ flat_map formal_line formals.now) }
{
    let mut text = Vec::new(alloc);
    for formal in formals {
        text.extend_from_slice(&formal_line(alloc, formal)?)?;
    }
    Ok(text)
}

/// The line of a formal. Returns `Err` only if memory runs out.
fn formal_line(alloc: Global, formal: &Formal) -> Result<Vec<u8>, AllocError>
    ensures { IfOk result (λ line. line.items ≡ formal_line formal.now) }
{
    let declared = formal.declared.name.as_slice();
    head_line(
        alloc,
        b"formal",
        formal.at,
        formal.name.as_slice(),
        declared,
    )
}

/// The lines of an initial value, where there is one. Returns `Err` only if memory runs out.
fn init_text(
    alloc: Global,
    column: Option<Column<'_>>,
    tokens: &[Token],
    init: &Option<Body>,
) -> Result<Vec<u8>, AllocError>
    requires rising { (file : ℕ) × AreRising file 0 tokens.now }
    requires fits { FitsInit column init.now }
    ensures { IfOk result (λ text. text.items ≡ init_text (column_seen column.entry) (found_extents tokens.now) init.now) }
{
    match init {
        Some(body) => body_text(alloc, column, tokens, body),
        None => Ok(Vec::new(alloc)),
    }
}

/// The lines of the nodes of an expression of these tokens. Returns `Err` only if memory runs out.
fn body_text(
    alloc: Global,
    column: Option<Column<'_>>,
    tokens: &[Token],
    body: &Body,
) -> Result<Vec<u8>, AllocError>
    requires rising { (file : ℕ) × AreRising file 0 tokens.now }
    requires fits { FitsBody column body.now }
    ensures { IfOk result (λ text. text.items ≡ body_text (column_seen column.entry) (found_extents tokens.now) body.now) }
{
    let extents = extents(alloc, tokens, body)?;
    let mut text = Vec::new(alloc);
    for number in 0..body.len() {
        let id = NodeId(number);
        let node = body.node(id);
        let extent = extents[number as usize];
        text.extend_from_slice(&node_line(alloc, column, id, extent, node)?)?;
    }
    Ok(text)
}

/// The line of the node of this number. Returns `Err` only if memory runs out.
fn node_line(
    alloc: Global,
    column: Option<Column<'_>>,
    id: NodeId,
    extent: Extent,
    node: &Node,
) -> Result<Vec<u8>, AllocError>
    requires below { IfSome column (λ c. id.0 < length c.types.now) }
    ensures { IfOk result (λ line. line.items ≡ node_line (column_seen column.entry) id.0 extent node.now) }
{
    let mut line = Vec::from_slice(alloc, b"node ")?;
    line.extend_from_slice(&places_text(alloc, extent, node)?)?;
    line.extend_from_slice(&part_text(alloc, id)?)?;
    line.extend_from_slice(b" ")?;
    line.extend_from_slice(static_text(column, id))?;
    line.extend_from_slice(b" ")?;
    line.extend_from_slice(&form_text(alloc, node)?)?;
    line.extend_from_slice(b"\n")?;
    Ok(line)
}

/// The places of a node: its own, and those of the first and of the last token of its expression. Returns `Err` only if memory runs out.
fn places_text(alloc: Global, extent: Extent, node: &Node) -> Result<Vec<u8>, AllocError>
    ensures { IfOk result (λ text. text.items ≡ places_text extent node.now) }
{
    let mut text = place_text(alloc, node_place(node))?;
    text.extend_from_slice(b" ")?;
    text.extend_from_slice(&place_text(alloc, extent.first)?)?;
    text.extend_from_slice(b" ")?;
    text.extend_from_slice(&place_text(alloc, extent.last)?)?;
    Ok(text)
}

/// The place of a node.
fn node_place(node: &Node) -> Place
    ensures { result ≡ node_place node.now }
{
    node.place()
}

/// The static type of a node, or `?` where none is told.
fn static_text<'a>(column: Option<Column<'a>>, id: NodeId) -> &'a [u8]
    requires below { IfSome column (λ c. id.0 < length c.types.now) }
    ensures { result.now ≡ static_text (column_seen column.entry) id.0 }
{
    match column {
        Some(column) => type_text(column.table, column.types.get(id)),
        None => b"?",
    }
}
