//! Candidate fixes replace declarations and statements in the style of Java, C or Python by forms of Cool that mean the same.

use crate::candidate::{Candidates, Reason, Splice};
use crate::definition::is_class;
use crate::hint::Hint;
use crate::kind::{Kind, is_name, is_one_of, kind_of};
use crate::lexeme::{Lexeme, line_length, part};
use crate::names::BASIC_METHODS;
use crate::signs::{NAMES, TYPES};
use std::alloc::AllocError;

/// The signs behind the name in a declaration `int x = 5;`, `int x <- 5;` or `int x;`.
static BEHIND_VARIABLES: [&str; 3] = ["=", "<-", ";"];

/// The signs in front of the value of a variable.
static BEFORE_VALUES: [&str; 2] = ["=", "<-"];

/// The words of other languages in front of the type in a declaration.
static MODIFIERS: [&str; 7] = [
    "const",
    "final",
    "static",
    "public",
    "private",
    "protected",
    "readonly",
];

/// The words of other languages in front of the name in a declaration without a type.
static UNTYPED: [&str; 4] = ["var", "val", "let", "auto"];

/// The most such words, and the most variables of a declaration.
const MOST_MODIFIERS: usize = 4;

const MOST_VARIABLES: usize = 8;

/// The most arguments of a call without parentheses.
const MOST_APPLIED: usize = 8;

/// The comparisons, which are not joined.
static COMPARISONS: [&str; 3] = ["<", "<=", "="];

/// Names of the object whose method is called.
static OWN: [&str; 2] = ["self", "this"];

/// The signs behind a statement.
static BEHIND_STATEMENTS: [&str; 2] = [";", "}"];

/// The words that begin a line which brings in another file.
static IMPORTS: [&str; 4] = ["import", "include", "package", "using"];

/// The signs in front of a formal.
static BEFORE_FORMALS: [&str; 2] = ["(", ","];

/// The signs in front of a feature.
pub(crate) static BEFORE_FEATURES: [&str; 2] = ["{", ";"];

/// The signs and words in front of a statement or a feature.
static BEFORE_STATEMENTS: [&str; 6] = ["{", ";", "in", "const", "final", "static"];

/// The methods that print.
static PRINTING: [&str; 2] = ["out_string", "out_int"];

/// The number of lexemes in front of a semicolon among which its `let` is looked for.
const LOOKED_FOR_LET: usize = 60;

/// The most lexemes of an import that are looked at.
const LOOKED_FOR_IMPORT: usize = 12;

impl<'a> Candidates<'a> {
    /// Adds the candidates for a fault of lexemes or syntax at a position.
    pub(crate) fn add_statements(&mut self, index: usize) -> Result<(), AllocError> {
        self.add_local(index)?;
        self.add_local(index.saturating_sub(1))?;
        self.add_variables(index)?;
        self.add_variables(index.saturating_sub(2))?;
        self.add_variables(index.saturating_sub(1))?;
        self.add_let_statement(index)?;
        self.add_method(index)?;
        self.add_method(index.saturating_sub(1))?;
        self.add_counted(index)?;
        self.add_counted_down(index)?;
        self.add_called(index)?;
        self.add_own(index)?;
        self.add_chained(index)?;
        self.add_printed(index)?;
        self.add_streamed(index)?;
        self.add_missing_end(index)?;
        self.add_import(index)
    }

    /// No `self` as a formal; the type of a branch for all other values; the end of a class in front of the next one.
    fn add_missing_end(&mut self, index: usize) -> Result<(), AllocError> {
        let word = self.word(index);
        let last = self.before(index, 1);
        if word == b",".as_slice() && self.text(last) == b"self".as_slice() {
            let said = Reason::Hinted(Hint::SelfIsNoFormal);
            let end = self.lexeme(index.saturating_add(1)).start;
            return self.put(said, last.start, end, b"");
        }
        if kind_of(word) == Kind::Type && self.word(index.saturating_add(1)) == b"=>".as_slice() {
            let start = self.lexeme(index).start;
            return self.put(Reason::Hinted(Hint::BranchType), start, start, b"it : ");
        }
        if word == b"=>".as_slice() {
            let said = Reason::Hinted(Hint::BranchType);
            return self.put(said, last.end, last.end, b" : Object");
        }
        if is_class(word) {
            return self.put(Reason::Edit, last.end, last.end, b"\n};");
        }
        Ok(())
    }

    /// `int x = 5; ..` in a block as `let x : Int <- 5 in { .. };`, and elsewhere as `x : Int <- 5`.
    fn add_local(&mut self, index: usize) -> Result<(), AllocError> {
        let class = self.lexeme(index);
        let name = self.lexeme(index.saturating_add(1));
        let sign = index.saturating_add(2);
        let is_one = matches!(kind_of(self.text(class)), Kind::Object | Kind::Type)
            && kind_of(self.text(name)) == Kind::Object;
        if !is_one || !is_one_of(&BEHIND_VARIABLES, self.word(sign)) || self.is_untyped(index) {
            return Ok(());
        }
        let ty = self.cool_type(index)?;
        let has_value = self.word(sign) != b";".as_slice();
        let end = if has_value {
            self.lexeme(sign).end
        } else {
            name.end
        };
        let given: &'static [u8] = if has_value { b" <-" } else { b"" };
        let text = self.declared_as(self.text(name), &ty, given)?;
        let semicolon = self.expression_end(sign);
        let close = self.block_end(semicolon.saturating_add(1));
        if self.word(semicolon) == b";".as_slice() && self.word(close) == b"}".as_slice() {
            let mut let_text = Vec::from_slice(self.alloc, b"let ")?;
            let_text.extend_from_slice(&text)?;
            let first = self.splice(class.start, end, &let_text)?;
            self.put_let(first, self.lexeme(semicolon), self.lexeme(close).start)?;
        }
        let said = Reason::Hinted(Hint::TypeAfterName);
        self.put(said, class.start, end, &text)
    }

    /// `int x = 5, y;` as `let x : Int <- 5, y : Int in { .. };` in a block, and as `x : Int <- 5; y : Int;` in a class, also behind words as `const`. A
    /// name in capital letters gets small ones, wherever the file has it.
    fn add_variables(&mut self, index: usize) -> Result<(), AllocError> {
        let mut class = index;
        for _ in 0..MOST_MODIFIERS {
            if is_one_of(&MODIFIERS, self.word(class)) && !self.is_untyped(class) {
                class = class.saturating_add(1);
            }
        }
        let start = self.modified_start(class);
        let (several, semicolon) = self.variables(class, b", ")?;
        let is_plain = start == class
            && !self.is_untyped(class)
            && self.variables_count(class, semicolon) < 2;
        if several.is_empty()
            || (is_plain && kind_of(self.word(class.saturating_add(1))) != Kind::Type)
        {
            return Ok(());
        }
        let close = self.block_end(semicolon.saturating_add(1));
        let end = self.lexeme(semicolon).end;
        let text = self.joined(&[b"let ", &several, b" in {"])?;
        let first = self.splice(self.lexeme(start).start, end, &text)?;
        if self.word(close) == b"}".as_slice() {
            let byte = self.lexeme(close).start;
            let last = self.splice(byte, byte, b"}; ")?;
            self.put_renamed(Hint::DeclareByLet, class, first, semicolon, Some(last))?;
        }
        let (features, _) = self.variables(class, b"; ")?;
        let text = self.joined(&[&features, b";"])?;
        let first = self.splice(self.lexeme(start).start, end, &text)?;
        let hint = self.modifier_hint(start, class);
        self.put_renamed(hint, class, first, semicolon, None)
    }

    /// The hint on a declaration of an attribute whose first word and type stand at these positions.
    fn modifier_hint(&self, start: usize, class: usize) -> Hint {
        if start == class {
            return Hint::TypeAfterName;
        }
        match self.word(start) {
            b"public" | b"private" | b"protected" => Hint::NoAccessModifiers,
            _ => Hint::NoModifiers,
        }
    }

    /// Whether a declaration without a type begins at a position, as `var x = 5`.
    pub(crate) fn is_untyped(&self, index: usize) -> bool {
        let word = self.word(index);
        (is_one_of(&UNTYPED, word) || is_one_of(&MODIFIERS, word))
            && kind_of(self.word(index.saturating_add(1))) == Kind::Object
            && is_one_of(&BEFORE_VALUES, self.word(index.saturating_add(2)))
    }

    /// The position of the first of the words such as `const` in front of a position.
    fn modified_start(&self, index: usize) -> usize {
        let mut start = index;
        for _ in 0..MOST_MODIFIERS {
            if is_one_of(&MODIFIERS, self.word_before(start, 1)) {
                start = start.saturating_sub(1);
            }
        }
        start
    }

    /// The variables that are declared in C's way behind the type at a position, with a text between two, and the position of the semicolon behind them;
    /// no text if there is no such declaration.
    fn variables(&self, index: usize, between: &[u8]) -> Result<(Vec<u8>, usize), AllocError> {
        let mut text = Vec::new(self.alloc);
        let none = Vec::new(self.alloc);
        let mut name = index.saturating_add(1);
        let ty = self.variable_type(index)?;
        if ty.is_empty() {
            return Ok((none, index));
        }
        for _ in 0..MOST_VARIABLES {
            let sign = name.saturating_add(1);
            let has_value = is_one_of(&BEFORE_VALUES, self.word(sign));
            let end = if has_value {
                self.expression_end(sign)
            } else {
                sign
            };
            if !is_name(self.word(name)) {
                return Ok((none, index));
            }
            let given: &'static [u8] = if has_value { b" <- " } else { b"" };
            let small = self.small_name(name)?;
            text.extend_from_slice(&self.declared_as(&small, &ty, given)?)?;
            if has_value {
                text.extend_from_slice(self.between(sign.saturating_add(1), end))?;
            }
            match self.word(end) {
                b";" => return Ok((text, end)),
                b"," => text.extend_from_slice(between)?,
                _ => return Ok((none, index)),
            }
            name = end.saturating_add(1);
        }
        Ok((none, index))
    }

    /// The type of the variables of a declaration in C's way with its type, or a word such as `var`, at a position; nothing if there is none.
    fn variable_type(&self, index: usize) -> Result<Vec<u8>, AllocError> {
        let start = self.modified_start(index);
        if !is_one_of(&BEFORE_FEATURES, self.word_before(start, 1)) {
            return Ok(Vec::new(self.alloc));
        }
        if self.is_untyped(index) {
            let value = index.saturating_add(3);
            return Vec::from_slice(self.alloc, self.type_of_value(value));
        }
        let is_name = is_name(self.word(index));
        if is_name && (start < index || self.names_type(index)) {
            return self.cool_type(index);
        }
        Ok(Vec::new(self.alloc))
    }

    /// The number of variables that are declared between two positions, at most.
    fn variables_count(&self, index: usize, semicolon: usize) -> usize {
        let mut many: usize = 1;
        for there in index..semicolon {
            many = many.saturating_add(usize::from(self.word(there) == b",".as_slice()));
        }
        many
    }

    /// The name at a position as that of a variable: in small letters if it has only capital ones, else with a small one first.
    fn small_name(&self, index: usize) -> Result<Vec<u8>, AllocError> {
        let mut text = Vec::from_slice(self.alloc, self.word(index))?;
        let mut is_capital = true;
        for byte in text.iter() {
            is_capital = is_capital && !matches!(*byte, b'a'..=b'z');
        }
        if is_capital {
            text.make_ascii_lowercase();
        } else if let Some(first) = text.first_mut() {
            *first = first.to_ascii_lowercase();
        }
        Ok(text)
    }

    /// Adds one with a declaration behind a type at a position, and its names in small letters up to the last splice.
    fn put_renamed(
        &mut self,
        hint: Hint,
        class: usize,
        first: Splice,
        semicolon: usize,
        last: Option<Splice>,
    ) -> Result<(), AllocError> {
        let name = class.saturating_add(1);
        let old = self.word(name);
        let mut splices = vec![in self.alloc; first]?;
        if kind_of(old) == Kind::Type {
            let new = self.small_name(name)?;
            if self.has_word(&new) {
                return Ok(());
            }
            let end = match &last {
                Some(splice) => splice.start,
                None => self.bytes.len(),
            };
            for there in semicolon.saturating_add(1)..self.lexemes.len() {
                let here = self.lexeme(there);
                if self.text(here) == old && here.end <= end {
                    splices.push(self.splice(here.start, here.end, &new)?)?;
                }
            }
        }
        if let Some(splice) = last {
            splices.push(splice)?;
        }
        self.add(Reason::Hinted(hint), splices)
    }

    /// Whether a word stands in the text.
    pub(crate) fn has_word(&self, word: &[u8]) -> bool {
        for index in 0..self.lexemes.len() {
            if self.word(index) == word {
                return true;
            }
        }
        false
    }

    /// The head of a `let`, ` in {` in the place of the semicolon behind it, and `}` in front of the brace that begins at a byte.
    fn put_let(
        &mut self,
        first: Splice,
        semicolon: Lexeme,
        close: usize,
    ) -> Result<(), AllocError> {
        let said = Reason::Hinted(Hint::DeclareByLet);
        let second = self.splice(semicolon.start, semicolon.end, b" in {")?;
        let third = self.splice(close, close, b"}; ")?;
        self.put_three(said, first, second, third)
    }

    /// `let x : T <- a; ..` in a block as `let x : T <- a in { .. };`, where the semicolon stands at a position, if more than the next expression uses the
    /// name.
    fn add_let_statement(&mut self, index: usize) -> Result<(), AllocError> {
        let close = self.block_end(index);
        let is_one = self.word(index) == b";".as_slice() && self.word(close) == b"}".as_slice();
        let Some(start) = self.let_before(index) else {
            return Ok(());
        };
        if !is_one || !self.is_used_later(start.saturating_add(1), index, close) {
            return Ok(());
        }
        let semicolon = self.lexeme(index);
        let byte = self.lexeme(close).start;
        let first = self.splice(semicolon.start, semicolon.end, b" in {")?;
        let second = self.splice(byte, byte, b"}; ")?;
        self.put_two(Reason::Hinted(Hint::DeclareByLet), first, second)
    }

    /// The position of the `let` with which the statement in front of the semicolon at a position begins, if it has no `in`.
    fn let_before(&self, index: usize) -> Option<usize> {
        for back in 1..LOOKED_FOR_LET {
            match self.word_before(index, back) {
                b"let" => {
                    let before = self.word_before(index, back.saturating_add(1));
                    let there = index.checked_sub(back)?;
                    return if is_one_of(&BEFORE_FEATURES, before) {
                        Some(there)
                    } else {
                        None
                    };
                }
                b";" | b"{" | b"in" | b"" => return None,
                _ => {}
            }
        }
        None
    }

    /// Whether the name at a position stands behind the expression that follows the semicolon at another position, in front of the end of the block.
    fn is_used_later(&self, name: usize, semicolon: usize, close: usize) -> bool {
        let word = self.word(name);
        for there in self.expression_end(semicolon.saturating_add(1))..close {
            if self.word(there) == word {
                return true;
            }
        }
        false
    }

    /// A name, its type, and the sign in front of its value.
    fn declared_as(&self, name: &[u8], ty: &[u8], given: &[u8]) -> Result<Vec<u8>, AllocError> {
        let mut text = Vec::from_slice(self.alloc, name)?;
        text.extend_from_slice(b" : ")?;
        text.extend_from_slice(ty)?;
        text.extend_from_slice(given)?;
        Ok(text)
    }

    /// The type of Cool for the one at a position.
    fn cool_type(&self, index: usize) -> Result<Vec<u8>, AllocError> {
        let word = self.word(index);
        for (other, ours) in &TYPES {
            if other.as_bytes() == word {
                return Vec::from_slice(self.alloc, ours.as_bytes());
            }
        }
        let mut text = Vec::from_slice(self.alloc, word)?;
        if let Some(first) = text.first_mut() {
            *first = first.to_ascii_uppercase();
        }
        Ok(text)
    }

    /// `++n` as `n <- n + 1`.
    fn add_counted(&mut self, index: usize) -> Result<(), AllocError> {
        let name = self.lexeme(index.saturating_add(2));
        let word = self.text(name);
        if self.word(index) == b"+".as_slice()
            && self.word(index.saturating_add(1)) == b"+".as_slice()
            && kind_of(word) == Kind::Object
        {
            let text = self.joined(&[word, b" <- ", word, b" + 1"])?;
            let said = Reason::Hinted(Hint::NoIncrement);
            self.put(said, self.lexeme(index).start, name.end, &text)?;
        }
        Ok(())
    }

    /// `n--` as `n <- n - 1`, where `--` begins a comment up to the end of the line.
    fn add_counted_down(&mut self, index: usize) -> Result<(), AllocError> {
        let last = self.before(index, 1);
        let word = self.text(last);
        let behind = part(self.bytes, last.end, self.bytes.len());
        if kind_of(word) == Kind::Object && matches!(behind, [b'-', b'-', ..]) {
            let text = self.joined(&[word, b" <- ", word, b" - 1;"])?;
            let said = Reason::Hinted(Hint::NoDecrement);
            let end = last.end.saturating_add(line_length(behind));
            self.put(said, last.start, end, &text)?;
        }
        Ok(())
    }

    /// `f x` as `f(x)`.
    fn add_called(&mut self, index: usize) -> Result<(), AllocError> {
        let last = self.before(index, 1);
        let here = self.lexeme(index);
        let is_operand = matches!(
            kind_of(self.text(here)),
            Kind::Object | Kind::Number | Kind::String
        );
        if kind_of(self.text(last)) != Kind::Object || !is_operand {
            return Ok(());
        }
        let end = self.before(self.expression_end(index), 1).end;
        for (other, ours) in &NAMES {
            if other.as_bytes() == self.text(last) && is_one_of(&PRINTING, ours.as_bytes()) {
                let text = self.joined(&[ours.as_bytes(), b"("])?;
                let first = self.splice(last.start, here.start, &text)?;
                let second = self.splice(end, end, b")")?;
                self.put_two(Reason::Hinted(Hint::PrintingMethods), first, second)?;
            }
        }
        if !self.is_method(self.text(last)) {
            return Ok(());
        }
        self.put_applied(index)?;
        let first = self.splice(last.end, here.start, b"(")?;
        let second = self.splice(end, end, b")")?;
        let said = Reason::Hinted(Hint::ArgumentsInParentheses);
        self.put_two(said, first, second)
    }

    /// `f a b` as `f(a, b)`, where the first argument stands at a position.
    fn put_applied(&mut self, index: usize) -> Result<(), AllocError> {
        let open = self.splice(self.before(index, 1).end, self.lexeme(index).start, b"(")?;
        let mut splices = vec![in self.alloc; open]?;
        let mut behind = self.operand_end(index);
        for _ in 1..MOST_APPLIED {
            if kind_of(self.word(behind)) != Kind::Fixed {
                let start = self.before(behind, 1).end;
                splices.push(self.splice(start, self.lexeme(behind).start, b", ")?)?;
                behind = self.operand_end(behind);
            }
        }
        let end = self.before(behind, 1).end;
        splices.push(self.splice(end, end, b")")?)?;
        self.add(Reason::Hinted(Hint::ArgumentsInParentheses), splices)
    }

    /// Whether a word names a method: one of a basic class, or one that the text has.
    fn is_method(&self, word: &[u8]) -> bool {
        if is_one_of(&BASIC_METHODS, word) {
            return true;
        }
        for index in 0..self.lexemes.len() {
            if self.word(index) == word && self.word(index.saturating_add(1)) == b"(".as_slice() {
                return true;
            }
        }
        false
    }

    /// `self.x` and `this.x` as `x`.
    fn add_own(&mut self, index: usize) -> Result<(), AllocError> {
        let object = self.before(index, 3);
        let name = self.word_before(index, 1);
        // The value is a variable of that name, which hides the attribute.
        let is_hidden = self.word(index.saturating_add(1)) == name
            && is_one_of(&BEHIND_STATEMENTS, self.word(index.saturating_add(2)));
        if !is_hidden
            && self.word_before(index, 2) == b".".as_slice()
            && is_one_of(&OWN, self.text(object))
        {
            let said = Reason::Hinted(Hint::AttributeAlone);
            if self.is_statement(index) && self.word(index) == b"=".as_slice() {
                let sign = self.lexeme(index);
                let name_start = self.before(index, 1).start;
                let first = self.splice(object.start, name_start, b"")?;
                let second = self.splice(sign.start, sign.end, b"<-")?;
                return self.put_two(said, first, second);
            }
            self.put(said, object.start, self.before(index, 1).start, b"")?;
        }
        Ok(())
    }

    /// `a < b < c` as `if a < b then b < c else false fi`.
    fn add_chained(&mut self, index: usize) -> Result<(), AllocError> {
        if !is_one_of(&COMPARISONS, self.word(index)) {
            return Ok(());
        }
        let start = self.expression_start(index);
        let middle = self.operand_start(index);
        if middle <= start || !is_one_of(&COMPARISONS, self.word_before(middle, 1)) {
            return Ok(());
        }
        let end = self.expression_end(index);
        let text = self.joined(&[
            b"if ",
            self.between(start, index),
            b" then ",
            self.between(middle, end),
            b" else false fi",
        ])?;
        let said = Reason::Hinted(Hint::NoChainedComparison);
        let from = self.lexeme(start).start;
        self.put(said, from, self.before(end, 1).end, &text)
    }

    /// `System.out.println(..)` as `out_string(..)`.
    fn add_printed(&mut self, index: usize) -> Result<(), AllocError> {
        let start = self.lexeme(index);
        let last = index.saturating_add(4);
        let is_one = self.text(start) == b"System".as_slice()
            && self.word(last.saturating_add(1)) == b"(".as_slice();
        if !is_one {
            return Ok(());
        }
        for name in &PRINTING {
            let said = Reason::Hinted(Hint::PrintingMethods);
            self.put(said, start.start, self.lexeme(last).end, name.as_bytes())?;
        }
        Ok(())
    }

    /// `cout << a << b` as `out_string(a).out_int(b)`, where the second part of the first `<<` stands at a position.
    fn add_streamed(&mut self, index: usize) -> Result<(), AllocError> {
        let first = index.saturating_sub(2);
        if self.word(first) != b"cout".as_slice() || !self.is_shift(index) {
            return Ok(());
        }
        let end = self.expression_end(index);
        let mut text = Vec::new(self.alloc);
        let mut start = index.saturating_add(1);
        for there in start..end.saturating_add(1) {
            if there == end || self.is_shift(there.saturating_add(1)) {
                if !text.is_empty() {
                    text.push(b'.')?;
                }
                text.extend_from_slice(&self.printed(start, there)?)?;
                start = there.saturating_add(2);
            }
        }
        let said = Reason::Hinted(Hint::PrintingMethods);
        self.put(
            said,
            self.lexeme(first).start,
            self.before(end, 1).end,
            &text,
        )
    }

    /// Whether the second part of a `<<` stands at a position.
    fn is_shift(&self, index: usize) -> bool {
        self.is_other_sign(index)
            && self.word(index) == b"<".as_slice()
            && self.word_before(index, 1) == b"<".as_slice()
    }

    /// The call that prints the expression between two positions.
    fn printed(&self, start: usize, end: usize) -> Result<Vec<u8>, AllocError> {
        let word = self.word(start);
        if word == b"endl".as_slice() {
            return Vec::from_slice(self.alloc, b"out_string(\"\\n\")");
        }
        let is_text = match self.type_of_name(word, start) {
            Some(declared) => self.text(declared) == b"String".as_slice(),
            None => kind_of(word) == Kind::String,
        };
        let mut text = Vec::from_slice(
            self.alloc,
            if is_text { b"out_string" } else { b"out_int" },
        )?;
        text.push(b'(')?;
        text.extend_from_slice(self.between(start, end))?;
        text.push(b')')?;
        Ok(text)
    }

    /// No `import ..;` at the head of a file.
    fn add_import(&mut self, index: usize) -> Result<(), AllocError> {
        if self.begins_import(index) {
            let start = self.lexeme(index).start;
            let line = line_length(part(self.bytes, start, self.bytes.len()));
            let end = start.saturating_add(line);
            return self.put(Reason::Hinted(Hint::NoImport), start, end, b"");
        }
        if !is_one_of(&IMPORTS, self.word(index)) {
            return Ok(());
        }
        for there in index..index.saturating_add(LOOKED_FOR_IMPORT) {
            if self.word(there) == b";".as_slice() {
                let said = Reason::Hinted(Hint::NoImport);
                return self.put(said, self.lexeme(index).start, self.lexeme(there).end, b"");
            }
        }
        Ok(())
    }

    /// Whether `#include` stands at a position.
    pub(crate) fn begins_import(&self, index: usize) -> bool {
        let next = self.lexeme(index.saturating_add(1));
        self.word(index) == b"#".as_slice()
            && self.lexeme(index).end == next.start
            && is_one_of(&IMPORTS, self.text(next))
    }

    /// `T f(T a, T b)` as `f(a : T, b : T) : T`.
    fn add_method(&mut self, index: usize) -> Result<(), AllocError> {
        let class = self.lexeme(index);
        let name = self.lexeme(index.saturating_add(1));
        let open = index.saturating_add(2);
        let is_one = self.names_type(index)
            && kind_of(self.text(name)) == Kind::Object
            && self.word(open) == b"(".as_slice();
        let Some(close) = self.closing(open) else {
            return Ok(());
        };
        if !is_one || self.word(close.saturating_add(1)) != b"{".as_slice() {
            return Ok(());
        }
        let mut text = Vec::from_slice(self.alloc, self.text(name))?;
        text.extend_from_slice(b"(")?;
        self.add_cool_formals(&mut text, open, close)?;
        text.extend_from_slice(b") : ")?;
        text.extend_from_slice(&self.cool_type(index)?)?;
        let said = Reason::Hinted(Hint::TypesOfMethod);
        self.put(said, class.start, self.lexeme(close).end, &text)
    }

    /// Adds the formals `T a, T b` between two positions as `a : T, b : T`.
    fn add_cool_formals(
        &self,
        text: &mut Vec<u8>,
        open: usize,
        close: usize,
    ) -> Result<(), AllocError> {
        for there in open.saturating_add(1)..close {
            if is_one_of(&BEFORE_FORMALS, self.word_before(there, 1)) {
                let ty = self.cool_type(there)?;
                let formal = self.declared_as(self.word(there.saturating_add(1)), &ty, b"")?;
                text.extend_from_slice(&formal)?;
            } else if self.word(there) == b",".as_slice() {
                text.extend_from_slice(b", ")?;
            }
        }
        Ok(())
    }

    /// Whether a declaration in Java's or C's way stands at a position or in front of it: a type, a name, and a sign.
    pub(crate) fn is_declaration(&self, index: usize) -> bool {
        for there in [index, index.saturating_sub(1)] {
            let sign = self.word(there.saturating_add(2));
            if self.names_type(there)
                && kind_of(self.word(there.saturating_add(1))) == Kind::Object
                && (is_one_of(&BEHIND_VARIABLES, sign) || sign == b",".as_slice())
            {
                return true;
            }
        }
        false
    }

    /// Whether the name of a type stands at a position, also one of another language.
    fn names_type(&self, index: usize) -> bool {
        let word = self.word(index);
        for (other, _) in &TYPES {
            if other.as_bytes() == word {
                return true;
            }
        }
        let before = self.word_before(index, 1);
        kind_of(word) == Kind::Type && is_one_of(&BEFORE_STATEMENTS, before)
    }

    /// Whether the type of a cast `(T) x` stands at a position, or the value behind it.
    pub(crate) fn is_cast(&self, index: usize) -> bool {
        let is_value = kind_of(self.word(index)) != Kind::Fixed
            && self.word_before(index, 1) == b")".as_slice()
            && kind_of(self.word_before(index, 2)) == Kind::Type
            && self.word_before(index, 3) == b"(".as_slice();
        let is_type = kind_of(self.word(index)) == Kind::Type
            && self.word_before(index, 1) == b"(".as_slice()
            && self.word(index.saturating_add(1)) == b")".as_slice();
        is_value || is_type
    }

    /// Whether a method with the name of its class begins at a position.
    pub(crate) fn is_constructor(&self, index: usize) -> bool {
        let is_method = kind_of(self.word(index)) == Kind::Type
            && self.word(index.saturating_add(1)) == b"(".as_slice()
            && is_one_of(&BEFORE_FEATURES, self.word_before(index, 1));
        match self.class_before(index) {
            Some(class) => is_method && self.word(class.saturating_add(1)) == self.word(index),
            None => false,
        }
    }
}
