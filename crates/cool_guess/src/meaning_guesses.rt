//! Candidate fixes for errors of classes, features and types are guessed from the lexemes around the error and from the names in all files.

use crate::candidate::{Candidate, Candidates, Reason};
use crate::definition::{is_class, parent_around};
use crate::excerpt::Program;
use crate::hint::Hint;
use crate::kind::{Kind, is_constant, is_number, is_one_of, is_type_name, kind_of};
use crate::lexeme::Lexeme;
use crate::names::{BASIC_CLASSES, MOST_NAMES, class_names, names_near, type_name};
use crate::nearness::{are_near, distance};
use crate::signs::{NAMES, TYPES};
use crate::silly::is_foreign_word;
use crate::source::Source;
use cool_check::{TypeFault, TypeKind};
use cool_classes::{ClassKind, OBJECT, Ty};
use cool_faults::Fault;
use std::alloc::{AllocError, Global};

/// The names of other languages for void.
static VOIDS: [&str; 6] = ["null", "nil", "NULL", "void", "None", "nullptr"];

/// Methods by which other languages compare.
static COMPARING: [&str; 3] = ["equals", "compareTo", "eq"];

/// Methods that give or take a constant, each with that of the other type.
static COUNTERPARTS: [(&str, &str); 4] = [
    ("in_string", "in_int"),
    ("in_int", "in_string"),
    ("out_string", "out_int"),
    ("out_int", "out_string"),
];

/// The methods that take a constant.
static WRITING: [&str; 2] = ["out_string", "out_int"];

/// The words in front of a variable of a `let`.
static BEFORE_VARIABLES: [&str; 2] = ["let", ","];

/// The lexemes of expressions that may do something, with those that close them.
static ACTING: [&str; 6] = ["(", ")", "{", "}", "<-", "new"];

/// The constants of Bool.
static TRUTHS: [&str; 2] = ["true", "false"];

/// The words behind the second operand of a sum.
static BEHIND_SUMS: [&str; 8] = [")", "+", ";", ",", "}", "fi", "then", "in"];

/// The number of lexemes in front of an argument among which the method that prints it is looked for.
const LOOKED_FOR_WRITING: usize = 9;

/// The number of lexemes of a declaration that are looked at.
const LOOKED_ALONG: usize = 64;

/// The number of lexemes in front of a name among which a `let` of it is looked for.
const LOOKED_FOR_LET: usize = 400;

/// The candidates for a fault of classes, features or typing at a position of the changed file of a program, the likeliest first. Returns `Err` only if
/// memory runs out.
pub fn meaning_candidates(
    alloc: Global,
    program: Program<'_>,
    fault: &Fault,
    index: usize,
) -> Result<Vec<Candidate>, AllocError> {
    let mut found = Candidates::new(alloc, program.here.bytes, &program.here.lexemes);
    match fault {
        Fault::Class(fault) => found.add_for_class(program.sources, fault.kind, index)?,
        Fault::Typing(fault) => found.add_for_typing(program, fault, index)?,
        _ => {}
    }
    let Candidates { all, .. } = found;
    Ok(all)
}

impl<'a> Candidates<'a> {
    /// Adds the candidates for a fault of classes or features of this kind at a position.
    fn add_for_class(
        &mut self,
        sources: &[Source<'_>],
        kind: ClassKind,
        index: usize,
    ) -> Result<(), AllocError> {
        match kind {
            ClassKind::C3 => self.add_near_after(sources, index, 4),
            ClassKind::C2 | ClassKind::C4 | ClassKind::C5 => {
                self.add_near_after(sources, index, 4)?;
                self.add_parents(index)
            }
            ClassKind::C6 => self.add_main_class(),
            ClassKind::F2 => self.add_no_attribute(sources, index),
            ClassKind::F5 => self.add_own_class(index),
            ClassKind::F6 => self.add_near_after(sources, index, 1),
            ClassKind::F7 => self.add_all_declared(sources, index),
            ClassKind::F8 => self.add_main_method(index),
            _ => Ok(()),
        }
    }

    /// Adds the candidates for a fault of typing at a position.
    fn add_for_typing(
        &mut self,
        program: Program<'_>,
        fault: &TypeFault,
        index: usize,
    ) -> Result<(), AllocError> {
        let sources = program.sources;
        match fault.kind {
            TypeKind::E1 => {
                self.add_unknown(index)?;
                self.add_call(sources, index)?;
                self.add_near(sources, index)?;
                if !self.add_body_of_let(index)? {
                    self.add_attribute(program, index)?;
                }
                self.add_parted(index, 0)
            }
            TypeKind::E4 => {
                self.add_heir(index)?;
                self.add_calls(index)?;
                self.add_near(sources, index)?;
                self.add_parted(index, 0)
            }
            TypeKind::E5 => self.add_arguments(index),
            TypeKind::E11 => self.add_near_after(sources, index, 1),
            TypeKind::E7 | TypeKind::E12 => self.add_own_class(index),
            TypeKind::E8 => {
                self.add_near_after(sources, index, 1)?;
                self.add_types(sources, self.lexeme(index))
            }
            _ => self.add_for_value(sources, fault, index),
        }
    }

    /// Candidates for a value whose type does not fit.
    fn add_for_value(
        &mut self,
        sources: &[Source<'_>],
        fault: &TypeFault,
        index: usize,
    ) -> Result<(), AllocError> {
        match fault.kind {
            TypeKind::E14 | TypeKind::E15 | TypeKind::E16 => {
                self.add_joined(index)?;
                self.add_operands(index)?;
                self.add_constants(index.saturating_sub(2), 5)?;
                self.add_near(sources, index)
            }
            TypeKind::E9 => {
                self.add_compared(index)?;
                self.add_constants(index, 8)
            }
            TypeKind::E3 | TypeKind::E6 => {
                self.add_constants(index, 8)?;
                self.add_found(sources, fault, index)
            }
            TypeKind::E17 | TypeKind::E18 => {
                self.add_constants(index, 24)?;
                self.add_found(sources, fault, index)
            }
            _ => Ok(()),
        }
    }

    /// Int as the declared type of a name beside a sign.
    fn add_operands(&mut self, index: usize) -> Result<(), AllocError> {
        for there in [index.saturating_sub(1), index, index.saturating_add(1)] {
            let word = self.word(there);
            if kind_of(word) == Kind::Object {
                if let Some(declared) = self.type_of_name(word, there) {
                    let said = Reason::Hinted(Hint::NumbersOnly);
                    self.put_at(said, declared, b"Int")?;
                }
            }
        }
        Ok(())
    }

    /// `a = null` as `isvoid a`, and `super` as `self@Parent`.
    fn add_unknown(&mut self, index: usize) -> Result<(), AllocError> {
        let here = self.lexeme(index);
        let word = self.text(here);
        if is_one_of(&VOIDS, word) && self.word_before(index, 1) == b"=".as_slice() {
            let sign = index.saturating_sub(1);
            let start = self.operand_start(sign);
            let text = self.joined(&[b"isvoid ", self.between(start, sign)])?;
            let said = Reason::Hinted(Hint::NoNull);
            return self.put(said, self.lexeme(start).start, here.end, &text);
        }
        if word == b"super".as_slice() {
            let parent = parent_around(self.bytes, self.lexemes, index);
            let text = self.joined(&[b"self@", parent])?;
            let said = Reason::Hinted(Hint::NoSuper);
            return self.put_at(said, here, &text);
        }
        Ok(())
    }

    /// `f` as `f()`, where a class has a method of that name without formals.
    fn add_call(&mut self, sources: &[Source<'_>], index: usize) -> Result<(), AllocError> {
        let here = self.lexeme(index);
        let word = self.text(here);
        for source in sources {
            let around = Candidates::new(self.alloc, source.bytes, &source.lexemes);
            for there in 0..source.lexemes.len() {
                let is_method = around.word(there) == word
                    && around.word(there.saturating_add(1)) == b"(".as_slice()
                    && around.word(there.saturating_add(2)) == b")".as_slice()
                    && around.word(there.saturating_add(3)) == b":".as_slice();
                if is_method {
                    let said = Reason::Hinted(Hint::CallWithParentheses);
                    return self.put(said, here.end, here.end, b"()");
                }
            }
        }
        Ok(())
    }

    /// Braces around the rest of the block as the body of a `let` that declares the name at a position; whether there is such a `let` in the class.
    fn add_body_of_let(&mut self, index: usize) -> Result<bool, AllocError> {
        let name = self.word(index);
        for back in 1..index.min(LOOKED_FOR_LET).saturating_add(1) {
            let there = index.saturating_sub(back);
            if is_class(self.word(there)) {
                return Ok(false);
            }
            let is_let = self.word(there) == name
                && self.word(there.saturating_add(1)) == b":".as_slice()
                && is_one_of(&BEFORE_VARIABLES, self.word_before(there, 1));
            if is_let {
                self.put_body_of_let(there, index)?;
                return Ok(true);
            }
        }
        Ok(false)
    }

    /// Braces from the first `in` behind a position up to the end of the block in which a later position stands.
    fn put_body_of_let(&mut self, start: usize, index: usize) -> Result<(), AllocError> {
        for there in start..index {
            if self.word(there) == b"in".as_slice() {
                let close = self.block_end(index);
                if close < self.lexemes.len() {
                    let open = self.lexeme(there).end;
                    let close = self.lexeme(close).start;
                    let first = self.splice(open, open, b" {")?;
                    let second = self.splice(close, close, b"}; ")?;
                    let said = Reason::Hinted(Hint::BodyOfLet);
                    self.put_two(said, first, second)?;
                }
                return Ok(());
            }
        }
        Ok(())
    }

    /// Whether several features of the class use the name at a position of a file and do not declare it, and no other language has a word like it.
    fn is_shared(&self, here: &Source<'_>, index: usize) -> bool {
        let word = self.word(index);
        if is_foreign_word(word) {
            return false;
        }
        let Some(class) = self.class_before(index) else {
            return false;
        };
        let at = self.lexeme(index).start;
        for there in class.saturating_add(1)..self.lexemes.len() {
            if is_class(self.word(there)) {
                return false;
            }
            let is_it = self.word(there) == word && self.word_before(there, 1) != b".".as_slice();
            let is_other = here.are_in_different_features(at, self.lexeme(there).start);
            if is_it && is_other && !self.is_declared_in(here, there) {
                return true;
            }
        }
        false
    }

    /// Whether the feature of a file in which a name stands at a position declares it, in front of that position or there.
    fn is_declared_in(&self, here: &Source<'_>, index: usize) -> bool {
        let at = self.lexeme(index).start;
        for back in 0..index.saturating_add(1) {
            let there = index.saturating_sub(back);
            if is_class(self.word(there)) {
                return false;
            }
            if here.are_in_different_features(at, self.lexeme(there).start) {
                return false;
            }
            let is_it = self.word(there) == self.word(index)
                && self.word(there.saturating_add(1)) == b":".as_slice();
            if is_it {
                return true;
            }
        }
        false
    }

    /// An attribute of this name, in front of the features of the class.
    fn add_attribute(&mut self, program: Program<'_>, index: usize) -> Result<(), AllocError> {
        if !self.is_shared(program.here, index) {
            return Ok(());
        }
        let Some(class) = self.class_before(index) else {
            return Ok(());
        };
        for open in [class.saturating_add(2), class.saturating_add(4)] {
            if self.word(open) == b"{".as_slice() {
                let at = self.lexeme(open).end;
                return self.put_attribute(program.sources, at, self.word(index));
            }
        }
        Ok(())
    }

    /// An attribute of this name at a byte, of each type.
    fn put_attribute(
        &mut self,
        sources: &[Source<'_>],
        at: usize,
        name: &[u8],
    ) -> Result<(), AllocError> {
        for class in ["Int", "String", "Bool"] {
            self.put_typed(at, name, class.as_bytes())?;
        }
        let classes = class_names(self.alloc, sources, MOST_NAMES)?;
        for class in classes.as_slice() {
            self.put_typed(at, name, class)?;
        }
        Ok(())
    }

    /// An attribute of this name and type at a byte.
    fn put_typed(&mut self, at: usize, name: &[u8], class: &[u8]) -> Result<(), AllocError> {
        let text = self.joined(&[b"\n  ", name, b" : ", class, b";"])?;
        self.put(Reason::Hinted(Hint::DeclareAttribute), at, at, &text)
    }

    /// `f(a)` as `a.f()`, and `a.equals(b)` as `a = b`.
    fn add_calls(&mut self, index: usize) -> Result<(), AllocError> {
        let here = self.lexeme(index);
        let open = index.saturating_add(1);
        let Some(close) = self.closing(open) else {
            return Ok(());
        };
        if self.text(here) == b"return".as_slice() {
            return self.put_at(Reason::Hinted(Hint::NoReturn), here, b"");
        }
        let behind = open.saturating_add(1);
        let given = self.between(behind, close);
        let end = self.lexeme(close).end;
        if self.word_before(index, 1) != b".".as_slice() {
            let text = self.joined(&[given, b".", self.text(here), b"()"])?;
            let said = Reason::Hinted(Hint::MethodAfterObject);
            return self.put(said, here.start, end, &text);
        }
        if is_one_of(&COMPARING, self.text(here)) {
            let text = self.joined(&[b" = ", given])?;
            let said = Reason::Hinted(Hint::NoMethodEquals);
            return self.put(said, self.before(index, 1).start, end, &text);
        }
        Ok(())
    }

    /// Fewer arguments of the call at a position, if those that go do nothing: without the last ones, without the first, and none.
    fn add_arguments(&mut self, index: usize) -> Result<(), AllocError> {
        let open = index.saturating_add(1);
        let Some(close) = self.closing(open) else {
            return Ok(());
        };
        let start = self.lexeme(open).end;
        let end = self.lexeme(close).start;
        let said = Reason::Hinted(Hint::ArgumentForEachFormal);
        let mut first = close;
        for back in 1..close.saturating_sub(open) {
            let comma = close.saturating_sub(back);
            if self.word(comma) == b",".as_slice() {
                first = comma;
                if !self.may_act(comma, close) {
                    self.put(said, self.lexeme(comma).start, end, b"")?;
                }
            }
        }
        if first < close && !self.may_act(open, first) {
            let second = self.lexeme(first.saturating_add(1)).start;
            self.put(said, start, second, b"")?;
        }
        if self.may_act(open, close) {
            return Ok(());
        }
        self.put(said, start, end, b"")
    }

    /// Whether the lexemes between two positions may do something: call, create or assign.
    fn may_act(&self, from: usize, to: usize) -> bool {
        for there in from.saturating_add(1)..to {
            if is_one_of(&ACTING, self.word(there)) {
                return true;
            }
        }
        false
    }

    /// A predicate that is a number, compared with 0; an assignment, as a comparison.
    fn add_compared(&mut self, index: usize) -> Result<(), AllocError> {
        let start = self.expression_start(index);
        let end = self.expression_end(index);
        for there in start..end {
            if self.word(there) == b"<-".as_slice() {
                let said = Reason::Hinted(Hint::EqualsCompares);
                self.put_at(said, self.lexeme(there), b"=")?;
            }
        }
        let from = self.lexeme(start).start;
        let to = self.before(end, 1).end;
        match self.between(start, end) {
            b"0" => return self.put(Reason::Hinted(Hint::TruthAsCondition), from, to, b"false"),
            b"1" => return self.put(Reason::Hinted(Hint::TruthAsCondition), from, to, b"true"),
            _ => {}
        }
        let first = self.splice(from, from, b"not ")?;
        let second = self.splice(to, to, b" = 0")?;
        self.put_two(Reason::Hinted(Hint::CompareWithZero), first, second)
    }

    /// The type that was found in the place of the declared one: of the variable, or else of the feature at a position.
    fn add_found(
        &mut self,
        sources: &[Source<'_>],
        fault: &TypeFault,
        index: usize,
    ) -> Result<(), AllocError> {
        let Some(found) = fault.found else {
            return Ok(());
        };
        // Object is the type of a `while`, and of branches of several types: it is not what is meant.
        if matches!(found, Ty::Class(OBJECT)) {
            return Ok(());
        }
        let name = type_name(self.alloc, sources, found)?;
        let said = Reason::Hinted(Hint::DeclaredType);
        if let Some(declared) = self.declared(fault.kind, index) {
            self.put_at(said, declared, &name)?;
        }
        Ok(())
    }

    /// The type in the declaration of the variable that is assigned at a position, or in the declaration that begins there.
    fn declared(&self, kind: TypeKind, index: usize) -> Option<Lexeme> {
        if kind != TypeKind::E3 {
            return self.type_behind(index);
        }
        let name = if self.word(index) == b"<-".as_slice() {
            self.word_before(index, 1)
        } else {
            self.word(index)
        };
        self.type_of_name(name, index)
    }

    /// The type behind the first colon outside of parentheses, from a position on.
    fn type_behind(&self, index: usize) -> Option<Lexeme> {
        let mut depth: usize = 0;
        for offset in 0..LOOKED_ALONG {
            let there = index.saturating_add(offset);
            match self.word(there) {
                b"(" => depth = depth.saturating_add(1),
                b")" => depth = depth.saturating_sub(1),
                b"{" | b"<-" | b";" => return None,
                b":" if depth == 0 => return Some(self.lexeme(there.saturating_add(1))),
                _ => {}
            }
        }
        None
    }

    /// Names near to the one at a position, and what Cool has for it.
    fn add_near(&mut self, sources: &[Source<'_>], index: usize) -> Result<(), AllocError> {
        let here = self.lexeme(index);
        let word = self.text(here);
        self.put_ours(here, &NAMES)?;
        self.put_ours(here, &TYPES)?;
        let names = names_near(self.alloc, sources, word)?;
        for apart in 0..4 {
            for name in names.as_slice() {
                if distance(word, name) == apart && self.all.len() < MOST_NAMES {
                    self.put_at(Reason::Edit, here, name)?;
                }
            }
        }
        Ok(())
    }

    /// The same for each type among so many lexemes from a position on.
    fn add_near_after(
        &mut self,
        sources: &[Source<'_>],
        index: usize,
        many: usize,
    ) -> Result<(), AllocError> {
        for offset in 0..many {
            let there = index.saturating_add(offset);
            if is_type_name(self.word(there)) {
                self.add_near(sources, there)?;
            }
        }
        Ok(())
    }

    /// The class around inherits from IO.
    fn add_heir(&mut self, index: usize) -> Result<(), AllocError> {
        let Some(class) = self.class_before(index) else {
            return Ok(());
        };
        if self.word(class.saturating_add(2)) == b"{".as_slice() {
            let name = self.lexeme(class.saturating_add(1));
            let said = Reason::Hinted(Hint::InheritFromIO);
            self.put(said, name.end, name.end, b" inherits IO")?;
        }
        Ok(())
    }

    /// A class near the fault inherits from Object, or from IO.
    fn add_parents(&mut self, index: usize) -> Result<(), AllocError> {
        for offset in 0..4 {
            let there = index.saturating_add(offset);
            if self.word_before(there, 1) == b"inherits".as_slice() {
                let parent = self.lexeme(there);
                let said = Reason::Hinted(Hint::InheritFromObject);
                self.put(said, self.before(there, 2).end, parent.end, b"")?;
                self.put_at(Reason::Edit, parent, b"IO")?;
                self.put_at(Reason::Edit, parent, b"Object")?;
            }
        }
        Ok(())
    }

    /// A class of a name near to it, or one that has a method main, is Main.
    fn add_main_class(&mut self) -> Result<(), AllocError> {
        let said = Reason::Hinted(Hint::ClassMain);
        let mut class = Lexeme { start: 0, end: 0 };
        for index in 1..self.lexemes.len() {
            let word = self.word(index);
            if is_class(self.word_before(index, 1)) {
                class = self.lexeme(index);
                if are_near(word, b"Main") || word == b"MAIN".as_slice() {
                    self.put_at(said, class, b"Main")?;
                }
            }
            let open = self.word(index.saturating_add(1));
            if word == b"main".as_slice()
                && open == b"(".as_slice()
                && self.all.len() < MOST_NAMES
            {
                self.put_at(said, class, b"Main")?;
            }
        }
        Ok(())
    }

    /// A method of Main is main, or has no formals.
    fn add_main_method(&mut self, index: usize) -> Result<(), AllocError> {
        for there in index..self.lexemes.len() {
            let name = self.lexeme(there);
            let open = there.saturating_add(1);
            if self.word(open) != b"(".as_slice() || self.all.len() >= MOST_NAMES {
                continue;
            }
            let word = self.text(name);
            if word == b"main".as_slice() {
                self.add_no_formals(open)?;
            } else if are_near(word, b"main") || word == b"Main".as_slice() {
                let said = Reason::Hinted(Hint::MethodMain);
                self.put_at(said, name, b"main")?;
            }
        }
        Ok(())
    }

    /// No formals between the parenthesis at a position and the next one.
    fn add_no_formals(&mut self, open: usize) -> Result<(), AllocError> {
        for later in open..open.saturating_add(LOOKED_ALONG) {
            if self.word(later) == b")".as_slice() {
                let start = self.lexeme(open).end;
                let end = self.lexeme(later).start;
                return self.put(Reason::Hinted(Hint::MainWithoutFormals), start, end, b"");
            }
        }
        Ok(())
    }

    /// No attribute at a position, where another one has its name and its type.
    fn add_no_attribute(&mut self, sources: &[Source<'_>], index: usize) -> Result<(), AllocError> {
        let name = self.word(index);
        let class = self.word(index.saturating_add(2));
        let mut many: usize = 0;
        for source in sources {
            let around = Candidates::new(self.alloc, source.bytes, &source.lexemes);
            for there in 0..source.lexemes.len() {
                let is_one = around.word(there) == name
                    && around.word(there.saturating_add(1)) == b":".as_slice()
                    && around.word(there.saturating_add(2)) == class;
                many = many.saturating_add(usize::from(is_one));
            }
        }
        if many < 2 {
            return Ok(());
        }
        let end = self.lexeme(self.expression_end(index)).end;
        let said = Reason::Hinted(Hint::InheritedAttribute);
        self.put(said, self.before(index, 1).end, end, b"")
    }

    /// The class around in the place of the type at a position.
    fn add_own_class(&mut self, index: usize) -> Result<(), AllocError> {
        let Some(class) = self.class_before(index) else {
            return Ok(());
        };
        let name = self.word(class.saturating_add(1));
        self.put_at(Reason::Edit, self.lexeme(index), name)
    }

    /// Other types for each formal, and for the result, of the method at a position.
    fn add_all_declared(&mut self, sources: &[Source<'_>], index: usize) -> Result<(), AllocError> {
        for offset in 0..LOOKED_ALONG {
            let there = index.saturating_add(offset);
            match self.word(there) {
                b"{" | b";" => return Ok(()),
                b":" => self.add_types(sources, self.lexeme(there.saturating_add(1)))?,
                _ => {}
            }
        }
        Ok(())
    }

    /// All types in the place of one, at most so many.
    fn add_types(&mut self, sources: &[Source<'_>], declared: Lexeme) -> Result<(), AllocError> {
        let said = Reason::Edit;
        self.put_each(said, declared, &BASIC_CLASSES)?;
        let names = class_names(self.alloc, sources, MOST_NAMES)?;
        for name in names.as_slice() {
            self.put_at(said, declared, name)?;
        }
        self.put_at(said, declared, b"SELF_TYPE")
    }

    /// Constants of the other type, and methods that take or give it, among so many lexemes from a position on and in front of it.
    fn add_constants(&mut self, index: usize, many: usize) -> Result<(), AllocError> {
        for offset in 0..many {
            let there = index.saturating_add(offset);
            if matches!(self.word(there), b";" | b"}") {
                break;
            }
            self.add_constant(there)?;
        }
        for back in 1..LOOKED_FOR_WRITING {
            if let Some(there) = index.checked_sub(back) {
                if is_one_of(&WRITING, self.word(there)) {
                    self.add_constant(there)?;
                }
            }
        }
        Ok(())
    }

    /// A constant of the other type, or a method that takes or gives it.
    fn add_constant(&mut self, index: usize) -> Result<(), AllocError> {
        let there = self.lexeme(index);
        let word = self.text(there);
        match word {
            [b'"', inner @ .., b'"'] if is_number(inner) => {
                let said = Reason::Hinted(Hint::NumberInQuotes);
                self.put_at(said, there, inner)
            }
            [b'"', inner @ .., b'"'] if is_one_of(&TRUTHS, inner) => {
                let said = Reason::Hinted(Hint::TruthInQuotes);
                self.put_at(said, there, inner)
            }
            [b'0'..=b'9', ..] => {
                let text = self.joined(&[b"\"", word, b"\""])?;
                self.put_at(Reason::Hinted(Hint::DoubleQuotes), there, &text)
            }
            _ => match counterpart(word) {
                Some(other) => self.put_at(Reason::Edit, there, other),
                None => Ok(()),
            },
        }
    }

    /// `a + b` as `a.concat(b)`.
    fn add_joined(&mut self, index: usize) -> Result<(), AllocError> {
        if self.word(index) != b"+".as_slice() {
            return Ok(());
        }
        let mut depth: usize = 0;
        for later in index.saturating_add(1)..self.lexemes.len() {
            let word = self.word(later);
            if depth == 0 && is_one_of(&BEHIND_SUMS, word) {
                return self.put_joined(index, later);
            }
            match word {
                b"(" => depth = depth.saturating_add(1),
                b")" => depth = depth.saturating_sub(1),
                _ => {}
            }
        }
        Ok(())
    }

    /// `.concat(` in the place of the sign at a position, and `)` in front of the lexeme at a later one.
    fn put_joined(&mut self, sign: usize, end: usize) -> Result<(), AllocError> {
        let start = self.before(sign, 1).end;
        let next = self.lexeme(sign.saturating_add(1)).start;
        let close = self.before(end, 1).end;
        let first = self.splice(start, next, b".concat(")?;
        let second = self.splice(close, close, b")")?;
        let said = Reason::Hinted(Hint::JoinStrings);
        self.put_two(said, first, second)
    }
}

/// The method of the other type for one that gives or takes a constant.
fn counterpart(word: &[u8]) -> Option<&'static [u8]> {
    for (known, other) in &COUNTERPARTS {
        if known.as_bytes() == word {
            return Some(other.as_bytes());
        }
    }
    None
}
