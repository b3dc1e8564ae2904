//! Candidate fixes replace forms of other languages, such as `a and b`, by forms of Cool that mean the same.

use crate::candidate::{Candidates, Reason};
use crate::declarations::BEFORE_FEATURES;
use crate::hint::Hint;
use crate::kind::{Kind, is_one_of, kind_of};
use crate::lexeme::{line_length, part};
use crate::names::BASIC_CLASSES;
use std::alloc::AllocError;

/// The words and signs in front of a type.
static BEFORE_TYPES: [&str; 5] = [":", "new", "@", "inherits", "class"];

/// The names of other languages for the remainder.
static REMAINDERS: [&str; 2] = ["mod", "rem"];

/// The words of other languages in front of a parent.
static ACCESS: [&str; 3] = ["public", "private", "protected"];

/// The quotes of text programs, in UTF-8.
static OPEN_QUOTE: [u8; 3] = [226, 128, 156];

static CLOSE_QUOTE: [u8; 3] = [226, 128, 157];

/// Marks in UTF-8, and the text in their place.
static MARKS: [(&[u8], &str, Hint); 4] = [
    (b"\xEF\xBB\xBF", "", Hint::ByteOrderMark),
    (b"\xC2\xA0", " ", Hint::PlainCharacters),
    (b"\xE2\x88\x92", "-", Hint::PlainCharacters),
    (b"\xE2\x80\x93", "-", Hint::PlainCharacters),
];

/// The number of lexemes behind `elif` among which its `fi` is looked for.
const LOOKED_AHEAD: usize = 200;

/// The most lexemes of a method's formals that are looked at.
const LOOKED_AT_FORMALS: usize = 40;

impl<'a> Candidates<'a> {
    /// All forms that fit a fault at a position.
    pub(crate) fn add_forms(&mut self, index: usize) -> Result<(), AllocError> {
        let word = self.word(index);
        let last = self.word_before(index, 1);
        let next = self.word(index.saturating_add(1));
        match word {
            b"and" => self.add_both(index, 1)?,
            b"or" => self.add_either(index, 1)?,
            b"&" => self.add_both(index, 2)?,
            b"|" => self.add_either(index, 2)?,
            b"%" | b"mod" => self.add_remainder(index, 1)?,
            b"`" if is_one_of(&REMAINDERS, next) => self.add_remainder(index, 3)?,
            b"?" => self.add_conditional(index)?,
            b":" if is_one_of(&ACCESS, next) => {
                let end = self.lexeme(index.saturating_add(1)).end;
                let start = self.lexeme(index).start;
                self.put(Reason::Hinted(Hint::InheritsWord), start, end, b"inherits")?
            }
            b">" if last == b"<".as_slice() => { self.add_unequal(index.saturating_sub(1), index)? }
            b">" if last == b"-".as_slice() => self.add_dot(index)?,
            b">" => self.add_turned(index)?,
            b"!" | b"~" if next == b"=".as_slice() => self.add_different(index)?,
            b"'" => self.add_quoted(index)?,
            b"elif" | b"elsif" | b"elseif" => self.add_else_if(index)?,
            b"=" => self.add_equals(index)?,
            b"+" if last == b"+".as_slice() && is_operand(next) => self.add_appended(index)?,
            b"_" if next == b"=>".as_slice() => {
                let said = Reason::Hinted(Hint::BranchType);
                self.put_at(said, self.lexeme(index), b"it : Object")?
            }
            b"+" | b"-" => self.add_changed(index)?,
            b";" => self.add_returned_call(index)?,
            [b'_', name @ ..] => {
                let said = Reason::Hinted(Hint::NoUnderscore);
                self.put_at(said, self.lexeme(index), without_underscores(name))?
            }
            b"{" => self.add_parentheses(index)?,
            b"isvoid" if last == b".".as_slice() => self.add_void_test(index)?,
            b"=>" | b":" if self.is_argument(index) && kind_of(next) != Kind::Type => {
                let start = self.before(index, 1).start;
                let value = self.lexeme(index.saturating_add(1)).start;
                self.put(Reason::Hinted(Hint::NoArgumentNames), start, value, b"")?
            }
            b"(" if self.word_before(index, 2) == b"new".as_slice() => self.add_new(index)?,
            b"(" if self.word_before(index, 2) == b"class".as_slice() => self.add_parent(index)?,
            b"<-" if self.word_before(index, 2) == b".".as_slice() => self.add_setter(index)?,
            _ => {}
        }
        self.add_typed_forms(index)
    }

    /// The forms of a value behind `return`, and of a type where none stands in Cool.
    fn add_typed_forms(&mut self, index: usize) -> Result<(), AllocError> {
        let word = self.word(index);
        let last = self.word_before(index, 1);
        let next = self.word(index.saturating_add(1));
        if last == b"return".as_slice() {
            self.add_returned(index)?;
        }
        if kind_of(word) == Kind::Type && !wants_type(last) {
            self.add_object(index)?;
        }
        if kind_of(word) == Kind::Type && kind_of(next) == Kind::Object {
            self.add_declaration(index)?;
        } else if kind_of(last) == Kind::Type && kind_of(word) == Kind::Object {
            self.add_declaration(index.saturating_sub(1))?;
        }
        Ok(())
    }

    /// The forms that have a `=` at a position: `===`, `/=`, `let x = 5`, and `x += 5`.
    fn add_equals(&mut self, index: usize) -> Result<(), AllocError> {
        let last = self.word_before(index, 1);
        if last == b"=".as_slice() && self.word(index.saturating_add(1)) == last {
            return self.add_equal(index);
        }
        if last == b"/".as_slice() && !self.is_statement(index) {
            return self.add_unequal(index.saturating_sub(1), index);
        }
        if matches!(self.word_before(index, 2), b"let" | b",") {
            return self.add_let(index);
        }
        self.add_changed(index)
    }

    /// `a and b` as `if a then b else false fi`, with a sign of so many lexemes.
    fn add_both(&mut self, index: usize, many: usize) -> Result<(), AllocError> {
        let said = Reason::Hinted(Hint::NoAnd);
        self.add_choice(said, index, many, b" then ", b" else false fi")
    }

    /// `a or b` as `if a then true else b fi`.
    fn add_either(&mut self, index: usize, many: usize) -> Result<(), AllocError> {
        let said = Reason::Hinted(Hint::NoOr);
        self.add_choice(said, index, many, b" then true else ", b" fi")
    }

    /// `if` in front of the expression around a sign, and these in the place of the sign and behind the expression.
    fn add_choice(
        &mut self,
        said: Reason,
        index: usize,
        many: usize,
        middle: &[u8],
        last: &[u8],
    ) -> Result<(), AllocError> {
        let behind = index.saturating_add(many);
        let start = self.expression_start(index);
        let end = self.expression_end(behind);
        let text = self.joined(&[
            b"if ",
            self.between(start, index),
            middle,
            self.between(behind, end),
            last,
        ])?;
        let from = self.lexeme(start).start;
        let to = self.before(end, 1).end;
        self.put(said, from, to, &text)
    }

    /// `a % b` as `a - a / b * b`, with a sign of so many lexemes, and a `==` behind it as `=`.
    fn add_remainder(&mut self, index: usize, many: usize) -> Result<(), AllocError> {
        let start = self.operand_start(index);
        let behind = index.saturating_add(many);
        let mut end = self.operand_end(behind);
        let left = self.between(start, index);
        let right = self.between(behind, end);
        let next = end.saturating_add(1);
        let is_compared = self.word(end) == b"=".as_slice() && self.word(next) == self.word(end);
        let mut text = self.joined(&[left, b" - ", left, b" / ", right, b" * ", right])?;
        if is_compared {
            end = end.saturating_add(2);
            text.extend_from_slice(b" =")?;
        }
        let from = self.lexeme(start).start;
        let to = self.before(end, 1).end;
        self.put(Reason::Hinted(Hint::NoRemainder), from, to, &text)
    }

    /// `a ? b : c` as `if a then b else c fi`, where the first sign stands at a position.
    fn add_conditional(&mut self, index: usize) -> Result<(), AllocError> {
        let start = self.expression_start(index);
        let behind = index.saturating_add(1);
        let Some(colon) = self.colon_behind(behind) else {
            return Ok(());
        };
        let last = colon.saturating_add(1);
        let end = self.expression_end(last);
        let text = self.joined(&[
            b"if ",
            self.between(start, index),
            b" then ",
            self.between(behind, colon),
            b" else ",
            self.between(last, end),
            b" fi",
        ])?;
        let from = self.lexeme(start).start;
        let to = self.before(end, 1).end;
        self.put(Reason::Hinted(Hint::NoConditional), from, to, &text)
    }

    /// The position of the first colon from a position on, within the expression.
    fn colon_behind(&self, index: usize) -> Option<usize> {
        for there in index..self.expression_end(index) {
            if self.word(there) == b":".as_slice() {
                return Some(there);
            }
        }
        None
    }

    /// `a > b` as `b < a`.
    fn add_turned(&mut self, index: usize) -> Result<(), AllocError> {
        let next = index.saturating_add(1);
        let (behind, sign): (usize, &'static [u8]) = if self.word(next) == b"=".as_slice() {
            (index.saturating_add(2), b" <= ")
        } else {
            (next, b" < ")
        };
        let said = Reason::Hinted(Hint::NoGreaterSign);
        let ends = [self.operand_end(behind), self.expression_end(behind)];
        let starts = [self.operand_start(index), self.expression_start(index)];
        for start in starts {
            for end in ends {
                let mut text = Vec::from_slice(self.alloc, self.between(behind, end))?;
                text.extend_from_slice(sign)?;
                text.extend_from_slice(self.between(start, index))?;
                let from = self.lexeme(start).start;
                self.put(said, from, self.before(end, 1).end, &text)?;
            }
        }
        Ok(())
    }

    /// `a != b` as `not a = b`, where the sign goes from a position to another.
    fn add_unequal(&mut self, index: usize, last: usize) -> Result<(), AllocError> {
        let start = self.expression_start(index);
        let from = self.lexeme(start).start;
        let first = self.splice(from, from, b"not ")?;
        let second = self.splice(self.lexeme(index).start, self.lexeme(last).end, b"=")?;
        self.put_two(Reason::Hinted(Hint::NoUnequalSign), first, second)
    }

    /// `a != b` and `a !== b` as `not a = b`, where the first part of the sign stands at a position.
    fn add_different(&mut self, index: usize) -> Result<(), AllocError> {
        let second = index.saturating_add(1);
        let third = index.saturating_add(2);
        let last = if self.word(third) == b"=".as_slice() {
            third
        } else {
            second
        };
        self.add_unequal(index, last)
    }

    /// `===` as `=`, where its second part stands at a position.
    fn add_equal(&mut self, index: usize) -> Result<(), AllocError> {
        let start = self.before(index, 1).start;
        let end = self.lexeme(index.saturating_add(1)).end;
        self.put(Reason::Hinted(Hint::OneEqualsSign), start, end, b"=")
    }

    /// `a ++ b` as `a.concat(b)`, where the second part of the sign stands at a position.
    fn add_appended(&mut self, index: usize) -> Result<(), AllocError> {
        let next = index.saturating_add(1);
        let start = self.before(index, 2).end;
        let end = self.before(self.operand_end(next), 1).end;
        let first = self.splice(start, self.lexeme(next).start, b".concat(")?;
        let second = self.splice(end, end, b")")?;
        self.put_two(Reason::Hinted(Hint::JoinStrings), first, second)
    }

    /// `a->f()` as `a.f()`, where the `>` stands at a position.
    fn add_dot(&mut self, index: usize) -> Result<(), AllocError> {
        if !self.is_call(index.saturating_add(1)) {
            return Ok(());
        }
        let start = self.before(index, 1).start;
        let end = self.lexeme(index).end;
        self.put(Reason::Hinted(Hint::DotCalls), start, end, b".")
    }

    /// `f : T { .. }` as `f() : T { .. }`, where the brace stands at a position.
    fn add_parentheses(&mut self, index: usize) -> Result<(), AllocError> {
        let name = self.before(index, 3);
        let is_method = self.word_before(index, 2) == b":".as_slice()
            && kind_of(self.text(name)) == Kind::Object
            && is_one_of(&BEFORE_FEATURES, self.word_before(index, 4));
        if is_method {
            self.put(Reason::Edit, name.end, name.end, b"()")?;
        }
        Ok(())
    }

    /// `a.isvoid()` as `isvoid a`, where the `isvoid` stands at a position.
    fn add_void_test(&mut self, index: usize) -> Result<(), AllocError> {
        let dot = index.saturating_sub(1);
        let start = self.operand_start(dot);
        let text = self.joined(&[b"isvoid ", self.between(start, dot)])?;
        let last = self.closing(index.saturating_add(1)).unwrap_or(index);
        let said = Reason::Hinted(Hint::IsvoidBefore);
        self.put(said, self.lexeme(start).start, self.lexeme(last).end, &text)
    }

    /// `class A(B)` as `class A inherits B`.
    fn add_parent(&mut self, index: usize) -> Result<(), AllocError> {
        let parent = self.word(index.saturating_add(1));
        let close = index.saturating_add(2);
        if self.word(close) != b")".as_slice() || kind_of(parent) != Kind::Type {
            return Ok(());
        }
        let text = self.joined(&[b" inherits ", parent])?;
        let start = self.before(index, 1).end;
        let end = self.lexeme(close).end;
        self.put(Reason::Hinted(Hint::InheritsWord), start, end, &text)
    }

    /// Marks that a text has from another program: a byte order mark, other quotes, blanks and dashes.
    pub(crate) fn add_marks(&mut self, index: usize) -> Result<(), AllocError> {
        let at = self.lexeme(index).start;
        for (mark, text, hint) in &MARKS {
            let end = at.saturating_add(mark.len());
            if part(self.bytes, at, end) == *mark {
                self.put(Reason::Hinted(*hint), at, end, text.as_bytes())?;
            }
        }
        if part(self.bytes, at, at.saturating_add(3)) == OPEN_QUOTE.as_slice() {
            return self.add_other_quotes(at);
        }
        Ok(())
    }

    /// A string in the quotes of a text program, the first of which begins at a byte.
    fn add_other_quotes(&mut self, at: usize) -> Result<(), AllocError> {
        let behind = at.saturating_add(3);
        let rest = part(self.bytes, behind, self.bytes.len());
        for offset in 0..line_length(rest) {
            let start = behind.saturating_add(offset);
            let end = start.saturating_add(3);
            if part(self.bytes, start, end) == CLOSE_QUOTE.as_slice() {
                let first = self.splice(at, behind, b"\"")?;
                let second = self.splice(start, end, b"\"")?;
                return self.put_two(Reason::Hinted(Hint::DoubleQuotes), first, second);
            }
        }
        Ok(())
    }

    /// `let x = 5` as `let x : Int <- 5`, where the type can be seen.
    fn add_let(&mut self, index: usize) -> Result<(), AllocError> {
        let sign = self.lexeme(index);
        let class = self.type_of_value(index.saturating_add(1));
        if class.is_empty() {
            return Ok(());
        }
        let text = self.joined(&[b": ", class, b" <-"])?;
        self.put(
            Reason::Hinted(Hint::TypeOfVariable),
            sign.start,
            sign.end,
            &text,
        )
    }

    /// The type of the value that begins at a position, where it can be seen; else nothing.
    pub(crate) fn type_of_value(&self, index: usize) -> &'a [u8] {
        let word = self.word(index);
        match kind_of(word) {
            Kind::Number => b"Int",
            Kind::String => b"String",
            _ if matches!(word, b"true" | b"false") => b"Bool",
            _ if word == b"new".as_slice() => self.word(index.saturating_add(1)),
            _ if word == b"in_string".as_slice() => b"String",
            _ if word == b"in_int".as_slice() => b"Int",
            _ => b"",
        }
    }

    /// A string in single quotes.
    fn add_quoted(&mut self, index: usize) -> Result<(), AllocError> {
        let here = self.lexeme(index);
        let rest = part(self.bytes, here.end, self.bytes.len());
        for offset in 0..line_length(rest) {
            if rest[offset] == b'\'' {
                let other = here.end.saturating_add(offset);
                let first = self.splice(here.start, here.end, b"\"")?;
                let second = self.splice(other, other.saturating_add(1), b"\"")?;
                return self.put_two(Reason::Hinted(Hint::DoubleQuotes), first, second);
            }
        }
        Ok(())
    }

    /// `elif` as `else if`, with a `fi` more.
    fn add_else_if(&mut self, index: usize) -> Result<(), AllocError> {
        let here = self.lexeme(index);
        let mut depth: usize = 0;
        for there in index..index.saturating_add(LOOKED_AHEAD) {
            match self.word(there) {
                b"if" => depth = depth.saturating_add(1),
                b"fi" if depth == 0 => {
                    let end = self.lexeme(there).end;
                    let first = self.splice(here.start, here.end, b"else if")?;
                    let second = self.splice(end, end, b" fi")?;
                    return self.put_two(Reason::Hinted(Hint::ElseIf), first, second);
                }
                b"fi" => depth = depth.saturating_sub(1),
                _ => {}
            }
        }
        Ok(())
    }

    /// `x += a` as `x <- x + a`, and `x++` as `x <- x + 1`.
    fn add_changed(&mut self, index: usize) -> Result<(), AllocError> {
        let name = self.before(index, 2);
        let sign = self.before(index, 1);
        let here = self.lexeme(index);
        let is_sum = matches!(self.text(sign), b"+" | b"-" | b"*" | b"/");
        if kind_of(self.text(name)) != Kind::Object || !is_sum {
            return Ok(());
        }
        let word = self.text(name);
        if self.text(here) == b"=".as_slice() {
            let text = self.joined(&[word, b" <- ", word, b" ", self.text(sign)])?;
            let said = Reason::Hinted(Hint::NoAssignmentOfSums);
            self.put(said, name.start, here.end, &text)
        } else {
            let text = self.joined(&[word, b" <- ", word, b" ", self.text(sign), b" 1"])?;
            let said = Reason::Hinted(Hint::NoIncrement);
            self.put(said, name.start, here.end, &text)
        }
    }

    /// `new C(..)` as `(new C).f(..)`, where a method gives its own object, and as `new C`.
    fn add_new(&mut self, index: usize) -> Result<(), AllocError> {
        let Some(close) = self.closing(index) else {
            return Ok(());
        };
        let class = self.before(index, 1);
        let start = self.before(index, 2).start;
        let end = self.lexeme(close).end;
        let given = part(self.bytes, self.lexeme(index).start, end);
        let said = Reason::Hinted(Hint::NewWithoutArguments);
        for there in 1..self.lexemes.len() {
            let is_method = is_self_type(self.word(there), self.text(class))
                && self.word_before(there, 1) == b":".as_slice();
            let (true, Some(name)) = (is_method, self.method_before(there)) else {
                continue;
            };
            let text = self.joined(&[b"(new ", self.text(class), b").", name, given])?;
            self.put(said, start, end, &text)?;
        }
        self.put(
            Reason::Hinted(Hint::NewWithoutParentheses),
            class.end,
            end,
            b"",
        )
    }

    /// The name of the method whose result type stands at a position.
    fn method_before(&self, index: usize) -> Option<&'a [u8]> {
        for back in 2..LOOKED_AT_FORMALS {
            let there = index.checked_sub(back)?;
            match self.word(there) {
                b"(" => return Some(self.word_before(there, 1)),
                b";" | b"{" | b"}" => return None,
                _ => {}
            }
        }
        None
    }

    /// `C.f()` as `(new C).f()`, and else `new` in front of a class.
    fn add_object(&mut self, index: usize) -> Result<(), AllocError> {
        let class = self.lexeme(index);
        if self.word(index.saturating_add(1)) == b".".as_slice() {
            let text = self.joined(&[b"(new ", self.text(class), b")"])?;
            let said = Reason::Hinted(Hint::MethodOfObject);
            self.put_at(said, class, &text)?;
        }
        if self.is_used_as_type(self.text(class)) {
            self.put(Reason::Edit, class.start, class.start, b"new ")?;
        }
        Ok(())
    }

    /// Whether a word is the name of a basic class, or stands in the place of a type elsewhere.
    pub(crate) fn is_used_as_type(&self, word: &[u8]) -> bool {
        if is_one_of(&BASIC_CLASSES, word) {
            return true;
        }
        for index in 1..self.lexemes.len() {
            if self.word(index) == word && wants_type(self.word_before(index, 1)) {
                return true;
            }
        }
        false
    }

    /// `a.x <- b` as `a.set_x(b)`.
    fn add_setter(&mut self, index: usize) -> Result<(), AllocError> {
        let name = self.before(index, 1);
        let behind = index.saturating_add(1);
        let end = self.expression_end(behind);
        let given = self.between(behind, end);
        let text = self.joined(&[b"set_", self.text(name), b"(", given, b")"])?;
        let said = Reason::Hinted(Hint::AssignByMethod);
        self.put(said, name.start, self.before(end, 1).end, &text)
    }

    /// `return` in front of the last expression.
    fn add_returned(&mut self, index: usize) -> Result<(), AllocError> {
        let last = self.before(index, 1);
        let here = self.lexeme(index);
        let said = Reason::Hinted(Hint::NoReturn);
        self.put(said, last.start, here.start, b"")?;
        let end = self.expression_end(index);
        if self.word(end) == b";".as_slice() {
            let semicolon = self.lexeme(end);
            let first = self.splice(last.start, here.start, b"")?;
            let second = self.splice(semicolon.start, semicolon.end, b"")?;
            self.put_two(said, first, second)?;
        }
        Ok(())
    }

    /// `return(a);` as `(a)`, where the semicolon stands at a position.
    fn add_returned_call(&mut self, index: usize) -> Result<(), AllocError> {
        let there = self.operand_start(index);
        if self.word(there) != b"return".as_slice() {
            return Ok(());
        }
        let word = self.lexeme(there);
        let semicolon = self.lexeme(index);
        let first = self.splice(word.start, word.end, b"")?;
        let second = self.splice(semicolon.start, semicolon.end, b"")?;
        self.put_two(Reason::Hinted(Hint::NoReturn), first, second)
    }

    /// `C x` as `x : C`.
    fn add_declaration(&mut self, index: usize) -> Result<(), AllocError> {
        let class = self.lexeme(index);
        let name = self.lexeme(index.saturating_add(1));
        let text = self.joined(&[self.text(name), b" : ", self.text(class)])?;
        let said = Reason::Hinted(Hint::TypeAfterName);
        self.put(said, class.start, name.end, &text)
    }
}

/// Whether a type is that of the object itself, or this class.
fn is_self_type(word: &[u8], class: &[u8]) -> bool {
    word == b"SELF_TYPE".as_slice() || word == class
}

/// The name without the underscores at its beginning.
fn without_underscores(name: &[u8]) -> &[u8] {
    for index in 0..name.len() {
        if name[index] != b'_' {
            return &name[index..];
        }
    }
    b"x"
}

/// Whether an operand begins with a word.
fn is_operand(word: &[u8]) -> bool {
    word == b"(".as_slice() || kind_of(word) != Kind::Fixed
}

/// Whether a type stands behind a word.
pub(crate) fn wants_type(word: &[u8]) -> bool {
    is_one_of(&BEFORE_TYPES, word)
}
