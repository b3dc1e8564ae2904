//! `is_silly` rejects a candidate fix that gives a legal program but is surely not meant, such as one that removes a call or a constant.

use crate::candidate::{Candidate, Candidates, Reason, Splice, begins_word, ends_word};
use crate::declarations::BEFORE_FEATURES;
use crate::extents::{begins_expression, closes};
use crate::hint::Hint;
use crate::kind::{Kind, is_constant, is_name, is_number, is_one_of, kind_of};
use crate::lexeme::{index_at, part};
use crate::nearness::are_near;
use crate::signs::{ADVICE, HEADS, TYPES};

/// Signs that other languages join to longer ones, as `<<` and `**`.
static JOINED: [&str; 14] = [
    "+", "-", "*", "/", "<", ">", "=", "!", "&", "|", "?", "^", "%", ":",
];

/// The constants of Bool.
static TRUTHS: [&str; 2] = ["true", "false"];

/// Operators and signs that join two parts of an expression.
static JOINING: [&str; 9] = ["+", "-", "*", "/", "<", "<=", "=", ".", "@"];

/// Operators: which one is missing, cannot be told.
static OPERATORS: [&str; 10] = ["+", "-", "*", "/", "<", "<=", "=", "isvoid", "not", "~"];

/// Signs of other languages right beside their operand.
static OPERATING: [&str; 6] = ["#", "&", "!", "^", "?", "%"];

/// The letters right in front of a string with values in it, in other languages.
static BEFORE_STRINGS: [&str; 3] = ["f", "s", "$"];

/// The words in front of a branch or body.
static BEFORE_BRANCHES: [&str; 3] = ["then", "else", "loop"];

/// The number of lexemes in front of a `fi` among which its `else` is looked for.
const LOOKED_FOR_ELSE: usize = 400;

/// The number of lexemes in front of a position among which the head of a statement is looked for.
const LOOKED_FOR_HEAD: usize = 60;

impl<'a> Candidates<'a> {
    /// Whether a candidate that has no hint takes away a call, a type, a constant or an operator, parts a sign of another language, makes a comment, or makes
    /// up a name, a type or a value: the rest may be legal, but is not meant. Nor are parts of such a sign exchanged.
    pub(crate) fn is_silly(&self, candidate: &Candidate) -> bool {
        let is_exchange = matches!(candidate.reason, Reason::Hinted(Hint::Exchanged));
        if matches!(candidate.reason, Reason::Hinted(_)) && !is_exchange {
            return false;
        }
        for splice in candidate.splices.as_slice() {
            if self.parts_sign(splice) || (!is_exchange && self.is_unmeant(splice)) {
                return true;
            }
        }
        false
    }

    /// Whether a splice makes up a name, a type, a value, an operator or a comment, joins what stands apart, or takes away what has a meaning.
    fn is_unmeant(&self, splice: &Splice) -> bool {
        self.makes_up(splice)
            || self.makes_operator(splice)
            || self.makes_comment(splice)
            || self.makes_class(splice)
            || self.makes_type(splice)
            || self.makes_lone_name(splice)
            || self.makes_word(splice)
            || self.joins_words(splice)
            || self.joins_lines(splice)
            || (splice.start < splice.end && self.takes_meaning(splice))
    }

    /// Whether a splice changes one part of a sign of another language, and not the other, or puts something between both.
    fn parts_sign(&self, splice: &Splice) -> bool {
        let first = index_at(self.lexemes, splice.start.saturating_sub(1));
        for index in first..self.lexemes.len() {
            let here = self.lexeme(index);
            if here.start > splice.end {
                return false;
            }
            if self.is_other_sign(index) {
                let has_last = splice.start < here.start && splice.end >= here.start;
                let has_here = splice.start <= here.start && splice.end > here.start;
                let is_between = splice.start == here.start && splice.end == here.start;
                if is_between || has_last != has_here {
                    return true;
                }
            }
        }
        false
    }

    /// Whether a splice joins two words to one by taking away what stands between them.
    fn makes_word(&self, splice: &Splice) -> bool {
        let before = part(self.bytes, splice.start.saturating_sub(1), splice.start);
        let behind = part(self.bytes, splice.end, splice.end.saturating_add(1));
        splice.start < splice.end
            && splice.text.is_empty()
            && ends_word(before)
            && begins_word(behind)
    }

    /// Whether a splice makes up a name, a type or a constant: where nothing stands, or in the place of a keyword or a sign.
    fn makes_up(&self, splice: &Splice) -> bool {
        let word = splice.text.trim_ascii();
        let old = part(self.bytes, splice.start, splice.end);
        let is_value = is_name(word) || is_constant(word) || is_one_of(&TRUTHS, word);
        is_value && !has_blank(word) && kind_of(old) == Kind::Fixed
    }

    /// Whether a splice makes an assignment to what no declaration names, or of a block; or a call of a method of what none names, in the next line, or of
    /// a block.
    fn joins_words(&self, splice: &Splice) -> bool {
        let index = index_at(self.lexemes, splice.start);
        let name = self.word_before(index, 1);
        let next = self.lexeme(index);
        let is_unknown = kind_of(name) == Kind::Object
            && name != b"self".as_slice()
            && !self.is_declared(name);
        if splice.start < splice.end {
            return false;
        }
        match splice.text.trim_ascii() {
            b"<-" => is_unknown || self.text(next) == b"{".as_slice(),
            b"." => is_unknown || part(self.bytes, splice.start, next.start).contains(&b'\n'),
            b"}" => self.text(next) == b".".as_slice(),
            _ => false,
        }
    }

    /// Whether a declaration of a variable, a formal or an attribute names a word.
    fn is_declared(&self, name: &[u8]) -> bool {
        for index in 0..self.lexemes.len() {
            if self.word(index) == name && self.word(index.saturating_add(1)) == b":".as_slice() {
                return true;
            }
        }
        false
    }

    /// Whether a splice makes a statement of a lone name, with the next statement in the same line.
    fn makes_lone_name(&self, splice: &Splice) -> bool {
        let index = index_at(self.lexemes, splice.start);
        let next = self.lexeme(index);
        let between = part(self.bytes, splice.start, next.start);
        splice.text.trim_ascii() == b";".as_slice()
            && kind_of(self.text(next)) != Kind::Fixed
            && !between.contains(&b'\n')
            && is_name(self.word_before(index, 1))
            && is_one_of(&BEFORE_FEATURES, self.word_before(index, 2))
    }

    /// Whether a splice makes up the type of a branch of `case`, or makes a declaration of an assignment to what is declared already.
    fn makes_type(&self, splice: &Splice) -> bool {
        let index = index_at(self.lexemes, splice.start);
        let is_statement = is_one_of(&BEFORE_FEATURES, self.word_before(index, 2));
        let is_typed = match self.word(index) {
            b"=>" => true,
            b"<-" => is_statement && self.is_declared(self.word_before(index, 1)),
            _ => false,
        };
        is_typed && matches!(splice.text.trim_ascii(), [b':', ..])
    }

    /// Whether a splice puts `new` in front of a name that no type has in the text.
    fn makes_class(&self, splice: &Splice) -> bool {
        let word = self.word(index_at(self.lexemes, splice.start));
        splice.text.trim_ascii() == b"new".as_slice()
            && kind_of(word) == Kind::Type
            && !self.is_used_as_type(word)
    }

    /// Whether a splice puts a `-` beside another one, so that a comment begins.
    fn makes_comment(&self, splice: &Splice) -> bool {
        let before = part(self.bytes, splice.start.saturating_sub(1), splice.start);
        let behind = part(self.bytes, splice.end, splice.end.saturating_add(1));
        match splice.text.as_slice() {
            [b'-', ..] if before == b"-".as_slice() => true,
            [.., b'-'] if behind == b"-".as_slice() => true,
            _ => false,
        }
    }

    /// Whether a splice takes away a name, a constant or an operator, or puts something in the place of a name that is not like it.
    fn takes_meaning(&self, splice: &Splice) -> bool {
        let text = splice.text.trim_ascii();
        for index in index_at(self.lexemes, splice.start)..self.lexemes.len() {
            let lexeme = self.lexeme(index);
            if lexeme.start >= splice.end {
                return false;
            }
            let is_whole = lexeme.start >= splice.start && lexeme.end <= splice.end;
            if is_whole && self.loses(index, text) {
                return true;
            }
        }
        false
    }

    /// Whether the program loses what the lexeme at a position means if a text stands in its place.
    fn loses(&self, index: usize, text: &[u8]) -> bool {
        let old = self.word(index);
        if text.is_empty() {
            return self.is_lone_operator(index)
                || self.is_operating(index)
                || self.begins_part(index)
                || (kind_of(old) != Kind::Fixed && !self.may_go(index));
        }
        let is_self = old == b"this".as_slice() && text == b"self".as_slice();
        let is_call = self.is_call(index) || kind_of(old) == Kind::Type;
        let is_kept = kind_of(text) != Kind::Fixed && (!is_call || kind_of(text) == kind_of(old));
        let is_sign = old == b"<-".as_slice() || is_one_of(&OPERATORS, old);
        let has_meaning = kind_of(old) != Kind::Fixed || is_sign;
        has_meaning && !is_kept && !is_self && !are_near(old, text)
    }

    /// Whether the begin of a part of a class that has none without it stands at a position: `inherits`, `<-`, or the brace of a method's body.
    fn begins_part(&self, index: usize) -> bool {
        let last = self.word_before(index, 1);
        match self.word(index) {
            b"inherits" | b"<-" => !self.is_doubled(index),
            b"{" => kind_of(last) == Kind::Type && self.word_before(index, 2) == b":".as_slice(),
            _ => false,
        }
    }

    /// Whether an operator stands at a position, no `+` in front of a lone operand, and no other operator beside it.
    fn is_lone_operator(&self, index: usize) -> bool {
        let word = self.word(index);
        let last = self.word_before(index, 1);
        let is_operator = is_one_of(&JOINING, word) || is_one_of(&OPERATORS, word);
        is_operator
            && (word != b"+".as_slice() || ends_operand(last))
            && !is_one_of(&JOINING, last)
            && !is_one_of(&JOINING, self.word(index.saturating_add(1)))
            && !self.is_doubled(index)
    }

    /// Whether a sign of another language stands at a position, right beside its operand.
    fn is_operating(&self, index: usize) -> bool {
        let here = self.lexeme(index);
        let next = self.lexeme(index.saturating_add(1));
        let last = self.before(index, 1);
        is_one_of(&OPERATING, self.text(here))
            && ((kind_of(self.text(next)) != Kind::Fixed && next.start == here.end)
                || (ends_operand(self.text(last)) && last.end == here.start))
    }

    /// Whether a word that may be one too many stands at a position: one that stands twice, or one in front of a definition, as `virtual f() : T`.
    fn may_go(&self, index: usize) -> bool {
        let next = index.saturating_add(1);
        let behind = index.saturating_add(2);
        let is_definition = self.word(behind) == b":".as_slice()
            || self.closing(behind).is_some_and(|close| self.word(close.saturating_add(1))
                == b":".as_slice());
        self.is_doubled(index)
            || (kind_of(self.word(index)) == Kind::Object
                && is_one_of(&BEFORE_FEATURES, self.word_before(index, 1))
                && kind_of(self.word(next)) == Kind::Object
                && is_definition)
    }

    /// Whether a splice makes up an operator that is not like what stands in its place, and completes no `<-`.
    fn makes_operator(&self, splice: &Splice) -> bool {
        let word = splice.text.trim_ascii();
        let old = part(self.bytes, splice.start, splice.end);
        let in_front = part(self.bytes, splice.start.saturating_sub(1), splice.start);
        let is_arrow = splice.text.as_slice() == b"-".as_slice() && in_front == b"<".as_slice();
        is_one_of(&OPERATORS, word) && !is_arrow && !are_near(old, word)
    }

    /// Whether a splice joins two lines by taking away the semicolon between them, or by another text in its place than one of a `let`.
    fn joins_lines(&self, splice: &Splice) -> bool {
        let old = part(self.bytes, splice.start, splice.end);
        let next = self.lexeme(index_at(self.lexemes, splice.end));
        let last = self.word_before(index_at(self.lexemes, splice.start), 1);
        !matches!(splice.text.trim_ascii(), b"in" | b",")
            && old.trim_ascii() == b";".as_slice()
            && !begins_expression(last)
            && part(self.bytes, splice.end, next.start).contains(&b'\n')
            && !closes(self.text(next))
    }

    /// Whether the lexeme at a position stands twice.
    fn is_doubled(&self, index: usize) -> bool {
        let word = self.word(index);
        word == self.word(index.saturating_add(1)) || word == self.word_before(index, 1)
    }

    /// Whether the lexeme at a position and the one before it are one sign of another language, as `<<`.
    pub(crate) fn is_other_sign(&self, index: usize) -> bool {
        let here = self.lexeme(index);
        let last = self.before(index, 1);
        last.end == here.start
            && is_one_of(&JOINED, self.text(here))
            && is_one_of(&JOINED, self.text(last))
    }

    /// Whether the lexeme at a position and the next one are a name and the parenthesis of its arguments.
    pub(crate) fn is_call(&self, index: usize) -> bool {
        kind_of(self.word(index)) == Kind::Object
            && self.word(index.saturating_add(1)) == b"(".as_slice()
    }

    /// The hint on a form at a position that has none in Cool, and no edit at one place.
    pub(crate) fn foreign_hint(&self, index: usize) -> Option<Hint> {
        if self.is_constructor(index) || self.word(index) == b"__init__".as_slice() {
            return Some(Hint::NoConstructors);
        }
        if self.is_cast(index) {
            return Some(Hint::NoCasts);
        }
        if let Some(hint) = self.foreign_head(index) {
            return Some(hint);
        }
        if is_other_number(self.word(index)) {
            return Some(Hint::DigitsOnly);
        }
        if self.is_formatted(index) {
            return Some(Hint::NoFormattedStrings);
        }
        let is_decimal = self.word_before(index, 1) == b".".as_slice()
            && is_number(self.word(index))
            && is_number(self.word_before(index, 2));
        if is_decimal || (self.word(index) == b".".as_slice() && self.is_between_numbers(index)) {
            return Some(Hint::NoDecimals);
        }
        None
    }

    /// Whether a string with a letter right in front of it stands at a position, as `f"n = {n}"`.
    fn is_formatted(&self, index: usize) -> bool {
        let last = self.before(index, 1);
        kind_of(self.word(index)) == Kind::String
            && is_one_of(&BEFORE_STRINGS, self.text(last))
            && last.end == self.lexeme(index).start
    }

    /// The hint on a statement of another language whose head in parentheses stands around a position or in front of it, as `for (..)`.
    fn foreign_head(&self, index: usize) -> Option<Hint> {
        let mut is_behind = self.word_before(index, 1) == b")".as_slice();
        let mut depth: usize = 0;
        for back in 1..LOOKED_FOR_HEAD {
            match self.word_before(index, back) {
                b")" => depth = depth.saturating_add(1),
                b"(" if depth == 0 || (depth == 1 && is_behind) => {
                    let word = self.word_before(index, back.saturating_add(1));
                    if let Some(hint) = head_hint(word) {
                        return Some(hint);
                    }
                    is_behind = false;
                    depth = 0;
                }
                b"(" => depth = depth.saturating_sub(1),
                b"{" | b"}" | b"" => return None,
                _ => {}
            }
        }
        None
    }

    /// The hint on the sign of another language of which the lexeme at a position is the first or second part.
    pub(crate) fn sign_hint(&self, index: usize) -> Option<Hint> {
        let next = self.word(index.saturating_add(1));
        if self.word(index) == b"`".as_slice() && next == b"mod".as_slice() {
            return Some(Hint::NoRemainder);
        }
        if self.word(index) == b">".as_slice() && self.is_parameter(index) {
            return Some(Hint::NoTypeParameters);
        }
        for second in [index, index.saturating_add(1)] {
            if !self.is_other_sign(second) {
                continue;
            }
            match (self.word_before(second, 1), self.word(second)) {
                (b"*", b"*") => return Some(Hint::NoPower),
                (b"<", b">") => return Some(Hint::NoUnequalSign),
                (b"-", b">") => return self.arrow_hint(second),
                (b"<", b"<") if self.word_before(second, 2) == b"cout".as_slice() => {
                    return Some(Hint::PrintingMethods);
                }
                (b">", b">") if self.word_before(second, 2) == b"cin".as_slice() => {
                    return Some(Hint::ReadingMethods);
                }
                (b"<", b"<") | (b">", b">") => return Some(Hint::NoShift),
                _ => {}
            }
        }
        None
    }

    /// Whether a type in `<` and `>` stands in front of a position, behind another type, as in `List<Int>`.
    fn is_parameter(&self, index: usize) -> bool {
        kind_of(self.word_before(index, 1)) == Kind::Type
            && self.word_before(index, 2) == b"<".as_slice()
            && kind_of(self.word_before(index, 3)) == Kind::Type
    }

    /// The hint on a `->` whose `>` stands at a position.
    fn arrow_hint(&self, index: usize) -> Option<Hint> {
        let last = self.word_before(index, 2);
        let next = self.word(index.saturating_add(1));
        if kind_of(last) == Kind::Type {
            return Some(Hint::BranchArrow);
        }
        if last == b")".as_slice() && kind_of(next) == Kind::Type {
            return Some(Hint::ResultType);
        }
        if self.is_call(index.saturating_add(1)) {
            return Some(Hint::DotCalls);
        }
        Some(Hint::NoFieldAccess)
    }

    /// Whether a branch of an `if` is missing in front of the `else` or `fi` at a position.
    pub(crate) fn lacks_branch(&self, index: usize) -> bool {
        let word = self.word(index);
        let is_empty = is_one_of(&BEFORE_BRANCHES, self.word_before(index, 1));
        match word {
            b"else" => is_empty,
            b"fi" => is_empty || self.lacks_else(index),
            _ => false,
        }
    }

    /// Whether the `if` that ends at a position has no `else`.
    fn lacks_else(&self, index: usize) -> bool {
        let mut depth: usize = 0;
        for back in 1..LOOKED_FOR_ELSE {
            match self.word_before(index, back) {
                b"fi" => depth = depth.saturating_add(1),
                b"then" if depth == 0 => return true,
                b"if" if depth == 0 => return false,
                b"else" if depth == 0 => return false,
                b"" => return false,
                b"if" => depth = depth.saturating_sub(1),
                _ => {}
            }
        }
        false
    }

    /// Whether a number stands in front of a position and behind it.
    fn is_between_numbers(&self, index: usize) -> bool {
        is_number(self.word_before(index, 1)) && is_number(self.word(index.saturating_add(1)))
    }

    /// Whether nothing but a hint helps at a position: `return` without a value, empty braces, a list of variables as in C, `let` without a type, a word
    /// of another language, or a value that is assigned to.
    pub(crate) fn is_hopeless(&self, index: usize) -> bool {
        let word = self.word(index);
        let last = self.word_before(index, 1);
        let is_empty = word == b"}".as_slice() && last == b"{".as_slice();
        let is_return = word == b";".as_slice() && last == b"return".as_slice();
        let is_let = word == b"=".as_slice() && self.word_before(index, 2) == b"let".as_slice();
        let is_foreign = is_statement_word(word) || is_statement_word(last);
        is_empty
            || is_return
            || is_let
            || is_foreign
            || self.lacks_type(index.saturating_sub(1))
            || self.is_declaration(index)
            || self.is_value_assigned(index)
    }

    /// Whether a variable is declared at a position without a type, and with a value whose type cannot be seen, as `var x <- f();`.
    fn lacks_type(&self, index: usize) -> bool {
        self.is_untyped(index) && self.type_of_value(index.saturating_add(3)).is_empty()
    }

    /// Whether a statement begins with a value in front of the `<-` at a position, as `5 <- x;`.
    pub(crate) fn is_value_assigned(&self, index: usize) -> bool {
        let last = self.word_before(index, 1);
        self.word(index) == b"<-".as_slice()
            && (is_constant(last) || last == b")".as_slice())
            && kind_of(self.word(index.saturating_add(1))) != Kind::Type
            && self.is_statement(index)
    }

    /// Whether a statement stands at a position: an expression behind a brace or a semicolon.
    pub(crate) fn is_statement(&self, index: usize) -> bool {
        is_one_of(
            &BEFORE_FEATURES,
            self.word_before(self.expression_start(index), 1),
        )
    }
}

/// The hint on a statement of another language that begins with a word in front of a parenthesis.
fn head_hint(word: &[u8]) -> Option<Hint> {
    for (known, hint) in &HEADS {
        if known.as_bytes() == word {
            return Some(*hint);
        }
    }
    None
}

/// Whether a word is a number in another form than digits, as `0x10` or `1_000`.
fn is_other_number(word: &[u8]) -> bool {
    if !matches!(word, [b'0'..=b'9', ..]) {
        return false;
    }
    for byte in word {
        if !matches!(*byte, b'0'..=b'9') {
            return matches!(*byte, b'_' | b'x' | b'X');
        }
    }
    false
}

/// Whether an operand may end with a word.
fn ends_operand(word: &[u8]) -> bool {
    kind_of(word) != Kind::Fixed || closes(word)
}

/// Whether a word or sign of another language has a hint, and so is meant; `this` is `self`.
pub(crate) fn is_foreign_word(word: &[u8]) -> bool {
    for (known, _) in &ADVICE {
        if known.as_bytes() == word {
            return word != b"this".as_slice();
        }
    }
    false
}

/// Whether a word of another language has a hint, and is no type.
fn is_statement_word(word: &[u8]) -> bool {
    for (known, _) in &TYPES {
        if known.as_bytes() == word {
            return false;
        }
    }
    is_foreign_word(word)
}

/// Whether a blank stands in a word.
fn has_blank(word: &[u8]) -> bool {
    kind_of(word) != Kind::String && word.contains(&b' ')
}

/// Whether a word is a byte that begins no lexeme of Cool.
pub(crate) fn is_unknown(word: &[u8]) -> bool {
    match word {
        [b'^' | b'?' | b'&' | b'|' | b'%' | b'!' | b'[' | b']' | b'$' | b'`' | b'\\' | b'>'] =>
            true,
        [byte] => *byte >= 128,
        _ => false,
    }
}
