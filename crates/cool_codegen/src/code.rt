//! The type `Code`, the state of code generation within a feature: the names in scope, the constant table, and the lines and spans (ranges of lines of
//! expressions) so far.

ghost use Rattle.std.specs.Prelude.{◌≡◌, ◌<◌, [], ◌∷◌, ◌++◌, List, length, map, IfOk, OnOk};
ghost use Rattle.mips_isa.specs.Lines.{lines_of};
ghost use Rattle.cool_syntax.specs.NodeLists.{made};
ghost use Rattle.cool_syntax.specs.Tree.{Tree};
ghost use Rattle.cool_codegen.specs.AddedCode.{NotesAlone};
ghost use Rattle.cool_codegen.specs.Shown.{ended, noted, shown_of, whole, Shown};
ghost use Rattle.cool_codegen.specs.declared.code_setting.Wanted.TheVariants.{Spans};

use crate::code_setting::{CodeSetting, Wanted};
use crate::span::{Span, form_of};
use crate::variables::Variable;
use cool_consts::Consts;
use cool_rules::Scope;
use cool_syntax::Node;
use mips_isa::Line;
use std::alloc::AllocError;

/// The code of a feature while it is made: where it stands, the names in scope, the constants so far, the lines so far, and, where they are
/// wanted, the spans of the expressions whose code they are.
#[derive(Drop)]
pub struct Code<'a> {
    pub setting: CodeSetting<'a>,
    pub variables: Scope<'a, Variable>,
    pub consts: Consts,
    pub lines: Vec<Line>,
    pub spans: Vec<Span<'a>>,
}

impl<'a> Code<'a> {
    /// Notes, if spans are wanted, that the code of a node begins here, at this depth, and returns the number of its span, which ends where it begins
    /// until `end_span`.
    pub(crate) fn begin_span(&mut self, depth: u32, node: &Node) -> Result<usize, AllocError>
        ensures alone { NotesAlone self.old self.new }
        ensures number { IfOk result (λ number. number ≡ length self.old.spans.items) }
        ensures spans { OnOk result ((ts : List Tree) → map shown_of self.new.spans.items ≡ map shown_of self.old.spans.items ++ noted self.old.setting.wanted (whole self.old.variables depth (length (lines_of self.old.lines.items)) (length (lines_of self.old.lines.items)) (made ts node.now) ∷ [])) }
    {
        let number = self.spans.len();
        if let Wanted::Spans = self.setting.wanted {
            let from = self.lines.len();
            self.spans.push(Span {
                at: node.place(),
                form: form_of(node),
                from,
                to: from,
                depth,
                names: self.variables.count(),
                latest: self.variables.latest(),
            })?;
        }
        Ok(number)
    }

    /// Notes, if spans are wanted, that the code whose span has this number ends here.
    pub(crate) fn end_span(&mut self, number: usize)
        requires begun { self.old.setting.wanted ≡ Spans → number < length self.old.spans.items }
        ensures alone { NotesAlone self.old self.new }
        ensures spans { (before rest : List Shown) (x : Shown) → map shown_of self.old.spans.items ≡ before ++ (noted self.old.setting.wanted (x ∷ []) ++ rest) → length before ≡ number → map shown_of self.new.spans.items ≡ before ++ (noted self.old.setting.wanted (ended (length (lines_of self.old.lines.items)) x ∷ []) ++ rest) }
    {
        if let Wanted::Spans = self.setting.wanted {
            self.spans[number].to = self.lines.len();
        }
    }
}
