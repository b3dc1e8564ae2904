//! Functions that generate the code of `let` and `case` expressions.

ghost use Rattle.std.specs.Prelude.{◌≡◌, ◌++◌, ◌+◌, ◌^◌, ◌<◌, ◌≤◌, [], length, map, IfSome, OnOk};
ghost use Rattle.std.specs.List.{AllByRecursion};
ghost use Rattle.std.specs.Option.{option_map};
ghost use Rattle.mips_isa.specs.Lines.{lines_of};
ghost use Rattle.cool_syntax.specs.Tree.{of_option, of_twigs};
ghost use Rattle.cool_syntax.specs.NodeGroups.{IsBinding};
ghost use Rattle.cool_syntax.specs.NodeLists.{all_trees, at_id, twig_at};
ghost use Rattle.cool_syntax.specs.TreesWithinLimits.{AreCasesWithin, IsMaybeWithin};
ghost use Rattle.cool_rules.specs.Conformance.{IsType};
ghost use Rattle.cool_rules.specs.Rules.{type_meant};
ghost use Rattle.cool_rules.specs.TypedParts.{AreBranches, MayBePart};
ghost use Rattle.cool_rules.specs.Typing.{with_name};
ghost use Rattle.cool_codegen.specs.AddedCode.{Adds, AddsNode, CanName, HasRoom, IsExpressionOf, IsNodeOf, IsReady};
ghost use Rattle.cool_codegen.specs.Asked.{Keeps};
ghost use Rattle.cool_codegen.specs.Shown.{arms_spans, later, made_of, shown_of, IsWithin};
ghost use Rattle.cool_codegen.specs.Code.{file_label, range_code};
ghost use Rattle.cool_codegen.specs.Pieces.{case_begin_lines};
ghost use Rattle.cool_codegen.specs.Numbered.{asked_at, branch_lines, branch_sizes_at, branch_spans, branches_asked, branches_made, class_of_branch, initial_lines, initial_spans, lines_at, made_lines, maybe_asked, maybe_size_at, node_size, size_at, spans_at, with_file};
ghost use Rattle.cool_codegen.specs.CodeSettings.{context, typed_body, IsSound};
ghost use Rattle.cool_codegen.specs.declared.code_setting.Wanted.TheVariants.{Lines};
ghost use Rattle.cool_codegen.specs.Variables.{bind, pushed, scope_of};

use crate::arm::{Arm, insert_arm};
use crate::code::Code;
use crate::code_setting::CodeSetting;
use crate::constant_labels::file_label;
use crate::inner_labels::inner_label;
use crate::number::negative;
use crate::operation::take_default;
use crate::piece::{case_begin, case_end, pop, try_tags, turn};
use crate::span::Span;
use crate::variables::{Base, Variable};
use cool_classes::{ClassId, Ty};
use cool_consts::Consts;
use cool_rules::{class_of, type_meant};
use cool_runtime::draft::write;
use cool_runtime::piece::push;
use cool_syntax::{Name, Node, NodeBranch, NodeId, Place};
use mips_isa::Line;
use std::alloc::AllocError;
use std::mem::replace;

impl<'a> Code<'a> {
    /// Adds the code of a `let` or a `case`, whose parts have numbers below this one.
    #[cycle(coding)]
    #[inline(never)]
    pub(crate) fn binding(
        &mut self,
        depth: u32,
        id: NodeId,
        node: &'a Node,
    ) -> Result<(), AllocError>
        requires group { IsBinding node.now }
        requires node { IsNodeOf self.old.setting (scope_of self.old.variables) id node.now }
        requires ready { IsReady self.old.setting self.old.variables }
        requires room { HasRoom self.old.consts depth (node_size self.old.setting.body.now node.now) }
        ensures made { AddsNode depth id node.now self.old self.new result }
    {
        let alloc = self.setting.alloc;
        match node {
            Node::Let {
                name,
                declared,
                init,
                body,
                ..
            } => {
                let bound = type_meant(self.setting.table, &declared.name);
                self.initial(depth, id, bound, *init)?;
                write(alloc, &mut self.lines, &push())?;
                self.within(depth, name, bound, *body)?;
                write(alloc, &mut self.lines, &pop())?;
                Ok(())
            }
            Node::Case {
                at,
                value,
                branches,
            } => {
                self.expression(depth, *value)?;
                self.begin_case(*at)?;
                write(alloc, &mut self.lines, &push())?;
                let end = inner_label(&self.setting, "end", id)?;
                self.arms(depth, id, branches.as_slice(), &end)?;
                write(alloc, &mut self.lines, &case_end(&end))?;
                Ok(())
            }
            _ => unreachable!(),
        }
    }

    /// Adds the code of an initial value, or of the default value of a variable of this type.
    #[cycle(coding)]
    fn initial(
        &mut self,
        depth: u32,
        end: NodeId,
        bound: Ty,
        init: Option<NodeId>,
    ) -> Result<(), AllocError>
        requires part { MayBePart (typed_body self.old.setting) (scope_of self.old.variables) init }
        requires below { IfSome init (λ part. part.0 < end.0) }
        requires places { IsMaybeWithin (length self.old.setting.names.now) (of_option (option_map (at_id (all_trees self.old.setting.body.now)) init)) }
        requires ready { IsReady self.old.setting self.old.variables }
        requires room { HasRoom self.old.consts depth (maybe_size_at self.old.setting.body.now init) }
        ensures made { Adds (initial_lines (context self.old.setting) self.old.setting.body.now self.old.consts self.old.variables depth bound init) (initial_spans self.old.setting.wanted (context self.old.setting) self.old.setting.body.now self.old.variables depth (lines_of self.old.lines.items) init) (maybe_asked (context self.old.setting).files self.old.setting.body.now self.old.consts init) (maybe_size_at self.old.setting.body.now init) self.old self.new result }
    {
        match init {
            Some(value) => {
                self.expression(depth, value)?;
                Ok(())
            }
            None => {
                take_default(self.setting.alloc, bound, &mut self.lines)?;
                Ok(())
            }
        }
    }

    /// Adds the code of an expression in the scope of a variable, whose value is the last word on the stack.
    #[cycle(coding)]
    fn within(
        &mut self,
        depth: u32,
        name: &'a Name,
        bound: Ty,
        body: NodeId,
    ) -> Result<(), AllocError>
        requires expression { IsExpressionOf self.old.setting (with_name name.now bound (scope_of self.old.variables)) body }
        requires bound { IsType self.old.setting.table.now bound }
        requires ready { IsReady self.old.setting self.old.variables }
        requires room { HasRoom self.old.consts (depth + 1) (size_at self.old.setting.body.now body) }
        ensures made { Adds (lines_at (context self.old.setting) self.old.setting.body.now self.old.consts (bind depth name.now bound self.old.variables) (depth + 1) body) (spans_at self.old.setting.wanted (context self.old.setting) self.old.setting.body.now (bind depth name.now bound self.old.variables) (depth + 1) (length (lines_of self.old.lines.items)) body) (asked_at (context self.old.setting).files self.old.setting.body.now self.old.consts body) (size_at self.old.setting.body.now body) self.old self.new result }
    {
        self.variables.enter(name, pushed(depth, bound))?;
        self.expression(depth + 1, body)?;
        self.variables.leave();
        Ok(())
    }

    /// Adds the code of branches, that of the deepest class first.
    #[cycle(coding)]
    fn arms(
        &mut self,
        depth: u32,
        id: NodeId,
        branches: &'a [NodeBranch],
        end: &[u8],
    ) -> Result<(), AllocError>
        requires parts { AreBranches (typed_body self.old.setting) (scope_of self.old.variables) branches.now }
        requires below { AllByRecursion (λ branch. branch.body.0 < id.0) branches.now }
        requires places { AreCasesWithin (length self.old.setting.names.now) (of_twigs (map (twig_at (all_trees self.old.setting.body.now)) branches.now)) }
        requires ready { IsReady self.old.setting self.old.variables }
        requires room { HasRoom self.old.consts (depth + 1) (branch_sizes_at self.old.setting.body.now branches.now) }
        ensures made { Adds (made_lines (branches_made Lines (context self.old.setting) self.old.setting.body.now self.old.consts self.old.variables depth end.now [] branches.now)) (arms_spans (lines_of self.old.lines.items) (branches_made self.old.setting.wanted (context self.old.setting) self.old.setting.body.now self.old.consts self.old.variables depth end.now [] branches.now)) (branches_asked (context self.old.setting).files self.old.setting.body.now self.old.consts branches.now) (branch_sizes_at self.old.setting.body.now branches.now) self.old self.new result }
    {
        let setting = self.setting;
        let mut sorted = Vec::new(setting.alloc);
        for branch in branches {
            let class = class_of(
                setting.class,
                type_meant(setting.table, &branch.declared.name),
            );
            let earlier = replace(&mut self.lines, Vec::new(setting.alloc));
            let noted = replace(&mut self.spans, Vec::new(setting.alloc));
            self.arm(depth, branch, class, end)?;
            let own = replace(&mut self.lines, earlier);
            let spans = replace(&mut self.spans, noted);
            insert_arm(
                &mut sorted,
                Arm {
                    depth: setting.depth(class),
                    lines: own,
                    spans,
                },
            )?;
        }
        add_arms(sorted, &mut self.lines, &mut self.spans)?;
        Ok(())
    }

    /// Adds the code of a branch for objects of this class and those below it.
    #[cycle(coding)]
    fn arm(
        &mut self,
        depth: u32,
        branch: &'a NodeBranch,
        class: ClassId,
        end: &[u8],
    ) -> Result<(), AllocError>
        requires expression { IsExpressionOf self.old.setting (with_name branch.now.name (type_meant self.old.setting.table.now branch.now.declared.name) (scope_of self.old.variables)) branch.now.body }
        requires class { class.0 < length self.old.setting.table.now }
        requires declared { class ≡ class_of_branch (context self.old.setting) branch.now }
        requires ready { IsReady self.old.setting self.old.variables }
        requires room { HasRoom self.old.consts (depth + 1) (size_at self.old.setting.body.now branch.now.body) }
        ensures made { Adds (branch_lines (context self.old.setting) self.old.setting.body.now self.old.consts self.old.variables depth end.now branch.now) (branch_spans self.old.setting.wanted (context self.old.setting) self.old.setting.body.now self.old.variables depth (lines_of self.old.lines.items) branch.now) (asked_at (context self.old.setting).files self.old.setting.body.now self.old.consts branch.now.body) (size_at self.old.setting.body.now branch.now.body) self.old self.new result }
    {
        let alloc = self.setting.alloc;
        let next = inner_label(&self.setting, "next", branch.body)?;
        try_class(&self.setting, class, &next, &mut self.lines)?;
        let bound = type_meant(self.setting.table, &branch.declared.name);
        self.within(depth, &branch.name, bound, branch.body)?;
        write(alloc, &mut self.lines, &turn(end, &next))?;
        Ok(())
    }

    /// Adds the begin of a case, after the code of its value.
    fn begin_case(&mut self, at: Place) -> Result<(), AllocError>
        requires { CanName self.old.setting self.old.consts at }
        ensures setting { self.new.setting ≡ self.old.setting }
        ensures scope { self.new.variables ≡ self.old.variables }
        ensures spans { self.new.spans ≡ self.old.spans }
        ensures lines { OnOk result (lines_of self.new.lines.items ≡ lines_of self.old.lines.items ++ case_begin_lines (file_label (context self.old.setting) (with_file (context self.old.setting).files self.old.consts at) at) at.line) }
        ensures asked { OnOk result (self.new.consts ≡ with_file (context self.old.setting).files self.old.consts at) }
        ensures more_integers { OnOk result (length self.new.consts.integers ≡ length self.old.consts.integers) }
        ensures more_strings { OnOk result (length self.new.consts.strings ≤ length self.old.consts.strings + 1) }
        ensures kept { Keeps self.old.consts self.new.consts }
    {
        let alloc = self.setting.alloc;
        let file = file_label(&self.setting, &mut self.consts, at)?;
        write(alloc, &mut self.lines, &case_begin(&file, at.line))?;
        Ok(())
    }
}

/// A variable whose value was pushed onto so many words.
fn pushed(depth: u32, ty: Ty) -> Variable
    requires { depth < 2 ^ 28 }
    ensures { result ≡ pushed depth ty }
{
    Variable {
        base: Base::Frame,
        offset: negative(4 * depth + 4),
        ty,
    }
}

/// Adds the lines of branches, in order, and their spans.
fn add_arms<'a>(
    arms: Vec<Arm<Vec<Span<'a>>>>,
    lines: &mut Vec<Line>,
    spans: &mut Vec<Span<'a>>,
) -> Result<(), AllocError>
    requires within { AllByRecursion IsWithin (map made_of arms.items) }
    ensures lines { OnOk result (lines_of lines.new.items ≡ lines_of lines.old.items ++ made_lines (map made_of arms.entry.items)) }
    ensures spans { OnOk result (map shown_of spans.new.items ≡ map shown_of spans.old.items ++ arms_spans (lines_of lines.old.items) (map made_of arms.entry.items)) }
{
    for arm in arms {
        let Arm {
            lines: mut own,
            spans: noted,
            ..
        } = arm;
        let before = lines.len();
        lines.append(&mut own)?;
        add_moved(&noted, before, spans)?;
    }
    Ok(())
}

/// Adds spans, moved on by so many lines.
fn add_moved<'a>(
    own: &[Span<'a>],
    before: usize,
    spans: &mut Vec<Span<'a>>,
) -> Result<(), AllocError>
    requires within { AllByRecursion (λ x. (before + x.from < 2 ^ 64) × (before + x.to < 2 ^ 64)) own.now }
    ensures { OnOk result (map shown_of spans.new.items ≡ map shown_of spans.old.items ++ map (later before) (map shown_of own.now)) }
{
    for span in own {
        spans.push(Span {
            from: before + span.from,
            to: before + span.to,
            ..*span
        })?;
    }
    Ok(())
}

/// Adds the test whether an object is of this class or one of those below it.
fn try_class(
    setting: &CodeSetting<'_>,
    class: ClassId,
    next: &[u8],
    lines: &mut Vec<Line>,
) -> Result<(), AllocError>
    requires sound { IsSound setting.now }
    requires class { class.0 < length setting.now.table.now }
    ensures { OnOk result (lines_of lines.new.items ≡ lines_of lines.old.items ++ range_code (context setting.now) class next.now) }
{
    let low = setting.minus_tag(class);
    let count = setting.tag_count(class);
    write(setting.alloc, lines, &try_tags(low, count, next))
}
