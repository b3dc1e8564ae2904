//! Functions that generate the code of expressions: those of names, constants, new objects, conditionals, loops and blocks are here, and other modules have the
//! other kinds.

ghost use Rattle.std.specs.Prelude.{◌≡◌, ◌≤◌, List, [], ◌∷◌, ◌++◌, length};
ghost use Rattle.mips_isa.specs.Lines.{Line, lines_of};
ghost use Rattle.cool_syntax.specs.NodeGroups.{IsControl, IsLeaf};
ghost use Rattle.cool_codegen.specs.AddedCode.{Adds, AddsNode, AreExpressionsOf, HasRoom, IsExpressionOf, IsNodeOf, IsReady};
ghost use Rattle.cool_codegen.specs.Code.{truth_label};
ghost use Rattle.cool_codegen.specs.Numbered.{all_asked, asked_at, items_lines, items_spans, lines_at, node_asked, node_lines, node_size, node_spans, own_span, size_at, sizes_at, spans_at};
ghost use Rattle.cool_codegen.specs.CodeSettings.{context};
ghost use Rattle.cool_codegen.specs.Shown.{noted};
ghost use Rattle.cool_codegen.specs.Variables.{scope_of};

use crate::code::Code;
use crate::constant_labels::{int_label, string_label};
use crate::inner_labels::inner_label;
use crate::operation::{take_name, take_new};
use crate::piece::{mark, repeat, take, test, turn};
use cool_rules::type_meant;
use cool_runtime::draft::write;
use cool_syntax::{Node, NodeId};
use std::alloc::AllocError;

impl<'a> Code<'a> {
    /// Adds the code of the expression at this number, which begins and ends with so many words on the stack behind the frame. Returns `Err` only if
    /// memory runs out.
    ///
    /// The functions of the groups are not inlined: so a level of an expression takes no more of the stack than its own group needs.
    #[cycle(coding)]
    pub(crate) fn expression(&mut self, depth: u32, id: NodeId) -> Result<(), AllocError>
        requires expression { IsExpressionOf self.old.setting (scope_of self.old.variables) id }
        requires ready { IsReady self.old.setting self.old.variables }
        requires room { HasRoom self.old.consts depth (size_at self.old.setting.body.now id) }
        ensures made { Adds (lines_at (context self.old.setting) self.old.setting.body.now self.old.consts self.old.variables depth id) (spans_at self.old.setting.wanted (context self.old.setting) self.old.setting.body.now self.old.variables depth (length (lines_of self.old.lines.items)) id) (asked_at (context self.old.setting).files self.old.setting.body.now self.old.consts id) (size_at self.old.setting.body.now id) self.old self.new result }
        ensures some { 1 ≤ size_at self.old.setting.body.now id }
    {
        let node = self.node_of(depth, id);
        let span = self.begin_span(depth, node)?;
        self.parts(depth, id, node)?;
        self.end_span(span);
        Ok(())
    }

    /// Adds the code of a node, behind the begin of its span.
    #[cycle(coding)]
    fn parts(&mut self, depth: u32, id: NodeId, node: &'a Node) -> Result<(), AllocError>
        requires node { IsNodeOf self.old.setting (scope_of self.old.variables) id node.now }
        requires ready { IsReady self.old.setting self.old.variables }
        requires room { HasRoom self.old.consts depth (node_size self.old.setting.body.now node.now) }
        ensures made { AddsNode depth id node.now self.old self.new result }
    {
        match node {
            Node::Dispatch { .. } | Node::StaticDispatch { .. } => self.dispatch(depth, id, node),
            Node::Let { .. } | Node::Case { .. } => self.binding(depth, id, node),
            Node::If { .. } | Node::While { .. } | Node::Block { .. } => {
                self.control(depth, id, node)
            }
            Node::Assign { .. } | Node::IsVoid { .. } | Node::Neg { .. } | Node::Not { .. } => {
                self.unary(depth, id, node)
            }
            Node::Arith { .. } | Node::Compare { .. } => self.binary(depth, id, node),
            Node::New { .. }
            | Node::Id { .. }
            | Node::Int { .. }
            | Node::Str { .. }
            | Node::Bool { .. } => self.leaf(depth, id, node),
        }
    }

    /// The node of this number, by which the expression there is what its node is.
    fn node_of(&self, depth: u32, id: NodeId) -> &'a Node
        requires { IsExpressionOf self.now.setting (scope_of self.now.variables) id }
        ensures node { IsNodeOf self.now.setting (scope_of self.now.variables) id result.now }
        ensures size { size_at self.now.setting.body.now id ≡ node_size self.now.setting.body.now result.now }
        ensures some { 1 ≤ size_at self.now.setting.body.now id }
        ensures lines { lines_at (context self.now.setting) self.now.setting.body.now self.now.consts self.now.variables depth id ≡ node_lines (context self.now.setting) self.now.setting.body.now self.now.consts self.now.variables depth id result.now }
        ensures asked { asked_at (context self.now.setting).files self.now.setting.body.now self.now.consts id ≡ node_asked (context self.now.setting).files self.now.setting.body.now self.now.consts result.now }
        ensures spans { (before : List Line) → spans_at self.now.setting.wanted (context self.now.setting) self.now.setting.body.now self.now.variables depth (length before) id ≡ noted self.now.setting.wanted (own_span (context self.now.setting) self.now.setting.body.now self.now.consts self.now.variables depth before id result.now ∷ []) ++ node_spans self.now.setting.wanted (context self.now.setting) self.now.setting.body.now self.now.consts self.now.variables depth before id result.now }
    {
        self.setting.body.node(id)
    }

    /// Adds the code of a name, a constant or a new object.
    #[inline(never)]
    fn leaf(&mut self, depth: u32, id: NodeId, node: &Node) -> Result<(), AllocError>
        requires group { IsLeaf node.now }
        requires node { IsNodeOf self.old.setting (scope_of self.old.variables) id node.now }
        requires ready { IsReady self.old.setting self.old.variables }
        requires room { HasRoom self.old.consts depth (node_size self.old.setting.body.now node.now) }
        ensures made { AddsNode depth id node.now self.old self.new result }
    {
        let alloc = self.setting.alloc;
        match node {
            Node::Id { name, .. } => {
                take_name(alloc, &self.variables, name, &mut self.lines)?;
                Ok(())
            }
            Node::New { class, .. } => {
                let made = type_meant(self.setting.table, &class.name);
                take_new(&self.setting, made, &mut self.lines)?;
                Ok(())
            }
            Node::Int { value, .. } => {
                let label = int_label(alloc, &mut self.consts, *value)?;
                write(alloc, &mut self.lines, &take(&label))?;
                Ok(())
            }
            Node::Str { bytes, .. } => {
                let label = string_label(alloc, &mut self.consts, bytes.as_slice())?;
                write(alloc, &mut self.lines, &take(&label))?;
                Ok(())
            }
            Node::Bool { value, .. } => {
                write(alloc, &mut self.lines, &take(truth_label(*value)))?;
                Ok(())
            }
            _ => unreachable!(),
        }
    }

    /// Adds the code of a conditional, a loop or a block, whose parts have numbers below this one.
    #[cycle(coding)]
    #[inline(never)]
    fn control(&mut self, depth: u32, id: NodeId, node: &'a Node) -> Result<(), AllocError>
        requires group { IsControl node.now }
        requires node { IsNodeOf self.old.setting (scope_of self.old.variables) id node.now }
        requires ready { IsReady self.old.setting self.old.variables }
        requires room { HasRoom self.old.consts depth (node_size self.old.setting.body.now node.now) }
        ensures made { AddsNode depth id node.now self.old self.new result }
    {
        let alloc = self.setting.alloc;
        match node {
            Node::If {
                test: predicate,
                yes,
                no,
                ..
            } => {
                let other = inner_label(&self.setting, "else", id)?;
                let end = inner_label(&self.setting, "end", id)?;
                self.expression(depth, *predicate)?;
                write(alloc, &mut self.lines, &test(&other))?;
                self.expression(depth, *yes)?;
                write(alloc, &mut self.lines, &turn(&end, &other))?;
                self.expression(depth, *no)?;
                write(alloc, &mut self.lines, &mark(&end))?;
                Ok(())
            }
            Node::While {
                test: predicate,
                body,
                ..
            } => {
                let begin = inner_label(&self.setting, "loop", id)?;
                let end = inner_label(&self.setting, "end", id)?;
                write(alloc, &mut self.lines, &mark(&begin))?;
                self.expression(depth, *predicate)?;
                write(alloc, &mut self.lines, &test(&end))?;
                self.expression(depth, *body)?;
                write(alloc, &mut self.lines, &repeat(&begin, &end))?;
                Ok(())
            }
            Node::Block { items: parts, .. } => self.items(depth, id, parts.as_slice()),
            _ => unreachable!(),
        }
    }

    /// Adds the code of the items of a block.
    #[cycle(coding)]
    fn items(&mut self, depth: u32, end: NodeId, items: &[NodeId]) -> Result<(), AllocError>
        requires items { AreExpressionsOf self.old.setting (scope_of self.old.variables) end items.now }
        requires ready { IsReady self.old.setting self.old.variables }
        requires room { HasRoom self.old.consts depth (sizes_at self.old.setting.body.now items.now) }
        ensures made { Adds (items_lines (context self.old.setting) self.old.setting.body.now self.old.consts self.old.variables depth items.now) (items_spans self.old.setting.wanted (context self.old.setting) self.old.setting.body.now self.old.consts self.old.variables depth (lines_of self.old.lines.items) items.now) (all_asked (context self.old.setting).files self.old.setting.body.now self.old.consts items.now) (sizes_at self.old.setting.body.now items.now) self.old self.new result }
    {
        for item in items {
            self.expression(depth, *item)?;
        }
        Ok(())
    }
}

/// The label of a Bool.
#[tactic(auto, unfolding(cool_runtime::specs::Labels::false_constant, cool_runtime::specs::Labels::true_constant))]
fn truth_label(value: bool) -> &'static [u8]
    ensures { result.now ≡ truth_label value }
{
    if value {
        b"bool_const1"
    } else {
        b"bool_const0"
    }
}
