//! Functions that generate the code of assignments and operators.

ghost use Rattle.std.specs.Prelude.{◌≡◌, ◌++◌, ◌+◌, ◌<◌, ◌≤◌, length, OnOk};
ghost use Rattle.mips_isa.specs.Lines.{lines_of};
ghost use Rattle.cool_syntax.specs.NodeGroups.{IsBinary, IsUnary};
ghost use Rattle.cool_runtime.specs.Routines.{push_lines};
ghost use Rattle.cool_codegen.specs.AddedCode.{Adds, AddsNode, CanName, HasRoom, IsExpressionOf, IsNodeOf, IsReady};
ghost use Rattle.cool_codegen.specs.Numbered.{asked_at, lines_at, node_size, operands_spans, operation_asked, operation_lines, size_at, tested_strings};
ghost use Rattle.cool_consts.specs.Constants.{Constants};
ghost use Rattle.cool_codegen.specs.Asked.{Extends, Keeps};
ghost use Rattle.cool_codegen.specs.Code.{operation_code};
ghost use Rattle.cool_codegen.specs.CodeSettings.{context};
ghost use Rattle.cool_codegen.specs.Variables.{scope_of};

use crate::code::Code;
use crate::code_setting::CodeSetting;
use crate::operation::{assign, compare, make_bool, make_int, test_divisor};
use crate::piece::{add, complement, divide, is_void, multiply, negate, subtract, values};
use cool_consts::Consts;
use cool_runtime::draft::write;
use cool_runtime::piece::push;
use cool_syntax::{ArithOp, Node, NodeId, Place};
use mips_isa::Line;
use std::alloc::AllocError;

impl<'a> Code<'a> {
    /// Adds the code of an assignment or of an operator with one operand, which has a number below this one.
    #[cycle(coding)]
    #[inline(never)]
    pub(crate) fn unary(&mut self, depth: u32, id: NodeId, node: &'a Node) -> Result<(), AllocError>
        requires group { IsUnary node.now }
        requires node { IsNodeOf self.old.setting (scope_of self.old.variables) id node.now }
        requires ready { IsReady self.old.setting self.old.variables }
        requires room { HasRoom self.old.consts depth (node_size self.old.setting.body.now node.now) }
        ensures made { AddsNode depth id node.now self.old self.new result }
    {
        let alloc = self.setting.alloc;
        match node {
            Node::Assign { name, value, .. } => {
                self.expression(depth, *value)?;
                assign(alloc, &self.variables, name, &mut self.lines)?;
                Ok(())
            }
            Node::IsVoid { value, .. } => {
                self.expression(depth, *value)?;
                write(alloc, &mut self.lines, &is_void())?;
                make_bool(&self.setting, id, &mut self.lines)?;
                Ok(())
            }
            Node::Neg { at, value } => {
                self.expression(depth, *value)?;
                write(alloc, &mut self.lines, &negate())?;
                make_int(&self.setting, *at, id, &mut self.consts, &mut self.lines)?;
                Ok(())
            }
            Node::Not { value, .. } => {
                self.expression(depth, *value)?;
                write(alloc, &mut self.lines, &complement())?;
                make_bool(&self.setting, id, &mut self.lines)?;
                Ok(())
            }
            _ => unreachable!(),
        }
    }

    /// Adds the code of an operator between two operands, which have numbers below this one.
    #[cycle(coding)]
    #[inline(never)]
    pub(crate) fn binary(
        &mut self,
        depth: u32,
        id: NodeId,
        node: &'a Node,
    ) -> Result<(), AllocError>
        requires group { IsBinary node.now }
        requires node { IsNodeOf self.old.setting (scope_of self.old.variables) id node.now }
        requires ready { IsReady self.old.setting self.old.variables }
        requires room { HasRoom self.old.consts depth (node_size self.old.setting.body.now node.now) }
        ensures made { AddsNode depth id node.now self.old self.new result }
    {
        match node {
            Node::Arith {
                at,
                op,
                left,
                right,
            } => {
                self.operands(depth, id, *left, *right)?;
                self.compute(*op, *at, id)?;
                Ok(())
            }
            Node::Compare {
                op,
                left,
                right,
                ..
            } => {
                self.operands(depth, id, *left, *right)?;
                compare(&self.setting, *op, id, &mut self.lines)?;
                Ok(())
            }
            _ => unreachable!(),
        }
    }

    /// Adds the code of two operands: the left one goes to the stack.
    #[cycle(coding)]
    fn operands(
        &mut self,
        depth: u32,
        end: NodeId,
        left: NodeId,
        right: NodeId,
    ) -> Result<(), AllocError>
        requires left_below { left.0 < end.0 }
        requires right_below { right.0 < end.0 }
        requires left { IsExpressionOf self.old.setting (scope_of self.old.variables) left }
        requires right { IsExpressionOf self.old.setting (scope_of self.old.variables) right }
        requires ready { IsReady self.old.setting self.old.variables }
        requires room { HasRoom self.old.consts depth (size_at self.old.setting.body.now left + size_at self.old.setting.body.now right + 1) }
        ensures made { Adds (lines_at (context self.old.setting) self.old.setting.body.now self.old.consts self.old.variables depth left ++ (push_lines ++ lines_at (context self.old.setting) self.old.setting.body.now (asked_at (context self.old.setting).files self.old.setting.body.now self.old.consts left) self.old.variables (depth + 1) right)) (operands_spans self.old.setting.wanted (context self.old.setting) self.old.setting.body.now self.old.consts self.old.variables depth (lines_of self.old.lines.items) left right) (asked_at (context self.old.setting).files self.old.setting.body.now (asked_at (context self.old.setting).files self.old.setting.body.now self.old.consts left) right) (size_at self.old.setting.body.now left + size_at self.old.setting.body.now right) self.old self.new result }
    {
        self.expression(depth, left)?;
        write(self.setting.alloc, &mut self.lines, &push())?;
        self.expression(depth + 1, right)?;
        Ok(())
    }

    /// Adds the operation of arithmetic on two operands.
    fn compute(&mut self, op: ArithOp, at: Place, id: NodeId) -> Result<(), AllocError>
        requires { CanName self.old.setting self.old.consts at }
        ensures setting { self.new.setting ≡ self.old.setting }
        ensures scope { self.new.variables ≡ self.old.variables }
        ensures spans { self.new.spans ≡ self.old.spans }
        ensures lines { OnOk result (lines_of self.new.lines.items ≡ lines_of self.old.lines.items ++ operation_lines (context self.old.setting) self.old.consts op at id) }
        ensures asked { OnOk result (self.new.consts ≡ operation_asked (context self.old.setting).files op at self.old.consts) }
        ensures more_integers { OnOk result (length self.new.consts.integers ≡ length self.old.consts.integers) }
        ensures more_strings { OnOk result (length self.new.consts.strings ≤ length self.old.consts.strings + 2) }
        ensures kept { Keeps self.old.consts self.new.consts }
    {
        write(self.setting.alloc, &mut self.lines, &values())?;
        operate(&self.setting, op, at, id, &mut self.consts, &mut self.lines)?;
        make_int(&self.setting, at, id, &mut self.consts, &mut self.lines)?;
        Ok(())
    }
}

/// Adds the operation itself, and for a division the test that the divisor is not 0.
fn operate(
    setting: &CodeSetting<'_>,
    op: ArithOp,
    at: Place,
    id: NodeId,
    consts: &mut Consts,
    lines: &mut Vec<Line>,
) -> Result<(), AllocError>
    requires { CanName setting.now consts.old at }
    ensures lines { OnOk result ((g : Constants) → Extends consts.new g → lines_of lines.new.items ≡ lines_of lines.old.items ++ operation_code (context setting.now) g op at id) }
    ensures integers { consts.new.integers ≡ consts.old.integers }
    ensures strings { OnOk result (consts.new.strings ≡ tested_strings (context setting.now).files op at consts.old.strings) }
    ensures kept { Keeps consts.old consts.new }
{
    let alloc = setting.alloc;
    match op {
        ArithOp::Add => write(alloc, lines, &add()),
        ArithOp::Sub => write(alloc, lines, &subtract()),
        ArithOp::Mul => write(alloc, lines, &multiply()),
        ArithOp::Div => {
            test_divisor(setting, at, id, consts, lines)?;
            write(alloc, lines, &divide())
        }
    }
}
