//! Functions that generate the code of dispatches, which are method calls.

ghost use Rattle.std.specs.Prelude.{◌≡◌, ◌++◌, ◌+◌, ◌<◌, ◌≤◌, length, IfOk, OnOk};
ghost use Rattle.mips_isa.specs.Lines.{lines_of};
ghost use Rattle.cool_syntax.specs.NodeGroups.{IsCall};
ghost use Rattle.cool_rules.specs.TypedParts.{IsPart};
ghost use Rattle.cool_codegen.specs.AddedCode.{Adds, AddsNode, AreExpressionsOf, CanName, HasRoom, IsNodeOf, IsReady};
ghost use Rattle.cool_codegen.specs.Asked.{Keeps};
ghost use Rattle.cool_codegen.specs.Code.{slot_code, static_code};
ghost use Rattle.cool_codegen.specs.Numbered.{all_asked, arguments_lines, arguments_spans, node_size, receiver_class, sizes_at, with_file};
ghost use Rattle.cool_codegen.specs.CodeSettings.{context, typed_body, IsSound};
ghost use Rattle.cool_codegen.specs.Variables.{scope_of};

use crate::code::Code;
use crate::code_setting::CodeSetting;
use crate::constant_labels::file_label;
use crate::piece::{call, call_static};
use cool_classes::ClassId;
use cool_consts::Consts;
use cool_layout::method_label;
use cool_rules::{class_of, method_meant, type_meant};
use cool_runtime::draft::write;
use cool_runtime::piece::push;
use cool_syntax::{Name, Node, NodeId, Place};
use mips_isa::Line;
use std::alloc::AllocError;

impl<'a> Code<'a> {
    /// Adds the code of a dispatch, whose parts have numbers below this one.
    #[cycle(coding)]
    #[inline(never)]
    pub(crate) fn dispatch(
        &mut self,
        depth: u32,
        id: NodeId,
        node: &'a Node,
    ) -> Result<(), AllocError>
        requires group { IsCall node.now }
        requires node { IsNodeOf self.old.setting (scope_of self.old.variables) id node.now }
        requires ready { IsReady self.old.setting self.old.variables }
        requires room { HasRoom self.old.consts depth (node_size self.old.setting.body.now node.now) }
        ensures made { AddsNode depth id node.now self.old self.new result }
    {
        match node {
            Node::Dispatch {
                at,
                receiver,
                name,
                args,
            } => {
                let args = args.as_slice();
                let class = self.class_of_receiver(*receiver);
                let after = self.arguments(depth, id, args)?;
                self.expression(after, *receiver)?;
                self.call_by_slot(*at, class, name)?;
                Ok(())
            }
            Node::StaticDispatch {
                at,
                receiver,
                class,
                name,
                args,
            } => {
                let args = args.as_slice();
                let inner = self.arguments(depth, id, args)?;
                self.expression(inner, *receiver)?;
                let class = class_of(
                    self.setting.class,
                    type_meant(self.setting.table, &class.name),
                );
                self.call_by_label(*at, class, name)?;
                Ok(())
            }
            _ => unreachable!(),
        }
    }

    /// Adds the code of arguments, each of which goes to the stack, and returns the number of words that are then there.
    #[cycle(coding)]
    fn arguments(&mut self, depth: u32, end: NodeId, args: &[NodeId]) -> Result<u32, AllocError>
        requires args { AreExpressionsOf self.old.setting (scope_of self.old.variables) end args.now }
        requires ready { IsReady self.old.setting self.old.variables }
        requires room { HasRoom self.old.consts depth (sizes_at self.old.setting.body.now args.now) }
        ensures pushed { IfOk result (λ inner. inner ≡ depth + length args.now) }
        ensures within { IfOk result (λ inner. inner ≤ depth + sizes_at self.old.setting.body.now args.now) }
        ensures made { Adds (arguments_lines (context self.old.setting) self.old.setting.body.now self.old.consts self.old.variables depth args.now) (arguments_spans self.old.setting.wanted (context self.old.setting) self.old.setting.body.now self.old.consts self.old.variables depth (lines_of self.old.lines.items) args.now) (all_asked (context self.old.setting).files self.old.setting.body.now self.old.consts args.now) (sizes_at self.old.setting.body.now args.now) self.old self.new result }
    {
        let mut inner = depth;
        for arg in args {
            self.expression(inner, *arg)?;
            write(self.setting.alloc, &mut self.lines, &push())?;
            inner += 1;
        }
        Ok(inner)
    }

    /// The class whose methods the receiver at this number has, by its type.
    fn class_of_receiver(&self, receiver: NodeId) -> ClassId
        requires part { IsPart (typed_body self.now.setting) (scope_of self.now.variables) receiver }
        requires ready { IsReady self.now.setting self.now.variables }
        ensures class { result ≡ receiver_class (context self.now.setting) self.now.setting.body.now (scope_of self.now.variables) receiver }
        ensures within { result.0 < length self.now.setting.table.now }
    {
        let object = self.setting.types.get(receiver);
        class_of(self.setting.class, object)
    }

    /// Adds the call of the method that the receiver has at the slot of this name.
    fn call_by_slot(&mut self, at: Place, class: ClassId, name: &Name) -> Result<(), AllocError>
        requires sound { IsSound self.old.setting }
        requires class { class.0 < length self.old.setting.table.now }
        requires names { CanName self.old.setting self.old.consts at }
        ensures setting { self.new.setting ≡ self.old.setting }
        ensures scope { self.new.variables ≡ self.old.variables }
        ensures spans { self.new.spans ≡ self.old.spans }
        ensures lines { OnOk result (lines_of self.new.lines.items ≡ lines_of self.old.lines.items ++ slot_code (context self.old.setting) (with_file (context self.old.setting).files self.old.consts at) at class name.now) }
        ensures asked { OnOk result (self.new.consts ≡ with_file (context self.old.setting).files self.old.consts at) }
        ensures more_integers { OnOk result (length self.new.consts.integers ≡ length self.old.consts.integers) }
        ensures more_strings { OnOk result (length self.new.consts.strings ≤ length self.old.consts.strings + 1) }
        ensures kept { Keeps self.old.consts self.new.consts }
    {
        let alloc = self.setting.alloc;
        let file = file_label(&self.setting, &mut self.consts, at)?;
        let offset = self.setting.slot_offset(class, name);
        write(alloc, &mut self.lines, &call(&file, at.line, offset))?;
        Ok(())
    }

    /// Adds the call of the method of this name that a class has, by its label.
    fn call_by_label(&mut self, at: Place, class: ClassId, name: &Name) -> Result<(), AllocError>
        requires sound { IsSound self.old.setting }
        requires class { class.0 < length self.old.setting.table.now }
        requires names { CanName self.old.setting self.old.consts at }
        ensures setting { self.new.setting ≡ self.old.setting }
        ensures scope { self.new.variables ≡ self.old.variables }
        ensures spans { self.new.spans ≡ self.old.spans }
        ensures lines { OnOk result (lines_of self.new.lines.items ≡ lines_of self.old.lines.items ++ static_code (context self.old.setting) (with_file (context self.old.setting).files self.old.consts at) at class name.now) }
        ensures asked { OnOk result (self.new.consts ≡ with_file (context self.old.setting).files self.old.consts at) }
        ensures more_integers { OnOk result (length self.new.consts.integers ≡ length self.old.consts.integers) }
        ensures more_strings { OnOk result (length self.new.consts.strings ≤ length self.old.consts.strings + 1) }
        ensures kept { Keeps self.old.consts self.new.consts }
    {
        let alloc = self.setting.alloc;
        let file = file_label(&self.setting, &mut self.consts, at)?;
        let label = method_label(
            alloc,
            self.setting.table,
            method_meant(self.setting.table, class, name),
        )?;
        write(alloc, &mut self.lines, &call_static(&file, at.line, &label))?;
        Ok(())
    }
}
