//! The parser's step for one token, by its mode (the tokens that it has just read).

ghost use Rattle.std.specs.Prelude.{◌≡◌, ◌-◌, ◌<◌, ◌^◌, ◌+◌, length, IfOk};
ghost use Rattle.cool_parser.specs.ParsingMachine as machine;
ghost use Rattle.cool_parser.specs.ParsingMachine.{moved};
ghost use Rattle.cool_parser.specs.Waiting.{Good};

use crate::mode::Mode;
use crate::parser::{Next, Parser};
use cool_syntax::Token;

impl Parser {
    /// Takes one more token, as `step` does. Most tokens come in one of three modes, and a match of only these does not load the parts of the others.
    pub(crate) fn take(&mut self, mode: Mode, token: &Token) -> Next
        requires good { Good self.old mode }
        requires few { length self.old.nodes + length self.old.stack < 2 ^ 32 - 3 }
        ensures same { IfOk result (λ m. moved self.new m ≡ machine.step self.old mode token.now.kind token.now.at) }
    {
        match mode {
            Mode::Need => self.need(token),
            Mode::Identifier { name, at } => self.identifier(name, at, token),
            Mode::Have { operand } => self.have(operand, token),
            mode => self.step(mode, token),
        }
    }

    /// Takes one more token. Returns `None` if it may not stand here, and `Err` only if memory runs out.
    #[inline(never)]
    fn step(&mut self, mode: Mode, token: &Token) -> Next
        requires good { Good self.old mode }
        requires few { length self.old.nodes + length self.old.stack < 2 ^ 32 - 3 }
        ensures same { IfOk result (λ m. moved self.new m ≡ machine.step self.old mode token.now.kind token.now.at) }
    {
        match mode {
            Mode::File => self.file(token),
            Mode::ClassName => self.class_name(token),
            Mode::ClassHead { name, at } => self.class_head(name, at, token),
            Mode::ParentName { name, at } => self.parent_name(name, at, token),
            Mode::ClassBrace { name, at, parent } => self.class_brace(name, at, parent, token),
            Mode::Features { class } => self.features(class, token),
            Mode::ClassEnd { class } => self.class_end(class, token),
            Mode::FeatureName { class, name, at } => self.feature_name(class, name, at, token),
            Mode::FirstFormal { method } => self.first_formal(method, token),
            Mode::FormalEnd { method } => self.formal_end(method, token),
            Mode::ResultColon { method } => self.result_colon(method, token),
            Mode::ResultType { method } => self.result_type(method, token),
            Mode::MethodBrace { method, result } => self.method_brace(method, result, token),
            Mode::MethodEnd { class } => self.method_end(class, token),
            Mode::AttributeEnd { class, variable } => self.attribute_end(class, variable, token),
            Mode::VariableName { purpose } => self.variable_name(purpose, token),
            Mode::VariableColon { purpose, name, at } => self.variable_colon(
                purpose, name, at, token,
            ),
            Mode::VariableType { purpose, name, at } => self.variable_type(
                purpose, name, at, token,
            ),
            Mode::LetEnd { variable } => self.let_end(variable, token),
            Mode::BranchArrow { case, variable } => self.branch_arrow(case, variable, token),
            Mode::NextBranch { case } => self.next_branch(case, token),
            Mode::NextItem { at, items } => self.next_item(at, items, token),
            Mode::FirstArgument { call } => self.first_argument(call, token),
            Mode::Need => self.need(token),
            Mode::Identifier { name, at } => self.identifier(name, at, token),
            Mode::Have { operand } => self.have(operand, token),
            Mode::StaticClass { receiver } => self.static_class(receiver, token),
            Mode::StaticDot { receiver, class } => self.static_dot(receiver, class, token),
            Mode::MethodName { receiver, class } => self.method_name(receiver, class, token),
            Mode::CallParenthesis { call } => self.call_parenthesis(call, token),
            Mode::NewType { at } => self.new_type(at, token),
        }
    }
}
