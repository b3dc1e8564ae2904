//! The steps of the parser for classes, and for the heads and ends of their methods and attributes.

ghost use Rattle.std.specs.Prelude.{◌≡◌, ◌-◌, ◌<◌, ◌^◌, length, IfOk};
ghost use Rattle.cool_syntax.specs.NodeLists.{IsPostorder};
ghost use Rattle.cool_parser.specs.declared.mode.Mode.TheVariants as mode;
ghost use Rattle.cool_parser.specs.ParsingMachine as machine;
ghost use Rattle.cool_parser.specs.ParsingMachine.{moved};

use crate::boxed::Boxed;
use crate::item::{Item, OpenClass, OpenMethod, Variable};
use crate::mode::{Mode, Purpose};
use crate::parser::{Next, Parser};
use cool_syntax::{
    ClassDef, Feature, Key, Listed, MethodDef, Name, Place, Sign, Token, TokenKind, TypeRef,
};

impl Parser {
    /// `class name` has been read.
    pub(crate) fn class_head(&mut self, name: Name, at: Place, token: &Token) -> Next
        ensures same { IfOk result (λ m. moved self.new m ≡ machine.class_head self.old name at token.now.kind token.now.at) }
    {
        match token.kind {
            TokenKind::Key(Key::Inherits) => Ok(Some(Mode::ParentName { name, at })),
            TokenKind::Sign(Sign::LBrace) => self.open_class(name, at, None),
            _ => Ok(None),
        }
    }

    /// The opening brace of a class has been read.
    pub(crate) fn open_class(&mut self, name: Name, at: Place, parent: Option<TypeRef>) -> Next
        ensures same { IfOk result (λ m. moved self.new m ≡ machine.open_class self.old name at parent) }
    {
        let class = OpenClass {
            name,
            at,
            parent,
            features: Listed::new(Vec::new(self.alloc)),
        };
        Ok(Some(Mode::Features {
            class: Boxed::new(self.alloc, class)?,
        }))
    }

    /// `class name inherits` has been read.
    pub(crate) fn parent_name(&mut self, name: Name, at: Place, token: &Token) -> Next
        ensures same { IfOk result (λ m. moved self.new m ≡ machine.parent_name self.old name at token.now.kind token.now.at) }
    {
        match &token.kind {
            TokenKind::TypeId(parent) => Ok(Some(Mode::ClassBrace {
                name,
                at,
                parent: self.type_ref(parent, token.at)?,
            })),
            _ => Ok(None),
        }
    }

    /// A feature, or the end of the class, is due.
    pub(crate) fn features(&mut self, class: Boxed<OpenClass>, token: &Token) -> Next
        ensures same { IfOk result (λ m. moved self.new m ≡ machine.features self.old class token.now.kind token.now.at) }
    {
        match &token.kind {
            TokenKind::ObjectId(name) => Ok(Some(Mode::FeatureName {
                class,
                name: self.name(name)?,
                at: token.at,
            })),
            TokenKind::Sign(Sign::RBrace) => Ok(Some(Mode::ClassEnd { class })),
            _ => Ok(None),
        }
    }

    /// A class is whole.
    fn whole_class(&mut self, class: Boxed<OpenClass>) -> Next
        ensures same { IfOk result (λ m. moved self.new m ≡ machine.class_end self.old class) }
    {
        let class = class.into_inner();
        self.classes.push(ClassDef {
            name: class.name,
            at: class.at,
            parent: class.parent,
            features: class.features,
        })?;
        Ok(Some(Mode::File))
    }

    /// The name of a feature has been read.
    pub(crate) fn feature_name(
        &mut self,
        class: Boxed<OpenClass>,
        name: Name,
        at: Place,
        token: &Token,
    ) -> Next
        ensures same { IfOk result (λ m. moved self.new m ≡ machine.feature_name self.old class name at token.now.kind token.now.at) }
    {
        match token.kind {
            TokenKind::Sign(Sign::LParen) => {
                let formals = Listed::new(Vec::new(self.alloc));
                Ok(Some(Mode::FirstFormal {
                    method: OpenMethod {
                        class,
                        name,
                        at,
                        formals,
                    },
                }))
            }
            TokenKind::Sign(Sign::Colon) => Ok(Some(Mode::VariableType {
                purpose: Purpose::Attribute(class),
                name,
                at,
            })),
            _ => Ok(None),
        }
    }

    /// The opening parenthesis of formals has been read.
    pub(crate) fn first_formal(&mut self, method: OpenMethod, token: &Token) -> Next
        ensures same { IfOk result (λ m. moved self.new m ≡ machine.first_formal self.old method token.now.kind token.now.at) }
    {
        match token.kind {
            TokenKind::Sign(Sign::RParen) => Ok(Some(Mode::ResultColon { method })),
            _ => self.variable_name(Purpose::Formal(method), token),
        }
    }

    /// A formal has been read.
    pub(crate) fn formal_end(&mut self, method: OpenMethod, token: &Token) -> Next
        ensures same { IfOk result (λ m. moved self.new m ≡ machine.formal_end self.old method token.now.kind token.now.at) }
    {
        match token.kind {
            TokenKind::Sign(Sign::RParen) => Ok(Some(Mode::ResultColon { method })),
            TokenKind::Sign(Sign::Comma) => Ok(Some(Mode::VariableName {
                purpose: Purpose::Formal(method),
            })),
            _ => Ok(None),
        }
    }

    /// The type of a method's result is due.
    pub(crate) fn result_type(&mut self, method: OpenMethod, token: &Token) -> Next
        ensures same { IfOk result (λ m. moved self.new m ≡ machine.result_type self.old method token.now.kind token.now.at) }
    {
        match &token.kind {
            TokenKind::TypeId(name) => Ok(Some(Mode::MethodBrace {
                method,
                result: self.type_ref(name, token.at)?,
            })),
            _ => Ok(None),
        }
    }

    /// The name and the type of an attribute have been read.
    pub(crate) fn attribute_end(
        &mut self,
        class: Boxed<OpenClass>,
        variable: Variable,
        token: &Token,
    ) -> Next
        ensures same { IfOk result (λ m. moved self.new m ≡ machine.attribute_end self.old class variable token.now.kind token.now.at) }
    {
        match token.kind {
            TokenKind::Sign(Sign::Arrow) => self.wait(Item::AttributeInit { class, variable }),
            TokenKind::Sign(Sign::Semi) => Ok(Some(Mode::Features {
                class: class.with_feature(variable.attribute(None))?,
            })),
            _ => Ok(None),
        }
    }

    /// The value of an attribute has been read: it is all nodes so far.
    pub(crate) fn attribute(&mut self, class: Boxed<OpenClass>, variable: Variable) -> Next
        requires postorder { IsPostorder self.old.nodes }
        ensures same { IfOk result (λ m. moved self.new m ≡ machine.attribute_done class variable self.old) }
    {
        let init = Some(self.body());
        Ok(Some(Mode::Features {
            class: class.with_feature(variable.attribute(init))?,
        }))
    }

    /// The body of a method has been read: it is all nodes so far.
    pub(crate) fn method(&mut self, method: OpenMethod, returned: TypeRef) -> Next
        requires postorder { IsPostorder self.old.nodes }
        ensures same { IfOk result (λ m. moved self.new m ≡ machine.method_done method returned self.old) }
    {
        let OpenMethod {
            class,
            name,
            at,
            formals,
        } = method;
        let body = self.body();
        let feature = Feature::Method(MethodDef {
            name,
            at,
            formals,
            result: returned,
            body,
        });
        Ok(Some(Mode::MethodEnd {
            class: class.with_feature(feature)?,
        }))
    }

    /// A class, or the end of the file, is due.
    pub(crate) fn file(&mut self, token: &Token) -> Next
        ensures same { IfOk result (λ m. moved self.new m ≡ machine.step self.old mode.File token.now.kind token.now.at) }
    {
        match token.kind {
            TokenKind::Key(Key::Class) => Ok(Some(Mode::ClassName)),
            _ => Ok(None),
        }
    }

    /// `class` has been read.
    pub(crate) fn class_name(&mut self, token: &Token) -> Next
        ensures same { IfOk result (λ m. moved self.new m ≡ machine.step self.old mode.ClassName token.now.kind token.now.at) }
    {
        match &token.kind {
            TokenKind::TypeId(spelling) => Ok(Some(Mode::ClassHead {
                name: self.name(spelling)?,
                at: token.at,
            })),
            _ => Ok(None),
        }
    }

    /// `class name inherits parent` has been read.
    pub(crate) fn class_brace(
        &mut self,
        name: Name,
        at: Place,
        parent: TypeRef,
        token: &Token,
    ) -> Next
        ensures same { IfOk result (λ m. moved self.new m ≡ machine.step self.old (mode.ClassBrace name at parent) token.now.kind token.now.at) }
    {
        match token.kind {
            TokenKind::Sign(Sign::LBrace) => self.open_class(name, at, Some(parent)),
            _ => Ok(None),
        }
    }

    /// The closing brace of a class has been read.
    pub(crate) fn class_end(&mut self, class: Boxed<OpenClass>, token: &Token) -> Next
        ensures same { IfOk result (λ m. moved self.new m ≡ machine.step self.old (mode.ClassEnd class) token.now.kind token.now.at) }
    {
        match token.kind {
            TokenKind::Sign(Sign::Semi) => self.whole_class(class),
            _ => Ok(None),
        }
    }

    /// The formals of a method have been read.
    pub(crate) fn result_colon(&mut self, method: OpenMethod, token: &Token) -> Next
        ensures same { IfOk result (λ m. moved self.new m ≡ machine.step self.old (mode.ResultColon method) token.now.kind token.now.at) }
    {
        match token.kind {
            TokenKind::Sign(Sign::Colon) => Ok(Some(Mode::ResultType { method })),
            _ => Ok(None),
        }
    }

    /// The type of a method has been read.
    pub(crate) fn method_brace(
        &mut self,
        method: OpenMethod,
        returned: TypeRef,
        token: &Token,
    ) -> Next
        ensures same { IfOk result (λ m. moved self.new m ≡ machine.step self.old (mode.MethodBrace method returned) token.now.kind token.now.at) }
    {
        match token.kind {
            TokenKind::Sign(Sign::LBrace) => self.wait(Item::MethodBody {
                method,
                result: returned,
            }),
            _ => Ok(None),
        }
    }

    /// The closing brace of a method has been read.
    pub(crate) fn method_end(&mut self, class: Boxed<OpenClass>, token: &Token) -> Next
        ensures same { IfOk result (λ m. moved self.new m ≡ machine.step self.old (mode.MethodEnd class) token.now.kind token.now.at) }
    {
        match token.kind {
            TokenKind::Sign(Sign::Semi) => Ok(Some(Mode::Features { class })),
            _ => Ok(None),
        }
    }
}
