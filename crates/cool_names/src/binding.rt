//! Functions that collect the occurrences of names in `let` and `case` expressions, each with its definition, as marks.

ghost use Rattle.std.specs.Prelude.{◌≡◌, ◌<◌, ◌∷◌, ◌++◌, IfSome, OnOk};
ghost use Rattle.std.specs.List.{AllByRecursion};
ghost use Rattle.cool_syntax.specs.NodeGroups.{IsBinding};
ghost use Rattle.cool_syntax.specs.NodeLists.{tree_at, HasPartsBelow, cases_of, maybe_tree_of, tree_of_node};
ghost use Rattle.cool_names.specs.Marks.{marks_of, marks_of_cases, marks_of_maybe};
ghost use Rattle.cool_names.specs.Scopes.{variable_of, variables};
ghost use Rattle.cool_names.specs.NamingSettings.{IsReady, context};

use crate::declaration::Declaration;
use crate::expression::add_marks;
use crate::mark::{Mark, Role};
use crate::naming_setting::NamingSetting;
use cool_rules::Scope;
use cool_syntax::{Name, Node, NodeBranch, NodeId};
use std::alloc::AllocError;

/// Adds the marks of a `let` or a `case`, whose parts have numbers below this one. Returns `Err` only if memory runs out.
#[cycle(walk)]
pub(crate) fn add_binding<'a>(
    setting: &NamingSetting<'a, '_>,
    locals: &mut Scope<'a, Declaration<'a>>,
    marks: &mut Vec<Mark>,
    id: NodeId,
    node: &'a Node,
) -> Result<(), AllocError>
    requires group { IsBinding node.now }
    requires parts { HasPartsBelow id.0 node.now }
    requires ready { IsReady setting.now id.0 }
    ensures scope { OnOk result (locals.new ≡ locals.old) }
    ensures marks { OnOk result (marks.new.items ≡ marks.old.items ++ marks_of (context setting.now) (variables locals.old) (tree_of_node setting.now.body.now node.now)) }
{
    match node {
        Node::Let {
            at,
            name,
            declared,
            init,
            body,
        } => {
            setting
                .program
                .add_declared(marks, Role::Let, *at, name, declared)?;
            add_option(setting, locals, marks, id, *init)?;
            let variable = Declaration {
                declared: &declared.name,
                at: *at,
            };
            add_within(setting, locals, marks, name, variable, *body)
        }
        Node::Case {
            value,
            branches,
            ..
        } => {
            add_marks(setting, locals, marks, *value)?;
            add_branches(setting, locals, marks, id, branches.as_slice())
        }
        _ => unreachable!(),
    }
}

/// Adds the marks of an initial value, where there is one. Returns `Err` only if memory runs out.
#[cycle(walk)]
fn add_option<'a>(
    setting: &NamingSetting<'a, '_>,
    locals: &mut Scope<'a, Declaration<'a>>,
    marks: &mut Vec<Mark>,
    end: NodeId,
    init: Option<NodeId>,
) -> Result<(), AllocError>
    requires init { IfSome init (λ value. value.0 < end.0) }
    requires ready { IsReady setting.now end.0 }
    ensures scope { OnOk result (locals.new ≡ locals.old) }
    ensures marks { OnOk result (marks.new.items ≡ marks.old.items ++ marks_of_maybe (context setting.now) (variables locals.old) (maybe_tree_of setting.now.body.now init)) }
{
    match init {
        Some(value) => add_marks(setting, locals, marks, value),
        None => Ok(()),
    }
}

/// Adds the marks of an expression in the scope with one more variable. Returns `Err` only if memory runs out.
#[cycle(walk)]
fn add_within<'a>(
    setting: &NamingSetting<'a, '_>,
    locals: &mut Scope<'a, Declaration<'a>>,
    marks: &mut Vec<Mark>,
    name: &'a Name,
    variable: Declaration<'a>,
    body: NodeId,
) -> Result<(), AllocError>
    requires ready { IsReady setting.now body.0 }
    ensures scope { OnOk result (locals.new ≡ locals.old) }
    ensures marks { OnOk result (marks.new.items ≡ marks.old.items ++ marks_of (context setting.now) (record { name = name.now; value = variable_of variable.entry } ∷ variables locals.old) (tree_at setting.now.body.now body)) }
{
    locals.enter(name, variable)?;
    add_marks(setting, locals, marks, body)?;
    locals.leave();
    Ok(())
}

/// Adds the marks of branches, in order. Returns `Err` only if memory runs out.
#[cycle(walk)]
fn add_branches<'a>(
    setting: &NamingSetting<'a, '_>,
    locals: &mut Scope<'a, Declaration<'a>>,
    marks: &mut Vec<Mark>,
    end: NodeId,
    branches: &'a [NodeBranch],
) -> Result<(), AllocError>
    requires branches { AllByRecursion (λ branch. branch.body.0 < end.0) branches.now }
    requires ready { IsReady setting.now end.0 }
    ensures scope { OnOk result (locals.new ≡ locals.old) }
    ensures marks { OnOk result (marks.new.items ≡ marks.old.items ++ marks_of_cases (context setting.now) (variables locals.old) (cases_of setting.now.body.now branches.now)) }
{
    for branch in branches {
        setting.program.add_declared(marks, Role::Case, branch.at, &branch.name, &branch.declared)?;
        let variable = Declaration {
            declared: &branch.declared.name,
            at: branch.at,
        };
        add_within(setting, locals, marks, &branch.name, variable, branch.body)?;
    }
    Ok(())
}
