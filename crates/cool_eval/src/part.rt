//! Gives access to the expressions of a body (a list of nodes) one at a time.

ghost use Rattle.std.specs.Prelude.{◌≡◌, ◌<◌, None, Some, ◌∷◌, [], IfSome, map};
ghost use Rattle.std.specs.List.{AllByRecursion};
ghost use Rattle.cool_syntax.specs.NodeGroups.{IsCall};
ghost use Rattle.cool_syntax.specs.NodeLists.{all_trees, at_id, made, tree_at, twig_at, HasPartsBelow};
ghost use Rattle.cool_syntax.specs.Tree.{of_twigs, tree_size};
ghost use Rattle.cool_eval.specs.StackMachine.{branch_named};
ghost use Rattle.cool_eval.specs.Views.{IsFirst, taken_of};

use cool_syntax::{Body, Name, Node, NodeBranch, NodeId};
use std::marker::Model;

/// An expression of a body. A contract sees its tree.
#[derive(Drop)]
pub(crate) struct Part<'a> {
    body: &'a Body,
    id: NodeId,
}

impl<'a> Model for Part<'a> {
    ghost use Rattle.std.specs.Prelude.{◌<◌};
    ghost use Rattle.cool_syntax.specs.Tree.{Tree, tree_size};
    ghost use Rattle.cool_syntax.specs.TreeCode.{tree_code};
    ghost use Rattle.cool_syntax.specs.NodeLists.{tree_at};

    ghost Value = { Tree };

    ghost coded = { tree_code };

    ghost view = { λ p. tree_at p.body.now p.id };

    ghost invariant = { λ p. p.id.0 < tree_size p.body.now };
}

/// A dispatch of a body. A contract sees its tree.
#[derive(Drop)]
pub(crate) struct Call<'a> {
    body: &'a Body,
    node: &'a Node,
}

impl<'a> Model for Call<'a> {
    ghost use Rattle.cool_syntax.specs.Tree.{Tree, tree_size};
    ghost use Rattle.cool_syntax.specs.TreeCode.{tree_code};
    ghost use Rattle.cool_syntax.specs.NodeGroups.{IsCall};
    ghost use Rattle.cool_syntax.specs.NodeLists.{all_trees, made, HasPartsBelow};

    ghost Value = { Tree };

    ghost coded = { tree_code };

    ghost view = { λ c. made (all_trees c.body.now) c.node.now };

    ghost invariant = { λ c. IsCall c.node.now × HasPartsBelow (tree_size c.body.now) c.node.now };
}

/// Expressions of a body, in order. A contract sees their trees.
#[derive(Drop)]
pub(crate) struct Parts<'a> {
    body: &'a Body,
    ids: &'a [NodeId],
}

impl<'a> Model for Parts<'a> {
    ghost use Rattle.std.specs.Prelude.{◌<◌, List, map};
    ghost use Rattle.std.specs.Coded.{codes};
    ghost use Rattle.std.specs.List.{AllByRecursion};
    ghost use Rattle.cool_syntax.specs.Tree.{Tree, tree_size};
    ghost use Rattle.cool_syntax.specs.TreeCode.{tree_code};
    ghost use Rattle.cool_syntax.specs.NodeLists.{all_trees, at_id};

    ghost Value = { List Tree };

    ghost coded = { Prim.hlevel (codes, tree_code) };

    ghost view = { λ p. map (at_id (all_trees p.body.now)) p.ids.now };

    ghost invariant = { λ p. AllByRecursion (λ id. id.0 < tree_size p.body.now) p.ids.now };
}

/// The branches of a case. A contract sees them as twigs.
#[derive(Drop)]
pub(crate) struct Twigs<'a> {
    body: &'a Body,
    branches: &'a [NodeBranch],
}

impl<'a> Model for Twigs<'a> {
    ghost use Rattle.std.specs.Prelude.{◌<◌, List, map};
    ghost use Rattle.std.specs.Coded.{codes};
    ghost use Rattle.std.specs.List.{AllByRecursion};
    ghost use Rattle.cool_syntax.specs.Tree.{Twig, tree_size};
    ghost use Rattle.cool_syntax.specs.TreeCode.{twig_code};
    ghost use Rattle.cool_syntax.specs.NodeLists.{all_trees, twig_at};

    ghost Value = { List Twig };

    ghost coded = { Prim.hlevel (codes, twig_code) };

    ghost view = { λ p. map (twig_at (all_trees p.body.now)) p.branches.now };

    ghost invariant = { λ p. AllByRecursion (λ b. b.body.0 < tree_size p.body.now) p.branches.now };
}

impl<'a> Part<'a> {
    /// The whole expression of a body.
    pub(crate) fn whole(body: &'a Body) -> Part<'a>
        ensures { result ≡ body.now }
    {
        Part {
            body,
            id: body.root(),
        }
    }

    /// The same expression.
    pub(crate) fn copy(&self) -> Part<'a>
        ensures { result ≡ self.now }
    {
        Part {
            body: self.body,
            id: self.id,
        }
    }

    /// The body, the expression's number there, and its node, whose parts have smaller numbers.
    #[inline(always)]
    pub(crate) fn open(self) -> (&'a Body, NodeId, &'a Node)
        ensures below { result.1.0 < tree_size result.0.now }
        ensures tree { self.entry ≡ made (all_trees result.0.now) result.2.now }
        ensures parts { HasPartsBelow result.1.0 result.2.now }
    {
        (self.body, self.id, self.body.node(self.id))
    }
}

/// The expression of this number.
#[inline(always)]
pub(crate) fn part_at<'a>(body: &'a Body, id: NodeId) -> Part<'a>
    requires below { id.0 < tree_size body.now }
    ensures { result ≡ tree_at body.now id }
{
    Part { body, id }
}

/// The dispatch that this node is.
#[inline(always)]
pub(crate) fn call_at<'a>(body: &'a Body, id: NodeId, node: &'a Node) -> Call<'a>
    requires group { IsCall node.now }
    requires below { id.0 < tree_size body.now }
    requires parts { HasPartsBelow id.0 node.now }
    ensures { result ≡ made (all_trees body.now) node.now }
{
    Call { body, node }
}

/// The expressions of these numbers.
#[inline(always)]
pub(crate) fn parts_at<'a>(body: &'a Body, ids: &'a [NodeId]) -> Parts<'a>
    requires below { AllByRecursion (λ id. id.0 < tree_size body.now) ids.now }
    ensures { result ≡ map (at_id (all_trees body.now)) ids.now }
{
    Parts { body, ids }
}

/// These branches.
#[inline(always)]
pub(crate) fn twigs_at<'a>(body: &'a Body, branches: &'a [NodeBranch]) -> Twigs<'a>
    requires below { AllByRecursion (λ b. b.body.0 < tree_size body.now) branches.now }
    ensures { result ≡ map (twig_at (all_trees body.now)) branches.now }
{
    Twigs { body, branches }
}

impl<'a> Call<'a> {
    /// The body and the dispatch's node, whose parts stand in the body.
    #[inline(always)]
    pub(crate) fn open(self) -> (&'a Body, &'a Node)
        ensures group { IsCall result.1.now }
        ensures tree { self.entry ≡ made (all_trees result.0.now) result.1.now }
        ensures parts { HasPartsBelow (tree_size result.0.now) result.1.now }
    {
        (self.body, self.node)
    }
}

impl<'a> Parts<'a> {
    /// The first expression and the others. None exactly where there is none.
    pub(crate) fn split(self) -> Option<(Part<'a>, Parts<'a>)>
        ensures { IsFirst self.entry result }
    {
        let body = self.body;
        let (first, rest) = self.ids.split_first()?;
        Some((Part { body, id: *first }, Parts { body, ids: rest }))
    }
}

impl<'a> Twigs<'a> {
    /// The variable and the expression of the branch of a class's name, the first where several have it.
    pub(crate) fn named(&self, class: &[u8]) -> Option<(&'a Name, Part<'a>)>
        ensures { taken_of result ≡ branch_named (of_twigs self.now) class.now }
    {
        let body = self.body;
        for branch in self.branches {
            if branch.declared.name.as_slice() == class {
                return Some((
                    &branch.name,
                    Part {
                        body,
                        id: branch.body,
                    },
                ));
            }
        }
        None
    }
}
