//! The parts of an expression, which are boxed expressions and lists: contracts see only their trees, and no address or capacity.

ghost use Rattle.std.specs.Prelude.{◌≡◌, [], ◌∷◌, ◌++◌, map, IfOk, if◌then◌else◌};
ghost use Rattle.std.specs.Result.{is_ok};
ghost use Rattle.cool_expr.specs.View.{tree, twig};

use crate::expr::{Branch, Expr};
use std::alloc::{AllocError, Global};
use std::marker::Model;

/// An expression in a box. A contract sees its tree.
#[derive(Drop)]
#[cycle(expr)]
pub struct Child {
    inner: Box<Expr>,
}

impl Model for Child {
    ghost use Rattle.cool_syntax.specs.Tree.{Tree, tree_size};
    ghost use Rattle.cool_syntax.specs.TreeCode.{tree_code};

    ghost Value = { Tree };

    ghost coded = { tree_code };

    ghost use Rattle.cool_expr.specs.View.{tree};

    ghost view = { λ c. tree c.inner.value };

    ghost size = { tree_size };

    ghost use Rattle.cool_expr.specs.Falls.{deep_le_size};

    ghost size_decreases = { λ a h. deep_le_size a.inner.value };
}

impl Child {
    /// The expression in a box of its own. Returns `Err` only if memory runs out; then the expression is dropped.
    pub fn new(alloc: Global, e: Expr) -> Result<Child, AllocError>
        ensures { IfOk result (λ c. c ≡ tree e) }
    {
        Ok(Child {
            inner: Box::new(alloc, e)?,
        })
    }

    /// The expression.
    pub fn expr(&self) -> &Expr
        ensures { tree result.now ≡ self.now }
    {
        &self.inner
    }
}

/// Expressions in order: the arguments of a dispatch, or the items of a block. A contract sees the list of their trees.
#[derive(Drop)]
#[cycle(expr)]
pub struct Exprs {
    items: Vec<Expr>,
}

impl Model for Exprs {
    ghost use Rattle.std.specs.Prelude.{List, map};
    ghost use Rattle.std.specs.Coded.{coded_list};
    ghost use Rattle.cool_syntax.specs.Tree.{Tree, trees_size, of_list};
    ghost use Rattle.cool_syntax.specs.TreeCode.{tree_code};

    ghost Value = { List Tree };

    ghost coded = { coded_list tree_code };

    ghost use Rattle.cool_expr.specs.View.{tree};

    ghost view = { λ s. map tree s.items.items };

    ghost size = { λ ts. trees_size (of_list ts) };

    ghost use Rattle.cool_expr.specs.Falls.{most_le_size};

    ghost size_decreases = { λ a h. most_le_size a.items.items };
}

impl Exprs {
    /// These expressions in order. It takes no memory.
    pub fn new(items: Vec<Expr>) -> Exprs
        ensures { result ≡ map tree items.items }
    {
        Exprs { items }
    }

    /// The expressions in order. It takes no memory.
    pub fn into_vec(self) -> Vec<Expr>
        ensures { map tree result.items ≡ self }
    {
        let Exprs { items } = self;
        items
    }

    /// Adds an expression at the end. Returns `Err` only if memory runs out; then the list stays as it is, and the expression is dropped.
    pub fn push(&mut self, item: Expr) -> Result<(), AllocError>
        ensures { self.new ≡ (if is_ok result then self.old ++ tree item ∷ [] else self.old) }
    {
        self.items.push(item)?;
        Ok(())
    }

    /// The expressions in order.
    pub fn as_slice(&self) -> &[Expr]
        ensures { map tree result.now ≡ self.now }
    {
        self.items.as_slice()
    }
}

/// The branches of a `case`, in order. A contract sees the list of their twigs.
#[derive(Drop)]
#[cycle(expr)]
pub struct Branches {
    items: Vec<Branch>,
}

impl Model for Branches {
    ghost use Rattle.std.specs.Prelude.{List, map, ◌+◌};
    ghost use Rattle.std.specs.Coded.{coded_list};
    ghost use Rattle.cool_syntax.specs.Tree.{Twig, cases_size, of_twigs};
    ghost use Rattle.cool_syntax.specs.TreeCode.{twig_code};

    ghost Value = { List Twig };

    ghost coded = { coded_list twig_code };

    ghost use Rattle.cool_expr.specs.View.{twig};

    ghost view = { λ s. map twig s.items.items };

    ghost size = { λ ws. cases_size (of_twigs ws) + 1 };

    ghost use Rattle.cool_expr.specs.Falls.{most_twigs_le_size};

    ghost size_decreases = { λ a h. most_twigs_le_size a.items.items };
}

impl Branches {
    /// These branches in order. It takes no memory.
    pub fn new(items: Vec<Branch>) -> Branches
        ensures { result ≡ map twig items.items }
    {
        Branches { items }
    }

    /// The branches in order. It takes no memory.
    pub fn into_vec(self) -> Vec<Branch>
        ensures { map twig result.items ≡ self }
    {
        let Branches { items } = self;
        items
    }

    /// Adds a branch at the end. Returns `Err` only if memory runs out; then the list stays as it is, and the branch is dropped.
    pub fn push(&mut self, item: Branch) -> Result<(), AllocError>
        ensures { self.new ≡ (if is_ok result then self.old ++ twig item ∷ [] else self.old) }
    {
        self.items.push(item)?;
        Ok(())
    }

    /// The branches in order.
    pub fn as_slice(&self) -> &[Branch]
        ensures { map twig result.now ≡ self.now }
    {
        self.items.as_slice()
    }
}
