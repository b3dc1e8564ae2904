//! Tests of library calls that no command makes, once each: syntax trees that are taken out of an arena, copied, compared and written as tokens; values for the
//! nodes of trees; and the lines of one run-time routine.

ghost use Rattle.std.specs.Prelude.{◌≡◌, ◌<◌, [], length};

use cool_expr::{Expr, boxed_tree, copy_expr, same_expr, tokens_of};
use cool_lexer::lex;
use cool_parser::parse;
use cool_pool::{Column, Pool};
use cool_runtime::{Routine, routine};
use cool_syntax::{Node, NodeId, Place};
use std::alloc::{AllocError, Global};
use std::test::Fail;

/// The place of all nodes.
const AT: Place = Place {
    file: 0,
    line: 1,
    byte: 0,
};

/// Places a constant in a pool.
fn place_one(pool: &mut Pool) -> Result<NodeId, Fail>
    requires { pool.old.nodes ≡ [] }
{
    match pool.place(Node::Int { at: AT, value: 1 }) {
        Ok(one) => Ok(one),
        Err(_) => Err(Fail::from("no room")),
    }
}

/// Whether the copy of a tree is the same tree.
fn is_copied(alloc: Global, tree: &Expr) -> Result<bool, AllocError> {
    match copy_expr(alloc, tree) {
        Ok(copy) => Ok(same_expr(&copy, tree)),
        Err(AllocError) => Err(AllocError),
    }
}

/// Whether the copy of the tree at a number is the same tree.
fn is_copied_at(alloc: Global, pool: &Pool, id: NodeId) -> Result<bool, AllocError>
    requires { id.0 < length pool.now.nodes }
{
    match boxed_tree(alloc, pool, id) {
        Ok(tree) => is_copied(alloc, &tree),
        Err(AllocError) => Err(AllocError),
    }
}

#[test]
fn a_pool_gives_the_tree_at_a_number(rt: HostRuntime) -> Result<(), Fail> {
    let mut pool = Pool::new(rt.alloc());
    let one = place_one(&mut pool)?;
    assert!(rt; one.0 < pool.len());
    assert!(rt; is_copied_at(rt.alloc(), &pool, one)?);
    Ok(())
}

#[test]
fn a_column_is_filled_again(rt: HostRuntime) -> Result<(), Fail> {
    let mut column = Column::new(rt.alloc(), 1)?;
    column.push(7);
    assert_eq!(rt; *column.get(NodeId(0)), 7);
    column.clear();
    column.push(8);
    assert_eq!(rt; *column.get(NodeId(0)), 8);
    Ok(())
}

/// The operand that is no constant stands in parentheses.
#[test]
fn a_file_is_written_as_tokens(rt: HostRuntime) -> Result<(), Fail> {
    let text = b"class A { x : Int <- 1 - 2 - 3; };".as_slice();
    let Ok(found) = lex(rt.alloc(), 0, text) else {
        return Err(Fail::from("no tokens"));
    };
    let Ok(tree) = parse(rt.alloc(), 0, found.tokens.as_slice(), found.end) else {
        return Err(Fail::from("no tree"));
    };
    assert_eq!(rt; found.tokens.len(), 15);
    assert_eq!(rt; tokens_of(rt.alloc(), &tree)?.len(), 17);
    Ok(())
}

/// A label, and two instructions.
#[test]
fn a_routine_has_its_lines(rt: HostRuntime) -> Result<(), Fail> {
    assert_eq!(rt; routine(rt.alloc(), Routine::Length)?.len(), 3);
    Ok(())
}
