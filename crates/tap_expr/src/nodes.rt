//! Nodes of expressions, as long as these are not too many.

ghost use Rattle.std.specs.Prelude.{◌≡◌, IfOk};
ghost use Rattle.tap_lexer.specs.Leaves.{node};
ghost use Rattle.tap_expr.specs.inner.ExprNodes.{OfOne, OfTwo, Grows, Meets};

use crate::found::Built;
use std::alloc::Global;
use tap_base::{AstExpr, AstKind, Boxed, NoMemory, Op, Place, Text};

/// The most nodes that an expression may have.
const MOST_NODES: u16 = 200;

/// A node without parts.
pub fn leaf(kind: AstKind, place: Place) -> Built
    ensures { result ≡ Built.Whole (node kind place) 1 }
{
    Built::Whole {
        expr: AstExpr { kind, place },
        nodes: 1,
    }
}

/// The expression before which, or around which, a node is to stand, and the count of nodes with it.
/// `None` where these are too many.
fn grown(inner: Built) -> Option<(AstExpr, u8)>
    ensures { Grows inner result }
{
    match inner {
        Built::Whole { expr, nodes } if u16::from(nodes) < MOST_NODES => Some((expr, nodes + 1)),
        _ => None,
    }
}

/// The expressions on which an operation is to stand, and the count of nodes with it. `None` where
/// these are too many.
fn joined(left: Built, right: Built) -> Option<(AstExpr, AstExpr, u8)>
    ensures { Meets left right result }
{
    match (left, right) {
        (
            Built::Whole {
                expr: left,
                nodes: on_left,
            },
            Built::Whole {
                expr: right,
                nodes: on_right,
            },
        ) => {
            let nodes = u16::from(on_left) + u16::from(on_right) + 1;
            if nodes <= MOST_NODES {
                Some((left, right, nodes as u8))
            } else {
                None
            }
        }
        _ => None,
    }
}

/// An operation on two expressions.
pub fn operation(
    alloc: Global,
    op: Op,
    left: Built,
    right: Built,
    place: Place,
) -> Result<Built, NoMemory>
    ensures { IfOk result (λ b. OfTwo (λ c d. node (AstKind.Binary op c d) place) left right b) }
{
    let Some((left, right, nodes)) = joined(left, right) else {
        return Ok(Built::Large);
    };
    let kind = AstKind::Binary {
        op,
        left: Boxed::new(alloc, left)?,
        right: Boxed::new(alloc, right)?,
    };
    Ok(Built::Whole {
        expr: AstExpr { kind, place },
        nodes,
    })
}

/// `not` before an expression.
pub fn denial(alloc: Global, inner: Built, place: Place) -> Result<Built, NoMemory>
    ensures { IfOk result (λ b. OfOne (λ c. node (AstKind.Not c) place) inner b) }
{
    let Some((expr, nodes)) = grown(inner) else {
        return Ok(Built::Large);
    };
    let kind = AstKind::Not(Boxed::new(alloc, expr)?);
    Ok(Built::Whole {
        expr: AstExpr { kind, place },
        nodes,
    })
}

/// `-` before an expression.
pub fn opposite(alloc: Global, inner: Built, place: Place) -> Result<Built, NoMemory>
    ensures { IfOk result (λ b. OfOne (λ c. node (AstKind.Neg c) place) inner b) }
{
    let Some((expr, nodes)) = grown(inner) else {
        return Ok(Built::Large);
    };
    let kind = AstKind::Neg(Boxed::new(alloc, expr)?);
    Ok(Built::Whole {
        expr: AstExpr { kind, place },
        nodes,
    })
}

/// An element of an array.
pub fn element(alloc: Global, name: Text, index: Built, place: Place) -> Result<Built, NoMemory>
    ensures { IfOk result (λ b. OfOne (λ c. node (AstKind.Index name c) place) index b) }
{
    let Some((expr, nodes)) = grown(index) else {
        return Ok(Built::Large);
    };
    let kind = AstKind::Index {
        name,
        index: Boxed::new(alloc, expr)?,
    };
    Ok(Built::Whole {
        expr: AstExpr { kind, place },
        nodes,
    })
}
