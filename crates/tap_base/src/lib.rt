//! Plain types that every other crate speaks of: the tree of a text, the system that it names, what
//! goes between processes, tokens, and refusals. `specs/` has words on lists, lines of words, ranges and
//! intervals; `proofs/` has the lemmas on lists, options and ranges that every crate cites.
#![tactic(auto)]

mod ast;
mod bytes;
mod join;
mod list;
mod memory;
mod place;
mod range;
mod refusal;
mod system;
mod text;
mod token;
mod tree;
mod wire;

pub use ast::{
    Ast, AstAction, AstBranch, AstConst, AstExpr, AstField, AstGuard, AstKind, AstMessage,
    AstProcess, AstScalar, AstStmt, AstTarget, AstType, AstVar, Bound, Ident,
};
pub use bytes::Bytes;
pub use join::Join;
pub use list::{List, item};
pub use memory::NoMemory;
pub use place::{Place, Range};
pub use refusal::{Refusal, RefusalCode};
pub use sqlite_items::Boxed;
pub use system::{Action, Field, Guard, Inputs, Message, Process, System, Var};
pub use text::Text;
pub use token::{Sign, Token, TokenKind};
pub use tree::{Branch, Expr, ExprKind, Op, Stmt, Target};
pub use wire::{Receive, Wire, WireField, receives_of, wire_of};
