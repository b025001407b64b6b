//! A program in register code: what an object file holds.

use crate::instr::Instr;
use tap_base::{List, Text};

/// The messages and processes of a program. All numbers count from 0 in this order.
#[derive(Debug, Drop)]
pub struct Code {
    pub messages: List<CodeMessage>,
    pub processes: List<CodeProcess>,
}

/// A message, with its fields in order.
#[derive(Debug, Drop)]
pub struct CodeMessage {
    pub name: Text,
    pub fields: List<CodeField>,
}

/// A field: its width in bits, and its value where that is fixed.
#[derive(Clone, Copy, Debug, PartialEq, Eq)]
pub struct CodeField {
    pub width: u8,
    pub fixed: Option<u64>,
}

/// A process. Its registers are the cells of its variables, then its inputs, then the temporaries
/// of the action that runs.
#[derive(Debug, Drop)]
pub struct CodeProcess {
    pub name: Text,
    pub inputs: List<CodeInput>,
    pub variables: List<CodeVariable>,
    pub timers: u16,
    pub actions: List<CodeAction>,
}

/// An input, within `lo` to `hi`.
#[derive(Debug, Drop)]
pub struct CodeInput {
    pub name: Text,
    pub lo: i64,
    pub hi: i64,
}

/// A variable: how many cells it has, their range, and what each of them begins with.
#[derive(Debug, Drop)]
pub struct CodeVariable {
    pub name: Text,
    pub cells: u16,
    pub lo: i64,
    pub hi: i64,
    pub initial: i64,
}

/// When an action may run: where its guard's code leaves 1, where a message of a peer waits, or where
/// a timer is due.
#[derive(Clone, Copy, Debug, PartialEq, Eq)]
pub enum CodeKind {
    Local,
    Receive,
    Timeout,
}

/// The range of a temporary, which holds `lo` when a guard or a body begins.
#[derive(Clone, Copy, Debug, PartialEq, Eq)]
pub struct CodeTemporary {
    pub lo: i64,
    pub hi: i64,
}

/// An action. For a receive `a` is the message and `b` the peer, for a timeout `a` is the timer,
/// and for a local guard `result` is the register that its code leaves 1 in where it holds.
#[derive(Debug, Drop)]
pub struct CodeAction {
    pub kind: CodeKind,
    pub a: u16,
    pub b: u16,
    pub temporaries: List<CodeTemporary>,
    pub guard: List<Instr>,
    pub result: u32,
    pub body: List<Instr>,
}
