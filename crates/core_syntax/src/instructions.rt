//! Instructions.

use wast_parser::{Index, Span};

/// An instruction (WebAssembly, text format, Instructions).
#[derive(Drop)]
pub enum Instruction<'a> {
    /// `unreachable`
    Unreachable,
    /// `nop`
    Nop,
    /// `return`
    Return,
    /// `call` of a function
    Call(Index<'a>),
    /// `drop`
    Drop,
    /// `local.get` of a parameter or local
    LocalGet(Index<'a>),
    /// `local.set` of a parameter or local
    LocalSet(Index<'a>),
    /// `local.tee` of a parameter or local
    LocalTee(Index<'a>),
    /// `global.get` of a global
    GlobalGet(Index<'a>),
    /// `global.set` of a global
    GlobalSet(Index<'a>),
    /// `i32.const`
    I32Const(i32),
    /// `i64.const`
    I64Const(i64),
    /// `i32.add`
    I32Add,
    /// `i32.sub`
    I32Sub,
    /// `i32.mul`
    I32Mul,
    /// Another one, and all that follow it in its list, which are read and never written.
    Other(Span),
}

/// A list of instructions. Folded ones are laid out in order: operands stand before what takes them.
#[derive(Drop)]
pub struct Expression<'a> {
    /// The instructions, in order.
    pub instrs: Vec<Instruction<'a>>,
}
