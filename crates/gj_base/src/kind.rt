//! Kinds of integers, and the operators of expressions.

/// A size of integers with or without sign.
#[derive(Clone, Copy, Debug, PartialEq, Eq)]
pub enum Kind {
    I8,
    I16,
    I32,
    I64,
    U8,
    U16,
    U32,
    U64,
}

/// An operator.
///
/// `Plus` is the unary `+`, `Compl` the unary `^`, and `To` a conversion to a kind, which only the
/// lowering of integer operations takes.
#[derive(Clone, Copy, Debug, PartialEq, Eq)]
pub enum Op {
    Add,
    Sub,
    Mul,
    Div,
    Rem,
    And,
    Or,
    Xor,
    AndNot,
    Shl,
    Shr,
    Eq,
    Ne,
    Lt,
    Le,
    Gt,
    Ge,
    AndThen,
    OrElse,
    Plus,
    Neg,
    Not,
    Compl,
    To(Kind),
}
