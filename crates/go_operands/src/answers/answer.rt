//! What typing answers.
//!
//! What holds a node of the core tree is used up: where it isn't passed on, `gone` lets it go.

ghost use Rattle.std.specs.Prelude.{◌<◌, length};

use crate::rules::builtin::Builtin;
use gj_base::{Op, Place, Text};
use go_const::Const;
use go_core::node::{CoreExpr, CoreExprs};
use go_type::types::{Basis, TypeId};

/// A fault: its place, its code, and the name that its text tells, empty where it tells none.
#[derive(Drop)]
pub struct Flaw {
    pub place: Place,
    pub code: u16,
    pub name: Text,
}

/// Faults, one at least, in the order in which they are told.
#[derive(Drop)]
pub struct Flaws {
    pub items: Vec<Flaw>,
    ghost some: { 0 < length items.items },
}

/// An untyped number that is no constant, since an untyped constant in it is shifted by a count that
/// is none. What is around it decides its type.
#[cycle(pending)]
#[derive(Drop)]
pub struct Pending {
    pub form: Box<PendingForm>,
}

/// The form of such a number.
#[cycle(pending)]
#[derive(Drop)]
pub enum PendingForm {
    /// An untyped constant where it stands, as an operand.
    Fixed {
        at: Place,
        value: Const,
    },
    /// The shift, where it and the constant stand, of an untyped constant by a count.
    Shifted {
        at: Place,
        op: Op,
        value: Const,
        count: CoreExpr,
    },
    /// A further shift.
    Further {
        op: Op,
        operand: Pending,
        count: CoreExpr,
    },
    Signed {
        op: Op,
        operand: Pending,
    },
    Joined {
        op: Op,
        left: Pending,
        right: Pending,
    },
}

/// A value: its core, its type, and which constant it is, if one.
pub struct Found {
    pub core: CoreExpr,
    pub ty: TypeId,
    pub value: Option<Const>,
}

/// A single value.
pub enum Operand {
    Typed(Found),
    /// An untyped constant.
    Constant(Const),
    /// An untyped boolean that is no constant.
    Truth(CoreExpr),
    Pending(Pending, Basis),
    Nil,
}

/// What a node is.
pub enum Answer {
    /// A value of any type. The type of a call that gives no value or several is a tuple.
    Value(Found),
    /// An untyped constant.
    Constant(Const),
    /// An untyped boolean that is no constant.
    Truth(CoreExpr),
    Nil,
    Pending(Pending, Basis),
    Type(TypeId),
    /// An imported package by its path.
    Package(Text),
    BuiltIn(Builtin),
    /// `_`.
    Blank,
    /// A call of `println`, where it ends the line, or of `print`: a statement of its own.
    Prints {
        operands: CoreExprs,
        ends_line: bool,
    },
    /// Faulty: there is a fault at least.
    Wrong(Flaws),
    /// A part is faulty or isn't typed.
    Unknown,
}

/// An operand as a value of a type that is wanted, or what is wrong with it.
pub enum Passed {
    Value(CoreExpr, Option<Const>),
    Refused(Flaws),
    /// Of another kind or type.
    Unassignable,
}

/// A value with its type, or what is wrong.
pub enum Settled {
    Value(Found),
    Refused(Flaws),
}
