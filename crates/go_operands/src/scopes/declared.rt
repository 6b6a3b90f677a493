//! What a name stands for.

use crate::rules::builtin::Builtin;
use gj_base::{Place, Text};
use go_const::Const;
use go_core::FuncId;
use go_core::node::VarId;
use go_type::types::{Sig, TypeId};

/// What a name stands for. Types are ids of the table of the environment.
#[derive(Debug, Drop)]
pub enum Declared {
    /// A variable of a function.
    Var(VarId, TypeId),
    /// A package variable by its place in the program's list.
    Global(u64, TypeId),
    /// A constant. Its type is an untyped one where it has none.
    Const(Const, TypeId),
    TypeName(TypeId),
    Func(FuncId, Sig),
    /// An imported package by its path.
    Import(Text),
    Builtin(Builtin),
    /// `nil`.
    Nil,
    /// Own: each use of the name is a fault with this code.
    Refused(u16),
    /// Own: its declaration isn't typed. What uses it isn't either, and has no fault of its own.
    Unknown,
}

/// A declaration of a name.
#[derive(Debug, Drop)]
pub struct Declaration {
    /// Where the name stands; of a predeclared name, the start of the first file.
    pub place: Place,
    /// What it stands for.
    pub what: Declared,
}
