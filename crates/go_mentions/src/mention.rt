//! What code does that the order of initialisation or the marks rest on.

use gj_base::Text;
use go_core::FuncId;
use go_core::node::{GlobalId, MethodName, VarId};
use go_type::types::TypeId;

/// One thing that code names, calls or does.
#[derive(Clone, Copy)]
pub enum Mention<'p> {
    NamesGlobal(GlobalId),
    /// The pointer to a variable, or to a part of it.
    TakesAddress(VarId),
    CallsFunction(FuncId),
    CallsMethod(&'p MethodName),
    /// Through a value of this type.
    CallsValue(TypeId),
    /// The method of this name and package through an interface value of this type.
    CallsDynamic(&'p Text, &'p Text, TypeId),
    /// After `go`: a new goroutine calls it.
    StartsFunction(FuncId),
    StartsMethod(&'p MethodName),
    /// As a value.
    TakesFunction(FuncId),
    TakesMethod(&'p MethodName),
    TakesDynamic(&'p Text, &'p Text, TypeId),
    /// It may wait, yield, defer or recover.
    Blocks,
}
