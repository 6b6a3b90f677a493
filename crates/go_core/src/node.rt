//! The core tree of expressions: what is left of them once types are known.
//!
//! The Go Programming Language Specification (as of Go 1.17), "Expressions". Parts are evaluated
//! from left to right. `specs/CoreTree.antt` is the same tree without boxes and vectors, and with
//! types as trees.
//!
//! An expression and a place are a box with the form, so that each takes one word where it stands.

use crate::tree::FuncId;
use gj_base::{Op, Text};
use go_type::Ids;
use go_type::types::TypeId;

/// A variable of the whole program by its number.
#[derive(Clone, Copy, Debug, PartialEq, Eq)]
pub struct VarId(pub u64);

/// A package variable by its place in the program's list.
#[derive(Clone, Copy, Debug, PartialEq, Eq)]
pub struct GlobalId(pub u64);

/// A variable with its type.
#[derive(Clone, Copy, Debug)]
pub struct Var {
    pub id: VarId,
    pub ty: TypeId,
}

/// Variables, in order.
#[derive(Drop)]
pub struct Vars {
    pub items: Vec<Var>,
}

/// A method by the type whose row it has, its name, and its package, which is empty for an
/// exported name.
#[derive(Drop)]
pub struct MethodName {
    pub ty: TypeId,
    pub name: Text,
    pub package: Text,
}

/// A constant's value: a whole number lies in the range of its type.
#[derive(Drop)]
pub enum Constant {
    Bool(bool),
    Int(i128),
    Text(Text),
}

/// An expression.
#[cycle(node)]
#[derive(Drop)]
pub struct CoreExpr {
    pub form: Box<CoreForm>,
}

/// The form of an expression. `ty` is the type of what it gives, unless its variant says otherwise.
#[cycle(node)]
#[derive(Drop)]
pub enum CoreForm {
    Const {
        ty: TypeId,
        value: Constant,
    },
    Zero {
        ty: TypeId,
    },
    Read {
        ty: TypeId,
        place: CorePlace,
    },
    /// The pointer to a place.
    Address {
        ty: TypeId,
        place: CorePlace,
    },
    /// `+`, `-` or `^` of an integer.
    Unary {
        op: Op,
        ty: TypeId,
        operand: CoreExpr,
    },
    /// Arithmetic or a shift on integers.
    Binary {
        op: Op,
        ty: TypeId,
        left: CoreExpr,
        right: CoreExpr,
    },
    Concat {
        ty: TypeId,
        left: CoreExpr,
        right: CoreExpr,
    },
    /// Whether both operands, of the type `operands`, are equal; or, where it is negated, aren't.
    Equal {
        negated: bool,
        operands: TypeId,
        ty: TypeId,
        left: CoreExpr,
        right: CoreExpr,
    },
    /// `<`, `<=`, `>` or `>=` of two integers or two strings.
    Less {
        op: Op,
        operands: TypeId,
        ty: TypeId,
        left: CoreExpr,
        right: CoreExpr,
    },
    AndThen {
        ty: TypeId,
        left: CoreExpr,
        right: CoreExpr,
    },
    OrElse {
        ty: TypeId,
        left: CoreExpr,
        right: CoreExpr,
    },
    Not {
        ty: TypeId,
        operand: CoreExpr,
    },
    Convert {
        from: TypeId,
        ty: TypeId,
        operand: CoreExpr,
    },
    ByteAt {
        text: CoreExpr,
        index: CoreExpr,
    },
    /// A part of a string, of a slice, or of the array that a pointer points to.
    SliceOf {
        from: TypeId,
        ty: TypeId,
        operand: CoreExpr,
        low: Option<CoreExpr>,
        high: Option<CoreExpr>,
        limit: Option<CoreExpr>,
    },
    /// A struct, an array, or a slice of `count` elements; what no element is given for is zero.
    Build {
        ty: TypeId,
        count: u32,
        elements: CoreElements,
    },
    BuildMap {
        ty: TypeId,
        pairs: CorePairs,
    },
    /// A function with those variables that it captures.
    Closure {
        ty: TypeId,
        func: FuncId,
    },
    /// A method value of a method's row.
    Bind {
        ty: TypeId,
        method: MethodName,
        receiver: CoreExpr,
    },
    /// A method value of an interface value.
    BindDynamic {
        ty: TypeId,
        name: Text,
        package: Text,
        receiver: CoreExpr,
    },
    /// As many values as the function has results.
    Call {
        results: Ids,
        callee: Callee,
        operands: CoreExprs,
    },
    /// The value for a key of a map of the type `map_type`; also whether it is there.
    MapGet {
        map_type: TypeId,
        with_ok: bool,
        operand: CoreExpr,
        key: CoreExpr,
    },
    /// The length of a value of the type `from`.
    Len {
        from: TypeId,
        operand: CoreExpr,
    },
    Cap {
        from: TypeId,
        operand: CoreExpr,
    },
    /// A slice with the elements of another, or the bytes of a string, after its own.
    Append {
        ty: TypeId,
        from: TypeId,
        operand: CoreExpr,
        elements: CoreExpr,
    },
    /// How many elements were copied into a slice of the type `ty`.
    CopyElems {
        ty: TypeId,
        from: TypeId,
        target: CoreExpr,
        source: CoreExpr,
    },
    MakeSlice {
        ty: TypeId,
        length: CoreExpr,
        capacity: Option<CoreExpr>,
    },
    MakeMap {
        ty: TypeId,
        count: Option<CoreExpr>,
    },
    MakeChan {
        ty: TypeId,
        capacity: Option<CoreExpr>,
    },
    /// The pointer to a fresh zero of the type.
    New {
        ty: TypeId,
    },
    /// An interface value of a value of the type `from`, which is no interface.
    Wrap {
        from: TypeId,
        ty: TypeId,
        operand: CoreExpr,
    },
    /// The value of the type in an interface value; also whether it is of that type.
    Assert {
        ty: TypeId,
        with_ok: bool,
        operand: CoreExpr,
    },
    Basic {
        ty: TypeId,
        operand: CoreExpr,
    },
    /// A value from a channel of the type `channel`; also whether it was sent.
    Receive {
        channel: TypeId,
        with_ok: bool,
        operand: CoreExpr,
    },
    Recover {
        ty: TypeId,
    },
    /// The pointer to a gate's cell, which is made where the hidden pointer is nil.
    GateMake {
        pointer: CoreExpr,
    },
    /// Adds to a gate, and gives the new value.
    GateAdd {
        cell: CoreExpr,
        number: CoreExpr,
    },
    /// Fresh variables with these values, for operands that no place holds.
    Let {
        vars: Vars,
        values: CoreExprs,
        body: CoreExpr,
    },
}

/// What denotes storage.
#[cycle(node)]
#[derive(Drop)]
pub struct CorePlace {
    pub form: Box<PlaceForm>,
}

/// The form of what denotes storage.
#[cycle(node)]
#[derive(Drop)]
pub enum PlaceForm {
    Local(VarId),
    Global(GlobalId),
    Deref(CoreExpr),
    /// The field with this number of a struct of the type.
    Field {
        struct_type: TypeId,
        number: u32,
        place: CorePlace,
    },
    Elem {
        array_type: TypeId,
        place: CorePlace,
        index: CoreExpr,
    },
    SliceElem {
        slice_type: TypeId,
        operand: CoreExpr,
        index: CoreExpr,
    },
}

/// What is called.
#[cycle(node)]
#[derive(Drop)]
pub enum Callee {
    Function(FuncId),
    /// A method by its row; the first operand is the receiver.
    Method(MethodName),
    /// A function value.
    Value(CoreExpr),
    /// A method of an interface value.
    Dynamic {
        name: Text,
        package: Text,
        receiver: CoreExpr,
    },
}

/// Operands, from left to right.
#[cycle(node)]
#[derive(Drop)]
pub struct CoreExprs {
    pub items: Vec<CoreExpr>,
}

/// Elements, in the order of the text.
#[cycle(node)]
#[derive(Drop)]
pub struct CoreElements {
    pub items: Vec<CoreElement>,
}

/// An element with its place.
#[cycle(node)]
#[derive(Drop)]
pub struct CoreElement {
    pub index: u32,
    pub value: CoreExpr,
}

/// The pairs of a map, in the order of the text.
#[cycle(node)]
#[derive(Drop)]
pub struct CorePairs {
    pub items: Vec<CorePair>,
}

/// A key with its value.
#[cycle(node)]
#[derive(Drop)]
pub struct CorePair {
    pub key: CoreExpr,
    pub value: CoreExpr,
}
