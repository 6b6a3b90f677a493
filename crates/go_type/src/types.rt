//! The types of a table, one level each: the parts of a type are ids of other types.

use crate::lists::{Declared, Fields, Ids, Methods};
use gj_base::Text;

/// A type's place in its table.
#[derive(Clone, Copy, Debug)]
pub struct TypeId(pub u64);

/// A named type's place in its table.
#[derive(Clone, Copy, Debug)]
pub struct NamedId(pub u64);

/// An integer type by its name: `byte` is `Uint8` and `rune` is `Int32`.
#[derive(Clone, Copy, Debug)]
pub enum IntName {
    Int,
    Int8,
    Int16,
    Int32,
    Int64,
    Uint,
    Uint8,
    Uint16,
    Uint32,
    Uint64,
    Uintptr,
}

/// The kind of an untyped constant, or of an untyped truth value.
#[derive(Clone, Copy, Debug)]
pub enum Basis {
    Bool,
    Int,
    Rune,
    Str,
}

/// What a channel is for.
#[derive(Clone, Copy, Debug)]
pub enum Dir {
    Both,
    Send,
    Receive,
}

/// A field of a struct. `package` is empty for an exported name, and `tag` where there is no tag.
#[derive(Debug, Drop)]
pub struct FieldRow {
    pub name: Text,
    pub package: Text,
    pub ty: TypeId,
    pub embedded: bool,
    pub tag: Text,
}

/// A signature. `variadic` says whether the last parameter is variadic; its type is then the slice.
#[derive(Debug, Drop)]
pub struct Sig {
    pub params: Ids,
    pub results: Ids,
    pub variadic: bool,
}

/// A method of an interface or of a method set. `package` is empty for an exported name.
#[derive(Debug, Drop)]
pub struct MethodSpec {
    pub name: Text,
    pub package: Text,
    pub sig: Sig,
}

/// One level of a type.
#[derive(Debug, Drop)]
pub enum GoType {
    Bool,
    Str,
    Int(IntName),
    /// The type of `nil`.
    Nil,
    Untyped(Basis),
    Array(u32, TypeId),
    Slice(TypeId),
    Struct(Fields),
    Pointer(TypeId),
    Func(Sig),
    /// Methods sorted by name, then package.
    Interface(Methods),
    Map(TypeId, TypeId),
    Chan(Dir, TypeId),
    Named(NamedId),
    /// The results of a call.
    Tuple(Ids),
}

/// A declared method of a named type; `pointer` says whether it is on the pointer.
#[derive(Debug, Drop)]
pub struct Method {
    pub name: Text,
    pub pointer: bool,
    pub sig: Sig,
}

/// A named type. `package` is that of its declaration; `under` is what it stands for, and is missing
/// until it is set.
#[derive(Debug, Drop)]
pub struct NamedType {
    pub name: Text,
    pub package: Text,
    pub under: Option<TypeId>,
    pub methods: Declared,
}
