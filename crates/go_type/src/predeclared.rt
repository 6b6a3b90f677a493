//! The predeclared types, which stand at fixed ids.

ghost use Rattle.std.specs.Prelude.{◌≡◌, ◌++◌, [], ◌∷◌, OnOk, IfOk, codes};
ghost use Rattle.std.specs.List.{IsDistinct};
ghost use Rattle.indexmap.specs.IndexSet.{insert_key};
ghost use Rattle.go_type.specs.Same.{type_eq};
ghost use Rattle.go_type.specs.Tree as tree;
ghost use Rattle.go_type.specs.Levels.{tree_of};
ghost use Rattle.go_type.specs.Predeclared.{word_levels, int_levels, error_spec, predeclared_levels, predeclared};

use crate::lists::{Ids, Methods};
use crate::types::{Basis, GoType, IntName, MethodSpec, NamedId, Sig, TypeId};
use gj_base::{NoMemory, Text};
use indexmap::IndexSet;
use std::alloc::Global;

/// `bool`.
pub const BOOL: TypeId = TypeId(0);
/// `string`.
pub const STR: TypeId = TypeId(1);
/// The type of `nil`.
pub const NIL: TypeId = TypeId(2);
/// `error`, a named type.
pub const ERROR: TypeId = TypeId(19);

/// The id of an integer type.
pub fn int_id(name: IntName) -> TypeId
    ensures { tree_of predeclared result ≡ tree.int name }
{
    match name {
        IntName::Int => TypeId(7),
        IntName::Int8 => TypeId(8),
        IntName::Int16 => TypeId(9),
        IntName::Int32 => TypeId(10),
        IntName::Int64 => TypeId(11),
        IntName::Uint => TypeId(12),
        IntName::Uint8 => TypeId(13),
        IntName::Uint16 => TypeId(14),
        IntName::Uint32 => TypeId(15),
        IntName::Uint64 => TypeId(16),
        IntName::Uintptr => TypeId(17),
    }
}

/// The id of the type of untyped constants.
pub fn untyped_id(basis: Basis) -> TypeId
    ensures { tree_of predeclared result ≡ tree.untyped basis }
{
    match basis {
        Basis::Bool => TypeId(3),
        Basis::Int => TypeId(4),
        Basis::Rune => TypeId(5),
        Basis::Str => TypeId(6),
    }
}

fn insert(levels: &mut IndexSet<GoType>, t: GoType) -> Result<(), NoMemory>
    ensures keys { OnOk result (levels.new.keys ≡ insert_key type_eq levels.old.keys t) }
    ensures distinct { IsDistinct type_eq levels.new.keys }
{
    levels.insert_full(t)?;
    Ok(())
}

fn insert_words(levels: &mut IndexSet<GoType>) -> Result<(), NoMemory>
    requires { levels.old.keys ≡ [] }
    ensures keys { OnOk result (levels.new.keys ≡ word_levels) }
{
    insert(levels, GoType::Bool)?;
    insert(levels, GoType::Str)?;
    insert(levels, GoType::Nil)?;
    insert(levels, GoType::Untyped(Basis::Bool))?;
    insert(levels, GoType::Untyped(Basis::Int))?;
    insert(levels, GoType::Untyped(Basis::Rune))?;
    insert(levels, GoType::Untyped(Basis::Str))
}

fn insert_integers(levels: &mut IndexSet<GoType>) -> Result<(), NoMemory>
    requires { levels.old.keys ≡ word_levels }
    ensures keys { OnOk result (levels.new.keys ≡ word_levels ++ int_levels) }
{
    insert(levels, GoType::Int(IntName::Int))?;
    insert(levels, GoType::Int(IntName::Int8))?;
    insert(levels, GoType::Int(IntName::Int16))?;
    insert(levels, GoType::Int(IntName::Int32))?;
    insert(levels, GoType::Int(IntName::Int64))?;
    insert(levels, GoType::Int(IntName::Uint))?;
    insert(levels, GoType::Int(IntName::Uint8))?;
    insert(levels, GoType::Int(IntName::Uint16))?;
    insert(levels, GoType::Int(IntName::Uint32))?;
    insert(levels, GoType::Int(IntName::Uint64))?;
    insert(levels, GoType::Int(IntName::Uintptr))
}

// `Error() string`
fn error_method(alloc: Global) -> Result<MethodSpec, NoMemory>
    ensures { IfOk result (λ m. m ≡ error_spec) }
{
    let name = Text::from_slice(alloc, b"Error")?;
    let mut results = Vec::new(alloc);
    results.push(STR)?;
    let sig = Sig {
        params: Ids::new(alloc),
        results: Ids::from_vec(results),
        variadic: false,
    };
    Ok(MethodSpec {
        name,
        package: Text::new(alloc),
        sig,
    })
}

fn insert_error(alloc: Global, levels: &mut IndexSet<GoType>) -> Result<(), NoMemory>
    requires { levels.old.keys ≡ word_levels ++ int_levels }
    ensures keys { OnOk result (levels.new.keys ≡ predeclared_levels) }
    ensures distinct { OnOk result (IsDistinct type_eq levels.new.keys) }
{
    let mut methods = Vec::new(alloc);
    methods.push(error_method(alloc)?)?;
    insert(levels, GoType::Interface(Methods::from_vec(methods)))?;
    insert(levels, GoType::Named(NamedId(0)))
}

/// The levels of a new table.
pub fn predeclared_levels(alloc: Global) -> Result<IndexSet<GoType>, NoMemory>
    ensures keys { IfOk result (λ s. s.keys ≡ predeclared_levels) }
    ensures distinct { IfOk result (λ s. IsDistinct type_eq s.keys) }
{
    let mut levels = IndexSet::new(alloc);
    insert_words(&mut levels)?;
    insert_integers(&mut levels)?;
    insert_error(alloc, &mut levels)?;
    Ok(levels)
}
