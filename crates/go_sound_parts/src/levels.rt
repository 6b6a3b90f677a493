//! What a type is, and what its underlying type is.
//!
//! Go, "Types".

ghost use Rattle.std.specs.Prelude.{◌≡◌, IfSome, Some, true};
ghost use Rattle.go_type.specs.declared.types.IntName.TheVariants as integer;
ghost use Rattle.go_type.specs.Tree as tree;
ghost use Rattle.go_type.specs.Levels.{level, tree_of, Below};
ghost use Rattle.go_type.specs.Table.{places, names, size, name_count};
ghost use Rattle.go_type.specs.Underlying.{underlying};
ghost use Rattle.go_core.specs.TypeOf.{channel_type, element_type, int_type, pointed_type, value_type};
ghost use Rattle.go_core.specs.Sound.{empty_interface};
ghost use Rattle.go_core.specs.SoundNode.{IsInt, IsBool, IsText, IsPrintable, IsInterface, IsSlice, IsArray, IsMap, IsChannel, IsOrdered, IsBuilt};

use go_type::TypeTable;
use go_type::types::{GoType, IntName, TypeId};

/// The level of a type, where the table has it.
pub fn level_at(table: &TypeTable, t: TypeId) -> Option<&GoType>
    ensures tree { IfSome result (λ g. level (places table.now) g.now ≡ tree_of (places table.now) t) }
    ensures within { IfSome result (λ g. Below (size table.now) (name_count table.now) g.now) }
{
    if t.0 < table.len() {
        Some(table.get(t))
    } else {
        None
    }
}

/// The underlying type, where the table has the type.
pub fn underlying(table: &TypeTable, t: TypeId) -> Option<TypeId>
    ensures is { IfSome result (λ u. tree_of (places table.now) u ≡ underlying (names table.now) (tree_of (places table.now) t)) }
{
    if t.0 < table.len() {
        Some(table.underlying(t))
    } else {
        None
    }
}

/// The level of the underlying type, where the table has the type.
pub fn under(table: &TypeTable, t: TypeId) -> Option<&GoType>
    ensures tree { IfSome result (λ g. level (places table.now) g.now ≡ underlying (names table.now) (tree_of (places table.now) t)) }
{
    match underlying(table, t) {
        Some(u) => level_at(table, u),
        None => None,
    }
}

/// Whether it is an integer type.
pub fn is_int(table: &TypeTable, t: TypeId) -> bool
    ensures is { result ≡ true → IsInt (underlying (names table.now) (tree_of (places table.now) t)) }
{
    match under(table, t) {
        Some(GoType::Int(_)) => true,
        _ => false,
    }
}

/// Whether it is a boolean type.
pub fn is_bool(table: &TypeTable, t: TypeId) -> bool
    ensures is { result ≡ true → IsBool (underlying (names table.now) (tree_of (places table.now) t)) }
{
    match under(table, t) {
        Some(GoType::Bool) => true,
        _ => false,
    }
}

/// Whether it is a string type.
pub fn is_text(table: &TypeTable, t: TypeId) -> bool
    ensures is { result ≡ true → IsText (underlying (names table.now) (tree_of (places table.now) t)) }
{
    match under(table, t) {
        Some(GoType::Str) => true,
        _ => false,
    }
}

/// Whether its values are ordered.
pub fn is_ordered(table: &TypeTable, t: TypeId) -> bool
    ensures is { result ≡ true → IsOrdered (underlying (names table.now) (tree_of (places table.now) t)) }
{
    match under(table, t) {
        Some(GoType::Int(_)) => true,
        Some(GoType::Str) => true,
        _ => false,
    }
}

/// Whether `print` takes its values.
pub fn is_printable(table: &TypeTable, t: TypeId) -> bool
    ensures is { result ≡ true → IsPrintable (underlying (names table.now) (tree_of (places table.now) t)) }
{
    match under(table, t) {
        Some(GoType::Bool) => true,
        Some(GoType::Int(_)) => true,
        Some(GoType::Str) => true,
        _ => false,
    }
}

/// Whether it is an interface type.
pub fn is_interface(table: &TypeTable, t: TypeId) -> bool
    ensures is { result ≡ true → IsInterface (underlying (names table.now) (tree_of (places table.now) t)) }
{
    match under(table, t) {
        Some(GoType::Interface(_)) => true,
        _ => false,
    }
}

/// Whether it is no interface type.
pub fn is_concrete(table: &TypeTable, t: TypeId) -> bool
    ensures is { result ≡ true → IsInterface (underlying (names table.now) (tree_of (places table.now) t)) → ⊥ }
{
    match under(table, t) {
        Some(GoType::Interface(_)) => false,
        Some(_) => true,
        None => false,
    }
}

/// Whether it is the empty interface.
pub fn is_empty_interface(table: &TypeTable, t: TypeId) -> bool
    ensures is { result ≡ true → underlying (names table.now) (tree_of (places table.now) t) ≡ empty_interface }
{
    match under(table, t) {
        Some(GoType::Interface(methods)) => match methods.as_slice() {
            [] => true,
            _ => false,
        },
        _ => false,
    }
}

/// Whether it is a map type.
pub fn is_map(table: &TypeTable, t: TypeId) -> bool
    ensures is { result ≡ true → IsMap (underlying (names table.now) (tree_of (places table.now) t)) }
{
    match under(table, t) {
        Some(GoType::Map(_, _)) => true,
        _ => false,
    }
}

/// Whether it is a slice type.
pub fn is_slice(table: &TypeTable, t: TypeId) -> bool
    ensures is { result ≡ true → IsSlice (underlying (names table.now) (tree_of (places table.now) t)) }
{
    match under(table, t) {
        Some(GoType::Slice(_)) => true,
        _ => false,
    }
}

/// Whether it is an array type.
pub fn is_array(table: &TypeTable, t: TypeId) -> bool
    ensures is { result ≡ true → IsArray (underlying (names table.now) (tree_of (places table.now) t)) }
{
    match under(table, t) {
        Some(GoType::Array(_, _)) => true,
        _ => false,
    }
}

/// Whether it is a channel type.
pub fn is_channel(table: &TypeTable, t: TypeId) -> bool
    ensures is { result ≡ true → IsChannel (underlying (names table.now) (tree_of (places table.now) t)) }
{
    match under(table, t) {
        Some(GoType::Chan(_, _)) => true,
        _ => false,
    }
}

/// Whether values of the type are built of parts.
pub fn is_built(table: &TypeTable, t: TypeId) -> bool
    ensures is { result ≡ true → IsBuilt (underlying (names table.now) (tree_of (places table.now) t)) }
{
    match under(table, t) {
        Some(GoType::Slice(_)) => true,
        Some(GoType::Array(_, _)) => true,
        Some(GoType::Struct(_)) => true,
        _ => false,
    }
}

/// The element of a channel type.
pub fn channel_element(table: &TypeTable, t: TypeId) -> Option<TypeId>
    ensures is { IfSome result (λ u. channel_type (underlying (names table.now) (tree_of (places table.now) t)) ≡ Some (tree_of (places table.now) u)) }
{
    match under(table, t) {
        Some(GoType::Chan(_, element)) => Some(*element),
        _ => None,
    }
}

/// The value of a map type.
pub fn map_value(table: &TypeTable, t: TypeId) -> Option<TypeId>
    ensures is { IfSome result (λ u. value_type (underlying (names table.now) (tree_of (places table.now) t)) ≡ Some (tree_of (places table.now) u)) }
{
    match under(table, t) {
        Some(GoType::Map(_, value)) => Some(*value),
        _ => None,
    }
}

/// The element of an array or slice type.
pub fn element(table: &TypeTable, t: TypeId) -> Option<TypeId>
    ensures is { IfSome result (λ u. element_type (underlying (names table.now) (tree_of (places table.now) t)) ≡ Some (tree_of (places table.now) u)) }
{
    match under(table, t) {
        Some(GoType::Array(_, element)) => Some(*element),
        Some(GoType::Slice(element)) => Some(*element),
        _ => None,
    }
}

/// The type that a pointer type points to.
pub fn pointed(table: &TypeTable, t: TypeId) -> Option<TypeId>
    ensures is { IfSome result (λ u. pointed_type (underlying (names table.now) (tree_of (places table.now) t)) ≡ Some (tree_of (places table.now) u)) }
{
    match under(table, t) {
        Some(GoType::Pointer(target)) => Some(*target),
        _ => None,
    }
}

/// Whether it is the pointer type of another, and no named one.
pub fn points_to(table: &TypeTable, t: TypeId, target: TypeId) -> bool
    ensures is { result ≡ true → tree_of (places table.now) t ≡ tree.pointer (tree_of (places table.now) target) }
{
    match level_at(table, t) {
        Some(GoType::Pointer(found)) => found.0 == target.0,
        _ => false,
    }
}

/// Whether it is the slice type of another, and no named one.
pub fn slices(table: &TypeTable, t: TypeId, element: TypeId) -> bool
    ensures is { result ≡ true → tree_of (places table.now) t ≡ tree.slice (tree_of (places table.now) element) }
{
    match level_at(table, t) {
        Some(GoType::Slice(found)) => found.0 == element.0,
        _ => false,
    }
}

/// Whether it is `int`.
pub fn is_int_type(table: &TypeTable, t: TypeId) -> bool
    ensures is { result ≡ true → tree_of (places table.now) t ≡ int_type }
{
    match level_at(table, t) {
        Some(GoType::Int(name)) => match name {
            IntName::Int => true,
            _ => false,
        },
        _ => false,
    }
}

/// Whether it is `byte`.
pub fn is_byte_type(table: &TypeTable, t: TypeId) -> bool
    ensures is { result ≡ true → tree_of (places table.now) t ≡ tree.int integer.Uint8 }
{
    match level_at(table, t) {
        Some(GoType::Int(name)) => match name {
            IntName::Uint8 => true,
            _ => false,
        },
        _ => false,
    }
}

/// Whether it is `bool`.
pub fn is_bool_type(table: &TypeTable, t: TypeId) -> bool
    ensures is { result ≡ true → tree_of (places table.now) t ≡ tree.bool }
{
    match level_at(table, t) {
        Some(GoType::Bool) => true,
        _ => false,
    }
}
