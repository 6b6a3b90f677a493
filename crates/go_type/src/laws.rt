//! Laws of the definitions. No function here does anything.

ghost use Rattle.std.specs.Prelude.{◌<◌, ◌↔◌};
ghost use Rattle.go_type.specs.Table.{size};
ghost use Rattle.go_type.specs.Parts.{IsFinite};
ghost use Rattle.go_type.specs.Endless.{HasDerivation, IsEndless};

use crate::table::TypeTable;
use crate::types::TypeId;

/// `IsFinite` looks at as many levels of parts as the table has types. No derivation needs more, and a
/// type that has none contains itself, or holds by value a type that does, or a named type that isn't
/// set.
///
/// Go, "Array types", "Struct types", "Type definitions".
pub fn finite_types(table: &TypeTable, t: TypeId)
    requires { t.0 < size table.now }
    ensures derived { IsFinite table.now t ↔ HasDerivation table.now t }
    ensures endless { (IsFinite table.now t → ⊥) ↔ IsEndless table.now t }
{}
