//! The fields of a struct by their places.

ghost use Rattle.std.specs.Prelude.{◌≡◌, ◌<◌, get_or, length};
ghost use Rattle.go_type.specs.Levels.{FieldsBelow};
ghost use Rattle.go_type.specs.declared.types.FieldRow.{FieldRow};

use go_type::types::{FieldRow, TypeId};

/// The type of a field of a struct whose fields are below `owner`.
pub fn type_at(owner: TypeId, fields: &[FieldRow], i: usize) -> TypeId
    requires fields { FieldsBelow owner.0 fields.now }
    requires i { i < length fields.now }
    ensures value { (d : FieldRow) → result ≡ (get_or fields.now i d).ty }
    ensures below { result.0 < owner.0 }
{
    fields[i].ty
}
