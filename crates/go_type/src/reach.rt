//! The types that are reached through embedded fields.

ghost use Rattle.std.specs.Prelude.{◌≡◌, ◌<◌, [], ◌∷◌, IfOk, OnOk, nat_eq, slice_get};
ghost use Rattle.std.specs.List.{AllByRecursion, IsDistinct};
ghost use Rattle.indexmap.specs.IndexSet.{insert_key};
ghost use Rattle.go_type.specs.Levels.{level, fields_of, Below, FieldsBelow};
ghost use Rattle.go_type.specs.Table.{places, names, size, name_count};
ghost use Rattle.go_type.specs.Members.{fields_in};
ghost use Rattle.go_type.specs.Chains.{bases_of};
ghost use Rattle.go_type.specs.Reached.{Holds, Reaches, AreIds, IsClosed, Extends};

use crate::search::base;
use crate::table::TypeTable;
use crate::types::{FieldRow, GoType, TypeId};
use gj_base::NoMemory;
use indexmap::IndexSet;
use std::alloc::Global;

// One more id, unless it is there.
fn insert(ids: &mut IndexSet<u64>, id: u64) -> Result<(), NoMemory>
    ensures keys { OnOk result (ids.new.keys ≡ insert_key nat_eq ids.old.keys id) }
    ensures distinct { OnOk result (IsDistinct nat_eq ids.new.keys) }
{
    ids.insert_full(id)?;
    Ok(())
}

// The types that these fields embed.
fn embed(table: &TypeTable, fields: &[FieldRow], ids: &mut IndexSet<u64>) -> Result<(), NoMemory>
    requires fields { FieldsBelow (size table.now) fields.now }
    requires below { AreIds (size table.now) ids.old.keys }
    ensures reached { OnOk result (AllByRecursion (Reaches (places table.now) ids.new.keys) (bases_of (fields_of (places table.now) fields.now))) }
    ensures more { OnOk result (Extends ids.old.keys ids.new.keys) }
    ensures below { OnOk result (AreIds (size table.now) ids.new.keys) }
{
    let mut rest = fields;
    'fields: while let Some((field, others)) = rest.split_first() {
        if field.embedded {
            insert(ids, base(table, field.ty).0.0)?;
        }
        rest = others;
    }
    Ok(())
}

// The types that an underlying type embeds.
fn embed_level(table: &TypeTable, under: &GoType, ids: &mut IndexSet<u64>) -> Result<(), NoMemory>
    requires under { Below (size table.now) (name_count table.now) under.now }
    requires below { AreIds (size table.now) ids.old.keys }
    ensures reached { OnOk result (AllByRecursion (Reaches (places table.now) ids.new.keys) (bases_of (fields_in (level (places table.now) under.now)))) }
    ensures more { OnOk result (Extends ids.old.keys ids.new.keys) }
    ensures below { OnOk result (AreIds (size table.now) ids.new.keys) }
{
    match under {
        GoType::Struct(fields) => embed(table, fields.as_slice(), ids),
        _ => Ok(()),
    }
}

// The one id.
fn only(alloc: Global, id: u64) -> Result<IndexSet<u64>, NoMemory>
    ensures keys { IfOk result (λ ids. ids.keys ≡ id ∷ []) }
    ensures distinct { IfOk result (λ ids. IsDistinct nat_eq ids.keys) }
{
    let mut ids = IndexSet::new(alloc);
    insert(&mut ids, id)?;
    Ok(ids)
}

/// The id at a place.
pub fn id_at(ids: &IndexSet<u64>, place: u64) -> Option<u64>
    ensures { result ≡ slice_get ids.now.keys place }
{
    ids.get_index(place as usize).copied()
}

/// The type and all that it reaches through embedded fields.
pub fn reach(alloc: Global, table: &TypeTable, t: TypeId) -> Result<IndexSet<u64>, NoMemory>
    requires { t.0 < size table.now }
    ensures start { IfOk result (λ ids. Holds ids.keys t.0) }
    ensures below { IfOk result (λ ids. AreIds (size table.now) ids.keys) }
    ensures closed { IfOk result (λ ids. IsClosed (names table.now) (places table.now) ids.keys) }
{
    let mut ids = only(alloc, t.0)?;
    for next in 0..table.len() {
        match id_at(&ids, next) {
            Some(id) => {
                let under = table.get(table.underlying(TypeId(id)));
                embed_level(table, under, &mut ids)?;
            }
            None => return Ok(ids),
        }
    }
    Ok(ids)
}
