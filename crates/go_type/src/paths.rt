//! The steps to the one field or method of a name at a depth.

ghost use Rattle.std.specs.Prelude.{◌≡◌, ◌<◌, ◌≤◌, ◌+◌, ◌^◌, ◌++◌, ℕ, length, IfSome, IfOk, IfNone, OnOk, IsTrue, [], ◌∷◌};
ghost use Rattle.go_type.specs.Levels.{level, tree_of, fields_of, Below, FieldsBelow};
ghost use Rattle.go_type.specs.Table.{places, names, size, name_count};
ghost use Rattle.go_type.specs.Members.{Member, sought, fields_found, members_at, own_members, through, fields_in, base_of, NoneBefore};
ghost use Rattle.go_type.specs.Paths.{LeadsTo, HasSteps, LeadsOn, FindsField, steps_through, path_of};
ghost use Rattle.go_type.specs.declared.steps.Step.TheVariants as step;

use crate::search::{base, is_sought};
use crate::shallow::shallowest;
use crate::steps::Step;
use crate::table::TypeTable;
use crate::types::{FieldRow, GoType, TypeId};
use gj_base::{NoMemory, Text};

// Whether a field leads on to the name at a depth.
fn leads_on(table: &TypeTable, field: &FieldRow, name: &Text, package: &Text, depth: u64) -> bool
    requires field { field.now.ty.0 < size table.now }
    requires quiet { IsTrue field.now.embedded → NoneBefore (names table.now) (sought name.now «package».now) (base_of (tree_of (places table.now) field.now.ty)) depth }
    ensures { LeadsOn (members_at (names table.now) (sought name.now «package».now) depth) (tree_of (places table.now) field.now.ty) field.now.embedded result }
{
    if !field.embedded {
        return false;
    }
    let (t, _) = base(table, field.ty);
    match shallowest(table, t, name, package) {
        Some(found) => found.0 == depth,
        None => false,
    }
}

// The first embedded field that leads on: its place, its type, and whether a pointer is followed.
fn next(
    table: &TypeTable,
    fields: &[FieldRow],
    name: &Text,
    package: &Text,
    depth: u64,
) -> Option<(u32, TypeId, bool)>
    requires below { FieldsBelow (size table.now) fields.now }
    requires few { length fields.now < 2 ^ 32 }
    requires quiet { (e : ℕ) → e < depth → through (members_at (names table.now) (sought name.now «package».now) e) 0 (fields_of (places table.now) fields.now) ≡ [] }
    ensures leads { IfSome result (λ r. LeadsTo (through (members_at (names table.now) (sought name.now «package».now) depth) 0 (fields_of (places table.now) fields.now)) (steps_through r.0 r.2) (members_at (names table.now) (sought name.now «package».now) depth (tree_of (places table.now) r.1))) }
    ensures within { IfSome result (λ r. r.1.0 < size table.now) }
    ensures quiet { IfSome result (λ r. NoneBefore (names table.now) (sought name.now «package».now) (tree_of (places table.now) r.1) depth) }
    ensures none { IfNone result (through (members_at (names table.now) (sought name.now «package».now) depth) 0 (fields_of (places table.now) fields.now) ≡ []) }
{
    let mut place: u32 = 0;
    let mut rest = fields;
    'fields: while let Some((field, others)) = rest.split_first() {
        if leads_on(table, field, name, package, depth) {
            let (t, follows) = base(table, field.ty);
            return Some((place, t, follows));
        }
        place += 1;
        rest = others;
    }
    None
}

// The same of an underlying type.
fn next_below(
    table: &TypeTable,
    under: &GoType,
    name: &Text,
    package: &Text,
    depth: u64,
) -> Option<(u32, TypeId, bool)>
    requires under { Below (size table.now) (name_count table.now) under.now }
    requires quiet { (e : ℕ) → e < depth → through (members_at (names table.now) (sought name.now «package».now) e) 0 (fields_in (level (places table.now) under.now)) ≡ [] }
    ensures leads { IfSome result (λ r. LeadsTo (through (members_at (names table.now) (sought name.now «package».now) depth) 0 (fields_in (level (places table.now) under.now))) (steps_through r.0 r.2) (members_at (names table.now) (sought name.now «package».now) depth (tree_of (places table.now) r.1))) }
    ensures within { IfSome result (λ r. r.1.0 < size table.now) }
    ensures quiet { IfSome result (λ r. NoneBefore (names table.now) (sought name.now «package».now) (tree_of (places table.now) r.1) depth) }
    ensures none { IfNone result (through (members_at (names table.now) (sought name.now «package».now) depth) 0 (fields_in (level (places table.now) under.now)) ≡ []) }
{
    match under {
        GoType::Struct(fields) => next(table, fields.as_slice(), name, package, depth),
        _ => None,
    }
}

// The place of the field of the name in a struct.
fn field_place(table: &TypeTable, under: &GoType, name: &Text, package: &Text) -> Option<u32>
    requires { Below (size table.now) (name_count table.now) under.now }
    ensures found { IfSome result (λ i. FindsField (sought name.now «package».now) (fields_in (level (places table.now) under.now)) i) }
    ensures none { IfNone result (fields_found (sought name.now «package».now) 0 (fields_in (level (places table.now) under.now)) ≡ []) }
{
    match under {
        GoType::Struct(fields) => place_in(table, fields.as_slice(), name, package),
        _ => None,
    }
}

fn place_in(table: &TypeTable, fields: &[FieldRow], name: &Text, package: &Text) -> Option<u32>
    requires { length fields.now < 2 ^ 32 }
    ensures found { IfSome result (λ i. FindsField (sought name.now «package».now) (fields_of (places table.now) fields.now) i) }
    ensures none { IfNone result (fields_found (sought name.now «package».now) 0 (fields_of (places table.now) fields.now) ≡ []) }
{
    let mut place: u32 = 0;
    let mut rest = fields;
    'fields: while let Some((field, others)) = rest.split_first() {
        if is_sought(&field.name, &field.package, name, package) {
            return Some(place);
        }
        place += 1;
        rest = others;
    }
    None
}

fn push_steps(steps: &mut Vec<Step>, place: u32, follows: bool) -> Result<(), NoMemory>
    ensures { OnOk result (steps.new.items ≡ steps.old.items ++ steps_through place follows) }
{
    steps.push(Step::Field(place))?;
    if follows {
        steps.push(Step::Pointer)?;
    }
    Ok(())
}

// The steps within the type itself.
fn own_steps(
    table: &TypeTable,
    t: TypeId,
    name: &Text,
    package: &Text,
    mut steps: Vec<Step>,
) -> Result<Vec<Step>, NoMemory>
    requires { t.0 < size table.now }
    ensures { IfOk result (λ v. (m : Member) → own_members (names table.now) (sought name.now «package».now) (tree_of (places table.now) t) ≡ m ∷ [] → v.items ≡ steps.items ++ path_of m) }
{
    match field_place(table, table.get(table.underlying(t)), name, package) {
        Some(place) => {
            steps.push(Step::Field(place))?;
            Ok(steps)
        }
        None => Ok(steps),
    }
}

/// These steps, and then those to the one field or method of the name at a depth.
pub fn steps_at(
    table: &TypeTable,
    t: TypeId,
    name: &Text,
    package: &Text,
    depth: u64,
    before: Vec<Step>,
) -> Result<Vec<Step>, NoMemory>
    requires t { t.0 < size table.now }
    requires quiet { NoneBefore (names table.now) (sought name.now «package».now) (tree_of (places table.now) t) depth }
    ensures { IfOk result (λ v. (m : Member) → members_at (names table.now) (sought name.now «package».now) depth (tree_of (places table.now) t) ≡ m ∷ [] → v.items ≡ before.items ++ path_of m) }
{
    let mut steps = before;
    let mut at = t;
    let mut left = depth;
    'down: while left > 0 {
        let under = table.get(table.underlying(at));
        match next_below(table, under, name, package, left - 1) {
            Some((place, inside, follows)) => {
                push_steps(&mut steps, place, follows)?;
                at = inside;
                left -= 1;
            }
            None => return Ok(steps),
        }
    }
    own_steps(table, at, name, package, steps)
}
