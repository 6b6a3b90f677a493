//! The fields and methods of a name at a depth in a type. Nothing is stored on the way.

ghost use Rattle.std.specs.Prelude.{◌≡◌, ◌<◌, ℕ, length, map, Some};
ghost use Rattle.go_type.specs.Tree.{Specs};
ghost use Rattle.go_type.specs.Levels.{level, tree_of, fields_of, specs_of, trees_of, Below, FieldsBelow, SigBelow, SpecsBelow};
ghost use Rattle.go_type.specs.Named.{method_of, MethodsBelow};
ghost use Rattle.go_type.specs.Table.{places, names, size, name_count};
ghost use Rattle.go_type.specs.Underlying.{underlying};
ghost use Rattle.go_type.specs.Members.{sought, is_sought, is_declared, field_found, spec_found, method_found, fields_found, specs_found, methods_found, shape_found, declared_found, own_members, members_at, through, through_one, fields_in, base_of, steps_to};
ghost use Rattle.go_type.specs.Hits.{Sees, IsIn, has_pointer};
ghost use Rattle.go_type.specs.Chains.{bases_of, goes_deep};
ghost use Rattle.std.specs.List.{list_any};

use crate::exported::is_exported;
use crate::hits::{Hit, after, join, when};
use crate::table::TypeTable;
use crate::types::{FieldRow, GoType, Method, MethodSpec, TypeId};
use gj_base::Text;

/// Whether a field or an interface's method has the name.
pub fn is_sought(own_name: &Text, own_package: &Text, name: &Text, package: &Text) -> bool
    ensures { result ≡ is_sought (sought name.now «package».now) own_name.now own_package.now }
{
    *own_name == *name && *own_package == *package
}

// Whether a declared method has the name.
fn is_declared(own_name: &Text, home: &Text, name: &Text, package: &Text) -> bool
    ensures { result ≡ is_declared (sought name.now «package».now) own_name.now home.now }
{
    *own_name == *name && (is_exported(own_name) || *home == *package)
}

// A field, if it has the name.
fn field_hit<'a>(table: &'a TypeTable, field: &FieldRow, name: &Text, package: &Text) -> Hit<'a>
    ensures seen { (i : ℕ) → Sees (places table.now) (field_found (sought name.now «package».now) i field.now.name field.now.package) result }
    ensures within { IsIn (size table.now) result }
{
    when(
        is_sought(&field.name, &field.package, name, package),
        Hit::Field,
    )
}

// The fields of the name in a struct.
fn fields_hit<'a>(table: &'a TypeTable, fields: &[FieldRow], name: &Text, package: &Text) -> Hit<'a>
    ensures seen { (i : ℕ) → Sees (places table.now) (fields_found (sought name.now «package».now) i (fields_of (places table.now) fields.now)) result }
    ensures within { IsIn (size table.now) result }
{
    let mut hit = Hit::Nothing;
    let mut rest = fields;
    'fields: while let Some((field, others)) = rest.split_first() {
        hit = join(hit, field_hit(table, field, name, package));
        rest = others;
    }
    hit
}

// A method of an interface, if it has the name.
fn spec_hit<'a>(
    table: &'a TypeTable,
    of: TypeId,
    spec: &'a MethodSpec,
    name: &Text,
    package: &Text,
) -> Hit<'a>
    requires of { of.0 < size table.now }
    requires sig { SigBelow (size table.now) spec.now.sig }
    ensures seen { Sees (places table.now) (spec_found (sought name.now «package».now) (tree_of (places table.now) of) spec.now.name spec.now.package (trees_of (places table.now) spec.now.sig.params) (trees_of (places table.now) spec.now.sig.results) spec.now.sig.variadic) result }
    ensures within { IsIn (size table.now) result }
{
    let found = is_sought(&spec.name, &spec.package, name, package);
    when(found, Hit::Method(of, false, false, &spec.sig))
}

// The methods of the name in an interface.
fn specs_hit<'a>(
    table: &'a TypeTable,
    of: TypeId,
    specs: &'a [MethodSpec],
    name: &Text,
    package: &Text,
) -> Hit<'a>
    requires of { of.0 < size table.now }
    requires specs { SpecsBelow (size table.now) specs.now }
    ensures seen { (i : ℕ) → Sees (places table.now) (specs_found (sought name.now «package».now) (tree_of (places table.now) of) (specs_of (places table.now) specs.now)) result }
    ensures within { IsIn (size table.now) result }
{
    let mut hit = Hit::Nothing;
    let mut rest = specs;
    'specs: while let Some((spec, others)) = rest.split_first() {
        hit = join(hit, spec_hit(table, of, spec, name, package));
        rest = others;
    }
    hit
}

// A declared method, if it has the name.
fn method_hit<'a>(
    table: &'a TypeTable,
    of: TypeId,
    method: &'a Method,
    home: &Text,
    name: &Text,
    package: &Text,
) -> Hit<'a>
    requires of { of.0 < size table.now }
    requires sig { SigBelow (size table.now) method.now.sig }
    ensures seen { Sees (places table.now) (method_found (sought name.now «package».now) (tree_of (places table.now) of) home.now (method_of (places table.now) method.now)) result }
    ensures within { IsIn (size table.now) result }
{
    let found = is_declared(&method.name, home, name, package);
    when(found, Hit::Method(of, method.pointer, false, &method.sig))
}

// The methods of the name that are declared for a named type.
fn methods_hit<'a>(
    table: &'a TypeTable,
    of: TypeId,
    methods: &'a [Method],
    home: &Text,
    name: &Text,
    package: &Text,
) -> Hit<'a>
    requires of { of.0 < size table.now }
    requires methods { MethodsBelow (size table.now) methods.now }
    ensures seen { (i : ℕ) → Sees (places table.now) (methods_found (sought name.now «package».now) (tree_of (places table.now) of) home.now (map (method_of (places table.now)) methods.now)) result }
    ensures within { IsIn (size table.now) result }
{
    let mut hit = Hit::Nothing;
    let mut rest = methods;
    'methods: while let Some((method, others)) = rest.split_first() {
        hit = join(hit, method_hit(table, of, method, home, name, package));
        rest = others;
    }
    hit
}

// What a type's underlying type has of the name.
fn shape_hit<'a>(
    table: &'a TypeTable,
    of: TypeId,
    under: &'a GoType,
    name: &Text,
    package: &Text,
) -> Hit<'a>
    requires of { of.0 < size table.now }
    requires under { Below (size table.now) (name_count table.now) under.now }
    ensures seen { Sees (places table.now) (shape_found (sought name.now «package».now) (tree_of (places table.now) of) (level (places table.now) under.now)) result }
    ensures within { IsIn (size table.now) result }
{
    match under {
        GoType::Struct(fields) => fields_hit(table, fields.as_slice(), name, package),
        GoType::Interface(specs) => specs_hit(table, of, specs.as_slice(), name, package),
        _ => Hit::Nothing,
    }
}

// What is declared for a named type of the name.
fn declared_hit<'a>(table: &'a TypeTable, of: TypeId, name: &Text, package: &Text) -> Hit<'a>
    requires { of.0 < size table.now }
    ensures seen { Sees (places table.now) (declared_found (names table.now) (sought name.now «package».now) (tree_of (places table.now) of)) result }
    ensures within { IsIn (size table.now) result }
{
    match table.get(of) {
        GoType::Named(id) => {
            let named = table.named(*id);
            methods_hit(
                table,
                of,
                named.methods.as_slice(),
                &named.package,
                name,
                package,
            )
        }
        _ => Hit::Nothing,
    }
}

/// The fields and methods of the name at depth zero.
pub fn own_hit<'a>(table: &'a TypeTable, t: TypeId, name: &Text, package: &Text) -> Hit<'a>
    requires { t.0 < size table.now }
    ensures seen { Sees (places table.now) (own_members (names table.now) (sought name.now «package».now) (tree_of (places table.now) t)) result }
    ensures within { IsIn (size table.now) result }
{
    let under = table.get(table.underlying(t));
    join(
        shape_hit(table, t, under, name, package),
        declared_hit(table, t, name, package),
    )
}

/// The type that is embedded by a field of this type, and whether the field is a pointer to it.
pub fn base(table: &TypeTable, t: TypeId) -> (TypeId, bool)
    requires { t.0 < size table.now }
    ensures tree { tree_of (places table.now) result.0 ≡ base_of (tree_of (places table.now) t) }
    ensures within { result.0.0 < size table.now }
    ensures pointer { (i : ℕ) → has_pointer (steps_to i (tree_of (places table.now) t)) ≡ result.1 }
{
    match table.get(t) {
        GoType::Pointer(target) => (*target, true),
        _ => (t, false),
    }
}

// The fields and methods of the name behind an embedded field, at a depth in its type.
#[cycle(hits)]
fn embedded_hit<'a>(
    table: &'a TypeTable,
    field: &FieldRow,
    name: &Text,
    package: &Text,
    depth: u64,
) -> Hit<'a>
    requires { field.now.ty.0 < size table.now }
    ensures seen { (i : ℕ) → Sees (places table.now) (through_one (members_at (names table.now) (sought name.now «package».now) depth) i (tree_of (places table.now) field.now.ty) field.now.embedded) result }
    ensures within { IsIn (size table.now) result }
{
    if !field.embedded {
        return Hit::Nothing;
    }
    let (t, follows) = base(table, field.ty);
    after(follows, hit_at(table, t, name, package, depth))
}

// The same behind all embedded fields.
#[cycle(hits)]
fn through_hit<'a>(
    table: &'a TypeTable,
    fields: &[FieldRow],
    name: &Text,
    package: &Text,
    depth: u64,
) -> Hit<'a>
    requires { FieldsBelow (size table.now) fields.now }
    ensures seen { (i : ℕ) → Sees (places table.now) (through (members_at (names table.now) (sought name.now «package».now) depth) i (fields_of (places table.now) fields.now)) result }
    ensures within { IsIn (size table.now) result }
{
    let mut hit = Hit::Nothing;
    let mut rest = fields;
    'fields: while let Some((field, others)) = rest.split_first() {
        hit = join(hit, embedded_hit(table, field, name, package, depth));
        rest = others;
    }
    hit
}

// The same behind the embedded fields of an underlying type.
#[cycle(hits)]
fn below_hit<'a>(
    table: &'a TypeTable,
    under: &'a GoType,
    name: &Text,
    package: &Text,
    depth: u64,
) -> Hit<'a>
    requires { Below (size table.now) (name_count table.now) under.now }
    ensures seen { Sees (places table.now) (through (members_at (names table.now) (sought name.now «package».now) depth) 0 (fields_in (level (places table.now) under.now))) result }
    ensures within { IsIn (size table.now) result }
{
    match under {
        GoType::Struct(fields) => through_hit(table, fields.as_slice(), name, package, depth),
        _ => Hit::Nothing,
    }
}

/// What the fields and methods of the name at a depth in a type come to.
#[cycle(hits)]
pub fn hit_at<'a>(
    table: &'a TypeTable,
    t: TypeId,
    name: &Text,
    package: &Text,
    depth: u64,
) -> Hit<'a>
    requires { t.0 < size table.now }
    ensures seen { Sees (places table.now) (members_at (names table.now) (sought name.now «package».now) depth (tree_of (places table.now) t)) result }
    ensures within { IsIn (size table.now) result }
{
    if depth == 0 {
        return own_hit(table, t, name, package);
    }
    let under = table.get(table.underlying(t));
    below_hit(table, under, name, package, depth - 1)
}

/// Whether a chain of so many embedded fields begins at the type.
#[cycle(deep)]
pub fn goes_deep(table: &TypeTable, t: TypeId, depth: u64) -> bool
    requires { t.0 < size table.now }
    ensures { result ≡ goes_deep (names table.now) depth (tree_of (places table.now) t) }
{
    if depth == 0 {
        return true;
    }
    below_goes_deep(table, table.get(table.underlying(t)), depth - 1)
}

#[cycle(deep)]
fn below_goes_deep(table: &TypeTable, under: &GoType, depth: u64) -> bool
    requires { Below (size table.now) (name_count table.now) under.now }
    ensures { result ≡ list_any (goes_deep (names table.now) depth) (bases_of (fields_in (level (places table.now) under.now))) }
{
    match under {
        GoType::Struct(fields) => some_goes_deep(table, fields.as_slice(), depth),
        _ => false,
    }
}

#[cycle(deep)]
fn some_goes_deep(table: &TypeTable, fields: &[FieldRow], depth: u64) -> bool
    requires { FieldsBelow (size table.now) fields.now }
    ensures { result ≡ list_any (goes_deep (names table.now) depth) (bases_of (fields_of (places table.now) fields.now)) }
{
    let mut rest = fields;
    'fields: while let Some((field, others)) = rest.split_first() {
        if field.embedded && goes_deep(table, base(table, field.ty).0, depth) {
            return true;
        }
        rest = others;
    }
    false
}
