//! A method set that is being made: names are tried in turn.

ghost use Rattle.std.specs.Prelude.{◌≡◌, ◌<◌, ◌↔◌, IfOk, OnOk, IsTrue, map};
ghost use Rattle.go_type.specs.Tree.{Ty};
ghost use Rattle.go_type.specs.Levels.{level, tree_of, specs_of, Below, SigBelow, SpecsBelow};
ghost use Rattle.go_type.specs.Named.{method_of, MethodsBelow};
ghost use Rattle.go_type.specs.Table.{places, names, size, name_count};
ghost use Rattle.go_type.specs.Members.{specs_found, methods_found, shape_found, declared_found, own_members};
ghost use Rattle.go_type.specs.Tried.{spec_at, held_package, IsFound, AreMethods, Tries, TriesName};

use crate::exported::{is_exported, is_held};
use crate::hits::Hit;
use crate::lists::Ids;
use crate::place::{is_named, place_of};
use crate::shallow::shallowest;
use crate::table::TypeTable;
use crate::types::{GoType, Method, MethodSpec, Sig, TypeId};
use gj_base::{NoMemory, Text};
use std::alloc::Global;

fn copy_ids(alloc: Global, ids: &Ids) -> Result<Ids, NoMemory>
    ensures { IfOk result (λ copy. copy ≡ ids.now) }
{
    Ok(Ids::from_vec(Vec::from_slice(alloc, ids.as_slice())?))
}

fn copy_sig(alloc: Global, sig: &Sig) -> Result<Sig, NoMemory>
    ensures { IfOk result (λ copy. copy ≡ sig.now) }
{
    Ok(Sig {
        params: copy_ids(alloc, &sig.params)?,
        results: copy_ids(alloc, &sig.results)?,
        variadic: sig.variadic,
    })
}

// A method of a set.
fn new_spec(alloc: Global, name: &Text, package: &Text, sig: &Sig) -> Result<MethodSpec, NoMemory>
    ensures { IfOk result (λ m. m ≡ record { name = name.now; «package» = «package».now; sig = sig.now }) }
{
    Ok(MethodSpec {
        name: name.clone()?,
        package: package.clone()?,
        sig: copy_sig(alloc, sig)?,
    })
}

// The method that a hit comes to, where it is reached.
fn spec_at(
    alloc: Global,
    hit: Hit<'_>,
    indirect: bool,
    name: &Text,
    package: &Text,
) -> Result<Option<MethodSpec>, NoMemory>
    ensures { IfOk result (λ m. m ≡ spec_at hit.entry indirect name.now «package».now) }
{
    match hit {
        Hit::Method(_, on_pointer, follows, sig) => {
            if !on_pointer || (follows || indirect) {
                return Ok(Some(new_spec(alloc, name, package, sig)?));
            }
            Ok(None)
        }
        _ => Ok(None),
    }
}

// The method of the name, if the type has it.
fn found(
    alloc: Global,
    table: &TypeTable,
    t: TypeId,
    indirect: bool,
    name: &Text,
    package: &Text,
) -> Result<Option<MethodSpec>, NoMemory>
    requires { t.0 < size table.now }
    ensures { IfOk result (IsFound (size table.now) (places table.now) (names table.now) (tree_of (places table.now) t) indirect name.now «package».now) }
{
    if !is_held(name, package) {
        return Ok(None);
    }
    match shallowest(table, t, name, package) {
        Some((_, hit)) => spec_at(alloc, hit, indirect, name, package),
        None => Ok(None),
    }
}

// Adds the method of the name, if the type has it and it isn't there.
fn try_name(
    alloc: Global,
    table: &TypeTable,
    t: TypeId,
    indirect: bool,
    name: &Text,
    package: &Text,
    specs: &mut Vec<MethodSpec>,
) -> Result<(), NoMemory>
    requires t { t.0 < size table.now }
    requires are { AreMethods (size table.now) (places table.now) (names table.now) (tree_of (places table.now) t) indirect specs.old.items }
    ensures { OnOk result (TriesName (size table.now) (places table.now) (names table.now) (tree_of (places table.now) t) indirect name.now «package».now specs.old.items specs.new.items) }
{
    let place = place_of(specs.as_slice(), name, package);
    if is_named(specs.as_slice(), place, name, package) {
        return Ok(());
    }
    match found(alloc, table, t, indirect, name, package)? {
        Some(spec) => {
            specs.insert(place, spec)?;
            Ok(())
        }
        None => Ok(()),
    }
}

// The names of an interface's methods.
fn try_specs(
    alloc: Global,
    table: &TypeTable,
    t: TypeId,
    indirect: bool,
    tried: &[MethodSpec],
    specs: &mut Vec<MethodSpec>,
) -> Result<(), NoMemory>
    requires t { t.0 < size table.now }
    requires are { AreMethods (size table.now) (places table.now) (names table.now) (tree_of (places table.now) t) indirect specs.old.items }
    ensures { OnOk result ((of_ : Ty) → Tries (size table.now) (places table.now) (names table.now) (tree_of (places table.now) t) indirect (λ f. specs_found f of_ (specs_of (places table.now) tried.now)) specs.old.items specs.new.items) }
{
    let mut rest = tried;
    'names: while let Some((spec, others)) = rest.split_first() {
        try_name(alloc, table, t, indirect, &spec.name, &spec.package, specs)?;
        rest = others;
    }
    Ok(())
}

// The package with which a declared method stands in a set.
fn held_package(name: &Text, home: &Text, alloc: Global) -> Result<Text, NoMemory>
    ensures { IfOk result (λ p. p ≡ held_package name.now home.now) }
{
    if is_exported(name) {
        return Ok(Text::new(alloc));
    }
    Ok(home.clone()?)
}

// The names of the methods that are declared for a named type.
fn try_methods(
    alloc: Global,
    table: &TypeTable,
    t: TypeId,
    indirect: bool,
    tried: &[Method],
    home: &Text,
    specs: &mut Vec<MethodSpec>,
) -> Result<(), NoMemory>
    requires t { t.0 < size table.now }
    requires are { AreMethods (size table.now) (places table.now) (names table.now) (tree_of (places table.now) t) indirect specs.old.items }
    ensures { OnOk result ((of_ : Ty) → Tries (size table.now) (places table.now) (names table.now) (tree_of (places table.now) t) indirect (λ f. methods_found f of_ home.now (map (method_of (places table.now)) tried.now)) specs.old.items specs.new.items) }
{
    let mut rest = tried;
    'names: while let Some((method, others)) = rest.split_first() {
        let package = held_package(&method.name, home, alloc)?;
        try_name(alloc, table, t, indirect, &method.name, &package, specs)?;
        rest = others;
    }
    Ok(())
}

// The names of what a type's underlying type has.
fn try_shape(
    alloc: Global,
    table: &TypeTable,
    t: TypeId,
    indirect: bool,
    under: &GoType,
    specs: &mut Vec<MethodSpec>,
) -> Result<(), NoMemory>
    requires t { t.0 < size table.now }
    requires are { AreMethods (size table.now) (places table.now) (names table.now) (tree_of (places table.now) t) indirect specs.old.items }
    ensures { OnOk result ((of_ : Ty) → Tries (size table.now) (places table.now) (names table.now) (tree_of (places table.now) t) indirect (λ f. shape_found f of_ (level (places table.now) under.now)) specs.old.items specs.new.items) }
{
    match under {
        GoType::Interface(tried) => {
            try_specs(alloc, table, t, indirect, tried.as_slice(), specs)
        }
        _ => Ok(()),
    }
}

// The names that are declared for a named type.
fn try_declared(
    alloc: Global,
    table: &TypeTable,
    t: TypeId,
    indirect: bool,
    of: TypeId,
    specs: &mut Vec<MethodSpec>,
) -> Result<(), NoMemory>
    requires t { t.0 < size table.now }
    requires of { of.0 < size table.now }
    requires are { AreMethods (size table.now) (places table.now) (names table.now) (tree_of (places table.now) t) indirect specs.old.items }
    ensures { OnOk result (Tries (size table.now) (places table.now) (names table.now) (tree_of (places table.now) t) indirect (λ f. declared_found (names table.now) f (tree_of (places table.now) of)) specs.old.items specs.new.items) }
{
    match table.get(of) {
        GoType::Named(id) => {
            let named = table.named(*id);
            try_methods(
                alloc,
                table,
                t,
                indirect,
                named.methods.as_slice(),
                &named.package,
                specs,
            )
        }
        _ => Ok(()),
    }
}

/// The names of all that a type itself declares: those that are methods of the other type are added.
pub fn try_own(
    alloc: Global,
    table: &TypeTable,
    t: TypeId,
    indirect: bool,
    of: TypeId,
    specs: &mut Vec<MethodSpec>,
) -> Result<(), NoMemory>
    requires t { t.0 < size table.now }
    requires of { of.0 < size table.now }
    requires are { AreMethods (size table.now) (places table.now) (names table.now) (tree_of (places table.now) t) indirect specs.old.items }
    ensures { OnOk result (Tries (size table.now) (places table.now) (names table.now) (tree_of (places table.now) t) indirect (λ f. own_members (names table.now) f (tree_of (places table.now) of)) specs.old.items specs.new.items) }
{
    let under = table.get(table.underlying(of));
    try_shape(alloc, table, t, indirect, under, specs)?;
    try_declared(alloc, table, t, indirect, of, specs)
}
