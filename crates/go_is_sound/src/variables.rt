//! Package variables.
//!
//! Go, "Variable declarations", "Package initialization".

ghost use Rattle.std.specs.Prelude.{◌≡◌, ◌++◌, List, IfOk, OnOk, true, false, map, All, AllPairs};
ghost use Rattle.std.specs.List.{AllByRecursion};
ghost use Rattle.go_type.specs.Tree.{Ty};
ghost use Rattle.go_type.specs.Levels.{trees_of};
ghost use Rattle.go_type.specs.Table.{places};
ghost use Rattle.go_core.specs.CoreTree.{bound};
ghost use Rattle.go_core.specs.CoreView.{expr_view, package_row_view, package_var_view, program_view};
ghost use Rattle.go_core.specs.TypeOf.{listed_types};
ghost use Rattle.go_core.specs.SoundNode.{IsGoodType};
ghost use Rattle.go_core.specs.SoundProgram.{DifferInPackage, SoundInitialiser, SoundVariable};
ghost use Rattle.go_is_sound.specs.Facts.{Holds};
ghost use Rattle.go_is_sound.specs.Variables.{HasHolder, HasPackage, Holder, VarDiffers, is_set_with, types_set, with_set};

use crate::bodies::expr_is_sound;
use crate::facts::Facts;
use gj_base::{NoMemory, Text};
use go_core::node::CoreExpr;
use go_core::program::{PackageRow, PackageVar, Program};
use go_sound_parts::given::{Wanted, gives_all};
use go_type::types::TypeId;
use std::alloc::Global;

// ---- where it is declared

fn has_package(rows: &[PackageRow], path: &Text) -> bool
    ensures is { result ≡ true → HasPackage (map package_row_view rows.now) path.now }
{
    match rows.split_first() {
        Some((row, others)) => {
            if row.path == *path {
                return true;
            }
            has_package(others, path)
        }
        None => false,
    }
}

fn is_holder(y: &PackageVar, x: &PackageVar) -> bool
    ensures is { result ≡ true → (ts : List Ty) → Holder (package_var_view ts y.now) (package_var_view ts x.now) }
{
    y.number == x.first && y.first == y.number && y.package == x.package
}

// Whether a variable holds the initialiser of this one.
fn has_holder(vars: &[PackageVar], x: &PackageVar) -> bool
    ensures is { result ≡ true → (ts : List Ty) → HasHolder (map (package_var_view ts) vars.now) (package_var_view ts x.now) }
{
    match vars.split_first() {
        Some((y, others)) => {
            if is_holder(y, x) {
                return true;
            }
            has_holder(others, x)
        }
        None => false,
    }
}

fn same_number(x: &PackageVar, y: &PackageVar) -> bool
    ensures is { result ≡ false → VarDiffers x.now y.now }
{
    x.number == y.number && x.package == y.package
}

fn is_new_var(x: &PackageVar, others: &[PackageVar]) -> bool
    ensures is { result ≡ true → AllByRecursion (VarDiffers x.now) others.now }
{
    for y in others {
        if same_number(x, y) {
            return false;
        }
    }
    true
}

/// Whether no two variables of a package have one number.
pub fn numbers_differ(vars: &[PackageVar]) -> bool
    ensures is { result ≡ true → (ts : List Ty) → AllPairs DifferInPackage (map (package_var_view ts) vars.now) }
{
    match vars.split_first() {
        Some((x, others)) => is_new_var(x, others) && numbers_differ(others),
        None => true,
    }
}

// ---- initialisers

fn is_set_with(v: &PackageVar, x: &PackageVar) -> bool
    ensures is { (ts : List Ty) → result ≡ is_set_with (package_var_view ts x.now) (package_var_view ts v.now) }
{
    v.first == x.number && v.package == x.package
}

// The type of a variable, where the initialiser sets it.
fn push_set(types: &mut Vec<TypeId>, v: &PackageVar, x: &PackageVar) -> Result<(), NoMemory>
    ensures is { OnOk result ((ts : List Ty) (us : List Ty) → listed_types (trees_of ts types.new.items) ++ us ≡ listed_types (trees_of ts types.old.items) ++ with_set (package_var_view ts x.now) (package_var_view ts v.now) us) }
{
    if !is_set_with(v, x) {
        return Ok(());
    }
    types.push(v.ty)?;
    Ok(())
}

// The types of the variables that one initialiser sets.
fn set_types(alloc: Global, vars: &[PackageVar], x: &PackageVar) -> Result<Vec<TypeId>, NoMemory>
    ensures is { IfOk result (λ v. (ts : List Ty) → listed_types (trees_of ts v.items) ≡ types_set (package_var_view ts x.now) (map (package_var_view ts) vars.now)) }
{
    let mut types = Vec::new(alloc);
    for v in vars {
        push_set(&mut types, v, x)?;
    }
    Ok(types)
}

// One value for each variable that the initialiser sets.
fn initialises(
    alloc: Global,
    facts: &Facts,
    p: &Program,
    x: &PackageVar,
    e: &CoreExpr,
    from: usize,
) -> Result<bool, NoMemory>
    ensures is { let ts = places p.now.types in Holds p.now facts.now → IfOk result (λ b. b ≡ true → SoundInitialiser (program_view p.now) (package_var_view ts x.now) (bound (expr_view ts e.now))) }
{
    let types = set_types(alloc, p.globals.items.as_slice(), x)?;
    if x.first != x.number || !expr_is_sound(alloc, facts, p, e, x.vars.items.as_slice(), from) {
        return Ok(false);
    }
    Ok(gives_all(&p.types, e, Wanted::Types(types.as_slice())))
}

fn initialiser_is_sound(
    alloc: Global,
    facts: &Facts,
    p: &Program,
    x: &PackageVar,
    from: usize,
) -> Result<bool, NoMemory>
    ensures is { let ts = places p.now.types in Holds p.now facts.now → IfOk result (λ b. b ≡ true → SoundInitialiser (program_view p.now) (package_var_view ts x.now) (package_var_view ts x.now).initialiser) }
{
    match &x.initialiser {
        Some(e) => initialises(alloc, facts, p, x, e, from),
        None => Ok(true),
    }
}

fn has_good_type(p: &Program, x: &PackageVar) -> bool
    ensures is { let q = program_view p.now in All (IsGoodType q) q.types → result ≡ true → IsGoodType q (package_var_view (places p.now.types) x.now).type_ }
{
    x.ty.0 < p.types.len()
}

/// Whether a package variable is sound, whose initialiser's variables stand from a place on among
/// all.
pub fn var_is_sound(
    alloc: Global,
    facts: &Facts,
    p: &Program,
    x: &PackageVar,
    from: usize,
) -> Result<bool, NoMemory>
    ensures is { Holds p.now facts.now → IfOk result (λ b. b ≡ true → SoundVariable (program_view p.now) (package_var_view (places p.now.types) x.now)) }
{
    if !has_good_type(p, x)
        || !has_package(p.packages.items.as_slice(), &x.package)
        || !has_holder(p.globals.items.as_slice(), x)
    {
        return Ok(false);
    }
    initialiser_is_sound(alloc, facts, p, x, from)
}
