//! Types that are declared in functions.
//!
//! Go, "Type declarations".

ghost use Rattle.std.specs.Prelude.{◌≡◌, ◌<◌, ◌≤◌, ◌++◌, true, false, Some, None, OnOk, IfOk, List, map, option_map};
ghost use Rattle.go_type.specs.Tree.{Ty};
ghost use Rattle.go_type.specs.Levels.{tree_of};
ghost use Rattle.go_type.specs.Named.{IsUnnamed};
ghost use Rattle.go_type.specs.Table.{size, KeepsTrees};
ghost use Rattle.go_type.specs.Underlying.{underlying};
ghost use Rattle.go_core.specs.declared.statement.CoreStmt as statement;
ghost use Rattle.go_syntax.specs.View.{expr_view, type_spec_view, joined};
ghost use Rattle.go_syntax.specs.Tree as t;
ghost use Rattle.go_operands.specs.EnvView.{table_of};
ghost use Rattle.go_operands.specs.AnswerView.{flaw_view};
ghost use Rattle.go_calls.specs.Words.{types_of, names_of};
ghost use Rattle.go_typing.specs.Walk.{is_there};
ghost use Rattle.go_typing.specs.Expressions.{type_in, type_of};
ghost use Rattle.go_typing.specs.Declare.{is_bare, declare_type, type_spec, type_specs};
ghost use Rattle.go_walk.specs.WalkView.{walk_of, depth};
ghost use Rattle.go_assign.specs.Outcome.{Does};
ghost use Rattle.go_assign.specs.Moves.{Stays};
ghost use Rattle.go_assign.specs.SpecView.{TypeBelow};

use crate::local::bare::is_bare;
use gj_base::{NoMemory, Place};
use go_assign::constants::{FoundType, type_found};
use go_assign::effects::used;
use go_assign::valued::told::move_flaws;
use go_operands::answers::answer::Flaw;
use go_operands::answers::rule::and_flaw;
use go_operands::rules::kind::under;
use go_operands::scopes::{Declared, Env};
use go_syntax::tree::{Expr, Name, TypeSpec};
use go_type::types::{GoType, TypeId};
use go_walk::walk::Walk;
use go_walk::walk::again::redeclared;
use go_walk::walk::kinds::{local_alias, local_type};
use go_walk::walk::scopes::{name, there};

// Whether what a type stands for has no name itself. Each named type is set before a function's body is
// gone through; own: not proved is that it is.
#[tactic(auto, using(crate::proofs::TypeLemmas::unnamed_by))]
fn is_set(env: &Env, ty: TypeId) -> bool
    requires ty { ty.0 < size (table_of env.now) }
    ensures set { result ≡ true → IsUnnamed (underlying (names_of env.now) (tree_of (types_of env.now) ty)) }
{
    match under(env.table(), ty) {
        GoType::Named(_) => false,
        GoType::Tuple(_) => true,
        GoType::Bool => true,
        GoType::Str => true,
        GoType::Int(_) => true,
        GoType::Nil => true,
        GoType::Untyped(_) => true,
        GoType::Array(_, _) => true,
        GoType::Slice(_) => true,
        GoType::Struct(_) => true,
        GoType::Pointer(_) => true,
        GoType::Func(_) => true,
        GoType::Interface(_) => true,
        GoType::Map(_, _) => true,
        GoType::Chan(_, _) => true,
    }
}

// A type, with what is told of it.
#[tactic(auto, using(crate::proofs::TypeLemmas::told_then, go_assign::proofs::WalkLemmas::stays_grown))]
fn told_type(walk: &mut Walk, flaws: &mut Vec<Flaw>, e: &Expr) -> Result<Option<TypeId>, NoMemory>
    ensures ty { IfOk result (λ o. (us : List Ty) → option_map (tree_of (types_of walk.new.env)) o ≡ type_of (type_in (walk_of us walk.old) (expr_view e.now)).answer) }
    ensures below { IfOk result (λ o. TypeBelow (size (table_of walk.new.env)) o) }
    ensures told { OnOk result ((us : List Ty) → map flaw_view flaws.new.items ≡ map flaw_view flaws.old.items ++ (type_in (walk_of us walk.old) (expr_view e.now)).flaws) }
    ensures stays { OnOk result (Stays walk.old walk.new) }
{
    let alloc = *flaws.allocator();
    match type_found(alloc, &mut walk.env, e) {
        Ok(found) => {
            let FoundType { ty, flaws: more } = found;
            match move_flaws(flaws, more) {
                Ok(()) => Ok(ty),
                Err(error) => Err(error),
            }
        }
        Err(error) => Err(error),
    }
}

// ---- the name

#[tactic(auto, using(crate::proofs::TypeLemmas::alias_value, crate::proofs::TypeLemmas::type_value, crate::proofs::TypeLemmas::kept_same, crate::proofs::TypeLemmas::counts_same))]
fn with_type(walk: &mut Walk, n: &Name, alias: bool, ty: TypeId) -> Result<(), NoMemory>
    requires depth { 0 < depth walk.old }
    requires missing { (ts : List Ty) → is_there n.now (walk_of ts walk.old) ≡ None }
    requires below { ty.0 < size (table_of walk.old.env) }
    ensures value { OnOk result ((ts : List Ty) → walk_of ts walk.new ≡ declare_type n.now alias (Some (tree_of (types_of walk.old.env) ty)) (walk_of ts walk.old)) }
    ensures depth { OnOk result (depth walk.new ≡ depth walk.old) }
    ensures kept { OnOk result (KeepsTrees (table_of walk.old.env) (table_of walk.new.env)) }
    ensures counts { OnOk result (size (table_of walk.old.env) ≤ size (table_of walk.new.env)) }
{
    if alias {
        local_alias(walk, n, ty)?;
        return Ok(());
    }
    if is_set(&walk.env, ty) {
        local_type(walk, n, ty)?;
        return Ok(());
    }
    Err(NoMemory)
}

// A name that the scope hasn't, with its type if that is known.
#[tactic(auto, using(crate::proofs::TypeLemmas::some_value, crate::proofs::TypeLemmas::none_value, crate::proofs::TypeLemmas::kept_same, crate::proofs::TypeLemmas::counts_same))]
fn with_found(walk: &mut Walk, n: &Name, alias: bool, ty: Option<TypeId>) -> Result<(), NoMemory>
    requires depth { 0 < depth walk.old }
    requires missing { (ts : List Ty) → is_there n.now (walk_of ts walk.old) ≡ None }
    requires below { TypeBelow (size (table_of walk.old.env)) ty }
    ensures value { OnOk result ((ts : List Ty) → walk_of ts walk.new ≡ declare_type n.now alias (option_map (tree_of (types_of walk.old.env)) ty) (walk_of ts walk.old)) }
    ensures depth { OnOk result (depth walk.new ≡ depth walk.old) }
    ensures kept { OnOk result (KeepsTrees (table_of walk.old.env) (table_of walk.new.env)) }
    ensures counts { OnOk result (size (table_of walk.old.env) ≤ size (table_of walk.new.env)) }
{
    match ty {
        Some(t) => {
            with_type(walk, n, alias, t)?;
            Ok(())
        }
        None => {
            name(walk, n, Declared::Unknown)?;
            Ok(())
        }
    }
}

// ---- specifications

// A name that the scope has already.
#[tactic(auto, using(crate::proofs::TypeLemmas::again_does))]
fn again(
    walk: &mut Walk,
    flaws: &mut Vec<Flaw>,
    n: &Name,
    alias: bool,
    e: &Expr,
    at: Place,
) -> Result<(), NoMemory>
    ensures does { OnOk result ((out : List statement.CoreStmt) → Does (type_spec n.now alias (expr_view e.now) (Some at)) walk.old walk.new flaws.old.items flaws.new.items out out) }
{
    let _ = alias;
    match redeclared(flaws, n, Some(at)) {
        Ok(()) => match told_type(walk, flaws, e) {
            Ok(_ty) => match used(walk, e) {
                Ok(()) => Ok(()),
                Err(error) => Err(error),
            },
            Err(error) => Err(error),
        },
        Err(error) => Err(error),
    }
}

// A type that needs itself (74).
#[tactic(auto, using(crate::proofs::TypeLemmas::bare_does))]
fn bare(
    walk: &mut Walk,
    flaws: &mut Vec<Flaw>,
    n: &Name,
    alias: bool,
    e: &Expr,
) -> Result<(), NoMemory>
    requires depth { 0 < depth walk.old }
    requires missing { (ts : List Ty) → is_there n.now (walk_of ts walk.old) ≡ None }
    requires bare { is_bare n.now.text (expr_view e.now) ≡ true }
    ensures does { OnOk result ((out : List statement.CoreStmt) → Does (type_spec n.now alias (expr_view e.now) None) walk.old walk.new flaws.old.items flaws.new.items out out) }
{
    let _ = alias;
    match name(walk, n, Declared::Unknown) {
        Ok(()) => match used(walk, e) {
            Ok(()) => match and_flaw(*flaws.allocator(), flaws, n.place, 74) {
                Ok(()) => Ok(()),
                Err(error) => Err(error),
            },
            Err(error) => Err(error),
        },
        Err(error) => Err(error),
    }
}

#[tactic(auto, using(crate::proofs::TypeLemmas::new_does, crate::proofs::TypeLemmas::there_still, crate::proofs::TypeLemmas::below_still, crate::proofs::TypeLemmas::depth_still))]
fn new_spec(
    walk: &mut Walk,
    flaws: &mut Vec<Flaw>,
    n: &Name,
    alias: bool,
    e: &Expr,
) -> Result<(), NoMemory>
    requires depth { 0 < depth walk.old }
    requires missing { (ts : List Ty) → is_there n.now (walk_of ts walk.old) ≡ None }
    requires other { is_bare n.now.text (expr_view e.now) ≡ false }
    ensures does { OnOk result ((out : List statement.CoreStmt) → Does (type_spec n.now alias (expr_view e.now) None) walk.old walk.new flaws.old.items flaws.new.items out out) }
{
    match told_type(walk, flaws, e) {
        Ok(ty) => match used(walk, e) {
            Ok(()) => match with_found(walk, n, alias, ty) {
                Ok(()) => Ok(()),
                Err(error) => Err(error),
            },
            Err(error) => Err(error),
        },
        Err(error) => Err(error),
    }
}

// A name that the scope hasn't.
fn first_spec(
    walk: &mut Walk,
    flaws: &mut Vec<Flaw>,
    n: &Name,
    alias: bool,
    e: &Expr,
) -> Result<(), NoMemory>
    requires depth { 0 < depth walk.old }
    requires missing { (ts : List Ty) → is_there n.now (walk_of ts walk.old) ≡ None }
    ensures does { OnOk result ((out : List statement.CoreStmt) → Does (type_spec n.now alias (expr_view e.now) None) walk.old walk.new flaws.old.items flaws.new.items out out) }
{
    if is_bare(&n.text, e) {
        bare(walk, flaws, n, alias, e)?;
        return Ok(());
    }
    new_spec(walk, flaws, n, alias, e)?;
    Ok(())
}

#[tactic(auto, using(crate::proofs::TypeLemmas::spec_again, crate::proofs::TypeLemmas::spec_first))]
fn one_spec(
    walk: &mut Walk,
    flaws: &mut Vec<Flaw>,
    n: &Name,
    alias: bool,
    e: &Expr,
) -> Result<(), NoMemory>
    requires depth { 0 < depth walk.old }
    ensures does { OnOk result ((out : List statement.CoreStmt) → Does (λ w. type_spec n.now alias (expr_view e.now) (is_there n.now w) w) walk.old walk.new flaws.old.items flaws.new.items out out) }
{
    match there(walk, n) {
        Some(at) => {
            again(walk, flaws, n, alias, e, at)?;
            Ok(())
        }
        None => {
            first_spec(walk, flaws, n, alias, e)?;
            Ok(())
        }
    }
}

/// `type`, specification by specification.
pub fn type_specs(
    walk: &mut Walk,
    flaws: &mut Vec<Flaw>,
    specs: &[TypeSpec],
) -> Result<(), NoMemory>
    requires depth { 0 < depth walk.old }
    ensures does { OnOk result ((out : List statement.CoreStmt) → Does (type_specs (joined (map type_spec_view specs.now) t.NoTypes)) walk.old walk.new flaws.old.items flaws.new.items out out) }
{
    for spec in specs {
        one_spec(walk, flaws, &spec.name, spec.alias, &spec.ty)?;
    }
    Ok(())
}
