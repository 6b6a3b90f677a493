//! `xs := ys`, name by name.
//!
//! Go, "Short variable declarations".

ghost use Rattle.std.specs.Prelude.{◌≡◌, ◌<◌, ◌++◌, ◌∷◌, [], None, Some, OnOk, IfOk, IfSome, List, map, option_map};
ghost use Rattle.go_type.specs.Tree.{Ty};
ghost use Rattle.go_type.specs.Levels.{tree_of};
ghost use Rattle.go_type.specs.Table.{size};
ghost use Rattle.go_core.specs.CoreTree as tree;
ghost use Rattle.go_core.specs.CoreView.{expr_view, stmt_view, target_view};
ghost use Rattle.go_operands.specs.EnvView.{table_of};
ghost use Rattle.go_operands.specs.AnswerView.{answer_view, flaw_view};
ghost use Rattle.go_operands.specs.Below.{AnswerBelow};
ghost use Rattle.go_calls.specs.Words.{types_of, names_of};
ghost use Rattle.go_typing.specs.Expressions.{core_of, type_of};
ghost use Rattle.go_typing.specs.Assign as go;
ghost use Rattle.go_walk.specs.WalkView.{walk_of, depth, Keeps};
ghost use Rattle.go_expr.specs.Raw.{raw_view, RawBelow};
ghost use Rattle.go_assign.specs.Settled.{valued_view, alone};
ghost use Rattle.go_assign.specs.Moves.{Moves};
ghost use Rattle.go_assign.specs.LeftView.{left_view, LeftBelow};
ghost use Rattle.go_define.specs.FreshView.{new_spot, old_spot, fresh_view, FreshBelow};
ghost use Rattle.go_define.specs.Defining.{spot_stmts, spot_target, spot_walk, spot_valued, spot_flaws, type_flaws};

use crate::define::fresh::Fresh;
use gj_base::{NoMemory, Place};
use go_assign::assign::each::{and_left, left_told, store_one};
use go_assign::assign::left::Left;
use go_assign::assign::several::takes;
use go_assign::effects::{and_valued, declared, told_unless};
use go_assign::valued::{Valued, fit_alone, gone_valued, type_of};
use go_core::node::CoreExpr;
use go_core::statement::{CoreStmt, Target};
use go_expr::typed::Raw;
use go_operands::answers::answer::Flaw;
use go_operands::scopes::Env;
use go_syntax::tree::Name;
use go_type::types::TypeId;
use go_walk::stmt_gone::more::and_target;
use go_walk::stmt_nodes::store::blank;
use go_walk::walk::Walk;
use go_walk::walk::scopes::there;
use go_walk::walk::variables::unknown;
use std::alloc::Global;

// ---- a new name

// A new name declares a variable of this type, unless its scope has it by now.
#[tactic(auto, using(crate::proofs::DefineLemmas::moves_by))]
fn declare(
    walk: &mut Walk,
    n: &Name,
    ty: Option<TypeId>,
    out: &mut Vec<CoreStmt>,
) -> Result<Target, NoMemory>
    requires depth { 0 < depth walk.old }
    requires below { IfSome ty (λ t. t.0 < size (table_of walk.old.env)) }
    ensures core { OnOk result ((ts : List Ty) → Keeps (table_of walk.old.env) ts → map (stmt_view ts) out.new.items ≡ map (stmt_view ts) out.old.items ++ spot_stmts (walk_of ts walk.old) (new_spot n.now) (option_map (tree_of (types_of walk.old.env)) ty)) }
    ensures target { IfOk result (λ g. (ts : List Ty) → Keeps (table_of walk.old.env) ts → target_view ts g ≡ spot_target (walk_of ts walk.old) (new_spot n.now) (option_map (tree_of (types_of walk.old.env)) ty)) }
    ensures walk { OnOk result (Moves (spot_walk (new_spot n.now) (option_map (tree_of (types_of walk.old.env)) ty)) walk.old walk.new) }
    ensures table { table_of walk.new.env ≡ table_of walk.old.env }
{
    let alloc = *walk.used.allocator();
    let at = there(walk, n);
    match declared(alloc, walk, n, at, ty, out) {
        Ok(target) => Ok(target),
        Err(error) => Err(error),
    }
}

// A left side in the core with its value.
#[tactic(auto, using(crate::proofs::DefineLemmas::target_more))]
fn and_both(
    alloc: Global,
    env: &Env,
    target: Target,
    valued: Valued,
    flaws: &mut Vec<Flaw>,
    targets: &mut Vec<Target>,
    cores: &mut Vec<CoreExpr>,
) -> Result<(), NoMemory>
    ensures targets { OnOk result ((ts : List Ty) → map (target_view ts) targets.new.items ≡ map (target_view ts) targets.old.items ++ target_view ts target ∷ []) }
    ensures values { OnOk result ((ts : List Ty) → Keeps (table_of env.now) ts → map (expr_view ts) cores.new.items ≡ map (expr_view ts) cores.old.items ++ core_of (answer_view (types_of env.now) valued.answer) ∷ []) }
    ensures told { OnOk result (map flaw_view flaws.new.items ≡ map flaw_view flaws.old.items ++ map flaw_view valued.flaws.items) }
{
    match and_target(targets, target) {
        Ok(()) => match and_valued(alloc, env, valued, flaws, cores) {
            Ok(()) => Ok(()),
            Err(error) => Err(error),
        },
        Err(error) => {
            gone_valued(valued);
            Err(error)
        }
    }
}

// A new name takes the type of its value, which is told and stored before the name is declared.
#[tactic(auto, using(crate::proofs::DefineLemmas::target_at, crate::proofs::DefineLemmas::target_more))]
fn define_valued(
    walk: &mut Walk,
    n: &Name,
    valued: Valued,
    flaws: &mut Vec<Flaw>,
    out: &mut Vec<CoreStmt>,
    targets: &mut Vec<Target>,
    cores: &mut Vec<CoreExpr>,
) -> Result<(), NoMemory>
    requires depth { 0 < depth walk.old }
    requires within { AnswerBelow (size (table_of walk.old.env)) valued.answer }
    ensures core { OnOk result ((ts : List Ty) → Keeps (table_of walk.old.env) ts → map (stmt_view ts) out.new.items ≡ map (stmt_view ts) out.old.items ++ spot_stmts (walk_of ts walk.old) (new_spot n.now) (type_of (answer_view (types_of walk.old.env) valued.answer))) }
    ensures targets { OnOk result ((ts : List Ty) → Keeps (table_of walk.old.env) ts → map (target_view ts) targets.new.items ≡ map (target_view ts) targets.old.items ++ spot_target (walk_of ts walk.old) (new_spot n.now) (type_of (answer_view (types_of walk.old.env) valued.answer)) ∷ []) }
    ensures values { OnOk result ((ts : List Ty) → Keeps (table_of walk.old.env) ts → map (expr_view ts) cores.new.items ≡ map (expr_view ts) cores.old.items ++ core_of (answer_view (types_of walk.old.env) valued.answer) ∷ []) }
    ensures told { OnOk result (map flaw_view flaws.new.items ≡ map flaw_view flaws.old.items ++ map flaw_view valued.flaws.items) }
    ensures walk { OnOk result (Moves (spot_walk (new_spot n.now) (type_of (answer_view (types_of walk.old.env) valued.answer))) walk.old walk.new) }
    ensures table { OnOk result (table_of walk.new.env ≡ table_of walk.old.env) }
{
    let alloc = *walk.used.allocator();
    let ty = type_of(&walk.env, &valued.answer);
    match and_valued(alloc, &walk.env, valued, flaws, cores) {
        Ok(()) => match declare(walk, n, ty, out) {
            Ok(target) => match and_target(targets, target) {
                Ok(()) => Ok(()),
                Err(error) => Err(error),
            },
            Err(error) => Err(error),
        },
        Err(error) => Err(error),
    }
}

#[tactic(auto, using(crate::proofs::DefineLemmas::core_same, crate::proofs::DefineLemmas::target_same, crate::proofs::DefineLemmas::value_same, crate::proofs::DefineLemmas::told_same, crate::proofs::DefineLemmas::moves_same))]
fn define_new(
    walk: &mut Walk,
    n: &Name,
    raw: Raw,
    flaws: &mut Vec<Flaw>,
    out: &mut Vec<CoreStmt>,
    targets: &mut Vec<Target>,
    cores: &mut Vec<CoreExpr>,
) -> Result<(), NoMemory>
    requires depth { 0 < depth walk.old }
    requires within { RawBelow (size (table_of walk.old.env)) raw }
    ensures core { OnOk result ((ts : List Ty) → Keeps (table_of walk.old.env) ts → map (stmt_view ts) out.new.items ≡ map (stmt_view ts) out.old.items ++ spot_stmts (walk_of ts walk.old) (new_spot n.now) (type_of (alone (names_of walk.old.env) (raw_view (types_of walk.old.env) raw)).answer)) }
    ensures targets { OnOk result ((ts : List Ty) → Keeps (table_of walk.old.env) ts → map (target_view ts) targets.new.items ≡ map (target_view ts) targets.old.items ++ spot_target (walk_of ts walk.old) (new_spot n.now) (type_of (alone (names_of walk.old.env) (raw_view (types_of walk.old.env) raw)).answer) ∷ []) }
    ensures values { OnOk result ((ts : List Ty) → Keeps (table_of walk.old.env) ts → map (expr_view ts) cores.new.items ≡ map (expr_view ts) cores.old.items ++ core_of (alone (names_of walk.old.env) (raw_view (types_of walk.old.env) raw)).answer ∷ []) }
    ensures told { OnOk result (map flaw_view flaws.new.items ≡ map flaw_view flaws.old.items ++ (alone (names_of walk.old.env) (raw_view (types_of walk.old.env) raw)).flaws) }
    ensures walk { OnOk result (Moves (spot_walk (new_spot n.now) (type_of (alone (names_of walk.old.env) (raw_view (types_of walk.old.env) raw)).answer)) walk.old walk.new) }
    ensures table { OnOk result (table_of walk.new.env ≡ table_of walk.old.env) }
{
    let alloc = *walk.used.allocator();
    match fit_alone(alloc, &walk.env, raw) {
        Ok(valued) => match define_valued(walk, n, valued, flaws, out, targets, cores) {
            Ok(()) => Ok(()),
            Err(error) => Err(error),
        },
        Err(error) => Err(error),
    }
}

// What takes any value.
#[tactic(auto, using(crate::proofs::DefineLemmas::value_same, crate::proofs::DefineLemmas::told_same))]
fn define_blank(
    alloc: Global,
    env: &Env,
    raw: Raw,
    flaws: &mut Vec<Flaw>,
    targets: &mut Vec<Target>,
    cores: &mut Vec<CoreExpr>,
) -> Result<(), NoMemory>
    requires within { RawBelow (size (table_of env.now)) raw }
    ensures targets { OnOk result ((ts : List Ty) → map (target_view ts) targets.new.items ≡ map (target_view ts) targets.old.items ++ tree.blank ∷ []) }
    ensures values { OnOk result ((ts : List Ty) → Keeps (table_of env.now) ts → map (expr_view ts) cores.new.items ≡ map (expr_view ts) cores.old.items ++ core_of (alone (names_of env.now) (raw_view (types_of env.now) raw)).answer ∷ []) }
    ensures told { OnOk result (map flaw_view flaws.new.items ≡ map flaw_view flaws.old.items ++ (alone (names_of env.now) (raw_view (types_of env.now) raw)).flaws) }
{
    match fit_alone(alloc, env, raw) {
        Ok(valued) => match and_both(alloc, env, blank(), valued, flaws, targets, cores) {
            Ok(()) => Ok(()),
            Err(error) => Err(error),
        },
        Err(error) => Err(error),
    }
}

// ---- a name with its value

/// A name on the left with its value: a new one takes its type, any other is assigned.
#[tactic(auto, using(crate::proofs::DefineLemmas::none_more, go_assign::proofs::WalkLemmas::moves_not))]
pub fn define_one(
    walk: &mut Walk,
    fresh: Fresh,
    raw: Raw,
    flaws: &mut Vec<Flaw>,
    out: &mut Vec<CoreStmt>,
    targets: &mut Vec<Target>,
    cores: &mut Vec<CoreExpr>,
) -> Result<(), NoMemory>
    requires depth { 0 < depth walk.old }
    requires fresh { FreshBelow (size (table_of walk.old.env)) fresh }
    requires within { RawBelow (size (table_of walk.old.env)) raw }
    ensures core { OnOk result ((ts : List Ty) → Keeps (table_of walk.old.env) ts → map (stmt_view ts) out.new.items ≡ map (stmt_view ts) out.old.items ++ spot_stmts (walk_of ts walk.old) (fresh_view (types_of walk.old.env) fresh) (type_of (spot_valued (names_of walk.old.env) (fresh_view (types_of walk.old.env) fresh) (raw_view (types_of walk.old.env) raw)).answer)) }
    ensures targets { OnOk result ((ts : List Ty) → Keeps (table_of walk.old.env) ts → map (target_view ts) targets.new.items ≡ map (target_view ts) targets.old.items ++ spot_target (walk_of ts walk.old) (fresh_view (types_of walk.old.env) fresh) (type_of (spot_valued (names_of walk.old.env) (fresh_view (types_of walk.old.env) fresh) (raw_view (types_of walk.old.env) raw)).answer) ∷ []) }
    ensures values { OnOk result ((ts : List Ty) → Keeps (table_of walk.old.env) ts → map (expr_view ts) cores.new.items ≡ map (expr_view ts) cores.old.items ++ core_of (spot_valued (names_of walk.old.env) (fresh_view (types_of walk.old.env) fresh) (raw_view (types_of walk.old.env) raw)).answer ∷ []) }
    ensures told { OnOk result (map flaw_view flaws.new.items ≡ map flaw_view flaws.old.items ++ (spot_valued (names_of walk.old.env) (fresh_view (types_of walk.old.env) fresh) (raw_view (types_of walk.old.env) raw)).flaws) }
    ensures walk { OnOk result (Moves (spot_walk (fresh_view (types_of walk.old.env) fresh) (type_of (spot_valued (names_of walk.old.env) (fresh_view (types_of walk.old.env) fresh) (raw_view (types_of walk.old.env) raw)).answer)) walk.old walk.new) }
    ensures table { OnOk result (table_of walk.new.env ≡ table_of walk.old.env) }
{
    let alloc = *walk.used.allocator();
    match fresh {
        Fresh::New(n) => match define_new(walk, &n, raw, flaws, out, targets, cores) {
            Ok(()) => Ok(()),
            Err(error) => Err(error),
        },
        Fresh::Old(left) => match store_one(alloc, &walk.env, left, raw, flaws, targets, cores) {
            Ok(()) => Ok(()),
            Err(error) => Err(error),
        },
        Fresh::Blank => match define_blank(alloc, &walk.env, raw, flaws, targets, cores) {
            Ok(()) => Ok(()),
            Err(error) => Err(error),
        },
        Fresh::Other => match define_blank(alloc, &walk.env, raw, flaws, targets, cores) {
            Ok(()) => Ok(()),
            Err(error) => Err(error),
        },
    }
}

// ---- a name with one of the several values of a call

// A left side that its scope has (61 at the call).
#[tactic(auto, using(crate::proofs::DefineLemmas::fits_told))]
fn type_old(
    alloc: Global,
    env: &Env,
    p: Place,
    left: Left,
    ty: TypeId,
    flaws: &mut Vec<Flaw>,
    targets: &mut Vec<Target>,
) -> Result<(), NoMemory>
    requires left { LeftBelow (size (table_of env.now)) left }
    requires ty { ty.0 < size (table_of env.now) }
    ensures targets { OnOk result ((ts : List Ty) → Keeps (table_of env.now) ts → map (target_view ts) targets.new.items ≡ map (target_view ts) targets.old.items ++ go.target_of (left_view (types_of env.now) left) ∷ []) }
    ensures told { OnOk result (map flaw_view flaws.new.items ≡ map flaw_view flaws.old.items ++ type_flaws p (old_spot (left_view (types_of env.now) left)) (tree_of (types_of env.now) ty)) }
{
    match and_left(alloc, env, &left, targets) {
        Ok(()) => {
            let fits = takes(env, &left, ty);
            match left_told(left, flaws) {
                Ok(()) => match told_unless(alloc, flaws, fits, p, 61) {
                    Ok(()) => Ok(()),
                    Err(error) => Err(error),
                },
                Err(error) => Err(error),
            }
        }
        Err(error) => Err(error),
    }
}

#[tactic(auto, using(crate::proofs::DefineLemmas::target_at))]
fn type_new(
    walk: &mut Walk,
    n: &Name,
    ty: TypeId,
    out: &mut Vec<CoreStmt>,
    targets: &mut Vec<Target>,
) -> Result<(), NoMemory>
    requires depth { 0 < depth walk.old }
    requires ty { ty.0 < size (table_of walk.old.env) }
    ensures core { OnOk result ((ts : List Ty) → Keeps (table_of walk.old.env) ts → map (stmt_view ts) out.new.items ≡ map (stmt_view ts) out.old.items ++ spot_stmts (walk_of ts walk.old) (new_spot n.now) (Some (tree_of (types_of walk.old.env) ty))) }
    ensures targets { OnOk result ((ts : List Ty) → Keeps (table_of walk.old.env) ts → map (target_view ts) targets.new.items ≡ map (target_view ts) targets.old.items ++ spot_target (walk_of ts walk.old) (new_spot n.now) (Some (tree_of (types_of walk.old.env) ty)) ∷ []) }
    ensures walk { OnOk result (Moves (spot_walk (new_spot n.now) (Some (tree_of (types_of walk.old.env) ty))) walk.old walk.new) }
    ensures table { OnOk result (table_of walk.new.env ≡ table_of walk.old.env) }
{
    match declare(walk, n, Some(ty), out) {
        Ok(target) => match and_target(targets, target) {
            Ok(()) => Ok(()),
            Err(error) => Err(error),
        },
        Err(error) => Err(error),
    }
}

/// A name on the left with the type of its value, which is one of several of a call at `p`.
#[tactic(auto, using(crate::proofs::DefineLemmas::none_more, crate::proofs::DefineLemmas::none_told, crate::proofs::DefineLemmas::target_more, go_assign::proofs::WalkLemmas::moves_not))]
pub fn type_one(
    walk: &mut Walk,
    p: Place,
    fresh: Fresh,
    ty: TypeId,
    flaws: &mut Vec<Flaw>,
    out: &mut Vec<CoreStmt>,
    targets: &mut Vec<Target>,
) -> Result<(), NoMemory>
    requires depth { 0 < depth walk.old }
    requires fresh { FreshBelow (size (table_of walk.old.env)) fresh }
    requires ty { ty.0 < size (table_of walk.old.env) }
    ensures core { OnOk result ((ts : List Ty) → Keeps (table_of walk.old.env) ts → map (stmt_view ts) out.new.items ≡ map (stmt_view ts) out.old.items ++ spot_stmts (walk_of ts walk.old) (fresh_view (types_of walk.old.env) fresh) (Some (tree_of (types_of walk.old.env) ty))) }
    ensures targets { OnOk result ((ts : List Ty) → Keeps (table_of walk.old.env) ts → map (target_view ts) targets.new.items ≡ map (target_view ts) targets.old.items ++ spot_target (walk_of ts walk.old) (fresh_view (types_of walk.old.env) fresh) (Some (tree_of (types_of walk.old.env) ty)) ∷ []) }
    ensures told { OnOk result (map flaw_view flaws.new.items ≡ map flaw_view flaws.old.items ++ type_flaws p (fresh_view (types_of walk.old.env) fresh) (tree_of (types_of walk.old.env) ty)) }
    ensures walk { OnOk result (Moves (spot_walk (fresh_view (types_of walk.old.env) fresh) (Some (tree_of (types_of walk.old.env) ty))) walk.old walk.new) }
    ensures table { OnOk result (table_of walk.new.env ≡ table_of walk.old.env) }
{
    let alloc = *walk.used.allocator();
    match fresh {
        Fresh::New(n) => match type_new(walk, &n, ty, out, targets) {
            Ok(()) => Ok(()),
            Err(error) => Err(error),
        },
        Fresh::Old(left) => match type_old(alloc, &walk.env, p, left, ty, flaws, targets) {
            Ok(()) => Ok(()),
            Err(error) => Err(error),
        },
        Fresh::Blank => match and_target(targets, blank()) {
            Ok(()) => Ok(()),
            Err(error) => Err(error),
        },
        Fresh::Other => match and_target(targets, blank()) {
            Ok(()) => Ok(()),
            Err(error) => Err(error),
        },
    }
}

// ---- a name of which no value is known

#[tactic(auto, using(crate::proofs::DefineLemmas::unknown_new, crate::proofs::DefineLemmas::unknown_there))]
fn unknown_name(walk: &mut Walk, n: &Name) -> Result<(), NoMemory>
    requires depth { 0 < depth walk.old }
    ensures walk { OnOk result (Moves (spot_walk (new_spot n.now) None) walk.old walk.new) }
    ensures table { OnOk result (table_of walk.new.env ≡ table_of walk.old.env) }
{
    match there(walk, n) {
        None => match unknown(walk, n) {
            Ok(()) => Ok(()),
            Err(error) => Err(error),
        },
        Some(_) => Ok(()),
    }
}

/// A new name is declared, so that its uses have no fault of their own.
#[tactic(auto, using(go_assign::proofs::WalkLemmas::moves_not))]
pub fn unknown_one(walk: &mut Walk, fresh: &Fresh) -> Result<(), NoMemory>
    requires depth { 0 < depth walk.old }
    ensures walk { OnOk result (Moves (spot_walk (fresh_view (types_of walk.old.env) fresh.now) None) walk.old walk.new) }
    ensures table { OnOk result (table_of walk.new.env ≡ table_of walk.old.env) }
{
    match fresh {
        Fresh::New(n) => match unknown_name(walk, n) {
            Ok(()) => Ok(()),
            Err(error) => Err(error),
        },
        Fresh::Old(_) => Ok(()),
        Fresh::Blank => Ok(()),
        Fresh::Other => Ok(()),
    }
}

/// What is told of a name that its scope has.
#[tactic(auto, using(crate::proofs::NameLemmas::told_none))]
pub fn fresh_told(fresh: Fresh, flaws: &mut Vec<Flaw>) -> Result<(), NoMemory>
    ensures told { OnOk result ((ts : List Ty) → map flaw_view flaws.new.items ≡ map flaw_view flaws.old.items ++ spot_flaws (fresh_view ts fresh)) }
{
    match fresh {
        Fresh::Old(left) => left_told(left, flaws),
        Fresh::New(_) => Ok(()),
        Fresh::Blank => Ok(()),
        Fresh::Other => Ok(()),
    }
}
