//! All names on the left of `:=`, with their values.
//!
//! Go, "Short variable declarations".

ghost use Rattle.std.specs.Prelude.{◌≡◌, ◌<◌, ◌++◌, ◌&&◌, ◌∷◌, [], None, Some, OnOk, IfOk, IfSome, List, map, option_map};
ghost use Rattle.go_type.specs.Tree.{Ty};
ghost use Rattle.go_type.specs.Levels.{trees_of, IdsBelow};
ghost use Rattle.go_type.specs.Table.{size};
ghost use Rattle.go_core.specs.CoreTree as tree;
ghost use Rattle.go_core.specs.CoreView.{expr_view, exprs_of, stmt_view, target_view};
ghost use Rattle.go_core.specs.declared.statement.CoreStmt as statement;
ghost use Rattle.go_operands.specs.EnvView.{table_of};
ghost use Rattle.go_typing.specs.Answer.{flaw};
ghost use Rattle.go_operands.specs.AnswerView.{flaw_view};
ghost use Rattle.go_typing.specs.Assign.{where_typed};
ghost use Rattle.go_assign.specs.Settled.{all_known, all_told, several_in};
ghost use Rattle.go_calls.specs.Words.{types_of, names_of};
ghost use Rattle.go_typing.specs.Expressions.{core_of};
ghost use Rattle.go_walk.specs.WalkView.{depth, Keeps};
ghost use Rattle.go_expr.specs.Raw.{raw_view, raws_view, RawsBelow};
ghost use Rattle.go_assign.specs.Outcome.{Does};
ghost use Rattle.go_assign.specs.Moves.{Moves};
ghost use Rattle.go_define.specs.FreshView.{freshes_view, FreshesBelow};
ghost use Rattle.go_define.specs.Defining.{Defines, value_takes, value_cores, type_takes, defined, unknowns, spots_flaws, not_defined, defined_by};

use crate::define::fresh::{Freshes, both_typed, names_typed, next_fresh};
use crate::define::one::{define_one, fresh_told, type_one, unknown_one};
use gj_base::{NoMemory, Place};
use go_assign::effects::{one_stored, stored};
use go_assign::valued::{all_known, move_all, move_flaws, several, told_where_typed};
use go_core::node::CoreExpr;
use go_core::statement::{CoreStmt, Target};
use go_expr::typed::{Raw, Raws, gone_raw, gone_raws, next_raw};
use go_operands::answers::answer::Flaw;
use go_operands::operands::part::Part;
use go_operands::scopes::Env;
use go_type::types::TypeId;
use go_walk::stmt_gone::gone::{gone_targets, gone_values};
use go_walk::walk::Walk;
use std::alloc::Global;

// ---- as many values as names

// Each name with its value, as far as both go.
#[tactic(auto, using(crate::proofs::AllLemmas::defines_first, crate::proofs::AllLemmas::each_no_name, crate::proofs::AllLemmas::each_no_value, crate::proofs::AllLemmas::values_no_name, crate::proofs::AllLemmas::values_no_value))]
fn define_each(
    walk: &mut Walk,
    freshes: &mut Freshes,
    raws: &mut Raws,
    flaws: &mut Vec<Flaw>,
    out: &mut Vec<CoreStmt>,
    targets: &mut Vec<Target>,
    cores: &mut Vec<CoreExpr>,
) -> Result<(), NoMemory>
    requires depth { 0 < depth walk.old }
    requires freshes { FreshesBelow (size (table_of walk.old.env)) freshes.old }
    requires raws { RawsBelow (size (table_of walk.old.env)) raws.old }
    ensures defines { OnOk result (Defines [] (value_takes (names_of walk.old.env) (freshes_view (types_of walk.old.env) freshes.old) (raws_view (types_of walk.old.env) raws.old)) walk.old walk.new targets.old.items targets.new.items flaws.old.items flaws.new.items out.old.items out.new.items) }
    ensures values { OnOk result ((ts : List Ty) → Keeps (table_of walk.new.env) ts → map (expr_view ts) cores.new.items ≡ map (expr_view ts) cores.old.items ++ value_cores (names_of walk.old.env) (freshes_view (types_of walk.old.env) freshes.old) (raws_view (types_of walk.old.env) raws.old)) }
{
    while let Some(fresh) = next_fresh(&walk.env, freshes) {
        match next_raw(&walk.env, raws) {
            Some(raw) => define_one(walk, fresh, raw, flaws, out, targets, cores)?,
            None => return Ok(()),
        }
    }
    Ok(())
}

// The assignment, and the faults of the names.
fn finish(
    alloc: Global,
    targets: Vec<Target>,
    cores: Vec<CoreExpr>,
    fs: Vec<Flaw>,
    flaws: &mut Vec<Flaw>,
    out: &mut Vec<CoreStmt>,
) -> Result<(), NoMemory>
    ensures told { OnOk result (map flaw_view flaws.new.items ≡ map flaw_view flaws.old.items ++ map flaw_view fs.items) }
    ensures core { OnOk result ((ts : List Ty) → map (stmt_view ts) out.new.items ≡ map (stmt_view ts) out.old.items ++ tree.store (map (target_view ts) targets.items) (exprs_of (map (expr_view ts) cores.items)) ∷ []) }
{
    match stored(alloc, targets, cores, out) {
        Ok(()) => match move_flaws(flaws, fs) {
            Ok(()) => Ok(()),
            Err(error) => Err(error),
        },
        Err(error) => Err(error),
    }
}

/// Names with as many values.
fn define_values(
    alloc: Global,
    walk: &mut Walk,
    freshes: Freshes,
    raws: Raws,
    fs: Vec<Flaw>,
    flaws: &mut Vec<Flaw>,
    out: &mut Vec<CoreStmt>,
) -> Result<(), NoMemory>
    requires depth { 0 < depth walk.old }
    requires freshes { FreshesBelow (size (table_of walk.old.env)) freshes }
    requires raws { RawsBelow (size (table_of walk.old.env)) raws }
    ensures does { OnOk result (Does (defined (map flaw_view fs.items) (value_takes (names_of walk.old.env) (freshes_view (types_of walk.old.env) freshes) (raws_view (types_of walk.old.env) raws)) (exprs_of (value_cores (names_of walk.old.env) (freshes_view (types_of walk.old.env) freshes) (raws_view (types_of walk.old.env) raws)))) walk.old walk.new flaws.old.items flaws.new.items out.old.items out.new.items) }
{
    let mut freshes = freshes;
    let mut raws = raws;
    let mut targets = Vec::new(alloc);
    let mut cores = Vec::new(alloc);
    match define_each(
        walk,
        &mut freshes,
        &mut raws,
        flaws,
        out,
        &mut targets,
        &mut cores,
    ) {
        Ok(()) => {
            gone_raws(raws);
            match finish(alloc, targets, cores, fs, flaws, out) {
                Ok(()) => Ok(()),
                Err(error) => Err(error),
            }
        }
        Err(error) => {
            gone_raws(raws);
            gone_targets(targets);
            gone_values(cores);
            Err(error)
        }
    }
}

// ---- the several values of a call

// Each name with a type.
#[tactic(auto, using(crate::proofs::AllLemmas::defines_first, crate::proofs::AllLemmas::id_at, crate::proofs::AllLemmas::types_no_type, crate::proofs::AllLemmas::types_no_name))]
fn type_each(
    walk: &mut Walk,
    p: Place,
    freshes: &mut Freshes,
    types: &[TypeId],
    flaws: &mut Vec<Flaw>,
    out: &mut Vec<CoreStmt>,
    targets: &mut Vec<Target>,
) -> Result<(), NoMemory>
    requires depth { 0 < depth walk.old }
    requires freshes { FreshesBelow (size (table_of walk.old.env)) freshes.old }
    requires types { IdsBelow (size (table_of walk.old.env)) types.now }
    ensures defines { OnOk result (Defines [] (type_takes p (freshes_view (types_of walk.old.env) freshes.old) (trees_of (types_of walk.old.env) types.now)) walk.old walk.new targets.old.items targets.new.items flaws.old.items flaws.new.items out.old.items out.new.items) }
{
    for t in types {
        match next_fresh(&walk.env, freshes) {
            Some(fresh) => type_one(walk, p, fresh, *t, flaws, out, targets)?,
            None => return Ok(()),
        }
    }
    Ok(())
}

// The call as the one value that is stored, and the faults of the names.
fn store_call(
    alloc: Global,
    env: &Env,
    raw: Raw,
    targets: Vec<Target>,
    fs: Vec<Flaw>,
    flaws: &mut Vec<Flaw>,
    out: &mut Vec<CoreStmt>,
) -> Result<(), NoMemory>
    ensures told { OnOk result (map flaw_view flaws.new.items ≡ map flaw_view flaws.old.items ++ map flaw_view fs.items) }
    ensures core { OnOk result ((ts : List Ty) → Keeps (table_of env.now) ts → map (stmt_view ts) out.new.items ≡ map (stmt_view ts) out.old.items ++ tree.store (map (target_view ts) targets.items) (tree.expr (core_of (raw_view (types_of env.now) raw).part.answer) tree.no_exprs) ∷ []) }
{
    let Raw {
        part,
        flaws: _flaws,
    } = raw;
    let Part {
        place: _place,
        answer,
    } = part;
    match one_stored(alloc, env, targets, answer, out) {
        Ok(()) => match move_flaws(flaws, fs) {
            Ok(()) => Ok(()),
            Err(error) => Err(error),
        },
        Err(error) => Err(error),
    }
}

// Names with the several values of a call.
fn define_types(
    alloc: Global,
    walk: &mut Walk,
    freshes: Freshes,
    raw: Raw,
    types: &[TypeId],
    fs: Vec<Flaw>,
    flaws: &mut Vec<Flaw>,
    out: &mut Vec<CoreStmt>,
) -> Result<(), NoMemory>
    requires depth { 0 < depth walk.old }
    requires freshes { FreshesBelow (size (table_of walk.old.env)) freshes }
    requires types { IdsBelow (size (table_of walk.old.env)) types.now }
    ensures does { OnOk result (Does (defined (map flaw_view fs.items) (type_takes (raw_view (types_of walk.old.env) raw).part.place (freshes_view (types_of walk.old.env) freshes) (trees_of (types_of walk.old.env) types.now)) (tree.expr (core_of (raw_view (types_of walk.old.env) raw).part.answer) tree.no_exprs)) walk.old walk.new flaws.old.items flaws.new.items out.old.items out.new.items) }
{
    let p = raw.part.place;
    let mut freshes = freshes;
    let mut targets = Vec::new(alloc);
    match type_each(walk, p, &mut freshes, types, flaws, out, &mut targets) {
        Ok(()) => match store_call(alloc, &walk.env, raw, targets, fs, flaws, out) {
            Ok(()) => Ok(()),
            Err(error) => Err(error),
        },
        Err(error) => {
            gone_raw(raw);
            gone_targets(targets);
            Err(error)
        }
    }
}

// ---- a wrong count (84)

/// A fault of the statement is told where the names, of which it is known, and the values are typed, else
/// what is told of these.
pub fn parts_told(
    flaws: &mut Vec<Flaw>,
    at: Place,
    code: u16,
    typed: bool,
    raws: Raws,
    fs: Vec<Flaw>,
) -> Result<(), NoMemory>
    ensures told { OnOk result ((ts : List Ty) → map flaw_view flaws.new.items ≡ map flaw_view flaws.old.items ++ where_typed (typed && all_known (raws_view ts raws)) (all_told (raws_view ts raws) ++ map flaw_view fs.items) (flaw at code ∷ [])) }
{
    let values = all_known(&raws);
    let known = both_typed(typed, values);
    let mut parts = Vec::new(*flaws.allocator());
    match move_all(&mut parts, raws) {
        Ok(()) => match move_flaws(&mut parts, fs) {
            Ok(()) => match told_where_typed(flaws, known, parts, at, code) {
                Ok(()) => Ok(()),
                Err(error) => Err(error),
            },
            Err(error) => Err(error),
        },
        Err(error) => Err(error),
    }
}

/// What is told of names that can't be assigned.
#[tactic(auto, using(crate::proofs::AllLemmas::olds_step, crate::proofs::AllLemmas::old_end))]
pub fn olds_told(env: &Env, freshes: Freshes, flaws: &mut Vec<Flaw>) -> Result<(), NoMemory>
    requires freshes { FreshesBelow (size (table_of env.now)) freshes }
    ensures told { OnOk result (map flaw_view flaws.new.items ≡ map flaw_view flaws.old.items ++ spots_flaws (freshes_view (types_of env.now) freshes)) }
{
    let mut freshes = freshes;
    while let Some(fresh) = next_fresh(env, &mut freshes) {
        fresh_told(fresh, flaws)?;
    }
    Ok(())
}

// No value is known for the names.
#[tactic(auto, using(crate::proofs::AllLemmas::unknowns_end, crate::proofs::AllLemmas::old_end))]
fn unknown_each(walk: &mut Walk, freshes: Freshes, flaws: &mut Vec<Flaw>) -> Result<(), NoMemory>
    requires depth { 0 < depth walk.old }
    requires freshes { FreshesBelow (size (table_of walk.old.env)) freshes }
    ensures moves { OnOk result (Moves (unknowns (freshes_view (types_of walk.old.env) freshes)) walk.old walk.new) }
    ensures told { OnOk result (map flaw_view flaws.new.items ≡ map flaw_view flaws.old.items ++ spots_flaws (freshes_view (types_of walk.old.env) freshes)) }
{
    let mut freshes = freshes;
    while let Some(fresh) = next_fresh(&walk.env, &mut freshes) {
        unknown_one(walk, &fresh)?;
        fresh_told(fresh, flaws)?;
    }
    Ok(())
}

// More names than values, or fewer.
fn define_not(
    walk: &mut Walk,
    at: Place,
    freshes: Freshes,
    raws: Raws,
    fs: Vec<Flaw>,
    flaws: &mut Vec<Flaw>,
) -> Result<(), NoMemory>
    requires depth { 0 < depth walk.old }
    requires freshes { FreshesBelow (size (table_of walk.old.env)) freshes }
    ensures does { OnOk result ((out : List statement.CoreStmt) → Does (not_defined at (map flaw_view fs.items) (freshes_view (types_of walk.old.env) freshes) (raws_view (types_of walk.old.env) raws)) walk.old walk.new flaws.old.items flaws.new.items out out) }
{
    let typed = names_typed(&freshes);
    match parts_told(flaws, at, 84, typed, raws, fs) {
        Ok(()) => match unknown_each(walk, freshes, flaws) {
            Ok(()) => Ok(()),
            Err(error) => Err(error),
        },
        Err(error) => Err(error),
    }
}

// ---- by the count

fn by_values(
    alloc: Global,
    walk: &mut Walk,
    at: Place,
    freshes: Freshes,
    raws: Raws,
    fs: Vec<Flaw>,
    flaws: &mut Vec<Flaw>,
    out: &mut Vec<CoreStmt>,
) -> Result<(), NoMemory>
    requires depth { 0 < depth walk.old }
    requires freshes { FreshesBelow (size (table_of walk.old.env)) freshes }
    requires raws { RawsBelow (size (table_of walk.old.env)) raws }
    ensures does { OnOk result (Does (defined_by (names_of walk.old.env) at (map flaw_view fs.items) (freshes_view (types_of walk.old.env) freshes) (raws_view (types_of walk.old.env) raws) None) walk.old walk.new flaws.old.items flaws.new.items out.old.items out.new.items) }
{
    if freshes.items.len() == raws.items.len() {
        return match define_values(alloc, walk, freshes, raws, fs, flaws, out) {
            Ok(()) => Ok(()),
            Err(error) => Err(error),
        };
    }
    match define_not(walk, at, freshes, raws, fs, flaws) {
        Ok(()) => Ok(()),
        Err(error) => Err(error),
    }
}

#[tactic(auto, using(crate::proofs::AllLemmas::by_none))]
fn by_types(
    alloc: Global,
    walk: &mut Walk,
    at: Place,
    freshes: Freshes,
    raws: Raws,
    types: &[TypeId],
    fs: Vec<Flaw>,
    flaws: &mut Vec<Flaw>,
    out: &mut Vec<CoreStmt>,
) -> Result<(), NoMemory>
    requires depth { 0 < depth walk.old }
    requires freshes { FreshesBelow (size (table_of walk.old.env)) freshes }
    requires raws { RawsBelow (size (table_of walk.old.env)) raws }
    requires types { IdsBelow (size (table_of walk.old.env)) types.now }
    ensures does { OnOk result (Does (defined_by (names_of walk.old.env) at (map flaw_view fs.items) (freshes_view (types_of walk.old.env) freshes) (raws_view (types_of walk.old.env) raws) (Some (trees_of (types_of walk.old.env) types.now))) walk.old walk.new flaws.old.items flaws.new.items out.old.items out.new.items) }
{
    if freshes.items.len() != types.len() {
        return match define_not(walk, at, freshes, raws, fs, flaws) {
            Ok(()) => Ok(()),
            Err(error) => Err(error),
        };
    }
    let mut raws = raws;
    match next_raw(&walk.env, &mut raws) {
        Some(raw) => {
            gone_raws(raws);
            match define_types(alloc, walk, freshes, raw, types, fs, flaws, out) {
                Ok(()) => Ok(()),
                Err(error) => Err(error),
            }
        }
        None => {
            gone_raws(raws);
            let empty = Raws {
                items: Vec::new(alloc),
            };
            match define_not(walk, at, freshes, empty, fs, flaws) {
                Ok(()) => Ok(()),
                Err(error) => Err(error),
            }
        }
    }
}

// The types of the several values of a call, apart from the table.
fn types_in(alloc: Global, env: &Env, raws: &Raws) -> Result<Option<Vec<TypeId>>, NoMemory>
    requires within { RawsBelow (size (table_of env.now)) raws.now }
    ensures value { IfOk result (λ o. option_map (λ is. trees_of (types_of env.now) is.items) o ≡ several_in (raws_view (types_of env.now) raws.now)) }
    ensures within { IfOk result (λ o. IfSome o (λ is. IdsBelow (size (table_of env.now)) is.items)) }
{
    match several(env, raws) {
        Some(types) => {
            let types = Vec::from_slice(alloc, types)?;
            Ok(Some(types))
        }
        None => Ok(None),
    }
}

/// What comes of names and values.
#[tactic(auto, using(crate::proofs::AllLemmas::does_by))]
pub fn all_defined(
    alloc: Global,
    walk: &mut Walk,
    at: Place,
    freshes: Freshes,
    raws: Raws,
    fs: Vec<Flaw>,
    flaws: &mut Vec<Flaw>,
    out: &mut Vec<CoreStmt>,
) -> Result<(), NoMemory>
    requires depth { 0 < depth walk.old }
    requires freshes { FreshesBelow (size (table_of walk.old.env)) freshes }
    requires raws { RawsBelow (size (table_of walk.old.env)) raws }
    ensures does { OnOk result (Does (defined_by (names_of walk.old.env) at (map flaw_view fs.items) (freshes_view (types_of walk.old.env) freshes) (raws_view (types_of walk.old.env) raws) (several_in (raws_view (types_of walk.old.env) raws))) walk.old walk.new flaws.old.items flaws.new.items out.old.items out.new.items) }
{
    match types_in(alloc, &walk.env, &raws) {
        Ok(several) => match several {
            Some(types) => {
                match by_types(
                    alloc,
                    walk,
                    at,
                    freshes,
                    raws,
                    types.as_slice(),
                    fs,
                    flaws,
                    out,
                ) {
                    Ok(()) => Ok(()),
                    Err(error) => Err(error),
                }
            }
            None => match by_values(alloc, walk, at, freshes, raws, fs, flaws, out) {
                Ok(()) => Ok(()),
                Err(error) => Err(error),
            },
        },
        Err(error) => {
            gone_raws(raws);
            Err(error)
        }
    }
}
