//! The tag of a `switch`, in a fresh variable, and the cases of its clauses.
//!
//! Go, "Expression switches".

ghost use Rattle.std.specs.Prelude.{◌≡◌, ◌<◌, ◌∷◌, ◌++◌, [], OnOk, IfOk, IfSome, List, map, option_map};
ghost use Rattle.go_const.specs.declared.constant.Const as constant;
ghost use Rattle.go_type.specs.Tree.{Ty};
ghost use Rattle.go_type.specs.Levels.{tree_of};
ghost use Rattle.go_type.specs.Table.{size};
ghost use Rattle.go_core.specs.CoreTree as core;
ghost use Rattle.go_core.specs.CoreView.{expr_view as core_view, stmt_view, target_view};
ghost use Rattle.go_syntax.specs.View.{expr_view, exprs_of, maybe_expr};
ghost use Rattle.go_syntax.specs.declared.tree.Clause.{out-Clause};
ghost use Rattle.go_operands.specs.EnvView.{table_of};
ghost use Rattle.go_calls.specs.Words.{types_of};
ghost use Rattle.go_typing.specs.Walk.{uses_all};
ghost use Rattle.go_typing.specs.Statements as go;
ghost use Rattle.go_walk.specs.WalkView.{walk_of};
ghost use Rattle.go_define.specs.CaseView.{HasAll};
ghost use Rattle.go_assign.specs.Passed.{Passes};
ghost use Rattle.go_body.specs.Tags.{tag_type, IsTagged, Tested};

use crate::leaf::leaf::told_default;
use gj_base::NoMemory;
use go_assign::branch::tag::{Tag, tag_of};
use go_assign::effects::stored;
use go_core::node::{CoreExpr, Var, VarId};
use go_core::statement::{CoreStmt, CoreTest, Target};
use go_define::simple::cases::case_tests;
use go_operands::answers::answer::Flaw;
use go_operands::nodes::gone::gone_expr;
use go_operands::rules::kind::bool_type;
use go_operands::scopes::Env;
use go_syntax::tree::{Clause, Expr};
use go_type::types::TypeId;
use go_walk::cases::ConstSet;
use go_walk::stmt_gone::gone::{gone_targets, gone_values};
use go_walk::stmt_gone::more::{and_stmt, and_target, and_value};
use go_walk::stmt_nodes::simple::declare;
use go_walk::stmt_nodes::store::local;
use go_walk::walk::Walk;
use go_walk::walk::uses::use_exprs;
use go_walk::walk::variables::fresh;
use std::alloc::Global;

/// The variable that has the tag, and the tag's type if it is typed.
#[derive(Clone, Copy)]
pub struct Tagged {
    pub id: VarId,
    pub ty: Option<TypeId>,
}

// The type of the tag's variable; that of a tag that isn't typed is `bool`.
fn tag_type(env: &Env, ty: Option<TypeId>) -> TypeId
    requires below { IfSome ty (λ t. t.0 < size (table_of env.now)) }
    ensures value { tree_of (types_of env.now) result ≡ tag_type (option_map (tree_of (types_of env.now)) ty) }
    ensures below { result.0 < size (table_of env.now) }
{
    match ty {
        Some(ty) => ty,
        None => bool_type(env.table()),
    }
}

// ---- the variable

fn one_target(alloc: Global, target: Target) -> Result<Vec<Target>, NoMemory>
    ensures items { IfOk result (λ xs. xs.items ≡ target ∷ []) }
{
    let mut targets = Vec::new(alloc);
    match and_target(&mut targets, target) {
        Ok(()) => Ok(targets),
        Err(error) => {
            gone_targets(targets);
            Err(error)
        }
    }
}

fn one_value(alloc: Global, whole: CoreExpr) -> Result<Vec<CoreExpr>, NoMemory>
    ensures items { IfOk result (λ xs. xs.items ≡ whole ∷ []) }
{
    let mut cores = Vec::new(alloc);
    match and_value(&mut cores, whole) {
        Ok(()) => Ok(cores),
        Err(error) => {
            gone_values(cores);
            Err(error)
        }
    }
}

fn declared_tag(out: &mut Vec<CoreStmt>, ty: TypeId, id: VarId) -> Result<(), NoMemory>
    ensures core { OnOk result ((ts : List Ty) → map (stmt_view ts) out.new.items ≡ map (stmt_view ts) out.old.items ++ core.declare (record { id = id.0; type_ = tree_of ts ty }) ∷ []) }
{
    let whole = declare(*out.allocator(), Var { id, ty })?;
    and_stmt(out, whole)?;
    Ok(())
}

fn set_to(out: &mut Vec<CoreStmt>, target: Target, whole: CoreExpr) -> Result<(), NoMemory>
    ensures core { OnOk result ((ts : List Ty) → map (stmt_view ts) out.new.items ≡ map (stmt_view ts) out.old.items ++ core.store (target_view ts target ∷ []) (core.expr (core_view ts whole) core.no_exprs) ∷ []) }
{
    let alloc = *out.allocator();
    match one_target(alloc, target) {
        Ok(targets) => match one_value(alloc, whole) {
            Ok(cores) => {
                stored(alloc, targets, cores, out)?;
                Ok(())
            }
            Err(error) => {
                gone_targets(targets);
                Err(error)
            }
        },
        Err(error) => {
            gone_expr(whole);
            Err(error)
        }
    }
}

fn set_tag(out: &mut Vec<CoreStmt>, ty: TypeId, id: VarId, whole: CoreExpr) -> Result<(), NoMemory>
    ensures core { OnOk result ((ts : List Ty) → map (stmt_view ts) out.new.items ≡ map (stmt_view ts) out.old.items ++ core.store (core.to_place (tree_of ts ty) (core.local_ id.0) ∷ []) (core.expr (core_view ts whole) core.no_exprs) ∷ []) }
{
    match local(*out.allocator(), ty, id) {
        Ok(target) => {
            set_to(out, target, whole)?;
            Ok(())
        }
        Err(error) => {
            gone_expr(whole);
            Err(error)
        }
    }
}

// The tag's variable, and what it is set to.
fn stored_tag(
    out: &mut Vec<CoreStmt>,
    ty: TypeId,
    id: VarId,
    whole: CoreExpr,
) -> Result<(), NoMemory>
    ensures core { OnOk result ((ts : List Ty) → map (stmt_view ts) out.new.items ≡ map (stmt_view ts) out.old.items ++ core.declare (record { id = id.0; type_ = tree_of ts ty }) ∷ core.store (core.to_place (tree_of ts ty) (core.local_ id.0) ∷ []) (core.expr (core_view ts whole) core.no_exprs) ∷ []) }
{
    match declared_tag(out, ty, id) {
        Ok(()) => {
            set_tag(out, ty, id, whole)?;
            Ok(())
        }
        Err(error) => {
            gone_expr(whole);
            Err(error)
        }
    }
}

/// The tag, which is typed, used, and put into a fresh variable.
pub fn begin_tag(
    walk: &mut Walk,
    flaws: &mut Vec<Flaw>,
    out: &mut Vec<CoreStmt>,
    x: &Option<Expr>,
) -> Result<Tagged, NoMemory>
    ensures tagged { IfOk result (IsTagged (maybe_expr (option_map expr_view x.now)) walk.old walk.new flaws.old.items flaws.new.items out.old.items out.new.items) }
{
    match tag_of(walk, flaws, x) {
        Ok(tag) => {
            let Tag { ty, core } = tag;
            let of = tag_type(&walk.env, ty);
            match fresh(walk, of) {
                Ok(id) => match stored_tag(out, of, id, core) {
                    Ok(()) => Ok(Tagged { id, ty }),
                    Err(error) => Err(error),
                },
                Err(error) => {
                    gone_expr(core);
                    Err(error)
                }
            }
        }
        Err(error) => Err(error),
    }
}

// ---- the cases

/// Whether a clause is a `default`: it has no cases.
#[tactic(auto, using(crate::proofs::LeafLemmas::default_none, crate::proofs::LeafLemmas::default_some))]
pub fn is_default(c: &Clause) -> bool
    ensures value { result ≡ go.is_default (exprs_of (map expr_view (out-Clause c.now).exprs.items)) }
{
    if c.exprs.len() == 0 {
        return true;
    }
    false
}

/// The cases of a clause of this number, which are typed and used; `had` says whether a `default` stood
/// before.
pub fn tested(
    walk: &mut Walk,
    flaws: &mut Vec<Flaw>,
    tests: &mut Vec<CoreTest>,
    seen: &mut ConstSet,
    had: bool,
    tag: Tagged,
    number: u32,
    c: &Clause,
) -> Result<(), NoMemory>
    requires ty { IfSome tag.ty (λ t. t.0 < size (table_of walk.old.env)) }
    ensures tested { OnOk result ((us : List Ty) → (ks : List constant.Const) → HasAll seen.old ks → Tested (out-Clause c.now).place (go.case_tests (walk_of us walk.old) tag.id.0 (option_map (tree_of (types_of walk.old.env)) tag.ty) number (exprs_of (map expr_view (out-Clause c.now).exprs.items)) ks) (go.is_default (exprs_of (map expr_view (out-Clause c.now).exprs.items))) had (table_of walk.new.env) flaws.old.items flaws.new.items tests.old.items tests.new.items seen.new) }
    ensures passes { OnOk result (Passes (uses_all (exprs_of (map expr_view (out-Clause c.now).exprs.items))) walk.old walk.new) }
{
    told_default(flaws, c.place, is_default(c), had)?;
    case_tests(
        walk,
        flaws,
        tests,
        seen,
        tag.id,
        tag.ty,
        number,
        c.exprs.as_slice(),
    )?;
    use_exprs(walk, c.exprs.as_slice())?;
    Ok(())
}
