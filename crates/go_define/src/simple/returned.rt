//! `return`.
//!
//! Go, "Return statements".

ghost use Rattle.std.specs.Prelude.{◌≡◌, ◌<◌, ◌||◌, ◌++◌, ◌∷◌, [], None, OnOk, List, length, map};
ghost use Rattle.go_type.specs.Tree.{Ty};
ghost use Rattle.go_type.specs.Levels.{tree_of, trees_of, IdsBelow};
ghost use Rattle.go_type.specs.Table.{places, size};
ghost use Rattle.go_core.specs.CoreTree as core;
ghost use Rattle.go_core.specs.CoreView.{expr_view as core_view, exprs_of as cores_of, stmt_view};
ghost use Rattle.go_core.specs.SameType.{same_types};
ghost use Rattle.go_core.specs.declared.statement.CoreStmt as statement;
ghost use Rattle.go_operands.specs.declared.answers.answer.Flaw as faults;
ghost use Rattle.go_syntax.specs.View.{expr_view, exprs_of};
ghost use Rattle.go_syntax.specs.Tree as t;
ghost use Rattle.go_calls.specs.Types.{AreTypesOf};
ghost use Rattle.go_typing.specs.Answer.{flaw};
ghost use Rattle.go_operands.specs.EnvView.{table_of};
ghost use Rattle.go_operands.specs.AnswerView.{answer_view, flaw_view};
ghost use Rattle.go_calls.specs.Words.{types_of, names_of};
ghost use Rattle.go_typing.specs.Expressions as go;
ghost use Rattle.go_typing.specs.Statements.{returned_in, returned_to, is_empty};
ghost use Rattle.go_expr.specs.Raw.{raw_view, raws_view, RawBelow, RawsBelow};
ghost use Rattle.go_assign.specs.Outcome.{Does, Adds};
ghost use Rattle.go_assign.specs.Settled.{at_type, valued_view};
ghost use Rattle.go_walk.specs.WalkView.{Keeps};
ghost use Rattle.go_define.specs.AroundView.{results_of, ResultsBelow};
ghost use Rattle.go_define.specs.SimpleTold.{unless_told, back, back_each, back_several, back_flaws, back_cores, whole_told, first_told};

use crate::simple::around::Around;
use gj_base::{NoMemory, Place};
use go_assign::branch::used::{fault_where_typed, raws_used};
use go_assign::valued::taken::{core_of, several};
use go_assign::valued::told::{move_all, move_flaws};
use go_assign::valued::valued::{Valued, fit_at};
use go_core::node::CoreExpr;
use go_core::statement::CoreStmt;
use go_expr::typed::{Raw, Raws, gone_raw, gone_raws, next_raw};
use go_operands::answers::answer::{Answer, Flaw};
use go_operands::answers::gone::gone_answer;
use go_operands::answers::rule::and_flaw;
use go_operands::operands::part::Part;
use go_operands::rules::kind::same_type;
use go_operands::scopes::Env;
use go_syntax::tree::Expr;
use go_type::TypeTable;
use go_type::types::TypeId;
use go_walk::stmt_gone::gone::gone_values;
use go_walk::stmt_gone::more::{and_stmt, and_value};
use go_walk::stmt_nodes::{simple, store};
use go_walk::walk::Walk;

// Whether types are identical, one by one.
#[tactic(auto, using(crate::proofs::CountLemmas::no_more, crate::proofs::CountLemmas::some_more))]
fn same_types(table: &TypeTable, a: &[TypeId], b: &[TypeId]) -> bool
    requires first { AreTypesOf table.now a.now }
    requires second { AreTypesOf table.now b.now }
    ensures { result ≡ same_types (trees_of (places table.now) a.now) (trees_of (places table.now) b.now) }
{
    let mut first = a;
    let mut second = b;
    'types: while let Some((t, others)) = first.split_first() {
        match second.split_first() {
            Some((u, further)) => {
                if !same_type(table, *t, *u) {
                    return false;
                }
                first = others;
                second = further;
            }
            None => return false,
        }
    }
    if second.is_empty() {
        return true;
    }
    false
}

// `return` with these values.
#[tactic(auto, using(crate::proofs::BackLemmas::gives_back))]
fn and_return(env: &Env, out: &mut Vec<CoreStmt>, values: Vec<CoreExpr>) -> Result<(), NoMemory>
    ensures core { OnOk result ((ts : List Ty) → map (stmt_view ts) out.new.items ≡ map (stmt_view ts) out.old.items ++ core.return_ (cores_of (map (core_view ts) values.items)) ∷ []) }
{
    let _ = env;
    match simple::give_back(*out.allocator(), store::values(values)) {
        Ok(stmt) => {
            and_stmt(out, stmt)?;
            Ok(())
        }
        Err(error) => Err(error),
    }
}

// ---- a value for each result

#[tactic(auto, using(crate::proofs::BackLemmas::valued_more))]
fn and_core(env: &Env, values: &mut Vec<CoreExpr>, answer: Answer) -> Result<(), NoMemory>
    ensures values { OnOk result ((ts : List Ty) → Keeps (table_of env.now) ts → map (core_view ts) values.new.items ≡ map (core_view ts) values.old.items ++ go.core_of (answer_view (types_of env.now) answer) ∷ []) }
{
    match core_of(*values.allocator(), env, answer) {
        Ok(core) => {
            and_value(values, core)?;
            Ok(())
        }
        Err(error) => Err(error),
    }
}

fn and_valued(
    env: &Env,
    flaws: &mut Vec<Flaw>,
    values: &mut Vec<CoreExpr>,
    valued: Valued,
) -> Result<(), NoMemory>
    ensures told { OnOk result (map flaw_view flaws.new.items ≡ map flaw_view flaws.old.items ++ (valued_view (types_of env.now) valued).flaws) }
    ensures values { OnOk result ((ts : List Ty) → Keeps (table_of env.now) ts → map (core_view ts) values.new.items ≡ map (core_view ts) values.old.items ++ go.core_of (valued_view (types_of env.now) valued).answer ∷ []) }
{
    let Valued {
        answer,
        flaws: more,
    } = valued;
    match move_flaws(flaws, more) {
        Ok(()) => {
            and_core(env, values, answer)?;
            Ok(())
        }
        Err(error) => {
            gone_answer(answer);
            Err(error)
        }
    }
}

#[tactic(auto, using(crate::proofs::BackLemmas::told_fit, crate::proofs::BackLemmas::valued_fit))]
fn one_back(
    env: &Env,
    flaws: &mut Vec<Flaw>,
    values: &mut Vec<CoreExpr>,
    ty: TypeId,
    raw: Raw,
) -> Result<(), NoMemory>
    requires ty { ty.0 < size (table_of env.now) }
    requires within { RawBelow (size (table_of env.now)) raw }
    ensures told { OnOk result (map flaw_view flaws.new.items ≡ map flaw_view flaws.old.items ++ (at_type (names_of env.now) (tree_of (types_of env.now) ty) (raw_view (types_of env.now) raw)).flaws) }
    ensures values { OnOk result ((ts : List Ty) → Keeps (table_of env.now) ts → map (core_view ts) values.new.items ≡ map (core_view ts) values.old.items ++ go.core_of (at_type (names_of env.now) (tree_of (types_of env.now) ty) (raw_view (types_of env.now) raw)).answer ∷ []) }
{
    match fit_at(*values.allocator(), env, ty, raw) {
        Ok(valued) => {
            and_valued(env, flaws, values, valued)?;
            Ok(())
        }
        Err(error) => Err(error),
    }
}

#[tactic(auto, using(crate::proofs::BackLemmas::back_told, crate::proofs::BackLemmas::back_values, crate::proofs::BackLemmas::back_told_none, crate::proofs::BackLemmas::back_values_none, crate::proofs::BackLemmas::back_told_end, crate::proofs::BackLemmas::back_values_end, crate::proofs::BackLemmas::values_begin))]
fn values_back(
    env: &Env,
    flaws: &mut Vec<Flaw>,
    values: &mut Vec<CoreExpr>,
    results: &[TypeId],
    raws: &mut Raws,
) -> Result<(), NoMemory>
    requires none { values.old.items ≡ [] }
    requires results { IdsBelow (size (table_of env.now)) results.now }
    requires within { RawsBelow (size (table_of env.now)) raws.old }
    ensures told { OnOk result (map flaw_view flaws.new.items ≡ map flaw_view flaws.old.items ++ back_flaws (names_of env.now) (trees_of (types_of env.now) results.now) (raws_view (types_of env.now) raws.old)) }
    ensures values { OnOk result ((ts : List Ty) → Keeps (table_of env.now) ts → cores_of (map (core_view ts) values.new.items) ≡ back_cores (names_of env.now) (trees_of (types_of env.now) results.now) (raws_view (types_of env.now) raws.old)) }
{
    for t in results {
        match next_raw(env, raws) {
            Some(raw) => one_back(env, flaws, values, *t, raw)?,
            None => return Ok(()),
        }
    }
    Ok(())
}

#[tactic(auto, using(crate::proofs::BackLemmas::adds_back))]
fn all_back(
    env: &Env,
    flaws: &mut Vec<Flaw>,
    out: &mut Vec<CoreStmt>,
    results: &[TypeId],
    raws: Raws,
) -> Result<(), NoMemory>
    requires results { IdsBelow (size (table_of env.now)) results.now }
    requires within { RawsBelow (size (table_of env.now)) raws }
    ensures adds { OnOk result (Adds (table_of env.now) (back_flaws (names_of env.now) (trees_of (types_of env.now) results.now) (raws_view (types_of env.now) raws)) (core.return_ (back_cores (names_of env.now) (trees_of (types_of env.now) results.now) (raws_view (types_of env.now) raws)) ∷ []) flaws.old.items flaws.new.items out.old.items out.new.items) }
{
    let mut raws = raws;
    let mut values = Vec::new(*out.allocator());
    match values_back(env, flaws, &mut values, results, &mut raws) {
        Ok(()) => {
            gone_raws(raws);
            and_return(env, out, values)?;
            Ok(())
        }
        Err(error) => {
            gone_raws(raws);
            gone_values(values);
            Err(error)
        }
    }
}

// The counts differ (88).
#[tactic(auto, using(crate::proofs::ToldLemmas::adds_flaws))]
fn miscounted(env: &Env, flaws: &mut Vec<Flaw>, at: Place, raws: Raws) -> Result<(), NoMemory>
    ensures adds { OnOk result ((out : List statement.CoreStmt) → Adds (table_of env.now) (unless_told at 88 (raws_view (types_of env.now) raws)).flaws [] flaws.old.items flaws.new.items out out) }
{
    let _ = env;
    fault_where_typed(flaws, at, 88, raws)?;
    Ok(())
}

#[tactic(auto, using(crate::proofs::BackLemmas::each_same, crate::proofs::BackLemmas::each_other))]
fn each_back(
    env: &Env,
    flaws: &mut Vec<Flaw>,
    out: &mut Vec<CoreStmt>,
    results: &[TypeId],
    at: Place,
    raws: Raws,
) -> Result<(), NoMemory>
    requires results { IdsBelow (size (table_of env.now)) results.now }
    requires within { RawsBelow (size (table_of env.now)) raws }
    ensures adds { OnOk result (Adds (table_of env.now) (back_each (names_of env.now) at (trees_of (types_of env.now) results.now) (raws_view (types_of env.now) raws)).flaws (back_each (names_of env.now) at (trees_of (types_of env.now) results.now) (raws_view (types_of env.now) raws)).core flaws.old.items flaws.new.items out.old.items out.new.items) }
{
    if raws.items.len() != results.len() {
        miscounted(env, flaws, at, raws)?;
        return Ok(());
    }
    all_back(env, flaws, out, results, raws)?;
    Ok(())
}

// ---- the several values of a call

#[tactic(auto, using(crate::proofs::BackLemmas::adds_one))]
fn value_back(env: &Env, out: &mut Vec<CoreStmt>, answer: Answer) -> Result<(), NoMemory>
    ensures adds { OnOk result ((fs : List faults.Flaw) → Adds (table_of env.now) [] (core.return_ (core.expr (go.core_of (answer_view (types_of env.now) answer)) core.no_exprs) ∷ []) fs fs out.old.items out.new.items) }
{
    let mut values = Vec::new(*out.allocator());
    match and_core(env, &mut values, answer) {
        Ok(()) => {
            and_return(env, out, values)?;
            Ok(())
        }
        Err(error) => {
            gone_values(values);
            Err(error)
        }
    }
}

// Other types (61).
#[tactic(auto, using(crate::proofs::ToldLemmas::adds_flaws))]
fn other_types(env: &Env, flaws: &mut Vec<Flaw>, raw: Raw) -> Result<(), NoMemory>
    ensures adds { OnOk result ((out : List statement.CoreStmt) → Adds (table_of env.now) (flaw (raw_view (types_of env.now) raw).part.place 61 ∷ []) [] flaws.old.items flaws.new.items out out) }
{
    let _ = env;
    let at = raw.part.place;
    gone_raw(raw);
    and_flaw(*flaws.allocator(), flaws, at, 61)?;
    Ok(())
}

fn whole_back(env: &Env, out: &mut Vec<CoreStmt>, raw: Raw) -> Result<(), NoMemory>
    ensures adds { OnOk result ((fs : List faults.Flaw) → Adds (table_of env.now) [] (core.return_ (core.expr (go.core_of (raw_view (types_of env.now) raw).part.answer) core.no_exprs) ∷ []) fs fs out.old.items out.new.items) }
{
    let Raw {
        part,
        flaws: _flaws,
    } = raw;
    let Part {
        place: _place,
        answer,
    } = part;
    value_back(env, out, answer)?;
    Ok(())
}

#[tactic(auto, using(crate::proofs::BackLemmas::types_same, crate::proofs::BackLemmas::types_other))]
fn call_back(
    env: &Env,
    flaws: &mut Vec<Flaw>,
    out: &mut Vec<CoreStmt>,
    results: &[TypeId],
    types: &[TypeId],
    raw: Raw,
) -> Result<(), NoMemory>
    requires results { IdsBelow (size (table_of env.now)) results.now }
    requires types { IdsBelow (size (table_of env.now)) types.now }
    ensures adds { OnOk result (Adds (table_of env.now) (whole_told (trees_of (types_of env.now) results.now) (trees_of (types_of env.now) types.now) (raw_view (types_of env.now) raw)).flaws (whole_told (trees_of (types_of env.now) results.now) (trees_of (types_of env.now) types.now) (raw_view (types_of env.now) raw)).core flaws.old.items flaws.new.items out.old.items out.new.items) }
{
    if !same_types(env.table(), results, types) {
        other_types(env, flaws, raw)?;
        return Ok(());
    }
    whole_back(env, out, raw)?;
    Ok(())
}

#[tactic(auto, using(crate::proofs::BackLemmas::first_back, crate::proofs::BackLemmas::none_back))]
fn first_back(
    env: &Env,
    flaws: &mut Vec<Flaw>,
    out: &mut Vec<CoreStmt>,
    results: &[TypeId],
    types: &[TypeId],
    raws: Raws,
) -> Result<(), NoMemory>
    requires results { IdsBelow (size (table_of env.now)) results.now }
    requires types { IdsBelow (size (table_of env.now)) types.now }
    requires within { RawsBelow (size (table_of env.now)) raws }
    ensures adds { OnOk result (Adds (table_of env.now) (first_told (trees_of (types_of env.now) results.now) (trees_of (types_of env.now) types.now) (raws_view (types_of env.now) raws)).flaws (first_told (trees_of (types_of env.now) results.now) (trees_of (types_of env.now) types.now) (raws_view (types_of env.now) raws)).core flaws.old.items flaws.new.items out.old.items out.new.items) }
{
    let mut raws = raws;
    match next_raw(env, &mut raws) {
        Some(raw) => {
            gone_raws(raws);
            call_back(env, flaws, out, results, types, raw)?;
            Ok(())
        }
        None => {
            gone_raws(raws);
            Ok(())
        }
    }
}

#[tactic(auto, using(crate::proofs::BackLemmas::several_same, crate::proofs::BackLemmas::several_other))]
fn several_back(
    env: &Env,
    flaws: &mut Vec<Flaw>,
    out: &mut Vec<CoreStmt>,
    results: &[TypeId],
    types: &[TypeId],
    at: Place,
    raws: Raws,
) -> Result<(), NoMemory>
    requires results { IdsBelow (size (table_of env.now)) results.now }
    requires types { IdsBelow (size (table_of env.now)) types.now }
    requires within { RawsBelow (size (table_of env.now)) raws }
    ensures adds { OnOk result (Adds (table_of env.now) (back_several at (trees_of (types_of env.now) results.now) (raws_view (types_of env.now) raws) (trees_of (types_of env.now) types.now)).flaws (back_several at (trees_of (types_of env.now) results.now) (raws_view (types_of env.now) raws) (trees_of (types_of env.now) types.now)).core flaws.old.items flaws.new.items out.old.items out.new.items) }
{
    if types.len() != results.len() {
        miscounted(env, flaws, at, raws)?;
        return Ok(());
    }
    first_back(env, flaws, out, results, types, raws)?;
    Ok(())
}

#[tactic(auto, using(crate::proofs::BackLemmas::by_several, crate::proofs::BackLemmas::by_each))]
fn given_back(
    env: &Env,
    flaws: &mut Vec<Flaw>,
    out: &mut Vec<CoreStmt>,
    results: &[TypeId],
    at: Place,
    raws: Raws,
) -> Result<(), NoMemory>
    requires results { IdsBelow (size (table_of env.now)) results.now }
    requires within { RawsBelow (size (table_of env.now)) raws }
    ensures adds { OnOk result (Adds (table_of env.now) (back (names_of env.now) at (trees_of (types_of env.now) results.now) (raws_view (types_of env.now) raws)).flaws (back (names_of env.now) at (trees_of (types_of env.now) results.now) (raws_view (types_of env.now) raws)).core flaws.old.items flaws.new.items out.old.items out.new.items) }
{
    match several(env, &raws) {
        Some(types) => {
            several_back(env, flaws, out, results, types, at, raws)?;
            Ok(())
        }
        None => {
            each_back(env, flaws, out, results, at, raws)?;
            Ok(())
        }
    }
}

// ---- the statement

// Whether there may be none.
#[tactic(auto, using(crate::proofs::CountLemmas::bare_none, crate::proofs::CountLemmas::bare_some))]
fn may_be_bare(results: &[TypeId], named: bool) -> bool
    ensures value { (ts : List Ty) → result ≡ (is_empty (trees_of ts results.now) || named) }
{
    if results.is_empty() {
        return true;
    }
    named
}

// Without values: the function has no results, or they have names (88).
#[tactic(auto, using(crate::proofs::ReturnLemmas::bare_does, crate::proofs::ReturnLemmas::bare_refused))]
fn bare(
    walk: &Walk,
    flaws: &mut Vec<Flaw>,
    out: &mut Vec<CoreStmt>,
    results: &[TypeId],
    named: bool,
    at: Place,
) -> Result<(), NoMemory>
    ensures does { OnOk result ((ts : List Ty) → Does (returned_to at (trees_of ts results.now) named t.NoExprs) walk.now walk.now flaws.old.items flaws.new.items out.old.items out.new.items) }
{
    if may_be_bare(results, named) {
        let alloc = *out.allocator();
        and_return(&walk.env, out, Vec::new(alloc))?;
        return Ok(());
    }
    and_flaw(*flaws.allocator(), flaws, at, 88)?;
    Ok(())
}

#[tactic(auto, using(crate::proofs::ReturnLemmas::returned_does))]
fn with_values(
    walk: &mut Walk,
    flaws: &mut Vec<Flaw>,
    out: &mut Vec<CoreStmt>,
    results: &[TypeId],
    named: bool,
    at: Place,
    ys: &[Expr],
) -> Result<(), NoMemory>
    requires some { 0 < length ys.now }
    requires results { IdsBelow (size (table_of walk.old.env)) results.now }
    ensures does { OnOk result (Does (returned_to at (trees_of (types_of walk.old.env) results.now) named (exprs_of (map expr_view ys.now))) walk.old walk.new flaws.old.items flaws.new.items out.old.items out.new.items) }
{
    let _ = named;
    match raws_used(walk, ys) {
        Ok(raws) => {
            given_back(&walk.env, flaws, out, results, at, raws)?;
            Ok(())
        }
        Err(error) => Err(error),
    }
}

#[tactic(auto, using(crate::proofs::ReturnLemmas::no_values))]
fn returned_to(
    walk: &mut Walk,
    flaws: &mut Vec<Flaw>,
    out: &mut Vec<CoreStmt>,
    results: &[TypeId],
    named: bool,
    at: Place,
    ys: &[Expr],
) -> Result<(), NoMemory>
    requires results { IdsBelow (size (table_of walk.old.env)) results.now }
    ensures does { OnOk result (Does (returned_to at (trees_of (types_of walk.old.env) results.now) named (exprs_of (map expr_view ys.now))) walk.old walk.new flaws.old.items flaws.new.items out.old.items out.new.items) }
{
    if ys.is_empty() {
        bare(walk, flaws, out, results, named, at)?;
        return Ok(());
    }
    with_values(walk, flaws, out, results, named, at, ys)?;
    Ok(())
}

// Where the results aren't typed, the values alone are told of.
#[tactic(auto, using(crate::proofs::ReturnLemmas::untyped_does))]
fn untyped(
    walk: &mut Walk,
    flaws: &mut Vec<Flaw>,
    named: bool,
    at: Place,
    ys: &[Expr],
) -> Result<(), NoMemory>
    ensures does { OnOk result ((out : List statement.CoreStmt) → Does (returned_in at None named (exprs_of (map expr_view ys.now))) walk.old walk.new flaws.old.items flaws.new.items out out) }
{
    let _ = named;
    let _ = at;
    match raws_used(walk, ys) {
        Ok(raws) => {
            move_all(flaws, raws)?;
            Ok(())
        }
        Err(error) => Err(error),
    }
}

/// `return` with these values.
pub fn returned(
    walk: &mut Walk,
    flaws: &mut Vec<Flaw>,
    out: &mut Vec<CoreStmt>,
    around: &Around,
    at: Place,
    ys: &[Expr],
) -> Result<(), NoMemory>
    requires within { ResultsBelow (size (table_of walk.old.env)) around.now.results }
    ensures does { OnOk result (Does (returned_in at (results_of (types_of walk.old.env) around.now.results) around.now.named (exprs_of (map expr_view ys.now))) walk.old walk.new flaws.old.items flaws.new.items out.old.items out.new.items) }
{
    match around.results {
        Some(results) => {
            returned_to(walk, flaws, out, results, around.named, at, ys)?;
            Ok(())
        }
        None => {
            untyped(walk, flaws, around.named, at, ys)?;
            Ok(())
        }
    }
}
