//! Expressions as statements: calls of functions are performed.
//!
//! Go, "Expression statements".

ghost use Rattle.std.specs.Prelude.{◌≡◌, ◌<◌, ◌++◌, ◌∷◌, [], false, OnOk, IfSome, List, length, map, option_map, Some, ◌≢◌};
ghost use Rattle.go_type.specs.Tree.{Ty};
ghost use Rattle.go_type.specs.Levels.{tree_of, trees_of};
ghost use Rattle.go_type.specs.Table.{places, size};
ghost use Rattle.go_core.specs.CoreTree as core;
ghost use Rattle.go_core.specs.declared.statement.CoreStmt as statement;
ghost use Rattle.go_core.specs.CoreView.{expr_view as core_view, exprs_view, stmt_view};
ghost use Rattle.go_syntax.specs.View.{expr_view, exprs_of};
ghost use Rattle.go_syntax.specs.Tree as t;
ghost use Rattle.go_typing.specs.Env.{lookup};
ghost use Rattle.go_typing.specs.Typing.{callee_of, declared_callee};
ghost use Rattle.go_operands.specs.EnvView.{table_of};
ghost use Rattle.go_operands.specs.View.{decl_of};
ghost use Rattle.go_operands.specs.AnswerView.{answer_view, flaw_view};
ghost use Rattle.go_operands.specs.Below.{AnswerBelow};
ghost use Rattle.go_calls.specs.Words.{types_of, scopes_of};
ghost use Rattle.go_typing.specs.Answer.{flaw};
ghost use Rattle.go_typing.specs.Expressions as go;
ghost use Rattle.go_typing.specs.Statements.{expression, called_in, values_of, count_types};
ghost use Rattle.go_walk.specs.WalkView.{walk_of, Keeps};
ghost use Rattle.go_expr.specs.Raw.{raw_view, RawBelow};
ghost use Rattle.go_assign.specs.Outcome.{Does, Adds};
ghost use Rattle.go_define.specs.SimpleTold.{is_function, performed_type, performed, one_performed};

use gj_base::{NoMemory, Place, Text};
use go_assign::branch::used::{fault_where_typed, raw_used, raws_used};
use go_assign::valued::taken::{core_of, type_of};
use go_assign::valued::told::move_flaws;
use go_calls::callee::names::name_of;
use go_core::node::{CoreExpr, CoreExprs};
use go_core::statement::CoreStmt;
use go_expr::typed::Raw;
use go_operands::answers::answer::{Answer, Flaw};
use go_operands::answers::gone::gone_answer;
use go_operands::answers::rule::and_flaw;
use go_operands::nodes::list::print;
use go_operands::operands::part::Part;
use go_operands::scopes::{Declared, Env};
use go_syntax::tree::{Expr, ExprForm};
use go_type::TypeTable;
use go_type::types::{GoType, TypeId};
use go_walk::steady::are_steady;
use go_walk::stmt_gone::more::and_stmt;
use go_walk::stmt_nodes::simple;
use go_walk::walk::Walk;

// ---- what is called

fn declares_function(env: &Env, what: &Declared) -> bool
    ensures value { result ≡ is_function (declared_callee (Some (decl_of (types_of env.now) what.now))) }
{
    let _ = env;
    match what {
        Declared::Func(_, _) => true,
        Declared::Builtin(_) => false,
        Declared::Var(_, _) => false,
        Declared::Global(_, _) => false,
        Declared::Const(_, _) => false,
        Declared::TypeName(_) => false,
        Declared::Import(_) => false,
        Declared::Nil => false,
        Declared::Refused(_) => false,
        Declared::Unknown => false,
    }
}

fn names_function(env: &Env, name: &Text) -> bool
    ensures value { result ≡ is_function (declared_callee (lookup name.now (scopes_of env.now))) }
{
    match env.lookup(name.as_bytes()) {
        Some(what) => declares_function(env, what),
        None => false,
    }
}

// Whether what is called is a function by its name.
#[tactic(auto, using(crate::proofs::CallLemmas::function_named, crate::proofs::CallLemmas::not_named))]
fn is_function(env: &Env, f: &Expr) -> bool
    ensures value { result ≡ is_function (callee_of (scopes_of env.now) (expr_view f.now)) }
{
    match name_of(f) {
        Some(name) => names_function(env, name),
        None => false,
    }
}

/// Whether an expression is a call of a function, also in parentheses.
#[tactic(auto, using(crate::proofs::CallLemmas::called_by, crate::proofs::CallLemmas::called_within))]
pub fn calls_function(walk: &Walk, e: &Expr) -> bool
    ensures value { (ts : List Ty) → result ≡ is_function (called_in (walk_of ts walk.now) (expr_view e.now)) }
{
    match &*e.form {
        ExprForm::Call(f, _, _) => is_function(&walk.env, f),
        ExprForm::Paren(x) => calls_function(walk, x),
        ExprForm::Name(_) => false,
        ExprForm::Int(_) => false,
        ExprForm::Rune(_) => false,
        ExprForm::Str(_) => false,
        ExprForm::Unary(_, _) => false,
        ExprForm::Binary(_, _, _) => false,
        ExprForm::Select(_, _) => false,
        ExprForm::Index(_, _) => false,
        ExprForm::Slice(_, _, _, _) => false,
        ExprForm::Assert(_, _) => false,
        ExprForm::Literal(_, _) => false,
        ExprForm::Func(_, _) => false,
        ExprForm::ArrayT(_, _) => false,
        ExprForm::SliceT(_) => false,
        ExprForm::StructT(_) => false,
        ExprForm::FuncT(_) => false,
        ExprForm::InterfaceT(_) => false,
        ExprForm::MapT(_, _) => false,
        ExprForm::ChanT(_, _) => false,
    }
}

// ---- what is performed

// How many types there are.
#[tactic(auto, using(crate::proofs::CountLemmas::counted_types))]
fn number_of(table: &TypeTable, ids: &[TypeId]) -> Option<u32>
    ensures value { IfSome result (λ n. n ≡ count_types (trees_of (places table.now) ids.now)) }
{
    let _ = table;
    let count = ids.len();
    if count < 4_000_000_000 {
        return Some(count as u32);
    }
    None
}

// How many values there are of a type.
fn count_of(env: &Env, t: TypeId) -> Option<u32>
    requires t { t.0 < size (table_of env.now) }
    ensures value { IfSome result (λ n. n ≡ values_of (tree_of (types_of env.now) t)) }
{
    match env.table().get(t) {
        GoType::Tuple(ids) => number_of(env.table(), ids.as_slice()),
        GoType::Bool => Some(1),
        GoType::Str => Some(1),
        GoType::Int(_) => Some(1),
        GoType::Nil => Some(1),
        GoType::Untyped(_) => Some(1),
        GoType::Array(_, _) => Some(1),
        GoType::Slice(_) => Some(1),
        GoType::Struct(_) => Some(1),
        GoType::Pointer(_) => Some(1),
        GoType::Func(_) => Some(1),
        GoType::Interface(_) => Some(1),
        GoType::Map(_, _) => Some(1),
        GoType::Chan(_, _) => Some(1),
        GoType::Named(_) => Some(1),
    }
}

// The type of what is to be performed, if it is.
fn performed_type(env: &Env, is_function: bool, answer: &Answer) -> Option<TypeId>
    requires within { AnswerBelow (size (table_of env.now)) answer.now }
    ensures value { option_map (tree_of (types_of env.now)) result ≡ performed_type is_function (answer_view (types_of env.now) answer.now) }
    ensures within { IfSome result (λ t. t.0 < size (table_of env.now)) }
{
    if !is_function {
        return None;
    }
    match answer {
        Answer::Value(_) => type_of(env, answer),
        Answer::Constant(_) => type_of(env, answer),
        Answer::Truth(_) => type_of(env, answer),
        Answer::Nil => type_of(env, answer),
        Answer::Type(_) => None,
        Answer::Pending(_, _) => None,
        Answer::Package(_) => None,
        Answer::BuiltIn(_) => None,
        Answer::Blank => None,
        Answer::Prints {
            operands: _,
            ends_line: _,
        } => None,
        Answer::Wrong(_) => None,
        Answer::Unknown => None,
    }
}

#[tactic(auto, using(crate::proofs::ToldLemmas::stmt_more))]
fn and_performed(out: &mut Vec<CoreStmt>, whole: CoreExpr, count: u32) -> Result<(), NoMemory>
    ensures core { OnOk result ((ts : List Ty) → map (stmt_view ts) out.new.items ≡ map (stmt_view ts) out.old.items ++ core.perform (core_view ts whole) count ∷ []) }
{
    match simple::perform(*out.allocator(), whole, count) {
        Ok(stmt) => {
            and_stmt(out, stmt)?;
            Ok(())
        }
        Err(error) => Err(error),
    }
}

#[tactic(auto, using(crate::proofs::ToldLemmas::performs))]
fn perform(env: &Env, out: &mut Vec<CoreStmt>, ty: TypeId, answer: Answer) -> Result<(), NoMemory>
    requires ty { ty.0 < size (table_of env.now) }
    ensures core { OnOk result ((ts : List Ty) → Keeps (table_of env.now) ts → map (stmt_view ts) out.new.items ≡ map (stmt_view ts) out.old.items ++ core.perform (go.core_of (answer_view (types_of env.now) answer)) (values_of (tree_of (types_of env.now) ty)) ∷ []) }
{
    match count_of(env, ty) {
        Some(count) => match core_of(*out.allocator(), env, answer) {
            Ok(whole) => {
                and_performed(out, whole, count)?;
                Ok(())
            }
            Err(error) => Err(error),
        },
        None => {
            gone_answer(answer);
            Err(NoMemory)
        }
    }
}

// A call that is a statement of its own.
#[tactic(auto, using(crate::proofs::ToldLemmas::prints))]
fn and_printed(
    env: &Env,
    out: &mut Vec<CoreStmt>,
    operands: CoreExprs,
    ends_line: bool,
) -> Result<(), NoMemory>
    ensures core { OnOk result ((ts : List Ty) → Keeps (table_of env.now) ts → map (stmt_view ts) out.new.items ≡ map (stmt_view ts) out.old.items ++ core.print (exprs_view (types_of env.now) operands) ends_line ∷ []) }
{
    // Own: not proved is that all types of a core are in the table.
    if !are_steady(env.table().len(), operands.items.as_slice()) {
        gone_answer(Answer::Prints {
            operands,
            ends_line,
        });
        return Err(NoMemory);
    }
    match print(*out.allocator(), operands, ends_line) {
        Ok(stmt) => {
            and_stmt(out, stmt)?;
            Ok(())
        }
        Err(error) => Err(error),
    }
}

// What is no call stands for nothing (93).
#[tactic(auto, using(crate::proofs::ToldLemmas::adds_flaws))]
fn refused(env: &Env, flaws: &mut Vec<Flaw>, at: Place, answer: Answer) -> Result<(), NoMemory>
    ensures adds { OnOk result ((out : List statement.CoreStmt) → Adds (table_of env.now) (flaw at 93 ∷ []) [] flaws.old.items flaws.new.items out out) }
{
    let _ = env;
    gone_answer(answer);
    and_flaw(*flaws.allocator(), flaws, at, 93)?;
    Ok(())
}

// What is no call of a function.
#[tactic(auto, using(crate::proofs::ToldLemmas::adds_stmts, crate::proofs::ToldLemmas::adds_nothing))]
fn unperformed(
    env: &Env,
    flaws: &mut Vec<Flaw>,
    out: &mut Vec<CoreStmt>,
    at: Place,
    answer: Answer,
) -> Result<(), NoMemory>
    ensures adds { OnOk result (Adds (table_of env.now) (performed false at (answer_view (types_of env.now) answer)).flaws (performed false at (answer_view (types_of env.now) answer)).core flaws.old.items flaws.new.items out.old.items out.new.items) }
{
    match answer {
        Answer::Prints {
            operands,
            ends_line,
        } => {
            and_printed(env, out, operands, ends_line)?;
            Ok(())
        }
        Answer::Wrong(_flaws) => Ok(()),
        Answer::Unknown => Ok(()),
        Answer::Value(found) => {
            refused(env, flaws, at, Answer::Value(found))?;
            Ok(())
        }
        Answer::Constant(k) => {
            refused(env, flaws, at, Answer::Constant(k))?;
            Ok(())
        }
        Answer::Truth(core) => {
            refused(env, flaws, at, Answer::Truth(core))?;
            Ok(())
        }
        Answer::Nil => {
            refused(env, flaws, at, Answer::Nil)?;
            Ok(())
        }
        Answer::Pending(p, basis) => {
            refused(env, flaws, at, Answer::Pending(p, basis))?;
            Ok(())
        }
        Answer::Type(t) => {
            refused(env, flaws, at, Answer::Type(t))?;
            Ok(())
        }
        Answer::Package(path) => {
            refused(env, flaws, at, Answer::Package(path))?;
            Ok(())
        }
        Answer::BuiltIn(function) => {
            refused(env, flaws, at, Answer::BuiltIn(function))?;
            Ok(())
        }
        Answer::Blank => {
            refused(env, flaws, at, Answer::Blank)?;
            Ok(())
        }
    }
}

#[tactic(auto, using(crate::proofs::ToldLemmas::adds_performed, crate::proofs::ToldLemmas::adds_unperformed))]
fn performed(
    env: &Env,
    flaws: &mut Vec<Flaw>,
    out: &mut Vec<CoreStmt>,
    is_function: bool,
    at: Place,
    answer: Answer,
) -> Result<(), NoMemory>
    requires within { AnswerBelow (size (table_of env.now)) answer }
    ensures adds { OnOk result (Adds (table_of env.now) (performed is_function at (answer_view (types_of env.now) answer)).flaws (performed is_function at (answer_view (types_of env.now) answer)).core flaws.old.items flaws.new.items out.old.items out.new.items) }
{
    match performed_type(env, is_function, &answer) {
        Some(ty) => {
            perform(env, out, ty, answer)?;
            Ok(())
        }
        None => {
            unperformed(env, flaws, out, at, answer)?;
            Ok(())
        }
    }
}

#[tactic(auto, using(crate::proofs::ToldLemmas::adds_further))]
fn told_one(
    env: &Env,
    flaws: &mut Vec<Flaw>,
    out: &mut Vec<CoreStmt>,
    is_function: bool,
    raw: Raw,
) -> Result<(), NoMemory>
    requires within { RawBelow (size (table_of env.now)) raw }
    ensures adds { OnOk result (Adds (table_of env.now) (one_performed is_function (raw_view (types_of env.now) raw)).flaws (one_performed is_function (raw_view (types_of env.now) raw)).core flaws.old.items flaws.new.items out.old.items out.new.items) }
{
    let Raw { part, flaws: more } = raw;
    let Part { place, answer } = part;
    match move_flaws(flaws, more) {
        Ok(()) => {
            performed(env, flaws, out, is_function, place, answer)?;
            Ok(())
        }
        Err(error) => {
            gone_answer(answer);
            Err(error)
        }
    }
}

// ---- the statement

#[tactic(auto, using(crate::proofs::DoesLemmas::one_does))]
fn one(
    walk: &mut Walk,
    flaws: &mut Vec<Flaw>,
    out: &mut Vec<CoreStmt>,
    at: Place,
    x: &Expr,
) -> Result<(), NoMemory>
    ensures does { OnOk result (Does (expression at (t.MoreExprs (expr_view x.now) t.NoExprs)) walk.old walk.new flaws.old.items flaws.new.items out.old.items out.new.items) }
{
    let _ = at;
    let is_function = calls_function(walk, x);
    match raw_used(walk, x) {
        Ok(raw) => {
            told_one(&walk.env, flaws, out, is_function, raw)?;
            Ok(())
        }
        Err(error) => Err(error),
    }
}

// No expression, or several (84).
#[tactic(auto, using(crate::proofs::DoesLemmas::not_one_does))]
fn not_one(walk: &mut Walk, flaws: &mut Vec<Flaw>, at: Place, xs: &[Expr]) -> Result<(), NoMemory>
    requires other { length xs.now ≢ 1 }
    ensures does { OnOk result ((out : List statement.CoreStmt) → Does (expression at (exprs_of (map expr_view xs.now))) walk.old walk.new flaws.old.items flaws.new.items out out) }
{
    match raws_used(walk, xs) {
        Ok(raws) => {
            fault_where_typed(flaws, at, 84, raws)?;
            Ok(())
        }
        Err(error) => Err(error),
    }
}

/// An expression as a statement.
#[tactic(auto, using(crate::proofs::DoesLemmas::the_one_does))]
pub fn expression(
    walk: &mut Walk,
    flaws: &mut Vec<Flaw>,
    out: &mut Vec<CoreStmt>,
    at: Place,
    xs: &[Expr],
) -> Result<(), NoMemory>
    ensures does { OnOk result (Does (expression at (exprs_of (map expr_view xs.now))) walk.old walk.new flaws.old.items flaws.new.items out.old.items out.new.items) }
{
    if xs.len() != 1 {
        not_one(walk, flaws, at, xs)?;
        return Ok(());
    }
    one(walk, flaws, out, at, &xs[0])?;
    Ok(())
}
