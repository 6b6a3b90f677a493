//! What is taken from an answer: the core of a value, its type, its constant, and the types of several values.

ghost use Rattle.std.specs.Prelude.{◌≡◌, ◌<◌, List, IfOk, IfSome, option_map};
ghost use Rattle.go_type.specs.Tree as ty;
ghost use Rattle.go_type.specs.Levels.{tree_of, trees_of, IdsBelow};
ghost use Rattle.go_type.specs.Tree.{Ty};
ghost use Rattle.go_type.specs.Table.{places, size};
ghost use Rattle.go_core.specs.CoreTree as core;
ghost use Rattle.go_core.specs.CoreView.{expr_view};
ghost use Rattle.go_typing.specs.Operand.{untyped_constant};
ghost use Rattle.go_operands.specs.RulesReady.{HasPredeclared};
ghost use Rattle.go_operands.specs.EnvView.{table_of};
ghost use Rattle.go_operands.specs.AnswerView.{answer_view};
ghost use Rattle.go_operands.specs.Below.{AnswerBelow};
ghost use Rattle.go_calls.specs.Words.{types_of};
ghost use Rattle.go_typing.specs.Expressions as go;
ghost use Rattle.go_expr.specs.Raw.{raws_view, RawsBelow};
ghost use Rattle.go_assign.specs.Settled.{several_in};
ghost use Rattle.go_assign.specs.Taken.{StandsFor, several_at, several_of};

use gj_base::NoMemory;
use go_const::Const;
use go_core::node::CoreExpr;
use go_expr::typed::Raws;
use go_operands::answers::answer::{Answer, Found};
use go_operands::answers::constant::constant_at;
use go_operands::answers::gone::gone_answer;
use go_operands::nodes::gone::gone_expr;
use go_operands::nodes::leaf;
use go_operands::rules::constant::basis_of;
use go_operands::scopes::Env;
use go_type::TypeTable;
use go_type::predeclared::{BOOL, NIL, untyped_id};
use go_type::types::{Basis, GoType, TypeId};
use go_walk::steady::is_steady;
use std::alloc::Global;

// ---- types

// The type of an untyped value.
#[tactic(auto, using(crate::proofs::TakenLemmas::untyped_in, crate::proofs::TakenLemmas::untyped_below))]
fn untyped_type(table: &TypeTable, basis: Basis) -> TypeId
    requires { HasPredeclared table.now }
    ensures tree { tree_of (places table.now) result ≡ ty.untyped basis }
    ensures within { result.0 < size table.now }
{
    let _ = table;
    untyped_id(basis)
}

#[tactic(auto, using(crate::proofs::TakenLemmas::nil_tree, crate::proofs::TakenLemmas::nil_below))]
fn nil_type(table: &TypeTable) -> TypeId
    requires { HasPredeclared table.now }
    ensures tree { tree_of (places table.now) result ≡ ty.nil }
    ensures within { result.0 < size table.now }
{
    let _ = table;
    NIL
}

#[tactic(auto, using(crate::proofs::TakenLemmas::bool_tree))]
fn bool_type(table: &TypeTable) -> TypeId
    requires { HasPredeclared table.now }
    ensures tree { tree_of (places table.now) result ≡ ty.bool }
{
    let _ = table;
    BOOL
}

/// The type of a value, or a type.
pub fn type_of(env: &Env, answer: &Answer) -> Option<TypeId>
    requires within { AnswerBelow (size (table_of env.now)) answer.now }
    ensures value { option_map (tree_of (types_of env.now)) result ≡ go.type_of (answer_view (types_of env.now) answer.now) }
    ensures within { IfSome result (λ t. t.0 < size (table_of env.now)) }
{
    match answer {
        Answer::Value(found) => Some(found.ty),
        Answer::Constant(k) => Some(untyped_type(env.table(), basis_of(k))),
        Answer::Truth(_) => Some(untyped_type(env.table(), Basis::Bool)),
        Answer::Nil => Some(nil_type(env.table())),
        Answer::Type(t) => Some(*t),
        Answer::Pending(_, _) => None,
        Answer::Package(_) => None,
        Answer::BuiltIn(_) => None,
        Answer::Blank => None,
        Answer::Prints {
            operands: _,
            ends_line: _,
        } => None,
        Answer::Wrong(_) => None,
        Answer::Unknown => None,
    }
}

// ---- cores

// What stands for a value of which there is none: the body has a fault.
fn no_core(alloc: Global, table: &TypeTable) -> Result<CoreExpr, NoMemory>
    requires { HasPredeclared table.now }
    ensures value { IfOk result (λ e. expr_view (places table.now) e ≡ core.zero_value ty.bool) }
{
    leaf::zero(alloc, bool_type(table))
}

fn nil_core(alloc: Global, table: &TypeTable) -> Result<CoreExpr, NoMemory>
    requires { HasPredeclared table.now }
    ensures value { IfOk result (λ e. expr_view (places table.now) e ≡ core.zero_value ty.nil) }
{
    leaf::zero(alloc, nil_type(table))
}

fn constant_core(alloc: Global, table: &TypeTable, k: &Const) -> Result<CoreExpr, NoMemory>
    requires { HasPredeclared table.now }
    ensures value { IfOk result (λ e. expr_view (places table.now) e ≡ go.core_of (untyped_constant k.now)) }
{
    constant_at(alloc, untyped_type(table, basis_of(k)), k)
}

fn core_in(alloc: Global, table: &TypeTable, answer: Answer) -> Result<CoreExpr, NoMemory>
    requires table { HasPredeclared table.now }
    ensures value { IfOk result (λ e. expr_view (places table.now) e ≡ go.core_of (answer_view (places table.now) answer)) }
{
    match answer {
        Answer::Value(found) => {
            let Found {
                core,
                ty: _ty,
                value: _value,
            } = found;
            Ok(core)
        }
        Answer::Constant(k) => constant_core(alloc, table, &k),
        Answer::Truth(core) => Ok(core),
        Answer::Nil => nil_core(alloc, table),
        Answer::Type(_t) => no_core(alloc, table),
        Answer::Package(_path) => no_core(alloc, table),
        Answer::BuiltIn(_function) => no_core(alloc, table),
        Answer::Blank => no_core(alloc, table),
        Answer::Wrong(_flaws) => no_core(alloc, table),
        Answer::Unknown => no_core(alloc, table),
        Answer::Pending(p, basis) => {
            gone_answer(Answer::Pending(p, basis));
            no_core(alloc, table)
        }
        Answer::Prints {
            operands,
            ends_line,
        } => {
            gone_answer(Answer::Prints {
                operands,
                ends_line,
            });
            no_core(alloc, table)
        }
    }
}

// A core whose types are all in the table stands for the same where it grows.
#[tactic(auto, using(crate::proofs::TakenLemmas::stands_from))]
fn lasting(env: &Env, whole: CoreExpr) -> Result<CoreExpr, NoMemory>
    ensures stands { IfOk result (StandsFor (table_of env.now) (expr_view (types_of env.now) whole)) }
{
    if is_steady(env.table().len(), &whole) {
        return Ok(whole);
    }
    // Own: not proved is that all types of a core are in the table.
    gone_expr(whole);
    Err(NoMemory)
}

/// The core of a value; where there is none the body has a fault. It stands for the same where the
/// table gets more types.
#[tactic(auto, using(crate::proofs::TakenLemmas::stands_same))]
pub fn core_of(alloc: Global, env: &Env, answer: Answer) -> Result<CoreExpr, NoMemory>
    ensures value { IfOk result (StandsFor (table_of env.now) (go.core_of (answer_view (types_of env.now) answer))) }
{
    match core_in(alloc, env.table(), answer) {
        Ok(core) => lasting(env, core),
        Err(error) => Err(error),
    }
}

// ---- constants

/// The constant that a value is, if it is one.
pub fn constant_of(answer: Answer) -> Option<Const>
    ensures value { (ts : List Ty) → result ≡ go.constant_of (answer_view ts answer) }
{
    match answer {
        Answer::Value(found) => {
            let Found {
                core,
                ty: _ty,
                value,
            } = found;
            gone_expr(core);
            value
        }
        Answer::Constant(k) => Some(k),
        Answer::Truth(core) => {
            gone_expr(core);
            None
        }
        Answer::Nil => None,
        Answer::Type(_t) => None,
        Answer::Package(_path) => None,
        Answer::BuiltIn(_function) => None,
        Answer::Blank => None,
        Answer::Wrong(_flaws) => None,
        Answer::Unknown => None,
        Answer::Pending(p, basis) => {
            gone_answer(Answer::Pending(p, basis));
            None
        }
        Answer::Prints {
            operands,
            ends_line,
        } => {
            gone_answer(Answer::Prints {
                operands,
                ends_line,
            });
            None
        }
    }
}

// ---- several values

// The types of a tuple of two at least.
fn tuple_types(env: &Env, t: TypeId) -> Option<&[TypeId]>
    requires t { t.0 < size (table_of env.now) }
    ensures value { option_map (λ is. trees_of (types_of env.now) is.now) result ≡ several_at (tree_of (types_of env.now) t) }
    ensures within { IfSome result (λ is. IdsBelow (size (table_of env.now)) is.now) }
{
    match env.table().get(t) {
        GoType::Tuple(ids) => two_at_least(env.table(), ids.as_slice()),
        GoType::Bool => None,
        GoType::Str => None,
        GoType::Int(_) => None,
        GoType::Nil => None,
        GoType::Untyped(_) => None,
        GoType::Array(_, _) => None,
        GoType::Slice(_) => None,
        GoType::Struct(_) => None,
        GoType::Pointer(_) => None,
        GoType::Func(_) => None,
        GoType::Interface(_) => None,
        GoType::Map(_, _) => None,
        GoType::Chan(_, _) => None,
        GoType::Named(_) => None,
    }
}

#[tactic(auto, using(crate::proofs::TakenLemmas::several_two))]
fn two_at_least<'a>(table: &TypeTable, ids: &'a [TypeId]) -> Option<&'a [TypeId]>
    requires within { IdsBelow (size table.now) ids.now }
    ensures value { option_map (λ is. trees_of (places table.now) is.now) result ≡ several_of (trees_of (places table.now) ids.now) }
    ensures within { IfSome result (λ is. IdsBelow (size table.now) is.now) }
{
    let _ = table;
    match ids {
        [] => None,
        [_] => None,
        _ => Some(ids),
    }
}

#[tactic(auto, using(crate::proofs::TakenLemmas::several_value))]
fn several_types<'a>(env: &'a Env, answer: &Answer) -> Option<&'a [TypeId]>
    requires within { AnswerBelow (size (table_of env.now)) answer.now }
    ensures value { option_map (λ is. trees_of (types_of env.now) is.now) result ≡ go.several_types (answer_view (types_of env.now) answer.now) }
    ensures within { IfSome result (λ is. IdsBelow (size (table_of env.now)) is.now) }
{
    match answer {
        Answer::Value(found) => tuple_types(env, found.ty),
        Answer::Constant(_) => None,
        Answer::Truth(_) => None,
        Answer::Nil => None,
        Answer::Pending(_, _) => None,
        Answer::Type(_) => None,
        Answer::Package(_) => None,
        Answer::BuiltIn(_) => None,
        Answer::Blank => None,
        Answer::Prints {
            operands: _,
            ends_line: _,
        } => None,
        Answer::Wrong(_) => None,
        Answer::Unknown => None,
    }
}

/// The types of the several values of a call that stands alone.
#[tactic(auto, using(crate::proofs::TakenLemmas::not_one, crate::proofs::TakenLemmas::the_one))]
pub fn several<'a>(env: &'a Env, raws: &Raws) -> Option<&'a [TypeId]>
    requires within { RawsBelow (size (table_of env.now)) raws.now }
    ensures value { option_map (λ is. trees_of (types_of env.now) is.now) result ≡ several_in (raws_view (types_of env.now) raws.now) }
    ensures within { IfSome result (λ is. IdsBelow (size (table_of env.now)) is.now) }
{
    if raws.items.len() != 1 {
        return None;
    }
    several_types(env, &raws.items[0].part.answer)
}
