//! The walk over an expression: what each node is, from what its parts are, and the faults on the way.
//!
//! It goes as deep as the nesting of the source, which the parser bounds. Each part that is typed waits
//! on a stack, and a node takes its own parts from there.

ghost use Rattle.std.specs.Prelude.{◌≡◌, ◌++◌, map, option_map, OnOk, IfOk};
ghost use Rattle.go_type.specs.Table.{size};
ghost use Rattle.go_syntax.specs.View.{expr_view, exprs_of, maybe_expr};
ghost use Rattle.go_typing.specs.Typing as go;
ghost use Rattle.go_typing.specs.Typing.{all_flaws};
ghost use Rattle.go_operands.specs.EnvView.{table_of};
ghost use Rattle.go_operands.specs.AnswerView.{flaw_view};
ghost use Rattle.go_calls.specs.CallView.{parts_view, PartsBelow};
ghost use Rattle.go_calls.specs.Words.{types_of, names_of, scopes_of};
ghost use Rattle.go_calls.specs.ResultTypes.{AreRight};
ghost use Rattle.go_expr.specs.Ready.{IsReady, BoundReady, AllReady};
ghost use Rattle.go_expr.specs.Walked.{Walks, WalksBound, WalksAll};

use crate::expr::prefix::op_of;
use crate::parts::calls::{built_in_called, function_called, value_called};
use crate::parts::leaf::{int, named, rune, string, unbuilt};
use crate::parts::node::{between, enclosed, indexed, prefixed};
use crate::parts::slices::sliced;
use gj_base::NoMemory;
use go_calls::callee::callee::{Callee, callee_of};
use go_calls::callee::gives::Gives;
use go_calls::calls::builtin::is_built;
use go_calls::given::gone::gone_parts;
use go_operands::answers::answer::Flaw;
use go_operands::operands::part::Part;
use go_operands::scopes::Env;
use go_syntax::tree::{Expr, ExprForm};
use std::alloc::Global;

/// An expression waits, and its faults are told, those of its parts before its own.
#[cycle(typing)]
pub fn typing(
    alloc: Global,
    env: &Env,
    gives: &Gives,
    e: &Expr,
    parts: &mut Vec<Part>,
    flaws: &mut Vec<Flaw>,
) -> Result<(), NoMemory>
    requires right { AreRight (scopes_of env.now) (table_of env.now) gives.now }
    requires ready { IsReady (scopes_of env.now) gives.now (expr_view e.now) }
    requires within { PartsBelow (size (table_of env.now)) parts.old.items }
    ensures walks { OnOk result (Walks (types_of env.now) (names_of env.now) (scopes_of env.now) (expr_view e.now) parts.old.items parts.new.items flaws.old.items flaws.new.items) }
    ensures within { OnOk result (PartsBelow (size (table_of env.now)) parts.new.items) }
{
    match &*e.form {
        ExprForm::Name(text) => named(alloc, env, e.place, text, parts, flaws),
        ExprForm::Int(text) => int(alloc, env, e.place, text, parts, flaws),
        ExprForm::Rune(text) => rune(alloc, env, e.place, text, parts, flaws),
        ExprForm::Str(text) => string(alloc, env, e.place, text, parts, flaws),
        ExprForm::Paren(x) => {
            typing(alloc, env, gives, x, parts, flaws)?;
            enclosed(alloc, env, e.place, parts, flaws)
        }
        ExprForm::Unary(sign, x) => match op_of(*sign) {
            Some(op) => {
                typing(alloc, env, gives, x, parts, flaws)?;
                prefixed(alloc, env, e.place, op, parts, flaws)
            }
            None => unbuilt(alloc, env, e.place, parts, flaws),
        },
        ExprForm::Binary(x, op, y) => {
            typing(alloc, env, gives, x, parts, flaws)?;
            typing(alloc, env, gives, y, parts, flaws)?;
            between(alloc, env, e.place, *op, parts, flaws)
        }
        ExprForm::Index(x, i) => {
            typing(alloc, env, gives, x, parts, flaws)?;
            typing(alloc, env, gives, i, parts, flaws)?;
            indexed(alloc, env, e.place, parts, flaws)
        }
        ExprForm::Slice(x, low, high, most) => {
            typing(alloc, env, gives, x, parts, flaws)?;
            bound(alloc, env, gives, low, parts, flaws)?;
            bound(alloc, env, gives, high, parts, flaws)?;
            bound(alloc, env, gives, most, parts, flaws)?;
            let has_low = low.is_some();
            let has_high = high.is_some();
            let has_most = most.is_some();
            sliced(
                alloc, env, e.place, has_low, has_high, has_most, parts, flaws,
            )
        }
        ExprForm::Call(f, xs, spread) => match callee_of(env, gives, f) {
            Callee::Function(id, sig, t) => {
                let given = args(alloc, env, gives, xs, flaws)?;
                function_called(
                    alloc, env, e.place, id, sig, t, *spread, given, parts, flaws,
                )
            }
            Callee::BuiltIn(function) => {
                if !is_built(function) {
                    return unbuilt(alloc, env, e.place, parts, flaws);
                }
                let given = args(alloc, env, gives, xs, flaws)?;
                built_in_called(alloc, env, e.place, function, *spread, given, parts, flaws)
            }
            Callee::Value => {
                typing(alloc, env, gives, f, parts, flaws)?;
                let given = args(alloc, env, gives, xs, flaws)?;
                value_called(alloc, env, e.place, *spread, given, parts, flaws)
            }
        },
        ExprForm::Select(_, _) => unbuilt(alloc, env, e.place, parts, flaws),
        ExprForm::Assert(_, _) => unbuilt(alloc, env, e.place, parts, flaws),
        ExprForm::Literal(_, _) => unbuilt(alloc, env, e.place, parts, flaws),
        ExprForm::Func(_, _) => unbuilt(alloc, env, e.place, parts, flaws),
        ExprForm::ArrayT(_, _) => unbuilt(alloc, env, e.place, parts, flaws),
        ExprForm::SliceT(_) => unbuilt(alloc, env, e.place, parts, flaws),
        ExprForm::StructT(_) => unbuilt(alloc, env, e.place, parts, flaws),
        ExprForm::FuncT(_) => unbuilt(alloc, env, e.place, parts, flaws),
        ExprForm::InterfaceT(_) => unbuilt(alloc, env, e.place, parts, flaws),
        ExprForm::MapT(_, _) => unbuilt(alloc, env, e.place, parts, flaws),
        ExprForm::ChanT(_, _) => unbuilt(alloc, env, e.place, parts, flaws),
    }
}

#[cycle(typing)]
fn bound(
    alloc: Global,
    env: &Env,
    gives: &Gives,
    x: &Option<Expr>,
    parts: &mut Vec<Part>,
    flaws: &mut Vec<Flaw>,
) -> Result<(), NoMemory>
    requires right { AreRight (scopes_of env.now) (table_of env.now) gives.now }
    requires ready { BoundReady (scopes_of env.now) gives.now (maybe_expr (option_map expr_view x.now)) }
    requires within { PartsBelow (size (table_of env.now)) parts.old.items }
    ensures walks { OnOk result (WalksBound (types_of env.now) (names_of env.now) (scopes_of env.now) (maybe_expr (option_map expr_view x.now)) parts.old.items parts.new.items flaws.old.items flaws.new.items) }
    ensures within { OnOk result (PartsBelow (size (table_of env.now)) parts.new.items) }
{
    match x {
        Some(x) => typing(alloc, env, gives, x, parts, flaws),
        None => Ok(()),
    }
}

#[cycle(typing)]
fn all(
    alloc: Global,
    env: &Env,
    gives: &Gives,
    xs: &[Expr],
    parts: &mut Vec<Part>,
    flaws: &mut Vec<Flaw>,
) -> Result<(), NoMemory>
    requires right { AreRight (scopes_of env.now) (table_of env.now) gives.now }
    requires ready { AllReady (scopes_of env.now) gives.now (exprs_of (map expr_view xs.now)) }
    requires within { PartsBelow (size (table_of env.now)) parts.old.items }
    ensures walks { OnOk result (WalksAll (types_of env.now) (names_of env.now) (scopes_of env.now) (exprs_of (map expr_view xs.now)) parts.old.items parts.new.items flaws.old.items flaws.new.items) }
    ensures within { OnOk result (PartsBelow (size (table_of env.now)) parts.new.items) }
{
    for x in xs {
        typing(alloc, env, gives, x, parts, flaws)?;
    }
    Ok(())
}

// The arguments of a call.
#[cycle(typing)]
fn args(
    alloc: Global,
    env: &Env,
    gives: &Gives,
    xs: &Vec<Expr>,
    flaws: &mut Vec<Flaw>,
) -> Result<Vec<Part>, NoMemory>
    requires right { AreRight (scopes_of env.now) (table_of env.now) gives.now }
    requires ready { AllReady (scopes_of env.now) gives.now (exprs_of (map expr_view xs.now.items)) }
    ensures given { IfOk result (λ given. parts_view (types_of env.now) given.items ≡ go.parts (names_of env.now) (scopes_of env.now) (exprs_of (map expr_view xs.now.items))) }
    ensures told { OnOk result (map flaw_view flaws.new.items ≡ map flaw_view flaws.old.items ++ all_flaws (names_of env.now) (scopes_of env.now) (exprs_of (map expr_view xs.now.items))) }
    ensures within { IfOk result (λ given. PartsBelow (size (table_of env.now)) given.items) }
{
    let mut given = Vec::new(alloc);
    match all(alloc, env, gives, xs.as_slice(), &mut given, flaws) {
        Ok(()) => Ok(given),
        Err(error) => {
            gone_parts(given);
            Err(error)
        }
    }
}
