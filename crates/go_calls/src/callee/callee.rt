//! What a call calls.
//!
//! Go, "Calls": a function or a predeclared function by its name, also in parentheses, a type, or a
//! value.

ghost use Rattle.std.specs.Prelude.{◌≡◌, Some};
ghost use Rattle.go_type.specs.Table.{size};
ghost use Rattle.go_syntax.specs.View.{expr_view};
ghost use Rattle.go_typing.specs.Env.{lookup};
ghost use Rattle.go_typing.specs.Typing.{declared_callee, callee_of};
ghost use Rattle.go_operands.specs.EnvView.{table_of};
ghost use Rattle.go_operands.specs.View.{decl_of};
ghost use Rattle.go_operands.specs.Within.{DeclaredBelow};
ghost use Rattle.go_calls.specs.Words.{types_of, scopes_of};
ghost use Rattle.go_calls.specs.Called.{name_in, callee_view, CalleeFits};
ghost use Rattle.go_calls.specs.ResultTypes.{AreRight, IsGiven, CalleeGiven};

use crate::callee::gives::Gives;
use crate::callee::names::name_of;
use gj_base::Text;
use go_core::FuncId;
use go_operands::rules::builtin::Builtin;
use go_operands::scopes::{Declared, Env};
use go_syntax::tree::Expr;
use go_type::types::{Sig, TypeId};

/// What is called by its name.
#[derive(Clone, Copy)]
pub enum Callee<'a> {
    /// A function, with its signature and the type of what a call gives.
    Function(FuncId, &'a Sig, TypeId),
    BuiltIn(Builtin),
    /// Anything else: a type, a value.
    Value,
}

fn declared<'a>(env: &'a Env, gives: &Gives, name: &Text, what: &'a Declared) -> Callee<'a>
    requires here { lookup name.now (scopes_of env.now) ≡ Some (decl_of (types_of env.now) what.now) }
    requires within { DeclaredBelow (size (table_of env.now)) what.now }
    requires right { AreRight (scopes_of env.now) (table_of env.now) gives.now }
    requires given { IsGiven (scopes_of env.now) gives.now name.now }
    ensures view { callee_view (types_of env.now) result ≡ declared_callee (Some (decl_of (types_of env.now) what.now)) }
    ensures fits { CalleeFits (types_of env.now) (size (table_of env.now)) result }
{
    let _ = env;
    match what {
        Declared::Func(id, sig) => match gives.get(name) {
            Some(t) => Callee::Function(*id, sig, t),
            None => unreachable!(),
        },
        Declared::Builtin(function) => Callee::BuiltIn(*function),
        Declared::Var(_, _) => Callee::Value,
        Declared::Global(_, _) => Callee::Value,
        Declared::Const(_, _) => Callee::Value,
        Declared::TypeName(_) => Callee::Value,
        Declared::Import(_) => Callee::Value,
        Declared::Nil => Callee::Value,
        Declared::Refused(_) => Callee::Value,
        Declared::Unknown => Callee::Value,
    }
}

// What a name that is called stands for.
fn called<'a>(env: &'a Env, gives: &Gives, name: &Text) -> Callee<'a>
    requires right { AreRight (scopes_of env.now) (table_of env.now) gives.now }
    requires given { IsGiven (scopes_of env.now) gives.now name.now }
    ensures view { callee_view (types_of env.now) result ≡ declared_callee (lookup name.now (scopes_of env.now)) }
    ensures fits { CalleeFits (types_of env.now) (size (table_of env.now)) result }
{
    match env.lookup(name.as_bytes()) {
        Some(what) => declared(env, gives, name, what),
        None => Callee::Value,
    }
}

/// What a call of `f` calls; `gives` has a type for each function that is called.
pub fn callee_of<'a>(env: &'a Env, gives: &Gives, f: &Expr) -> Callee<'a>
    requires right { AreRight (scopes_of env.now) (table_of env.now) gives.now }
    requires given { CalleeGiven (scopes_of env.now) gives.now (name_in (expr_view f.now)) }
    ensures view { callee_view (types_of env.now) result ≡ callee_of (scopes_of env.now) (expr_view f.now) }
    ensures fits { CalleeFits (types_of env.now) (size (table_of env.now)) result }
{
    match name_of(f) {
        Some(name) => called(env, gives, name),
        None => Callee::Value,
    }
}
