//! The names without which an expression isn't typed. A form that isn't built yet needs none.

ghost use Rattle.std.specs.Prelude.{◌≡◌, ◌∷◌, ◌++◌, [], OnOk, map, option_map, if◌then◌else◌};
ghost use Rattle.go_syntax.specs.View.{expr_view, exprs_of, maybe_expr};
ghost use Rattle.go_operands.specs.EnvView.{env_of};
ghost use Rattle.go_typing.specs.Env.{is_blank};
ghost use Rattle.go_typing.specs.Scopes.{visible};
ghost use Rattle.go_typing.specs.Typing.{is_built_prefix};
ghost use Rattle.go_typing.specs.Cycles.{needed, needed_bound, needed_all};
ghost use Rattle.go_walk.specs.Texts.{texts};

use crate::needed::called::{Look, called, is_blank};
use gj_base::{NoMemory, Text};
use go_operands::scopes::Env;
use go_syntax::tree::{Expr, ExprForm, Prefix};

fn is_built_prefix(op: Prefix) -> bool
    ensures value { result ≡ is_built_prefix op }
{
    match op {
        Prefix::Plus => true,
        Prefix::Neg => true,
        Prefix::Not => true,
        Prefix::Compl => true,
        Prefix::Star => false,
        Prefix::Address => false,
        Prefix::Receive => false,
    }
}

fn one<'a>(names: &mut Vec<&'a Text>, x: &'a Text) -> Result<(), NoMemory>
    ensures value { OnOk result (texts names.new.items ≡ texts names.old.items ++ (if is_blank x.now then [] else x.now ∷ [])) }
{
    if is_blank(x) {
        return Ok(());
    }
    names.push(x)?;
    Ok(())
}

/// Adds the names that an expression needs.
#[cycle(needed)]
pub fn needed<'a>(env: &Env, names: &mut Vec<&'a Text>, e: &'a Expr) -> Result<(), NoMemory>
    ensures value { OnOk result (texts names.new.items ≡ texts names.old.items ++ needed (visible (env_of env.now)) (expr_view e.now)) }
{
    match &*e.form {
        ExprForm::Name(x) => one(names, x),
        ExprForm::Int(_) => Ok(()),
        ExprForm::Rune(_) => Ok(()),
        ExprForm::Str(_) => Ok(()),
        ExprForm::Paren(x) => needed(env, names, x),
        ExprForm::Unary(op, x) => {
            if is_built_prefix(*op) {
                return needed(env, names, x);
            }
            Ok(())
        }
        ExprForm::Binary(x, _, y) => {
            needed(env, names, x)?;
            needed(env, names, y)
        }
        ExprForm::Select(_, _) => Ok(()),
        ExprForm::Index(x, i) => {
            needed(env, names, x)?;
            needed(env, names, i)
        }
        ExprForm::Slice(x, low, high, most) => {
            needed(env, names, x)?;
            needed_maybe(env, names, low)?;
            needed_maybe(env, names, high)?;
            needed_maybe(env, names, most)
        }
        ExprForm::Assert(_, _) => Ok(()),
        ExprForm::Call(f, args, _) => match called(env, f) {
            Look::Nothing => Ok(()),
            Look::Arguments => needed_all(env, names, args.as_slice()),
            Look::All => {
                needed(env, names, f)?;
                needed_all(env, names, args.as_slice())
            }
        },
        ExprForm::Literal(_, _) => Ok(()),
        ExprForm::Func(_, _) => Ok(()),
        ExprForm::ArrayT(_, _) => Ok(()),
        ExprForm::SliceT(_) => Ok(()),
        ExprForm::StructT(_) => Ok(()),
        ExprForm::FuncT(_) => Ok(()),
        ExprForm::InterfaceT(_) => Ok(()),
        ExprForm::MapT(_, _) => Ok(()),
        ExprForm::ChanT(_, _) => Ok(()),
    }
}

/// Adds the names that an expression needs that may be missing.
#[cycle(needed)]
pub fn needed_maybe<'a>(
    env: &Env,
    names: &mut Vec<&'a Text>,
    e: &'a Option<Expr>,
) -> Result<(), NoMemory>
    ensures value { OnOk result (texts names.new.items ≡ texts names.old.items ++ needed_bound (visible (env_of env.now)) (maybe_expr (option_map expr_view e.now))) }
{
    match e {
        Some(e) => needed(env, names, e),
        None => Ok(()),
    }
}

/// Adds the names that expressions need.
#[cycle(needed)]
pub fn needed_all<'a>(env: &Env, names: &mut Vec<&'a Text>, es: &'a [Expr]) -> Result<(), NoMemory>
    ensures value { OnOk result (texts names.new.items ≡ texts names.old.items ++ needed_all (visible (env_of env.now)) (exprs_of (map expr_view es.now))) }
{
    for e in es {
        needed(env, names, e)?;
    }
    Ok(())
}
