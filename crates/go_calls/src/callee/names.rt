//! The names that are called in an expression.
//!
//! Go, "Calls": a function or a predeclared function by its name, also in parentheses.

ghost use Rattle.std.specs.Prelude.{◌≡◌, ◌++◌, OnOk, Some, None, map, option_map, if◌then◌else◌};
ghost use Rattle.go_syntax.specs.View.{expr_view, exprs_of, maybe_expr};
ghost use Rattle.go_typing.specs.Env.{is_blank};
ghost use Rattle.go_calls.specs.Called.{texts, name_in, one_name, called_in, called_in_bound, called_in_all};

use gj_base::{NoMemory, Text};
use go_syntax::tree::{Expr, ExprForm};

fn is_blank(name: &Text) -> bool
    ensures { result ≡ is_blank name.now }
{
    name.as_bytes() == b"_".as_slice()
}

fn unless_blank(name: &Text) -> Option<&Text>
    ensures value { option_map (λ x. x.now) result ≡ (if is_blank name.now then None else Some name.now) }
{
    if is_blank(name) {
        return None;
    }
    Some(name)
}

/// The name that is called, if it is one. `_` is none.
pub fn name_of(f: &Expr) -> Option<&Text>
    ensures value { option_map (λ x. x.now) result ≡ name_in (expr_view f.now) }
{
    match &*f.form {
        ExprForm::Name(name) => unless_blank(name),
        ExprForm::Paren(x) => name_of(x),
        ExprForm::Int(_) => None,
        ExprForm::Rune(_) => None,
        ExprForm::Str(_) => None,
        ExprForm::Unary(_, _) => None,
        ExprForm::Binary(_, _, _) => None,
        ExprForm::Select(_, _) => None,
        ExprForm::Index(_, _) => None,
        ExprForm::Slice(_, _, _, _) => None,
        ExprForm::Assert(_, _) => None,
        ExprForm::Call(_, _, _) => None,
        ExprForm::Literal(_, _) => None,
        ExprForm::Func(_, _) => None,
        ExprForm::ArrayT(_, _) => None,
        ExprForm::SliceT(_) => None,
        ExprForm::StructT(_) => None,
        ExprForm::FuncT(_) => None,
        ExprForm::InterfaceT(_) => None,
        ExprForm::MapT(_, _) => None,
        ExprForm::ChanT(_, _) => None,
    }
}

fn add_name<'a>(names: &mut Vec<&'a Text>, f: &'a Expr) -> Result<(), NoMemory>
    ensures value { OnOk result (texts names.new.items ≡ texts names.old.items ++ one_name (name_in (expr_view f.now))) }
{
    match name_of(f) {
        Some(name) => {
            names.push(name)?;
            Ok(())
        }
        None => Ok(()),
    }
}

/// Adds the names that are called in an expression.
#[cycle(called)]
pub fn add_called<'a>(names: &mut Vec<&'a Text>, e: &'a Expr) -> Result<(), NoMemory>
    ensures value { OnOk result (texts names.new.items ≡ texts names.old.items ++ called_in (expr_view e.now)) }
{
    match &*e.form {
        ExprForm::Paren(x) => add_called(names, x),
        ExprForm::Unary(_, x) => add_called(names, x),
        ExprForm::Binary(x, _, y) => {
            add_called(names, x)?;
            add_called(names, y)
        }
        ExprForm::Index(x, i) => {
            add_called(names, x)?;
            add_called(names, i)
        }
        ExprForm::Slice(x, low, high, most) => {
            add_called(names, x)?;
            add_bound(names, low)?;
            add_bound(names, high)?;
            add_bound(names, most)
        }
        ExprForm::Call(f, args, _) => {
            add_name(names, f)?;
            add_called(names, f)?;
            add_all(names, args.as_slice())
        }
        ExprForm::Name(_) => Ok(()),
        ExprForm::Int(_) => Ok(()),
        ExprForm::Rune(_) => Ok(()),
        ExprForm::Str(_) => Ok(()),
        ExprForm::Select(_, _) => Ok(()),
        ExprForm::Assert(_, _) => Ok(()),
        ExprForm::Literal(_, _) => Ok(()),
        ExprForm::Func(_, _) => Ok(()),
        ExprForm::ArrayT(_, _) => Ok(()),
        ExprForm::SliceT(_) => Ok(()),
        ExprForm::StructT(_) => Ok(()),
        ExprForm::FuncT(_) => Ok(()),
        ExprForm::InterfaceT(_) => Ok(()),
        ExprForm::MapT(_, _) => Ok(()),
        ExprForm::ChanT(_, _) => Ok(()),
    }
}

#[cycle(called)]
fn add_bound<'a>(names: &mut Vec<&'a Text>, x: &'a Option<Expr>) -> Result<(), NoMemory>
    ensures value { OnOk result (texts names.new.items ≡ texts names.old.items ++ called_in_bound (maybe_expr (option_map expr_view x.now))) }
{
    match x {
        Some(x) => add_called(names, x),
        None => Ok(()),
    }
}

#[cycle(called)]
fn add_all<'a>(names: &mut Vec<&'a Text>, xs: &'a [Expr]) -> Result<(), NoMemory>
    ensures value { OnOk result (texts names.new.items ≡ texts names.old.items ++ called_in_all (exprs_of (map expr_view xs.now))) }
{
    for x in xs {
        add_called(names, x)?;
    }
    Ok(())
}
