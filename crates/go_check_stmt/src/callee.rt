//! What a call calls, by its tree alone: for the places that take some calls and not others.

use gj_base::{NoMemory, Text};
use go_check_state::scope::UNIVERSE;
use go_check_state::{Builtin, Checker, Entity};
use go_syntax::tree::{Expr, ExprForm, Prefix};

/// What is called.
#[derive(Clone, Copy, Debug, PartialEq, Eq)]
pub enum Called {
    Type,
    Builtin(Builtin),
    Other,
}

/// What the operand of a call is.
pub fn what_is_called(c: &mut Checker, f: &Expr) -> Result<Called, NoMemory> {
    match &*f.form {
        ExprForm::Paren(x) => what_is_called(c, x),
        ExprForm::Name(text) => named(c, text),
        ExprForm::Select(x, name) => match &*x.form {
            ExprForm::Name(text) => member(c, text, &name.text),
            _ => Ok(Called::Other),
        },
        ExprForm::Unary(Prefix::Star, x) => match what_is_called(c, x)? {
            Called::Type => Ok(Called::Type),
            _ => Ok(Called::Other),
        },
        ExprForm::ArrayT(_, _)
        | ExprForm::SliceT(_)
        | ExprForm::StructT(_)
        | ExprForm::FuncT(_)
        | ExprForm::InterfaceT(_)
        | ExprForm::MapT(_, _)
        | ExprForm::ChanT(_, _) => Ok(Called::Type),
        _ => Ok(Called::Other),
    }
}

fn of_object(c: &Checker, found: Option<u32>) -> Called {
    let Some(id) = found else {
        return Called::Other;
    };
    match c.object(id) {
        Some(object) => match object.entity {
            Entity::TypeName(_) => Called::Type,
            Entity::Builtin(b) => Called::Builtin(b),
            _ => Called::Other,
        },
        None => Called::Other,
    }
}

fn named(c: &mut Checker, text: &Text) -> Result<Called, NoMemory> {
    let id = c.names.intern(text.as_bytes())?;
    let found = c.lookup(id);
    let _ = UNIVERSE;
    Ok(of_object(c, found))
}

fn member(c: &mut Checker, package: &Text, text: &Text) -> Result<Called, NoMemory> {
    let id = c.names.intern(package.as_bytes())?;
    let Some(found) = c.lookup(id) else {
        return Ok(Called::Other);
    };
    let Some(object) = c.object(found) else {
        return Ok(Called::Other);
    };
    let Entity::Package(number) = object.entity else {
        return Ok(Called::Other);
    };
    let id = c.names.intern(text.as_bytes())?;
    Ok(of_object(c, c.member(number, id)))
}
