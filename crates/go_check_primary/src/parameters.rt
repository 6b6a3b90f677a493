//! Parameter lists. Go, "Function types".

use gj_base::{NoMemory, Place, Text};
use go_check_state::{BLANK, Checker, FaultCode, NameId};
use go_syntax::tree::{ExprForm, Params};
use go_type::types::TypeId;

/// F82 at a parameter with the name of an earlier one. Answers whether there is none.
pub fn distinct(c: &mut Checker, names: &mut Vec<NameId>, list: &Params) -> Result<bool, NoMemory> {
    let mut good = true;
    for number in 0..list.items.len() {
        if let Some((at, text)) = param_name(list, number) {
            let id = c.names.intern(text.as_bytes())?;
            if id != BLANK && names.iter().any(|other| *other == id) {
                c.fault_of(FaultCode::Redeclared, at, id)?;
                good = false;
            }
            names.push(id)?;
        }
    }
    Ok(good)
}

/// F53 at a list whose types are all typed.
pub fn bad_list(c: &mut Checker, place: Place, types: &Vec<TypeId>) -> Result<(), NoMemory> {
    for t in types.iter() {
        if !c.has(*t) {
            return Ok(());
        }
    }
    c.fault(FaultCode::BadParameters, place)
}

/// Whether a parameter list has names.
pub fn has_names(list: &Params) -> bool {
    list.items.iter().any(|p| p.name.is_some())
}

/// Whether a parameter of a list with names is a name alone, whose type is that of a later one.
pub fn is_lone_name(list: &Params, number: usize) -> bool {
    match list.items.get(number) {
        Some(p) => match &*p.ty.form {
            ExprForm::Name(_) => p.name.is_none() && has_later(list, number),
            _ => false,
        },
        None => false,
    }
}

fn has_later(list: &Params, number: usize) -> bool {
    list.items.iter().skip(number).any(|p| p.name.is_some())
}

/// Whether it is a list of the specification: all named or none, and `...` at the end alone.
pub fn is_good_list(list: &Params, may_vary: bool) -> bool {
    let names = has_names(list);
    let len = list.items.len();
    for number in 0..len {
        if let Some(p) = list.items.get(number) {
            if p.variadic && (!may_vary || number + 1 < len || shares_type(list, number)) {
                return false;
            }
            if names && p.name.is_none() && (p.variadic || !is_lone_name(list, number)) {
                return false;
            }
        }
    }
    true
}

// Whether a name before takes the type of the parameter.
fn shares_type(list: &Params, number: usize) -> bool {
    number > 0 && is_lone_name(list, number - 1)
}

/// The name of a parameter with its place; none where the list has no names.
pub fn param_name(list: &Params, number: usize) -> Option<(Place, &Text)> {
    let p = list.items.get(number)?;
    match &p.name {
        Some(name) => Some((name.place, &name.text)),
        None => match &*p.ty.form {
            ExprForm::Name(text) if has_names(list) => Some((p.ty.place, text)),
            _ => None,
        },
    }
}
