//! Types of the syntax tree. Go, "Types".

use crate::expr::{Around, NOTHING, operand};
use gj_base::NoMemory;
use go_check_primary::interface_type::{InterfaceRows, add_interface, add_method};
use go_check_primary::parameters::{bad_list, distinct, is_good_list, is_lone_name};
pub use go_check_primary::parameters::{has_names, param_name};
use go_check_primary::struct_type::{Embedded, StructRows, add_embedded, last_name, named_fields};
use go_check_primary::type_row::wanted_type;
use go_check_state::{Checker, NONE, NameId};
use go_syntax::tree::{Expr, Field, Member, Params, Results, Sig};
use go_type::types::TypeId;

/// Inside what needs a named type to stand for something.
pub const DIRECT: Around = Around {
    direct: true,
    elided: TypeId(18446744073709551615),
};

/// The type that an expression denotes: F51 where it is something else. `direct` says whether a named
/// type there has to stand for something: not inside pointer, slice, function, map, channel and interface
/// types. Go, "Types".
pub fn type_expr(c: &mut Checker, e: &Expr, direct: bool) -> Result<TypeId, NoMemory> {
    let x = operand(c, e, if direct { DIRECT } else { NOTHING })?;
    wanted_type(c, x, direct)
}

/// The fields of a struct type, in order.
#[cycle(operand)]
pub fn fields(
    c: &mut Checker,
    list: &Vec<Field>,
    around: Around,
    out: &mut StructRows,
) -> Result<(), NoMemory> {
    for field in list {
        match field {
            Field::Named(names, t, tag) => {
                let t = operand(c, t, around)?;
                let t = wanted_type(c, t, around.direct)?;
                named_fields(c, names, t, tag, out)?;
            }
            Field::Embedded(at, star, t, tag) => {
                let name = last_name(t);
                let direct = around.direct && !*star;
                let t = operand(c, t, if direct { DIRECT } else { NOTHING })?;
                let ty = wanted_type(c, t, direct)?;
                let embedded = Embedded {
                    place: *at,
                    star: *star,
                    ty,
                };
                add_embedded(c, out, embedded, name, tag)?;
            }
        }
    }
    Ok(())
}

/// The members of an interface type, in order.
#[cycle(operand)]
pub fn members(
    c: &mut Checker,
    list: &Vec<Member>,
    out: &mut InterfaceRows,
) -> Result<(), NoMemory> {
    for member in list {
        match member {
            Member::Method(name, sig) => {
                let t = signature(c, sig)?;
                add_method(c, out, name, t)?;
            }
            Member::Embedded(e) => {
                let place = e.place;
                let t = operand(c, e, DIRECT)?;
                let t = wanted_type(c, t, true)?;
                add_interface(out, place, t)?;
            }
        }
    }
    Ok(())
}

/// A function type. Go, "Function types".
#[cycle(operand)]
pub fn signature(c: &mut Checker, sig: &Sig) -> Result<TypeId, NoMemory> {
    let distinct = distinct_names(c, sig)?;
    let params = param_types(c, &sig.params, true)?;
    let results = result_types(c, &sig.results)?;
    let Some((params, variadic)) = params else {
        return Ok(NONE);
    };
    let Some((results, _)) = results else {
        return Ok(NONE);
    };
    if !distinct {
        return Ok(NONE);
    }
    c.func_of(params, results, variadic)
}

// F82 at a parameter or a result with the name of an earlier one.
fn distinct_names(c: &mut Checker, sig: &Sig) -> Result<bool, NoMemory> {
    let mut names: Vec<NameId> = Vec::new(c.alloc);
    let params = distinct(c, &mut names, &sig.params)?;
    match &sig.results {
        Results::List(list) => Ok(distinct(c, &mut names, list)? && params),
        _ => Ok(params),
    }
}

/// The types of results, as of parameters.
#[cycle(operand)]
pub fn result_types(
    c: &mut Checker,
    results: &Results,
) -> Result<Option<(Vec<TypeId>, bool)>, NoMemory> {
    let mut types: Vec<TypeId> = Vec::new(c.alloc);
    match results {
        Results::None => Ok(Some((types, false))),
        Results::Type(e) => {
            let t = operand(c, e, NOTHING)?;
            let t = wanted_type(c, t, false)?;
            types.push(t)?;
            Ok(Some((types, false)))
        }
        Results::List(list) => param_types(c, list, false),
    }
}

/// The types of a parameter list, and whether the last one may have any number of arguments: F53 where it
/// is none, though its types are.
#[cycle(operand)]
pub fn param_types(
    c: &mut Checker,
    list: &Params,
    may_vary: bool,
) -> Result<Option<(Vec<TypeId>, bool)>, NoMemory> {
    let names = has_names(list);
    let mut types: Vec<TypeId> = Vec::new(c.alloc);
    let mut waiting = 0usize;
    let mut varies = false;
    let mut number = 0usize;
    for p in &list.items {
        if names && is_lone_name(list, number) {
            waiting = waiting.saturating_add(1);
        } else {
            let t = operand(c, &p.ty, NOTHING)?;
            let t = wanted_type(c, t, false)?;
            let t = if p.variadic { c.slice_of(t)? } else { t };
            varies = p.variadic;
            for _ in 0..waiting {
                types.push(t)?;
            }
            waiting = 0;
            types.push(t)?;
        }
        number = number.saturating_add(1);
    }
    if is_good_list(list, may_vary) {
        return Ok(Some((types, varies)));
    }
    bad_list(c, list.place, &types)?;
    Ok(None)
}
