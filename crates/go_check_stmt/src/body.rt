//! Bodies of functions and of function literals. Go, "Function declarations", "Function literals".

use crate::frame::Frame;
use crate::hold::set_body;
use crate::labels::labels_in;
use crate::literals::{Literals, in_stmts};
use crate::stmt::{NONE_OF_THEM, stmt_list};
use crate::terminating::ends;
use gj_base::{NoMemory, Place};
use go_check_expr::types::{param_types, result_types};
use go_check_primary::parameters::{has_names, param_name};
use go_check_state::node::VarRef;
use go_check_state::state::joined;
use go_check_state::{Checker, EMPTY, Entity, FaultCode, FuncRow, NONE, NameId, Shape};
use go_syntax::tree::{Block, Params, Results, Sig};
use go_type::types::TypeId;

fn parameter(
    c: &mut Checker,
    vars: &mut Vec<u32>,
    name: NameId,
    place: Place,
    t: TypeId,
) -> Result<VarRef, NoMemory> {
    let var = c.fresh(name, place, t)?;
    vars.push(var.0)?;
    if name != EMPTY {
        c.declare(name, place, Entity::Local(var.0, t), false)?;
    }
    Ok(var)
}

// The names and the places of parameters.
fn named(
    c: &mut Checker,
    list: &Params,
    number: usize,
    place: Place,
) -> Result<(NameId, Place), NoMemory> {
    match param_name(list, number) {
        Some((at, text)) => Ok((c.names.intern(text.as_bytes())?, at)),
        None => Ok((EMPTY, place)),
    }
}

// The types of the parameters: those of the signature, or where that isn't typed each by itself.
fn types_of(c: &mut Checker, sig: TypeId, list: &Params) -> Result<Vec<TypeId>, NoMemory> {
    let mut types: Vec<TypeId> = Vec::new(c.alloc);
    if c.has(sig) {
        for number in 0..list.items.len() {
            types.push(c.param(sig, number))?;
        }
        return Ok(types);
    }
    match param_types(c, list, true)? {
        Some((types, _)) => Ok(types),
        None => Ok(types),
    }
}

// The types of the results, as of parameters.
fn types_of_results(
    c: &mut Checker,
    sig: TypeId,
    results: &Results,
) -> Result<Vec<TypeId>, NoMemory> {
    let mut types: Vec<TypeId> = Vec::new(c.alloc);
    if let Shape::Func(_, count, _) = c.shape(sig) {
        for number in 0..count {
            types.push(c.result_type(sig, number))?;
        }
        return Ok(types);
    }
    match result_types(c, results)? {
        Some((types, _)) => Ok(types),
        None => Ok(types),
    }
}

fn declare_params(
    c: &mut Checker,
    vars: &mut Vec<u32>,
    types: &Vec<TypeId>,
    list: &Params,
) -> Result<(), NoMemory> {
    for number in 0..list.items.len() {
        let (name, at) = named(c, list, number, list.place)?;
        let t = types.get(number).copied().unwrap_or(NONE);
        parameter(c, vars, name, at, t)?;
    }
    Ok(())
}

fn declare_results(
    c: &mut Checker,
    f: &mut Frame,
    vars: &mut Vec<u32>,
    types: &Vec<TypeId>,
    results: &Results,
    place: Place,
) -> Result<(), NoMemory> {
    match results {
        Results::None => Ok(()),
        Results::Type(_) => {
            let t = types.first().copied().unwrap_or(NONE);
            let var = parameter(c, vars, EMPTY, place, t)?;
            f.results.push(var)?;
            Ok(())
        }
        Results::List(list) => {
            f.named = has_names(list);
            for number in 0..list.items.len() {
                let (name, at) = named(c, list, number, list.place)?;
                let t = types.get(number).copied().unwrap_or(NONE);
                let var = parameter(c, vars, name, at, t)?;
                f.results.push(var)?;
            }
            Ok(())
        }
    }
}

// The receiver of a method, which is a parameter before the others.
fn declare_receiver(
    c: &mut Checker,
    vars: &mut Vec<u32>,
    receiver: Option<&Params>,
    t: Option<TypeId>,
) -> Result<(), NoMemory> {
    if let Some(list) = receiver {
        let (name, at) = named(c, list, 0, list.place)?;
        parameter(c, vars, name, at, t.unwrap_or(NONE))?;
    }
    Ok(())
}

fn returns_nothing(results: &Results) -> bool {
    match results {
        Results::None => true,
        Results::Type(_) => false,
        Results::List(list) => list.items.is_empty(),
    }
}

/// A function whose body is to be typed; a literal's stands in the scope of its row.
#[derive(Clone, Copy)]
pub struct BodyRow<'a> {
    pub func: u32,
    pub receiver: Option<&'a Params>,
    pub sig: &'a Sig,
    pub block: &'a Block,
}

/// The bodies of functions, and of the literals within them.
pub fn bodies<'a>(c: &mut Checker, rows: Vec<BodyRow<'a>>) -> Result<(), NoMemory> {
    let mut rest = rows;
    for _ in 0..u64::MAX {
        let Some(row) = rest.pop() else {
            return Ok(());
        };
        function_body(c, row)?;
        let mut literals = Literals {
            rows: Vec::new(c.alloc),
        };
        in_stmts(&mut literals, &row.block.stmts)?;
        add_literals(c, &mut rest, &literals)?;
    }
    Ok(())
}

/// The bodies of function literals that were typed.
pub fn add_literals<'a>(
    c: &Checker,
    rows: &mut Vec<BodyRow<'a>>,
    literals: &Literals<'a>,
) -> Result<(), NoMemory> {
    for row in literals.rows.iter() {
        if let Some(func) = c
            .literals
            .get(&joined(row.place.file, row.place.offset))
            .copied()
        {
            rows.push(BodyRow {
                func,
                receiver: None,
                sig: row.sig,
                block: row.block,
            })?;
        }
    }
    Ok(())
}

// Enters the package, the file and the scope of a function.
fn enter(c: &mut Checker, func: u32, row: FuncRow) {
    c.package = row.package;
    c.file = row.place.file;
    c.head = row.scope;
    c.current = Some(func);
}

// The body of a function: F87 at its end where it has results and may run to the end, and all is typed.
fn function_body(c: &mut Checker, body: BodyRow<'_>) -> Result<(), NoMemory> {
    let Some(row) = c.func(body.func) else {
        return Ok(());
    };
    enter(c, body.func, row);
    let types = types_of(c, row.sig, &body.sig.params)?;
    let results = types_of_results(c, row.sig, &body.sig.results)?;
    c.open()?;
    let mut f = Frame::new(c.alloc, row.sig);
    let mut vars: Vec<u32> = Vec::new(c.alloc);
    let block = body.block;
    declare_receiver(c, &mut vars, body.receiver, row.receiver)?;
    declare_params(c, &mut vars, &types, &body.sig.params)?;
    declare_results(
        c,
        &mut f,
        &mut vars,
        &results,
        &body.sig.results,
        block.place,
    )?;
    let start = c.mark();
    labels_in(c, &mut f, &block.stmts)?;
    let core = stmt_list(c, &mut f, &block.stmts, NONE_OF_THEM)?;
    f.tell_labels(c)?;
    c.close();
    c.current = None;
    let fault = if returns_nothing(&body.sig.results) || ends(c, &block.stmts) {
        None
    } else {
        Some((FaultCode::MissingReturn, block.end))
    };
    c.end_body(body.func, c.has(row.sig), fault, start)?;
    let params = c.nodes.list(vars.as_slice())?;
    set_body(c, body.func, params, core);
    Ok(())
}
