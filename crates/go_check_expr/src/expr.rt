//! Expressions of the syntax tree. Go, "Expressions".

use crate::builtins::builtin;
use crate::calls::call;
use crate::conversion_row::conversion_call;
use crate::literal::{begin, elided_type, end, literal};
use crate::types::{DIRECT, fields, members, signature};
use gj_base::{NoMemory, Op, Place};
use go_check_operand::binary::binary;
use go_check_operand::unary::unary;
use go_check_primary::basic_literal::{int, rune, string};
use go_check_primary::index_row::{assertion, index_row, receive, slice_row};
use go_check_primary::interface_type::{interface_rows, interface_type};
use go_check_primary::names::{member, name};
use go_check_primary::selectors::{address_of, address_of_literal, indirection, selector};
use go_check_primary::struct_type::{struct_rows, struct_type};
use go_check_primary::type_row::{array_length, array_type, direction, map_type, wanted_type};
use go_check_state::names::EMPTY;
use go_check_state::node::{Node, Span};
use go_check_state::state::{FuncRow, joined};
use go_check_state::{Checker, FaultCode, Mode, Operand};
use go_syntax::tree::{Expr, ExprForm, Name, Prefix};
use go_type::types::TypeId;

/// What stands around an expression: whether a named type there has to stand for something, and the type
/// of a literal that leaves its own out.
#[derive(Clone, Copy, Debug)]
pub struct Around {
    pub direct: bool,
    pub elided: TypeId,
}

/// Nothing that matters.
pub const NOTHING: Around = Around {
    direct: false,
    elided: TypeId(18446744073709551615),
};

/// What an expression is, a type included. Go, "Expressions".
pub fn expr(c: &mut Checker, e: &Expr) -> Result<Operand, NoMemory> {
    operand(c, e, NOTHING)
}

/// The same of expressions, in order.
#[cycle(operand)]
pub fn operands(c: &mut Checker, list: &Vec<Expr>) -> Result<Vec<Operand>, NoMemory> {
    let mut out: Vec<Operand> = Vec::new(c.alloc);
    for e in list {
        out.push(operand(c, e, NOTHING)?)?;
    }
    Ok(out)
}

/// What an expression is in what stands around it: its parts are typed, and its row joins them.
///
/// Forms are apart by families, so that a level of a deep tree takes little room.
#[cycle(operand)]
pub fn operand(c: &mut Checker, e: &Expr, around: Around) -> Result<Operand, NoMemory> {
    let x = form(c, e, around)?;
    finished(c, e.place, x)
}

#[cycle(operand)]
fn form(c: &mut Checker, e: &Expr, around: Around) -> Result<Operand, NoMemory> {
    match &*e.form {
        ExprForm::Name(_) | ExprForm::Int(_) | ExprForm::Rune(_) | ExprForm::Str(_) => leaf(c, e),
        ExprForm::Paren(x) => operand(c, x, around),
        ExprForm::Unary(_, _) => operation(c, e),
        ExprForm::Binary(_, _, _) => chain(c, e),
        ExprForm::Select(_, _) | ExprForm::Index(_, _) | ExprForm::Assert(_, _) => primary(c, e),
        ExprForm::Slice(_, _, _, _) => slice_form(c, e),
        ExprForm::Call(_, _, _) => call_form(c, e),
        ExprForm::Literal(_, _) => literal_form(c, e, around),
        ExprForm::ArrayT(_, _) | ExprForm::SliceT(_) => list_type(c, e, around),
        ExprForm::MapT(_, _) | ExprForm::ChanT(_, _) => reference_type(c, e),
        _ => listed_type(c, e, around),
    }
}

// Go, "Operands", "Identifiers".
fn leaf(c: &mut Checker, e: &Expr) -> Result<Operand, NoMemory> {
    match &*e.form {
        ExprForm::Name(text) => name(c, e.place, text),
        ExprForm::Int(text) => int(c, e.place, text),
        ExprForm::Rune(text) => rune(c, e.place, text),
        ExprForm::Str(text) => string(c, e.place, text),
        _ => c.unknown(e.place),
    }
}

// Go, "Operators".
#[cycle(operand)]
fn operation(c: &mut Checker, e: &Expr) -> Result<Operand, NoMemory> {
    match &*e.form {
        ExprForm::Unary(prefix, x) => {
            let literal = is_literal(x);
            let x = operand(c, x, NOTHING)?;
            unary_row(c, e.place, *prefix, x, literal)
        }
        _ => c.unknown(e.place),
    }
}

// Two operands, of which the left one may be the same chain's: a link takes the room of this function alone.
#[cycle(operand)]
fn chain(c: &mut Checker, e: &Expr) -> Result<Operand, NoMemory> {
    match &*e.form {
        ExprForm::Binary(x, op, y) => {
            let x = match &*x.form {
                ExprForm::Binary(_, _, _) => chain(c, x)?,
                _ => operand(c, x, NOTHING)?,
            };
            let y = operand(c, y, NOTHING)?;
            let z = binary(c, e.place, *op, x, y)?;
            finished(c, e.place, z)
        }
        _ => c.unknown(e.place),
    }
}

// Go, "Selectors", "Index expressions", "Type assertions".
#[cycle(operand)]
fn primary(c: &mut Checker, e: &Expr) -> Result<Operand, NoMemory> {
    match &*e.form {
        ExprForm::Select(x, name) => {
            let x = operand(c, x, NOTHING)?;
            select_row(c, e.place, x, name)
        }
        ExprForm::Index(x, i) => {
            let x = operand(c, x, NOTHING)?;
            let i = operand(c, i, NOTHING)?;
            index_row(c, e.place, x, i)
        }
        ExprForm::Assert(x, t) => {
            let x = operand(c, x, NOTHING)?;
            let t = operand(c, t, NOTHING)?;
            let t = wanted_type(c, t, false)?;
            assertion(c, e.place, x, t)
        }
        _ => c.unknown(e.place),
    }
}

// Go, "Slice expressions".
#[cycle(operand)]
fn slice_form(c: &mut Checker, e: &Expr) -> Result<Operand, NoMemory> {
    match &*e.form {
        ExprForm::Slice(x, low, high, max) => {
            let x = operand(c, x, NOTHING)?;
            let low = bound(c, low)?;
            let high = bound(c, high)?;
            let max = bound(c, max)?;
            slice_row(c, e.place, x, low, high, max)
        }
        _ => c.unknown(e.place),
    }
}

#[cycle(operand)]
fn bound(c: &mut Checker, e: &Option<Expr>) -> Result<Option<Operand>, NoMemory> {
    match e {
        Some(e) => Ok(Some(operand(c, e, NOTHING)?)),
        None => Ok(None),
    }
}

// Go, "Calls".
#[cycle(operand)]
fn call_form(c: &mut Checker, e: &Expr) -> Result<Operand, NoMemory> {
    match &*e.form {
        ExprForm::Call(f, args, dots) => {
            let f = operand(c, f, NOTHING)?;
            let before = c.has_call;
            c.has_call = false;
            let args = operands(c, args)?;
            call_row(c, e.place, f, args, *dots, before)
        }
        _ => c.unknown(e.place),
    }
}

// Go, "Composite literals".
#[cycle(operand)]
fn literal_form(c: &mut Checker, e: &Expr, around: Around) -> Result<Operand, NoMemory> {
    match &*e.form {
        ExprForm::Literal(Some(t), elems) => {
            let (t, counts) = literal_type(c, t)?;
            let mut b = begin(c, e.place, t, counts);
            literal(c, &mut b, elems)?;
            end(c, &b)
        }
        ExprForm::Literal(None, elems) => {
            let (t, points) = elided_type(c, around.elided);
            let mut b = begin(c, e.place, t, false);
            literal(c, &mut b, elems)?;
            let x = end(c, &b)?;
            if points {
                return address_of_literal(c, e.place, x);
            }
            Ok(x)
        }
        _ => c.unknown(e.place),
    }
}

// The type of a literal, or of its elements, which are then counted.
#[cycle(operand)]
fn literal_type(c: &mut Checker, t: &Expr) -> Result<(TypeId, bool), NoMemory> {
    match &*t.form {
        ExprForm::ArrayT(None, of) => {
            let of = operand(c, of, DIRECT)?;
            Ok((wanted_type(c, of, true)?, true))
        }
        _ => {
            let t = operand(c, t, DIRECT)?;
            Ok((wanted_type(c, t, true)?, false))
        }
    }
}

// Go, "Array types", "Slice types".
#[cycle(operand)]
fn list_type(c: &mut Checker, e: &Expr, around: Around) -> Result<Operand, NoMemory> {
    match &*e.form {
        ExprForm::ArrayT(Some(n), of) => {
            let n = operand(c, n, NOTHING)?;
            let n = array_length(c, n)?;
            let of = operand(c, of, around)?;
            let of = wanted_type(c, of, around.direct)?;
            let t = array_type(c, e.place, n, of)?;
            type_operand(c, e.place, t)
        }
        ExprForm::ArrayT(None, of) => {
            c.fault(FaultCode::BadArrayLength, e.place)?;
            operand(c, of, around)?;
            c.unknown(e.place)
        }
        ExprForm::SliceT(of) => {
            let of = operand(c, of, NOTHING)?;
            let of = wanted_type(c, of, false)?;
            let t = c.slice_of(of)?;
            type_operand(c, e.place, t)
        }
        _ => c.unknown(e.place),
    }
}

// Go, "Map types", "Channel types".
#[cycle(operand)]
fn reference_type(c: &mut Checker, e: &Expr) -> Result<Operand, NoMemory> {
    match &*e.form {
        ExprForm::MapT(key, of) => {
            let at = key.place;
            let key = operand(c, key, DIRECT)?;
            let key = wanted_type(c, key, true)?;
            let of = operand(c, of, NOTHING)?;
            let of = wanted_type(c, of, false)?;
            let t = map_type(c, at, key, of)?;
            type_operand(c, e.place, t)
        }
        ExprForm::ChanT(dir, of) => {
            let of = operand(c, of, NOTHING)?;
            let of = wanted_type(c, of, false)?;
            let t = c.chan_of(direction(*dir), of)?;
            type_operand(c, e.place, t)
        }
        _ => c.unknown(e.place),
    }
}

// Go, "Function literals", "Function types", "Struct types", "Interface types".
#[cycle(operand)]
fn listed_type(c: &mut Checker, e: &Expr, around: Around) -> Result<Operand, NoMemory> {
    match &*e.form {
        ExprForm::Func(sig, _) => {
            let t = signature(c, sig)?;
            function_literal(c, e.place, t)
        }
        ExprForm::FuncT(sig) => {
            let t = signature(c, sig)?;
            type_operand(c, e.place, t)
        }
        ExprForm::StructT(list) => {
            let mut rows = struct_rows(c);
            fields(c, list, around, &mut rows)?;
            let t = struct_type(c, e.place, rows)?;
            type_operand(c, e.place, t)
        }
        ExprForm::InterfaceT(list) => {
            let mut rows = interface_rows(c);
            members(c, list, &mut rows)?;
            let t = interface_type(c, e.place, rows)?;
            type_operand(c, e.place, t)
        }
        _ => c.unknown(e.place),
    }
}

// An operand whose type stands for nothing yet isn't typed. A constant in parentheses stands where they begin.
fn finished(c: &mut Checker, place: Place, x: Operand) -> Result<Operand, NoMemory> {
    if !x.is_type() && c.has(x.ty) && !c.need_parts(x.ty)? {
        return c.unknown(place);
    }
    match x.mode {
        Mode::Constant(value) if x.place.offset != place.offset => {
            c.constant_operand(place, x.ty, value)
        }
        _ => Ok(Operand { place, ..x }),
    }
}

fn type_operand(c: &mut Checker, place: Place, t: TypeId) -> Result<Operand, NoMemory> {
    if c.has(t) {
        c.plain(Mode::TypeName, place, t)
    } else {
        c.unknown(place)
    }
}

// Whether an expression is a literal, parentheses aside.
fn is_literal(e: &Expr) -> bool {
    match &*e.form {
        ExprForm::Literal(_, _) => true,
        ExprForm::Paren(x) => is_literal(x),
        _ => false,
    }
}

// Go, "Address operators", "Receive operator".
fn unary_row(
    c: &mut Checker,
    place: Place,
    prefix: Prefix,
    x: Operand,
    literal: bool,
) -> Result<Operand, NoMemory> {
    match prefix {
        Prefix::Plus => unary(c, place, Op::Plus, x),
        Prefix::Neg => unary(c, place, Op::Neg, x),
        Prefix::Not => unary(c, place, Op::Not, x),
        Prefix::Compl => unary(c, place, Op::Compl, x),
        Prefix::Star if x.is_type() => {
            let t = c.pointer_to(x.ty)?;
            type_operand(c, place, t)
        }
        Prefix::Star => indirection(c, place, x),
        Prefix::Address if literal => address_of_literal(c, place, x),
        Prefix::Address => address_of(c, place, x),
        Prefix::Receive => receive(c, place, x),
    }
}

// Go, "Selectors", "Qualified identifiers".
fn select_row(c: &mut Checker, place: Place, x: Operand, name: &Name) -> Result<Operand, NoMemory> {
    if let Mode::Package(package) = x.mode {
        return member(c, place, package, name.place, &name.text);
    }
    let id = c.names.intern(name.text.as_bytes())?;
    selector(c, place, x, name.place, id)
}

// Go, "Calls", "Conversions", "Built-in functions".
fn call_row(
    c: &mut Checker,
    place: Place,
    f: Operand,
    operands: Vec<Operand>,
    dots: bool,
    before: bool,
) -> Result<Operand, NoMemory> {
    match f.mode {
        Mode::TypeName => {
            c.has_call |= before;
            conversion_call(c, place, f.ty, &operands, dots)
        }
        Mode::Builtin(b) => builtin(c, place, b, operands, dots, before),
        _ => call(c, place, f, operands, dots),
    }
}

// Its body is typed by what goes over the statements, in the scope that then stands.
fn function_literal(c: &mut Checker, place: Place, t: TypeId) -> Result<Operand, NoMemory> {
    let func = c.add_func(FuncRow {
        name: EMPTY,
        package: c.package,
        sig: t,
        place,
        parent: c.current,
        receiver: None,
        is_literal: true,
        scope: c.head,
        params: Span { start: 0, len: 0 },
        body: None,
    })?;
    c.literals.insert(joined(place.file, place.offset), func.0)?;
    if !c.has(t) {
        return c.unknown(place);
    }
    c.value(place, t, Node::Closure { ty: t, func })
}
