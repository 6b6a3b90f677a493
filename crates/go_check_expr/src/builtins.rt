//! Calls of built-in functions. Go, "Built-in functions".

use crate::calls::{are_typed, are_values, elements, spread, within};
use crate::host::host;
use gj_base::{NoMemory, Place};
use go_check_operand::assignment::{assignment, default_value, single_value};
use go_check_operand::index::index;
use go_check_state::node::{Node, NodeId, Span, StmtNode};
use go_check_state::{Builtin, Checker, FaultCode, Mode, NONE, Operand, Shape};
use go_const::Const;
use go_type::predeclared::int_id;
use go_type::types::{Dir, IntName, TypeId};

/// The name of a built-in function.
pub fn name_of(b: Builtin) -> &'static [u8] {
    match b {
        Builtin::Append => b"append",
        Builtin::Cap => b"cap",
        Builtin::Close => b"close",
        Builtin::Copy => b"copy",
        Builtin::Delete => b"delete",
        Builtin::Len => b"len",
        Builtin::Make => b"make",
        Builtin::New => b"new",
        Builtin::Panic => b"panic",
        Builtin::Print => b"print",
        Builtin::Println => b"println",
        Builtin::Recover => b"recover",
        _ => b"host",
    }
}

// F72 with the name.
fn bad(c: &mut Checker, place: Place, b: Builtin) -> Result<Operand, NoMemory> {
    let name = c.names.intern(name_of(b))?;
    c.fault_of(FaultCode::BadArguments, place, name)?;
    c.unknown(place)
}

// Whether all arguments are values: not types, and not gates.
fn takes_values(b: Builtin) -> bool {
    match b {
        Builtin::Append | Builtin::Cap | Builtin::Close | Builtin::Copy | Builtin::Delete => true,
        Builtin::Len | Builtin::Panic | Builtin::Print | Builtin::Println | Builtin::Recover =>
            true,
        _ => false,
    }
}

// How many arguments it takes, at least and at most.
fn counts(b: Builtin) -> (usize, usize) {
    match b {
        Builtin::Append => (1, usize::MAX),
        Builtin::Cap | Builtin::Close | Builtin::Len | Builtin::New | Builtin::Panic => (1, 1),
        Builtin::Copy | Builtin::Delete => (2, 2),
        Builtin::Make => (1, 3),
        Builtin::Print | Builtin::Println => (0, usize::MAX),
        Builtin::Recover | Builtin::HostYield => (0, 0),
        Builtin::HostGateAdd => (2, 2),
        _ => (1, 1),
    }
}

/// A call of a built-in function. `before` says whether an operand before this one had a call.
pub fn builtin(
    c: &mut Checker,
    place: Place,
    b: Builtin,
    args: Vec<Operand>,
    dots: bool,
    before: bool,
) -> Result<Operand, NoMemory> {
    if !are_typed(&args) {
        return c.unknown(place);
    }
    let (args, several) = match b {
        Builtin::Make | Builtin::New => (args, None),
        _ => spread(c, args)?,
    };
    if takes_values(b) && !are_values(c, &args)? {
        return c.unknown(place);
    }
    let (least, most) = counts(b);
    if dots && b != Builtin::Append || args.len() < least || args.len() > most {
        return c.fail(FaultCode::WrongArgumentCount, place);
    }
    let x = row(c, place, b, &args, dots, before)?;
    within(c, several, x)
}

fn row(
    c: &mut Checker,
    place: Place,
    b: Builtin,
    args: &Vec<Operand>,
    dots: bool,
    before: bool,
) -> Result<Operand, NoMemory> {
    let x = args.first().copied();
    let y = args.get(1).copied();
    match (b, x, y) {
        (Builtin::Len, Some(x), _) | (Builtin::Cap, Some(x), _) => {
            length(c, place, b, x, before)
        }
        (Builtin::Append, Some(x), _) => append(c, place, x, args, dots),
        (Builtin::Copy, Some(x), Some(y)) => copy(c, place, x, y),
        (Builtin::Delete, Some(x), Some(y)) => delete(c, place, x, y),
        (Builtin::Make, Some(x), _) => make(c, place, x, y, args.get(2).copied()),
        (Builtin::New, Some(x), _) => new(c, place, x),
        (Builtin::Panic, Some(x), _) => panic(c, place, x),
        (Builtin::Close, Some(x), _) => close(c, place, x),
        (Builtin::Print, _, _) | (Builtin::Println, _, _) => print(c, place, b, args),
        (Builtin::Recover, _, _) => recover(c, place),
        _ => host(c, place, b, x, y),
    }
}

/// The empty interface type.
pub fn any(c: &mut Checker) -> Result<TypeId, NoMemory> {
    c.interface_of(Vec::new(c.alloc))
}

// Go, "Length and capacity".
fn length(
    c: &mut Checker,
    place: Place,
    b: Builtin,
    x: Operand,
    before: bool,
) -> Result<Operand, NoMemory> {
    let calls = c.has_call;
    c.has_call = before;
    let x = single_value(c, x)?;
    if x.is_unknown() {
        return c.unknown(place);
    }
    let int = int_id(IntName::Int);
    if let Some(n) = constant_length(c, b, x, calls) {
        let value = c.add_const(Const::Int(n))?;
        return c.constant_operand(place, int, value);
    }
    c.has_call = true;
    if x.constant().is_some() && !c.is_string(x.ty) {
        return bad(c, place, b);
    }
    let x = default_value(c, x)?;
    if x.is_unknown() {
        return c.unknown(place);
    }
    let from = x.ty;
    let operand = x.node;
    if !has_length(c, b, from) {
        return bad(c, place, b);
    }
    match b {
        Builtin::Len => c.value(place, int, Node::Len { from, operand }),
        _ => c.value(place, int, Node::Cap { from, operand }),
    }
}

// A constant string's length, and that of an array whose operand has no call.
fn constant_length(c: &Checker, b: Builtin, x: Operand, calls: bool) -> Option<i128> {
    if let (Builtin::Len, Some(id)) = (b, x.constant()) {
        return c.text_of(id).map(|text| text.as_bytes().len() as i128);
    }
    if calls {
        return None;
    }
    match c.shape(x.ty) {
        Shape::Array(n, _) => Some(n as i128),
        Shape::Pointer(of) => match c.shape(of) {
            Shape::Array(n, _) => Some(n as i128),
            _ => None,
        },
        _ => None,
    }
}

fn has_length(c: &Checker, b: Builtin, t: TypeId) -> bool {
    match c.shape(t) {
        Shape::Str | Shape::Map(_, _) => b == Builtin::Len,
        Shape::Array(_, _) | Shape::Slice(_) | Shape::Chan(_, _) => true,
        Shape::Pointer(of) => match c.shape(of) {
            Shape::Array(_, _) => true,
            _ => false,
        },
        _ => false,
    }
}

fn is_byte(c: &Checker, t: TypeId) -> bool {
    match c.shape(t) {
        Shape::Int(IntName::Uint8) => true,
        _ => false,
    }
}

// Go, "Appending to and copying slices".
fn append(
    c: &mut Checker,
    place: Place,
    x: Operand,
    args: &Vec<Operand>,
    dots: bool,
) -> Result<Operand, NoMemory> {
    c.has_call = true;
    let x = single_value(c, x)?;
    if x.is_unknown() {
        return c.unknown(place);
    }
    let Shape::Slice(of) = c.shape(x.ty) else {
        return bad(c, place, Builtin::Append);
    };
    if dots {
        if args.len() != 2 {
            return c.fail(FaultCode::WrongArgumentCount, place);
        }
        return append_slice(c, place, x, of, args.get(1).copied());
    }
    let (list, known) = elements(c, of, args, 1)?;
    if !known {
        return c.unknown(place);
    }
    let elements = c.nodes.list(list.as_slice())?;
    let from = c.slice_of(of)?;
    let elements = build_slice(c, place, from, elements)?;
    let ty = x.ty;
    let operand = x.node;
    c.value(
        place,
        ty,
        Node::Append {
            ty,
            from,
            operand,
            elements,
        },
    )
}

fn build_slice(
    c: &mut Checker,
    place: Place,
    ty: TypeId,
    elements: Span,
) -> Result<NodeId, NoMemory> {
    c.nodes.expr(
        place,
        Node::Build {
            ty,
            count: elements.len / 2,
            elements,
        },
    )
}

// `append(x, y...)`, where y may be a string.
fn append_slice(
    c: &mut Checker,
    place: Place,
    x: Operand,
    of: TypeId,
    y: Option<Operand>,
) -> Result<Operand, NoMemory> {
    let Some(y) = y else { return c.unknown(place) };
    let y = single_value(c, y)?;
    if y.is_unknown() {
        return c.unknown(place);
    }
    let y = if is_byte(c, of) && c.is_string(y.ty) {
        default_value(c, y)?
    } else {
        let t = c.slice_of(of)?;
        assignment(c, y, t)?
    };
    if y.is_unknown() {
        return c.unknown(place);
    }
    let ty = x.ty;
    let node = Node::Append {
        ty,
        from: y.ty,
        operand: x.node,
        elements: y.node,
    };
    c.value(place, ty, node)
}

fn copy(c: &mut Checker, place: Place, x: Operand, y: Operand) -> Result<Operand, NoMemory> {
    c.has_call = true;
    let x = single_value(c, x)?;
    let y = single_value(c, y)?;
    if x.is_unknown() || y.is_unknown() {
        return c.unknown(place);
    }
    let Shape::Slice(of) = c.shape(x.ty) else {
        return bad(c, place, Builtin::Copy);
    };
    let fits = match c.shape(y.ty) {
        Shape::Slice(from) => from.0 == of.0,
        Shape::Str => is_byte(c, of),
        _ => c.is_string(y.ty) && is_byte(c, of),
    };
    if !fits {
        return bad(c, place, Builtin::Copy);
    }
    let y = default_value(c, y)?;
    let node = Node::CopyElems {
        ty: x.ty,
        from: y.ty,
        target: x.node,
        source: y.node,
    };
    c.value(place, int_id(IntName::Int), node)
}

fn delete(c: &mut Checker, place: Place, x: Operand, y: Operand) -> Result<Operand, NoMemory> {
    let x = single_value(c, x)?;
    if x.is_unknown() {
        return c.unknown(place);
    }
    let Shape::Map(key, _) = c.shape(x.ty) else {
        return bad(c, place, Builtin::Delete);
    };
    let y = assignment(c, y, key)?;
    if y.is_unknown() {
        return c.unknown(place);
    }
    let node = StmtNode::MapDelete {
        map_type: x.ty,
        operand: x.node,
        key: y.node,
    };
    done(c, place, node)
}

// A size of `make`: F72 where it is no integer, or a constant that is negative or past `int`.
fn size(
    c: &mut Checker,
    place: Place,
    x: Option<Operand>,
) -> Result<Option<Option<Operand>>, NoMemory> {
    let Some(x) = x else { return Ok(Some(None)) };
    let x = single_value(c, x)?;
    if x.is_unknown() {
        return Ok(None);
    }
    let is_good = !x.is_nil()
        && c.is_integer(x.ty)
        && match x.constant() {
            Some(id) => match c.number_of(id) {
                Some(n) => n >= 0 && n <= 2147483647,
                None => false,
            },
            None => true,
        };
    if !is_good {
        bad(c, place, Builtin::Make)?;
        return Ok(None);
    }
    let x = index(c, x, None, FaultCode::BadArguments)?;
    if x.is_unknown() {
        return Ok(None);
    }
    Ok(Some(Some(x)))
}

fn node_of(x: Option<Operand>) -> Option<NodeId> {
    match x {
        Some(x) => Some(x.node),
        None => None,
    }
}

// Whether a constant length is above a constant capacity.
fn is_above(c: &Checker, length: Option<Operand>, capacity: Option<Operand>) -> bool {
    match (length, capacity) {
        (Some(a), Some(b)) => match (a.constant(), b.constant()) {
            (Some(a), Some(b)) => match (c.number_of(a), c.number_of(b)) {
                (Some(a), Some(b)) => a > b,
                _ => false,
            },
            _ => false,
        },
        _ => false,
    }
}

// Go, "Making slices, maps and channels".
fn make(
    c: &mut Checker,
    place: Place,
    t: Operand,
    x: Option<Operand>,
    y: Option<Operand>,
) -> Result<Operand, NoMemory> {
    c.has_call = true;
    let Some(ty) = type_argument(c, t)? else {
        return c.unknown(place);
    };
    let Some(x) = size(c, place, x)? else {
        return c.unknown(place);
    };
    let Some(y) = size(c, place, y)? else {
        return c.unknown(place);
    };
    if is_above(c, x, y) {
        return bad(c, place, Builtin::Make);
    }
    let node = match (c.shape(ty), x, y) {
        (Shape::Slice(_), Some(n), _) => Node::MakeSlice {
            ty,
            length: n.node,
            capacity: node_of(y),
        },
        (Shape::Map(_, _), _, None) => Node::MakeMap {
            ty,
            count: node_of(x),
        },
        (Shape::Chan(_, _), _, None) => Node::MakeChan {
            ty,
            capacity: node_of(x),
        },
        (Shape::Slice(_), None, _) | (Shape::Map(_, _), _, Some(_)) => {
            return c.fail(FaultCode::WrongArgumentCount, place);
        }
        (Shape::Chan(_, _), _, Some(_)) => {
            return c.fail(FaultCode::WrongArgumentCount, place);
        }
        _ => return bad(c, place, Builtin::Make),
    };
    c.value(place, ty, node)
}

// The type that an argument is: F51 where it is none.
fn type_argument(c: &mut Checker, t: Operand) -> Result<Option<TypeId>, NoMemory> {
    match t.mode {
        Mode::TypeName => {
            if c.need(t.ty)? {
                Ok(Some(t.ty))
            } else {
                Ok(None)
            }
        }
        Mode::Unknown => Ok(None),
        _ => {
            c.fault(FaultCode::NotAType, t.place)?;
            Ok(None)
        }
    }
}

fn new(c: &mut Checker, place: Place, t: Operand) -> Result<Operand, NoMemory> {
    c.has_call = true;
    let Some(of) = type_argument(c, t)? else {
        return c.unknown(place);
    };
    let ty = c.pointer_to(of)?;
    c.value(place, ty, Node::New { ty: of })
}

fn panic(c: &mut Checker, place: Place, x: Operand) -> Result<Operand, NoMemory> {
    let t = any(c)?;
    let x = assignment(c, x, t)?;
    if x.is_unknown() {
        return c.unknown(place);
    }
    done(c, place, StmtNode::Panic(x.node))
}

/// A call that is a statement of the core.
pub fn done(c: &mut Checker, place: Place, node: StmtNode) -> Result<Operand, NoMemory> {
    let stmt = c.nodes.stmt(node)?;
    c.operand(Mode::NoValue, place, NONE, Node::Do(stmt))
}

// F97 at the close of a channel that only receives.
fn close(c: &mut Checker, place: Place, x: Operand) -> Result<Operand, NoMemory> {
    let x = single_value(c, x)?;
    if x.is_unknown() {
        return c.unknown(place);
    }
    match c.shape(x.ty) {
        Shape::Chan(Dir::Receive, _) => c.fail(FaultCode::BadCommunication, place),
        Shape::Chan(_, _) => done(c, place, StmtNode::Close(x.node)),
        _ => bad(c, place, Builtin::Close),
    }
}

// Go, "Bootstrapping".
fn print(
    c: &mut Checker,
    place: Place,
    b: Builtin,
    args: &Vec<Operand>,
) -> Result<Operand, NoMemory> {
    if !are_printable(c, args) {
        return bad(c, place, b);
    }
    let mut known = true;
    let mut list: Vec<u32> = Vec::new(c.alloc);
    for number in 0..args.len() {
        if let Some(x) = args.get(number).copied() {
            let x = default_value(c, x)?;
            list.push(x.node.0)?;
            known &= !x.is_unknown();
        }
    }
    if !known {
        return c.unknown(place);
    }
    let operands = c.nodes.list(list.as_slice())?;
    let ends_line = b == Builtin::Println;
    done(
        c,
        place,
        StmtNode::Print {
            operands,
            ends_line,
        },
    )
}

// Whether each is a boolean, an integer, a string, or untyped.
fn are_printable(c: &Checker, args: &Vec<Operand>) -> bool {
    for x in args.iter() {
        match c.shape(x.ty) {
            Shape::Bool | Shape::Str | Shape::Int(_) | Shape::Untyped(_) | Shape::Nil => {}
            _ => return false,
        }
    }
    true
}

fn recover(c: &mut Checker, place: Place) -> Result<Operand, NoMemory> {
    c.has_call = true;
    let ty = any(c)?;
    c.value(place, ty, Node::Recover { ty })
}
