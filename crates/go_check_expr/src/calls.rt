//! Calls of functions. Go, "Calls", "Passing arguments to ... parameters".

use gj_base::{NoMemory, Place};
use go_check_operand::assignment::{assignment, single_value};
use go_check_state::node::{Callee, Node, NodeId, PlaceNode, Span};
use go_check_state::{Checker, EMPTY, FaultCode, Mode, NONE, Operand, Shape};
use go_type::types::TypeId;

/// The fresh variables that hold several results, and the call that gives them.
#[derive(Clone, Copy, Debug)]
pub struct Results {
    pub vars: Span,
    pub value: NodeId,
}

/// The arguments, where the results of one call may be several: reads of fresh variables that hold them.
pub fn spread(
    c: &mut Checker,
    args: Vec<Operand>,
) -> Result<(Vec<Operand>, Option<Results>), NoMemory> {
    let Some(x) = args.first().copied() else {
        return Ok((args, None));
    };
    let Shape::Tuple(count) = c.level(x.ty) else {
        return Ok((args, None));
    };
    if args.len() != 1 {
        return Ok((args, None));
    }
    let (args, results) = results_of(c, x, count)?;
    Ok((args, Some(results)))
}

/// The several results of a call, each as a value of a fresh variable.
pub fn results_of(
    c: &mut Checker,
    x: Operand,
    count: usize,
) -> Result<(Vec<Operand>, Results), NoMemory> {
    let mut vars: Vec<u32> = Vec::new(c.alloc);
    let mut out = Vec::new(c.alloc);
    for number in 0..count {
        let t = c.item(x.ty, number);
        let var = c.fresh(EMPTY, x.place, t)?;
        vars.push(var.0)?;
        let at = c.nodes.place(PlaceNode::Local(var))?;
        out.push(c.value(x.place, t, Node::Read { ty: t, place: at })?)?;
    }
    let vars = c.nodes.list(vars.as_slice())?;
    let value = x.node;
    Ok((out, Results { vars, value }))
}

/// An operand within the fresh variables that its parts read, where there are some.
pub fn within(c: &mut Checker, results: Option<Results>, x: Operand) -> Result<Operand, NoMemory> {
    match results {
        Some(Results { vars, value }) if !x.is_unknown() => {
            let body = x.node;
            let values = c.nodes.list(&[value.0])?;
            let node = c.nodes.expr(x.place, Node::Let { vars, values, body })?;
            Ok(Operand { node, ..x })
        }
        _ => Ok(x),
    }
}

// A value in a fresh variable, so that it is evaluated before what follows, and a read of that.
fn held(
    c: &mut Checker,
    place: Place,
    ty: TypeId,
    value: NodeId,
) -> Result<(NodeId, Option<Results>), NoMemory> {
    let var = c.fresh(EMPTY, place, ty)?;
    let vars = c.nodes.list(&[var.0])?;
    let at = c.nodes.place(PlaceNode::Local(var))?;
    let read = c.nodes.expr(place, Node::Read { ty, place: at })?;
    Ok((read, Some(Results { vars, value })))
}

// What is called, with its function value or its receiver in a fresh variable.
fn held_callee(c: &mut Checker, f: Operand) -> Result<(Operand, Option<Results>), NoMemory> {
    let (node, results) = match c.nodes.get(f.node) {
        Node::Closure { .. } => return Ok((f, None)),
        Node::Bind {
            ty,
            of,
            name,
            package,
            receiver,
        } => {
            let (receiver, results) = held(c, f.place, of, receiver)?;
            let node = Node::Bind {
                ty,
                of,
                name,
                package,
                receiver,
            };
            (c.nodes.expr(f.place, node)?, results)
        }
        Node::BindDynamic {
            ty,
            of,
            name,
            package,
            receiver,
        } => {
            let (receiver, results) = held(c, f.place, of, receiver)?;
            let node = Node::BindDynamic {
                ty,
                of,
                name,
                package,
                receiver,
            };
            (c.nodes.expr(f.place, node)?, results)
        }
        _ => held(c, f.place, f.ty, f.node)?,
    };
    Ok((Operand { node, ..f }, results))
}

// What is called, by the node of the operand; a bound method's receiver is the first operand.
fn callee(c: &mut Checker, f: Operand, operands: &mut Vec<u32>) -> Result<Callee, NoMemory> {
    match c.nodes.get(f.node) {
        Node::Closure { func, .. } => Ok(Callee::Function(func)),
        Node::Bind {
            of,
            name,
            package,
            receiver,
            ..
        } => {
            operands.push(receiver.0)?;
            Ok(Callee::Method {
                ty: of,
                name,
                package,
            })
        }
        Node::BindDynamic {
            name,
            package,
            receiver,
            ..
        } => Ok(Callee::Dynamic {
            name,
            package,
            receiver,
        }),
        _ => Ok(Callee::Value(f.node)),
    }
}

/// Whether all operands are typed.
pub fn are_typed(list: &Vec<Operand>) -> bool {
    !list.iter().any(|x| x.is_unknown())
}

/// Whether each operand is one value: F52 at each other one.
pub fn are_values(c: &mut Checker, list: &Vec<Operand>) -> Result<bool, NoMemory> {
    let mut good = true;
    for x in list.iter() {
        let x = single_value(c, *x)?;
        good &= !x.is_unknown();
    }
    Ok(good)
}

/// `f(args)` of a value: F59 of no function.
pub fn call(
    c: &mut Checker,
    place: Place,
    f: Operand,
    args: Vec<Operand>,
    dots: bool,
) -> Result<Operand, NoMemory> {
    c.has_call = true;
    if !are_typed(&args) {
        return c.unknown(place);
    }
    let f = single_value(c, f)?;
    if f.is_unknown() {
        return c.unknown(place);
    }
    let Shape::Func(params, _, variadic) = c.shape(f.ty) else {
        return c.fail(FaultCode::NotAFunction, f.place);
    };
    let (f, receiver) = held_receiver(c, f);
    let (args, several) = spread(c, args)?;
    if !are_values(c, &args)? {
        return c.unknown(place);
    }
    let gathers = variadic && !dots;
    if dots && (several.is_some() || !variadic) || !fits_count(params, gathers, args.len()) {
        return c.fail(FaultCode::WrongArgumentCount, place);
    }
    let x = call_of(c, place, f, gathers, &args, several)?;
    within(c, receiver, x)
}

// A method value whose receiver stands in a fresh variable, as the method of that: the variable goes around
// the call.
fn held_receiver(c: &Checker, f: Operand) -> (Operand, Option<Results>) {
    let Node::Let { vars, values, body } = c.nodes.get(f.node) else {
        return (f, None);
    };
    match c.nodes.get(body) {
        Node::Bind { .. } | Node::BindDynamic { .. } => {
            let value = NodeId(c.nodes.item(values, 0));
            (Operand { node: body, ..f }, Some(Results { vars, value }))
        }
        _ => (f, None),
    }
}

// The call with its arguments, which may be the results of one call.
fn call_of(
    c: &mut Checker,
    place: Place,
    f: Operand,
    gathers: bool,
    args: &Vec<Operand>,
    several: Option<Results>,
) -> Result<Operand, NoMemory> {
    let Shape::Func(_, _, variadic) = c.shape(f.ty) else {
        return c.unknown(place);
    };
    match several {
        None => call_with(c, place, f, gathers, args),
        Some(results) if !variadic && are_params(c, f.ty, args) => {
            call_of_results(c, place, f, results)
        }
        Some(_) => {
            let (f, function) = held_callee(c, f)?;
            let x = call_with(c, place, f, gathers, args)?;
            let x = within(c, several, x)?;
            within(c, function, x)
        }
    }
}

// The call of a function whose parameters take the values.
fn call_with(
    c: &mut Checker,
    place: Place,
    f: Operand,
    gathers: bool,
    args: &Vec<Operand>,
) -> Result<Operand, NoMemory> {
    let mut operands: Vec<u32> = Vec::new(c.alloc);
    let callee = callee(c, f, &mut operands)?;
    if !arguments(c, place, f.ty, gathers, args, &mut operands)? {
        return c.unknown(place);
    }
    result(c, place, f.ty, callee, &operands)
}

// `f(g())` where each result of `g` has the type of a parameter.
fn call_of_results(
    c: &mut Checker,
    place: Place,
    f: Operand,
    results: Results,
) -> Result<Operand, NoMemory> {
    let mut operands: Vec<u32> = Vec::new(c.alloc);
    let callee = callee(c, f, &mut operands)?;
    operands.push(results.value.0)?;
    result(c, place, f.ty, callee, &operands)
}

// Whether each value has the type of its parameter.
fn are_params(c: &Checker, sig: TypeId, args: &Vec<Operand>) -> bool {
    for number in 0..args.len() {
        if let Some(x) = args.get(number).copied() {
            if x.ty.0 != c.param(sig, number).0 {
                return false;
            }
        }
    }
    true
}

fn fits_count(params: usize, gathers: bool, args: usize) -> bool {
    if gathers {
        args >= params.saturating_sub(1)
    } else {
        args == params
    }
}

// What a call gives.
fn result(
    c: &mut Checker,
    place: Place,
    sig: TypeId,
    callee: Callee,
    operands: &Vec<u32>,
) -> Result<Operand, NoMemory> {
    let operands = c.nodes.list(operands.as_slice())?;
    let node = Node::Call {
        sig,
        callee,
        operands,
    };
    let Shape::Func(_, results, _) = c.shape(sig) else {
        return c.unknown(place);
    };
    if results == 0 {
        return c.operand(Mode::NoValue, place, NONE, node);
    }
    if results == 1 {
        let t = c.result_type(sig, 0);
        return c.value(place, t, node);
    }
    let mut ids = Vec::new(c.alloc);
    for number in 0..results {
        ids.push(c.result_type(sig, number))?;
    }
    let t = c.tuple_of(ids)?;
    c.value(place, t, node)
}

// Each argument as a value of its parameter's type; the last parameter may gather the rest. Answers whether
// all are typed.
fn arguments(
    c: &mut Checker,
    place: Place,
    sig: TypeId,
    gathers: bool,
    args: &Vec<Operand>,
    operands: &mut Vec<u32>,
) -> Result<bool, NoMemory> {
    let Shape::Func(params, _, _) = c.shape(sig) else {
        return Ok(false);
    };
    let last = params.saturating_sub(1);
    let own = if gathers { last } else { args.len() };
    let mut known = true;
    for number in 0..own {
        if let Some(x) = args.get(number).copied() {
            let t = c.param(sig, number);
            let x = assignment(c, x, t)?;
            known &= !x.is_unknown();
            operands.push(x.node.0)?;
        }
    }
    if gathers {
        let slice = c.param(sig, last);
        let (rest, all) = elements(c, element_of(c, slice), args, last)?;
        known &= all;
        operands.push(gathered(c, place, slice, &rest)?.0)?;
    }
    Ok(known)
}

/// The arguments from one on as elements of a slice: an index and an expression of each, and whether all are
/// typed.
pub fn elements(
    c: &mut Checker,
    of: TypeId,
    args: &Vec<Operand>,
    first: usize,
) -> Result<(Vec<u32>, bool), NoMemory> {
    let mut list: Vec<u32> = Vec::new(c.alloc);
    let mut known = true;
    let mut index: u32 = 0;
    for number in first..args.len() {
        if let Some(x) = args.get(number).copied() {
            let x = assignment(c, x, of)?;
            known &= !x.is_unknown();
            list.push(index)?;
            list.push(x.node.0)?;
            index = index.saturating_add(1);
        }
    }
    Ok((list, known))
}

fn element_of(c: &Checker, slice: TypeId) -> TypeId {
    match c.shape(slice) {
        Shape::Slice(of) => of,
        _ => NONE,
    }
}

// The slice of the last arguments, nil where there are none.
fn gathered(
    c: &mut Checker,
    place: Place,
    slice: TypeId,
    rest: &Vec<u32>,
) -> Result<NodeId, NoMemory> {
    if rest.is_empty() {
        return c.nodes.expr(place, Node::Zero { ty: slice });
    }
    let elements = c.nodes.list(rest.as_slice())?;
    c.nodes.expr(
        place,
        Node::Build {
            ty: slice,
            count: elements.len / 2,
            elements,
        },
    )
}
