//! Calls that stand as statements, and `go` and `defer`. Go, "Expression statements", "Go statements",
//! "Defer statements".

use crate::callee::{Called, what_is_called};
use crate::hold::{declare_all, node_type, nothing, read_var, sequence, set_body};
use crate::select::is_receive;
use crate::sides::several;
use gj_base::{NoMemory, Place};
use go_check_expr::expr::expr;
use go_check_state::node::{Callee, FuncRef, Node, NodeId, Span, StmtId, StmtNode};
use go_check_state::state::joined;
use go_check_state::{
    Builtin, Checker, EMPTY, FaultCode, FuncRow, Mode, NO_OBJECT, Operand, Shape,
};
use go_syntax::tree::{Expr, ExprForm};
use go_type::types::TypeId;

// Whether a call may stand as a statement.
fn may_stand(called: Called) -> bool {
    match called {
        Called::Type => false,
        Called::Builtin(b) => match b {
            Builtin::Append | Builtin::Cap | Builtin::Len | Builtin::Make | Builtin::New => false,
            _ => true,
        },
        Called::Other => true,
    }
}

// Whether an expression may stand as a statement, parentheses aside. A `panic` is noted.
fn is_statement(c: &mut Checker, e: &Expr) -> Result<bool, NoMemory> {
    match &*e.form {
        ExprForm::Paren(x) => is_statement(c, x),
        ExprForm::Call(callee, _, _) => {
            let called = what_is_called(c, callee)?;
            if called == Called::Builtin(Builtin::Panic) {
                c.panics.insert(joined(e.place.file, e.place.offset))?;
            }
            Ok(may_stand(called))
        }
        _ => Ok(is_receive(e)),
    }
}

/// An expression as a statement: F93 at all but a call that may stand so, and a receive.
pub fn expr_stmt(c: &mut Checker, place: Place, list: &Vec<Expr>) -> Result<StmtId, NoMemory> {
    let Some(e) = list.first() else {
        return nothing(c);
    };
    if list.len() != 1 {
        return several(c, place, list);
    }
    let good = is_statement(c, e)?;
    let x = expr(c, e)?;
    if good {
        return performed(c, x);
    }
    if !x.is_unknown() {
        c.fault(FaultCode::UnusedExpression, place)?;
    }
    nothing(c)
}

// How many values an operand gives.
fn count_of(c: &Checker, x: Operand) -> u32 {
    if let Mode::NoValue = x.mode {
        return 0;
    }
    match c.level(x.ty) {
        Shape::Tuple(n) if n <= 65535 => n as u32,
        _ => 1,
    }
}

// The fresh variables around a node, and what stands within them.
fn opened(c: &mut Checker, parts: &mut Vec<u32>, id: NodeId) -> Result<NodeId, NoMemory> {
    let mut id = id;
    for _ in 0..u64::MAX {
        match c.nodes.get(id) {
            Node::Let { vars, values, body } => {
                declare_all(c, parts, vars, values)?;
                id = body;
            }
            _ => return Ok(id),
        }
    }
    Ok(id)
}

/// The statement of a call.
pub fn performed(c: &mut Checker, x: Operand) -> Result<StmtId, NoMemory> {
    if x.is_unknown() {
        return nothing(c);
    }
    let mut parts: Vec<u32> = Vec::new(c.alloc);
    let operand = opened(c, &mut parts, x.node)?;
    let last = match c.nodes.get(operand) {
        Node::Do(stmt) => stmt,
        _ => {
            let values = count_of(c, x);
            c.nodes.stmt(StmtNode::Perform { operand, values })?
        }
    };
    parts.push(last.0)?;
    sequence(c, &parts)
}

// Whether `go` and `defer` take a call of it.
fn may_start(called: Called) -> bool {
    match called {
        Called::Builtin(Builtin::Recover) => false,
        _ => may_stand(called),
    }
}

/// `go f(x)` or `defer f(x)`: F96 at a typed expression that is no call.
pub fn start(c: &mut Checker, place: Place, e: &Expr, defers: bool) -> Result<StmtId, NoMemory> {
    let is_call = match &*e.form {
        ExprForm::Call(callee, _, _) => may_start(what_is_called(c, callee)?),
        _ => false,
    };
    let x = expr(c, e)?;
    if x.is_unknown() {
        return nothing(c);
    }
    if !is_call {
        c.fault(FaultCode::NotACall, e.place)?;
        return nothing(c);
    }
    let mut parts: Vec<u32> = Vec::new(c.alloc);
    let operand = opened(c, &mut parts, x.node)?;
    let last = match c.nodes.get(operand) {
        Node::Call {
            callee,
            operands,
            ..
        } => started(c, callee, operands, defers)?,
        node => start_builtin(c, place, node, defers)?,
    };
    parts.push(last.0)?;
    sequence(c, &parts)
}

fn started(
    c: &mut Checker,
    callee: Callee,
    operands: Span,
    defers: bool,
) -> Result<StmtId, NoMemory> {
    let node = if defers {
        StmtNode::DeferCall { callee, operands }
    } else {
        StmtNode::GoCall { callee, operands }
    };
    c.nodes.stmt(node)
}

// A built-in goes as a direct call of a function that is made for it and takes its arguments.
fn start_builtin(
    c: &mut Checker,
    place: Place,
    node: Node,
    defers: bool,
) -> Result<StmtId, NoMemory> {
    let Some(operands) = arguments(c, node)? else {
        return nothing(c);
    };
    let outer = c.current;
    let func = made(c, place, operands)?;
    c.current = Some(func.0);
    let params = made_params(c, place, func, operands)?;
    let body = made_body(c, place, node, params)?;
    c.current = outer;
    set_body(c, func.0, params, body);
    started(c, Callee::Function(func), operands, defers)
}

// The arguments of a built-in that stands as a statement.
fn arguments(c: &mut Checker, node: Node) -> Result<Option<Span>, NoMemory> {
    let list = match node {
        Node::CopyElems { target, source, .. } => c.nodes.list(&[target.0, source.0])?,
        Node::Do(stmt) => match c.nodes.stmts.get(stmt.0 as usize).copied() {
            Some(StmtNode::Print { operands, .. }) => operands,
            Some(StmtNode::Panic(x)) | Some(StmtNode::Close(x)) => c.nodes.list(&[x.0])?,
            Some(StmtNode::Exit(x)) | Some(StmtNode::Fatal(x)) => c.nodes.list(&[x.0])?,
            Some(StmtNode::MapDelete { operand, key, .. }) => { c.nodes.list(&[operand.0, key.0])? }
            Some(StmtNode::Yield) => c.nodes.list(&[])?,
            _ => return Ok(None),
        },
        _ => return Ok(None),
    };
    Ok(Some(list))
}

// A function without results, of parameters of the operands' types.
fn made(c: &mut Checker, place: Place, operands: Span) -> Result<FuncRef, NoMemory> {
    let mut types: Vec<TypeId> = Vec::new(c.alloc);
    for number in 0..operands.len {
        let id = NodeId(c.nodes.item(operands, number));
        types.push(node_type(c, id)?)?;
    }
    let sig = c.func_of(types, Vec::new(c.alloc), false)?;
    let package = c.package;
    c.add_func(FuncRow {
        name: EMPTY,
        package,
        sig,
        place,
        parent: None,
        receiver: None,
        is_literal: false,
        scope: NO_OBJECT,
        params: Span { start: 0, len: 0 },
        body: None,
    })
}

fn made_params(
    c: &mut Checker,
    place: Place,
    func: FuncRef,
    operands: Span,
) -> Result<Span, NoMemory> {
    let sig = match c.func(func.0) {
        Some(row) => row.sig,
        None => go_check_state::NONE,
    };
    let mut vars: Vec<u32> = Vec::new(c.alloc);
    for number in 0..operands.len {
        let t = c.param(sig, number as usize);
        vars.push(c.fresh(EMPTY, place, t)?.0)?;
    }
    c.nodes.list(vars.as_slice())
}

// The built-in over the parameters.
fn made_body(c: &mut Checker, place: Place, node: Node, params: Span) -> Result<StmtId, NoMemory> {
    let mut reads: Vec<u32> = Vec::new(c.alloc);
    for number in 0..params.len {
        let var = go_check_state::node::VarRef(c.nodes.item(params, number));
        reads.push(read_var(c, place, var)?.0)?;
    }
    let operands = c.nodes.list(reads.as_slice())?;
    let x = NodeId(c.nodes.item(operands, 0));
    let y = NodeId(c.nodes.item(operands, 1));
    match node {
        Node::CopyElems { ty, from, .. } => {
            let copy = Node::CopyElems {
                ty,
                from,
                target: x,
                source: y,
            };
            let operand = c.nodes.expr(place, copy)?;
            c.nodes.stmt(StmtNode::Perform { operand, values: 1 })
        }
        Node::Do(stmt) => match c.nodes.stmts.get(stmt.0 as usize).copied() {
            Some(StmtNode::Print { ends_line, .. }) => c.nodes.stmt(StmtNode::Print {
                operands,
                ends_line,
            }),
            Some(StmtNode::Panic(_)) => c.nodes.stmt(StmtNode::Panic(x)),
            Some(StmtNode::Close(_)) => c.nodes.stmt(StmtNode::Close(x)),
            Some(StmtNode::Exit(_)) => c.nodes.stmt(StmtNode::Exit(x)),
            Some(StmtNode::Fatal(_)) => c.nodes.stmt(StmtNode::Fatal(x)),
            Some(StmtNode::MapDelete { map_type, .. }) => c.nodes.stmt(StmtNode::MapDelete {
                map_type,
                operand: x,
                key: y,
            }),
            Some(other) => c.nodes.stmt(other),
            None => nothing(c),
        },
        _ => nothing(c),
    }
}
