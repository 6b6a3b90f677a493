//! `if`, `for`, `return` and branches. Go, "If statements", "For statements", "Return statements".

use crate::assign::undeclared;
use crate::frame::Frame;
use crate::hold::{both, nothing};
use crate::sides::{Sides, as_type, exprs, one_each, return_sides};
use gj_base::{NoMemory, Place};
use go_check_expr::calls::are_typed;
use go_check_expr::expr::expr;
use go_check_operand::assignment::default_value;
use go_check_state::node::{NodeId, StmtId, StmtNode};
use go_check_state::{Checker, FaultCode, NameId, Operand, Shape};
use go_syntax::tree::{Expr, Name, Stmt, StmtForm};

/// A condition: F86 where it isn't boolean.
pub fn condition(c: &mut Checker, e: &Expr) -> Result<NodeId, NoMemory> {
    let x = expr(c, e)?;
    let x = default_value(c, x)?;
    if !x.is_unknown() && !c.is_boolean(x.ty) {
        c.fault(FaultCode::NotBoolean, e.place)?;
    }
    Ok(x.node)
}

/// The condition of a `for`, where it has one.
pub fn maybe_condition(c: &mut Checker, e: &Option<Expr>) -> Result<Option<NodeId>, NoMemory> {
    match e {
        Some(e) => Ok(Some(condition(c, e)?)),
        None => Ok(None),
    }
}

/// `if init; x {} else {}`.
pub fn if_row(
    c: &mut Checker,
    init: StmtId,
    condition: NodeId,
    when_true: StmtId,
    when_false: Option<StmtId>,
) -> Result<StmtId, NoMemory> {
    let second = c.nodes.stmt(StmtNode::If {
        condition,
        when_true,
        when_false,
    })?;
    both(c, init, second)
}

/// `for init; x; post {}`.
pub fn loop_row(
    c: &mut Checker,
    label: u32,
    init: StmtId,
    condition: Option<NodeId>,
    post: Option<StmtId>,
    body: StmtId,
) -> Result<StmtId, NoMemory> {
    let second = c.nodes.stmt(StmtNode::Loop {
        label,
        condition,
        body,
        post,
    })?;
    both(c, init, second)
}

/// Whether the last part of a `for` declares: F83, where its sides are typed.
pub fn declares(c: &mut Checker, s: &Stmt) -> Result<bool, NoMemory> {
    match &*s.form {
        StmtForm::Define(left, right) => {
            undeclared(c, s.place, left, right)?;
            Ok(true)
        }
        _ => Ok(false),
    }
}

/// `break` or `continue`: F89 without its target. Go, "Break statements", "Continue statements".
pub fn branch(
    c: &mut Checker,
    f: &mut Frame,
    place: Place,
    label: &Option<Name>,
    continues: bool,
) -> Result<StmtId, NoMemory> {
    let mut at = place;
    let mut id: Option<NameId> = None;
    if let Some(name) = label {
        let name_id = c.names.intern(name.text.as_bytes())?;
        f.use_label(name_id);
        at = name.place;
        id = Some(name_id);
    }
    match f.target(id, continues) {
        Some(number) if continues => c.nodes.stmt(StmtNode::Continue(number)),
        Some(number) => c.nodes.stmt(StmtNode::Break(number)),
        None => {
            c.fault(FaultCode::NoTarget, at)?;
            nothing(c)
        }
    }
}

/// `return x, y`: F88 with a wrong count. Go, "Return statements".
pub fn return_stmt(
    c: &mut Checker,
    f: &Frame,
    place: Place,
    list: &Vec<Expr>,
) -> Result<StmtId, NoMemory> {
    let values = exprs(c, list)?;
    let typed = are_typed(&values);
    let count = f.results.len();
    let Shape::Func(_, _, _) = c.shape(f.sig) else {
        return nothing(c);
    };
    if list.is_empty() {
        if count > 0 && !f.named {
            c.fault(FaultCode::WrongResultCount, place)?;
        }
        let none = c.nodes.list(&[])?;
        return c.nodes.stmt(StmtNode::Return(none));
    }
    let Some(sides) = returned(c, values, count)? else {
        if typed {
            c.fault(FaultCode::WrongResultCount, place)?;
        }
        return nothing(c);
    };
    let mut values: Vec<Operand> = Vec::new(c.alloc);
    for number in 0..sides.values.len() {
        if let Some(x) = sides.values.get(number).copied() {
            let t = c.result_type(f.sig, number);
            values.push(as_type(c, x, t)?)?;
        }
    }
    return_sides(c, &sides, &values)
}

// The values of a return, as many as there are results; a second result of one value is no result.
fn returned(
    c: &mut Checker,
    values: Vec<Operand>,
    count: usize,
) -> Result<Option<Sides>, NoMemory> {
    let is_several = match values.first().copied() {
        Some(x) if values.len() == 1 => {
            x.is_unknown()
                || match c.level(x.ty) {
                    Shape::Tuple(_) => true,
                    _ => false,
                }
        }
        _ => false,
    };
    if is_several {
        return one_each(c, values, count);
    }
    if values.len() != count {
        return Ok(None);
    }
    Ok(Some(Sides {
        values,
        results: None,
    }))
}
