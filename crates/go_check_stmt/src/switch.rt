//! Switches. Go, "Expression switches", "Type switches".

use crate::hold::{declare_with, nothing, read_var, sequence};
use crate::labels::last_label;
use gj_base::{NoMemory, Op, Place};
use go_check_expr::expr::expr;
use go_check_operand::assignment::{default_value, single_value};
use go_check_operand::binary::binary;
use go_check_state::node::{ConstId, Node, NodeId, StmtId, StmtNode, VarRef};
use go_check_state::state::SymbolRow;
use go_check_state::{BLANK, Checker, EMPTY, Entity, FaultCode, Mark, Mode, NONE, NameId, Operand};
use go_const::Const;
use go_syntax::tree::{Clause, Expr, Name, Stmt, StmtForm};
use go_type::predeclared::BOOL;
use go_type::types::TypeId;
use std::collections::BTreeSet;

/// How many clauses a switch may have.
const MOST_CLAUSES: usize = 1000;

/// A switch so far: its operand, its tests and clauses, and the cases that were there.
#[derive(Drop)]
pub struct Switch {
    label: u32,
    x: Operand,
    /// Whether the tag is missing.
    bare: bool,
    parts: Vec<u32>,
    tests: Vec<u32>,
    clauses: Vec<u32>,
    default: Option<u32>,
    /// The numbers, the truth values and the numbers of the texts of the cases so far, with their types.
    consts: BTreeSet<(u64, i128)>,
    types: BTreeSet<u64>,
    nil: bool,
    symbol: Option<(NameId, Place)>,
    /// The symbol's objects, one for each clause.
    objects: Vec<u32>,
    start: Mark,
    /// The place of one with too many clauses, and that of its last label.
    too_many: Option<(Place, Place)>,
}

fn begin(c: &Checker, x: Operand, bare: bool, parts: Vec<u32>, start: Mark) -> Switch {
    Switch {
        label: 0,
        x,
        bare,
        parts,
        tests: Vec::new(c.alloc),
        clauses: Vec::new(c.alloc),
        default: None,
        consts: BTreeSet::new(c.alloc),
        types: BTreeSet::new(c.alloc),
        nil: false,
        symbol: None,
        objects: Vec::new(c.alloc),
        start,
        too_many: None,
    }
}

// F92 at a second default. Answers the place of a switch with more clauses than may be, and of its last label.
fn count_clauses(
    c: &mut Checker,
    place: Place,
    clauses: &Vec<Clause>,
) -> Result<Option<(Place, Place)>, NoMemory> {
    let mut seen = false;
    for clause in clauses {
        if clause.exprs.is_empty() {
            if seen {
                c.fault(FaultCode::DuplicateCase, clause.place)?;
            }
            seen = true;
        }
    }
    if clauses.len() <= MOST_CLAUSES {
        return Ok(None);
    }
    let mut last = place;
    for clause in clauses {
        last = last_label(c, &clause.body, last)?;
    }
    Ok(Some((place, last)))
}

// An operand that is evaluated once.
fn once(c: &mut Checker, parts: &mut Vec<u32>, x: Operand) -> Result<Operand, NoMemory> {
    if x.is_unknown() {
        return Ok(x);
    }
    let var = c.fresh(EMPTY, x.place, x.ty)?;
    declare_with(c, parts, var, x.node)?;
    let node = read_var(c, x.place, var)?;
    Ok(Operand {
        mode: Mode::Value,
        node,
        ..x
    })
}

/// `switch init; x {`: the init is done, the clauses follow.
pub fn begin_switch(
    c: &mut Checker,
    place: Place,
    init: StmtId,
    tag: &Option<Expr>,
    clauses: &Vec<Clause>,
) -> Result<Switch, NoMemory> {
    let start = c.mark();
    let mut parts: Vec<u32> = Vec::new(c.alloc);
    parts.push(init.0)?;
    let x = match tag {
        Some(e) => {
            let x = expr(c, e)?;
            let x = default_value(c, x)?;
            once(c, &mut parts, x)?
        }
        None => missing_tag(c, place)?,
    };
    let too_many = count_clauses(c, place, clauses)?;
    let mut g = begin(c, x, tag.is_none(), parts, start);
    g.too_many = too_many;
    Ok(g)
}

// A tag that is missing is `true`.
fn missing_tag(c: &mut Checker, place: Place) -> Result<Operand, NoMemory> {
    let value = c.add_const(Const::Bool(true))?;
    let x = c.constant_operand(place, BOOL, value)?;
    Ok(Operand {
        mode: Mode::Value,
        ..x
    })
}

impl Switch {
    /// The label of the switch, which its branches name.
    pub fn set_label(&mut self, label: u32) {
        self.label = label;
    }
}

// The number of the clause that comes next.
fn next_clause(g: &Switch) -> u32 {
    let number = g.clauses.len() / 2;
    if number > MOST_CLAUSES {
        1000
    } else {
        number as u32
    }
}

/// The cases of the next clause.
pub fn cases(c: &mut Checker, g: &mut Switch, clause: &Clause) -> Result<(), NoMemory> {
    for e in &clause.exprs {
        case(c, g, e)?;
    }
    if clause.exprs.is_empty() {
        g.default = Some(next_clause(g));
    }
    Ok(())
}

// A case is compared with the tag: F92 at a constant that was there.
fn case(c: &mut Checker, g: &mut Switch, e: &Expr) -> Result<(), NoMemory> {
    let x = expr(c, e)?;
    let test = binary(c, e.place, Op::Eq, x, g.x)?;
    if test.is_unknown() {
        return Ok(());
    }
    let test = default_value(c, test)?;
    add_test(c, g, test.node)?;
    let Some((id, t)) = case_constant(c, x, test) else {
        return Ok(());
    };
    let Some(number) = constant_number(c, id)? else {
        return Ok(());
    };
    if !g.consts.insert((t.0, number))? {
        return c.fault(FaultCode::DuplicateCase, e.place);
    }
    Ok(())
}

// A number that is another for each constant of a type.
fn constant_number(c: &mut Checker, id: ConstId) -> Result<Option<i128>, NoMemory> {
    let bytes = match c.constant(id) {
        Some(Const::Text(text)) => Vec::from_slice(c.alloc, text.as_bytes())?,
        Some(Const::Int(x)) | Some(Const::Rune(x)) => return Ok(Some(*x)),
        Some(Const::Bool(x)) => return Ok(Some(if *x { 1 } else { 0 })),
        None => return Ok(None),
    };
    let name = c.names.intern(bytes.as_slice())?;
    Ok(Some(name.0 as i128))
}

// A test; without a tag the case alone is one.
fn add_test(c: &Checker, g: &mut Switch, test: NodeId) -> Result<(), NoMemory> {
    let node = match c.nodes.get(test) {
        Node::Equal { left, .. } if g.bare => left,
        _ => test,
    };
    let number = next_clause(g);
    g.tests.push(node.0)?;
    g.tests.push(number)?;
    Ok(())
}

// The constant of a case, at the type that it is compared at.
fn case_constant(c: &Checker, x: Operand, test: Operand) -> Option<(ConstId, TypeId)> {
    let id = x.constant()?;
    let left = match c.nodes.get(test.node) {
        Node::Equal { left, .. } => left,
        _ => return Some((id, x.ty)),
    };
    match c.nodes.get(left) {
        Node::Const { ty, .. } => Some((id, ty)),
        Node::Wrap { from, .. } => Some((id, from)),
        _ => Some((id, x.ty)),
    }
}

/// The number of the `fallthrough` that ends a clause, or one that no statement has.
pub fn falls_at(clause: &Clause, is_last: bool) -> usize {
    let mut end = clause.body.len();
    for number in (0..clause.body.len()).rev() {
        match clause.body.get(number) {
            Some(s) if is_empty(s) => end = number,
            _ => break,
        }
    }
    if end == 0 || is_last {
        return usize::MAX;
    }
    match clause.body.get(end - 1) {
        Some(s) if is_fallthrough(s) => end - 1,
        _ => usize::MAX,
    }
}

// Whether a statement is `fallthrough`, labels aside.
fn is_fallthrough(s: &Stmt) -> bool {
    match &*s.form {
        StmtForm::Fallthrough => true,
        StmtForm::Labeled(_, s) => is_fallthrough(s),
        _ => false,
    }
}

fn is_empty(s: &Stmt) -> bool {
    match &*s.form {
        StmtForm::Empty => true,
        _ => false,
    }
}

/// The next clause, once its body is known.
pub fn end_clause(g: &mut Switch, body: StmtId, falls: bool) -> Result<(), NoMemory> {
    g.clauses.push(body.0)?;
    g.clauses.push(if falls { 1 } else { 0 })?;
    Ok(())
}

/// The whole switch: F76 past the limit of clauses, where all its parts are typed. Of a symbol are told the
/// objects, for it is unused where none of them is used.
pub fn end_switch(c: &mut Checker, g: Switch) -> Result<StmtId, NoMemory> {
    if let Some((name, place)) = g.symbol {
        let objects = c.nodes.list(g.objects.as_slice())?;
        c.symbols.push(SymbolRow {
            name,
            place,
            objects,
        })?;
    }
    if let Some((place, last)) = g.too_many {
        c.fault_of_whole(FaultCode::TooManyParts, place, g.start, last)?;
    }
    let tests = c.nodes.list(g.tests.as_slice())?;
    let clauses = c.nodes.list(g.clauses.as_slice())?;
    let whole = c.nodes.stmt(StmtNode::SwitchOn {
        label: g.label,
        tests,
        clauses,
        default: g.default,
    })?;
    let mut parts = g.parts;
    parts.push(whole.0)?;
    sequence(c, &parts)
}

/// `switch init; x := y.(type) {`: the init is done, the clauses follow. F68 where y is no interface value.
pub fn begin_type_switch(
    c: &mut Checker,
    place: Place,
    init: StmtId,
    name: &Option<Name>,
    of: &Expr,
    clauses: &Vec<Clause>,
) -> Result<Switch, NoMemory> {
    let start = c.mark();
    let mut parts: Vec<u32> = Vec::new(c.alloc);
    parts.push(init.0)?;
    let x = expr(c, of)?;
    let x = single_value(c, x)?;
    let x = if !x.is_unknown() && !c.is_interface(x.ty) {
        c.fail(FaultCode::ImpossibleAssertion, x.place)?
    } else {
        once(c, &mut parts, x)?
    };
    let too_many = count_clauses(c, place, clauses)?;
    let symbol = symbol_name(c, name)?;
    let mut g = begin(c, x, false, parts, start);
    g.symbol = symbol;
    g.too_many = too_many;
    Ok(g)
}

// The symbol: F83 where it is `_`.
fn symbol_name(c: &mut Checker, name: &Option<Name>) -> Result<Option<(NameId, Place)>, NoMemory> {
    let Some(name) = name else { return Ok(None) };
    let id = c.names.intern(name.text.as_bytes())?;
    if id == BLANK {
        c.fault(FaultCode::BadDefine, name.place)?;
        return Ok(None);
    }
    Ok(Some((id, name.place)))
}

/// The cases of the next clause of a type switch, and the type that the symbol has there.
pub fn type_cases(c: &mut Checker, g: &mut Switch, clause: &Clause) -> Result<TypeId, NoMemory> {
    let mut t = g.x.ty;
    for e in &clause.exprs {
        let of = type_case(c, g, e)?;
        if clause.exprs.len() == 1 {
            t = of;
        }
    }
    if clause.exprs.is_empty() {
        g.default = Some(next_clause(g));
    }
    Ok(t)
}

// A case of a type switch: `nil`, or a type that the value may be of. The type that the symbol has.
fn type_case(c: &mut Checker, g: &mut Switch, e: &Expr) -> Result<TypeId, NoMemory> {
    let t = expr(c, e)?;
    match t.mode {
        Mode::Nil => {
            if g.nil {
                c.fault(FaultCode::DuplicateCase, e.place)?;
            }
            g.nil = true;
            nil_test(c, g, e.place)?;
            Ok(g.x.ty)
        }
        Mode::TypeName => {
            type_test(c, g, e.place, t.ty)?;
            Ok(t.ty)
        }
        Mode::Unknown => Ok(t.ty),
        _ => {
            c.fault(FaultCode::NotAType, e.place)?;
            Ok(NONE)
        }
    }
}

fn nil_test(c: &mut Checker, g: &mut Switch, place: Place) -> Result<(), NoMemory> {
    if g.x.is_unknown() {
        return Ok(());
    }
    let operands = g.x.ty;
    let right = c.nodes.expr(place, Node::Zero { ty: operands })?;
    let node = c.nodes.expr(
        place,
        Node::Equal {
            negated: false,
            operands,
            ty: BOOL,
            left: g.x.node,
            right,
        },
    )?;
    add_test(c, g, node)
}

// F68 at a type without the methods, F92 at one that was there.
fn type_test(c: &mut Checker, g: &mut Switch, place: Place, t: TypeId) -> Result<(), NoMemory> {
    if !g.types.insert(t.0)? {
        return c.fault(FaultCode::DuplicateCase, place);
    }
    if g.x.is_unknown() {
        return Ok(());
    }
    if !c.is_interface(t) && !c.assignable(t, g.x.ty) {
        return c.fault(FaultCode::ImpossibleAssertion, place);
    }
    let node = is_of(c, g.x, place, t)?;
    add_test(c, g, node)
}

// Whether a value is of a type.
fn is_of(c: &mut Checker, x: Operand, place: Place, t: TypeId) -> Result<NodeId, NoMemory> {
    let value = c.fresh(EMPTY, place, t)?;
    let ok = c.fresh(EMPTY, place, BOOL)?;
    let node = c.nodes.expr(
        place,
        Node::Assert {
            ty: t,
            with_ok: true,
            operand: x.node,
        },
    )?;
    let body = read_var(c, place, ok)?;
    let vars = c.nodes.list(&[value.0, ok.0])?;
    let values = c.nodes.list(&[node.0])?;
    c.nodes.expr(place, Node::Let { vars, values, body })
}

/// The symbol in the next clause, where its scope is open: a variable with the value, as one of the type.
pub fn symbol(
    c: &mut Checker,
    g: &mut Switch,
    clause: &Clause,
    t: TypeId,
) -> Result<StmtId, NoMemory> {
    let Some((name, place)) = g.symbol else {
        return nothing(c);
    };
    let var = c.fresh(name, place, t)?;
    c.declare(name, place, Entity::Local(var.0, t), false)?;
    if let Some(id) = c.innermost(name) {
        g.objects.push(id)?;
    }
    if g.x.is_unknown() || !c.has(t) {
        return nothing(c);
    }
    let value = if clause.exprs.len() == 1 && t.0 != g.x.ty.0 {
        c.nodes.expr(
            place,
            Node::Assert {
                ty: t,
                with_ok: false,
                operand: g.x.node,
            },
        )?
    } else {
        g.x.node
    };
    declared_value(c, var, value)
}

fn declared_value(c: &mut Checker, var: VarRef, value: NodeId) -> Result<StmtId, NoMemory> {
    let mut parts: Vec<u32> = Vec::new(c.alloc);
    declare_with(c, &mut parts, var, value)?;
    sequence(c, &parts)
}
