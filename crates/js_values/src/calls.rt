//! Calls: Go specification (as of Go 1.17), "Calls", "Go statements", "Method values".
//!
//! A machine's frame is made by `$aK`, called with the frame below, with what the function holds, and with
//! its operands. A plain function is `$fK`, called with its operands, after what it holds where it captures
//! variables or is taken as a value. `$rJ` is either for the method of the row J, whose receiver is the
//! second element of what is held, as it is in an interface value and in a method value. `$nN` makes the
//! frame of a call of a plain function, after `go` or `defer`, with so many arguments.

use crate::interfaces::{method_text, methods_of};
use gj_base::Text;
use go_core::node::{Callee, CoreExpr, MethodName};
use go_core::tree::FuncId;
use go_type::types::TypeId;
use js_body::{Body, Home, Operand};
use js_facts::types::type_of;
use js_pool::{ExprId, Name};

/// What is called.
#[derive(Clone, Copy)]
pub enum Called {
    Function(FuncId),
    /// A method by its row; the receiver is the first operand.
    Row(u32),
    /// A function value, which stands before the operands; whether it is a machine.
    Value(bool),
    /// A method of an interface value, which stands before the operands: its text, and whether it is a
    /// machine.
    Dynamic(ExprId, bool),
}

/// What is called; a value that it needs stands on the stack.
pub fn callee_of(b: &mut Body<'_>, callee: &Callee) -> Called {
    match callee {
        Callee::Function(id) => Called::Function(*id),
        Callee::Method(method) => called_method(b, method),
        Callee::Value(f) => Called::Value(b.facts.is_marked_type(type_of(b.table(), f))),
        Callee::Dynamic {
            name,
            package,
            receiver,
        } => called_dynamic(b, receiver, name, package),
    }
}

// A method whose row has its function's own receiver is that function.
fn called_method(b: &Body<'_>, method: &MethodName) -> Called {
    let number = b.facts.row_of(method);
    if let Some(row) = b.facts.method_row(number)
        && let Some(f) = b.facts.func(row.func)
        && let [receiver, ..] = f.vars.items.as_slice()
        && receiver.ty.0 == row.ty.0
    {
        return Called::Function(row.func);
    }
    Called::Row(number)
}

fn called_dynamic(b: &mut Body<'_>, receiver: &CoreExpr, name: &Text, package: &Text) -> Called {
    let t = type_of(b.table(), receiver);
    let marked = b.facts.is_marked_method(t, name, package);
    Called::Dynamic(method_text(b, t, name, package), marked)
}

/// Whether what is called is a machine.
pub fn is_machine(b: &Body<'_>, called: Called) -> bool {
    match called {
        Called::Function(id) => b.facts.is_marked(id),
        Called::Row(number) => match b.facts.method_row(number) {
            Some(row) => b.facts.is_marked(row.func),
            None => false,
        },
        Called::Value(marked) => marked,
        Called::Dynamic(_, marked) => marked,
    }
}

// ---- what is called, and with what

// The array of a function's captured variables after this.
fn holding(b: &mut Body<'_>, id: FuncId, first: ExprId) -> ExprId {
    let mark = b.pool.open_list();
    b.pool.item(first);
    for v in b.facts.captured(id) {
        let h: Home = b.home(*v);
        let e = b.slot(h.slot);
        b.pool.item(e);
    }
    let items = b.pool.close_list(mark);
    b.pool.array(items)
}

// What a function that is called by name holds: its captured variables after null, or null.
fn held_by(b: &mut Body<'_>, id: FuncId) -> ExprId {
    let none = b.pool.null();
    if b.facts.captured(id).is_empty() {
        return none;
    }
    holding(b, id, none)
}

// The function of the script that is called, whose operands begin here.
fn callee_expr(b: &mut Body<'_>, called: Called, from: usize) -> ExprId {
    match called {
        Called::Function(id) => {
            let word: &'static [u8] = if b.facts.is_marked(id) { b"$a" } else { b"$f" };
            b.pool.name_of(word, id.0)
        }
        Called::Row(number) => b.pool.name_of(b"$r", number),
        Called::Value(_) => {
            let value = b.value_at(from);
            b.pool.at(value.e, 0)
        }
        Called::Dynamic(key, _) => {
            let value = b.value_at(from);
            let methods = methods_of(b, value.e);
            b.pool.index(methods, key)
        }
    }
}

// Adds what is held and the operands, which begin here, to the open list; answers how many those are.
fn add_arguments(b: &mut Body<'_>, called: Called, from: usize) -> u32 {
    let mut first = from;
    let mut n: u32 = 1;
    match called {
        Called::Function(id) => {
            if b.facts.is_marked(id) || b.facts.takes_held(id) {
                let held = held_by(b, id);
                b.pool.item(held);
            } else {
                n = 0;
            }
        }
        Called::Row(_) => {
            let none = b.pool.null();
            let receiver = b.value_at(from);
            let held = b.pool.pair(none, receiver.e);
            b.pool.item(held);
            first = from.saturating_add(1);
        }
        Called::Value(_) | Called::Dynamic(_, _) => {
            let value = b.value_at(from);
            b.pool.item(value.e);
            first = from.saturating_add(1);
        }
    }
    let end = b.depth();
    for i in first..end {
        let e = if i.saturating_add(1) == end {
            b.take_operand()
        } else {
            b.value_at(i).e
        };
        b.pool.item(e);
        n = n.saturating_add(1);
    }
    n
}

// The call of a plain function.
fn plain_call(b: &mut Body<'_>, called: Called, from: usize) -> ExprId {
    let callee = callee_expr(b, called, from);
    let mark = b.pool.open_list();
    add_arguments(b, called, from);
    let items = b.pool.close_list(mark);
    b.pool.call(callee, items)
}

/// The frame of a call whose operands begin here, above a frame.
pub fn frame_of(b: &mut Body<'_>, called: Called, from: usize, below: ExprId) -> ExprId {
    let callee = callee_expr(b, called, from);
    let mark = b.pool.open_list();
    b.pool.item(below);
    if is_machine(b, called) {
        add_arguments(b, called, from);
        let items = b.pool.close_list(mark);
        return b.pool.call(callee, items);
    }
    b.pool.item(callee);
    let n = add_arguments(b, called, from);
    let items = b.pool.close_list(mark);
    b.need_adapter(n);
    let maker = b.pool.name_of(b"$n", n);
    b.pool.call(maker, items)
}

/// A panic where what is called is nil.
pub fn refuse_nil_callee(b: &mut Body<'_>, called: Called, from: usize) {
    match called {
        Called::Function(_) | Called::Row(_) => {}
        Called::Value(_) | Called::Dynamic(_, _) => {
            let value = b.value_at(from);
            b.refuse_nil(value);
        }
    }
}

// ---- calls

/// A call with so many results, whose operands begin here.
pub fn call(b: &mut Body<'_>, called: Called, from: usize, results: usize) {
    refuse_nil_callee(b, called, from);
    if is_machine(b, called) {
        let f = b.frame();
        let frame = frame_of(b, called, from, f);
        b.drop_to(from);
        let call = b.pool.call1(b"$call", frame);
        b.suspend(call);
        let given = b.given();
        return take_results(b, given, results);
    }
    let call = plain_call(b, called, from);
    b.drop_to(from);
    match results {
        0 => b.pool.perform(call),
        _ => take_results(b, call, results),
    }
}

// One result is given itself, several in an array.
fn take_results(b: &mut Body<'_>, given: ExprId, results: usize) {
    if results == 0 {
        return;
    }
    let at = b.depth();
    b.push(given);
    if results == 1 {
        return;
    }
    let all = b.last();
    for i in 1..results {
        let e = b.pool.at(all.e, i as u64);
        b.push(e);
    }
    let e = b.pool.at(all.e, 0);
    b.set_value(at, e);
}

/// `go` of a call whose operands begin here.
pub fn go_call(b: &mut Body<'_>, called: Called, from: usize) {
    refuse_nil_callee(b, called, from);
    let rest = b.pool.name(b"$rest");
    let frame = frame_of(b, called, from, rest);
    let call = b.pool.call1(b"$go", frame);
    b.pool.perform(call);
    b.drop_to(from);
}

/// `defer` of a call whose operands begin here. A nil function panics when its turn comes, and stands as
/// null.
pub fn defer_call(b: &mut Body<'_>, called: Called, from: usize) {
    let f = b.frame();
    let frame = match called {
        Called::Value(_) => {
            let value: Operand = b.value_at(from);
            let nil = b.is_nil(value);
            let none = b.pool.null();
            let frame = frame_of(b, called, from, f);
            b.pool.choice(nil, none, frame)
        }
        _ => {
            refuse_nil_callee(b, called, from);
            frame_of(b, called, from, f)
        }
    };
    let call = b.pool.call2(b"$defer", f, frame);
    b.pool.perform(call);
    b.drop_to(from);
}

// ---- function values

/// A function value: what is called, and its captured variables.
pub fn closure(b: &mut Body<'_>, id: FuncId) {
    let word: &'static [u8] = if b.facts.is_marked(id) { b"$a" } else { b"$f" };
    let first = b.pool.name_of(word, id.0);
    let e = holding(b, id, first);
    b.push(e);
}

/// The method value of a method's row: the receiver is the last value.
pub fn bind_method(b: &mut Body<'_>, method: &MethodName) {
    let x = b.pop();
    let row = b.facts.row_of(method);
    let r = b.pool.named(Name::Numbered(b"$r", row));
    let e = b.pool.pair(r, x.e);
    b.push(e);
}

/// The method value of the last value, which is of an interface type.
pub fn bind_dynamic(b: &mut Body<'_>, t: TypeId, name: &Text, package: &Text) {
    let x = b.last();
    b.refuse_nil(x);
    let key = method_text(b, t, name, package);
    let methods = methods_of(b, x.e);
    let r = b.pool.index(methods, key);
    let value = b.pool.at(x.e, 1);
    let e = b.pool.pair(r, value);
    b.pop();
    b.push(e);
}
