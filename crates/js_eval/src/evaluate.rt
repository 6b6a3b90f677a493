//! Expressions, statements and calls: ECMA-262 5.1, 11, 12 and 13. One function a definition.

ghost use Rattle.std.specs.Prelude.{◌≤◌, map};
ghost use Rattle.js_tree.specs.View.{item_view, stmts_view};
ghost use Rattle.js_value.specs.ValueSeen.{value_of, values_of};
ghost use Rattle.js_eval.specs.Seen.{Does, DoesIn, flow_of, option_value_of, frame_of};
ghost use Rattle.js_eval.specs.Does.{pair_of, eval_of, eval_all_of, two_of, condition_of, call_of, dropped_of, call_value_of, enter_of, exec_of, exec_all_of, branch_of, when_of, cases_of, test_in, turns_in};
ghost use Rattle.js_eval.specs.Weight.{stmts_weight, items_weight};

use crate::calls::{bound, call_host, call_parts, tick};
use crate::declared::names_in;
use crate::flows::{after_switch, again, call_result, leaves, nested, starts, tried};
use crate::names::{find_function, host_named, name_value, set_local, set_name};
use crate::operate::{
    allocate, binary, element, given, length, number, pop, push, remove, store, truth_of,
};
use crate::state::{Context, End, Flow, Loop, Scope, Stop, Tried};
use crate::world::World;
use js_tree::{ExprForm, JsCases, JsElse, JsExpr, JsExprs, JsFunction, JsStmt, JsStmts, StmtForm};
use js_value::value::entries::Entry;
use js_value::value::heap::Object;
use js_value::value::operate::{char_code, decimal_text, one_byte, part_of, unary_value};
use js_value::value::value::{Str, Value};

/// The value of an expression: 11.
#[cycle(evaluate)]
pub fn eval<'a>(
    context: &Context<'a>,
    scope: &Scope<'_, 'a>,
    locals: &[Entry<'a>],
    world: &mut World<'a>,
    e: &'a JsExpr,
) -> Result<Value<'a>, Stop<'a>>
    ensures value { Does value_of result world.new (eval_of context.now scope.now locals.now e.now world.old) }
{
    let at = e.at;
    match &e.form {
        ExprForm::Number(n) => number(at, *n),
        ExprForm::Str(s) => Ok(Value::Bytes(Str::Literal(s))),
        ExprForm::Bool(b) => Ok(Value::Truth(*b)),
        ExprForm::Null => Ok(Value::Nothing),
        ExprForm::Name(x) => {
            let v = name_value(context, scope, locals, world, x)?;
            given(at, v)
        }
        ExprForm::Unary(op, a) => {
            let v = eval(context, scope, locals, world, a)?;
            given(at, unary_value(*op, &v))
        }
        ExprForm::Binary(op, a, b) => {
            let (u, v) = two(context, scope, locals, world, a, b)?;
            binary(context.alloc, world, at, *op, &u, &v)
        }
        ExprForm::And(a, b) => {
            if condition(context, scope, locals, world, at, a)? {
                return eval(context, scope, locals, world, b);
            }
            Ok(Value::Truth(false))
        }
        ExprForm::Or(a, b) => {
            if condition(context, scope, locals, world, at, a)? {
                return Ok(Value::Truth(true));
            }
            eval(context, scope, locals, world, b)
        }
        ExprForm::Conditional(test, a, b) => {
            if condition(context, scope, locals, world, at, test)? {
                return eval(context, scope, locals, world, a);
            }
            eval(context, scope, locals, world, b)
        }
        ExprForm::Call(f, es) => {
            let v = call(context, scope, locals, world, at, f, es)?;
            given(at, v)
        }
        ExprForm::Index(a, i) => {
            let (u, v) = two(context, scope, locals, world, a, i)?;
            element(world, at, &u, &v)
        }
        ExprForm::Length(a) => {
            let v = eval(context, scope, locals, world, a)?;
            length(world, at, &v)
        }
        ExprForm::Pop(a) => {
            let v = eval(context, scope, locals, world, a)?;
            pop(world, at, &v)
        }
        ExprForm::CharCodeAt(a, i) => {
            let (u, v) = two(context, scope, locals, world, a, i)?;
            given(at, char_code(&u, &v))
        }
        ExprForm::Substring(a, i, j) => {
            let (u, v) = two(context, scope, locals, world, a, i)?;
            let x = eval(context, scope, locals, world, j)?;
            let part = part_of(context.alloc, &u, &v, &x)?;
            given(at, part)
        }
        ExprForm::Array(es) => {
            let vs = eval_all(context, scope, locals, world, es)?;
            allocate(world, Object::Items(vs))
        }
        ExprForm::Dictionary => allocate(world, Object::Entries(Vec::new(context.alloc))),
        ExprForm::Decimal(a) => {
            let v = eval(context, scope, locals, world, a)?;
            let text = decimal_text(context.alloc, &v)?;
            given(at, text)
        }
        ExprForm::FromCharCode(a) => {
            let v = eval(context, scope, locals, world, a)?;
            let text = one_byte(context.alloc, &v)?;
            given(at, text)
        }
    }
}

// The values of two expressions, from the left.
#[cycle(evaluate)]
fn two<'a>(
    context: &Context<'a>,
    scope: &Scope<'_, 'a>,
    locals: &[Entry<'a>],
    world: &mut World<'a>,
    a: &'a JsExpr,
    b: &'a JsExpr,
) -> Result<(Value<'a>, Value<'a>), Stop<'a>>
    ensures value { Does pair_of result world.new (two_of context.now scope.now locals.now a.now b.now world.old) }
{
    let u = eval(context, scope, locals, world, a)?;
    let v = eval(context, scope, locals, world, b)?;
    Ok((u, v))
}

// The values of expressions, from the left: 11.2.4.
#[cycle(evaluate)]
fn eval_all<'a>(
    context: &Context<'a>,
    scope: &Scope<'_, 'a>,
    locals: &[Entry<'a>],
    world: &mut World<'a>,
    es: &'a JsExprs,
) -> Result<Vec<Value<'a>>, Stop<'a>>
    ensures value { Does (λ vs. values_of vs.items) result world.new (eval_all_of context.now scope.now locals.now es.now world.old) }
{
    let mut values = Vec::new(context.alloc);
    for e in &es.items {
        let v = eval(context, scope, locals, world, e)?;
        values.push(v)?;
    }
    Ok(values)
}

// An expression as a condition.
#[cycle(evaluate)]
fn condition<'a>(
    context: &Context<'a>,
    scope: &Scope<'_, 'a>,
    locals: &[Entry<'a>],
    world: &mut World<'a>,
    at: u32,
    e: &'a JsExpr,
) -> Result<bool, Stop<'a>>
    ensures value { Does (λ b. b) result world.new (condition_of context.now scope.now locals.now at e.now world.old) }
{
    let v = eval(context, scope, locals, world, e)?;
    truth_of(at, &v)
}

// A call of the value of an expression: 11.2.3.
#[cycle(evaluate)]
fn call<'a>(
    context: &Context<'a>,
    scope: &Scope<'_, 'a>,
    locals: &[Entry<'a>],
    world: &mut World<'a>,
    at: u32,
    f: &'a JsExpr,
    es: &'a JsExprs,
) -> Result<Option<Value<'a>>, Stop<'a>>
    ensures value { Does option_value_of result world.new (call_of context.now scope.now locals.now at f.now es.now world.old) }
{
    let u = eval(context, scope, locals, world, f)?;
    let vs = eval_all(context, scope, locals, world, es)?;
    call_value(context, world, at, &u, vs)
}

// An expression as a statement, which may be a call that gives no value: 12.4.
#[cycle(evaluate)]
fn dropped<'a>(
    context: &Context<'a>,
    scope: &Scope<'_, 'a>,
    locals: &[Entry<'a>],
    world: &mut World<'a>,
    e: &'a JsExpr,
) -> Result<Option<Value<'a>>, Stop<'a>>
    ensures value { Does option_value_of result world.new (dropped_of context.now scope.now locals.now e.now world.old) }
{
    match call_parts(e) {
        Some(parts) => call(
            context,
            scope,
            locals,
            world,
            e.at,
            parts.callee,
            parts.arguments,
        ),
        None => {
            let v = eval(context, scope, locals, world, e)?;
            Ok(Some(v))
        }
    }
}

/// A call of a value: 11.2.3 and 13.2.1.
#[cycle(evaluate)]
pub fn call_value<'a>(
    context: &Context<'a>,
    world: &mut World<'a>,
    at: u32,
    callee: &Value<'a>,
    values: Vec<Value<'a>>,
) -> Result<Option<Value<'a>>, Stop<'a>>
    ensures value { Does option_value_of result world.new (call_value_of context.now at callee.now values.entry.items world.old) }
{
    let Value::Function(x) = callee else {
        return Err(Stop::Over(End::Stuck(at)));
    };
    match host_named(x.as_bytes()) {
        Some(host) => call_host(context, world, at, host, values.as_slice()),
        None => match find_function(x.as_bytes(), context.script.items.as_slice()) {
            Some(f) => {
                if values.len() != f.params.len() {
                    return Err(Stop::Over(End::Stuck(at)));
                }
                tick(world)?;
                enter(context, world, f, values)
            }
            None => Err(Stop::Over(End::Stuck(at))),
        },
    }
}

// What a function does with arguments, after the tick of its call: 13.2.1.
#[cycle(evaluate)]
fn enter<'a>(
    context: &Context<'a>,
    world: &mut World<'a>,
    f: &'a JsFunction,
    values: Vec<Value<'a>>,
) -> Result<Option<Value<'a>>, Stop<'a>>
    requires inside { stmts_weight (stmts_view f.now.body) ≤ items_weight (map item_view context.now.script.now.items.items) }
    ensures value { Does option_value_of result world.new (enter_of context.now f.now values.entry.items world.old) }
{
    let inner = nested(context)?;
    let names = names_in(context.alloc, f)?;
    let scope = Scope {
        names: names.as_slice(),
        caught: None,
    };
    let mut locals = bound(context.alloc, f.params.as_slice(), values.as_slice())?;
    call_result(exec_all(&inner, &scope, &mut locals, world, &f.body))
}

/// What a statement does: 12.
#[cycle(evaluate)]
pub fn exec<'a>(
    context: &Context<'a>,
    scope: &Scope<'_, 'a>,
    locals: &mut Vec<Entry<'a>>,
    world: &mut World<'a>,
    s: &'a JsStmt,
) -> Result<Flow<'a>, Stop<'a>>
    ensures value { DoesIn flow_of result locals.new.items world.new (exec_of context.now scope.now locals.old.items s.now world.old) }
{
    let at = s.at;
    match &s.form {
        StmtForm::Declare(x, e) => {
            let v = eval(context, scope, locals, world, e)?;
            set_local(locals, x, v)?;
            Ok(Flow::Onward)
        }
        StmtForm::Assign(x, e) => {
            let v = eval(context, scope, locals, world, e)?;
            set_name(context, scope, locals, world, at, x, v)
        }
        StmtForm::Store(a, i, e) => {
            let (u, k) = two(context, scope, locals, world, a, i)?;
            let v = eval(context, scope, locals, world, e)?;
            store(locals, world, at, &u, &k, v)
        }
        StmtForm::Perform(e) => {
            let _value = dropped(context, scope, locals, world, e)?;
            Ok(Flow::Onward)
        }
        StmtForm::Push(a, e) => {
            let (u, v) = two(context, scope, locals, world, a, e)?;
            push(locals, world, at, &u, v)
        }
        StmtForm::Delete(a, k) => {
            let (u, v) = two(context, scope, locals, world, a, k)?;
            remove(locals, world, at, &u, &v)
        }
        StmtForm::If(test, body, other) => {
            branch(context, scope, locals, world, at, test, body, other)
        }
        StmtForm::While(label, test, body) => {
            let head = Loop {
                at,
                label,
                test: Some(test),
                body,
            };
            turns(context, scope, locals, world, &head)
        }
        StmtForm::Forever(label, body) => {
            let head = Loop {
                at,
                label,
                test: None,
                body,
            };
            turns(context, scope, locals, world, &head)
        }
        StmtForm::Switch(label, e, list) => {
            let v = eval(context, scope, locals, world, e)?;
            let flow = cases(context, scope, locals, world, list, &v)?;
            Ok(after_switch(label, flow))
        }
        StmtForm::Return(e) => match e {
            Some(e) => {
                let v = eval(context, scope, locals, world, e)?;
                Ok(Flow::Returns(Some(v)))
            }
            None => Ok(Flow::Returns(None)),
        },
        StmtForm::Throw(e) => {
            let v = eval(context, scope, locals, world, e)?;
            Err(Stop::Throw(at, v))
        }
        StmtForm::Break(label) => Ok(Flow::Breaks(label)),
        StmtForm::Continue(label) => Ok(Flow::Continues(label)),
        StmtForm::Try(body, handler) => {
            match tried(exec_all(context, scope, locals, world, body)) {
                Tried::Done(completion) => completion,
                Tried::Threw(v) => {
                    let caught = Scope {
                        names: scope.names,
                        caught: Some(v),
                    };
                    exec_all(context, &caught, locals, world, handler)
                }
            }
        }
    }
}

// Statements in order: 12.1.
#[cycle(evaluate)]
fn exec_all<'a>(
    context: &Context<'a>,
    scope: &Scope<'_, 'a>,
    locals: &mut Vec<Entry<'a>>,
    world: &mut World<'a>,
    ss: &'a JsStmts,
) -> Result<Flow<'a>, Stop<'a>>
    ensures value { DoesIn flow_of result locals.new.items world.new (exec_all_of context.now scope.now locals.old.items ss.now world.old) }
{
    for s in &ss.items {
        let flow = exec(context, scope, locals, world, s)?;
        if leaves(&flow) {
            return Ok(flow);
        }
    }
    Ok(Flow::Onward)
}

// An `if`: 12.5.
#[cycle(evaluate)]
fn branch<'a>(
    context: &Context<'a>,
    scope: &Scope<'_, 'a>,
    locals: &mut Vec<Entry<'a>>,
    world: &mut World<'a>,
    at: u32,
    test: &'a JsExpr,
    body: &'a JsStmts,
    other: &'a JsElse,
) -> Result<Flow<'a>, Stop<'a>>
    ensures value { DoesIn flow_of result locals.new.items world.new (branch_of context.now scope.now locals.old.items at test.now body.now other.now world.old) }
{
    if condition(context, scope, locals, world, at, test)? {
        return exec_all(context, scope, locals, world, body);
    }
    match other {
        JsElse::Nothing => Ok(Flow::Onward),
        JsElse::Block(body) => exec_all(context, scope, locals, world, body),
        JsElse::ElseIf(next) => branch(
            context, scope, locals, world, next.at, &next.test, &next.body, &next.rest,
        ),
    }
}

// Statements, where they run at all.
#[cycle(evaluate)]
fn when<'a>(
    context: &Context<'a>,
    scope: &Scope<'_, 'a>,
    locals: &mut Vec<Entry<'a>>,
    world: &mut World<'a>,
    runs: bool,
    ss: &'a JsStmts,
) -> Result<Flow<'a>, Stop<'a>>
    ensures value { DoesIn flow_of result locals.new.items world.new (when_of context.now scope.now locals.old.items runs ss.now world.old) }
{
    if runs {
        return exec_all(context, scope, locals, world, ss);
    }
    Ok(Flow::Onward)
}

// The cases of a `switch`: from the first whose number the value is, else from `default`, on: 12.11.
#[cycle(evaluate)]
fn cases<'a>(
    context: &Context<'a>,
    scope: &Scope<'_, 'a>,
    locals: &mut Vec<Entry<'a>>,
    world: &mut World<'a>,
    list: &'a JsCases,
    v: &Value<'a>,
) -> Result<Flow<'a>, Stop<'a>>
    ensures value { DoesIn flow_of result locals.new.items world.new (cases_of context.now scope.now locals.old.items list.now v.now world.old) }
{
    let mut runs = false;
    for c in &list.items {
        runs = starts(runs, v, c.number);
        let flow = when(context, scope, locals, world, runs, &c.body)?;
        if leaves(&flow) {
            return Ok(flow);
        }
    }
    match &list.default {
        Some(body) => exec_all(context, scope, locals, world, body),
        None => Ok(Flow::Onward),
    }
}

// The condition of a loop.
#[cycle(evaluate)]
fn test<'a>(
    context: &Context<'a>,
    scope: &Scope<'_, 'a>,
    locals: &[Entry<'a>],
    world: &mut World<'a>,
    head: &Loop<'a>,
) -> Result<bool, Stop<'a>>
    ensures value { DoesIn (λ b. b) result locals.now world.new (λ d. test_in context.now scope.now head.now d (frame_of locals.now world.old)) }
{
    match head.test {
        Some(e) => condition(context, scope, locals, world, head.at, e),
        None => Ok(true),
    }
}

// A loop, which makes no more turns than there are ticks: 12.6.2, 12.6.3.
#[cycle(evaluate)]
fn turns<'a>(
    context: &Context<'a>,
    scope: &Scope<'_, 'a>,
    locals: &mut Vec<Entry<'a>>,
    world: &mut World<'a>,
    head: &Loop<'a>,
) -> Result<Flow<'a>, Stop<'a>>
    ensures value { DoesIn flow_of result locals.new.items world.new (λ d. turns_in context.now scope.now head.now world.old.left d (frame_of locals.old.items world.old)) }
{
    for turn in 0..world.left {
        if !test(context, scope, locals, world, head)? {
            return Ok(Flow::Onward);
        }
        tick(world)?;
        let flow = exec_all(context, scope, locals, world, head.body)?;
        if let Some(flow) = again(head.label, flow) {
            return Ok(flow);
        }
    }
    if test(context, scope, locals, world, head)? {
        return Err(Stop::Over(End::Going));
    }
    Ok(Flow::Onward)
}
