//! The values of expressions without calls: ECMA-262 5.1, 11. One function a form.

ghost use Rattle.std.specs.Prelude.{[]};
ghost use Rattle.js_tree.specs.Evaluate as part;
ghost use Rattle.js_tree.specs.Script as form;
ghost use Rattle.js_tree.specs.Value as run;
ghost use Rattle.js_code.specs.Slots as slots;
ghost use Rattle.js_value.specs.HeapSeen.{value_of, values_of};
ghost use Rattle.js_simple.specs.Seen.{Anywhere, Changes, Does, slots_in};
ghost use Rattle.js_code.specs.Held.{part_of};
ghost use Rattle.js_simple.specs.Simple.{IsSimpleAt, AreSimpleAt, IsSimplePart};
ghost use Rattle.js_simple.specs.PartDoes.{eval_at, eval_all_at, condition_at, eval_part, expr_in, exprs_in, value_does};

use crate::list::{cell_at, count};
use crate::numbers::{truth_at, value_of_numbers};
use crate::operate::{allocate, binary, given, number, pop, slot_value, truth_of};
use crate::state::{Context, Halt};
use indexmap::IndexMap;
use js_code::code::Part;
use js_tree::{BinaryOp, UnaryOp};
use js_value::heap::heap::{self, Object};
use js_value::heap::operate::{char_code, decimal_text, one_byte, part_of, unary_value};
use js_value::heap::value::Value;

/// The number beside the name of a function of the host, under which a run keeps no function.
pub const HOST: u32 = 4294967295;

/// The value of the expression that a part stands for, whose nodes are nested at most so deep.
#[cycle(eval)]
pub fn eval<'a>(
    c: &Context<'_, 'a>,
    objects: &mut Vec<Object<'a>>,
    depth: u32,
    i: u32,
) -> Result<Value<'a>, Halt>
    requires simple { IsSimpleAt c.now.code.now i }
    ensures value { Does c.now value_of result objects.old.items objects.new.items (eval_at c.now i) }
{
    if depth == 0 {
        return Err(Halt::NoMemory);
    }
    match c.code.get(i) {
        Some(part) => evaluate(c, objects, depth - 1, part),
        None => Ok(Value::Nothing),
    }
}

// An expression as a condition.
#[cycle(eval)]
fn condition<'a>(
    c: &Context<'_, 'a>,
    objects: &mut Vec<Object<'a>>,
    depth: u32,
    at: u32,
    i: u32,
) -> Result<bool, Halt>
    requires simple { IsSimpleAt c.now.code.now i }
    ensures value { Does c.now (λ b. b) result objects.old.items objects.new.items (condition_at c.now at i) }
{
    match truth_at(c, objects.as_slice(), depth, i) {
        Some(b) => Ok(b),
        None => condition_by_value(c, objects, depth, at, i),
    }
}

// The same by the value.
#[cycle(eval)]
fn condition_by_value<'a>(
    c: &Context<'_, 'a>,
    objects: &mut Vec<Object<'a>>,
    depth: u32,
    at: u32,
    i: u32,
) -> Result<bool, Halt>
    requires simple { IsSimpleAt c.now.code.now i }
    ensures value { Does c.now (λ b. b) result objects.old.items objects.new.items (condition_at c.now at i) }
{
    let v = eval(c, objects, depth, i)?;
    truth_of(at, v)
}

// What a local holds.
fn local<'a>(c: &Context<'_, 'a>, at: u32, slot: u32) -> Result<Value<'a>, Halt>
    ensures value { Anywhere value_of result (run.given at (slots.slot_value (slots_in c.now.locals.now) slot)) }
{
    given(at, slot_value(c.locals, slot))
}

// What a variable of the top level holds.
fn global<'a>(c: &Context<'_, 'a>, at: u32, slot: u32) -> Result<Value<'a>, Halt>
    ensures value { Anywhere value_of result (run.given at (slots.slot_value (slots_in c.now.globals.now) slot)) }
{
    given(at, slot_value(c.globals, slot))
}

// A new dictionary: 11.1.5.
fn dictionary<'a>(c: &Context<'_, 'a>, objects: &mut Vec<Object<'a>>) -> Result<Value<'a>, Halt>
    ensures value { Changes value_of result objects.old.items objects.new.items (part.allocated (run.entries [])) }
{
    let entries = Box::new(c.alloc, IndexMap::new(c.alloc))?;
    allocate(objects, Object::Entries(entries))
}

// An operator before an expression: 11.4.
#[cycle(eval)]
fn unary<'a>(
    c: &Context<'_, 'a>,
    objects: &mut Vec<Object<'a>>,
    depth: u32,
    at: u32,
    op: UnaryOp,
    e: u32,
) -> Result<Value<'a>, Halt>
    requires simple { IsSimpleAt c.now.code.now e }
    ensures value { Does c.now value_of result objects.old.items objects.new.items (value_does (form.unary at op (expr_in c.now e))) }
{
    let v = eval(c, objects, depth, e)?;
    given(at, unary_value(op, v))
}

// An operator between two expressions: 11.5 to 11.10.
#[cycle(eval)]
fn operator<'a>(
    c: &Context<'_, 'a>,
    objects: &mut Vec<Object<'a>>,
    depth: u32,
    at: u32,
    op: BinaryOp,
    left: u32,
    right: u32,
) -> Result<Value<'a>, Halt>
    requires left { IsSimpleAt c.now.code.now left }
    requires right { IsSimpleAt c.now.code.now right }
    ensures value { Does c.now value_of result objects.old.items objects.new.items (value_does (form.binary at op (expr_in c.now left) (expr_in c.now right))) }
{
    match value_of_numbers(c, objects.as_slice(), depth, op, left, right) {
        Some(v) => Ok(v),
        None => operator_by_values(c, objects, depth, at, op, left, right),
    }
}

// The same by the values.
#[cycle(eval)]
fn operator_by_values<'a>(
    c: &Context<'_, 'a>,
    objects: &mut Vec<Object<'a>>,
    depth: u32,
    at: u32,
    op: BinaryOp,
    left: u32,
    right: u32,
) -> Result<Value<'a>, Halt>
    requires left { IsSimpleAt c.now.code.now left }
    requires right { IsSimpleAt c.now.code.now right }
    ensures value { Does c.now value_of result objects.old.items objects.new.items (value_does (form.binary at op (expr_in c.now left) (expr_in c.now right))) }
{
    let u = eval(c, objects, depth, left)?;
    let v = eval(c, objects, depth, right)?;
    binary(c.arena, objects.as_slice(), at, op, u, v)
}

// Both of two conditions: 11.11.
#[cycle(eval)]
fn both<'a>(
    c: &Context<'_, 'a>,
    objects: &mut Vec<Object<'a>>,
    depth: u32,
    at: u32,
    left: u32,
    right: u32,
) -> Result<Value<'a>, Halt>
    requires left { IsSimpleAt c.now.code.now left }
    requires right { IsSimpleAt c.now.code.now right }
    ensures value { Does c.now value_of result objects.old.items objects.new.items (value_does (form.both at (expr_in c.now left) (expr_in c.now right))) }
{
    if condition(c, objects, depth, at, left)? {
        return eval(c, objects, depth, right);
    }
    Ok(Value::Truth(false))
}

// One of two conditions: 11.11.
#[cycle(eval)]
fn either<'a>(
    c: &Context<'_, 'a>,
    objects: &mut Vec<Object<'a>>,
    depth: u32,
    at: u32,
    left: u32,
    right: u32,
) -> Result<Value<'a>, Halt>
    requires left { IsSimpleAt c.now.code.now left }
    requires right { IsSimpleAt c.now.code.now right }
    ensures value { Does c.now value_of result objects.old.items objects.new.items (value_does (form.either at (expr_in c.now left) (expr_in c.now right))) }
{
    if condition(c, objects, depth, at, left)? {
        return Ok(Value::Truth(true));
    }
    eval(c, objects, depth, right)
}

// The one of two expressions that a condition chooses: 11.12.
#[cycle(eval)]
fn choice<'a>(
    c: &Context<'_, 'a>,
    objects: &mut Vec<Object<'a>>,
    depth: u32,
    at: u32,
    test: u32,
    left: u32,
    right: u32,
) -> Result<Value<'a>, Halt>
    requires test { IsSimpleAt c.now.code.now test }
    requires left { IsSimpleAt c.now.code.now left }
    requires right { IsSimpleAt c.now.code.now right }
    ensures value { Does c.now value_of result objects.old.items objects.new.items (value_does (form.choice at (expr_in c.now test) (expr_in c.now left) (expr_in c.now right))) }
{
    if condition(c, objects, depth, at, test)? {
        return eval(c, objects, depth, left);
    }
    eval(c, objects, depth, right)
}

// An element: 11.2.1.
#[cycle(eval)]
fn index<'a>(
    c: &Context<'_, 'a>,
    objects: &mut Vec<Object<'a>>,
    depth: u32,
    at: u32,
    e: u32,
    i: u32,
) -> Result<Value<'a>, Halt>
    requires e { IsSimpleAt c.now.code.now e }
    requires i { IsSimpleAt c.now.code.now i }
    ensures value { Does c.now value_of result objects.old.items objects.new.items (value_does (form.index at (expr_in c.now e) (expr_in c.now i))) }
{
    let u = eval(c, objects, depth, e)?;
    let v = eval(c, objects, depth, i)?;
    given(at, heap::element(objects.as_slice(), u, v))
}

// The length of an array or a string: 15.4.5.2, 15.5.5.1.
#[cycle(eval)]
fn length_of<'a>(
    c: &Context<'_, 'a>,
    objects: &mut Vec<Object<'a>>,
    depth: u32,
    at: u32,
    e: u32,
) -> Result<Value<'a>, Halt>
    requires simple { IsSimpleAt c.now.code.now e }
    ensures value { Does c.now value_of result objects.old.items objects.new.items (value_does (form.length_of at (expr_in c.now e))) }
{
    let v = eval(c, objects, depth, e)?;
    given(at, heap::length_value(objects.as_slice(), v))
}

// The last element of an array, which is taken: 15.4.4.6.
#[cycle(eval)]
fn popped<'a>(
    c: &Context<'_, 'a>,
    objects: &mut Vec<Object<'a>>,
    depth: u32,
    at: u32,
    e: u32,
) -> Result<Value<'a>, Halt>
    requires simple { IsSimpleAt c.now.code.now e }
    ensures value { Does c.now value_of result objects.old.items objects.new.items (value_does (form.pop at (expr_in c.now e))) }
{
    let v = eval(c, objects, depth, e)?;
    pop(objects, at, v)
}

// A byte of a string: 15.5.4.5.
#[cycle(eval)]
fn char_code_at<'a>(
    c: &Context<'_, 'a>,
    objects: &mut Vec<Object<'a>>,
    depth: u32,
    at: u32,
    e: u32,
    i: u32,
) -> Result<Value<'a>, Halt>
    requires e { IsSimpleAt c.now.code.now e }
    requires i { IsSimpleAt c.now.code.now i }
    ensures value { Does c.now value_of result objects.old.items objects.new.items (value_does (form.char_code_at at (expr_in c.now e) (expr_in c.now i))) }
{
    let u = eval(c, objects, depth, e)?;
    let v = eval(c, objects, depth, i)?;
    given(at, char_code(u, v))
}

// A part of a string: 15.5.4.15.
#[cycle(eval)]
fn substring<'a>(
    c: &Context<'_, 'a>,
    objects: &mut Vec<Object<'a>>,
    depth: u32,
    at: u32,
    e: u32,
    from: u32,
    to: u32,
) -> Result<Value<'a>, Halt>
    requires e { IsSimpleAt c.now.code.now e }
    requires from { IsSimpleAt c.now.code.now from }
    requires to { IsSimpleAt c.now.code.now to }
    ensures value { Does c.now value_of result objects.old.items objects.new.items (value_does (form.substring at (expr_in c.now e) (expr_in c.now from) (expr_in c.now to))) }
{
    let u = eval(c, objects, depth, e)?;
    let v = eval(c, objects, depth, from)?;
    let x = eval(c, objects, depth, to)?;
    let text = part_of(c.arena, u, v, x)?;
    given(at, text)
}

// The decimal text of a number: 15.7.4.2.
#[cycle(eval)]
fn decimal<'a>(
    c: &Context<'_, 'a>,
    objects: &mut Vec<Object<'a>>,
    depth: u32,
    at: u32,
    e: u32,
) -> Result<Value<'a>, Halt>
    requires simple { IsSimpleAt c.now.code.now e }
    ensures value { Does c.now value_of result objects.old.items objects.new.items (value_does (form.decimal_of at (expr_in c.now e))) }
{
    let v = eval(c, objects, depth, e)?;
    let text = decimal_text(c.arena, v)?;
    given(at, text)
}

// A string of one byte: 15.5.3.2.
#[cycle(eval)]
fn from_char_code<'a>(
    c: &Context<'_, 'a>,
    objects: &mut Vec<Object<'a>>,
    depth: u32,
    at: u32,
    e: u32,
) -> Result<Value<'a>, Halt>
    requires simple { IsSimpleAt c.now.code.now e }
    ensures value { Does c.now value_of result objects.old.items objects.new.items (value_does (form.from_char_code at (expr_in c.now e))) }
{
    let v = eval(c, objects, depth, e)?;
    let text = one_byte(c.arena, v)?;
    given(at, text)
}

// A new array: 11.1.4.
#[cycle(eval)]
fn array<'a>(
    c: &Context<'_, 'a>,
    objects: &mut Vec<Object<'a>>,
    depth: u32,
    items: u32,
) -> Result<Value<'a>, Halt>
    requires simple { AreSimpleAt c.now.code.now items }
    ensures value { Does c.now value_of result objects.old.items objects.new.items (value_does (form.array 0 (exprs_in c.now items))) }
{
    let mut values = Vec::with_capacity(c.alloc, count(c.code, items))?;
    eval_onto(c, objects, depth, &mut values, items)?;
    allocate(objects, Object::Items(values))
}

// The value of what one part stands for. The compiler sets the locals of all arms at each call, so
// an arm that has some is a function of its own.
#[cycle(eval)]
fn evaluate<'a>(
    c: &Context<'_, 'a>,
    objects: &mut Vec<Object<'a>>,
    depth: u32,
    part: Part<'a>,
) -> Result<Value<'a>, Halt>
    requires simple { IsSimplePart c.now.code.now (part_of part) }
    ensures value { Does c.now value_of result objects.old.items objects.new.items (eval_part c.now part.entry) }
{
    match part {
        Part::Number { at, n } => number(at, n),
        Part::Str { text, .. } => Ok(Value::Literal(text)),
        Part::Bool { b, .. } => Ok(Value::Truth(b)),
        Part::Null { .. } => Ok(Value::Nothing),
        Part::Caught { at, .. } => given(at, c.caught),
        Part::Local { at, slot, .. } => local(c, at, slot),
        Part::Global { at, slot, .. } => global(c, at, slot),
        Part::Function { number, x, .. } => Ok(Value::Function(number, x)),
        Part::Host { x, .. } => Ok(Value::Function(HOST, x)),
        Part::Nowhere { at, .. } => Err(Halt::Stuck(at)),
        Part::Unary { at, op, e } => unary(c, objects, depth, at, op, e),
        Part::Binary {
            at,
            op,
            left,
            right,
        } => operator(c, objects, depth, at, op, left, right),
        Part::And { at, left, right } => both(c, objects, depth, at, left, right),
        Part::Or { at, left, right } => either(c, objects, depth, at, left, right),
        Part::Conditional {
            at,
            test,
            left,
            right,
        } => choice(c, objects, depth, at, test, left, right),
        Part::Index { at, e, i } => index(c, objects, depth, at, e, i),
        Part::Length { at, e } => length_of(c, objects, depth, at, e),
        Part::Pop { at, e } => popped(c, objects, depth, at, e),
        Part::CharCodeAt { at, e, i } => char_code_at(c, objects, depth, at, e, i),
        Part::Substring { at, e, from, to } => substring(c, objects, depth, at, e, from, to),
        Part::Array { items, .. } => array(c, objects, depth, items),
        Part::Dictionary { .. } => dictionary(c, objects),
        Part::Decimal { at, e } => decimal(c, objects, depth, at, e),
        Part::FromCharCode { at, e } => from_char_code(c, objects, depth, at, e),
        Part::Call { .. } => unreachable!(),
        _ => Ok(Value::Nothing),
    }
}

/// The values of the expressions that a part stands for, from the left, after those that are
/// there: 11.2.4.
#[cycle(eval)]
pub fn eval_onto<'a>(
    c: &Context<'_, 'a>,
    objects: &mut Vec<Object<'a>>,
    depth: u32,
    values: &mut Vec<Value<'a>>,
    first: u32,
) -> Result<(), Halt>
    requires simple { AreSimpleAt c.now.code.now first }
    ensures value { Does c.now (λ _. values_of values.new.items) result objects.old.items objects.new.items (eval_all_at c.now (values_of values.old.items) first) }
{
    let mut list = first;
    for turn in 0..c.code.len() {
        match cell_at(c.code, list) {
            Some(cell) => {
                let v = eval(c, objects, depth, cell.first)?;
                values.push(v)?;
                list = cell.rest;
            }
            None => return Ok(()),
        }
    }
    Err(Halt::NoMemory)
}
