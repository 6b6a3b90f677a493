//! The operations of expressions and statements on values in the world: ECMA-262 5.1, 11.

ghost use Rattle.std.specs.Prelude.{◌≡◌, pos, option_map, IfOk};
ghost use Rattle.js_tree.specs.Operation as defined;
ghost use Rattle.js_tree.specs.Evaluate as part;
ghost use Rattle.js_tree.specs.Value as run;
ghost use Rattle.js_value.specs.ValueSeen.{value_of, objects_of, object_of};
ghost use Rattle.js_eval.specs.Seen.{world_of, flow_of, frame_of, Does, DoesIn, DoesAnywhere};

use crate::state::{End, Flow, Stop};
use crate::world::World;
use gj_base::NoMemory;
use js_tree::BinaryOp;
use js_value::value::arithmetic;
use js_value::value::entries::Entry;
use js_value::value::heap::{self, Object};
use js_value::value::operate::on_values;
use js_value::value::value::{Value, same_value};
use std::alloc::Global;

/// A value that may be missing: without it the operation at the offset has no meaning.
pub fn given<'a>(at: u32, value: Option<Value<'a>>) -> Result<Value<'a>, Stop<'a>>
    ensures value { DoesAnywhere value_of result (run.given at (option_map value_of value.entry)) }
{
    match value {
        Some(v) => Ok(v),
        None => Err(Stop::Over(End::Stuck(at))),
    }
}

/// A boolean as a condition.
pub fn truth_of<'a>(at: u32, value: &Value<'a>) -> Result<bool, Stop<'a>>
    ensures value { DoesAnywhere (λ b. b) result (part.truth_of at (value_of value.now)) }
{
    match value {
        Value::Truth(b) => Ok(*b),
        _ => Err(Stop::Over(End::Stuck(at))),
    }
}

/// A number of the script.
pub fn number<'a>(at: u32, n: u64) -> Result<Value<'a>, Stop<'a>>
    ensures value { DoesAnywhere value_of result (run.given at (defined.in_range (pos n))) }
{
    match arithmetic::natural(n) {
        Some(n) => Ok(Value::Whole(n)),
        None => Err(Stop::Over(End::Stuck(at))),
    }
}

/// Whether a value is a number: 12.11.
pub fn is_number(value: &Value, n: u64) -> bool
    ensures value { result ≡ defined.same_value (value_of value.now) (run.whole (pos n)) }
{
    match value {
        Value::Whole(x) => x.n >= 0 && x.n as u64 == n,
        _ => false,
    }
}

// An operator between two values: 11.5 to 11.10.
fn binary_value<'a>(
    alloc: Global,
    objects: &[Object<'a>],
    op: BinaryOp,
    a: &Value<'a>,
    b: &Value<'a>,
) -> Result<Option<Value<'a>>, NoMemory>
    ensures value { IfOk result (λ v. option_map value_of v ≡ defined.binary_value (objects_of objects.now) op (value_of a.now) (value_of b.now)) }
{
    match op {
        BinaryOp::Same => Ok(Some(Value::Truth(same_value(a, b)))),
        BinaryOp::Different => Ok(Some(Value::Truth(!same_value(a, b)))),
        BinaryOp::In => match heap::has_key(objects, a, b) {
            Some(b) => Ok(Some(Value::Truth(b))),
            None => Ok(None),
        },
        _ => on_values(alloc, op, a, b),
    }
}

/// An operator between two values, at an offset: 11.5 to 11.10.
pub fn binary<'a>(
    alloc: Global,
    world: &World<'a>,
    at: u32,
    op: BinaryOp,
    a: &Value<'a>,
    b: &Value<'a>,
) -> Result<Value<'a>, Stop<'a>>
    ensures value { Does value_of result world.now (λ _. run.given at (defined.binary_value (objects_of world.now.objects.items) op (value_of a.now) (value_of b.now)) (world_of world.now)) }
{
    let value = binary_value(alloc, world.objects.as_slice(), op, a, b)?;
    given(at, value)
}

/// An element below the length, or what is under a key that is there: 11.2.1.
pub fn element<'a>(
    world: &World<'a>,
    at: u32,
    a: &Value<'a>,
    i: &Value<'a>,
) -> Result<Value<'a>, Stop<'a>>
    ensures value { Does value_of result world.now (λ _. run.given at (defined.element (objects_of world.now.objects.items) (value_of a.now) (value_of i.now)) (world_of world.now)) }
{
    let value = heap::element(world.objects.as_slice(), a, i)?;
    given(at, value)
}

/// The length of an array or a string: 15.4.5.2, 15.5.5.1.
pub fn length<'a>(world: &World<'a>, at: u32, a: &Value<'a>) -> Result<Value<'a>, Stop<'a>>
    ensures value { Does value_of result world.now (λ _. run.given at (defined.length_value (objects_of world.now.objects.items) (value_of a.now)) (world_of world.now)) }
{
    given(at, heap::length_value(world.objects.as_slice(), a))
}

/// Takes the last element of an array that has one: 15.4.4.6.
pub fn pop<'a>(world: &mut World<'a>, at: u32, a: &Value<'a>) -> Result<Value<'a>, Stop<'a>>
    ensures value { Does value_of result world.new (λ _. run.and_then (run.given at (defined.popped (objects_of world.old.objects.items) (value_of a.now)) (world_of world.old)) part.after_pop) }
{
    match heap::pop(&mut world.objects, a) {
        Some(v) => Ok(v),
        None => Err(Stop::Over(End::Stuck(at))),
    }
}

/// A new array or dictionary: 11.1.4.
pub fn allocate<'a>(world: &mut World<'a>, object: Object<'a>) -> Result<Value<'a>, Stop<'a>>
    ensures value { Does value_of result world.new (λ _. part.allocated (object_of object.entry) (world_of world.old)) }
{
    let value = heap::allocate(&mut world.objects, object)?;
    Ok(value)
}

/// Sets an element below the length, or under a key: 11.13.1.
pub fn store<'a>(
    locals: &[Entry<'a>],
    world: &mut World<'a>,
    at: u32,
    a: &Value<'a>,
    i: &Value<'a>,
    v: Value<'a>,
) -> Result<Flow<'a>, Stop<'a>>
    ensures value { DoesIn flow_of result locals.now world.new (λ _. part.done at (defined.stored (objects_of world.old.objects.items) (value_of a.now) (value_of i.now) (value_of v.entry)) (frame_of locals.now world.old)) }
{
    if heap::store(&mut world.objects, a, i, v)? {
        return Ok(Flow::Onward);
    }
    Err(Stop::Over(End::Stuck(at)))
}

/// Puts an element at the end of an array: 15.4.4.7.
pub fn push<'a>(
    locals: &[Entry<'a>],
    world: &mut World<'a>,
    at: u32,
    a: &Value<'a>,
    v: Value<'a>,
) -> Result<Flow<'a>, Stop<'a>>
    ensures value { DoesIn flow_of result locals.now world.new (λ _. part.done at (defined.pushed (objects_of world.old.objects.items) (value_of a.now) (value_of v.entry)) (frame_of locals.now world.old)) }
{
    if heap::push(&mut world.objects, a, v)? {
        return Ok(Flow::Onward);
    }
    Err(Stop::Over(End::Stuck(at)))
}

/// Takes a key away from a dictionary: 11.4.1.
pub fn remove<'a>(
    locals: &[Entry<'a>],
    world: &mut World<'a>,
    at: u32,
    a: &Value<'a>,
    k: &Value<'a>,
) -> Result<Flow<'a>, Stop<'a>>
    ensures value { DoesIn flow_of result locals.now world.new (λ _. part.done at (defined.removed (objects_of world.old.objects.items) (value_of a.now) (value_of k.now)) (frame_of locals.now world.old)) }
{
    if heap::remove(&mut world.objects, a, k) {
        return Ok(Flow::Onward);
    }
    Err(Stop::Over(End::Stuck(at)))
}
