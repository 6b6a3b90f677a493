//! The operations of expressions on values, at an offset: ECMA-262 5.1, 11.

ghost use Rattle.std.specs.Prelude.{◌≡◌, pos, option_map, IfOk};
ghost use Rattle.js_tree.specs.Operation as defined;
ghost use Rattle.js_tree.specs.Evaluate as part;
ghost use Rattle.js_tree.specs.Value as run;
ghost use Rattle.js_value.specs.HeapSeen.{value_of, objects_of, object_of};
ghost use Rattle.js_code.specs.Slots.{slot_value};
ghost use Rattle.js_simple.specs.Seen.{Anywhere, Changes, slots_in};

use crate::state::{Halt, Slot};
use bumpalo::Bump;
use gj_base::NoMemory;
use js_tree::BinaryOp;
use js_value::heap::heap::{self, Object};
use js_value::heap::operate::on_values;
use js_value::heap::value::{Value, same_value};
use js_value::value::arithmetic;

/// A value that may be missing: without it the operation at the offset has no meaning.
#[inline(always)]
pub fn given<'a>(at: u32, value: Option<Value<'a>>) -> Result<Value<'a>, Halt>
    ensures value { Anywhere value_of result (run.given at (option_map value_of value.entry)) }
{
    match value {
        Some(v) => Ok(v),
        None => Err(Halt::Stuck(at)),
    }
}

/// A boolean as a condition.
#[inline(always)]
pub fn truth_of<'a>(at: u32, value: Value<'a>) -> Result<bool, Halt>
    ensures value { Anywhere (λ b. b) result (part.truth_of at (value_of value.entry)) }
{
    match value {
        Value::Truth(b) => Ok(b),
        _ => Err(Halt::Stuck(at)),
    }
}

/// A number of the script.
#[inline(always)]
pub fn number<'a>(at: u32, n: u64) -> Result<Value<'a>, Halt>
    ensures value { Anywhere value_of result (run.given at (defined.in_range (pos n))) }
{
    match arithmetic::natural(n) {
        Some(n) => Ok(Value::Whole(n)),
        None => Err(Halt::Stuck(at)),
    }
}

/// What has been set in a slot.
#[inline(always)]
pub fn slot_value<'a>(slots: &[Slot<'a>], slot: u32) -> Slot<'a>
    ensures value { option_map value_of result ≡ slot_value (slots_in slots.now) slot }
{
    match slots.get(slot as usize) {
        Some(value) => *value,
        None => None,
    }
}

#[inline(always)]
fn binary_value<'a>(
    arena: &'a Bump,
    objects: &[Object<'a>],
    op: BinaryOp,
    a: Value<'a>,
    b: Value<'a>,
) -> Result<Option<Value<'a>>, NoMemory>
    ensures value { IfOk result (λ v. option_map value_of v ≡ defined.binary_value (objects_of objects.now) op (value_of a.entry) (value_of b.entry)) }
{
    match op {
        BinaryOp::Same => Ok(Some(Value::Truth(same_value(a, b)))),
        BinaryOp::Different => Ok(Some(Value::Truth(!same_value(a, b)))),
        BinaryOp::In => match heap::has_key(objects, a, b) {
            Some(b) => Ok(Some(Value::Truth(b))),
            None => Ok(None),
        },
        _ => on_values(arena, op, a, b),
    }
}

/// An operator between two values: 11.5 to 11.10.
#[inline(always)]
pub fn binary<'a>(
    arena: &'a Bump,
    objects: &[Object<'a>],
    at: u32,
    op: BinaryOp,
    a: Value<'a>,
    b: Value<'a>,
) -> Result<Value<'a>, Halt>
    ensures value { Anywhere value_of result (run.given at (defined.binary_value (objects_of objects.now) op (value_of a.entry) (value_of b.entry))) }
{
    let value = binary_value(arena, objects, op, a, b)?;
    given(at, value)
}

/// Takes the last element of an array that has one: 15.4.4.6.
#[inline(always)]
pub fn pop<'a>(objects: &mut Vec<Object<'a>>, at: u32, a: Value<'a>) -> Result<Value<'a>, Halt>
    ensures value { Changes value_of result objects.old.items objects.new.items (λ w. run.and_then (run.given at (defined.popped w.objects (value_of a.entry)) w) part.after_pop) }
{
    match heap::pop(objects, a) {
        Some(v) => Ok(v),
        None => Err(Halt::Stuck(at)),
    }
}

/// A new array or dictionary: 11.1.4.
pub fn allocate<'a>(objects: &mut Vec<Object<'a>>, object: Object<'a>) -> Result<Value<'a>, Halt>
    ensures value { Changes value_of result objects.old.items objects.new.items (part.allocated (object_of object.entry)) }
{
    let value = heap::allocate(objects, object)?;
    Ok(value)
}
