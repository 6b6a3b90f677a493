//! Arrays and dictionaries, by their places: ECMA-262 5.1, 11.2.1, 11.4.1, 11.13.1, 15.4.
//!
//! Nothing is ever taken away from the heap.

ghost use Rattle.std.specs.Prelude.{◌≡◌, ◌++◌, [], ◌∷◌, length, pos, OnOk, IfOk, OnErr, IfNone, IfSome, ◌<◌, Some, None, true, false, if◌then◌else◌, option_map};
ghost use Rattle.js_tree.specs.Value as run;
ghost use Rattle.js_tree.specs.Value.{with_entry};
ghost use Rattle.js_tree.specs.Operation as defined;
ghost use Rattle.js_value.specs.ValueSeen.{value_of, values_of, str_bytes, entries_of, object_of, objects_of, object_at, popped_parts};

use crate::value::arithmetic::natural;
use crate::value::entries::{self, Entry};
use crate::value::value::{Str, Value, is_key};
use gj_base::NoMemory;

/// An array's elements, or a dictionary's entries.
#[derive(Drop)]
pub enum Object<'a> {
    Items(Vec<Value<'a>>),
    Entries(Vec<Entry<'a>>),
}

/// The place of the array or dictionary that a value is.
fn place_at<'a>(objects: &[Object<'a>], a: &Value<'a>) -> Option<usize>
    ensures found { IfSome result (λ id. (value_of a.now ≡ run.object id) × (id < length objects.now)) }
    ensures none { IfNone result (object_at (objects_of objects.now) (value_of a.now) ≡ None) }
{
    match a {
        Value::Object(id) => { if *id < objects.len() { Some(*id) } else { None } }
        _ => None,
    }
}

/// The array or dictionary that a value is.
fn object_at<'h, 'a>(objects: &'h [Object<'a>], a: &Value<'a>) -> Option<&'h Object<'a>>
    ensures value { option_map (λ o. object_of o.now) result ≡ object_at (objects_of objects.now) (value_of a.now) }
{
    match a {
        Value::Object(id) => objects.get(*id),
        _ => None,
    }
}

fn element_in<'a>(object: &Object<'a>, i: &Value<'a>) -> Result<Option<Value<'a>>, NoMemory>
    ensures value { IfOk result (λ v. option_map value_of v ≡ defined.element_in (Some (object_of object.now)) (value_of i.now)) }
{
    match (object, i) {
        (Object::Items(items), Value::Whole(i)) if i.n >= 0 => match items.get(i.n as usize) {
            Some(v) => {
                let v = v.again()?;
                Ok(Some(v))
            }
            None => Ok(None),
        },
        (Object::Entries(entries), Value::Bytes(k)) if is_key(k.as_bytes()) => {
            entries::lookup(entries.as_slice(), k.as_bytes())
        }
        _ => Ok(None),
    }
}

/// An element below the length, or what is under a key that is there.
pub fn element<'a>(
    objects: &[Object<'a>],
    a: &Value<'a>,
    i: &Value<'a>,
) -> Result<Option<Value<'a>>, NoMemory>
    ensures value { IfOk result (λ v. option_map value_of v ≡ defined.element (objects_of objects.now) (value_of a.now) (value_of i.now)) }
{
    match object_at(objects, a) {
        Some(object) => element_in(object, i),
        None => Ok(None),
    }
}

fn key_in<'a>(object: &Object<'a>, k: &Value<'a>) -> Option<bool>
    ensures value { option_map run.truth result ≡ defined.key_in (Some (object_of object.now)) (value_of k.now) }
{
    match (object, k) {
        (Object::Entries(entries), Value::Bytes(k)) if is_key(k.as_bytes()) => {
            Some(entries::has(entries.as_slice(), k.as_bytes()))
        }
        _ => None,
    }
}

/// Whether a dictionary has a key.
pub fn has_key<'a>(objects: &[Object<'a>], k: &Value<'a>, a: &Value<'a>) -> Option<bool>
    ensures value { option_map run.truth result ≡ defined.has_key (objects_of objects.now) (value_of k.now) (value_of a.now) }
{
    match object_at(objects, a) {
        Some(object) => key_in(object, k),
        None => None,
    }
}

fn length_in(object: &Object) -> Option<u64>
    ensures value { IfSome result (λ n. defined.length_in (Some (object_of object.now)) ≡ defined.in_range (pos n)) }
    ensures none { IfNone result (defined.length_in (Some (object_of object.now)) ≡ None) }
{
    match object {
        Object::Items(items) => Some(items.len() as u64),
        Object::Entries(_) => None,
    }
}

/// The length of an array or a string.
pub fn length_value<'a>(objects: &[Object<'a>], a: &Value<'a>) -> Option<Value<'a>>
    ensures value { option_map value_of result ≡ defined.length_value (objects_of objects.now) (value_of a.now) }
{
    let length = match a {
        Value::Bytes(s) => Some(s.as_bytes().len() as u64),
        _ => match object_at(objects, a) {
            Some(object) => length_in(object),
            None => None,
        },
    };
    match length {
        Some(n) => match natural(n) {
            Some(n) => Some(Value::Whole(n)),
            None => None,
        },
        None => None,
    }
}

fn set_item<'a>(items: &mut Vec<Value<'a>>, i: usize, v: Value<'a>) -> bool
    ensures value { defined.stored_in (Some (run.items (values_of items.old.items))) (run.whole (pos i)) (value_of v.entry) ≡ (if result then Some (run.items (values_of items.new.items)) else None) }
    ensures same { result ≡ false → items.new ≡ items.old }
{
    if i < items.len() {
        items[i] = v;
        true
    } else {
        false
    }
}

fn set_key<'a>(entries: &mut Vec<Entry<'a>>, k: &Str<'a>, v: Value<'a>) -> Result<bool, NoMemory>
    ensures done { IfOk result (λ done. done ≡ true) }
    ensures value { OnOk result (entries_of entries.new.items ≡ with_entry (str_bytes k.now) (value_of v.entry) (entries_of entries.old.items)) }
{
    let k = k.again()?;
    entries::set(entries, k, v)?;
    Ok(true)
}

fn store_in<'a>(object: &mut Object<'a>, i: &Value<'a>, v: Value<'a>) -> Result<bool, NoMemory>
    ensures value { IfOk result (λ done. defined.stored_in (Some (object_of object.old)) (value_of i.now) (value_of v.entry) ≡ (if done then Some (object_of object.new) else None)) }
    ensures same { IfOk result (λ done. done ≡ false → object_of object.new ≡ object_of object.old) }
{
    match (object, i) {
        (Object::Items(items), Value::Whole(i)) if i.n >= 0 => Ok(set_item(items, i.n as usize, v)),
        (Object::Entries(entries), Value::Bytes(k)) if is_key(k.as_bytes()) => {
            set_key(entries, k, v)
        }
        _ => Ok(false),
    }
}

/// Sets an element below the length, or under a key; false where there is none.
pub fn store<'a>(
    objects: &mut Vec<Object<'a>>,
    a: &Value<'a>,
    i: &Value<'a>,
    v: Value<'a>,
) -> Result<bool, NoMemory>
    ensures value { IfOk result (λ done. defined.stored (objects_of objects.old.items) (value_of a.now) (value_of i.now) (value_of v.entry) ≡ (if done then Some (objects_of objects.new.items) else None)) }
    ensures same { IfOk result (λ done. done ≡ false → objects_of objects.new.items ≡ objects_of objects.old.items) }
{
    match place_at(objects.as_slice(), a) {
        Some(id) => store_in(&mut objects[id], i, v),
        None => Ok(false),
    }
}

fn remove_in<'a>(object: &mut Object<'a>, k: &Value<'a>) -> bool
    ensures value { defined.removed_in (Some (object_of object.old)) (value_of k.now) ≡ (if result then Some (object_of object.new) else None) }
    ensures same { result ≡ false → object_of object.new ≡ object_of object.old }
{
    match (object, k) {
        (Object::Entries(entries), Value::Bytes(k)) if is_key(k.as_bytes()) => {
            entries::remove(entries, k.as_bytes());
            true
        }
        _ => false,
    }
}

/// Takes a key away from a dictionary; false where there is none.
pub fn remove<'a>(objects: &mut Vec<Object<'a>>, a: &Value<'a>, k: &Value<'a>) -> bool
    ensures value { defined.removed (objects_of objects.old.items) (value_of a.now) (value_of k.now) ≡ (if result then Some (objects_of objects.new.items) else None) }
    ensures same { result ≡ false → objects_of objects.new.items ≡ objects_of objects.old.items }
{
    match place_at(objects.as_slice(), a) {
        Some(id) => remove_in(&mut objects[id], k),
        None => false,
    }
}

fn push_in<'a>(object: &mut Object<'a>, v: Value<'a>) -> Result<bool, NoMemory>
    ensures value { IfOk result (λ done. defined.pushed_in (Some (object_of object.old)) (value_of v.entry) ≡ (if done then Some (object_of object.new) else None)) }
    ensures same { IfOk result (λ done. done ≡ false → object_of object.new ≡ object_of object.old) }
{
    match object {
        Object::Items(items) => {
            items.push(v)?;
            Ok(true)
        }
        Object::Entries(_) => Ok(false),
    }
}

/// Puts an element at the end of an array; false where there is none.
pub fn push<'a>(
    objects: &mut Vec<Object<'a>>,
    a: &Value<'a>,
    v: Value<'a>,
) -> Result<bool, NoMemory>
    ensures value { IfOk result (λ done. defined.pushed (objects_of objects.old.items) (value_of a.now) (value_of v.entry) ≡ (if done then Some (objects_of objects.new.items) else None)) }
    ensures same { IfOk result (λ done. done ≡ false → objects_of objects.new.items ≡ objects_of objects.old.items) }
{
    match place_at(objects.as_slice(), a) {
        Some(id) => push_in(&mut objects[id], v),
        None => Ok(false),
    }
}

fn pop_in<'a>(object: &mut Object<'a>) -> Option<Value<'a>>
    ensures value { popped_parts (object_of object.old) ≡ option_map (λ v. (value_of v, object_of object.new)) result }
    ensures same { IfNone result (object_of object.new ≡ object_of object.old) }
{
    match object {
        Object::Items(items) => items.pop(),
        Object::Entries(_) => None,
    }
}

/// Takes the last element of an array that has one.
pub fn pop<'a>(objects: &mut Vec<Object<'a>>, a: &Value<'a>) -> Option<Value<'a>>
    ensures value { defined.popped (objects_of objects.old.items) (value_of a.now) ≡ option_map (λ v. (value_of v, objects_of objects.new.items)) result }
    ensures same { IfNone result (objects_of objects.new.items ≡ objects_of objects.old.items) }
{
    match place_at(objects.as_slice(), a) {
        Some(id) => pop_in(&mut objects[id]),
        None => None,
    }
}

/// A new array or dictionary.
pub fn allocate<'a>(
    objects: &mut Vec<Object<'a>>,
    object: Object<'a>,
) -> Result<Value<'a>, NoMemory>
    ensures made { IfOk result (λ v. value_of v ≡ run.object (length (objects_of objects.old.items))) }
    ensures kept { OnOk result (objects_of objects.new.items ≡ objects_of objects.old.items ++ object_of object.entry ∷ []) }
{
    let id = objects.len();
    objects.push(object)?;
    Ok(Value::Object(id))
}
