//! Arrays and dictionaries, by their places: ECMA-262 5.1, 11.2.1, 11.4.1, 11.13.1, 15.4.
//!
//! Nothing is ever taken away from the heap. An array that was made of n values takes 16 n bytes
//! and 32 for its place among the objects.

ghost use Rattle.std.specs.Prelude.{◌≡◌, ◌++◌, [], ◌∷◌, length, pos, OnOk, IfOk, OnErr, IfNone, IfSome, ◌<◌, Some, None, true, false, if◌then◌else◌, option_map};
ghost use Rattle.js_tree.specs.Value as run;
ghost use Rattle.js_tree.specs.Operation as defined;
ghost use Rattle.js_value.specs.HeapSeen.{value_of, values_of, entries_of, object_of, objects_of, object_at, popped_parts};

use crate::heap::dictionary::{self, Entries};
use crate::heap::value::{Value, is_key};
use crate::value::arithmetic::natural;
use gj_base::NoMemory;

/// An array's elements, or a dictionary's entries.
#[derive(Drop)]
pub enum Object<'a> {
    Items(Vec<Value<'a>>),
    Entries(Box<Entries<'a>>),
}

/// The place of the array or dictionary that a value is.
fn place_at<'a>(objects: &[Object<'a>], a: Value<'a>) -> Option<usize>
    ensures found { IfSome result (λ id. (value_of a.entry ≡ run.object id) × (id < length objects.now)) }
    ensures none { IfNone result (object_at (objects_of objects.now) (value_of a.entry) ≡ None) }
{
    match a {
        Value::Object(id) => {
            let id = id as usize;
            if id < objects.len() { Some(id) } else { None }
        }
        _ => None,
    }
}

/// The array or dictionary that a value is.
fn object_at<'h, 'a>(objects: &'h [Object<'a>], a: Value<'a>) -> Option<&'h Object<'a>>
    ensures value { option_map (λ o. object_of o.now) result ≡ object_at (objects_of objects.now) (value_of a.entry) }
{
    match a {
        Value::Object(id) => objects.get(id as usize),
        _ => None,
    }
}

fn under_key<'a>(entries: &Entries<'a>, k: &'a [u8]) -> Option<Value<'a>>
    ensures value { option_map value_of result ≡ defined.element_in (Some (run.entries (entries_of entries.now.entries))) (run.bytes k.now) }
{
    if is_key(k) {
        dictionary::lookup(entries, k)
    } else {
        None
    }
}

fn element_in<'a>(object: &Object<'a>, i: Value<'a>) -> Option<Value<'a>>
    ensures value { option_map value_of result ≡ defined.element_in (Some (object_of object.now)) (value_of i.entry) }
{
    match (object, i) {
        (Object::Items(items), Value::Whole(i)) if i.n >= 0 => items.get(i.n as usize).copied(),
        (Object::Entries(entries), Value::Literal(k)) => under_key(entries, k.as_bytes()),
        (Object::Entries(entries), Value::Made(k)) => under_key(entries, *k.bytes),
        _ => None,
    }
}

/// An element below the length, or what is under a key that is there.
pub fn element<'a>(objects: &[Object<'a>], a: Value<'a>, i: Value<'a>) -> Option<Value<'a>>
    ensures value { option_map value_of result ≡ defined.element (objects_of objects.now) (value_of a.entry) (value_of i.entry) }
{
    match object_at(objects, a) {
        Some(object) => element_in(object, i),
        None => None,
    }
}

fn is_under_key<'a>(entries: &Entries<'a>, k: &'a [u8]) -> Option<bool>
    ensures value { option_map run.truth result ≡ defined.key_in (Some (run.entries (entries_of entries.now.entries))) (run.bytes k.now) }
{
    if is_key(k) {
        Some(dictionary::has(entries, k))
    } else {
        None
    }
}

fn key_in<'a>(object: &Object<'a>, k: Value<'a>) -> Option<bool>
    ensures value { option_map run.truth result ≡ defined.key_in (Some (object_of object.now)) (value_of k.entry) }
{
    match (object, k) {
        (Object::Entries(entries), Value::Literal(k)) => is_under_key(entries, k.as_bytes()),
        (Object::Entries(entries), Value::Made(k)) => is_under_key(entries, *k.bytes),
        _ => None,
    }
}

/// Whether a dictionary has a key.
pub fn has_key<'a>(objects: &[Object<'a>], k: Value<'a>, a: Value<'a>) -> Option<bool>
    ensures value { option_map run.truth result ≡ defined.has_key (objects_of objects.now) (value_of k.entry) (value_of a.entry) }
{
    match object_at(objects, a) {
        Some(object) => key_in(object, k),
        None => None,
    }
}

fn length_in(object: &Object) -> Option<u64>
    ensures value { IfSome result (λ n. defined.length_in (Some (object_of object.now)) ≡ defined.in_range (pos n)) }
    ensures none { IfNone result (defined.length_in (Some (object_of object.now)) ≡ None) }
{
    match object {
        Object::Items(items) => Some(items.len() as u64),
        Object::Entries(_) => None,
    }
}

fn counted<'a>(n: u64) -> Option<Value<'a>>
    ensures value { option_map value_of result ≡ defined.in_range (pos n) }
{
    match natural(n) {
        Some(n) => Some(Value::Whole(n)),
        None => None,
    }
}

fn length_of<'a>(objects: &[Object<'a>], a: Value<'a>) -> Option<u64>
    ensures value { IfSome result (λ n. defined.length_value (objects_of objects.now) (value_of a.entry) ≡ defined.in_range (pos n)) }
    ensures none { IfNone result (defined.length_value (objects_of objects.now) (value_of a.entry) ≡ None) }
{
    match a {
        Value::Literal(s) => Some(s.as_bytes().len() as u64),
        Value::Made(s) => Some(s.bytes.len() as u64),
        _ => match object_at(objects, a) {
            Some(object) => length_in(object),
            None => None,
        },
    }
}

/// The length of an array or a string.
pub fn length_value<'a>(objects: &[Object<'a>], a: Value<'a>) -> Option<Value<'a>>
    ensures value { option_map value_of result ≡ defined.length_value (objects_of objects.now) (value_of a.entry) }
{
    match length_of(objects, a) {
        Some(n) => counted(n),
        None => None,
    }
}

fn set_item<'a>(items: &mut Vec<Value<'a>>, i: usize, v: Value<'a>) -> bool
    ensures value { defined.stored_in (Some (run.items (values_of items.old.items))) (run.whole (pos i)) (value_of v.entry) ≡ (if result then Some (run.items (values_of items.new.items)) else None) }
    ensures same { result ≡ false → items.new ≡ items.old }
{
    if i < items.len() {
        items[i] = v;
        true
    } else {
        false
    }
}

fn set_key<'a>(entries: &mut Entries<'a>, k: &'a [u8], v: Value<'a>) -> Result<bool, NoMemory>
    ensures value { IfOk result (λ done. defined.stored_in (Some (run.entries (entries_of entries.old.entries))) (run.bytes k.now) (value_of v.entry) ≡ (if done then Some (run.entries (entries_of entries.new.entries)) else None)) }
    ensures same { IfOk result (λ done. done ≡ false → entries.new ≡ entries.old) }
{
    if !is_key(k) {
        return Ok(false);
    }
    dictionary::set(entries, k, v)?;
    Ok(true)
}

fn store_in<'a>(object: &mut Object<'a>, i: Value<'a>, v: Value<'a>) -> Result<bool, NoMemory>
    ensures value { IfOk result (λ done. defined.stored_in (Some (object_of object.old)) (value_of i.entry) (value_of v.entry) ≡ (if done then Some (object_of object.new) else None)) }
    ensures same { IfOk result (λ done. done ≡ false → object_of object.new ≡ object_of object.old) }
{
    match (object, i) {
        (Object::Items(items), Value::Whole(i)) if i.n >= 0 => Ok(set_item(items, i.n as usize, v)),
        (Object::Entries(entries), Value::Literal(k)) => set_key(entries, k.as_bytes(), v),
        (Object::Entries(entries), Value::Made(k)) => set_key(entries, *k.bytes, v),
        _ => Ok(false),
    }
}

/// Sets an element below the length, or under a key; false where there is none.
pub fn store<'a>(
    objects: &mut Vec<Object<'a>>,
    a: Value<'a>,
    i: Value<'a>,
    v: Value<'a>,
) -> Result<bool, NoMemory>
    ensures value { IfOk result (λ done. defined.stored (objects_of objects.old.items) (value_of a.entry) (value_of i.entry) (value_of v.entry) ≡ (if done then Some (objects_of objects.new.items) else None)) }
    ensures same { IfOk result (λ done. done ≡ false → objects_of objects.new.items ≡ objects_of objects.old.items) }
{
    match place_at(objects.as_slice(), a) {
        Some(id) => store_in(&mut objects[id], i, v),
        None => Ok(false),
    }
}

fn remove_key<'a>(entries: &mut Entries<'a>, k: &'a [u8]) -> bool
    ensures value { defined.removed_in (Some (run.entries (entries_of entries.old.entries))) (run.bytes k.now) ≡ (if result then Some (run.entries (entries_of entries.new.entries)) else None) }
    ensures same { result ≡ false → entries.new ≡ entries.old }
{
    if !is_key(k) {
        return false;
    }
    dictionary::remove(entries, k);
    true
}

fn remove_in<'a>(object: &mut Object<'a>, k: Value<'a>) -> bool
    ensures value { defined.removed_in (Some (object_of object.old)) (value_of k.entry) ≡ (if result then Some (object_of object.new) else None) }
    ensures same { result ≡ false → object_of object.new ≡ object_of object.old }
{
    match (object, k) {
        (Object::Entries(entries), Value::Literal(k)) => remove_key(entries, k.as_bytes()),
        (Object::Entries(entries), Value::Made(k)) => remove_key(entries, *k.bytes),
        _ => false,
    }
}

/// Takes a key away from a dictionary; false where there is none.
pub fn remove<'a>(objects: &mut Vec<Object<'a>>, a: Value<'a>, k: Value<'a>) -> bool
    ensures value { defined.removed (objects_of objects.old.items) (value_of a.entry) (value_of k.entry) ≡ (if result then Some (objects_of objects.new.items) else None) }
    ensures same { result ≡ false → objects_of objects.new.items ≡ objects_of objects.old.items }
{
    match place_at(objects.as_slice(), a) {
        Some(id) => remove_in(&mut objects[id], k),
        None => false,
    }
}

fn push_in<'a>(object: &mut Object<'a>, v: Value<'a>) -> Result<bool, NoMemory>
    ensures value { IfOk result (λ done. defined.pushed_in (Some (object_of object.old)) (value_of v.entry) ≡ (if done then Some (object_of object.new) else None)) }
    ensures same { IfOk result (λ done. done ≡ false → object_of object.new ≡ object_of object.old) }
{
    match object {
        Object::Items(items) => {
            items.push(v)?;
            Ok(true)
        }
        Object::Entries(_) => Ok(false),
    }
}

/// Puts an element at the end of an array; false where there is none.
pub fn push<'a>(objects: &mut Vec<Object<'a>>, a: Value<'a>, v: Value<'a>) -> Result<bool, NoMemory>
    ensures value { IfOk result (λ done. defined.pushed (objects_of objects.old.items) (value_of a.entry) (value_of v.entry) ≡ (if done then Some (objects_of objects.new.items) else None)) }
    ensures same { IfOk result (λ done. done ≡ false → objects_of objects.new.items ≡ objects_of objects.old.items) }
{
    match place_at(objects.as_slice(), a) {
        Some(id) => push_in(&mut objects[id], v),
        None => Ok(false),
    }
}

fn pop_in<'a>(object: &mut Object<'a>) -> Option<Value<'a>>
    ensures value { popped_parts (object_of object.old) ≡ option_map (λ v. (value_of v, object_of object.new)) result }
    ensures same { IfNone result (object_of object.new ≡ object_of object.old) }
{
    match object {
        Object::Items(items) => items.pop(),
        Object::Entries(_) => None,
    }
}

/// Takes the last element of an array that has one.
pub fn pop<'a>(objects: &mut Vec<Object<'a>>, a: Value<'a>) -> Option<Value<'a>>
    ensures value { defined.popped (objects_of objects.old.items) (value_of a.entry) ≡ option_map (λ v. (value_of v, objects_of objects.new.items)) result }
    ensures same { IfNone result (objects_of objects.new.items ≡ objects_of objects.old.items) }
{
    match place_at(objects.as_slice(), a) {
        Some(id) => pop_in(&mut objects[id]),
        None => None,
    }
}

/// A new array or dictionary; there is room for fewer than 2^32.
pub fn allocate<'a>(
    objects: &mut Vec<Object<'a>>,
    object: Object<'a>,
) -> Result<Value<'a>, NoMemory>
    ensures made { IfOk result (λ v. value_of v ≡ run.object (length (objects_of objects.old.items))) }
    ensures kept { OnOk result (objects_of objects.new.items ≡ objects_of objects.old.items ++ object_of object.entry ∷ []) }
{
    let id = objects.len();
    if id > u32::MAX as usize {
        return Err(NoMemory);
    }
    objects.push(object)?;
    Ok(Value::Object(id as u32))
}
