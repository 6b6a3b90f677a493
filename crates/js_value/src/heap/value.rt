//! Values, which are copied as they are: ECMA-262 5.1, 8.

ghost use Rattle.std.specs.Prelude.{◌≡◌, IfOk};
ghost use Rattle.js_tree.specs.Value as run;
ghost use Rattle.js_tree.specs.Operation.{is_key, same_value};
ghost use Rattle.js_value.specs.HeapSeen.{value_of};

use crate::value::number::Number;
use bumpalo::Bump;
use gj_base::{NoMemory, Text};

/// The bytes of a string that was made.
#[derive(Clone, Copy)]
pub struct MadeBytes<'a> {
    pub bytes: &'a &'a [u8],
}

/// A value of a script, in 16 bytes. Copying one copies no bytes of a string.
#[derive(Clone, Copy)]
pub enum Value<'a> {
    Whole(Number),
    /// A string that stands in the script.
    Literal(&'a Text),
    /// A string that was made.
    Made(MadeBytes<'a>),
    Truth(bool),
    Nothing,
    /// An array or a dictionary, by its place among the objects.
    Object(u32),
    /// A function by its name, with the number under which the run keeps it.
    Function(u32, &'a Text),
}

/// The string of bytes that lie in the arena.
pub fn kept<'a>(arena: &'a Bump, bytes: &'a [u8]) -> Result<Value<'a>, NoMemory>
    ensures value { IfOk result (λ v. value_of v ≡ run.bytes bytes.now) }
{
    let bytes: &'a &'a [u8] = arena.try_alloc(bytes)?;
    Ok(Value::Made(MadeBytes { bytes }))
}

/// A string of these bytes, which the arena keeps.
pub fn made<'a>(arena: &'a Bump, bytes: &[u8]) -> Result<Value<'a>, NoMemory>
    ensures value { IfOk result (λ v. value_of v ≡ run.bytes bytes.now) }
{
    let bytes: &'a [u8] = arena.try_alloc_slice_copy(bytes)?;
    kept(arena, bytes)
}

/// Whether two values are the same: 11.9.6.
pub fn same_value(a: Value, b: Value) -> bool
    ensures value { result ≡ same_value (value_of a.entry) (value_of b.entry) }
{
    match (a, b) {
        (Value::Whole(x), Value::Whole(y)) => x.n == y.n,
        (Value::Literal(s), Value::Literal(t)) => s.as_bytes() == t.as_bytes(),
        (Value::Literal(s), Value::Made(t)) => s.as_bytes() == *t.bytes,
        (Value::Made(s), Value::Literal(t)) => *s.bytes == t.as_bytes(),
        (Value::Made(s), Value::Made(t)) => *s.bytes == *t.bytes,
        (Value::Truth(a), Value::Truth(b)) => a == b,
        (Value::Nothing, Value::Nothing) => true,
        (Value::Object(a), Value::Object(b)) => a == b,
        (Value::Function(_, x), Value::Function(_, y)) => x.as_bytes() == y.as_bytes(),
        _ => false,
    }
}

/// Whether a string may be a key of a dictionary: it begins with `$`.
pub fn is_key(name: &[u8]) -> bool
    ensures value { result ≡ is_key name.now }
{
    match name {
        [first, ..] => *first == b'$',
        [] => false,
    }
}
