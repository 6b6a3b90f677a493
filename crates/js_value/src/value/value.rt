//! The values of a script: ECMA-262 5.1, 8.

ghost use Rattle.std.specs.Prelude.{◌≡◌, IfOk, option_map};
ghost use Rattle.js_tree.specs.Operation.{is_key, same_value};
ghost use Rattle.js_value.specs.ValueSeen.{str_bytes, value_of};

use crate::value::number::Number;
use gj_base::{NoMemory, Text};
use std::rc::Rc;

/// A string: one that stands in the script, or one that was made.
#[derive(Drop)]
pub enum Str<'a> {
    Literal(&'a Text),
    Made(Rc<Text>),
}

impl<'a> Str<'a> {
    /// The bytes.
    pub fn as_bytes(&self) -> &[u8]
        ensures value { result.now ≡ str_bytes self.now }
    {
        match self {
            Str::Literal(text) => text.as_bytes(),
            Str::Made(text) => text.as_ref().as_bytes(),
        }
    }

    /// The same string; copies no bytes.
    pub fn again(&self) -> Result<Str<'a>, NoMemory>
        ensures value { IfOk result (λ s. str_bytes s ≡ str_bytes self.now) }
    {
        match self {
            Str::Literal(text) => Ok(Str::Literal(*text)),
            Str::Made(text) => {
                let text = text.clone()?;
                Ok(Str::Made(text))
            }
        }
    }
}

/// A value of a script. A function is known by its name.
#[derive(Drop)]
pub enum Value<'a> {
    Whole(Number),
    Bytes(Str<'a>),
    Truth(bool),
    Nothing,
    /// An array or a dictionary, by its place among the objects.
    Object(usize),
    Function(&'a Text),
}

impl<'a> Value<'a> {
    /// The same value; copies no bytes.
    pub fn again(&self) -> Result<Value<'a>, NoMemory>
        ensures value { IfOk result (λ v. value_of v ≡ value_of self.now) }
    {
        match self {
            Value::Whole(n) => Ok(Value::Whole(*n)),
            Value::Bytes(s) => {
                let s = s.again()?;
                Ok(Value::Bytes(s))
            }
            Value::Truth(b) => Ok(Value::Truth(*b)),
            Value::Nothing => Ok(Value::Nothing),
            Value::Object(id) => Ok(Value::Object(*id)),
            Value::Function(x) => Ok(Value::Function(*x)),
        }
    }
}

/// Whether two values are the same: 11.9.6.
pub fn same_value(a: &Value, b: &Value) -> bool
    ensures value { result ≡ same_value (value_of a.now) (value_of b.now) }
{
    match (a, b) {
        (Value::Whole(x), Value::Whole(y)) => x.n == y.n,
        (Value::Bytes(s), Value::Bytes(t)) => s.as_bytes() == t.as_bytes(),
        (Value::Truth(a), Value::Truth(b)) => *a == *b,
        (Value::Nothing, Value::Nothing) => true,
        (Value::Object(a), Value::Object(b)) => *a == *b,
        (Value::Function(x), Value::Function(y)) => x.as_bytes() == y.as_bytes(),
        _ => false,
    }
}

/// Whether a string may be a key of a dictionary: it begins with `$`.
pub fn is_key(name: &[u8]) -> bool
    ensures value { result ≡ is_key name.now }
{
    match name {
        [first, ..] => *first == b'$',
        [] => false,
    }
}
