//! What is let go where memory runs out.

ghost use Rattle.std.specs.Prelude.{◌≡◌, Err};

use crate::ends::gone::{gone, gone_name, gone_stack, gone_tree};
use crate::frames::frame::{Braces, Frame, Value};
use crate::frames::stack::{Answer, Stack};
use gj_base::NoMemory;
use go_syntax::tree::Name;

/// The stack.
pub fn lost(error: NoMemory, stack: Stack) -> Answer
    ensures value { result ≡ Err error }
{
    gone_stack(stack);
    Err(error)
}

/// The same, at this frame.
pub fn lost_at(error: NoMemory, frame: Frame, stack: Stack) -> Answer
    ensures value { result ≡ Err error }
{
    gone(frame);
    gone_stack(stack);
    Err(error)
}

/// The same, at this frame and a tree.
pub fn lost_with(error: NoMemory, frame: Frame, value: Value, stack: Stack) -> Answer
    ensures value { result ≡ Err error }
{
    gone(frame);
    gone_tree(value);
    gone_stack(stack);
    Err(error)
}

/// A frame alone.
pub fn lost_frame(error: NoMemory, frame: Frame) -> Answer
    ensures value { result ≡ Err error }
{
    gone(frame);
    Err(error)
}

/// A tree alone.
pub fn lost_tree(error: NoMemory, value: Value) -> Answer
    ensures value { result ≡ Err error }
{
    gone_tree(value);
    Err(error)
}

/// The name of a guard, and the stack.
pub fn lost_name(error: NoMemory, name: Option<Name>, stack: Stack) -> Answer
    ensures value { result ≡ Err error }
{
    gone_name(name);
    gone_stack(stack);
    Err(error)
}

/// The `{` of a literal, and the stack.
pub fn lost_braces(error: NoMemory, braces: Braces, stack: Stack) -> Answer
    ensures value { result ≡ Err error }
{
    match braces.ty {
        None => lost(error, stack),
        Some(e) => lost_at(error, Frame::Done(Value::Expr(e)), stack),
    }
}
