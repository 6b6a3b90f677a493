//! What is let go.
//!
//! A value that dies is taken apart in place, form by form, which makes a large proof. So each kind dies
//! in one function, and trees die as parts of a frame.

use crate::frames::frame::{Frame, Value};
use crate::frames::stack::Stack;
use go_syntax::tree::{Expr, Name};

/// Lets a frame go.
pub(crate) fn gone(_frame: Frame) {}

/// Lets frames go.
pub(crate) fn gone_stack(_stack: Stack) {}

/// Lets a tree go.
pub(crate) fn gone_tree(value: Value) {
    gone(Frame::Done(value));
}

/// Lets an expression go.
pub(crate) fn gone_expr(e: Expr) {
    gone_tree(Value::Expr(e));
}

/// Lets a name go.
pub(crate) fn gone_name(_name: Option<Name>) {}
