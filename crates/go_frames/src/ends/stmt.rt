//! What frames of statements and declarations let go.

ghost use Rattle.std.specs.Prelude.{◌≡◌, Err};

use crate::ends::gone::gone_tree;
use crate::ends::lost::{lost, lost_at};
use crate::frames::frame::{Frame, Subject, Value};
use crate::frames::stack::{Answer, Stack};
use gj_base::NoMemory;
use go_syntax::tree::{Expr, Stmt};

/// Lets expressions go that a guard takes the place of.
pub fn drop_exprs(_es: Vec<Expr>) {}

/// The same at one more clause of a `switch` with this header.
pub fn lost_header(error: NoMemory, init: Option<Stmt>, subject: Subject, stack: Stack) -> Answer
    ensures value { result ≡ Err error }
{
    match init {
        None => lost_subject(error, subject, stack),
        Some(s) => {
            gone_tree(Value::Stmt(s));
            lost_subject(error, subject, stack)
        }
    }
}

/// The same without a statement before what the `switch` is on.
fn lost_subject(error: NoMemory, subject: Subject, stack: Stack) -> Answer
    ensures value { result ≡ Err error }
{
    match subject {
        Subject::Tag(None) => lost(error, stack),
        Subject::Tag(Some(e)) => lost_at(error, Frame::Done(Value::Expr(e)), stack),
        Subject::Guard(name, e) => lost_at(error, Frame::Done(Value::Guard(name, e)), stack),
    }
}
