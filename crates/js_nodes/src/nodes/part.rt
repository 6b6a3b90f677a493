//! Parts of an expression.

ghost use Rattle.std.specs.Prelude.{◌≡◌, ◌<◌, ◌≤◌, ◌+◌, length, IfOk};
ghost use Rattle.js_tree.specs.View.{expr_view};
ghost use Rattle.js_grammar.specs.Tokens.{places};
ghost use Rattle.js_grammar.specs.Goals as goal;
ghost use Rattle.js_grammar.specs.Reads.{Reads, seen};
ghost use Rattle.js_nodes.specs.Views.{rest_read, expr_read};

use crate::nodes::look::{place, take_sign, take_word};
use crate::nodes::node;
use js_grammar::{ReadRefusal, Token};
use js_tree::JsExpr;
use std::alloc::Global;

/// `Object.create(null)`.
pub fn dictionary<'a>(ts: &'a [Token<'a>], d: u32) -> Result<(JsExpr, &'a [Token<'a>]), ReadRefusal>
    requires { d ≤ 1001 }
    ensures read { Reads (goal.dictionary d) (places ts.now) (seen expr_read result) }
    ensures shorter { IfOk result (λ p. length p.1.now < length ts.now) }
{
    let at = place(ts);
    let rest = take_word(ts, d, b"Object")?;
    let rest = take_sign(rest, d, b".")?;
    let rest = take_word(rest, d, b"create")?;
    let rest = take_sign(rest, d, b"(")?;
    let rest = take_word(rest, d + 1, b"null")?;
    let rest = take_sign(rest, d, b")")?;
    Ok((node::dictionary(at), rest))
}
