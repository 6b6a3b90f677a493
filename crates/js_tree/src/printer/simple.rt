//! Statements without blocks to text: ECMA-262 5.1, 12.

ghost use Rattle.std.specs.Prelude.{◌≡◌, ◌++◌, [], OnOk, option_map, codes};
ghost use Rattle.js_tree.specs.View.{expr_view};
ghost use Rattle.js_tree.specs.Script.{store, push, remove, throw};
ghost use Rattle.js_tree.specs.Printed.{expr_text, stmt_text, declare_text, return_text, label_text, jump_text, gap};

use super::expr::{before_dot, expr, within};
use super::level::begins_within;
use crate::tree::JsExpr;
use gj_base::{NoMemory, Text};

/// `var x = e;`
pub fn declare(out: &mut Text, x: &Text, e: &JsExpr) -> Result<(), NoMemory>
    ensures text { OnOk result (out.new ≡ out.old ++ declare_text x.now (expr_view e.now)) }
{
    out.push_bytes(b"var ")?;
    assign(out, x, e)
}

/// `x = e;`
pub fn assign(out: &mut Text, x: &Text, e: &JsExpr) -> Result<(), NoMemory>
    ensures text { OnOk result (out.new ≡ out.old ++ x.now ++ codes " = " ++ expr_text (expr_view e.now) ++ codes ";") }
{
    out.push_bytes(x.as_bytes())?;
    out.push_bytes(b" = ")?;
    expr(out, e)?;
    out.push(b';')
}

/// `e[i] = value;`
pub fn store(out: &mut Text, e: &JsExpr, i: &JsExpr, value: &JsExpr) -> Result<(), NoMemory>
    ensures text { OnOk result (out.new ≡ out.old ++ stmt_text [] (store 0 (expr_view e.now) (expr_view i.now) (expr_view value.now))) }
{
    within(out, 12, e)?;
    out.push(b'[')?;
    expr(out, i)?;
    out.push_bytes(b"] = ")?;
    expr(out, value)?;
    out.push(b';')
}

/// `e;`
pub fn perform(out: &mut Text, e: &JsExpr) -> Result<(), NoMemory>
    ensures text { OnOk result (out.new ≡ out.old ++ expr_text (expr_view e.now) ++ codes ";") }
{
    expr(out, e)?;
    out.push(b';')
}

/// `e.push(value);`
pub fn push(out: &mut Text, e: &JsExpr, value: &JsExpr) -> Result<(), NoMemory>
    ensures text { OnOk result (out.new ≡ out.old ++ stmt_text [] (push 0 (expr_view e.now) (expr_view value.now))) }
{
    before_dot(out, e)?;
    out.push_bytes(b".push(")?;
    expr(out, value)?;
    out.push_bytes(b");")
}

/// One space, where a keyword and an expression would join.
fn gap(out: &mut Text, k: u8, e: &JsExpr) -> Result<(), NoMemory>
    ensures text { OnOk result (out.new ≡ out.old ++ gap k (expr_view e.now)) }
{
    if begins_within(k, e) {
        return out.push(b' ');
    }
    Ok(())
}

/// `delete e[key];`
pub fn remove(out: &mut Text, e: &JsExpr, key: &JsExpr) -> Result<(), NoMemory>
    ensures text { OnOk result (out.new ≡ out.old ++ stmt_text [] (remove 0 (expr_view e.now) (expr_view key.now))) }
{
    out.push_bytes(b"delete")?;
    gap(out, 12, e)?;
    within(out, 12, e)?;
    out.push(b'[')?;
    expr(out, key)?;
    out.push_bytes(b"];")
}

/// A keyword with an expression.
fn keyword(out: &mut Text, word: &[u8], e: &JsExpr) -> Result<(), NoMemory>
    ensures text { OnOk result (out.new ≡ out.old ++ word.now ++ gap 0 (expr_view e.now) ++ expr_text (expr_view e.now) ++ codes ";") }
{
    out.push_bytes(word)?;
    gap(out, 0, e)?;
    expr(out, e)?;
    out.push(b';')
}

/// `throw e;`
pub fn throw(out: &mut Text, e: &JsExpr) -> Result<(), NoMemory>
    ensures text { OnOk result (out.new ≡ out.old ++ stmt_text [] (throw 0 (expr_view e.now))) }
{
    keyword(out, b"throw", e)
}

/// `return;` or `return e;`
pub fn give_back(out: &mut Text, e: &Option<JsExpr>) -> Result<(), NoMemory>
    ensures text { OnOk result (out.new ≡ out.old ++ return_text (option_map expr_view e.now)) }
{
    match e {
        None => out.push_bytes(b"return;"),
        Some(e) => keyword(out, b"return", e),
    }
}

/// A label, where there is one.
pub fn label(out: &mut Text, label: &Option<Text>) -> Result<(), NoMemory>
    ensures text { OnOk result (out.new ≡ out.old ++ label_text label.now) }
{
    match label {
        None => Ok(()),
        Some(x) => {
            out.push_bytes(x.as_bytes())?;
            out.push(b':')
        }
    }
}

/// `break` or `continue` with the label that it leads to.
pub fn jump(out: &mut Text, word: &[u8], label: &Option<Text>) -> Result<(), NoMemory>
    ensures text { OnOk result (out.new ≡ out.old ++ jump_text word.now label.now) }
{
    out.push_bytes(word)?;
    match label {
        None => out.push(b';'),
        Some(x) => {
            out.push(b' ')?;
            out.push_bytes(x.as_bytes())?;
            out.push(b';')
        }
    }
}
