//! Nodes of a script's tree, each at its offset.

ghost use Rattle.std.specs.Prelude.{◌≡◌, MatchResult, map, ◌++◌, ◌∷◌, []};
ghost use Rattle.js_tree.specs.Script as tree;
ghost use Rattle.js_tree.specs.View.{expr_view, exprs_of};

use gj_base::Text;
use js_grammar::ReadRefusal;
use js_tree::{BinaryOp, ExprForm, JsExpr, JsExprs, UnaryOp};
use std::alloc::Global;

fn boxed(alloc: Global, e: JsExpr) -> Result<Box<JsExpr>, ReadRefusal>
    ensures { MatchResult result (λ b. b.value ≡ e) (λ z. z ≡ ReadRefusal.NoMemory) }
{
    match Box::new(alloc, e) {
        Ok(b) => Ok(b),
        Err(_) => Err(ReadRefusal::NoMemory),
    }
}

/// A number.
pub fn number(at: u32, n: u64) -> JsExpr
    ensures { expr_view result ≡ tree.number at n }
{
    JsExpr {
        form: ExprForm::Number(n),
        at,
    }
}

/// A string.
pub fn string(at: u32, s: Text) -> JsExpr
    ensures { expr_view result ≡ tree.string at s }
{
    JsExpr {
        form: ExprForm::Str(s),
        at,
    }
}

/// `true` or `false`.
pub fn boolean(at: u32, b: bool) -> JsExpr
    ensures { expr_view result ≡ tree.boolean at b }
{
    JsExpr {
        form: ExprForm::Bool(b),
        at,
    }
}

/// `null`.
pub fn null(at: u32) -> JsExpr
    ensures { expr_view result ≡ tree.null at }
{
    JsExpr {
        form: ExprForm::Null,
        at,
    }
}

/// A name.
pub fn name(at: u32, x: Text) -> JsExpr
    ensures { expr_view result ≡ tree.name at x }
{
    JsExpr {
        form: ExprForm::Name(x),
        at,
    }
}

/// An operator before its operand.
pub fn unary(alloc: Global, at: u32, op: UnaryOp, e: JsExpr) -> Result<JsExpr, ReadRefusal>
    ensures { MatchResult result (λ r. expr_view r ≡ tree.unary at op (expr_view e)) (λ z. z ≡ ReadRefusal.NoMemory) }
{
    let e = boxed(alloc, e)?;
    Ok(JsExpr {
        form: ExprForm::Unary(op, e),
        at,
    })
}

/// An operator between its operands.
pub fn binary(
    alloc: Global,
    at: u32,
    op: BinaryOp,
    left: JsExpr,
    right: JsExpr,
) -> Result<JsExpr, ReadRefusal>
    ensures { MatchResult result (λ r. expr_view r ≡ tree.binary at op (expr_view left) (expr_view right)) (λ z. z ≡ ReadRefusal.NoMemory) }
{
    let left = boxed(alloc, left)?;
    let right = boxed(alloc, right)?;
    Ok(JsExpr {
        form: ExprForm::Binary(op, left, right),
        at,
    })
}

/// `left && right`.
pub fn both(alloc: Global, at: u32, left: JsExpr, right: JsExpr) -> Result<JsExpr, ReadRefusal>
    ensures { MatchResult result (λ r. expr_view r ≡ tree.both at (expr_view left) (expr_view right)) (λ z. z ≡ ReadRefusal.NoMemory) }
{
    let left = boxed(alloc, left)?;
    let right = boxed(alloc, right)?;
    Ok(JsExpr {
        form: ExprForm::And(left, right),
        at,
    })
}

/// `left || right`.
pub fn either(alloc: Global, at: u32, left: JsExpr, right: JsExpr) -> Result<JsExpr, ReadRefusal>
    ensures { MatchResult result (λ r. expr_view r ≡ tree.either at (expr_view left) (expr_view right)) (λ z. z ≡ ReadRefusal.NoMemory) }
{
    let left = boxed(alloc, left)?;
    let right = boxed(alloc, right)?;
    Ok(JsExpr {
        form: ExprForm::Or(left, right),
        at,
    })
}

/// `test ? left : right`.
pub fn choice(
    alloc: Global,
    at: u32,
    test: JsExpr,
    left: JsExpr,
    right: JsExpr,
) -> Result<JsExpr, ReadRefusal>
    ensures { MatchResult result (λ r. expr_view r ≡ tree.choice at (expr_view test) (expr_view left) (expr_view right)) (λ z. z ≡ ReadRefusal.NoMemory) }
{
    let test = boxed(alloc, test)?;
    let left = boxed(alloc, left)?;
    let right = boxed(alloc, right)?;
    Ok(JsExpr {
        form: ExprForm::Conditional(test, left, right),
        at,
    })
}

/// `callee(arguments)`.
pub fn call(
    alloc: Global,
    at: u32,
    callee: JsExpr,
    items: Vec<JsExpr>,
) -> Result<JsExpr, ReadRefusal>
    ensures { MatchResult result (λ r. expr_view r ≡ tree.call at (expr_view callee) (exprs_of (map expr_view items.items))) (λ z. z ≡ ReadRefusal.NoMemory) }
{
    let callee = boxed(alloc, callee)?;
    Ok(JsExpr {
        form: ExprForm::Call(callee, JsExprs { items }),
        at,
    })
}

/// `e[i]`.
pub fn index(alloc: Global, at: u32, e: JsExpr, i: JsExpr) -> Result<JsExpr, ReadRefusal>
    ensures { MatchResult result (λ r. expr_view r ≡ tree.index at (expr_view e) (expr_view i)) (λ z. z ≡ ReadRefusal.NoMemory) }
{
    let e = boxed(alloc, e)?;
    let i = boxed(alloc, i)?;
    Ok(JsExpr {
        form: ExprForm::Index(e, i),
        at,
    })
}

/// `e.length`.
pub fn length(alloc: Global, at: u32, e: JsExpr) -> Result<JsExpr, ReadRefusal>
    ensures { MatchResult result (λ r. expr_view r ≡ tree.length_of at (expr_view e)) (λ z. z ≡ ReadRefusal.NoMemory) }
{
    let e = boxed(alloc, e)?;
    Ok(JsExpr {
        form: ExprForm::Length(e),
        at,
    })
}

/// `e.pop()`.
pub fn pop(alloc: Global, at: u32, e: JsExpr) -> Result<JsExpr, ReadRefusal>
    ensures { MatchResult result (λ r. expr_view r ≡ tree.pop at (expr_view e)) (λ z. z ≡ ReadRefusal.NoMemory) }
{
    let e = boxed(alloc, e)?;
    Ok(JsExpr {
        form: ExprForm::Pop(e),
        at,
    })
}

/// `e.charCodeAt(i)`.
pub fn char_code_at(alloc: Global, at: u32, e: JsExpr, i: JsExpr) -> Result<JsExpr, ReadRefusal>
    ensures { MatchResult result (λ r. expr_view r ≡ tree.char_code_at at (expr_view e) (expr_view i)) (λ z. z ≡ ReadRefusal.NoMemory) }
{
    let e = boxed(alloc, e)?;
    let i = boxed(alloc, i)?;
    Ok(JsExpr {
        form: ExprForm::CharCodeAt(e, i),
        at,
    })
}

/// `e.substring(from, to)`.
pub fn substring(
    alloc: Global,
    at: u32,
    e: JsExpr,
    from: JsExpr,
    to: JsExpr,
) -> Result<JsExpr, ReadRefusal>
    ensures { MatchResult result (λ r. expr_view r ≡ tree.substring at (expr_view e) (expr_view from) (expr_view to)) (λ z. z ≡ ReadRefusal.NoMemory) }
{
    let e = boxed(alloc, e)?;
    let from = boxed(alloc, from)?;
    let to = boxed(alloc, to)?;
    Ok(JsExpr {
        form: ExprForm::Substring(e, from, to),
        at,
    })
}

/// `[items]`.
pub fn array(at: u32, items: Vec<JsExpr>) -> JsExpr
    ensures { expr_view result ≡ tree.array at (exprs_of (map expr_view items.items)) }
{
    JsExpr {
        form: ExprForm::Array(JsExprs { items }),
        at,
    }
}

/// `Object.create(null)`.
pub fn dictionary(at: u32) -> JsExpr
    ensures { expr_view result ≡ tree.dictionary at }
{
    JsExpr {
        form: ExprForm::Dictionary,
        at,
    }
}

/// `String(e)`.
pub fn decimal(alloc: Global, at: u32, e: JsExpr) -> Result<JsExpr, ReadRefusal>
    ensures { MatchResult result (λ r. expr_view r ≡ tree.decimal_of at (expr_view e)) (λ z. z ≡ ReadRefusal.NoMemory) }
{
    let e = boxed(alloc, e)?;
    Ok(JsExpr {
        form: ExprForm::Decimal(e),
        at,
    })
}

/// `String.fromCharCode(e)`.
pub fn from_char_code(alloc: Global, at: u32, e: JsExpr) -> Result<JsExpr, ReadRefusal>
    ensures { MatchResult result (λ r. expr_view r ≡ tree.from_char_code at (expr_view e)) (λ z. z ≡ ReadRefusal.NoMemory) }
{
    let e = boxed(alloc, e)?;
    Ok(JsExpr {
        form: ExprForm::FromCharCode(e),
        at,
    })
}

/// One more expression.
pub fn add(items: &mut Vec<JsExpr>, e: JsExpr) -> Result<(), ReadRefusal>
    ensures { MatchResult result (λ u. items.new.items ≡ items.old.items ++ e ∷ []) (λ z. z ≡ ReadRefusal.NoMemory) }
{
    match items.push(e) {
        Ok(()) => Ok(()),
        Err(_) => Err(ReadRefusal::NoMemory),
    }
}
