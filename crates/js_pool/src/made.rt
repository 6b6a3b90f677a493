//! Nodes of a script's tree, each at offset 0: the small functions in which boxes and lists become a node, so that each
//! clause can say what the node stands for.

ghost use Rattle.std.specs.Prelude.{◌≡◌, map, Some, None};
ghost use Rattle.js_tree.specs.Script as script;
ghost use Rattle.js_tree.specs.Script.{no_else, else_block, else_if};
ghost use Rattle.js_tree.specs.View.{expr_view, exprs_view, exprs_of, stmt_view, stmts_view, stmts_of, else_view, cases_view, cases_of, case_view, else_if_view};
ghost use Rattle.js_pool.specs.Tree as tree;

use gj_base::Text;
use js_tree::{
    BinaryOp, ExprForm, JsCase, JsCases, JsElse, JsElseIf, JsExpr, JsExprs, JsStmt, JsStmts,
    StmtForm, UnaryOp,
};

// ---- expressions

/// A number.
pub fn number(n: u64) -> JsExpr
    ensures { expr_view result ≡ tree.number n }
{
    JsExpr {
        form: ExprForm::Number(n),
        at: 0,
    }
}

/// A string.
pub fn string(s: Text) -> JsExpr
    ensures { expr_view result ≡ tree.string s }
{
    JsExpr {
        form: ExprForm::Str(s),
        at: 0,
    }
}

/// A truth value.
pub fn boolean(b: bool) -> JsExpr
    ensures { expr_view result ≡ tree.boolean b }
{
    JsExpr {
        form: ExprForm::Bool(b),
        at: 0,
    }
}

/// `null`
pub fn null() -> JsExpr
    ensures { expr_view result ≡ tree.null }
{
    JsExpr {
        form: ExprForm::Null,
        at: 0,
    }
}

/// A name.
pub fn name(x: Text) -> JsExpr
    ensures { expr_view result ≡ tree.name x }
{
    JsExpr {
        form: ExprForm::Name(x),
        at: 0,
    }
}

/// An operator before an operand.
pub fn unary(op: UnaryOp, a: Box<JsExpr>) -> JsExpr
    ensures { expr_view result ≡ tree.unary op (expr_view a.value) }
{
    JsExpr {
        form: ExprForm::Unary(op, a),
        at: 0,
    }
}

/// An operator between operands.
pub fn binary(op: BinaryOp, a: Box<JsExpr>, b: Box<JsExpr>) -> JsExpr
    ensures { expr_view result ≡ tree.binary op (expr_view a.value) (expr_view b.value) }
{
    JsExpr {
        form: ExprForm::Binary(op, a, b),
        at: 0,
    }
}

/// `a && b`
pub fn both(a: Box<JsExpr>, b: Box<JsExpr>) -> JsExpr
    ensures { expr_view result ≡ tree.both (expr_view a.value) (expr_view b.value) }
{
    JsExpr {
        form: ExprForm::And(a, b),
        at: 0,
    }
}

/// `a || b`
pub fn either(a: Box<JsExpr>, b: Box<JsExpr>) -> JsExpr
    ensures { expr_view result ≡ tree.either (expr_view a.value) (expr_view b.value) }
{
    JsExpr {
        form: ExprForm::Or(a, b),
        at: 0,
    }
}

/// `a ? b : c`
pub fn choice(a: Box<JsExpr>, b: Box<JsExpr>, c: Box<JsExpr>) -> JsExpr
    ensures { expr_view result ≡ tree.choice (expr_view a.value) (expr_view b.value) (expr_view c.value) }
{
    JsExpr {
        form: ExprForm::Conditional(a, b, c),
        at: 0,
    }
}

/// `f(items)`
pub fn call(f: Box<JsExpr>, items: JsExprs) -> JsExpr
    ensures { expr_view result ≡ tree.call (expr_view f.value) (exprs_view items) }
{
    JsExpr {
        form: ExprForm::Call(f, items),
        at: 0,
    }
}

/// `a[i]`
pub fn index(a: Box<JsExpr>, i: Box<JsExpr>) -> JsExpr
    ensures { expr_view result ≡ tree.index (expr_view a.value) (expr_view i.value) }
{
    JsExpr {
        form: ExprForm::Index(a, i),
        at: 0,
    }
}

/// `a.length`
pub fn length_of(a: Box<JsExpr>) -> JsExpr
    ensures { expr_view result ≡ tree.length_of (expr_view a.value) }
{
    JsExpr {
        form: ExprForm::Length(a),
        at: 0,
    }
}

/// `a.pop()`
pub fn pop(a: Box<JsExpr>) -> JsExpr
    ensures { expr_view result ≡ tree.pop (expr_view a.value) }
{
    JsExpr {
        form: ExprForm::Pop(a),
        at: 0,
    }
}

/// `a.charCodeAt(i)`
pub fn char_code_at(a: Box<JsExpr>, i: Box<JsExpr>) -> JsExpr
    ensures { expr_view result ≡ tree.char_code_at (expr_view a.value) (expr_view i.value) }
{
    JsExpr {
        form: ExprForm::CharCodeAt(a, i),
        at: 0,
    }
}

/// `a.substring(i, j)`
pub fn substring(a: Box<JsExpr>, i: Box<JsExpr>, j: Box<JsExpr>) -> JsExpr
    ensures { expr_view result ≡ tree.substring (expr_view a.value) (expr_view i.value) (expr_view j.value) }
{
    JsExpr {
        form: ExprForm::Substring(a, i, j),
        at: 0,
    }
}

/// `[items]`
pub fn array(items: JsExprs) -> JsExpr
    ensures { expr_view result ≡ tree.array (exprs_view items) }
{
    JsExpr {
        form: ExprForm::Array(items),
        at: 0,
    }
}

/// `Object.create(null)`
pub fn dictionary() -> JsExpr
    ensures { expr_view result ≡ tree.dictionary }
{
    JsExpr {
        form: ExprForm::Dictionary,
        at: 0,
    }
}

/// `String(a)`
pub fn decimal_of(a: Box<JsExpr>) -> JsExpr
    ensures { expr_view result ≡ tree.decimal_of (expr_view a.value) }
{
    JsExpr {
        form: ExprForm::Decimal(a),
        at: 0,
    }
}

/// `String.fromCharCode(a)`
pub fn from_char_code(a: Box<JsExpr>) -> JsExpr
    ensures { expr_view result ≡ tree.from_char_code (expr_view a.value) }
{
    JsExpr {
        form: ExprForm::FromCharCode(a),
        at: 0,
    }
}

/// Expressions in order.
pub fn exprs(items: Vec<JsExpr>) -> JsExprs
    ensures { exprs_view result ≡ exprs_of (map expr_view items.items) }
{
    JsExprs { items }
}

// ---- statements

/// `var x = e;`
pub fn declare(x: Text, e: JsExpr) -> JsStmt
    ensures { stmt_view result ≡ script.declare 0 x (expr_view e) }
{
    JsStmt {
        form: StmtForm::Declare(x, e),
        at: 0,
    }
}

/// `x = e;`
pub fn assign(x: Text, e: JsExpr) -> JsStmt
    ensures { stmt_view result ≡ script.assign 0 x (expr_view e) }
{
    JsStmt {
        form: StmtForm::Assign(x, e),
        at: 0,
    }
}

/// `a[i] = e;`
pub fn store(a: JsExpr, i: JsExpr, e: JsExpr) -> JsStmt
    ensures { stmt_view result ≡ script.store 0 (expr_view a) (expr_view i) (expr_view e) }
{
    JsStmt {
        form: StmtForm::Store(a, i, e),
        at: 0,
    }
}

/// `e;`
pub fn perform(e: JsExpr) -> JsStmt
    ensures { stmt_view result ≡ script.perform 0 (expr_view e) }
{
    JsStmt {
        form: StmtForm::Perform(e),
        at: 0,
    }
}

/// `a.push(e);`
pub fn push(a: JsExpr, e: JsExpr) -> JsStmt
    ensures { stmt_view result ≡ script.push 0 (expr_view a) (expr_view e) }
{
    JsStmt {
        form: StmtForm::Push(a, e),
        at: 0,
    }
}

/// `delete a[k];`
pub fn delete(a: JsExpr, k: JsExpr) -> JsStmt
    ensures { stmt_view result ≡ script.remove 0 (expr_view a) (expr_view k) }
{
    JsStmt {
        form: StmtForm::Delete(a, k),
        at: 0,
    }
}

/// `if`
pub fn when(test: JsExpr, body: JsStmts, other: JsElse) -> JsStmt
    ensures { stmt_view result ≡ script.branch 0 (expr_view test) (stmts_view body) (else_view other) }
{
    JsStmt {
        form: StmtForm::If(test, body, other),
        at: 0,
    }
}

/// `while`
pub fn turns(label: Option<Text>, test: JsExpr, body: JsStmts) -> JsStmt
    ensures { stmt_view result ≡ script.while 0 label (expr_view test) (stmts_view body) }
{
    JsStmt {
        form: StmtForm::While(label, test, body),
        at: 0,
    }
}

/// `for (;;)`
pub fn forever(label: Option<Text>, body: JsStmts) -> JsStmt
    ensures { stmt_view result ≡ script.forever 0 label (stmts_view body) }
{
    JsStmt {
        form: StmtForm::Forever(label, body),
        at: 0,
    }
}

/// `switch`
pub fn switch(label: Option<Text>, e: JsExpr, cases: JsCases) -> JsStmt
    ensures { stmt_view result ≡ script.switch 0 label (expr_view e) (cases_view cases) }
{
    JsStmt {
        form: StmtForm::Switch(label, e, cases),
        at: 0,
    }
}

/// `return e;`
pub fn gives(e: JsExpr) -> JsStmt
    ensures { stmt_view result ≡ script.return 0 (Some (expr_view e)) }
{
    JsStmt {
        form: StmtForm::Return(Some(e)),
        at: 0,
    }
}

/// `return;`
pub fn leaves() -> JsStmt
    ensures { stmt_view result ≡ script.return 0 None }
{
    JsStmt {
        form: StmtForm::Return(None),
        at: 0,
    }
}

/// `throw e;`
pub fn throw(e: JsExpr) -> JsStmt
    ensures { stmt_view result ≡ script.throw 0 (expr_view e) }
{
    JsStmt {
        form: StmtForm::Throw(e),
        at: 0,
    }
}

/// `break`
pub fn stop(label: Option<Text>) -> JsStmt
    ensures { stmt_view result ≡ script.break 0 label }
{
    JsStmt {
        form: StmtForm::Break(label),
        at: 0,
    }
}

/// `continue`
pub fn again(label: Option<Text>) -> JsStmt
    ensures { stmt_view result ≡ script.continue 0 label }
{
    JsStmt {
        form: StmtForm::Continue(label),
        at: 0,
    }
}

/// `try`
pub fn attempt(body: JsStmts, handler: JsStmts) -> JsStmt
    ensures { stmt_view result ≡ script.attempt 0 (stmts_view body) (stmts_view handler) }
{
    JsStmt {
        form: StmtForm::Try(body, handler),
        at: 0,
    }
}

/// Statements in order.
pub fn stmts(items: Vec<JsStmt>) -> JsStmts
    ensures { stmts_view result ≡ stmts_of (map stmt_view items.items) }
{
    JsStmts { items }
}

/// No `else`.
pub fn nothing() -> JsElse
    ensures { else_view result ≡ no_else }
{
    JsElse::Nothing
}

/// `else { .. }`
pub fn other(body: JsStmts) -> JsElse
    ensures { else_view result ≡ else_block (stmts_view body) }
{
    JsElse::Block(body)
}

/// What an `else if` goes by.
pub fn next_if(test: JsExpr, body: JsStmts, rest: JsElse) -> JsElseIf
    ensures { else_if_view result ≡ else_if 0 (expr_view test) (stmts_view body) (else_view rest) }
{
    JsElseIf {
        test,
        body,
        rest,
        at: 0,
    }
}

/// `else if ..`
pub fn other_if(next: Box<JsElseIf>) -> JsElse
    ensures { else_view result ≡ else_if_view next.value }
{
    JsElse::ElseIf(next)
}

/// `case number:` with its statements.
pub fn case(number: u64, body: JsStmts) -> JsCase
    ensures { case_view result ≡ script.case number (stmts_view body) }
{
    JsCase { number, body }
}

/// Cases without a `default`.
pub fn cases(items: Vec<JsCase>) -> JsCases
    ensures { cases_view result ≡ cases_of (map case_view items.items) script.no_cases }
{
    JsCases {
        items,
        default: None,
    }
}

/// Cases with a `default`.
pub fn cases_default(items: Vec<JsCase>, body: JsStmts) -> JsCases
    ensures { cases_view result ≡ cases_of (map case_view items.items) (script.default (stmts_view body)) }
{
    JsCases {
        items,
        default: Some(body),
    }
}
