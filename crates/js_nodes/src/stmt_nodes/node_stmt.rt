//! Nodes of statements, each at its offset.

ghost use Rattle.std.specs.Prelude.{◌≡◌, map, MatchResult, Option, Some, None, option_map, ◌++◌, ◌∷◌, [], IfOk};
ghost use Rattle.js_tree.specs.Script as tree;
ghost use Rattle.js_tree.specs.Script.{no_else, else_block, else_if};
ghost use Rattle.js_tree.specs.Printable.{is_call};
ghost use Rattle.js_grammar.specs.Steps.{is_index, store_of, remove_of};
ghost use Rattle.js_tree.specs.View.{expr_view, stmt_view, stmts_view, else_view, cases_view, case_view, stmts_of, cases_of};

use gj_base::Text;
use js_grammar::ReadRefusal;
use js_tree::{ExprForm, JsCase, JsCases, JsElse, JsElseIf, JsExpr, JsStmt, JsStmts, StmtForm};
use std::alloc::Global;

/// `var x = e;`
pub fn declare(at: u32, x: Text, e: JsExpr) -> JsStmt
    ensures { stmt_view result ≡ tree.declare at x (expr_view e) }
{
    JsStmt {
        form: StmtForm::Declare(x, e),
        at,
    }
}

/// `x = e;`
pub fn assign(at: u32, x: Text, e: JsExpr) -> JsStmt
    ensures { stmt_view result ≡ tree.assign at x (expr_view e) }
{
    JsStmt {
        form: StmtForm::Assign(x, e),
        at,
    }
}

/// `e;`
pub fn perform(at: u32, e: JsExpr) -> JsStmt
    ensures { stmt_view result ≡ tree.perform at (expr_view e) }
{
    JsStmt {
        form: StmtForm::Perform(e),
        at,
    }
}

fn store_in(at: u32, e: JsExpr, i: JsExpr, v: JsExpr) -> JsStmt
    ensures { stmt_view result ≡ tree.store at (expr_view e) (expr_view i) (expr_view v) }
{
    JsStmt {
        form: StmtForm::Store(e, i, v),
        at,
    }
}

fn without(at: u32, v: JsExpr, _other: ExprForm) -> JsStmt
    ensures { stmt_view result ≡ tree.perform at (expr_view v) }
{
    perform(at, v)
}

/// `e = v;` where e has the form `a[i]`; else `v;`.
pub fn store(at: u32, e: JsExpr, v: JsExpr) -> JsStmt
    ensures { stmt_view result ≡ store_of at (expr_view e) (expr_view v) }
{
    match e.form {
        ExprForm::Index(array, i) => store_in(at, Box::into_inner(array), Box::into_inner(i), v),
        other => without(at, v, other),
    }
}

/// `e.push(v);`
pub fn push(at: u32, e: JsExpr, v: JsExpr) -> JsStmt
    ensures { stmt_view result ≡ tree.push at (expr_view e) (expr_view v) }
{
    JsStmt {
        form: StmtForm::Push(e, v),
        at,
    }
}

fn remove_from(at: u32, e: JsExpr, k: JsExpr) -> JsStmt
    ensures { stmt_view result ≡ tree.remove at (expr_view e) (expr_view k) }
{
    JsStmt {
        form: StmtForm::Delete(e, k),
        at,
    }
}

/// `delete e;` where e has the form `a[k]`; else `e;`.
pub fn remove(at: u32, e: JsExpr) -> JsStmt
    ensures { stmt_view result ≡ remove_of at (expr_view e) }
{
    let place = e.at;
    match e.form {
        ExprForm::Index(array, k) => remove_from(at, Box::into_inner(array), Box::into_inner(k)),
        other => perform(
            at,
            JsExpr {
                form: other,
                at: place,
            },
        ),
    }
}

/// Whether an expression calls something.
pub fn is_call(e: &JsExpr) -> bool
    ensures { result ≡ is_call (expr_view e.now) }
{
    match &e.form {
        ExprForm::Call(_, _) => true,
        ExprForm::Pop(_) => true,
        _ => false,
    }
}

/// Whether an expression has the form `a[i]`.
pub fn is_index(e: &JsExpr) -> bool
    ensures { result ≡ is_index (expr_view e.now) }
{
    match &e.form {
        ExprForm::Index(_, _) => true,
        _ => false,
    }
}

/// `if`
pub fn branch(at: u32, t: JsExpr, body: JsStmts, other: JsElse) -> JsStmt
    ensures { stmt_view result ≡ tree.branch at (expr_view t) (stmts_view body) (else_view other) }
{
    JsStmt {
        form: StmtForm::If(t, body, other),
        at,
    }
}

/// `while`
pub fn turns(at: u32, label: Option<Text>, t: JsExpr, body: JsStmts) -> JsStmt
    ensures { stmt_view result ≡ tree.while at label (expr_view t) (stmts_view body) }
{
    JsStmt {
        form: StmtForm::While(label, t, body),
        at,
    }
}

/// `for (;;)`
pub fn forever(at: u32, label: Option<Text>, body: JsStmts) -> JsStmt
    ensures { stmt_view result ≡ tree.forever at label (stmts_view body) }
{
    JsStmt {
        form: StmtForm::Forever(label, body),
        at,
    }
}

/// `switch`
pub fn switch(at: u32, label: Option<Text>, e: JsExpr, cases: JsCases) -> JsStmt
    ensures { stmt_view result ≡ tree.switch at label (expr_view e) (cases_view cases) }
{
    JsStmt {
        form: StmtForm::Switch(label, e, cases),
        at,
    }
}

/// `return;`
pub fn returns_nothing(at: u32) -> JsStmt
    ensures { stmt_view result ≡ tree.return at None }
{
    JsStmt {
        form: StmtForm::Return(None),
        at,
    }
}

/// `return e;`
pub fn returns(at: u32, e: JsExpr) -> JsStmt
    ensures { stmt_view result ≡ tree.return at (Some (expr_view e)) }
{
    JsStmt {
        form: StmtForm::Return(Some(e)),
        at,
    }
}

/// `throw e;`
pub fn throw(at: u32, e: JsExpr) -> JsStmt
    ensures { stmt_view result ≡ tree.throw at (expr_view e) }
{
    JsStmt {
        form: StmtForm::Throw(e),
        at,
    }
}

/// `break`
pub fn leave(at: u32, label: Option<Text>) -> JsStmt
    ensures { stmt_view result ≡ tree.break at label }
{
    JsStmt {
        form: StmtForm::Break(label),
        at,
    }
}

/// `continue`
pub fn go_on(at: u32, label: Option<Text>) -> JsStmt
    ensures { stmt_view result ≡ tree.continue at label }
{
    JsStmt {
        form: StmtForm::Continue(label),
        at,
    }
}

/// `try`
pub fn attempt(at: u32, body: JsStmts, handler: JsStmts) -> JsStmt
    ensures { stmt_view result ≡ tree.attempt at (stmts_view body) (stmts_view handler) }
{
    JsStmt {
        form: StmtForm::Try(body, handler),
        at,
    }
}

/// One more statement.
pub fn add(items: &mut Vec<JsStmt>, s: JsStmt) -> Result<(), ReadRefusal>
    ensures { MatchResult result (λ u. items.new.items ≡ items.old.items ++ s ∷ []) (λ z. z ≡ ReadRefusal.NoMemory) }
{
    append(items, s)
}

/// One more at the end. What finds no room is let go.
fn append<T: Drop>(items: &mut Vec<T>, x: T) -> Result<(), ReadRefusal>
    ensures { MatchResult result (λ u. items.new.items ≡ items.old.items ++ x ∷ []) (λ z. z ≡ ReadRefusal.NoMemory) }
{
    match items.push(x) {
        Ok(()) => Ok(()),
        Err(_) => Err(ReadRefusal::NoMemory),
    }
}

/// One more case.
pub fn add_case(items: &mut Vec<JsCase>, case: JsCase) -> Result<(), ReadRefusal>
    ensures { MatchResult result (λ u. items.new.items ≡ items.old.items ++ case ∷ []) (λ z. z ≡ ReadRefusal.NoMemory) }
{
    match items.push(case) {
        Ok(()) => Ok(()),
        Err(_) => Err(ReadRefusal::NoMemory),
    }
}

/// Statements in order.
pub fn stmts(items: Vec<JsStmt>) -> JsStmts
    ensures { stmts_view result ≡ stmts_of (map stmt_view items.items) }
{
    JsStmts { items }
}

/// No `else`.
pub fn no_else() -> JsElse
    ensures { else_view result ≡ no_else }
{
    JsElse::Nothing
}

/// `else { .. }`
pub fn else_block(body: JsStmts) -> JsElse
    ensures { else_view result ≡ else_block (stmts_view body) }
{
    JsElse::Block(body)
}

/// `else if ..`
pub fn else_if(
    alloc: Global,
    at: u32,
    test: JsExpr,
    body: JsStmts,
    rest: JsElse,
) -> Result<JsElse, ReadRefusal>
    ensures { MatchResult result (λ r. else_view r ≡ else_if at (expr_view test) (stmts_view body) (else_view rest)) (λ z. z ≡ ReadRefusal.NoMemory) }
{
    match Box::new(
        alloc,
        JsElseIf {
            test,
            body,
            rest,
            at,
        },
    ) {
        Ok(b) => Ok(JsElse::ElseIf(b)),
        Err(_) => Err(ReadRefusal::NoMemory),
    }
}

/// `case n:` with its statements.
pub fn case(number: u64, body: JsStmts) -> JsCase
    ensures { case_view result ≡ tree.case number (stmts_view body) }
{
    JsCase { number, body }
}

/// Cases without a `default`.
pub fn cases(items: Vec<JsCase>) -> JsCases
    ensures { cases_view result ≡ cases_of (map case_view items.items) tree.no_cases }
{
    JsCases {
        items,
        default: None,
    }
}

/// Cases with a `default`.
pub fn cases_default(items: Vec<JsCase>, body: JsStmts) -> JsCases
    ensures { cases_view result ≡ cases_of (map case_view items.items) (tree.default (stmts_view body)) }
{
    JsCases {
        items,
        default: Some(body),
    }
}
