//! Statements: Block, List and Stmt, but for Simple and those with a header.

ghost use Rattle.std.specs.Prelude.{[]};
ghost use Rattle.go_syntax.specs.Tree as t;
ghost use Rattle.go_grammar.specs.Frames as f;
ghost use Rattle.go_grammar.specs.StmtSteps as rows;
ghost use Rattle.go_syntax.specs.View.{expr_view, block_view, stmt_view, decl_view, exprs_of};
ghost use Rattle.go_frames.specs.FrameView.{Comes, token_of, exprs_in, stmts_in, stmt_frame, stack_view};
ghost use Rattle.go_stmt_steps.specs.StmtStepsParts.{end_return};

use crate::simple_steps::simple::{
    after_assigned, after_defined, after_left, after_sent, right_side,
};
use gj_base::Place;
use go_frames::begins::expr::{begin_expr, then_expr};
use go_frames::begins::lists::{with_expr, with_stmt};
use go_frames::begins::stmt::begin_stmt;
use go_frames::ends::lost::lost;
use go_frames::ends::refused::{stuck_at, stuck_with};
use go_frames::frames::at::{At, begins_expr, begins_stmt};
use go_frames::frames::ctx::Ctx;
use go_frames::frames::form::{
    block, block_stmt, break_to, decl_stmt, defer, empty, go, labeled, return_stmt,
};
use go_frames::frames::frame::{Frame, StmtFrame, Value};
use go_frames::frames::node::name;
use go_frames::frames::stack::{Answer, Stack, done, goes, over};
use go_syntax::Operator;
use go_syntax::tree::{Block, Decl, Expr, Name, Stmt};
use std::alloc::Global;

/// What the top frame does at the token.
pub fn stmt_row(alloc: Global, at: At, text: &[u8], frame: StmtFrame, stack: Stack) -> Answer
    ensures value { Comes result (rows.stmt_row (token_of at text.now) (stmt_frame frame) (stack_view stack)) }
{
    match frame {
        StmtFrame::Block(blocks, place, stmts) => list(
            alloc, at, text, blocks, place, stmts, stack,
        ),
        StmtFrame::Return(blocks, place) => after_return(alloc, at, text, blocks, place, stack),
        StmtFrame::Break(place) => after_break(alloc, at, text, place, true, stack),
        StmtFrame::Continue(place) => after_break(alloc, at, text, place, false, stack),
        StmtFrame::Label(blocks, labels) => after_label(alloc, at, text, blocks, labels, stack),
        StmtFrame::Right(spot, left, fresh) => right_side(
            alloc, at, text, spot, left, fresh, stack,
        ),
        other => stuck_at(Frame::Stmt(other), stack),
    }
}

/// List = [Stmt] {";" [Stmt]}
fn list(
    alloc: Global,
    at: At,
    text: &[u8],
    blocks: u32,
    place: Place,
    stmts: Vec<Stmt>,
    stack: Stack,
) -> Answer
    ensures value { Comes result (rows.stmt_row (token_of at text.now) (f.InBlock blocks place (stmts_in stmts.items)) (stack_view stack)) }
{
    if at.is_semicolon() || at.is(Operator::RightBrace) {
        return after_stmt(at, blocks, place, stmts, stack);
    }
    let stack = stack.with(Frame::Stmt(StmtFrame::Block(blocks, place, stmts)))?;
    begin_stmt(alloc, at, text, blocks, 0, stack)
}

/// After a statement of a block: `;` or `}`.
fn after_stmt(at: At, blocks: u32, place: Place, stmts: Vec<Stmt>, stack: Stack) -> Answer
    ensures value { Comes result (rows.after_stmt (token_of at []) blocks place (stmts_in stmts.items) (stack_view stack)) }
{
    if at.is_semicolon() {
        return goes(stack, Frame::Stmt(StmtFrame::Block(blocks, place, stmts)));
    }
    if at.is(Operator::RightBrace) {
        return done(stack, Value::Block(block(place, stmts, at.place)));
    }
    stuck_at(Frame::Stmt(StmtFrame::Block(blocks, place, stmts)), stack)
}

fn after_return(
    alloc: Global,
    at: At,
    text: &[u8],
    blocks: u32,
    place: Place,
    stack: Stack,
) -> Answer
    ensures value { Comes result (rows.stmt_row (token_of at text.now) (f.AtReturn blocks place) (stack_view stack)) }
{
    if begins_expr(at.kind) {
        let frame = StmtFrame::Returned(blocks, place, Vec::new(alloc));
        let stack = stack.with(Frame::Stmt(frame))?;
        return begin_expr(alloc, at, text, Ctx::new(blocks), stack);
    }
    over_return(alloc, place, Vec::new(alloc), stack)
}

fn after_break(
    alloc: Global,
    at: At,
    text: &[u8],
    place: Place,
    is_break: bool,
    stack: Stack,
) -> Answer
    ensures value { Comes result (rows.stmt_row (token_of at text.now) (f.AtBreak place is_break) (stack_view stack)) }
{
    if !at.is_name() {
        return match break_to(alloc, place, is_break, None) {
            Ok(s) => over(stack, Value::Stmt(s)),
            Err(error) => lost(error, stack),
        };
    }
    let name = match name(alloc, at.place, text) {
        Ok(name) => name,
        Err(error) => return lost(error, stack),
    };
    match break_to(alloc, place, is_break, Some(name)) {
        Ok(s) => done(stack, Value::Stmt(s)),
        Err(error) => lost(error, stack),
    }
}

fn after_label(alloc: Global, at: At, text: &[u8], blocks: u32, labels: u32, stack: Stack) -> Answer
    ensures value { Comes result (rows.stmt_row (token_of at text.now) (f.AfterLabel blocks labels) (stack_view stack)) }
{
    if begins_stmt(at) {
        return begin_stmt(alloc, at, text, blocks, labels, stack);
    }
    match empty(alloc, at.place) {
        Ok(s) => over(stack, Value::Stmt(s)),
        Err(error) => lost(error, stack),
    }
}

/// What a frame that waits for an expression does with it at the token.
pub fn stmt_meets_expr(alloc: Global, at: At, frame: StmtFrame, e: Expr, stack: Stack) -> Answer
    ensures value { Comes result (rows.stmt_meets_expr (token_of at []) (stmt_frame frame) (expr_view e) (stack_view stack)) }
{
    match frame {
        StmtFrame::Go(place) => after_go(alloc, place, e, stack),
        StmtFrame::Defer(place) => after_defer(alloc, place, e, stack),
        StmtFrame::Returned(blocks, place, es) => returned(alloc, at, blocks, place, es, e, stack),
        StmtFrame::Simple(spot, es) => after_left(alloc, at, spot, es, e, stack),
        StmtFrame::Assign(spot, left, op, right) => after_assigned(
            alloc, at, spot, left, op, right, e, stack,
        ),
        StmtFrame::Define(spot, left, right) => after_defined(
            alloc, at, spot, left, right, e, stack,
        ),
        StmtFrame::Send(place, cs) => after_sent(alloc, place, cs, e, stack),
        other => stuck_with(Frame::Stmt(other), Value::Expr(e), stack),
    }
}

fn after_go(alloc: Global, place: Place, e: Expr, stack: Stack) -> Answer
    ensures value { Comes result (f.Over (f.AStmt (t.GoStmt place (expr_view e))) (stack_view stack)) }
{
    match go(alloc, place, e) {
        Ok(s) => over(stack, Value::Stmt(s)),
        Err(error) => lost(error, stack),
    }
}

fn after_defer(alloc: Global, place: Place, e: Expr, stack: Stack) -> Answer
    ensures value { Comes result (f.Over (f.AStmt (t.DeferStmt place (expr_view e))) (stack_view stack)) }
{
    match defer(alloc, place, e) {
        Ok(s) => over(stack, Value::Stmt(s)),
        Err(error) => lost(error, stack),
    }
}

fn returned(
    alloc: Global,
    at: At,
    blocks: u32,
    place: Place,
    es: Vec<Expr>,
    e: Expr,
    stack: Stack,
) -> Answer
    ensures value { Comes result (rows.stmt_meets_expr (token_of at []) (f.Returned blocks place (exprs_in es.items)) (expr_view e) (stack_view stack)) }
{
    match with_expr(es, e) {
        Ok(es) => end_return(alloc, at, blocks, place, es, stack),
        Err(error) => lost(error, stack),
    }
}

/// `return` with these values.
fn over_return(alloc: Global, place: Place, es: Vec<Expr>, stack: Stack) -> Answer
    ensures value { Comes result (f.Over (f.AStmt (t.ReturnStmt place (exprs_of (exprs_in es.items)))) (stack_view stack)) }
{
    match return_stmt(alloc, place, es) {
        Ok(s) => over(stack, Value::Stmt(s)),
        Err(error) => lost(error, stack),
    }
}

fn end_return(
    alloc: Global,
    at: At,
    blocks: u32,
    place: Place,
    es: Vec<Expr>,
    stack: Stack,
) -> Answer
    ensures value { Comes result (end_return (token_of at []) blocks place (exprs_in es.items) (stack_view stack)) }
{
    if at.is(Operator::Comma) {
        let stack = stack.with(Frame::Stmt(StmtFrame::Returned(blocks, place, es)))?;
        return then_expr(Ctx::new(blocks), stack);
    }
    over_return(alloc, place, es, stack)
}

/// What a frame that waits for a statement does with it at the token.
pub fn stmt_meets_stmt(alloc: Global, at: At, frame: StmtFrame, s: Stmt, stack: Stack) -> Answer
    ensures value { Comes result (rows.stmt_meets_stmt (token_of at []) (stmt_frame frame) (stmt_view s) (stack_view stack)) }
{
    match frame {
        StmtFrame::Block(blocks, place, stmts) => listed(at, blocks, place, stmts, s, stack),
        StmtFrame::Labeled(name) => after_labeled(alloc, name, s, stack),
        other => stuck_with(Frame::Stmt(other), Value::Stmt(s), stack),
    }
}

/// A statement of a block.
fn listed(at: At, blocks: u32, place: Place, stmts: Vec<Stmt>, s: Stmt, stack: Stack) -> Answer
    ensures value { Comes result (rows.stmt_meets_stmt (token_of at []) (f.InBlock blocks place (stmts_in stmts.items)) (stmt_view s) (stack_view stack)) }
{
    match with_stmt(stmts, s) {
        Ok(stmts) => after_stmt(at, blocks, place, stmts, stack),
        Err(error) => lost(error, stack),
    }
}

fn after_labeled(alloc: Global, name: Name, s: Stmt, stack: Stack) -> Answer
    ensures value { Comes result (f.Over (f.AStmt (t.LabeledStmt name.place name (stmt_view s))) (stack_view stack)) }
{
    match labeled(alloc, name, s) {
        Ok(s) => over(stack, Value::Stmt(s)),
        Err(error) => lost(error, stack),
    }
}

/// A block that is a statement.
fn over_block(alloc: Global, block: Block, stack: Stack) -> Answer
    ensures value { Comes result (rows.stmt_meets_block f.Inner (block_view block) (stack_view stack)) }
{
    match block_stmt(alloc, block) {
        Ok(s) => over(stack, Value::Stmt(s)),
        Err(error) => lost(error, stack),
    }
}

/// What a frame that waits for a block does with it.
pub fn stmt_meets_block(alloc: Global, frame: StmtFrame, block: Block, stack: Stack) -> Answer
    ensures value { Comes result (rows.stmt_meets_block (stmt_frame frame) (block_view block) (stack_view stack)) }
{
    match frame {
        StmtFrame::Inner => over_block(alloc, block, stack),
        other => stuck_with(Frame::Stmt(other), Value::Block(block), stack),
    }
}

/// What a frame that waits for a declaration does with it.
pub fn stmt_meets_decl(alloc: Global, frame: StmtFrame, d: Decl, stack: Stack) -> Answer
    ensures value { Comes result (rows.stmt_meets_decl (stmt_frame frame) (decl_view d) (stack_view stack)) }
{
    match frame {
        StmtFrame::Decl => after_decl(alloc, d, stack),
        other => stuck_with(Frame::Stmt(other), Value::Decl(d), stack),
    }
}

fn after_decl(alloc: Global, d: Decl, stack: Stack) -> Answer
    ensures value { Comes result (rows.stmt_meets_decl f.Declared (decl_view d) (stack_view stack)) }
{
    match decl_stmt(alloc, d) {
        Ok(s) => over(stack, Value::Stmt(s)),
        Err(error) => lost(error, stack),
    }
}
