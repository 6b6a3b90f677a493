//! Simple statements, in lists of statements and in headers.

ghost use Rattle.std.specs.Prelude.{◌≡◌, ◌∷◌, ◌&&◌, [], Some, true, is_some};
ghost use Rattle.go_syntax.specs.Tree as t;
ghost use Rattle.go_grammar.specs.Frames as f;
ghost use Rattle.go_grammar.specs.ExprSteps as steps;
ghost use Rattle.go_grammar.specs.StmtSteps as rows;
ghost use Rattle.go_grammar.specs.Limits as limits;
ghost use Rattle.go_syntax.specs.View.{expr_view, exprs_of};
ghost use Rattle.go_frames.specs.FrameView.{Comes, token_of, ctx_view, exprs_in, mode_view, spot_view, stmt_frame, stack_view};
ghost use Rattle.go_stmt_steps.specs.SimpleStepsParts.{after_tag, after_listed, end_tag, end_assigned, end_defined};

use gj_base::{Op, Place};
use go_frames::begins::expr::{begin_expr, then_expr};
use go_frames::begins::lists::with_expr;
use go_frames::begins::simple::takes_guard;
use go_frames::ends::lost::{lost, lost_at};
use go_frames::ends::refused::{long_at, stuck, stuck_at, stuck_with};
use go_frames::ends::stmt::drop_exprs;
use go_frames::frames::at::{At, assign_of};
use go_frames::frames::ctx::{LONGEST, one_more};
use go_frames::frames::form::{assign, define, exprs_stmt, increment, only_one, send};
use go_frames::frames::frame::{Frame, Mode, Spot, StmtFrame, Value};
use go_frames::frames::node::{into_name, is_name};
use go_frames::frames::stack::{Answer, Stack, done, goes, over};
use go_syntax::tree::{Expr, Name};
use go_syntax::{Keyword, Operator};
use std::alloc::Global;

fn is_tag(mode: Mode) -> bool
    ensures value { result ≡ rows.is_tag (mode_view mode) }
{
    matches!(mode, Mode::Tag)
}

fn is_for(mode: Mode) -> bool
    ensures value { result ≡ rows.is_for (mode_view mode) }
{
    matches!(mode, Mode::For)
}

fn is_statement(mode: Mode) -> bool
    ensures value { result ≡ rows.is_listed (mode_view mode) }
{
    matches!(mode, Mode::Stmt(_))
}

/// After an expression on the left, or alone.
pub fn after_left(alloc: Global, at: At, spot: Spot, es: Vec<Expr>, e: Expr, stack: Stack) -> Answer
    ensures value { Comes result (rows.after_left (token_of at []) (spot_view spot) (exprs_in es.items) (expr_view e) (stack_view stack)) }
{
    if is_tag(spot.mode) {
        return after_tag(alloc, at, spot, es, e, stack);
    }
    match with_expr(es, e) {
        Ok(es) => after_listed(alloc, at, spot, es, stack),
        Err(error) => lost(error, stack),
    }
}

/// After an expression on the left that isn't in a header of a `switch` after its `;`.
fn after_listed(alloc: Global, at: At, spot: Spot, es: Vec<Expr>, stack: Stack) -> Answer
    ensures value { Comes result (after_listed (token_of at []) (spot_view spot) (exprs_in es.items) (stack_view stack)) }
{
    if at.is(Operator::Comma) {
        let stack = stack.with(Frame::Stmt(StmtFrame::Simple(spot, es)))?;
        return then_expr(spot.ctx, stack);
    }
    if at.is(Operator::Assign) || at.is(Operator::Define) {
        return goes(
            stack,
            Frame::Stmt(StmtFrame::Right(spot, es, at.is(Operator::Define))),
        );
    }
    match assign_of(at.kind) {
        Some(op) => assigns(alloc, spot, es, op, stack),
        None => after_all(alloc, at, spot, es, stack),
    }
}

/// After `op=`.
fn assigns(alloc: Global, spot: Spot, es: Vec<Expr>, op: Op, stack: Stack) -> Answer
    ensures value { Comes result (steps.then_expr (ctx_view spot.ctx) (f.OfStmt (f.Assigned (spot_view spot) (exprs_in es.items) (Some op) []) ∷ stack_view stack)) }
{
    let stack = stack.with(Frame::Stmt(StmtFrame::Assign(spot, es, Some(op), Vec::new(alloc))))?;
    then_expr(spot.ctx, stack)
}

/// After the expression of a header of a `switch` that follows its `;`: `name :=` or nothing.
fn after_tag(alloc: Global, at: At, spot: Spot, es: Vec<Expr>, e: Expr, stack: Stack) -> Answer
    ensures value { Comes result (after_tag (token_of at []) (spot_view spot) (exprs_in es.items) (expr_view e) (stack_view stack)) }
{
    let named = is_name(&e);
    match with_expr(es, e) {
        Ok(es) => end_tag(alloc, at, spot, es, named, stack),
        Err(error) => lost(error, stack),
    }
}

fn end_tag(alloc: Global, at: At, spot: Spot, es: Vec<Expr>, named: bool, stack: Stack) -> Answer
    ensures value { Comes result (end_tag (token_of at []) (spot_view spot) (exprs_in es.items) named (stack_view stack)) }
{
    if at.is(Operator::Define) && named {
        return goes(stack, Frame::Stmt(StmtFrame::Right(spot, es, true)));
    }
    over_exprs(alloc, spot, es, stack)
}

/// A statement of expressions alone.
fn over_exprs(alloc: Global, spot: Spot, es: Vec<Expr>, stack: Stack) -> Answer
    ensures value { Comes result (f.Over (f.AStmt (t.ExprStmt spot.place (exprs_of (exprs_in es.items)))) (stack_view stack)) }
{
    match exprs_stmt(alloc, spot.place, es) {
        Ok(s) => over(stack, Value::Stmt(s)),
        Err(error) => lost(error, stack),
    }
}

/// After the last expression on the left: `<-`, `++`, `--`, `:` after a name alone, or nothing.
fn after_all(alloc: Global, at: At, spot: Spot, es: Vec<Expr>, stack: Stack) -> Answer
    ensures value { Comes result (rows.after_all (token_of at []) (spot_view spot) (exprs_in es.items) (stack_view stack)) }
{
    if at.is(Operator::Arrow) {
        let stack = stack.with(Frame::Stmt(StmtFrame::Send(spot.place, es)))?;
        return then_expr(spot.ctx, stack);
    }
    if at.is(Operator::Increment) || at.is(Operator::Decrement) {
        return match increment(alloc, spot.place, es, at.is(Operator::Increment)) {
            Ok(s) => done(stack, Value::Stmt(s)),
            Err(error) => lost(error, stack),
        };
    }
    if at.is(Operator::Colon) && is_statement(spot.mode) && is_label(&es) {
        return after_name(spot, es, stack);
    }
    over_exprs(alloc, spot, es, stack)
}

/// A label's `:`.
fn after_name(spot: Spot, es: Vec<Expr>, stack: Stack) -> Answer
    ensures value { Comes result (rows.after_label_name (spot_view spot) (mode_view spot.mode) (rows.label_in (exprs_in es.items)) (stack_view stack)) }
{
    match spot.mode {
        Mode::Stmt(labels) => match label_in(es) {
            None => stuck(stack),
            Some(name) => then_label(spot, labels, name, stack),
        },
        _ => stuck_at(Frame::Stmt(StmtFrame::Simple(spot, es)), stack),
    }
}

fn then_label(spot: Spot, labels: u32, name: Name, stack: Stack) -> Answer
    ensures value { Comes result (steps.if_short labels name.place (f.Goes (f.OfStmt (f.AfterLabel spot.ctx.blocks (limits.one_longer labels)) ∷ f.OfStmt (f.Labeled name) ∷ stack_view stack))) }
{
    if labels >= LONGEST {
        return long_at(name.place, Frame::Stmt(StmtFrame::Labeled(name)), stack);
    }
    let stack = stack.with(Frame::Stmt(StmtFrame::Labeled(name)))?;
    goes(
        stack,
        Frame::Stmt(StmtFrame::Label(spot.ctx.blocks, one_more(labels))),
    )
}

/// The label that the expressions are, where they are one name alone.
#[tactic(auto, using(crate::proofs::ListLemmas::label_of_one, crate::proofs::ListLemmas::label_of_none))]
fn label_in(es: Vec<Expr>) -> Option<Name>
    ensures value { result ≡ rows.label_in (exprs_in es.items) }
{
    match only_one(es) {
        None => None,
        Some(e) => into_name(e),
    }
}

/// Whether the expressions are a label.
#[tactic(auto, using(crate::proofs::ListLemmas::label_named))]
fn is_label(es: &Vec<Expr>) -> bool
    ensures value { result ≡ is_some (rows.label_in (exprs_in es.now.items)) }
{
    is_one_name(es)
}

/// Whether the left side is one name alone, which a guard of a type switch may define.
#[tactic(auto, using(crate::proofs::ListLemmas::one_name, crate::proofs::ListLemmas::not_one_name))]
fn is_one_name(left: &Vec<Expr>) -> bool
    ensures value { result ≡ rows.is_one_name (exprs_in left.now.items) }
{
    if left.len() != 1 {
        return false;
    }
    is_name(&left[0])
}

/// After `=` or `:=`.
pub fn right_side(
    alloc: Global,
    at: At,
    text: &[u8],
    spot: Spot,
    left: Vec<Expr>,
    fresh: bool,
    stack: Stack,
) -> Answer
    ensures value { Comes result (rows.stmt_row (token_of at text.now) (f.Right (spot_view spot) (exprs_in left.items) fresh) (stack_view stack)) }
{
    if is_for(spot.mode) && at.is_word(Keyword::Range) {
        return done(stack, Value::Ranging(left, fresh));
    }
    if fresh {
        return begin_defined(alloc, at, text, spot, left, stack);
    }
    let stack = stack.with(Frame::Stmt(StmtFrame::Assign(spot, left, None, Vec::new(alloc))))?;
    begin_expr(alloc, at, text, spot.ctx, stack)
}

/// After `:=`, but for a range.
fn begin_defined(
    alloc: Global,
    at: At,
    text: &[u8],
    spot: Spot,
    left: Vec<Expr>,
    stack: Stack,
) -> Answer
    ensures value { Comes result (rows.right_side (token_of at text.now) (spot_view spot) (exprs_in left.items) true (stack_view stack)) }
{
    let guard = may_guard(spot.mode, &left);
    let stack = stack.with(Frame::Stmt(StmtFrame::Define(spot, left, Vec::new(alloc))))?;
    begin_expr(alloc, at, text, spot.ctx.with_guard(guard), stack)
}

/// Whether a guard may give the left side its value.
fn may_guard(mode: Mode, left: &Vec<Expr>) -> bool
    ensures value { result ≡ (rows.takes_guard (mode_view mode) && rows.is_one_name (exprs_in left.now.items)) }
{
    if takes_guard(mode) {
        return is_one_name(left);
    }
    false
}

/// After an expression on the right of `=` or `op=`.
pub fn after_assigned(
    alloc: Global,
    at: At,
    spot: Spot,
    left: Vec<Expr>,
    op: Option<Op>,
    right: Vec<Expr>,
    e: Expr,
    stack: Stack,
) -> Answer
    ensures value { Comes result (rows.stmt_meets_expr (token_of at []) (f.Assigned (spot_view spot) (exprs_in left.items) op (exprs_in right.items)) (expr_view e) (stack_view stack)) }
{
    match with_expr(right, e) {
        Ok(right) => end_assigned(alloc, at, spot, left, op, right, stack),
        Err(error) => lost_at(error, Frame::Stmt(StmtFrame::Simple(spot, left)), stack),
    }
}

fn end_assigned(
    alloc: Global,
    at: At,
    spot: Spot,
    left: Vec<Expr>,
    op: Option<Op>,
    right: Vec<Expr>,
    stack: Stack,
) -> Answer
    ensures value { Comes result (end_assigned (token_of at []) (spot_view spot) (exprs_in left.items) op (exprs_in right.items) (stack_view stack)) }
{
    if at.is(Operator::Comma) {
        let stack = stack.with(Frame::Stmt(StmtFrame::Assign(spot, left, op, right)))?;
        return then_expr(spot.ctx, stack);
    }
    match assign(alloc, spot.place, left, op, right) {
        Ok(s) => over(stack, Value::Stmt(s)),
        Err(error) => lost(error, stack),
    }
}

/// After an expression on the right of `:=`.
pub fn after_defined(
    alloc: Global,
    at: At,
    spot: Spot,
    left: Vec<Expr>,
    right: Vec<Expr>,
    e: Expr,
    stack: Stack,
) -> Answer
    ensures value { Comes result (rows.stmt_meets_expr (token_of at []) (f.Defined (spot_view spot) (exprs_in left.items) (exprs_in right.items)) (expr_view e) (stack_view stack)) }
{
    if is_tag(spot.mode) {
        return stuck_with(
            Frame::Stmt(StmtFrame::Define(spot, left, right)),
            Value::Expr(e),
            stack,
        );
    }
    match with_expr(right, e) {
        Ok(right) => end_defined(alloc, at, spot, left, right, stack),
        Err(error) => lost_at(error, Frame::Stmt(StmtFrame::Simple(spot, left)), stack),
    }
}

fn end_defined(
    alloc: Global,
    at: At,
    spot: Spot,
    left: Vec<Expr>,
    right: Vec<Expr>,
    stack: Stack,
) -> Answer
    ensures value { Comes result (end_defined (token_of at []) (spot_view spot) (exprs_in left.items) (exprs_in right.items) (stack_view stack)) }
{
    if at.is(Operator::Comma) {
        let stack = stack.with(Frame::Stmt(StmtFrame::Define(spot, left, right)))?;
        return then_expr(spot.ctx, stack);
    }
    match define(alloc, spot.place, left, right) {
        Ok(s) => over(stack, Value::Stmt(s)),
        Err(error) => lost(error, stack),
    }
}

/// After the value that is sent.
pub fn after_sent(alloc: Global, place: Place, cs: Vec<Expr>, e: Expr, stack: Stack) -> Answer
    ensures value { Comes result (f.Over (f.AStmt (t.SendStmt place (exprs_of (exprs_in cs.items)) (expr_view e))) (stack_view stack)) }
{
    match send(alloc, place, cs, e) {
        Ok(s) => over(stack, Value::Stmt(s)),
        Err(error) => lost(error, stack),
    }
}

/// A guard goes through the frame, which may give it its name.
pub fn guard_in_simple(frame: StmtFrame, e: Expr, stack: Stack) -> Answer
    ensures value { Comes result (rows.guard_meets_simple (stmt_frame frame) (expr_view e) (stack_view stack)) }
{
    match frame {
        StmtFrame::Simple(_, es) => {
            drop_exprs(es);
            over(stack, Value::Guard(None, e))
        }
        StmtFrame::Define(_, left, right) => {
            drop_exprs(right);
            over(stack, Value::Guard(last_name(left), e))
        }
        other => stuck_with(Frame::Stmt(other), Value::Expr(e), stack),
    }
}

/// The name that the last expression is, where it is one.
#[tactic(auto, using(crate::proofs::ListLemmas::last_name_push))]
fn last_name(es: Vec<Expr>) -> Option<Name>
    ensures value { result ≡ rows.last_name (exprs_in es.items) }
{
    let mut es = es;
    let last = es.pop();
    drop_exprs(es);
    match last {
        None => None,
        Some(e) => into_name(e),
    }
}
