//! Expressions: Expr, Unary and Operand.

ghost use Rattle.std.specs.Prelude.{◌∷◌, []};
ghost use Rattle.go_grammar.specs.Frames as f;
ghost use Rattle.go_grammar.specs.ExprSteps as steps;
ghost use Rattle.go_grammar.specs.Nodes as nodes;
ghost use Rattle.go_grammar.specs.Classes.{binary_op};
ghost use Rattle.go_syntax.specs.View.{expr_view, sig_view, block_view};
ghost use Rattle.go_frames.specs.FrameView.{Comes, token_of, ctx_view, expr_frame, stack_view};

use crate::part::tail;
use gj_base::{Op, Place};
use go_frames::begins::expr::operand;
use go_frames::ends::lost::{lost, lost_name, lost_tree};
use go_frames::ends::refused::{long_at, stuck_at, stuck_with};
use go_frames::frames::at::{At, binary_of, level};
use go_frames::frames::ctx::{Ctx, LONGEST, one_more};
use go_frames::frames::frame::{ExprFrame, Frame, Value};
use go_frames::frames::node::{binary, function, function_type, paren, unary};
use go_frames::frames::stack::{Answer, Stack, goes, open_block, over};
use go_syntax::Operator;
use go_syntax::tree::{Block, Expr, Name, Prefix, Sig};
use std::alloc::Global;

/// What the top frame does at the token.
pub fn expr_row(alloc: Global, at: At, text: &[u8], frame: ExprFrame, stack: Stack) -> Answer
    ensures value { Comes result (steps.expr_row (token_of at text.now) (expr_frame frame) (stack_view stack)) }
{
    match frame {
        ExprFrame::Operand(c) => operand(alloc, at, text, c, stack),
        ExprFrame::Tail(c, count, e) => tail(alloc, at, c, count, e, stack),
        other => stuck_at(Frame::Expr(other), stack),
    }
}

/// An operand of a chain with so many operators so far: the chain goes on, or is over.
fn first_operand(at: At, c: Ctx, count: u32, e: Expr, stack: Stack) -> Answer
    ensures value { Comes result (steps.first_operand (token_of at []) (ctx_view c) count (expr_view e) (stack_view stack) (binary_op at.kind)) }
{
    match binary_of(at.kind) {
        None => over(stack, Value::Expr(e)),
        Some(op) => begin_chain(at, c, count, e, op, stack),
    }
}

/// `e op`, with so many operators before, where the operand may be the first of a chain itself.
fn begin_chain(at: At, c: Ctx, count: u32, e: Expr, op: Op, stack: Stack) -> Answer
    ensures value { Comes result (steps.then_right (token_of at []) (ctx_view c) count (expr_view e) op (f.OfExpr (f.Chain (ctx_view c)) ∷ stack_view stack)) }
{
    match stack.with(Frame::Expr(ExprFrame::Chain(c))) {
        Ok(stack) => then_right(at, c, count, e, op, stack),
        Err(error) => lost_tree(error, Value::Expr(e)),
    }
}

/// `e op`, with so many operators before.
fn then_right(at: At, c: Ctx, count: u32, e: Expr, op: Op, stack: Stack) -> Answer
    ensures value { Comes result (steps.then_right (token_of at []) (ctx_view c) count (expr_view e) op (stack_view stack)) }
{
    if count >= LONGEST {
        return long_at(at.place, Frame::Done(Value::Expr(e)), stack);
    }
    let stack = stack.with(Frame::Expr(ExprFrame::Left(c, one_more(count), e, op)))?;
    goes(stack, Frame::Expr(ExprFrame::Operand(c)))
}

/// The left operand, with its operator.
struct Half {
    expr: Expr,
    op: Op,
}

/// `a op b`, with so many operators so far: b is the left operand of a tighter one, or `a op b` is done.
fn right_operand(
    alloc: Global,
    at: At,
    c: Ctx,
    count: u32,
    left: Half,
    b: Expr,
    stack: Stack,
) -> Answer
    ensures value { Comes result (steps.right_operand (token_of at []) (ctx_view c) count (expr_view left.expr) left.op (expr_view b) (stack_view stack) (binary_op at.kind)) }
{
    match binary_of(at.kind) {
        None => over_binary(alloc, count, left, b, stack),
        Some(op) => {
            if level(left.op) < level(op) {
                return then_tighter(at, c, count, left, b, op, stack);
            }
            over_binary(alloc, count, left, b, stack)
        }
    }
}

/// `a op b op`, where the second operator binds tighter.
fn then_tighter(at: At, c: Ctx, count: u32, left: Half, b: Expr, op: Op, stack: Stack) -> Answer
    ensures value { Comes result (steps.then_right (token_of at []) (ctx_view c) count (expr_view b) op (f.OfExpr (f.Left (ctx_view c) count (expr_view left.expr) left.op) ∷ stack_view stack)) }
{
    let Half { expr, op: before } = left;
    match stack.with(Frame::Expr(ExprFrame::Left(c, count, expr, before))) {
        Ok(stack) => then_right(at, c, count, b, op, stack),
        Err(error) => lost_tree(error, Value::Expr(b)),
    }
}

fn over_binary(alloc: Global, count: u32, left: Half, b: Expr, stack: Stack) -> Answer
    ensures value { Comes result (f.Over (f.AChain count (nodes.binary (expr_view left.expr) left.op (expr_view b))) (stack_view stack)) }
{
    let Half { expr, op } = left;
    match binary(alloc, expr, op, b) {
        Ok(e) => over(stack, Value::Chain(count, e)),
        Err(error) => lost(error, stack),
    }
}

fn over_unary(alloc: Global, place: Place, op: Prefix, e: Expr, stack: Stack) -> Answer
    ensures value { Comes result (f.Over (f.AnExpr (nodes.unary place op (expr_view e))) (stack_view stack)) }
{
    match unary(alloc, place, op, e) {
        Ok(e) => over(stack, Value::Expr(e)),
        Err(error) => lost(error, stack),
    }
}

/// What a frame that waits for an expression does with it at the token.
pub fn expr_meets(alloc: Global, at: At, frame: ExprFrame, e: Expr, stack: Stack) -> Answer
    ensures value { Comes result (steps.expr_meets (token_of at []) (expr_frame frame) (expr_view e) (stack_view stack)) }
{
    match frame {
        ExprFrame::Prefix(place, op) => over_unary(alloc, place, op, e, stack),
        ExprFrame::Chain(c) => first_operand(at, c, 0, e, stack),
        ExprFrame::Left(c, count, a, op) => right_operand(
            alloc,
            at,
            c,
            count,
            Half { expr: a, op },
            e,
            stack,
        ),
        ExprFrame::Paren(c, place) => close_paren(alloc, at, c, place, e, stack),
        ExprFrame::TypeOperand(c) => tail(alloc, at, c, 0, e, stack),
        other => stuck_with(Frame::Expr(other), Value::Expr(e), stack),
    }
}

fn close_paren(alloc: Global, at: At, c: Ctx, place: Place, e: Expr, stack: Stack) -> Answer
    ensures value { Comes result (steps.expr_meets (token_of at []) (f.InParens (ctx_view c) place) (expr_view e) (stack_view stack)) }
{
    if !at.is(Operator::RightParen) {
        return stuck_with(
            Frame::Expr(ExprFrame::Paren(c, place)),
            Value::Expr(e),
            stack,
        );
    }
    match paren(alloc, place, e) {
        Ok(e) => goes(stack, Frame::Expr(ExprFrame::Tail(c, 0, e))),
        Err(error) => lost(error, stack),
    }
}

/// What a frame does with an operand of so many operators at the token.
pub fn chain_meets(
    alloc: Global,
    at: At,
    frame: ExprFrame,
    count: u32,
    e: Expr,
    stack: Stack,
) -> Answer
    ensures value { Comes result (steps.chain_meets (token_of at []) (expr_frame frame) count (expr_view e) (stack_view stack)) }
{
    match frame {
        ExprFrame::Chain(c) => first_operand(at, c, count, e, stack),
        ExprFrame::Left(c, _, a, op) => right_operand(
            alloc,
            at,
            c,
            count,
            Half { expr: a, op },
            e,
            stack,
        ),
        other => stuck_with(Frame::Expr(other), Value::Chain(count, e), stack),
    }
}

/// The expression before `.(type)` goes through the frame.
pub fn guard_meets(
    alloc: Global,
    frame: ExprFrame,
    name: Option<Name>,
    e: Expr,
    stack: Stack,
) -> Answer
    ensures value { Comes result (steps.guard_meets (expr_frame frame) name (expr_view e) (stack_view stack)) }
{
    match frame {
        ExprFrame::Prefix(place, op) => unary_guard(alloc, place, op, name, e, stack),
        ExprFrame::Chain(_) => over(stack, Value::Guard(name, e)),
        ExprFrame::Left(_, _, a, op) => binary_guard(alloc, Half { expr: a, op }, name, e, stack),
        other => stuck_with(Frame::Expr(other), Value::Guard(name, e), stack),
    }
}

fn unary_guard(
    alloc: Global,
    place: Place,
    op: Prefix,
    name: Option<Name>,
    e: Expr,
    stack: Stack,
) -> Answer
    ensures value { Comes result (f.Over (f.AGuard name (nodes.unary place op (expr_view e))) (stack_view stack)) }
{
    match unary(alloc, place, op, e) {
        Ok(e) => over(stack, Value::Guard(name, e)),
        Err(error) => lost_name(error, name, stack),
    }
}

fn binary_guard(alloc: Global, left: Half, name: Option<Name>, b: Expr, stack: Stack) -> Answer
    ensures value { Comes result (f.Over (f.AGuard name (nodes.binary (expr_view left.expr) left.op (expr_view b))) (stack_view stack)) }
{
    let Half { expr, op } = left;
    match binary(alloc, expr, op, b) {
        Ok(e) => over(stack, Value::Guard(name, e)),
        Err(error) => lost_name(error, name, stack),
    }
}

/// What `func` does with its signature at the token: `{` begins the body.
pub fn func_meets(alloc: Global, at: At, frame: ExprFrame, sig: Sig, stack: Stack) -> Answer
    ensures value { Comes result (steps.func_meets (token_of at []) (expr_frame frame) (sig_view sig) (stack_view stack)) }
{
    match frame {
        ExprFrame::Func(c, place) => after_sig(alloc, at, c, place, sig, stack),
        other => stuck_with(Frame::Expr(other), Value::Sig(sig), stack),
    }
}

/// After `func` Sig: the `{` of a literal's body, or the type is over.
fn after_sig(alloc: Global, at: At, c: Ctx, place: Place, sig: Sig, stack: Stack) -> Answer
    ensures value { Comes result (steps.func_meets (token_of at []) (f.AtFunc (ctx_view c) place) (sig_view sig) (stack_view stack)) }
{
    if at.is(Operator::LeftBrace) {
        let stack = stack.with(Frame::Expr(ExprFrame::FuncBody(c, place, sig)))?;
        return open_block(alloc, at, c.blocks, stack);
    }
    match function_type(alloc, place, sig) {
        Ok(e) => tail(alloc, at, c, 0, e, stack),
        Err(error) => lost(error, stack),
    }
}

pub fn body_meets(alloc: Global, at: At, frame: ExprFrame, block: Block, stack: Stack) -> Answer
    ensures value { Comes result (steps.body_meets (token_of at []) (expr_frame frame) (block_view block) (stack_view stack)) }
{
    match frame {
        ExprFrame::FuncBody(c, place, sig) => after_body(alloc, at, c, place, sig, block, stack),
        other => stuck_with(Frame::Expr(other), Value::Block(block), stack),
    }
}

/// A literal of a function.
fn after_body(
    alloc: Global,
    at: At,
    c: Ctx,
    place: Place,
    sig: Sig,
    block: Block,
    stack: Stack,
) -> Answer
    ensures value { Comes result (steps.body_meets (token_of at []) (f.AtBody (ctx_view c) place (sig_view sig)) (block_view block) (stack_view stack)) }
{
    match function(alloc, place, sig, block) {
        Ok(e) => tail(alloc, at, c, 0, e, stack),
        Err(error) => lost(error, stack),
    }
}
