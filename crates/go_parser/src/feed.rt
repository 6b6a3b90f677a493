//! One token to the frames.

ghost use Rattle.std.specs.Prelude.{[]};
ghost use Rattle.go_syntax.specs.View.{expr_view, sig_view, block_view, stmt_view, decl_view};
ghost use Rattle.go_frames.specs.FrameView.{Comes, token_of, exprs_in, value_view, frame_view, stack_view};
ghost use Rattle.go_grammar.specs.Parsed as all;

use crate::file::{file_meets_block, file_meets_decl, file_meets_sig, file_row};
use go_control_steps::control::{
    control_meets_block, control_meets_expr, control_meets_ranging, control_meets_stmt, control_row,
};
use go_control_steps::switch::{
    switch_meets_expr, switch_meets_guard, switch_meets_stmt, switch_row,
};
use go_expr_steps::expr::{body_meets, chain_meets, expr_meets, expr_row, func_meets, guard_meets};
use go_expr_steps::part::{part_meets, part_row};
use go_expr_steps::types::{type_meets, type_row, type_sig_meets};
use go_field_steps::field::{field_meets, field_row, method_meets};
use go_field_steps::sig::{sig_meets, sig_row};
use go_frames::ends::file::{stuck_below, unnamed};
use go_frames::ends::refused::stuck_with;
use go_frames::frames::at::At;
use go_frames::frames::frame::{Frame, Value};
use go_frames::frames::stack::{Answer, Flow, Stack, over};
use go_stmt_steps::simple_steps::decl::{decl_meets_expr, decl_row};
use go_stmt_steps::simple_steps::simple::guard_in_simple;
use go_stmt_steps::stmt_steps::stmt::{
    stmt_meets_block, stmt_meets_decl, stmt_meets_expr, stmt_meets_stmt, stmt_row,
};
use go_syntax::tree::{Block, Decl, Expr, Name, Sig, Stmt};
use std::alloc::Global;

/// What the top frame does at the token.
fn row(alloc: Global, at: At, text: &[u8], frame: Frame, stack: Stack) -> Answer
    ensures value { Comes result (all.row (token_of at text.now) (frame_view frame) (stack_view stack)) }
{
    match frame {
        Frame::Expr(f) => expr_row(alloc, at, text, f, stack),
        Frame::Part(f) => part_row(alloc, at, text, f, stack),
        Frame::Type(f) => type_row(alloc, at, text, f, stack),
        Frame::Field(f) => field_row(alloc, at, text, f, stack),
        Frame::Sig(f) => sig_row(alloc, at, text, f, stack),
        Frame::Stmt(f) => stmt_row(alloc, at, text, f, stack),
        Frame::Control(f) => control_row(alloc, at, text, f, stack),
        Frame::Switch(f) => switch_row(alloc, at, text, f, stack),
        Frame::Decl(f) => decl_row(alloc, at, text, f, stack),
        Frame::File(f) => file_row(alloc, at, text, f, stack),
        Frame::Done(value) => over(stack, value),
    }
}

/// What a frame does at the token with the tree that it waited for.
fn meets(alloc: Global, at: At, text: &[u8], frame: Frame, value: Value, stack: Stack) -> Answer
    ensures value { Comes result (all.meets (token_of at text.now) (frame_view frame) (value_view value) (stack_view stack)) }
{
    match value {
        Value::Expr(e) => meets_expr(alloc, at, text, frame, e, stack),
        Value::Chain(count, e) => meets_chain(alloc, at, frame, count, e, stack),
        Value::Guard(name, e) => meets_guard(alloc, at, frame, name, e, stack),
        Value::Ranging(left, fresh) => meets_ranging(alloc, at, text, frame, left, fresh, stack),
        Value::Sig(sig) => meets_sig(alloc, at, frame, sig, stack),
        Value::Block(block) => meets_block(alloc, at, frame, block, stack),
        Value::Stmt(s) => meets_stmt(alloc, at, frame, s, stack),
        Value::Decl(d) => meets_decl(alloc, at, frame, d, stack),
    }
}

fn meets_expr(alloc: Global, at: At, text: &[u8], frame: Frame, e: Expr, stack: Stack) -> Answer
    ensures value { Comes result (all.meets_expr (token_of at text.now) (frame_view frame) (expr_view e) (stack_view stack)) }
{
    match frame {
        Frame::Expr(f) => expr_meets(alloc, at, f, e, stack),
        Frame::Part(f) => part_meets(alloc, at, f, e, stack),
        Frame::Type(f) => type_meets(alloc, at, f, e, stack),
        Frame::Field(f) => field_meets(alloc, at, text, f, e, stack),
        Frame::Sig(f) => sig_meets(at, f, e, stack),
        Frame::Stmt(f) => stmt_meets_expr(alloc, at, f, e, stack),
        Frame::Control(f) => control_meets_expr(alloc, at, f, e, stack),
        Frame::Switch(f) => switch_meets_expr(alloc, at, f, e, stack),
        Frame::Decl(f) => decl_meets_expr(alloc, at, f, e, stack),
        other => stuck_with(other, Value::Expr(e), stack),
    }
}

fn meets_chain(alloc: Global, at: At, frame: Frame, count: u32, e: Expr, stack: Stack) -> Answer
    ensures value { Comes result (all.meets_chain (token_of at []) (frame_view frame) count (expr_view e) (stack_view stack)) }
{
    match frame {
        Frame::Expr(f) => chain_meets(alloc, at, f, count, e, stack),
        other => stuck_with(other, Value::Chain(count, e), stack),
    }
}

/// `x.(type` goes down to the header of its `switch`.
fn meets_guard(
    alloc: Global,
    at: At,
    frame: Frame,
    name: Option<Name>,
    e: Expr,
    stack: Stack,
) -> Answer
    ensures value { Comes result (all.meets_guard (token_of at []) (frame_view frame) name (expr_view e) (stack_view stack)) }
{
    match frame {
        Frame::Expr(f) => guard_meets(alloc, f, name, e, stack),
        Frame::Stmt(f) => {
            unnamed(name);
            guard_in_simple(f, e, stack)
        }
        Frame::Switch(f) => switch_meets_guard(at, f, name, e, stack),
        other => stuck_with(other, Value::Guard(name, e), stack),
    }
}

fn meets_ranging(
    alloc: Global,
    at: At,
    text: &[u8],
    frame: Frame,
    left: Vec<Expr>,
    fresh: bool,
    stack: Stack,
) -> Answer
    ensures value { Comes result (all.meets_ranging (token_of at text.now) (frame_view frame) (exprs_in left.items) fresh (stack_view stack)) }
{
    match frame {
        Frame::Control(f) => control_meets_ranging(alloc, at, text, f, left, fresh, stack),
        other => stuck_with(other, Value::Ranging(left, fresh), stack),
    }
}

fn meets_sig(alloc: Global, at: At, frame: Frame, sig: Sig, stack: Stack) -> Answer
    ensures value { Comes result (all.meets_sig (token_of at []) (frame_view frame) (sig_view sig) (stack_view stack)) }
{
    match frame {
        Frame::Expr(f) => func_meets(alloc, at, f, sig, stack),
        Frame::Type(f) => type_sig_meets(alloc, f, sig, stack),
        Frame::Field(f) => method_meets(alloc, at, f, sig, stack),
        Frame::File(f) => file_meets_sig(alloc, at, f, sig, stack),
        other => stuck_with(other, Value::Sig(sig), stack),
    }
}

fn meets_block(alloc: Global, at: At, frame: Frame, block: Block, stack: Stack) -> Answer
    ensures value { Comes result (all.meets_block (token_of at []) (frame_view frame) (block_view block) (stack_view stack)) }
{
    match frame {
        Frame::Expr(f) => body_meets(alloc, at, f, block, stack),
        Frame::Stmt(f) => stmt_meets_block(alloc, f, block, stack),
        Frame::Control(f) => control_meets_block(alloc, at, f, block, stack),
        Frame::File(f) => file_meets_block(alloc, f, block, stack),
        other => stuck_with(other, Value::Block(block), stack),
    }
}

fn meets_stmt(alloc: Global, at: At, frame: Frame, s: Stmt, stack: Stack) -> Answer
    ensures value { Comes result (all.meets_stmt (token_of at []) (frame_view frame) (stmt_view s) (stack_view stack)) }
{
    match frame {
        Frame::Stmt(f) => stmt_meets_stmt(alloc, at, f, s, stack),
        Frame::Control(f) => control_meets_stmt(alloc, at, f, s, stack),
        Frame::Switch(f) => switch_meets_stmt(alloc, at, f, s, stack),
        other => stuck_with(other, Value::Stmt(s), stack),
    }
}

fn meets_decl(alloc: Global, at: At, frame: Frame, d: Decl, stack: Stack) -> Answer
    ensures value { Comes result (all.meets_decl (token_of at []) (frame_view frame) (decl_view d) (stack_view stack)) }
{
    match frame {
        Frame::Stmt(f) => stmt_meets_decl(alloc, f, d, stack),
        Frame::File(f) => file_meets_decl(at, f, d, stack),
        other => stuck_with(other, Value::Decl(d), stack),
    }
}

/// Feeds one token: a tree that is done goes to the frame below, until a frame takes the token.
#[tactic(auto, using(crate::proofs::FeedLemmas::feed_over))]
pub fn feed(alloc: Global, at: At, text: &[u8], stack: Stack) -> Answer
    ensures value { Comes result (all.feed (token_of at text.now) (stack_view stack)) }
{
    match stack.pop() {
        None => Ok(Flow::Stuck),
        Some((frame, below)) => match row(alloc, at, text, frame, below)? {
            Flow::Over(value, rest) => hand(alloc, at, text, value, rest),
            Flow::Goes(next) => Ok(Flow::Goes(next)),
            Flow::Stuck => Ok(Flow::Stuck),
            Flow::Deep => Ok(Flow::Deep),
            Flow::Long(place) => Ok(Flow::Long(place)),
        },
    }
}

/// Hands a tree that is done to the frames, until one of them takes the token.
#[tactic(auto, using(crate::proofs::FeedLemmas::hands_over))]
fn hand(alloc: Global, at: At, text: &[u8], value: Value, stack: Stack) -> Answer
    ensures value { Comes result (all.hands (token_of at text.now) (stack_view stack) (value_view value)) }
{
    let mut value = value;
    let mut stack = stack;
    'down: loop {
        match stack.pop() {
            None => return stuck_below(value),
            Some((frame, below)) => match meets(alloc, at, text, frame, value, below)? {
                Flow::Over(next, rest) => {
                    value = next;
                    stack = rest;
                }
                Flow::Goes(next) => return Ok(Flow::Goes(next)),
                Flow::Stuck => return Ok(Flow::Stuck),
                Flow::Deep => return Ok(Flow::Deep),
                Flow::Long(place) => return Ok(Flow::Long(place)),
            },
        }
    }
}
