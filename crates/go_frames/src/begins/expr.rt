//! Expressions: Expr, Unary and Operand.

ghost use Rattle.std.specs.Prelude.{◌∷◌, [], Some};
ghost use Rattle.go_grammar.specs.Frames as f;
ghost use Rattle.go_grammar.specs.ExprSteps as steps;
ghost use Rattle.go_grammar.specs.Nodes as nodes;
ghost use Rattle.go_frames.specs.FrameView.{operand_by_op, Comes, token_of, ctx_view, stack_view};

use crate::begins::types::begin_type_word;
use crate::ends::lost::lost;
use crate::ends::refused::{deep, stuck};
use crate::frames::at::{At, prefix_of};
use crate::frames::ctx::Ctx;
use crate::frames::frame::{ExprFrame, Frame, SigFrame, TypeFrame};
use crate::frames::node::leaf;
use crate::frames::stack::{Answer, Stack, goes};
use go_syntax::tree::Prefix;
use go_syntax::{Keyword, Operator, TokenKind};
use std::alloc::Global;

/// Takes the token, after which an expression comes.
pub fn then_expr(c: Ctx, stack: Stack) -> Answer
    ensures value { Comes result (steps.then_expr (ctx_view c) (stack_view stack)) }
{
    let stack = stack.with(Frame::Expr(ExprFrame::Chain(c)))?;
    goes(stack, Frame::Expr(ExprFrame::Operand(c)))
}

/// An expression that begins with the token.
pub fn begin_expr(alloc: Global, at: At, text: &[u8], c: Ctx, stack: Stack) -> Answer
    ensures value { Comes result (steps.begin_expr (token_of at text.now) (ctx_view c) (stack_view stack)) }
{
    let stack = stack.with(Frame::Expr(ExprFrame::Chain(c)))?;
    operand(alloc, at, text, c, stack)
}

/// Unary = {"+" | "-" | "!" | "^" | "*" | "&" | "<-"} Primary
pub fn operand(alloc: Global, at: At, text: &[u8], c: Ctx, stack: Stack) -> Answer
    ensures value { Comes result (steps.operand (token_of at text.now) (ctx_view c) (stack_view stack)) }
{
    match at.kind {
        TokenKind::Op(_) => operand_op(at, c, stack),
        TokenKind::Word(word) => operand_word(at, word, c, stack),
        _ => operand_leaf(alloc, at, text, c, stack),
    }
}

fn operand_leaf(alloc: Global, at: At, text: &[u8], c: Ctx, stack: Stack) -> Answer
    ensures value { Comes result (steps.operand_leaf (ctx_view c) (stack_view stack) (nodes.leaf (token_of at text.now))) }
{
    let found = match leaf(alloc, at.kind, at.place, text) {
        Ok(found) => found,
        Err(error) => return lost(error, stack),
    };
    match found {
        None => stuck(stack),
        Some(e) => goes(stack, Frame::Expr(ExprFrame::Tail(c, 0, e))),
    }
}

fn operand_op(at: At, c: Ctx, stack: Stack) -> Answer
    ensures value { Comes result (operand_by_op (token_of at []) (ctx_view c) (stack_view stack)) }
{
    if at.is(Operator::LeftParen) {
        return open_paren(at, c, stack);
    }
    if at.is(Operator::LeftBracket) {
        return open_bracket(at, c, stack);
    }
    match prefix_of(at.kind) {
        None => stuck(stack),
        Some(prefix) => open_prefix(at, prefix, c, stack),
    }
}

fn open_paren(at: At, c: Ctx, stack: Stack) -> Answer
    ensures value { Comes result (steps.if_room (ctx_view c) (steps.then_expr (f.inside (ctx_view c)) (f.OfExpr (f.InParens (ctx_view c) at.place) ∷ (stack_view stack)))) }
{
    if !c.has_room() {
        return deep(stack);
    }
    let stack = stack.with(Frame::Expr(ExprFrame::Paren(c, at.place)))?;
    then_expr(c.inside(), stack)
}

fn open_bracket(at: At, c: Ctx, stack: Stack) -> Answer
    ensures value { Comes result (steps.if_room (ctx_view c) (f.Goes (f.OfType (f.TypeBracket (ctx_view c) at.place) ∷ f.OfExpr (f.TypeOperand (ctx_view c)) ∷ (stack_view stack)))) }
{
    if !c.has_room() {
        return deep(stack);
    }
    let stack = stack.with(Frame::Expr(ExprFrame::TypeOperand(c)))?;
    goes(stack, Frame::Type(TypeFrame::Bracket(c, at.place)))
}

fn open_prefix(at: At, prefix: Prefix, c: Ctx, stack: Stack) -> Answer
    ensures value { Comes result (steps.operand_op (token_of at []) (ctx_view c) (stack_view stack) (Some prefix)) }
{
    if !c.has_room() {
        return deep(stack);
    }
    let stack = stack.with(Frame::Expr(ExprFrame::Prefix(at.place, prefix)))?;
    goes(stack, Frame::Expr(ExprFrame::Operand(c.deeper())))
}

fn operand_word(at: At, word: Keyword, c: Ctx, stack: Stack) -> Answer
    ensures value { Comes result (steps.operand_word (token_of at []) word (ctx_view c) (stack_view stack)) }
{
    match word {
        Keyword::Func => {
            let stack = stack.with(Frame::Expr(ExprFrame::Func(c, at.place)))?;
            goes(stack, Frame::Sig(SigFrame::Open(c)))
        }
        _ => {
            let stack = stack.with(Frame::Expr(ExprFrame::TypeOperand(c)))?;
            begin_type_word(at, word, c, stack)
        }
    }
}
