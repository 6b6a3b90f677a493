//! Types, but for the fields and members in their braces.

ghost use Rattle.std.specs.Prelude.{◌≡◌, ◌∷◌, [], IfOk};
ghost use Rattle.go_grammar.specs.Frames as f;
ghost use Rattle.go_grammar.specs.ExprSteps as steps;
ghost use Rattle.go_grammar.specs.Nodes as nodes;
ghost use Rattle.go_grammar.specs.Classes.{name_of};
ghost use Rattle.go_syntax.specs.View.{expr_view};
ghost use Rattle.go_frames.specs.FrameView.{Comes, token_of, ctx_view, type_frame, stack_view};

use crate::ends::lost::lost;
use crate::ends::lost_part::lost_expr;
use crate::ends::refused::{deep_at, stuck};
use crate::frames::at::At;
use crate::frames::ctx::Ctx;
use crate::frames::frame::{Frame, SigFrame, TypeFrame};
use crate::frames::node::{name, name_expr, select};
use crate::frames::stack::{Answer, Stack, goes};
use gj_base::NoMemory;
use go_syntax::tree::Expr;
use go_syntax::{Keyword, Operator, TokenKind};
use std::alloc::Global;

/// Takes the token, after which a type comes.
pub fn then_type(c: Ctx, stack: Stack) -> Answer
    ensures value { Comes result (steps.then_type (ctx_view c) (stack_view stack)) }
{
    goes(stack, Frame::Type(TypeFrame::Type(c)))
}

/// A type that begins with the token.
pub fn begin_type(alloc: Global, at: At, text: &[u8], c: Ctx, stack: Stack) -> Answer
    ensures value { Comes result (steps.begin_type (token_of at text.now) (ctx_view c) (stack_view stack)) }
{
    match at.kind {
        TokenKind::Op(_) => begin_type_op(at, c, stack),
        TokenKind::Word(word) => begin_type_word(at, word, c, stack),
        TokenKind::Name => begin_named(alloc, at, text, stack),
        _ => stuck(stack),
    }
}

/// The name of a type, or of its package.
fn begin_named(alloc: Global, at: At, text: &[u8], stack: Stack) -> Answer
    ensures value { Comes result (f.Goes (f.OfType (f.TypeName (nodes.name_expr (name_of (token_of at text.now)))) ∷ stack_view stack)) }
{
    let name = match name(alloc, at.place, text) {
        Ok(name) => name,
        Err(error) => return lost(error, stack),
    };
    match name_expr(alloc, name) {
        Ok(e) => goes(stack, Frame::Type(TypeFrame::Name(e))),
        Err(error) => lost(error, stack),
    }
}

fn begin_type_op(at: At, c: Ctx, stack: Stack) -> Answer
    ensures value { Comes result (steps.begin_type_op (token_of at []) (ctx_view c) (stack_view stack)) }
{
    if at.is(Operator::LeftParen) {
        return inner_type(c, TypeFrame::Paren(at.place), stack);
    }
    if at.is(Operator::Mul) {
        return inner_type(c, TypeFrame::Star(at.place), stack);
    }
    if at.is(Operator::LeftBracket) {
        return opened(c, TypeFrame::Bracket(c, at.place), stack);
    }
    if at.is(Operator::Arrow) {
        return opened(c, TypeFrame::Arrow(c.inside(), at.place), stack);
    }
    stuck(stack)
}

/// Where one more may be open, the frame, and a type in it.
fn inner_type(c: Ctx, frame: TypeFrame, stack: Stack) -> Answer
    ensures value { Comes result (steps.if_room (ctx_view c) (steps.then_type (f.inside (ctx_view c)) (f.OfType (type_frame frame) ∷ (stack_view stack)))) }
{
    if !c.has_room() {
        return deep_at(Frame::Type(frame), stack);
    }
    let stack = stack.with(Frame::Type(frame))?;
    then_type(c.inside(), stack)
}

/// Where one more may be open, the frame.
fn opened(c: Ctx, frame: TypeFrame, stack: Stack) -> Answer
    ensures value { Comes result (steps.if_room (ctx_view c) (f.Goes (f.OfType (type_frame frame) ∷ (stack_view stack)))) }
{
    if !c.has_room() {
        return deep_at(Frame::Type(frame), stack);
    }
    goes(stack, Frame::Type(frame))
}

/// A type that begins with a keyword.
pub fn begin_type_word(at: At, word: Keyword, c: Ctx, stack: Stack) -> Answer
    ensures value { Comes result (steps.begin_type_word (token_of at []) word (ctx_view c) (stack_view stack)) }
{
    match word {
        Keyword::Func => {
            let stack = stack.with(Frame::Type(TypeFrame::Func(at.place)))?;
            goes(stack, Frame::Sig(SigFrame::Open(c)))
        }
        Keyword::Map => goes(stack, Frame::Type(TypeFrame::Map(c, at.place))),
        Keyword::Chan => opened(c, TypeFrame::Chan(c.inside(), at.place), stack),
        Keyword::Struct => goes(stack, Frame::Type(TypeFrame::Struct(c, at.place))),
        Keyword::Interface => goes(stack, Frame::Type(TypeFrame::Interface(c, at.place))),
        _ => stuck(stack),
    }
}

/// `e.x`, x being the token.
pub fn selected(alloc: Global, at: At, text: &[u8], e: Expr) -> Result<Expr, NoMemory>
    ensures value { IfOk result (λ x. expr_view x ≡ nodes.select (expr_view e) (name_of (token_of at text.now))) }
{
    let name = match name(alloc, at.place, text) {
        Ok(name) => name,
        Err(error) => return lost_expr(error, e),
    };
    let e = select(alloc, e, name)?;
    Ok(e)
}
