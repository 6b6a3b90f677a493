//! Types, but for the fields and members in their braces.

ghost use Rattle.std.specs.Prelude.{[]};
ghost use Rattle.go_syntax.specs.Tree as t;
ghost use Rattle.go_syntax.specs.declared.tree.Prefix.TheVariants as «prefix»;
ghost use Rattle.go_grammar.specs.Frames as f;
ghost use Rattle.go_grammar.specs.ExprSteps as steps;
ghost use Rattle.go_grammar.specs.Nodes as nodes;
ghost use Rattle.go_syntax.specs.View.{expr_view, sig_view};
ghost use Rattle.go_frames.specs.FrameView.{Comes, token_of, ctx_view, expr_in_option, type_frame, stack_view};

use gj_base::Place;
use go_frames::begins::expr::begin_expr;
use go_frames::begins::types::{begin_type, selected, then_type};
use go_frames::ends::lost::lost;
use go_frames::ends::refused::{deep, stuck, stuck_at, stuck_with};
use go_frames::frames::at::At;
use go_frames::frames::ctx::Ctx;
use go_frames::frames::frame::{FieldFrame, Frame, InterfacePart, StructPart, TypeFrame, Value};
use go_frames::frames::node::{
    array_type, chan_type, function_type, map_type, paren, slice_type, star,
};
use go_frames::frames::stack::{Answer, Stack, done, goes, over};
use go_syntax::tree::{ChanDir, Expr, Sig};
use go_syntax::{Keyword, Operator};
use std::alloc::Global;

/// What the top frame does at the token.
pub fn type_row(alloc: Global, at: At, text: &[u8], frame: TypeFrame, stack: Stack) -> Answer
    ensures value { Comes result (steps.type_row (token_of at text.now) (type_frame frame) (stack_view stack)) }
{
    match frame {
        TypeFrame::Type(c) => begin_type(alloc, at, text, c, stack),
        TypeFrame::Name(e) => type_name(at, e, stack),
        TypeFrame::Dot(e) => type_dot(alloc, at, text, e, stack),
        TypeFrame::Bracket(c, place) => type_bracket(alloc, at, text, c, place, stack),
        TypeFrame::Dots(c, place) => type_dots(at, c, place, stack),
        TypeFrame::Map(c, place) => type_map(at, c, place, stack),
        TypeFrame::Chan(c, place) => type_chan(alloc, at, text, c, place, stack),
        TypeFrame::Arrow(c, place) => type_arrow(at, c, place, stack),
        TypeFrame::Struct(c, place) => type_struct(alloc, at, c, place, stack),
        TypeFrame::Interface(c, place) => type_interface(alloc, at, c, place, stack),
        other => stuck_at(Frame::Type(other), stack),
    }
}

fn type_name(at: At, e: Expr, stack: Stack) -> Answer
    ensures value { Comes result (steps.type_row (token_of at []) (f.TypeName (expr_view e)) (stack_view stack)) }
{
    if at.is(Operator::Dot) {
        return goes(stack, Frame::Type(TypeFrame::Dot(e)));
    }
    over(stack, Value::Expr(e))
}

fn type_dot(alloc: Global, at: At, text: &[u8], e: Expr, stack: Stack) -> Answer
    ensures value { Comes result (steps.type_row (token_of at text.now) (f.TypeDot (expr_view e)) (stack_view stack)) }
{
    if !at.is_name() {
        return stuck_at(Frame::Type(TypeFrame::Dot(e)), stack);
    }
    match selected(alloc, at, text, e) {
        Ok(e) => done(stack, Value::Expr(e)),
        Err(error) => lost(error, stack),
    }
}

fn type_bracket(alloc: Global, at: At, text: &[u8], c: Ctx, place: Place, stack: Stack) -> Answer
    ensures value { Comes result (steps.type_row (token_of at text.now) (f.TypeBracket (ctx_view c) place) (stack_view stack)) }
{
    if at.is(Operator::RightBracket) {
        let stack = stack.with(Frame::Type(TypeFrame::Slice(place)))?;
        return then_type(c.inside(), stack);
    }
    if at.is(Operator::Ellipsis) {
        return goes(stack, Frame::Type(TypeFrame::Dots(c, place)));
    }
    let stack = stack.with(Frame::Type(TypeFrame::Len(c, place)))?;
    begin_expr(alloc, at, text, c.inside(), stack)
}

fn type_dots(at: At, c: Ctx, place: Place, stack: Stack) -> Answer
    ensures value { Comes result (steps.type_row (token_of at []) (f.Dots (ctx_view c) place) (stack_view stack)) }
{
    if !at.is(Operator::RightBracket) {
        return stuck(stack);
    }
    let stack = stack.with(Frame::Type(TypeFrame::Array(place, None)))?;
    then_type(c.inside(), stack)
}

fn type_map(at: At, c: Ctx, place: Place, stack: Stack) -> Answer
    ensures value { Comes result (steps.type_row (token_of at []) (f.MapOpen (ctx_view c) place) (stack_view stack)) }
{
    if !at.is(Operator::LeftBracket) {
        return stuck(stack);
    }
    if !c.has_room() {
        return deep(stack);
    }
    let stack = stack.with(Frame::Type(TypeFrame::Key(c, place)))?;
    then_type(c.inside(), stack)
}

fn type_chan(alloc: Global, at: At, text: &[u8], c: Ctx, place: Place, stack: Stack) -> Answer
    ensures value { Comes result (steps.type_row (token_of at text.now) (f.ChanOpen (ctx_view c) place) (stack_view stack)) }
{
    if at.is(Operator::Arrow) {
        let stack = stack.with(Frame::Type(TypeFrame::Send(place)))?;
        return then_type(c, stack);
    }
    let stack = stack.with(Frame::Type(TypeFrame::Both(place)))?;
    begin_type(alloc, at, text, c, stack)
}

fn type_arrow(at: At, c: Ctx, place: Place, stack: Stack) -> Answer
    ensures value { Comes result (steps.type_row (token_of at []) (f.Arrow (ctx_view c) place) (stack_view stack)) }
{
    if !at.is_word(Keyword::Chan) {
        return stuck(stack);
    }
    if !c.has_room() {
        return deep(stack);
    }
    let stack = stack.with(Frame::Type(TypeFrame::Receive(place)))?;
    then_type(c.inside(), stack)
}

fn type_struct(alloc: Global, at: At, c: Ctx, place: Place, stack: Stack) -> Answer
    ensures value { Comes result (steps.type_row (token_of at []) (f.StructOpen (ctx_view c) place) (stack_view stack)) }
{
    if !at.is(Operator::LeftBrace) {
        return stuck(stack);
    }
    if !c.has_room() {
        return deep(stack);
    }
    let part = StructPart {
        ctx: c.inside(),
        place,
        fields: Vec::new(alloc),
    };
    goes(stack, Frame::Field(FieldFrame::Fields(part)))
}

fn type_interface(alloc: Global, at: At, c: Ctx, place: Place, stack: Stack) -> Answer
    ensures value { Comes result (steps.type_row (token_of at []) (f.InterfaceOpen (ctx_view c) place) (stack_view stack)) }
{
    if !at.is(Operator::LeftBrace) {
        return stuck(stack);
    }
    if !c.has_room() {
        return deep(stack);
    }
    let part = InterfacePart {
        ctx: c.inside(),
        place,
        members: Vec::new(alloc),
    };
    goes(stack, Frame::Field(FieldFrame::Members(part)))
}

/// What a frame that waits for a type, or for the length of an array, does with it at the token.
pub fn type_meets(alloc: Global, at: At, frame: TypeFrame, e: Expr, stack: Stack) -> Answer
    ensures value { Comes result (steps.type_meets (token_of at []) (type_frame frame) (expr_view e) (stack_view stack)) }
{
    match frame {
        TypeFrame::Paren(place) => close_type_paren(alloc, at, place, e, stack),
        TypeFrame::Star(place) => over_star(alloc, place, e, stack),
        TypeFrame::Len(c, place) => close_len(at, c, place, e, stack),
        TypeFrame::Slice(place) => over_slice(alloc, place, e, stack),
        TypeFrame::Array(place, len) => over_array(alloc, place, len, e, stack),
        TypeFrame::Key(c, place) => close_key(at, c, place, e, stack),
        TypeFrame::MapElem(place, key) => over_map(alloc, place, key, e, stack),
        TypeFrame::Both(place) => over_chan(alloc, place, ChanDir::Both, e, stack),
        TypeFrame::Send(place) => over_chan(alloc, place, ChanDir::Send, e, stack),
        TypeFrame::Receive(place) => over_chan(alloc, place, ChanDir::Receive, e, stack),
        other => stuck_with(Frame::Type(other), Value::Expr(e), stack),
    }
}

fn over_star(alloc: Global, place: Place, e: Expr, stack: Stack) -> Answer
    ensures value { Comes result (f.Over (f.AnExpr (t.UnaryExpr place «prefix».Star (expr_view e))) (stack_view stack)) }
{
    match star(alloc, place, e) {
        Ok(e) => over(stack, Value::Expr(e)),
        Err(error) => lost(error, stack),
    }
}

fn over_slice(alloc: Global, place: Place, e: Expr, stack: Stack) -> Answer
    ensures value { Comes result (f.Over (f.AnExpr (t.SliceType place (expr_view e))) (stack_view stack)) }
{
    match slice_type(alloc, place, e) {
        Ok(e) => over(stack, Value::Expr(e)),
        Err(error) => lost(error, stack),
    }
}

fn over_map(alloc: Global, place: Place, key: Expr, e: Expr, stack: Stack) -> Answer
    ensures value { Comes result (f.Over (f.AnExpr (t.MapType place (expr_view key) (expr_view e))) (stack_view stack)) }
{
    match map_type(alloc, place, key, e) {
        Ok(e) => over(stack, Value::Expr(e)),
        Err(error) => lost(error, stack),
    }
}

#[tactic(auto, using(crate::proofs::TreeLemmas::maybe_is))]
fn over_array(alloc: Global, place: Place, len: Option<Expr>, e: Expr, stack: Stack) -> Answer
    ensures value { Comes result (f.Over (f.AnExpr (t.ArrayType place (nodes.maybe (expr_in_option len)) (expr_view e))) (stack_view stack)) }
{
    match array_type(alloc, place, len, e) {
        Ok(e) => over(stack, Value::Expr(e)),
        Err(error) => lost(error, stack),
    }
}

fn over_chan(alloc: Global, place: Place, dir: ChanDir, e: Expr, stack: Stack) -> Answer
    ensures value { Comes result (f.Over (f.AnExpr (t.ChanType place dir (expr_view e))) (stack_view stack)) }
{
    match chan_type(alloc, place, dir, e) {
        Ok(e) => over(stack, Value::Expr(e)),
        Err(error) => lost(error, stack),
    }
}

fn close_type_paren(alloc: Global, at: At, place: Place, e: Expr, stack: Stack) -> Answer
    ensures value { Comes result (steps.type_meets (token_of at []) (f.TypeParens place) (expr_view e) (stack_view stack)) }
{
    if !at.is(Operator::RightParen) {
        return stuck_with(Frame::Type(TypeFrame::Paren(place)), Value::Expr(e), stack);
    }
    match paren(alloc, place, e) {
        Ok(e) => done(stack, Value::Expr(e)),
        Err(error) => lost(error, stack),
    }
}

fn close_len(at: At, c: Ctx, place: Place, len: Expr, stack: Stack) -> Answer
    ensures value { Comes result (steps.type_meets (token_of at []) (f.Len (ctx_view c) place) (expr_view len) (stack_view stack)) }
{
    if !at.is(Operator::RightBracket) {
        return stuck_with(
            Frame::Type(TypeFrame::Len(c, place)),
            Value::Expr(len),
            stack,
        );
    }
    let stack = stack.with(Frame::Type(TypeFrame::Array(place, Some(len))))?;
    then_type(c.inside(), stack)
}

fn close_key(at: At, c: Ctx, place: Place, key: Expr, stack: Stack) -> Answer
    ensures value { Comes result (steps.type_meets (token_of at []) (f.Key (ctx_view c) place) (expr_view key) (stack_view stack)) }
{
    if !at.is(Operator::RightBracket) {
        return stuck_with(
            Frame::Type(TypeFrame::Key(c, place)),
            Value::Expr(key),
            stack,
        );
    }
    let stack = stack.with(Frame::Type(TypeFrame::MapElem(place, key)))?;
    then_type(c.inside(), stack)
}

/// What the type `func` does with its signature.
pub fn type_sig_meets(alloc: Global, frame: TypeFrame, sig: Sig, stack: Stack) -> Answer
    ensures value { Comes result (steps.type_sig_meets (type_frame frame) (sig_view sig) (stack_view stack)) }
{
    match frame {
        TypeFrame::Func(place) => over_func(alloc, place, sig, stack),
        other => stuck_with(Frame::Type(other), Value::Sig(sig), stack),
    }
}

/// The type `func` Sig.
fn over_func(alloc: Global, place: Place, sig: Sig, stack: Stack) -> Answer
    ensures value { Comes result (f.Over (f.AnExpr (t.FuncType place (sig_view sig))) (stack_view stack)) }
{
    match function_type(alloc, place, sig) {
        Ok(e) => over(stack, Value::Expr(e)),
        Err(error) => lost(error, stack),
    }
}
