//! Signatures: Sig, Params and Param.

ghost use Rattle.std.specs.Prelude.{◌≡◌, ◌∷◌, ◌||◌, [], IfOk, None, false};
ghost use Rattle.go_syntax.specs.Tree as t;
ghost use Rattle.go_grammar.specs.Frames as f;
ghost use Rattle.go_grammar.specs.ExprSteps as steps;
ghost use Rattle.go_grammar.specs.Nodes as nodes;
ghost use Rattle.go_syntax.specs.declared.operator.Operator.TheVariants as o;
ghost use Rattle.go_grammar.specs.Nodes.{is_op};
ghost use Rattle.go_field_steps.specs.Parts.{after_param, with_param};
ghost use Rattle.go_grammar.specs.Classes.{name_of};
ghost use Rattle.go_syntax.specs.View.{expr_view, joined};
ghost use Rattle.go_frames.specs.FrameView.{Comes, token_of, ctx_view, params_in, role_view, params_part, sig_frame, stack_view};

use gj_base::{NoMemory, Place};
use go_frames::begins::types::{begin_type, then_type};
use go_frames::ends::list::and_param;
use go_frames::ends::lost::{lost, lost_at, lost_frame};
use go_frames::ends::lost_part::lost_role;
use go_frames::ends::refused::{deep_at, stuck_at, stuck_with};
use go_frames::frames::at::{At, begins_type};
use go_frames::frames::ctx::Ctx;
use go_frames::frames::form::{param, sig_of_many, sig_of_none, sig_of_one};
use go_frames::frames::frame::{
    FileFrame, Frame, ParamList, ParamsPart, Role, SigFrame, TypeFrame, Value,
};
use go_frames::frames::node::{name, name_expr};
use go_frames::frames::stack::{Answer, Stack, done, goes, over};
use go_syntax::Operator;
use go_syntax::tree::{Expr, Name};
use std::alloc::Global;

/// The `(` of a parameter list.
pub fn open_params(alloc: Global, at: At, c: Ctx, role: Role, stack: Stack) -> Answer
    ensures value { Comes result (steps.open_params (token_of at []) (ctx_view c) (role_view role) (stack_view stack)) }
{
    let part = ParamsPart {
        ctx: c,
        place: at.place,
        items: Vec::new(alloc),
        role,
    };
    let frame = Frame::Sig(SigFrame::Params(part));
    if !at.is(Operator::LeftParen) {
        return stuck_at(frame, stack);
    }
    if !c.has_room() {
        return deep_at(frame, stack);
    }
    goes(stack, frame)
}

/// What the top frame does at the token.
pub fn sig_row(alloc: Global, at: At, text: &[u8], frame: SigFrame, stack: Stack) -> Answer
    ensures value { Comes result (steps.sig_row (token_of at text.now) (sig_frame frame) (stack_view stack)) }
{
    match frame {
        SigFrame::Open(c) => open_params(alloc, at, c, Role::Params, stack),
        SigFrame::Params(part) => params(alloc, at, text, part, stack),
        SigFrame::Name(part, name) => param_name(alloc, at, text, part, name, stack),
        SigFrame::Results(c, params) => results(alloc, at, text, c, params, stack),
        other => stuck_at(Frame::Sig(other), stack),
    }
}

/// The `)` of a parameter list.
fn close_params(part: ParamsPart, stack: Stack) -> Answer
    ensures value { Comes result (steps.close_params (params_part part) (role_view part.role) (stack_view stack)) }
{
    let params = ParamList {
        place: part.place,
        items: part.items,
    };
    match part.role {
        Role::Params => goes(stack, Frame::Sig(SigFrame::Results(part.ctx, params))),
        Role::Results(before) => { done(stack, Value::Sig(sig_of_many(before, params))) }
        Role::Receiver(place) => goes(stack, Frame::File(FileFrame::FuncName(place, params))),
    }
}

/// [Param {"," Param} [","]] ")"
fn params(alloc: Global, at: At, text: &[u8], part: ParamsPart, stack: Stack) -> Answer
    ensures value { Comes result (steps.sig_row (token_of at text.now) (f.InParams (params_part part)) (stack_view stack)) }
{
    if at.is(Operator::RightParen) {
        return close_params(part, stack);
    }
    if at.is_name() {
        return first_name(alloc, at, text, part, stack);
    }
    let c = part.ctx.inside();
    if at.is(Operator::Ellipsis) {
        let stack = stack.with(Frame::Sig(SigFrame::Param(part, at.place, None, true)))?;
        return then_type(c, stack);
    }
    let stack = stack.with(Frame::Sig(SigFrame::Param(part, at.place, None, false)))?;
    begin_type(alloc, at, text, c, stack)
}

/// The name that a parameter begins with.
fn first_name(alloc: Global, at: At, text: &[u8], part: ParamsPart, stack: Stack) -> Answer
    ensures value { Comes result (f.Goes (f.OfSig (f.ParamName (params_part part) (name_of (token_of at text.now))) ∷ stack_view stack)) }
{
    match name(alloc, at.place, text) {
        Ok(name) => goes(stack, Frame::Sig(SigFrame::Name(part, name))),
        Err(error) => lost_at(error, Frame::Sig(SigFrame::Params(part)), stack),
    }
}

/// Whether a parameter ends before the token.
fn ends_param(at: At) -> bool
    ensures value { result ≡ (is_op o.Comma (token_of at []) || is_op o.RightParen (token_of at [])) }
{
    at.is(Operator::Comma) || at.is(Operator::RightParen)
}

/// After a name: it is a type, alone or before a dot, or the name of a parameter.
fn param_name(
    alloc: Global,
    at: At,
    text: &[u8],
    part: ParamsPart,
    name: Name,
    stack: Stack,
) -> Answer
    ensures value { Comes result (steps.sig_row (token_of at text.now) (f.ParamName (params_part part) name) (stack_view stack)) }
{
    let place = name.place;
    if ends_param(at) {
        return unnamed(alloc, at, part, name, stack);
    }
    let c = part.ctx.inside();
    if at.is(Operator::Dot) {
        return qualified(alloc, part, name, stack);
    }
    if at.is(Operator::Ellipsis) {
        let stack = stack.with(Frame::Sig(SigFrame::Param(part, place, Some(name), true)))?;
        return then_type(c, stack);
    }
    let stack = stack.with(Frame::Sig(SigFrame::Param(part, place, Some(name), false)))?;
    begin_type(alloc, at, text, c, stack)
}

/// A parameter whose type begins with the name and a dot.
fn qualified(alloc: Global, part: ParamsPart, name: Name, stack: Stack) -> Answer
    ensures value { Comes result (f.Goes (f.OfType (f.TypeDot (nodes.name_expr name)) ∷ f.OfSig (f.Param (params_part part) name.place None false) ∷ stack_view stack)) }
{
    let place = name.place;
    let dot = match name_expr(alloc, name) {
        Ok(e) => Frame::Type(TypeFrame::Dot(e)),
        Err(error) => return lost_at(error, Frame::Sig(SigFrame::Params(part)), stack),
    };
    match stack.with(Frame::Sig(SigFrame::Param(part, place, None, false))) {
        Ok(stack) => goes(stack, dot),
        Err(error) => lost_frame(error, dot),
    }
}

/// A parameter that is a name alone, which is its type.
fn unnamed(alloc: Global, at: At, part: ParamsPart, name: Name, stack: Stack) -> Answer
    ensures value { Comes result (steps.end_param (token_of at []) (params_part part) name.place None false (nodes.name_expr name) (stack_view stack)) }
{
    let place = name.place;
    match name_expr(alloc, name) {
        Ok(e) => end_param(at, part, place, None, false, e, stack),
        Err(error) => lost_at(error, Frame::Sig(SigFrame::Params(part)), stack),
    }
}

/// The list with one more parameter.
fn with_param(
    part: ParamsPart,
    place: Place,
    name: Option<Name>,
    variadic: bool,
    ty: Expr,
) -> Result<ParamsPart, NoMemory>
    ensures value { IfOk result (λ x. params_part x ≡ with_param (params_part part) place name variadic (expr_view ty)) }
{
    let item = param(place, name, variadic, ty);
    let items = match and_param(part.items, item) {
        Ok(items) => items,
        Err(error) => return lost_role(error, part.role),
    };
    Ok(ParamsPart {
        ctx: part.ctx,
        place: part.place,
        items,
        role: part.role,
    })
}

/// A parameter, and what comes after it.
fn end_param(
    at: At,
    part: ParamsPart,
    place: Place,
    name: Option<Name>,
    variadic: bool,
    ty: Expr,
    stack: Stack,
) -> Answer
    ensures value { Comes result (steps.end_param (token_of at []) (params_part part) place name variadic (expr_view ty) (stack_view stack)) }
{
    let part = match with_param(part, place, name, variadic, ty) {
        Ok(part) => part,
        Err(error) => return lost(error, stack),
    };
    after_param(at, part, stack)
}

/// `,` or `)`.
fn after_param(at: At, part: ParamsPart, stack: Stack) -> Answer
    ensures value { Comes result (after_param (token_of at []) (params_part part) (stack_view stack)) }
{
    if at.is(Operator::Comma) {
        return goes(stack, Frame::Sig(SigFrame::Params(part)));
    }
    if at.is(Operator::RightParen) {
        return close_params(part, stack);
    }
    stuck_at(Frame::Sig(SigFrame::Params(part)), stack)
}

/// After the parameters: whatever can begin a type begins the results.
fn results(alloc: Global, at: At, text: &[u8], c: Ctx, params: ParamList, stack: Stack) -> Answer
    ensures value { Comes result (steps.sig_row (token_of at text.now) (f.AfterParams (ctx_view c) params.place (params_in params)) (stack_view stack)) }
{
    if at.is(Operator::LeftParen) {
        return open_params(alloc, at, c, Role::Results(params), stack);
    }
    if begins_type(at.kind) {
        let stack = stack.with(Frame::Sig(SigFrame::Result(params)))?;
        return begin_type(alloc, at, text, c.inside(), stack);
    }
    over(stack, Value::Sig(sig_of_none(params)))
}

/// What a frame that waits for a type does with it at the token.
pub fn sig_meets(at: At, frame: SigFrame, e: Expr, stack: Stack) -> Answer
    ensures value { Comes result (steps.sig_meets (token_of at []) (sig_frame frame) (expr_view e) (stack_view stack)) }
{
    match frame {
        SigFrame::Param(part, place, name, variadic) => end_param(
            at, part, place, name, variadic, e, stack,
        ),
        SigFrame::Result(params) => over(stack, Value::Sig(sig_of_one(params, e))),
        other => stuck_with(Frame::Sig(other), Value::Expr(e), stack),
    }
}
