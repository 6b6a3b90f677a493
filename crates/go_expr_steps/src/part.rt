//! What comes after an operand: selectors, indexes, assertions, calls and literals.

ghost use Rattle.std.specs.Prelude.{◌≡◌, ◌∷◌, [], IfOk, Some, map};
ghost use Rattle.go_syntax.specs.Tree as t;
ghost use Rattle.go_grammar.specs.Frames as f;
ghost use Rattle.go_grammar.specs.ExprSteps as steps;
ghost use Rattle.go_grammar.specs.Nodes as nodes;
ghost use Rattle.go_grammar.specs.Limits as limits;
ghost use Rattle.go_expr_steps.specs.Parts.{after_element, as_key, open_literal};
ghost use Rattle.go_grammar.specs.Classes.{name_of};
ghost use Rattle.go_syntax.specs.View.{expr_view, elem_view, joined};
ghost use Rattle.go_frames.specs.FrameView.{Comes, token_of, ctx_view, exprs_in, expr_in_option, base_view, braces_view, part_frame, stack_view};

use gj_base::{NoMemory, Place};
use go_frames::begins::expr::{begin_expr, then_expr};
use go_frames::begins::types::{begin_type, selected};
use go_frames::ends::list::{and_elem, and_expr};
use go_frames::ends::lost::{lost, lost_at, lost_braces};
use go_frames::ends::refused::{deep, deep_at, long_at, stuck_at, stuck_with};
use go_frames::frames::at::At;
use go_frames::frames::ctx::{Ctx, LONGEST, one_more};
use go_frames::frames::frame::{Base, Braces, ExprFrame, Frame, PartFrame, Value};
use go_frames::frames::node::{assertion, call, elem, index, literal, slice, takes_literal};
use go_frames::frames::stack::{Answer, Stack, done, goes, over};
use go_syntax::tree::{Elem, Expr};
use go_syntax::{Keyword, Operator};
use std::alloc::Global;

/// An operand with so many parts.
fn with_parts(c: Ctx, count: u32, e: Expr, stack: Stack) -> Answer
    ensures value { Comes result (f.Goes (f.OfExpr (f.Tail (ctx_view c) count (expr_view e)) ∷ (stack_view stack))) }
{
    goes(stack, Frame::Expr(ExprFrame::Tail(c, count, e)))
}

/// The operand with one part more.
fn part_done(ctx: Ctx, count: u32, e: Expr, stack: Stack) -> Answer
    ensures value { Comes result (f.Goes (f.OfExpr (f.Tail (ctx_view ctx) (limits.one_longer count) (expr_view e)) ∷ (stack_view stack))) }
{
    with_parts(ctx, one_more(count), e, stack)
}

/// What comes after an operand with so many parts.
pub fn tail(alloc: Global, at: At, c: Ctx, count: u32, e: Expr, stack: Stack) -> Answer
    ensures value { Comes result (steps.tail (token_of at []) (ctx_view c) count (expr_view e) (stack_view stack)) }
{
    if at.is(Operator::Dot) {
        return short_part(at, count, PartFrame::Dot(base(c, count, e)), stack);
    }
    if at.is(Operator::LeftBracket) {
        return open_part(at, c, count, PartFrame::Bracket(base(c, count, e)), stack);
    }
    if at.is(Operator::LeftParen) {
        return open_part(
            at,
            c,
            count,
            PartFrame::Args(base(c, count, e), Vec::new(alloc)),
            stack,
        );
    }
    if at.is(Operator::LeftBrace) {
        return open_literal(alloc, at, c, count, e, stack);
    }
    over(stack, Value::Expr(e))
}

/// The `{` after an operand: it begins a literal, or comes after the operand.
fn open_literal(alloc: Global, at: At, c: Ctx, count: u32, e: Expr, stack: Stack) -> Answer
    ensures value { Comes result (open_literal (token_of at []) (ctx_view c) count (expr_view e) (stack_view stack)) }
{
    if takes_literal(c.header, &e) {
        return open_part(
            at,
            c,
            count,
            PartFrame::Elems(braces(c, count, e), Vec::new(alloc)),
            stack,
        );
    }
    over(stack, Value::Expr(e))
}

fn base(ctx: Ctx, count: u32, expr: Expr) -> Base
    ensures value { base_view result ≡ steps.base_of (ctx_view ctx) count (expr_view expr) }
{
    Base { ctx, count, expr }
}

fn braces(ctx: Ctx, count: u32, e: Expr) -> Braces
    ensures value { braces_view result ≡ record { ctx = ctx_view ctx; count = count; place = nodes.place_of_expr (expr_view e); ty = Some (expr_view e) } }
{
    let place = place_of(&e);
    Braces {
        ctx,
        count,
        place,
        ty: Some(e),
    }
}

/// Where it stands.
fn place_of(e: &Expr) -> Place
    ensures value { result ≡ nodes.place_of_expr (expr_view e.now) }
{
    e.place
}

/// Where the chain may go on, the frame of its next part.
fn short_part(at: At, count: u32, frame: PartFrame, stack: Stack) -> Answer
    ensures value { Comes result (steps.if_short count at.place (f.Goes (f.OfPart (part_frame frame) ∷ (stack_view stack)))) }
{
    if count >= LONGEST {
        return long_at(at.place, Frame::Part(frame), stack);
    }
    goes(stack, Frame::Part(frame))
}

/// The same, where one more may be open.
fn open_part(at: At, c: Ctx, count: u32, frame: PartFrame, stack: Stack) -> Answer
    ensures value { Comes result (steps.if_room (ctx_view c) (steps.if_short count at.place (f.Goes (f.OfPart (part_frame frame) ∷ (stack_view stack))))) }
{
    if !c.has_room() {
        return deep_at(Frame::Part(frame), stack);
    }
    short_part(at, count, frame, stack)
}

/// What the top frame does at the token.
pub fn part_row(alloc: Global, at: At, text: &[u8], frame: PartFrame, stack: Stack) -> Answer
    ensures value { Comes result (steps.part_row (token_of at text.now) (part_frame frame) (stack_view stack)) }
{
    match frame {
        PartFrame::Dot(base) => after_dot(alloc, at, text, base, stack),
        PartFrame::AssertOpen(base) => assert_open(alloc, at, text, base, stack),
        PartFrame::Bracket(base) => bracket(alloc, at, text, base, stack),
        PartFrame::High(base, low) => high(alloc, at, text, base, low, stack),
        PartFrame::Args(base, args) => arguments(alloc, at, text, base, args, stack),
        PartFrame::Spread(base, args, comma) => spread(alloc, at, base, args, comma, stack),
        PartFrame::Elems(braces, elems) => elements(alloc, at, text, braces, elems, stack),
        PartFrame::ElemValue(braces, elems, key) => element(
            alloc,
            at,
            text,
            braces,
            elems,
            Some(key),
            stack,
        ),
        other => stuck_at(Frame::Part(other), stack),
    }
}

fn after_dot(alloc: Global, at: At, text: &[u8], base: Base, stack: Stack) -> Answer
    ensures value { Comes result (steps.part_row (token_of at text.now) (f.Dot (base_view base)) (stack_view stack)) }
{
    if at.is_name() {
        return selector(alloc, at, text, base, stack);
    }
    if at.is(Operator::LeftParen) {
        if !base.ctx.has_room() {
            return deep_at(Frame::Part(PartFrame::Dot(base)), stack);
        }
        return goes(stack, Frame::Part(PartFrame::AssertOpen(base)));
    }
    stuck_at(Frame::Part(PartFrame::Dot(base)), stack)
}

/// The operand and the name.
fn selector(alloc: Global, at: At, text: &[u8], base: Base, stack: Stack) -> Answer
    ensures value { Comes result (steps.part_done (base_view base) (nodes.select (expr_view base.expr) (name_of (token_of at text.now))) (stack_view stack)) }
{
    match selected(alloc, at, text, base.expr) {
        Ok(e) => part_done(base.ctx, base.count, e, stack),
        Err(error) => lost(error, stack),
    }
}

fn assert_open(alloc: Global, at: At, text: &[u8], base: Base, stack: Stack) -> Answer
    ensures value { Comes result (steps.part_row (token_of at text.now) (f.AssertOpen (base_view base)) (stack_view stack)) }
{
    if !base.ctx.guard {
        return asserted(alloc, at, text, base, stack);
    }
    if at.is_word(Keyword::Type) {
        return done(stack, Value::Guard(None, base.expr));
    }
    asserted(alloc, at, text, base, stack)
}

/// The type of an assertion, which begins with the token.
fn asserted(alloc: Global, at: At, text: &[u8], base: Base, stack: Stack) -> Answer
    ensures value { Comes result (steps.begin_type (token_of at text.now) (f.inside (ctx_view base.ctx)) (f.OfPart (f.Asserted (base_view base)) ∷ stack_view stack)) }
{
    let c = base.ctx.inside();
    let stack = stack.with(Frame::Part(PartFrame::Assert(base)))?;
    begin_type(alloc, at, text, c, stack)
}

fn bracket(alloc: Global, at: At, text: &[u8], base: Base, stack: Stack) -> Answer
    ensures value { Comes result (steps.part_row (token_of at text.now) (f.Bracket (base_view base)) (stack_view stack)) }
{
    if at.is(Operator::Colon) {
        return goes(stack, Frame::Part(PartFrame::High(base, None)));
    }
    let c = base.ctx.inside();
    let stack = stack.with(Frame::Part(PartFrame::Index(base)))?;
    begin_expr(alloc, at, text, c, stack)
}

fn high(alloc: Global, at: At, text: &[u8], base: Base, low: Option<Expr>, stack: Stack) -> Answer
    ensures value { Comes result (steps.part_row (token_of at text.now) (f.High (base_view base) (expr_in_option low)) (stack_view stack)) }
{
    if at.is(Operator::RightBracket) {
        return close_slice(alloc, base, low, None, None, stack);
    }
    let c = base.ctx.inside();
    let stack = stack.with(Frame::Part(PartFrame::HighExpr(base, low)))?;
    begin_expr(alloc, at, text, c, stack)
}

/// The `]` of a slice.
fn close_slice(
    alloc: Global,
    base: Base,
    low: Option<Expr>,
    high: Option<Expr>,
    max: Option<Expr>,
    stack: Stack,
) -> Answer
    ensures value { Comes result (steps.part_done (base_view base) (nodes.slice (expr_view base.expr) (expr_in_option low) (expr_in_option high) (expr_in_option max)) (stack_view stack)) }
{
    match slice(alloc, base.expr, low, high, max) {
        Ok(e) => part_done(base.ctx, base.count, e, stack),
        Err(error) => lost(error, stack),
    }
}

fn close_call(alloc: Global, base: Base, args: Vec<Expr>, spread: bool, stack: Stack) -> Answer
    ensures value { Comes result (steps.part_done (base_view base) (nodes.call (expr_view base.expr) (exprs_in args.items) spread) (stack_view stack)) }
{
    match call(alloc, base.expr, args, spread) {
        Ok(e) => part_done(base.ctx, base.count, e, stack),
        Err(error) => lost(error, stack),
    }
}

fn arguments(
    alloc: Global,
    at: At,
    text: &[u8],
    base: Base,
    args: Vec<Expr>,
    stack: Stack,
) -> Answer
    ensures value { Comes result (steps.part_row (token_of at text.now) (f.Args (base_view base) (exprs_in args.items)) (stack_view stack)) }
{
    if at.is(Operator::RightParen) {
        return close_call(alloc, base, args, false, stack);
    }
    let c = base.ctx.inside();
    let stack = stack.with(Frame::Part(PartFrame::Arg(base, args)))?;
    begin_expr(alloc, at, text, c, stack)
}

fn spread(alloc: Global, at: At, base: Base, args: Vec<Expr>, comma: bool, stack: Stack) -> Answer
    ensures value { Comes result (steps.part_row (token_of at []) (f.Spread (base_view base) (exprs_in args.items) comma) (stack_view stack)) }
{
    if at.is(Operator::RightParen) {
        return close_call(alloc, base, args, true, stack);
    }
    if !at.is(Operator::Comma) {
        return stuck_at(Frame::Part(PartFrame::Spread(base, args, comma)), stack);
    }
    if comma {
        return stuck_at(Frame::Part(PartFrame::Spread(base, args, comma)), stack);
    }
    goes(stack, Frame::Part(PartFrame::Spread(base, args, true)))
}

/// Value = Expr | Literal
fn begin_value(alloc: Global, at: At, text: &[u8], c: Ctx, stack: Stack) -> Answer
    ensures value { Comes result (steps.begin_value (token_of at text.now) (ctx_view c) (stack_view stack)) }
{
    if !at.is(Operator::LeftBrace) {
        return begin_expr(alloc, at, text, c, stack);
    }
    if !c.has_room() {
        return deep(stack);
    }
    let braces = Braces {
        ctx: c,
        count: 0,
        place: at.place,
        ty: None,
    };
    goes(
        stack,
        Frame::Part(PartFrame::Elems(braces, Vec::new(alloc))),
    )
}

fn close_literal(alloc: Global, braces: Braces, elems: Vec<Elem>, stack: Stack) -> Answer
    ensures value { Comes result (steps.close_literal (braces_view braces) (map elem_view elems.items) (expr_in_option braces.ty) (stack_view stack)) }
{
    let Braces {
        ctx,
        count,
        place,
        ty,
    } = braces;
    match ty {
        None => close_value(alloc, place, elems, stack),
        Some(ty) => close_typed(alloc, ctx, count, place, ty, elems, stack),
    }
}

/// The `}` of a literal that has no type of its own.
fn close_value(alloc: Global, place: Place, elems: Vec<Elem>, stack: Stack) -> Answer
    ensures value { Comes result (f.Goes (f.Done (f.AnExpr (t.LiteralExpr place t.NoExpr (joined (map elem_view elems.items) t.NoElems))) ∷ stack_view stack)) }
{
    match literal(alloc, place, None, elems) {
        Ok(e) => done(stack, Value::Expr(e)),
        Err(error) => lost(error, stack),
    }
}

/// The `}` of a literal of a type.
fn close_typed(
    alloc: Global,
    c: Ctx,
    count: u32,
    place: Place,
    ty: Expr,
    elems: Vec<Elem>,
    stack: Stack,
) -> Answer
    ensures value { Comes result (f.Goes (f.OfExpr (f.Tail (ctx_view c) (limits.one_longer count) (t.LiteralExpr place (t.AnExpr (expr_view ty)) (joined (map elem_view elems.items) t.NoElems))) ∷ stack_view stack)) }
{
    match literal(alloc, place, Some(ty), elems) {
        Ok(e) => part_done(c, count, e, stack),
        Err(error) => lost(error, stack),
    }
}

fn elements(
    alloc: Global,
    at: At,
    text: &[u8],
    braces: Braces,
    elems: Vec<Elem>,
    stack: Stack,
) -> Answer
    ensures value { Comes result (steps.part_row (token_of at text.now) (f.InBraces (braces_view braces) (map elem_view elems.items)) (stack_view stack)) }
{
    if at.is(Operator::RightBrace) {
        return close_literal(alloc, braces, elems, stack);
    }
    element(alloc, at, text, braces, elems, None, stack)
}

/// The value of an element, which begins with the token.
fn element(
    alloc: Global,
    at: At,
    text: &[u8],
    braces: Braces,
    elems: Vec<Elem>,
    key: Option<Expr>,
    stack: Stack,
) -> Answer
    ensures value { Comes result (steps.begin_value (token_of at text.now) (f.inside (ctx_view braces.ctx)) (f.OfPart (f.Element (braces_view braces) (map elem_view elems.items) (expr_in_option key)) ∷ stack_view stack)) }
{
    let c = braces.ctx.inside();
    let stack = stack.with(Frame::Part(PartFrame::Elem(braces, elems, key)))?;
    begin_value(alloc, at, text, c, stack)
}

/// What a frame that waits for an expression does with it at the token.
pub fn part_meets(alloc: Global, at: At, frame: PartFrame, e: Expr, stack: Stack) -> Answer
    ensures value { Comes result (steps.part_meets (token_of at []) (part_frame frame) (expr_view e) (stack_view stack)) }
{
    match frame {
        PartFrame::Assert(base) => close_assertion(alloc, at, base, e, stack),
        PartFrame::Index(base) => close_index(alloc, at, base, e, stack),
        PartFrame::HighExpr(base, low) => close_high(alloc, at, base, low, e, stack),
        PartFrame::Max(base, low, high) => close_max(alloc, at, base, low, high, e, stack),
        PartFrame::Arg(base, args) => next_argument(alloc, at, base, args, e, stack),
        PartFrame::Elem(braces, elems, key) => next_element(
            alloc, at, braces, elems, key, e, stack,
        ),
        other => stuck_with(Frame::Part(other), Value::Expr(e), stack),
    }
}

fn close_assertion(alloc: Global, at: At, base: Base, ty: Expr, stack: Stack) -> Answer
    ensures value { Comes result (steps.part_meets (token_of at []) (f.Asserted (base_view base)) (expr_view ty) (stack_view stack)) }
{
    if !at.is(Operator::RightParen) {
        return stuck_with(Frame::Part(PartFrame::Assert(base)), Value::Expr(ty), stack);
    }
    match assertion(alloc, base.expr, ty) {
        Ok(e) => part_done(base.ctx, base.count, e, stack),
        Err(error) => lost(error, stack),
    }
}

fn close_index(alloc: Global, at: At, base: Base, i: Expr, stack: Stack) -> Answer
    ensures value { Comes result (steps.part_meets (token_of at []) (f.Index (base_view base)) (expr_view i) (stack_view stack)) }
{
    if at.is(Operator::RightBracket) {
        return indexed(alloc, base, i, stack);
    }
    if at.is(Operator::Colon) {
        return goes(stack, Frame::Part(PartFrame::High(base, Some(i))));
    }
    stuck_with(Frame::Part(PartFrame::Index(base)), Value::Expr(i), stack)
}

/// The `]` of an index.
fn indexed(alloc: Global, base: Base, i: Expr, stack: Stack) -> Answer
    ensures value { Comes result (steps.part_done (base_view base) (t.IndexExpr (nodes.place_of_expr (expr_view base.expr)) (expr_view base.expr) (expr_view i)) (stack_view stack)) }
{
    match index(alloc, base.expr, i) {
        Ok(e) => part_done(base.ctx, base.count, e, stack),
        Err(error) => lost(error, stack),
    }
}

fn close_high(alloc: Global, at: At, base: Base, low: Option<Expr>, j: Expr, stack: Stack) -> Answer
    ensures value { Comes result (steps.part_meets (token_of at []) (f.HighExpr (base_view base) (expr_in_option low)) (expr_view j) (stack_view stack)) }
{
    if at.is(Operator::RightBracket) {
        return close_slice(alloc, base, low, Some(j), None, stack);
    }
    if at.is(Operator::Colon) {
        let c = base.ctx.inside();
        let stack = stack.with(Frame::Part(PartFrame::Max(base, low, j)))?;
        return then_expr(c, stack);
    }
    stuck_with(
        Frame::Part(PartFrame::HighExpr(base, low)),
        Value::Expr(j),
        stack,
    )
}

fn close_max(
    alloc: Global,
    at: At,
    base: Base,
    low: Option<Expr>,
    high: Expr,
    k: Expr,
    stack: Stack,
) -> Answer
    ensures value { Comes result (steps.part_meets (token_of at []) (f.Most (base_view base) (expr_in_option low) (expr_view high)) (expr_view k) (stack_view stack)) }
{
    if !at.is(Operator::RightBracket) {
        return stuck_with(
            Frame::Part(PartFrame::Max(base, low, high)),
            Value::Expr(k),
            stack,
        );
    }
    close_slice(alloc, base, low, Some(high), Some(k), stack)
}

/// The arguments with one more.
fn with_argument(args: Vec<Expr>, e: Expr) -> Result<Vec<Expr>, NoMemory>
    ensures value { IfOk result (λ all. exprs_in all.items ≡ nodes.and (exprs_in args.items) (expr_view e)) }
{
    let all = and_expr(args, e)?;
    Ok(all)
}

fn next_argument(
    alloc: Global,
    at: At,
    base: Base,
    args: Vec<Expr>,
    e: Expr,
    stack: Stack,
) -> Answer
    ensures value { Comes result (steps.part_meets (token_of at []) (f.Arg (base_view base) (exprs_in args.items)) (expr_view e) (stack_view stack)) }
{
    let args = match with_argument(args, e) {
        Ok(args) => args,
        Err(error) => return lost_at(error, Frame::Part(PartFrame::Bracket(base)), stack),
    };
    if at.is(Operator::Comma) {
        return goes(stack, Frame::Part(PartFrame::Args(base, args)));
    }
    if at.is(Operator::RightParen) {
        return close_call(alloc, base, args, false, stack);
    }
    if at.is(Operator::Ellipsis) {
        return goes(stack, Frame::Part(PartFrame::Spread(base, args, false)));
    }
    stuck_at(Frame::Part(PartFrame::Args(base, args)), stack)
}

/// The elements with one more.
fn with_element(elems: Vec<Elem>, key: Option<Expr>, e: Expr) -> Result<Vec<Elem>, NoMemory>
    ensures value { IfOk result (λ all. map elem_view all.items ≡ nodes.and (map elem_view elems.items) (λ rest. t.MoreElems (nodes.maybe (expr_in_option key)) (expr_view e) rest)) }
{
    let item = elem(key, e);
    let all = and_elem(elems, item)?;
    Ok(all)
}

/// An expression before `:` is a key, where there is none yet.
fn as_key(braces: Braces, elems: Vec<Elem>, key: Option<Expr>, e: Expr, stack: Stack) -> Answer
    ensures value { Comes result (as_key (braces_view braces) (map elem_view elems.items) (expr_in_option key) (expr_view e) (stack_view stack)) }
{
    match key {
        None => goes(stack, Frame::Part(PartFrame::ElemValue(braces, elems, e))),
        Some(key) => stuck_with(
            Frame::Part(PartFrame::ElemValue(braces, elems, key)),
            Value::Expr(e),
            stack,
        ),
    }
}

fn next_element(
    alloc: Global,
    at: At,
    braces: Braces,
    elems: Vec<Elem>,
    key: Option<Expr>,
    e: Expr,
    stack: Stack,
) -> Answer
    ensures value { Comes result (steps.part_meets (token_of at []) (f.Element (braces_view braces) (map elem_view elems.items) (expr_in_option key)) (expr_view e) (stack_view stack)) }
{
    if at.is(Operator::Colon) {
        return as_key(braces, elems, key, e, stack);
    }
    end_element(alloc, at, braces, elems, key, e, stack)
}

/// An element, and what comes after it.
fn end_element(
    alloc: Global,
    at: At,
    braces: Braces,
    elems: Vec<Elem>,
    key: Option<Expr>,
    e: Expr,
    stack: Stack,
) -> Answer
    ensures value { Comes result (after_element (token_of at []) (braces_view braces) (nodes.and (map elem_view elems.items) (λ rest. t.MoreElems (nodes.maybe (expr_in_option key)) (expr_view e) rest)) (stack_view stack)) }
{
    let elems = match with_element(elems, key, e) {
        Ok(elems) => elems,
        Err(error) => return lost_braces(error, braces, stack),
    };
    after_element(alloc, at, braces, elems, stack)
}

/// `,` or `}`.
fn after_element(alloc: Global, at: At, braces: Braces, elems: Vec<Elem>, stack: Stack) -> Answer
    ensures value { Comes result (after_element (token_of at []) (braces_view braces) (map elem_view elems.items) (stack_view stack)) }
{
    if at.is(Operator::Comma) {
        return goes(stack, Frame::Part(PartFrame::Elems(braces, elems)));
    }
    if at.is(Operator::RightBrace) {
        return close_literal(alloc, braces, elems, stack);
    }
    stuck_at(Frame::Part(PartFrame::Elems(braces, elems)), stack)
}
