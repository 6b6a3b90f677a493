//! Declarations of constants, variables and types.

ghost use Rattle.std.specs.Prelude.{◌≡◌, ◌∷◌, [], IfOk};
ghost use Rattle.go_syntax.specs.View.{expr_view, decl_view};
ghost use Rattle.go_grammar.specs.Classes.{name_of};
ghost use Rattle.go_grammar.specs.Frames as f;
ghost use Rattle.go_grammar.specs.Nodes as nodes;
ghost use Rattle.go_grammar.specs.StmtSteps as rows;
ghost use Rattle.go_frames.specs.FrameView.{Comes, token_of, exprs_in, expr_perhaps, values_part, types_part, decl_frame, stack_view};
ghost use Rattle.go_stmt_steps.specs.SimpleStepsParts.{after_values, after_spec, after_type};

use gj_base::NoMemory;
use go_frames::begins::expr::then_expr;
use go_frames::begins::lists::{with_expr, with_type, with_values};
use go_frames::begins::types::{begin_type, then_type};
use go_frames::ends::list::{and_name, only_name};
use go_frames::ends::lost::{lost, lost_at};
use go_frames::ends::refused::{stuck_at, stuck_with};
use go_frames::frames::at::{At, begins_type};
use go_frames::frames::ctx::Ctx;
use go_frames::frames::form::{const_decl, type_decl, var_decl};
use go_frames::frames::frame::{DeclFrame, Frame, TypesPart, Value, ValuesPart};
use go_frames::frames::node::name;
use go_frames::frames::stack::{Answer, Stack, done, goes, over};
use go_syntax::Operator;
use go_syntax::tree::{Decl, Expr, Name};
use std::alloc::Global;

/// What the top frame does at the token.
pub fn decl_row(alloc: Global, at: At, text: &[u8], frame: DeclFrame, stack: Stack) -> Answer
    ensures value { Comes result (rows.decl_row (token_of at text.now) (decl_frame frame) (stack_view stack)) }
{
    match frame {
        DeclFrame::Values(part) => values(alloc, at, text, part, stack),
        DeclFrame::ValueGroup(part) => value_group(alloc, at, text, part, stack),
        DeclFrame::NextName(part, names) => next_name(alloc, at, text, part, names, stack),
        DeclFrame::Names(part, names) => value_names(alloc, at, text, part, names, stack),
        DeclFrame::Types(part) => types(alloc, at, text, part, stack),
        DeclFrame::TypeGroup(part) => type_group(alloc, at, text, part, stack),
        DeclFrame::TypeName(part, name) => type_name(alloc, at, text, part, name, stack),
        other => stuck_at(Frame::Decl(other), stack),
    }
}

/// Group: a Spec, or `(`.
fn values(alloc: Global, at: At, text: &[u8], part: ValuesPart, stack: Stack) -> Answer
    ensures value { Comes result (rows.decl_row (token_of at text.now) (f.AtValues (values_part part)) (stack_view stack)) }
{
    if at.is(Operator::LeftParen) {
        let part = ValuesPart {
            blocks: part.blocks,
            place: part.place,
            constant: part.constant,
            group: true,
            specs: part.specs,
        };
        return goes(stack, Frame::Decl(DeclFrame::ValueGroup(part)));
    }
    first_name(alloc, at, text, part, stack)
}

fn first_name(alloc: Global, at: At, text: &[u8], part: ValuesPart, stack: Stack) -> Answer
    ensures value { Comes result (rows.first_value (token_of at text.now) (values_part part) (stack_view stack)) }
{
    if !at.is_name() {
        return stuck_at(Frame::Decl(DeclFrame::ValueGroup(part)), stack);
    }
    match one_name(alloc, at, text) {
        Ok(names) => goes(stack, Frame::Decl(DeclFrame::Names(part, names))),
        Err(error) => lost_at(error, Frame::Decl(DeclFrame::ValueGroup(part)), stack),
    }
}

/// The name that the token is, as a list.
fn one_name(alloc: Global, at: At, text: &[u8]) -> Result<Vec<Name>, NoMemory>
    ensures value { IfOk result (λ names. names.items ≡ name_of (token_of at text.now) ∷ []) }
{
    let name = name(alloc, at.place, text)?;
    only_name(alloc, name)
}

fn next_name(
    alloc: Global,
    at: At,
    text: &[u8],
    part: ValuesPart,
    names: Vec<Name>,
    stack: Stack,
) -> Answer
    ensures value { Comes result (rows.decl_row (token_of at text.now) (f.NextValue (values_part part) names.items) (stack_view stack)) }
{
    if !at.is_name() {
        return stuck_at(Frame::Decl(DeclFrame::NextName(part, names)), stack);
    }
    match name(alloc, at.place, text) {
        Ok(name) => with_name(part, names, name, stack),
        Err(error) => lost_at(error, Frame::Decl(DeclFrame::NextName(part, names)), stack),
    }
}

fn with_name(part: ValuesPart, names: Vec<Name>, name: Name, stack: Stack) -> Answer
    ensures value { Comes result (f.Goes (f.OfDecl (f.ValueNames (values_part part) (nodes.and names.items name)) ∷ stack_view stack)) }
{
    match and_name(names, name) {
        Ok(names) => goes(stack, Frame::Decl(DeclFrame::Names(part, names))),
        Err(error) => lost_at(error, Frame::Decl(DeclFrame::ValueGroup(part)), stack),
    }
}

fn value_decl(alloc: Global, part: ValuesPart) -> Result<Decl, NoMemory>
    ensures value { IfOk result (λ d. decl_view d ≡ rows.value_decl (values_part part)) }
{
    if part.constant {
        return const_decl(alloc, part.place, part.specs);
    }
    var_decl(alloc, part.place, part.specs)
}

/// The `)` of a group of constants or variables.
fn done_values(alloc: Global, part: ValuesPart, stack: Stack) -> Answer
    ensures value { Comes result (f.Goes (f.Done (f.ADecl (rows.value_decl (values_part part))) ∷ stack_view stack)) }
{
    match value_decl(alloc, part) {
        Ok(d) => done(stack, Value::Decl(d)),
        Err(error) => lost(error, stack),
    }
}

/// Constants or variables that are over before the token.
fn over_values(alloc: Global, part: ValuesPart, stack: Stack) -> Answer
    ensures value { Comes result (f.Over (f.ADecl (rows.value_decl (values_part part))) (stack_view stack)) }
{
    match value_decl(alloc, part) {
        Ok(d) => over(stack, Value::Decl(d)),
        Err(error) => lost(error, stack),
    }
}

fn value_group(alloc: Global, at: At, text: &[u8], part: ValuesPart, stack: Stack) -> Answer
    ensures value { Comes result (rows.decl_row (token_of at text.now) (f.ValueGroup (values_part part)) (stack_view stack)) }
{
    if at.is(Operator::RightParen) {
        return done_values(alloc, part, stack);
    }
    first_name(alloc, at, text, part, stack)
}

/// After names: `,`, `=`, a type, or for constants the end.
fn value_names(
    alloc: Global,
    at: At,
    text: &[u8],
    part: ValuesPart,
    names: Vec<Name>,
    stack: Stack,
) -> Answer
    ensures value { Comes result (rows.decl_row (token_of at text.now) (f.ValueNames (values_part part) names.items) (stack_view stack)) }
{
    if at.is(Operator::Comma) {
        return goes(stack, Frame::Decl(DeclFrame::NextName(part, names)));
    }
    let c = Ctx::new(part.blocks);
    if at.is(Operator::Assign) {
        let frame = DeclFrame::ValueExprs(part, names, None, Vec::new(alloc));
        let stack = stack.with(Frame::Decl(frame))?;
        return then_expr(c, stack);
    }
    if begins_type(at.kind) {
        let stack = stack.with(Frame::Decl(DeclFrame::ValueType(part, names)))?;
        return begin_type(alloc, at, text, c, stack);
    }
    if part.constant {
        return end_spec(alloc, at, part, names, None, Vec::new(alloc), stack);
    }
    stuck_at(Frame::Decl(DeclFrame::Names(part, names)), stack)
}

/// The end of a Spec: of the declaration too, or `;` or `)` of a group.
fn end_spec(
    alloc: Global,
    at: At,
    part: ValuesPart,
    names: Vec<Name>,
    ty: Option<Expr>,
    values: Vec<Expr>,
    stack: Stack,
) -> Answer
    ensures value { Comes result (rows.end_value (token_of at []) (values_part part) names.items (expr_perhaps ty) (exprs_in values.items) (stack_view stack)) }
{
    match with_values(part.specs, names, ty, values) {
        Ok(specs) => {
            let part = ValuesPart {
                blocks: part.blocks,
                place: part.place,
                constant: part.constant,
                group: part.group,
                specs,
            };
            after_spec(alloc, at, part, stack)
        }
        Err(error) => lost(error, stack),
    }
}

/// After a Spec of constants or variables.
fn after_spec(alloc: Global, at: At, part: ValuesPart, stack: Stack) -> Answer
    ensures value { Comes result (after_spec (token_of at []) (values_part part) (stack_view stack)) }
{
    if !part.group {
        return over_values(alloc, part, stack);
    }
    if at.is_semicolon() {
        return goes(stack, Frame::Decl(DeclFrame::ValueGroup(part)));
    }
    if at.is(Operator::RightParen) {
        return done_values(alloc, part, stack);
    }
    stuck_at(Frame::Decl(DeclFrame::ValueGroup(part)), stack)
}

/// name ["="] Type, or `(`.
fn types(alloc: Global, at: At, text: &[u8], part: TypesPart, stack: Stack) -> Answer
    ensures value { Comes result (rows.decl_row (token_of at text.now) (f.AtTypes (types_part part)) (stack_view stack)) }
{
    if at.is(Operator::LeftParen) {
        let part = TypesPart {
            blocks: part.blocks,
            place: part.place,
            group: true,
            specs: part.specs,
        };
        return goes(stack, Frame::Decl(DeclFrame::TypeGroup(part)));
    }
    declared_name(alloc, at, text, part, stack)
}

fn declared_name(alloc: Global, at: At, text: &[u8], part: TypesPart, stack: Stack) -> Answer
    ensures value { Comes result (rows.first_type (token_of at text.now) (types_part part) (stack_view stack)) }
{
    if !at.is_name() {
        return stuck_at(Frame::Decl(DeclFrame::TypeGroup(part)), stack);
    }
    match name(alloc, at.place, text) {
        Ok(name) => goes(stack, Frame::Decl(DeclFrame::TypeName(part, name))),
        Err(error) => lost_at(error, Frame::Decl(DeclFrame::TypeGroup(part)), stack),
    }
}

fn types_decl(alloc: Global, part: TypesPart) -> Result<Decl, NoMemory>
    ensures value { IfOk result (λ d. decl_view d ≡ rows.type_decl (types_part part)) }
{
    type_decl(alloc, part.place, part.specs)
}

/// The `)` of a group of types.
fn done_types(alloc: Global, part: TypesPart, stack: Stack) -> Answer
    ensures value { Comes result (f.Goes (f.Done (f.ADecl (rows.type_decl (types_part part))) ∷ stack_view stack)) }
{
    match types_decl(alloc, part) {
        Ok(d) => done(stack, Value::Decl(d)),
        Err(error) => lost(error, stack),
    }
}

/// A type that is over before the token.
fn over_types(alloc: Global, part: TypesPart, stack: Stack) -> Answer
    ensures value { Comes result (f.Over (f.ADecl (rows.type_decl (types_part part))) (stack_view stack)) }
{
    match types_decl(alloc, part) {
        Ok(d) => over(stack, Value::Decl(d)),
        Err(error) => lost(error, stack),
    }
}

fn type_group(alloc: Global, at: At, text: &[u8], part: TypesPart, stack: Stack) -> Answer
    ensures value { Comes result (rows.decl_row (token_of at text.now) (f.TypeGroup (types_part part)) (stack_view stack)) }
{
    if at.is(Operator::RightParen) {
        return done_types(alloc, part, stack);
    }
    declared_name(alloc, at, text, part, stack)
}

fn type_name(
    alloc: Global,
    at: At,
    text: &[u8],
    part: TypesPart,
    name: Name,
    stack: Stack,
) -> Answer
    ensures value { Comes result (rows.decl_row (token_of at text.now) (f.DeclaredName (types_part part) name) (stack_view stack)) }
{
    let c = Ctx::new(part.blocks);
    if at.is(Operator::Assign) {
        let stack = stack.with(Frame::Decl(DeclFrame::TypeOf(part, name, true)))?;
        return then_type(c, stack);
    }
    let stack = stack.with(Frame::Decl(DeclFrame::TypeOf(part, name, false)))?;
    begin_type(alloc, at, text, c, stack)
}

fn end_type(
    alloc: Global,
    at: At,
    part: TypesPart,
    name: Name,
    alias: bool,
    ty: Expr,
    stack: Stack,
) -> Answer
    ensures value { Comes result (rows.end_type (token_of at []) (types_part part) name alias (expr_view ty) (stack_view stack)) }
{
    match with_type(part.specs, name, alias, ty) {
        Ok(specs) => {
            let part = TypesPart {
                blocks: part.blocks,
                place: part.place,
                group: part.group,
                specs,
            };
            after_type(alloc, at, part, stack)
        }
        Err(error) => lost(error, stack),
    }
}

/// After a Spec of a type.
fn after_type(alloc: Global, at: At, part: TypesPart, stack: Stack) -> Answer
    ensures value { Comes result (after_type (token_of at []) (types_part part) (stack_view stack)) }
{
    if !part.group {
        return over_types(alloc, part, stack);
    }
    if at.is_semicolon() {
        return goes(stack, Frame::Decl(DeclFrame::TypeGroup(part)));
    }
    if at.is(Operator::RightParen) {
        return done_types(alloc, part, stack);
    }
    stuck_at(Frame::Decl(DeclFrame::TypeGroup(part)), stack)
}

/// What a frame that waits for an expression or a type does with it at the token.
pub fn decl_meets_expr(alloc: Global, at: At, frame: DeclFrame, e: Expr, stack: Stack) -> Answer
    ensures value { Comes result (rows.decl_meets_expr (token_of at []) (decl_frame frame) (expr_view e) (stack_view stack)) }
{
    match frame {
        DeclFrame::ValueType(part, names) => after_value_type(alloc, at, part, names, e, stack),
        DeclFrame::ValueExprs(part, names, ty, es) => after_value(
            alloc, at, part, names, ty, es, e, stack,
        ),
        DeclFrame::TypeOf(part, name, alias) => end_type(alloc, at, part, name, alias, e, stack),
        other => stuck_with(Frame::Decl(other), Value::Expr(e), stack),
    }
}

fn after_value_type(
    alloc: Global,
    at: At,
    part: ValuesPart,
    names: Vec<Name>,
    ty: Expr,
    stack: Stack,
) -> Answer
    ensures value { Comes result (rows.decl_meets_expr (token_of at []) (f.ValueType (values_part part) names.items) (expr_view ty) (stack_view stack)) }
{
    if at.is(Operator::Assign) {
        let c = Ctx::new(part.blocks);
        let frame = DeclFrame::ValueExprs(part, names, Some(ty), Vec::new(alloc));
        let stack = stack.with(Frame::Decl(frame))?;
        return then_expr(c, stack);
    }
    if part.constant {
        return stuck_with(
            Frame::Decl(DeclFrame::ValueType(part, names)),
            Value::Expr(ty),
            stack,
        );
    }
    end_spec(alloc, at, part, names, Some(ty), Vec::new(alloc), stack)
}

fn after_value(
    alloc: Global,
    at: At,
    part: ValuesPart,
    names: Vec<Name>,
    ty: Option<Expr>,
    es: Vec<Expr>,
    e: Expr,
    stack: Stack,
) -> Answer
    ensures value { Comes result (rows.decl_meets_expr (token_of at []) (f.ValueExprs (values_part part) names.items (expr_perhaps ty) (exprs_in es.items)) (expr_view e) (stack_view stack)) }
{
    match with_expr(es, e) {
        Ok(es) => after_values(alloc, at, part, names, ty, es, stack),
        Err(error) => {
            let frame = DeclFrame::ValueExprs(part, names, ty, Vec::new(alloc));
            lost_at(error, Frame::Decl(frame), stack)
        }
    }
}

fn after_values(
    alloc: Global,
    at: At,
    part: ValuesPart,
    names: Vec<Name>,
    ty: Option<Expr>,
    es: Vec<Expr>,
    stack: Stack,
) -> Answer
    ensures value { Comes result (after_values (token_of at []) (values_part part) names.items (expr_perhaps ty) (exprs_in es.items) (stack_view stack)) }
{
    if at.is(Operator::Comma) {
        let c = Ctx::new(part.blocks);
        let stack = stack.with(Frame::Decl(DeclFrame::ValueExprs(part, names, ty, es)))?;
        return then_expr(c, stack);
    }
    end_spec(alloc, at, part, names, ty, es, stack)
}
