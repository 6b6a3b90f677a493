//! Fields of struct types and members of interface types.

ghost use Rattle.std.specs.Prelude.{◌≡◌, ◌∷◌, ◌||◌, [], IfOk, Some};
ghost use Rattle.go_syntax.specs.Tree as t;
ghost use Rattle.go_grammar.specs.Frames as f;
ghost use Rattle.go_grammar.specs.ExprSteps as steps;
ghost use Rattle.go_grammar.specs.Nodes as nodes;
ghost use Rattle.go_syntax.specs.declared.operator.Operator.TheVariants as o;
ghost use Rattle.go_grammar.specs.Nodes.{is_op, is_semicolon, is_string};
ghost use Rattle.go_grammar.specs.Classes.{name_of};
ghost use Rattle.go_syntax.specs.View.{expr_view, sig_view, field_view, member_view, joined};
ghost use Rattle.go_frames.specs.FrameView.{untagged_view, field_of, Comes, token_of, ctx_view, struct_part, interface_part, embedded_view, field_frame, stack_view};

use crate::sig::open_params;
use gj_base::{NoMemory, Place, Text};
use go_frames::begins::types::{begin_type, selected};
use go_frames::ends::list::{and_field, and_member, and_name, only_name};
use go_frames::ends::lost::{lost, lost_at};
use go_frames::ends::lost_part::{lost_field, lost_members};
use go_frames::ends::refused::{stuck_at, stuck_with};
use go_frames::frames::at::At;
use go_frames::frames::form::{embedded_field, embedded_member, method_member, named_field};
use go_frames::frames::frame::{
    Embedded, FieldFrame, Frame, InterfacePart, Role, StructPart, Untagged, Value,
};
use go_frames::frames::node::{interface_type, name, name_expr, struct_type};
use go_frames::frames::stack::{Answer, Stack, done, goes};
use go_syntax::Operator;
use go_syntax::tree::{Expr, Field, Member, Name, Sig};
use std::alloc::Global;

fn tagged(field: Untagged, tag: Option<Text>) -> Field
    ensures value { (rest : t.Fields) → field_view result rest ≡ field_of (untagged_view field) tag rest }
{
    match field {
        Untagged::Named(names, ty) => named_field(names, ty, tag),
        Untagged::Embedded(e) => embedded_field(e.place, e.star, e.ty, tag),
    }
}

fn with_field(part: StructPart, field: Untagged, tag: Option<Text>) -> Result<StructPart, NoMemory>
    ensures value { IfOk result (λ x. struct_part x ≡ steps.with_field (struct_part part) (untagged_view field) tag) }
{
    let field = tagged(field, tag);
    let fields = and_field(part.fields, field)?;
    Ok(StructPart {
        ctx: part.ctx,
        place: part.place,
        fields,
    })
}

/// The fields with one more, whose tag is the text.
fn with_tag(
    alloc: Global,
    part: StructPart,
    field: Untagged,
    text: &[u8],
) -> Result<StructPart, NoMemory>
    ensures value { IfOk result (λ x. struct_part x ≡ steps.with_field (struct_part part) (untagged_view field) (Some text.now)) }
{
    let tag = match Text::from_slice(alloc, text) {
        Ok(tag) => tag,
        Err(error) => return lost_field(error, part, field),
    };
    let part = with_field(part, field, Some(tag))?;
    Ok(part)
}

/// The `}` of a struct type.
fn close_struct(alloc: Global, part: StructPart, stack: Stack) -> Answer
    ensures value { Comes result (f.Goes (f.Done (f.AnExpr (t.StructType part.place (joined (struct_part part).fields t.NoFields))) ∷ stack_view stack)) }
{
    match struct_type(alloc, part.place, part.fields) {
        Ok(e) => done(stack, Value::Expr(e)),
        Err(error) => lost(error, stack),
    }
}

/// After a field and its tag: `;` or `}`.
fn field_end(alloc: Global, at: At, part: StructPart, stack: Stack) -> Answer
    ensures value { Comes result (steps.field_end (token_of at []) (struct_part part) (stack_view stack)) }
{
    if at.is_semicolon() {
        return goes(stack, Frame::Field(FieldFrame::Fields(part)));
    }
    if at.is(Operator::RightBrace) {
        return close_struct(alloc, part, stack);
    }
    stuck_at(Frame::Field(FieldFrame::End(part)), stack)
}

/// After a field: a tag, or the field's end.
fn end_field(
    alloc: Global,
    at: At,
    text: &[u8],
    part: StructPart,
    field: Untagged,
    stack: Stack,
) -> Answer
    ensures value { Comes result (steps.end_field (token_of at text.now) (struct_part part) (untagged_view field) (stack_view stack)) }
{
    if at.is_string() {
        return end_tagged(alloc, part, field, text, stack);
    }
    let part = match with_field(part, field, None) {
        Ok(part) => part,
        Err(error) => return lost(error, stack),
    };
    field_end(alloc, at, part, stack)
}

/// After a field, its tag.
fn end_tagged(alloc: Global, part: StructPart, field: Untagged, text: &[u8], stack: Stack) -> Answer
    ensures value { Comes result (f.Goes (f.OfField (f.FieldEnd (steps.with_field (struct_part part) (untagged_view field) (Some text.now))) ∷ stack_view stack)) }
{
    let part = match with_tag(alloc, part, field, text) {
        Ok(part) => part,
        Err(error) => return lost(error, stack),
    };
    goes(stack, Frame::Field(FieldFrame::End(part)))
}

/// What the top frame does at the token.
pub fn field_row(alloc: Global, at: At, text: &[u8], frame: FieldFrame, stack: Stack) -> Answer
    ensures value { Comes result (steps.field_row (token_of at text.now) (field_frame frame) (stack_view stack)) }
{
    match frame {
        FieldFrame::Fields(part) => fields(alloc, at, text, part, stack),
        FieldFrame::Name(part, name) => field_name(alloc, at, text, part, name, stack),
        FieldFrame::Next(part, names) => next_name(alloc, at, text, part, names, stack),
        FieldFrame::Names(part, names) => field_names(alloc, at, text, part, names, stack),
        FieldFrame::Star(part, place) => field_star(alloc, at, text, part, place, stack),
        FieldFrame::Embedded(part, e) => embedded(alloc, at, text, part, e, stack),
        FieldFrame::Dot(part, e) => field_dot(alloc, at, text, part, e, stack),
        FieldFrame::EmbeddedEnd(part, e) => end_field(
            alloc,
            at,
            text,
            part,
            Untagged::Embedded(e),
            stack,
        ),
        FieldFrame::End(part) => field_end(alloc, at, part, stack),
        FieldFrame::Members(part) => members(alloc, at, text, part, stack),
        FieldFrame::Member(part, name) => member(alloc, at, part, name, stack),
        FieldFrame::MemberDot(part, e) => member_dot(alloc, at, text, part, e, stack),
        FieldFrame::MemberEnd(part) => member_end(alloc, at, part, stack),
        other => stuck_at(Frame::Field(other), stack),
    }
}

fn field_star(
    alloc: Global,
    at: At,
    text: &[u8],
    part: StructPart,
    place: Place,
    stack: Stack,
) -> Answer
    ensures value { Comes result (steps.field_row (token_of at text.now) (f.FieldStar (struct_part part) place) (stack_view stack)) }
{
    if !at.is_name() {
        return stuck_at(Frame::Field(FieldFrame::Star(part, place)), stack);
    }
    let name = match name(alloc, at.place, text) {
        Ok(name) => name,
        Err(error) => return lost_at(error, Frame::Field(FieldFrame::Fields(part)), stack),
    };
    match name_expr(alloc, name) {
        Ok(ty) => goes(
            stack,
            Frame::Field(FieldFrame::Embedded(
                part,
                Embedded {
                    place,
                    star: true,
                    ty,
                },
            )),
        ),
        Err(error) => lost_at(error, Frame::Field(FieldFrame::Fields(part)), stack),
    }
}

/// {Field ";"}
fn fields(alloc: Global, at: At, text: &[u8], part: StructPart, stack: Stack) -> Answer
    ensures value { Comes result (steps.field_row (token_of at text.now) (f.InStruct (struct_part part)) (stack_view stack)) }
{
    if at.is(Operator::RightBrace) {
        return field_end(alloc, at, part, stack);
    }
    if at.is_name() {
        return first_name(alloc, at, text, part, stack);
    }
    if at.is(Operator::Mul) {
        return goes(stack, Frame::Field(FieldFrame::Star(part, at.place)));
    }
    stuck_at(Frame::Field(FieldFrame::Fields(part)), stack)
}

/// The name that a field begins with.
fn first_name(alloc: Global, at: At, text: &[u8], part: StructPart, stack: Stack) -> Answer
    ensures value { Comes result (f.Goes (f.OfField (f.FieldName (struct_part part) (name_of (token_of at text.now))) ∷ stack_view stack)) }
{
    match name(alloc, at.place, text) {
        Ok(name) => goes(stack, Frame::Field(FieldFrame::Name(part, name))),
        Err(error) => lost_at(error, Frame::Field(FieldFrame::Fields(part)), stack),
    }
}

fn unstarred(alloc: Global, name: Name) -> Result<Embedded, NoMemory>
    ensures value { IfOk result (λ e. embedded_view e ≡ steps.unstarred name) }
{
    let place = name.place;
    let ty = name_expr(alloc, name)?;
    Ok(Embedded {
        place,
        star: false,
        ty,
    })
}

/// An embedded field that is a name alone.
fn embedded_alone(
    alloc: Global,
    at: At,
    text: &[u8],
    part: StructPart,
    name: Name,
    stack: Stack,
) -> Answer
    ensures value { Comes result (steps.end_field (token_of at text.now) (struct_part part) (steps.EmbeddedOne (steps.unstarred name)) (stack_view stack)) }
{
    match unstarred(alloc, name) {
        Ok(e) => end_field(alloc, at, text, part, Untagged::Embedded(e), stack),
        Err(error) => lost_at(error, Frame::Field(FieldFrame::Fields(part)), stack),
    }
}

/// Whether the token is a tag or ends a field.
fn ends_field(at: At) -> bool
    ensures value { result ≡ (is_string at.kind || is_semicolon at.kind || is_op o.RightBrace (token_of at [])) }
{
    at.is_string() || at.is_semicolon() || at.is(Operator::RightBrace)
}

fn field_name(
    alloc: Global,
    at: At,
    text: &[u8],
    part: StructPart,
    name: Name,
    stack: Stack,
) -> Answer
    ensures value { Comes result (steps.field_row (token_of at text.now) (f.FieldName (struct_part part) name) (stack_view stack)) }
{
    if at.is(Operator::Comma) {
        return several_names(alloc, part, name, stack);
    }
    if at.is(Operator::Dot) {
        return match unstarred(alloc, name) {
            Ok(e) => goes(stack, Frame::Field(FieldFrame::Dot(part, e))),
            Err(error) => lost_at(error, Frame::Field(FieldFrame::Fields(part)), stack),
        };
    }
    if ends_field(at) {
        return embedded_alone(alloc, at, text, part, name, stack);
    }
    one_name(alloc, at, text, part, name, stack)
}

/// The first of several names.
fn several_names(alloc: Global, part: StructPart, name: Name, stack: Stack) -> Answer
    ensures value { Comes result (f.Goes (f.OfField (f.NextField (struct_part part) (name ∷ [])) ∷ stack_view stack)) }
{
    match only_name(alloc, name) {
        Ok(names) => goes(stack, Frame::Field(FieldFrame::Next(part, names))),
        Err(error) => lost_at(error, Frame::Field(FieldFrame::Fields(part)), stack),
    }
}

/// The name of a field, whose type begins with the token.
fn one_name(
    alloc: Global,
    at: At,
    text: &[u8],
    part: StructPart,
    name: Name,
    stack: Stack,
) -> Answer
    ensures value { Comes result (steps.begin_type (token_of at text.now) (ctx_view part.ctx) (f.OfField (f.Named (struct_part part) (name ∷ [])) ∷ stack_view stack)) }
{
    let names = match only_name(alloc, name) {
        Ok(names) => names,
        Err(error) => return lost_at(error, Frame::Field(FieldFrame::Fields(part)), stack),
    };
    let c = part.ctx;
    let stack = stack.with(Frame::Field(FieldFrame::Named(part, names)))?;
    begin_type(alloc, at, text, c, stack)
}

fn next_name(
    alloc: Global,
    at: At,
    text: &[u8],
    part: StructPart,
    names: Vec<Name>,
    stack: Stack,
) -> Answer
    ensures value { Comes result (steps.field_row (token_of at text.now) (f.NextField (struct_part part) names.items) (stack_view stack)) }
{
    if !at.is_name() {
        return stuck_at(Frame::Field(FieldFrame::Next(part, names)), stack);
    }
    let name = match name(alloc, at.place, text) {
        Ok(name) => name,
        Err(error) => return lost_at(error, Frame::Field(FieldFrame::Next(part, names)), stack),
    };
    let names = match and_name(names, name) {
        Ok(names) => names,
        Err(error) => return lost_at(error, Frame::Field(FieldFrame::Fields(part)), stack),
    };
    goes(stack, Frame::Field(FieldFrame::Names(part, names)))
}

fn field_names(
    alloc: Global,
    at: At,
    text: &[u8],
    part: StructPart,
    names: Vec<Name>,
    stack: Stack,
) -> Answer
    ensures value { Comes result (steps.field_row (token_of at text.now) (f.FieldNames (struct_part part) names.items) (stack_view stack)) }
{
    if at.is(Operator::Comma) {
        return goes(stack, Frame::Field(FieldFrame::Next(part, names)));
    }
    let c = part.ctx;
    let stack = stack.with(Frame::Field(FieldFrame::Named(part, names)))?;
    begin_type(alloc, at, text, c, stack)
}

fn embedded(
    alloc: Global,
    at: At,
    text: &[u8],
    part: StructPart,
    e: Embedded,
    stack: Stack,
) -> Answer
    ensures value { Comes result (steps.field_row (token_of at text.now) (f.EmbeddedName (struct_part part) (embedded_view e)) (stack_view stack)) }
{
    if at.is(Operator::Dot) {
        return goes(stack, Frame::Field(FieldFrame::Dot(part, e)));
    }
    end_field(alloc, at, text, part, Untagged::Embedded(e), stack)
}

fn field_dot(
    alloc: Global,
    at: At,
    text: &[u8],
    part: StructPart,
    e: Embedded,
    stack: Stack,
) -> Answer
    ensures value { Comes result (steps.field_row (token_of at text.now) (f.FieldDot (struct_part part) (embedded_view e)) (stack_view stack)) }
{
    if !at.is_name() {
        return stuck_at(Frame::Field(FieldFrame::Dot(part, e)), stack);
    }
    let ty = match selected(alloc, at, text, e.ty) {
        Ok(ty) => ty,
        Err(error) => return lost_at(error, Frame::Field(FieldFrame::Fields(part)), stack),
    };
    let e = Embedded {
        place: e.place,
        star: e.star,
        ty,
    };
    goes(stack, Frame::Field(FieldFrame::EmbeddedEnd(part, e)))
}

/// What a field that waits for its type does with it at the token.
pub fn field_meets(
    alloc: Global,
    at: At,
    text: &[u8],
    frame: FieldFrame,
    e: Expr,
    stack: Stack,
) -> Answer
    ensures value { Comes result (steps.field_meets (token_of at text.now) (field_frame frame) (expr_view e) (stack_view stack)) }
{
    match frame {
        FieldFrame::Named(part, names) => end_field(
            alloc,
            at,
            text,
            part,
            Untagged::Named(names, e),
            stack,
        ),
        other => stuck_with(Frame::Field(other), Value::Expr(e), stack),
    }
}

fn with_member(part: InterfacePart, member: Member) -> Result<InterfacePart, NoMemory>
    ensures value { IfOk result (λ x. interface_part x ≡ steps.with_member (interface_part part) (member_view member)) }
{
    let members = and_member(part.members, member)?;
    Ok(InterfacePart {
        ctx: part.ctx,
        place: part.place,
        members,
    })
}

/// The members with the name of an interface.
fn with_named(alloc: Global, part: InterfacePart, name: Name) -> Result<InterfacePart, NoMemory>
    ensures value { IfOk result (λ x. interface_part x ≡ steps.with_member (interface_part part) (λ rest. t.EmbeddedMember (nodes.name_expr name) rest)) }
{
    let ty = match name_expr(alloc, name) {
        Ok(ty) => ty,
        Err(error) => return lost_members(error, part),
    };
    let part = with_member(part, embedded_member(ty))?;
    Ok(part)
}

/// The members with the interface `e.x`, x being the token.
fn with_selected(
    alloc: Global,
    at: At,
    text: &[u8],
    part: InterfacePart,
    e: Expr,
) -> Result<InterfacePart, NoMemory>
    ensures value { IfOk result (λ x. interface_part x ≡ steps.with_member (interface_part part) (λ rest. t.EmbeddedMember (nodes.select (expr_view e) (name_of (token_of at text.now))) rest)) }
{
    let ty = match selected(alloc, at, text, e) {
        Ok(ty) => ty,
        Err(error) => return lost_members(error, part),
    };
    let part = with_member(part, embedded_member(ty))?;
    Ok(part)
}

/// The members with a method.
fn with_method(part: InterfacePart, name: Name, sig: Sig) -> Result<InterfacePart, NoMemory>
    ensures value { IfOk result (λ x. interface_part x ≡ steps.with_member (interface_part part) (λ rest. t.MethodMember name (sig_view sig) rest)) }
{
    let part = with_member(part, method_member(name, sig))?;
    Ok(part)
}

/// The `}` of an interface type.
fn close_interface(alloc: Global, part: InterfacePart, stack: Stack) -> Answer
    ensures value { Comes result (f.Goes (f.Done (f.AnExpr (t.InterfaceType part.place (joined (interface_part part).members t.NoMembers))) ∷ stack_view stack)) }
{
    match interface_type(alloc, part.place, part.members) {
        Ok(e) => done(stack, Value::Expr(e)),
        Err(error) => lost(error, stack),
    }
}

/// After a member: `;` or `}`.
fn member_end(alloc: Global, at: At, part: InterfacePart, stack: Stack) -> Answer
    ensures value { Comes result (steps.member_end (token_of at []) (interface_part part) (stack_view stack)) }
{
    if at.is_semicolon() {
        return goes(stack, Frame::Field(FieldFrame::Members(part)));
    }
    if at.is(Operator::RightBrace) {
        return close_interface(alloc, part, stack);
    }
    stuck_at(Frame::Field(FieldFrame::MemberEnd(part)), stack)
}

/// {(name Sig | name ["." name]) ";"}
fn members(alloc: Global, at: At, text: &[u8], part: InterfacePart, stack: Stack) -> Answer
    ensures value { Comes result (steps.field_row (token_of at text.now) (f.InInterface (interface_part part)) (stack_view stack)) }
{
    if at.is(Operator::RightBrace) {
        return member_end(alloc, at, part, stack);
    }
    if at.is_name() {
        return member_name(alloc, at, text, part, stack);
    }
    stuck_at(Frame::Field(FieldFrame::Members(part)), stack)
}

/// The name that a member begins with.
fn member_name(alloc: Global, at: At, text: &[u8], part: InterfacePart, stack: Stack) -> Answer
    ensures value { Comes result (f.Goes (f.OfField (f.MemberName (interface_part part) (name_of (token_of at text.now))) ∷ stack_view stack)) }
{
    match name(alloc, at.place, text) {
        Ok(name) => goes(stack, Frame::Field(FieldFrame::Member(part, name))),
        Err(error) => lost_at(error, Frame::Field(FieldFrame::Members(part)), stack),
    }
}

fn member(alloc: Global, at: At, part: InterfacePart, name: Name, stack: Stack) -> Answer
    ensures value { Comes result (steps.field_row (token_of at []) (f.MemberName (interface_part part) name) (stack_view stack)) }
{
    if at.is(Operator::LeftParen) {
        let c = part.ctx;
        let stack = stack.with(Frame::Field(FieldFrame::Method(part, name)))?;
        return open_params(alloc, at, c, Role::Params, stack);
    }
    if at.is(Operator::Dot) {
        return match name_expr(alloc, name) {
            Ok(e) => goes(stack, Frame::Field(FieldFrame::MemberDot(part, e))),
            Err(error) => lost_at(error, Frame::Field(FieldFrame::Members(part)), stack),
        };
    }
    let part = match with_named(alloc, part, name) {
        Ok(part) => part,
        Err(error) => return lost(error, stack),
    };
    member_end(alloc, at, part, stack)
}

fn member_dot(
    alloc: Global,
    at: At,
    text: &[u8],
    part: InterfacePart,
    e: Expr,
    stack: Stack,
) -> Answer
    ensures value { Comes result (steps.field_row (token_of at text.now) (f.MemberDot (interface_part part) (expr_view e)) (stack_view stack)) }
{
    if !at.is_name() {
        return stuck_at(Frame::Field(FieldFrame::MemberDot(part, e)), stack);
    }
    let part = match with_selected(alloc, at, text, part, e) {
        Ok(part) => part,
        Err(error) => return lost(error, stack),
    };
    goes(stack, Frame::Field(FieldFrame::MemberEnd(part)))
}

/// What a method does with its signature at the token.
pub fn method_meets(alloc: Global, at: At, frame: FieldFrame, sig: Sig, stack: Stack) -> Answer
    ensures value { Comes result (steps.method_meets (token_of at []) (field_frame frame) (sig_view sig) (stack_view stack)) }
{
    match frame {
        FieldFrame::Method(part, name) => end_method(alloc, at, part, name, sig, stack),
        other => stuck_with(Frame::Field(other), Value::Sig(sig), stack),
    }
}

/// A method, and what comes after it.
fn end_method(
    alloc: Global,
    at: At,
    part: InterfacePart,
    name: Name,
    sig: Sig,
    stack: Stack,
) -> Answer
    ensures value { Comes result (steps.member_end (token_of at []) (steps.with_member (interface_part part) (λ rest. t.MethodMember name (sig_view sig) rest)) (stack_view stack)) }
{
    let part = match with_method(part, name, sig) {
        Ok(part) => part,
        Err(error) => return lost(error, stack),
    };
    member_end(alloc, at, part, stack)
}
