//! What is told of a panic that nobody recovers from (own).
//!
//! The Go Programming Language Specification (as of Go 1.17), "Handling panics", "Errors".

ghost use Rattle.std.specs.Prelude.{◌≡◌, List, Some, IfOk, option_map};
ghost use Rattle.go_type.specs.Tree.{Ty, bool, int, str};
ghost use Rattle.go_type.specs.Levels.{level, tree_of};
ghost use Rattle.go_type.specs.Table.{places, names};
ghost use Rattle.go_type.specs.declared.types.IntName.{IntName};
ghost use Rattle.go_core.specs.Memory as core;
ghost use Rattle.go_core.specs.Memory.{packed};
ghost use Rattle.go_core.specs.Panics as defining;
ghost use Rattle.go_core.specs.StepInterfaces as defined;
ghost use Rattle.go_core.specs.Text as text;
ghost use Rattle.go_values.specs.ValuesSeen.{scalar_of, value_of};

use gj_base::NoMemory;
use go_type::types::{GoType, TypeId};
use go_values::operators::did::Context;
use go_values::values::level::{level_at, underlying};
use go_values::values::output::push_number;
use go_values::values::scalar::Scalar;

fn truth_text(b: bool) -> &'static [u8]
    ensures value { result.now ≡ text.truth_text b }
{
    if b { b"true" } else { b"false" }
}

fn held<'a>(c: &Context<'a>, bytes: &[u8]) -> Result<&'a [u8], NoMemory>
    ensures value { IfOk result (λ r. r.now ≡ bytes.now) }
{
    let text: &'a [u8] = c.arena.try_alloc_slice_copy(bytes)?;
    Ok(text)
}

// What is neither a boolean, an integer nor a string.
fn other_text<'a>(c: &Context<'a>) -> Result<&'a [u8], NoMemory>
    ensures value { IfOk result (λ r. r.now ≡ defined.composite_text) }
{
    held(c, b"(value)")
}

fn truth_in<'a>(c: &Context<'a>, x: Scalar<'a>) -> Result<&'a [u8], NoMemory>
    ensures value { IfOk result (λ r. (ts : List Ty) (others : core.Scalars) → r.now ≡ defined.content_text bool (core.scalar (scalar_of ts x.entry) others)) }
{
    match x {
        Scalar::Truth(b) => held(c, truth_text(b)),
        _ => other_text(c),
    }
}

fn number_in<'a>(c: &Context<'a>, x: Scalar<'a>) -> Result<&'a [u8], NoMemory>
    ensures value { IfOk result (λ r. (ts : List Ty) (name : IntName) (others : core.Scalars) → r.now ≡ defined.content_text (int name) (core.scalar (scalar_of ts x.entry) others)) }
{
    match x {
        Scalar::Whole(n) => {
            let mut text = Vec::new(c.alloc);
            push_number(&mut text, n)?;
            let bytes = held(c, text.as_slice())?;
            Ok(bytes)
        }
        _ => other_text(c),
    }
}

fn text_in<'a>(c: &Context<'a>, x: Scalar<'a>) -> Result<&'a [u8], NoMemory>
    ensures value { IfOk result (λ r. (ts : List Ty) (others : core.Scalars) → r.now ≡ defined.content_text str (core.scalar (scalar_of ts x.entry) others)) }
{
    match x {
        Scalar::Text(bytes) => Ok(bytes),
        _ => other_text(c),
    }
}

// The text of a boolean, an integer or a string, by its underlying type.
fn level_text<'a>(c: &Context<'a>, g: &GoType, x: Scalar<'a>) -> Result<&'a [u8], NoMemory>
    ensures value { IfOk result (λ r. (ts : List Ty) (others : core.Scalars) → r.now ≡ defined.content_text (level ts g.now) (core.scalar (scalar_of ts x.entry) others)) }
{
    match g {
        GoType::Bool => truth_in(c, x),
        GoType::Int(_) => number_in(c, x),
        GoType::Str => text_in(c, x),
        _ => other_text(c),
    }
}

fn first_text<'a>(c: &Context<'a>, under: TypeId, x: Scalar<'a>) -> Result<&'a [u8], NoMemory>
    ensures value { IfOk result (λ r. (others : core.Scalars) → let ts = places c.now.table.now in r.now ≡ defined.content_text (tree_of ts under) (core.scalar (scalar_of ts x.entry) others)) }
{
    match level_at(c.table, under) {
        Some(g) => level_text(c, g, x),
        None => truth_in(c, x),
    }
}

fn content_text<'a>(
    c: &Context<'a>,
    under: TypeId,
    content: &[Scalar<'a>],
) -> Result<&'a [u8], NoMemory>
    ensures value { IfOk result (λ r. let ts = places c.now.table.now in r.now ≡ defined.content_text (tree_of ts under) (packed (value_of ts content.now))) }
{
    match content.split_first() {
        Some((x, _)) => first_text(c, under, *x),
        None => other_text(c),
    }
}

/// The text of a panic's value that has no method `Error`.
pub fn plain_text<'a>(c: &Context<'a>, x: Scalar<'a>) -> Result<&'a [u8], NoMemory>
    ensures value { IfOk result (λ r. let ts = places c.now.table.now in r.now ≡ defined.plain_text (names c.now.table.now) (scalar_of ts x.entry)) }
{
    match x {
        Scalar::Interface { ty, content } => content_text(c, underlying(c.table, ty), content),
        _ => held(c, b"nil"),
    }
}

/// What is told where the method `Error` of a panic's value panics.
pub fn failed_text<'a>(c: &Context<'a>) -> Result<&'a [u8], NoMemory>
    ensures value { IfOk result (λ r. r.now ≡ defining.report_failed) }
{
    held(c, b"(panic in Error)")
}
