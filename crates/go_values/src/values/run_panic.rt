//! The panics that a step can cause.
//!
//! The Go Programming Language Specification (as of Go 1.17), "Run-time panics", "Errors". The
//! texts are own.

ghost use Rattle.std.specs.Prelude.{◌≡◌, ◌++◌, [], ◌∷◌, List, OnOk, IfOk, decimal};
ghost use Rattle.go_type.specs.Tree.{Ty};
ghost use Rattle.go_type.specs.Levels.{tree_of};
ghost use Rattle.go_core.specs.RunPanic as defined;
ghost use Rattle.go_core.specs.Memory as core;
ghost use Rattle.go_values.specs.ValuesSeen.{scalar_of, value_of, panic_of};

use crate::values::scalar::{Scalar, interface_value};
use bumpalo::Bump;
use gj_base::NoMemory;
use go_type::types::TypeId;
use itoa::Buffer;
use std::alloc::Global;

/// A panic that a step can cause.
#[derive(Clone, Copy)]
pub enum RunPanic {
    ZeroDivisor,
    /// A nil pointer, a nil function, a method of a nil interface value.
    NilUsed,
    BadIndex { index: i128, length: u64 },
    BadBounds,
    NegativeShift,
    /// A negative size, a length above the capacity, or past a limit.
    BadSize,
    WrongType,
    NotComparable,
    SendOnClosed,
    ClosedTwice,
    ClosedNil,
    NilMapEntry,
}

fn push(text: &mut Vec<u8>, bytes: &[u8]) -> Result<(), NoMemory>
    ensures value { OnOk result (text.new.items ≡ text.old.items ++ bytes.now) }
{
    text.extend_from_slice(bytes)?;
    Ok(())
}

fn push_decimal(text: &mut Vec<u8>, n: u128) -> Result<(), NoMemory>
    ensures value { OnOk result (text.new.items ≡ text.old.items ++ decimal n) }
{
    let mut buffer = Buffer::new();
    push(text, buffer.format(n).as_bytes())
}

fn push_index(text: &mut Vec<u8>, index: i128, length: u64) -> Result<(), NoMemory>
    ensures value { OnOk result (text.new.items ≡ text.old.items ++ defined.index_text index length) }
{
    if index >= 0 {
        push_decimal(text, index as u128)?;
        push(text, b"] with length ")?;
        push_decimal(text, length as u128)
    } else {
        push(text, b"-")?;
        push_decimal(text, (-(index + 1)) as u128 + 1)?;
        push(text, b"]")
    }
}

fn push_bad_index(text: &mut Vec<u8>, index: i128, length: u64) -> Result<(), NoMemory>
    ensures value { OnOk result (text.new.items ≡ text.old.items ++ defined.text_of (defined.bad_index index length)) }
{
    push(text, b"runtime error: index out of range [")?;
    push_index(text, index, length)?;
    Ok(())
}

/// Adds what the method `Error` of the panic's value answers.
pub fn push_text(text: &mut Vec<u8>, panic: RunPanic) -> Result<(), NoMemory>
    ensures value { OnOk result (text.new.items ≡ text.old.items ++ defined.text_of (panic_of panic)) }
{
    match panic {
        RunPanic::ZeroDivisor => push(text, b"runtime error: integer divide by zero"),
        RunPanic::NilUsed => push(
            text,
            b"runtime error: invalid memory address or nil pointer dereference",
        ),
        RunPanic::BadIndex { index, length } => push_bad_index(text, index, length),
        RunPanic::BadBounds => push(text, b"runtime error: slice bounds out of range"),
        RunPanic::NegativeShift => push(text, b"runtime error: negative shift amount"),
        RunPanic::BadSize => push(text, b"runtime error: size out of range"),
        RunPanic::WrongType => push(text, b"interface conversion: wrong dynamic type"),
        RunPanic::NotComparable => push(text, b"runtime error: comparing uncomparable type"),
        RunPanic::SendOnClosed => push(text, b"send on closed channel"),
        RunPanic::ClosedTwice => push(text, b"close of closed channel"),
        RunPanic::ClosedNil => push(text, b"close of nil channel"),
        RunPanic::NilMapEntry => push(text, b"assignment to entry in nil map"),
    }
}

fn one_text<'a>(arena: &'a Bump, bytes: &[u8]) -> Result<&'a [Scalar<'a>], NoMemory>
    ensures value { IfOk result (λ xs. (ts : List Ty) → value_of ts xs.now ≡ core.text bytes.now ∷ []) }
{
    let bytes: &'a [u8] = arena.try_alloc_slice_copy(bytes)?;
    let xs: &'a [Scalar<'a>] = arena.try_alloc_slice_copy(&[Scalar::Text(bytes)])?;
    Ok(xs)
}

/// A value of the hidden type, which holds the text.
pub fn panic_value<'a>(
    alloc: Global,
    arena: &'a Bump,
    hidden: TypeId,
    panic: RunPanic,
) -> Result<Scalar<'a>, NoMemory>
    ensures value { IfOk result (λ x. (ts : List Ty) → scalar_of ts x ≡ defined.panic_value (tree_of ts hidden) (panic_of panic)) }
{
    let mut text = Vec::new(alloc);
    push_text(&mut text, panic)?;
    let content = one_text(arena, text.as_slice())?;
    Ok(interface_value(hidden, content))
}
