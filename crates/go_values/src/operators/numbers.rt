//! Steps that look at no memory: arithmetic, comparison and concatenation.
//!
//! The Go Programming Language Specification (as of Go 1.17), "Arithmetic operators", "Comparison
//! operators", "Logical operators", "String concatenation".

ghost use Rattle.std.specs.Prelude.{◌≡◌, ◌+◌, ◌++◌, List, ℤ, Option, None, option_map, length, min};
ghost use Rattle.gj_base.specs.declared.kind.Kind.{Kind};
ghost use Rattle.go_type.specs.declared.types.IntName.{IntName};
ghost use Rattle.go_type.specs.Tree.{Ty, int, str};
ghost use Rattle.go_type.specs.Levels.{tree_of};
ghost use Rattle.go_type.specs.Table.{places, names};
ghost use Rattle.go_type.specs.Underlying.{underlying};
ghost use Rattle.go_core.specs.Arithmetic.{wrapped};
ghost use Rattle.go_core.specs.Equality.{compared};
ghost use Rattle.go_core.specs.Memory as core;
ghost use Rattle.go_core.specs.StepNumbers as defined;
ghost use Rattle.go_values.specs.ValuesSeen.{value_of};
ghost use Rattle.go_values.specs.LayoutsSeen.{verdict_of};
ghost use Rattle.go_values.specs.OperatorsSeen.{Does, Found, Stops};

use crate::layouts::equality::{Verdict, compare};
use crate::layouts::layout::kind_of;
use crate::operators::did::{Context, Gives, Stop, as_text, as_truth, as_whole, gives_one};
use crate::values::arithmetic::{binary, in_order, is_shift, numbers_in_order, unary};
use crate::values::level::{level_at, underlying};
use crate::values::run_panic::RunPanic;
use crate::values::scalar::Scalar;
use crate::values::text::text_less;
use gj_base::{Kind, Op};
use go_type::TypeTable;
use go_type::types::{GoType, TypeId};

/// The most bytes of a string (own).
pub const MOST_BYTES: u64 = 268435456;

/// The most elements of a slice's array, a buffer and a map (own).
pub const MOST_ELEMENTS: u64 = 67108864;

/// A text that is made: its bytes are added.
pub fn made_text<'a>(c: &Context<'a>, bytes: &[u8]) -> Result<Gives<'a>, Stop>
    ensures value { (ts : List Ty) (m : core.Memory) → Does ts m result (defined.made_text m bytes.now) }
{
    if bytes.len() as u64 > MOST_BYTES {
        return Err(Stop::Panics {
            panic: RunPanic::BadSize,
            units: 0,
        });
    }
    let copy: &'a [u8] = c.arena.try_alloc_slice_copy(bytes)?;
    gives_one(c, Scalar::Text(copy), bytes.len() as u64)
}

fn integer_at(table: &TypeTable, t: TypeId) -> Result<Kind, Stop>
    ensures value { Found (λ k. k) result (defined.on_kind (tree_of (places table.now) t)) }
{
    match level_at(table, t) {
        Some(GoType::Int(name)) => Ok(kind_of(*name)),
        _ => Err(Stop::NoStep),
    }
}

// The kind of an integer type.
fn integer_kind(table: &TypeTable, t: TypeId) -> Result<Kind, Stop>
    ensures value { Found (λ k. k) result (defined.on_kind (underlying (names table.now) (tree_of (places table.now) t))) }
{
    integer_at(table, underlying(table, t))
}

fn no_number(op: Op) -> Stop
    ensures value { (kind : Kind) (m : core.Memory) → Stops result (defined.number_or op kind m None) }
{
    Stop::Panics {
        panic: if is_shift(op) {
            RunPanic::NegativeShift
        } else {
            RunPanic::ZeroDivisor
        },
        units: 0,
    }
}

// A result wraps; where there is none the step panics.
fn number_or<'a>(c: &Context<'a>, op: Op, n: Option<i128>) -> Result<Gives<'a>, Stop>
    ensures value { (ts : List Ty) (m : core.Memory) (kind : Kind) (r : Option ℤ) → n ≡ option_map (wrapped kind) r → Does ts m result (defined.number_or op kind m r) }
{
    match n {
        Some(n) => gives_one(c, Scalar::Whole(n), 0),
        None => Err(no_number(op)),
    }
}

/// Arithmetic, or a shift.
pub fn binary_step<'a>(
    c: &Context<'a>,
    op: Op,
    t: TypeId,
    x: &[Scalar<'a>],
    y: &[Scalar<'a>],
) -> Result<Gives<'a>, Stop>
    ensures value { (m : core.Memory) → let ts = places c.now.table.now in Does ts m result (defined.binary_step (names c.now.table.now) op (tree_of ts t) (value_of ts x.now) (value_of ts y.now) m) }
{
    let kind = integer_kind(c.table, t)?;
    let a = as_whole(x)?;
    let b = as_whole(y)?;
    let n = binary(op, kind, a, b)?;
    number_or(c, op, n)
}

/// `+x`, `-x` and `^x`.
pub fn unary_step<'a>(
    c: &Context<'a>,
    op: Op,
    t: TypeId,
    x: &[Scalar<'a>],
) -> Result<Gives<'a>, Stop>
    ensures value { (m : core.Memory) → let ts = places c.now.table.now in Does ts m result (defined.unary_step (names c.now.table.now) op (tree_of ts t) (value_of ts x.now) m) }
{
    let kind = integer_kind(c.table, t)?;
    let a = as_whole(x)?;
    let n = unary(op, kind, a)?;
    gives_one(c, Scalar::Whole(n), 0)
}

fn joined<'a>(c: &Context<'a>, a: &[u8], b: &[u8]) -> Result<Gives<'a>, Stop>
    ensures value { (ts : List Ty) (m : core.Memory) → Does ts m result (defined.made_text m (a.now ++ b.now)) }
{
    let mut bytes = Vec::new(c.alloc);
    bytes.extend_from_slice(a)?;
    bytes.extend_from_slice(b)?;
    made_text(c, bytes.as_slice())
}

/// The concatenation of two strings.
pub fn concat_step<'a>(
    c: &Context<'a>,
    x: &[Scalar<'a>],
    y: &[Scalar<'a>],
) -> Result<Gives<'a>, Stop>
    ensures value { (ts : List Ty) (m : core.Memory) → Does ts m result (defined.concat_step (value_of ts x.now) (value_of ts y.now) m) }
{
    let a = as_text(x)?;
    let b = as_text(y)?;
    joined(c, a, b)
}

/// `!x`.
pub fn not_step<'a>(c: &Context<'a>, x: &[Scalar<'a>]) -> Result<Gives<'a>, Stop>
    ensures value { (ts : List Ty) (m : core.Memory) → Does ts m result (defined.not_step (value_of ts x.now) m) }
{
    let b = as_truth(x)?;
    gives_one(c, Scalar::Truth(!b), 0)
}

fn found<'a>(c: &Context<'a>, negated: bool, verdict: Verdict) -> Result<Gives<'a>, Stop>
    ensures value { (ts : List Ty) (m : core.Memory) → Does ts m result (defined.equal_step negated (verdict_of verdict) m) }
{
    match verdict {
        Verdict::Equal(units) => gives_one(c, Scalar::Truth(!negated), units),
        Verdict::Different(units) => gives_one(c, Scalar::Truth(negated), units),
        Verdict::Refused(units) => Err(Stop::Panics {
            panic: RunPanic::NotComparable,
            units,
        }),
    }
}

/// Whether two values of a type are equal; or, where it is negated, aren't.
pub fn equal_step<'a>(
    c: &Context<'a>,
    negated: bool,
    t: TypeId,
    x: &[Scalar<'a>],
    y: &[Scalar<'a>],
) -> Result<Gives<'a>, Stop>
    ensures value { (m : core.Memory) → let ts = places c.now.table.now in Does ts m result (defined.equal_step negated (compared (names c.now.table.now) (tree_of ts t) (value_of ts x.now) (value_of ts y.now)) m) }
{
    let verdict = compare(c.alloc, c.table, t, x, y)?;
    found(c, negated, verdict)
}

// Of two integers.
fn less_numbers<'a>(
    c: &Context<'a>,
    op: Op,
    x: &[Scalar<'a>],
    y: &[Scalar<'a>],
) -> Result<Gives<'a>, Stop>
    ensures value { (ts : List Ty) (m : core.Memory) (name : IntName) → Does ts m result (defined.less_step op (int name) (value_of ts x.now) (value_of ts y.now) m) }
{
    let a = as_whole(x)?;
    let b = as_whole(y)?;
    gives_one(c, Scalar::Truth(numbers_in_order(op, a, b)), 1)
}

fn bytes_compared(a: &[u8], b: &[u8]) -> u64
    ensures value { result ≡ 1 + min (length a.now) (length b.now) }
{
    1 + a.len().min(b.len()) as u64
}

// Of two texts.
fn less_texts<'a>(
    c: &Context<'a>,
    op: Op,
    x: &[Scalar<'a>],
    y: &[Scalar<'a>],
) -> Result<Gives<'a>, Stop>
    ensures value { (ts : List Ty) (m : core.Memory) → Does ts m result (defined.less_step op str (value_of ts x.now) (value_of ts y.now) m) }
{
    let a = as_text(x)?;
    let b = as_text(y)?;
    let ordered = in_order(op, text_less(a, b), text_less(b, a));
    gives_one(c, Scalar::Truth(ordered), bytes_compared(a, b))
}

/// `<`, `<=`, `>` or `>=` of two integers or two strings; `t` is the operands' underlying type.
pub fn less_step<'a>(
    c: &Context<'a>,
    op: Op,
    t: TypeId,
    x: &[Scalar<'a>],
    y: &[Scalar<'a>],
) -> Result<Gives<'a>, Stop>
    ensures value { (m : core.Memory) → let ts = places c.now.table.now in Does ts m result (defined.less_step op (tree_of ts t) (value_of ts x.now) (value_of ts y.now) m) }
{
    match level_at(c.table, t) {
        Some(GoType::Int(_)) => less_numbers(c, op, x, y),
        Some(GoType::Str) => less_texts(c, op, x, y),
        _ => Err(Stop::NoStep),
    }
}
