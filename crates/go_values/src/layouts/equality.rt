//! Equality of values.
//!
//! The Go Programming Language Specification (as of Go 1.17), "Comparison operators". Structs and
//! arrays are compared part by part, up to the first difference (own).

ghost use Rattle.std.specs.Prelude.{◌≡◌, ◌+◌, ℕ, IfOk, IfSome, IfNone, bytes_eq, length, min};
ghost use Rattle.go_type.specs.Levels.{tree_of};
ghost use Rattle.go_type.specs.Table.{places, names};
ghost use Rattle.go_core.specs.Equality as defined;
ghost use Rattle.go_core.specs.Memory.{packed};
ghost use Rattle.go_core.specs.Layout.{shape_of, weight, flags, is_comparable};
ghost use Rattle.go_core.specs.SameType.{same_type};
ghost use Rattle.go_values.specs.ValuesSeen.{scalar_of, value_of};
ghost use Rattle.go_values.specs.LayoutsSeen.{verdict_of};

use crate::layouts::holds::is_comparable;
use crate::layouts::layout::{layout_of, weight};
use crate::values::level::same_type;
use crate::values::scalar::Scalar;
use gj_base::NoMemory;
use go_type::TypeTable;
use go_type::types::TypeId;
use std::alloc::Global;

/// What a comparison finds, with what it takes of units.
#[derive(Clone, Copy, Debug, PartialEq, Eq)]
pub enum Verdict {
    Equal(u64),
    Different(u64),
    /// Two interface values of one type that can't be compared.
    Refused(u64),
}

fn decided(same: bool, units: u64) -> Verdict
    ensures value { verdict_of result ≡ defined.verdict same units }
{
    if same {
        Verdict::Equal(units)
    } else {
        Verdict::Different(units)
    }
}

// The units, where no difference was found.
fn equal_units(found: Verdict) -> Option<u64>
    ensures some { IfSome result (λ n. verdict_of found ≡ defined.equal n) }
    ensures none { IfNone result ((n : ℕ) → ¬ (verdict_of found ≡ defined.equal n)) }
{
    match found {
        Verdict::Equal(n) => Some(n),
        Verdict::Different(_) | Verdict::Refused(_) => None,
    }
}

fn sum(m: u64, n: u64) -> Result<u64, NoMemory>
    ensures value { IfOk result (λ k. k ≡ m + n) }
{
    match m.checked_add(n) {
        Some(k) => Ok(k),
        None => Err(NoMemory),
    }
}

// The verdict with more units.
fn taking(units: u64, found: Verdict) -> Result<Verdict, NoMemory>
    ensures value { IfOk result (λ v. verdict_of v ≡ defined.taking units (verdict_of found)) }
{
    match found {
        Verdict::Equal(n) => {
            let n = sum(units, n)?;
            Ok(Verdict::Equal(n))
        }
        Verdict::Different(n) => {
            let n = sum(units, n)?;
            Ok(Verdict::Different(n))
        }
        Verdict::Refused(n) => {
            let n = sum(units, n)?;
            Ok(Verdict::Refused(n))
        }
    }
}

fn same_text(a: &[u8], b: &[u8]) -> Verdict
    ensures value { verdict_of result ≡ defined.verdict (bytes_eq a.now b.now) (min (length a.now) (length b.now)) }
{
    decided(a == b, a.len().min(b.len()) as u64)
}

// What interface values hold.
#[cycle(compare)]
fn compare_contents<'a>(
    alloc: Global,
    table: &TypeTable,
    t: TypeId,
    u: TypeId,
    xs: &[Scalar<'a>],
    ys: &[Scalar<'a>],
) -> Result<Verdict, NoMemory>
    ensures value { IfOk result (λ v. let ns = names table.now in let shape = shape_of ns (tree_of (places table.now) t) in verdict_of v ≡ defined.of_one_type (same_type (tree_of (places table.now) t) (tree_of (places table.now) u)) (is_comparable ns (tree_of (places table.now) t)) (weight shape) (defined.compare_all ns (flags shape) (packed (value_of (places table.now) xs.now)) (packed (value_of (places table.now) ys.now)))) }
{
    if !same_type(table, t, u) {
        return Ok(Verdict::Different(0));
    }
    let layout = layout_of(alloc, table, t)?;
    let units = weight(&layout)?;
    if !is_comparable(table, t) {
        return Ok(Verdict::Refused(units));
    }
    let found = compare_all(alloc, table, layout.flags.as_slice(), xs, ys)?;
    taking(units, found)
}

// Adds the bytes that are compared, and the size of what interface values hold.
#[cycle(compare)]
fn compare_scalars<'a>(
    alloc: Global,
    table: &TypeTable,
    x: Scalar<'a>,
    y: Scalar<'a>,
) -> Result<Verdict, NoMemory>
    ensures value { IfOk result (λ v. verdict_of v ≡ defined.compare_scalars (names table.now) (scalar_of (places table.now) x.entry) (scalar_of (places table.now) y.entry)) }
{
    match (x, y) {
        (Scalar::Truth(a), Scalar::Truth(b)) => Ok(decided(a == b, 0)),
        (Scalar::Whole(a), Scalar::Whole(b)) => Ok(decided(a == b, 0)),
        (Scalar::Text(a), Scalar::Text(b)) => Ok(same_text(a, b)),
        (Scalar::Nil, Scalar::Nil) => Ok(Verdict::Equal(0)),
        (Scalar::Pointer(a), Scalar::Pointer(b)) => Ok(decided(a == b, 0)),
        (Scalar::Map(a), Scalar::Map(b)) => Ok(decided(a == b, 0)),
        (Scalar::Channel(a), Scalar::Channel(b)) => Ok(decided(a == b, 0)),
        (Scalar::Interface { ty: t, content: xs }, Scalar::Interface { ty: u, content: ys }) =>
            compare_contents(alloc, table, t, u, xs, ys),
        _ => Ok(Verdict::Different(0)),
    }
}

// A scalar, where it is looked at.
#[cycle(compare)]
fn compare_at<'a>(
    alloc: Global,
    table: &TypeTable,
    looked: bool,
    x: Scalar<'a>,
    y: Scalar<'a>,
) -> Result<Verdict, NoMemory>
    ensures value { IfOk result (λ v. verdict_of v ≡ defined.if_compared looked (defined.compare_scalars (names table.now) (scalar_of (places table.now) x.entry) (scalar_of (places table.now) y.entry))) }
{
    if looked {
        compare_scalars(alloc, table, x, y)
    } else {
        Ok(Verdict::Equal(0))
    }
}

// Those scalars that are looked at, up to the first difference.
#[cycle(compare)]
fn compare_all<'a>(
    alloc: Global,
    table: &TypeTable,
    looked: &[bool],
    xs: &[Scalar<'a>],
    ys: &[Scalar<'a>],
) -> Result<Verdict, NoMemory>
    ensures value { IfOk result (λ v. verdict_of v ≡ defined.compare_all (names table.now) looked.now (packed (value_of (places table.now) xs.now)) (packed (value_of (places table.now) ys.now))) }
{
    let mut units = 0u64;
    'scalars: for i in 0..looked.len() {
        if i >= xs.len() {
            return Ok(Verdict::Equal(units));
        }
        if i >= ys.len() {
            return Ok(Verdict::Equal(units));
        }
        let found = compare_at(alloc, table, looked[i], xs[i], ys[i])?;
        match equal_units(found) {
            Some(n) => {
                let more = sum(units, n)?;
                units = more;
            }
            None => return taking(units, found),
        }
    }
    Ok(Verdict::Equal(units))
}

/// Compares two values of a type.
pub fn compare<'a>(
    alloc: Global,
    table: &TypeTable,
    t: TypeId,
    x: &[Scalar<'a>],
    y: &[Scalar<'a>],
) -> Result<Verdict, NoMemory>
    ensures value { IfOk result (λ v. verdict_of v ≡ defined.compared (names table.now) (tree_of (places table.now) t) (value_of (places table.now) x.now) (value_of (places table.now) y.now)) }
{
    let layout = layout_of(alloc, table, t)?;
    let units = weight(&layout)?;
    let found = compare_all(alloc, table, layout.flags.as_slice(), x, y)?;
    taking(units, found)
}

/// Whether two keys of a map are one: keys hold no interface value.
pub fn same_key<'a>(
    alloc: Global,
    table: &TypeTable,
    t: TypeId,
    x: &[Scalar<'a>],
    y: &[Scalar<'a>],
) -> Result<bool, NoMemory>
    ensures value { IfOk result (λ b. b ≡ defined.same_key (names table.now) (tree_of (places table.now) t) (value_of (places table.now) x.now) (value_of (places table.now) y.now)) }
{
    match compare(alloc, table, t, x, y)? {
        Verdict::Equal(_) => Ok(true),
        _ => Ok(false),
    }
}
