//! What a step does, and its operands.

ghost use Rattle.std.specs.Prelude.{◌≡◌, [], ◌∷◌, List, IfOk};
ghost use Rattle.go_type.specs.Tree.{Ty};
ghost use Rattle.go_core.specs.Memory as core;
ghost use Rattle.go_core.specs.Did as defined;
ghost use Rattle.go_core.specs.StepMemory.{on_index};
ghost use Rattle.go_values.specs.ValuesSeen.{scalar_of, value_of};
ghost use Rattle.go_values.specs.OperatorsSeen.{given, Does, Found};

use crate::values::memory::Entry;
use crate::values::run_panic::RunPanic;
use crate::values::scalar::Scalar;
use bumpalo::Bump;
use gj_base::NoMemory;
use go_type::TypeTable;
use std::alloc::{AllocError, Global};

/// The values that a step gives, the last one on top.
#[derive(Clone, Copy)]
pub enum Values<'a> {
    Nothing,
    One(&'a [Scalar<'a>]),
    Two(&'a [Scalar<'a>], &'a [Scalar<'a>]),
}

/// What a step changes in memory.
#[derive(Clone, Copy)]
pub enum Change<'a> {
    Same,
    /// These scalars are written from a base on.
    Writes {
        base: u64,
        cells: &'a [Scalar<'a>],
    },
    /// A fresh variable with these scalars.
    Adds {
        cells: &'a [Scalar<'a>],
    },
    /// Both, in this order.
    WritesAndAdds {
        base: u64,
        cells: &'a [Scalar<'a>],
        fresh: &'a [Scalar<'a>],
    },
    /// One more map.
    AddsMap {
        entries: &'a [Entry<'a>],
        next_birth: u64,
    },
    /// The map of this name has these entries.
    SetsMap {
        name: u64,
        entries: &'a [Entry<'a>],
        next_birth: u64,
    },
    /// One more channel, which is empty and open.
    AddsChannel {
        capacity: u64,
    },
}

/// What a step gives, and what it adds to its one unit.
#[derive(Clone, Copy)]
pub struct Gives<'a> {
    pub values: Values<'a>,
    pub change: Change<'a>,
    pub units: u64,
}

/// Why a step gives nothing.
#[derive(Clone, Copy)]
pub enum Stop {
    NoMemory,
    /// No run of a sound program comes here.
    NoStep,
    /// The step panics, and adds so many units to its one.
    Panics { panic: RunPanic, units: u64 },
}

impl From<NoMemory> for Stop {
    ghost use Rattle.std.specs.Prelude.{◌≡◌};
    ghost use Rattle.go_values.specs.declared.operators.did.Stop.TheVariants as stop;

    ghost from_gives = { λ _ e. e ≡ stop.NoMemory };

    fn from(_e: NoMemory) -> Stop {
        Stop::NoMemory
    }
}

impl From<AllocError> for Stop {
    ghost use Rattle.std.specs.Prelude.{◌≡◌};
    ghost use Rattle.go_values.specs.declared.operators.did.Stop.TheVariants as stop;

    ghost from_gives = { λ _ e. e ≡ stop.NoMemory };

    fn from(_e: AllocError) -> Stop {
        Stop::NoMemory
    }
}

/// The types of the program, and where values are put.
#[derive(Clone, Copy)]
pub struct Context<'a> {
    pub alloc: Global,
    pub arena: &'a Bump,
    pub table: &'a TypeTable,
}

/// A value of one scalar.
pub fn alone<'a>(c: &Context<'a>, x: Scalar<'a>) -> Result<&'a [Scalar<'a>], NoMemory>
    ensures value { IfOk result (λ v. (ts : List Ty) → value_of ts v.now ≡ scalar_of ts x.entry ∷ []) }
{
    let v: &'a [Scalar<'a>] = c.arena.try_alloc_slice_copy(&[x])?;
    Ok(v)
}

/// One value of one scalar.
pub fn gives_one<'a>(c: &Context<'a>, x: Scalar<'a>, units: u64) -> Result<Gives<'a>, Stop>
    ensures value { (ts : List Ty) (m : core.Memory) → Does ts m result (defined.value_of m (scalar_of ts x.entry) units) }
{
    let v = alone(c, x)?;
    Ok(Gives {
        values: Values::One(v),
        change: Change::Same,
        units,
    })
}

/// One value, with the memory as it was.
pub fn gives_value<'a>(v: &'a [Scalar<'a>], units: u64) -> Gives<'a>
    ensures value { (ts : List Ty) (m : core.Memory) → given ts m result ≡ defined.gives (value_of ts v.now ∷ []) m units }
{
    Gives {
        values: Values::One(v),
        change: Change::Same,
        units,
    }
}

/// One value, and a fresh variable.
pub fn gives_fresh<'a>(v: &'a [Scalar<'a>], cells: &'a [Scalar<'a>], units: u64) -> Gives<'a>
    ensures value { (ts : List Ty) (m : core.Memory) → given ts m result ≡ defined.gives (value_of ts v.now ∷ []) (core.with_fresh m (value_of ts cells.now)) units }
{
    Gives {
        values: Values::One(v),
        change: Change::Adds { cells },
        units,
    }
}

/// The slice of all of an array.
pub fn whole_slice<'a>(base: u64, length: u64) -> Scalar<'a>
    ensures value { (ts : List Ty) → scalar_of ts result ≡ core.slice base length length }
{
    Scalar::Slice {
        base,
        length,
        capacity: length,
    }
}

fn truth_in(x: Scalar) -> Result<bool, Stop>
    ensures value { (ts : List Ty) → Found (λ b. b) result (defined.on_truth (scalar_of ts x.entry ∷ [])) }
{
    match x {
        Scalar::Truth(b) => Ok(b),
        _ => Err(Stop::NoStep),
    }
}

/// A truth value.
pub fn as_truth(x: &[Scalar]) -> Result<bool, Stop>
    ensures value { (ts : List Ty) → Found (λ b. b) result (defined.on_truth (value_of ts x.now)) }
{
    match x {
        [x] => truth_in(*x),
        _ => Err(Stop::NoStep),
    }
}

fn whole_in(x: Scalar) -> Result<i128, Stop>
    ensures value { (ts : List Ty) → Found (λ n. n) result (defined.on_whole (scalar_of ts x.entry ∷ [])) }
{
    match x {
        Scalar::Whole(n) => Ok(n),
        _ => Err(Stop::NoStep),
    }
}

/// An integer.
pub fn as_whole(x: &[Scalar]) -> Result<i128, Stop>
    ensures value { (ts : List Ty) → Found (λ n. n) result (defined.on_whole (value_of ts x.now)) }
{
    match x {
        [x] => whole_in(*x),
        _ => Err(Stop::NoStep),
    }
}

fn text_in<'a>(x: Scalar<'a>) -> Result<&'a [u8], Stop>
    ensures value { (ts : List Ty) → Found (λ b. b.now) result (defined.on_text (scalar_of ts x.entry ∷ [])) }
{
    match x {
        Scalar::Text(bytes) => Ok(bytes),
        _ => Err(Stop::NoStep),
    }
}

/// A text.
pub fn as_text<'a>(x: &[Scalar<'a>]) -> Result<&'a [u8], Stop>
    ensures value { (ts : List Ty) → Found (λ b. b.now) result (defined.on_text (value_of ts x.now)) }
{
    match x {
        [x] => text_in(*x),
        _ => Err(Stop::NoStep),
    }
}

fn place_in(x: Scalar) -> Result<u64, Stop>
    ensures value { (ts : List Ty) → Found (λ n. n) result (defined.on_place (scalar_of ts x.entry ∷ [])) }
{
    match x {
        Scalar::Pointer(base) => Ok(base),
        _ => Err(Stop::NoStep),
    }
}

/// A place, which is given as the pointer to it.
pub fn as_place(x: &[Scalar]) -> Result<u64, Stop>
    ensures value { (ts : List Ty) → Found (λ n. n) result (defined.on_place (value_of ts x.now)) }
{
    match x {
        [x] => place_in(*x),
        _ => Err(Stop::NoStep),
    }
}

/// An index that is in range: not negative, and below the length.
pub fn index_in(index: i128, length: u64) -> Result<u64, Stop>
    ensures value { Found (λ k. k) result (on_index index length) }
{
    if index >= 0 && index < length as i128 {
        Ok(index as u64)
    } else {
        Err(Stop::Panics {
            panic: RunPanic::BadIndex { index, length },
            units: 0,
        })
    }
}
