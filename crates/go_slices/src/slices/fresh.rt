//! Fresh arrays, and the panic of a size past a limit.
//!
//! The Go Programming Language Specification (as of Go 1.17), "Making slices, maps and channels",
//! "The zero value". The limit is own.

ghost use Rattle.std.specs.Prelude.{◌≡◌, ◌+◌, ◌*◌, ◌++◌, [], ◌∷◌, List, IfOk, OnOk};
ghost use Rattle.go_type.specs.Tree.{Ty};
ghost use Rattle.go_type.specs.Levels.{tree_of};
ghost use Rattle.go_type.specs.Table.{places, names};
ghost use Rattle.go_core.specs.Layout.{shape_of, weight};
ghost use Rattle.go_core.specs.Memory as core;
ghost use Rattle.go_core.specs.Did as did;
ghost use Rattle.go_core.specs.RunPanic.{bad_size};
ghost use Rattle.go_core.specs.StepMemory as defined;
ghost use Rattle.go_values.specs.ValuesSeen.{value_of, memory_of};
ghost use Rattle.go_values.specs.OperatorsSeen.{Does, Stops};

use gj_base::NoMemory;
use go_type::types::TypeId;
use go_values::operators::did::{Context, Gives, Stop, alone, gives_fresh};
use go_values::operators::places::{product, sum, weight_of};
use go_values::values::memory::Memory;
use go_values::values::run_panic::RunPanic;
use go_values::values::scalar::Scalar;

/// The panic of a size past a limit.
pub fn too_big() -> Stop
    ensures value { Stops result (did.panics bad_size 0) }
{
    Stop::Panics {
        panic: RunPanic::BadSize,
        units: 0,
    }
}

/// Adds so many zeros, one after another.
pub fn push_repeated<'a>(
    cells: &mut Vec<Scalar<'a>>,
    count: u64,
    zeros: &[Scalar<'a>],
) -> Result<(), NoMemory>
    ensures value { OnOk result ((ts : List Ty) → value_of ts cells.new.items ≡ value_of ts cells.old.items ++ defined.repeated count (value_of ts zeros.now)) }
{
    'copies: for _i in 0..count {
        cells.extend_from_slice(zeros)?;
    }
    Ok(())
}

/// So many zeros, one after another.
pub fn repeated<'a>(
    c: &Context<'a>,
    count: u64,
    zeros: &[Scalar<'a>],
) -> Result<&'a [Scalar<'a>], NoMemory>
    ensures value { IfOk result (λ v. (ts : List Ty) → value_of ts v.now ≡ defined.repeated count (value_of ts zeros.now)) }
{
    let mut cells = Vec::new(c.alloc);
    push_repeated(&mut cells, count, zeros)?;
    let copy: &'a [Scalar<'a>] = c.arena.try_alloc_slice_copy(cells.as_slice())?;
    Ok(copy)
}

/// What a number of elements of the type takes of units, and one more.
pub fn units_of(c: &Context, t: TypeId, count: u64) -> Result<u64, NoMemory>
    ensures value { IfOk result (λ n. n ≡ 1 + count * weight (shape_of (names c.now.table.now) (tree_of (places c.now.table.now) t))) }
{
    let one = weight_of(c, t)?;
    let all = product(count, one)?;
    sum(1, all)
}

/// The slice of a fresh array with these cells.
pub fn fresh_slice<'a>(
    c: &Context<'a>,
    length: u64,
    capacity: u64,
    cells: &'a [Scalar<'a>],
    units: u64,
    m: &Memory<'a>,
) -> Result<Gives<'a>, Stop>
    ensures value { (ts : List Ty) → let s = memory_of ts m.now in Does ts s result (did.gives ((core.slice (core.next_base s) length capacity ∷ []) ∷ []) (core.with_fresh s (value_of ts cells.now)) units) }
{
    let base = m.next_base();
    let slice = alone(
        c,
        Scalar::Slice {
            base,
            length,
            capacity,
        },
    )?;
    Ok(gives_fresh(slice, cells, units))
}
