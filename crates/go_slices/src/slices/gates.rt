//! The gate that a hidden pointer holds (own).

ghost use Rattle.std.specs.Prelude.{[], ◌∷◌, List};
ghost use Rattle.go_type.specs.Tree.{Ty};
ghost use Rattle.go_core.specs.Memory as core;
ghost use Rattle.go_core.specs.Operator as defined;
ghost use Rattle.go_values.specs.ValuesSeen.{scalar_of, value_of, memory_of};
ghost use Rattle.go_values.specs.OperatorsSeen.{Does};

use go_values::operators::did::{Change, Context, Gives, Stop, Values, alone, as_place, gives_one};
use go_values::values::memory::{Memory, read_cells};
use go_values::values::scalar::Scalar;

// A gate's cell, which a hidden pointer that holds none is set to.
fn new_gate<'a>(c: &Context<'a>, base: u64, m: &Memory<'a>) -> Result<Gives<'a>, Stop>
    ensures value { (ts : List Ty) → Does ts (memory_of ts m.now) result (defined.gate_at base (core.nil ∷ []) (memory_of ts m.now)) }
{
    let cell = alone(c, Scalar::Pointer(m.next_base()))?;
    let fresh = alone(c, Scalar::Whole(0))?;
    Ok(Gives {
        values: Values::One(cell),
        change: Change::WritesAndAdds {
            base,
            cells: cell,
            fresh,
        },
        units: 1,
    })
}

fn gate_in<'a>(c: &Context<'a>, base: u64, x: Scalar<'a>, m: &Memory<'a>) -> Result<Gives<'a>, Stop>
    ensures value { (ts : List Ty) → Does ts (memory_of ts m.now) result (defined.gate_at base (scalar_of ts x.entry ∷ []) (memory_of ts m.now)) }
{
    match x {
        Scalar::Pointer(gate) => gives_one(c, Scalar::Pointer(gate), 1),
        Scalar::Nil => new_gate(c, base, m),
        _ => Err(Stop::NoStep),
    }
}

// What a hidden pointer that lies at a base holds.
fn gate_at<'a>(
    c: &Context<'a>,
    base: u64,
    x: &[Scalar<'a>],
    m: &Memory<'a>,
) -> Result<Gives<'a>, Stop>
    ensures value { (ts : List Ty) → Does ts (memory_of ts m.now) result (defined.gate_at base (value_of ts x.now) (memory_of ts m.now)) }
{
    match x {
        [x] => gate_in(c, base, *x, m),
        _ => Err(Stop::NoStep),
    }
}

/// The gate that a hidden pointer holds.
pub fn gate_step<'a>(c: &Context<'a>, p: &[Scalar<'a>], m: &Memory<'a>) -> Result<Gives<'a>, Stop>
    ensures value { (ts : List Ty) → Does ts (memory_of ts m.now) result (defined.gate_step (value_of ts p.now) (memory_of ts m.now)) }
{
    let base = as_place(p)?;
    let held = read_cells(base, 1, m.cells.as_slice());
    gate_at(c, base, held, m)
}
