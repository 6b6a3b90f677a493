//! Operands on a frame's stack of values, and places of variables. Stacks lie with their top last.

ghost use Rattle.std.specs.Prelude.{◌≡◌, ◌∷◌, List, OnOk, IfOk, drop, length};
ghost use Rattle.go_type.specs.Tree.{Ty};
ghost use Rattle.go_core.specs.Goroutine.{base_in, popped, pushed};
ghost use Rattle.go_values.specs.ValuesSeen.{value_of, values_of};
ghost use Rattle.go_state.specs.StateSeen.{places_of, stack_of};
ghost use Rattle.go_state.specs.Popped.{popped_as};

use crate::state::frame::Place;
use gj_base::NoMemory;
use go_core::node::VarId;
use go_values::values::scalar::Scalar;

/// Values, from left to right, go onto the stack.
pub fn push_values<'a>(
    values: &mut Vec<&'a [Scalar<'a>]>,
    xs: &[&'a [Scalar<'a>]],
) -> Result<(), NoMemory>
    ensures value { OnOk result ((ts : List Ty) → stack_of ts values.new.items ≡ pushed (values_of ts xs.now) (stack_of ts values.old.items)) }
{
    values.extend_from_slice(xs)?;
    Ok(())
}

/// So many operands, from the left, are taken from the stack; none where it has fewer.
pub fn pop_values<'a>(
    values: &mut Vec<&'a [Scalar<'a>]>,
    count: usize,
) -> Result<Option<Vec<&'a [Scalar<'a>]>>, NoMemory>
    ensures value { IfOk result (λ r. (ts : List Ty) → popped count (stack_of ts values.old.items) ≡ popped_as ts r values.new.items) }
{
    let held = values.len();
    if count > held {
        return Ok(None);
    }
    let operands = values.split_off(held - count)?;
    Ok(Some(operands))
}

/// So many values are dropped, or all of them where there are fewer.
pub fn drop_values<'a>(values: &mut Vec<&'a [Scalar<'a>]>, count: usize)
    ensures value { (ts : List Ty) → stack_of ts values.new.items ≡ drop count (stack_of ts values.old.items) }
{
    let held = values.len();
    if count >= held {
        values.clear();
        return;
    }
    values.truncate(held - count);
}

/// The base of a variable: of those with its number the one that was declared last.
pub fn base_of(places: &[Place], var: VarId) -> Option<u64>
    ensures value { result ≡ base_in var.0 (places_of places.now) }
{
    let mut left = places;
    'places: while let Some((place, others)) = left.split_last() {
        if place.var.0 == var.0 {
            return Some(place.base);
        }
        left = others;
    }
    None
}
