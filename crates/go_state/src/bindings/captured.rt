//! Variables that a function captured.
//!
//! The Go Programming Language Specification (as of Go 1.17), "Function literals": they are shared
//! between the surrounding function and the function literal.

ghost use Rattle.std.specs.Prelude.{◌≡◌, ◌++◌, IfOk, OnOk, map, option_map};
ghost use Rattle.go_core.specs.Calls as calls;
ghost use Rattle.go_core.specs.CoreView.{id_of};
ghost use Rattle.go_state.specs.StateSeen.{places_of};

use crate::state::frame::Place;
use crate::state::stack::base_of;
use gj_base::NoMemory;
use go_core::node::VarId;
use go_values::operators::did::Context;

/// The bases of variables, where each has one.
pub fn bases_of<'a>(
    c: &Context<'a>,
    captured: &[VarId],
    at: &[Place],
) -> Result<Option<&'a [u64]>, NoMemory>
    ensures value { IfOk result (λ r. option_map (λ bs. bs.now) r ≡ calls.bases_of (map id_of captured.now) (places_of at.now)) }
{
    let mut bases = Vec::new(c.alloc);
    'each: for i in 0..captured.len() {
        match base_of(at, captured[i]) {
            Some(base) => bases.push(base)?,
            None => return Ok(None),
        }
    }
    let held: &'a [u64] = c.arena.try_alloc_slice_copy(bases.as_slice())?;
    Ok(Some(held))
}

/// Variables that a function captured, where they lie; the first one on top.
pub fn captured_places(
    at: &mut Vec<Place>,
    captured: &[VarId],
    bases: &[u64],
) -> Result<(), NoMemory>
    ensures value { OnOk result (places_of at.new.items ≡ calls.captured_places (map id_of captured.now) bases.now ++ places_of at.old.items) }
{
    let count = captured.len().min(bases.len());
    'each: for i in 0..count {
        let k = count - 1 - i;
        at.push(Place {
            var: captured[k],
            base: bases[k],
        })?;
    }
    Ok(())
}
