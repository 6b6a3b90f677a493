//! The places of left sides.
//!
//! The Go Programming Language Specification (as of Go 1.17), "Assignments". Own: what a left side
//! checks is checked when it takes its value.

ghost use Rattle.std.specs.Prelude.{◌≡◌, ◌∷◌, List};
ghost use Rattle.go_type.specs.Tree.{Ty};
ghost use Rattle.go_type.specs.Levels.{tree_of};
ghost use Rattle.go_type.specs.Table.{places, names};
ghost use Rattle.go_core.specs.Assign as assigning;
ghost use Rattle.go_core.specs.CoreTree as tree;
ghost use Rattle.go_core.specs.CoreTree.{CoreProgram};
ghost use Rattle.go_core.specs.Did as did;
ghost use Rattle.go_core.specs.Goroutine as defined;
ghost use Rattle.go_core.specs.Goroutine.{base_in};
ghost use Rattle.go_core.specs.CoreView.{place_view, program_view};
ghost use Rattle.go_core.specs.Memory as core;
ghost use Rattle.go_values.specs.ValuesSeen.{value_of, values_of, memory_of};
ghost use Rattle.go_values.specs.OperatorsSeen as seen;
ghost use Rattle.go_values.specs.OperatorsSeen.{Does};
ghost use Rattle.go_state.specs.StateSeen.{places_of};
ghost use Rattle.go_entries.specs.Found.{BaseFound, PlaceFound};

use go_core::node::{CorePlace, PlaceForm, VarId};
use go_core::program::Program;
use go_slices::composites::globals::global_base;
use go_state::state::frame::Place;
use go_state::state::stack::base_of;
use go_type::types::TypeId;
use go_values::operators::did::{Context, Gives, Stop, Values, alone, as_place};
use go_values::operators::places::{deref_step, elem_step, field_step, slice_elem_step};
use go_values::values::level::underlying;
use go_values::values::memory::Memory;
use go_values::values::scalar::Scalar;

/// The base of a left side, and the operands after its own.
#[derive(Clone, Copy)]
pub struct Found<'o, 'a> {
    pub base: u64,
    pub others: &'o [&'a [Scalar<'a>]],
}

/// What a place is found with: the frame's variables, and the memory.
#[derive(Clone, Copy)]
pub struct Sight<'s, 'a> {
    pub c: &'s Context<'a>,
    pub p: &'s Program,
    pub places: &'s [Place],
    pub memory: &'s Memory<'a>,
}

// The one place that a step gives.
fn place_in(gives: Gives) -> Result<u64, Stop>
    ensures value { (ts : List Ty) (m : core.Memory) (others : List core.Value) → BaseFound result others (assigning.found_with (seen.given ts m gives.entry) others) }
{
    match gives.values {
        Values::Nothing => Err(Stop::NoStep),
        Values::One(x) => as_place(x),
        Values::Two(_, _) => Err(Stop::NoStep),
    }
}

// The place that a step gives, and the operands after its own.
fn placed<'o, 'a>(
    step: Result<Gives<'a>, Stop>,
    others: &'o [&'a [Scalar<'a>]],
) -> Result<Found<'o, 'a>, Stop>
    ensures value { (ts : List Ty) (m : core.Memory) (d : did.Did) → Does ts m step.entry d → PlaceFound ts result (assigning.found_with d (values_of ts others.now)) }
{
    let gives = step?;
    let base = place_in(gives)?;
    Ok(Found { base, others })
}

fn local_found<'o, 'a>(
    at: &[Place],
    var: VarId,
    vs: &'o [&'a [Scalar<'a>]],
) -> Result<Found<'o, 'a>, Stop>
    ensures value { (ts : List Ty) (p : CoreProgram) (m : core.Memory) → PlaceFound ts result (assigning.local_found p (places_of at.now) m (base_in var.0 (places_of at.now)) (values_of ts vs.now)) }
{
    match base_of(at, var) {
        Some(base) => Ok(Found { base, others: vs }),
        None => Err(Stop::NoStep),
    }
}

fn deref_found<'o, 'a>(c: &Context<'a>, vs: &'o [&'a [Scalar<'a>]]) -> Result<Found<'o, 'a>, Stop>
    ensures value { (ts : List Ty) (p : CoreProgram) (at : List defined.Place) (m : core.Memory) (e : tree.Expr) → PlaceFound ts result (assigning.found_place p at m (tree.deref e) (values_of ts vs.now)) }
{
    match vs.split_first() {
        Some((x, others)) => placed(deref_step(c, *x), others),
        None => Err(Stop::NoStep),
    }
}

// With the slice, before the index and the operands after it.
fn slice_elem_in<'o, 'a>(
    c: &Context<'a>,
    slice_type: TypeId,
    x: &'a [Scalar<'a>],
    vs: &'o [&'a [Scalar<'a>]],
) -> Result<Found<'o, 'a>, Stop>
    ensures value { (p : CoreProgram) (at : List defined.Place) (m : core.Memory) (e i : tree.Expr) → p.names ≡ names c.now.table.now → let ts = places c.now.table.now in PlaceFound ts result (assigning.found_place p at m (tree.slice_elem (tree_of ts slice_type) e i) (value_of ts x.now ∷ values_of ts vs.now)) }
{
    match vs.split_first() {
        Some((i, others)) => placed(
            slice_elem_step(c, underlying(c.table, slice_type), x, *i),
            others,
        ),
        None => Err(Stop::NoStep),
    }
}

fn slice_elem_found<'o, 'a>(
    c: &Context<'a>,
    slice_type: TypeId,
    vs: &'o [&'a [Scalar<'a>]],
) -> Result<Found<'o, 'a>, Stop>
    ensures value { (p : CoreProgram) (at : List defined.Place) (m : core.Memory) (e i : tree.Expr) → p.names ≡ names c.now.table.now → let ts = places c.now.table.now in PlaceFound ts result (assigning.found_place p at m (tree.slice_elem (tree_of ts slice_type) e i) (values_of ts vs.now)) }
{
    match vs.split_first() {
        Some((x, others)) => slice_elem_in(c, slice_type, *x, others),
        None => Err(Stop::NoStep),
    }
}

fn in_field<'o, 'a>(
    c: &Context<'a>,
    struct_type: TypeId,
    number: u32,
    whole: Found<'o, 'a>,
) -> Result<Found<'o, 'a>, Stop>
    ensures value { (p : CoreProgram) (at : List defined.Place) (m : core.Memory) → p.names ≡ names c.now.table.now → let ts = places c.now.table.now in PlaceFound ts result (assigning.in_field p at m (tree_of ts struct_type) number (assigning.found whole.entry.base (values_of ts whole.entry.others.now))) }
{
    let at = alone(c, Scalar::Pointer(whole.base))?;
    placed(field_step(c, struct_type, number as u64, at), whole.others)
}

fn in_elem<'o, 'a>(
    c: &Context<'a>,
    array_type: TypeId,
    whole: Found<'o, 'a>,
) -> Result<Found<'o, 'a>, Stop>
    ensures value { (p : CoreProgram) (at : List defined.Place) (m : core.Memory) → p.names ≡ names c.now.table.now → let ts = places c.now.table.now in PlaceFound ts result (assigning.in_elem p at m (tree_of ts array_type) (assigning.found whole.entry.base (values_of ts whole.entry.others.now))) }
{
    match whole.others.split_first() {
        Some((i, others)) => {
            let at = alone(c, Scalar::Pointer(whole.base))?;
            placed(
                elem_step(c, underlying(c.table, array_type), at, *i),
                others,
            )
        }
        None => Err(Stop::NoStep),
    }
}

/// Each place as a step of its kind would give it, with operands that have been evaluated.
pub fn found_place<'s, 'o, 'a>(
    place: &CorePlace,
    sight: Sight<'s, 'a>,
    vs: &'o [&'a [Scalar<'a>]],
) -> Result<Found<'o, 'a>, Stop>
    requires { sight.c.now.table.now ≡ sight.p.now.types }
    ensures value { let ts = places sight.entry.p.now.types in PlaceFound ts result (assigning.found_place (program_view sight.entry.p.now) (places_of sight.entry.places.now) (memory_of ts sight.entry.memory.now) (place_view ts place.now) (values_of ts vs.now)) }
{
    match &*place.form {
        PlaceForm::Local(var) => local_found(sight.places, *var, vs),
        PlaceForm::Global(number) => {
            let base = global_base(sight.c, sight.p.globals.items.as_slice(), number.0)?;
            Ok(Found { base, others: vs })
        }
        PlaceForm::Deref(_) => deref_found(sight.c, vs),
        PlaceForm::Field {
            struct_type,
            number,
            place: outer,
        } => {
            let whole = found_place(outer, sight, vs)?;
            in_field(sight.c, *struct_type, *number, whole)
        }
        PlaceForm::Elem {
            array_type,
            place: outer,
            ..
        } => {
            let whole = found_place(outer, sight, vs)?;
            in_elem(sight.c, *array_type, whole)
        }
        PlaceForm::SliceElem { slice_type, .. } => slice_elem_found(sight.c, *slice_type, vs),
    }
}
