//! Both phases of an assignment.
//!
//! The Go Programming Language Specification (as of Go 1.17), "Assignments". Own: what a left side
//! checks is checked when it takes its value, from left to right.

ghost use Rattle.std.specs.Prelude.{◌≡◌, ℕ, ◌∷◌, List, IfOk, OnOk};
ghost use Rattle.go_type.specs.Tree.{Ty};
ghost use Rattle.go_type.specs.Levels.{tree_of};
ghost use Rattle.go_type.specs.Table.{places};
ghost use Rattle.go_core.specs.Assign as assigning;
ghost use Rattle.go_core.specs.CoreTree as core;
ghost use Rattle.go_core.specs.CoreTree.{CoreProgram};
ghost use Rattle.go_core.specs.CoreView.{place_view, target_view, program_view};
ghost use Rattle.go_state.specs.TasksSeen.{targets_from};
ghost use Rattle.go_values.specs.ValuesSeen.{value_of, values_of, memory_of};
ghost use Rattle.go_state.specs.StateSeen.{frame_of, places_of};
ghost use Rattle.go_entries.specs.Found.{Misses, MissesBy, PlacedBy};
ghost use Rattle.go_state.specs.Goes.{Goes};

use crate::assign_steps::counts::target_operands;
use crate::assign_steps::find::{Found, Sight, found_place};
use gj_base::NoMemory;
use go_core::node::{CorePlace, PlaceForm};
use go_core::program::Program;
use go_core::statement::{Target, Targets};
use go_slices::maps::maps::map_set_step;
use go_state::bindings::results::write_value;
use go_state::frame_steps::operands::{before, operands};
use go_state::frame_steps::parts::Rest;
use go_state::state::frame::{Frame, Todo};
use go_type::types::TypeId;
use go_values::operators::change::change;
use go_values::operators::did::{Context, Stop};
use go_values::operators::places::{sum, weight_of};
use go_values::values::level::underlying;
use go_values::values::memory::Memory;
use go_values::values::scalar::Scalar;

// How many places, one in another.
fn depth(place: &CorePlace) -> Result<u64, NoMemory>
    ensures value { IfOk result (λ n. (ts : List Ty) → n ≡ assigning.depth (place_view ts place.now)) }
{
    match &*place.form {
        PlaceForm::Local(_) => Ok(1),
        PlaceForm::Global(_) => Ok(1),
        PlaceForm::Deref(_) => Ok(1),
        PlaceForm::Field { place: outer, .. } => {
            let others = depth(outer)?;
            sum(1, others)
        }
        PlaceForm::Elem { place: outer, .. } => {
            let others = depth(outer)?;
            sum(1, others)
        }
        PlaceForm::SliceElem { .. } => Ok(1),
    }
}

// What remains of the assignment comes first.
fn rest_first<'p, 'a>(rest: Rest<'p, 'a>, f: &mut Frame<'p, 'a>) -> Result<(), NoMemory>
    ensures value { OnOk result ((ts : List Ty) (p : CoreProgram) (g : ℕ) → let r = rest.entry in frame_of ts f.new ≡ assigning.rest_first p g (targets_from ts r.targets.now r.from) (values_of ts r.operands.now) (values_of ts r.values.now) (frame_of ts f.old)) }
{
    if rest.from >= rest.targets.items.len() {
        return Ok(());
    }
    before(
        f,
        Todo::AssignRest {
            targets: rest.targets,
            from: rest.from,
            operands: rest.operands,
            values: rest.values,
        },
    )?;
    Ok(())
}

// The same, where a panic counts so many units.
fn counting(e: Stop, nodes: u64) -> Stop
    ensures value { (d : assigning.Found) → Misses e d → MissesBy nodes result d }
{
    match e {
        Stop::NoMemory => Stop::NoMemory,
        Stop::NoStep => Stop::NoStep,
        Stop::Panics { panic, units: _ } => Stop::Panics {
            panic,
            units: nodes,
        },
    }
}

// The place of a left side, or why there is none; a panic counts its nodes.
fn place_of<'p, 'a>(
    c: &Context<'a>,
    p: &Program,
    place: &CorePlace,
    nodes: u64,
    operands: &'a [&'a [Scalar<'a>]],
    f: &Frame<'p, 'a>,
    m: &Memory<'a>,
) -> Result<Found<'a, 'a>, Stop>
    requires { c.now.table.now ≡ p.now.types }
    ensures value { let ts = places p.now.types in PlacedBy ts nodes result (assigning.found_place (program_view p.now) (places_of f.now.places.items) (memory_of ts m.now) (place_view ts place.now) (values_of ts operands.now)) }
{
    let sight = Sight {
        c,
        p,
        places: f.places.as_slice(),
        memory: m,
    };
    match found_place(place, sight, operands) {
        Ok(found) => Ok(found),
        Err(e) => Err(counting(e, nodes)),
    }
}

// A place takes a value, and then what remains of the assignment comes.
fn stored<'p, 'a>(
    c: &Context<'a>,
    p: &Program,
    ty: TypeId,
    place: &CorePlace,
    x: &'a [Scalar<'a>],
    rest: Rest<'p, 'a>,
    f: &mut Frame<'p, 'a>,
    m: &mut Memory<'a>,
) -> Result<u64, Stop>
    requires { c.now.table.now ≡ p.now.types }
    ensures value { let ts = places p.now.types in let r = rest.entry in Goes (program_view p.now) ts result f.old f.new m.old m.new (λ g. assigning.assign_step (program_view p.now) g (core.to_place (tree_of ts ty) (place_view ts place.now) ∷ targets_from ts r.targets.now r.from) (values_of ts r.operands.now) (value_of ts x.now ∷ values_of ts r.values.now)) }
{
    let nodes = depth(place)?;
    let found = place_of(c, p, place, nodes, rest.operands, f, m)?;
    let weight = weight_of(c, ty)?;
    let units = sum(nodes, weight)?;
    write_value(found.base, x, m);
    let left = Rest {
        targets: rest.targets,
        from: rest.from,
        operands: found.others,
        values: rest.values,
    };
    rest_first(left, f)?;
    Ok(units)
}

// An entry of a map takes a value, and then what remains of the assignment comes.
fn entry_set<'p, 'a>(
    c: &Context<'a>,
    p: &Program,
    map_type: TypeId,
    map: &'a [Scalar<'a>],
    key: &'a [Scalar<'a>],
    x: &'a [Scalar<'a>],
    rest: Rest<'p, 'a>,
    f: &mut Frame<'p, 'a>,
    m: &mut Memory<'a>,
) -> Result<u64, Stop>
    requires { c.now.table.now ≡ p.now.types }
    ensures value { (e k : core.Expr) → let ts = places p.now.types in let r = rest.entry in Goes (program_view p.now) ts result f.old f.new m.old m.new (λ g. assigning.assign_step (program_view p.now) g (core.to_entry (tree_of ts map_type) e k ∷ targets_from ts r.targets.now r.from) (value_of ts map.now ∷ value_of ts key.now ∷ values_of ts r.operands.now) (value_of ts x.now ∷ values_of ts r.values.now)) }
{
    let gives = map_set_step(c, underlying(c.table, map_type), map, key, x, m)?;
    change(c.alloc, m, gives.change)?;
    rest_first(rest, f)?;
    Ok(gives.units)
}

// The same, with the map before its key.
fn entry_in<'p, 'a>(
    c: &Context<'a>,
    p: &Program,
    map_type: TypeId,
    map: &'a [Scalar<'a>],
    x: &'a [Scalar<'a>],
    rest: Rest<'p, 'a>,
    f: &mut Frame<'p, 'a>,
    m: &mut Memory<'a>,
) -> Result<u64, Stop>
    requires { c.now.table.now ≡ p.now.types }
    ensures value { (e k : core.Expr) → let ts = places p.now.types in let r = rest.entry in Goes (program_view p.now) ts result f.old f.new m.old m.new (λ g. assigning.assign_step (program_view p.now) g (core.to_entry (tree_of ts map_type) e k ∷ targets_from ts r.targets.now r.from) (value_of ts map.now ∷ values_of ts r.operands.now) (value_of ts x.now ∷ values_of ts r.values.now)) }
{
    match rest.operands.split_first() {
        Some((key, others)) => {
            let left = Rest {
                targets: rest.targets,
                from: rest.from,
                operands: others,
                values: rest.values,
            };
            entry_set(c, p, map_type, map, *key, x, left, f, m)
        }
        None => Err(Stop::NoStep),
    }
}

// The same, with all operands.
fn entry_stored<'p, 'a>(
    c: &Context<'a>,
    p: &Program,
    map_type: TypeId,
    x: &'a [Scalar<'a>],
    rest: Rest<'p, 'a>,
    f: &mut Frame<'p, 'a>,
    m: &mut Memory<'a>,
) -> Result<u64, Stop>
    requires { c.now.table.now ≡ p.now.types }
    ensures value { (e k : core.Expr) → let ts = places p.now.types in let r = rest.entry in Goes (program_view p.now) ts result f.old f.new m.old m.new (λ g. assigning.assign_step (program_view p.now) g (core.to_entry (tree_of ts map_type) e k ∷ targets_from ts r.targets.now r.from) (values_of ts r.operands.now) (value_of ts x.now ∷ values_of ts r.values.now)) }
{
    match rest.operands.split_first() {
        Some((map, others)) => {
            let left = Rest {
                targets: rest.targets,
                from: rest.from,
                operands: others,
                values: rest.values,
            };
            entry_in(c, p, map_type, *map, x, left, f, m)
        }
        None => Err(Stop::NoStep),
    }
}

// A left side takes a value, and then what remains of the assignment comes.
fn assign_to<'p, 'a>(
    c: &Context<'a>,
    p: &Program,
    target: &Target,
    x: &'a [Scalar<'a>],
    rest: Rest<'p, 'a>,
    f: &mut Frame<'p, 'a>,
    m: &mut Memory<'a>,
) -> Result<u64, Stop>
    requires { c.now.table.now ≡ p.now.types }
    ensures value { let ts = places p.now.types in let r = rest.entry in Goes (program_view p.now) ts result f.old f.new m.old m.new (λ g. assigning.assign_step (program_view p.now) g (target_view ts target.now ∷ targets_from ts r.targets.now r.from) (values_of ts r.operands.now) (value_of ts x.now ∷ values_of ts r.values.now)) }
{
    match target {
        Target::Blank => {
            rest_first(rest, f)?;
            Ok(0)
        }
        Target::Place { ty, place } => stored(c, p, *ty, place, x, rest, f, m),
        Target::Entry { map_type, .. } => entry_stored(c, p, *map_type, x, rest, f, m),
    }
}

/// The second phase: the next left side takes the next value.
pub fn assign_step<'p, 'a>(
    c: &Context<'a>,
    p: &Program,
    rest: Rest<'p, 'a>,
    f: &mut Frame<'p, 'a>,
    m: &mut Memory<'a>,
) -> Result<u64, Stop>
    requires { c.now.table.now ≡ p.now.types }
    ensures value { let ts = places p.now.types in let r = rest.entry in Goes (program_view p.now) ts result f.old f.new m.old m.new (λ g. assigning.assign_step (program_view p.now) g (targets_from ts r.targets.now r.from) (values_of ts r.operands.now) (values_of ts r.values.now)) }
{
    if rest.from >= rest.targets.items.len() {
        return Ok(0);
    }
    match rest.values.split_first() {
        Some((x, others)) => {
            let left = Rest {
                targets: rest.targets,
                from: rest.from + 1,
                operands: rest.operands,
                values: others,
            };
            assign_to(c, p, &rest.targets.items[rest.from], *x, left, f, m)
        }
        None => Err(Stop::NoStep),
    }
}

// Operands that outlive their step.
fn held<'a>(c: &Context<'a>, xs: &[&'a [Scalar<'a>]]) -> Result<&'a [&'a [Scalar<'a>]], NoMemory>
    ensures value { IfOk result (λ vs. vs.now ≡ xs.now) }
{
    let vs: &'a [&'a [Scalar<'a>]] = c.arena.try_alloc_slice_copy(xs)?;
    Ok(vs)
}

/// Operands of the left sides and the right sides have been evaluated, so the second phase begins.
pub fn begin_assign<'p, 'a>(
    c: &Context<'a>,
    p: &Program,
    targets: &'p Targets,
    count: usize,
    f: &mut Frame<'p, 'a>,
    m: &mut Memory<'a>,
) -> Result<u64, Stop>
    requires { c.now.table.now ≡ p.now.types }
    ensures value { let ts = places p.now.types in Goes (program_view p.now) ts result f.old f.new m.old m.new (λ g. assigning.begin_assign (program_view p.now) g (targets_from ts targets.now 0) count) }
{
    let xs = operands(f, count)?;
    let values = held(c, xs.as_slice())?;
    let wanted = target_operands(targets)?;
    let ys = operands(f, wanted)?;
    let operands = held(c, ys.as_slice())?;
    let rest = Rest {
        targets,
        from: 0,
        operands,
        values,
    };
    assign_step(c, p, rest, f, m)
}
