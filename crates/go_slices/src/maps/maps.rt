//! Maps: finite maps whose entries have a birth.
//!
//! The Go Programming Language Specification (as of Go 1.17), "Map types", "Index expressions",
//! "Deletion of map elements", "Composite literals".

ghost use Rattle.std.specs.Prelude.{◌≡◌, ◌+◌, ◌<◌, [], ◌∷◌, List, IfOk, OnOk, IfSome, None, length, map, option_map, slice_set};
ghost use Rattle.go_type.specs.Named.{NamedTy};
ghost use Rattle.go_type.specs.Tree.{Ty, mapping};
ghost use Rattle.go_type.specs.Levels.{tree_of};
ghost use Rattle.go_type.specs.Table.{places, names};
ghost use Rattle.go_core.specs.Layout.{shape_of, weight};
ghost use Rattle.go_core.specs.Memory as core;
ghost use Rattle.go_core.specs.Did as did;
ghost use Rattle.go_core.specs.RunPanic.{nil_map_entry};
ghost use Rattle.go_core.specs.StepMaps as defined;
ghost use Rattle.go_values.specs.ValuesSeen.{scalar_of, value_of, values_of, entry_of, map_of, memory_of};
ghost use Rattle.go_values.specs.OperatorsSeen as seen;
ghost use Rattle.go_values.specs.OperatorsSeen.{Does, Stops};
ghost use Rattle.go_slices.specs.MapsFound.{Entered, IsPlace, ChangeFound, NewMapFound};

use crate::slices::fresh::too_big;
use gj_base::NoMemory;
use go_type::types::{GoType, TypeId};
use go_values::layouts::equality::same_key;
use go_values::operators::did::{Change, Context, Gives, Stop, Values, alone};
use go_values::operators::numbers::MOST_ELEMENTS;
use go_values::operators::places::{product, sum, weight_of, zeros_of};
use go_values::values::level::level_at;
use go_values::values::memory::{Entry, MapState, Memory};
use go_values::values::run_panic::RunPanic;
use go_values::values::scalar::Scalar;
use std::alloc::Global;

// The place of a key's entry, and none where it has none.
fn place_of<'a>(
    c: &Context<'a>,
    key_type: TypeId,
    key: &[Scalar<'a>],
    entries: &[Entry<'a>],
) -> Result<Option<usize>, NoMemory>
    ensures value { IfOk result (λ k. let ts = places c.now.table.now in IsPlace (names c.now.table.now) (tree_of ts key_type) (value_of ts key.now) (map (entry_of ts) entries.now) k) }
    ensures within { IfOk result (λ k. IfSome k (λ i. i < length entries.now)) }
{
    'entries: for i in 0..entries.len() {
        let is_it = same_key(c.alloc, c.table, key_type, entries[i].key, key)?;
        if is_it {
            return Ok(Some(i));
        }
    }
    Ok(None)
}

/// The value at a key.
pub fn looked_up<'a>(
    c: &Context<'a>,
    key_type: TypeId,
    key: &[Scalar<'a>],
    entries: &[Entry<'a>],
) -> Result<Option<&'a [Scalar<'a>]>, NoMemory>
    ensures value { IfOk result (λ v. let ts = places c.now.table.now in option_map (λ x. value_of ts x.now) v ≡ defined.looked_up (names c.now.table.now) (tree_of ts key_type) (value_of ts key.now) (map (entry_of ts) entries.now)) }
{
    let place = place_of(c, key_type, key, entries)?;
    match place {
        Some(i) => Ok(Some(entries[i].value)),
        None => Ok(None),
    }
}

// A copy of a map's state.
fn copied<'a>(alloc: Global, state: &MapState<'a>) -> Result<MapState<'a>, NoMemory>
    ensures value { IfOk result (λ s. (ts : List Ty) → map_of ts s ≡ map_of ts state.now) }
{
    let mut entries = Vec::new(alloc);
    entries.extend_from_slice(state.entries.as_slice())?;
    Ok(MapState {
        entries,
        next_birth: state.next_birth,
    })
}

// With this entry: the key's own where it has one, and else a new one with the next birth; none
// where that passes the limit.
fn with_entry<'a>(
    c: &Context<'a>,
    key_type: TypeId,
    key: &'a [Scalar<'a>],
    value: &'a [Scalar<'a>],
    state: &mut MapState<'a>,
) -> Result<bool, NoMemory>
    ensures value { let ts = places c.now.table.now in Entered result (map_of ts state.new) (defined.with_entry (names c.now.table.now) (tree_of ts key_type) (value_of ts key.now) (value_of ts value.now) (map_of ts state.old)) }
{
    let place = place_of(c, key_type, key, state.entries.as_slice())?;
    match place {
        Some(i) => {
            let old = state.entries[i];
            let fresh = Entry {
                key: old.key,
                value,
                birth: old.birth,
            };
            put_in(&mut state.entries, i, fresh)?;
            Ok(true)
        }
        None => with_new_or_not(key, value, state),
    }
}

// Another entry at a place, where there is such a place: it goes to the end, and then to where the
// one that is taken out lay.
fn put_in<'a>(entries: &mut Vec<Entry<'a>>, i: usize, fresh: Entry<'a>) -> Result<(), NoMemory>
    ensures value { OnOk result (entries.new.items ≡ slice_set entries.old.items i fresh.entry) }
{
    if i < entries.len() {
        entries.push(fresh)?;
        let _gone = entries.swap_remove(i);
    }
    Ok(())
}

fn with_new_or_not<'a>(
    key: &'a [Scalar<'a>],
    value: &'a [Scalar<'a>],
    state: &mut MapState<'a>,
) -> Result<bool, NoMemory>
    ensures value { (ts : List Ty) (ns : List NamedTy) (t : Ty) → Entered result (map_of ts state.new) (defined.put_entry ns t (value_of ts key.now) (value_of ts value.now) (map_of ts state.old) None) }
{
    if state.entries.len() as u64 >= MOST_ELEMENTS {
        return Ok(false);
    }
    with_new(key, value, state)?;
    Ok(true)
}

fn with_new<'a>(
    key: &'a [Scalar<'a>],
    value: &'a [Scalar<'a>],
    state: &mut MapState<'a>,
) -> Result<(), NoMemory>
    ensures value { OnOk result ((ts : List Ty) (ns : List NamedTy) (t : Ty) → map_of ts state.new ≡ defined.with_new ns t (value_of ts key.now) (value_of ts value.now) (map_of ts state.old)) }
{
    let birth = state.next_birth;
    let next = sum(birth, 1)?;
    state.entries.push(Entry { key, value, birth })?;
    state.next_birth = next;
    Ok(())
}

/// A value for a key, or zero, and whether it is there where that is asked.
pub fn with_ok<'a>(
    c: &Context<'a>,
    ok: bool,
    found: bool,
    value: &'a [Scalar<'a>],
) -> Result<Values<'a>, NoMemory>
    ensures value { IfOk result (λ vs. (ts : List Ty) → seen.values_of ts vs ≡ defined.with_ok ok (value_of ts value.now) found) }
{
    if ok {
        let truth = alone(c, Scalar::Truth(found))?;
        Ok(Values::Two(value, truth))
    } else {
        Ok(Values::One(value))
    }
}

fn entries_in<'m, 'a>(m: &'m Memory<'a>, x: Scalar<'a>) -> &'m [Entry<'a>]
    ensures value { (ts : List Ty) → map (entry_of ts) result.now ≡ defined.entries_at (scalar_of ts x.entry ∷ []) (memory_of ts m.now) }
{
    match x {
        Scalar::Map(name) => {
            if name < m.maps.len() as u64 {
                m.maps[name as usize].entries.as_slice()
            } else {
                &[]
            }
        }
        _ => &[],
    }
}

// The entries of a map; nil has none.
fn entries_at<'m, 'a>(m: &'m Memory<'a>, x: &[Scalar<'a>]) -> &'m [Entry<'a>]
    ensures value { (ts : List Ty) → map (entry_of ts) result.now ≡ defined.entries_at (value_of ts x.now) (memory_of ts m.now) }
{
    match x {
        [x] => entries_in(m, *x),
        _ => &[],
    }
}

// What an entry takes of units.
fn entry_weight(c: &Context, key: TypeId, value: TypeId) -> Result<u64, NoMemory>
    ensures value { IfOk result (λ n. n ≡ weight (shape_of (names c.now.table.now) (tree_of (places c.now.table.now) key)) + weight (shape_of (names c.now.table.now) (tree_of (places c.now.table.now) value))) }
{
    let k = weight_of(c, key)?;
    let v = weight_of(c, value)?;
    sum(k, v)
}

// What a look-up gives: the value that was found, or the zero of the type.
fn found_or_zero<'a>(
    c: &Context<'a>,
    value_type: TypeId,
    ok: bool,
    found: Option<&'a [Scalar<'a>]>,
) -> Result<Values<'a>, NoMemory>
    ensures value { IfOk result (λ vs. let ts = places c.now.table.now in let v = option_map (λ x. value_of ts x.now) found.entry in seen.values_of ts vs ≡ defined.with_ok ok (defined.found_value (shape_of (names c.now.table.now) (tree_of ts value_type)) v) (defined.is_found v)) }
{
    match found {
        Some(value) => with_ok(c, ok, true, value),
        None => {
            let zeros = zeros_of(c, value_type)?;
            with_ok(c, ok, false, zeros)
        }
    }
}

// The value at a key of a map of these types, and zero where there is none.
fn get_of<'a>(
    c: &Context<'a>,
    key_type: TypeId,
    value_type: TypeId,
    ok: bool,
    x: &[Scalar<'a>],
    key: &[Scalar<'a>],
    m: &Memory<'a>,
) -> Result<Gives<'a>, Stop>
    ensures value { let ts = places c.now.table.now in Does ts (memory_of ts m.now) result (defined.map_get_step (names c.now.table.now) (mapping (tree_of ts key_type) (tree_of ts value_type)) ok (value_of ts x.now) (value_of ts key.now) (memory_of ts m.now)) }
{
    let units = entry_weight(c, key_type, value_type)?;
    let found = looked_up(c, key_type, key, entries_at(m, x))?;
    let values = found_or_zero(c, value_type, ok, found)?;
    Ok(Gives {
        values,
        change: Change::Same,
        units,
    })
}

/// The value at a key; `t` is the map's underlying type.
pub fn map_get_step<'a>(
    c: &Context<'a>,
    t: TypeId,
    ok: bool,
    x: &[Scalar<'a>],
    key: &[Scalar<'a>],
    m: &Memory<'a>,
) -> Result<Gives<'a>, Stop>
    ensures value { let ts = places c.now.table.now in Does ts (memory_of ts m.now) result (defined.map_get_step (names c.now.table.now) (tree_of ts t) ok (value_of ts x.now) (value_of ts key.now) (memory_of ts m.now)) }
{
    match level_at(c.table, t) {
        Some(GoType::Map(k, v)) => get_of(c, *k, *v, ok, x, key, m),
        _ => Err(Stop::NoStep),
    }
}

// No value, and a change.
fn gives_change<'a>(change: Change<'a>, units: u64) -> Gives<'a>
    ensures value { (ts : List Ty) (m : core.Memory) → seen.given ts m result ≡ did.gives [] (seen.changed ts m change.entry) units }
{
    Gives {
        values: Values::Nothing,
        change,
        units,
    }
}

// A map's state in the arena.
fn set_to<'a>(c: &Context<'a>, name: u64, state: &MapState<'a>) -> Result<Change<'a>, NoMemory>
    ensures value { IfOk result (λ x. (ts : List Ty) (m : core.Memory) → seen.changed ts m x ≡ core.set_map m name (map_of ts state.now)) }
{
    let entries: &'a [Entry<'a>] = c.arena.try_alloc_slice_copy(state.entries.as_slice())?;
    Ok(Change::SetsMap {
        name,
        entries,
        next_birth: state.next_birth,
    })
}

// The state of a map with one entry more, or other.
fn with_entry_in<'a>(
    c: &Context<'a>,
    key_type: TypeId,
    key: &'a [Scalar<'a>],
    value: &'a [Scalar<'a>],
    name: u64,
    state: &MapState<'a>,
) -> Result<Change<'a>, Stop>
    ensures value { let ts = places c.now.table.now in ChangeFound ts name result (defined.with_entry (names c.now.table.now) (tree_of ts key_type) (value_of ts key.now) (value_of ts value.now) (map_of ts state.now)) }
{
    let mut copy = copied(c.alloc, state)?;
    let fits = with_entry(c, key_type, key, value, &mut copy)?;
    if !fits {
        return Err(too_big());
    }
    let change = set_to(c, name, &copy)?;
    Ok(change)
}

// The entry goes into the map of a name.
fn set_in<'a>(
    c: &Context<'a>,
    key_type: TypeId,
    value_type: TypeId,
    key: &'a [Scalar<'a>],
    value: &'a [Scalar<'a>],
    name: u64,
    m: &Memory<'a>,
) -> Result<Gives<'a>, Stop>
    ensures value { let ts = places c.now.table.now in Does ts (memory_of ts m.now) result (defined.map_set_step (names c.now.table.now) (mapping (tree_of ts key_type) (tree_of ts value_type)) (core.map name ∷ []) (value_of ts key.now) (value_of ts value.now) (memory_of ts m.now)) }
{
    match m.maps.as_slice().get(name as usize) {
        Some(state) => {
            let units = entry_weight(c, key_type, value_type)?;
            let change = with_entry_in(c, key_type, key, value, name, state)?;
            Ok(gives_change(change, units))
        }
        None => Err(Stop::NoStep),
    }
}

// The panic of a store in a nil map.
fn nil_entry() -> Stop
    ensures value { Stops result (did.panics nil_map_entry 0) }
{
    Stop::Panics {
        panic: RunPanic::NilMapEntry,
        units: 0,
    }
}

fn set_of<'a>(
    c: &Context<'a>,
    key_type: TypeId,
    value_type: TypeId,
    x: Scalar<'a>,
    key: &'a [Scalar<'a>],
    value: &'a [Scalar<'a>],
    m: &Memory<'a>,
) -> Result<Gives<'a>, Stop>
    ensures value { let ts = places c.now.table.now in Does ts (memory_of ts m.now) result (defined.map_set_step (names c.now.table.now) (mapping (tree_of ts key_type) (tree_of ts value_type)) (scalar_of ts x.entry ∷ []) (value_of ts key.now) (value_of ts value.now) (memory_of ts m.now)) }
{
    match x {
        Scalar::Map(name) => set_in(c, key_type, value_type, key, value, name, m),
        Scalar::Nil => Err(nil_entry()),
        _ => Err(Stop::NoStep),
    }
}

fn set_value<'a>(
    c: &Context<'a>,
    key_type: TypeId,
    value_type: TypeId,
    x: &[Scalar<'a>],
    key: &'a [Scalar<'a>],
    value: &'a [Scalar<'a>],
    m: &Memory<'a>,
) -> Result<Gives<'a>, Stop>
    ensures value { let ts = places c.now.table.now in Does ts (memory_of ts m.now) result (defined.map_set_step (names c.now.table.now) (mapping (tree_of ts key_type) (tree_of ts value_type)) (value_of ts x.now) (value_of ts key.now) (value_of ts value.now) (memory_of ts m.now)) }
{
    match x {
        [x] => set_of(c, key_type, value_type, *x, key, value, m),
        _ => Err(Stop::NoStep),
    }
}

/// A store in a map: in a nil one it panics; `t` is the map's underlying type.
pub fn map_set_step<'a>(
    c: &Context<'a>,
    t: TypeId,
    x: &[Scalar<'a>],
    key: &'a [Scalar<'a>],
    value: &'a [Scalar<'a>],
    m: &Memory<'a>,
) -> Result<Gives<'a>, Stop>
    ensures value { let ts = places c.now.table.now in Does ts (memory_of ts m.now) result (defined.map_set_step (names c.now.table.now) (tree_of ts t) (value_of ts x.now) (value_of ts key.now) (value_of ts value.now) (memory_of ts m.now)) }
{
    match level_at(c.table, t) {
        Some(GoType::Map(k, v)) => set_value(c, *k, *v, x, key, value, m),
        _ => Err(Stop::NoStep),
    }
}

// A map's state loses the entry of a key, where it has one.
fn take_out<'a>(
    c: &Context<'a>,
    key_type: TypeId,
    key: &[Scalar<'a>],
    state: &mut MapState<'a>,
) -> Result<(), NoMemory>
    ensures value { OnOk result (let ts = places c.now.table.now in let s = map_of ts state.old in map_of ts state.new ≡ record s { entries = defined.without (names c.now.table.now) (tree_of ts key_type) (value_of ts key.now) s.entries }) }
{
    let place = place_of(c, key_type, key, state.entries.as_slice())?;
    match place {
        Some(i) => {
            state.entries.remove(i);
            Ok(())
        }
        None => Ok(()),
    }
}

// The state of a map without the entry of a key.
fn without_entry<'a>(
    c: &Context<'a>,
    key_type: TypeId,
    key: &[Scalar<'a>],
    name: u64,
    state: &MapState<'a>,
) -> Result<Change<'a>, NoMemory>
    ensures value { IfOk result (λ x. let ts = places c.now.table.now in let s = map_of ts state.now in (m : core.Memory) → seen.changed ts m x ≡ core.set_map m name (record s { entries = defined.without (names c.now.table.now) (tree_of ts key_type) (value_of ts key.now) s.entries })) }
{
    let mut copy = copied(c.alloc, state)?;
    take_out(c, key_type, key, &mut copy)?;
    set_to(c, name, &copy)
}

fn deleted_in<'a>(
    c: &Context<'a>,
    key_type: TypeId,
    value_type: TypeId,
    key: &[Scalar<'a>],
    name: u64,
    m: &Memory<'a>,
) -> Result<Gives<'a>, Stop>
    ensures value { let ts = places c.now.table.now in Does ts (memory_of ts m.now) result (defined.map_delete_step (names c.now.table.now) (mapping (tree_of ts key_type) (tree_of ts value_type)) (core.map name ∷ []) (value_of ts key.now) (memory_of ts m.now)) }
{
    match m.maps.as_slice().get(name as usize) {
        Some(state) => {
            let units = entry_weight(c, key_type, value_type)?;
            let change = without_entry(c, key_type, key, name, state)?;
            Ok(gives_change(change, units))
        }
        None => Err(Stop::NoStep),
    }
}

fn deleted_of_nil<'a>(
    c: &Context<'a>,
    key_type: TypeId,
    value_type: TypeId,
) -> Result<Gives<'a>, Stop>
    ensures value { (key : core.Value) (m : core.Memory) → let ts = places c.now.table.now in Does ts m result (defined.map_delete_step (names c.now.table.now) (mapping (tree_of ts key_type) (tree_of ts value_type)) (core.nil ∷ []) key m) }
{
    let units = entry_weight(c, key_type, value_type)?;
    Ok(gives_change(Change::Same, units))
}

fn deleted_of<'a>(
    c: &Context<'a>,
    key_type: TypeId,
    value_type: TypeId,
    x: Scalar<'a>,
    key: &[Scalar<'a>],
    m: &Memory<'a>,
) -> Result<Gives<'a>, Stop>
    ensures value { let ts = places c.now.table.now in Does ts (memory_of ts m.now) result (defined.map_delete_step (names c.now.table.now) (mapping (tree_of ts key_type) (tree_of ts value_type)) (scalar_of ts x.entry ∷ []) (value_of ts key.now) (memory_of ts m.now)) }
{
    match x {
        Scalar::Map(name) => deleted_in(c, key_type, value_type, key, name, m),
        Scalar::Nil => deleted_of_nil(c, key_type, value_type),
        _ => Err(Stop::NoStep),
    }
}

fn deleted_value<'a>(
    c: &Context<'a>,
    key_type: TypeId,
    value_type: TypeId,
    x: &[Scalar<'a>],
    key: &[Scalar<'a>],
    m: &Memory<'a>,
) -> Result<Gives<'a>, Stop>
    ensures value { let ts = places c.now.table.now in Does ts (memory_of ts m.now) result (defined.map_delete_step (names c.now.table.now) (mapping (tree_of ts key_type) (tree_of ts value_type)) (value_of ts x.now) (value_of ts key.now) (memory_of ts m.now)) }
{
    match x {
        [x] => deleted_of(c, key_type, value_type, *x, key, m),
        _ => Err(Stop::NoStep),
    }
}

/// An entry is deleted: what is not there, and nil, is no fault; `t` is the map's underlying type.
pub fn map_delete_step<'a>(
    c: &Context<'a>,
    t: TypeId,
    x: &[Scalar<'a>],
    key: &[Scalar<'a>],
    m: &Memory<'a>,
) -> Result<Gives<'a>, Stop>
    ensures value { let ts = places c.now.table.now in Does ts (memory_of ts m.now) result (defined.map_delete_step (names c.now.table.now) (tree_of ts t) (value_of ts x.now) (value_of ts key.now) (memory_of ts m.now)) }
{
    match level_at(c.table, t) {
        Some(GoType::Map(k, v)) => deleted_value(c, *k, *v, x, key, m),
        _ => Err(Stop::NoStep),
    }
}

// Keys and values by turns are stored in order; false where one passes the limit.
fn with_pairs<'a>(
    c: &Context<'a>,
    key_type: TypeId,
    vs: &[&'a [Scalar<'a>]],
    state: &mut MapState<'a>,
) -> Result<bool, NoMemory>
    ensures value { let ts = places c.now.table.now in Entered result (map_of ts state.new) (defined.with_pairs (names c.now.table.now) (tree_of ts key_type) (values_of ts vs.now) (map_of ts state.old)) }
{
    'pairs: for i in 0..vs.len() / 2 {
        let key = vs[2 * i];
        let value = vs[2 * i + 1];
        let fits = with_entry(c, key_type, key, value, state)?;
        if !fits {
            return Ok(false);
        }
    }
    Ok(true)
}

// A map with these keys and values by turns.
fn built_state<'a>(
    c: &Context<'a>,
    key_type: TypeId,
    vs: &[&'a [Scalar<'a>]],
) -> Result<Change<'a>, Stop>
    ensures value { let ts = places c.now.table.now in NewMapFound ts result (defined.with_pairs (names c.now.table.now) (tree_of ts key_type) (values_of ts vs.now) (record { entries = []; next_birth = 0 })) }
{
    let mut state = MapState {
        entries: Vec::new(c.alloc),
        next_birth: 0,
    };
    let fits = with_pairs(c, key_type, vs, &mut state)?;
    if !fits {
        return Err(too_big());
    }
    let entries: &'a [Entry<'a>] = c.arena.try_alloc_slice_copy(state.entries.as_slice())?;
    Ok(Change::AddsMap {
        entries,
        next_birth: state.next_birth,
    })
}

fn built_of<'a>(
    c: &Context<'a>,
    key_type: TypeId,
    value_type: TypeId,
    vs: &[&'a [Scalar<'a>]],
    m: &Memory<'a>,
) -> Result<Gives<'a>, Stop>
    ensures value { let ts = places c.now.table.now in Does ts (memory_of ts m.now) result (defined.build_map_step (names c.now.table.now) (mapping (tree_of ts key_type) (tree_of ts value_type)) (values_of ts vs.now) (memory_of ts m.now)) }
{
    let one = entry_weight(c, key_type, value_type)?;
    let all = product(vs.len() as u64, one)?;
    let units = sum(1, all)?;
    let change = built_state(c, key_type, vs)?;
    let map = alone(c, Scalar::Map(m.maps.len() as u64))?;
    Ok(Gives {
        values: Values::One(map),
        change,
        units,
    })
}

/// A map literal; `t` is the map's underlying type.
pub fn build_map_step<'a>(
    c: &Context<'a>,
    t: TypeId,
    vs: &[&'a [Scalar<'a>]],
    m: &Memory<'a>,
) -> Result<Gives<'a>, Stop>
    ensures value { let ts = places c.now.table.now in Does ts (memory_of ts m.now) result (defined.build_map_step (names c.now.table.now) (tree_of ts t) (values_of ts vs.now) (memory_of ts m.now)) }
{
    match level_at(c.table, t) {
        Some(GoType::Map(k, v)) => built_of(c, *k, *v, vs, m),
        _ => Err(Stop::NoStep),
    }
}
