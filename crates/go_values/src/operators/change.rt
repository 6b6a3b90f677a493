//! A step's change of memory, done.

ghost use Rattle.std.specs.Prelude.{◌≡◌, List, IfOk, OnOk};
ghost use Rattle.go_type.specs.Tree.{Ty};
ghost use Rattle.go_core.specs.Memory as core;
ghost use Rattle.go_values.specs.ValuesSeen.{map_of, memory_of};
ghost use Rattle.go_values.specs.OperatorsSeen.{changed};

use crate::operators::did::Change;
use crate::values::memory::{Channel, Entry, MapState, Memory, write_cells};
use gj_base::NoMemory;
use std::alloc::Global;

/// Changes the memory.
pub fn change<'a>(alloc: Global, m: &mut Memory<'a>, change: Change<'a>) -> Result<(), NoMemory>
    ensures value { OnOk result ((ts : List Ty) → memory_of ts m.new ≡ changed ts (memory_of ts m.old) change.entry) }
{
    match change {
        Change::Same => Ok(()),
        Change::Writes { base, cells } => {
            write_cells(m.cells.as_mut_slice(), base, cells);
            Ok(())
        }
        Change::Adds { cells } => m.add_fresh(cells),
        Change::WritesAndAdds { base, cells, fresh } => {
            write_cells(m.cells.as_mut_slice(), base, cells);
            m.add_fresh(fresh)
        }
        Change::AddsMap {
            entries,
            next_birth,
        } => {
            let state = map_with(alloc, entries, next_birth)?;
            m.add_map(state)
        }
        Change::SetsMap {
            name,
            entries,
            next_birth,
        } => {
            let state = map_with(alloc, entries, next_birth)?;
            set_map(m, name, state);
            Ok(())
        }
        Change::AddsChannel { capacity } => m.add_channel(Channel {
            capacity,
            values: Vec::new(alloc),
            closed: false,
        }),
    }
}

fn map_with<'a>(
    alloc: Global,
    entries: &[Entry<'a>],
    next_birth: u64,
) -> Result<MapState<'a>, NoMemory>
    ensures value { IfOk result (λ s. (s.entries.items ≡ entries.now) × (s.next_birth ≡ next_birth)) }
{
    let mut copy = Vec::new(alloc);
    copy.extend_from_slice(entries)?;
    Ok(MapState {
        entries: copy,
        next_birth,
    })
}

// The map of a name has this state, where there is one.
fn set_map<'a>(m: &mut Memory<'a>, name: u64, state: MapState<'a>)
    ensures value { (ts : List Ty) → memory_of ts m.new ≡ core.set_map (memory_of ts m.old) name (map_of ts state.entry) }
{
    if name < m.maps.len() as u64 {
        m.maps[name as usize] = state;
    }
}
