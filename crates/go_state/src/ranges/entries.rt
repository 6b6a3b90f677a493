//! The entries of a map that a range has produced, and those that are left.
//!
//! The Go Programming Language Specification (as of Go 1.17), "For statements with range clause".

ghost use Rattle.std.specs.Prelude.{◌≡◌, ◌==◌, ◌&&◌, ◌||◌, not, nat_le, ℕ, ◌∷◌, List, IfOk, map, option_map};
ghost use Rattle.go_type.specs.Tree.{Ty};
ghost use Rattle.go_core.specs.Control as control;
ghost use Rattle.go_core.specs.CoreTree.{CoreProgram};
ghost use Rattle.go_values.specs.ValuesSeen.{entry_of, memory_of};

use gj_base::NoMemory;
use go_values::operators::did::Context;
use go_values::values::memory::{Entry, Memory};

/// The entries of a map; nil has none.
pub fn entries_of<'m, 'a>(name: Option<u64>, m: &'m Memory<'a>) -> &'m [Entry<'a>]
    ensures value { (ts : List Ty) (p : CoreProgram) (g : ℕ) → map (entry_of ts) result.now ≡ control.entries_of p g name (memory_of ts m.now) }
{
    match name {
        Some(name) => {
            if name < m.maps.len() as u64 {
                m.maps[name as usize].entries.as_slice()
            } else {
                &[]
            }
        }
        None => &[],
    }
}

/// Whether a birth is among these.
pub fn is_in(n: u64, produced: &[u64]) -> bool
    ensures value { (p : CoreProgram) (g : ℕ) → result ≡ control.is_in p g n produced.now }
{
    'births: for i in 0..produced.len() {
        if n == produced[i] {
            return true;
        }
    }
    false
}

// Whether an entry has this birth, and isn't produced.
fn is_left(birth: u64, produced: &[u64], entry: Entry) -> bool
    ensures value { (p : CoreProgram) (g : ℕ) → result ≡ ((entry.entry.birth == birth) && not (control.is_in p g birth produced.now)) }
{
    entry.birth == birth && !is_in(birth, produced)
}

/// An entry that is there and not yet produced.
pub fn entry_born<'a>(birth: u64, produced: &[u64], entries: &[Entry<'a>]) -> Option<Entry<'a>>
    ensures value { (ts : List Ty) (p : CoreProgram) (g : ℕ) → option_map (entry_of ts) result ≡ control.entry_born p g birth produced.now (map (entry_of ts) entries.now) }
{
    'entries: for i in 0..entries.len() {
        if is_left(birth, produced, entries[i]) {
            return Some(entries[i]);
        }
    }
    None
}

// Whether an entry was produced, or born since.
fn is_passed(produced: &[u64], since: u64, birth: u64) -> bool
    ensures value { (p : CoreProgram) (g : ℕ) → result ≡ (control.is_in p g birth produced.now || nat_le since birth) }
{
    is_in(birth, produced) || since <= birth
}

/// Whether each entry that is there was produced, or born since.
pub fn all_produced(produced: &[u64], since: u64, entries: &[Entry]) -> bool
    ensures value { (ts : List Ty) (p : CoreProgram) (g : ℕ) → result ≡ control.all_produced p g produced.now since (map (entry_of ts) entries.now) }
{
    'entries: for i in 0..entries.len() {
        if !is_passed(produced, since, entries[i].birth) {
            return false;
        }
    }
    true
}

/// One birth more, the last one first.
pub fn with_birth<'a>(c: &Context<'a>, birth: u64, produced: &[u64]) -> Result<&'a [u64], NoMemory>
    ensures value { IfOk result (λ ns. ns.now ≡ birth ∷ produced.now) }
{
    let mut births = Vec::new(c.alloc);
    births.push(birth)?;
    births.extend_from_slice(produced)?;
    let held: &'a [u64] = c.arena.try_alloc_slice_copy(births.as_slice())?;
    Ok(held)
}
