//! Function types that differ in tags alone: conversions leave a value as it is and don't look at tags, so
//! the functions of such types are machines together. Go specification (as of Go 1.17), "Conversions".

use gj_base::NoMemory;
use go_marks::untagged::Untagged;
use go_type::types::TypeId;
use js_facts::Facts;
use std::alloc::Global;

/// Function types that differ in tags alone become one class.
pub fn join_tagged(alloc: Global, facts: &mut Facts<'_>) -> Result<(), NoMemory> {
    let table = facts.table();
    let untagged = Untagged::new(alloc, table)?;
    let mut marked: Vec<bool> = Vec::new(alloc);
    for t in 0..table.len() {
        marked.push(false)?;
        let n = untagged.of(TypeId(t)) as usize;
        if n < marked.len() && facts.is_marked_type(TypeId(t)) {
            marked[n] = true;
        }
    }
    for t in 0..table.len() {
        let n = untagged.of(TypeId(t)) as usize;
        if n < marked.len() && marked[n] {
            facts.mark_type(TypeId(t));
        }
    }
    Ok(())
}
