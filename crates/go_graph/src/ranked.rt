//! Nodes in the order of numbers.

ghost use Rattle.std.specs.Prelude.{◌≡◌, ℕ, IfOk, IsPermutation, get_or, length};
ghost use Rattle.std.specs.List.{range_with_len};
ghost use Rattle.std.specs.List.Sorted.{IsNonDecreasingBy};

use crate::list::at;
use gj_base::NoMemory;
use std::alloc::Global;

/// Which nodes are on a cycle, and numbers that fall along each edge from a node that isn't.
#[derive(Drop)]
pub struct Ranked {
    pub is_lasting: Vec<bool>,
    pub numbers: Vec<usize>,
}

fn first_nodes(alloc: Global, count: usize) -> Result<Vec<usize>, NoMemory>
    ensures value { IfOk result (λ r. r.items ≡ range_with_len 0 count) }
{
    let mut nodes = Vec::new(alloc);
    for node in 0..count {
        nodes.push(node)?;
    }
    Ok(nodes)
}

/// So many nodes, each once, those of lesser numbers first.
pub fn in_order(alloc: Global, count: usize, numbers: &[usize]) -> Result<Vec<usize>, NoMemory>
    ensures each { IfOk result (λ r. IsPermutation (range_with_len 0 count) r.items) }
    ensures sorted { IfOk result (λ r. IsNonDecreasingBy (λ (i : ℕ). get_or numbers.now i 0) r.items) }
{
    let mut nodes = first_nodes(alloc, count)?;
    nodes.sort_by_key(|node| at(numbers, *node))?;
    Ok(nodes)
}
