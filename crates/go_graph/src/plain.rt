//! Which nodes are on a cycle, by a plain search from each node: slow, and resting on no walk.

ghost use Rattle.std.specs.Prelude.{◌≡◌, ◌↔◌, ℕ, [], IsTrue, IfOk, OnOk, true, false, get_or, length};
ghost use Rattle.go_graph.specs.Cycle.{lists, IsOnCycle};
ghost use Rattle.go_graph.specs.Search.{Descends, MarksReached, marked, rank, visit_all};

use crate::ranked::Ranked;
use gj_base::NoMemory;
use std::alloc::Global;

// Whether a node is marked, or what is said of one that isn't in the graph.
fn mark_at(marks: &[bool], node: usize, beyond: bool) -> bool
    ensures value { result ≡ get_or marks.now node beyond }
{
    if node < marks.len() {
        return marks[node];
    }
    beyond
}

// Marks those of these nodes that are in the graph and aren't marked, and puts them at the queue's end.
fn visit_each(marks: &mut Vec<bool>, queue: &mut Vec<usize>, list: &[usize]) -> Result<(), NoMemory>
    ensures ok { OnOk result (visit_all list.now marks.old.items queue.old.items ≡ (marks.new.items, queue.new.items)) }
{
    for target in list {
        if !mark_at(marks.as_slice(), *target, true) {
            marks[*target] = true;
            queue.push(*target)?;
        }
    }
    Ok(())
}

// The same of the nodes to which a node leads.
fn visit(
    edges: &[Vec<usize>],
    node: usize,
    marks: &mut Vec<bool>,
    queue: &mut Vec<usize>,
) -> Result<(), NoMemory>
    ensures ok { OnOk result (visit_all (get_or (lists edges.now) node []) marks.old.items queue.old.items ≡ (marks.new.items, queue.new.items)) }
{
    if node < edges.len() {
        return visit_each(marks, queue, edges[node].as_slice());
    }
    Ok(())
}

// What a node leads to is marked, from one node of the queue after another.
fn marks_from(alloc: Global, edges: &[Vec<usize>], start: usize) -> Result<Vec<bool>, NoMemory>
    ensures value { IfOk result (λ r. MarksReached (lists edges.now) start r.items) }
{
    let mut marks = vec![in alloc; false; edges.len()]?;
    let mut queue = Vec::new(alloc);
    queue.push(start)?;
    let mut next = 0;
    while next < queue.len() {
        let node = queue[next];
        visit(edges, node, &mut marks, &mut queue)?;
        next += 1;
    }
    Ok(marks)
}

fn count_of(marks: &[bool]) -> usize
    ensures value { result ≡ marked marks.now }
{
    let mut count = 0;
    for mark in marks {
        if *mark {
            count += 1;
        }
    }
    count
}

// How many nodes a node leads to, and one more where it isn't among them.
fn rank_of(marks: &[bool], node: usize) -> usize
    ensures value { result ≡ rank marks.now node }
{
    let count = count_of(marks);
    if mark_at(marks, node, false) {
        return count;
    }
    count + 1
}

/// Which nodes are on a cycle; the number of a node is how many nodes it leads to, and one more where
/// it is on none.
pub fn ranked_by_search(alloc: Global, edges: &[Vec<usize>]) -> Result<Ranked, NoMemory>
    ensures count { IfOk result (λ r. length r.is_lasting.items ≡ length edges.now) }
    ensures exact { IfOk result (λ r. (i : ℕ) → IsTrue (get_or r.is_lasting.items i false) ↔ IsOnCycle (lists edges.now) i) }
    ensures falls { IfOk result (λ r. Descends (lists edges.now) r.is_lasting.items r.numbers.items) }
{
    let mut is_lasting = Vec::new(alloc);
    let mut numbers = Vec::new(alloc);
    for node in 0..edges.len() {
        let marks = marks_from(alloc, edges, node)?;
        let is_found = mark_at(marks.as_slice(), node, false);
        let number = rank_of(marks.as_slice(), node);
        is_lasting.push(is_found)?;
        numbers.push(number)?;
    }
    Ok(Ranked {
        is_lasting,
        numbers,
    })
}
