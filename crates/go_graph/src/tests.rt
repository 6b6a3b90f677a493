//! Graphs, by hand.

use crate::cycles::lasting_in;
use crate::plain::ranked_by_search;
use crate::ranked::Ranked;
use std::alloc::Global;
use std::test::Fail;

fn edges(alloc: Global, lists: &[&[usize]]) -> Result<Vec<Vec<usize>>, Fail> {
    let mut all = Vec::new(alloc);
    for list in lists {
        all.push(Vec::from_slice(alloc, *list)?)?;
    }
    Ok(all)
}

// Where a node stands in the order.
fn position(nodes: &[usize], node: usize) -> usize {
    for (i, other) in nodes.iter().enumerate() {
        if *other == node {
            return i;
        }
    }
    nodes.len()
}

#[test]
fn nodes_on_cycles(rt: HostRuntime) -> Result<(), Fail> {
    let alloc = rt.alloc();
    let lists: [&[usize]; 10] = [
        &[1],
        &[2],
        &[0, 9],
        &[2],
        &[4],
        &[],
        &[5, 5],
        &[8],
        &[7, 6],
        &[4],
    ];
    let graph = edges(alloc, lists.as_slice())?;
    let found = lasting_in(alloc, graph.as_slice())?;
    let wanted = [
        true, true, true, false, true, false, false, true, true, false,
    ];
    assert!(rt; found.is_lasting.as_slice() == wanted.as_slice());
    assert!(rt; found.nodes.len() == 10);
    let six = position(found.nodes.as_slice(), 6);
    let five = position(found.nodes.as_slice(), 5);
    let three = position(found.nodes.as_slice(), 3);
    let two = position(found.nodes.as_slice(), 2);
    assert!(rt; five < six && two < three);
    Ok(())
}

#[test]
fn a_chain_and_no_nodes(rt: HostRuntime) -> Result<(), Fail> {
    let alloc = rt.alloc();
    let empty: Vec<Vec<usize>> = Vec::new(alloc);
    let none = lasting_in(alloc, empty.as_slice())?;
    let lists: [&[usize]; 3] = [&[1], &[2], &[]];
    let graph = edges(alloc, lists.as_slice())?;
    let chain = lasting_in(alloc, graph.as_slice())?;
    assert!(rt; none.nodes.is_empty());
    assert!(rt; chain.is_lasting.as_slice() == [false, false, false].as_slice());
    assert!(rt; chain.nodes.as_slice() == [2, 1, 0].as_slice());
    Ok(())
}

fn searched(alloc: Global, lists: &[&[usize]]) -> Result<Ranked, Fail> {
    let graph = edges(alloc, lists)?;
    let found = ranked_by_search(alloc, graph.as_slice())?;
    Ok(found)
}

#[test]
fn the_plain_search(rt: HostRuntime) -> Result<(), Fail> {
    let alloc = rt.alloc();
    let round: [&[usize]; 4] = [&[1], &[2], &[0, 3], &[]];
    let on_round = searched(alloc, round.as_slice())?;
    let own: [&[usize]; 4] = [&[1, 1], &[1], &[3, 1], &[9]];
    let on_own = searched(alloc, own.as_slice())?;
    let two: [&[usize]; 6] = [&[2, 1], &[0], &[3], &[4, 5], &[], &[3]];
    let on_two = searched(alloc, two.as_slice())?;
    let none: [&[usize]; 0] = [];
    let on_none = searched(alloc, none.as_slice())?;
    assert!(rt; on_round.is_lasting.as_slice() == [true, true, true, false].as_slice());
    assert!(rt; on_round.numbers.as_slice() == [4, 4, 4, 1].as_slice());
    assert!(rt; on_own.is_lasting.as_slice() == [false, true, false, false].as_slice());
    assert!(rt; on_own.numbers.as_slice() == [2, 1, 3, 1].as_slice());
    assert!(rt; on_two.is_lasting.as_slice() == [true, true, false, true, false, true].as_slice());
    assert!(rt; on_two.numbers.as_slice() == [6, 6, 4, 3, 1, 3].as_slice());
    assert!(rt; on_none.is_lasting.is_empty() && on_none.numbers.is_empty());
    Ok(())
}
