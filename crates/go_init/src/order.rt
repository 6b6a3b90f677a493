//! The order of a program, or the variable that depends on itself.

use crate::packages::Ranks;
use crate::references::References;
use crate::settle::Settling;
use gj_base::{Fault, NoMemory, Refusal, Text};
use go_core::program::{InitStep, InitSteps, PackageVar, Program};
use go_graph::component::{Components, components_of};
use std::alloc::Global;

/// The number of the fault of a variable that depends on itself.
const CYCLE: u16 = 48;

/// The order in which package variables are set and `init` functions are called, by "Package
/// initialization"; of the packages that are ready the one with the least path comes first.
///
/// A variable that depends on itself is a fault; the one is told that stands first by package path, file
/// and offset.
pub fn init_order(alloc: Global, program: &Program) -> Result<InitSteps, Refusal> {
    let references = References::new(alloc, program)?;
    let components = components_of(alloc, references.edges.as_slice())?;
    if let Some(g) = least_cyclic(alloc, program, &references, &components)? {
        return Err(Refusal::Fault(cycle_at(alloc, g)?));
    }
    let ranks = Ranks::new(alloc, program)?;
    let order = settled(alloc, program, &references, &ranks, &components)?;
    Ok(steps(alloc, program, &ranks, order.as_slice())?)
}

fn cycle_at(alloc: Global, g: &PackageVar) -> Result<Fault, NoMemory> {
    Ok(Fault {
        place: g.place,
        code: CYCLE,
        text: Text::from_slice(alloc, b"initialisation cycle")?,
    })
}

// ---- what depends on itself

fn component(all: &Components, node: usize) -> usize {
    match all.of.get(node) {
        Some(c) => *c,
        None => 0,
    }
}

// How many nodes each component has.
fn sizes(alloc: Global, all: &Components) -> Result<Vec<usize>, NoMemory> {
    let mut out: Vec<usize> = Vec::new(alloc);
    for _ in 0..all.first.len() {
        out.push(0)?;
    }
    for node in 0..all.of.len() {
        let c = component(all, node);
        if c < out.len() {
            out[c] = out[c].saturating_add(1);
        }
    }
    Ok(out)
}

fn names_itself(references: &References<'_>, node: usize) -> bool {
    let Some(edges) = references.edges.get(node) else {
        return false;
    };
    for to in edges.as_slice() {
        if *to == node {
            return true;
        }
    }
    false
}

fn least_cyclic<'p>(
    alloc: Global,
    program: &'p Program,
    references: &References<'_>,
    all: &Components,
) -> Result<Option<&'p PackageVar>, NoMemory> {
    let sizes = sizes(alloc, all)?;
    let globals = program.globals.items.as_slice();
    let mut least: Option<&'p PackageVar> = None;
    for i in 0..globals.len() {
        let size = match sizes.get(component(all, i)) {
            Some(n) => *n,
            None => 0,
        };
        if size > 1 || names_itself(references, i) {
            least = Some(earlier(least, &globals[i]));
        }
    }
    Ok(least)
}

fn earlier<'p>(least: Option<&'p PackageVar>, g: &'p PackageVar) -> &'p PackageVar {
    match least {
        None => g,
        Some(old) => { if stands_before(g, old) { g } else { old } }
    }
}

fn stands_before(a: &PackageVar, b: &PackageVar) -> bool {
    if a.package == b.package {
        return a.place < b.place;
    }
    a.package < b.package
}

// ---- the order

fn settled(
    alloc: Global,
    program: &Program,
    references: &References<'_>,
    ranks: &Ranks,
    all: &Components,
) -> Result<Vec<usize>, NoMemory> {
    let of = all.of.as_slice();
    let mut settling = Settling::new(alloc, program, references, ranks, of, all.first.len())?;
    settling.settle()?;
    let Settling { order, .. } = settling;
    Ok(order)
}

// Each package's variables, and then its `init` functions in the order of the text.
fn steps(
    alloc: Global,
    program: &Program,
    ranks: &Ranks,
    order: &[usize],
) -> Result<InitSteps, NoMemory> {
    let mut items = Vec::new(alloc);
    let mut next: usize = 0;
    for rank in 0..ranks.order.len() {
        for _ in next..order.len() {
            let Some(i) = order.get(next).copied() else {
                break;
            };
            if rank_of(program, ranks, i) > rank {
                break;
            }
            items.push(InitStep::Initialise(i as u64))?;
            next = next.saturating_add(1);
        }
        if let Some(n) = ranks.order.get(rank)
            && let Some(row) = program.packages.items.as_slice().get(*n)
        {
            for f in row.inits.items.as_slice() {
                items.push(InitStep::Call(*f))?;
            }
        }
    }
    Ok(InitSteps { items })
}

fn rank_of(program: &Program, ranks: &Ranks, i: usize) -> usize {
    match program.globals.items.as_slice().get(i) {
        Some(g) => ranks.rank(&g.package),
        None => 0,
    }
}
