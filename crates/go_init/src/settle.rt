//! One ready variable after the other: the earliest in declaration order, of the first package that
//! isn't done.

use crate::packages::Ranks;
use crate::references::References;
use gj_base::NoMemory;
use go_core::program::Program;
use std::alloc::Global;
use std::collections::BTreeSet;

/// What is known while variables are set. Nodes that lead to one another are one component; a
/// component is settled when it waits for no other, and then, where it is a variable, that is set.
#[derive(Drop)]
pub struct Settling<'p> {
    alloc: Global,
    program: &'p Program,
    references: &'p References<'p>,
    ranks: &'p Ranks,
    /// The component of each node.
    of: &'p [usize],
    /// By component: how many edges it waits for, which components wait for it, by edge, and the
    /// variable that it is, if it is one, from 1 on.
    waits: Vec<usize>,
    users: Vec<Vec<usize>>,
    variable: Vec<usize>,
    /// By the place of a variable that holds an initialiser: those that are set with it.
    group: Vec<Vec<usize>>,
    /// Whether a variable is set.
    set_yet: Vec<bool>,
    /// The variables that are ready, by the ranks of their packages and their numbers.
    ready: BTreeSet<(usize, u64, usize)>,
    /// Components that wait for nothing and haven't been looked at.
    work: Vec<usize>,
    /// The variables whose initialisers run, in order.
    pub order: Vec<usize>,
}

fn at(xs: &[usize], i: usize) -> usize {
    match xs.get(i) {
        Some(x) => *x,
        None => 0,
    }
}

// The element with a number of one of the lists.
fn nth(lists: &[Vec<usize>], i: usize, k: usize) -> Option<usize> {
    match lists.get(i) {
        Some(list) => list.get(k).copied(),
        None => None,
    }
}

impl<'p> Settling<'p> {
    /// Nothing is set. Components are numbered below `count`.
    pub fn new(
        alloc: Global,
        program: &'p Program,
        references: &'p References<'p>,
        ranks: &'p Ranks,
        of: &'p [usize],
        count: usize,
    ) -> Result<Settling<'p>, NoMemory> {
        let mut all = Settling {
            alloc,
            program,
            references,
            ranks,
            of,
            waits: Vec::new(alloc),
            users: Vec::new(alloc),
            variable: Vec::new(alloc),
            group: Vec::new(alloc),
            set_yet: Vec::new(alloc),
            ready: BTreeSet::new(alloc),
            work: Vec::new(alloc),
            order: Vec::new(alloc),
        };
        for _ in 0..count {
            all.waits.push(0)?;
            all.users.push(Vec::new(alloc))?;
            all.variable.push(0)?;
        }
        all.add_groups()?;
        all.add_edges()?;
        Ok(all)
    }

    fn globals(&self) -> usize {
        self.program.globals.items.len()
    }

    fn add_groups(&mut self) -> Result<(), NoMemory> {
        for _ in 0..self.globals() {
            self.group.push(Vec::new(self.alloc))?;
            self.set_yet.push(false)?;
        }
        for i in 0..self.globals() {
            let holder = self.references.holder(i);
            if holder < self.group.len() {
                self.group[holder].push(i)?;
            }
            let c = at(self.of, i);
            if c < self.variable.len() {
                self.variable[c] = i.saturating_add(1);
            }
        }
        Ok(())
    }

    fn add_edges(&mut self) -> Result<(), NoMemory> {
        let references = self.references;
        let edges = references.edges.as_slice();
        for i in 0..edges.len() {
            let from = at(self.of, i);
            for to in edges[i].as_slice() {
                self.add_edge(from, at(self.of, *to))?;
            }
        }
        Ok(())
    }

    fn add_edge(&mut self, from: usize, to: usize) -> Result<(), NoMemory> {
        if from == to || from >= self.waits.len() || to >= self.users.len() {
            return Ok(());
        }
        self.waits[from] = self.waits[from].saturating_add(1);
        self.users[to].push(from)?;
        Ok(())
    }

    /// Sets all variables.
    pub fn settle(&mut self) -> Result<(), NoMemory> {
        for c in 0..self.waits.len() {
            if at(self.waits.as_slice(), c) == 0 {
                self.work.push(c)?;
            }
        }
        for _ in 0..u64::MAX {
            self.work_off()?;
            let Some((_, _, i)) = self.ready.pop_first() else {
                return Ok(());
            };
            self.initialise(i)?;
        }
        Ok(())
    }

    // Looks at what waits for nothing: a variable is ready, functions are done.
    fn work_off(&mut self) -> Result<(), NoMemory> {
        for _ in 0..u64::MAX {
            let Some(c) = self.work.pop() else {
                return Ok(());
            };
            match at(self.variable.as_slice(), c) {
                0 => self.done(c)?,
                n => self.is_ready(n - 1)?,
            }
        }
        Ok(())
    }

    fn is_ready(&mut self, i: usize) -> Result<(), NoMemory> {
        let Some(g) = self.program.globals.items.as_slice().get(i) else {
            return Ok(());
        };
        let _ = self
            .ready
            .insert((self.ranks.rank(&g.package), g.number, i))?;
        Ok(())
    }

    // The variables of one initialiser are set together.
    fn initialise(&mut self, i: usize) -> Result<(), NoMemory> {
        let holder = self.references.holder(i);
        if self.is_set(i) || holder >= self.group.len() {
            return Ok(());
        }
        self.order.push(holder)?;
        let mut k: usize = 0;
        for _ in 0..u64::MAX {
            let Some(j) = nth(self.group.as_slice(), holder, k) else {
                return Ok(());
            };
            self.set(j)?;
            k = k.saturating_add(1);
        }
        Ok(())
    }

    fn is_set(&self, i: usize) -> bool {
        match self.set_yet.get(i) {
            Some(b) => *b,
            None => true,
        }
    }

    fn set(&mut self, i: usize) -> Result<(), NoMemory> {
        if i < self.set_yet.len() {
            self.set_yet[i] = true;
        }
        self.done(at(self.of, i))
    }

    // What waits for a component waits for one edge less.
    fn done(&mut self, c: usize) -> Result<(), NoMemory> {
        let mut k: usize = 0;
        for _ in 0..u64::MAX {
            let Some(user) = nth(self.users.as_slice(), c, k) else {
                return Ok(());
            };
            self.waits_less(user)?;
            k = k.saturating_add(1);
        }
        Ok(())
    }

    fn waits_less(&mut self, c: usize) -> Result<(), NoMemory> {
        if c >= self.waits.len() {
            return Ok(());
        }
        self.waits[c] = self.waits[c].saturating_sub(1);
        if self.waits[c] == 0 {
            self.work.push(c)?;
        }
        Ok(())
    }
}
