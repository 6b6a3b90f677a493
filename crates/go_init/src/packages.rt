//! The order of packages: imported ones first, and of those that are ready the one with the least path.

use gj_base::{NoMemory, Text};
use go_core::program::{PackageRow, Program};
use std::alloc::Global;
use std::collections::{BTreeMap, BTreeSet};

/// The packages of a program in order, by their places, and each one's rank by its path.
#[derive(Drop)]
pub struct Ranks {
    pub order: Vec<usize>,
    pub by_path: BTreeMap<Text, usize>,
}

/// What is known while packages are ordered. A package is ready when it waits for no import.
#[derive(Drop)]
struct Waiting<'p> {
    rows: &'p [PackageRow],
    places: BTreeMap<Text, usize>,
    /// How many imports each package waits for, and which packages wait for it.
    waits: Vec<usize>,
    users: Vec<Vec<usize>>,
    ready: BTreeSet<(Text, usize)>,
}

impl Ranks {
    /// The packages of a program.
    pub fn new(alloc: Global, program: &Program) -> Result<Ranks, NoMemory> {
        let mut waiting = Waiting {
            rows: program.packages.items.as_slice(),
            places: BTreeMap::new(alloc),
            waits: Vec::new(alloc),
            users: Vec::new(alloc),
            ready: BTreeSet::new(alloc),
        };
        waiting.begin(alloc)?;
        let mut ranks = Ranks {
            order: Vec::new(alloc),
            by_path: BTreeMap::new(alloc),
        };
        for _ in 0..waiting.rows.len() {
            let Some((path, n)) = waiting.ready.pop_first() else {
                return Ok(ranks);
            };
            let _ = ranks.by_path.insert(path, ranks.order.len())?;
            ranks.order.push(n)?;
            waiting.done(n)?;
        }
        Ok(ranks)
    }

    /// The rank of a package by its path.
    pub fn rank(&self, path: &Text) -> usize {
        match self.by_path.get(path) {
            Some(n) => *n,
            None => self.order.len(),
        }
    }
}

impl<'p> Waiting<'p> {
    fn begin(&mut self, alloc: Global) -> Result<(), NoMemory> {
        let rows = self.rows;
        let mut i: usize = 0;
        for row in rows {
            let _ = self.places.insert(row.path.clone()?, i)?;
            self.waits.push(0)?;
            self.users.push(Vec::new(alloc))?;
            i = i.saturating_add(1);
        }
        let mut i: usize = 0;
        for row in rows {
            for path in row.imports.items.as_slice() {
                self.wait_for(i, path)?;
            }
            if self.waits_of(i) == 0 {
                let _ = self.ready.insert((row.path.clone()?, i))?;
            }
            i = i.saturating_add(1);
        }
        Ok(())
    }

    fn wait_for(&mut self, i: usize, path: &Text) -> Result<(), NoMemory> {
        if let Some(n) = self.places.get(path)
            && *n < self.users.len()
        {
            self.users[*n].push(i)?;
            if i < self.waits.len() {
                self.waits[i] = self.waits[i].saturating_add(1);
            }
        }
        Ok(())
    }

    fn waits_of(&self, i: usize) -> usize {
        match self.waits.get(i) {
            Some(n) => *n,
            None => 0,
        }
    }

    // The package with this number of those that wait for one.
    fn user(&self, n: usize, k: usize) -> Option<usize> {
        match self.users.get(n) {
            Some(users) => users.get(k).copied(),
            None => None,
        }
    }

    fn done(&mut self, n: usize) -> Result<(), NoMemory> {
        let mut k: usize = 0;
        for _ in 0..u64::MAX {
            let Some(i) = self.user(n, k) else {
                return Ok(());
            };
            self.waits_less(i)?;
            k = k.saturating_add(1);
        }
        Ok(())
    }

    fn waits_less(&mut self, i: usize) -> Result<(), NoMemory> {
        if i >= self.waits.len() {
            return Ok(());
        }
        let left = self.waits[i].saturating_sub(1);
        self.waits[i] = left;
        let rows = self.rows;
        if left == 0
            && let Some(row) = rows.get(i)
        {
            let _ = self.ready.insert((row.path.clone()?, i))?;
        }
        Ok(())
    }
}
