//! Which package imports which, and an order in which imported packages come first. Go, "Import
//! declarations", "Package initialization".

use crate::packages::stage::{FileRow, PackageRow};
use gj_base::NoMemory;
use go_check_state::Checker;
use std::collections::HashMap;

/// The path of the compiler's own functions.
pub const HOST: &[u8] = b"internal/host";

/// The packages by their paths, the imports of each, and the order.
#[derive(Drop)]
pub struct Imports {
    /// The number of a package by that of its path's name.
    pub numbers: HashMap<u32, u32>,
    /// Each package with one that it imports, by package, and where each package's begin.
    pub edges: Vec<(u32, u32)>,
    starts: Vec<usize>,
    pub order: Vec<u32>,
}

impl Imports {
    /// The package with a path.
    pub fn find(&self, c: &mut Checker, path: &[u8]) -> Result<Option<u32>, NoMemory> {
        let name = c.names.intern(path)?;
        Ok(self.numbers.get(&name.0).copied())
    }
}

/// The imports of packages, the root among them, whose paths the checker gets.
pub fn find_imports(
    c: &mut Checker,
    packages: &[PackageRow<'_>],
    files: &[FileRow<'_>],
) -> Result<Imports, NoMemory> {
    let mut i = Imports {
        numbers: HashMap::new(c.alloc),
        edges: Vec::new(c.alloc),
        starts: Vec::new(c.alloc),
        order: Vec::new(c.alloc),
    };
    let mut number = 0u32;
    for row in packages {
        let path = c.names.intern(row.path.as_bytes())?;
        c.paths.push(path)?;
        i.numbers.insert(path.0, number)?;
        number = number.saturating_add(1);
    }
    let host = c.names.intern(HOST)?;
    c.paths.push(host)?;
    i.numbers.insert(host.0, number)?;
    c.declare_host(number)?;
    edges(c, &mut i, files, number)?;
    order(c, &mut i, number)?;
    Ok(i)
}

// The files of a package stand together, and the packages in order.
fn edges(
    c: &mut Checker,
    i: &mut Imports,
    files: &[FileRow<'_>],
    host: u32,
) -> Result<(), NoMemory> {
    let mut seen: HashMap<u64, bool> = HashMap::new(c.alloc);
    for file in files {
        for _ in i.starts.len()..(file.package as usize).saturating_add(1) {
            i.starts.push(i.edges.len())?;
        }
        for import in &file.tree.imports {
            if let Some(to) = i.find(c, import.path.as_bytes())? {
                let key = go_check_state::state::joined(file.package, to);
                if to != host && seen.get(&key).is_none() {
                    seen.insert(key, true)?;
                    i.edges.push((file.package, to))?;
                }
            }
        }
    }
    for _ in i.starts.len()..(host as usize).saturating_add(1) {
        i.starts.push(i.edges.len())?;
    }
    Ok(())
}

// Each package after those that it imports, by a walk from each that was not reached.
fn order(c: &Checker, i: &mut Imports, count: u32) -> Result<(), NoMemory> {
    let mut seen: Vec<bool> = Vec::new(c.alloc);
    for _ in 0..count {
        seen.push(false)?;
    }
    for number in 0..count {
        walk(c, i, &mut seen, number)?;
    }
    Ok(())
}

fn enter(
    i: &Imports,
    seen: &mut Vec<bool>,
    stack: &mut Vec<(u32, usize)>,
    number: u32,
) -> Result<(), NoMemory> {
    if (number as usize) < seen.len() && !seen[number as usize] {
        seen[number as usize] = true;
        let at = i.starts.get(number as usize).copied().unwrap_or(0);
        stack.push((number, at))?;
    }
    Ok(())
}

fn walk(c: &Checker, i: &mut Imports, seen: &mut Vec<bool>, number: u32) -> Result<(), NoMemory> {
    let mut stack: Vec<(u32, usize)> = Vec::new(c.alloc);
    enter(i, seen, &mut stack, number)?;
    for _ in 0..u64::MAX {
        let Some((top, at)) = stack.pop() else {
            return Ok(());
        };
        match i.edges.get(at).copied() {
            Some((from, to)) if from == top => {
                stack.push((top, at.saturating_add(1)))?;
                enter(i, seen, &mut stack, to)?;
            }
            _ => i.order.push(top)?,
        }
    }
    Ok(())
}
