//! What refers to what.

use gj_base::{NoMemory, Text};
use go_core::FuncId;
use go_core::node::MethodName;
use go_core::program::{PackageVar, Program};
use go_mentions::{Mention, in_body, in_initialiser};
use std::alloc::Global;
use std::collections::BTreeMap;

/// The graph of references: the package variables are the first nodes, functions the others.
#[derive(Drop)]
pub struct References<'p> {
    alloc: Global,
    program: &'p Program,
    rows: BTreeMap<Text, FuncId>,
    /// By a variable's place: the place of the one that holds its initialiser.
    pub holders: Vec<usize>,
    /// What each node refers to.
    pub edges: Vec<Vec<usize>>,
}

fn push_number(out: &mut Text, n: u64) -> Result<(), NoMemory> {
    let mut rest = n;
    for _ in 0..20 {
        out.push(b'0' + (rest % 10) as u8)?;
        rest /= 10;
        if rest == 0 {
            return out.push(b'.');
        }
    }
    out.push(b'.')
}

fn row_key(alloc: Global, t: u64, name: &Text, package: &Text) -> Result<Text, NoMemory> {
    let mut out = Text::new(alloc);
    push_number(&mut out, t)?;
    out.push_bytes(name.as_bytes())?;
    out.push(b'.')?;
    out.push_bytes(package.as_bytes())?;
    Ok(out)
}

fn variable_key(alloc: Global, package: &Text, number: u64) -> Result<Text, NoMemory> {
    let mut out = Text::new(alloc);
    push_number(&mut out, number)?;
    out.push_bytes(package.as_bytes())?;
    Ok(out)
}

impl<'p> References<'p> {
    /// The references of a program.
    pub fn new(alloc: Global, program: &'p Program) -> Result<References<'p>, NoMemory> {
        let mut found = References {
            alloc,
            program,
            rows: BTreeMap::new(alloc),
            holders: Vec::new(alloc),
            edges: Vec::new(alloc),
        };
        found.add_rows()?;
        found.add_holders()?;
        found.add_variables()?;
        found.add_functions()?;
        Ok(found)
    }

    fn globals(&self) -> &'p [PackageVar] {
        self.program.globals.items.as_slice()
    }

    fn add_rows(&mut self) -> Result<(), NoMemory> {
        for row in self.program.methods.items.as_slice() {
            let key = row_key(self.alloc, row.ty.0, &row.name, &row.package)?;
            let _ = self.rows.insert(key, row.func)?;
        }
        Ok(())
    }

    // A variable without a holder of its own stands for itself.
    fn add_holders(&mut self) -> Result<(), NoMemory> {
        let globals = self.globals();
        let mut places: BTreeMap<Text, usize> = BTreeMap::new(self.alloc);
        for i in 0..globals.len() {
            let g = &globals[i];
            let key = variable_key(self.alloc, &g.package, g.number)?;
            let _ = places.insert(key, i)?;
        }
        for i in 0..globals.len() {
            let g = &globals[i];
            let key = variable_key(self.alloc, &g.package, g.first)?;
            let holder = match places.get(&key) {
                Some(n) => *n,
                None => i,
            };
            self.holders.push(holder)?;
        }
        Ok(())
    }

    fn add_variables(&mut self) -> Result<(), NoMemory> {
        let globals = self.globals();
        for i in 0..globals.len() {
            let holder = self.holder(i);
            let mut out = Vec::new(self.alloc);
            if let Some(g) = globals.get(holder)
                && let Some(e) = &g.initialiser
            {
                let found = in_initialiser(self.alloc, &self.program.types, e)?;
                self.refer(&mut out, found.as_slice())?;
            }
            self.edges.push(out)?;
        }
        Ok(())
    }

    fn add_functions(&mut self) -> Result<(), NoMemory> {
        for f in self.program.funcs.items.as_slice() {
            let found = in_body(self.alloc, &self.program.types, &f.body)?;
            let mut out = Vec::new(self.alloc);
            self.refer(&mut out, found.as_slice())?;
            self.edges.push(out)?;
        }
        Ok(())
    }

    /// The place of the variable that holds the initialiser of another.
    pub fn holder(&self, i: usize) -> usize {
        match self.holders.get(i) {
            Some(n) => *n,
            None => i,
        }
    }

    fn refer(&self, out: &mut Vec<usize>, found: &[Mention<'p>]) -> Result<(), NoMemory> {
        for m in found {
            match *m {
                Mention::NamesGlobal(n) => self.to_variable(out, n.0)?,
                Mention::CallsFunction(f)
                | Mention::StartsFunction(f)
                | Mention::TakesFunction(f) => self.to_function(out, f)?,
                Mention::CallsMethod(name)
                | Mention::StartsMethod(name)
                | Mention::TakesMethod(name) => self.to_method(out, name)?,
                _ => {}
            }
        }
        Ok(())
    }

    fn to_variable(&self, out: &mut Vec<usize>, n: u64) -> Result<(), NoMemory> {
        if n < self.globals().len() as u64 {
            out.push(n as usize)?;
        }
        Ok(())
    }

    fn to_function(&self, out: &mut Vec<usize>, f: FuncId) -> Result<(), NoMemory> {
        let n = f.0 as usize;
        if n < self.program.funcs.items.len() {
            out.push(self.globals().len().saturating_add(n))?;
        }
        Ok(())
    }

    fn to_method(&self, out: &mut Vec<usize>, name: &MethodName) -> Result<(), NoMemory> {
        let key = row_key(self.alloc, name.ty.0, &name.name, &name.package)?;
        match self.rows.get(&key) {
            Some(f) => self.to_function(out, *f),
            None => Ok(()),
        }
    }
}
