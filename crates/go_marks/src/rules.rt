//! The marks of a program.

use crate::graph::Graph;
use crate::keys::{method_key, row_key, value_key};
use crate::untagged::Untagged;
use gj_base::{NoMemory, Text};
use go_core::node::MethodName;
use go_core::program::{Func, MethodRow, Program};
use go_core::{FuncId, FuncSet};
use go_mentions::types::level;
use go_mentions::{Mention, in_body, in_initialiser};
use go_type::types::{GoType, Sig, TypeId};
use std::alloc::Global;
use std::collections::BTreeMap;

/// What is known while the graph is made: functions are the first nodes, classes the others.
#[derive(Drop)]
struct Maker<'p> {
    alloc: Global,
    program: &'p Program,
    untagged: Untagged,
    graph: Graph,
    classes: BTreeMap<Text, usize>,
    rows: BTreeMap<Text, FuncId>,
}

/// The functions that may wait, by rising number.
pub fn marks(alloc: Global, program: &Program) -> Result<FuncSet, NoMemory> {
    let mut maker = Maker {
        alloc,
        program,
        untagged: Untagged::new(alloc, &program.types)?,
        graph: Graph::new(alloc),
        classes: BTreeMap::new(alloc),
        rows: BTreeMap::new(alloc),
    };
    maker.add_funcs()?;
    maker.add_rows()?;
    maker.add_bodies()?;
    maker.graph.spread()?;
    maker.finish()
}

impl<'p> Maker<'p> {
    fn finish(self) -> Result<FuncSet, NoMemory> {
        let mut set = FuncSet::new(self.alloc);
        for k in 0..self.program.funcs.items.len() {
            if k < 4294967296 && self.graph.is_marked(k) {
                set.items.push(FuncId(k as u32))?;
            }
        }
        Ok(set)
    }

    fn func(&self, id: FuncId) -> Option<&'p Func> {
        self.program.funcs.items.as_slice().get(id.0 as usize)
    }

    fn add_funcs(&mut self) -> Result<(), NoMemory> {
        for _ in 0..self.program.funcs.items.len() {
            let _ = self.graph.add_node()?;
        }
        Ok(())
    }

    // ---- classes

    fn class(&mut self, key: Text) -> Result<usize, NoMemory> {
        if let Some(n) = self.classes.get(&key) {
            return Ok(*n);
        }
        let n = self.graph.add_node()?;
        let _ = self.classes.insert(key, n)?;
        Ok(n)
    }

    fn value_class(&mut self, sig: &Sig) -> Result<usize, NoMemory> {
        let key = value_key(self.alloc, &self.untagged, sig)?;
        self.class(key)
    }

    // Members of a class are marked together.
    fn join(&mut self, a: usize, b: usize) -> Result<(), NoMemory> {
        self.graph.add_edge(a, b)?;
        self.graph.add_edge(b, a)
    }

    fn add_rows(&mut self) -> Result<(), NoMemory> {
        for row in self.program.methods.items.as_slice() {
            self.add_row(row)?;
        }
        Ok(())
    }

    fn add_row(&mut self, row: &'p MethodRow) -> Result<(), NoMemory> {
        let key = row_key(self.alloc, row.ty, &row.name, &row.package)?;
        let _ = self.rows.insert(key, row.func)?;
        let Some(f) = self.func(row.func) else {
            return Ok(());
        };
        let key = method_key(self.alloc, &self.untagged, &row.name, &row.package, &f.sig)?;
        let class = self.class(key)?;
        self.join(row.func.0 as usize, class)
    }

    fn row(&self, name: &MethodName) -> Result<Option<FuncId>, NoMemory> {
        let key = row_key(self.alloc, name.ty, &name.name, &name.package)?;
        Ok(self.rows.get(&key).copied())
    }

    // The class of an interface's methods of a name, where it has members.
    fn method_class(
        &self,
        name: &Text,
        package: &Text,
        t: TypeId,
    ) -> Result<Option<usize>, NoMemory> {
        let Some(sig) = self.method_sig(name, package, t) else {
            return Ok(None);
        };
        let key = method_key(self.alloc, &self.untagged, name, package, sig)?;
        Ok(self.classes.get(&key).copied())
    }

    fn method_sig(&self, name: &Text, package: &Text, t: TypeId) -> Option<&'p Sig> {
        let Some(GoType::Interface(methods)) = level(&self.program.types, t) else {
            return None;
        };
        for m in methods.as_slice() {
            if m.name == *name && m.package == *package {
                return Some(&m.sig);
            }
        }
        None
    }

    fn func_sig(&self, t: TypeId) -> Option<&'p Sig> {
        match level(&self.program.types, t) {
            Some(GoType::Func(sig)) => Some(sig),
            _ => None,
        }
    }

    // ---- bodies

    fn add_bodies(&mut self) -> Result<(), NoMemory> {
        let funcs = self.program.funcs.items.as_slice();
        for k in 0..funcs.len() {
            let found = in_body(self.alloc, &self.program.types, &funcs[k].body)?;
            for m in found.as_slice() {
                self.calls(k, *m)?;
                self.takes(*m)?;
            }
        }
        for g in self.program.globals.items.as_slice() {
            if let Some(e) = &g.initialiser {
                let found = in_initialiser(self.alloc, &self.program.types, e)?;
                for m in found.as_slice() {
                    self.takes(*m)?;
                }
            }
        }
        Ok(())
    }

    fn calls(&mut self, k: usize, m: Mention<'p>) -> Result<(), NoMemory> {
        match m {
            Mention::Blocks => self.graph.mark(k),
            Mention::CallsFunction(j) => self.graph.add_edge(j.0 as usize, k),
            Mention::CallsMethod(name) => {
                if let Some(j) = self.row(name)? {
                    return self.graph.add_edge(j.0 as usize, k);
                }
                Ok(())
            }
            Mention::CallsValue(t) => {
                if let Some(sig) = self.func_sig(t) {
                    let class = self.value_class(sig)?;
                    return self.graph.add_edge(class, k);
                }
                Ok(())
            }
            Mention::CallsDynamic(name, package, t) => {
                if let Some(class) = self.method_class(name, package, t)? {
                    return self.graph.add_edge(class, k);
                }
                Ok(())
            }
            _ => Ok(()),
        }
    }

    fn takes(&mut self, m: Mention<'p>) -> Result<(), NoMemory> {
        match m {
            Mention::TakesFunction(j) => self.take(j),
            Mention::TakesMethod(name) => {
                if let Some(j) = self.row(name)? {
                    return self.take(j);
                }
                Ok(())
            }
            Mention::TakesDynamic(name, package, t) => {
                if let Some(class) = self.method_class(name, package, t)?
                    && let Some(sig) = self.method_sig(name, package, t)
                {
                    let values = self.value_class(sig)?;
                    return self.join(class, values);
                }
                Ok(())
            }
            _ => Ok(()),
        }
    }

    fn take(&mut self, j: FuncId) -> Result<(), NoMemory> {
        if let Some(f) = self.func(j) {
            let class = self.value_class(&f.sig)?;
            return self.join(j.0 as usize, class);
        }
        Ok(())
    }
}
