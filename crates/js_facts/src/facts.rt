//! What is found in a program.

ghost use Rattle.std.specs.Prelude.{◌≡◌, length};
ghost use Rattle.js_facts.specs.Vars.{var_number, var_fact};

use crate::held::{methods, underlying};
use crate::keys::{method_key, row_key};
use crate::parts::Part;
use crate::types::type_of;
use gj_base::{NoMemory, Text};
use go_core::node::{CoreExpr, MethodName, Var, VarId};
use go_core::program::{Func, MethodRow, Program};
use go_core::tree::{FuncId, FuncSet};
use go_type::TypeTable;
use go_type::types::{MethodSpec, Sig, TypeId};
use std::alloc::Global;
use std::collections::BTreeMap;

/// A variable: its type, whether it is boxed, and its number among all variables.
#[derive(Clone, Copy)]
pub struct VarFact {
    pub ty: TypeId,
    pub boxed: bool,
    pub number: u32,
}

/// What the translation knows of a program.
#[derive(Drop)]
pub struct Facts<'p> {
    pub alloc: Global,
    pub program: &'p Program,
    /// Whether memory ran out: then the facts aren't whole.
    pub failed: bool,
    /// Variables by their ids, and rows of them.
    numbers: BTreeMap<u64, u32>,
    vars: Vec<VarFact>,
    /// By a function's number: whether it is a machine, whether its first variable is a receiver, whether it is
    /// taken as a value, whether it defers calls.
    marked: Vec<bool>,
    receivers: Vec<bool>,
    taken: Vec<bool>,
    defers: Vec<bool>,
    /// By a function type's number: whether its functions are machines.
    marked_types: Vec<bool>,
    /// By a type's number: whether it is the type of a value in an interface value, or asked for.
    dynamic: Vec<bool>,
    /// Rows of methods by their texts; whether the methods of a text are machines.
    rows: BTreeMap<Text, u32>,
    marked_methods: BTreeMap<Text, bool>,
    /// Parts that haven't been looked at yet.
    pub work: Vec<Part<'p>>,
}

// As many flags, none of them set.
fn flags(alloc: Global, n: usize) -> Result<Vec<bool>, NoMemory> {
    let mut out = Vec::new(alloc);
    for _ in 0..n {
        out.push(false)?;
    }
    Ok(out)
}

fn is_set(flags: &[bool], n: usize) -> bool {
    match flags.get(n) {
        Some(b) => *b,
        None => false,
    }
}

fn set(flags: &mut Vec<bool>, n: usize) {
    if n < flags.len() {
        flags[n] = true;
    }
}

impl<'p> Facts<'p> {
    /// What is known of a program whose marked functions are these.
    pub fn new(
        alloc: Global,
        program: &'p Program,
        marks: &FuncSet,
    ) -> Result<Facts<'p>, NoMemory> {
        let funcs = program.funcs.items.len();
        let types = program.types.len() as usize;
        let mut facts = Facts {
            alloc,
            program,
            failed: false,
            numbers: BTreeMap::new(alloc),
            vars: Vec::new(alloc),
            marked: flags(alloc, funcs)?,
            receivers: flags(alloc, funcs)?,
            taken: flags(alloc, funcs)?,
            defers: flags(alloc, funcs)?,
            marked_types: flags(alloc, types)?,
            dynamic: flags(alloc, types)?,
            rows: BTreeMap::new(alloc),
            marked_methods: BTreeMap::new(alloc),
            work: Vec::new(alloc),
        };
        for id in marks.items.as_slice() {
            set(&mut facts.marked, id.0 as usize);
        }
        facts.add_rows();
        facts.add_funcs();
        facts.add_globals();
        facts.set_dynamic(program.hidden);
        if facts.failed {
            return Err(NoMemory);
        }
        Ok(facts)
    }

    fn add_rows(&mut self) {
        let rows = self.program.methods.items.as_slice();
        for i in 0..rows.len() {
            set(&mut self.receivers, rows[i].func.0 as usize);
            if i < 4294967295 && self.add_row(i as u32, &rows[i]).is_err() {
                self.failed = true;
            }
        }
    }

    fn add_row(&mut self, number: u32, row: &'p MethodRow) -> Result<(), NoMemory> {
        let key = row_key(self.alloc, row.ty, &row.name, &row.package)?;
        let _ = self.rows.insert(key, number)?;
        if self.is_marked(row.func)
            && let Some(f) = self.func(row.func)
        {
            let key = method_key(self.alloc, &row.name, &row.package, &f.sig)?;
            let _ = self.marked_methods.insert(key, true)?;
        }
        Ok(())
    }

    fn add_funcs(&mut self) {
        let funcs = self.program.funcs.items.as_slice();
        for f in funcs {
            self.add_vars(f.vars.items.as_slice());
        }
        for i in 0..funcs.len() {
            for v in funcs[i].captured.items.as_slice() {
                self.set_boxed(*v);
            }
            self.visit_body(&funcs[i].body, i);
        }
    }

    fn add_globals(&mut self) {
        let globals = self.program.globals.items.as_slice();
        for g in globals {
            self.add_vars(g.vars.items.as_slice());
        }
        for g in globals {
            if let Some(e) = &g.initialiser {
                self.visit_initialiser(e);
            }
        }
    }

    // ---- variables

    fn add_vars(&mut self, vars: &'p [Var]) {
        for v in vars {
            let n = self.vars.len();
            let fact = VarFact {
                ty: v.ty,
                boxed: false,
                number: if n < 4294967295 { n as u32 } else { 0 },
            };
            if self.vars.push(fact).is_err() || self.numbers.insert(v.id.0, fact.number).is_err() {
                self.failed = true;
            }
        }
    }

    /// Notes that a variable is captured, or that its address is taken.
    pub fn set_boxed(&mut self, v: VarId) {
        let n = self.var_number(v) as usize;
        if n < self.vars.len() {
            let row = &mut self.vars[n];
            row.boxed = true;
        }
    }

    fn var_number(&self, v: VarId) -> u32
        ensures { result ≡ var_number self.now v }
    {
        match self.numbers.get(&v.0) {
            Some(n) => *n,
            None => 4294967295,
        }
    }

    /// What is known of a variable.
    pub fn var(&self, v: VarId) -> VarFact
        ensures { result ≡ var_fact self.now v }
    {
        match self.vars.get(self.var_number(v) as usize) {
            Some(row) => *row,
            None => VarFact {
                ty: self.program.hidden,
                boxed: false,
                number: 4294967295,
            },
        }
    }

    /// How many variables there are: their numbers are below it.
    pub fn var_count(&self) -> usize {
        self.vars.len()
    }

    // ---- functions

    pub fn table(&self) -> &'p TypeTable
        ensures { result.now ≡ self.now.«program».now.types }
    {
        &self.program.types
    }

    /// A function.
    pub fn func(&self, id: FuncId) -> Option<&'p Func> {
        self.program.funcs.items.as_slice().get(id.0 as usize)
    }

    /// Whether a function is a machine.
    pub fn is_marked(&self, id: FuncId) -> bool {
        is_set(self.marked.as_slice(), id.0 as usize)
    }

    /// Whether the first variable of a function is its receiver.
    pub fn has_receiver(&self, id: FuncId) -> bool {
        is_set(self.receivers.as_slice(), id.0 as usize)
    }

    /// How many operands a call of a function takes: a receiver counts.
    pub fn param_count(&self, id: FuncId) -> usize {
        let receiver = if self.has_receiver(id) { 1 } else { 0 };
        match self.func(id) {
            Some(f) => f.sig.params.as_slice().len().saturating_add(receiver),
            None => 0,
        }
    }

    /// The variables that a function captures.
    pub fn captured(&self, id: FuncId) -> &'p [VarId] {
        match self.func(id) {
            Some(f) => f.captured.items.as_slice(),
            None => &[],
        }
    }

    /// Whether the script function of a function takes what it holds as its first argument: it captures
    /// variables, or is taken as a value.
    pub fn takes_held(&self, id: FuncId) -> bool {
        is_set(self.taken.as_slice(), id.0 as usize) || !self.captured(id).is_empty()
    }

    /// Whether a function defers calls.
    pub fn defers(&self, id: FuncId) -> bool {
        is_set(self.defers.as_slice(), id.0 as usize)
    }

    /// Notes that a function defers a call.
    pub fn set_defers(&mut self, func: usize) {
        set(&mut self.defers, func);
    }

    // ---- function values

    /// Whether the functions of a function type are machines.
    pub fn is_marked_type(&self, t: TypeId) -> bool {
        is_set(self.marked_types.as_slice(), self.under(t).0 as usize)
    }

    /// The underlying type's number.
    pub fn under(&self, t: TypeId) -> TypeId {
        underlying(self.table(), t)
    }

    /// Notes that the functions of a function type are machines.
    pub fn mark_type(&mut self, t: TypeId) {
        let n = self.under(t).0 as usize;
        set(&mut self.marked_types, n);
    }

    /// Notes that a function is taken as a value of a type.
    pub fn take_function(&mut self, t: TypeId, id: FuncId) {
        set(&mut self.taken, id.0 as usize);
        if self.is_marked(id) {
            self.mark_type(t);
        }
    }

    /// Notes that a method is taken as a value of a type.
    pub fn take_method(&mut self, t: TypeId, method: &'p MethodName) {
        if let Some(row) = self.method_row(self.row_of(method))
            && self.is_marked(row.func)
        {
            self.mark_type(t);
        }
    }

    /// Notes that a method of an interface value is taken as a value of a type.
    pub fn take_dynamic(
        &mut self,
        t: TypeId,
        name: &'p Text,
        package: &'p Text,
        receiver: &'p CoreExpr,
    ) {
        let from = type_of(self.table(), receiver);
        if self.is_marked_method(from, name, package) {
            self.mark_type(t);
        }
    }

    // ---- methods

    /// The number of a method's row; the highest number where there is none.
    pub fn row_of(&self, method: &MethodName) -> u32 {
        let Ok(key) = row_key(self.alloc, method.ty, &method.name, &method.package) else {
            return 4294967295;
        };
        match self.rows.get(&key) {
            Some(n) => *n,
            None => 4294967295,
        }
    }

    /// The row of a method.
    pub fn method_row(&self, number: u32) -> Option<&'p MethodRow> {
        self.program.methods.items.as_slice().get(number as usize)
    }

    /// The method of an interface type with this name and package.
    pub fn method_spec(&self, t: TypeId, name: &Text, package: &Text) -> Option<&'p MethodSpec> {
        let specs = methods(self.table(), t);
        for m in specs {
            if m.name == *name && m.package == *package {
                return Some(m);
            }
        }
        None
    }

    /// The signature of a method of an interface type; where the type has no such method, as in programs that
    /// aren't Sound, that of some method of the name.
    pub fn method_sig(&self, t: TypeId, name: &Text, package: &Text) -> Option<&'p Sig> {
        if let Some(m) = self.method_spec(t, name, package) {
            return Some(&m.sig);
        }
        let rows = self.program.methods.items.as_slice();
        for row in rows {
            if row.name == *name
                && row.package == *package
                && let Some(f) = self.func(row.func)
            {
                return Some(&f.sig);
            }
        }
        None
    }

    /// Whether the methods that a method of an interface type stands for are machines.
    pub fn is_marked_method(&self, t: TypeId, name: &Text, package: &Text) -> bool {
        let Some(sig) = self.method_sig(t, name, package) else {
            return false;
        };
        let Ok(key) = method_key(self.alloc, name, package, sig) else {
            return false;
        };
        self.marked_methods.get(&key).is_some()
    }

    // ---- dynamic types

    /// Notes that a type is that of a value in an interface value, or asked for.
    pub fn set_dynamic(&mut self, t: TypeId) {
        set(&mut self.dynamic, t.0 as usize);
    }

    /// Whether something is to be known of a type at run time.
    pub fn is_dynamic(&self, t: TypeId) -> bool {
        is_set(self.dynamic.as_slice(), t.0 as usize)
    }
}
