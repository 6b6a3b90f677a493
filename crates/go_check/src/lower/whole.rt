//! The whole program. Go, "Packages", "Program initialization and execution".

use crate::lower::making::Making;
use crate::lower::numbers::{Counts, numbers, ordered};
use gj_base::{NoMemory, Text};
use go_check_state::state::GlobalRow;
use go_check_state::{Checker, INIT, NameId};
use go_core::program::{
    Func, FuncIds, Funcs, MethodRow, MethodRows, PackageRow, PackageRows, PackageVar, PackageVars,
    Program, Texts,
};
use go_core::tree::FuncId;
use go_type::types::TypeId;

/// A method of a type with its function.
#[derive(Clone, Copy, Debug)]
pub struct MethodSpec {
    pub ty: TypeId,
    pub name: NameId,
    pub package: NameId,
    pub func: u32,
}

/// What a program has beside the checker's tables: the methods of types, the function `main`, the type of
/// run-time panics, and which package imports which.
#[derive(Drop)]
pub struct Beside {
    pub methods: Vec<MethodSpec>,
    pub main: u32,
    pub hidden: TypeId,
    pub imports: Vec<(u32, u32)>,
    /// How many packages there are, that of the compiler's own functions aside.
    pub packages: usize,
}

/// The program of a checker that has found no fault.
pub fn program(c: Checker, beside: &Beside) -> Result<Program, NoMemory> {
    let order = ordered(&c, beside.hidden)?;
    let numbers = numbers(&c, &order)?;
    let funcs = functions(&c, &numbers, &order)?;
    let globals = variables(&c, &numbers)?;
    let methods = methods(&c, &numbers, beside)?;
    let packages = packages(&c, &numbers, &order, beside)?;
    let main = FuncId(numbers.get(beside.main as usize).copied().unwrap_or(0));
    Ok(Program {
        types: c.types,
        funcs,
        globals,
        methods,
        main,
        packages,
        hidden: beside.hidden,
    })
}

// The captured variables of all functions, by function: where each one's begin, and one more.
fn captured(c: &Checker) -> Result<(Vec<usize>, Vec<u32>), NoMemory> {
    let mut starts: Vec<usize> = Vec::new(c.alloc);
    let mut vars: Vec<u32> = Vec::new(c.alloc);
    for pair in c.captures.iter() {
        let func = (*pair / 4294967296) as usize;
        let var = *pair % 4294967296;
        for _ in starts.len()..func.saturating_add(1) {
            starts.push(vars.len())?;
        }
        vars.push(if var <= u32::MAX as u64 {
            var as u32
        } else {
            0
        })?;
    }
    for _ in starts.len()..c.funcs.len().saturating_add(1) {
        starts.push(vars.len())?;
    }
    Ok((starts, vars))
}

fn functions(c: &Checker, numbers: &Vec<u32>, order: &Vec<u32>) -> Result<Funcs, NoMemory> {
    let (starts, vars) = captured(c)?;
    let mut making = Making::new(c, numbers.as_slice());
    let mut counts = Counts::new(c)?;
    let mut items: Vec<Func> = Vec::new(c.alloc);
    for id in order.iter() {
        let at = *id as usize;
        let from = starts.get(at).copied().unwrap_or(0);
        let to = starts.get(at.saturating_add(1)).copied().unwrap_or(0);
        let captured = vars.get(from..to).unwrap_or(&[]);
        if let Some(func) = making.function(&mut counts, *id, captured)? {
            items.push(func)?;
        }
    }
    Ok(Funcs { items })
}

fn variables(c: &Checker, numbers: &Vec<u32>) -> Result<PackageVars, NoMemory> {
    let mut making = Making::new(c, numbers.as_slice());
    let mut items: Vec<PackageVar> = Vec::new(c.alloc);
    let mut number = 0u64;
    for row in c.globals.iter() {
        items.push(variable(c, &mut making, *row, number)?)?;
        number = number.saturating_add(1);
    }
    Ok(PackageVars { items })
}

fn variable(
    c: &Checker,
    making: &mut Making<'_>,
    row: GlobalRow,
    number: u64,
) -> Result<PackageVar, NoMemory> {
    let name = c.names.copy(row.name)?;
    let package = c.path_text(row.package)?;
    let initialiser = match row.initialiser {
        Some(id) => Some(making.expression(id)?),
        None => None,
    };
    let vars = making.take_vars()?;
    Ok(PackageVar {
        name,
        package,
        ty: row.ty,
        place: row.place,
        initialiser,
        vars,
        number,
        first: row.first as u64,
    })
}

fn methods(c: &Checker, numbers: &Vec<u32>, beside: &Beside) -> Result<MethodRows, NoMemory> {
    let mut items: Vec<MethodRow> = Vec::new(c.alloc);
    for row in beside.methods.iter() {
        let name = c.names.copy(row.name)?;
        let package = c.names.copy(row.package)?;
        let func = FuncId(numbers.get(row.func as usize).copied().unwrap_or(0));
        items.push(MethodRow {
            ty: row.ty,
            name,
            package,
            func,
        })?;
    }
    Ok(MethodRows { items })
}

fn packages(
    c: &Checker,
    numbers: &Vec<u32>,
    order: &Vec<u32>,
    beside: &Beside,
) -> Result<PackageRows, NoMemory> {
    let mut items: Vec<PackageRow> = Vec::new(c.alloc);
    let mut package = 0u32;
    for path in c.paths.iter().take(beside.packages) {
        let path = c.names.copy(*path)?;
        let imports = imports(c, beside, package)?;
        let inits = inits(c, numbers, order, package)?;
        items.push(PackageRow {
            path,
            imports,
            inits,
        })?;
        package = package.saturating_add(1);
    }
    Ok(PackageRows { items })
}

fn imports(c: &Checker, beside: &Beside, package: u32) -> Result<Texts, NoMemory> {
    let mut items: Vec<Text> = Vec::new(c.alloc);
    for (from, to) in beside.imports.iter() {
        if *from == package {
            items.push(c.path_text(*to)?)?;
        }
    }
    Ok(Texts { items })
}

// The `init` functions of a package, in the order of the text.
fn inits(
    c: &Checker,
    numbers: &Vec<u32>,
    order: &Vec<u32>,
    package: u32,
) -> Result<FuncIds, NoMemory> {
    let mut items: Vec<FuncId> = Vec::new(c.alloc);
    for id in order.iter() {
        if let Some(row) = c.func(*id) {
            if row.name == INIT && row.receiver.is_none() && row.package == package {
                items.push(FuncId(numbers.get(*id as usize).copied().unwrap_or(0)))?;
            }
        }
    }
    Ok(FuncIds { items })
}
