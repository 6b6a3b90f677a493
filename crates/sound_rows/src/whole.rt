//! Rows of whole programs.
//!
//! Go, "Declarations and scope", "Method declarations", "Packages", "Package initialization".

use crate::base::{func, global, method, package_at};
use crate::maker::{FIRST, Maker};
use gj_base::{NoMemory, Text};
use go_core::node::VarId;
use go_core::program::{Func, PackageRow, PackageVar, Program};
use go_core::tree::FuncId;
use go_type::types::GoType;

/// What is changed.
#[derive(Clone, Copy, Debug)]
pub enum Change {
    /// A named type that stands for nothing.
    UnsetName,
    /// A map with keys that don't compare.
    MapKey,
    ManyFunctions,
    /// Variables that don't begin with the parameters.
    Parameter,
    /// A function with a result that ends without a `return`.
    Terminating,
    /// A variable with the number of another function's.
    SameVariable,
    /// A captured variable that no function has.
    Captured,
    MainWithParameter,
    MainIsMethod,
    /// A method whose function has another receiver.
    Receiver,
    /// A row of a method that its type doesn't have.
    NoMethod,
    /// Two rows of one method.
    TwoRows,
    /// A variable whose initialiser no variable holds.
    NoHolder,
    /// Two variables of a package with one number.
    SameNumber,
    /// A variable of a package that isn't there.
    NoPackage,
    /// An initialiser of another type.
    Initialiser,
    /// An import that isn't there.
    NoImport,
    /// A package that imports itself.
    ImportCycle,
    InitWithParameter,
    /// Two packages of one path.
    SamePath,
    /// A type of run-time panics without methods.
    Hidden,
}

impl Change {
    pub const ALL: [Change; 21] = [
        Change::UnsetName,
        Change::MapKey,
        Change::ManyFunctions,
        Change::Parameter,
        Change::Terminating,
        Change::SameVariable,
        Change::Captured,
        Change::MainWithParameter,
        Change::MainIsMethod,
        Change::Receiver,
        Change::NoMethod,
        Change::TwoRows,
        Change::NoHolder,
        Change::SameNumber,
        Change::NoPackage,
        Change::Initialiser,
        Change::NoImport,
        Change::ImportCycle,
        Change::InitWithParameter,
        Change::SamePath,
        Change::Hidden,
    ];
}

/// Changes a program.
pub fn changed(make: &Maker, p: &mut Program, change: Change) -> Result<(), NoMemory> {
    match change {
        Change::UnsetName | Change::MapKey => types_changed(make, p, change),
        Change::ManyFunctions => many_functions(make, p),
        Change::Parameter | Change::Terminating | Change::SameVariable | Change::Captured => {
            match p.funcs.items.as_mut_slice().last_mut() {
                Some(f) => func_changed(make, f, change),
                None => Ok(()),
            }
        }
        Change::Receiver | Change::NoMethod | Change::TwoRows => rows_changed(make, p, change),
        Change::NoHolder | Change::NoPackage | Change::Initialiser => {
            match p.globals.items.as_mut_slice().last_mut() {
                Some(x) => var_changed(make, x, change),
                None => Ok(()),
            }
        }
        Change::NoImport | Change::ImportCycle | Change::InitWithParameter => {
            match p.packages.items.as_mut_slice().last_mut() {
                Some(row) => package_changed(make, row, change),
                None => Ok(()),
            }
        }
        Change::SameNumber => Ok(p.globals.items.push(global(make)?)?),
        Change::SamePath => Ok(p.packages.items.push(package_at(make, b"")?)?),
        Change::MainWithParameter => {
            p.main = FuncId(3);
            Ok(())
        }
        Change::MainIsMethod => {
            p.main = FuncId(2);
            Ok(())
        }
        Change::Hidden => {
            p.hidden = make.types.text;
            Ok(())
        }
    }
}

fn types_changed(make: &Maker, p: &mut Program, change: Change) -> Result<(), NoMemory> {
    match change {
        Change::UnsetName => {
            let name = Text::from_slice(make.alloc, b"unset")?;
            p.types.add_named(name, Text::new(make.alloc))?;
        }
        _ => {
            if make.types.int.0 < p.types.len() {
                let slice = p.types.add(GoType::Slice(make.types.int))?;
                p.types.add(GoType::Map(slice, slice))?;
            }
        }
    }
    Ok(())
}

// One function more than a program may have.
fn many_functions(make: &Maker, p: &mut Program) -> Result<(), NoMemory> {
    for _ in p.funcs.items.len()..65536 {
        p.funcs
            .items
            .push(func(make, None, None, &[], make.stmts(None)?)?)?;
    }
    Ok(())
}

fn func_changed(make: &Maker, f: &mut Func, change: Change) -> Result<(), NoMemory> {
    match change {
        Change::Terminating => f.body = make.stmts(None)?,
        Change::Captured => f.captured.items.push(VarId(99))?,
        Change::Parameter => {
            if let Some(v) = f.vars.items.as_mut_slice().first_mut() {
                v.ty = make.types.text;
            }
        }
        _ => {
            if let Some(v) = f.vars.items.as_mut_slice().first_mut() {
                v.id = FIRST;
            }
        }
    }
    Ok(())
}

fn rows_changed(make: &Maker, p: &mut Program, change: Change) -> Result<(), NoMemory> {
    let rows = &mut p.methods.items;
    match change {
        Change::TwoRows => rows.push(method(make, b"Error", FuncId(1))?)?,
        Change::NoMethod => rows.push(method(make, b"Other", FuncId(2))?)?,
        _ => {
            if let Some(row) = rows.as_mut_slice().first_mut() {
                row.func = FuncId(3);
            }
        }
    }
    Ok(())
}

fn var_changed(make: &Maker, x: &mut PackageVar, change: Change) -> Result<(), NoMemory> {
    match change {
        Change::NoHolder => {
            x.initialiser = None;
            x.first = 5;
        }
        Change::NoPackage => x.package = Text::from_slice(make.alloc, b"a")?,
        _ => x.initialiser = Some(make.text()?),
    }
    Ok(())
}

fn package_changed(make: &Maker, row: &mut PackageRow, change: Change) -> Result<(), NoMemory> {
    match change {
        Change::NoImport => row.imports.items.push(Text::from_slice(make.alloc, b"a")?)?,
        Change::ImportCycle => row.imports.items.push(Text::new(make.alloc))?,
        _ => row.inits.items.push(FuncId(3))?,
    }
    Ok(())
}
