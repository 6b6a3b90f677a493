//! The program that each row is put into.

ghost use Rattle.std.specs.Prelude.{◌≡◌, ◌<◌, ℕ, IfOk, IfSome};
ghost use Rattle.go_type.specs.Levels.{IdsBelow, SigBelow};
ghost use Rattle.go_type.specs.Table.{size, name_count};

use crate::maker::{FIRST, Maker, SECOND, Types};
use gj_base::{NoMemory, Place, Text};
use go_core::node::{Var, VarId, Vars};
use go_core::program::{
    Func, FuncIds, Funcs, MethodRow, MethodRows, PackageRow, PackageRows, PackageVar, PackageVars,
    Program, Texts, VarIds,
};
use go_core::statement::{CoreStmt, CoreStmtForm, CoreStmts};
use go_core::tree::FuncId;
use go_type::predeclared::BOOL;
use go_type::types::{Dir, GoType, IntName, NamedId, Sig, TypeId};
use go_type::{Ids, Methods, TypeTable};
use std::alloc::Global;

/// The types that rows speak of, and their table.
pub fn types_of(alloc: Global) -> Result<(TypeTable, Types), NoMemory> {
    let mut table = TypeTable::new(alloc)?;
    let hidden = hidden_type(alloc, &mut table)?;
    let text = table.add(GoType::Str)?;
    let int = table.add(GoType::Int(IntName::Int))?;
    let slice = table.add(GoType::Slice(int))?;
    let pointer = table.add(GoType::Pointer(int))?;
    let channel = table.add(GoType::Chan(Dir::Both, int))?;
    let mapping = table.add(GoType::Map(text, int))?;
    let any = table.add(GoType::Interface(Methods::new(alloc)))?;
    let func = func_type(alloc, &mut table, int)?;
    let types = Types {
        bool: BOOL,
        text,
        int,
        hidden,
        slice,
        pointer,
        channel,
        mapping,
        any,
        func,
    };
    Ok((table, types))
}

// The functions from a type to itself.
fn func_type(alloc: Global, table: &mut TypeTable, t: TypeId) -> Result<TypeId, NoMemory>
    requires { t.0 < size table.old }
{
    let sig = sig(alloc, Some(t), Some(t))?;
    table.add(GoType::Func(sig))
}

// A named string type with the methods of a run-time panic.
fn hidden_type(alloc: Global, table: &mut TypeTable) -> Result<TypeId, NoMemory> {
    let text = table.add(GoType::Str)?;
    let id = table.add_named(Text::from_slice(alloc, b"hidden")?, Text::new(alloc))?;
    table.set_named(id, text);
    add_method(alloc, table, id, b"Error", Some(text))?;
    add_method(alloc, table, id, b"RuntimeError", None)?;
    table.add(GoType::Named(id))
}

fn add_method(
    alloc: Global,
    table: &mut TypeTable,
    id: NamedId,
    name: &[u8],
    gives: Option<TypeId>,
) -> Result<(), NoMemory>
    requires id { id.0 < name_count table.old }
    requires gives { IfSome gives (λ t. t.0 < size table.old) }
    ensures counts { (size table.new ≡ size table.old) × (name_count table.new ≡ name_count table.old) }
{
    let name = Text::from_slice(alloc, name)?;
    let sig = sig(alloc, None, gives)?;
    table.add_method(id, name, false, sig)
}

// Its parts are below each number that both types are below.
fn sig(alloc: Global, param: Option<TypeId>, gives: Option<TypeId>) -> Result<Sig, NoMemory>
    ensures { (n : ℕ) → IfSome param (λ t. t.0 < n) → IfSome gives (λ t. t.0 < n) → IfOk result (λ s. SigBelow n s) }
{
    Ok(Sig {
        params: ids(alloc, param)?,
        results: ids(alloc, gives)?,
        variadic: false,
    })
}

fn ids(alloc: Global, t: Option<TypeId>) -> Result<Ids, NoMemory>
    ensures { (n : ℕ) → IfSome t (λ t. t.0 < n) → IfOk result (λ l. IdsBelow n l) }
{
    let mut list = Vec::new(alloc);
    if let Some(t) = t {
        list.push(t)?;
    }
    Ok(Ids::from_vec(list))
}

/// The program whose `main` declares a variable and then does a statement.
pub fn program_of(make: &Maker, types: TypeTable, done: CoreStmt) -> Result<Program, NoMemory> {
    Ok(Program {
        types,
        funcs: funcs(make, done)?,
        globals: globals(make)?,
        methods: methods(make)?,
        main: FuncId(0),
        packages: packages(make)?,
        hidden: make.types.hidden,
    })
}

// `main`, the two methods, and a function from `int` to `int`.
fn funcs(make: &Maker, done: CoreStmt) -> Result<Funcs, NoMemory> {
    let t = make.types;
    let mut items = Vec::new(make.alloc);
    items.push(main_func(make, done)?)?;
    items.push(error_func(make)?)?;
    items.push(func(make, None, None, &[(2, t.hidden)], make.stmts(None)?)?)?;
    items.push(number_func(make)?)?;
    Ok(Funcs { items })
}

fn main_func(make: &Maker, done: CoreStmt) -> Result<Func, NoMemory> {
    let t = make.types;
    let declared = make.stmt(CoreStmtForm::Declare(Var {
        id: FIRST,
        ty: t.int,
    }))?;
    let mut body = make.stmts(Some(declared))?;
    body.items.push(done)?;
    func(
        make,
        None,
        None,
        &[(FIRST.0, t.int), (SECOND.0, t.int)],
        body,
    )
}

fn error_func(make: &Maker) -> Result<Func, NoMemory> {
    let t = make.types;
    let returned = make.one(make.text()?)?;
    let body = make.stmts(Some(make.stmt(CoreStmtForm::Return(returned))?))?;
    func(
        make,
        None,
        Some(t.text),
        &[(3, t.hidden), (4, t.text)],
        body,
    )
}

fn number_func(make: &Maker) -> Result<Func, NoMemory> {
    let t = make.types;
    let returned = make.one(make.int(1)?)?;
    let body = make.stmts(Some(make.stmt(CoreStmtForm::Return(returned))?))?;
    func(
        make,
        Some(t.int),
        Some(t.int),
        &[(5, t.int), (6, t.int)],
        body,
    )
}

/// A function that captures nothing.
pub fn func(
    make: &Maker,
    param: Option<TypeId>,
    gives: Option<TypeId>,
    vars: &[(u64, TypeId)],
    body: CoreStmts,
) -> Result<Func, NoMemory> {
    let alloc = make.alloc;
    let mut items = Vec::new(alloc);
    for (id, ty) in vars {
        items.push(Var {
            id: VarId(*id),
            ty: *ty,
        })?;
    }
    Ok(Func {
        name: Text::new(alloc),
        sig: sig(alloc, param, gives)?,
        vars: Vars { items },
        captured: VarIds {
            items: Vec::new(alloc),
        },
        body,
        place: PLACE,
    })
}

const PLACE: Place = Place { file: 0, offset: 0 };

// A package variable with an initialiser.
fn globals(make: &Maker) -> Result<PackageVars, NoMemory> {
    let mut items = Vec::new(make.alloc);
    items.push(global(make)?)?;
    Ok(PackageVars { items })
}

/// A package variable of type `int`, the first one of the root.
pub fn global(make: &Maker) -> Result<PackageVar, NoMemory> {
    let alloc = make.alloc;
    Ok(PackageVar {
        name: Text::new(alloc),
        package: Text::new(alloc),
        ty: make.types.int,
        place: PLACE,
        initialiser: Some(make.int(1)?),
        vars: make.no_vars(),
        number: 0,
        first: 0,
    })
}

fn methods(make: &Maker) -> Result<MethodRows, NoMemory> {
    let mut items = Vec::new(make.alloc);
    items.push(method(make, b"Error", FuncId(1))?)?;
    items.push(method(make, b"RuntimeError", FuncId(2))?)?;
    Ok(MethodRows { items })
}

/// A row of the type of run-time panics.
pub fn method(make: &Maker, name: &[u8], func: FuncId) -> Result<MethodRow, NoMemory> {
    Ok(MethodRow {
        ty: make.types.hidden,
        name: Text::from_slice(make.alloc, name)?,
        package: Text::new(make.alloc),
        func,
    })
}

// The root alone.
fn packages(make: &Maker) -> Result<PackageRows, NoMemory> {
    let mut items = Vec::new(make.alloc);
    items.push(package_at(make, b"")?)?;
    Ok(PackageRows { items })
}

/// A package that imports nothing.
pub fn package_at(make: &Maker, path: &[u8]) -> Result<PackageRow, NoMemory> {
    let alloc = make.alloc;
    Ok(PackageRow {
        path: Text::from_slice(alloc, path)?,
        imports: Texts {
            items: Vec::new(alloc),
        },
        inits: FuncIds {
            items: Vec::new(alloc),
        },
    })
}
