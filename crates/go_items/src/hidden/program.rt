//! The program.
//!
//! Go, "Packages", "Program execution".

ghost use Rattle.std.specs.Prelude.{◌≡◌, ◌+◌, ◌∷◌, ◌++◌, [], ℕ, suc, codes, List, IfOk, map};
ghost use Rattle.go_type.specs.Levels.{tree_of};
ghost use Rattle.go_type.specs.Table.{places, names};
ghost use Rattle.go_type.specs.Tree.{Ty};
ghost use Rattle.go_core.specs.CoreView.{func_view, method_row_view, package_row_view, program_view};
ghost use Rattle.go_typing.specs.Known as known;
ghost use Rattle.go_typing.specs.Checked as go;
ghost use Rattle.go_typing.specs.Functions.{Functions};

use gj_base::{NoMemory, Text};
use go_core::program::{
    Func, FuncIds, Funcs, MethodRow, MethodRows, PackageRow, PackageRows, PackageVars, Program,
    Texts,
};
use go_core::tree::FuncId;
use go_type::TypeTable;
use go_type::types::TypeId;
use std::alloc::Global;

/// The rows of a program beside its functions: those of methods, and of packages.
#[derive(Drop)]
pub struct Rows {
    pub methods: Vec<MethodRow>,
    pub packages: Vec<PackageRow>,
}

fn method_row(alloc: Global, hidden: TypeId, name: &[u8], id: u32) -> Result<MethodRow, NoMemory>
    ensures value { IfOk result (λ r. (ts : List Ty) → tree_of ts hidden ≡ known.hidden → method_row_view ts r ≡ go.method_at name.now id) }
{
    let name = Text::from_slice(alloc, name)?;
    Ok(MethodRow {
        ty: hidden,
        name,
        package: Text::new(alloc),
        func: FuncId(id),
    })
}

fn next(n: u32) -> Result<u32, NoMemory>
    ensures value { IfOk result (λ m. m ≡ suc n) }
{
    match n.checked_add(1) {
        Some(m) => Ok(m),
        None => Err(NoMemory),
    }
}

fn methods(alloc: Global, hidden: TypeId, count: u32) -> Result<Vec<MethodRow>, NoMemory>
    ensures value { IfOk result (λ rs. (ts : List Ty) → tree_of ts hidden ≡ known.hidden → map (method_row_view ts) rs.items ≡ go.method_at (codes "Error") count ∷ go.method_at (codes "RuntimeError") (suc count) ∷ []) }
{
    let second = next(count)?;
    let mut all = Vec::new(alloc);
    let text = method_row(alloc, hidden, b"Error".as_slice(), count)?;
    all.push(text)?;
    let mark = method_row(alloc, hidden, b"RuntimeError".as_slice(), second)?;
    all.push(mark)?;
    Ok(all)
}

// The package of the program, which imports none and has no function `init`.
fn packages(alloc: Global) -> Result<Vec<PackageRow>, NoMemory>
    ensures value { IfOk result (λ rs. map package_row_view rs.items ≡ record { path = []; imports = []; inits = [] } ∷ []) }
{
    let mut all = Vec::new(alloc);
    all.push(PackageRow {
        path: Text::new(alloc),
        imports: Texts {
            items: Vec::new(alloc),
        },
        inits: FuncIds {
            items: Vec::new(alloc),
        },
    })?;
    Ok(all)
}

/// The rows of a program with so many functions in its text.
pub fn rows_of(alloc: Global, hidden: TypeId, count: u32) -> Result<Rows, NoMemory>
    ensures methods { IfOk result (λ r. (ts : List Ty) → tree_of ts hidden ≡ known.hidden → map (method_row_view ts) r.methods.items ≡ go.method_at (codes "Error") count ∷ go.method_at (codes "RuntimeError") (suc count) ∷ []) }
    ensures packages { IfOk result (λ r. map package_row_view r.packages.items ≡ record { path = []; imports = []; inits = [] } ∷ []) }
{
    let methods = methods(alloc, hidden, count)?;
    let packages = packages(alloc)?;
    Ok(Rows { methods, packages })
}

/// The program of these functions, those of the type of run-time panics with them; takes no memory.
pub fn whole(
    alloc: Global,
    types: TypeTable,
    funcs: Vec<Func>,
    rows: Rows,
    main: u32,
    hidden: TypeId,
) -> Program
    ensures value { (r : Functions) (count : ℕ) → tree_of (places types) hidden ≡ known.hidden → names types ≡ r.between.names → map (func_view (places types)) funcs.items ≡ r.funcs ++ go.error_function r.between.next ∷ go.runtime_function (r.between.next + 2) ∷ [] → map (method_row_view (places types)) rows.methods.items ≡ go.method_at (codes "Error") count ∷ go.method_at (codes "RuntimeError") (suc count) ∷ [] → map package_row_view rows.packages.items ≡ record { path = []; imports = []; inits = [] } ∷ [] → program_view result ≡ record (go.program_with main r count) { types = places types } }
{
    let Rows { methods, packages } = rows;
    Program {
        types,
        funcs: Funcs { items: funcs },
        globals: PackageVars {
            items: Vec::new(alloc),
        },
        methods: MethodRows { items: methods },
        main: FuncId(main),
        packages: PackageRows { items: packages },
        hidden,
    }
}
