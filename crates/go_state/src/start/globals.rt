//! Package variables before a run.
//!
//! The Go Programming Language Specification (as of Go 1.17), "The zero value", "Package
//! initialization".

ghost use Rattle.std.specs.Prelude.{◌≡◌, ◌++◌, ◌==◌, ◌&&◌, [], ◌∷◌, List, IfOk, OnOk, bytes_eq, if◌then◌else◌, map};
ghost use Rattle.go_type.specs.Tree.{Ty};
ghost use Rattle.go_type.specs.Table.{places, names};
ghost use Rattle.go_core.specs.CoreView.{package_var_view};
ghost use Rattle.go_core.specs.Run as running;
ghost use Rattle.go_core.specs.StepMemory as cells;
ghost use Rattle.go_values.specs.ValuesSeen.{value_of};

use gj_base::NoMemory;
use go_core::program::PackageVar;
use go_values::operators::did::Context;
use go_values::operators::places::{sum, weight_of, zeros_of};
use go_values::values::scalar::Scalar;

/// All package variables at zero.
pub fn global_zeros<'a>(
    c: &Context<'a>,
    globals: &[PackageVar],
) -> Result<Vec<Scalar<'a>>, NoMemory>
    ensures value { IfOk result (λ xs. let ts = places c.now.table.now in value_of ts xs.items ≡ cells.global_zeros (names c.now.table.now) (map (package_var_view ts) globals.now)) }
{
    let mut xs = Vec::new(c.alloc);
    'globals: for i in 0..globals.len() {
        let zeros = zeros_of(c, globals[i].ty)?;
        xs.extend_from_slice(zeros)?;
    }
    Ok(xs)
}

/// What all package variables take of units.
pub fn global_weight(c: &Context, globals: &[PackageVar]) -> Result<u64, NoMemory>
    ensures value { IfOk result (λ n. let ts = places c.now.table.now in n ≡ cells.global_weight (names c.now.table.now) (map (package_var_view ts) globals.now)) }
{
    let mut units = 0;
    'globals: for i in 0..globals.len() {
        let one = weight_of(c, globals[i].ty)?;
        units = sum(units, one)?;
    }
    Ok(units)
}

// Whether the initialiser of a package variable sets another one.
fn sets(holder: &PackageVar, other: &PackageVar) -> bool
    ensures value { (ts : List Ty) → let x = package_var_view ts holder.now in let v = package_var_view ts other.now in result ≡ (v.first == x.number) && bytes_eq v.package_ x.package_ }
{
    other.first == holder.number && other.package.as_bytes() == holder.package.as_bytes()
}

// One more number, where it is wanted.
fn add_where(numbers: &mut Vec<u64>, wanted: bool, number: u64) -> Result<(), NoMemory>
    ensures value { OnOk result (numbers.new.items ≡ (if wanted then numbers.old.items ++ number ∷ [] else numbers.old.items)) }
{
    if !wanted {
        return Ok(());
    }
    numbers.push(number)?;
    Ok(())
}

/// The package variables that one initialiser sets, by their places.
pub fn set_with<'a>(
    c: &Context<'a>,
    holder: &PackageVar,
    globals: &[PackageVar],
) -> Result<&'a [u64], NoMemory>
    ensures value { IfOk result (λ ns. (ts : List Ty) → ns.now ≡ running.set_with (package_var_view ts holder.now) 0 (map (package_var_view ts) globals.now)) }
{
    let mut numbers = Vec::new(c.alloc);
    'globals: for i in 0..globals.len() {
        let wanted = sets(holder, &globals[i]);
        add_where(&mut numbers, wanted, i as u64)?;
    }
    let held: &'a [u64] = c.arena.try_alloc_slice_copy(numbers.as_slice())?;
    Ok(held)
}
