//! Package variables.
//!
//! The Go Programming Language Specification (as of Go 1.17), "Variables".

ghost use Rattle.std.specs.Prelude.{◌≡◌, List, IfOk, map};
ghost use Rattle.go_type.specs.Tree.{Ty};
ghost use Rattle.go_type.specs.Table.{places, names};
ghost use Rattle.go_core.specs.CoreView.{program_view, package_var_view};
ghost use Rattle.go_core.specs.Did as did;
ghost use Rattle.go_core.specs.Memory as core;
ghost use Rattle.go_core.specs.StepMemory as defined;
ghost use Rattle.go_values.specs.OperatorsSeen.{Does};

use gj_base::NoMemory;
use go_core::program::{PackageVar, Program};
use go_values::operators::did::{Context, Gives, Stop, gives_one};
use go_values::operators::places::{size_of, sum};
use go_values::values::scalar::Scalar;

/// The first place of a package variable: they lie one after another, from the beginning.
pub fn global_base(c: &Context, globals: &[PackageVar], number: u64) -> Result<u64, NoMemory>
    ensures value { IfOk result (λ n. let ts = places c.now.table.now in n ≡ defined.global_base (names c.now.table.now) (map (package_var_view ts) globals.now) number) }
{
    let mut base = 0u64;
    'globals: for i in 0..globals.len() {
        if i as u64 >= number {
            return Ok(base);
        }
        let one = size_of(c, globals[i].ty)?;
        let next = sum(base, one)?;
        base = next;
    }
    Ok(base)
}

/// The place of a package variable.
pub fn global_step<'a>(c: &Context<'a>, p: &Program, number: u64) -> Result<Gives<'a>, Stop>
    requires { c.now.table.now ≡ p.now.types }
    ensures value { (ts : List Ty) (m : core.Memory) → Does ts m result (did.value_of m (core.pointer (defined.global_base (program_view p.now).names (program_view p.now).globals number)) 0) }
{
    let base = global_base(c, p.globals.items.as_slice(), number)?;
    gives_one(c, Scalar::Pointer(base), 0)
}
