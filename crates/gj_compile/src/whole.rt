//! The loader of imports and the checker of the whole profile.

ghost use Rattle.gj_compile.specs.Fronts.{GoesOn, Imports, IsUnloaded};

use crate::front::Checked;
use crate::refused::{Refused, beyond};
use gj_base::Files;
use go_check::check;
use go_core::program::Program;
use go_import::load_program;
use go_is_sound::is_sound;
use go_load::{LoadRefusal, Packages};
use go_stmt::gone_program;
use std::alloc::Global;

/// Reads a folder with its imports, and checks it.
pub fn check_imports<F: Files>(
    alloc: Global,
    root: &str,
    src: &str,
    files: &mut F,
) -> Result<Checked, Refused>
    ensures { Imports result (F.state files.old) (F.state files.new) }
{
    match load_program(alloc, files, root, src) {
        Ok(packages) => check_whole(alloc, packages),
        Err(refusal) => Err(unloaded(refusal)),
    }
}

/// What a refusal of the loader of imports becomes.
fn unloaded(refusal: LoadRefusal) -> Refused
    ensures { IsUnloaded refusal result }
{
    match refusal {
        LoadRefusal::Fault(fault, sources) => Refused::Beyond(fault, sources),
        LoadRefusal::ReadFault => Refused::ReadFault,
        LoadRefusal::NoMemory => Refused::NoMemory,
    }
}

/// Checks packages of any form.
pub fn check_whole(alloc: Global, packages: Packages) -> Result<Checked, Refused>
    ensures { GoesOn result }
{
    match check(alloc, &packages) {
        Ok(program) => only_sound(alloc, packages, program),
        Err(refusal) => Err(beyond(refusal, packages.into_files())),
    }
}

/// What comes of a program that isn't plain: it is Sound, or it goes no further.
pub fn only_sound(alloc: Global, packages: Packages, program: Program) -> Result<Checked, Refused>
    ensures { GoesOn result }
{
    match is_sound(alloc, &program) {
        Ok(true) => Ok(Checked {
            program,
            files: packages.into_files(),
            is_plain: false,
        }),
        Ok(false) => {
            gone_program(program);
            Err(Refused::Internal)
        }
        Err(_) => {
            gone_program(program);
            Err(Refused::NoMemory)
        }
    }
}
