//! From a program to its script.

ghost use Rattle.std.specs.Prelude.{◌≡◌, [], IfOk, true, false};
ghost use Rattle.go_core.specs.CoreView.{program_view};
ghost use Rattle.go_core.specs.SoundProgram.{Sound};
ghost use Rattle.js_prints.specs.Faithful.{Faithful};
ghost use Rattle.js_prints.specs.Prints.{only_prints};
ghost use Rattle.js_tree.specs.Printable.{IsPrintable};
ghost use Rattle.js_tree.specs.View.{script_view};
ghost use Rattle.gj_compile.specs.Fronts.{Scripts, ScriptsPlain, ScriptsAny};

use crate::front::Checked;
use crate::refused::Refused;
use crate::translation::{Untranslated, translated};
use gj_base::{Fault, Place, Text};
use go_core::program::Program;
use go_core::tree::{FuncSet, Order};
use go_load::Sources;
use go_stmt::gone_program;
use js_prints::emit;
use js_tree::Script;
use std::alloc::Global;

/// The code of a cycle of package variables.
const CYCLE: u16 = 48;

/// The script of a program, which is printable; `Beyond` where its package variables need themselves.
/// One that isn't plain is Sound.
pub fn script_of(alloc: Global, checked: Checked) -> Result<Script, Refused>
    requires plain { checked.is_plain ≡ true → only_prints (program_view checked.program) ≡ true }
    requires sound { checked.is_plain ≡ false → Sound (program_view checked.program) }
    ensures { Scripts result checked }
{
    if checked.is_plain {
        return plain_script(alloc, checked.program);
    }
    whole_script(alloc, checked.program, checked.files)
}

/// The script of a program that only prints.
fn plain_script(alloc: Global, program: Program) -> Result<Script, Refused>
    requires { only_prints (program_view program) ≡ true }
    ensures { ScriptsPlain result program }
{
    let made = emit(alloc, &program, &Order::new(alloc), &FuncSet::new(alloc));
    gone_program(program);
    match made {
        Ok(script) => Ok(script),
        Err(_) => Err(Refused::NoMemory),
    }
}

/// The script of a Sound program.
fn whole_script(alloc: Global, program: Program, files: Sources) -> Result<Script, Refused>
    requires { Sound (program_view program) }
    ensures { ScriptsAny result }
{
    let made = translated(alloc, &program);
    gone_program(program);
    match made {
        Ok(script) => Ok(script),
        Err(Untranslated::Cycle(place)) => Err(Refused::Beyond(cycle(alloc, place), files)),
        Err(Untranslated::NoMemory) => Err(Refused::NoMemory),
        Err(Untranslated::Internal) => Err(Refused::Internal),
    }
}

/// The fault of variables that need themselves before they are initialised.
fn cycle(alloc: Global, place: Place) -> Fault {
    Fault {
        place,
        code: CYCLE,
        text: Text::new(alloc),
    }
}
