//! From a program of the core to its script, by its order of initialisation and its marks.

ghost use Rattle.std.specs.Prelude.{IfOk};
ghost use Rattle.go_core.specs.CoreView.{program_view};
ghost use Rattle.go_core.specs.SoundProgram.{Sound};
ghost use Rattle.js_tree.specs.Printable.{IsPrintable};
ghost use Rattle.js_tree.specs.View.{script_view};

use gj_base::{NoMemory, Place, Refusal};
use go_core::program::Program;
use go_init::init_order;
use go_marks::marks;
use js_emit::{EmitRefusal, emit};
use js_printable::is_printable;
use js_tree::Script;
use std::alloc::Global;

/// Why a program has no script.
#[derive(Debug, Drop)]
pub enum Untranslated {
    /// The initialisation of its package variables has a cycle, of which the variable here is one.
    Cycle(Place),
    NoMemory,
    /// The translation met what no sound program has, or its script is not printable.
    Internal,
}

impl From<NoMemory> for Untranslated {
    ghost from_gives = { λ _ _. Unit {0} };

    fn from(_e: NoMemory) -> Untranslated {
        Untranslated::NoMemory
    }
}

impl From<Refusal> for Untranslated {
    ghost from_gives = { λ _ _. Unit {0} };

    fn from(refusal: Refusal) -> Untranslated {
        match refusal {
            Refusal::Fault(fault) => Untranslated::Cycle(fault.place),
            Refusal::NoMemory => Untranslated::NoMemory,
        }
    }
}

impl From<EmitRefusal> for Untranslated {
    ghost from_gives = { λ _ _. Unit {0} };

    fn from(refusal: EmitRefusal) -> Untranslated {
        match refusal {
            EmitRefusal::NoMemory => Untranslated::NoMemory,
            EmitRefusal::Internal => Untranslated::Internal,
        }
    }
}

/// The script of a Sound program, which is printable.
pub fn translated(alloc: Global, program: &Program) -> Result<Script, Untranslated>
    requires { Sound (program_view program.now) }
    ensures { IfOk result (λ script. IsPrintable (script_view script)) }
{
    let order = init_order(alloc, program)?;
    let marks = marks(alloc, program)?;
    let script = emit(alloc, program, &order, &marks)?;
    if is_printable(&script) {
        return Ok(script);
    }
    Err(Untranslated::Internal)
}
