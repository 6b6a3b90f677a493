//! Why a folder has no script.

ghost use Rattle.std.specs.Prelude.{Err};
ghost use Rattle.gj_compile.specs.Fronts.{GoesOn};

use gj_base::{Fault, NoMemory, Refusal};
use go_load::Sources;

/// Why a folder has no script.
#[derive(Debug, Drop)]
pub enum Refused {
    /// The source files break a rule here. These are all files that were read, by number.
    Fault(Fault, Sources),
    /// The same, told of a program that has forms for which nothing is proved yet.
    Beyond(Fault, Sources),
    /// A read failed, or the root has no `.go` file.
    ReadFault,
    NoMemory,
    /// Two parts of the compiler contradict each other.
    Internal,
}

impl From<NoMemory> for Refused {
    ghost use Rattle.std.specs.Prelude.{◌≡◌};
    ghost use Rattle.gj_compile.specs.declared.refused.Refused.TheVariants as refused;

    ghost from_gives = { λ _ r. r ≡ refused.NoMemory };

    fn from(_e: NoMemory) -> Refused {
        Refused::NoMemory
    }
}

/// What a refusal of a stage beyond the proved ones becomes.
pub fn beyond(refusal: Refusal, files: Sources) -> Refused
    ensures { GoesOn (Err result) }
{
    match refusal {
        Refusal::Fault(fault) => Refused::Beyond(fault, files),
        Refusal::NoMemory => Refused::NoMemory,
    }
}
