//! Faults of source files, and what a call refuses with.

use crate::memory::NoMemory;
use crate::place::Place;
use crate::text::Text;
use std::alloc::{AllocError, AllocFailed};

/// A place where the files break a rule, with the number of the rule and what is told of it.
#[derive(Clone, Debug, PartialEq, Eq, Drop)]
pub struct Fault {
    pub place: Place,
    pub code: u16,
    pub text: Text,
}

/// What a layer between files and program refuses with.
#[derive(Debug, Drop)]
pub enum Refusal {
    Fault(Fault),
    NoMemory,
}

impl From<NoMemory> for Refusal {
    ghost use Rattle.std.specs.Prelude.{◌≡◌};
    ghost use Rattle.gj_base.specs.declared.fault.Refusal.TheVariants as refusal;

    ghost from_gives = { λ _ r. r ≡ refusal.NoMemory };

    fn from(_e: NoMemory) -> Refusal {
        Refusal::NoMemory
    }
}
