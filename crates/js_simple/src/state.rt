//! What expressions without calls are evaluated with, and why there may be no value.

ghost use Rattle.js_simple.specs.Simple.{IsSomeCode};

use bumpalo::Bump;
use gj_base::NoMemory;
use js_code::code::Code;
use js_value::heap::Value;
use std::alloc::{AllocError, AllocFailed, Global};

/// A variable by its slot: what has been set, if anything.
pub type Slot<'a> = Option<Value<'a>>;

/// Why an evaluation gave no value.
#[derive(Clone, Copy, Debug, PartialEq, Eq)]
pub enum Halt {
    /// The operation at an offset has no meaning.
    Stuck(u32),
    NoMemory,
}

impl From<NoMemory> for Halt {
    ghost use Rattle.std.specs.Prelude.{◌≡◌};
    ghost use Rattle.js_simple.specs.declared.state.Halt.TheVariants as halt;

    ghost from_gives = { λ _ r. r ≡ halt.NoMemory };

    fn from(_e: NoMemory) -> Halt {
        Halt::NoMemory
    }
}

impl From<AllocError> for Halt {
    ghost use Rattle.std.specs.Prelude.{◌≡◌};
    ghost use Rattle.js_simple.specs.declared.state.Halt.TheVariants as halt;

    ghost from_gives = { λ _ r. r ≡ halt.NoMemory };

    fn from(_e: AllocError) -> Halt {
        Halt::NoMemory
    }
}

impl<T: Drop> From<AllocFailed<T>> for Halt {
    ghost use Rattle.std.specs.Prelude.{◌≡◌};
    ghost use Rattle.js_simple.specs.declared.state.Halt.TheVariants as halt;

    ghost from_gives = { λ _ r. r ≡ halt.NoMemory };

    fn from(_e: AllocFailed<T>) -> Halt {
        Halt::NoMemory
    }
}

/// What expressions are evaluated with. Nothing of it changes while they are.
#[derive(Clone, Copy)]
pub struct Context<'c, 'a> {
    pub alloc: Global,
    /// Where strings are kept.
    pub arena: &'a Bump,
    pub code: &'c Code<'a>,
    /// The slots of the call that runs.
    pub locals: &'c [Slot<'a>],
    /// The slots of the top-level variables.
    pub globals: &'c [Slot<'a>],
    /// What the innermost `catch` caught.
    pub caught: Option<Value<'a>>,
    pub ghost sound: { ∥ IsSomeCode code.now ∥₁ },
}
