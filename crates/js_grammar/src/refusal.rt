//! Why a script is not read.

ghost use Rattle.std.specs.Prelude.{◌≡◌};

use gj_base::NoMemory;
use thiserror::Error;

/// Why bytes were not read.
#[derive(Clone, Copy, Debug, PartialEq, Eq, Error)]
pub enum ReadRefusal {
    /// The bytes are no script; the offset is 0 for now.
    #[error("Syntax({0})")]
    Syntax(u32),
    /// Memory was refused.
    #[error("NoMemory")]
    NoMemory,
}

impl From<NoMemory> for ReadRefusal {
    ghost use Rattle.js_grammar.specs.declared.refusal.ReadRefusal.TheVariants as refusal;

    ghost from_gives = { λ _ r. r ≡ refusal.NoMemory };

    fn from(_e: NoMemory) -> ReadRefusal {
        ReadRefusal::NoMemory
    }
}

/// The bytes are no script.
pub fn syntax() -> ReadRefusal
    ensures { result ≡ ReadRefusal.Syntax 0 }
{
    ReadRefusal::Syntax(0)
}
