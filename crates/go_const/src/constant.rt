//! Constants, the types that they may be converted to, and refusals.

use gj_base::{Kind, NoMemory, Text};

/// A constant.
///
/// Go, "Constants": an untyped whole number is an integer or a rune constant; a typed one is `Int`.
#[derive(Clone, Debug, Drop, PartialEq, Eq)]
pub enum Const {
    /// A truth value.
    Bool(bool),
    /// A typed whole number, or an untyped integer constant.
    Int(i128),
    /// An untyped rune constant.
    Rune(i128),
    /// A byte string.
    Text(Text),
}

/// The types of constants: what a conversion goes to.
#[derive(Clone, Copy, Debug, PartialEq, Eq)]
pub enum Basic {
    Bool,
    Str,
    Int(Kind),
}

/// Why there is no constant.
#[derive(Clone, Copy, Debug, PartialEq, Eq)]
pub enum ConstRefusal {
    /// The fault's code: 30 zero divisor, 31 untyped value outside 128 bits, 32 value that its type
    /// does not hold, 33 negative shift count.
    Code(u16),
    /// An allocation was refused.
    NoMemory,
}

impl From<NoMemory> for ConstRefusal {
    ghost use Rattle.std.specs.Prelude.{◌≡◌};
    ghost use Rattle.go_const.specs.declared.constant.ConstRefusal.TheVariants as refusal;

    ghost from_gives = { λ _ r. r ≡ refusal.NoMemory };

    fn from(_e: NoMemory) -> ConstRefusal {
        ConstRefusal::NoMemory
    }
}
